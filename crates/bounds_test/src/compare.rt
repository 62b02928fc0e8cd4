// Each bound against its plain rendering, counted.
ghost use Rattle.std.specs.Prelude.{◌≡◌, ◌*◌, ◌≤◌, ◌<◌, length};
ghost use Rattle.sets.specs.Words.{jobs};
ghost use Rattle.graphs.specs.Clique.{Paired};
ghost use Rattle.rows.specs.Rows.{fits_at, Since};

use super::pairing::match_plainly;
use super::plain;
use bounds::dominance::missed;
use bounds::matching::largest_matching;
use filter::degree_filter;
use rows::pack::pack;
use rows::packed::Rows;
use rows::set::size_of_both;
use sets::jobset::JobSet;
use sets::table::Table;
use std::fmt;
use test_kit::counts::{add, count};
use test_kit::limits::{MOST_JOBS, SET_WORDS, TABLE_WORDS};
use test_kit::packed::{Packed, low_of, width_for};
use test_kit::plain::{Graph, Set};

// How often a bound was run and agreed, and the sum of its values.
#[derive(Clone, Copy, Default)]
pub struct Tally {
    run: usize,
    agreed: usize,
    sum: usize,
}

impl Tally {
    fn note(&mut self, agrees: bool, value: usize) {
        add(&mut self.run, 1);
        count(&mut self.agreed, agrees);
        add(&mut self.sum, value);
    }
}

// How many tables there were; for each bound its tally; how often the filter took a job, and how often a matching and a cover show m.
#[derive(Clone, Copy, Default)]
pub struct Counts {
    pub tables: usize,
    filter: Tally,
    took: usize,
    matching: Tally,
    covers: usize,
    dominance: Tally,
}

impl fmt::Display for Counts {
    fn fmt<W: fmt::Write>(&self, f: &mut fmt::Formatter<W>) -> fmt::Result {
        let Counts {
            filter,
            matching,
            dominance,
            ..
        } = self;
        write!(
            f,
            "tables {}; filter {} of {}, left {}, took {}",
            self.tables, filter.agreed, filter.run, filter.sum, self.took
        )?;
        write!(
            f,
            "; m {} of {}, sum {}, covers {}",
            matching.agreed, matching.run, matching.sum, self.covers
        )?;
        write!(
            f,
            "; dominance {} of {}, yes {}",
            dominance.agreed, dominance.run, dominance.sum
        )
    }
}

fn size_of(part: &[u64], low: usize) -> usize
    requires low_in_bounds { (low < length part.now) × (length part.now ≤ 4) }
    requires since { Since low (jobs part.now) }
    ensures { result ≡ length (jobs part.now) }
{
    size_of_both(part, part, low)
}

// What the filter left, and how many it says it took.
#[derive(Clone, Copy)]
struct Filtered {
    p: JobSet,
    taken: usize,
}

// A graph, and the packed rows of its table, which no check refuses.
#[derive(Clone, Copy)]
struct Checked<'a> {
    graph: Graph<'a>,
    rows: Rows<'a>,
    ghost narrow: { (1 ≤ rows.width) × (rows.width ≤ 4) },
    ghost long: { length rows.words.now ≡ rows.width * graph.n },
    ghost paired: { Paired (fits_at rows.width rows.words.now) },
}

// The filter on packed rows; none of a set with a job that has no row. Nothing is known of the jobs beforehand, and what the lent room holds at first means nothing.
fn filter_by_words(checked: Checked<'_>, p: &Set, c: usize, k: usize) -> Option<Filtered> {
    let width = checked.rows.width;
    let mut words = p.words();
    let set = JobSet { words };
    if set.minus(JobSet::first(checked.graph.n)).size() != 0 {
        return None;
    }
    let low = low_of(&words[..width]);
    let count = size_of(&words[..width], low);
    let mut room = [u64::MAX; MOST_JOBS];
    let left = degree_filter(
        checked.rows,
        low,
        c,
        k,
        &mut words[..width],
        count,
        0,
        &mut room,
    );
    Some(Filtered {
        p: JobSet { words },
        taken: left.taken,
    })
}

// The other bounds on packed rows. A set's words past the width are left out: the table's jobs have none there.
fn joins_by_words(packed: &Packed, p: &Set) -> usize {
    let words = p.words();
    let mut room = [7u64; MOST_JOBS];
    largest_matching(packed.rows(), &words[..packed.width], &mut room)
}

fn is_dominated_by_words(packed: &Packed, p: &Set, x: &Set) -> bool {
    let words = p.words();
    let others = x.words();
    let low = low_of(&words[..packed.width]);
    missed(
        packed.rows(),
        low,
        &words[..packed.width],
        &others[..packed.width],
        0,
    )
    .is_none()
}

// Whether the filter leaves the same jobs, and says how many it took.
fn filters_agree(checked: Checked<'_>, p: &Set, c: usize, k: usize) -> bool {
    let left = plain::filter(checked.graph, *p, c, k);
    filter_by_words(checked, p, c, k).is_some_and(|s| {
        s.p.words == left.words() && s.p.size().wrapping_add(s.taken) == p.size(MOST_JOBS)
    })
}

// Where the filter is not asked, a run is counted that does not agree.
fn compare_filter(checked: Checked<'_>, p: &Set, c: usize, k: usize, counts: &mut Counts) {
    let Some(s) = filter_by_words(checked, p, c, k) else {
        counts.filter.note(false, 0);
        return;
    };
    let last = p.last_quarter(checked.graph.n);
    let agrees = filters_agree(checked, p, c, k) && filters_agree(checked, &last, c, k);
    counts.filter.note(agrees, s.p.size());
    count(&mut counts.took, s.taken != 0);
}

// K no larger than C; then by the number d of neighbours that some job has: it is not taken at first, it is taken, and by parts of that number.
fn compare_by_degree(checked: Checked<'_>, p: &Set, d: usize, counts: &mut Counts) {
    let sizes = [
        (0, 0),
        (5, 5),
        (7, 2),
        (0, d),
        (1, d.wrapping_add(2)),
        (9, (d - d / 8).wrapping_add(9)),
        (2, (d / 2).wrapping_add(3)),
    ];
    for (c, k) in sizes {
        compare_filter(checked, p, c, k, counts);
    }
}

// The filter asks for a table that no check refuses; where one does, a run is counted that does not agree.
// Kept: no plainer by Packed: that would have to carry the two facts that the filter asks for, of a checked table alone, for tables and programs that have no use for them.
pub fn compare_filters(graph: Graph<'_>, p: &Set, y: usize, counts: &mut Counts) {
    let n = graph.n;
    if MOST_JOBS < n {
        counts.filter.note(false, 0);
        return;
    }
    let words = graph.table.words(n);
    let table = Table {
        n,
        words: &words[..SET_WORDS * n],
    };
    if let Err(_) = table.check(JobSet::EMPTY) {
        counts.filter.note(false, 0);
        return;
    }
    let width = width_for(n);
    let mut room = [u64::MAX; TABLE_WORDS];
    pack(table.words, n, width, &mut room[..width * n]);
    let rows = Rows {
        words: &room[..width * n],
        width,
    };
    compare_by_degree(Checked { graph, rows }, p, graph.degree(p, y), counts);
}

// Kept: a graph, its packed rows, P and the tally one by one, here and below: a struct of them would be made by `main` for each call and taken apart in it.
pub fn compare_matching(graph: Graph<'_>, packed: &Packed, p: &Set, counts: &mut Counts) {
    let m = joins_by_words(packed, p);
    let second = match_plainly(graph.table, p);
    counts.matching.note(m == second.m, m);
    count(&mut counts.covers, second.shown);
}

pub fn compare_dominance(graph: Graph<'_>, packed: &Packed, p: &Set, x: &Set, counts: &mut Counts) {
    let last = p.last_quarter(graph.n);
    let answer = is_dominated_by_words(packed, p, x);
    let of_last = is_dominated_by_words(packed, &last, x);
    let agrees = answer == plain::is_dominated(graph, p, x)
        && of_last == plain::is_dominated(graph, &last, x);
    counts.dominance.note(agrees, usize::from(answer));
}
