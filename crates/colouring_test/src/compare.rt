// Colour, and the colouring in the search's room, against the second method, counted.
use super::lent::{Classes, class_at};
use super::plain::Colouring;
use super::shown::is_colouring;
use colouring::colour;
use colouring::greedy::greedy_classes;
use rows::set::lowest_of;
use std::fmt;
use test_kit::counts::{add, count};
use test_kit::limits::{MOST_JOBS, TABLE_WORDS, WORD_JOBS};
use test_kit::noise::{fill, is_kept};
use test_kit::packed::Packed;
use test_kit::parts;
use test_kit::plain::{Graph, Set, Table};

// How often Colour was run, agreed, and handed back a colouring, and the sum of k.
#[derive(Clone, Copy, Default)]
pub struct ColourTally {
    run: usize,
    agreed: usize,
    shown: usize,
    sum: usize,
}

// How often the room's colouring was run, agreed, and left off.
#[derive(Clone, Copy, Default)]
pub struct RoomTally {
    run: usize,
    agreed: usize,
    left_off: usize,
}

// How many tables there were; Colour without pins and with pins; the room's colouring.
#[derive(Clone, Copy, Default)]
pub struct Tally {
    pub tables: usize,
    pub free: ColourTally,
    pub pinned: ColourTally,
    pub room: RoomTally,
}

impl fmt::Display for ColourTally {
    fn fmt<W: fmt::Write>(&self, f: &mut fmt::Formatter<W>) -> fmt::Result {
        write!(
            f,
            "{} of {}, sum {}, shown {}",
            self.agreed, self.run, self.sum, self.shown
        )
    }
}

impl fmt::Display for RoomTally {
    fn fmt<W: fmt::Write>(&self, f: &mut fmt::Formatter<W>) -> fmt::Result {
        write!(
            f,
            "{} of {}, left off {}",
            self.agreed, self.run, self.left_off
        )
    }
}

impl fmt::Display for Tally {
    fn fmt<W: fmt::Write>(&self, f: &mut fmt::Formatter<W>) -> fmt::Result {
        write!(
            f,
            "tables {}; colour {}; with pins {}; room {}",
            self.tables, self.free, self.pinned, self.room
        )
    }
}

// Whether the number of classes and all 256 numbers are those of the second method.
fn is_same(k: Option<usize>, classes: &Classes, second: &Colouring) -> bool {
    k == Some(second.k) && (0..MOST_JOBS).all(|j| class_at(classes, j) == second.number(j))
}

// Colour on a graph, counted.
pub fn compare_colour(
    graph: Graph<'_>,
    held: &Set,
    pins: &Set,
    tally: &mut ColourTally,
    seed: u64,
) {
    let table = graph.table.words(graph.n);
    let p = graph.candidates(held, pins);
    let mut classes = [0u16; MOST_JOBS];
    fill(&mut classes, seed);
    let answer = colour(
        graph.n,
        parts::rows(&table, graph.n),
        &held.words(),
        &pins.words(),
        &mut classes,
    );
    let second = Colouring::of(graph.table, &p);
    add(&mut tally.run, 1);
    count(&mut tally.agreed, is_same(answer.ok(), &classes, &second));
    if let Ok(k) = answer {
        count(&mut tally.shown, is_colouring(graph.table, &p, &classes, k));
        add(&mut tally.sum, k);
    }
}

// Whether the k classes lie in the room side by side, and past them the noise that was there.
fn has_classes(room: &[u64], width: usize, second: &Colouring, seed: u64) -> bool {
    let is_class = |number: usize| {
        let class = second.class(number).words();
        let at = width.wrapping_mul(number);
        room.get(at..at.wrapping_add(width)) == class.get(..width)
    };
    (0..second.k).all(is_class) && is_kept(room, width.wrapping_mul(second.k), seed)
}

// Whether the reply is right where k classes are left: one more than `most` if it leaves off.
fn is_reply(reply: Option<usize>, most: usize, k: usize) -> bool {
    match reply {
        Some(told) => told == k && k <= most,
        None => k == most.wrapping_add(1),
    }
}

// Whether the colouring of P on packed rows leaves the second method's classes, in a room of noise. A set's words past the width are left out: the table's jobs have none there.
fn leaves(packed: &Packed, p: &Set, most: usize, second: &Colouring, seed: u64) -> bool {
    let words = p.words();
    let part = &words[..packed.width];
    // Of an empty P that is a word past the last.
    let low = lowest_of(part, 0) / WORD_JOBS;
    let mut room = [0u64; TABLE_WORDS];
    fill(&mut room, seed);
    let reply = greedy_classes(packed.rows(), low, part, most, &mut room);
    is_reply(reply, most, second.k) && has_classes(&room, packed.width, second, seed)
}

// With `most` classes asked for, of a P that the second method has coloured. Where it has more, what is to be left are the classes of its shortest first part that has more:
// that part ends with the first job of class `most`, if the part before it has no more.
fn compare_most(
    t: &Table,
    packed: &Packed,
    p: &Set,
    whole: &Colouring,
    most: usize,
    tally: &mut RoomTally,
    seed: u64,
) {
    let last = whole.first_of(most);
    let end = last.unwrap_or(MOST_JOBS);
    let before = Colouring::of(t, &p.between(0, end));
    let through = Colouring::of(t, &p.between(0, end.wrapping_add(1)));
    let agrees = before.k <= most
        && last.is_some() == (most < through.k)
        && leaves(packed, p, most, &through, seed);
    add(&mut tally.run, 1);
    count(&mut tally.agreed, agrees);
    count(&mut tally.left_off, last.is_some());
}

// Kept: a table, its packed rows, P and the tally one by one: a struct of them would be made by `main` for this call and taken apart in it.
// With room for all classes, for just so many, for one fewer (none are too many where that is below 0), and for half of them.
pub fn compare_room(t: &Table, packed: &Packed, p: &Set, tally: &mut RoomTally, seed: u64) {
    let whole = Colouring::of(t, p);
    for most in [MOST_JOBS, whole.k, whole.k.wrapping_sub(1), whole.k / 2] {
        compare_most(t, packed, p, &whole, most, tally, seed);
    }
}
