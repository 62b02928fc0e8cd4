// The lines of a sheet, and the line of a refusal.
#![tactic(auto, using(std::proofs::lemmas::Grind::common_steps), unfolding(crate::specs::Sheet::refusal_line, crate::specs::Lines::end_lines, crate::specs::Text::line, crate::specs::Text::number_line, crate::specs::Text::behind))]

ghost use Rattle.std.specs.Prelude.{◌+◌, ◌≤◌, length};
ghost use Rattle.sets.specs.Words.{jobs};
ghost use Rattle.sets.specs.Refusals.{comes_back};
ghost use Rattle.sheet.specs.Sheet.{job_lines, refusal_line};
ghost use Rattle.sheet.specs.Page.{Gets, HasRoom};
ghost use Rattle.sheet.specs.Lines.{end_lines, searched_lines, sheet_lines, told_text};

use crate::page::Page;
use search::Searched;
use sets::jobset::JobSet;
use sets::refusal::Refusal;

// What a sheet says: how many jobs there are and how many are held, how the search ended, and the set that it kept.
#[derive(Clone, Copy, PartialEq, Eq, Debug)]
pub struct Sheet {
    pub n: usize,
    pub held: usize,
    pub searched: Searched,
    pub kept: JobSet,
}

// The lines on the search, with the word for how it ended.
fn put_end(page: &mut Page<'_>, word: &[u8], size: usize, visits: u64)
    requires { HasRoom page.old (end_lines word.now size visits) }
    ensures { Gets page.old (end_lines word.now size visits) page.new }
{
    page.put_word(b"answer ");
    page.put_word(word);
    page.put_word(b"\n");
    page.put_line(b"size", &[size as u64]);
    page.put_line(b"visits", &[visits]);
}

// The lines on the search.
fn put_searched(page: &mut Page<'_>, searched: Searched)
    requires { HasRoom page.old (searched_lines searched) }
    ensures { Gets page.old (searched_lines searched) page.new }
{
    match searched {
        Searched::Best { size, visits } => put_end(page, b"best", size, visits),
        Searched::Unfinished { size, visits } => put_end(page, b"unfinished", size, visits),
    }
}

// A line for each job of a set, ascending.
fn put_jobs(page: &mut Page<'_>, kept: JobSet)
    requires { HasRoom page.old (job_lines (jobs kept.words)) }
    ensures { Gets page.old (job_lines (jobs kept.words)) page.new }
{
    for job in kept {
        page.put_line(b"job", &[job as u64]);
    }
}

impl Sheet {
    // All its lines.
    fn put(self, page: &mut Page<'_>)
        requires { HasRoom page.old (sheet_lines self) }
        ensures { Gets page.old (sheet_lines self) page.new }
    {
        page.put_line(b"jobs", &[self.n as u64]);
        page.put_line(b"held", &[self.held as u64]);
        put_searched(page, self.searched);
        put_jobs(page, self.kept);
    }
}

// The line of a refusal: its number, and its values behind it.
fn put_refusal(page: &mut Page<'_>, refusal: Refusal)
    requires { HasRoom page.old (refusal_line (comes_back refusal)) }
    ensures { Gets page.old (refusal_line (comes_back refusal)) page.new }
{
    match refusal {
        Refusal::Alone(fault) => page.put_line(b"refused", &[fault.number() as u64]),
        Refusal::WithOne(fault, value) => {
            page.put_line(b"refused", &[fault.number() as u64, value as u64])
        }
        Refusal::At(fault, place) => {
            let numbers = [fault.number() as u64, place.row as u64, place.column as u64];
            page.put_line(b"refused", &numbers)
        }
    }
}

// The lines of a sheet, or the line of a refusal.
pub fn put_told(page: &mut Page<'_>, told: Result<Sheet, Refusal>)
    requires { HasRoom page.old (told_text told) }
    ensures { Gets page.old (told_text told) page.new }
{
    match told {
        Ok(sheet) => sheet.put(page),
        Err(refusal) => put_refusal(page, refusal),
    }
}
