// Search for C.
#![tactic(auto, unfolding(crate::specs::Reply::search_numbers, search::specs::Search::search_answer))]

ghost use Rattle.std.specs.Prelude.{◌≡◌};
ghost use Rattle.question.specs.Question.{asked};
ghost use Rattle.search.specs.Search.{search_answer};
ghost use Rattle.buyerspruce.specs.Reply.{listed, search_numbers};
ghost use Rattle.buyerspruce.specs.Promises.{SearchCall};

use crate::reply::{Kind, Numbers, tell};
use search::{Searched, search};
use sets::refusal::Refusal;

impl From<Result<Searched, Refusal>> for Numbers {
    ghost from_gives = { λ s l. listed l ≡ search_numbers (search_answer s) };

    fn from(answer: Result<Searched, Refusal>) -> Numbers {
        match answer {
            Ok(Searched::Best { size, visits }) => {
                Numbers([Kind::Best as u64, size as u64, visits, 0])
            }
            Ok(Searched::Unfinished { size, visits }) => {
                Numbers([Kind::Unfinished as u64, size as u64, visits, 0])
            }
            Err(refusal) => Numbers::from(refusal),
        }
    }
}

// Search: the largest run of unheld jobs that holds every pin, within a budget of visits.
// Kept: its parameters one by one, as the C interface has them.
#[unsafe(no_mangle)]
pub extern "C" fn buyerspruce_search(
    n: usize,
    table: &[u64],
    holds: &[u64],
    pins: &[u64],
    budget: u64,
    res: &mut [u64],
    reply: &mut [u64],
) -> u64
    ensures { SearchCall (asked n table.now holds.now pins.now) budget res.old reply.old result reply.new res.new }
{
    tell(
        reply,
        &mut || Numbers::from(search(n, table, holds, pins, budget, res)),
    )
}
