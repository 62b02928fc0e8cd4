// Prefer for C.
ghost use Rattle.std.specs.Prelude.{◌≡◌};
ghost use Rattle.sets.specs.Prefer.{preferred};
ghost use Rattle.buyerspruce.specs.Reply.{choice_number};
ghost use Rattle.buyerspruce.specs.Promises.{PreferCall};

use crate::reply::{Kind, Numbers, tell};
use sets::jobset::SET_WORDS;
use sets::prefer::prefer;

// What a reply of the kind Preferred says.
#[derive(Clone, Copy, PartialEq, Eq, Debug)]
pub enum Choice {
    Neither = 0,
    First = 1,
    Second = 2,
}

// Which of two sets is preferred.
fn which<'a>(first: &'a [u64], second: &'a [u64]) -> Choice
    ensures { choice_number result ≡ preferred first.now second.now 1 2 0 }
{
    let chosen = prefer(first, second);
    if chosen.len() != SET_WORDS {
        return Choice::Neither;
    }
    if chosen == first {
        Choice::First
    } else {
        Choice::Second
    }
}

// Prefer: which of two sets is the larger, at equal size the earlier.
#[unsafe(no_mangle)]
pub extern "C" fn buyerspruce_prefer<'a>(
    first: &'a [u64],
    second: &'a [u64],
    reply: &mut [u64],
) -> u64
    ensures { PreferCall first.now second.now reply.old result reply.new }
{
    tell(
        reply,
        &mut || Numbers([Kind::Preferred as u64, which(first, second) as u64, 0, 0]),
    )
}
