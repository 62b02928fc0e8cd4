// Check a set for C.
#![tactic(auto, unfolding(crate::specs::Reply::check_numbers, sets::specs::Check::check_answer))]

ghost use Rattle.std.specs.Prelude.{◌≡◌};
ghost use Rattle.sets.specs.Check.{check_answer};
ghost use Rattle.buyerspruce.specs.Reply.{listed, check_numbers};
ghost use Rattle.buyerspruce.specs.Promises.{CheckCall};

use crate::reply::{Kind, Numbers, tell};
use sets::check::{Checked, check_set};
use sets::refusal::Refusal;

impl From<Result<Checked, Refusal>> for Numbers {
    ghost from_gives = { λ c l. listed l ≡ check_numbers (check_answer c) };

    fn from(answer: Result<Checked, Refusal>) -> Numbers {
        match answer {
            Ok(Checked::Clique { size }) => Numbers([Kind::Clique as u64, size as u64, 0, 0]),
            Ok(Checked::Misfit { first, second }) => {
                Numbers([Kind::Pair as u64, first as u64, second as u64, 0])
            }
            Err(refusal) => Numbers::from(refusal),
        }
    }
}

// Check a set: yes with the size if it is a clique, or the first pair that does not fit.
// Kept: its parameters one by one, as the C interface has them.
#[unsafe(no_mangle)]
pub extern "C" fn buyerspruce_check(n: usize, table: &[u64], set: &[u64], reply: &mut [u64]) -> u64
    ensures { CheckCall n table.now set.now reply.old result reply.new }
{
    tell(reply, &mut || Numbers::from(check_set(n, table, set)))
}
