// The layout of every reply, its numbers under the names that bindings/c/buyerspruce.h gives them.
#![tactic(auto, unfolding(crate::specs::Reply::refused_numbers))]

ghost use Rattle.std.specs.Prelude.{◌≡◌, ◌++◌, ◌<◌, ◌≤◌, length, drop, get_or};
ghost use Rattle.sets.specs.Refusals.{comes_back};
ghost use Rattle.buyerspruce.specs.Reply.{kind_number, listed, number_or_refused, refused_numbers};

use sets::refusal::Refusal;

// The words of a reply. Where fewer are lent nothing is done, and SHORT_REPLY is returned.
pub const REPLY_WORDS: usize = 4;

pub const SHORT_REPLY: u64 = 255;

// The kinds of a reply.
// Kept: a refusal among them, as the C interface numbers them.
#[derive(Clone, Copy, PartialEq, Eq, Debug)]
pub enum Kind {
    Refused = 0,
    Best = 1,
    Unfinished = 2,
    Clique = 3,
    Pair = 4,
    Preferred = 5,
    Read = 6,
    Written = 7,
    Classes = 8,
}

// The four numbers of a reply: its kind, and three values.
#[derive(Clone, Copy, PartialEq, Eq, Debug)]
pub struct Numbers(pub [u64; 4]);

impl Numbers {
    // A number of a kind, or a refusal.
    // Inlined, as the refusal's `from` is: its numbers then go straight to the reply.
    // Kept: no From, which has one argument: over a pair it would be no plainer.
    #[inline(always)]
    pub fn of_number(kind: Kind, answer: Result<usize, Refusal>) -> Numbers
        ensures { listed result ≡ number_or_refused (kind_number kind) answer }
    {
        match answer {
            Ok(n) => Numbers([kind as u64, n as u64, 0, 0]),
            Err(refusal) => Numbers::from(refusal),
        }
    }

    // Puts the numbers into the lent reply, and returns the first.
    fn put(self, reply: &mut [u64]) -> u64
        requires { 4 ≤ length reply.old }
        ensures { (result ≡ get_or (listed self) 0 0) × (reply.new ≡ listed self ++ drop 4 reply.old) }
    {
        reply[..4].copy_from_slice(&self.0);
        self.0[0]
    }
}

// A refusal: its number, then its values.
// Kept: 0 where there is no value, the layout of the C interface.
impl From<Refusal> for Numbers {
    ghost from_gives = { λ f l. listed l ≡ refused_numbers (comes_back f) };

    #[inline(always)]
    fn from(refusal: Refusal) -> Numbers {
        let refused = Kind::Refused as u64;
        match refusal {
            Refusal::Alone(fault) => Numbers([refused, fault.number() as u64, 0, 0]),
            Refusal::WithOne(fault, a) => Numbers([refused, fault.number() as u64, a as u64, 0]),
            Refusal::At(fault, place) => {
                let (row, column) = (place.row as u64, place.column as u64);
                Numbers([refused, fault.number() as u64, row, column])
            }
        }
    }
}

// Asks the planner, where the lent reply has room for its answer, and puts it there.
// The question is lent: where it is not asked, what it holds is seen to stay.
pub fn tell<F: FnMut() -> Numbers>(reply: &mut [u64], ask: &mut F) -> u64
    requires { F.IsAlwaysCallable ask.old }
    ensures short { length reply.old < 4 → (result ≡ 255) × (reply.new ≡ reply.old) × (ask.new ≡ ask.old) }
    ensures told { 4 ≤ length reply.old → (l : _) × F.step ask.old l ask.new × (result ≡ get_or (listed l) 0 0) × (reply.new ≡ listed l ++ drop 4 reply.old) }
{
    if reply.len() < REPLY_WORDS {
        return SHORT_REPLY;
    }
    ask().put(reply)
}
