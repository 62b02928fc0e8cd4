// Colour for C.
ghost use Rattle.question.specs.Question.{asked};
ghost use Rattle.buyerspruce.specs.Promises.{ColourCall};

use crate::reply::{Kind, Numbers, tell};
use colouring::colour;

// Colour: the class of each job that may join the pins, where no two jobs of a class fit, and the number of classes: no more jobs can join.
// Kept: its parameters one by one, as the C interface has them.
#[unsafe(no_mangle)]
pub extern "C" fn buyerspruce_colour(
    n: usize,
    table: &[u64],
    holds: &[u64],
    pins: &[u64],
    classes: &mut [u16],
    reply: &mut [u64],
) -> u64
    ensures { ColourCall (asked n table.now holds.now pins.now) classes.old reply.old result reply.new classes.new }
{
    tell(
        reply,
        &mut || Numbers::of_number(Kind::Classes, colour(n, table, holds, pins, classes)),
    )
}
