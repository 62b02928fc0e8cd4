// Write for C.
ghost use Rattle.night.specs.Versions.{one};
ghost use Rattle.buyerspruce.specs.Promises.{WriteCall};

use crate::reply::{Kind, Numbers, tell};
use night::write::write;

// Write a table and its holds as a night file, version 1.
// Kept: its parameters one by one, as the C interface has them.
#[unsafe(no_mangle)]
pub extern "C" fn buyerspruce_write(
    n: usize,
    table: &[u64],
    holds: &[u64],
    out: &mut [u8],
    reply: &mut [u64],
) -> u64
    ensures { WriteCall one n table.now holds.now out.old reply.old result reply.new out.new }
{
    tell(
        reply,
        &mut || Numbers::of_number(Kind::Written, write(n, table, holds, out)),
    )
}
