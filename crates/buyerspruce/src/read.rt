// Read for C.
ghost use Rattle.std.specs.Prelude.{◌≡◌};
ghost use Rattle.buyerspruce.specs.Promises.{ReadCall};

use crate::reply::{Kind, Numbers, tell};
use night::read::read;

// Read a night file into 1,024 table words and four hold words.
#[unsafe(no_mangle)]
pub extern "C" fn buyerspruce_read(
    file: &[u8],
    table: &mut [u64],
    holds: &mut [u64],
    reply: &mut [u64],
) -> u64
    ensures { ReadCall file.now table.old holds.old reply.old result reply.new table.new holds.new }
{
    tell(
        reply,
        &mut || Numbers::of_number(Kind::Read, read(file, table, holds)),
    )
}
