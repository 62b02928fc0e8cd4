// What a program is given: the bytes of a file, as many as there is room for.
ghost use Rattle.std.specs.Prelude.{◌≤◌, length, take};
ghost use Rattle.std.specs.Io.KnownBytes.{Consumes};

use std::io::Read;

// Reads until the bytes are full, the input ends or a read fails; answers how many were read, which are the next of the input.
// Kept: a loop over `read`, since std's `read_to_end` fills a Vec (the planner has no heap), and `read_exact` does not say how many bytes came before the end.
pub fn read_full<R: Read>(input: &mut R, bytes: &mut [u8]) -> usize
    ensures within { result ≤ length bytes.new }
    ensures next { Consumes (R.remaining input.old) (R.remaining input.new) (take result bytes.new) }
{
    let mut done = 0;
    while done < bytes.len() {
        let Ok(got @ 1..) = input.read(&mut bytes[done..]) else {
            break;
        };
        done += got;
    }
    done
}
