// Bytes and bits of a night file by their places; past an end there is nothing to read or to write.
ghost use Rattle.std.specs.Prelude.{◌≤◌};

use test_kit::limits::MOST_JOBS;

// Where the header has its version, the number of jobs and the flags, and where the rows begin.
pub const VERSION: usize = 3;

pub const JOBS: usize = 5;

pub const FLAGS: usize = 7;

pub const HEADER: usize = 8;

// The room of a file in the making: the longest good file and a few bytes more.
pub const ROOM: usize = HEADER + (MOST_JOBS + 1) * 32 + 8;

pub fn byte_at(bytes: &[u8], i: usize) -> u8 {
    bytes.get(i).copied().unwrap_or(0)
}

// Whether the flags say that there is a hold list.
pub fn is_listed(bytes: &[u8]) -> bool {
    byte_at(bytes, FLAGS) == 1
}

// The bytes of a row of n jobs.
fn row_bytes(n: usize) -> usize
    ensures { n ≤ 256 → result ≤ 32 }
{
    n.div_ceil(8)
}

// The length of a file of n jobs; of more than the most jobs none is long enough.
pub fn length(n: usize, listed: bool) -> usize {
    if MOST_JOBS < n {
        return usize::MAX;
    }
    HEADER + (n + usize::from(listed)) * row_bytes(n)
}

// The columns that a row has bits for.
pub fn columns(n: usize) -> usize {
    if MOST_JOBS < n {
        return 0;
    }
    8 * row_bytes(n)
}

// The byte with the bit of row r, column c; row n is the hold list.
fn place(n: usize, r: usize, c: usize) -> Option<usize> {
    if columns(n) <= c || MOST_JOBS < n || MOST_JOBS < r {
        return None;
    }
    Some(HEADER + r * row_bytes(n) + c / 8)
}

// Whether row r of a file of n jobs has the bit of column c.
pub fn has(bytes: &[u8], n: usize, r: usize, c: usize) -> bool {
    place(n, r, c).is_some_and(|i| (byte_at(bytes, i) >> (c % 8)) & 1 == 1)
}

// A night file in the making: the room for its bytes, the jobs that it is laid out for, and its length.
#[derive(Clone, Copy)]
pub struct Draft {
    pub room: [u8; ROOM],
    pub n: usize,
    pub length: usize,
}

impl Draft {
    pub fn new(n: usize) -> Draft {
        Draft {
            room: [0; ROOM],
            n,
            length: 0,
        }
    }

    pub fn byte_at(&self, i: usize) -> u8 {
        byte_at(&self.room, i)
    }

    pub fn put_byte(&mut self, i: usize, b: u8) {
        if let Some(place) = self.room.get_mut(i) {
            *place = b;
        }
    }

    // Turns the bits of a byte that are set in another.
    pub fn turn_bits(&mut self, i: usize, bits: u8) {
        self.put_byte(i, self.byte_at(i) ^ bits);
    }

    pub fn turn_bit(&mut self, i: usize, bit: usize) {
        self.turn_bits(i, 1 << (bit % 8));
    }

    pub fn has(&self, r: usize, c: usize) -> bool {
        has(&self.room, self.n, r, c)
    }

    pub fn turn(&mut self, r: usize, c: usize) {
        if let Some(i) = place(self.n, r, c) {
            self.turn_bit(i, c);
        }
    }

    pub fn set(&mut self, r: usize, c: usize) {
        if !self.has(r, c) {
            self.turn(r, c);
        }
    }

    pub fn clear(&mut self, r: usize, c: usize) {
        if self.has(r, c) {
            self.turn(r, c);
        }
    }

    // The header's number of jobs.
    pub fn put_jobs(&mut self, n: usize) {
        self.room[JOBS..JOBS + 2].copy_from_slice(&((n % 65536) as u16).to_le_bytes());
    }
}
