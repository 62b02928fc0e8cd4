// How a night file is laid out: the header, and how long the file and its sets are.
ghost use Rattle.std.specs.Prelude.{◌≡◌, ◌+◌, ◌*◌, ◌≤◌};
ghost use Rattle.night.specs.Format.{width, file_length, longest};

// The first three bytes of a file.
pub const MARK: [u8; 3] = [0x50, 0x52, 0x53];

// The version that is read and written.
pub const VERSION: u16 = 1;

// Where in the header the version, n and the flags stand.
pub const VERSION_AT: usize = 3;

pub const JOBS_AT: usize = 5;

pub const FLAGS_AT: usize = 7;

// The bytes of the header.
pub const HEADER: usize = 8;

// The most bytes that a set takes.
pub const SET_BYTES: usize = 32;

// What a header says: how many jobs the file has, and whether a list of holds follows their rows.
#[derive(Clone, Copy, PartialEq, Eq, Debug)]
pub struct Layout {
    pub n: usize,
    pub listed: bool,
    ghost few: { n ≤ 256 },
}

impl Layout {
    // How many bytes a set takes.
    #[tactic(auto, unfolding(crate::specs::Format::width))]
    pub fn width(self) -> usize
        ensures { (result ≡ width self.n) × (result ≤ 32) }
    {
        self.n.div_ceil(8)
    }

    // Where the bytes of row r begin; the hold list stands behind the rows, as row n.
    // Kept: callers put the width behind it. No plainer as a Range, whose clause would say both ends, and whose users would owe what is said of each.
    pub fn row_at(self, r: usize) -> usize
        requires { r ≤ self.n }
        ensures { result ≡ 8 + r * width self.n }
    {
        HEADER + r * self.width()
    }

    // How long the file is.
    pub fn length(self) -> usize
        ensures { (result ≡ file_length self.n self.listed) × (result ≤ longest) }
    {
        let rows = self.row_at(self.n);
        if self.listed {
            rows + self.width()
        } else {
            rows
        }
    }
}
