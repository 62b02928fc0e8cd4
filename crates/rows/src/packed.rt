// The packed rows: the first words of the table's rows side by side, as wide as the night.
ghost use Rattle.std.specs.Prelude.{◌≡◌, ◌+◌, ◌*◌, ◌≤◌, length};
ghost use Rattle.rows.specs.Rows.{set_at};

// The rows' words, and how many each row has.
#[derive(Clone, Copy, PartialEq, Eq, Debug)]
pub struct Rows<'a> {
    pub words: &'a [u64],
    pub width: usize,
}

impl<'a> Rows<'a> {
    // The row of job y: which jobs it fits.
    #[inline]
    pub fn row(self, y: usize) -> &'a [u64]
        requires { self.width * y + self.width ≤ length self.words.now }
        ensures { result.now ≡ set_at self.entry.width self.entry.words.now y }
    {
        let at = self.width * y;
        &self.words[at..at + self.width]
    }
}
