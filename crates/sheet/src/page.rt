// A page: lent bytes, written from the first on.
#![tactic(auto, using(std::proofs::lemmas::Grind::common_steps), unfolding(crate::specs::Text::line, crate::specs::Text::behind))]

ghost use Rattle.std.specs.Prelude.{◌+◌, ◌≤◌, ◌∷◌, map, length};
ghost use Rattle.sheet.specs.Text.{decimal, line};
ghost use Rattle.sheet.specs.Page.{Gets, HasRoom};

use itoa::Buffer;

// The lent bytes, and the place that the text has come to.
// Kept: methods of its own and no fmt::Write. Whoever writes by std's fmt may be answered an error, and what `lay_out` owes (`Printed`) it owes always.
#[derive(Drop)]
pub struct Page<'a> {
    pub bytes: &'a mut [u8],
    pub at: usize,
}

impl<'a> Page<'a> {
    // The bytes of a word.
    pub fn put_word(&mut self, word: &[u8])
        requires { HasRoom self.old word.now }
        ensures { Gets self.old word.now self.new }
    {
        let end = self.at + word.len();
        self.bytes[self.at..end].copy_from_slice(word);
        self.at = end;
    }

    // A space and a number.
    fn put_next(&mut self, n: u64)
        requires { HasRoom self.old (32 ∷ decimal n) }
        ensures { Gets self.old (32 ∷ decimal n) self.new }
    {
        self.put_word(b" ");
        self.put_word(Buffer::new().format(n).as_bytes());
    }

    // A line of a word and numbers.
    pub fn put_line(&mut self, word: &[u8], numbers: &[u64])
        requires { HasRoom self.old (line word.now (map decimal numbers.now)) }
        ensures { Gets self.old (line word.now (map decimal numbers.now)) self.new }
    {
        self.put_word(word);
        for n in numbers {
            self.put_next(*n);
        }
        self.put_word(b"\n");
    }
}
