// Text put piece by piece into lent memory.
ghost use Rattle.std.specs.Prelude.{[], ◌∷◌, decimal};
ghost use Rattle.printing.specs.Puts.{Wrote};

use itoa::Buffer;
use wire::put;

// Lent memory, and the place in it where the text goes on. Places stop at the largest number, and past memory nothing is put.
#[derive(Drop)]
pub struct Writer<'a> {
    pub out: &'a mut [u8],
    pub at: usize,
}

impl Writer<'_> {
    fn byte(&mut self, b: u8)
        ensures { Wrote self.old (b ∷ []) self.new }
    {
        put(self.out, self.at, b);
        self.at = self.at.saturating_add(1);
    }

    pub(super) fn word(&mut self, word: &[u8])
        ensures { Wrote self.old word.now self.new }
    {
        for b in word {
            self.byte(*b);
        }
    }

    // A number in decimal digits.
    pub(super) fn decimal(&mut self, n: u32)
        ensures { Wrote self.old (decimal n) self.new }
    {
        let mut digits = Buffer::new();
        self.word(digits.format(n).as_bytes());
    }

    // A blank and a number.
    pub(super) fn number(&mut self, n: u32)
        ensures { Wrote self.old (32 ∷ decimal n) self.new }
    {
        self.byte(b' ');
        self.decimal(n);
    }
}
