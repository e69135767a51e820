// What a number or a word, once read, adds to the bytes of the game.
ghost use Rattle.std.specs.Prelude.{◌+◌, ◌^◌, ◌<◌, slice_set};
ghost use Rattle.game_text.specs.Machine.{State, state_of, staged, part_begun, put_two, part_ended, pending, number_taken, word_taken, bound};
ghost use Rattle.game_text.specs.Room.{Fine, slack};
ghost use Rattle.game_text.specs.Writing.{Becomes};
ghost use Rattle.game_text.specs.declared.progress.Word.TheVariants.{Rule, Over, Set};

use super::progress::{Part, Progress, Stage, Word};

// How far reading has come, and the memory that the bytes go to.
// How large `len` may be is asked for by each and kept by no ghost field, which beside a `&mut` gets no generated proof.
#[derive(Drop)]
pub(super) struct Writer<'a> {
    pub at: Progress,
    pub out: &'a mut [u8],
}

impl Writer<'_> {
    fn put(&mut self, at: usize, b: u8)
        ensures { Becomes self.old self.new (state_of self.old.at (slice_set self.old.out.now at b)) }
    {
        let out = &mut *self.out;
        wire::put(out, at, b);
    }

    // A number of two bytes.
    fn put_two(&mut self, at: usize, n: u16)
        requires { at + 1 < 2 ^ 64 }
        ensures { Becomes self.old self.new (state_of self.old.at (put_two self.old.out.now at n)) }
    {
        let [low, high] = n.to_le_bytes();
        self.put(at, low);
        self.put(at + 1, high);
    }

    // An expression of a part is awaited, and so many more.
    fn begin_part(&mut self, part: Part, more: usize)
        ensures { Becomes self.old self.new (state_of (part_begun part more self.old.at) self.old.out.now) }
    {
        self.at.stage = Stage::Expr;
        self.at.part = part;
        self.at.more = more;
    }

    // All of a part was read.
    fn end_part(&mut self)
        requires { self.old.at.len + 1 < 2 ^ 64 }
        ensures { Becomes self.old self.new (part_ended self.old.at.part self.old.at self.old.out.now) }
    {
        let part = self.at.part;
        self.at.part = Part::Guard;
        self.at.more = 0;
        match part {
            Part::Guard => {
                self.put(self.at.len, 0);
                self.at.stage = Stage::Sets;
                self.at.sets = 0;
                self.at.sets_at = self.at.len;
                self.at.len += 1;
            }
            Part::Effect => self.at.stage = Stage::Sets,
            Part::Terminal => self.at.stage = Stage::GainWord,
            Part::Payoff => self.at.stage = Stage::End,
        }
    }

    // So many expressions of the part are still to come.
    fn await_more(&mut self, count: usize)
        requires { self.old.at.len + 1 < 2 ^ 64 }
        ensures { Becomes self.old self.new (pending count self.old.at self.old.out.now) }
    {
        if count == 0 {
            self.end_part();
        } else {
            self.begin_part(self.at.part, count - 1);
        }
    }

    // A bound of a rule, and what is awaited after it.
    fn take_bound(&mut self, n: u16, then: Stage)
        requires { self.old.at.len + 2 < 2 ^ 64 }
        ensures { Becomes self.old self.new (state_of (staged «then» (self.old.at.len + 2) self.old.at) (put_two self.old.out.now self.old.at.len n)) }
    {
        self.put_two(self.at.len, n);
        self.at.stage = then;
        self.at.len += 2;
    }

    // A number that may come next.
    pub(super) fn take_number(&mut self, n: u16)
        requires { (n < bound self.old.at.stage self.old.at) × (self.old.at.len + slack self.old.at.stage + 2 < 2 ^ 64) }
        ensures { Becomes self.old self.new (number_taken self.old.at.stage n self.old.at self.old.out.now) }
    {
        match self.at.stage {
            Stage::PlayersNumber => {
                self.put(self.at.len, n as u8);
                self.at.stage = Stage::CellsWord;
                self.at.len += 1;
            }
            Stage::Values => {
                self.put_two(self.at.len, n);
                self.put_two(1, self.at.cells + 1);
                self.at.cells += 1;
                self.at.len += 2;
            }
            Stage::FirstBound => self.take_bound(n, Stage::SecondBound),
            Stage::SecondBound => self.take_bound(n, Stage::MayWord),
            Stage::Expr => {
                self.put(self.at.len, 0);
                self.put_two(self.at.len + 1, n);
                self.at.len += 3;
                self.await_more(self.at.more);
            }
            _ => {}
        }
    }

    // A rule begins: one more is counted, behind the cells.
    fn begin_rule(&mut self)
        requires { (self.old.at.rules < 255) × (self.old.at.len + 2 < 2 ^ 64) }
        ensures { Becomes self.old self.new (word_taken Rule self.old.at self.old.out.now) }
    {
        if self.at.rules == 0 {
            self.at.len += 1;
        }
        self.at.rules += 1;
        self.put(3 + 2 * usize::from(self.at.cells), self.at.rules);
        self.at.stage = Stage::FirstBound;
    }

    // There are no more rules; if there is none, their count is still to be written.
    fn end_rules(&mut self)
        requires { self.old.at.len + 2 < 2 ^ 64 }
        ensures { Becomes self.old self.new (word_taken Over self.old.at self.old.out.now) }
    {
        if self.at.rules == 0 {
            self.put(self.at.len, 0);
            self.at.len += 1;
        }
        self.at.sets = 0;
        self.at.sets_at = 0;
        self.begin_part(Part::Terminal, 0);
    }

    // An effect begins: one more is counted.
    fn begin_effect(&mut self)
        requires { self.old.at.sets < 255 }
        ensures { Becomes self.old self.new (word_taken Set self.old.at self.old.out.now) }
    {
        self.at.sets += 1;
        self.put(self.at.sets_at, self.at.sets);
        self.begin_part(Part::Effect, 1);
    }

    // A word that may come next.
    pub(super) fn take_word(&mut self, w: Word)
        requires { (Fine w self.old.at) × ((self.old.at.len + 2 < 2 ^ 64) × (self.old.at.more + 3 < 2 ^ 64)) }
        ensures { Becomes self.old self.new (word_taken w self.old.at self.old.out.now) }
    {
        match w {
            Word::Players => self.at.stage = Stage::PlayersNumber,
            Word::Cells => {
                self.put_two(self.at.len, 0);
                self.at.stage = Stage::Values;
                self.at.len += 2;
            }
            Word::Rule => self.begin_rule(),
            Word::May => self.begin_part(Part::Guard, 0),
            Word::Set => self.begin_effect(),
            Word::Over => self.end_rules(),
            Word::Gain => self.begin_part(Part::Payoff, 0),
            Word::Kind(kind) => {
                self.put(self.at.len, u8::from(kind));
                self.at.stage = Stage::Expr;
                self.at.len += 1;
                self.await_more(self.at.more + kind.arity());
            }
        }
    }
}
