// Calls as lines of text. What a call's line is stands in specs/Grammar.
// Each reader starts at a place of the line, and answers what it read and the place after it, or else the place of the first byte that doesn't fit.
#![tactic(auto)]

ghost use Rattle.std.specs.Prelude.{◌≡◌, ◌+◌, ◌-◌, ◌*◌, ◌^◌, ◌<◌, ◌≤◌, drop, SomeIff};
ghost use Rattle.text.specs.Grammar.{blank, number_of, Reads, passed_over};
ghost use Rattle.text.specs.Reader.{
  placed,
  found,
  past,
  gap_at,
  letters_at,
  digits_at,
  word_at,
  number_at,
  end_at,
  fit,
  sit_form,
  play_form,
  ticks_form,
  see_form,
  may_form,
  back_form,
  force_form,
  better,
  call_of,
};
ghost use Rattle.text.specs.Theorems.{OneCallALine, PrintedReadsBack, OneBytesALine, NoLineIsBoth, LongestFrontOfBoth};

use rules::{Call, Move};

mod endings;
mod raw;

pub use endings::letters;
pub use raw::{MOST_KEPT, Raw, read_bytes};

fn is_blank(b: u8) -> bool
    ensures { result ≡ blank b }
{
    b == b' ' || b == b'\t'
}

// The number with one digit more, if it fits.
fn with_digit(n: u32, digit: u8) -> Option<u32>
    requires { 48 ≤ digit }
    ensures { SomeIff result (n * 10 + (digit - 48) < 2 ^ 32) (n * 10 + (digit - 48)) }
{
    n.checked_mul(10)?.checked_add(u32::from(digit - b'0'))
}

// A line, and the place from which it is to be read on.
#[derive(Clone, Copy)]
struct Cursor<'a> {
    line: &'a [u8],
    at: usize,
}

impl<'a> Cursor<'a> {
    // What is left of the line.
    fn rest(&self) -> &'a [u8]
        ensures { result.now ≡ drop self.now.at self.now.line.now }
    {
        self.line.get(self.at..).unwrap_or(&[])
    }

    fn skip_blanks(&mut self)
        ensures line { self.new.line.now ≡ self.old.line.now }
        ensures at { self.new.at ≡ past (drop self.old.at self.old.line.now) self.old.at }
        ensures onward { self.old.at ≤ self.new.at }
    {
        let rest = self.rest();
        self.at += rest.iter().take_while(|b| is_blank(**b)).count();
    }

    // White space, at least one byte of it.
    fn gap(&mut self) -> Result<(), usize>
        ensures line { self.new.line.now ≡ self.old.line.now }
        ensures at { placed result self.new.at ≡ gap_at 1 self.old.line.now self.old.at }
    {
        let from = self.at;
        self.skip_blanks();
        if self.at == from { Err(from) } else { Ok(()) }
    }

    // The word, letter by letter.
    fn letters(&mut self, word: &[u8]) -> Result<(), usize>
        ensures line { self.new.line.now ≡ self.old.line.now }
        ensures at { placed result self.new.at ≡ letters_at word.now (drop self.old.at self.old.line.now) self.old.at }
    {
        let rest = self.rest();
        let same = rest
            .iter()
            .zip(word)
            .take_while(|(b, w)| **b == **w)
            .count();
        self.at += same;
        if same < word.len() {
            Err(self.at)
        } else {
            Ok(())
        }
    }

    // The word that a line begins with, after any white space.
    fn first_word(&mut self, word: &[u8]) -> Result<(), usize>
        ensures line { self.new.line.now ≡ self.old.line.now }
        ensures at { placed result self.new.at ≡ word_at word.now 0 self.old.line.now self.old.at }
    {
        self.skip_blanks();
        self.letters(word)
    }

    // White space and a word.
    fn next_word(&mut self, word: &[u8]) -> Result<(), usize>
        ensures line { self.new.line.now ≡ self.old.line.now }
        ensures at { placed result self.new.at ≡ word_at word.now 1 self.old.line.now self.old.at }
    {
        self.gap()?;
        self.letters(word)
    }

    // All digits from here on, which may be none, and their number.
    fn digits(&mut self) -> Result<u32, usize>
        ensures line { self.new.line.now ≡ self.old.line.now }
        ensures at { found result self.new.at ≡ digits_at (drop self.old.at self.old.line.now) 0 self.old.at }
    {
        let mut n: u32 = 0;
        for b in self.rest() {
            if !b.is_ascii_digit() {
                break;
            }
            n = with_digit(n, *b).ok_or(self.at)?;
            self.at += 1;
        }
        Ok(n)
    }

    // White space and a number, which has at least one digit.
    fn number(&mut self) -> Result<u32, usize>
        ensures line { self.new.line.now ≡ self.old.line.now }
        ensures at { found result self.new.at ≡ number_at 1 self.old.line.now self.old.at }
    {
        self.gap()?;
        let from = self.at;
        let n = self.digits()?;
        if self.at == from { Err(from) } else { Ok(n) }
    }

    // The call, if the line ends here but for white space.
    fn end(mut self, call: Call) -> Result<Call, usize>
        ensures { result ≡ end_at self.entry.line.now self.entry.at call }
    {
        self.skip_blanks();
        if self.at == self.line.len() {
            Ok(call)
        } else {
            Err(self.at)
        }
    }
}

// Each reader says its call's form in three lines: one over the word and the call would be no plainer.
fn sit(line: &[u8]) -> Result<Call, usize>
    ensures { result ≡ fit sit_form 0 line.now 0 }
{
    let mut line = Cursor { line, at: 0 };
    line.first_word(b"sit")?;
    let ticks = line.number()?;
    line.end(Call::Sit(ticks))
}

fn play(line: &[u8]) -> Result<Call, usize>
    ensures { result ≡ fit play_form 0 line.now 0 }
{
    let mut line = Cursor { line, at: 0 };
    line.first_word(b"play")?;
    let table = line.number()?;
    let player = line.number()?;
    let played = Move {
        rule: line.number()?,
        first: line.number()?,
        second: line.number()?,
    };
    line.end(Call::Play {
        table,
        player,
        played,
    })
}

fn ticks(line: &[u8]) -> Result<Call, usize>
    ensures { result ≡ fit ticks_form 0 line.now 0 }
{
    let mut line = Cursor { line, at: 0 };
    line.first_word(b"ticks")?;
    let n = line.number()?;
    line.end(Call::Ticks(n))
}

fn see(line: &[u8]) -> Result<Call, usize>
    ensures { result ≡ fit see_form 0 line.now 0 }
{
    let mut line = Cursor { line, at: 0 };
    line.first_word(b"see")?;
    let table = line.number()?;
    line.end(Call::See(table))
}

fn may(line: &[u8]) -> Result<Call, usize>
    ensures { result ≡ fit may_form 0 line.now 0 }
{
    let mut line = Cursor { line, at: 0 };
    line.first_word(b"may")?;
    let table = line.number()?;
    line.end(Call::May(table))
}

fn back(line: &[u8]) -> Result<Call, usize>
    ensures { result ≡ fit back_form 0 line.now 0 }
{
    let mut line = Cursor { line, at: 0 };
    line.first_word(b"back")?;
    let table = line.number()?;
    let moves = line.number()?;
    line.end(Call::Back { table, moves })
}

fn can_force(line: &[u8]) -> Result<Call, usize>
    ensures { result ≡ fit force_form 0 line.now 0 }
{
    let mut line = Cursor { line, at: 0 };
    line.first_word(b"can")?;
    line.next_word(b"force")?;
    let table = line.number()?;
    let player = line.number()?;
    let gain = line.number()?;
    let within = line.number()?;
    line.end(Call::CanForce {
        table,
        player,
        gain,
        within,
    })
}

// The call if one of two readings found one, and else the place that is further on.
fn better_of(a: Result<Call, usize>, b: Result<Call, usize>) -> Result<Call, usize>
    ensures { result ≡ better a b }
{
    a.or_else(|i| b.map_err(|j| i.max(j)))
}

// The call whose line this is, or the length of the longest front of it that some call's line begins with.
pub fn read_call(line: &[u8]) -> Result<Call, usize>
    ensures value { result ≡ call_of line.now }
    ensures means { Reads line.now result }
{
    let others = [
        play(line),
        ticks(line),
        see(line),
        may(line),
        back(line),
        can_force(line),
    ];
    others
        .iter()
        .fold(sit(line), |best, next| better_of(best, *next))
}

// The number that a word is, if it is digits and not too large.
pub fn read_number(word: &[u8]) -> Option<u32>
    ensures { result ≡ number_of word.now }
{
    let mut cursor = Cursor { line: word, at: 0 };
    let n = cursor.digits().ok()?;
    if cursor.at > 0 && cursor.at == word.len() {
        Some(n)
    } else {
        None
    }
}

// Whether a line is blank or a comment.
pub fn is_passed_over(line: &[u8]) -> bool
    ensures { result ≡ passed_over line.now }
{
    line.iter()
        .find(|b| !is_blank(**b))
        .is_none_or(|b| *b == b'#')
}

// No line is the line of two calls.
pub fn one_call_a_line() -> u8
    ensures { OneCallALine }
{
    0
}

// What is printed of a call is its line, and is read back as that call.
pub fn printed_reads_back() -> u8
    ensures { PrintedReadsBack }
{
    0
}

// No line says two lists of bytes.
pub fn one_bytes_a_line() -> u8
    ensures { OneBytesALine }
{
    0
}

// No line is the line of a call and says bytes.
pub fn no_line_is_both() -> u8
    ensures { NoLineIsBoth }
{
    0
}

// Where a line is of neither sort, the larger place is the length of the longest front that a line of either sort begins with.
pub fn longest_front_of_both() -> u8
    ensures { LongestFrontOfBoth }
{
    0
}
