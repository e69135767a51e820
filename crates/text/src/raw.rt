// Lines that say bytes in hexadecimal. What such a line is stands in specs/Raw.
ghost use Rattle.std.specs.Prelude.{◌≡◌, ℕ, ◌<◌, List, length, take, IfSome, Result};
ghost use Rattle.text.specs.Raw.{hex_value, RawReads, Kept};
ghost use Rattle.text.specs.RawReader.{step_of, Small, SmallStep, pairs_from, raw_of, Filled};

use super::{Cursor, is_blank};

// How many bytes are kept. No call has more than 21, so these are enough to tell a call from what is longer.
pub const MOST_KEPT: usize = 22;

// The bytes that a line says: the first of them, and how many there are in all.
// No ArrayVec, since `count` is no length of `bytes`: it counts also those for which there is no room.
#[derive(Clone, Copy)]
pub struct Raw {
    pub bytes: [u8; MOST_KEPT],
    pub count: usize,
}

impl Raw {
    // The bytes that are kept.
    pub fn kept(&self) -> &[u8]
        ensures { result.now ≡ take self.now.count self.now.bytes }
    {
        self.bytes.get(..self.count).unwrap_or(&self.bytes)
    }
}

// Data that a line drives, so that each step matches on it: closures in its place would hide what may be awaited.
// What may come next: white space, as after the word and after each pair of digits; white space or a digit; or the second digit of a pair, after a first of this value.
#[derive(Clone, Copy)]
enum Awaits {
    Gap,
    Digit,
    Second(u8),
}

// What a byte is: white space, the first digit of a pair, or the second digit and so the byte that the pair says.
#[derive(Clone, Copy)]
enum Step {
    Blank,
    First(u8),
    Pair(u8),
}

#[tactic(auto, unfolding(crate::specs::Raw::hex_value))]
fn hex_value(b: u8) -> Option<u8>
    ensures value { result ≡ hex_value b }
    ensures small { IfSome result (λ h. h < 16) }
{
    match b {
        b'0'..=b'9' => Some(b - b'0'),
        b'a'..=b'f' => Some(b - b'a' + 10),
        b'A'..=b'F' => Some(b - b'A' + 10),
        _ => None,
    }
}

// What a byte is, if it can come here.
#[tactic(auto, unfolding(crate::specs::RawReader::step_of))]
fn next_step(awaits: Awaits, b: u8) -> Option<Step>
    requires { Small awaits }
    ensures value { result ≡ step_of awaits b }
    ensures small { IfSome result SmallStep }
{
    match awaits {
        Awaits::Gap => is_blank(b).then_some(Step::Blank),
        Awaits::Digit if is_blank(b) => Some(Step::Blank),
        Awaits::Digit => Some(Step::First(hex_value(b)?)),
        Awaits::Second(high) => Some(Step::Pair(high * 16 + hex_value(b)?)),
    }
}

// Reads the pairs to the line's end, keeps as many as there is room for, and counts them.
fn fill(mut cursor: Cursor, bytes: &mut [u8]) -> Result<usize, usize>
    ensures { Filled (pairs_from cursor.entry.line.now cursor.entry.at) (length bytes.old) bytes.new result }
{
    let mut awaits = Awaits::Gap;
    let mut count: usize = 0;
    for b in cursor.rest() {
        let Some(step) = next_step(awaits, *b) else {
            return Err(cursor.at);
        };
        match step {
            Step::Blank => awaits = Awaits::Digit,
            Step::First(high) => awaits = Awaits::Second(high),
            Step::Pair(byte) => {
                if count < bytes.len() {
                    bytes[count] = byte;
                }
                count += 1;
                awaits = Awaits::Gap;
            }
        }
        cursor.at += 1;
    }
    match awaits {
        Awaits::Second(_) => Err(cursor.at),
        _ => Ok(count),
    }
}

// The bytes that a line says, or the length of the longest front of it that some such line begins with.
pub fn read_bytes(line: &[u8]) -> Result<Raw, usize>
    ensures value { Kept (raw_of line.now) result }
    ensures means { (said : Result (List ℕ) ℕ) × RawReads line.now said × Kept said result }
{
    let mut cursor = Cursor { line, at: 0 };
    cursor.first_word(b"bytes")?;
    let mut bytes = [0; MOST_KEPT];
    let count = fill(cursor, &mut bytes)?;
    Ok(Raw { bytes, count })
}
