// A step of reading: what one byte does.
ghost use Rattle.std.specs.Prelude.{◌≡◌, ℕ, ◌+◌, ◌-◌, ◌<◌, ◌≤◌, List, length, slice_index, slice_range};
ghost use Rattle.game_text.specs.Text.{white};
ghost use Rattle.game_text.specs.Machine.{settled, more_digits, more_letters, added, step};
ghost use Rattle.game_text.specs.Room.{Room, Roomy, Sane, lexer_of, machine_of, SameState, SameDigits, SameLexer, SameMachine};

use super::progress::{Progress, Reader, Stage, Token};
use super::taking::Writer;
use super::words::{bound_of, find_word};

// Not `is_ascii_whitespace`, which takes a form feed too.
fn is_white(b: u8) -> bool
    ensures { result ≡ white b }
{
    matches!(b, b' ' | b'\t' | b'\n' | b'\r')
}

// If the bytes before place i are all: the number or the word that ends there is taken.
// Each step is about one place, which the definition of the machine passes on from step to step: a struct that held it
// would be made anew for each byte, and be no plainer.
pub(super) fn settle(
    text: &[u8],
    i: usize,
    token: Token,
    p: Progress,
    out: &mut [u8],
) -> Option<Progress>
    requires { (i ≤ length text.now) × (Sane i p token) }
    ensures value { SameState (settled (lexer_of text.now i token) p out.old) result out.old out.new }
    ensures room { Roomy result (i + 1) }
{
    match token {
        Token::Gap | Token::Comment => Some(p),
        Token::Digits(n) => {
            let mut writer = Writer { at: p, out };
            writer.take_number(n);
            Some(writer.at)
        }
        Token::Letters(from) => {
            let w = find_word(p, &text[from..i], true)?;
            let mut writer = Writer { at: p, out };
            writer.take_word(w);
            Some(writer.at)
        }
    }
}

// One more digit, if the number stays small enough.
fn add_digit(n: u16, b: u8, p: Progress) -> Option<Token>
    ensures { (i : ℕ) → Room p i → SameDigits (more_digits n b p) (i + 1) p result }
{
    if !b.is_ascii_digit() {
        return None;
    }
    let more = usize::from(n) * 10 + usize::from(b - b'0');
    (more < bound_of(p)).then(|| Token::Digits(more as u16))
}

// One more letter of the word that began at `from`, if a word may go on so.
fn add_letter(text: &[u8], from: usize, i: usize, p: Progress) -> Option<Token>
    requires { (i < length text.now) × ((from ≤ i) × (Room p i)) }
    ensures { SameLexer (more_letters (slice_range text.now from i) (slice_index text.now i) p) text.now (i + 1) p result }
{
    find_word(p, &text[from..=i], false)?;
    Some(Token::Letters(from))
}

// What a byte that ends nothing adds to.
fn add(text: &[u8], i: usize, token: Token, p: Progress) -> Option<Token>
    requires { (i < length text.now) × (Sane i p token) }
    ensures { SameLexer (added (lexer_of text.now i token) (slice_index text.now i) p) text.now (i + 1) p result }
{
    match token {
        Token::Gap if text[i].is_ascii_digit() => add_digit(0, text[i], p),
        Token::Gap => add_letter(text, i, i, p),
        Token::Comment => Some(Token::Comment),
        Token::Digits(n) => add_digit(n, text[i], p),
        Token::Letters(from) => add_letter(text, from, i, p),
    }
}

// What the byte at place i does, if it fits.
pub(super) fn advance(text: &[u8], i: usize, m: Reader, out: &mut [u8]) -> Option<Reader>
    requires { (i < length text.now) × (Sane i m.at m.token) }
    ensures { SameMachine (step (machine_of text.now i m out.old) (slice_index text.now i)) text.now (i + 1) result out.old out.new }
{
    let b = text[i];
    if matches!(m.token, Token::Comment) {
        let token = if b == b'\n' {
            Token::Gap
        } else {
            Token::Comment
        };
        return Some(Reader { at: m.at, token });
    }
    if is_white(b) || b == b'#' {
        let token = if b == b'#' {
            Token::Comment
        } else {
            Token::Gap
        };
        let at = settle(text, i, m.token, m.at, out)?;
        return Some(Reader { at, token });
    }
    let token = add(text, i, m.token, m.at)?;
    Some(Reader { at: m.at, token })
}
