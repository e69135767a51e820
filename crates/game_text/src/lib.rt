// Games as plain text, read into bytes.
#![tactic(auto)]

ghost use Rattle.std.specs.Prelude.{◌≡◌};
ghost use Rattle.game_text.specs.Machine.{fault_at, read};
ghost use Rattle.game_text.specs.Theorems.{Means, OneGameAText};

mod positions;
mod progress;
mod steps;
mod taking;
mod words;

pub use positions::line_and_column;
pub use progress::{Expected, Fault};
use progress::{Progress, START, Stage};
use steps::{advance, settle};
use words::expected_of;

fn fault(place: usize, p: Progress) -> Fault
    ensures { Err result ≡ fault_at place p }
{
    Fault {
        place,
        expected: expected_of(p),
    }
}

// Reads a game's text into bytes: as many of them as have room, and how many there are. Or else where the text can't be read on, and what could have come there.
pub fn read_game(text: &[u8], out: &mut [u8]) -> Result<usize, Fault>
    ensures value { record { answer = result; memory = out.new } ≡ read text.now out.old }
    ensures means { Means text.now out.old result out.new }
{
    let mut m = START;
    for i in 0..text.len() {
        let Some(next) = advance(text, i, m, out) else {
            return Err(fault(i, m.at));
        };
        m = next;
    }
    let end = text.len();
    let p = settle(text, end, m.token, m.at, out).ok_or(fault(end, m.at))?;
    match p.stage {
        Stage::End => Ok(p.len),
        _ => Err(fault(end, p)),
    }
}

// No text is that of two games.
pub fn one_game_a_text() -> u8
    ensures { OneGameAText }
{
    0
}
