// Answers read from bytes.
ghost use Rattle.std.specs.Prelude.{◌≡◌};
ghost use Rattle.answers.specs.Answers.{parse_answer, parse_as};
ghost use Rattle.answers.specs.Reading.{answer_read, InsideRead};
ghost use Rattle.answers.specs.Parts.{parts_read, move_in};

use super::kinds::AnswerKind;
use super::{Parts, Reply, Row};
use rules::{Move, Refusal};
use wire::field_at;

// A position.
fn read_shown(bytes: &[u8]) -> Option<Parts<'_>>
    ensures { parts_read result ≡ parse_as 2 bytes.now }
{
    let after = 5 + 4 * field_at(bytes, 1) as usize;
    let clocks = field_at(bytes, after + 8) as usize;
    if bytes.len() != after + 12 + 4 * clocks {
        return None;
    }
    Some(Parts::Shown {
        cells: bytes[5..after].as_chunks().0,
        turn: field_at(bytes, after),
        end: field_at(bytes, after + 4),
        clocks: bytes[after + 12..].as_chunks().0,
    })
}

// A list of moves.
fn read_list(bytes: &[u8]) -> Option<Parts<'_>>
    ensures { parts_read result ≡ parse_as 3 bytes.now }
{
    if bytes.len() != 5 + 12 * field_at(bytes, 1) as usize {
        return None;
    }
    Some(Parts::Listed(bytes[5..].as_chunks().0))
}

// A move of a list.
pub fn read_move(bytes: &[u8; 12]) -> Move
    ensures { result ≡ move_in bytes.now }
{
    Move {
        rule: field_at(bytes, 0),
        first: field_at(bytes, 4),
        second: field_at(bytes, 8),
    }
}

// The answer that bytes are, if they are one, as parts of the bytes, which stay borrowed.
pub fn read_parts(bytes: &[u8]) -> Option<Parts<'_>>
    ensures { parts_read result ≡ parse_answer bytes.now }
{
    match AnswerKind::try_from(*bytes.first()?).ok()? {
        AnswerKind::Refused => {
            let refusal = Refusal {
                number: field_at(bytes, 1),
                place: field_at(bytes, 5),
            };
            (bytes.len() == 9).then_some(Parts::Refused(refusal))
        }
        AnswerKind::Number => (bytes.len() == 5).then_some(Parts::Number(field_at(bytes, 1))),
        AnswerKind::Shown => read_shown(bytes),
        AnswerKind::Listed => read_list(bytes),
        AnswerKind::Forced => (bytes.len() == 5).then_some(Parts::Forced(field_at(bytes, 1))),
    }
}

// The same by places: the bytes are let go, and may be written again.
pub fn read_answer(bytes: &[u8]) -> Option<Reply>
    ensures answer { answer_read bytes.now result ≡ parse_answer bytes.now }
    ensures inside { InsideRead bytes.now result }
{
    Some(match read_parts(bytes)? {
        Parts::Refused(refusal) => Reply::Refused(refusal),
        Parts::Number(n) => Reply::Number(n),
        Parts::Shown {
            cells,
            turn,
            end,
            clocks,
        } => Reply::Shown {
            cells: Row {
                at: 5,
                count: cells.len(),
            },
            turn,
            end,
            clocks: Row {
                at: 17 + 4 * cells.len(),
                count: clocks.len(),
            },
        },
        Parts::Listed(moves) => Reply::Listed(Row {
            at: 5,
            count: moves.len(),
        }),
        Parts::Forced(n) => Reply::Forced(n),
    })
}
