// Answers as bytes: written, and read.
#![tactic(auto)]

mod kinds;
mod reading;
mod writing;

ghost use Rattle.answers.specs.Answers.{AnswerReadsBack, AnswerWritesBack};
ghost use Rattle.answers.specs.Writing.{ListInParts};
ghost use Rattle.answers.specs.Size.{AnswersFit, AllAnswersFit};

pub use kinds::AnswerKind;
pub use reading::{read_answer, read_move, read_parts};
use rules::Refusal;
pub use writing::{
    write_forced, write_list_head, write_move, write_number, write_refusal, write_shown,
};

// Where numbers or moves stand in bytes: the place of the first, and how many they are.
#[derive(Clone, Copy)]
pub struct Row {
    pub at: usize,
    pub count: usize,
}

// An answer that was read from bytes, by places in them: it lets the bytes go, so they may be written again while it is kept. Cells and
// clocks have four bytes each, moves twelve.
#[derive(Clone, Copy)]
pub enum Reply {
    Refused(Refusal),
    Number(u32),
    Shown {
        cells: Row,
        turn: u32,
        end: u32,
        clocks: Row,
    },
    Listed(Row),
    Forced(u32),
}

// An answer that was read from bytes, as parts of them: it borrows the bytes and hands on slices, so nobody has to look up a place. Numbers
// have four bytes each, moves twelve.
#[derive(Clone, Copy)]
pub enum Parts<'a> {
    Refused(Refusal),
    Number(u32),
    Shown {
        cells: &'a [[u8; 4]],
        turn: u32,
        end: u32,
        clocks: &'a [[u8; 4]],
    },
    Listed(&'a [[u8; 12]]),
    Forced(u32),
}

// An answer whose numbers fit comes back from its bytes.
pub fn answer_reads_back() -> u8
    ensures { AnswerReadsBack }
{
    0
}

// Bytes that are read as an answer are the bytes of that answer, and its numbers fit.
pub fn answer_writes_back() -> u8
    ensures { AnswerWritesBack }
{
    0
}

// Where tables have the sizes of their game, every answer has room.
pub fn answers_fit() -> u8
    ensures { AnswersFit }
{
    0
}

// Every answer of a server that was opened with a game has room.
pub fn all_answers_fit() -> u8
    ensures { AllAnswersFit }
{
    0
}

// Moves that are written one after the other, and then what stands before them, are the whole list.
pub fn list_in_parts() -> u8
    ensures { ListInParts }
{
    0
}
