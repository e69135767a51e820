// Answers printed as lines of text, from their bytes.
ghost use Rattle.std.specs.Prelude.{◌≡◌};
ghost use Rattle.rules.specs.Calls.{shown};
ghost use Rattle.answers.specs.Answers.{parse_answer};
ghost use Rattle.answers.specs.Parts.{numbers_in, moves_in, parts_answer};
ghost use Rattle.printing.specs.Answers.{end_text, move_text, moves_text, answer_text, answer_size, answer_into, AnswerTextFits};
ghost use Rattle.printing.specs.Games.{numbers_text};
ghost use Rattle.printing.specs.Puts.{Wrote};

use super::writer::Writer;
use answers::{Parts, read_move, read_parts};
use rules::Move;

fn put_numbers(writer: &mut Writer<'_>, numbers: &[[u8; 4]])
    ensures { Wrote writer.old (numbers_text (numbers_in numbers.now)) writer.new }
{
    for n in numbers {
        writer.number(u32::from_le_bytes(*n));
    }
}

fn put_move(writer: &mut Writer<'_>, played: Move)
    ensures { Wrote writer.old (move_text played) writer.new }
{
    writer.decimal(played.rule);
    writer.number(played.first);
    writer.number(played.second);
}

fn put_moves(writer: &mut Writer<'_>, moves: &[[u8; 12]])
    ensures { Wrote writer.old (moves_text (moves_in moves.now)) writer.new }
{
    let Some((first, later)) = moves.split_first() else {
        writer.word(b"none");
        return;
    };
    put_move(writer, read_move(first));
    for m in later {
        writer.word(b", ");
        put_move(writer, read_move(m));
    }
}

// Whether a game goes on. Any number is an answer's end, so it stays a number: those that no server tells are printed as over.
fn put_end(writer: &mut Writer<'_>, end: u32)
    ensures { Wrote writer.old (end_text end) writer.new }
{
    match end {
        0 => writer.word(b"goes on"),
        2 => writer.word(b"over by time"),
        _ => writer.word(b"over"),
    }
}

// A position, whose turn it is, whether its game goes on, and the clocks if there are any.
fn put_shown(writer: &mut Writer<'_>, cells: &[[u8; 4]], turn: u32, end: u32, clocks: &[[u8; 4]])
    ensures { Wrote writer.old (answer_text (shown (numbers_in cells.now) turn end (numbers_in clocks.now))) writer.new }
{
    writer.word(b"cells");
    put_numbers(writer, cells);
    writer.word(b", turn ");
    writer.decimal(turn);
    writer.word(b", ");
    put_end(writer, end);
    if clocks.is_empty() {
        return;
    }
    writer.word(b", clocks");
    put_numbers(writer, clocks);
}

// Any answer.
fn put_reply(writer: &mut Writer<'_>, reply: Parts<'_>)
    ensures { Wrote writer.old (answer_text (parts_answer reply.entry)) writer.new }
{
    match reply {
        Parts::Refused(refusal) => {
            writer.word(b"refused ");
            writer.decimal(refusal.number);
            writer.word(b" at ");
            writer.decimal(refusal.place);
        }
        Parts::Number(n) => writer.decimal(n),
        Parts::Shown {
            cells,
            turn,
            end,
            clocks,
        } => put_shown(writer, cells, turn, end, clocks),
        Parts::Listed(moves) => put_moves(writer, moves),
        Parts::Forced(n) => writer.decimal(n),
    }
}

// The line of the answer that bytes are, put from the start of memory as far as there is room. Some tells how large all of the line is;
// None that the bytes are no answer.
pub fn print_answer(answer: &[u8], out: &mut [u8]) -> Option<usize>
    ensures size { result ≡ answer_size (parse_answer answer.now) }
    ensures text { out.new ≡ answer_into (parse_answer answer.now) out.old }
{
    let reply = read_parts(answer)?;
    let mut writer = Writer { out, at: 0 };
    put_reply(&mut writer, reply);
    Some(writer.at)
}

// How much memory has room for the line of an answer.
pub fn answer_text_fits() -> u8
    ensures { AnswerTextFits }
{
    0
}
