// Answers written as bytes. Each writer says how many bytes it wrote; where they have no room it writes none and says None.
ghost use Rattle.std.specs.Prelude.{◌≡◌, ◌+◌, ◌*◌, ◌<◌, ◌≤◌, MatchOption};
ghost use Rattle.rules.specs.Calls.{refused, number, shown, forced};
ghost use Rattle.wire.specs.Fields.{written, room};
ghost use Rattle.answers.specs.Answers.{answer_bytes};
ghost use Rattle.answers.specs.Writing.{list_head, move_bytes};

use super::kinds::AnswerKind;
use rules::{Move, Refusal};
use wire::{put_field, put_fields, write_kind_and_fields};

pub fn write_number(answer: &mut [u8], n: u32) -> Option<usize>
    ensures size { result ≡ room 0 (answer_bytes (number n)) answer.old }
    ensures bytes { answer.new ≡ written 0 (answer_bytes (number n)) answer.old }
{
    write_kind_and_fields(answer, AnswerKind::Number.into(), &[n])
}

pub fn write_forced(answer: &mut [u8], n: u32) -> Option<usize>
    ensures size { result ≡ room 0 (answer_bytes (forced n)) answer.old }
    ensures bytes { answer.new ≡ written 0 (answer_bytes (forced n)) answer.old }
{
    write_kind_and_fields(answer, AnswerKind::Forced.into(), &[n])
}

// What stands before the moves of a list: its kind, and how many they are.
pub fn write_list_head(answer: &mut [u8], count: u32) -> Option<usize>
    ensures size { result ≡ room 0 (list_head count) answer.old }
    ensures bytes { answer.new ≡ written 0 (list_head count) answer.old }
{
    write_kind_and_fields(answer, AnswerKind::Listed.into(), &[count])
}

// A move of a list, from a place on: the first at 5, and 12 bytes each.
pub fn write_move(answer: &mut [u8], at: usize, played: Move) -> Option<usize>
    ensures size { result ≡ room at (move_bytes played) answer.old }
    ensures bytes { answer.new ≡ written at (move_bytes played) answer.old }
{
    if answer.len().saturating_sub(at) < 12 {
        return None;
    }
    put_fields(answer, at, &[played.rule, played.first, played.second]);
    Some(12)
}

pub fn write_refusal(answer: &mut [u8], refusal: Refusal) -> Option<usize>
    ensures size { result ≡ room 0 (answer_bytes (refused refusal)) answer.old }
    ensures bytes { answer.new ≡ written 0 (answer_bytes (refused refusal)) answer.old }
{
    write_kind_and_fields(
        answer,
        AnswerKind::Refused.into(),
        &[refusal.number, refusal.place],
    )
}

// How many bytes a position has, if they have room.
fn shown_size(cells: usize, clocks: usize, most: usize) -> Option<usize>
    ensures { MatchOption result (most < 17 + 4 * cells + 4 * clocks) (λ n. (n ≡ 17 + 4 * cells + 4 * clocks) × (n ≤ most)) }
{
    let numbers = most.checked_sub(17)? / 4;
    numbers.checked_sub(cells)?.checked_sub(clocks)?;
    Some(17 + 4 * cells + 4 * clocks)
}

// A position. The counts are written as their four lowest bytes.
pub fn write_shown(
    answer: &mut [u8],
    cells: &[u32],
    turn: u32,
    end: u32,
    clocks: &[u32],
) -> Option<usize>
    ensures size { result ≡ room 0 (answer_bytes (shown cells.now turn end clocks.now)) answer.old }
    ensures bytes { answer.new ≡ written 0 (answer_bytes (shown cells.now turn end clocks.now)) answer.old }
{
    let size = shown_size(cells.len(), clocks.len(), answer.len())?;
    let after = 5 + 4 * cells.len();
    answer[0] = AnswerKind::Shown.into();
    put_field(answer, 1, cells.len());
    put_fields(answer, 5, cells);
    put_fields(answer, after, &[turn, end]);
    put_field(answer, after + 8, clocks.len());
    put_fields(answer, after + 12, clocks);
    Some(size)
}
