// The list of all legal moves, written straight into an answer's bytes.
ghost use Rattle.std.specs.Prelude.{◌≡◌, ◌+◌, ◌*◌, ◌<◌, ◌≤◌, length, OnSome, IfNone};
ghost use Rattle.rules.specs.Play.{legal_moves};
ghost use Rattle.rules.specs.Calls.{listed};
ghost use Rattle.wire.specs.Fields.{written, room};
ghost use Rattle.answers.specs.Answers.{answer_bytes};
ghost use Rattle.rows.specs.Layout.{game_at};
ghost use Rattle.play.specs.Cursor.{seconds_from, firsts_from};
ghost use Rattle.play.specs.Listing.{part_listed, Lists};

use crate::moves::turn;
use crate::position::{Position, Rule};
use answers::{AnswerKind, write_move};
use rows::read_game;
use rules::Move;
use wire::put_field;

// How many bytes stand before the moves of a list.
const HEAD: usize = 5;

const MOVE_BYTES: usize = 12;

impl Rule<'_> {
    // The answer and the count of its moves go along: in a struct with the `&mut` no ghost field could say that they have room.
    // Lists the legal moves with one first number, after `before` others. Says how many there are then, or None where they have no room.
    fn list_seconds(&self, first: u32, answer: &mut [u8], before: usize) -> Option<usize>
        requires below { first < self.now.row.first_bound }
        requires room { 5 + 12 * before ≤ length answer.old }
        ensures { Lists (seconds_from (game_at self.now.at.rules.now) self.now.at.cells.now self.now.number first 0)
            before answer.old answer.new result }
    {
        let mut count = before;
        for second in 0..self.row.second_bound {
            if self.allows(first, second) {
                let found = Move {
                    rule: self.number,
                    first,
                    second,
                };
                write_move(answer, HEAD + MOVE_BYTES * count, found)?;
                count += 1;
            }
        }
        Some(count)
    }

    // The same with any first number.
    fn list_firsts(&self, answer: &mut [u8], before: usize) -> Option<usize>
        requires room { 5 + 12 * before ≤ length answer.old }
        ensures { Lists (firsts_from (game_at self.now.at.rules.now) self.now.at.cells.now self.now.number 0)
            before answer.old answer.new result }
    {
        let mut count = before;
        for first in 0..self.row.first_bound {
            count = self.list_seconds(first, answer, count)?;
        }
        Some(count)
    }
}

// The same of all rules, after no others.
fn list_rules(rules: &[u32], cells: &[u32], answer: &mut [u8]) -> Option<usize>
    requires room { 5 ≤ length answer.old }
    ensures { Lists (legal_moves (game_at rules.now) cells.now) 0 answer.old answer.new result }
{
    let me = turn(rules, cells);
    let position = Position { rules, cells, me };
    let mut count = 0;
    for number in 0..read_game(rules).rules {
        count = position.rule(number)?.list_firsts(answer, count)?;
    }
    Some(count)
}

// All legal moves, in their order; says how many bytes it wrote. None where they have no room: those that have are then written, and no count.
// The count is written last, when it is known, and not by `write_list_head`, since there may be more moves than four bytes can count.
pub fn list_moves(rules: &[u32], cells: &[u32], answer: &mut [u8]) -> Option<usize>
    ensures size { result ≡ room 0 (answer_bytes (listed (legal_moves (game_at rules.now) cells.now))) answer.old }
    ensures bytes { OnSome result (answer.new ≡
        written 0 (answer_bytes (listed (legal_moves (game_at rules.now) cells.now))) answer.old) }
    ensures part { IfNone result (answer.new ≡ part_listed (legal_moves (game_at rules.now) cells.now) answer.old) }
{
    if answer.len() < HEAD {
        return None;
    }
    let count = list_rules(rules, cells, answer)?;
    answer[0] = AnswerKind::Listed.into();
    put_field(answer, 1, count);
    Some(HEAD + MOVE_BYTES * count)
}
