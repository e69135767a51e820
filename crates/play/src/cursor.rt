// The next legal move, in the order of rule, first and second number; and whether there is any.
ghost use Rattle.std.specs.Prelude.{◌≡◌, ◌+◌, ◌<◌, ◌++◌};
ghost use Rattle.rules.specs.Play as meaning-of-play;
ghost use Rattle.rows.specs.Layout.{game_at};
ghost use Rattle.play.specs.Cursor.{move, seconds_from, firsts_from, rules_from, moves_from, Finds, StartsWithAll};

use crate::moves::turn;
use crate::position::{Position, Rule};
use eval::eval;
use rows::read_game;
use rules::Move;

impl Rule<'_> {
    // The first legal move with this first number whose second number is not below `from`.
    fn next_second(&self, first: u32, from: u32) -> Option<Move>
        requires { first < self.now.row.first_bound }
        ensures { Finds (game_at self.now.at.rules.now) self.now.at.cells.now
            (seconds_from (game_at self.now.at.rules.now) self.now.at.cells.now self.now.number first from)
            (moves_from (game_at self.now.at.rules.now) self.now.at.cells.now (move self.now.number first from)) result }
    {
        for second in from..self.row.second_bound {
            if self.allows(first, second) {
                return Some(Move {
                    rule: self.number,
                    first,
                    second,
                });
            }
        }
        None
    }

    // The first legal move whose first number is not below `from`.
    fn next_first(&self, from: u32) -> Option<Move>
        ensures { Finds (game_at self.now.at.rules.now) self.now.at.cells.now
            (firsts_from (game_at self.now.at.rules.now) self.now.at.cells.now self.now.number from)
            (firsts_from (game_at self.now.at.rules.now) self.now.at.cells.now self.now.number from
            ++ rules_from (game_at self.now.at.rules.now) self.now.at.cells.now (self.now.number + 1)) result }
    {
        for first in from..self.row.first_bound {
            if let Some(found) = self.next_second(first, 0) {
                return Some(found);
            }
        }
        None
    }
}

impl Position<'_> {
    // The first legal move of the rules from `from` on.
    fn next_rule(&self, from: u32) -> Option<Move>
        ensures { Finds (game_at self.now.rules.now) self.now.cells.now
            (rules_from (game_at self.now.rules.now) self.now.cells.now from)
            (rules_from (game_at self.now.rules.now) self.now.cells.now from) result }
    {
        for number in from..read_game(self.rules).rules {
            if let Some(found) = self.rule(number)?.next_first(0) {
                return Some(found);
            }
        }
        None
    }
}

// The first legal move that is not before `from`. To list all, start at rule 0 with the numbers 0 and 0,
// and go on from what was found with 1 added to its second number.
pub fn next_move(rules: &[u32], cells: &[u32], from: Move) -> Option<Move>
    ensures { Finds (game_at rules.now) cells.now
        (moves_from (game_at rules.now) cells.now from)
        (moves_from (game_at rules.now) cells.now from) result }
{
    let me = turn(rules, cells);
    let position = Position { rules, cells, me };
    let rule = position.rule(from.rule)?;
    if from.first >= rule.row.first_bound {
        return position.next_rule(from.rule + 1);
    }
    if let Some(found) = rule.next_second(from.first, from.second) {
        return Some(found);
    }
    if let Some(found) = rule.next_first(from.first + 1) {
        return Some(found);
    }
    position.next_rule(from.rule + 1)
}

// The moves from the least one on are all legal moves.
pub fn starts_with_all() -> u8
    ensures { StartsWithAll }
{
    0
}

// Whether the game is over: it says so, or no move is legal.
pub fn is_over(rules: &[u32], cells: &[u32]) -> bool
    ensures { result ≡ meaning-of-play.is_over (game_at rules.now) cells.now }
{
    let game = read_game(rules);
    let me = turn(rules, cells);
    let position = Position { rules, cells, me };
    eval(rules, game.terminal, cells, 0, 0, me) != 0 || position.next_rule(0).is_none()
}
