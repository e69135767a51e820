// One move of a game in lent memory: whose turn it is, whether the move is legal, and what it does.
ghost use Rattle.std.specs.Prelude.{◌≡◌};
ghost use Rattle.rules.specs.Rules as meaning;
ghost use Rattle.rules.specs.Play as meaning-of-play;
ghost use Rattle.rows.specs.Layout.{game_at};

use crate::position::Position;
use eval::{eval, word_at};
use rows::{apply_effects, read_game, read_rule};
use rules::Move;

// Whose turn it is.
pub fn turn(rules: &[u32], cells: &[u32]) -> u32
    ensures { result ≡ meaning.turn (game_at rules.now) cells.now }
{
    word_at(cells, 0)
        .checked_rem(read_game(rules).players)
        .unwrap_or(0)
}

// Whether a move is legal. Test by test: in a closure of `is_some_and` the three tests are no plainer.
pub fn is_legal(rules: &[u32], cells: &[u32], played: Move) -> bool
    ensures { result ≡ meaning.is_legal (game_at rules.now) cells.now played }
{
    let me = turn(rules, cells);
    let Some(rule) = (Position { rules, cells, me }).rule(played.rule) else {
        return false;
    };
    if played.first >= rule.row.first_bound || played.second >= rule.row.second_bound {
        return false;
    }
    rule.allows(played.first, played.second)
}

// A move happens, legal or not: its rule's effects do. Where the game has no such rule, nothing happens.
pub fn apply(rules: &[u32], cells: &mut [u32], played: Move)
    ensures { cells.new ≡ meaning.apply (game_at rules.now) cells.old played }
{
    if let Some(row) = read_rule(rules, played.rule) {
        let me = turn(rules, cells);
        apply_effects(rules, row, cells, played.first, played.second, me);
    }
}

// What a player has gained.
pub fn payoff(rules: &[u32], cells: &[u32], player: u32) -> u32
    ensures { result ≡ meaning-of-play.payoff (game_at rules.now) cells.now player }
{
    eval(rules, read_game(rules).payoff, cells, 0, 0, player)
}
