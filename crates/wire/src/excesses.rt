// Which limit of a good game a game breaks.
ghost use Rattle.std.specs.Prelude.{◌≡◌};
ghost use Rattle.wire.specs.Games.{parse_game};
ghost use Rattle.wire.specs.Excess.{count_excess, excess_of, DeepIsDeep};
ghost use Rattle.wire.specs.GamesWalk.{found_excess};

use super::walks::{Found, walk_game};
use std::fmt;

// The limits of a good game; walks knows that of bounds.
const MOST_PLAYERS: u8 = 4;

const MOST_CELLS: u16 = 256;

const MOST_RULES: u8 = 64;

const MOST_MOVES: usize = 4096;

const MOST_PARTS: usize = 16384;

// What a game has too much of (of players and cells also too little), with its number. `Deep` says that an expression is too deep.
#[derive(Clone, Copy, PartialEq, Eq, Debug)]
pub enum Excess {
    Players(usize),
    Cells(usize),
    Rules(usize),
    Moves(usize),
    Parts(usize),
    FirstBound { rule: usize, bound: usize },
    SecondBound { rule: usize, bound: usize },
    Deep,
}

impl fmt::Display for Excess {
    fn fmt<W: fmt::Write>(&self, f: &mut fmt::Formatter<W>) -> fmt::Result {
        match self {
            Excess::Players(n) => write!(f, "the game has {n} players, and 1 to 4 are served"),
            Excess::Cells(n) => write!(f, "the game has {n} cells, and 1 to 256 are served"),
            Excess::Rules(n) => write!(f, "the game has {n} rules, and at most 64 are served"),
            Excess::Moves(n) => write!(
                f,
                "the game has {n} possible moves, and at most 4096 are served"
            ),
            Excess::Parts(n) => write!(f, "the game has {n} parts, and at most 16384 are served"),
            Excess::FirstBound { rule, bound } => write!(
                f,
                "rule {rule}, counted from 0, has the first bound {bound}, and at most 256 is served"
            ),
            Excess::SecondBound { rule, bound } => write!(
                f,
                "rule {rule}, counted from 0, has the second bound {bound}, and at most 256 is served"
            ),
            Excess::Deep => write!(
                f,
                "an expression is more than 32 deep, and 32 is the most that is served"
            ),
        }
    }
}

// The first count that is outside its limits.
#[tactic(auto, unfolding(crate::specs::Excess::count_excess))]
fn outside_limits(found: &Found) -> Option<Excess>
    ensures { result ≡ count_excess found.now.players found.now.cells found.now.rules found.now.totals.moves found.now.totals.parts }
{
    if !(1..=MOST_PLAYERS).contains(&found.players) {
        Some(Excess::Players(usize::from(found.players)))
    } else if !(1..=MOST_CELLS).contains(&found.cells) {
        Some(Excess::Cells(usize::from(found.cells)))
    } else if found.rules > MOST_RULES {
        Some(Excess::Rules(usize::from(found.rules)))
    } else if found.totals.moves > MOST_MOVES {
        Some(Excess::Moves(found.totals.moves))
    } else if found.totals.parts > MOST_PARTS {
        Some(Excess::Parts(found.totals.parts))
    } else {
        None
    }
}

// The first limit that is broken: a count, else a bound of a rule, else the depth of an expression.
pub(super) fn limit_broken(found: &Found) -> Option<Excess>
    ensures { result ≡ found_excess found.now }
{
    outside_limits(found)
        .or(found.totals.bound)
        .or(found.totals.deep.then_some(Excess::Deep))
}

// The first limit that a game breaks: None if the bytes are a good game, or no game at all.
pub fn first_excess(game: &[u8]) -> Option<Excess>
    ensures { result ≡ excess_of (parse_game game.now) }
{
    limit_broken(&walk_game(game)?)
}

// Of a game whose numbers fit it is told that an expression is too deep only if one is.
pub fn deep_is_deep() -> u8
    ensures { DeepIsDeep }
{
    0
}
