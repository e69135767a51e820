// Games as bytes, checked. What the bytes of a game are, and which games are good, stands in specs/Games.antt and in rules.
ghost use Rattle.std.specs.Prelude.{◌≡◌};
ghost use Rattle.wire.specs.Games.{checked, GameReadsBack, GameWritesBack, GoodGamesFit};

use super::excesses::limit_broken;
use super::walks::walk_game;
use rules::{Reason, Refusal};

// How large a game is: `effects` are those of all rules together, `moves` how many there could be in a position.
#[derive(Clone, Copy, PartialEq, Eq, Debug)]
pub struct GameSize {
    pub players: u32,
    pub cells: u32,
    pub rules: u32,
    pub effects: u32,
    pub moves: u32,
    pub parts: u32,
}

// Whether bytes are a good game, and how large it is. Refused with number 3: at 0 if they are no game, at 1 if it is not a good one.
pub fn check_game(bytes: &[u8]) -> Result<GameSize, Refusal>
    ensures { result ≡ checked bytes.now }
{
    let found = walk_game(bytes).ok_or(Reason::NoGame)?;
    if limit_broken(&found).is_some() {
        return Err(Reason::NotGood.into());
    }
    Ok(GameSize {
        players: u32::from(found.players),
        cells: u32::from(found.cells),
        rules: u32::from(found.rules),
        effects: found.totals.effects,
        moves: found.totals.moves as u32,
        parts: found.totals.parts as u32,
    })
}

// A game is read back from its bytes.
pub fn game_reads_back() -> u8
    ensures { GameReadsBack }
{
    0
}

// Bytes that are read as a game are the bytes of just this game.
pub fn game_writes_back() -> u8
    ensures { GameWritesBack }
{
    0
}

// Every good game can be written as bytes.
pub fn good_games_fit() -> u8
    ensures { GoodGamesFit }
{
    0
}
