// A server is opened: its game is loaded, and its tables' memory is made ready.
ghost use Rattle.std.specs.Prelude.{◌≡◌};
ghost use Rattle.session.specs.Opening.{lent, needed, long_enough, Opens};

use rules::{Limits, Reason, Refusal};
use tables::{Sizes, open_tables, sizes_for};
use wire::check_game;

// How much memory a server with these limits asks for, for the game that bytes are.
pub fn needs(limits: Limits, game: &[u8]) -> Result<Sizes, Refusal>
    ensures { result ≡ needed limits game.now }
{
    let size = check_game(game)?;
    Ok(sizes_for(limits, size).ok_or(Reason::NotGood)?)
}

// Whether each slice is as long as it has to be.
fn are_long(sizes: Sizes, rules: &[u32], state: &[u32], scratch: &[u32], answer: &[u8]) -> bool
    ensures { result ≡ long_enough sizes (lent rules.now state.now scratch.now answer.now) }
{
    sizes.rules <= rules.len()
        && sizes.state <= state.len()
        && sizes.scratch <= scratch.len()
        && sizes.answer <= answer.len()
}

// Opens a server. Refused by 3, at 0 for bytes that are no game, at 1 for a game or limits that are not good, at 2 for a slice that is too short;
// all memory is then as it was. The whole game is read before anything is written.
pub fn open(
    limits: Limits,
    game: &[u8],
    rules: &mut [u32],
    state: &mut [u32],
    scratch: &[u32],
    answer: &[u8],
) -> Result<Sizes, Refusal>
    ensures { Opens limits game.now
        (lent rules.old state.old scratch.now answer.now)
        (lent rules.new state.new scratch.now answer.now) result }
{
    let sizes = needs(limits, game)?;
    if !are_long(sizes, rules, state, scratch, answer) {
        return Err(Reason::NoMemory.into());
    }
    let size = rows::load(game, rules)?;
    open_tables(limits, size, state);
    Ok(sizes)
}
