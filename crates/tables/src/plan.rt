// The header of a server's state.
ghost use Rattle.std.specs.Prelude.{◌≡◌, is_some};
ghost use Rattle.tables.specs.Layout.{good_size, good_plan, plan_of};
ghost use Rattle.tables.specs.Acting.{sizes_for, opening, OpeningIsRight, GoodGamesHaveGoodSizes};

use rows::words_needed;
use rules::Limits;
use wire::GameSize;

// What the header says: limits, sizes of the game, how many tables there are, and how many moves were played at all of them.
#[derive(Clone, Copy)]
pub struct Plan {
    pub tables: usize,
    pub moves: usize,
    pub cells: usize,
    pub players: usize,
    pub seated: usize,
    pub played: usize,
}

// How much memory a server is lent: words for its rules, for its state and for searches, and bytes for an answer.
#[derive(Clone, Copy)]
pub struct Sizes {
    pub rules: usize,
    pub state: usize,
    pub scratch: usize,
    pub answer: usize,
}

// The first word of memory that an opening wrote.
const MARK: u32 = 1465208388;

// How many words the header has, and how many a record has besides its cells.
pub(crate) const HEADER: usize = 16;

pub(crate) const RECORD: usize = 9;

// Where the header counts the tables, and where the moves.
pub(crate) const SEATED: usize = 9;

pub(crate) const PLAYED: usize = 10;

// Whether a plan can be that of an opening, and memory of `size` words is long enough for it.
fn is_good(p: Plan, size: usize) -> bool
    ensures { result ≡ good_plan p size }
{
    if p.tables > 1024 || p.moves > 1_000_000 || p.cells > 256 || p.players > 4 {
        return false;
    }
    if p.seated > p.tables || p.played > p.moves {
        return false;
    }
    HEADER + p.tables * (p.cells + RECORD) + 4 * p.moves <= size
}

// The plan that a state's header says, or None where memory is not a server's.
pub fn read_plan(state: &[u32]) -> Option<Plan>
    ensures { result ≡ plan_of state.now }
{
    if state.len() < HEADER {
        return None;
    }
    if state[0] != MARK {
        return None;
    }
    let p = Plan {
        tables: state[1] as usize,
        moves: state[2] as usize,
        cells: state[4] as usize,
        players: state[5] as usize,
        seated: state[SEATED] as usize,
        played: state[PLAYED] as usize,
    };
    is_good(p, state.len()).then_some(p)
}

// Whether a good game can have this size.
fn small(size: GameSize) -> bool
    ensures { result ≡ good_size size }
{
    if size.players > 4 || size.cells > 256 || size.rules > 64 {
        return false;
    }
    size.effects <= 16384 && size.moves <= 4096 && size.parts <= 16384
}

// How much memory an opening asks for, or None where limits or size are not good.
pub fn sizes_for(limits: Limits, size: GameSize) -> Option<Sizes>
    ensures { result ≡ sizes_for limits size }
{
    if !limits.are_good() {
        return None;
    }
    if !small(size) {
        return None;
    }
    let cells = size.cells as usize;
    Some(Sizes {
        rules: words_needed(size),
        state: HEADER + limits.tables as usize * (cells + RECORD) + 4 * limits.moves as usize,
        scratch: 2 * limits.positions as usize * (cells + 16) + 512,
        answer: 12 * size.moves as usize + 4096,
    })
}

// Writes the header of a server that has just been opened, if it can: limits and size are good, and memory is long enough.
pub fn open_tables(limits: Limits, size: GameSize, state: &mut [u32]) -> Option<()>
    ensures after { state.new ≡ (opening limits size state.old).0 }
    ensures could { is_some result ≡ (opening limits size state.old).1 }
{
    let sizes = sizes_for(limits, size)?;
    if state.len() < sizes.state {
        return None;
    }
    let header = [
        MARK,
        limits.tables,
        limits.moves,
        limits.positions,
        size.cells,
        size.players,
        sizes.rules as u32,
        sizes.scratch as u32,
        sizes.answer as u32,
        0,
        0,
        0,
        0,
        0,
        0,
        0,
    ];
    state[0..HEADER].copy_from_slice(&header);
    Some(())
}

// A state that was just opened means a server with no tables.
pub fn opening_is_right() -> u8
    ensures { OpeningIsRight }
{
    0
}

// Every good game can be opened: its sizes are good.
pub fn good_games_have_good_sizes() -> u8
    ensures { GoodGamesHaveGoodSizes }
{
    0
}
