// The plain types that code and meaning share. What they mean stands in specs/, in this order: Rules, Play, Force, Calls, Bounds.
#![tactic(auto)]

ghost use Rattle.std.specs.Prelude.{◌≡◌};
ghost use Rattle.rules.specs.Bounds.{good_limits, with_limit, usual_limits};
ghost use Rattle.rules.specs.Calls.{refusal_place};
ghost use Rattle.rules.specs.Reasons.{refusal_by};

use std::fmt;

// A move: a rule of the game, by its place in the list of rules, and the two numbers that it is played with.
#[derive(Clone, Copy, PartialEq, Eq, Debug)]
pub struct Move {
    pub rule: u32,
    pub first: u32,
    pub second: u32,
}

// How much a server has: tables, moves played at all of them together, and positions that a search may look through.
#[derive(Clone, Copy, PartialEq, Eq, Debug)]
pub struct Limits {
    pub tables: u32,
    pub moves: u32,
    pub positions: u32,
}

// One of the limits.
#[derive(Clone, Copy, PartialEq, Eq, Debug)]
pub enum Limit {
    Tables,
    Moves,
    Positions,
}

// The largest that a server may have.
pub const MOST_TABLES: u32 = 1024;

pub const MOST_MOVES: u32 = 1_000_000;

pub const MOST_POSITIONS: u32 = 8192;

impl Limits {
    // Whether a server may have them.
    pub fn are_good(self) -> bool
        ensures { result ≡ good_limits self }
    {
        self.tables <= MOST_TABLES && self.moves <= MOST_MOVES && self.positions <= MOST_POSITIONS
    }

    // The same but for one of them.
    pub fn with(self, limit: Limit, n: u32) -> Limits
        ensures { result ≡ with_limit self limit n }
    {
        match limit {
            Limit::Tables => Limits { tables: n, ..self },
            Limit::Moves => Limits { moves: n, ..self },
            Limit::Positions => Limits {
                positions: n,
                ..self
            },
        }
    }
}

impl Default for Limits {
    ghost is_default = { λ limits. limits ≡ usual_limits };

    fn default() -> Limits {
        Limits {
            tables: 16,
            moves: 1000,
            positions: 256,
        }
    }
}

// Why something was refused: a number of the closed list in docs/FORMATS.md, and the place that is at fault.
#[derive(Clone, Copy, PartialEq, Eq, Debug)]
pub struct Refusal {
    pub number: u32,
    pub place: u32,
}

impl fmt::Display for Refusal {
    fn fmt<W: fmt::Write>(&self, f: &mut fmt::Formatter<W>) -> fmt::Result {
        write!(f, "refused {} at {}", self.number, self.place)
    }
}

// Why something is refused: the closed list, by names. specs/Reasons says the number and the place of each.
#[derive(Clone, Copy, PartialEq, Eq, Debug)]
pub enum Reason {
    // bytes are no call: from this place on they cease to be one
    NoCall(u32),
    // the server can't do the call: which field is too large for it, or 0
    NotDone(u32),
    // bytes are no game
    NoGame,
    // a game or limits that no server takes
    NotGood,
    // memory that is too short, or not a server's
    NoMemory,
    NoTable,
    TableOver,
    NotTheirTurn,
    NotLegal,
    // as many tables or moves as there may be
    Full,
}

impl From<Reason> for Refusal {
    ghost from_gives = { λ reason refusal. refusal ≡ refusal_by reason };

    fn from(reason: Reason) -> Refusal {
        let (number, place) = match reason {
            Reason::NoCall(place) => (1, place),
            Reason::NotDone(field) => (2, field),
            Reason::NoGame => (3, 0),
            Reason::NotGood => (3, 1),
            Reason::NoMemory => (3, 2),
            Reason::NoTable => (4, 0),
            Reason::TableOver => (5, 0),
            Reason::NotTheirTurn => (6, 1),
            Reason::NotLegal => (7, 2),
            Reason::Full => (8, 0),
        };
        Refusal { number, place }
    }
}

// What can be asked of a server.
#[derive(Clone, Copy, PartialEq, Eq, Debug)]
pub enum Call {
    // a new table, with so many ticks for each player; 0 is a table without clocks
    Sit(u32),
    Play {
        table: u32,
        player: u32,
        played: Move,
    },
    // so many ticks have gone by
    Ticks(u32),
    // the position at a table
    See(u32),
    // the legal moves at a table
    May(u32),
    // the position after the first so many moves of a table
    Back {
        table: u32,
        moves: u32,
    },
    // whether a player can force a gain within so many moves
    CanForce {
        table: u32,
        player: u32,
        gain: u32,
        within: u32,
    },
}

// The deepest search that a call may ask for.
const DEEPEST: u32 = 64;

impl Call {
    // Why a server refuses this call that can't do it: a search that is too deep is so by its last field.
    pub fn not_done(self) -> Refusal
        ensures number { result.number ≡ 2 }
        ensures place { result.place ≡ refusal_place self 2 }
    {
        let field = match self {
            Call::CanForce { within, .. } => if within > DEEPEST { 3 } else { 0 },
            _ => 0,
        };
        Reason::NotDone(field).into()
    }
}
