// The largest limits that a server may be opened with.
ghost use Rattle.std.specs.Prelude.{◌≡◌, is_none};
ghost use Rattle.rules.specs.Bounds.{good_limits};
ghost use Rattle.commands.specs.Limits.{too_many};

use rules::{Limit, Limits, MOST_MOVES, MOST_POSITIONS, MOST_TABLES};
use std::fmt;

// A limit that is larger than a server may have, and what was asked for.
#[derive(Clone, Copy, PartialEq, Eq, Debug)]
pub struct TooMany {
    pub limit: Limit,
    pub asked: u32,
}

impl fmt::Display for TooMany {
    fn fmt<W: fmt::Write>(&self, f: &mut fmt::Formatter<W>) -> fmt::Result {
        let (name, most) = match self.limit {
            Limit::Tables => ("tables", MOST_TABLES),
            Limit::Moves => ("moves", MOST_MOVES),
            Limit::Positions => ("positions", MOST_POSITIONS),
        };
        write!(
            f,
            "{} {name} are more than a server has, which is {most}",
            self.asked
        )
    }
}

// The first limit that is too large, if there is one.
pub fn first_too_many(limits: Limits) -> Option<TooMany>
    ensures first { result ≡ too_many limits }
    ensures good { is_none result ≡ good_limits limits }
{
    let (limit, asked) = if limits.tables > MOST_TABLES {
        (Limit::Tables, limits.tables)
    } else if limits.moves > MOST_MOVES {
        (Limit::Moves, limits.moves)
    } else if limits.positions > MOST_POSITIONS {
        (Limit::Positions, limits.positions)
    } else {
        return None;
    };
    Some(TooMany { limit, asked })
}
