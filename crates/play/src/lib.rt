// Playing a game that is in lent memory.
#![tactic(auto)]

mod cursor;
mod listing;
mod moves;
mod position;

pub use cursor::{is_over, next_move, starts_with_all};
pub use listing::list_moves;
pub use moves::{apply, is_legal, payoff, turn};
