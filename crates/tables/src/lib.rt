// A server's tables in lent memory: the state, and what it means.
#![tactic(auto)]

mod acting;
mod plan;
mod records;

pub use acting::{
    Seat, find_table, play, playing_is_right, seats_are_right, sit, sitting_is_right,
};
pub use plan::{
    Plan, Sizes, good_games_have_good_sizes, open_tables, opening_is_right, read_plan, sizes_for,
};
