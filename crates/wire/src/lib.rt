// Games and calls as bytes.
#![tactic(auto)]

mod calls;
mod excesses;
mod fields;
mod games;
mod kinds;
mod walks;

pub use calls::{
    call_place_is_longest_front, call_reads_back, call_writes_back, read_call, write_call,
};
pub use excesses::{Excess, deep_is_deep, first_excess};
pub use fields::{
    field_at, put, put_bytes, put_field, put_fields, two_bytes, write_kind_and_fields,
};
pub use games::{GameSize, check_game, game_reads_back, game_writes_back, good_games_fit};
pub use kinds::{ExprKind, UnknownKind, arity_of};
pub use walks::MOST_LEVELS;
