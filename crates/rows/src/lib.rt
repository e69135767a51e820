// A whole game in lent memory: loaded from its bytes, and read.
#![tactic(auto)]

mod loading;
mod read;

pub use loading::{every_game_has_memory, load, words_are_enough, words_needed};
pub use read::{GameRow, RuleRow, apply_effects, read_game, read_rule, start_cell};
