// Games and answers printed as text. What is put into lent memory goes in as far as there is room.
#![tactic(auto)]

mod games;
mod replies;
mod writer;

pub use games::{print_game, printed_fits, printed_is_text, printed_reads_back};
pub use replies::{answer_text_fits, print_answer};
