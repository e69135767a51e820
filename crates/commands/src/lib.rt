// The words of a command line, and the answer to a line of a calls file: what the programs decide, apart from files and streams.
#![tactic(auto)]

mod limits;
mod lines;
mod options;

pub use limits::{TooMany, first_too_many};
pub use lines::{Line, line_call_means, reply_to};
pub use options::{Fault, Given, Request, TakesWords, read_request, take_words, word_at};
