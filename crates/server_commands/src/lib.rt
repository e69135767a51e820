// What the words of a command line ask for, and the lines of a calls file: what the programs decide, apart from files and streams.
#![tactic(auto)]

mod kept;
mod lines;
mod options;

pub use commands::{Fault, Line};
pub use kept::CallBytes;
pub use lines::{kept_is_read_as_said, read_line};
pub use options::{Request, read_request};
