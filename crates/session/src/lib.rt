// A server: opened for a game, and called in bytes.
#![tactic(auto)]

mod calling;
mod opening;

ghost use Rattle.session.specs.Promise.{Right, RefusalKeeps, NeedsLittle, EnoughMemory};

pub use calling::call;
pub use opening::{needs, open};

// Every answer is that of the written rules after the calls before it.
pub fn right() -> u8
    ensures { Right }
{
    0
}

// What is refused leaves rules, state and scratch as they were, and of the answer all past its own bytes.
pub fn refusal_keeps() -> u8
    ensures { RefusalKeeps }
{
    0
}

// What a server asks for is at most the sums that specs/Promise states.
pub fn needs_little() -> u8
    ensures { NeedsLittle }
{
    0
}

// What is lent at opening is enough for any calls.
pub fn enough_memory() -> u8
    ensures { EnoughMemory }
{
    0
}
