// The lines of a calls file, and the answer to one.
ghost use Rattle.std.specs.Prelude.{◌≡◌, length};
ghost use Rattle.rules.specs.declared.Limits.{Limits};
ghost use Rattle.rules.specs.Calls.{State, no_calls, answer, refused};
ghost use Rattle.commands.specs.Lines.{line_call, LineCallMeans, Replies};

use rules::{Call, Refusal};

// What a line is, its call told as a T. Three outcomes by names, which an Option of a Result would not have.
#[derive(Clone, Copy, PartialEq, Eq, Debug)]
pub enum Line<T> {
    // blank or a comment
    Nothing,
    // no call: how much of it some line of a call begins with
    NoCall(usize),
    Call(T),
}

// The answer of a server that can do no call.
fn refuse(call: Call) -> Refusal
    ensures { (l : Limits) (s : State) → answer no_calls l s call ≡ refused result }
{
    call.not_done()
}

// The call that a line stands for, by the bytes that it says or by its words.
fn read_line(line: &[u8]) -> Result<Call, usize>
    ensures { result ≡ line_call line.now }
{
    match text::read_bytes(line) {
        Ok(raw) => wire::read_call(raw.kept()),
        Err(i) => match text::read_call(line) {
            Ok(call) => Ok(call),
            Err(j) => Err(i.max(j)),
        },
    }
}

// What is answered to a line's call.
pub fn reply_to(line: &[u8]) -> Line<Refusal>
    ensures { (l : Limits) (s : State) → Replies l s line.now result }
{
    let letters = text::letters(line);
    if text::is_passed_over(letters) {
        return Line::Nothing;
    }
    match read_line(letters) {
        Ok(call) => Line::Call(refuse(call)),
        Err(place) => Line::NoCall(place),
    }
}

// The call that a line stands for is so by the grammar, and so is the place where there is none.
pub fn line_call_means() -> u8
    ensures { LineCallMeans }
{
    0
}
