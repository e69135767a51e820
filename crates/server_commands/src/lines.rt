// What a line of a calls file asks.
ghost use Rattle.std.specs.Prelude.{◌≡◌};
ghost use Rattle.wire.specs.Calls.{call_bytes};
ghost use Rattle.server_commands.specs.Lines.{Holds, Says, Asks, ReadAsSaid};

use super::kept::CallBytes;
use commands::Line;
use rules::Call;
use text::MOST_KEPT;

// The bytes of a call, kept.
fn keep_call(call: Call) -> CallBytes
    ensures { Holds (call_bytes call) result }
{
    let mut kept = [0; MOST_KEPT];
    let count = wire::write_call(call, &mut kept).unwrap_or(0);
    CallBytes { bytes: kept, count }
}

// What letters say that are not passed over: bytes, or a call by its words.
fn read_letters(letters: &[u8]) -> Line<CallBytes>
    ensures { Says letters.now result }
{
    match text::read_bytes(letters) {
        Ok(raw) => {
            let bytes = raw.bytes;
            let count = raw.count.min(MOST_KEPT);
            Line::Call(CallBytes { bytes, count })
        }
        Err(i) => match text::read_call(letters) {
            Ok(call) => Line::Call(keep_call(call)),
            Err(j) => Line::NoCall(i.max(j)),
        },
    }
}

// What a line asks, which may still have its LF or CR LF at the end.
pub fn read_line(line: &[u8]) -> Line<CallBytes>
    ensures means { Asks line.now result }
{
    let letters = text::letters(line);
    if text::is_passed_over(letters) {
        return Line::Nothing;
    }
    read_letters(letters)
}

// The bytes that are kept are read as the line's call, or as the bytes are that the line says.
pub fn kept_is_read_as_said() -> u8
    ensures { ReadAsSaid }
{
    0
}
