// Calls as bytes, read and written.
ghost use Rattle.std.specs.Prelude.{◌≡◌};
ghost use Rattle.wire.specs.Fields.{fields_at, written, room};
ghost use Rattle.wire.specs.Calls.{call_bytes, field_count, call_of, parse_call};
ghost use Rattle.wire.specs.CallKinds.{byte_of, IsCallKind};
ghost use Rattle.wire.specs.Calls.{CallReadsBack, CallWritesBack, CallPlaceIsLongestFront};

use super::fields::{field_at, write_kind_and_fields};
use super::kinds::UnknownKind;
use rules::{Call, Move};

// The kinds of calls; as bytes they are the numbers from 0 on.
#[derive(Clone, Copy)]
enum CallKind {
    Sit,
    Play,
    Ticks,
    See,
    May,
    Back,
    CanForce,
}

impl TryFrom<u8> for CallKind {
    type Error = UnknownKind;

    ghost try_from_gives = { IsCallKind };

    fn try_from(byte: u8) -> Result<CallKind, UnknownKind> {
        match byte {
            0 => Ok(CallKind::Sit),
            1 => Ok(CallKind::Play),
            2 => Ok(CallKind::Ticks),
            3 => Ok(CallKind::See),
            4 => Ok(CallKind::May),
            5 => Ok(CallKind::Back),
            6 => Ok(CallKind::CanForce),
            _ => Err(UnknownKind),
        }
    }
}

impl From<CallKind> for u8 {
    ghost from_gives = { λ kind byte. byte ≡ byte_of kind };

    fn from(kind: CallKind) -> u8 {
        kind as u8
    }
}

impl CallKind {
    // How many fields a call of this kind has.
    fn fields(self) -> usize
        ensures { result ≡ field_count (byte_of self) }
    {
        match self {
            CallKind::Play => 5,
            CallKind::Back => 2,
            CallKind::CanForce => 4,
            CallKind::Sit | CallKind::Ticks | CallKind::See | CallKind::May => 1,
        }
    }
}

// The call of this kind whose fields follow the first byte.
#[tactic(auto, unfolding(crate::specs::Fields::fields_at))]
fn call_at(kind: CallKind, bytes: &[u8]) -> Call
    ensures { result ≡ call_of (byte_of kind) (fields_at bytes.now 1 (field_count (byte_of kind))) }
{
    match kind {
        CallKind::Sit => Call::Sit(field_at(bytes, 1)),
        CallKind::Play => Call::Play {
            table: field_at(bytes, 1),
            player: field_at(bytes, 5),
            played: Move {
                rule: field_at(bytes, 9),
                first: field_at(bytes, 13),
                second: field_at(bytes, 17),
            },
        },
        CallKind::Ticks => Call::Ticks(field_at(bytes, 1)),
        CallKind::See => Call::See(field_at(bytes, 1)),
        CallKind::May => Call::May(field_at(bytes, 1)),
        CallKind::Back => Call::Back {
            table: field_at(bytes, 1),
            moves: field_at(bytes, 5),
        },
        CallKind::CanForce => Call::CanForce {
            table: field_at(bytes, 1),
            player: field_at(bytes, 5),
            gain: field_at(bytes, 9),
            within: field_at(bytes, 13),
        },
    }
}

// The call that bytes are, or the place where they cease to be one.
pub fn read_call(bytes: &[u8]) -> Result<Call, usize>
    ensures { result ≡ parse_call bytes.now }
{
    let byte = *bytes.first().ok_or(0usize)?;
    let kind = CallKind::try_from(byte).map_err(|_| 0usize)?;
    let wanted = 1 + 4 * kind.fields();
    if bytes.len() != wanted {
        return Err(bytes.len().min(wanted));
    }
    Ok(call_at(kind, bytes))
}

// Writes a call at the front, and says how many bytes it is; where it has no room nothing changes.
#[tactic(auto, unfolding(crate::specs::Calls::call_bytes, crate::specs::Calls::call_fields, rules::specs::Calls::call_number))]
pub fn write_call(call: Call, out: &mut [u8]) -> Option<usize>
    ensures size { result ≡ room 0 (call_bytes call) out.old }
    ensures bytes { out.new ≡ written 0 (call_bytes call) out.old }
{
    match call {
        Call::Sit(ticks) => write_kind_and_fields(out, CallKind::Sit.into(), &[ticks]),
        Call::Play {
            table,
            player,
            played,
        } => write_kind_and_fields(
            out,
            CallKind::Play.into(),
            &[table, player, played.rule, played.first, played.second],
        ),
        Call::Ticks(n) => write_kind_and_fields(out, CallKind::Ticks.into(), &[n]),
        Call::See(table) => write_kind_and_fields(out, CallKind::See.into(), &[table]),
        Call::May(table) => write_kind_and_fields(out, CallKind::May.into(), &[table]),
        Call::Back { table, moves } => write_kind_and_fields(
            out,
            CallKind::Back.into(),
            &[table, moves],
        ),
        Call::CanForce {
            table,
            player,
            gain,
            within,
        } => write_kind_and_fields(
            out,
            CallKind::CanForce.into(),
            &[table, player, gain, within],
        ),
    }
}

// A call whose fields fit comes back from its bytes.
pub fn call_reads_back() -> u8
    ensures { CallReadsBack }
{
    0
}

// Bytes that are read as a call are the bytes of that call, and its fields fit.
pub fn call_writes_back() -> u8
    ensures { CallWritesBack }
{
    0
}

// Bytes that are refused at a place are no call; so far they are the beginning of one, and no further.
pub fn call_place_is_longest_front() -> u8
    ensures { CallPlaceIsLongestFront }
{
    0
}
