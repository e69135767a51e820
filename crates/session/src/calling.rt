// A call in bytes is answered in bytes.
ghost use Rattle.std.specs.Prelude.{◌≡◌, true, false, length};
ghost use Rattle.rules.specs.declared.Call.TheVariants.{See, May};
ghost use Rattle.wire.specs.Fields.{written, room};
ghost use Rattle.answers.specs.Answers.{answer_bytes};
ghost use Rattle.tables.specs.Acting.{told as told-as};
ghost use Rattle.session.specs.Opening.{lent};
ghost use Rattle.session.specs.Calling.{ready, Called};
ghost use Rattle.session.specs.Inner.{Writes, Acts};

use answers::{write_list_head, write_number, write_refusal, write_shown};
use eval::word_at;
use play::{list_moves, turn};
use rules::{Call, Reason, Refusal};
use tables::{find_table, play, read_plan, sit};
use wire::read_call;

// Where the header says how long the other slices are at least.
const RULES_SIZE: usize = 6;

const SCRATCH_SIZE: usize = 7;

const ANSWER_SIZE: usize = 8;

// Whether header and lengths are those of an opening. Test by test: of one chain of `&&` over calls the proof didn't close.
// The four slices are the ones that a caller lends, in the order of the C interface.
fn is_ready(rules: &[u32], state: &[u32], scratch: &[u32], answer: &[u8]) -> bool
    ensures { result ≡ ready (lent rules.now state.now scratch.now answer.now) }
{
    let Some(_plan) = read_plan(state) else {
        return false;
    };
    if word_at(state, RULES_SIZE) as usize > rules.len() {
        return false;
    }
    if word_at(state, SCRATCH_SIZE) as usize > scratch.len() {
        return false;
    }
    word_at(state, ANSWER_SIZE) as usize <= answer.len()
}

// A number, or a refusal.
fn tell(answer: &mut [u8], told: Result<u32, Refusal>) -> Option<usize>
    ensures size { result ≡ room 0 (answer_bytes (told-as told)) answer.old }
    ensures bytes { answer.new ≡ written 0 (answer_bytes (told-as told)) answer.old }
{
    match told {
        Ok(n) => write_number(answer, n),
        Err(refusal) => write_refusal(answer, refusal),
    }
}

// The position at a table.
fn show(rules: &[u32], state: &[u32], table: u32, answer: &mut [u8]) -> Option<usize>
    ensures { Writes rules.now state.now (See table) answer.old answer.new result }
{
    let found = find_table(state, table);
    match found {
        Err(refusal) => write_refusal(answer, refusal),
        Ok(seat) => {
            let at = seat.at;
            let after = at + seat.cells;
            let end = after + seat.players;
            let cells = &state[at..after];
            let me = turn(rules, cells);
            write_shown(answer, cells, me, seat.end, &state[after..end])
        }
    }
}

// The moves that may be made at a table: none where it is over.
fn list(rules: &[u32], state: &[u32], table: u32, answer: &mut [u8]) -> Option<usize>
    ensures { Writes rules.now state.now (May table) answer.old answer.new result }
{
    let found = find_table(state, table);
    match found {
        Err(refusal) => write_refusal(answer, refusal),
        Ok(seat) => {
            if seat.end != 0 {
                return write_list_head(answer, 0);
            }
            let at = seat.at;
            let after = at + seat.cells;
            list_moves(rules, &state[at..after], answer)
        }
    }
}

// A call does what it does to the state, and its answer is written.
fn act(rules: &[u32], state: &mut [u32], call: Call, answer: &mut [u8]) -> Option<usize>
    ensures { Acts rules.now state.old answer.old call state.new answer.new result }
{
    match call {
        Call::Sit(ticks) => {
            let told = sit(rules, state, ticks);
            tell(answer, told)
        }
        Call::Play {
            table,
            player,
            played,
        } => {
            let told = play(rules, state, table, player, played);
            tell(answer, told)
        }
        Call::See(table) => show(rules, state, table, answer),
        Call::May(table) => list(rules, state, table, answer),
        Call::Ticks(_) | Call::Back { .. } | Call::CanForce { .. } => write_refusal(
            answer,
            call.not_done(),
        ),
    }
}

// Answers a call, and says how many bytes the answer has. Where header or lengths are not those of an opening it says 0 and changes nothing.
// Searches alone write to `scratch`, and this server does none.
pub fn call(
    rules: &[u32],
    state: &mut [u32],
    scratch: &mut [u32],
    call: &[u8],
    answer: &mut [u8],
) -> usize
    ensures { Called
        (lent rules.now state.old scratch.old answer.old) call.now
        (lent rules.now state.new scratch.new answer.new) result }
{
    if !is_ready(rules, state, scratch, answer) {
        return 0;
    }
    let size = match read_call(call) {
        Ok(asked) => act(rules, state, asked, answer),
        Err(place) => write_refusal(answer, Reason::NoCall(place as u32).into()),
    };
    size.unwrap_or(0)
}
