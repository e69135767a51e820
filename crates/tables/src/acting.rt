// Tables: sitting down, playing a move, and looking at a table.
ghost use Rattle.std.specs.Prelude.{◌≡◌, ◌+◌, ◌<◌, ◌≤◌, length, None, Some, MatchOption, ◌≢◌, slice_index};
ghost use Rattle.rows.specs.Layout.{game_at};
ghost use Rattle.tables.specs.Layout.{record_place, entry_place, state_words, plan_of};
ghost use Rattle.tables.specs.Changes.{sat_in};
ghost use Rattle.tables.specs.Inner.{seat_with, played_from};
ghost use Rattle.tables.specs.Acting.{sat, played as played-on, seat_of, SittingIsRight, PlayingIsRight, SeatsAreRight};

use crate::plan::{HEADER, PLAYED, Plan, RECORD, SEATED, read_plan};
use crate::records::{COUNT, END, LINK, advance, put_entry, put_record};
use eval::word_at;
use play::{is_legal, turn};
use rules::{Move, Reason, Refusal};
use wire::put;

// Places and not slices, since what a theorem says of a table it says of any state, one that is about to be written too.
// Where a table's record stands, with the sizes of its game, and what is kept there
// of its end, which is a word like any in memory, and of how many moves were played.
#[derive(Clone, Copy)]
pub struct Seat {
    pub at: usize,
    pub cells: usize,
    pub players: usize,
    pub end: u32,
    pub played: u32,
}

// A server by its plan, with what every plan keeps to.
#[derive(Clone, Copy)]
struct Server {
    plan: Plan,
    ghost few_tables: { plan.tables ≤ 1024 },
    ghost few_moves: { plan.moves ≤ 1000000 },
    ghost few_cells: { plan.cells ≤ 256 },
    ghost few_players: { plan.players ≤ 4 },
    ghost may_sit: { plan.seated ≤ plan.tables },
    ghost may_play: { plan.played ≤ plan.moves },
}

// The record of a table that there may be: the words from a place of the state on.
#[derive(Clone, Copy)]
struct Record {
    server: Server,
    at: usize,
    ghost before_end: { at + (server.plan.cells + 9) ≤ state_words server.plan.cells server.plan.tables server.plan.moves },
    ghost low: { at ≤ 300000 },
}

// How many words an entry has.
const ENTRY: usize = 4;

impl Server {
    // The server whose state this is, or None where memory is not a server's.
    fn read(state: &[u32]) -> Option<Server>
        ensures { MatchOption result (plan_of state.now ≡ None)
            (λ s. (plan_of state.now ≡ Some s.plan) × (state_words s.plan.cells s.plan.tables s.plan.moves ≤ length state.now)) }
    {
        let plan = read_plan(state)?;
        Some(Server { plan })
    }

    // The record of table `t`.
    fn record(&self, t: usize) -> Record
        requires { t < self.now.plan.tables }
        ensures { (result.server.plan ≡ self.now.plan) × (result.at ≡ record_place self.now.plan.cells t) }
    {
        Record {
            server: *self,
            at: HEADER + t * (self.plan.cells + RECORD),
        }
    }

    // The record for a new table.
    fn free_record(&self) -> Option<Record>
        ensures { MatchOption result (self.now.plan.tables ≤ self.now.plan.seated)
            (λ r. (self.now.plan.seated < self.now.plan.tables) × (r.server.plan ≡ self.now.plan)
            × (r.at ≡ record_place self.now.plan.cells self.now.plan.seated)) }
    {
        (self.plan.seated < self.plan.tables).then(|| self.record(self.plan.seated))
    }

    // A table's record.
    fn found_record(&self, table: u32) -> Option<Record>
        ensures { MatchOption result (self.now.plan.seated ≤ table)
            (λ r. (table < self.now.plan.seated) × (r.server.plan ≡ self.now.plan) × (r.at ≡ record_place self.now.plan.cells table)) }
    {
        let t = table as usize;
        (t < self.plan.seated).then(|| self.record(t))
    }

    // The place for a new entry.
    fn free_entry(&self) -> Option<usize>
        ensures { MatchOption result (self.now.plan.moves ≤ self.now.plan.played)
            (λ e. (self.now.plan.played < self.now.plan.moves) × (e ≡ entry_place self.now.plan.cells self.now.plan.tables self.now.plan.played)) }
    {
        let Plan {
            tables,
            moves,
            cells,
            played,
            ..
        } = self.plan;
        (played < moves).then(|| HEADER + tables * (cells + RECORD) + ENTRY * played)
    }
}

impl Record {
    // The word that stands so many words after the record's cells.
    fn word(&self, state: &[u32], i: usize) -> u32
        requires { i ≤ 8 }
        ensures { result ≡ slice_index state.now (self.now.at + self.now.server.plan.cells + i) }
    {
        word_at(state, self.at + self.server.plan.cells + i)
    }

    // What is kept of the table.
    fn seat(&self, state: &[u32]) -> Seat
        ensures { result ≡ seat_with state.now self.now.server.plan self.now.at }
    {
        Seat {
            at: self.at,
            cells: self.server.plan.cells,
            players: self.server.plan.players,
            end: self.word(state, END),
            played: self.word(state, COUNT),
        }
    }

    // Makes a new table of this record; says its number.
    fn add_table(&self, rules: &[u32], state: &mut [u32], ticks: u32) -> u32
        requires room { state_words self.now.server.plan.cells self.now.server.plan.tables self.now.server.plan.moves ≤ length state.old }
        requires next { self.now.at ≡ record_place self.now.server.plan.cells self.now.server.plan.seated }
        ensures after { state.new ≡ sat_in (game_at rules.now) state.old self.now.server.plan ticks }
        ensures says { result ≡ self.now.server.plan.seated }
    {
        let Plan {
            cells,
            players,
            seated,
            ..
        } = self.server.plan;
        let row = &mut state[self.at..self.at + cells + RECORD];
        put_record(rules, row, cells, players, ticks, self.at);
        state[SEATED] = seated as u32 + 1;
        seated as u32
    }

    // A move at the table, with its entry at place `entry`. The word that was to name the table's next entry now does.
    fn add_move(&self, rules: &[u32], state: &mut [u32], entry: usize, played: Move)
        requires room { state_words self.now.server.plan.cells self.now.server.plan.tables self.now.server.plan.moves ≤ length state.old }
        requires placed { entry ≡ entry_place self.now.server.plan.cells self.now.server.plan.tables self.now.server.plan.played }
        requires free { self.now.server.plan.played < self.now.server.plan.moves }
        ensures { state.new ≡ played_from (game_at rules.now) state.old self.now.server.plan self.now.at played }
    {
        let plan = self.server.plan;
        let link = self.word(state, LINK) as usize;
        let row = &mut state[self.at..self.at + plan.cells + RECORD];
        advance(rules, row, plan.cells, played, (entry + 3) as u32);
        put(state, link, plan.played as u32);
        put_entry(state, entry, played);
        state[PLAYED] = plan.played as u32 + 1;
    }
}

// A new table. Refused by 3 at 2 where memory is not a server's, and by 8 where there are as many tables as there may be.
pub fn sit(rules: &[u32], state: &mut [u32], ticks: u32) -> Result<u32, Refusal>
    ensures after { state.new ≡ (sat (game_at rules.now) state.old ticks).0 }
    ensures says { result ≡ (sat (game_at rules.now) state.old ticks).1 }
{
    let server = Server::read(state).ok_or(Reason::NoMemory)?;
    let record = server.free_record().ok_or(Reason::Full)?;
    Ok(record.add_table(rules, state, ticks))
}

// A move at a table, with the refusals from the top down: 3 at 2 where memory is not a server's, 4 no such table, 5 the table is over,
// 6 not this player's turn, 7 the move is not legal, 8 as many moves were played as may be.
pub fn play(
    rules: &[u32],
    state: &mut [u32],
    table: u32,
    player: u32,
    played: Move,
) -> Result<u32, Refusal>
    ensures after { state.new ≡ (played-on (game_at rules.now) state.old table player played).0 }
    ensures says { result ≡ (played-on (game_at rules.now) state.old table player played).1 }
{
    let server = Server::read(state).ok_or(Reason::NoMemory)?;
    let record = server.found_record(table).ok_or(Reason::NoTable)?;
    if record.word(state, END) != 0 {
        return Err(Reason::TableOver.into());
    }
    let cells = &state[record.at..record.at + server.plan.cells];
    if player != turn(rules, cells) {
        return Err(Reason::NotTheirTurn.into());
    }
    if !is_legal(rules, cells, played) {
        return Err(Reason::NotLegal.into());
    }
    let entry = server.free_entry().ok_or(Reason::Full)?;
    let count = record.word(state, COUNT);
    record.add_move(rules, state, entry, played);
    Ok(count.saturating_add(1))
}

// The seat of a table. Refused by 3 at 2 where memory is not a server's, and by 4 where there is no such table.
pub fn find_table(state: &[u32], table: u32) -> Result<Seat, Refusal>
    ensures { result ≡ seat_of state.now table }
{
    let server = Server::read(state).ok_or(Reason::NoMemory)?;
    let record = server.found_record(table).ok_or(Reason::NoTable)?;
    Ok(record.seat(state))
}

// After sitting down, the state means what the meaning of the call says, and so is the answer.
pub fn sitting_is_right() -> u8
    ensures { SittingIsRight }
{
    0
}

// After a move, the state means what the meaning of the call says, and so is the answer.
pub fn playing_is_right() -> u8
    ensures { PlayingIsRight }
{
    0
}

// What a seat says of its table is what the table is.
pub fn seats_are_right() -> u8
    ensures { SeatsAreRight }
{
    0
}
