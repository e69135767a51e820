// A server in memory of its own, and many calls to it.
use anyhow::anyhow;
use rules::Limits;
use session::{call, needs, open};
use std::alloc::Global;

// Two players move in turn and never stop: players 2, cells 0 0, rule 1 1, may 1, set 0 - 1 cell 0, over 0, gain 0
const GAME: &[u8] = b"\x02\x02\x00\x00\x00\x00\x00\x01\
    \x01\x00\x01\x00\x00\x01\x00\x01\x00\x00\x00\x06\x00\x01\x00\x01\x00\x00\x00\
    \x00\x00\x00\x00\x00\x00";

// Kinds of calls, and of the answers to those that are not refused. By bytes: what is measured is the server alone, and calls that `write_call` makes beforehand would need memory for all of them.
const PLAY: u8 = 1;

const SEE: u8 = 3;

const NUMBER: u8 = 1;

const SHOWN: u8 = 2;

#[derive(Drop)]
pub(crate) struct Server {
    rules: Vec<u32>,
    state: Vec<u32>,
    scratch: Vec<u32>,
    answer: Vec<u8>,
}

// A server with memory as `needs` says.
pub(crate) fn new_server(heap: Global, tables: u32, moves: u32) -> anyhow::Result<Server> {
    let limits = Limits {
        tables,
        moves,
        positions: 0,
    };
    let sizes = needs(limits, GAME).map_err(|_| anyhow!("the game is not good"))?;
    let mut server = Server {
        rules: vec![in heap; 0; sizes.rules]?,
        state: vec![in heap; 0; sizes.state]?,
        scratch: vec![in heap; 0; sizes.scratch]?,
        answer: vec![in heap; 0; sizes.answer]?,
    };
    open(
        limits,
        GAME,
        &mut server.rules,
        &mut server.state,
        &server.scratch,
        &server.answer,
    )
    .map_err(|_| anyhow!("no server was opened"))?;
    Ok(server)
}

// Whether a call is answered by an answer of this kind.
fn is_answered(server: &mut Server, asked: &[u8], kind: u8) -> bool {
    let size = call(
        &server.rules,
        &mut server.state,
        &mut server.scratch,
        asked,
        &mut server.answer,
    );
    size > 0 && server.answer.first() == Some(&kind)
}

// So many new tables, and how many were made.
pub(crate) fn sit_all(server: &mut Server, tables: u32) -> u32 {
    let mut answered = 0u32;
    for _ in 0..tables {
        if is_answered(server, &[0u8; 5], NUMBER) {
            answered = answered.saturating_add(1);
        }
    }
    answered
}

// The only move there is, by one of the two players.
fn play_call(table: u32, player: u8) -> [u8; 21] {
    let t = table.to_le_bytes();
    [
        PLAY, t[0], t[1], t[2], t[3], player, 0, 0, 0, 0, 0, 0, 0, 0, 0, 0, 0, 0, 0, 0, 0,
    ]
}

// Moves from one number to another, at one table after the other; how many were made.
pub(crate) fn play_all(server: &mut Server, tables: u32, from: u32, to: u32) -> u32 {
    let mut answered = 0u32;
    for i in from..to {
        let turns = i.checked_div(tables).unwrap_or(0);
        let table = i.saturating_sub(turns.saturating_mul(tables));
        if is_answered(server, &play_call(table, (turns % 2) as u8), NUMBER) {
            answered = answered.saturating_add(1);
        }
    }
    answered
}

// Looks at one table after the other, and how many were shown.
pub(crate) fn see_all(server: &mut Server, tables: u32, looks: u32) -> u32 {
    let mut answered = 0u32;
    for i in 0..looks {
        let table = i.checked_rem(tables).unwrap_or(0);
        let t = table.to_le_bytes();
        if is_answered(server, &[SEE, t[0], t[1], t[2], t[3]], SHOWN) {
            answered = answered.saturating_add(1);
        }
    }
    answered
}
