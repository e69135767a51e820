// What stands in a table's record and in a move's entry, and how it is written.
ghost use Rattle.std.specs.Prelude.{◌≡◌, ◌+◌, ◌-◌, ◌≤◌, ◌++◌, length, replicate};
ghost use Rattle.rows.specs.Layout.{game_at};
ghost use Rattle.tables.specs.Changes.{start_cells, new_record, advanced, with_entry};

use crate::plan::RECORD;
use play::{apply, is_over};
use rows::start_cell;
use rules::Move;

// The words of a record, counted from the end of its cells.
const CLOCKED: usize = 4;

pub(crate) const END: usize = 5;

pub(crate) const COUNT: usize = 6;

const FIRST: usize = 7;

pub(crate) const LINK: usize = 8;

// The cells of a new table. Here and below a record's row and the count of its cells go along: beside the `&mut` of a struct no ghost field could say that it is long enough.
fn put_start(rules: &[u32], cells: &mut [u32])
    requires { length cells.old ≤ 256 }
    ensures { cells.new ≡ start_cells (game_at rules.now) (length cells.old) }
{
    for (i, cell) in cells.iter_mut().enumerate() {
        *cell = start_cell(rules, i as u32);
    }
}

// The clocks of a new table: of those who play, and 0 for the others.
fn put_clocks(clocks: &mut [u32], players: usize, ticks: u32)
    requires four { length clocks.old ≡ 4 }
    requires few { players ≤ 4 }
    ensures { clocks.new ≡ replicate players ticks ++ replicate (4 - players) 0 }
{
    clocks[0..players].fill(ticks);
    clocks[players..4].fill(0);
}

// The record of a new table, at place `at` of the state.
pub(crate) fn put_record(
    rules: &[u32],
    row: &mut [u32],
    cells: usize,
    players: usize,
    ticks: u32,
    at: usize,
)
    requires long { length row.old ≡ cells + 9 }
    requires few { cells ≤ 256 }
    requires four { players ≤ 4 }
    requires low { at ≤ 4294960000 }
    ensures { row.new ≡ new_record (game_at rules.now) cells players ticks at }
{
    put_start(rules, &mut row[0..cells]);
    let over = is_over(rules, &row[0..cells]);
    put_clocks(&mut row[cells..cells + CLOCKED], players, ticks);
    let rest = [
        u32::from(ticks != 0),
        u32::from(over),
        0,
        0,
        (at + cells + FIRST) as u32,
    ];
    row[cells + CLOCKED..cells + RECORD].copy_from_slice(&rest);
}

// A move happens in a table's record; the entry of the move has its last word at place `last`. Whether the game is over is worked out here.
pub(crate) fn advance(rules: &[u32], row: &mut [u32], cells: usize, played: Move, last: u32)
    requires long { length row.old ≡ cells + 9 }
    requires few { cells ≤ 256 }
    ensures { row.new ≡ advanced (game_at rules.now) cells row.old played last }
{
    let count = row[cells + COUNT].saturating_add(1);
    apply(rules, &mut row[0..cells], played);
    let over = is_over(rules, &row[0..cells]);
    row[cells + END] = u32::from(over);
    row[cells + COUNT] = count;
    row[cells + LINK] = last;
}

// The words of an entry, but for the last.
pub(crate) fn put_entry(state: &mut [u32], entry: usize, played: Move)
    requires { entry + 3 ≤ length state.old }
    ensures { state.new ≡ with_entry state.old entry played }
{
    state[entry] = played.rule;
    state[entry + 1] = played.first;
    state[entry + 2] = played.second;
}
