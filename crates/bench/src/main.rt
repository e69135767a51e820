// bench [TIMES]: loads noughts and crosses, and works out for every board whether somebody has three in a row, by the game's own expression.
// With TIMES it does so as often and says how long the best took.
#![tactic(auto)]

use anyhow::anyhow;
use eval::eval;
use std::time::Instant;
use std::{env, fs};

const BOARDS: u32 = 19683;

// A won board, and one that is full with no row of three.
const WON: [u32; 10] = [1, 1, 1, 1, 2, 2, 0, 0, 0, 0];

const DRAWN: [u32; 10] = [1, 1, 2, 1, 1, 2, 2, 2, 1, 1];

// As in `server_bench`, which prints other lines: public in a crate for both, these would want contracts that say what each board is, for functions that only measure.
// The board after this one: cells 1 to 9 count up in threes.
fn next_board(cells: &mut [u32]) {
    for x in cells.iter_mut().skip(1) {
        if *x < 2 {
            *x = x.saturating_add(1);
            return;
        }
        *x = 0;
    }
}

// Goes through all boards, from the empty one to the empty one.
fn rows_of_three(rules: &[u32], over: u32, cells: &mut [u32]) -> u32 {
    let mut count = 0u32;
    for _ in 0..BOARDS {
        if eval(rules, over, cells, 0, 0, 0) != 0 {
            count = count.saturating_add(1);
        }
        next_board(cells);
    }
    count
}

fn times(rt: &HostRuntime) -> anyhow::Result<u32> {
    match env::args(rt)?.nth(1) {
        Some(word) => Ok(word.as_str().parse::<u32>()?),
        None => Ok(0),
    }
}

fn show_gains(rt: &HostRuntime, rules: &[u32], gain: u32, cells: &[u32]) -> anyhow::Result<()> {
    let one = eval(rules, gain, cells, 0, 0, 0);
    let other = eval(rules, gain, cells, 0, 0, 1);
    println!(rt; "gains {one} and {other}")?;
    Ok(())
}

fn best_of(rt: &HostRuntime, rules: &[u32], over: u32, cells: &mut [u32]) -> anyhow::Result<()> {
    let turns = times(rt)?;
    let mut best = u128::MAX;
    for _ in 0..turns {
        let start = Instant::now(rt)?;
        rows_of_three(rules, over, cells);
        best = best.min(start.elapsed(rt)?.as_nanos());
    }
    if turns > 0 {
        println!(rt; "best {best} ns")?;
    }
    Ok(())
}

fn main(rt: HostRuntime) -> anyhow::Result<()> {
    let bytes = fs::read(&rt, "noughts.bytes")?;
    let mut rules: Vec<u32> = vec![in rt.alloc(); 0; 8192]?;
    if rows::load(bytes.as_slice(), &mut rules).is_err() {
        return Err(anyhow!("noughts.bytes is no good game"));
    }
    let game = rows::read_game(&rules);
    let mut cells: Vec<u32> = vec![in rt.alloc(); 0; 10]?;
    let count = rows_of_three(&rules, game.terminal, &mut cells);
    println!(rt; "{count} of {BOARDS} boards have a row of three")?;
    show_gains(&rt, &rules, game.payoff, &WON)?;
    show_gains(&rt, &rules, game.payoff, &DRAWN)?;
    best_of(&rt, &rules, game.terminal, &mut cells)
}
