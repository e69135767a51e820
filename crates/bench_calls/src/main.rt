// bench_calls [TIMES]: servers with 1 and with 1,024 tables; moves are played at their tables in turn, and then the tables are looked at.
// With TIMES it does so as often, and says how long 100,000 calls took at best: the first of a million plays, the last of them, and the looks.
#![tactic(auto)]

mod calls;

use calls::{new_server, play_all, see_all, sit_all};
use std::env;
use std::time::Instant;

// How many calls are measured together, and how many in the short run.
const MANY: u32 = 100000;

const FEW: u32 = 2048;

// How many calls were answered, and how many nanoseconds were needed for the first plays, the last plays and the looks.
#[derive(Clone, Copy)]
struct Found {
    answered: u32,
    first: u128,
    last: u128,
    looks: u128,
}

fn measure(rt: &HostRuntime, tables: u32, lot: u32) -> anyhow::Result<Found> {
    let mut server = new_server(rt.alloc(), tables, lot.saturating_mul(10))?;
    let seated = sit_all(&mut server, tables);
    let start = Instant::now(rt)?;
    let played = play_all(&mut server, tables, 0, lot);
    let first = start.elapsed(rt)?.as_nanos();
    let more = play_all(&mut server, tables, lot, lot.saturating_mul(9));
    let start = Instant::now(rt)?;
    let rest = play_all(
        &mut server,
        tables,
        lot.saturating_mul(9),
        lot.saturating_mul(10),
    );
    let last = start.elapsed(rt)?.as_nanos();
    let start = Instant::now(rt)?;
    let seen = see_all(&mut server, tables, lot);
    let looks = start.elapsed(rt)?.as_nanos();
    let answered = seated
        .saturating_add(played)
        .saturating_add(more)
        .saturating_add(rest)
        .saturating_add(seen);
    Ok(Found {
        answered,
        first,
        last,
        looks,
    })
}

fn best_of(rt: &HostRuntime, tables: u32, times: u32) -> anyhow::Result<()> {
    let mut first = u128::MAX;
    let mut last = u128::MAX;
    let mut looks = u128::MAX;
    for _ in 0..times {
        let found = measure(rt, tables, MANY)?;
        first = first.min(found.first);
        last = last.min(found.last);
        looks = looks.min(found.looks);
    }
    println!(rt; "first plays at {tables}: best {first} ns")?;
    println!(rt; "last plays at {tables}: best {last} ns")?;
    println!(rt; "looks at {tables}: best {looks} ns")?;
    Ok(())
}

fn main(rt: HostRuntime) -> anyhow::Result<()> {
    if let Some(word) = env::args(&rt)?.nth(1) {
        let times = word.as_str().parse::<u32>()?;
        best_of(&rt, 1, times)?;
        return best_of(&rt, 1024, times);
    }
    for tables in [1, 1024] {
        let found = measure(&rt, tables, FEW)?;
        let answered = found.answered;
        println!(rt; "tables {tables}: {answered} calls answered")?;
    }
    Ok(())
}
