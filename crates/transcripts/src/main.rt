// transcripts GAME CALLS GAME CALLS ..: answers each calls file for the game before it.
#![tactic(auto)]

use std::env;
use std::process::ExitCode;

// Each program names the console that it calls: taking that as a parameter would be no plainer.
fn run(rt: &HostRuntime) -> anyhow::Result<()> {
    let files: Vec<String> = env::args(rt)?.skip(1).collect(rt.alloc())?;
    for pair in files.as_slice().chunks(2) {
        if let [game, calls] = pair {
            println!(rt; "# {game} {calls}")?;
        }
        console::answer(rt, pair)?;
    }
    Ok(())
}

// What goes wrong is told where it happens, so that an error only makes status 1.
fn main(rt: HostRuntime) -> ExitCode {
    run(&rt).map_or(ExitCode::FAILURE, |()| ExitCode::SUCCESS)
}
