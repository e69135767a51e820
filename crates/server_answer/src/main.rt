// answer [--tables N] [--moves N] [--positions N] GAME [CALLS]
#![tactic(auto)]

use std::env;
use std::process::ExitCode;

// Each program names the console that it calls: taking that as a parameter would be no plainer.
fn run(rt: &HostRuntime) -> anyhow::Result<()> {
    let words: Vec<String> = env::args(rt)?.skip(1).collect(rt.alloc())?;
    server_console::answer(rt, words.as_slice())
}

// What goes wrong is told where it happens, so that an error only makes status 1.
fn main(rt: HostRuntime) -> ExitCode {
    run(&rt).map_or(ExitCode::FAILURE, |()| ExitCode::SUCCESS)
}
