// transcripts WORD WORD WORD WORD ..: runs `answer` on each two words: a game and its calls, or `--print` and a game.
#![tactic(auto)]

use std::env;
use std::process::ExitCode;

// Each program names the console that it calls: taking that as a parameter would be no plainer.
fn run(rt: &HostRuntime) -> anyhow::Result<()> {
    let words: Vec<String> = env::args(rt)?.skip(1).collect(rt.alloc())?;
    for pair in words.as_slice().chunks(2) {
        if let [one, other] = pair {
            println!(rt; "# {one} {other}")?;
        }
        server_console::answer(rt, pair)?;
    }
    Ok(())
}

// What goes wrong is told where it happens, so that an error only makes status 1.
fn main(rt: HostRuntime) -> ExitCode {
    run(&rt).map_or(ExitCode::FAILURE, |()| ExitCode::SUCCESS)
}
