// Files and standard streams: a game and its calls in, a line for each call out, and a sentence for what goes wrong.
#![tactic(auto)]

ghost use Rattle.std.specs.Prelude.{◌≡◌, ◌<◌, true, false, map, is_err, string_bytes};
ghost use Rattle.commands.specs.Options.{request_of};
ghost use Rattle.console.specs.Ends.{refused_words};

use anyhow::anyhow;
use commands::{Fault, Line, Request, first_too_many, read_request, reply_to, word_at};
use rules::{Reason, Refusal};
use std::fs::File;
use std::io::{BufRead, BufReader, BufWriter, Write};
use std::{fmt, fs, io};

const HELP: &str = "answer [--tables N] [--moves N] [--positions N] GAME [CALLS]

Opens a server for the game in the file GAME and answers the calls in the file
CALLS, or on standard input: one call a line in, one answer a line out.

  --tables N     how many tables there may be, at most 1024 (16 unless given)
  --moves N      how many moves may be played at all tables together,
                 at most 1000000 (1000 unless given)
  --positions N  how many positions a search may look through,
                 at most 8192 (256 unless given)
  --help         this text

Calls:
  sit N                               a new table, N ticks for each player,
                                      or no clocks for 0
  play TABLE PLAYER RULE FIRST SECOND
                                      the player makes a move
  ticks N                             N ticks have gone by
  see TABLE                           the position at a table
  may TABLE                           the moves that may be made
  back TABLE N                        the position after the first N moves
  can force TABLE PLAYER GAIN D       whether the player can force the gain
                                      within D moves, D up to 64
  bytes HH HH ..                      the call that these bytes are, in
                                      hexadecimal: any bytes may be said

Blank lines, and lines that begin with #, are passed over. A line that is no
call is answered 'refused 1 at N': the first N bytes of it were right, or the
first N of the bytes that it says.
This version reads calls and does none of them yet: each is refused by 2.";

fn show(out: &mut BufWriter<io::Stdout>, reply: Line<Refusal>) -> io::Result<()> {
    match reply {
        Line::Nothing => Ok(()),
        Line::NoCall(place) => writeln!(out, "refused 1 at {place}"),
        Line::Call(refusal) => writeln!(out, "{refusal}"),
    }
}

// Also in `server_console`, but for what a line does: shared, it would be a public function that promises nothing, since no contract speaks of streams.
// Memory does not grow with the number of lines. What is answered is written before more input is waited for.
fn answer_lines<R: io::Read + Drop>(rt: &HostRuntime, input: R) -> io::Result<()> {
    let mut reader = BufReader::new(rt.alloc(), input)?;
    let mut out = BufWriter::new(rt.alloc(), rt.stdout())?;
    let mut line: Vec<u8> = Vec::new(rt.alloc());
    for _ in 0..u64::MAX {
        if reader.buffer().len() == 0 {
            out.flush()?;
        }
        line.clear();
        if reader.read_until(b'\n', &mut line)? == 0 {
            break;
        }
        show(&mut out, reply_to(line.as_slice()))?;
    }
    out.flush()
}

// One sentence on standard error, and an error for `main` to end with.
fn fail<D: fmt::Display + Drop>(rt: &HostRuntime, sentence: D) -> anyhow::Error {
    match eprintln!(rt; "answer: {sentence}") {
        Ok(()) => anyhow!("{sentence}"),
        Err(e) => e.into(),
    }
}

// A refusal at opening, and a sentence.
fn refuse<D: fmt::Display + Drop>(
    rt: &HostRuntime,
    refusal: Refusal,
    sentence: D,
) -> anyhow::Error {
    match println!(rt; "{refusal}") {
        Ok(()) => fail(rt, sentence),
        Err(e) => e.into(),
    }
}

// The game file must be there. It is not understood yet.
fn open_game(rt: &HostRuntime, game: &str) -> anyhow::Result<()> {
    fs::read(rt, game).map_err(|e| {
        fail(
            rt,
            format_args!("the game file '{game}' can't be read: {e}"),
        )
    })?;
    Ok(())
}

fn answer_file(rt: &HostRuntime, calls: &str) -> anyhow::Result<()> {
    let file = File::open(rt, calls).map_err(|e| {
        fail(
            rt,
            format_args!("the calls file '{calls}' can't be read: {e}"),
        )
    })?;
    answer_input(rt, file)
}

fn answer_input<R: io::Read + Drop>(rt: &HostRuntime, input: R) -> anyhow::Result<()> {
    answer_lines(rt, input).map_err(|e| {
        fail(
            rt,
            format_args!("calls can't be read, or answers written: {e}"),
        )
    })
}

// What is wrong with the words of the command line.
fn complain(rt: &HostRuntime, words: &[String], fault: Fault) -> anyhow::Error {
    match fault {
        Fault::UnknownOption(i) => {
            let word = word_at(words, i);
            fail(
                rt,
                format_args!("there is no option '{word}'; see answer --help"),
            )
        }
        Fault::BadNumber(i) => {
            let word = word_at(words, i);
            fail(rt, format_args!("'{word}' is no number up to 4294967295"))
        }
        Fault::ExtraFile(i) => {
            let word = word_at(words, i);
            fail(
                rt,
                format_args!(
                    "a game file and a calls file are all it takes, and '{word}' is one more"
                ),
            )
        }
        Fault::MissingNumber => fail(rt, "the last option lacks its number"),
        Fault::MissingGame => fail(rt, "no game file is named; see answer --help"),
    }
}

// Does what the words of the command line ask for. Words that are refused end in an error, of which `main` makes status 1.
pub fn answer(rt: &HostRuntime, words: &[String]) -> anyhow::Result<()>
    ensures { refused_words (request_of (map string_bytes words.now)) ≡ true → is_err result ≡ true }
{
    match read_request(words) {
        Err(fault) => Err(complain(rt, words, fault)),
        Ok(Request::Help) => {
            rt.println(HELP)?;
            Ok(())
        }
        Ok(
            Request::Run {
                limits,
                game,
                calls,
            },
        ) => {
            if let Some(excess) = first_too_many(limits) {
                return Err(refuse(rt, Reason::NotGood.into(), excess));
            }
            open_game(rt, word_at(words, game))?;
            match calls {
                Some(i) => answer_file(rt, word_at(words, i)),
                None => answer_input(rt, rt.stdin()),
            }
        }
    }
}
