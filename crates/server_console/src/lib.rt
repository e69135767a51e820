// Files and standard streams: a game and its calls in, a line for each call out, and a sentence for what goes wrong.
#![tactic(auto)]

ghost use Rattle.std.specs.Prelude.{◌≡◌, ◌<◌, true, false, map, is_err, string_bytes};
ghost use Rattle.server_commands.specs.Options.{request_of};
ghost use Rattle.server_console.specs.Ends.{refused_words};

mod games;

use commands::{Fault, first_too_many, word_at};
use games::{fail, open_game, refuse, show_game, write_game};
use printing::print_answer;
use rules::{Limits, Reason};
use server_commands::{Line, Request, read_line, read_request};
use session::{call, needs, open};
use std::fs::File;
use std::io;
use std::io::{BufRead, BufReader, BufWriter, Write};

const HELP: &str = "answer [--tables N] [--moves N] [--positions N] [--large] GAME [CALLS]
answer --print GAME
answer --bytes GAME

Opens a server for the game in the file GAME and answers the calls in the file
CALLS, or on standard input: one call a line in, one answer a line out.

  --tables N     how many tables there may be, at most 1024 (16 unless given)
  --moves N      how many moves may be played at all tables together,
                 at most 1000000 (1000 unless given)
  --positions N  how many positions a search may look through,
                 at most 8192 (256 unless given)
  --large        serve games of more than 16 cells or 256 possible moves too
  --print        print the game in plain text
  --bytes        write the game in byte form
  --help         this text

Calls:
  sit N                               a new table, N ticks for each player,
                                      or no clocks for 0
  play TABLE PLAYER RULE FIRST SECOND
                                      the player makes a move
  see TABLE                           the position at a table
  may TABLE                           the moves that may be made
  bytes HH HH ..                      the call that these bytes are, in
                                      hexadecimal: any bytes may be said

Blank lines, and lines that begin with #, are passed over. A line that is no
call is answered 'refused 1 at N': the first N bytes of it were right, or the
first N of the bytes that it says.
This version refuses by 2: ticks N, back TABLE N, can force TABLE PLAYER GAIN D.";

// A server and its memory. `line` has room for the longest answer as text.
#[derive(Drop)]
struct Server {
    rules: Vec<u32>,
    state: Vec<u32>,
    scratch: Vec<u32>,
    answer: Vec<u8>,
    line: Vec<u8>,
}

// A server for a game, in memory of just the sizes that it asks for. An answer's text has at most three letters for each byte, and 5 more.
fn open_server(rt: &HostRuntime, limits: Limits, game: &[u8]) -> anyhow::Result<Server> {
    let heap = rt.alloc();
    let not_taken = |refusal| refuse(rt, refusal, "no server takes this game");
    let sizes = needs(limits, game).map_err(not_taken)?;
    let mut server = Server {
        rules: vec![in heap; 0; sizes.rules]?,
        state: vec![in heap; 0; sizes.state]?,
        scratch: vec![in heap; 0; sizes.scratch]?,
        answer: vec![in heap; 0; sizes.answer]?,
        line: vec![in heap; 0; sizes.answer.saturating_mul(3).saturating_add(5)]?,
    };
    open(
        limits,
        game,
        server.rules.as_mut_slice(),
        server.state.as_mut_slice(),
        server.scratch.as_slice(),
        server.answer.as_slice(),
    )
    .map_err(not_taken)?;
    Ok(server)
}

// The answer to a call in bytes, as a line.
fn answer_call(
    server: &mut Server,
    bytes: &[u8],
    out: &mut BufWriter<io::Stdout>,
) -> io::Result<()> {
    let size = call(
        server.rules.as_slice(),
        server.state.as_mut_slice(),
        server.scratch.as_mut_slice(),
        bytes,
        server.answer.as_mut_slice(),
    );
    let answer = server.answer.get(..size).unwrap_or(&[]);
    let letters = print_answer(answer, server.line.as_mut_slice()).unwrap_or(0);
    out.write_all(server.line.get(..letters).unwrap_or(&[]))?;
    out.write_all(b"\n")
}

fn answer_line(
    server: &mut Server,
    line: &[u8],
    out: &mut BufWriter<io::Stdout>,
) -> io::Result<()> {
    match read_line(line) {
        Line::Nothing => Ok(()),
        Line::NoCall(place) => writeln!(out, "refused 1 at {place}"),
        Line::Call(asked) => answer_call(server, asked.as_slice(), out),
    }
}

// Also in `console`, but for what a line does: shared, it would be a public function that promises nothing, since no contract speaks of streams.
// Memory does not grow with the number of lines. What is answered is written before more input is waited for.
fn answer_lines<R: io::Read + Drop>(
    rt: &HostRuntime,
    server: &mut Server,
    input: R,
) -> io::Result<()> {
    let mut reader = BufReader::new(rt.alloc(), input)?;
    let mut out = BufWriter::new(rt.alloc(), rt.stdout())?;
    let mut line: Vec<u8> = Vec::new(rt.alloc());
    for _ in 0..u64::MAX {
        if reader.buffer().len() == 0 {
            out.flush()?;
        }
        line.clear();
        if reader.read_until(b'\n', &mut line)? == 0 {
            break;
        }
        answer_line(server, line.as_slice(), &mut out)?;
    }
    out.flush()
}

fn answer_file(rt: &HostRuntime, server: &mut Server, calls: &str) -> anyhow::Result<()> {
    let file = File::open(rt, calls).map_err(|e| {
        fail(
            rt,
            format_args!("the calls file '{calls}' can't be read: {e}"),
        )
    })?;
    answer_input(rt, server, file)
}

fn answer_input<R: io::Read + Drop>(
    rt: &HostRuntime,
    server: &mut Server,
    input: R,
) -> anyhow::Result<()> {
    answer_lines(rt, server, input).map_err(|e| {
        fail(
            rt,
            format_args!("calls can't be read, or answers written: {e}"),
        )
    })
}

// What is wrong with the words of the command line.
fn complain(rt: &HostRuntime, words: &[String], fault: Fault) -> anyhow::Error {
    match fault {
        Fault::UnknownOption(i) => {
            let word = word_at(words, i);
            fail(
                rt,
                format_args!("there is no option '{word}'; see answer --help"),
            )
        }
        Fault::BadNumber(i) => {
            let word = word_at(words, i);
            fail(rt, format_args!("'{word}' is no number up to 4294967295"))
        }
        Fault::ExtraFile(i) => {
            let word = word_at(words, i);
            fail(
                rt,
                format_args!("the file '{word}' is one too many; see answer --help"),
            )
        }
        Fault::MissingNumber => fail(rt, "the last option lacks its number"),
        Fault::MissingGame => fail(rt, "no game file is named; see answer --help"),
    }
}

// Serves the game in a file.
fn serve(
    rt: &HostRuntime,
    words: &[String],
    limits: Limits,
    large: bool,
    game: usize,
    calls: Option<usize>,
) -> anyhow::Result<()> {
    let game = open_game(rt, word_at(words, game), large)?;
    let mut server = open_server(rt, limits, game.as_slice())?;
    match calls {
        Some(i) => answer_file(rt, &mut server, word_at(words, i)),
        None => answer_input(rt, &mut server, rt.stdin()),
    }
}

// Does what the words of the command line ask for. Words that are refused end in an error, of which `main` makes status 1.
pub fn answer(rt: &HostRuntime, words: &[String]) -> anyhow::Result<()>
    ensures { refused_words (request_of (map string_bytes words.now)) ≡ true → is_err result ≡ true }
{
    match read_request(words) {
        Err(fault) => Err(complain(rt, words, fault)),
        Ok(Request::Help) => {
            rt.println(HELP)?;
            Ok(())
        }
        Ok(Request::Print { game }) => show_game(rt, word_at(words, game)),
        Ok(Request::Bytes { game }) => write_game(rt, word_at(words, game)),
        Ok(
            Request::Run {
                limits,
                large,
                game,
                calls,
            },
        ) => {
            if let Some(excess) = first_too_many(limits) {
                return Err(refuse(rt, Reason::NotGood.into(), excess));
            }
            serve(rt, words, limits, large, game, calls)
        }
    }
}
