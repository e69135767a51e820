// Games in files: read as text or as bytes, checked, printed, and a sentence for what is wrong with them.
// What is refused is said twice: the refusal on standard output, and on standard error a sentence for people.
ghost use Rattle.std.specs.Prelude.{◌≡◌, IfOk};
ghost use Rattle.server_console.specs.Files.{in_bytes, small_enough, Served};

use anyhow::anyhow;
use game_text::{Fault, line_and_column, read_game};
use printing::print_game;
use rules::{Reason, Refusal};
use std::io::{BufWriter, Write};
use std::{fmt, fs};
use wire::{Excess, GameSize, check_game, first_excess};

// A file whose first byte is below this is a game in byte form: such a byte begins no text.
const FIRST_OF_TEXT: u8 = 9;

// The largest game that is served unless a larger one is asked for.
const FEW_CELLS: u32 = 16;

const FEW_MOVES: u32 = 256;

// Whether a file is a game in byte form.
fn is_in_bytes(file: &[u8]) -> bool
    ensures { result ≡ in_bytes file.now }
{
    file.first().is_some_and(|&b| b < FIRST_OF_TEXT)
}

// One sentence on standard error, and an error for `main` to end with.
pub(crate) fn fail<D: fmt::Display + Drop>(rt: &HostRuntime, sentence: D) -> anyhow::Error {
    match eprintln!(rt; "{sentence}") {
        Ok(()) => anyhow!("{sentence}"),
        Err(e) => e.into(),
    }
}

// A refusal at opening, and a sentence.
pub(crate) fn refuse<D: fmt::Display + Drop>(
    rt: &HostRuntime,
    refusal: Refusal,
    sentence: D,
) -> anyhow::Error {
    match println!(rt; "{refusal}") {
        Ok(()) => fail(rt, sentence),
        Err(e) => e.into(),
    }
}

fn read_file(rt: &HostRuntime, path: &str) -> anyhow::Result<Vec<u8>> {
    fs::read(rt, path).map_err(|e| {
        fail(
            rt,
            format_args!("the game file '{path}' can't be read: {e}"),
        )
    })
}

// Where a text can't be read on, by line and column from 1.
fn unreadable(rt: &HostRuntime, path: &str, text: &[u8], fault: Fault) -> anyhow::Error {
    let (line, column) = line_and_column(text, fault.place);
    let wanted = fault.expected;
    refuse(
        rt,
        Reason::NoGame.into(),
        format_args!("{path}, line {line}, column {column}: {wanted} is expected here"),
    )
}

// The bytes of a file, if they have the form of a game.
fn in_form(rt: &HostRuntime, path: &str, file: Vec<u8>) -> anyhow::Result<Vec<u8>> {
    match check_game(file.as_slice()) {
        Err(refusal) if refusal == Reason::NoGame.into() => Err(refuse(
            rt,
            refusal,
            format_args!("{path}: this is no game in byte form"),
        )),
        _ => Ok(file),
    }
}

// The bytes of the game in a file. A text's bytes are at most twice as many as its own.
fn load(rt: &HostRuntime, path: &str) -> anyhow::Result<Vec<u8>> {
    let file = read_file(rt, path)?;
    if is_in_bytes(file.as_slice()) {
        return in_form(rt, path, file);
    }
    let mut game: Vec<u8> = vec![in rt.alloc(); 0; file.as_slice().len().saturating_mul(2)]?;
    let size = read_game(file.as_slice(), game.as_mut_slice()).map_err(|fault| unreadable(
        rt,
        path,
        file.as_slice(),
        fault,
    ))?;
    game.truncate(size);
    Ok(game)
}

// Whether a good game of this size is served.
fn is_served(size: GameSize, large: bool) -> bool
    ensures { result ≡ small_enough large size }
{
    large || (size.cells <= FEW_CELLS && size.moves <= FEW_MOVES)
}

// Why a good game is not served: the limit, and both numbers.
fn too_large(rt: &HostRuntime, path: &str, size: GameSize) -> anyhow::Error {
    let GameSize { cells, moves, .. } = size;
    if cells > FEW_CELLS {
        return refuse(
            rt,
            Reason::NotGood.into(),
            format_args!(
                "{path}: the game has {cells} cells, and at most {FEW_CELLS} are served without --large"
            ),
        );
    }
    refuse(
        rt,
        Reason::NotGood.into(),
        format_args!(
            "{path}: the game has {moves} possible moves, and at most {FEW_MOVES} are served without --large"
        ),
    )
}

// The bytes of the game in a file, if it is served: a good game, and a small one unless large ones are asked for.
pub(crate) fn open_game(rt: &HostRuntime, path: &str, large: bool) -> anyhow::Result<Vec<u8>>
    ensures { IfOk result (λ game. Served large game.items) }
{
    let game = load(rt, path)?;
    match check_game(game.as_slice()) {
        Ok(size) if is_served(size, large) => Ok(game),
        Ok(size) => Err(too_large(rt, path, size)),
        Err(refusal) => {
            // which limit, what there is of it, and the most that is served
            let excess = first_excess(game.as_slice()).unwrap_or(Excess::Deep);
            Err(refuse(rt, refusal, format_args!("{path}: {excess}")))
        }
    }
}

// Bytes on standard output.
fn write_out(rt: &HostRuntime, bytes: &[u8]) -> anyhow::Result<()> {
    let mut out = BufWriter::new(rt.alloc(), rt.stdout())?;
    out.write_all(bytes)?;
    out.flush()?;
    Ok(())
}

// A game in byte form.
pub(crate) fn write_game(rt: &HostRuntime, path: &str) -> anyhow::Result<()> {
    let game = load(rt, path)?;
    write_out(rt, game.as_slice())
}

// A game in plain text. It has at most ten times as many letters as bytes.
pub(crate) fn show_game(rt: &HostRuntime, path: &str) -> anyhow::Result<()> {
    let game = load(rt, path)?;
    let mut text: Vec<u8> = vec![in rt.alloc(); 0; game.as_slice().len().saturating_mul(10)]?;
    let size = print_game(game.as_slice(), text.as_mut_slice()).ok_or_else(|| {
        refuse(
            rt,
            Reason::NoGame.into(),
            format_args!("{path}: this is no game in byte form"),
        )
    })?;
    text.truncate(size);
    write_out(rt, text.as_slice())
}
