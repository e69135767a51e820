// Games printed as text, from their bytes.
ghost use Rattle.std.specs.Prelude.{◌≡◌, ℕ, ◌<◌, ◌≤◌, true, List, ◌++◌, length, drop, is_some, slice_index};
ghost use Rattle.rules.specs.Rules.{Expr, Game};
ghost use Rattle.wire.specs.Exprs.{expr_bytes, expr_fits};
ghost use Rattle.wire.specs.Kinds.{kind_letters};
ghost use Rattle.wire.specs.Games.{game_bytes, fits_bytes, parse_game};
ghost use Rattle.printing.specs.Games.{printed, printed_size, printed_into, ExactSize, PrintedIsText, PrintedReadsBack, PrintedFits};
ghost use Rattle.printing.specs.Puts.{Wrote};
ghost use Rattle.printing.specs.Walk.{Headed, OnePut, AllPut, EachPut, exprs_bytes, exprs_fit, exprs_text, exprs_line};
ghost use Rattle.printing.specs.Sorts.{Sort, SortLaws, cells, effects, rules, cells_laws, effects_laws, rules_laws};

use super::writer::Writer;
use rules::{Reason, Refusal};
use wire::{ExprKind, check_game, two_bytes};

// The bytes after the first n.
fn after(bytes: &[u8], n: usize) -> &[u8]
    ensures { result.now ≡ drop n bytes.now }
{
    &bytes[n.min(bytes.len())..]
}

// The number in the first byte, and the bytes after it; of no bytes 0.
fn first_number(bytes: &[u8]) -> (u8, &[u8])
    ensures number { result.0 ≡ slice_index bytes.now 0 }
    ensures rest { result.1.now ≡ drop 1 bytes.now }
{
    match bytes {
        [n, rest @ ..] => (*n, rest),
        [] => (0, bytes),
    }
}

// How a kind of expression is written. Apart from where it is put, so that what is said of the letters is proved of them alone.
fn letters_of(kind: ExprKind) -> &'static [u8]
    ensures { result.now ≡ kind_letters kind }
{
    kind.word()
}

// The expression that bytes begin with, without its parts: how many parts it has, and the bytes from them on.
fn put_head<'g>(writer: &mut Writer<'_>, game: &'g [u8]) -> (usize, &'g [u8])
    ensures text { (e : Expr) (rest : List ℕ) → game.now ≡ expr_bytes e ++ rest → expr_fits e ≡ true → Headed writer.old writer.new e result.0 result.1.now rest }
    ensures shorter { 0 < length game.now → length result.1.now < length game.now }
    ensures few { result.0 ≤ 3 }
{
    let (byte, rest) = first_number(game);
    let Ok(kind) = ExprKind::try_from(byte) else {
        return (0, rest);
    };
    match kind {
        ExprKind::Num => {
            writer.number(u32::from(two_bytes(rest, 0)));
            (0, after(rest, 2))
        }
        _ => {
            writer.word(b" ");
            writer.word(letters_of(kind));
            (kind.arity(), rest)
        }
    }
}

// So many expressions, by the count of those still to come: however deep they are nested, nothing is kept of them.
// An expression has a byte at least, so where more are to come than there are bytes, these are no game.
fn put_exprs<'g>(writer: &mut Writer<'_>, game: &'g [u8], count: usize) -> &'g [u8]
    ensures { AllPut exprs_bytes exprs_fit exprs_text count game.now writer.old writer.new result.now }
{
    let mut rest = game;
    let mut pending = count;
    while pending > 0 && pending <= rest.len() {
        let (parts, next) = put_head(writer, rest);
        rest = next;
        pending = pending - 1 + parts;
    }
    rest
}

// A line that begins with a word and has so many expressions.
fn put_line<'g>(writer: &mut Writer<'_>, word: &[u8], game: &'g [u8], count: usize) -> &'g [u8]
    ensures { AllPut exprs_bytes exprs_fit (exprs_line word.now) count game.now writer.old writer.new result.now }
{
    writer.word(word);
    let rest = put_exprs(writer, game, count);
    writer.word(b"\n");
    rest
}

// Things of one sort, of which several stand one after the other in a game.
trait Part {
    ghost sort: { Sort };

    ghost laws: { SortLaws sort };

    // Prints the one that bytes begin with, and tells the bytes after it.
    fn put<'g>(writer: &mut Writer<'_>, game: &'g [u8]) -> &'g [u8]
        ensures { OnePut sort game.now writer.old writer.new result.now };
}

// So many of them.
fn put_all<'g, P: Part>(writer: &mut Writer<'_>, game: &'g [u8], count: usize) -> &'g [u8]
    ensures { EachPut P.sort count game.now writer.old writer.new result.now }
{
    let mut rest = game;
    for _ in 0..count {
        rest = P::put(writer, rest);
    }
    rest
}

// Numbers of two bytes.
struct Cell;

impl Part for Cell {
    ghost sort = { cells };

    ghost laws = { cells_laws };

    fn put<'g>(writer: &mut Writer<'_>, game: &'g [u8]) -> &'g [u8] {
        writer.number(u32::from(two_bytes(game, 0)));
        after(game, 2)
    }
}

// Of an effect the cell's expression and the value's.
struct Effect;

impl Part for Effect {
    ghost sort = { effects };

    ghost laws = { effects_laws };

    fn put<'g>(writer: &mut Writer<'_>, game: &'g [u8]) -> &'g [u8] {
        put_line(writer, b"  set", game, 2)
    }
}

// Of a rule its bounds, its guard and its effects.
struct Rule;

impl Part for Rule {
    ghost sort = { rules };

    ghost laws = { rules_laws };

    fn put<'g>(writer: &mut Writer<'_>, game: &'g [u8]) -> &'g [u8] {
        writer.word(b"rule");
        let game = put_all::<Cell>(writer, game, 2);
        writer.word(b"\n");
        let game = put_line(writer, b"  may", game, 1);
        let (count, game) = first_number(game);
        put_all::<Effect>(writer, game, usize::from(count))
    }
}

// All of a game.
fn put_game(writer: &mut Writer<'_>, game: &[u8])
    ensures { (g : Game) → game.now ≡ game_bytes g → fits_bytes g ≡ true → Wrote writer.old (printed g) writer.new }
{
    let (players, game) = first_number(game);
    writer.word(b"players");
    writer.number(u32::from(players));
    writer.word(b"\ncells");
    let count = usize::from(two_bytes(game, 0));
    let game = put_all::<Cell>(writer, after(game, 2), count);
    writer.word(b"\n");
    let (count, game) = first_number(game);
    let game = put_all::<Rule>(writer, game, usize::from(count));
    let game = put_line(writer, b"over", game, 1);
    put_line(writer, b"gain", game, 1);
}

// Whether bytes are a game.
fn is_game(game: &[u8]) -> bool
    ensures { result ≡ is_some (parse_game game.now) }
{
    match check_game(game) {
        Ok(_) => true,
        Err(refusal) => refusal != Refusal::from(Reason::NoGame),
    }
}

// The text of the game that bytes are, put from the start of memory as far as there is room. Some tells how large all of the text is;
// None that the bytes are no game.
pub fn print_game(game: &[u8], out: &mut [u8]) -> Option<usize>
    ensures size { result ≡ printed_size (parse_game game.now) }
    ensures exact { ExactSize game.now result }
    ensures text { out.new ≡ printed_into (parse_game game.now) out.old }
{
    if !is_game(game) {
        return None;
    }
    let mut writer = Writer { out, at: 0 };
    put_game(&mut writer, game);
    Some(writer.at)
}

// What is printed of a game whose numbers fit is its text.
pub fn printed_is_text() -> u8
    ensures { PrintedIsText }
{
    0
}

// Reading what is printed of a game whose numbers fit gives just this game.
pub fn printed_reads_back() -> u8
    ensures { PrintedReadsBack }
{
    0
}

// How much memory has room for what is printed of a game.
pub fn printed_fits() -> u8
    ensures { PrintedFits }
{
    0
}
