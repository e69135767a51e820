// A game is loaded from bytes that have been checked. What memory is as a game stands in specs/Layout.antt.
ghost use Rattle.std.specs.Prelude.{◌≡◌, ℕ, ◌+◌, ◌*◌, ◌^◌, ◌<◌, ◌≤◌, length, slice_index};
ghost use Rattle.wire.specs.GamesWalk.{word_at};
ghost use Rattle.rows.specs.Encoding.{EveryGameHasMemory};
ghost use Rattle.rows.specs.Layout.{words_needed};
ghost use Rattle.rows.specs.Load.{WordsAreEnough, PlacesExprs, RuleWritten, PlacesRule, PlacesRules, HeaderWritten, Fills, LoadsGame};

use crate::read::{HEADER, RULE_WORDS};
use eval::{Loaded, load_expr};
use rules::{Reason, Refusal};
use wire::{GameSize, check_game, put, two_bytes};

// The bytes that are left to read, and where memory is free.
#[derive(Clone, Copy)]
struct End<'a> {
    rest: &'a [u8],
    next: u32,
}

// How many words of memory a game of this size takes.
pub fn words_needed(size: GameSize) -> usize
    ensures { result ≡ words_needed size }
{
    let rules = size.rules as usize;
    let effects = size.effects as usize;
    let parts = (size.parts as usize)
        .saturating_sub(rules)
        .saturating_sub(effects);
    HEADER + size.cells as usize + RULE_WORDS * rules + 2 * effects + 4 * parts
}

// A good game takes at most 16 words for each of its parts, and 384.
pub fn words_are_enough() -> u8
    ensures { WordsAreEnough }
{
    0
}

// Every good game has words that mean it, just as many as are asked for.
pub fn every_game_has_memory() -> u8
    ensures { EveryGameHasMemory }
{
    0
}

// Loads `count` expressions, and notes their places in the words from `table` on.
fn load_exprs<'a>(
    bytes: &'a [u8],
    count: usize,
    rules: &mut [u32],
    table: usize,
    at: u32,
) -> Option<End<'a>>
    requires { table + count < 2 ^ 64 }
    ensures { PlacesExprs bytes.now count rules.old rules.new table at result }
{
    let mut end = End {
        rest: bytes,
        next: at,
    };
    for i in 0..count {
        let Loaded { used, root } = load_expr(end.rest, rules, end.next).ok()?;
        put(rules, table + i, root);
        end = End {
            rest: &end.rest[used..],
            next: root + 4,
        };
    }
    Some(end)
}

// Writes the words of a rule, but for the place of its guard, if they are there.
fn put_rule(rules: &mut [u32], row: usize, first: u32, second: u32, count: u32, effects: u32)
    requires { row + 5 < 2 ^ 64 }
    ensures { row + 5 ≤ length rules.old → RuleWritten row first second count effects rules.old rules.new }
{
    put(rules, row, first);
    put(rules, row + 1, second);
    put(rules, row + 3, count);
    put(rules, row + 4, effects);
}

// Loads a rule, whose five words begin at `row`: its guard, the places of its effects' expressions, and these.
fn load_rule<'a>(bytes: &'a [u8], rules: &mut [u32], row: usize, at: u32) -> Option<End<'a>>
    requires { row + 5 < 2 ^ 64 }
    ensures { PlacesRule bytes.now rules.old rules.new row at result }
{
    let (_, rest) = bytes.split_at_checked(4)?;
    let guard = load_exprs(rest, 1, rules, row + 2, at)?;
    let (count, rest) = guard.rest.split_first()?;
    let count = u32::from(*count);
    let table = guard.next as usize;
    let places = 2 * count;
    let end = load_exprs(
        rest,
        places as usize,
        rules,
        table,
        guard.next.checked_add(places)?,
    )?;
    put_rule(
        rules,
        row,
        u32::from(two_bytes(bytes, 0)),
        u32::from(two_bytes(bytes, 2)),
        count,
        guard.next,
    );
    Some(end)
}

// Loads `count` rules, whose words begin at `row`.
fn load_rules<'a>(
    bytes: &'a [u8],
    count: usize,
    rules: &mut [u32],
    row: usize,
    at: u32,
) -> Option<End<'a>>
    requires { row + 5 * count < 2 ^ 64 }
    ensures { PlacesRules bytes.now count rules.old rules.new row at result }
{
    let mut end = End {
        rest: bytes,
        next: at,
    };
    for i in 0..count {
        end = load_rule(end.rest, rules, row + RULE_WORDS * i, end.next)?;
    }
    Some(end)
}

// Writes the cells at the start, of two bytes each, from the sixth word on.
fn load_cells(bytes: &[u8], count: usize, rules: &mut [u32])
    requires read { 3 + 2 * count ≤ length bytes.now }
    requires room { 5 + count ≤ length rules.old }
    ensures { (k : ℕ) → k < count → slice_index rules.new (5 + k) ≡ word_at bytes.now (3 + 2 * k) }
{
    let cells = &mut rules[HEADER..HEADER + count];
    for (k, cell) in cells.iter_mut().enumerate() {
        *cell = u32::from(two_bytes(bytes, 3 + 2 * k));
    }
}

// Writes the first three words of a game.
fn put_header(rules: &mut [u32], players: u32, cells: u32, count: u32)
    requires { 3 ≤ length rules.old }
    ensures { HeaderWritten players cells count rules.old rules.new }
{
    rules[0] = players;
    rules[1] = cells;
    rules[2] = count;
}

// Fills memory with a game of this size, if it can.
fn load_game(bytes: &[u8], size: GameSize, rules: &mut [u32]) -> Option<()>
    requires all { length rules.old ≡ words_needed size }
    requires small { length rules.old ≤ 4294967295 }
    ensures { Fills bytes.now size rules.new result }
{
    let cells = size.cells as usize;
    let count = size.rules as usize;
    let (_, rest) = bytes.split_at_checked(3 + 2 * cells + 1)?;
    load_cells(bytes, cells, rules);
    let row = HEADER + cells;
    let all = load_rules(rest, count, rules, row, (row + RULE_WORDS * count) as u32)?;
    load_exprs(all.rest, 2, rules, 3, all.next)?;
    put_header(rules, size.players, size.cells, size.rules);
    Some(())
}

// Loads a game. Refused as the check refuses it, or with number 3 at place 2 if there is too little room; nothing is written then.
pub fn load(bytes: &[u8], rules: &mut [u32]) -> Result<GameSize, Refusal>
    ensures { LoadsGame bytes.now rules.old rules.new result }
{
    let size = check_game(bytes)?;
    let words = words_needed(size);
    if rules.len() < words {
        return Err(Reason::NoMemory.into());
    }
    load_game(bytes, size, &mut rules[..words]).ok_or(Reason::NoGame)?;
    Ok(size)
}
