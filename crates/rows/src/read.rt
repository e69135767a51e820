// A game in lent memory: its words, its rules, and what their effects do.
ghost use Rattle.std.specs.Prelude.{◌≡◌, ◌+◌, ◌^◌, ◌<◌, slice_index, slice_set};
ghost use Rattle.rules.specs.Rules.{apply_effects};
ghost use Rattle.rows.specs.Layout.{game_at, effects_at};
ghost use Rattle.rows.specs.Reading.{header, IsGame, ReadsRule};

use eval::{eval, word_at};
use wire::put;

// The five words that a game begins with: how many players, cells and rules it has, and where its terminal and its payoff are.
#[derive(Clone, Copy, PartialEq, Eq, Debug)]
pub struct GameRow {
    pub players: u32,
    pub cells: u32,
    pub rules: u32,
    pub terminal: u32,
    pub payoff: u32,
}

// The five words of a rule: its bounds, where its guard is, how many effects it has, and where these are.
#[derive(Clone, Copy, PartialEq, Eq, Debug)]
pub struct RuleRow {
    pub first_bound: u32,
    pub second_bound: u32,
    pub guard: u32,
    pub effects: u32,
    pub effects_at: u32,
}

// The two words of an effect: where the expressions of its cell and of its value are.
#[derive(Clone, Copy)]
struct EffectRow {
    cell: u32,
    value: u32,
}

// How many words a game begins with, and how many each rule has.
pub(super) const HEADER: usize = 5;

pub(super) const RULE_WORDS: usize = 5;

// The words that the game begins with.
pub fn read_game(rules: &[u32]) -> GameRow
    ensures words { result ≡ header rules.now }
    ensures game { IsGame rules.now result }
{
    GameRow {
        players: word_at(rules, 0),
        cells: word_at(rules, 1),
        rules: word_at(rules, 2),
        terminal: word_at(rules, 3),
        payoff: word_at(rules, 4),
    }
}

// What cell `i` holds at the start, or 0 where the game has no such cell.
pub fn start_cell(rules: &[u32], i: u32) -> u32
    ensures { result ≡ slice_index (game_at rules.now).start i }
{
    if i < word_at(rules, 1) {
        word_at(rules, HEADER + i as usize)
    } else {
        0
    }
}

// Rule `r`, or None where the game has no such rule.
pub fn read_rule(rules: &[u32], r: u32) -> Option<RuleRow>
    ensures { ReadsRule rules.now r result }
{
    if r >= word_at(rules, 2) {
        return None;
    }
    let at = HEADER + word_at(rules, 1) as usize + RULE_WORDS * (r as usize);
    Some(RuleRow {
        first_bound: word_at(rules, at),
        second_bound: word_at(rules, at + 1),
        guard: word_at(rules, at + 2),
        effects: word_at(rules, at + 3),
        effects_at: word_at(rules, at + 4),
    })
}

// The effect at a place of memory.
fn read_effect(rules: &[u32], at: usize) -> EffectRow
    requires { at < 2 ^ 63 }
    ensures cell { result.cell ≡ slice_index rules.now at }
    ensures value { result.value ≡ slice_index rules.now (at + 1) }
{
    EffectRow {
        cell: word_at(rules, at),
        value: word_at(rules, at + 1),
    }
}

// The effects of a rule happen one after the other, each in the position that those before it left.
// `me` is whose turn it was before the first.
pub fn apply_effects(
    rules: &[u32],
    row: RuleRow,
    cells: &mut [u32],
    first: u32,
    second: u32,
    me: u32,
)
    ensures { cells.new ≡
        apply_effects (effects_at rules.now row.effects_at row.effects) cells.old first second me }
{
    for i in 0..row.effects {
        let at = row.effects_at as usize + 2 * (i as usize);
        let effect = read_effect(rules, at);
        let cell = eval(rules, effect.cell, cells, first, second, me);
        let value = eval(rules, effect.value, cells, first, second, me);
        put(cells, cell as usize, value);
    }
}
