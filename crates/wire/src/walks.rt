// Walks over the bytes of a game: each takes bytes, and answers what it found at their front and the bytes that are left.
ghost use Rattle.std.specs.Prelude.{◌≡◌, ◌+◌, ◌<◌, ◌≤◌, length, IfSome, is_some, not, option_copied, option_map};
ghost use Rattle.wire.specs.Exprs.{read_exprs};
ghost use Rattle.wire.specs.Games.{read_number, read_rule, read_rules, parse_game};
ghost use Rattle.wire.specs.GamesWalk.{found, as_read, read_head, arity_of, exprs_parts, behind, rule_bound, plus, CanAdd, Few, totals_of, one_total, found_of};

use super::excesses::Excess;
use super::kinds::ExprKind;
use std::ops::Add;

// An expression is at most 32 deep: it has a level more than that.
pub const MOST_LEVELS: u32 = 33;

const MOST_BOUND: usize = 256;

// What rules and expressions have together: the first bound that is too large, and whether an expression is too deep.
#[derive(Clone, Copy, Default)]
pub(super) struct Totals {
    pub effects: u32,
    pub moves: usize,
    pub parts: usize,
    pub bound: Option<Excess>,
    pub deep: bool,
}

impl Add for Totals {
    type Output = Totals;

    ghost can_add = { CanAdd };

    ghost add_gives = { λ a b sum. sum ≡ plus a b };

    fn add(self, more: Totals) -> Totals {
        Totals {
            effects: self.effects + more.effects,
            moves: self.moves + more.moves,
            parts: self.parts + more.parts,
            bound: self.bound.or(more.bound),
            deep: self.deep || more.deep,
        }
    }
}

// What is found in the bytes of a game.
#[derive(Clone, Copy)]
pub(super) struct Found {
    pub players: u8,
    pub cells: u16,
    pub rules: u8,
    pub totals: Totals,
}

// The number in the first two bytes.
fn read_word(bytes: &[u8]) -> Option<(u16, &[u8])>
    ensures read { found result ≡ read_number 2 bytes.now }
    ensures few { IfSome result (λ word. length word.1.now ≤ length bytes.now) }
{
    let (word, rest) = bytes.split_first_chunk::<2>()?;
    Some((u16::from_le_bytes(*word), rest))
}

// How many parts the first expression has, and the bytes that they begin with.
fn read_kind(bytes: &[u8]) -> Option<(usize, &[u8])>
    ensures read { found result ≡ as_read arity_of (read_head bytes.now) }
    ensures few { IfSome result (λ head. (head.0 ≤ 3) × (length head.1.now < length bytes.now)) }
{
    let kind = ExprKind::try_from(*bytes.first()?).ok()?;
    let parts = bytes.get(kind.width()..)?;
    Some((kind.arity(), parts))
}

// How many parts the first `count` expressions have together. However deep they are nested, only how many are still to come is kept.
fn pass_exprs(bytes: &[u8], count: usize) -> Option<(usize, &[u8])>
    ensures read { found result ≡ as_read exprs_parts (read_exprs count bytes.now) }
    ensures few { IfSome result (λ passed. passed.0 + length passed.1.now ≤ length bytes.now) }
{
    let mut rest = bytes;
    let mut pending = count;
    let mut parts = 0;
    while pending > 0 {
        if rest.len() < pending {
            return None;
        }
        let (own, inner) = read_kind(rest)?;
        rest = inner;
        pending = pending - 1 + own;
        parts += 1;
    }
    Some((parts, rest))
}

// The bytes behind the first `count` expressions, if each has at most `levels` levels.
fn pass_shallow(bytes: &[u8], count: usize, levels: u32) -> Option<&[u8]>
    ensures { option_copied result ≡ behind levels (read_exprs count bytes.now) }
{
    let mut rest = bytes;
    for _passed in 0..count {
        let (parts, inner) = read_kind(rest)?;
        rest = pass_shallow(inner, parts, levels.checked_sub(1)?)?;
    }
    Some(rest)
}

// Whether one of the first `count` expressions is too deep, or can't be read.
fn is_deep(bytes: &[u8], count: usize) -> bool
    ensures { result ≡ not (is_some (behind 33 (read_exprs count bytes.now))) }
{
    pass_shallow(bytes, count, MOST_LEVELS).is_none()
}

// Which of the two bounds of a rule is too large.
fn large_bound(rule: usize, first: usize, second: usize) -> Option<Excess>
    ensures { result ≡ rule_bound rule first second }
{
    if first > MOST_BOUND {
        Some(Excess::FirstBound { rule, bound: first })
    } else if second > MOST_BOUND {
        Some(Excess::SecondBound {
            rule,
            bound: second,
        })
    } else {
        None
    }
}

// The first rule, which has the number `rule`.
fn walk_rule(bytes: &[u8], rule: usize) -> Option<(Totals, &[u8])>
    ensures read { found result ≡ as_read (one_total rule) (read_rule bytes.now) }
    ensures few { IfSome result (λ walked. Few 1 walked.0 (length bytes.now) (length walked.1.now)) }
{
    let (first, rest) = read_word(bytes)?;
    let (second, guard) = read_word(rest)?;
    let (guard_parts, rest) = pass_exprs(guard, 1)?;
    let (count, effects) = rest.split_first()?;
    let values = 2 * usize::from(*count);
    let (effect_parts, rest) = pass_exprs(effects, values)?;
    let first = usize::from(first);
    let second = usize::from(second);
    let totals = Totals {
        effects: u32::from(*count),
        moves: first * second,
        parts: 1 + guard_parts + usize::from(*count) + effect_parts,
        bound: large_bound(rule, first, second),
        deep: is_deep(guard, 1) || is_deep(effects, values),
    };
    Some((totals, rest))
}

// The first `count` rules.
fn walk_rules(bytes: &[u8], count: u8) -> Option<(Totals, &[u8])>
    ensures read { found result ≡ as_read (totals_of 0) (read_rules count bytes.now) }
    ensures few { IfSome result (λ walked. Few count walked.0 (length bytes.now) (length walked.1.now)) }
{
    let mut rest = bytes;
    let mut totals = Totals::default();
    for rule in 0..usize::from(count) {
        let (one, behind) = walk_rule(rest, rule)?;
        totals = totals + one;
        rest = behind;
    }
    Some((totals, rest))
}

// All of the bytes.
pub(super) fn walk_game(bytes: &[u8]) -> Option<Found>
    ensures { result ≡ option_map found_of (parse_game bytes.now) }
{
    let (players, rest) = bytes.split_first()?;
    let (cells, rest) = read_word(rest)?;
    let rest = rest.get(2 * usize::from(cells)..)?;
    let (rules, rest) = rest.split_first()?;
    let (of_rules, last) = walk_rules(rest, *rules)?;
    let (parts, rest) = pass_exprs(last, 2)?;
    if !rest.is_empty() {
        return None;
    }
    let totals = Totals {
        parts: of_rules.parts + parts,
        deep: of_rules.deep || is_deep(last, 2),
        ..of_rules
    };
    Some(Found {
        players: *players,
        cells,
        rules: *rules,
        totals,
    })
}
