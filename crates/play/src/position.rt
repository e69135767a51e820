// A position of a game in lent memory, and a rule of the game there.
ghost use Rattle.std.specs.Prelude.{◌≡◌, ℕ, ◌<◌, ◌≤◌, List, length, MatchOption};
ghost use Rattle.rules.specs.Rules as meaning;
ghost use Rattle.rows.specs.Layout.{game_at};
ghost use Rattle.eval.specs.Memory.{expr_at};
ghost use Rattle.play.specs.Cursor.{move};

use eval::eval;
use rows::{RuleRow, read_rule};

// What the cells hold, with whose turn it is.
#[derive(Clone, Copy)]
pub(crate) struct Position<'a> {
    pub rules: &'a [u32],
    pub cells: &'a [u32],
    pub me: u32,
    ghost whose: { me ≡ meaning.turn (game_at rules.now) cells.now },
}

// A rule of the game, by its number and its words.
#[derive(Clone, Copy)]
pub(crate) struct Rule<'a> {
    pub at: Position<'a>,
    pub number: u32,
    pub row: RuleRow,
    ghost there: { number < length (game_at at.rules.now).rules },
    ghost first_bound: { row.first_bound ≡ (meaning.rule_at (game_at at.rules.now) number).first_bound },
    ghost second_bound: { row.second_bound ≡ (meaning.rule_at (game_at at.rules.now) number).second_bound },
    ghost guard: { (p : List ℕ) (x y m : ℕ) → meaning.eval (expr_at at.rules.now row.guard) p x y m
        ≡ meaning.eval (meaning.rule_at (game_at at.rules.now) number).guard p x y m },
}

impl<'a> Position<'a> {
    // The rule with this number, or None where the game has no such rule.
    pub(crate) fn rule(&self, number: u32) -> Option<Rule<'a>>
        ensures { MatchOption result (length (game_at self.now.rules.now).rules ≤ number)
            (λ u. (u.number ≡ number) × (u.at.rules.now ≡ self.now.rules.now) × (u.at.cells.now ≡ self.now.cells.now)) }
    {
        let row = read_rule(self.rules, number)?;
        Some(Rule {
            at: *self,
            number,
            row,
        })
    }
}

impl<'a> Rule<'a> {
    // Whether the guard lets the player whose turn it is move with these two numbers.
    pub(crate) fn allows(&self, first: u32, second: u32) -> bool
        ensures { first < self.now.row.first_bound → second < self.now.row.second_bound
            → result ≡ meaning.is_legal (game_at self.now.at.rules.now) self.now.at.cells.now (move self.now.number first second) }
    {
        let Position { rules, cells, me } = self.at;
        eval(rules, self.row.guard, cells, first, second, me) != 0
    }
}
