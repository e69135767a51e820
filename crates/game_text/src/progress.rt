// What reading a game's text remembers. How it goes on, byte by byte, stands in specs/Machine.

ghost use Rattle.std.specs.Prelude.{Some};
ghost use Rattle.game_text.specs.Expecting.{told};

use std::fmt;
use wire::ExprKind;

// The four places of a game where expressions stand.
#[derive(Clone, Copy)]
pub enum Part {
    Guard,
    Effect,
    Terminal,
    Payoff,
}

// What is awaited: data that a text drives, so that each step matches on it. Closures in its place would hide which stages there are.
#[derive(Clone, Copy)]
pub enum Stage {
    PlayersWord,
    PlayersNumber,
    CellsWord,
    Values,
    FirstBound,
    SecondBound,
    MayWord,
    Expr,
    Sets,
    GainWord,
    End,
}

// The words of a game's text; those of expressions by their kinds.
#[derive(Clone, Copy)]
pub enum Word {
    Players,
    Cells,
    Rule,
    May,
    Set,
    Over,
    Gain,
    Kind(ExprKind),
}

// How far reading has come. `part` and `more` count while an expression is awaited: `more` expressions of the part follow it.
// `sets` counts the effects of the last rule, `len` the bytes so far, and `sets_at` is the place of the count of effects.
#[derive(Clone, Copy)]
pub struct Progress {
    pub stage: Stage,
    pub part: Part,
    pub more: usize,
    pub cells: u16,
    pub rules: u8,
    pub sets: u8,
    pub len: usize,
    pub sets_at: usize,
}

// What could have come where a text can't be read on.
#[derive(Clone, Copy, PartialEq, Eq, Debug)]
pub enum Expected {
    ThePlayers,
    PlayerCount,
    TheCells,
    CellRuleOrOver,
    RuleOrOver,
    Number,
    TheMay,
    AnExpression,
    SetRuleOrOver,
    SetOrOver,
    TheOver,
    TheGain,
    TheEnd,
}

// In words, for messages.
impl fmt::Display for Expected {
    ghost output = { λ e. Some (told e) };

    fn fmt<W: fmt::Write>(&self, f: &mut fmt::Formatter<W>) -> fmt::Result {
        f.write_str(match self {
            Expected::ThePlayers => "the word 'players'",
            Expected::PlayerCount => "the number of players, at most 255,",
            Expected::TheCells => "the word 'cells'",
            Expected::CellRuleOrOver =>
                "the next cell's number, at most 65535, or 'rule' or 'over'",
            Expected::RuleOrOver => "'rule' or 'over'",
            Expected::Number => "a number, at most 65535,",
            Expected::TheMay => "the word 'may'",
            Expected::AnExpression => "an expression",
            Expected::SetRuleOrOver => "'set', 'rule' or 'over'",
            Expected::SetOrOver => "'set' or 'over'",
            Expected::TheOver => "the word 'over'",
            Expected::TheGain => "the word 'gain'",
            Expected::TheEnd => "the end of the game",
        })
    }
}

// Where a text can't be read on: the first byte that doesn't fit, or the text's end, and what could have come.
#[derive(Clone, Copy, PartialEq, Eq, Debug)]
pub struct Fault {
    pub place: usize,
    pub expected: Expected,
}

// What the bytes before a place belong to: white space, a comment, a number of which the digits so far come to this, or a word that began at a place.
#[derive(Clone, Copy)]
pub enum Token {
    Gap,
    Comment,
    Digits(u16),
    Letters(usize),
}

#[derive(Clone, Copy)]
pub struct Reader {
    pub at: Progress,
    pub token: Token,
}

// Before any byte.
pub const START: Reader = Reader {
    at: Progress {
        stage: Stage::PlayersWord,
        part: Part::Guard,
        more: 0,
        cells: 0,
        rules: 0,
        sets: 0,
        len: 0,
        sets_at: 0,
    },
    token: Token::Gap,
};
