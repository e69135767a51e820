// The words that may come next, and how bytes agree with them.
ghost use Rattle.std.specs.Prelude.{◌≡◌, map, All};
ghost use Rattle.game_text.specs.Machine.{agrees, look, spelling, awaited, bound, expecting};

use super::progress::{Expected, Progress, Stage, Word};
use wire::ExprKind;

// At most so many rules, and effects in a rule.
const MOST: u8 = 255;

const MOST_CELLS: u16 = 65535;

// A word and how it is written. The letters stand beside the words in tables, since at each byte the words that may come next are gone
// through, and to spell each of them anew takes longer than to compare it.
#[derive(Clone, Copy)]
struct Spelled {
    word: Word,
    letters: &'static [u8],
}

const PLAYERS: Spelled = Spelled {
    word: Word::Players,
    letters: b"players",
};

const CELLS: Spelled = Spelled {
    word: Word::Cells,
    letters: b"cells",
};

const RULE: Spelled = Spelled {
    word: Word::Rule,
    letters: b"rule",
};

const MAY: Spelled = Spelled {
    word: Word::May,
    letters: b"may",
};

const SET: Spelled = Spelled {
    word: Word::Set,
    letters: b"set",
};

const OVER: Spelled = Spelled {
    word: Word::Over,
    letters: b"over",
};

const GAIN: Spelled = Spelled {
    word: Word::Gain,
    letters: b"gain",
};

const KIND_WORDS: [Spelled; 12] = [
    Spelled {
        word: Word::Kind(ExprKind::Cell),
        letters: b"cell",
    },
    Spelled {
        word: Word::Kind(ExprKind::First),
        letters: b"first",
    },
    Spelled {
        word: Word::Kind(ExprKind::Second),
        letters: b"second",
    },
    Spelled {
        word: Word::Kind(ExprKind::Me),
        letters: b"me",
    },
    Spelled {
        word: Word::Kind(ExprKind::Add),
        letters: b"+",
    },
    Spelled {
        word: Word::Kind(ExprKind::Sub),
        letters: b"-",
    },
    Spelled {
        word: Word::Kind(ExprKind::Mul),
        letters: b"*",
    },
    Spelled {
        word: Word::Kind(ExprKind::Div),
        letters: b"/",
    },
    Spelled {
        word: Word::Kind(ExprKind::Rem),
        letters: b"rest",
    },
    Spelled {
        word: Word::Kind(ExprKind::Lt),
        letters: b"below",
    },
    Spelled {
        word: Word::Kind(ExprKind::Eq),
        letters: b"same",
    },
    Spelled {
        word: Word::Kind(ExprKind::If),
        letters: b"if",
    },
];

// The piece is a front of the word or, if the whole word is asked for, the word. A flag, since of a closure in its place each contract
// would have to say what it tests.
fn fits(piece: &[u8], word: &[u8], whole: bool) -> bool
    ensures { result ≡ agrees whole piece.now word.now }
{
    word.starts_with(piece) && (!whole || piece.len() == word.len())
}

// The words that may come next.
fn awaited(p: Progress) -> &'static [Spelled]
    ensures words { map (λ s. s.word) result.now ≡ awaited p.stage p }
    ensures letters { All (λ s. s.letters.now ≡ spelling s.word) result.now }
{
    match p.stage {
        Stage::PlayersWord => &[PLAYERS],
        Stage::CellsWord => &[CELLS],
        Stage::MayWord => &[MAY],
        Stage::GainWord => &[GAIN],
        Stage::Expr => &KIND_WORDS,
        Stage::Values if p.rules < MOST => &[RULE, OVER],
        Stage::Values => &[OVER],
        Stage::Sets => match (p.sets < MOST, p.rules < MOST) {
            (true, true) => &[SET, RULE, OVER],
            (true, false) => &[SET, OVER],
            (false, true) => &[RULE, OVER],
            (false, false) => &[OVER],
        },
        _ => &[],
    }
}

// The word that may come next and that begins with the piece or, if the whole word is asked for, that is the piece.
pub(super) fn find_word(p: Progress, piece: &[u8], whole: bool) -> Option<Word>
    ensures { result ≡ look whole (awaited p.stage p) piece.now }
{
    awaited(p)
        .iter()
        .find(|spelled| fits(piece, spelled.letters, whole))
        .map(|spelled| spelled.word)
}

// Below what a number that comes next must be; 0 if none may come.
pub(super) fn bound_of(p: Progress) -> usize
    ensures { result ≡ bound p.stage p }
{
    match p.stage {
        Stage::PlayersNumber => 256,
        Stage::Values if p.cells < MOST_CELLS => 65536,
        Stage::FirstBound | Stage::SecondBound | Stage::Expr => 65536,
        _ => 0,
    }
}

// What may come next, to be told.
pub(super) fn expected_of(p: Progress) -> Expected
    ensures { result ≡ expecting p.stage p }
{
    match p.stage {
        Stage::PlayersWord => Expected::ThePlayers,
        Stage::PlayersNumber => Expected::PlayerCount,
        Stage::CellsWord => Expected::TheCells,
        Stage::Values if p.cells < MOST_CELLS => Expected::CellRuleOrOver,
        Stage::Values => Expected::RuleOrOver,
        Stage::FirstBound | Stage::SecondBound => Expected::Number,
        Stage::MayWord => Expected::TheMay,
        Stage::Expr => Expected::AnExpression,
        Stage::Sets => match (p.sets < MOST, p.rules < MOST) {
            (true, true) => Expected::SetRuleOrOver,
            (true, false) => Expected::SetOrOver,
            (false, true) => Expected::RuleOrOver,
            (false, false) => Expected::TheOver,
        },
        Stage::GainWord => Expected::TheGain,
        Stage::End => Expected::TheEnd,
    }
}
