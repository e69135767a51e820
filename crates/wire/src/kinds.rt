// The kinds of expressions.
ghost use Rattle.std.specs.Prelude.{◌≡◌, ◌-◌, ◌<◌, ◌≤◌, MatchResult};
ghost use Rattle.wire.specs.Exprs.{kind_after};
ghost use Rattle.wire.specs.Kinds.{kind_number, kind_letters, IsKind};

// By names; as bytes they are the numbers from 0 on.
#[derive(Clone, Copy, PartialEq, Eq, Debug)]
pub enum ExprKind {
    Num,
    Cell,
    First,
    Second,
    Me,
    Add,
    Sub,
    Mul,
    Div,
    Rem,
    Lt,
    Eq,
    If,
}

// A byte that is no kind, of an expression, a call or an answer.
#[derive(Clone, Copy, PartialEq, Eq, Debug)]
pub struct UnknownKind;

impl TryFrom<u8> for ExprKind {
    type Error = UnknownKind;

    ghost try_from_gives = { IsKind };

    fn try_from(byte: u8) -> Result<ExprKind, UnknownKind> {
        match byte {
            0 => Ok(ExprKind::Num),
            1 => Ok(ExprKind::Cell),
            2 => Ok(ExprKind::First),
            3 => Ok(ExprKind::Second),
            4 => Ok(ExprKind::Me),
            5 => Ok(ExprKind::Add),
            6 => Ok(ExprKind::Sub),
            7 => Ok(ExprKind::Mul),
            8 => Ok(ExprKind::Div),
            9 => Ok(ExprKind::Rem),
            10 => Ok(ExprKind::Lt),
            11 => Ok(ExprKind::Eq),
            12 => Ok(ExprKind::If),
            _ => Err(UnknownKind),
        }
    }
}

impl From<ExprKind> for u8 {
    ghost from_gives = { λ kind byte. byte ≡ kind_number kind };

    fn from(kind: ExprKind) -> u8 {
        kind as u8
    }
}

impl ExprKind {
    // How many parts an expression of this kind has.
    #[tactic(auto, unfolding(crate::specs::Exprs::kind_after))]
    pub fn arity(self) -> usize
        ensures known { 1 ≤ kind_number self → result ≡ (kind_after (kind_number self - 1)).arity }
        ensures few { result ≤ 3 }
        ensures number { kind_number self ≡ 0 → result ≡ 0 }
    {
        match self {
            ExprKind::Num | ExprKind::First | ExprKind::Second | ExprKind::Me => 0,
            ExprKind::Cell => 1,
            ExprKind::Add
            | ExprKind::Sub
            | ExprKind::Mul
            | ExprKind::Div
            | ExprKind::Rem
            | ExprKind::Lt
            | ExprKind::Eq => 2,
            ExprKind::If => 3,
        }
    }

    // How many bytes an expression of this kind has before its parts: the kind, and of a number its two bytes.
    pub fn width(self) -> usize
        ensures number { kind_number self ≡ 0 → result ≡ 3 }
        ensures other { 1 ≤ kind_number self → result ≡ 1 }
    {
        match self {
            ExprKind::Num => 3,
            _ => 1,
        }
    }

    // How a kind is written as text; of a number no letters.
    pub fn word(self) -> &'static [u8]
        ensures { result.now ≡ kind_letters self }
    {
        match self {
            ExprKind::Num => b"",
            ExprKind::Cell => b"cell",
            ExprKind::First => b"first",
            ExprKind::Second => b"second",
            ExprKind::Me => b"me",
            ExprKind::Add => b"+",
            ExprKind::Sub => b"-",
            ExprKind::Mul => b"*",
            ExprKind::Div => b"/",
            ExprKind::Rem => b"rest",
            ExprKind::Lt => b"below",
            ExprKind::Eq => b"same",
            ExprKind::If => b"if",
        }
    }
}

// How many parts an expression of the kind with this number, from 1 on, has.
pub fn arity_of(kind: u8) -> usize
    ensures known { 1 ≤ kind → kind ≤ 12 → result ≡ (kind_after (kind - 1)).arity }
    ensures few { result ≤ 3 }
{
    match ExprKind::try_from(kind) {
        Ok(kind) => kind.arity(),
        Err(UnknownKind) => 3,
    }
}
