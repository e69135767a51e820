// One expression in lent memory: how it is laid out, its value in a position, and how it is loaded from bytes.
#![tactic(auto)]

ghost use Rattle.std.specs.Prelude.{◌≡◌, ℕ, ◌+◌, ◌-◌, ◌*◌, ◌≤◌, if◌then◌else◌, nat_eq, nat_lt, slice_index};
ghost use Rattle.rules.specs.Rules.{capped, quotient, remainder, eval as value_of_lem};
ghost use Rattle.wire.specs.Kinds.{kind_number};
ghost use Rattle.eval.specs.Memory.{kind_of, row_of, row_at, expr_within, expr_at};
ghost use Rattle.eval.specs.Load.{LoadsExpr, LoadsWithin, BeginsAs, Ended};
ghost use Rattle.eval.specs.declared.LoadError.TheVariants.{Unreadable};

use wire::{ExprKind, MOST_LEVELS, UnknownKind, two_bytes};

// A row of an expression: its kind, and its operands, which are a number or the places of its parts.
#[derive(Clone, Copy)]
struct Row {
    kind: ExprKind,
    a: u32,
    b: u32,
    c: u32,
}

// What the value of an expression depends on: memory with its rows, the position, a move's two numbers, and the player.
#[derive(Clone, Copy)]
struct Evaluator<'a> {
    rules: &'a [u32],
    cells: &'a [u32],
    first: u32,
    second: u32,
    me: u32,
}

// The largest number in a game.
const MOST: u32 = 65535;

// What stands at `i`, or 0 past the end.
pub fn word_at(words: &[u32], i: usize) -> u32
    ensures { result ≡ slice_index words.now i }
{
    words.get(i).copied().unwrap_or(0)
}

// The kind of an expression that a word tells, if it tells one.
fn kind_of(word: u32) -> Option<ExprKind>
    ensures { result ≡ kind_of word }
{
    let byte = u8::try_from(word).ok()?;
    ExprKind::try_from(byte).ok()
}

// The row of four words of memory: where the first tells no kind, it is that of the number 0.
fn row_of(kind: u32, a: u32, b: u32, c: u32) -> Row
    ensures { result ≡ row_of kind a b c }
{
    match kind_of(kind) {
        Some(kind) => Row { kind, a, b, c },
        None => Row {
            kind: ExprKind::Num,
            a: 0,
            b: 0,
            c: 0,
        },
    }
}

// The row at `at`: one test serves its four words. By index: with a slice pattern over `get`, evaluation took 5 % longer.
fn row_at(rules: &[u32], at: u32) -> Row
    ensures { result ≡ row_at rules.now at }
{
    let i = at as usize;
    if i + 4 <= rules.len() {
        row_of(rules[i], rules[i + 1], rules[i + 2], rules[i + 3])
    } else {
        row_of(
            word_at(rules, i),
            word_at(rules, i + 1),
            word_at(rules, i + 2),
            word_at(rules, i + 3),
        )
    }
}

fn sum(a: u32, b: u32) -> u32
    ensures { result ≡ capped (a + b) }
{
    a.saturating_add(b).min(MOST)
}

fn product(a: u32, b: u32) -> u32
    ensures { result ≡ capped (a * b) }
{
    a.saturating_mul(b).min(MOST)
}

fn divided(a: u32, b: u32) -> u32
    ensures { result ≡ quotient a b }
{
    a.checked_div(b).unwrap_or(0)
}

fn left_over(a: u32, b: u32) -> u32
    ensures { result ≡ remainder a b }
{
    a.checked_rem(b).unwrap_or(0)
}

fn is_below(a: u32, b: u32) -> u32
    ensures { result ≡ (if nat_lt a b then 1 else 0) }
{
    u32::from(a < b)
}

fn is_equal(a: u32, b: u32) -> u32
    ensures { result ≡ (if nat_eq a b then 1 else 0) }
{
    u32::from(a == b)
}

impl Evaluator<'_> {
    // The value of the expression at `at`, of at most `levels` levels.
    fn value(&self, at: u32, levels: u32) -> u32
        ensures { result ≡ value_of_lem (expr_within levels self.now.rules.now at) self.now.cells.now self.now.first self.now.second self.now.me }
    {
        if levels == 0 {
            return 0;
        }
        let below = levels - 1;
        let Row { kind, a, b, c } = row_at(self.rules, at);
        match kind {
            ExprKind::Num => a.min(MOST),
            ExprKind::First => self.first,
            ExprKind::Second => self.second,
            ExprKind::Me => self.me,
            ExprKind::Cell => word_at(self.cells, self.value(a, below) as usize),
            ExprKind::Add => sum(self.value(a, below), self.value(b, below)),
            ExprKind::Sub => self.value(a, below).saturating_sub(self.value(b, below)),
            ExprKind::Mul => {
                let x = self.value(a, below);
                if x == 0 {
                    return 0;
                }
                product(x, self.value(b, below))
            }
            ExprKind::Div => divided(self.value(a, below), self.value(b, below)),
            ExprKind::Rem => left_over(self.value(a, below), self.value(b, below)),
            ExprKind::Lt => is_below(self.value(a, below), self.value(b, below)),
            ExprKind::Eq => is_equal(self.value(a, below), self.value(b, below)),
            ExprKind::If => {
                let chosen = if self.value(a, below) == 0 { c } else { b };
                self.value(chosen, below)
            }
        }
    }
}

// As callers have them, six parameters: a struct that is made for one call is no plainer.
// The value of the expression at `at` where the position is `cells`, for a move's two numbers and the player `me`.
pub fn eval(rules: &[u32], at: u32, cells: &[u32], first: u32, second: u32, me: u32) -> u32
    ensures { result ≡ value_of_lem (expr_at rules.now at) cells.now first second me }
{
    let evaluator = Evaluator {
        rules,
        cells,
        first,
        second,
        me,
    };
    evaluator.value(at, MOST_LEVELS)
}

// An expression that was loaded: how many bytes it took, and where its row is, the last of its rows.
#[derive(Clone, Copy, PartialEq, Eq, Debug)]
pub struct Loaded {
    pub used: usize,
    pub root: u32,
}

// Why an expression is not loaded: its bytes are none, it is more than 32 deep, or there is no room for it.
#[derive(Clone, Copy, PartialEq, Eq, Debug)]
pub enum LoadError {
    Unreadable,
    TooDeep,
    Full,
}

impl From<UnknownKind> for LoadError {
    ghost from_gives = { λ _ error. error ≡ Unreadable };

    fn from(_kind: UnknownKind) -> LoadError {
        LoadError::Unreadable
    }
}

// Writes the row of an expression that took `used` bytes, after those of its parts.
fn put_row(
    rules: &mut [u32],
    at: u32,
    kind: ExprKind,
    operands: [u32; 3],
    used: usize,
) -> Result<Loaded, LoadError>
    ensures { Ended at (kind_number kind) operands used rules.old rules.new result }
{
    let i = at as usize;
    if at > u32::MAX - 4 || i + 4 > rules.len() {
        return Err(LoadError::Full);
    }
    let [a, b, c] = operands;
    rules[i..i + 4].copy_from_slice(&[u32::from(u8::from(kind)), a, b, c]);
    Ok(Loaded { used, root: at })
}

// The kind of the expression at the front of `bytes`, if they hold it and, of a number, its two bytes.
fn front_kind(bytes: &[u8]) -> Result<ExprKind, LoadError>
    ensures { BeginsAs bytes.now result }
{
    let byte = bytes.first().ok_or(LoadError::Unreadable)?;
    let kind = ExprKind::try_from(*byte)?;
    if bytes.len() < kind.width() {
        return Err(LoadError::Unreadable);
    }
    Ok(kind)
}

// Loads an expression of at most `levels` levels.
fn load_within(bytes: &[u8], levels: u32, rules: &mut [u32], at: u32) -> Result<Loaded, LoadError>
    ensures { LoadsWithin levels bytes.now at rules.old rules.new result }
{
    if levels == 0 {
        return Err(LoadError::TooDeep);
    }
    let kind = front_kind(bytes)?;
    if kind == ExprKind::Num {
        let number = u32::from(two_bytes(bytes, 1));
        return put_row(rules, at, kind, [number, 0, 0], 3);
    }
    let mut places = [0; 3];
    let mut used = 1;
    let mut next = at;
    for place in places[..kind.arity()].iter_mut() {
        let part = load_within(&bytes[used..], levels - 1, rules, next)?;
        *place = part.root;
        used += part.used;
        next = part.root + 4;
    }
    put_row(rules, next, kind, places, used)
}

// Loads the expression at the front of `bytes` into the words of `rules` from `at` on.
pub fn load_expr(bytes: &[u8], rules: &mut [u32], at: u32) -> Result<Loaded, LoadError>
    ensures { LoadsExpr bytes.now at rules.old rules.new result }
{
    load_within(bytes, MOST_LEVELS, rules, at)
}
