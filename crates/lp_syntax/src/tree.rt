// The syntax of an LP text as it is read: names are places in the text.
ghost use Rattle.std.specs.Prelude.{◌≡◌, IsTrue};
ghost use Rattle.lp_token.specs.Lexeme.{is_name};
ghost use Rattle.lp_syntax.specs.TreeIn.{name_in};

use bp_theory::Items;

/// A slice of the text.
#[derive(Clone, Copy, Debug, PartialEq, Eq)]
pub struct TextRange {
    /// The place of its first byte, from 0.
    pub from: usize,
    /// The place behind its last byte.
    pub to: usize,
}

/// A written sign.
#[derive(Clone, Copy, Debug, PartialEq, Eq)]
pub enum Sign {
    Plus,
    Minus,
}

/// How a row's sum or a variable compares with a value.
#[derive(Clone, Copy, Debug, PartialEq, Eq)]
pub enum Comparison {
    AtMost,
    AtLeast,
    Equal,
}

/// The direction of two comparisons that agree.
#[derive(Clone, Copy, Debug, PartialEq, Eq)]
pub enum Direction {
    Upward,
    Downward,
}

/// Signs and a number.
#[derive(Drop)]
pub struct Signed {
    /// The signs in front, in order: an odd number of minuses negates.
    pub signs: Items<Sign>,
    /// The number without its signs.
    pub size: u64,
}

/// Signs, perhaps a number, and a variable's name.
#[derive(Drop)]
pub struct Term {
    /// The signs in front, in order; the one that parts it from a summand before is not among them.
    pub signs: Items<Sign>,
    /// The number before the name; 1 is meant where there is none.
    pub factor: Option<u64>,
    /// The place of the variable's name.
    pub variable: TextRange,
}

/// What an objective adds up: terms and constants.
#[derive(Drop)]
pub enum Item {
    Term(Term),
    Constant(Signed),
}

/// A first summand, and further ones with a sign before each.
#[derive(Drop)]
pub struct Sum<A> {
    /// The first summand.
    pub first: A,
    /// The further ones in order, each with the sign that parts it from the one before.
    pub more: Items<(Sign, A)>,
}

/// A row of a text: its label, and its sides and its sum in the order in which they are written.
#[derive(Drop)]
pub enum Row {
    ExpressionFirst(Option<TextRange>, Sum<Term>, Comparison, Signed),
    NumberFirst(Option<TextRange>, Signed, Comparison, Sum<Term>),
    Ranged(Option<TextRange>, Signed, Direction, Sum<Term>, Signed),
}

/// A value of a bound: a number, or signs and a word for an infinity.
#[derive(Drop)]
pub enum Value {
    Finite(Signed),
    Endless(Items<Sign>),
}

/// A statement of a bounds section. A free name has the word behind it.
#[derive(Drop)]
pub enum Bound {
    ValueFirst(Value, Comparison, TextRange),
    NameFirst(TextRange, Comparison, Value),
    Between(Value, Direction, TextRange, Value),
    Free(TextRange, TextRange),
}

/// A section behind the rows.
#[derive(Drop)]
pub enum Part {
    Bounds(Items<Bound>),
    Generals(Items<TextRange>),
    Binaries(Items<TextRange>),
}

/// A text.
#[derive(Drop)]
pub struct Tree {
    /// Whether the objective is maximised; else it is minimised.
    pub maximises: bool,
    /// The objective's name, where one stands before a colon.
    pub label: Option<TextRange>,
    /// What the objective adds up; none where nothing is written.
    pub objective: Option<Sum<Item>>,
    /// The rows, in order.
    pub rows: Items<Row>,
    /// The sections behind the rows, in order.
    pub parts: Items<Part>,
}

/// What a symbol is doing in a text, as far as what follows can't change it. The first symbol of an objective or of
/// a row may be its label.
#[derive(Clone, Copy, Debug, PartialEq, Eq)]
pub enum Site {
    ObjectiveFirst,
    ObjectiveMore,
    RowFirst,
    RowMore,
    Listed,
    Other,
}

/// The bytes at a place.
pub fn bytes_at(text: &[u8], place: TextRange) -> &[u8]
    ensures { result.now ≡ name_in text.now place }
{
    let to = place.to.min(text.len());
    let from = place.from.min(to);
    &text[from..to]
}

/// The name at a place.
pub fn name_at(text: &[u8], place: TextRange) -> &str
    requires { IsTrue (is_name (name_in text.now place)) }
    ensures { result.now ≡ name_in text.now place }
{
    str::from_utf8(bytes_at(text, place)).unwrap()
}
