// Keywords and numbers.
ghost use Rattle.std.specs.Prelude.{◌≡◌, ◌^◌, ◌<◌, min};
ghost use Rattle.std.specs.Option.{option_map};
ghost use Rattle.std.specs.List.{list_all};
ghost use Rattle.std.specs.Char.{is_ascii_digit};
ghost use Rattle.std.specs.Str.{str_eq_ignore_ascii_case};
ghost use Rattle.dec_syntax.specs.Words.{has_bad_byte, keyword_of as specs_keyword_of, is_digits, number_of, value_of};

/// A keyword; `BLOCKCONSS` is `BLOCK`.
#[derive(Clone, Copy, Debug, PartialEq, Eq)]
pub enum Keyword {
    Presolved,
    Nblocks,
    ConsDefaultMaster,
    Block,
    MasterConss,
    BlockVars,
    MasterVars,
    LinkingVars,
}

/// What stands behind a keyword.
#[derive(Clone, Copy, Debug, PartialEq, Eq)]
pub enum Section {
    /// Nothing: no keyword has come.
    Outside,
    /// The keyword's number.
    Awaits(Keyword),
    /// Names of rows of a block (from 0) or of the master.
    Rows(Option<u32>),
    /// Names of variables of a block (from 0) or of the master.
    Vars(Option<u32>),
    /// Names of variables in rows of several blocks, which say nothing more than the rows do.
    Links,
    /// Nothing more.
    Closed,
}

/// A number that is past every limit, also the large ones; greater numbers are read as this one.
const PAST: u32 = 131_073;

/// Whether a byte isn't a printed character of ASCII.
pub fn holds_bad_byte(word: &[u8]) -> bool
    ensures { result ≡ has_bad_byte word.now }
{
    word.iter().any(|b| *b < 33 || 126 < *b)
}

// Whether two words differ in the case of letters at most.
fn is_alike(word: &[u8], other: &[u8]) -> bool
    ensures { result ≡ str_eq_ignore_ascii_case word.now other.now }
{
    word.eq_ignore_ascii_case(other)
}

#[tactic(auto, unfolding(crate::specs::Words::keyword_of))]
/// The keyword that a word is, by whether it is the first of its line.
pub fn keyword_of(first: bool, word: &[u8]) -> Option<Keyword>
    ensures { result ≡ specs_keyword_of first word.now }
{
    if !first {
        None
    } else if is_alike(word, b"PRESOLVED") {
        Some(Keyword::Presolved)
    } else if is_alike(word, b"NBLOCKS") {
        Some(Keyword::Nblocks)
    } else if is_alike(word, b"CONSDEFAULTMASTER") {
        Some(Keyword::ConsDefaultMaster)
    } else if is_alike(word, b"BLOCK") {
        Some(Keyword::Block)
    } else if is_alike(word, b"BLOCKCONSS") {
        Some(Keyword::Block)
    } else if is_alike(word, b"MASTERCONSS") {
        Some(Keyword::MasterConss)
    } else if is_alike(word, b"BLOCKVARS") {
        Some(Keyword::BlockVars)
    } else if is_alike(word, b"MASTERVARS") {
        Some(Keyword::MasterVars)
    } else if is_alike(word, b"LINKINGVARS") {
        Some(Keyword::LinkingVars)
    } else {
        None
    }
}

// Whether all bytes of a word are decimal digits.
fn has_digits_alone(word: &[u8]) -> bool
    ensures { result ≡ list_all is_ascii_digit word.now }
{
    word.iter().all(|b| b.is_ascii_digit())
}

// Whether a word is decimal digits.
fn is_number(word: &[u8]) -> bool
    ensures { result ≡ is_digits word.now }
{
    match word {
        [] => false,
        _ => has_digits_alone(word),
    }
}

// The value of digits, at most one past every limit.
fn capped_value(digits: &[u8]) -> u32
    ensures { result ≡ min (value_of digits.now) 131073 }
{
    let mut value: u32 = 0;
    for digit in digits {
        value = (10 * value + u32::from(digit.saturating_sub(b'0'))).min(PAST);
    }
    value
}

/// The number that a word is, if it is one, at most one past every limit.
pub fn number(word: &[u8]) -> Option<u32>
    ensures { result ≡ option_map (λ n. min n 131073) (number_of word.now) }
{
    if is_number(word) {
        Some(capped_value(word))
    } else {
        None
    }
}
