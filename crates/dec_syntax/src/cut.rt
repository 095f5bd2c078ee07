// The cut of a text into words.
ghost use Rattle.std.specs.Prelude.{◌≡◌, ◌+◌, ◌-◌, ◌<◌, ◌≤◌, ◌^◌, ◌∷◌, [], List, ℕ, true, false, length, drop, slice_range, slice_index, IsTrue, IfSome, IfNone, MatchOption};
ghost use Rattle.std.specs.List.{list_all};
ghost use Rattle.dec_syntax.specs.Cut.{is_white, end_line as specs_end_line};
ghost use Rattle.dec_syntax.specs.Scan.{is_word_byte, begins, tokens_left, tokens_at, token_in, StandsIn, IsNext};

/// A place in a text: its line, and whether no word stands before it in its line.
#[derive(Clone, Copy, Debug)]
pub struct Cursor {
    /// The place, from 0 up to the length of the text.
    pub at: usize,
    /// The line of the place, from 1.
    pub line: u32,
    /// Whether no word stands before it in its line: only then may a keyword come.
    pub first: bool,
}

/// A word: the slice `from..to` of the text, its line, and whether it is the first of its line.
#[derive(Clone, Copy, Debug)]
pub struct Word {
    /// Where the first byte stands, from 0.
    pub from: usize,
    /// One place behind the last byte.
    pub to: usize,
    /// The line that it stands on, from 1.
    pub line: u32,
    /// Whether it is the first word of its line: only then may it be a keyword.
    pub first: bool,
}

/// A place between words: its line, whether no word stands before it in its line, whether it is in a comment.
#[derive(Clone, Copy, Debug)]
pub struct Blank {
    /// The line of the place, from 1.
    pub line: u32,
    /// Whether no word stands before it in its line; blanks and comments are none.
    pub first: bool,
    /// Whether it is in a comment, which goes from a backslash to the end of its line.
    pub comment: bool,
}

// Whether a byte is white space.
fn is_white_byte(b: u8) -> bool
    ensures { result ≡ is_white b }
{
    b == b' ' || b == b'\t' || b == b'\r' || b == b'\n'
}

// Whether a byte is of a word.
fn is_of_word(b: u8) -> bool
    ensures { result ≡ is_word_byte b }
{
    !(is_white_byte(b) || b == b'\\')
}

// What stands behind a byte between words; none where the byte begins a word.
fn passed(blank: Blank, b: u8) -> Option<Blank>
    requires { blank.line + 1 < 2 ^ 32 }
    ensures left { IfSome result (λ next. (rest : List ℕ) →
        tokens_left blank (b ∷ rest) ≡ tokens_left next rest) }
    ensures line { IfSome result (λ next. next.line ≤ blank.line + 1) }
    ensures word { IfNone result (is_word_byte b ≡ true) }
    ensures clear { IfNone result (blank.comment ≡ false) }
{
    if b == b'\n' {
        return Some(Blank {
            line: blank.line + 1,
            first: true,
            comment: false,
        });
    }
    if blank.comment {
        return Some(blank);
    }
    if b == b'\\' {
        return Some(Blank {
            line: blank.line,
            first: blank.first,
            comment: true,
        });
    }
    if is_white_byte(b) {
        return Some(blank);
    }
    None
}

// The first place from a cursor on where a word begins, or the text's end.
fn skip_blanks(text: &[u8], from: Cursor) -> Cursor
    requires { StandsIn text.now from }
    ensures stands { StandsIn text.now result }
    ensures onward { from.at ≤ result.at }
    ensures same { tokens_at text.now from ≡ tokens_at text.now result }
    ensures word { result.at < length text.now →
        is_word_byte (slice_index text.now result.at) ≡ true }
{
    let mut at = from.at;
    let mut blank = Blank {
        line: from.line,
        first: from.first,
        comment: false,
    };
    while at < text.len() {
        let Some(next) = passed(blank, text[at]) else {
            return Cursor {
                at,
                line: blank.line,
                first: blank.first,
            };
        };
        blank = next;
        at += 1;
    }
    Cursor {
        at,
        line: blank.line,
        first: blank.first,
    }
}

// Where the word ends that stands at a place.
fn word_end(text: &[u8], from: usize) -> usize
    requires { from ≤ length text.now }
    ensures ordered { from ≤ result }
    ensures inside { result ≤ length text.now }
    ensures word { list_all is_word_byte (slice_range text.now from result) ≡ true }
    ensures stop { begins is_word_byte (drop result text.now) ≡ false }
{
    let mut at = from;
    while at < text.len() {
        if !is_of_word(text[at]) {
            return at;
        }
        at += 1;
    }
    at
}

/// The next word from a cursor on and the cursor behind it; none where no word is left.
pub fn next_word(text: &[u8], from: Cursor) -> Option<(Word, Cursor)>
    requires { StandsIn text.now from }
    ensures { MatchOption result (tokens_at text.now from ≡ [])
        (λ next. IsNext text.now from next.0 next.1) }
{
    let start = skip_blanks(text, from);
    if start.at == text.len() {
        return None;
    }
    let to = word_end(text, start.at);
    let word = Word {
        from: start.at,
        to,
        line: start.line,
        first: start.first,
    };
    let next = Cursor {
        at: to,
        line: start.line,
        first: false,
    };
    Some((word, next))
}

/// The line of a text's end.
pub fn end_line(text: &[u8]) -> u32
    requires { length text.now < 2 ^ 31 }
    ensures { result ≡ specs_end_line text.now }
{
    1 + text.iter().filter(|b| **b == b'\n').count() as u32
}
