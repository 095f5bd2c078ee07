// The words of a certificate's text.
ghost use Rattle.std.specs.Prelude.{◌≡◌};
ghost use Rattle.cert_format.specs.Words.{word_text, word_begins, is_line_end};

/// The words of a certificate's text, with their spaces, and a line's end.
#[derive(Clone, Copy)]
pub enum Word {
    Bpcert,
    One,
    Two,
    Three,
    LineEnd,
    Claim,
    Optimal,
    Infeasible,
    Bound,
    Value,
    Point,
    Space,
    Cut,
    Leaf,
    Open,
    Split,
    Rows,
    Change,
    Priced,
    All,
    End,
}

/// The bytes of a word.
pub fn bytes_of(word: Word) -> &'static [u8]
    ensures { result.now ≡ word_text word }
{
    match word {
        Word::Bpcert => b"bpcert ",
        Word::One => b"1",
        Word::Two => b"2",
        Word::Three => b"3",
        Word::LineEnd => b"\n",
        Word::Claim => b"claim ",
        Word::Optimal => b"optimal ",
        Word::Infeasible => b"infeasible",
        Word::Bound => b"bound ",
        Word::Value => b" value ",
        Word::Point => b"point",
        Word::Space => b" ",
        Word::Cut => b"cut ",
        Word::Leaf => b"leaf ",
        Word::Open => b"open ",
        Word::Split => b"split ",
        Word::Rows => b" rows ",
        Word::Change => b" change ",
        Word::Priced => b" priced ",
        Word::All => b"all",
        Word::End => b"end",
    }
}

/// Whether a word begins with a byte.
pub fn begins(word: Word, byte: u8) -> bool
    ensures { result ≡ word_begins word byte }
{
    bytes_of(word)[0] == byte
}

/// Whether a word is a line's end.
pub fn ends_line(word: Word) -> bool
    ensures { result ≡ is_line_end word }
{
    match word {
        Word::LineEnd => true,
        _ => false,
    }
}
