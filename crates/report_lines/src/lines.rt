// Lines of words and numbers.
ghost use Rattle.std.specs.Prelude.{◌≡◌, ◌++◌, IfOk, OnOk, codes, decimal};
ghost use Rattle.std.specs.Fmt.{signed_decimal};
ghost use Rattle.report_lines.specs.Lines.{count_line, value_line, fault_line};

use itoa::Buffer;
use std::alloc::{AllocError, Global};

/// A line more: a word with the space behind it, and a count.
pub fn push_count_line(text: &mut Vec<u8>, word: &[u8], count: u64) -> Result<(), AllocError>
    ensures { OnOk result (text.new.items ≡ text.old.items ++ count_line word.now count) }
{
    text.extend_from_slice(word)?;
    push_count(text, count)?;
    text.extend_from_slice(b"\n")
}

/// A line more: a word with the space behind it, and a value.
pub fn push_value_line(text: &mut Vec<u8>, word: &[u8], value: &i128) -> Result<(), AllocError>
    ensures { OnOk result (text.new.items ≡ text.old.items ++ value_line word.now value.now) }
{
    text.extend_from_slice(word)?;
    text.extend_from_slice(Buffer::new().format(*value).as_bytes())?;
    text.extend_from_slice(b"\n")
}

/// The line of a fault: words with the space behind them, the number of a line and a kind.
pub fn push_fault(
    text: &mut Vec<u8>,
    words: &[u8],
    line: u64,
    kind: &[u8],
) -> Result<(), AllocError>
    ensures { OnOk result (text.new.items ≡ text.old.items ++ fault_line words.now line kind.now) }
{
    text.extend_from_slice(words)?;
    push_count(text, line)?;
    text.extend_from_slice(b" ")?;
    text.extend_from_slice(kind)?;
    text.extend_from_slice(b"\n")
}

/// The line of a fault as a text.
pub fn fault_text(
    alloc: Global,
    words: &[u8],
    line: u64,
    kind: &[u8],
) -> Result<Vec<u8>, AllocError>
    ensures { IfOk result (λ text. text.items ≡ fault_line words.now line kind.now) }
{
    let mut text = Vec::new(alloc);
    push_fault(&mut text, words, line, kind)?;
    Ok(text)
}

/// Adds a count in decimal digits.
pub fn push_count(text: &mut Vec<u8>, count: u64) -> Result<(), AllocError>
    ensures { OnOk result (text.new.items ≡ text.old.items ++ decimal count) }
{
    text.extend_from_slice(Buffer::new().format(count).as_bytes())
}

/// Adds a whole number in decimal digits, with a sign below 0 alone.
pub fn push_value(text: &mut Vec<u8>, value: &i64) -> Result<(), AllocError>
    ensures { OnOk result (text.new.items ≡ text.old.items ++ signed_decimal value.now) }
{
    text.extend_from_slice(Buffer::new().format(*value).as_bytes())
}

/// A word with the spaces around it, and a number of things.
pub fn push_named(text: &mut Vec<u8>, word: &[u8], number: u64) -> Result<(), AllocError>
    ensures { OnOk result (text.new.items ≡ text.old.items ++ word.now ++ decimal number) }
{
    text.extend_from_slice(word)?;
    push_count(text, number)
}
