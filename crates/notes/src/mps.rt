// MPS texts, which are no LP texts, known by their first section.
use std::str;

/// What to do about an MPS text that was given as a model.
pub const MPS: &str =
    "this is MPS: `glpsol --freemps model.mps --wlp model.lp`, or PuLP, writes LP";

/// Whether a text is MPS: its first word behind blank lines and comments, which begin with `*`, is NAME or ROWS.
pub fn is_mps(text: &[u8]) -> bool {
    let text = str::from_utf8(text).unwrap_or("");
    for line in text.lines() {
        if !line.starts_with("*") {
            if let Some(word) = line.split_whitespace().next() {
                return word == "NAME" || word == "ROWS";
            }
        }
    }
    false
}
