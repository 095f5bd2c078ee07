// Whole numbers and infinities, and the ends of spans.
ghost use Rattle.std.specs.Prelude.{◌≡◌};
ghost use Rattle.lp_semantics.specs.Meaning.{extended_le, greater, lesser};

/// A whole number or an infinity.
#[derive(Clone, Copy, Debug, PartialEq, Eq)]
pub enum Extended {
    Below,
    Whole(i64),
    Above,
}

/// A span's ends, which may be infinite or crossed.
#[derive(Clone, Copy, Debug, PartialEq, Eq)]
pub struct Ends {
    /// The lower end.
    pub lo: Extended,
    /// The upper end, included; it may be below the lower one.
    pub hi: Extended,
}

/// Whether a is at most b.
pub fn is_at_most(a: &Extended, b: &Extended) -> bool
    ensures { result ≡ extended_le a.now b.now }
{
    match (a, b) {
        (Extended::Below, _) | (_, Extended::Above) => true,
        (Extended::Whole(a), Extended::Whole(b)) => a <= b,
        _ => false,
    }
}

/// The greater of both.
pub fn greater_of(a: &Extended, b: &Extended) -> Extended
    ensures { result ≡ greater a.now b.now }
{
    if is_at_most(a, b) { *b } else { *a }
}

/// The lesser of both.
pub fn lesser_of(a: &Extended, b: &Extended) -> Extended
    ensures { result ≡ lesser a.now b.now }
{
    if is_at_most(a, b) { *a } else { *b }
}
