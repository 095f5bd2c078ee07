// What adding a point to a pool answers.

/// What a pool holds of an added point.
#[derive(Clone, Copy, Debug, PartialEq, Eq)]
pub enum Added {
    /// The point went last: it is the column of this number.
    New(u32),
    /// The point was there: it is the column of this number.
    Known(u32),
}

/// What a point is refused for.
#[derive(Clone, Copy, Debug, PartialEq, Eq)]
pub enum PoolFault {
    /// The number of the variable at this place lies outside its span at the root.
    Outside(u32),
    /// The point doesn't meet the block's row at this place.
    Row(u32),
    /// The pool is full, and the point isn't there.
    Full,
    /// Want of memory.
    NoMemory,
}
