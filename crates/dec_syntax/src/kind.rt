// What a token or the end of a text is refused for.

/// A kind of fault of a text.
#[derive(Clone, Copy, Debug, PartialEq, Eq)]
pub enum DecKind {
    /// A byte that isn't a printed character of ASCII.
    BadByte,
    /// A token where its keyword asks for another or for none.
    Syntax,
    /// The names are those of the presolved problem.
    Presolved,
    /// Blocks are named before they are counted, or never counted.
    NoNblocks,
    /// A block's number that isn't from 1 to the number of blocks.
    BlockNumber,
    /// A name that no row has.
    UnknownRow,
    /// A row's second listing.
    RowTwice,
    /// A row that must be listed and isn't.
    Unassigned,
    /// A name that no variable has.
    UnknownVar,
    /// A text that is too long, or too many blocks.
    Limit,
}
