//! The syntax of LP texts: their tokens as symbols of the grammar, with the worth of written numbers, and the syntax
//! tree of a text, whose names are places in the text.
#![tactic(auto)]

mod cursor;
mod number;
mod symbol;
mod tree;

pub use cursor::{Cursor, first_cursor, next_symbol};
pub use symbol::Symbol;
pub use tree::{
    Bound, Comparison, Direction, Item, Part, Row, Sign, Signed, Site, Sum, Term, TextRange, Tree,
    Value, bytes_at, name_at,
};
