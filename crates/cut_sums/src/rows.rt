// The rows that cuts combine.
ghost use Rattle.std.specs.Prelude.{◌≡◌, ◌+◌, length};
ghost use Rattle.bp_theory.specs.Decomposition.{link_count};
ghost use Rattle.block_program.specs.Blocked.{IsFormed};

use block_program::Blocked;
use bp_theory::{Row, Span};

// The number of the first cut: behind the model's rows and the link rows.
fn first_cut(b: &Blocked) -> u32
    ensures number { result ≡ length b.now.named.program.rows + link_count b.now.named.program b.now.dec }
    ensures formed { IsFormed b.now }
{
    let behind = b.named_rows();
    behind - b.cuts().len() as u32
}

/// The rows that a cut may combine: the master rows of a program in blocks, and behind its link rows those of earlier cuts.
#[derive(Clone, Copy)]
pub struct Rows<'a> {
    /// The program.
    pub b: &'a Blocked,
    /// The rows of earlier cuts.
    pub earlier: &'a [Row],
    /// The number of the first cut.
    first: u32,
}

impl<'a> Rows<'a> {
    ghost use Rattle.std.specs.Prelude.{◌≡◌, ◌≤◌, ◌<◌, ◌↔◌, length, All, IsTrue};
    ghost use Rattle.bp_theory.specs.Decomposition.{whole_row};
    ghost use Rattle.cut_sums.specs.Cutting.{IsEarlierCut, IsWhole};
    ghost use Rattle.cut_sums.specs.Rows.{program_of, row_in, IsBounded, IsBoundedRow, IsRows};

    /// The rows of a program in blocks and those of earlier cuts in place of its own.
    pub fn make(b: &'a Blocked, earlier: &'a [Row]) -> Rows<'a>
        requires few { length earlier.now ≤ 255 }
        requires earlier { All (IsEarlierCut b.now.named.program) earlier.now }
        ensures b { result.b.now ≡ b.now }
        ensures earlier { result.earlier.now ≡ earlier.now }
        ensures rows { IsRows result }
    {
        Rows {
            b,
            earlier,
            first: first_cut(b),
        }
    }

    /// The spans of the program's variables.
    pub fn spans(&self) -> &[Span]
        ensures { result.now ≡ (program_of self.now).spans }
    {
        self.b.model().spans()
    }

    /// Whether a row is a master row or an earlier cut.
    pub fn has(&self, number: u32) -> bool
        requires { IsRows self.now }
        ensures { IsTrue result ↔ IsWhole (row_in self.now number) }
    {
        if number < self.b.model().rows() {
            return self.has_own(number);
        }
        self.has_cut(number)
    }

    // Whether a row of the model is a master row.
    fn has_own(&self, number: u32) -> bool
        requires rows { IsRows self.now }
        requires own { number < length (program_of self.now).rows }
        ensures { IsTrue result ↔ IsWhole (row_in self.now number) }
    {
        self.b.row_place(number).is_none()
    }

    // Whether a number behind the model's rows is that of an earlier cut.
    fn has_cut(&self, number: u32) -> bool
        requires rows { IsRows self.now }
        requires behind { length (program_of self.now).rows ≤ number }
        ensures { IsTrue result ↔ IsWhole (row_in self.now number) }
    {
        if number < self.first {
            return false;
        }
        if (number - self.first) as usize >= self.earlier.len() {
            return false;
        }
        true
    }

    /// A master row or an earlier cut.
    pub fn at(&self, number: u32) -> &Row
        requires rows { IsRows self.now }
        requires bounded { IsBoundedRow (program_of self.now) (row_in self.now number) }
        ensures row { row_in self.now number ≡ whole_row result.now }
        ensures bounded { IsBounded (program_of self.now) result.now }
    {
        if number < self.b.model().rows() {
            self.own(number)
        } else {
            self.cut(number)
        }
    }

    // A master row.
    fn own(&self, number: u32) -> &Row
        requires rows { IsRows self.now }
        requires own { number < length (program_of self.now).rows }
        requires bounded { IsBoundedRow (program_of self.now) (row_in self.now number) }
        ensures row { row_in self.now number ≡ whole_row result.now }
        ensures bounded { IsBounded (program_of self.now) result.now }
    {
        self.b.model().row(number)
    }

    // An earlier cut.
    fn cut(&self, number: u32) -> &Row
        requires rows { IsRows self.now }
        requires behind { length (program_of self.now).rows ≤ number }
        requires bounded { IsBoundedRow (program_of self.now) (row_in self.now number) }
        ensures row { row_in self.now number ≡ whole_row result.now }
        ensures bounded { IsBounded (program_of self.now) result.now }
    {
        &self.earlier[(number - self.first) as usize]
    }
}
