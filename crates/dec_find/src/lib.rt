//! Decompositions for given master rows, which a text lists or a caller marks: the rows that are left stand in blocks, two in one
//! block exactly where shared variables join them. The text of a decomposition.
#![tactic(auto)]

mod marked;
mod rows;
mod text;
mod trees;

ghost use Rattle.std.specs.Prelude.{◌≡◌, ◌⊎◌, ℕ, List};
ghost use Rattle.bp_theory.specs.Program.{Program};
ghost use Rattle.bp_theory.specs.Decomposition.{Decomposition, HasPlaces, IsLinking};
ghost use Rattle.bp_model.specs.Named.{NamedProgram, IsKept};
ghost use Rattle.block_form.specs.Checks.{HasBlockFault};
ghost use Rattle.block_form.specs.declared.fault.BlockFault.{BlockFault};
ghost use Rattle.block_form.specs.declared.fault.BlockFault.TheVariants as block;
ghost use Rattle.dec_write.specs.declared.fault.RowsKind.{RowsKind};
ghost use Rattle.dec_write.specs.Rows.{ListsRows, HasRowsFault};
ghost use Rattle.dec_components.specs.Joined.{Joined, IsFound, HasMaster, place_at};

pub use dec_components::FindFault;
pub use dec_write::{RowsFault, RowsKind};
pub use marked::{beside, beside_or_plain};
pub use rows::read_rows;
pub use text::dec_text;
pub use trees::find;

/// A text lists at most one list of rows.
pub fn one_list()
    ensures { (text : List ℕ) (m : NamedProgram) (rows others : List ℕ) → ListsRows text m rows →
        ListsRows text m others → rows ≡ others }
{}

/// No text both lists rows and has a fault.
pub fn list_or_fault()
    ensures { (text : List ℕ) (m : NamedProgram) (rows : List ℕ) (line : ℕ) (kind : RowsKind)
        → ListsRows text m rows → HasRowsFault text m line kind → ⊥ }
{}

/// A text has at most one first fault.
pub fn one_fault()
    ensures { (text : List ℕ) (m : NamedProgram) (k l : ℕ) (a b : RowsKind)
        → HasRowsFault text m k a → HasRowsFault text m l b → (k ≡ l) × (a ≡ b) }
{}

/// Each text lists rows or has a first fault.
pub fn list_or_first_fault()
    ensures { (text : List ℕ) (m : NamedProgram) → ((rows : List ℕ) × ListsRows text m rows) ⊎
        ((line : ℕ) × (kind : RowsKind) × HasRowsFault text m line kind) }
{}

/// A program has one decomposition beside master rows.
pub fn one_decomposition()
    ensures { (p : Program) (master : List ℕ) (d e : Decomposition) → IsFound p master d →
        IsFound p master e → d ≡ e }
{}

/// The decomposition of a model beside master rows is refused for want of memory alone.
pub fn found_is_accepted()
    ensures { (m : NamedProgram) (master : List ℕ) (d : Decomposition) (fault : BlockFault) →
        IsKept m → IsFound m.program master d → HasBlockFault m.program d fault →
        fault ≡ block.NoMemory }
{}

/// In each decomposition with these master rows and no linking variable joined rows share a block.
pub fn joined_rows_share_a_block()
    ensures { (p : Program) (master : List ℕ) (d : Decomposition) → HasPlaces p d →
        HasMaster p master d → ((v : ℕ) → IsLinking p d v → ⊥) → (r s : ℕ) → Joined p master r s →
        place_at d r ≡ place_at d s }
{}
