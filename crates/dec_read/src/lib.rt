//! Texts of decompositions in the format of GCG's DEC files, in a profile of their own: the decomposition of a model
//! that a text means, or its first fault, by line and kind.
#![tactic(auto)]

mod fault;

ghost use Rattle.std.specs.Prelude.{◌≡◌, ◌≤◌, ◌⊎◌, [], ℕ, List, length, IfOk, IfErr};
ghost use Rattle.bp_theory.specs.Decomposition.{Decomposition, HasPlaces};
ghost use Rattle.bp_theory.specs.Limits.{most_blocks, most_bytes};
ghost use Rattle.bp_model.specs.Dec.{HasListed};
ghost use Rattle.bp_model.specs.Named.{NamedProgram};
ghost use Rattle.dec_syntax.specs.State.{Keeps};
ghost use Rattle.dec_syntax.specs.declared.kind.DecKind.{DecKind};
ghost use Rattle.dec_read.specs.Reading.{ReadsDecomposition, HasDecTextFault, IsFault};

use bp_model::{Dec, Model};
pub use dec_syntax::DecKind;
use dec_syntax::{Cursor, Reader, end_line, next_word};
pub use fault::DecFault;
use name_table::IndexedModel;
use std::alloc::Global;

/// A text means at most one decomposition of a model.
pub fn one_decomposition()
    ensures { (text : List ℕ) (m : NamedProgram) (d e : Decomposition) →
        ReadsDecomposition text m d → ReadsDecomposition text m e → d ≡ e }
{}

/// No text both means a decomposition and has a fault.
pub fn decomposition_or_fault()
    ensures { (text : List ℕ) (m : NamedProgram) (d : Decomposition) (line : ℕ) (kind : DecKind)
        → ReadsDecomposition text m d → HasDecTextFault text m line kind → ⊥ }
{}

/// A text has at most one first fault.
pub fn one_fault()
    ensures { (text : List ℕ) (m : NamedProgram) (k l : ℕ) (a b : DecKind)
        → HasDecTextFault text m k a → HasDecTextFault text m l b → (k ≡ l) × (a ≡ b) }
{}

/// Each text means a decomposition of a model or has a first fault.
pub fn decomposition_or_first_fault()
    ensures { (text : List ℕ) (m : NamedProgram) →
        ((d : Decomposition) × ReadsDecomposition text m d) ⊎
        ((line : ℕ) × (kind : DecKind) × HasDecTextFault text m line kind) }
{}

/// The decomposition of a model that a text means, or the text's first fault.
pub fn read_dec(alloc: Global, bytes: &[u8], m: &Model) -> Result<Dec, DecFault>
    ensures dec { IfOk result (λ d. ReadsDecomposition bytes.now m.now d) }
    ensures blocks { IfOk result (λ d. d.blocks ≤ most_blocks m.now.program.limits) }
    ensures places { IfOk result (λ d. HasPlaces m.now.program d) }
    ensures listed { IfOk result (λ d. HasListed m.now.program d) }
    ensures fault { IfErr result (λ fault. IsFault bytes.now m.now fault) }
{
    if m.limits().bytes() < bytes.len() {
        return Err(DecFault::At {
            line: 0,
            kind: DecKind::Limit,
        });
    }
    let reader = Reader::new(alloc, m)?;
    let indexed = IndexedModel::of(alloc, m)?;
    read_tokens(bytes, &indexed, reader)
}

// The decomposition of a model that a text of no more than the greatest length means, or the text's first fault, by a reader
// before its first token.
fn read_tokens(bytes: &[u8], m: &IndexedModel<'_>, mut reader: Reader) -> Result<Dec, DecFault>
    requires short { length bytes.now ≤ most_bytes m.now.program.limits }
    requires keeps { Keeps m.now reader [] }
    ensures dec { IfOk result (λ d. ReadsDecomposition bytes.now m.now d) }
    ensures blocks { IfOk result (λ d. d.blocks ≤ most_blocks m.now.program.limits) }
    ensures places { IfOk result (λ d. HasPlaces m.now.program d) }
    ensures listed { IfOk result (λ d. HasListed m.now.program d) }
    ensures fault { IfErr result (λ fault. IsFault bytes.now m.now fault) }
{
    let mut cursor = Cursor {
        at: 0,
        line: 1,
        first: true,
    };
    // For the proof alone: what a model keeps.
    let _rows = m.rows();
    while let Some((word, next)) = next_word(bytes, cursor) {
        if let Some(kind) = reader.take(m, word.first, &bytes[word.from..word.to])? {
            return Err(DecFault::At {
                line: word.line,
                kind,
            });
        }
        cursor = next;
    }
    if let Some(kind) = reader.fault_at_end(m) {
        return Err(DecFault::At {
            line: end_line(bytes),
            kind,
        });
    }
    Ok(reader.into_dec(m))
}
