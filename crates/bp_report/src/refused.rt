// The reports on words and texts that are refused.
ghost use Rattle.std.specs.Prelude.{◌≡◌, ◌++◌, IfOk, OnOk};
ghost use Rattle.std.specs.Option.{option_map};
ghost use Rattle.bp_report.specs.Refusals.{words_refusal, lp_refusal, dec_refusal, cert_refusal, from_refusal, merge_refusal, leaf_refusal, rows_refusal, links_refusal, var_place_line, blocks_refusal, HasNamed, CanName, refusal_report};

use block_form::BlockFault;
use bp_model::Model;
use cert_format::{CertFault, CertKind};
use dec_read::{DecFault, DecKind};
use dec_write::{RowsFault, RowsKind};
use lp_token::{LpFault, LpKind};
use report_lines::{
    cert_kind_name, dec_kind_name, fault_text, lp_kind_name, push_count_line, rows_kind_name,
};
use std::alloc::{AllocError, Global};

/// What is refused, and why.
#[derive(Drop)]
pub enum Refusal {
    /// The words are no command line.
    Words,
    /// The LP text.
    Lp(LpFault),
    /// The text of the decomposition.
    Dec(DecFault),
    /// The text of the certificate.
    Cert(CertFault),
    /// The blocks that the decomposition makes.
    Blocks(BlockFault),
    /// The list of master rows, or the number of blocks beside them.
    Rows(RowsFault),
}

/// The report on what is refused. Refused blocks are told by the model's names, so it is there with them. Want of memory
/// has no report: its text is empty.
pub fn refusal_text(alloc: Global, m: Option<&Model>, what: &Refusal) -> Result<Vec<u8>, AllocError>
    requires { CanName (option_map (λ m. m.now) m) what.now }
    ensures { IfOk result (λ text. text.items ≡ refusal_report (option_map (λ m. m.now) m.entry)
        what.now) }
{
    match what {
        Refusal::Words => words_text(alloc),
        Refusal::Lp(LpFault::At { line, kind }) => lp_text(alloc, *line, *kind),
        Refusal::Dec(DecFault::At { line, kind }) => dec_text(alloc, *line, *kind),
        Refusal::Cert(CertFault::At { line, kind }) => cert_text(alloc, *line, *kind),
        Refusal::Rows(RowsFault::At { line, kind }) => rows_text(alloc, *line, *kind),
        Refusal::Blocks(fault) => match m {
            Some(m) => blocks_text(alloc, m, fault),
            None => Ok(Vec::new(alloc)),
        },
        Refusal::Lp(LpFault::NoMemory)
        | Refusal::Dec(DecFault::NoMemory)
        | Refusal::Cert(CertFault::NoMemory)
        | Refusal::Rows(RowsFault::NoMemory) => Ok(Vec::new(alloc)),
    }
}

/// The report on words that are no command line.
pub fn words_text(alloc: Global) -> Result<Vec<u8>, AllocError>
    ensures { IfOk result (λ text. text.items ≡ words_refusal) }
{
    Vec::from_slice(alloc, b"refused words\n")
}

/// The report on an LP text whose first fault is of this kind and on this line.
pub fn lp_text(alloc: Global, line: u32, kind: LpKind) -> Result<Vec<u8>, AllocError>
    ensures { IfOk result (λ text. text.items ≡ lp_refusal line kind) }
{
    fault_text(alloc, b"refused lp ", line as u64, lp_kind_name(kind))
}

/// The report on the text of a decomposition whose first fault is of this kind and on this line.
pub fn dec_text(alloc: Global, line: u32, kind: DecKind) -> Result<Vec<u8>, AllocError>
    ensures { IfOk result (λ text. text.items ≡ dec_refusal line kind) }
{
    fault_text(alloc, b"refused dec ", line as u64, dec_kind_name(kind))
}

/// The report on the text of a certificate whose first fault is of this kind and on this line.
pub fn cert_text(alloc: Global, line: u64, kind: CertKind) -> Result<Vec<u8>, AllocError>
    ensures { IfOk result (λ text. text.items ≡ cert_refusal line kind) }
{
    fault_text(alloc, b"refused cert ", line, cert_kind_name(kind))
}

/// The report on a certificate to go on from, whose leaf of this line would be live and is too deep.
pub fn from_text(alloc: Global, line: u64) -> Result<Vec<u8>, AllocError>
    ensures { IfOk result (λ text. text.items ≡ from_refusal line) }
{
    fault_text(alloc, b"refused from ", line, b"depth")
}

/// The report on two certificates to merge, of which the second has another cut on this line than the first.
pub fn merge_text(alloc: Global, line: u64) -> Result<Vec<u8>, AllocError>
    ensures { IfOk result (λ text. text.items ≡ merge_refusal line) }
{
    fault_text(alloc, b"refused merge ", line, b"cuts")
}

/// The report on a certificate to go on from that has no open leaf of this number.
pub fn leaf_text(alloc: Global, number: u64) -> Result<Vec<u8>, AllocError>
    ensures { IfOk result (λ text. text.items ≡ leaf_refusal number) }
{
    let mut text = Vec::new(alloc);
    push_count_line(&mut text, b"refused leaf ", number)?;
    Ok(text)
}

/// The report on a list of master rows whose first fault is of this kind and on this line, or that leaves too many blocks.
pub fn rows_text(alloc: Global, line: u32, kind: RowsKind) -> Result<Vec<u8>, AllocError>
    ensures { IfOk result (λ text. text.items ≡ rows_refusal line kind) }
{
    fault_text(alloc, b"refused rows ", line as u64, rows_kind_name(kind))
}

/// The report on a decomposition of this model whose blocks are refused. Want of memory has no report: its text is
/// empty.
pub fn blocks_text(alloc: Global, m: &Model, fault: &BlockFault) -> Result<Vec<u8>, AllocError>
    requires { HasNamed m.now fault.now }
    ensures { IfOk result (λ text. text.items ≡ blocks_refusal m.now fault.now) }
{
    match fault {
        BlockFault::VarPlace(var) => var_place_text(alloc, m.name(*var)),
        BlockFault::Links => links_text(alloc),
        BlockFault::NoMemory => Ok(Vec::new(alloc)),
    }
}

// The report on link rows that are too many or too large.
fn links_text(alloc: Global) -> Result<Vec<u8>, AllocError>
    ensures { IfOk result (λ text. text.items ≡ links_refusal) }
{
    Vec::from_slice(alloc, b"refused blocks links\n")
}

// The report on a misplaced variable.
fn var_place_text(alloc: Global, var: &str) -> Result<Vec<u8>, AllocError>
    ensures { IfOk result (λ text. text.items ≡ var_place_line var.now) }
{
    let mut text = Vec::from_slice(alloc, b"refused blocks var-place ")?;
    text.extend_from_slice(var.as_bytes())?;
    text.extend_from_slice(b"\n")?;
    Ok(text)
}
