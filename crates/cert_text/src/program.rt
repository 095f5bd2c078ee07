// Certificates read and written for a program in blocks.
ghost use Rattle.std.specs.Prelude.{◌≡◌, IfOk, OnOk};
ghost use Rattle.block_program.specs.Blocked.{IsFormed};
ghost use Rattle.cert_format.specs.Kept.{certificate_of};
ghost use Rattle.cert_format.specs.Frames.{frame_of};
ghost use Rattle.cert_text.specs.Programs.{masters_of, links_behind, frame_for, ReadsFor, GoesWith};

use block_program::Blocked;
use bp_theory::Items;
use cert_format::{Cert, CertFault, Frame};
use cert_parser::read;
use std::alloc::{AllocError, Global};

/// Reads the text of a certificate for a program in blocks: gives the certificate, or the first fault of the text by
/// line and kind. What is read goes with the program.
pub fn read_cert(alloc: Global, bytes: &[u8], b: &Blocked) -> Result<Cert, CertFault>
    ensures read { ReadsFor b.now bytes.now result }
    ensures goes_with { IfOk result (λ cert. GoesWith b.now (certificate_of cert)) }
{
    // For the proof alone: how long `bytes` can be.
    let _size = bytes.len();
    match program_frame(alloc, b) {
        Err(_) => Err(CertFault::NoMemory),
        Ok(frame) => read(alloc, &frame, bytes),
    }
}

/// What reading a certificate needs to know of a program in blocks.
pub fn program_frame(alloc: Global, b: &Blocked) -> Result<Frame, AllocError>
    ensures frame { IfOk result (λ frame. frame_of frame ≡ frame_for b.now) }
    ensures formed { OnOk result (IsFormed b.now) }
{
    let variables = b.model().vars();
    let blocks = b.blocks();
    let limits = b.model().limits();
    let masters = master_rows(alloc, b)?;
    let links = link_rows(b);
    Ok(Frame {
        variables,
        masters,
        links,
        blocks,
        limits,
    })
}

// For each row of the model, whether proofs may name it.
fn master_rows(alloc: Global, b: &Blocked) -> Result<Items<bool>, AllocError>
    ensures { IfOk result (λ masters. masters ≡ masters_of b.now) }
{
    let rows = b.model().rows();
    let mut masters = Items::with_capacity(alloc, rows as usize)?;
    for row in 0..rows {
        masters.push(b.master_row(row).is_some())?;
    }
    Ok(masters)
}

// How many link rows there are: they come behind the model's rows and before the cuts.
fn link_rows(b: &Blocked) -> u32
    ensures { result ≡ links_behind b.now }
{
    let behind = b.named_rows() - b.model().rows();
    behind - b.cuts().len() as u32
}
