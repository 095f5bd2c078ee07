// The certificate of a file as a tree to merge, or why there is none.
ghost use Rattle.std.specs.Prelude.{◌≡◌, ◌⊎◌, ◌<◌, ◌^◌, ℕ, List, [], length, Err, IfOk, IfErr, IsTrue, Some};
ghost use Rattle.bp_theory.specs.Claims.{IsCertified};
ghost use Rattle.bp_shelf.specs.declared.shelf.ShelfFault.TheVariants.{NoMemory};
ghost use Rattle.block_program.specs.Blocked.{BlockedProgram};
ghost use Rattle.cert_format.specs.Fault.{IsCertText};
ghost use Rattle.cert_format.specs.Kept.{certificate_of, kept_cert};
ghost use Rattle.cert_text.specs.Programs.{GoesWith, ReadsFor, frame_for};
ghost use Rattle.cmd_certificates.specs.Opens.{IsOpenedText, IsOpenedFile, IsLoadedOver, CanJoin, RefusesFile};
ghost use Rattle.cmd_certificates.specs.Stops.{IsStop, IsTextStop, IsRefusal, CountsStopped};
ghost use Rattle.cmd_certificates.specs.declared.opening.Stop.TheVariants.{Stopped};

use block_program::Blocked;
use bp_report::{cert_text, from_text};
use bp_shelf::{Shelf, ShelfFault};
use branch_tree::Loaded;
use cert_check::{Judged, check as judge};
use cert_input::read_file;
use cert_load::{LoadFault, load, with_cuts_of};
use cert_report::check_text;
use cert_text::{Cert, CertFault};
use frontend::Reply;
use std::alloc::{AllocError, Global};

/// Why a run ends before anything is merged.
#[derive(Drop)]
pub enum Stop {
    /// A text is refused or a certificate is rejected: what is printed for it.
    Refused(Reply),
    /// A file isn't there or couldn't be read, or memory was wanting.
    Stopped(ShelfFault),
}

impl From<AllocError> for Stop {
    ghost from_gives = { λ _ stop. stop ≡ Stopped NoMemory };

    fn from(_: AllocError) -> Self {
        Stop::Stopped(ShelfFault::NoMemory)
    }
}

impl From<ShelfFault> for Stop {
    ghost from_gives = { λ fault stop. stop ≡ Stopped fault };

    fn from(fault: ShelfFault) -> Self {
        Stop::Stopped(fault)
    }
}

/// A certificate to merge: the program with its cuts, and the tree with the point that is loaded of it.
#[derive(Drop)]
pub struct Opened {
    /// The program with the certificate's cuts.
    pub program: Blocked,
    /// The tree, and the point of its value.
    pub from: Loaded,
}

/// The certificate of a file to merge, or why there is none.
pub fn open_cert<F: Shelf>(
    alloc: Global,
    shelf: &mut F,
    b: &Blocked,
    name: &str,
) -> Result<Opened, Stop>
    requires uncut { b.now.cuts ≡ [] }
    ensures opened { IsTrue (F.tells shelf.old) →
        IfOk result (IsOpenedFile (F.file shelf.old) b.now name.now) }
    ensures usable { IfOk result (CanJoin b.now) }
    ensures stopped { IsTrue (F.tells shelf.old) →
        IfErr result (IsStop (RefusesFile (F.file shelf.old) b.now name.now)) }
    ensures refusals { IfErr result IsRefusal }
    ensures told { F.tells shelf.new ≡ F.tells shelf.old }
    ensures files { F.file shelf.new ≡ F.file shelf.old }
    ensures cause { CountsStopped (F.read_faults shelf.old) (F.read_faults shelf.new) result }
    ensures writes { F.write_faults shelf.new ≡ F.write_faults shelf.old }
{
    let read = read_file(alloc, shelf, name, b)?;
    opened_of(alloc, b, read)
}

// The certificate of a text to merge, of which this was read, or why there is none.
fn opened_of(alloc: Global, b: &Blocked, read: Result<Cert, CertFault>) -> Result<Opened, Stop>
    requires uncut { b.now.cuts ≡ [] }
    requires of_text { (text : List ℕ) × ReadsFor b.now text read × (length text < 2 ^ 64) }
    requires goes_with { IfOk read (λ cert. GoesWith b.now (certificate_of cert)) }
    ensures opened { (text : List ℕ) → ReadsFor b.now text read →
        IfOk result (IsOpenedText b.now text) }
    ensures usable { IfOk result (CanJoin b.now) }
    ensures stopped { (text : List ℕ) → ReadsFor b.now text read →
        IfErr result (IsTextStop b.now text) }
    ensures refusals { IfErr result IsRefusal }
{
    // For the proof alone: `b` is formed.
    let _ = b.blocks();
    match read {
        Ok(cert) => judged(alloc, b, &cert),
        Err(fault) => Err(faulty_stop(alloc, fault)?),
    }
}

// What a text with a fault is refused for.
fn faulty_stop(alloc: Global, fault: CertFault) -> Result<Stop, AllocError>
    ensures stopped { (b : BlockedProgram) (text : List ℕ) → ReadsFor b text (Err fault) →
        IfOk result (IsTextStop b text) }
    ensures refusals { IfOk result IsRefusal }
{
    match fault {
        CertFault::At { line, kind } => Ok(Stop::Refused(Reply {
            status: 3,
            report: cert_text(alloc, line, kind)?,
        })),
        CertFault::NoMemory => Ok(Stop::Stopped(ShelfFault::NoMemory)),
    }
}

// The certificate that was read, to merge, or why there is none.
fn judged(alloc: Global, b: &Blocked, cert: &Cert) -> Result<Opened, Stop>
    requires uncut { b.now.cuts ≡ [] }
    requires goes_with { GoesWith b.now (certificate_of cert.now) }
    ensures loaded { IfOk result (IsLoadedOver b.now (certificate_of cert.now)) }
    ensures valid { IfOk result (λ opened. IsCertified b.now.named.program b.now.dec
        (certificate_of cert.now)) }
    ensures stopped { IfErr result (λ stop. (text : List ℕ) →
        IsCertText (frame_for b.now) (kept_cert cert.now) text → IsTextStop b.now text stop) }
    ensures refusals { IfErr result IsRefusal }
{
    let judged = judge(alloc, b, cert, None)?;
    match judged {
        Judged::Accepted(_) => loaded(alloc, b, cert),
        Judged::Rejected { .. } => Err(Stop::Refused(Reply {
            status: 6,
            report: check_text(alloc, &judged)?,
        })),
        Judged::Unknown { .. } => unreachable!(),
    }
}

// A valid certificate to merge, or the refusal of a live leaf that is too deep.
fn loaded(alloc: Global, b: &Blocked, cert: &Cert) -> Result<Opened, Stop>
    requires uncut { b.now.cuts ≡ [] }
    requires goes_with { GoesWith b.now (certificate_of cert.now) }
    requires valid { IsCertified b.now.named.program b.now.dec (certificate_of cert.now) }
    ensures loaded { IfOk result (IsLoadedOver b.now (certificate_of cert.now)) }
    ensures stopped { IfErr result (λ stop. (text : List ℕ) →
        IsCertText (frame_for b.now) (kept_cert cert.now) text → IsTextStop b.now text stop) }
    ensures refusals { IfErr result IsRefusal }
{
    let program = with_cuts_of(alloc, b, cert)?;
    match load(alloc, &program, cert) {
        Ok(from) => Ok(Opened { program, from }),
        Err(LoadFault::Deep(line)) => Err(Stop::Refused(Reply {
            status: 3,
            report: from_text(alloc, line)?,
        })),
        Err(LoadFault::NoMemory) => Err(Stop::Stopped(ShelfFault::NoMemory)),
    }
}
