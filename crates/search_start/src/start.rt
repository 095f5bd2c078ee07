// From where a search goes on, and where in its tree it works: the tree of a certificate's file, or the start.
ghost use Rattle.std.specs.Prelude.{◌≡◌, ℕ, List, [], Option, Err, IfOk, IsErrOf, IsTrue, Some};
ghost use Rattle.std.specs.Option.{option_map};
ghost use Rattle.bp_theory.specs.Claims.{IsCertified};
ghost use Rattle.bp_shelf.specs.Shelf.{CountsFailed};
ghost use Rattle.bp_shelf.specs.declared.shelf.ShelfFault.TheVariants.{Missing};
ghost use Rattle.block_program.specs.Blocked.{BlockedProgram};
ghost use Rattle.cert_format.specs.Kept.{certificate_of};
ghost use Rattle.cert_text.specs.Programs.{GoesWith, ReadsFor};
ghost use Rattle.branch_tree.specs.Loads.{IsLoaded};
ghost use Rattle.cert_load.specs.Loadings.{IsLoadedOf};
ghost use Rattle.cert_load.specs.Recut.{with_cuts};
ghost use Rattle.search_start.specs.Starts.{IsReady, StartsBy, StartsOf, StartsAfresh, HasStart, LacksStart, CanBegin};

use crate::cuts::with_added;
use crate::leaf::open_path;
use block_program::Blocked;
use bp_report::{cert_text, from_text, leaf_text};
use bp_shelf::{Shelf, ShelfFault};
use bp_theory::Items;
use branch_tree::Loaded;
use cert_check::{Judged, check as judge};
use cert_input::read_file;
use cert_load::{LoadFault, load, with_cuts_of};
use cert_report::check_text;
use cert_text::{Cert, CertFault};
use frontend::Reply;
use search_laws::Side;
use std::alloc::{AllocError, Global};

/// From where a search begins.
#[derive(Drop)]
pub enum Start {
    /// Over this program in blocks, which has the search's cuts: from a tree that was loaded, or from the planted one; everywhere
    /// in the tree, or at a path and below it alone where there is one.
    Ready(Blocked, Option<Loaded>, Option<Items<Side>>),
    /// From nowhere: a file is no start, and this is printed for it.
    Refused(Reply),
}

/// The start that a named file gives, or the planted tree where none is named, over the program with cuts: those of the file's
/// certificate, and behind them at most so many further ones. Where the number of a leaf is given, the search is to work at that
/// open leaf of the file's certificate and below it alone.
pub fn begin<F: Shelf>(
    alloc: Global,
    shelf: &mut F,
    b: Blocked,
    from: Option<&str>,
    leaf: Option<u64>,
    cuts: u32,
) -> Result<Start, ShelfFault>
    requires uncut { b.cuts ≡ [] }
    ensures start { IsTrue (F.tells shelf.old) →
        IfOk result (HasStart (F.file shelf.old) (option_map (λ name. name.now) from.entry)
        leaf cuts b) }
    ensures usable { IfOk result (CanBegin leaf) }
    ensures missing { IsTrue (F.tells shelf.old) → IsErrOf result ShelfFault.Missing →
        LacksStart (F.file shelf.old) (option_map (λ name. name.now) from.entry) }
    ensures told { F.tells shelf.new ≡ F.tells shelf.old }
    ensures files { F.file shelf.new ≡ F.file shelf.old }
    ensures cause { CountsFailed (F.read_faults shelf.old) (F.read_faults shelf.new) result }
    ensures writes { F.write_faults shelf.new ≡ F.write_faults shelf.old }
{
    match from {
        None => Ok(begin_afresh(alloc, b, cuts)?),
        Some(name) => begin_from(alloc, shelf, &b, name, leaf, cuts),
    }
}

// The start without a file.
fn begin_afresh(alloc: Global, b: Blocked, cuts: u32) -> Result<Start, AllocError>
    requires { b.cuts ≡ [] }
    ensures { IfOk result (StartsAfresh b cuts) }
{
    let c = with_added(alloc, b, cuts)?;
    Ok(Start::Ready(c, None, None))
}

// The start that a file gives.
fn begin_from<F: Shelf>(
    alloc: Global,
    shelf: &mut F,
    b: &Blocked,
    name: &str,
    leaf: Option<u64>,
    cuts: u32,
) -> Result<Start, ShelfFault>
    requires uncut { b.now.cuts ≡ [] }
    ensures start { IsTrue (F.tells shelf.old) →
        IfOk result (HasStart (F.file shelf.old) (Some name.now) leaf cuts b.now) }
    ensures usable { IfOk result (CanBegin leaf) }
    ensures missing { IsTrue (F.tells shelf.old) → IsErrOf result ShelfFault.Missing →
        LacksStart (F.file shelf.old) (Some name.now) }
    ensures told { F.tells shelf.new ≡ F.tells shelf.old }
    ensures files { F.file shelf.new ≡ F.file shelf.old }
    ensures cause { CountsFailed (F.read_faults shelf.old) (F.read_faults shelf.new) result }
    ensures writes { F.write_faults shelf.new ≡ F.write_faults shelf.old }
{
    let read = read_file(alloc, shelf, name, b)?;
    Ok(start_of(alloc, b, read, leaf, cuts)?)
}

// The start that a text gives, of which this was read.
fn start_of(
    alloc: Global,
    b: &Blocked,
    read: Result<Cert, CertFault>,
    leaf: Option<u64>,
    cuts: u32,
) -> Result<Start, AllocError>
    requires uncut { b.now.cuts ≡ [] }
    requires goes_with { IfOk read (λ cert. GoesWith b.now (certificate_of cert)) }
    ensures start { (text : List ℕ) → ReadsFor b.now text read →
        IfOk result (StartsBy b.now leaf cuts text) }
    ensures usable { IfOk result (CanBegin leaf) }
{
    match read {
        Ok(cert) => judged_start(alloc, b, &cert, leaf, cuts),
        Err(fault) => refused_start(alloc, fault),
    }
}

// The start of a text with a fault: its refusal.
fn refused_start(alloc: Global, fault: CertFault) -> Result<Start, AllocError>
    ensures start { (b : BlockedProgram) (leaf : Option ℕ) (cuts : ℕ) (text : List ℕ) →
        ReadsFor b text (Err fault) → IfOk result (StartsBy b leaf cuts text) }
    ensures usable { (leaf : Option ℕ) → IfOk result (CanBegin leaf) }
{
    match fault {
        CertFault::At { line, kind } => Ok(Start::Refused(Reply {
            status: 3,
            report: cert_text(alloc, line, kind)?,
        })),
        CertFault::NoMemory => Err(AllocError),
    }
}

// The start that a certificate gives that was read.
fn judged_start(
    alloc: Global,
    b: &Blocked,
    cert: &Cert,
    leaf: Option<u64>,
    cuts: u32,
) -> Result<Start, AllocError>
    requires uncut { b.now.cuts ≡ [] }
    requires goes_with { GoesWith b.now (certificate_of cert.now) }
    ensures start { IfOk result (StartsOf b.now leaf cuts cert.now) }
    ensures usable { IfOk result (CanBegin leaf) }
{
    let judged = judge(alloc, b, cert, None)?;
    match judged {
        Judged::Accepted(_) => loaded_start(alloc, b, cert, leaf, cuts),
        Judged::Rejected { .. } => Ok(Start::Refused(Reply {
            status: 6,
            report: check_text(alloc, &judged)?,
        })),
        Judged::Unknown { .. } => unreachable!(),
    }
}

// The start that a valid certificate gives.
fn loaded_start(
    alloc: Global,
    b: &Blocked,
    cert: &Cert,
    leaf: Option<u64>,
    cuts: u32,
) -> Result<Start, AllocError>
    requires uncut { b.now.cuts ≡ [] }
    requires goes_with { GoesWith b.now (certificate_of cert.now) }
    requires valid { IsCertified b.now.named.program b.now.dec (certificate_of cert.now) }
    ensures start { IfOk result (StartsOf b.now leaf cuts cert.now) }
    ensures usable { IfOk result (CanBegin leaf) }
{
    let cut = with_cuts_of(alloc, b, cert)?;
    match load(alloc, &cut, cert) {
        Ok(from) => placed_start(alloc, b, cut, cert, from, leaf, cuts),
        Err(LoadFault::Deep(line)) => Ok(Start::Refused(Reply {
            status: 3,
            report: from_text(alloc, line)?,
        })),
        Err(LoadFault::NoMemory) => Err(AllocError),
    }
}

// The start that a loaded certificate gives, by the number of an open leaf where one is given. The program has the certificate's
// cuts.
fn placed_start(
    alloc: Global,
    b: &Blocked,
    cut: Blocked,
    cert: &Cert,
    from: Loaded,
    leaf: Option<u64>,
    cuts: u32,
) -> Result<Start, AllocError>
    requires cut { cut ≡ with_cuts b.now (certificate_of cert.now).cuts }
    requires valid { IsCertified b.now.named.program b.now.dec (certificate_of cert.now) }
    requires loaded { IsLoadedOf cut (certificate_of cert.now) from }
    ensures start { IfOk result (StartsOf b.now leaf cuts cert.now) }
    ensures usable { IfOk result (CanBegin leaf) }
{
    match leaf {
        None => ready_start(alloc, cut, from, None, cuts),
        Some(number) => match open_path(alloc, cert.tree(), number)? {
            Some(path) => ready_start(alloc, cut, from, Some(path), cuts),
            None => Ok(Start::Refused(Reply {
                status: 3,
                report: leaf_text(alloc, number)?,
            })),
        },
    }
}

// A loaded tree as a start. The search goes on over its program with further cuts, which are added only now: what is loaded has
// the certificate's cuts alone.
fn ready_start(
    alloc: Global,
    cut: Blocked,
    from: Loaded,
    below: Option<Items<Side>>,
    cuts: u32,
) -> Result<Start, AllocError>
    requires { IsLoaded cut from }
    ensures { IfOk result (IsReady cut from below cuts) }
{
    // For the proof alone: `cut` is formed.
    let _ = cut.blocks();
    let c = with_added(alloc, cut, cuts)?;
    Ok(Start::Ready(c, Some(from), below))
}
