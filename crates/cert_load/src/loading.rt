// A certificate as a tree from which a search goes on.
ghost use Rattle.std.specs.Prelude.{◌≡◌, ◌+◌, ◌<◌, ◌≤◌, length, Some, IfOk, IfSome};
ghost use Rattle.std.specs.Option.{option_map};
ghost use Rattle.bp_theory.specs.Program.{IsFeasible, cost};
ghost use Rattle.bp_theory.specs.Claims.{IsCertified};
ghost use Rattle.bp_theory.specs.Limits.{most_cuts};
ghost use Rattle.search_laws.specs.GroveFacts.{best_cost};
ghost use Rattle.cert_format.specs.Kept.{certificate_of};
ghost use Rattle.cert_text.specs.Programs.{GoesWith};
ghost use Rattle.open_nodes.specs.Trees.{tree_of};
ghost use Rattle.branch_tree.specs.Adopted.{point_in};
ghost use Rattle.tree_load.specs.Rooms.{rooms, FindsDeep, root_line};
ghost use Rattle.cert_load.specs.Loadings.{IsLoadedTree, LoadsCert};

use crate::fault::LoadFault;
use block_program::{Blocked, Zone};
use bp_theory::Items;
use branch_tree::{Grove, Loaded, Tree};
use cert_text::Cert;
use std::alloc::{AllocError, Global};
use tree_load::{Walk, load_node};

/// The tree and the best point of a valid certificate, from which a search goes on. A leaf, open or not, is shut exactly
/// where its proof shows that its zone has no point cheaper than the certificate's or, where the certificate has none, no
/// point at all; every other leaf is live, with the bound of its proof rounded up. `Deep` comes exactly where a live leaf's
/// depth and the bits of its zone are together above the greatest depth of the program's limits, with the first such line.
/// The program has the certificate's cuts.
pub fn load(alloc: Global, b: &Blocked, cert: &Cert) -> Result<Loaded, LoadFault>
    requires cuts { b.now.cuts ≡ (certificate_of cert.now).cuts }
    requires goes_with { GoesWith b.now (certificate_of cert.now) }
    requires valid { IsCertified b.now.named.program b.now.dec (certificate_of cert.now) }
    ensures { LoadsCert b.now (certificate_of cert.now) result }
{
    // For the proof alone: `b` is formed.
    let _ = b.blocks();
    let best = best_of(alloc, b, cert)?;
    let (tree, deep) = load_nodes(alloc, b, cert, &cost_in(&best))?;
    match deep {
        Some(line) => Err(LoadFault::Deep(line)),
        None => {
            let grove = Grove::adopt(alloc, b, tree)?;
            Ok(Loaded { grove, best })
        }
    }
}

// A certificate's point and its cost, where there is one.
fn best_of(alloc: Global, b: &Blocked, cert: &Cert) -> Result<Option<(Items<i64>, i64)>, AllocError>
    requires { IfSome (certificate_of cert.now).point (IsFeasible b.now.named.program) }
    ensures point { IfOk result (λ best. point_in best ≡ (certificate_of cert.now).point) }
    ensures costs { IfOk result (λ best. IfSome best (λ k. k.1 ≡ cost b.now.named.program k.0)) }
{
    match cert.point() {
        None => Ok(None),
        Some(point) => {
            let cost = b.model().cost(point);
            let copy = point.to_vec(alloc)?;
            Ok(Some((Items::from_vec(copy), cost)))
        }
    }
}

// The cost of a point, where there is one.
fn cost_in(best: &Option<(Items<i64>, i64)>) -> Option<i64>
    ensures { result ≡ option_map (λ k. k.1) best.now }
{
    match best {
        None => None,
        Some(best) => Some(best.1),
    }
}

// The line of the root of a certificate's tree.
fn root_line(cert: &Cert) -> u64
    requires { length (certificate_of cert.now).cuts ≤ most_cuts }
    ensures { result ≡ root_line (certificate_of cert.now).point (certificate_of cert.now).cuts }
{
    let first = match cert.point() {
        None => 3,
        Some(_) => 4,
    };
    first + cert.cuts().len() as u64
}

// The tree that a certificate's is loaded as, and the line of the first live leaf that is too deep, where there is one.
fn load_nodes(
    alloc: Global,
    b: &Blocked,
    cert: &Cert,
    best: &Option<i64>,
) -> Result<(Tree, Option<u64>), AllocError>
    requires cuts { b.now.cuts ≡ (certificate_of cert.now).cuts }
    requires goes_with { GoesWith b.now (certificate_of cert.now) }
    requires valid { IsCertified b.now.named.program b.now.dec (certificate_of cert.now) }
    requires best { best.now ≡ best_cost b.now.named.program (certificate_of cert.now).point }
    ensures loads { IfOk result (λ r. IsLoadedTree b.now (certificate_of cert.now) (tree_of r.0)) }
    ensures deep { IfOk result (λ r. FindsDeep b.now.named.program.limits (rooms (tree_of r.0) 0 b.now.named.program.spans)
        (root_line (certificate_of cert.now).point (certificate_of cert.now).cuts) r.1) }
{
    // For the proof alone: `b` is formed.
    let _ = b.blocks();
    let zone = Zone::root(alloc, b)?;
    let line = root_line(cert);
    let at = Walk {
        zone,
        depth: 0,
        line,
        deep: None,
    };
    let mut work = None;
    let (tree, end) = load_node(alloc, b, best, &mut work, at, cert.tree())?;
    Ok((Box::into_inner(tree), end.deep))
}
