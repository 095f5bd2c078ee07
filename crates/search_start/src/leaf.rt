// The open leaf of a certificate's tree that a number names.
ghost use Rattle.std.specs.Prelude.{◌≡◌, ◌≤◌, [], map, reverse, IfOk};
ghost use Rattle.cert_format.specs.Sketch.{tree_of};
ghost use Rattle.search_start.specs.Leaves.{open_path, side_of, paths_above, paths_at, nodes_above, nodes_at};

use bp_theory::Items;
use cert_text::Sketch;
use search_laws::Side;
use std::alloc::{AllocError, Global};

// A fork above a node.
#[derive(Drop)]
enum Above<'a> {
    // The node stands in its low part; its high part is still to come.
    Low(&'a Sketch),
    // The node stands in its high part.
    High,
}

/// The path of an open leaf of a certificate's tree, by its number in the order of their lines, from 1. None exactly
/// where there is no such leaf.
#[tactic(auto, using(crate::proofs::Paths::passed_open))]
pub fn open_path(
    alloc: Global,
    tree: &Sketch,
    number: u64,
) -> Result<Option<Items<Side>>, AllocError>
    ensures { IfOk result (λ path. path ≡ open_path (tree_of tree.now) number) }
{
    if number == 0 {
        return Ok(None);
    }
    let mut left = number - 1;
    let mut above: Vec<Above> = Vec::new(alloc);
    let mut here = Some(tree);
    while let Some(node) = here {
        match node {
            Sketch::Fork { low, high, .. } => {
                above.push(Above::Low(high))?;
                here = Some(low);
            }
            Sketch::Leaf(_) => here = next_high(&mut above)?,
            Sketch::Open(_) => {
                if left == 0 {
                    return Ok(Some(sides_of(alloc, above.as_slice())?));
                }
                left -= 1;
                here = next_high(&mut above)?;
            }
        }
    }
    Ok(None)
}

// Goes to the nearest high part that is still to come, if there is one.
fn next_high<'a>(above: &mut Vec<Above<'a>>) -> Result<Option<&'a Sketch>, AllocError>
    ensures paths { IfOk result (λ node. paths_at node (reverse above.new.items) ≡
        paths_above (reverse above.old.items) []) }
    ensures fewer { IfOk result (λ node. nodes_at node (reverse above.new.items) ≤
        nodes_above (reverse above.old.items)) }
{
    while let Some(fork) = above.pop() {
        match fork {
            Above::Low(high) => {
                above.push(Above::High)?;
                return Ok(Some(high));
            }
            Above::High => {}
        }
    }
    Ok(None)
}

// The path of a node below these forks, the first of which is the root.
fn sides_of(alloc: Global, above: &[Above]) -> Result<Items<Side>, AllocError>
    ensures { IfOk result (λ path. path ≡ map side_of above.now) }
{
    let mut path = Items::new(alloc);
    for fork in above {
        path.push(side_of(fork))?;
    }
    Ok(path)
}

// The part of a fork in which the node stands.
fn side_of(fork: &Above) -> Side
    ensures { result ≡ side_of fork.now }
{
    match fork {
        Above::Low(_) => Side::Low,
        Above::High => Side::High,
    }
}
