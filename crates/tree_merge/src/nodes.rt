// The nodes of a merged tree in preorder, each made from the nodes of the two trees that are still to come. A live leaf that
// the best cost settles comes shut.
ghost use Rattle.std.specs.Prelude.{◌≡◌, ◌∷◌, ◌++◌, [], IfOk};
ghost use Rattle.std.specs.Int.{int_min};
ghost use Rattle.search_laws.specs.Grove.{live, shut};
ghost use Rattle.search_laws.specs.Verdicts.{cheaper_cost};
ghost use Rattle.open_nodes.specs.Trees.{tree_of};
ghost use Rattle.open_nodes.specs.Nodes.{growing_nodes};
ghost use Rattle.tree_merge.specs.Merging.{same_split, raised, least_live, is_beyond, farther, merged, is_below, shut_by};
ghost use Rattle.tree_merge.specs.Coming.{coming, opened_tree, nodes_coming};

use bp_theory::Proof;
use branch_tree::{GrowingNode, SharedProof, Tree, grown};
use std::alloc::{AllocError, Global};

// A node of the merged tree that is still to come, with all below it.
#[derive(Drop)]
enum Ahead<'a> {
    // What two trees have at one node.
    Both(&'a Tree, &'a Tree),
    // A tree in place of a live leaf of this proof and bound.
    Raised(&'a Tree, &'a SharedProof, i64),
    // A tree as it is.
    Whole(&'a Tree),
}

// A node of the merged tree: a live leaf, a shut one, or a split, whose parts are still to come.
#[derive(Drop)]
enum Opened<'a> {
    Live(&'a SharedProof, i64),
    Shut(&'a SharedProof),
    Split {
        var: u32,
        at: i64,
        low: Ahead<'a>,
        high: Ahead<'a>,
    },
}

/// The two trees made into one, with the live leaves shut that the best cost settles. The list of nodes that are still to
/// come has no more than two for each level of the trees.
pub fn join(
    alloc: Global,
    cost: &Option<i64>,
    first: &Tree,
    second: &Tree,
) -> Result<Tree, AllocError>
    ensures { IfOk result (λ tree. tree_of tree ≡
        shut_by cost.now (merged (tree_of first.now) (tree_of second.now))) }
{
    let mut nodes: Vec<GrowingNode> = Vec::new(alloc);
    let mut ahead: Vec<Ahead> = Vec::new(alloc);
    ahead.push(Ahead::Both(first, second))?;
    while let Some(here) = ahead.pop() {
        let node = next_node(alloc, cost, here, &mut ahead)?;
        nodes.push(node)?;
    }
    grown(alloc, nodes)
}

// The node that comes next. Where it is a split, its parts are still to come.
fn next_node<'a>(
    alloc: Global,
    cost: &Option<i64>,
    here: Ahead<'a>,
    ahead: &mut Vec<Ahead<'a>>,
) -> Result<GrowingNode, AllocError>
    ensures { IfOk result (λ node. node ∷ nodes_coming cost.now ahead.new.items ≡
        growing_nodes (shut_by cost.now (coming here.entry)) ++ nodes_coming cost.now ahead.old.items) }
{
    match first_node(alloc, here)? {
        Opened::Live(proof, bound) => live_leaf(alloc, cost, proof, &bound),
        Opened::Shut(proof) => shut_leaf(alloc, proof),
        Opened::Split { var, at, low, high } => {
            ahead.push(high)?;
            ahead.push(low)?;
            Ok(GrowingNode::Split { var, at })
        }
    }
}

// The first node of what is still to come.
fn first_node<'a>(alloc: Global, here: Ahead<'a>) -> Result<Opened<'a>, AllocError>
    ensures { IfOk result (λ node. opened_tree node ≡ coming here.entry) }
{
    match here {
        Ahead::Both(first, second) => both(alloc, first, second),
        Ahead::Raised(tree, proof, bound) => Ok(raise(tree, proof, &bound)),
        Ahead::Whole(tree) => Ok(whole(tree)),
    }
}

// The first node of two trees made into one.
fn both<'a>(alloc: Global, first: &'a Tree, second: &'a Tree) -> Result<Opened<'a>, AllocError>
    ensures { IfOk result (λ node. opened_tree node ≡ merged (tree_of first.now) (tree_of second.now)) }
{
    match first {
        Tree::Shut(proof) => Ok(Opened::Shut(proof)),
        Tree::Live(proof, bound) => Ok(give_way(proof, bound, second)),
        Tree::Fork { var, at, low, high } => match second {
            Tree::Shut(own) => Ok(Opened::Shut(own)),
            Tree::Live(own, least) => Ok(raise(first, own, least)),
            Tree::Fork {
                var: other,
                at: place,
                low: left,
                high: right,
            } => {
                if is_same_split(*var, at, *other, place) {
                    Ok(Opened::Split {
                        var: *var,
                        at: *at,
                        low: Ahead::Both(low, left),
                        high: Ahead::Both(high, right),
                    })
                } else {
                    Ok(whole(farther(alloc, first, second)?))
                }
            }
        },
    }
}

// The first node of what stands where one tree has a live leaf of this proof and bound, and the other this tree.
fn give_way<'a>(proof: &'a SharedProof, bound: &i64, second: &'a Tree) -> Opened<'a>
    ensures { opened_tree result ≡ merged (live proof.now bound.now) (tree_of second.now) }
{
    match second {
        Tree::Shut(own) => Opened::Shut(own),
        Tree::Live(own, least) => {
            if *bound < *least {
                Opened::Live(own, *least)
            } else {
                Opened::Live(proof, *bound)
            }
        }
        Tree::Fork { .. } => raise(second, proof, bound),
    }
}

// The first node of a tree in place of a live leaf of this proof and bound.
fn raise<'a>(tree: &'a Tree, proof: &'a SharedProof, bound: &i64) -> Opened<'a>
    ensures { opened_tree result ≡ raised (tree_of tree.now) proof.now bound.now }
{
    match tree {
        Tree::Shut(own) => Opened::Shut(own),
        Tree::Live(own, least) => {
            if *least < *bound {
                Opened::Live(proof, *bound)
            } else {
                Opened::Live(own, *least)
            }
        }
        Tree::Fork { var, at, low, high } => Opened::Split {
            var: *var,
            at: *at,
            low: Ahead::Raised(low, proof, *bound),
            high: Ahead::Raised(high, proof, *bound),
        },
    }
}

// The first node of a tree as it is.
fn whole<'a>(tree: &'a Tree) -> Opened<'a>
    ensures { opened_tree result ≡ tree_of tree.now }
{
    match tree {
        Tree::Shut(own) => Opened::Shut(own),
        Tree::Live(own, least) => Opened::Live(own, *least),
        Tree::Fork { var, at, low, high } => Opened::Split {
            var: *var,
            at: *at,
            low: Ahead::Whole(low),
            high: Ahead::Whole(high),
        },
    }
}

// A leaf with a proof and its bound, shut where the bound is no less than the best cost.
fn live_leaf(
    alloc: Global,
    cost: &Option<i64>,
    proof: &SharedProof,
    bound: &i64,
) -> Result<GrowingNode, AllocError>
    ensures { IfOk result (λ node. node ∷ [] ≡
        growing_nodes (shut_by cost.now (live proof.now bound.now))) }
{
    let own = proof.to_proof(alloc)?;
    Ok(leaf_of(cost, own, bound))
}

// A leaf with a proof and its bound, shut where the bound is no less than the best cost.
fn leaf_of(cost: &Option<i64>, proof: Proof, bound: &i64) -> GrowingNode
    ensures { result ∷ [] ≡ growing_nodes (shut_by cost.now (live proof bound.now)) }
{
    if is_below(bound, cost) {
        GrowingNode::Live(proof, *bound)
    } else {
        GrowingNode::Shut(proof)
    }
}

// Whether a bound is below the best cost, where there is one.
fn is_below(bound: &i64, cost: &Option<i64>) -> bool
    ensures { result ≡ is_below bound.now cost.now }
{
    match cost {
        None => true,
        Some(best) => *bound < *best,
    }
}

// A shut leaf with a proof.
fn shut_leaf(alloc: Global, proof: &SharedProof) -> Result<GrowingNode, AllocError>
    ensures { IfOk result (λ node. node ∷ [] ≡ growing_nodes (shut proof.now)) }
{
    let own = proof.to_proof(alloc)?;
    Ok(GrowingNode::Shut(own))
}

// Whether two splits are one.
fn is_same_split(var: u32, at: &i64, other: u32, place: &i64) -> bool
    ensures { result ≡ same_split var at.now other place.now }
{
    var == other && *at == *place
}

// Of two trees that split a node differently that of greater least bound, the first of equals.
fn farther<'a>(alloc: Global, first: &'a Tree, second: &'a Tree) -> Result<&'a Tree, AllocError>
    ensures { IfOk result (λ tree. tree_of tree.now ≡
        farther (tree_of first.now) (tree_of second.now)) }
{
    let here = least_live(alloc, first)?;
    let there = least_live(alloc, second)?;
    if is_beyond(&there, &here) {
        Ok(second)
    } else {
        Ok(first)
    }
}

// The least bound of a tree's live leaves, if there are any.
fn least_live(alloc: Global, tree: &Tree) -> Result<Option<i64>, AllocError>
    ensures { IfOk result (λ least. least ≡ least_live (tree_of tree.now)) }
{
    let mut ahead: Vec<&Tree> = Vec::new(alloc);
    let mut least: Option<i64> = None;
    ahead.push(tree)?;
    while let Some(node) = ahead.pop() {
        match node {
            Tree::Shut(_) => {}
            Tree::Live(_, bound) => least = less_of(&least, &Some(*bound)),
            Tree::Fork { low, high, .. } => {
                ahead.push(high)?;
                ahead.push(low)?;
            }
        }
    }
    Ok(least)
}

// The less of two bounds, where none counts as greatest.
pub fn less_of(bound: &Option<i64>, other: &Option<i64>) -> Option<i64>
    ensures { result ≡ cheaper_cost bound.now other.now }
{
    match bound {
        None => *other,
        Some(here) => match other {
            None => Some(*here),
            Some(there) => Some(less(here, there)),
        },
    }
}

// The less of two numbers.
fn less(a: &i64, b: &i64) -> i64
    ensures { result ≡ int_min a.now b.now }
{
    if *b < *a { *b } else { *a }
}

// Whether what is left with one least bound is less than with another, where nothing is left with none.
fn is_beyond(bound: &Option<i64>, other: &Option<i64>) -> bool
    ensures { result ≡ is_beyond bound.now other.now }
{
    match bound {
        None => other.is_some(),
        Some(here) => match other {
            None => false,
            Some(there) => *there < *here,
        },
    }
}
