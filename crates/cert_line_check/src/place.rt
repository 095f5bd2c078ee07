// Where a walk over a tree of a certificate stands, and lines that end it.
use block_program::Zone;
use bp_theory::CheckKind;

/// Where a walk over a tree stands: the zone of a node, the number of the line that comes next, and how many visits are left
/// where they are counted.
#[derive(Drop)]
pub struct NodePlace {
    /// The zone of the node.
    pub zone: Zone,
    /// The number of the line that comes next, from 1.
    pub line: u64,
    /// How many visits are left; none where they are not counted.
    pub left: Option<u64>,
}

/// The first line at fault, from 1, and what is wrong with it.
#[derive(Clone, Copy)]
pub struct Rejection {
    /// The number of the line, from 1.
    pub line: u64,
    /// What is wrong with it.
    pub kind: CheckKind,
}

/// The line that ends a walk, from 1, and what is wrong with it; none where it asks for more visits than are left.
#[derive(Clone, Copy)]
pub struct Stop {
    /// The number of the line, from 1.
    pub line: u64,
    /// What is wrong with it; none where it asks for more visits than are left.
    pub fault: Option<CheckKind>,
}
