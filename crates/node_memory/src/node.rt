// Where the heuristics of a node work.
ghost use Rattle.bp_theory.specs.Trees.{IsZone};
ghost use Rattle.block_class.specs.Classes.{AreSameClasses};
ghost use Rattle.node_memory.specs.Nodes.{AllZip-prop};
ghost use Rattle.std.proofs.Props.{props};

use block_class::Classes;
use block_program::{Blocked, Zone};

/// A node of a search, as its heuristics see it: the program, the node's zone, and the classes of blocks that are the
/// same in it. Each value keeps that the zone lies in the program's spans, and that the classes are those of the zone.
#[derive(Clone, Copy)]
pub struct NodeContext<'a> {
    /// The program in blocks.
    pub program: &'a Blocked,
    /// The classes of blocks that are the same in the zone: one column serves all blocks of a class.
    pub classes: &'a Classes,
    /// The zone: a span for each variable of the program, within the program's own.
    pub zone: &'a Zone,
    ghost same: { AreSameClasses zone.now program.now.blocking classes.now },
    ghost inside: { IsZone program.now.named.program.spans zone.now } by { Prim.hlevel (AllZip-prop, props) },
}
