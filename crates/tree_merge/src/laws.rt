// The laws of merging, each the contract of a function with an empty body.
ghost use Rattle.tree_merge.specs.Laws.{MergeKeeps, MergedByNode, NothingIsLost, BoundsRise, LeavesAreWorth, OrderIsFree, MergedWithItself, NodesAddUp};

/// Two searches of one program merged have the facts of a search.
pub fn merge_keeps()
    ensures { MergeKeeps }
{}

/// A node is open in the merged tree exactly where it is open in both, with the better bound.
pub fn merged_by_node()
    ensures { MergedByNode }
{}

/// What is live in the merged tree was live in one of the two, and in both where no two splits differ.
pub fn nothing_is_lost()
    ensures { NothingIsLost }
{}

/// The bound that is left is no worse than either's.
pub fn bounds_rise()
    ensures { BoundsRise }
{}

/// A live leaf's bound is below the best cost.
pub fn leaves_are_worth()
    ensures { LeavesAreWorth }
{}

/// Neither order nor grouping changes which leaves are live.
pub fn order_is_free()
    ensures { OrderIsFree }
{}

/// Merging a tree with itself changes nothing.
pub fn merged_with_itself()
    ensures { MergedWithItself }
{}

/// A merged tree has no more nodes than both together.
pub fn nodes_add_up()
    ensures { NodesAddUp }
{}
