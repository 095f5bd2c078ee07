// Weights of columns, spread over the blocks of their classes.
ghost use Rattle.std.specs.Prelude.{◌≡◌, ◌<◌, ◌^◌, length, All, IfOk, MatchOption};
ghost use Rattle.bp_theory.specs.Trees.{IsZone};
ghost use Rattle.search_laws.specs.Spread.{AreClasses, IsUsed};
ghost use Rattle.column_assignment.specs.Deals.{HasWeight, HaveNumbers};
ghost use Rattle.disagg.specs.Spreads.{IsSpreadOut};

use crate::answer::Spread;
use block_class::Classes;
use block_program::{Blocked, Zone};
use bp_theory::Items;
use column_assignment::{
    chosen_split, columns_of_blocks, copies_agree, dealt_point, decks, is_spreadable, most_mixed,
};
use search_laws::UsedColumn;
use std::alloc::{AllocError, Global};

/// Spreads weights of columns, in units of which 1,048,576 make one, over the blocks of their classes in a zone. Each
/// column's point is one of its class's first block. The split is at the variable whose number, where the columns of a
/// class are dealt out in order, is farthest from whole in a block that gets parts of several; else it halves the widest
/// span.
pub fn spread(
    alloc: Global,
    b: &Blocked,
    zone: &Zone,
    classes: &Classes,
    used: &[UsedColumn],
) -> Result<Spread, AllocError>
    requires zone { IsZone b.now.named.program.spans zone.now }
    requires classes { AreClasses zone.now b.now.blocking classes.now.classes classes.now.firsts }
    requires used { All (IsUsed zone.now b.now.blocking classes.now.firsts) used.now }
    requires weights { All HasWeight used.now }
    ensures { IfOk result (IsSpreadOut b.now zone.now classes.now used.now) }
{
    let blocks = b.blocks();
    let hint = most_mixed(alloc, b, classes, used)?;
    let split = chosen_split(zone, hint);
    if !is_spreadable(alloc, classes, used)? {
        return Ok(Spread { point: None, split });
    }
    let decks = decks(alloc, classes, used)?;
    let columns = columns_of_blocks(alloc, classes, blocks, &decks)?;
    let dealt = dealt_point(alloc, b, used, &columns)?;
    let point = agreed_point(b, used, &columns, dealt);
    Ok(Spread { point, split })
}

// A dealt point, where all copies of each variable have one number in it.
fn agreed_point(
    b: &Blocked,
    used: &[UsedColumn],
    columns: &[usize],
    dealt: Vec<i64>,
) -> Option<Items<i64>>
    ensures { MatchOption result
        (HaveNumbers b.now.blocking used.now columns.now dealt.items → ⊥)
        (λ x. HaveNumbers b.now.blocking used.now columns.now x × (x ≡ dealt.items)) }
{
    if !copies_agree(b, used, columns, &dealt) {
        return None;
    }
    Some(Items::from_vec(dealt))
}
