// The variable that is farthest from whole in a block that gets parts of several columns.
ghost use Rattle.std.specs.Prelude.{◌≡◌, ◌<◌, length, All};
ghost use Rattle.search_laws.specs.declared.UsedColumn.{UsedColumn as AUsed};

use block_class::Classes;
use block_program::{Block, Blocked};
use search_laws::UsedColumn;
use std::alloc::{AllocError, Global};

// A class whose columns are dealt out, and its first block that gets parts of several.
#[derive(Drop)]
struct Mix {
    // The weights so far.
    filled: u64,
    // The rank of the first block that is left with a part of a column.
    member: Option<u64>,
    // Weights times numbers of the parts that this block gets, by place.
    sums: Vec<i128>,
}

// A variable that is far from whole, with the whole number below it.
#[derive(Clone, Copy)]
struct Fraction {
    // How far its number is from the nearest whole one, in units of 2^-20; four times that where it is in no master
    // row.
    distance: u64,
    // Its number in the model, from 0.
    var: u32,
    // The greatest whole number up to its number.
    floor: i64,
}

/// The variable whose number is farthest from whole where the columns, in units of 2^-20, are dealt out to the blocks
/// of their classes, with the whole number below it. Of each class the first block that gets parts of several columns
/// is looked at, and a variable in no master row counts four times.
pub fn most_mixed(
    alloc: Global,
    b: &Blocked,
    classes: &Classes,
    used: &[UsedColumn],
) -> Result<Option<(u32, i64)>, AllocError>
    requires each { length classes.now.classes ≡ length b.now.blocking.blocks }
    requires known { All (λ (u : AUsed). u.class < length classes.now.firsts) used.now }
{
    let mixes = mixes(alloc, classes.len() as usize, used)?;
    let mut best: Option<Fraction> = None;
    for block in 0..b.blocks() {
        let class = classes.class_of(block);
        if let Some(mix) = mixes.as_slice().get(class as usize) {
            if is_member(classes, class, block, mix) {
                best = better(best, farthest(b.block(block), mix.sums.as_slice()));
            }
        }
    }
    match best {
        Some(found) => Ok(Some((found.var, found.floor))),
        None => Ok(None),
    }
}

// Whether a block is the first of its class that gets parts.
fn is_member(classes: &Classes, class: u32, block: u32, mix: &Mix) -> bool
    requires { class < length classes.now.firsts }
{
    match mix.member {
        Some(rank) => match classes.members(class).get(rank as usize) {
            Some(member) => *member == block,
            None => false,
        },
        None => false,
    }
}

// The columns dealt out.
fn mixes(alloc: Global, count: usize, used: &[UsedColumn]) -> Result<Vec<Mix>, AllocError> {
    let mut mixes = Vec::new(alloc);
    for _ in 0..count {
        mixes.push(Mix {
            filled: 0,
            member: None,
            sums: Vec::new(alloc),
        })?;
    }
    for column in used {
        let class = column.class as usize;
        if class < mixes.len() {
            deal(&mut mixes[class], column)?;
        }
    }
    Ok(mixes)
}

// One column more is dealt out.
fn deal(mix: &mut Mix, column: &UsedColumn) -> Result<(), AllocError> {
    let start = mix.filled;
    let end = start.saturating_add(column.weight.unsigned_abs());
    mix.filled = end;
    let member = match mix.member {
        Some(member) => member,
        None => {
            if end & 1_048_575 == 0 {
                return Ok(());
            }
            let member = end >> 20;
            mix.member = Some(member);
            member
        }
    };
    let first = member << 20;
    let from = start.max(first);
    let to = end.min(first.saturating_add(1_048_576));
    if from < to {
        add_part(&mut mix.sums, column.point.as_slice(), to - from)?;
    }
    Ok(())
}

// A part's weight times its numbers more.
fn add_part(sums: &mut Vec<i128>, point: &[i64], weight: u64) -> Result<(), AllocError> {
    for place in 0..point.len() {
        let more = i128::from(point[place]).wrapping_mul(i128::from(weight));
        if place < sums.len() {
            sums[place] = sums[place].wrapping_add(more);
        } else {
            sums.push(more)?;
        }
    }
    Ok(())
}

// The variable of a block that is farthest from whole.
fn farthest(block: &Block, sums: &[i128]) -> Option<Fraction> {
    let mut best = None;
    for place in 0..block.var_count() {
        let Some(sum) = sums.get(place as usize) else {
            return best;
        };
        let part = (*sum & 1_048_575) as u64;
        let near = part.min(1_048_576 - part);
        let distance = if block.master(place).is_empty() {
            near * 4
        } else {
            near
        };
        let fraction = Fraction {
            distance,
            var: block.vars()[place as usize],
            floor: clipped(*sum >> 20),
        };
        best = better(best, Some(fraction));
    }
    best
}

// The one that is farther from whole, none where neither is off.
fn better(old: Option<Fraction>, new: Option<Fraction>) -> Option<Fraction> {
    let Some(fraction) = new else {
        return old;
    };
    let least = match old {
        Some(other) => other.distance,
        None => 0,
    };
    if fraction.distance > least { new } else { old }
}

// A number of 64 bits.
fn clipped(number: i128) -> i64 {
    number.max(i128::from(i64::MIN)).min(i128::from(i64::MAX)) as i64
}
