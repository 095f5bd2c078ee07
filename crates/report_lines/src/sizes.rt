// The lines of sizes and classes.
ghost use Rattle.std.specs.Prelude.{◌≡◌, ◌++◌, ◌<◌, length, count_by, is_none, OnOk};
ghost use Rattle.bp_theory.specs.Decomposition.{link_count};
ghost use Rattle.block_class.specs.Classes.{AreSameClasses};
ghost use Rattle.report_lines.specs.Blocks.{size_lines, links_line, class_line, line_of_class, class_lines, first_classes, proposed_line};

use crate::{push_count_line, push_named};
use block_class::Classes;
use block_program::{Block, Blocked};
use std::alloc::AllocError;

/// The line of a decomposition that was proposed.
pub fn push_proposed(
    text: &mut Vec<u8>,
    blocks: u32,
    classes: u64,
    master: u64,
) -> Result<(), AllocError>
    ensures { OnOk result (text.new.items ≡ text.old.items ++ proposed_line blocks classes master) }
{
    push_named(text, b"proposed blocks ", blocks as u64)?;
    push_named(text, b" classes ", classes)?;
    push_named(text, b" master ", master)?;
    text.extend_from_slice(b"\n")
}

/// How many classes have one of the first blocks.
pub fn first_classes(root: &Classes, blocks: u32) -> u64
    ensures { result ≡ first_classes blocks root.now }
{
    let mut count: u64 = 0;
    for class in 0..root.len() {
        if root.first(class) < blocks {
            count += 1;
        }
    }
    count
}

/// The lines of the sizes.
pub fn push_sizes(text: &mut Vec<u8>, b: &Blocked, classes: u32) -> Result<(), AllocError>
    ensures { OnOk result (text.new.items ≡ text.old.items ++ size_lines b.now classes) }
{
    let model = b.model();
    push_count_line(text, b"variables ", model.vars() as u64)?;
    push_count_line(text, b"rows ", model.rows() as u64)?;
    push_count_line(text, b"master ", master_rows(b.dec().places()))?;
    push_count_line(text, b"blocks ", b.blocks() as u64)?;
    push_links(text, link_rows(b))?;
    push_count_line(text, b"classes ", classes as u64)
}

// The line of the link rows, where there are any.
fn push_links(text: &mut Vec<u8>, links: u64) -> Result<(), AllocError>
    ensures { OnOk result (text.new.items ≡ text.old.items ++ links_line links) }
{
    if links == 0 {
        return Ok(());
    }
    push_count_line(text, b"links ", links)
}

// How many link rows there are: of the rows that proofs may name, those behind the model's and before the cuts.
fn link_rows(b: &Blocked) -> u64
    ensures { result ≡ link_count b.now.named.program b.now.dec }
{
    let others = b.model().rows() as u64 + b.cuts().len() as u64;
    let links = b.named_rows() as u64 - others;
    links
}

/// How many rows are in no block.
pub fn master_rows(places: &[Option<u32>]) -> u64
    ensures { result ≡ count_by is_none places.now }
{
    places.iter().filter(|place| place.is_none()).count() as u64
}

/// The lines of the classes.
pub fn push_classes(text: &mut Vec<u8>, b: &Blocked, root: &Classes) -> Result<(), AllocError>
    requires { AreSameClasses b.now.named.program.spans b.now.blocking root.now }
    ensures { OnOk result (text.new.items ≡ text.old.items ++ class_lines b.now root.now) }
{
    for class in 0..root.len() {
        push_class(text, b, root, class)?;
    }
    Ok(())
}

// The line of a class.
fn push_class(text: &mut Vec<u8>, b: &Blocked, root: &Classes, class: u32) -> Result<(), AllocError>
    requires same { AreSameClasses b.now.named.program.spans b.now.blocking root.now }
    requires there { class < length root.now.firsts }
    ensures { OnOk result (text.new.items ≡ text.old.items ++ line_of_class b.now root.now class) }
{
    let first = root.first(class);
    let block = b.block(first);
    let size = root.size(class);
    let vars = block.var_count();
    push_class_line(text, class, first, size, vars, row_count(block))
}

// How many rows a block has.
fn row_count(block: &Block) -> u64
    ensures { result ≡ length block.now.block.rows }
{
    block.rows().len() as u64
}

// The line of a class by its numbers.
fn push_class_line(
    text: &mut Vec<u8>,
    class: u32,
    first: u32,
    size: u32,
    vars: u32,
    rows: u64,
) -> Result<(), AllocError>
    ensures { OnOk result (text.new.items ≡ text.old.items ++ class_line class first size
        vars rows) }
{
    push_named(text, b"class ", class as u64 + 1)?;
    push_named(text, b" first ", first as u64 + 1)?;
    push_named(text, b" size ", size as u64)?;
    push_named(text, b" variables ", vars as u64)?;
    push_named(text, b" rows ", rows)?;
    text.extend_from_slice(b"\n")
}
