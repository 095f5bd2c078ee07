// The reports on sizes and blocks.
ghost use Rattle.std.specs.Prelude.{◌≡◌, IfOk};
ghost use Rattle.block_class.specs.Classes.{AreSameClasses};
ghost use Rattle.bp_report.specs.Report.{show_report, show_report_with, made_report, detected_report, proposed_report};

use block_class::Classes;
use block_program::Blocked;
use report_lines::{
    first_classes, master_rows, push_blocks, push_classes, push_count_line, push_firsts,
    push_named, push_proposed, push_sizes,
};
use std::alloc::{AllocError, Global};

/// The report on an LP text of so many variables and rows that was made with its decomposition.
pub fn made_text(alloc: Global, vars: u32, rows: u32) -> Result<Vec<u8>, AllocError>
    ensures { IfOk result (λ text. text.items ≡ made_report vars rows) }
{
    let mut text = Vec::from_slice(alloc, b"made")?;
    push_named(&mut text, b" variables ", vars as u64)?;
    push_named(&mut text, b" rows ", rows as u64)?;
    text.extend_from_slice(b"\n")?;
    Ok(text)
}

/// The report on a decomposition of so many blocks that was found beside master rows.
pub fn detected_text(alloc: Global, blocks: u32) -> Result<Vec<u8>, AllocError>
    ensures { IfOk result (λ text. text.items ≡ detected_report blocks) }
{
    let mut text = Vec::new(alloc);
    push_count_line(&mut text, b"detected blocks ", blocks as u64)?;
    Ok(text)
}

/// The report on a decomposition that was proposed: how many blocks it has, how many classes of identical blocks these are
/// in at the root, and how many rows are master rows.
pub fn proposed_text(alloc: Global, b: &Blocked, root: &Classes) -> Result<Vec<u8>, AllocError>
    ensures { IfOk result (λ text. text.items ≡ proposed_report b.now root.now) }
{
    let blocks = b.dec().blocks();
    let classes = first_classes(root, blocks);
    let master = master_rows(b.dec().places());
    let mut text = Vec::new(alloc);
    push_proposed(&mut text, blocks, classes, master)?;
    Ok(text)
}

// The report on the sizes of a program in blocks and on the classes of its blocks at the root.
fn show_text(alloc: Global, b: &Blocked, root: &Classes) -> Result<Vec<u8>, AllocError>
    requires { AreSameClasses b.now.named.program.spans b.now.blocking root.now }
    ensures { IfOk result (λ text. text.items ≡ show_report b.now root.now) }
{
    let mut text = Vec::new(alloc);
    push_sizes(&mut text, b, root.len())?;
    push_classes(&mut text, b, root)?;
    Ok(text)
}

/// The report on the sizes of a program in blocks and on the classes of its blocks at the root, and, where it is wanted, a
/// line for each block, or for the first block of each class, with the names of its rows and of its variables.
pub fn show_blocks_text(
    alloc: Global,
    b: &Blocked,
    root: &Classes,
    blocks: bool,
    classes: bool,
) -> Result<Vec<u8>, AllocError>
    requires { AreSameClasses b.now.named.program.spans b.now.blocking root.now }
    ensures { IfOk result (λ text. text.items ≡ show_report_with b.now root.now blocks classes) }
{
    let mut text = show_text(alloc, b, root)?;
    if blocks {
        push_blocks(alloc, &mut text, b)?;
    } else if classes {
        push_firsts(alloc, &mut text, b, root)?;
    }
    Ok(text)
}
