// The lines of a certificate, written into a file one by one.
ghost use Rattle.std.specs.Prelude.{◌≡◌, IsTrue, IfOk, OnOk};
ghost use Rattle.bp_theory.specs.Trees.{Tree};
ghost use Rattle.cert_format.specs.Text.{Two};
ghost use Rattle.cert_format.specs.Plain.{version_with, head_text, tree_text};
ghost use Rattle.cert_format.specs.Preorder.{line_of, node_lines};
ghost use Rattle.cert_write.specs.Changes.{changing_nodes, last_mults};
ghost use Rattle.cert_write.specs.LineTexts.{line_text, changing_line, mults_behind};
ghost use Rattle.cert_file.specs.Appends.{Appends, CountsStop, Heads};

use crate::stop::{StreamStop, stream_stop};
use bp_shelf::Shelf;
use bp_theory::{Claim, Cut};
use cert_format::{NodeLine, NodeLines};
use cert_write::{put_changed_line, put_head};
use std::alloc::{AllocError, Global};

/// The lines in front of a tree.
pub fn put_heads<F: Shelf>(
    alloc: Global,
    shelf: &mut F,
    name: &str,
    claim: &Claim,
    point: &[i64],
    cuts: &[Cut],
) -> Result<(), StreamStop>
    ensures files { IsTrue (F.tells shelf.old) → Heads name.now (head_text (version_with cuts.now) claim.now point.now cuts.now) (F.file shelf.old) (F.file shelf.new) result }
    ensures told { F.tells shelf.new ≡ F.tells shelf.old }
    ensures cause { CountsStop (F.write_faults shelf.old) (F.write_faults shelf.new) result }
    ensures reads { F.read_faults shelf.new ≡ F.read_faults shelf.old }
{
    let head = match heads_text(alloc, claim, point, cuts) {
        Err(_) => return Err(StreamStop::NoMemory),
        Ok(head) => head,
    };
    match shelf.replace(name, head.as_slice()) {
        Err(fault) => Err(stream_stop(fault)),
        Ok(()) => Ok(()),
    }
}

// The text of the lines in front of a tree.
fn heads_text(
    alloc: Global,
    claim: &Claim,
    point: &[i64],
    cuts: &[Cut],
) -> Result<Vec<u8>, AllocError>
    ensures { IfOk result (λ head. head.items ≡
        head_text (version_with cuts.now) claim.now point.now cuts.now) }
{
    let mut head = Vec::new(alloc);
    put_head(&mut head, claim, point, cuts)?;
    Ok(head)
}

/// The lines of a tree, one by one, behind a leaf that has these multipliers, which become those of the tree's last leaf.
pub fn put_nodes<F: Shelf, L: NodeLines>(
    alloc: Global,
    shelf: &mut F,
    name: &str,
    lines: &mut L,
    had: &mut Vec<(u32, i64)>,
) -> Result<(), StreamStop>
    ensures files { IsTrue (F.tells shelf.old) → (tree : Tree) → L.lines lines.old ≡ node_lines tree → Appends name.now (tree_text Two (changing_nodes had.old.items tree)) (F.file shelf.old) (F.file shelf.new) result }
    ensures told { F.tells shelf.new ≡ F.tells shelf.old }
    ensures cause { CountsStop (F.write_faults shelf.old) (F.write_faults shelf.new) result }
    ensures reads { F.read_faults shelf.new ≡ F.read_faults shelf.old }
    ensures last { OnOk result ((tree : Tree) → L.lines lines.old ≡ node_lines tree →
        had.new.items ≡ last_mults tree) }
{
    while let Some(line) = lines.line() {
        match put_node(alloc, shelf, name, had, &line) {
            Err(stop) => return Err(stop),
            Ok(()) => {}
        }
        match lines.advance() {
            Err(_) => return Err(StreamStop::NoMemory),
            Ok(()) => {}
        }
    }
    Ok(())
}

// A node's line, behind a leaf that has these multipliers, which become those of a leaf of the line.
fn put_node<F: Shelf>(
    alloc: Global,
    shelf: &mut F,
    name: &str,
    had: &mut Vec<(u32, i64)>,
    line: &NodeLine,
) -> Result<(), StreamStop>
    ensures files { IsTrue (F.tells shelf.old) → Appends name.now (line_text Two (changing_line had.old.items (line_of line.now))) (F.file shelf.old) (F.file shelf.new) result }
    ensures told { F.tells shelf.new ≡ F.tells shelf.old }
    ensures cause { CountsStop (F.write_faults shelf.old) (F.write_faults shelf.new) result }
    ensures reads { F.read_faults shelf.new ≡ F.read_faults shelf.old }
    ensures last { OnOk result (had.new.items ≡ mults_behind had.old.items (line_of line.now)) }
{
    let mut text = Vec::new(alloc);
    match put_changed_line(&mut text, alloc, had, line) {
        Err(_) => Err(StreamStop::NoMemory),
        Ok(()) => put_line(shelf, name, text.as_slice()),
    }
}

/// A line at the end of the named file.
pub fn put_line<F: Shelf>(shelf: &mut F, name: &str, line: &[u8]) -> Result<(), StreamStop>
    ensures files { IsTrue (F.tells shelf.old) → Appends name.now line.now (F.file shelf.old) (F.file shelf.new) result }
    ensures told { F.tells shelf.new ≡ F.tells shelf.old }
    ensures cause { CountsStop (F.write_faults shelf.old) (F.write_faults shelf.new) result }
    ensures reads { F.read_faults shelf.new ≡ F.read_faults shelf.old }
{
    match shelf.extend(name, line) {
        Err(fault) => Err(stream_stop(fault)),
        Ok(()) => Ok(()),
    }
}
