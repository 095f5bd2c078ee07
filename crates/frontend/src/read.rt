// The first bytes of a file, by reads of one buffer.
ghost use Rattle.std.specs.Prelude.{◌≡◌, ◌+◌, ℕ, ◌^◌, ◌<◌, ◌≤◌, List, Option, Some, None, IfOk, IfSome, OnOk, IsTrue, IsOk, IsSome, IsErrOf, vec_len, take, length};
ghost use Rattle.bp_shelf.specs.Shelf.{CountsFailed, file_limit};
ghost use Rattle.bp_theory.specs.Limits.{most_bytes};
ghost use Rattle.frontend.specs.Reading.{HasFront};

use bp_shelf::{Shelf, ShelfFault};
use bp_theory::Limits;
use std::alloc::{AllocError, Global};

// How many bytes a read asks for.
const BUFFER: usize = 65536;

// A buffer of some bytes, of which only the length is told.
fn buffer_of(alloc: Global, len: usize) -> Result<Vec<u8>, AllocError>
    ensures { IfOk result (λ buffer. vec_len buffer ≡ len) }
{
    Vec::from_elem(alloc, 0u8, len)
}

/// The first bytes of the file of a text, one more than its limits allow: this many tell that the text is too long.
pub fn read_text<F: Shelf>(
    alloc: Global,
    shelf: &mut F,
    limits: Limits,
    name: &str,
) -> Result<Vec<u8>, ShelfFault>
    ensures bytes { IsTrue (F.tells shelf.old) →
        IfOk result (λ front. IfSome (F.file shelf.old name.now)
        (λ all. front.items ≡ take (most_bytes limits + 1) all)) }
    ensures found { IsTrue (F.tells shelf.old) → IsOk result → IsSome (F.file shelf.old name.now) }
    ensures missing { IsTrue (F.tells shelf.old) → IsErrOf result ShelfFault.Missing →
        F.file shelf.old name.now ≡ None }
    ensures told { F.tells shelf.new ≡ F.tells shelf.old }
    ensures files { F.file shelf.new ≡ F.file shelf.old }
    ensures cause { CountsFailed (F.read_faults shelf.old) (F.read_faults shelf.new) result }
    ensures writes { F.write_faults shelf.new ≡ F.write_faults shelf.old }
{
    read_front(alloc, shelf, name, one_past(limits))
}

// One byte more than the limits allow.
fn one_past(limits: Limits) -> usize
    ensures one_more { result ≡ most_bytes limits + 1 }
    ensures some { 0 < result }
    ensures few { result < file_limit }
{
    limits.bytes() + 1
}

/// The first bytes of a file, at most so many. A file with more bytes than a limit is told by one byte past it.
pub fn read_front<F: Shelf>(
    alloc: Global,
    shelf: &mut F,
    name: &str,
    most: usize,
) -> Result<Vec<u8>, ShelfFault>
    requires { most < file_limit }
    ensures bytes { IsTrue (F.tells shelf.old) →
        IfOk result (λ front. IfSome (F.file shelf.old name.now)
        (λ all. front.items ≡ take most all)) }
    ensures found { IsTrue (F.tells shelf.old) → IsOk result → 0 < most →
        IsSome (F.file shelf.old name.now) }
    ensures missing { IsTrue (F.tells shelf.old) → IsErrOf result ShelfFault.Missing →
        F.file shelf.old name.now ≡ None }
    ensures told { F.tells shelf.new ≡ F.tells shelf.old }
    ensures files { F.file shelf.new ≡ F.file shelf.old }
    ensures cause { CountsFailed (F.read_faults shelf.old) (F.read_faults shelf.new) result }
    ensures writes { F.write_faults shelf.new ≡ F.write_faults shelf.old }
{
    let mut front = Vec::new(alloc);
    let mut buffer = buffer_of(alloc, BUFFER)?;
    'reads: while front.len() < most {
        let count = read_more(shelf, name, &mut front, &mut buffer, most)?;
        if count == 0 {
            return Ok(front);
        }
    }
    Ok(front)
}

// Reads once, at the end of the first bytes, and adds what comes; at most so many bytes in all.
fn read_more<F: Shelf>(
    shelf: &mut F,
    name: &str,
    front: &mut Vec<u8>,
    buffer: &mut [u8],
    most: usize,
) -> Result<usize, ShelfFault>
    requires room { 0 < length buffer.old }
    requires more { vec_len front.old < most }
    ensures front { OnOk result (HasFront (F.tells shelf.old) (F.file shelf.old name.now)
        front.old.items → HasFront (F.tells shelf.old) (F.file shelf.old name.now)
        front.new.items) }
    ensures end { IfOk result (λ count. count ≡ 0 → IsTrue (F.tells shelf.old) →
        HasFront (F.tells shelf.old) (F.file shelf.old name.now) front.old.items →
        IfSome (F.file shelf.old name.now) (λ all. front.new.items ≡ all)) }
    ensures len { IfOk result (λ count. vec_len front.new ≡ vec_len front.old + count) }
    ensures count { IfOk result (λ count. count ≤ length buffer.old) }
    ensures far { file_limit ≤ vec_len front.old → IfOk result (λ count. count ≡ 0) }
    ensures within { OnOk result (vec_len front.new ≤ most) }
    ensures found { IsTrue (F.tells shelf.old) → IsOk result → IsSome (F.file shelf.old name.now) }
    ensures missing { IsTrue (F.tells shelf.old) → IsErrOf result ShelfFault.Missing →
        F.file shelf.old name.now ≡ None }
    ensures told { F.tells shelf.new ≡ F.tells shelf.old }
    ensures files { F.file shelf.new ≡ F.file shelf.old }
    ensures cause { CountsFailed (F.read_faults shelf.old) (F.read_faults shelf.new) result }
    ensures writes { F.write_faults shelf.new ≡ F.write_faults shelf.old }
{
    let room = buffer.len().min(most - front.len());
    let into = &mut buffer[..room];
    let count = shelf.read_at(name, front.len() as u64, into)?;
    front.extend_from_slice(&into[..count])?;
    Ok(count)
}
