// Reads of whole pieces, by as many calls as they take.
ghost use Rattle.std.specs.Prelude.{◌≤◌, ◌<◌, length, take, IfOk};
ghost use Rattle.std.specs.Io.KnownBytes.{Consumes, IsAtEnd};

use std::io;
use std::io::Read;

// Reads until the buffer is full or the file ends, and gives how many bytes it read: where a reader tells what is left of
// it, those that come next, and fewer than the buffer holds only at its end.
pub(crate) fn fill<F: Read>(file: &mut F, into: &mut [u8]) -> io::Result<usize>
    ensures count { IfOk result (λ count. count ≤ length into.old) }
    ensures bytes { IfOk result (λ count. Consumes (F.remaining file.old) (F.remaining file.new)
        (take count into.new)) }
    ensures end { IfOk result (λ count. count < length into.old → IsAtEnd (F.remaining file.new)) }
{
    let mut count = 0;
    'reads: while count < into.len() {
        let more = file.read(&mut into[count..])?;
        if more == 0 {
            break;
        }
        count += more;
    }
    Ok(count)
}
