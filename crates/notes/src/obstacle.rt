// The note on what stands in the way of a run that was not begun.
use crate::text::Note;
use bp_real::Obstacle;
use std::alloc::{AllocError, Global};
use std::io::ErrorKind;

/// The note on a run that was not begun, since files stood in its way.
pub fn explain_obstacle(alloc: Global, found: &Obstacle) -> Result<Vec<u8>, AllocError> {
    let mut note = Note::new(alloc);
    note.put("bprice: ");
    match *found {
        Obstacle::Shared { written, other } => {
            note.put_name(written);
            note.put(" would be written, and is the same file as ");
            note.put_name(other);
        }
        Obstacle::Unwritable { name, kind } => {
            note.put_name(name);
            note.put(" could not be written: ");
            note.put(reason(kind));
        }
    }
    note.put(": nothing was started\n");
    note.finished()
}

// Why a file can't be written.
fn reason(kind: ErrorKind) -> &'static str {
    match kind {
        ErrorKind::NotFound | ErrorKind::NotADirectory => "its folder is not there",
        ErrorKind::PermissionDenied | ErrorKind::ReadOnlyFilesystem => "it may not be written",
        ErrorKind::IsADirectory => "it is a folder",
        ErrorKind::StorageFull | ErrorKind::QuotaExceeded => "no space left",
        ErrorKind::InvalidFilename => "its name is too long",
        _ => "the system refuses it",
    }
}
