// Where the files are that names stand for.
ghost use Rattle.std.specs.Prelude.{◌≡◌, string_bytes};
ghost use Rattle.std.specs.Option.{option_map};
ghost use Rattle.bp_real.specs.Obstacles.{spot_of, is_same_spot, same_below as specs_same_below};

use std::fs;
use std::os::unix::fs::MetadataExt;
use std::path::Path;
use std::rt::Files;

// How many links are followed of a file that isn't there.
const MOST_LINKS: usize = 40;

/// Where a file is: the device and the inode of a file that is there; of one that isn't, those of the folder that it would be
/// in, and its name there. Links are followed.
#[derive(Drop)]
pub struct Place {
    /// The device's number.
    pub device: u64,
    /// The number of the file or the folder on it.
    pub inode: u64,
    /// The name in the folder, of a file that isn't there.
    pub below: Option<String>,
}

/// Whether two names stand for one file, as far as it is known where they are.
pub(crate) fn is_same(one: &Option<Place>, other: &Option<Place>) -> bool
    ensures { result ≡ is_same_spot (option_map spot_of one.now) (option_map spot_of other.now) }
{
    match (one, other) {
        (Some(one), Some(other)) => {
            one.device == other.device
                && one.inode == other.inode
                && is_same_below(&one.below, &other.below)
        }
        _ => false,
    }
}

// Whether names in a folder are the same, or both lack.
fn is_same_below(one: &Option<String>, other: &Option<String>) -> bool
    ensures { result ≡ specs_same_below (option_map string_bytes one.now)
        (option_map string_bytes other.now) }
{
    match (one, other) {
        (Some(one), Some(other)) => one.as_str() == other.as_str(),
        (None, None) => true,
        _ => false,
    }
}

/// Where a file is, if that can be told.
pub(crate) fn place_of<R: Files + AllocGlobal>(rt: &R, name: &str) -> Option<Place> {
    match fs::metadata(rt, name) {
        Ok(found) => Some(Place {
            device: found.dev(),
            inode: found.ino(),
            below: None,
        }),
        Err(_) => absent_place(rt, name),
    }
}

// Where a file would be that isn't there, behind the links that its name may be.
fn absent_place<R: Files + AllocGlobal>(rt: &R, name: &str) -> Option<Place> {
    let mut at = String::from_str(rt.alloc(), name).ok()?;
    for _ in 0..MOST_LINKS {
        match linked(rt, at.as_str()) {
            Some(target) => at = target,
            None => return place_below(rt, at.as_str()),
        }
    }
    None
}

// What a link points to, seen from where it is seen.
fn linked<R: Files + AllocGlobal>(rt: &R, name: &str) -> Option<String> {
    let target = fs::read_link(rt, name).ok()?;
    let path = folder_of(name).join(rt.alloc(), target.as_str()).ok()?;
    String::from_str(rt.alloc(), path.as_str()).ok()
}

// The folder that a name is in.
fn folder_of(name: &str) -> Path<'_> {
    match Path::new(name).parent() {
        Some(folder) if folder.as_str() != "" => folder,
        _ => Path::new("."),
    }
}

// A name in its folder.
fn place_below<R: Files + AllocGlobal>(rt: &R, name: &str) -> Option<Place> {
    let last = Path::new(name).file_name()?;
    let below = String::from_str(rt.alloc(), last).ok()?;
    match fs::metadata(rt, folder_of(name)) {
        Ok(found) => Some(Place {
            device: found.dev(),
            inode: found.ino(),
            below: Some(below),
        }),
        Err(_) => None,
    }
}
