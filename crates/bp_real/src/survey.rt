// What the system tells of named files before a run.
ghost use Rattle.std.specs.Prelude.{◌≡◌, Option, IfSome};
ghost use Rattle.std.specs.Option.{option_map};
ghost use Rattle.bp_real.specs.Obstacles.{Told, spot_of};

use crate::place::{Place, place_of};
use std::fs;
use std::fs::OpenOptions;
use std::io::ErrorKind;
use std::rt::Files;

/// What stands at a file's place.
#[derive(Clone, Copy)]
pub enum Kind {
    /// A folder.
    Folder,
    /// A plain file.
    Plain,
    /// Something else, as a pipe or a device.
    Other,
}

/// What is told of files by their names. Each question leaves the files as they are.
pub trait Survey {
    /// All that it tells; nothing where that isn't known beforehand, as of the system's files.
    ghost told: { Self → Option Told };

    /// Where a name's file is, or would be; none where that can't be told.
    fn place_of(&self, name: &str) -> Option<Place>
        ensures { IfSome (told self.now) (λ t. option_map spot_of result ≡ t.spot name.now) };

    /// What stands there, if anything does.
    fn kind_of(&self, name: &str) -> Option<Kind>
        ensures { IfSome (told self.now) (λ t. result ≡ t.kind name.now) };

    /// Why a file that is there can't be opened to be written, if it can't.
    fn opening_fault(&self, name: &str) -> Option<ErrorKind>
        ensures { IfSome (told self.now) (λ t. result ≡ t.opening name.now) };

    /// Why a file that isn't there can't be made, if it can't.
    fn making_fault(&self, name: &str) -> Option<ErrorKind>
        ensures { IfSome (told self.now) (λ t. result ≡ t.making name.now) };
}

/// The files of a runtime, by their paths.
#[derive(Drop)]
pub struct HostSurvey<'a, R> {
    // The runtime.
    rt: &'a R,
}

impl<'a, R: Files + AllocGlobal> HostSurvey<'a, R> {
    /// The files of this runtime.
    pub fn new(rt: &'a R) -> Self {
        HostSurvey { rt }
    }
}

impl<R: Files + AllocGlobal> Survey for HostSurvey<'_, R> {
    ghost use Rattle.std.specs.Prelude.{None};

    ghost told = { λ _. None };

    fn place_of(&self, name: &str) -> Option<Place> {
        place_of(self.rt, name)
    }

    fn kind_of(&self, name: &str) -> Option<Kind> {
        match fs::metadata(self.rt, name) {
            Ok(found) if found.is_dir() => Some(Kind::Folder),
            Ok(found) if found.is_file() => Some(Kind::Plain),
            Ok(_) => Some(Kind::Other),
            Err(_) => None,
        }
    }

    // A file that is opened stays as it is.
    fn opening_fault(&self, name: &str) -> Option<ErrorKind> {
        match OpenOptions::new().write(true).open(self.rt, name) {
            Ok(_) => None,
            Err(fault) => Some(fault.kind()),
        }
    }

    // A file is made, and removed again. Where there is one meanwhile, or a link to none, that isn't known.
    fn making_fault(&self, name: &str) -> Option<ErrorKind> {
        match OpenOptions::new()
            .write(true)
            .create_new(true)
            .open(self.rt, name)
        {
            Ok(_) => {
                let _ = fs::remove_file(self.rt, name);
                None
            }
            Err(fault) if fault.kind() == ErrorKind::AlreadyExists => None,
            Err(fault) => Some(fault.kind()),
        }
    }
}
