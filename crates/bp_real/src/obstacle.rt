// What stands in the way of a run before it has begun: files that would be written over what is read, and certificates that
// can't be written.
ghost use Rattle.std.specs.Prelude.{◌≡◌, ◌∷◌, [], Option, None, IfSome};
ghost use Rattle.std.specs.Option.{option_map};
ghost use Rattle.bp_real.specs.Apart.{Differ};
ghost use Rattle.bp_real.specs.Obstacles.{spot_of, said, hindrance, shared_of, shared_with as specs_shared_with, unwritable_of, write_fault as specs_write_fault};

use crate::place::{Place, is_same};
use crate::survey::{Kind, Survey};
use std::io::ErrorKind;

/// The files that a command line names.
#[derive(Clone, Copy)]
pub struct NamedFiles<'a> {
    /// A file that is read and may not be written too.
    pub read: Option<&'a str>,
    /// Another one.
    pub read_too: Option<&'a str>,
    /// A file that is written.
    pub written: Option<&'a str>,
    /// Another one.
    pub written_too: Option<&'a str>,
    /// Whether what is written is a certificate.
    pub is_certificate: bool,
}

/// Why a run isn't begun.
#[derive(Clone, Copy)]
pub enum Obstacle<'a> {
    /// A file would be written, and is one that is read or written as well.
    Shared {
        /// Its name as a file that is written.
        written: &'a str,
        /// Its other name, or the same.
        other: &'a str,
    },
    /// A certificate can't be written.
    Unwritable {
        /// Its file's name.
        name: &'a str,
        /// Why.
        kind: ErrorKind,
    },
}

/// What stands in the way of a run on these files, if anything does: that a file would be written and is also another of those
/// that are named, by its place or by its name; or that a certificate can't be written. To see that, a file that isn't there
/// is made and removed at once, and one that is there is opened, which leaves it as it is. Where no file is written, nothing
/// stands in the way.
pub fn find_obstacle<'a, S: Survey>(survey: &S, files: &NamedFiles<'a>) -> Option<Obstacle<'a>>
    ensures exactly { IfSome (S.told survey.now) (λ told.
        option_map said result ≡ hindrance told files.now.is_certificate
        (option_map (λ name. name.now) files.now.read)
        (option_map (λ name. name.now) files.now.read_too)
        (option_map (λ name. name.now) files.now.written)
        (option_map (λ name. name.now) files.now.written_too)) }
    ensures read { result ≡ None → Differ (option_map (λ name. name.now) files.now.written)
        (option_map (λ name. name.now) files.now.read) }
    ensures read_too { result ≡ None → Differ (option_map (λ name. name.now) files.now.written)
        (option_map (λ name. name.now) files.now.read_too) }
    ensures written { result ≡ None → Differ (option_map (λ name. name.now) files.now.written)
        (option_map (λ name. name.now) files.now.written_too) }
    ensures read_and_second { result ≡ None →
        Differ (option_map (λ name. name.now) files.now.written_too)
        (option_map (λ name. name.now) files.now.read) }
    ensures read_too_and_second { result ≡ None →
        Differ (option_map (λ name. name.now) files.now.written_too)
        (option_map (λ name. name.now) files.now.read_too) }
    ensures nothing_written { files.now.written ≡ None → files.now.written_too ≡ None →
        result ≡ None }
{
    let found = shared(
        survey,
        files.written,
        files.read,
        files.read_too,
        files.written_too,
    );
    if found.is_some() {
        return found;
    }
    let found = shared(survey, files.written_too, files.read, files.read_too, None);
    if found.is_some() {
        return found;
    }
    if files.is_certificate {
        return unwritable(survey, files.written);
    }
    None
}

// A file that would be written, where it is one of three others too, with the first of them.
fn shared<'a, S: Survey>(
    survey: &S,
    written: Option<&'a str>,
    first: Option<&'a str>,
    second: Option<&'a str>,
    third: Option<&'a str>,
) -> Option<Obstacle<'a>>
    ensures exactly { IfSome (S.told survey.now) (λ told.
        option_map said result ≡ shared_of told (option_map (λ name. name.now) written.entry)
        (option_map (λ name. name.now) first.entry ∷
        option_map (λ name. name.now) second.entry ∷
        option_map (λ name. name.now) third.entry ∷ [])) }
    ensures first { result ≡ None → Differ (option_map (λ name. name.now) written.entry)
        (option_map (λ name. name.now) first.entry) }
    ensures second { result ≡ None → Differ (option_map (λ name. name.now) written.entry)
        (option_map (λ name. name.now) second.entry) }
    ensures third { result ≡ None → Differ (option_map (λ name. name.now) written.entry)
        (option_map (λ name. name.now) third.entry) }
    ensures nothing_written { written.entry ≡ None → result ≡ None }
{
    let Some(written) = written else {
        return None;
    };
    let place = survey.place_of(written);
    match shared_with(survey, written, &place, first) {
        None => match shared_with(survey, written, &place, second) {
            None => shared_with(survey, written, &place, third),
            found => found,
        },
        found => found,
    }
}

// A file that would be written, where another name stands for it too.
fn shared_with<'a, S: Survey>(
    survey: &S,
    written: &'a str,
    place: &Option<Place>,
    other: Option<&'a str>,
) -> Option<Obstacle<'a>>
    requires { IfSome (S.told survey.now) (λ told. option_map spot_of place.now ≡ told.spot written.now) }
    ensures exactly { IfSome (S.told survey.now) (λ told.
        option_map said result ≡ specs_shared_with told written.now
        (option_map (λ name. name.now) other.entry)) }
    ensures apart { result ≡ None → Differ (Some written.now)
        (option_map (λ name. name.now) other.entry) }
{
    match other {
        Some(other) if other == written || is_same(place, &survey.place_of(other)) => {
            Some(Obstacle::Shared { written, other })
        }
        _ => None,
    }
}

// A certificate that can't be written.
fn unwritable<'a, S: Survey>(survey: &S, name: Option<&'a str>) -> Option<Obstacle<'a>>
    ensures exactly { IfSome (S.told survey.now) (λ told.
        option_map said result ≡ unwritable_of told (option_map (λ name. name.now) name.entry)) }
    ensures nothing_written { name.entry ≡ None → result ≡ None }
{
    let Some(name) = name else {
        return None;
    };
    match write_fault(survey, name) {
        Some(kind) => Some(Obstacle::Unwritable { name, kind }),
        None => None,
    }
}

// Why a file can't be written, as far as that can be seen before. Of what is there, plain files alone are opened: a pipe would
// tell its reader.
fn write_fault<S: Survey>(survey: &S, name: &str) -> Option<ErrorKind>
    ensures { IfSome (S.told survey.now) (λ told. result ≡ specs_write_fault told name.now) }
{
    match survey.kind_of(name) {
        None => survey.making_fault(name),
        Some(Kind::Folder) => Some(ErrorKind::IsADirectory),
        Some(Kind::Plain) => survey.opening_fault(name),
        Some(Kind::Other) => None,
    }
}
