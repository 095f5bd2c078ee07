// The pages that the words `help` and `version` ask for.
ghost use Rattle.std.specs.Prelude.{◌≡◌, map, string_bytes};
ghost use Rattle.notes.specs.Pages.{asked_page, page_in, words_alone, commands};

use crate::text::Note;
use crate::usage::{put_command_page, put_usage, put_version};
use std::alloc::{AllocError, Global};

/// A page of the program's own: the usage of all commands, that of one, or the version.
#[derive(Clone, Copy, Debug, PartialEq, Eq)]
pub enum Page {
    Usage,
    Solve,
    Check,
    Show,
    Propose,
    Detect,
    Merge,
    Migrate,
    Gen,
    Demo,
    Version,
}

/// The page that words ask for, the program's name first: `help` alone, `help` and a command, or `version` alone. Other words
/// ask for none.
pub fn page_for(words: &[String]) -> Option<Page>
    ensures { result ≡ asked_page (map string_bytes words.now) }
{
    match words {
        [_, word] => page_alone(word.as_str()),
        [_, word, command] if word.as_str() == "help" => page_of_command(command.as_str()),
        _ => None,
    }
}

// The page that a word alone asks for.
fn page_alone(word: &str) -> Option<Page>
    ensures { result ≡ page_in words_alone word.now }
{
    match word {
        "help" => Some(Page::Usage),
        "version" => Some(Page::Version),
        _ => None,
    }
}

// The page of the command of that name.
fn page_of_command(name: &str) -> Option<Page>
    ensures { result ≡ page_in commands name.now }
{
    match name {
        "solve" => Some(Page::Solve),
        "check" => Some(Page::Check),
        "show" => Some(Page::Show),
        "propose" => Some(Page::Propose),
        "detect" => Some(Page::Detect),
        "merge" => Some(Page::Merge),
        "migrate" => Some(Page::Migrate),
        "gen" => Some(Page::Gen),
        "demo" => Some(Page::Demo),
        _ => None,
    }
}

/// The text of a page.
pub fn page_text(alloc: Global, page: Page) -> Result<Vec<u8>, AllocError> {
    let mut note = Note::new(alloc);
    match page {
        Page::Usage => put_usage(&mut note),
        Page::Version => put_version(&mut note),
        _ => put_command_page(&mut note, command_name(page)),
    }
    note.finished()
}

// The name of the command that a page is of; empty for the other pages.
fn command_name(page: Page) -> &'static str {
    match page {
        Page::Solve => "solve",
        Page::Check => "check",
        Page::Show => "show",
        Page::Propose => "propose",
        Page::Detect => "detect",
        Page::Merge => "merge",
        Page::Migrate => "migrate",
        Page::Gen => "gen",
        Page::Demo => "demo",
        Page::Usage | Page::Version => "",
    }
}
