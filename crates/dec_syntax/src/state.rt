// What is kept of the tokens that were taken.
ghost use Rattle.std.specs.Prelude.{◌≡◌, ℕ, ◌<◌, ◌≤◌, ◌∷◌, ◌++◌, ◌&&◌, ◌^◌, [], not, true, false, replicate, List, Option, length, map, IsTrue, IfNone, IfOk, OnErr, None, Some, MatchOption};
ghost use Rattle.std.specs.Str.{IsUtf8};
ghost use Rattle.std.specs.List.{list_any};
ghost use Rattle.bp_model.specs.Named.{IsKept};
ghost use Rattle.dec_syntax.specs.Cut.{Token, token_of};
ghost use Rattle.dec_syntax.specs.Parts.{Part, number_part, opened, numbered, number_among, decomposition_of, is_listed, place_in};
ghost use Rattle.dec_syntax.specs.Words.{number_of};
ghost use Rattle.dec_syntax.specs.Faults.{awaits_number, is_single, names_block, keyword_fault, block_fault, number_fault, row_fault, variable_fault, part_fault, end_fault};
ghost use Rattle.dec_syntax.specs.State.{Lists, HasRoom, Keeps, Takes, came_in, noted, with_number};

use crate::kind::DecKind;
use crate::words::{Keyword, Section, holds_bad_byte, keyword_of, number};
use bp_model::{Dec, Model};
use bp_theory::{Items, Limits};
use name_table::IndexedModel;
use std::alloc::{AllocError, Global};
use std::str;

/// For each row whether it is listed, and its block (from 0) or the master.
#[derive(Drop)]
pub struct Listing {
    /// By number of the row: its block, or none for the master, and as long as it isn't listed.
    pub places: Vec<Option<u32>>,
    /// By number of the row: whether it is listed.
    pub seen: Vec<bool>,
}

/// What a reader keeps: the section, which keywords of those that come at most once have come, the number of blocks,
/// whether rows that aren't listed are refused, the limits of its model, the rows and the variables that are listed.
#[derive(Drop)]
pub struct Reader {
    /// What the next word is, unless it is a keyword.
    pub section: Section,
    /// Whether PRESOLVED came.
    pub presolved: bool,
    /// Whether NBLOCKS came; no block may be named before.
    pub counted: bool,
    /// Whether CONSDEFAULTMASTER came.
    pub defaulted: bool,
    /// The number behind NBLOCKS, 0 before.
    pub blocks: u32,
    /// Whether CONSDEFAULTMASTER came with 0: each row has to be listed.
    pub strict: bool,
    /// The limits of the model, which bound the number of blocks.
    pub limits: Limits,
    /// The rows that are listed, with an entry for each row of the model.
    pub rows: Listing,
    /// In the order of the text: the number of a variable, and its block, from 0, or none under the master. A variable
    /// may come several times.
    pub listed: Vec<(u32, Option<u32>)>,
}

// Whether a number is asked for.
fn is_awaiting(section: Section) -> bool
    ensures { result ≡ awaits_number section }
{
    matches!(section, Section::Awaits(_))
}

// Whether a keyword names a block.
fn is_of_block(keyword: Keyword) -> bool
    ensures { result ≡ names_block keyword }
{
    matches!(keyword, Keyword::Block | Keyword::BlockVars)
}

// The section that a keyword opens.
fn section_of(keyword: Keyword) -> Section
    ensures { result ≡ opened keyword }
{
    match keyword {
        Keyword::MasterConss => Section::Rows(None),
        Keyword::MasterVars => Section::Vars(None),
        Keyword::LinkingVars => Section::Links,
        Keyword::Presolved => Section::Awaits(Keyword::Presolved),
        Keyword::Nblocks => Section::Awaits(Keyword::Nblocks),
        Keyword::ConsDefaultMaster => Section::Awaits(Keyword::ConsDefaultMaster),
        Keyword::Block => Section::Awaits(Keyword::Block),
        Keyword::BlockVars => Section::Awaits(Keyword::BlockVars),
    }
}

// The section behind a keyword's number.
fn section_behind(keyword: Keyword, n: u32) -> Section
    ensures { result ≡ numbered keyword n }
{
    match keyword {
        Keyword::Block => Section::Rows(Some(n.saturating_sub(1))),
        Keyword::BlockVars => Section::Vars(Some(n.saturating_sub(1))),
        _ => Section::Closed,
    }
}

// What is wrong with a block's number.
fn fault_of_block(blocks: u32, n: u32) -> Option<DecKind>
    ensures { result ≡ block_fault blocks n }
{
    if 1 <= n && n <= blocks {
        None
    } else {
        Some(DecKind::BlockNumber)
    }
}

// What is wrong with a keyword's number under limits.
fn fault_of_number(limits: Limits, blocks: u32, keyword: Keyword, n: u32) -> Option<DecKind>
    ensures { result ≡ number_fault limits blocks keyword n }
{
    match keyword {
        Keyword::Presolved => match n {
            0 => None,
            1 => Some(DecKind::Presolved),
            _ => Some(DecKind::Syntax),
        },
        Keyword::Nblocks => (limits.blocks() < n).then_some(DecKind::Limit),
        Keyword::ConsDefaultMaster => (1 < n).then_some(DecKind::Syntax),
        Keyword::Block | Keyword::BlockVars => fault_of_block(blocks, n),
        _ => None,
    }
}

// What is wrong with the name of a variable.
fn fault_of_variable(m: &IndexedModel<'_>, name: &[u8]) -> Option<DecKind>
    requires { IsUtf8 name.now }
    ensures { result ≡ variable_fault m.now.names name.now }
{
    let Ok(name) = str::from_utf8(name) else {
        unreachable!()
    };
    match m.var_of(name) {
        None => Some(DecKind::UnknownVar),
        Some(_) => None,
    }
}

// For each row: not listed, and so under the master.
fn unlisted(alloc: Global, rows: usize) -> Result<Listing, AllocError>
    ensures places { IfOk result (λ listing. listing.places.items ≡ replicate rows None) }
    ensures seen { IfOk result (λ listing. listing.seen.items ≡ replicate rows false) }
{
    let places = Vec::from_elem(alloc, None, rows)?;
    let seen = Vec::from_elem(alloc, false, rows)?;
    Ok(Listing { places, seen })
}

impl Listing {
    // Lists a row by its name under a place; a fault where it isn't there or is listed already.
    fn list(&mut self, m: &IndexedModel<'_>, place: Option<u32>, name: &[u8]) -> Option<DecKind>
        requires text { IsUtf8 name.now }
        requires kept { IsKept m.now }
        requires room { HasRoom m.now.row_names self.old }
        ensures fault { (listing : List (List ℕ × Option ℕ)) →
            Lists m.now.row_names self.old listing →
            result ≡ row_fault m.now.row_names listing name.now }
        ensures listed { (listing : List (List ℕ × Option ℕ)) →
            Lists m.now.row_names self.old listing →
            IfNone result (Lists m.now.row_names self.new ((name.now, place) ∷ listing)) }
    {
        let Ok(name) = str::from_utf8(name) else {
            unreachable!()
        };
        let Some(row) = m.row_of(name) else {
            return Some(DecKind::UnknownRow);
        };
        let row = row as usize;
        if self.seen[row] {
            return Some(DecKind::RowTwice);
        }
        self.seen[row] = true;
        self.places[row] = place;
        None
    }

    // Whether a row isn't listed.
    fn lacks_row(&self) -> bool
        ensures { result ≡ list_any not self.now.seen.items }
    {
        self.seen.iter().any(|seen| !*seen)
    }
}

impl Reader {
    /// A reader of a text for a model, before its first token.
    pub fn new(alloc: Global, m: &Model) -> Result<Reader, AllocError>
        ensures { IfOk result (λ reader. Keeps m.now reader []) }
    {
        let rows = unlisted(alloc, m.rows() as usize)?;
        Ok(Reader {
            section: Section::Outside,
            presolved: false,
            counted: false,
            defaulted: false,
            blocks: 0,
            strict: false,
            limits: m.limits(),
            rows,
            listed: Vec::new(alloc),
        })
    }

    // Whether a keyword comes again that comes at most once.
    fn repeats(&self, keyword: Keyword) -> bool
        ensures { result ≡ (is_single keyword && came_in self.now keyword) }
    {
        match keyword {
            Keyword::Presolved => self.presolved,
            Keyword::Nblocks => self.counted,
            Keyword::ConsDefaultMaster => self.defaulted,
            _ => false,
        }
    }

    // Keeps that a keyword came.
    fn note(&mut self, keyword: Keyword)
        ensures { self.new ≡ noted self.old keyword }
    {
        match keyword {
            Keyword::Presolved => self.presolved = true,
            Keyword::Nblocks => self.counted = true,
            Keyword::ConsDefaultMaster => self.defaulted = true,
            _ => {}
        }
        self.section = section_of(keyword);
    }

    // Takes a keyword.
    fn open(&mut self, keyword: Keyword) -> Option<DecKind>
        ensures fault { result ≡ keyword_fault self.old.section (came_in self.old) keyword }
        ensures noted { IfNone result (self.new ≡ noted self.old keyword) }
    {
        if is_awaiting(self.section) || self.repeats(keyword) {
            return Some(DecKind::Syntax);
        }
        if is_of_block(keyword) && !self.counted {
            return Some(DecKind::NoNblocks);
        }
        self.note(keyword);
        None
    }

    // Takes a keyword's number.
    fn count(&mut self, keyword: Keyword, n: u32) -> Option<DecKind>
        ensures fault { result ≡ number_fault self.old.limits self.old.blocks keyword n }
        ensures counted { IfNone result (self.new ≡ with_number self.old keyword n) }
    {
        let fault = fault_of_number(self.limits, self.blocks, keyword, n);
        if fault.is_some() {
            return fault;
        }
        match keyword {
            Keyword::Nblocks => self.blocks = n,
            Keyword::ConsDefaultMaster => self.strict = n == 0,
            _ => {}
        }
        self.section = section_behind(keyword, n);
        None
    }

    // Lists a row by its name under a place.
    fn list_row(&mut self, m: &IndexedModel<'_>, place: Option<u32>, name: &[u8]) -> Option<DecKind>
        requires text { IsUtf8 name.now }
        requires kept { IsKept m.now }
        requires room { HasRoom m.now.row_names self.old.rows }
        ensures fault { (listing : List (List ℕ × Option ℕ)) →
            Lists m.now.row_names self.old.rows listing →
            result ≡ row_fault m.now.row_names listing name.now }
        ensures listed { (listing : List (List ℕ × Option ℕ)) →
            Lists m.now.row_names self.old.rows listing →
            IfNone result (Lists m.now.row_names self.new.rows ((name.now, place) ∷ listing)) }
        ensures others { self.new ≡ record self.old { rows = self.new.rows } }
    {
        self.rows.list(m, place, name)
    }

    // Lists a variable by its name under a place.
    fn list_variable(
        &mut self,
        m: &IndexedModel<'_>,
        place: Option<u32>,
        name: &[u8],
    ) -> Result<Option<DecKind>, AllocError>
        requires text { IsUtf8 name.now }
        requires kept { IsKept m.now }
        ensures fault { IfOk result (λ fault. fault ≡ variable_fault m.now.names name.now) }
        ensures listed { IfOk result (λ fault.
            IfNone fault (self.new ≡ record self.old { listed = self.new.listed })) }
        ensures entry { IfOk result (λ fault.
            IfNone fault (self.new.listed.items ≡ self.old.listed.items ++
            (number_among m.now.names name.now, place) ∷ [])) }
    {
        let Ok(name) = str::from_utf8(name) else {
            unreachable!()
        };
        let Some(var) = m.var_of(name) else {
            return Ok(Some(DecKind::UnknownVar));
        };
        self.listed.push((var, place))?;
        Ok(None)
    }

    /// Takes a token; its fault, if it has one.
    pub fn take(
        &mut self,
        m: &IndexedModel<'_>,
        first: bool,
        word: &[u8],
    ) -> Result<Option<DecKind>, AllocError>
        requires kept { IsKept m.now }
        requires room { HasRoom m.now.row_names self.old.rows }
        ensures { (earlier : List Part) (line : ℕ) → Keeps m.now self.old earlier
            → Takes m.now self.new earlier (token_of line first word.now) result }
    {
        if holds_bad_byte(word) {
            return Ok(Some(DecKind::BadByte));
        }
        if let Some(keyword) = keyword_of(first, word) {
            return Ok(self.open(keyword));
        }
        match self.section {
            Section::Outside => Ok(Some(DecKind::Syntax)),
            Section::Closed => Ok(Some(DecKind::Syntax)),
            Section::Awaits(keyword) => match number(word) {
                Some(n) => Ok(self.count(keyword, n)),
                None => Ok(Some(DecKind::Syntax)),
            },
            Section::Rows(place) => Ok(self.list_row(m, place, word)),
            Section::Vars(place) => self.list_variable(m, place, word),
            Section::Links => Ok(fault_of_variable(m, word)),
        }
    }

    /// What is wrong with a text that ends here.
    pub fn fault_at_end(&self, m: &IndexedModel<'_>) -> Option<DecKind>
        ensures { (all : List Part) → Keeps m.now self.now all → result ≡ end_fault m.now all }
    {
        if is_awaiting(self.section) {
            return Some(DecKind::Syntax);
        }
        if !self.counted {
            return Some(DecKind::NoNblocks);
        }
        if self.strict && self.rows.lacks_row() {
            return Some(DecKind::Unassigned);
        }
        None
    }

    /// The decomposition that was read.
    pub fn into_dec(self, m: &IndexedModel<'_>) -> Dec
        requires { self.blocks ≤ 131072 }
        ensures { (all : List Part) → Keeps m.now self all → result ≡ decomposition_of m.now all }
    {
        let Reader {
            blocks,
            rows,
            listed,
            ..
        } = self;
        let Listing { places, .. } = rows;
        Dec::make(blocks, Items::from_vec(places), Items::from_vec(listed))
    }
}
