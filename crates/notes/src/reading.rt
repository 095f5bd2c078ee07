// LP texts, read for the place of their first fault.
use crate::grammar::{
    Sense, State, Symbol, begins_row, is_bound, is_list, is_second, is_term, next,
};
use crate::number::{Number, number_in, number_of};
use bp_theory::Limits;
use lp_token::{LpFault, Section, Tok, TokKind, section_of, tokens};
use std::alloc::{AllocError, Global};
use std::collections::{BTreeMap, BTreeSet};

// The most bytes of a name.
const LONGEST_NAME: usize = 255;

// An endless bound, with its sign.
const ENDLESS: i64 = i64::MAX;

/// The key of want of memory, which has no sentence.
pub const NO_MEMORY: &str = "no-memory";

/// The bytes of white space.
pub const BLANKS: &[u8] = b" \t\r\n";

// The bytes of numbers, of marks and of names.
const DIGITS: &[u8] = b"0123456789";

const MARK_BYTES: &[u8] = b"<>=+-:[]^*";

const NAME_BYTES: &[u8] =
    b"!\"#$%&'(),./0123456789;?@ABCDEFGHIJKLMNOPQRSTUVWXYZ_`abcdefghijklmnopqrstuvwxyz{|}~";

// What marks are; others are not supported.
const MARKS: [(&str, Symbol); 10] = [
    ("<", Symbol::Compare),
    ("<=", Symbol::Compare),
    ("=<", Symbol::Compare),
    (">", Symbol::Compare),
    (">=", Symbol::Compare),
    ("=>", Symbol::Compare),
    ("=", Symbol::Compare),
    ("+", Symbol::Sign),
    ("-", Symbol::Sign),
    (":", Symbol::Colon),
];

/// A row: the token that it begins with, and whether that is its name.
#[derive(Clone, Copy)]
pub struct Row {
    /// The number of its first token, from 0.
    pub token: usize,
    /// Whether the row has a name; one without is called `c` and its number, from 1.
    pub labelled: bool,
}

/// A variable: the token where it occurs first, and its bounds so far.
#[derive(Clone, Copy)]
pub struct Variable {
    /// The number of the token where it occurs first, from 0.
    pub token: usize,
    /// The lower bound so far: 0 where nothing is said, `-i64::MAX` where there is none.
    pub lower: i64,
    /// The upper bound so far: `i64::MAX` where nothing is said or there is none.
    pub upper: i64,
    /// Whether it is under generals or binaries, and so is whole.
    pub listed: bool,
    /// Whether it is under binaries: its bounds are cut to 0 and 1 once all are read.
    pub binary: bool,
}

/// A fault: the key of its sentence, and its token, where it has one.
#[derive(Clone, Copy)]
pub struct Found {
    /// The key of its sentence, as a line of `LP` in `kinds.rt` begins.
    pub key: &'static str,
    /// The number of its token, from 0; none where the text ends too early.
    pub token: Option<usize>,
}

// A bound that is being read.
#[derive(Clone, Copy)]
struct Open {
    // Whether the signs before the next value are negative together.
    negative: bool,
    // The last value, with its sign; `i64::MAX` in size where it is endless.
    value: i64,
    // The variable that occurred last, by its number.
    variable: usize,
}

/// What was read of a text, up to its first fault but those of sums, and that fault: the limits that it is read with, its
/// tokens, its rows, the names of those that have one, the numbers of the rows that such names are given for, its variables,
/// and where the grammar stands.
#[derive(Drop)]
pub struct Reading {
    // What names and numbers are stored by.
    alloc: Global,
    // The limits of the run, usual or large.
    limits: Limits,
    // All tokens of the text, those behind the fault too.
    tokens: Vec<Tok>,
    // The rows so far, in the order of the text.
    rows: Vec<Row>,
    // The names that rows are given.
    labels: BTreeSet<Vec<u8>>,
    // Each N for which a row is given the name `cN`: row N must then have a name of its own.
    numbers: BTreeSet<u64>,
    // The variables so far, in the order in which they occur first.
    variables: Vec<Variable>,
    // The number of each variable, by its name.
    places: BTreeMap<Vec<u8>, usize>,
    // How many terms came in the objective and in rows.
    terms: u32,
    // The state before the next token, or before the one at fault.
    state: State,
    // The direction of the last comparison, which the second one of a row or bound must share.
    sense: Sense,
    // The bound at hand, or what is left of the last one.
    open: Open,
    // The first fault; none as long as there is none.
    found: Option<Found>,
}

/// What was read of a text with these limits; none where it can't be cut, or is too long.
pub fn read(alloc: Global, text: &[u8], limits: Limits) -> Result<Option<Reading>, AllocError> {
    if text.len() > limits.bytes() {
        return Ok(None);
    }
    match tokens(alloc, text) {
        Ok(all) => read_tokens(alloc, text, limits, all),
        Err(LpFault::NoMemory) => Err(AllocError),
        Err(LpFault::At { .. }) => Ok(None),
    }
}

// What was read of the tokens of a text.
fn read_tokens(
    alloc: Global,
    text: &[u8],
    limits: Limits,
    tokens: Vec<Tok>,
) -> Result<Option<Reading>, AllocError> {
    let mut reading = Reading::new(alloc, limits, tokens);
    reading.found = reading.read_all(text);
    match reading.found {
        Some(found) if found.key == NO_MEMORY => Err(AllocError),
        _ => Ok(Some(reading)),
    }
}

impl Reading {
    // Nothing of these tokens.
    fn new(alloc: Global, limits: Limits, tokens: Vec<Tok>) -> Reading {
        Reading {
            alloc,
            limits,
            tokens,
            rows: Vec::new(alloc),
            labels: BTreeSet::new(alloc),
            numbers: BTreeSet::new(alloc),
            variables: Vec::new(alloc),
            places: BTreeMap::new(alloc),
            terms: 0,
            state: State::Start,
            sense: Sense::Equal,
            open: Open {
                negative: false,
                value: 0,
                variable: 0,
            },
            found: None,
        }
    }

    // Reads all tokens, up to the first fault.
    fn read_all(&mut self, text: &[u8]) -> Option<Found> {
        for at in 0..self.tokens.len() {
            if let Some(key) = self.take(text, at) {
                return Some(Found {
                    key,
                    token: Some(at),
                });
            }
        }
        self.fault_at_end()
    }

    // The fault of a text whose tokens have none.
    fn fault_at_end(&self) -> Option<Found> {
        if !matches!(self.state, State::End) {
            return Some(Found {
                key: "no-end",
                token: None,
            });
        }
        match self.fault_of_variables() {
            None => self.fault_of_digits(),
            found => found,
        }
    }

    // Takes a token; the key of its fault, where it is at fault.
    fn take(&mut self, text: &[u8], at: usize) -> Option<&'static str> {
        let symbol = self.symbol(text, at);
        if let Some(key) = self.token_fault(text, at, symbol) {
            return Some(key);
        }
        let before = self.state;
        match next(before, symbol) {
            None => Some("syntax"),
            Some(after) => {
                self.state = after;
                self.note(text, at, before, symbol)
            }
        }
    }

    // The fault of a token for itself, or of the second comparison of a row or a bound; notes the direction of others.
    fn token_fault(&mut self, text: &[u8], at: usize, symbol: Symbol) -> Option<&'static str> {
        let bytes = self.bytes(text, at);
        match symbol {
            Symbol::Feature => Some("feature"),
            Symbol::Number => number_fault(bytes, is_bound(self.state)),
            Symbol::Compare => self.turn(sense_of(bytes)),
            _ => None,
        }
    }

    // Notes the direction of a comparison; its fault, where it is the second and has another than the first.
    fn turn(&mut self, sense: Sense) -> Option<&'static str> {
        if is_second(self.state) && (sense == Sense::Equal || sense != self.sense) {
            return Some("syntax");
        }
        self.sense = sense;
        None
    }

    /// The limits that the text is read with.
    pub fn limits(&self) -> Limits {
        self.limits
    }

    /// The first fault.
    pub fn found(&self) -> Option<Found> {
        self.found
    }

    /// A token.
    pub fn token(&self, at: usize) -> Option<Tok> {
        self.tokens.get(at).copied()
    }

    /// The variables, in the order in which they occur.
    pub fn variables(&self) -> &[Variable] {
        &self.variables
    }

    /// The state before the token at fault.
    pub fn state(&self) -> State {
        self.state
    }

    /// What a token is to the grammar, by the state before it.
    pub fn symbol(&self, text: &[u8], at: usize) -> Symbol {
        let bytes = self.bytes(text, at);
        match self.token(at) {
            Some(token) => match token.kind {
                TokKind::Number => Symbol::Number,
                TokKind::Mark => mark_of(bytes),
                TokKind::Word => word_of(bytes),
                TokKind::Name => self.name_symbol(text, at, bytes),
            },
            None => Symbol::Feature,
        }
    }

    // What a name is to the grammar.
    fn name_symbol(&self, text: &[u8], at: usize, bytes: &[u8]) -> Symbol {
        if is_bound(self.state) {
            bound_name(bytes)
        } else if self.bytes(text, at.saturating_add(1)) == b":".as_slice() {
            Symbol::Label
        } else {
            Symbol::Name
        }
    }

    // Notes what a token begins or names, now that the state is the one behind it.
    fn note(
        &mut self,
        text: &[u8],
        at: usize,
        before: State,
        symbol: Symbol,
    ) -> Option<&'static str> {
        if begins_row(before, self.state) {
            if let Some(key) = self.begin_row(text, at) {
                return Some(key);
            }
        }
        if is_term(self.state) {
            self.add_term(text, at)
        } else if is_bound(self.state) && is_bound(before) {
            self.note_bound(text, at, before, symbol)
        } else if is_list(before) && self.state as u8 == before as u8 {
            self.list(text, at)
        } else {
            None
        }
    }

    // Begins a row.
    fn begin_row(&mut self, text: &[u8], at: usize) -> Option<&'static str> {
        let labelled = matches!(self.state, State::RowLabel);
        let name = if labelled { self.bytes(text, at) } else { &[] };
        let is_twice = if labelled {
            self.has_row(name)
        } else {
            self.numbers
                .contains(&(self.rows.len() as u64).saturating_add(1))
        };
        if is_twice {
            return Some("row-twice");
        }
        if self.rows.len() >= self.limits.rows() as usize {
            return Some("limit-rows");
        }
        let row = Row {
            token: at,
            labelled,
        };
        match self.add_row(row, name) {
            Ok(()) => None,
            Err(AllocError) => Some(NO_MEMORY),
        }
    }

    // Adds a row, with its name where it has one.
    fn add_row(&mut self, row: Row, name: &[u8]) -> Result<(), AllocError> {
        self.rows.push(row)?;
        if row.labelled {
            if let Some(number) = given_number(name) {
                self.numbers.insert(number)?;
            }
            let label = name.to_vec(self.alloc)?;
            self.labels.insert(label)?;
        }
        Ok(())
    }

    /// The bytes of a token; none of them where there is none.
    pub fn bytes<'a>(&self, text: &'a [u8], at: usize) -> &'a [u8] {
        match self.token(at) {
            Some(token) => text.get(token.from..token.to).unwrap_or(&[]),
            None => &[],
        }
    }

    // Counts a term.
    fn add_term(&mut self, text: &[u8], at: usize) -> Option<&'static str> {
        self.terms = self.terms.saturating_add(1);
        if self.terms > self.limits.terms() {
            return Some("limit-terms");
        }
        self.occur(text, at)
    }

    // Notes the occurrence of a variable, which is the one whose bound may follow.
    fn occur(&mut self, text: &[u8], at: usize) -> Option<&'static str> {
        let name = self.bytes(text, at);
        let place = match self.places.get(name) {
            Some(place) => *place,
            None => self.variables.len(),
        };
        self.open.variable = place;
        if place < self.variables.len() {
            return None;
        }
        if place >= self.limits.variables() as usize {
            return Some("limit-variables");
        }
        match self.add_variable(name, at) {
            Ok(()) => None,
            Err(AllocError) => Some(NO_MEMORY),
        }
    }

    // Adds a variable of this name, which occurs first here.
    fn add_variable(&mut self, name: &[u8], token: usize) -> Result<(), AllocError> {
        let key = name.to_vec(self.alloc)?;
        self.places.insert(key, self.variables.len())?;
        self.variables.push(Variable {
            token,
            lower: 0,
            upper: ENDLESS,
            listed: false,
            binary: false,
        })?;
        Ok(())
    }

    // Notes a token of a bounds section.
    fn note_bound(
        &mut self,
        text: &[u8],
        at: usize,
        before: State,
        symbol: Symbol,
    ) -> Option<&'static str> {
        match symbol {
            Symbol::Sign => {
                self.open.negative = self.open.negative
                    != (self.bytes(text, at) == b"-".as_slice());
                None
            }
            Symbol::Number | Symbol::Endless => {
                self.take_value(text, at, before, symbol);
                None
            }
            Symbol::Free if matches!(self.state, State::Bound) => {
                self.unbind();
                None
            }
            Symbol::Name | Symbol::Label | Symbol::Free => self.take_name(text, at, before),
            _ => None,
        }
    }

    // Takes the value of a bound, behind whose variable it may stand.
    fn take_value(&mut self, text: &[u8], at: usize, before: State, symbol: Symbol) {
        self.open.value = self.value(text, at, symbol);
        self.open.negative = false;
        if matches!(before, State::BoundSide) {
            self.bound(self.sense);
        }
    }

    // Takes the variable of a bound, behind whose value it may stand.
    fn take_name(&mut self, text: &[u8], at: usize, before: State) -> Option<&'static str> {
        let limit = self.occur(text, at);
        if matches!(before, State::BoundBehind) {
            self.bound(turned(self.sense));
        }
        limit
    }

    // The value of a token, with the sign before it.
    fn value(&self, text: &[u8], at: usize, symbol: Symbol) -> i64 {
        let magnitude = match symbol {
            Symbol::Number => magnitude_of(self.bytes(text, at)),
            _ => ENDLESS,
        };
        if self.open.negative {
            magnitude.saturating_neg()
        } else {
            magnitude
        }
    }

    // Bounds the variable by the value.
    fn bound(&mut self, sense: Sense) {
        let value = self.open.value;
        if let Some(variable) = self.variables.get_mut(self.open.variable) {
            if sense != Sense::Most {
                variable.lower = value;
            }
            if sense != Sense::Least {
                variable.upper = value;
            }
        }
    }

    // Takes the variable's bounds away.
    fn unbind(&mut self) {
        if let Some(variable) = self.variables.get_mut(self.open.variable) {
            variable.lower = -ENDLESS;
            variable.upper = ENDLESS;
        }
    }

    // Lists a variable as a whole one.
    fn list(&mut self, text: &[u8], at: usize) -> Option<&'static str> {
        let limit = self.occur(text, at);
        let binary = matches!(self.state, State::Binaries);
        if let Some(variable) = self.variables.get_mut(self.open.variable) {
            variable.listed = true;
            variable.binary = variable.binary || binary;
        }
        limit
    }

    // The first fault of a variable.
    fn fault_of_variables(&self) -> Option<Found> {
        for variable in &self.variables {
            if let Some(key) = variable_fault(variable) {
                return Some(Found {
                    key,
                    token: Some(variable.token),
                });
            }
        }
        None
    }

    // The fault of the widths of the variables' bounds.
    fn fault_of_digits(&self) -> Option<Found> {
        let mut digits = 0u64;
        for variable in &self.variables {
            digits = digits.saturating_add(digits_of(variable));
            if digits > u64::from(self.limits.digits()) {
                return Some(Found {
                    key: "limit-digits",
                    token: Some(variable.token),
                });
            }
        }
        None
    }

    /// Whether a row has the name.
    pub fn has_row(&self, name: &[u8]) -> bool {
        self.labels.contains(name) || self.is_given(given_number(name))
    }

    // Whether there is a row without a name that has this number, from 1.
    fn is_given(&self, number: Option<u64>) -> bool {
        match number {
            Some(number) if 0 < number && number <= self.rows.len() as u64 => {
                let at = (number - 1) as usize;
                !self.rows[at].labelled
            }
            _ => false,
        }
    }

    /// Whether a variable has the name.
    pub fn has_variable(&self, name: &[u8]) -> bool {
        self.places.get(name).is_some()
    }

    /// The token that begins the only row, or the objective, that a line begins; none where there are others.
    pub fn lone_sum(&self, line: u64) -> Option<usize> {
        let mut lone = if self.is_on(0, line) { Some(0) } else { None };
        for row in &self.rows {
            if self.is_on(row.token, line) {
                if lone.is_some() {
                    return None;
                }
                lone = Some(row.token);
            }
        }
        lone
    }

    /// Whether a row begins with this token.
    pub fn begins_at(&self, token: usize) -> bool {
        let at = self.rows.partition_point(|row| row.token < token);
        match self.rows.get(at) {
            Some(row) => row.token == token,
            None => false,
        }
    }

    /// The number of the variable that has the name.
    pub fn place(&self, name: &[u8]) -> Option<usize> {
        self.places.get(name).copied()
    }

    /// The greatest magnitude of a variable's values within its bounds, at least 1.
    pub fn reach(&self, place: usize) -> u64 {
        match self.variables.get(place) {
            Some(variable) => {
                let (lower, upper) = span_of(variable);
                lower.unsigned_abs().max(upper.unsigned_abs()).max(1)
            }
            None => 1,
        }
    }

    // Whether a token stands on a line.
    fn is_on(&self, at: usize, line: u64) -> bool {
        match self.token(at) {
            Some(token) => u64::from(token.line) == line,
            None => false,
        }
    }
}

// The fault of a number.
fn number_fault(bytes: &[u8], bound: bool) -> Option<&'static str> {
    match number_of(bytes) {
        Number::Whole(_) => None,
        Number::Part => Some(if bound {
            "not-whole-bound"
        } else {
            "not-whole"
        }),
        Number::Large => Some("too-large"),
        Number::Endless => { if bound { None } else { Some("too-large") } }
    }
}

// What a mark is.
fn mark_of(bytes: &[u8]) -> Symbol {
    for (mark, symbol) in MARKS.as_slice() {
        if mark.as_bytes() == bytes {
            return *symbol;
        }
    }
    Symbol::Feature
}

// The direction of a comparison.
fn sense_of(bytes: &[u8]) -> Sense {
    if bytes.contains(&b'<') {
        Sense::Most
    } else if bytes.contains(&b'>') {
        Sense::Least
    } else {
        Sense::Equal
    }
}

// What a section word is.
fn word_of(bytes: &[u8]) -> Symbol {
    match section_of(bytes) {
        Some(section) => section_symbol(section),
        None => Symbol::Name,
    }
}

// What the word of a section is.
fn section_symbol(section: Section) -> Symbol {
    match section {
        Section::Maximize | Section::Minimize => Symbol::Objective,
        Section::Rows => Symbol::Rows,
        Section::Bounds => Symbol::Bounds,
        Section::Generals => Symbol::Generals,
        Section::Binaries => Symbol::Binaries,
        Section::End => Symbol::End,
        Section::Unsupported => Symbol::Feature,
    }
}

// What a name is in a bounds section.
fn bound_name(bytes: &[u8]) -> Symbol {
    if bytes.eq_ignore_ascii_case(b"free") {
        return Symbol::Free;
    }
    if bytes.eq_ignore_ascii_case(b"inf") || bytes.eq_ignore_ascii_case(b"infinity") {
        return Symbol::Endless;
    }
    Symbol::Name
}

// A comparison seen from its other side.
fn turned(sense: Sense) -> Sense {
    match sense {
        Sense::Most => Sense::Least,
        Sense::Least => Sense::Most,
        Sense::Equal => Sense::Equal,
    }
}

// The number that a token is, or an endless one.
fn magnitude_of(bytes: &[u8]) -> i64 {
    match number_of(bytes) {
        Number::Whole(value) => value,
        _ => ENDLESS,
    }
}

// The bounds of a variable in the end.
fn span_of(variable: &Variable) -> (i64, i64) {
    if variable.binary {
        return (variable.lower.max(0), variable.upper.min(1));
    }
    (variable.lower, variable.upper)
}

// Whether a bound is endless.
fn is_endless(value: i64) -> bool {
    value == ENDLESS || value == -ENDLESS
}

// The fault of a variable.
fn variable_fault(variable: &Variable) -> Option<&'static str> {
    let (lower, upper) = span_of(variable);
    if lower > upper {
        return Some("crossed");
    }
    match (is_endless(lower), is_endless(upper)) {
        (true, true) => Some("unbounded-both"),
        (true, false) => Some("unbounded-below"),
        (false, true) => Some("unbounded-above"),
        (false, false) => (!variable.listed && lower != upper).then_some("continuous"),
    }
}

// The binary digits of the width of a variable's bounds.
fn digits_of(variable: &Variable) -> u64 {
    let (lower, upper) = span_of(variable);
    let width = upper.saturating_sub(lower).max(0);
    u64::from(i64::BITS.saturating_sub(width.leading_zeros()))
}

// The number of the row that a name is given for where the row has none.
fn given_number(name: &[u8]) -> Option<u64> {
    match name.split_first() {
        Some((b'c', digits)) if digits.first() != Some(&b'0') => number_in(digits),
        _ => None,
    }
}

/// Where the first byte of a line stands that begins no token, or its first name that is too long: where it is in the text,
/// and where it ends.
pub fn uncut(text: &[u8], from: usize, to: usize) -> Option<(usize, usize)> {
    let line = text.get(from..to)?;
    let mut skip = 0usize;
    for at in 0..line.len() {
        if skip > 0 {
            skip -= 1;
        } else if line[at] == b'\\' {
            return None;
        } else if !BLANKS.contains(&line[at]) {
            let count = token_len(&line[at..]);
            if count == 0 || count > LONGEST_NAME {
                let first = from.saturating_add(at);
                return Some((first, first.saturating_add(count.max(1))));
            }
            skip = count - 1;
        }
    }
    None
}

// How many bytes the token has that these begin with, or 0; a mark is counted byte by byte.
fn token_len(bytes: &[u8]) -> usize {
    let count = number_len(bytes);
    match bytes.first() {
        Some(first) if count == 0 && *first != b'.' => {
            if MARK_BYTES.contains(first) {
                1
            } else {
                len_in(bytes, NAME_BYTES)
            }
        }
        _ => count,
    }
}

// How many of the first bytes are in a set.
fn len_in(bytes: &[u8], set: &[u8]) -> usize {
    for at in 0..bytes.len() {
        if !set.contains(&bytes[at]) {
            return at;
        }
    }
    bytes.len()
}

// The bytes from a place on; none where there are fewer.
fn behind(bytes: &[u8], at: usize) -> &[u8] {
    bytes.get(at..).unwrap_or(&[])
}

// How many bytes a number has that stands first, or 0.
fn number_len(bytes: &[u8]) -> usize {
    let whole = len_in(bytes, DIGITS);
    let part = part_len(behind(bytes, whole));
    if whole == 0 && part < 2 {
        return 0;
    }
    let mantissa = whole.saturating_add(part);
    mantissa.saturating_add(exponent_len(behind(bytes, mantissa)))
}

// How many bytes a point and its digits have that stand first, or 0.
fn part_len(bytes: &[u8]) -> usize {
    if bytes.first() == Some(&b'.') {
        len_in(behind(bytes, 1), DIGITS).saturating_add(1)
    } else {
        0
    }
}

// How many bytes an exponent has that stands first, or 0 where it has no digit.
fn exponent_len(bytes: &[u8]) -> usize {
    let sign: usize = match bytes {
        [b'e' | b'E', b'+' | b'-', ..] => 2,
        [b'e' | b'E', ..] => 1,
        _ => return 0,
    };
    match len_in(behind(bytes, sign), DIGITS) {
        0 => 0,
        digits => sign.saturating_add(digits),
    }
}
