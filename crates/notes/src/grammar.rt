// The grammar of LP texts as states: which token may stand behind which.

/// The direction of a comparison.
#[derive(Clone, Copy, PartialEq, Eq)]
pub enum Sense {
    Most,
    Least,
    Equal,
}

/// What a token is to the grammar.
#[derive(Clone, Copy)]
pub enum Symbol {
    Name,
    /// A name before a colon.
    Label,
    /// `free`, in a bounds section.
    Free,
    /// `inf` or `infinity`, in a bounds section.
    Endless,
    Number,
    Sign,
    Compare,
    Colon,
    /// A mark or a word of what is not supported.
    Feature,
    /// The words of sections.
    Objective,
    Rows,
    Bounds,
    Generals,
    Binaries,
    End,
}

/// What stands before a place.
#[derive(Clone, Copy)]
pub enum State {
    Start,
    /// The objective's word; its label; the colon behind that; a sign, a number, a term of it.
    Goal,
    GoalLabel,
    GoalFresh,
    GoalSign,
    GoalNumber,
    GoalTerm,
    /// The end of a row; its label; the colon behind that; its first signs, its first number.
    Row,
    RowLabel,
    RowFresh,
    RowFirstSign,
    RowFirstNumber,
    /// A term, a sign behind a term, a number behind such a sign; a comparison behind which the side stands.
    RowTerm,
    RowSign,
    RowNumber,
    RowSide,
    /// Behind a row's first number and comparison: signs, a number, a term, behind which the row may end.
    Other,
    OtherNumber,
    OtherTerm,
    /// The end of a bound; signs; a value; a comparison behind it; the name behind that, behind which the bound may end; a
    /// name; a comparison behind it.
    Bound,
    BoundSign,
    BoundValue,
    BoundBehind,
    BoundBetween,
    BoundName,
    BoundSide,
    Generals,
    Binaries,
    End,
}

// The states with the tokens that may stand there, and the state behind each.
const STEPS: [(State, Symbol, State); 109] = [
    (State::Start, Symbol::Objective, State::Goal),
    (State::Goal, Symbol::Label, State::GoalLabel),
    (State::Goal, Symbol::Name, State::GoalTerm),
    (State::Goal, Symbol::Sign, State::GoalSign),
    (State::Goal, Symbol::Number, State::GoalNumber),
    (State::Goal, Symbol::Rows, State::Row),
    (State::GoalLabel, Symbol::Colon, State::GoalFresh),
    (State::GoalFresh, Symbol::Name, State::GoalTerm),
    (State::GoalFresh, Symbol::Label, State::GoalTerm),
    (State::GoalFresh, Symbol::Sign, State::GoalSign),
    (State::GoalFresh, Symbol::Number, State::GoalNumber),
    (State::GoalFresh, Symbol::Rows, State::Row),
    (State::GoalSign, Symbol::Name, State::GoalTerm),
    (State::GoalSign, Symbol::Label, State::GoalTerm),
    (State::GoalSign, Symbol::Sign, State::GoalSign),
    (State::GoalSign, Symbol::Number, State::GoalNumber),
    (State::GoalNumber, Symbol::Name, State::GoalTerm),
    (State::GoalNumber, Symbol::Label, State::GoalTerm),
    (State::GoalNumber, Symbol::Sign, State::GoalSign),
    (State::GoalNumber, Symbol::Rows, State::Row),
    (State::GoalTerm, Symbol::Sign, State::GoalSign),
    (State::GoalTerm, Symbol::Rows, State::Row),
    (State::Row, Symbol::Label, State::RowLabel),
    (State::Row, Symbol::Name, State::RowTerm),
    (State::Row, Symbol::Sign, State::RowFirstSign),
    (State::Row, Symbol::Number, State::RowFirstNumber),
    (State::Row, Symbol::Bounds, State::Bound),
    (State::Row, Symbol::Generals, State::Generals),
    (State::Row, Symbol::Binaries, State::Binaries),
    (State::Row, Symbol::End, State::End),
    (State::RowLabel, Symbol::Colon, State::RowFresh),
    (State::RowFresh, Symbol::Name, State::RowTerm),
    (State::RowFresh, Symbol::Label, State::RowTerm),
    (State::RowFresh, Symbol::Sign, State::RowFirstSign),
    (State::RowFresh, Symbol::Number, State::RowFirstNumber),
    (State::RowFirstSign, Symbol::Name, State::RowTerm),
    (State::RowFirstSign, Symbol::Label, State::RowTerm),
    (State::RowFirstSign, Symbol::Sign, State::RowFirstSign),
    (State::RowFirstSign, Symbol::Number, State::RowFirstNumber),
    (State::RowFirstNumber, Symbol::Name, State::RowTerm),
    (State::RowFirstNumber, Symbol::Label, State::RowTerm),
    (State::RowFirstNumber, Symbol::Compare, State::Other),
    (State::RowTerm, Symbol::Sign, State::RowSign),
    (State::RowTerm, Symbol::Compare, State::RowSide),
    (State::RowSign, Symbol::Name, State::RowTerm),
    (State::RowSign, Symbol::Label, State::RowTerm),
    (State::RowSign, Symbol::Sign, State::RowSign),
    (State::RowSign, Symbol::Number, State::RowNumber),
    (State::RowNumber, Symbol::Name, State::RowTerm),
    (State::RowNumber, Symbol::Label, State::RowTerm),
    (State::RowSide, Symbol::Sign, State::RowSide),
    (State::RowSide, Symbol::Number, State::Row),
    (State::Other, Symbol::Name, State::OtherTerm),
    (State::Other, Symbol::Label, State::OtherTerm),
    (State::Other, Symbol::Sign, State::Other),
    (State::Other, Symbol::Number, State::OtherNumber),
    (State::OtherNumber, Symbol::Name, State::OtherTerm),
    (State::OtherNumber, Symbol::Label, State::OtherTerm),
    (State::OtherTerm, Symbol::Sign, State::Other),
    (State::OtherTerm, Symbol::Compare, State::RowSide),
    (State::OtherTerm, Symbol::Label, State::RowLabel),
    (State::OtherTerm, Symbol::Name, State::RowTerm),
    (State::OtherTerm, Symbol::Number, State::RowFirstNumber),
    (State::OtherTerm, Symbol::Bounds, State::Bound),
    (State::OtherTerm, Symbol::Generals, State::Generals),
    (State::OtherTerm, Symbol::Binaries, State::Binaries),
    (State::OtherTerm, Symbol::End, State::End),
    (State::Bound, Symbol::Name, State::BoundName),
    (State::Bound, Symbol::Free, State::BoundName),
    (State::Bound, Symbol::Sign, State::BoundSign),
    (State::Bound, Symbol::Number, State::BoundValue),
    (State::Bound, Symbol::Endless, State::BoundValue),
    (State::Bound, Symbol::Bounds, State::Bound),
    (State::Bound, Symbol::Generals, State::Generals),
    (State::Bound, Symbol::Binaries, State::Binaries),
    (State::Bound, Symbol::End, State::End),
    (State::BoundSign, Symbol::Sign, State::BoundSign),
    (State::BoundSign, Symbol::Number, State::BoundValue),
    (State::BoundSign, Symbol::Endless, State::BoundValue),
    (State::BoundValue, Symbol::Compare, State::BoundBehind),
    (State::BoundBehind, Symbol::Name, State::BoundBetween),
    (State::BoundBehind, Symbol::Free, State::BoundBetween),
    (State::BoundBetween, Symbol::Compare, State::BoundSide),
    (State::BoundBetween, Symbol::Name, State::BoundName),
    (State::BoundBetween, Symbol::Free, State::BoundName),
    (State::BoundBetween, Symbol::Sign, State::BoundSign),
    (State::BoundBetween, Symbol::Number, State::BoundValue),
    (State::BoundBetween, Symbol::Endless, State::BoundValue),
    (State::BoundBetween, Symbol::Bounds, State::Bound),
    (State::BoundBetween, Symbol::Generals, State::Generals),
    (State::BoundBetween, Symbol::Binaries, State::Binaries),
    (State::BoundBetween, Symbol::End, State::End),
    (State::BoundName, Symbol::Free, State::Bound),
    (State::BoundName, Symbol::Compare, State::BoundSide),
    (State::BoundSide, Symbol::Sign, State::BoundSide),
    (State::BoundSide, Symbol::Number, State::Bound),
    (State::BoundSide, Symbol::Endless, State::Bound),
    (State::Generals, Symbol::Name, State::Generals),
    (State::Generals, Symbol::Label, State::Generals),
    (State::Generals, Symbol::Bounds, State::Bound),
    (State::Generals, Symbol::Generals, State::Generals),
    (State::Generals, Symbol::Binaries, State::Binaries),
    (State::Generals, Symbol::End, State::End),
    (State::Binaries, Symbol::Name, State::Binaries),
    (State::Binaries, Symbol::Label, State::Binaries),
    (State::Binaries, Symbol::Bounds, State::Bound),
    (State::Binaries, Symbol::Generals, State::Generals),
    (State::Binaries, Symbol::Binaries, State::Binaries),
    (State::Binaries, Symbol::End, State::End),
];

/// What stands behind a token; none where it can't stand there.
pub fn next(state: State, symbol: Symbol) -> Option<State> {
    for (before, token, behind) in STEPS.as_slice() {
        if *before as u8 == state as u8 && *token as u8 == symbol as u8 {
            return Some(*behind);
        }
    }
    None
}

/// Whether a comparison that may stand behind a state is the second of a row or a bound, and so has the direction of the
/// first.
pub fn is_second(state: State) -> bool {
    matches!(state, State::OtherTerm | State::BoundBetween)
}

/// Whether the token before a state begins a row, by the state before it.
pub fn begins_row(before: State, after: State) -> bool {
    matches!(before, State::Row | State::OtherTerm)
        && matches!(
            after,
            State::RowLabel | State::RowTerm | State::RowFirstSign | State::RowFirstNumber
        )
}

/// Whether the token before a state is a variable's name in a term.
pub fn is_term(after: State) -> bool {
    matches!(after, State::GoalTerm | State::RowTerm | State::OtherTerm)
}

/// Whether a state is of a bounds section.
pub fn is_bound(state: State) -> bool {
    matches!(
        state,
        State::Bound
            | State::BoundSign
            | State::BoundValue
            | State::BoundBehind
            | State::BoundBetween
            | State::BoundName
            | State::BoundSide
    )
}

/// Whether a state is of a list of whole variables.
pub fn is_list(state: State) -> bool {
    matches!(state, State::Generals | State::Binaries)
}

/// What is expected where a token can't stand, and what to do.
pub fn expected(state: State, symbol: Symbol) -> &'static str {
    match symbol {
        Symbol::Objective
        | Symbol::Rows
        | Symbol::Bounds
        | Symbol::Generals
        | Symbol::Binaries
        | Symbol::End => expected_section(state, symbol),
        _ => expected_token(state),
    }
}

// The same for a token that is no word of a section.
fn expected_token(state: State) -> &'static str {
    match state {
        State::Start => "a text begins with Maximize or Minimize, alone or first in its line",
        State::GoalLabel | State::RowLabel => "a name and a colon come before it",
        State::Goal | State::GoalFresh | State::GoalSign | State::GoalNumber =>
            "an objective is terms as 3 x, with a sign between two",
        State::GoalTerm =>
            "a sign or the line Subject To comes behind a term; multiply numbers out",
        State::Row | State::RowFresh | State::RowFirstSign | State::RowFirstNumber =>
            "a row is terms, a comparison and a number, as in c1: 2 x + y <= 5",
        State::RowTerm => "a sign and a further term, or a comparison, comes behind a term",
        State::RowSign => "a term comes behind a sign, as in + 2 y",
        State::RowNumber =>
            "a number among the terms of a row goes with a name; bring one without to the row's right side",
        State::RowSide => "one number stands behind the comparison; bring variables to its left",
        State::Other | State::OtherNumber | State::OtherTerm =>
            "a row that begins with its number goes on with terms, as in 1 <= x + y or 1 <= x + y <= 5, with both comparisons in one direction",
        State::BoundBetween =>
            "the second comparison of a bound has the direction of the first, as in 1 <= x <= 3",
        State::Generals | State::Binaries => "only names of variables stand in this section",
        State::End => "the text is ended",
        _ => "a bound is x <= 3, x >= 1, 1 <= x <= 3, x = 3 or x free",
    }
}

// The same for a section word.
fn expected_section(state: State, symbol: Symbol) -> &'static str {
    match (state, symbol) {
        (State::Start, _) => "a text begins with Maximize or Minimize",
        (_, Symbol::Objective) => {
            "one objective comes first; if it is a name, put it where it does not begin its line"
        }
        (_, Symbol::Rows) => {
            "the rows begin once, behind a whole objective; if it is a name, put it where it does not begin its line"
        }
        _ => {
            "it begins its line, so it is read as the word of a section, which follows whole rows alone; if it is a name, put it elsewhere in its line"
        }
    }
}
