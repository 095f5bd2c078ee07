// What the arguments of a subcommand say: files, numbers and flags.
ghost use Rattle.std.specs.Prelude.{◌≡◌, ◌<◌, ◌^◌, ℕ, Err, None, Some, Option, option_map, codes, IfOk, IfSome, IfNone};
ghost use Rattle.clap.specs.Words.{found_of, rows_of, first_of};
ghost use Rattle.cli_orders.specs.Orders.{IsNumber, HasNumber, MayHaveNumber, HasCount, is_set, limits_of, IsWatching};
ghost use Rattle.cli_orders.specs.Parts.{IsProblem, IsPair, AreSides, AreEnds, IsScale, AreSolveNumbers};
ghost use Rattle.cli_orders.specs.declared.parts.Pair.{Pair};
ghost use Rattle.cli_orders.specs.declared.parts.Sides.{Sides};
ghost use Rattle.cli_orders.specs.declared.parts.Scale.{Scale};
ghost use Rattle.cli_orders.specs.declared.parts.SolveNumbers.{SolveNumbers};

use crate::command::{MOST_CUTS, MOST_LEAF, MOST_SIZE, MOST_STEPS, MOST_WORKERS};
use crate::order::{Watching, WordFault};
use crate::parts::{Ends, Pair, Problem, Scale, Sides, SolveNumbers};
use crate::text::Text;
use bp_theory::Limits;
use clap::ArgMatches;
use std::alloc::{AllocError, Global};

/// The numbers of an order to solve.
pub fn solve_numbers(solve: &ArgMatches) -> Result<SolveNumbers, WordFault>
    ensures numbers { IfOk result (AreSolveNumbers (rows_of (found_of solve.now))) }
    ensures refused { result ≡ Err WordFault.Refused → (numbers : SolveNumbers) →
        AreSolveNumbers (rows_of (found_of solve.now)) numbers → ⊥ }
{
    let steps = optional_number(solve, "steps", 0, MOST_STEPS)?;
    let leaf = optional_number(solve, "leaf", 1, MOST_LEAF)?;
    let workers = optional_count(solve, "workers", 1, MOST_WORKERS)?;
    let order = optional_number(solve, "order", 0, u64::MAX)?;
    let cuts = count_or_none(solve, "cuts", MOST_CUTS)?;
    Ok(SolveNumbers {
        steps,
        leaf,
        workers,
        order,
        cuts,
    })
}

/// The files of certificates that an order to solve may name.
pub fn ends_of(alloc: Global, solve: &ArgMatches) -> Result<Ends, AllocError>
    ensures { IfOk result (AreEnds (rows_of (found_of solve.now))) }
{
    let cert = optional(alloc, solve, "cert")?;
    let from = optional(alloc, solve, "from")?;
    Ok(Ends { cert, from })
}

/// What watches the search of an order to solve.
pub fn watching_of(alloc: Global, solve: &ArgMatches) -> Result<Watching, AllocError>
    ensures { IfOk result (IsWatching (rows_of (found_of solve.now))) }
{
    let time = optional(alloc, solve, "time")?;
    let gap = optional(alloc, solve, "gap")?;
    let log = optional(alloc, solve, "log")?;
    let stop = optional(alloc, solve, "stop")?;
    Ok(Watching {
        time,
        gap,
        log,
        stop,
    })
}

/// The files of a problem: the LP file, and the decomposition's where it is named.
pub fn problem_of(alloc: Global, matches: &ArgMatches) -> Result<Problem, WordFault>
    ensures files { IfOk result (IsProblem (rows_of (found_of matches.now))) }
    ensures refused { result ≡ Err WordFault.Refused →
        first_of (codes "lp") (rows_of (found_of matches.now)) ≡ None }
{
    let lp = given(alloc, matches, "lp")?;
    let dec = optional(alloc, matches, "dec")?;
    Ok(Problem { lp, dec })
}

// The LP file and the decomposition's, both named.
pub fn pair_of(alloc: Global, matches: &ArgMatches) -> Result<Pair, WordFault>
    ensures files { IfOk result (IsPair (rows_of (found_of matches.now))) }
    ensures refused { result ≡ Err WordFault.Refused →
        (pair : Pair) → IsPair (rows_of (found_of matches.now)) pair → ⊥ }
{
    let lp = given(alloc, matches, "lp")?;
    let dec = given(alloc, matches, "dec")?;
    Ok(Pair { lp, dec })
}

// The files of the certificates to merge.
pub fn sides_of(alloc: Global, matches: &ArgMatches) -> Result<Sides, WordFault>
    ensures files { IfOk result (AreSides (rows_of (found_of matches.now))) }
    ensures refused { result ≡ Err WordFault.Refused →
        (sides : Sides) → AreSides (rows_of (found_of matches.now)) sides → ⊥ }
{
    let first = given(alloc, matches, "first")?;
    let second = given(alloc, matches, "second")?;
    Ok(Sides { first, second })
}

// The seed and the size.
pub fn scale_of(matches: &ArgMatches) -> Result<Scale, WordFault>
    ensures numbers { IfOk result (IsScale (rows_of (found_of matches.now))) }
    ensures refused { result ≡ Err WordFault.Refused →
        (scale : Scale) → IsScale (rows_of (found_of matches.now)) scale → ⊥ }
{
    let seed = number(matches, "seed", 0, u64::MAX)?;
    let size = number(matches, "size", 1, MOST_SIZE)?;
    Ok(Scale {
        seed,
        size: size as u32,
    })
}

// The number of an argument.
fn number(matches: &ArgMatches, id: &str, low: u64, high: u64) -> Result<u64, WordFault>
    ensures number { IfOk result (HasNumber (first_of id.now (rows_of (found_of matches.now)))
        low high) }
    ensures refused { result ≡ Err WordFault.Refused →
        (n : ℕ) → HasNumber (first_of id.now (rows_of (found_of matches.now))) low high n → ⊥ }
{
    optional_number(matches, id, low, high)?.ok_or(WordFault::Refused)
}

// The number of an argument, where it is given.
pub fn optional_number(
    matches: &ArgMatches,
    id: &str,
    low: u64,
    high: u64,
) -> Result<Option<u64>, WordFault>
    ensures number { IfOk result (MayHaveNumber (first_of id.now (rows_of (found_of matches.now)))
        low high) }
    ensures refused { result ≡ Err WordFault.Refused → (n : Option ℕ) →
        MayHaveNumber (first_of id.now (rows_of (found_of matches.now))) low high n → ⊥ }
{
    match value_of(matches, id) {
        Some(text) => match number_in(text, low, high) {
            Some(n) => Ok(Some(n)),
            None => Err(WordFault::Refused),
        },
        None => Ok(None),
    }
}

// The number of an argument, of 32 bits, where it is given.
fn optional_count(
    matches: &ArgMatches,
    id: &str,
    low: u64,
    high: u64,
) -> Result<Option<u32>, WordFault>
    requires { high < 2 ^ 32 }
    ensures number { IfOk result (MayHaveNumber (first_of id.now (rows_of (found_of matches.now)))
        low high) }
    ensures refused { result ≡ Err WordFault.Refused → (n : Option ℕ) →
        MayHaveNumber (first_of id.now (rows_of (found_of matches.now))) low high n → ⊥ }
{
    match optional_number(matches, id, low, high)? {
        Some(n) => Ok(Some(n as u32)),
        None => Ok(None),
    }
}

// The number of an argument, of 32 bits; 0 where it isn't given.
fn count_or_none(matches: &ArgMatches, id: &str, high: u64) -> Result<u32, WordFault>
    requires { high < 2 ^ 32 }
    ensures number { IfOk result (HasCount (first_of id.now (rows_of (found_of matches.now))) high) }
    ensures refused { result ≡ Err WordFault.Refused → (n : ℕ) →
        HasCount (first_of id.now (rows_of (found_of matches.now))) high n → ⊥ }
{
    match value_of(matches, id) {
        Some(text) => match number_in(text, 0, high) {
            Some(n) => Ok(n as u32),
            None => Err(WordFault::Refused),
        },
        None => Ok(0),
    }
}

// The number that a text means, where it means one from `low` to `high`.
fn number_in(text: &str, low: u64, high: u64) -> Option<u64>
    ensures number { IfSome result (IsNumber text.now low high) }
    ensures none { IfNone result ((n : ℕ) → IsNumber text.now low high n → ⊥) }
{
    match text.parse::<u64>() {
        Ok(n) if low <= n && n <= high => Some(n),
        _ => None,
    }
}

// Whether a flag is given.
pub fn flag(matches: &ArgMatches, id: &str) -> bool
    ensures { result ≡ is_set (first_of id.now (rows_of (found_of matches.now))) }
{
    match value_of(matches, id) {
        Some(text) => text == "true",
        None => false,
    }
}

/// The limits that a model keeps: the large ones where the flag `--large` is given.
pub fn limits_of(matches: &ArgMatches) -> Limits
    ensures { result ≡ limits_of (first_of (codes "large") (rows_of (found_of matches.now))) }
{
    if flag(matches, "large") {
        Limits::Large
    } else {
        Limits::Usual
    }
}

// The value of an argument.
pub fn given(alloc: Global, matches: &ArgMatches, id: &str) -> Result<Text, WordFault>
    ensures value { IfOk result (λ text. first_of id.now (rows_of (found_of matches.now)) ≡
        Some text) }
    ensures refused { result ≡ Err WordFault.Refused →
        first_of id.now (rows_of (found_of matches.now)) ≡ None }
{
    optional(alloc, matches, id)?.ok_or(WordFault::Refused)
}

// A copy of the value of an argument, where it is given.
fn optional(alloc: Global, matches: &ArgMatches, id: &str) -> Result<Option<Text>, AllocError>
    ensures { IfOk result (λ text. first_of id.now (rows_of (found_of matches.now)) ≡ text) }
{
    match value_of(matches, id) {
        Some(text) => Ok(Some(Text::from_str(alloc, text)?)),
        None => Ok(None),
    }
}

// The value of an argument, where it is given.
pub fn value_of<'a>(matches: &ArgMatches<'a>, id: &str) -> Option<&'a str>
    ensures { option_map (λ s. s.now) result ≡ first_of id.now (rows_of (found_of matches.now)) }
{
    matches.get_str(id)
}
