// Reading the words.
ghost use Rattle.std.specs.Prelude.{◌≡◌, ◌≢◌, map, string_bytes, Err, codes, IfOk};
ghost use Rattle.clap.specs.Words.{found_of, rows_of, subcommand_rows_of};
ghost use Rattle.cli_orders.specs.Orders.{HasValues, IsInRange, IsStated, IsOrderOf, AreRefused};
ghost use Rattle.cli_orders.specs.declared.order.Order.{Order};

use crate::command::make_command;
use clap::ArgMatches;
use clap::error::ErrorKind;
use cli_orders::{
    Order, Problem, SolveOrder, WordFault, are_placed, check_order, demo_order, detect_order,
    ends_of, gen_order, limits_of, merge_order, migrate_order, problem_of, propose_order,
    show_order, solve_numbers, watching_of,
};
use std::alloc::Global;

/// The order that words give, the program's name first. They are refused exactly where the command finds a fault in
/// them, as the crate that reads words states for such a command, or where they name a leaf without a certificate to go
/// on from or beside a crew, or watch the search beside either or without an amount; and the files and numbers are those that it states.
pub fn read_words(alloc: Global, words: &[String]) -> Result<Order, WordFault>
    ensures order { IfOk result (IsOrderOf (map string_bytes words.now)) }
    ensures range { IfOk result IsInRange }
    ensures refused { result ≡ Err WordFault.Refused → AreRefused (map string_bytes words.now) }
{
    let command = make_command(alloc)?;
    let matches = match command.try_get_matches_from(words) {
        Ok(matches) => matches,
        Err(error) => return Err(fault_of_kind(error.kind())),
    };
    stated_order(alloc, &matches)
}

// The order that the subcommand states.
fn stated_order(alloc: Global, matches: &ArgMatches) -> Result<Order, WordFault>
    ensures order { IfOk result (IsStated (subcommand_rows_of matches.now)) }
    ensures refused { result ≡ Err WordFault.Refused →
        (order : Order) → IsStated (subcommand_rows_of matches.now) order → ⊥ }
{
    match matches.subcommand() {
        Some((name, given)) => named_order(alloc, name, given),
        None => Err(WordFault::Refused),
    }
}

// The order that a subcommand of a name states.
fn named_order(alloc: Global, name: &str, given: &ArgMatches) -> Result<Order, WordFault>
    ensures order { IfOk result (HasValues name.now (rows_of (found_of given.now))) }
    ensures refused { result ≡ Err WordFault.Refused →
        (order : Order) → HasValues name.now (rows_of (found_of given.now)) order → ⊥ }
{
    match name {
        "solve" => solve_order(alloc, given),
        "check" => check_order(alloc, given),
        "show" => show_order(alloc, given),
        "gen" => gen_order(alloc, given),
        "demo" => demo_order(given),
        "detect" => detect_order(alloc, given),
        "propose" => propose_order(alloc, given),
        "merge" => merge_order(alloc, given),
        "migrate" => migrate_order(alloc, given),
        _ => Err(WordFault::Refused),
    }
}

// The fault of words that the command doesn't take.
fn fault_of_kind(kind: ErrorKind) -> WordFault
    ensures refused { result ≡ WordFault.Refused → kind ≢ ErrorKind.OutOfMemory }
    ensures memory { result ≡ WordFault.NoMemory → kind ≡ ErrorKind.OutOfMemory }
{
    match kind {
        ErrorKind::OutOfMemory => WordFault::NoMemory,
        _ => WordFault::Refused,
    }
}

// The order to solve.
fn solve_order(alloc: Global, solve: &ArgMatches) -> Result<Order, WordFault>
    ensures order { IfOk result (HasValues (codes "solve") (rows_of (found_of solve.now))) }
    ensures refused { result ≡ Err WordFault.Refused →
        (order : Order) → HasValues (codes "solve") (rows_of (found_of solve.now)) order → ⊥ }
{
    if !are_placed(solve) {
        return Err(WordFault::Refused);
    }
    let numbers = solve_numbers(solve)?;
    let ends = ends_of(alloc, solve)?;
    let watching = watching_of(alloc, solve)?;
    let Problem { lp, dec } = problem_of(alloc, solve)?;
    Ok(Order::Solve(SolveOrder {
        lp,
        dec,
        steps: numbers.steps,
        cert: ends.cert,
        from: ends.from,
        leaf: numbers.leaf,
        workers: numbers.workers,
        order: numbers.order,
        cuts: numbers.cuts,
        limits: limits_of(solve),
        watching,
    }))
}
