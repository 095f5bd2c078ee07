// What each subcommand orders, but for that to solve.
ghost use Rattle.std.specs.Prelude.{◌≡◌, Err, codes, IfOk};
ghost use Rattle.clap.specs.Words.{found_of, rows_of};
ghost use Rattle.cli_orders.specs.Orders.{HasValues};
ghost use Rattle.cli_orders.specs.declared.order.Order.{Order};

use crate::command::MOST_VISITS;
use crate::order::{CheckOrder, MergeOrder, Order, WordFault};
use crate::parts::{Pair, Problem};
use crate::values::{
    flag, given, limits_of, optional_number, pair_of, problem_of, scale_of, sides_of,
};
use clap::ArgMatches;
use std::alloc::Global;

/// The order to check.
pub fn check_order(alloc: Global, check: &ArgMatches) -> Result<Order, WordFault>
    ensures order { IfOk result (HasValues (codes "check") (rows_of (found_of check.now))) }
    ensures refused { result ≡ Err WordFault.Refused →
        (order : Order) → HasValues (codes "check") (rows_of (found_of check.now)) order → ⊥ }
{
    let visits = optional_number(check, "visits", 0, MOST_VISITS)?;
    let cert = given(alloc, check, "cert")?;
    let Problem { lp, dec } = problem_of(alloc, check)?;
    Ok(Order::Check(CheckOrder {
        lp,
        cert,
        dec,
        visits,
        limits: limits_of(check),
    }))
}

/// The order to show.
pub fn show_order(alloc: Global, show: &ArgMatches) -> Result<Order, WordFault>
    ensures order { IfOk result (HasValues (codes "show") (rows_of (found_of show.now))) }
    ensures refused { result ≡ Err WordFault.Refused →
        (order : Order) → HasValues (codes "show") (rows_of (found_of show.now)) order → ⊥ }
{
    let blocks = flag(show, "blocks");
    let classes = flag(show, "classes");
    let Problem { lp, dec } = problem_of(alloc, show)?;
    Ok(Order::Show {
        lp,
        dec,
        blocks,
        classes,
        limits: limits_of(show),
    })
}

/// The order to make texts.
pub fn gen_order(alloc: Global, make: &ArgMatches) -> Result<Order, WordFault>
    ensures order { IfOk result (HasValues (codes "gen") (rows_of (found_of make.now))) }
    ensures refused { result ≡ Err WordFault.Refused →
        (order : Order) → HasValues (codes "gen") (rows_of (found_of make.now)) order → ⊥ }
{
    let scale = scale_of(make)?;
    let Pair { lp, dec } = pair_of(alloc, make)?;
    Ok(Order::Gen {
        seed: scale.seed,
        size: scale.size,
        lp,
        dec,
    })
}

/// The order to make texts, solve them and check the certificate.
pub fn demo_order(demo: &ArgMatches) -> Result<Order, WordFault>
    ensures order { IfOk result (HasValues (codes "demo") (rows_of (found_of demo.now))) }
    ensures refused { result ≡ Err WordFault.Refused →
        (order : Order) → HasValues (codes "demo") (rows_of (found_of demo.now)) order → ⊥ }
{
    let scale = scale_of(demo)?;
    Ok(Order::Demo {
        seed: scale.seed,
        size: scale.size,
    })
}

/// The order to find the blocks beside master rows.
pub fn detect_order(alloc: Global, detect: &ArgMatches) -> Result<Order, WordFault>
    ensures order { IfOk result (HasValues (codes "detect") (rows_of (found_of detect.now))) }
    ensures refused { result ≡ Err WordFault.Refused →
        (order : Order) → HasValues (codes "detect") (rows_of (found_of detect.now)) order → ⊥ }
{
    let rows = given(alloc, detect, "rows")?;
    let Pair { lp, dec } = pair_of(alloc, detect)?;
    Ok(Order::Detect {
        lp,
        rows,
        dec,
        limits: limits_of(detect),
    })
}

/// The order to choose a decomposition.
pub fn propose_order(alloc: Global, propose: &ArgMatches) -> Result<Order, WordFault>
    ensures order { IfOk result (HasValues (codes "propose") (rows_of (found_of propose.now))) }
    ensures refused { result ≡ Err WordFault.Refused →
        (order : Order) → HasValues (codes "propose") (rows_of (found_of propose.now)) order → ⊥ }
{
    let Pair { lp, dec } = pair_of(alloc, propose)?;
    Ok(Order::Propose {
        lp,
        dec,
        limits: limits_of(propose),
    })
}

/// The order to merge certificates.
pub fn merge_order(alloc: Global, merge: &ArgMatches) -> Result<Order, WordFault>
    ensures order { IfOk result (HasValues (codes "merge") (rows_of (found_of merge.now))) }
    ensures refused { result ≡ Err WordFault.Refused →
        (order : Order) → HasValues (codes "merge") (rows_of (found_of merge.now)) order → ⊥ }
{
    let sides = sides_of(alloc, merge)?;
    let new = given(alloc, merge, "new")?;
    let Problem { lp, dec } = problem_of(alloc, merge)?;
    Ok(Order::Merge(MergeOrder {
        lp,
        first: sides.first,
        second: sides.second,
        new,
        dec,
        limits: limits_of(merge),
    }))
}

/// The order to write a certificate anew.
pub fn migrate_order(alloc: Global, migrate: &ArgMatches) -> Result<Order, WordFault>
    ensures order { IfOk result (HasValues (codes "migrate") (rows_of (found_of migrate.now))) }
    ensures refused { result ≡ Err WordFault.Refused →
        (order : Order) → HasValues (codes "migrate") (rows_of (found_of migrate.now)) order → ⊥ }
{
    let cert = given(alloc, migrate, "cert")?;
    let new = given(alloc, migrate, "new")?;
    let Problem { lp, dec } = problem_of(alloc, migrate)?;
    Ok(Order::Migrate {
        lp,
        cert,
        new,
        dec,
        limits: limits_of(migrate),
    })
}
