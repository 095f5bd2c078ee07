// Whether the words of an order to solve go together.
ghost use Rattle.std.specs.Prelude.{◌≡◌, ◌↔◌, IsTrue, false, codes};
ghost use Rattle.clap.specs.Words.{found_of, rows_of, first_of};
ghost use Rattle.cli_orders.specs.Orders.{IsLeafPlaced, IsAloneIn, ArePlaced, is_amount, is_amount_from, is_amount_or_none};

use crate::values::value_of;
use clap::ArgMatches;

// How many bytes an amount has at most.
const LONGEST_AMOUNT: usize = 18;

/// Whether a leaf is named only beside a certificate to go on from, and not beside a crew; and what watches the search only without
/// either, with amounts of seconds and percent.
pub fn are_placed(solve: &ArgMatches) -> bool
    ensures { IsTrue result ↔ ArePlaced (rows_of (found_of solve.now)) }
{
    let leaf = is_leaf_placed(solve);
    let time = is_alone(solve, "time");
    let gap = is_alone(solve, "gap");
    let log = is_alone(solve, "log");
    let stop = is_alone(solve, "stop");
    let seconds = has_amount(solve, "time");
    let percent = has_amount(solve, "gap");
    let every = has_amount(solve, "log");
    leaf && time && gap && log && stop && seconds && percent && every
}

// Whether a leaf is named only beside a certificate to go on from, and not beside a crew.
fn is_leaf_placed(solve: &ArgMatches) -> bool
    ensures { IsTrue result ↔ IsLeafPlaced (rows_of (found_of solve.now)) }
{
    match value_of(solve, "leaf") {
        None => true,
        Some(_) => {
            value_of(solve, "from").is_some()
                && value_of(solve, "workers").is_none()
                && value_of(solve, "order").is_none()
        }
    }
}

// Whether a word is given only without a leaf, workers and their order.
fn is_alone(solve: &ArgMatches, id: &str) -> bool
    ensures { IsTrue result ↔ IsAloneIn (rows_of (found_of solve.now)) id.now }
{
    match value_of(solve, id) {
        None => true,
        Some(_) => {
            value_of(solve, "leaf").is_none()
                && value_of(solve, "workers").is_none()
                && value_of(solve, "order").is_none()
        }
    }
}

// Whether the value of a word is an amount, where it is given.
fn has_amount(solve: &ArgMatches, id: &str) -> bool
    ensures { result ≡ is_amount_or_none (first_of id.now (rows_of (found_of solve.now))) }
{
    match value_of(solve, id) {
        None => true,
        Some(text) => is_amount(text),
    }
}

// Whether a text is an amount: decimal digits, with one point at most, which has digits on both sides.
fn is_amount(text: &str) -> bool
    ensures { result ≡ is_amount text.now }
{
    let bytes = text.as_bytes();
    bytes.len() <= LONGEST_AMOUNT && has_form(bytes)
}

// Whether bytes have the form of an amount.
fn has_form(bytes: &[u8]) -> bool
    ensures { result ≡ is_amount_from false false bytes.now }
{
    let mut pointed = false;
    let mut digit = false;
    for byte in bytes {
        if *byte >= 48 && *byte <= 57 {
            digit = true;
        } else if *byte == 46 && digit && !pointed {
            pointed = true;
            digit = false;
        } else {
            return false;
        }
    }
    digit
}
