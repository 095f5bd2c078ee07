// The report on a certificate that two were merged into.
ghost use Rattle.std.specs.Prelude.{◌≡◌, ◌++◌, IfOk, OnOk};
ghost use Rattle.std.specs.Option.{option_map};
ghost use Rattle.std.specs.Fmt.{signed_decimal};
ghost use Rattle.bp_theory.specs.Program.{in_sense};
ghost use Rattle.bp_theory.specs.declared.Claim.TheVariants.{Bound};
ghost use Rattle.search_laws.specs.Grove.{live_count};
ghost use Rattle.cert_text.specs.Outcomes.{claim_of, grove_of};
ghost use Rattle.cert_report.specs.Certificates.{claim_words, merged_report};

use block_program::Blocked;
use bp_theory::Items;
use branch_tree::{Grove, Outcome};
use itoa::Buffer;
use report_lines::{in_sense, push_count_line};
use std::alloc::{AllocError, Global};

/// The report on a certificate that two were merged into, by the outcome that it is of.
pub fn merged_text(alloc: Global, b: &Blocked, o: &Outcome) -> Result<Vec<u8>, AllocError>
    ensures { IfOk result (λ text. text.items ≡ merged_report b.now.named.program.maximises o.now) }
{
    let mut text = Vec::new(alloc);
    push_count_line(&mut text, b"merged open ", grove_of(o).live())?;
    text.extend_from_slice(b"accepted ")?;
    push_claim(&mut text, b.model().maximises(), o)?;
    text.extend_from_slice(b"\n")?;
    Ok(text)
}

// The tree of an outcome.
fn grove_of(o: &Outcome) -> &Grove
    ensures { result.now ≡ grove_of o.now }
{
    match o {
        Outcome::Optimal { grove, .. } => grove,
        Outcome::Infeasible { grove } => grove,
        Outcome::Budget { grove, .. } => grove,
    }
}

// What an outcome claims.
fn push_claim(text: &mut Vec<u8>, maximises: bool, o: &Outcome) -> Result<(), AllocError>
    ensures { OnOk result (text.new.items ≡ text.old.items ++
        claim_words (claim_of maximises o.now)) }
{
    match o {
        Outcome::Optimal { cost, .. } => push_value(text, b"optimal ", maximises, cost),
        Outcome::Infeasible { .. } => text.extend_from_slice(b"infeasible"),
        Outcome::Budget { best, bound, .. } => push_bound(text, maximises, best, bound),
    }
}

// A bound, and the value of a known point.
fn push_bound(
    text: &mut Vec<u8>,
    maximises: bool,
    best: &Option<(Items<i64>, i64)>,
    bound: &i64,
) -> Result<(), AllocError>
    ensures { OnOk result (text.new.items ≡ text.old.items ++
        claim_words (Bound (in_sense maximises bound.now) (option_map
        (λ e. in_sense maximises e.1) best.now))) }
{
    push_value(text, b"bound ", maximises, bound)?;
    match best {
        None => Ok(()),
        Some(best) => push_value(text, b" value ", maximises, &best.1),
    }
}

// A word with the spaces around it, and a cost as a value in the text's own sense.
fn push_value(
    text: &mut Vec<u8>,
    word: &[u8],
    maximises: bool,
    cost: &i64,
) -> Result<(), AllocError>
    ensures { OnOk result (text.new.items ≡ text.old.items ++ word.now ++
        signed_decimal (in_sense maximises cost.now)) }
{
    text.extend_from_slice(word)?;
    let value = in_sense(maximises, cost);
    text.extend_from_slice(Buffer::new().format(value).as_bytes())
}
