// The text of the certificate of a search's outcome.
ghost use Rattle.std.specs.Prelude.{◌≡◌, ◌++◌, [], IfOk, IfSome, OnOk, unwrap_or, unsigned_abs, ◌<◌, ◌^◌};
ghost use Rattle.std.specs.Option.{option_map};
ghost use Rattle.bp_theory.specs.Program.{in_sense};
ghost use Rattle.search_laws.specs.Grove.{certificate_tree};
ghost use Rattle.search_laws.specs.Outcomes.{read_off};
ghost use Rattle.open_nodes.specs.Trees.{tree_of};
ghost use Rattle.cert_format.specs.Fault.{IsText};
ghost use Rattle.cert_format.specs.Written.{cert_of};
ghost use Rattle.cert_format.specs.Plain.{version_with, plain_text};
ghost use Rattle.cert_write.specs.Changes.{changing_nodes};
ghost use Rattle.cert_text.specs.Programs.{frame_for};
ghost use Rattle.cert_text.specs.Outcomes.{grove_of, claim_of, point_of, HasSmallNumbers, IsWritable};

use crate::lines::TreeLines;
use block_program::Blocked;
use bp_theory::{Claim, Cut, Items};
use branch_tree::{Grove, Outcome, Tree};
use cert_write::{put_changed_lines, put_head};
use std::alloc::{AllocError, Global};

/// The text of the certificate of a search's outcome: its claim, its best point where there is one, the cuts of the
/// program, and its tree, whose live leaves are open. It is of version 3 where there are cuts, else of version 2. The
/// text has no fault, so it is read back.
pub fn write_cert(alloc: Global, b: &Blocked, outcome: &Outcome) -> Result<Vec<u8>, AllocError>
    requires { IsWritable b.now outcome.now }
    ensures { IfOk result (λ text. IsText (frame_for b.now) (version_with b.now.cuts)
        (cert_of (read_off (claim_of b.now.named.program.maximises outcome.now)
        (point_of outcome.now) b.now.cuts (grove_of outcome.now).tree)) text.items) }
{
    let claim = outcome_claim(b.model().maximises(), outcome);
    let tree = outcome_grove(outcome).tree();
    let mut out = Vec::new(alloc);
    put_outcome(
        &mut out,
        alloc,
        &claim,
        outcome_point(outcome),
        b.cuts(),
        tree,
    )?;
    Ok(out)
}

// The text of a claim, a point, cuts and a tree.
#[tactic(auto, using(cert_write::proofs::CutTexts::whole_text))]
fn put_outcome(
    out: &mut Vec<u8>,
    alloc: Global,
    claim: &Claim,
    point: &[i64],
    cuts: &[Cut],
    tree: &Tree,
) -> Result<(), AllocError>
    ensures { OnOk result (out.new.items ≡ out.old.items ++
        plain_text (version_with cuts.now) claim.now point.now cuts.now
        (changing_nodes [] (certificate_tree (tree_of tree.now)))) }
{
    put_head(out, claim, point, cuts)?;
    let mut had = Vec::new(alloc);
    put_changed_lines(out, alloc, &mut TreeLines::new(alloc, tree)?, &mut had)?;
    out.extend_from_slice(b"end\n")
}

/// The tree of an outcome, with its queue.
pub fn outcome_grove(outcome: &Outcome) -> &Grove
    ensures { result.now ≡ grove_of outcome.now }
{
    match outcome {
        Outcome::Optimal { grove, .. } => grove,
        Outcome::Infeasible { grove } => grove,
        Outcome::Budget { grove, .. } => grove,
    }
}

/// The numbers of an outcome's best point, none where it has no point.
pub fn outcome_point(outcome: &Outcome) -> &[i64]
    ensures { result.now ≡ unwrap_or (point_of outcome.now) [] }
{
    match outcome {
        Outcome::Optimal { point, .. } => point.as_slice(),
        Outcome::Infeasible { .. } => &[],
        Outcome::Budget { best, .. } => match best {
            None => &[],
            Some(best) => best.0.as_slice(),
        },
    }
}

/// What an outcome claims.
pub fn outcome_claim(maximises: bool, outcome: &Outcome) -> Claim
    requires { HasSmallNumbers outcome.now }
    ensures { result ≡ claim_of maximises outcome.now }
{
    match outcome {
        Outcome::Optimal { cost, .. } => Claim::Optimal(in_sense(maximises, cost)),
        Outcome::Infeasible { .. } => Claim::Infeasible,
        Outcome::Budget { best, bound, .. } => Claim::Bound(
            in_sense(maximises, bound),
            best_value(maximises, best),
        ),
    }
}

// The value of a best point.
fn best_value(maximises: bool, best: &Option<(Items<i64>, i64)>) -> Option<i64>
    requires { IfSome best.now (λ e. unsigned_abs e.1 < 2 ^ 62) }
    ensures { result ≡ option_map (λ e. in_sense maximises e.1) best.now }
{
    match best {
        None => None,
        Some(best) => Some(in_sense(maximises, &best.1)),
    }
}

// A cost as a value in the text's own sense.
fn in_sense(maximises: bool, cost: &i64) -> i64
    requires { unsigned_abs cost.now < 2 ^ 62 }
    ensures { result ≡ in_sense maximises cost.now }
{
    if maximises { -*cost } else { *cost }
}
