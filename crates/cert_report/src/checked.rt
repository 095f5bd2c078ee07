// The reports of checked certificates.
ghost use Rattle.std.specs.Prelude.{◌≡◌, ◌++◌, IfOk, OnOk};
ghost use Rattle.std.specs.Fmt.{signed_decimal};
ghost use Rattle.cert_report.specs.Certificates.{claim_words, accepted_report, check_report};

use bp_theory::Claim;
use cert_check::Judged;
use report_lines::{check_kind_name, push_count_line, push_fault, push_value};
use std::alloc::{AllocError, Global};

/// The report on a judged certificate.
pub fn check_text(alloc: Global, judged: &Judged) -> Result<Vec<u8>, AllocError>
    ensures { IfOk result (λ text. text.items ≡ check_report judged.now) }
{
    let mut text = Vec::new(alloc);
    push_judged(&mut text, judged)?;
    Ok(text)
}

// The line of a judged certificate.
pub fn push_judged(text: &mut Vec<u8>, judged: &Judged) -> Result<(), AllocError>
    ensures { OnOk result (text.new.items ≡ text.old.items ++ check_report judged.now) }
{
    match judged {
        Judged::Accepted(claim) => push_accepted(text, claim),
        Judged::Rejected { line, kind } => push_fault(
            text,
            b"rejected ",
            *line,
            check_kind_name(*kind),
        ),
        Judged::Unknown { line } => push_count_line(text, b"unknown ", *line),
    }
}

// The line of a valid certificate.
fn push_accepted(text: &mut Vec<u8>, claim: &Claim) -> Result<(), AllocError>
    ensures { OnOk result (text.new.items ≡ text.old.items ++ accepted_report claim.now) }
{
    text.extend_from_slice(b"accepted ")?;
    push_claim(text, claim)?;
    text.extend_from_slice(b"\n")
}

// What a certificate claims.
fn push_claim(text: &mut Vec<u8>, claim: &Claim) -> Result<(), AllocError>
    ensures { OnOk result (text.new.items ≡ text.old.items ++ claim_words claim.now) }
{
    match claim {
        Claim::Optimal(value) => push_words(text, b"optimal ", value),
        Claim::Infeasible => text.extend_from_slice(b"infeasible"),
        Claim::Bound(bound, None) => push_words(text, b"bound ", bound),
        Claim::Bound(bound, Some(value)) => {
            push_words(text, b"bound ", bound)?;
            push_words(text, b" value ", value)
        }
    }
}

// A word with the spaces around it, and a value.
fn push_words(text: &mut Vec<u8>, word: &[u8], value: &i64) -> Result<(), AllocError>
    ensures { OnOk result (text.new.items ≡ text.old.items ++ word.now ++
        signed_decimal value.now) }
{
    text.extend_from_slice(word)?;
    push_value(text, value)
}
