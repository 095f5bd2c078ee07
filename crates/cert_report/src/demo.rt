// The report on made programs that are solved and checked.
ghost use Rattle.std.specs.Prelude.{◌≡◌, ◌++◌, IfOk, OnOk};
ghost use Rattle.report_lines.specs.Searches.{CanTell};
ghost use Rattle.cert_report.specs.Certificates.{demo_line, demo_report};

use crate::checked::push_judged;
use block_program::Blocked;
use branch_tree::Outcome;
use cert_check::Judged;
use report_lines::{push_count, push_outcome};
use std::alloc::{AllocError, Global};

/// The steps that the search for a made program is given.
pub const DEMO_STEPS: u64 = 2000;

/// The report on a program that was made from a seed in a size, searched with [`DEMO_STEPS`] steps, and whose
/// certificate was judged.
pub fn demo_text(
    alloc: Global,
    seed: u64,
    size: u32,
    b: &Blocked,
    o: &Outcome,
    judged: &Judged,
) -> Result<Vec<u8>, AllocError>
    requires { CanTell b.now.named o.now }
    ensures { IfOk result (λ text. text.items ≡ demo_report seed size b.now.named o.now
        judged.now) }
{
    let mut text = Vec::new(alloc);
    push_demo(&mut text, seed, size)?;
    push_outcome(&mut text, b.model(), o, DEMO_STEPS)?;
    push_judged(&mut text, judged)?;
    Ok(text)
}

// The first line on a made program.
fn push_demo(text: &mut Vec<u8>, seed: u64, size: u32) -> Result<(), AllocError>
    ensures { OnOk result (text.new.items ≡ text.old.items ++ demo_line seed size) }
{
    text.extend_from_slice(b"demo ")?;
    push_count(text, seed)?;
    text.extend_from_slice(b" ")?;
    push_count(text, size as u64)?;
    text.extend_from_slice(b"\n")
}
