// Two certificates with their cuts as one.
ghost use Rattle.std.specs.Prelude.{◌≡◌, ◌≤◌, IfOk, IfErr};
ghost use Rattle.bp_theory.specs.Limits.{most_cuts};
ghost use Rattle.branch_tree.specs.Adopted.{point_in};
ghost use Rattle.frontend.specs.Written.{draft_answer};
ghost use Rattle.cmd_certificates.specs.Merges.{JoinsBoth, StopsBoth, cut_line};
ghost use Rattle.cmd_certificates.specs.Opens.{CanMerge};
ghost use Rattle.cmd_certificates.specs.Stops.{IsRefusal};

use crate::opening::{Opened, Stop};
use crate::same::common;
use crate::written::written;
use bp_report::merge_text;
use branch_tree::Loaded;
use frontend::{Draft, Reply};
use std::alloc::Global;

/// The merged certificate of two, of which the cuts of one begin with those of the other: it has the more cuts. Else it is
/// refused, on the line of the first cut of the second that is another than the first's.
pub fn join(alloc: Global, one: Opened, other: Opened) -> Result<Draft, Stop>
    requires first { CanMerge one.program one.from }
    requires second { CanMerge other.program other.from }
    requires model { other.program.named ≡ one.program.named }
    requires dec { other.program.dec ≡ one.program.dec }
    ensures merged { IfOk result (λ m. JoinsBoth one other (draft_answer m)) }
    ensures done { IfOk result (λ m. m.reply.status ≡ 0) }
    ensures stopped { IfErr result (StopsBoth one other) }
    ensures refusals { IfErr result IsRefusal }
{
    let Opened {
        program: first,
        from: tree,
    } = one;
    let Opened {
        program: second,
        from: further,
    } = other;
    let count = common(first.cuts(), second.cuts());
    if count == second.cuts().len() {
        return Ok(written(alloc, &first, tree, further)?);
    }
    if count == first.cuts().len() {
        return Ok(written(alloc, &second, tree, further)?);
    }
    let report = merge_text(alloc, cut_line(&further, count))?;
    Err(Stop::Refused(Reply { status: 3, report }))
}

// The line of a cut by its number from 0 in the text of a certificate that this is loaded of.
fn cut_line(from: &Loaded, number: usize) -> u64
    requires { number ≤ most_cuts }
    ensures { result ≡ cut_line (point_in from.now.best) number }
{
    let first = match from.best {
        None => 3,
        Some(_) => 4,
    };
    first + number as u64
}
