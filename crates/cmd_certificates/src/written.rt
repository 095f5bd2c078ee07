// Two loaded trees merged, and the text and the report of the certificate.
ghost use Rattle.std.specs.Prelude.{◌≡◌, ℕ, List, IfOk};
ghost use Rattle.bp_theory.specs.declared.Cut.{Cut};
ghost use Rattle.block_program.specs.Blocked.{BlockedProgram, IsFormed};
ghost use Rattle.cert_load.specs.Recut.{with_cuts};
ghost use Rattle.frontend.specs.Written.{draft_answer};
ghost use Rattle.cmd_certificates.specs.Merges.{AnswersBoth};
ghost use Rattle.cmd_certificates.specs.Opens.{IsOpened, CanMerge};

use block_program::Blocked;
use bp_search::{conclude, kept_from};
use branch_tree::Loaded;
use cert_report::merged_text;
use cert_text::write_cert;
use frontend::{Draft, Reply};
use std::alloc::{AllocError, Global};

/// The merged certificate of two loaded trees, with the program's cuts.
pub fn written(
    alloc: Global,
    b: &Blocked,
    first: Loaded,
    second: Loaded,
) -> Result<Draft, AllocError>
    requires first { CanMerge b.now first }
    requires second { CanMerge b.now second }
    ensures merged { IfOk result (λ m. (plain : BlockedProgram) (cuts : List Cut) (text more : List ℕ) →
        IsFormed plain → b.now ≡ with_cuts plain cuts → (one : IsOpened plain text first) →
        (other : IsOpened plain more second) →
        AnswersBoth b.now one.cert other.cert first second (draft_answer m)) }
    ensures done { IfOk result (λ m. m.reply.status ≡ 0) }
{
    // For the proof alone: `b` is formed.
    let _ = b.blocks();
    let from = tree_merge::merge(alloc, b, first, second)?;
    let Loaded { grove, best } = from;
    let outcome = conclude(b, grove, kept_from(best));
    let text = write_cert(alloc, b, &outcome)?;
    let report = merged_text(alloc, b, &outcome)?;
    Ok(Draft {
        text,
        reply: Reply { status: 0, report },
    })
}
