// The report on a certificate that was written anew.
ghost use Rattle.std.specs.Prelude.{◌≡◌, IfOk};
ghost use Rattle.bp_report.specs.Report.{migrated_report};

use report_lines::push_count_line;
use std::alloc::{AllocError, Global};

/// The report on a certificate of so many nodes that was written anew.
pub fn migrated_text(alloc: Global, nodes: u64) -> Result<Vec<u8>, AllocError>
    ensures { IfOk result (λ text. text.items ≡ migrated_report nodes) }
{
    let mut text = Vec::new(alloc);
    push_count_line(&mut text, b"migrated ", nodes)?;
    Ok(text)
}
