// Numbers of a certificate, tested against their limits in their places.
ghost use Rattle.std.specs.Prelude.{◌≡◌, ◌+◌, ◌<◌, ◌≤◌, ◌^◌, [], length, nat_le, OnOk, MatchResult, None, Some};
ghost use Rattle.bp_theory.specs.Limits.{most_cuts};
ghost use Rattle.cert_format.specs.Text.{value_fault, coordinate_fault, row_fault, block_fault, scale_fault, variable_fault, divisor_fault, is_deep, may_name, may_combine};
ghost use Rattle.cert_format.specs.Frames.{frame_of};
ghost use Rattle.cert_format.specs.Versions.{changed_fault};
ghost use Rattle.cert_format.specs.Signed.{signed};

use crate::fault::CertKind;
use crate::frame::Frame;
use block_program::MAX_SCALE;
use bp_model::MAX_NUMBER;
use cut_sums::MAX_DIVISOR;

// The most cuts of a certificate.
const MAX_CUTS: u16 = 256;

/// A number with its sign.
pub fn signed_of(negative: bool, value: u64) -> i64
    requires { value < 2 ^ 63 }
    ensures { result ≡ signed negative value }
{
    let magnitude = value as i64;
    if negative { -magnitude } else { magnitude }
}

/// A value of the objective or a split's place.
pub fn judge_value(negative: bool, value: u64) -> Result<i64, CertKind>
    ensures { MatchResult result (λ z. (value_fault (signed negative value) ≡ None) ×
        (z ≡ signed negative value)) (λ kind. value_fault (signed negative value) ≡ Some kind) }
{
    if value > MAX_NUMBER as u64 {
        return Err(CertKind::TooLarge);
    }
    Ok(signed_of(negative, value))
}

/// A point's value behind so many others.
pub fn judge_coordinate(
    frame: &Frame,
    done: usize,
    negative: bool,
    value: u64,
) -> Result<i64, CertKind>
    ensures { MatchResult result (λ z.
        (coordinate_fault (frame_of frame.now) (done + 1) (signed negative value) ≡ None) ×
        (z ≡ signed negative value))
        (λ kind. coordinate_fault (frame_of frame.now) (done + 1) (signed negative value) ≡
        Some kind) }
{
    if value > MAX_NUMBER as u64 {
        return Err(CertKind::TooLarge);
    }
    if done >= frame.variables as usize {
        return Err(CertKind::Length);
    }
    Ok(signed_of(negative, value))
}

/// The multiplier, within a limit, of a row that had another one.
pub fn judge_multiplier(limit: u64, had: &i64, negative: bool, value: u64) -> Result<i64, CertKind>
    requires { limit < 2 ^ 63 }
    ensures { MatchResult result (λ z. (changed_fault limit had.now (signed negative value) ≡ None) ×
        (z ≡ signed negative value))
        (λ kind. changed_fault limit had.now (signed negative value) ≡ Some kind) }
{
    if value > limit {
        return Err(CertKind::TooLarge);
    }
    let z = signed_of(negative, value);
    if z == *had {
        return Err(CertKind::Number);
    }
    Ok(z)
}

/// Whether a node at a depth is too deep.
pub fn is_too_deep(frame: &Frame, depth: usize) -> bool
    ensures { result ≡ is_deep frame.now.limits depth }
{
    depth > frame.limits.depth() as usize
}

/// The scale of a leaf at a depth.
pub fn judge_scale(frame: &Frame, depth: usize, value: u64) -> Result<u32, CertKind>
    ensures { MatchResult result (λ s. (scale_fault (frame_of frame.now) depth value ≡ None) ×
        (s ≡ value)) (λ kind. scale_fault (frame_of frame.now) depth value ≡ Some kind) }
{
    if is_too_deep(frame, depth) {
        return Err(CertKind::Depth);
    }
    if value > u64::from(MAX_SCALE) {
        return Err(CertKind::TooLarge);
    }
    Ok(value as u32)
}

// Whether a row of the text, one of the model's, is a master row.
fn is_master(frame: &Frame, row: u64) -> bool
    requires { row ≤ length frame.now.masters }
    ensures { result ≡ (frame_of frame.now).is_master row }
{
    row >= 1 && frame.masters.as_slice()[row as usize - 1]
}

// Whether a row of the text is a master row, a link row or one of so many cuts.
fn is_named(frame: &Frame, cuts: u16, row: u64) -> bool
    ensures { result ≡ may_name (frame_of frame.now) cuts row }
{
    let rows = frame.masters.as_slice().len() as u64;
    if row > rows {
        return row - rows <= u64::from(frame.links) + u64::from(cuts);
    }
    is_master(frame, row)
}

/// A leaf's row behind another one, where there are so many cuts, as its number from 0.
pub fn judge_row(frame: &Frame, cuts: u16, last: u64, value: u64) -> Result<u32, CertKind>
    ensures { MatchResult result (λ r.
        (row_fault (may_name (frame_of frame.now) cuts) last value ≡ None) × (r + 1 ≡ value))
        (λ kind. row_fault (may_name (frame_of frame.now) cuts) last value ≡ Some kind) }
{
    if last < value && is_named(frame, cuts, value) {
        return Ok((value - 1) as u32);
    }
    Err(CertKind::Number)
}

// Whether a row of the text is a master row or one of so many cuts.
fn is_combined(frame: &Frame, cuts: u16, row: u64) -> bool
    ensures { result ≡ may_combine (frame_of frame.now) cuts row }
{
    let rows = frame.masters.as_slice().len() as u64;
    if row > rows {
        let behind = row - rows;
        let links = u64::from(frame.links);
        return links < behind && behind - links <= u64::from(cuts);
    }
    is_master(frame, row)
}

/// A cut's row behind another one, where so many cuts are earlier, as its number from 0.
pub fn judge_combined(frame: &Frame, cuts: u16, last: u64, value: u64) -> Result<u32, CertKind>
    ensures { MatchResult result (λ r.
        (row_fault (may_combine (frame_of frame.now) cuts) last value ≡ None) × (r + 1 ≡ value))
        (λ kind. row_fault (may_combine (frame_of frame.now) cuts) last value ≡ Some kind) }
{
    if last < value && is_combined(frame, cuts, value) {
        return Ok((value - 1) as u32);
    }
    Err(CertKind::Number)
}

/// Whether no cut may come behind so many.
pub fn is_last_cut(cuts: u16) -> bool
    ensures { result ≡ nat_le most_cuts cuts }
{
    cuts >= MAX_CUTS
}

/// The divisor of a cut behind so many others.
pub fn judge_divisor(cuts: u16, value: u64) -> Result<u32, CertKind>
    ensures judged { MatchResult result (λ q. (divisor_fault cuts value ≡ None) × (q ≡ value))
        (λ kind. divisor_fault cuts value ≡ Some kind) }
    ensures few { OnOk result (cuts < most_cuts) }
{
    if is_last_cut(cuts) {
        return Err(CertKind::Limit);
    }
    if value > u64::from(MAX_DIVISOR) {
        return Err(CertKind::TooLarge);
    }
    if value == 0 {
        return Err(CertKind::Number);
    }
    Ok(value as u32)
}

/// A priced block behind another one, as its number from 0.
pub fn judge_block(frame: &Frame, last: u64, value: u64) -> Result<u32, CertKind>
    ensures { MatchResult result (λ k. (block_fault (frame_of frame.now) last value ≡ None) ×
        (k + 1 ≡ value)) (λ kind. block_fault (frame_of frame.now) last value ≡ Some kind) }
{
    if last < value && value <= u64::from(frame.blocks) {
        return Ok((value - 1) as u32);
    }
    Err(CertKind::Number)
}

/// The variable of a split at a depth, as its number from 0.
pub fn judge_variable(frame: &Frame, depth: usize, value: u64) -> Result<u32, CertKind>
    ensures { MatchResult result (λ v. (variable_fault (frame_of frame.now) depth value ≡ None) ×
        (v + 1 ≡ value)) (λ kind. variable_fault (frame_of frame.now) depth value ≡ Some kind) }
{
    if is_too_deep(frame, depth) {
        return Err(CertKind::Depth);
    }
    if 1 <= value && value <= u64::from(frame.variables) {
        return Ok((value - 1) as u32);
    }
    Err(CertKind::Number)
}
