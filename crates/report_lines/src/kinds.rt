// The kinds of faults as reports name them.
ghost use Rattle.std.specs.Prelude.{◌≡◌};
ghost use Rattle.report_lines.specs.Kinds.{lp_kind_name, dec_kind_name, rows_kind_name, cert_kind_name, check_kind_name};

use bp_theory::CheckKind;
use cert_format::CertKind;
use dec_read::DecKind;
use dec_write::RowsKind;
use lp_token::LpKind;

/// A kind of fault of an LP text as reports name it.
pub fn lp_kind_name(kind: LpKind) -> &'static [u8]
    ensures { result.now ≡ lp_kind_name kind }
{
    match kind {
        LpKind::BadByte => b"bad-byte",
        LpKind::NotWhole => b"not-whole",
        LpKind::TooLarge => b"too-large",
        LpKind::Syntax => b"syntax",
        LpKind::Feature => b"feature",
        LpKind::LongName => b"long-name",
        LpKind::RowTwice => b"row-twice",
        LpKind::NoEnd => b"no-end",
        LpKind::Unbounded => b"unbounded",
        LpKind::Continuous => b"continuous",
        LpKind::Crossed => b"crossed",
        LpKind::Activity => b"activity",
        LpKind::Limit => b"limit",
    }
}

/// A kind of fault of the text of a decomposition.
pub fn dec_kind_name(kind: DecKind) -> &'static [u8]
    ensures { result.now ≡ dec_kind_name kind }
{
    match kind {
        DecKind::BadByte => b"bad-byte",
        DecKind::Syntax => b"syntax",
        DecKind::Presolved => b"presolved",
        DecKind::NoNblocks => b"no-nblocks",
        DecKind::BlockNumber => b"block-number",
        DecKind::UnknownRow => b"unknown-row",
        DecKind::RowTwice => b"row-twice",
        DecKind::Unassigned => b"unassigned",
        DecKind::UnknownVar => b"unknown-var",
        DecKind::Limit => b"limit",
    }
}

/// A kind of fault of a list of master rows.
pub fn rows_kind_name(kind: RowsKind) -> &'static [u8]
    ensures { result.now ≡ rows_kind_name kind }
{
    match kind {
        RowsKind::BadByte => b"bad-byte",
        RowsKind::UnknownRow => b"unknown-row",
        RowsKind::RowTwice => b"row-twice",
        RowsKind::Blocks => b"blocks",
        RowsKind::Limit => b"limit",
    }
}

/// A kind of fault of the text of a certificate.
pub fn cert_kind_name(kind: CertKind) -> &'static [u8]
    ensures { result.now ≡ cert_kind_name kind }
{
    match kind {
        CertKind::Syntax => b"syntax",
        CertKind::TooLarge => b"too-large",
        CertKind::Number => b"number",
        CertKind::Length => b"length",
        CertKind::Depth => b"depth",
        CertKind::Limit => b"limit",
    }
}

/// A kind of fault of a line of a certificate.
pub fn check_kind_name(kind: CheckKind) -> &'static [u8]
    ensures { result.now ≡ check_kind_name kind }
{
    match kind {
        CheckKind::PointBound => b"point-bound",
        CheckKind::PointRow => b"point-row",
        CheckKind::Value => b"value",
        CheckKind::Split => b"split",
        CheckKind::Sign => b"sign",
        CheckKind::Weak => b"weak",
        CheckKind::Open => b"open",
        CheckKind::Cut => b"cut",
    }
}
