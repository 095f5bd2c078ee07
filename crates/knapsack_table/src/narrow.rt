// The numbers of variables that can help a row.
ghost use Rattle.std.specs.Prelude.{◌≡◌, length, vec_len};
ghost use Rattle.knapsack_table.specs.Narrowed.{lower_end, upper_end, span_at_most, span_at_least, narrowed_span, narrowed};

use bp_theory::{Row, Sense, Span};

/// The lower end of a span alone.
fn lower_end_of(span: &Span) -> Span
    ensures { result ≡ lower_end span.now }
{
    Span {
        lo: span.lo,
        hi: span.lo,
    }
}

/// The upper end of a span alone.
fn upper_end_of(span: &Span) -> Span
    ensures { result ≡ upper_end span.now }
{
    Span {
        lo: span.hi,
        hi: span.hi,
    }
}

/// The numbers of a variable that can help a row with only an upper side.
fn narrowed_at_most(coef: &i128, span: &Span, cost: &i128) -> Span
    ensures { result ≡ span_at_most coef.now span.now cost.now }
{
    if *coef > 0 {
        if *cost < 0 { *span } else { lower_end_of(span) }
    } else if *coef < 0 {
        if 0 < *cost { *span } else { upper_end_of(span) }
    } else {
        *span
    }
}

/// The numbers of a variable that can help a row with only a lower side.
fn narrowed_at_least(coef: &i128, span: &Span, cost: &i128) -> Span
    ensures { result ≡ span_at_least coef.now span.now cost.now }
{
    if *coef > 0 {
        if 0 < *cost { *span } else { upper_end_of(span) }
    } else if *coef < 0 {
        if *cost < 0 { *span } else { lower_end_of(span) }
    } else {
        *span
    }
}

/// The numbers of a variable that can help a row.
fn narrowed_for(row: &Row, coef: &i128, span: &Span, cost: &i128) -> Span
    ensures { result ≡ narrowed_span row.now.sense coef.now span.now cost.now }
{
    match row.sense {
        Sense::Le => narrowed_at_most(coef, span, cost),
        Sense::Ge => narrowed_at_least(coef, span, cost),
        Sense::Eq | Sense::In => *span,
    }
}

/// Narrows a zone to the numbers that can help a row.
pub fn narrow(part: &mut Vec<Span>, row: &Row, coefs: &[i128], zone: &[Span], costs: &[i128])
    requires part { vec_len part.old ≡ length zone.now }
    requires coefs { length coefs.now ≡ length zone.now }
    requires costs { length costs.now ≡ length zone.now }
    ensures { part.new.items ≡ narrowed row.now.sense coefs.now zone.now costs.now }
{
    for k in 0..zone.len() {
        part[k] = narrowed_for(row, &coefs[k], &zone[k], &costs[k]);
    }
}
