// The files that an order names.
use bp_real::NamedFiles;
use bp_words::{Order, Text};

/// The files that an order names: those that are written, and those that are read and may not be written too. A certificate to
/// go on from, to merge or to migrate may be written too, since it is read whole before.
pub fn files_of(order: &Order) -> NamedFiles<'_> {
    match order {
        Order::Solve(given) => certificate(&given.lp, &given.dec, name_in(&given.cert)),
        Order::Merge(given) => certificate(&given.lp, &given.dec, Some(given.new.as_str())),
        Order::Migrate { lp, new, dec, .. } => certificate(lp, dec, Some(new.as_str())),
        Order::Detect { lp, rows, dec, .. } => texts(Some(lp), Some(rows), Some(dec), None),
        Order::Propose { lp, dec, .. } => texts(Some(lp), None, Some(dec), None),
        Order::Gen { lp, dec, .. } => texts(None, None, Some(lp), Some(dec)),
        Order::Check(_) | Order::Show { .. } | Order::Demo { .. } => texts(None, None, None, None),
    }
}

// The files of an order that writes a certificate for a model and perhaps its decomposition.
fn certificate<'a>(
    lp: &'a Text,
    dec: &'a Option<Text>,
    written: Option<&'a str>,
) -> NamedFiles<'a> {
    NamedFiles {
        read: Some(lp.as_str()),
        read_too: name_in(dec),
        written,
        written_too: None,
        is_certificate: true,
    }
}

// The files of an order that reads up to two and writes up to two, none of them a certificate.
fn texts<'a>(
    read: Option<&'a Text>,
    read_too: Option<&'a Text>,
    written: Option<&'a Text>,
    written_too: Option<&'a Text>,
) -> NamedFiles<'a> {
    NamedFiles {
        read: name_of(read),
        read_too: name_of(read_too),
        written: name_of(written),
        written_too: name_of(written_too),
        is_certificate: false,
    }
}

// The name of a file that may be given.
fn name_in(text: &Option<Text>) -> Option<&str> {
    name_of(text.as_ref())
}

// The name that a text is.
fn name_of(text: Option<&Text>) -> Option<&str> {
    match text {
        Some(text) => Some(text.as_str()),
        None => None,
    }
}
