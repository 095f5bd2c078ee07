// The note on how a run ended.
ghost use Rattle.std.specs.Prelude.{◌≡◌};

use crate::again::{line_of, text_of};
use crate::kinds::{AFTER_REJECTED, CERT, DEC, FROM, LP, REJECTED, ROWS};
use crate::mps::{MPS, is_mps};
use crate::place::{Spot, lp_spot, names_spot};
use crate::sums::{Excess, SAFE_DIGITS};
use crate::text::{MOST_QUOTED, Note, Sentences, sentence_of, word_at};
use crate::usage::{limits_of, put_words_note};
use bp_real::Files;
use bp_shelf::Shelf;
use bp_theory::Limits;
use std::alloc::{AllocError, Global};
use std::str;

// A refusal: the name of the file that was read last, the line and the kind of the report, and the limits of the run.
#[derive(Clone, Copy)]
struct Refusal<'a> {
    // The file at fault, by the name that the words of the run have.
    name: &'a str,
    // The number of the line, from 1, as the report has it: "0" where a text is refused as a whole, "" where the report
    // names no line, and for a leaf its number.
    line: &'a str,
    // The word by which the sentence is found, as `row-twice`.
    kind: &'a str,
    // The limits of the run: those of the texts that are read again, and of the sentences.
    limits: Limits,
}

/// The note on a run that ended with this status: why it was refused or stopped, in words, and what to do. It is empty for
/// the other statuses. The words are those of the run, the program's name first; the report is what the run printed, of
/// which the first line is read; where a write failed, the whole report that was lost. The shelf has the files of the run: the place
/// of a fault is looked up in the one at fault, and where that can't be read any more, the note does without. No file is changed.
pub fn explain<F: Shelf>(
    alloc: Global,
    words: &[String],
    status: u8,
    report: &[u8],
    files: &Files,
    shelf: &mut F,
) -> Result<Vec<u8>, AllocError>
    ensures files { F.file shelf.new ≡ F.file shelf.old }
    ensures told { F.tells shelf.new ≡ F.tells shelf.old }
    ensures writes { F.write_faults shelf.new ≡ F.write_faults shelf.old }
{
    let mut note = Note::new(alloc);
    match status {
        2 => put_words_note(&mut note, words),
        3 | 6 | 10 => put_refusal(alloc, &mut note, report, files, shelf, limits_of(words)),
        7 | 11 => put_file_note(&mut note, status, files),
        8 if files.is_written() => {
            put_file_note(&mut note, status, files);
            put_lost(&mut note, report);
        }
        8 => put_output_note(&mut note, report, files),
        9 => note.put("bprice: want of memory; give the process more, or solve a smaller model\n"),
        _ => {}
    }
    note.finished()
}

// The note on a file that could not be read or written.
fn put_file_note(note: &mut Note, status: u8, files: &Files) {
    note.put("bprice: ");
    match files.failed() {
        Some(name) => note.put_name(name),
        None => note.put("a file"),
    }
    note.put(file_fault(status, files.is_full()));
}

// What failed of a file.
fn file_fault(status: u8, is_full: bool) -> &'static str {
    match status {
        7 =>
            ": it could not be read; it has to be a plain file (no folder, no pipe) that may be read\n",
        8 if is_full => ": it could not be written; no space left\n",
        8 =>
            ": it could not be written; its folder has to be there, and the file to be one that may be written\n",
        _ => ": there is no such file\n",
    }
}

// The note on the output that could not be written, with the report.
fn put_output_note(note: &mut Note, report: &[u8], files: &Files) {
    note.put("bprice: the standard output could not be written; ");
    note.put(if files.is_full() {
        "no space left"
    } else {
        "is its reader gone?"
    });
    note.put("\n");
    put_lost(note, report);
}

// The report that was lost.
fn put_lost(note: &mut Note, report: &[u8]) {
    if report.len() > 0 {
        note.put("bprice: the report would have been\n");
        note.put_bytes(report);
    }
}

// The first line of a report.
fn first_line(report: &[u8]) -> &str {
    let mut end = 0usize;
    for b in report {
        if *b == b'\n' {
            break;
        }
        end = end.saturating_add(1);
    }
    let end = end.min(report.len());
    str::from_utf8(&report[..end]).unwrap_or("")
}

// The note on a refusal.
fn put_refusal<F: Shelf>(
    alloc: Global,
    note: &mut Note,
    report: &[u8],
    files: &Files,
    shelf: &mut F,
    limits: Limits,
)
    ensures files { F.file shelf.new ≡ F.file shelf.old }
    ensures told { F.tells shelf.new ≡ F.tells shelf.old }
    ensures writes { F.write_faults shelf.new ≡ F.write_faults shelf.old }
{
    let line = first_line(report);
    let Some(name) = files.last() else {
        return;
    };
    match word_at(line, 0) {
        "rejected" => put_rejected(note, &refusal_of(name, line, 1, limits)),
        "unknown" => put_unpriced(note, name, line, limits),
        "refused" => {
            put_refused(
                alloc,
                note,
                files,
                shelf,
                line,
                &refusal_of(name, line, 2, limits),
            )
        }
        _ => {}
    }
}

// The refusal of a line of a report whose word of that number is the line at fault, and the one behind it the kind.
fn refusal_of<'a>(name: &'a str, line: &'a str, number: usize, limits: Limits) -> Refusal<'a> {
    Refusal {
        name,
        line: word_at(line, number),
        kind: word_at(line, number.saturating_add(1)),
        limits,
    }
}

// The note on a certificate that is rejected.
fn put_rejected(note: &mut Note, refusal: &Refusal) {
    put_head(note, refusal, None);
    note.put(sentence_of(REJECTED, refusal.kind).unwrap_or(""));
    note.put(AFTER_REJECTED);
    note.put("\n");
}

// The note on a certificate of which a leaf asks for more visits than are left.
fn put_unpriced(note: &mut Note, name: &str, line: &str, limits: Limits) {
    let refusal = Refusal {
        name,
        line: word_at(line, 1),
        kind: word_at(line, 0),
        limits,
    };
    put_head(note, &refusal, None);
    note.put(
        "pricing the blocks of this leaf may take more visits than are left; give more behind --visits, or leave it out\n",
    );
}

// The note on a text that is refused.
fn put_refused<F: Shelf>(
    alloc: Global,
    note: &mut Note,
    files: &Files,
    shelf: &mut F,
    line: &str,
    refusal: &Refusal,
)
    ensures files { F.file shelf.new ≡ F.file shelf.old }
    ensures told { F.tells shelf.new ≡ F.tells shelf.old }
    ensures writes { F.write_faults shelf.new ≡ F.write_faults shelf.old }
{
    match word_at(line, 1) {
        "lp" => put_model(alloc, note, shelf, refusal),
        "dec" => put_names(alloc, note, files, shelf, refusal, false),
        "rows" => put_names(alloc, note, files, shelf, refusal, true),
        "cert" => put_cert(alloc, note, shelf, refusal),
        "from" | "merge" => put_from(note, refusal),
        "leaf" => put_leaf(note, refusal),
        "blocks" => put_blocks(note, line, refusal),
        _ => {}
    }
}

// The note on a model.
fn put_model<F: Shelf>(alloc: Global, note: &mut Note, shelf: &mut F, refusal: &Refusal)
    ensures files { F.file shelf.new ≡ F.file shelf.old }
    ensures told { F.tells shelf.new ≡ F.tells shelf.old }
    ensures writes { F.write_faults shelf.new ≡ F.write_faults shelf.old }
{
    let text = note.known(text_of(alloc, shelf, refusal.name, refusal.limits.bytes()));
    let text = bytes_of(&text);
    if is_mps(text) {
        put_head(note, refusal, None);
        note.put(MPS);
        note.put("\n");
        return;
    }
    let spot = note.known(lp_spot(alloc, text, refusal.limits, refusal.line, refusal.kind));
    put_spot(note, refusal, &LP, text, spot);
}

// The bytes of a text; none of one that isn't known.
fn bytes_of(text: &Option<Vec<u8>>) -> &[u8] {
    match text {
        Some(bytes) => bytes.as_slice(),
        None => &[],
    }
}

// The note on a decomposition, or on a list of rows, beside the model of the file that was read first.
fn put_names<F: Shelf>(
    alloc: Global,
    note: &mut Note,
    files: &Files,
    shelf: &mut F,
    refusal: &Refusal,
    list: bool,
)
    ensures files { F.file shelf.new ≡ F.file shelf.old }
    ensures told { F.tells shelf.new ≡ F.tells shelf.old }
    ensures writes { F.write_faults shelf.new ≡ F.write_faults shelf.old }
{
    let model = match files.first() {
        Some(name) => note.known(text_of(alloc, shelf, name, refusal.limits.bytes())),
        None => None,
    };
    let text = note.known(text_of(alloc, shelf, refusal.name, refusal.limits.bytes()));
    let text = bytes_of(&text);
    let spot = match &model {
        Some(model) => note.known(names_spot(
            alloc,
            text,
            model,
            refusal.limits,
            refusal.line,
            refusal.kind,
            list,
        )),
        None => None,
    };
    put_spot(note, refusal, if list { &ROWS } else { &DEC }, text, spot);
}

// The note on a certificate to go on from, or to merge.
fn put_from(note: &mut Note, refusal: &Refusal) {
    put_head(note, refusal, None);
    note.put(FROM.of(refusal.kind, refusal.limits).unwrap_or(""));
    note.put("\n");
}

// The note on a certificate to go on from that has no open leaf of a number.
fn put_leaf(note: &mut Note, refusal: &Refusal) {
    note.put_name(refusal.name);
    note.put(": leaf: its lines that begin with `open` are fewer than ");
    note.put(refusal.line);
    note.put("; they count from 1, in their order\n");
}

// FILE:LINE:COLUMN: KIND: with a space behind it; no place for line 0, and no column where none is known.
fn put_head(note: &mut Note, refusal: &Refusal, column: Option<u64>) {
    note.put_name(refusal.name);
    if refusal.line != "0" && refusal.line != "" {
        note.put(":");
        note.put(refusal.line);
        if let Some(column) = column {
            note.put(":");
            note.put_number(column);
        }
    }
    note.put(": ");
    note.put(refusal.kind);
    note.put(": ");
}

// The note on a kind, with the place and the token of a text that are known of it.
fn put_spot(
    note: &mut Note,
    refusal: &Refusal,
    table: &Sentences,
    text: &[u8],
    spot: Option<Spot>,
) {
    match spot {
        Some(spot) => put_place(note, refusal, table, text, &spot),
        None => {
            put_head(note, refusal, None);
            put_kind(note, table, refusal.limits, key_of(table, refusal), None);
        }
    }
    note.put("\n");
}

// A kind with the place and the token of a text, and what is expected there.
fn put_place(note: &mut Note, refusal: &Refusal, table: &Sentences, text: &[u8], spot: &Spot) {
    put_head(note, refusal, Some(spot.column));
    put_kind(note, table, refusal.limits, spot.key, token_of(text, spot));
    if spot.expected != "" {
        note.put(": ");
        note.put(spot.expected);
    }
    if let Some(excess) = spot.excess {
        put_excess(note, excess);
    }
}

// How many digits the sums come to, how many are allowed, and the power of ten to scale by.
fn put_excess(note: &mut Note, excess: Excess) {
    note.put("; its coefficients times bounds, in size, and its side sum to ");
    note.put_number(excess.digits);
    note.put(" digits, and ");
    note.put_number(SAFE_DIGITS);
    note.put(" are always allowed: scale by 10^");
    note.put_number(excess.scale);
    note.put(", as by larger units");
}

// The key of a kind's sentence where no token is known.
fn key_of<'a>(table: &Sentences, refusal: &Refusal<'a>) -> &'a str {
    let is_size = refusal.line == "0" && refusal.kind == "limit";
    if is_size && sentence_of(table.usual, "limit-size").is_some() {
        return "limit-size";
    }
    refusal.kind
}

// A kind's sentence.
fn put_kind(note: &mut Note, table: &Sentences, limits: Limits, key: &str, token: Option<&[u8]>) {
    match table.of(key, limits) {
        Some(sentence) => note.put_sentence(sentence, token),
        None => note.put("docs/FORMATS.md says what this kind means"),
    }
}

// The token of a spot.
fn token_of<'a>(text: &'a [u8], spot: &Spot) -> Option<&'a [u8]> {
    if spot.from < spot.to {
        return text.get(spot.from..spot.to);
    }
    None
}

// The note on a certificate that can't be read, with the line at fault: a byte more of it than is quoted tells that it goes
// on.
fn put_cert<F: Shelf>(alloc: Global, note: &mut Note, shelf: &mut F, refusal: &Refusal)
    ensures files { F.file shelf.new ≡ F.file shelf.old }
    ensures told { F.tells shelf.new ≡ F.tells shelf.old }
    ensures writes { F.write_faults shelf.new ≡ F.write_faults shelf.old }
{
    put_head(note, refusal, None);
    let line = match refusal.line.parse::<u64>() {
        Ok(number) => note.known(line_of(alloc, shelf, refusal.name, number, MOST_QUOTED + 1)),
        Err(_) => None,
    };
    let key = cert_key(refusal.kind, line.is_some());
    put_kind(note, &CERT, refusal.limits, key, line.as_deref());
    note.put("\n");
}

// The key of the sentence of a certificate's kind, by whether the line at fault has bytes.
fn cert_key(kind: &str, known: bool) -> &str {
    if kind == "syntax" && !known {
        return "syntax-end";
    }
    kind
}

// The note on a decomposition that does not go with the model.
fn put_blocks(note: &mut Note, line: &str, refusal: &Refusal) {
    let place = Refusal {
        name: refusal.name,
        line: "",
        kind: word_at(line, 2),
        limits: refusal.limits,
    };
    put_head(note, &place, None);
    if place.kind == "links" {
        put_links(note, place.limits);
        return;
    }
    note.put("the variable ");
    note.put_quoted(word_at(line, 3).as_bytes());
    note.put(
        " stands in a row of a block, and is listed with another block or with the master; list it with the block in whose rows it stands, or in no list\n",
    );
}

// The sentence on a decomposition whose links are too many, or too large; rows and links together may be so many.
fn put_links(note: &mut Note, limits: Limits) {
    note.put(
        "a variable in rows of several blocks is linked by a row for each block but the first; these and the model's rows are more than ",
    );
    note.put_number(u64::from(limits.lines()));
    note.put(
        ", or such a variable has a bound past 2305843009213693951; put rows of such variables under MASTERCONSS",
    );
    if limits == Limits::Usual {
        note.put(", or where the rows are too many read the model with --large, which takes ");
        note.put_number(u64::from(Limits::Large.lines()));
    }
    note.put("\n");
}
