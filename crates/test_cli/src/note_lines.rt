// Notes on runs, written by hand.
use crate::lines::words_of;
use crate::tables::{Table, check, told};
use bp_real::Files;
use bp_shelf::MemShelf;
use notes::{explain, page_for, page_text};
use std::alloc::{AllocError, Global};
use std::fmt::Write;
use std::test::Fail;

/// What the length of a file stays below.
const LIMIT: usize = 1 << 40;

/// Cases: the words behind the program's name, or a dash; the status and the first line of the report, or `page` for the page
/// that the words ask for; the text that
/// was read first, and the one behind it, or dashes, which under 8 is one that could not be written for want of space; the
/// note. Bars end the lines of texts and notes; a star stands for the rest of a note.
const CASES: &str = "\
- @ 2 refused words @ - @ - @ usage: bprice COMMAND .., and `help COMMAND` tells of one; `--` ends the options|  solve LP [..]             a best point, and a certificate of it|  check LP CERT [..]        whether*
--help @ 2 refused words @ - @ - @ usage: bprice COMMAND .., and `help COMMAND` tells of one; `--` ends the options|*
help @ page @ - @ - @ usage: bprice COMMAND .., and `help COMMAND` tells of one; `--` ends the options|  solve LP [..]             a best point, and a certificate of it|*
version @ page @ - @ - @ bprice 0.6.0, proved with rattle-kit-13f, logic dac8208d650f15bf|
help demo @ page @ - @ - @ usage: bprice demo SEED SIZE|  makes one in memory, solves it, checks that|
help solve @ page @ - @ - @ usage: bprice solve LP [--dec DEC] [--steps N] [--cert CERT] [--from FILE] [--leaf K] [--workers W] [--order SEED] [--cuts C] [--large] [--time S] [--gap P] [--log S] [--stop FILE]|  a best point, and a certificate of it|*
help check @ page @ - @ - @ usage: bprice check LP CERT [--dec DEC] [--visits M] [--large]|*
help propose @ page @ - @ - @ usage: bprice propose LP DEC [--large]|*
help detect @ page @ - @ - @ usage: bprice detect LP ROWS DEC [--large]|*
help merge @ page @ - @ - @ usage: bprice merge LP A B NEW [--dec DEC] [--large]|*
help migrate @ page @ - @ - @ usage: bprice migrate LP CERT NEW [--dec DEC] [--large]|*
help gen @ page @ - @ - @ usage: bprice gen SEED SIZE LP DEC|  writes an assignment problem and its blocks|
- @ page @ - @ - @ no page
--help @ page @ - @ - @ no page
--version @ page @ - @ - @ no page
solve help @ page @ - @ - @ no page
version help @ page @ - @ - @ no page
help help @ page @ - @ - @ no page
help Demo @ page @ - @ - @ no page
help demo 1 @ page @ - @ - @ no page
help prove @ 2 refused words @ - @ - @ bprice: 'prove' is no command; the first word is one of solve check *
help show @ page @ - @ - @ usage: bprice show LP [--dec DEC] [--blocks] [--classes] [--large]|  the blocks, and which are identical|  --dec DEC      the decomposition of the model, as GCG DEC text|  --blocks       tell the rows and variables of each block|  --classes      tell them of the first block of each class|  --large        read models of up to 524288 variables, not 4096|
check -h @ 2 refused words @ - @ - @ usage: bprice check LP CERT [--dec DEC] [--visits M] [--large]|  whether a certificate is valid|*
--version @ 2 refused words @ - @ - @ bprice, proved with rattle-kit-13f, logic dac8208d650f15bf|
prove m.lp @ 2 refused words @ - @ - @ bprice: 'prove' is no command; the first word is one of solve check show propose detect merge migrate gen demo|usage: bprice COMMAND .., and bprice --help tells more|
check m.lp @ 2 refused words @ - @ - @ bprice: check wants a further word: CERT|usage: bprice check LP CERT [--dec DEC] [--visits M] [--large]|
demo 1 2 3 @ 2 refused words @ - @ - @ bprice: '3' is one word too many for demo|usage: bprice demo SEED SIZE|
demo 1 2000 @ 2 refused words @ - @ - @ bprice: SIZE is a whole number from 1 to 1024, and not '2000'|usage: bprice demo SEED SIZE|
check m.lp c --dec @ 2 refused words @ - @ - @ bprice: --dec wants a value behind it: DEC|usage: bprice check LP CERT [--dec DEC] [--visits M] [--large]|
check m.lp c --dec --dec d @ 2 refused words @ - @ - @ bprice: --dec wants a value behind it: DEC|usage: bprice check LP CERT [--dec DEC] [--visits M] [--large]|
check m.lp c --dec=d --dec e @ 2 refused words @ - @ - @ bprice: --dec is given twice; keep one of the two|usage: bprice check LP CERT [--dec DEC] [--visits M] [--large]|
check m.lp c --decs d @ 2 refused words @ - @ - @ bprice: '--decs' is no option of check; a file of that name goes behind --|usage: bprice check LP CERT [--dec DEC] [--visits M] [--large]|
check m.lp c --visits x @ 2 refused words @ - @ - @ bprice: M is a whole number from 0 to 18446744073709551615, and not 'x'|usage: bprice check LP CERT [--dec DEC] [--visits M] [--large]|
show m.lp --blocks=1 @ 2 refused words @ - @ - @ bprice: --blocks takes no value|usage: bprice show LP [--dec DEC] [--blocks] [--classes] [--large]|
solve --steps=1.5 m.lp @ 2 refused words @ - @ - @ bprice: N is a whole number from 0 to 1152921504606846976, and not '1.5'|*
solve m.lp --cuts 257 @ 2 refused words @ - @ - @ bprice: C is a whole number from 0 to 256, and not '257'|usage: bprice solve LP [--dec DEC] [--steps N] [--cert CERT] [--from FILE] [--leaf K] [--workers W] [--order SEED] [--cuts C] [--large] [--time S] [--gap P] [--log S] [--stop FILE]|
solve m.lp --time 1s @ 2 refused words @ - @ - @ bprice: S is a number of seconds as 60 or 0.5, and not '1s'|*
solve m.lp --gap=1.2.3 @ 2 refused words @ - @ - @ bprice: P is a number of percent as 60 or 0.5, and not '1.2.3'|*
solve m.lp --log --gap @ 2 refused words @ - @ - @ bprice: --log wants a value behind it: S|*
solve m.lp --stop f --workers 2 @ 2 refused words @ - @ - @ bprice: --time, --gap, --log and --stop go without --leaf, --workers and --order|*
solve m.lp --workers 65 @ 2 refused words @ - @ - @ bprice: W is a whole number from 1 to 64, and not '65'|*
solve m.lp @ 7 @ - @ - @ bprice: m.lp: it could not be read; it has to be a plain file (no folder, no pipe) that may be read|
solve m.lp @ 11 @ - @ - @ bprice: m.lp: there is no such file|
solve m.lp @ 8 optimal 8 @ Max| @ - @ bprice: the standard output could not be written; is its reader gone?|bprice: the report would have been|optimal 8
solve m.lp @ 8 @ Max| @ - @ bprice: the standard output could not be written; is its reader gone?|
solve m.lp --cert c @ 8 optimal 8 @ Max| @ c @ bprice: c: it could not be written; no space left|bprice: the report would have been|optimal 8
merge m.lp a b c @ 8 merged open 0 @ Max| @ c @ bprice: c: it could not be written; no space left|bprice: the report would have been|merged open 0
gen 1 2 a c @ 8 @ Max| @ c @ bprice: c: it could not be written; no space left|
solve m.lp @ 9 @ - @ - @ bprice: want of memory; give the process more, or solve a smaller model|
solve m.lp @ 0 optimal 8 @ Max| @ - @ 
solve m.lp @ 4 infeasible @ Max| @ - @ 
solve m.lp @ 3 refused lp 2 bad-byte @ Max|x + é|End @ - @ m.lp:2:5: bad-byte: '\\xc3' begins no number, name or mark; take it out, or put it behind a backslash as a comment|
solve m.lp @ 3 refused lp 2 not-whole @ Max| 1.50e1 x + 1.5 y|End @ - @ m.lp:2:13: not-whole: the number '1.5' is not whole; *
solve m.lp @ 3 refused lp 4 not-whole @ Max| x|Bounds| x <= 1.5|End @ - @ m.lp:4: not-whole: the number is not whole; *
solve m.lp @ 3 refused lp 5 not-whole @ Max| x|st|Bounds| x <= 1.5|End @ - @ m.lp:5:7: not-whole: the number '1.5' is not whole; write the next whole number within the bound|
solve m.lp @ 3 refused lp 4 too-large @ Max| x|st| x <= 4611686018427387904|Bounds| x <= 1e20|End @ - @ m.lp:4:7: too-large: the number '4611686018427387904' is past*
solve m.lp @ 3 refused lp 2 feature @ Max| x ^ 2|End @ - @ m.lp:2:4: feature: '^' belongs to what is not supported: *
solve m.lp @ 3 refused lp 1 syntax @ Foo|End @ - @ m.lp:1:1: syntax: 'Foo' can't stand here: a text begins with Maximize or Minimize, alone or first in its line|
solve m.lp @ 3 refused lp 4 syntax @ Max| x|st| c1: x <= y|End @ - @ m.lp:4:11: syntax: 'y' can't stand here: one number stands behind the comparison; bring variables to its left|
solve m.lp @ 3 refused lp 5 syntax @ Max| x|st| c1: x +|st <= 5|End @ - @ m.lp:5:1: syntax: 'st' can't stand here: the rows begin once, behind a whole objective; if it is a name, put it where it does not begin its line|
solve m.lp @ 3 refused lp 4 syntax @ Max| x|st| c1: x + 3 <= 5|End @ - @ m.lp:4:12: syntax: '<=' can't stand here: a number among the terms of a row goes with a name; bring one without to the row's right side|
solve m.lp @ 3 refused lp 5 syntax @ Max| x|st|Bounds| 1 <= x >= 0|End @ - @ m.lp:5:9: syntax: '>=' can't stand here: the second comparison of a bound has the direction of the first, as in 1 <= x <= 3|
solve m.lp @ 3 refused lp 5 row-twice @ Max| x|st| x <= 3| c1: x <= 4|End @ - @ m.lp:5:2: row-twice: an earlier row has the name 'c1' too (a row without a name is called c and its place); give one of them another name|
solve m.lp @ 3 refused lp 5 no-end @ Max| x|st| x <= 3| @ - @ m.lp:5: no-end: the text ends without the word End; write it as the last line, the first word of its line|
solve m.lp @ 3 refused lp 0 limit @ Max @ - @ m.lp: limit: the text has more than 16777216 bytes, the most that is read; read it with --large, which takes 268435456, or write a smaller model|
solve m.lp --large @ 3 refused lp 0 limit @ Max @ - @ m.lp: limit: the text has more than 268435456 bytes, the most that is read; write a smaller model|
solve -- --large @ 3 refused lp 7 limit @ Max @ - @ m.lp:7: limit: the model is too large: 4096 variables, *
solve m.lp @ 3 refused lp 2 unbounded @ Max| x + z|st| x + z <= 3|Bounds| x <= 3|Generals| x z|End @ - @ m.lp:2:6: unbounded: 'z' has no upper bound; add one under Bounds, as in x <= 100|
solve m.lp @ 3 refused lp 2 unbounded @ Max| x + z|st|Bounds| x <= 3| z <= 4| -inf <= z|Generals| x z|End @ - @ m.lp:2:6: unbounded: 'z' has no lower bound; add one under Bounds, as in x >= -100|
solve m.lp @ 3 refused lp 2 crossed @ Max| x + z|st|Bounds| x <= 3| z <= -1|Generals| x z|End @ - @ m.lp:2:6: crossed: the lower bound of 'z' is above its upper bound; write both, as in -5 <= x <= -1 (one that is not written is 0)|
solve m.lp @ 3 refused lp 2 continuous @ Max| x + z|st|Bounds| x <= 3| z <= 4|Generals| x|End @ - @ m.lp:2:6: continuous: 'z' is under neither Generals nor Binaries, and only whole variables can be solved for; list it under one of them, or count it in tenths: divide its coefficients in rows and costs by ten, multiply its bounds by ten, and list it under Generals; multiply a row or objective by ten whose numbers are then not whole|
solve m.lp @ 3 refused lp 4 activity @ Max| x|st| c7: 2305843009213693951 x <= 2305843009213693953|Binaries| x|End @ - @ m.lp:4:2: activity: the sums of the row or objective 'c7' here may pass 4611686018427387903 (2^62 - 1) within the bounds; write smaller numbers, or narrower bounds; its coefficients times bounds, in size, and its side sum to 19 digits, and 18 are always allowed: scale by 10^1, as by larger units|
solve m.lp @ 3 refused lp 4 activity @ Max| x|st| c7: 3000000000 x - 2 y + 3000000000 x <= 5|Bounds| -2000000000000 <= x <= 1| y <= 7|Generals| x y|End @ - @ m.lp:4:2: activity: the sums of the row or objective 'c7' here may pass 4611686018427387903 (2^62 - 1) within the bounds; write smaller numbers, or narrower bounds; its coefficients times bounds, in size, and its side sum to 23 digits, and 18 are always allowed: scale by 10^4, as by larger units|
solve m.lp @ 3 refused lp 1 activity @ Max| 3000000000 x + 2 y - 7|st|Bounds| x <= 2000000000000| y <= 7|Generals| x y|End @ - @ m.lp:1:1: activity: the sums of the row or objective 'Max' here may pass 4611686018427387903 (2^62 - 1) within the bounds; write smaller numbers, or narrower bounds; its coefficients times bounds, in size, and its side sum to 22 digits, and 18 are always allowed: scale by 10^4, as by larger units|
solve m.lp @ 3 refused lp 2 syntax @ NAME          PLAN|ROWS| N  COST|COLUMNS|ENDATA @ - @ m.lp:2: syntax: this is MPS: `glpsol --freemps model.mps --wlp model.lp`, or PuLP, writes LP|
solve m.lp @ 3 refused lp 1 feature @ * a plan||  ROWS| N  COST|COLUMNS|ENDATA @ - @ m.lp:1: feature: this is MPS: `glpsol --freemps model.mps --wlp model.lp`, or PuLP, writes LP|
solve m.lp @ 3 refused lp 1 syntax @ NAMES| x|End @ - @ m.lp:1:1: syntax: 'NAMES' can't stand here: a text begins with *
solve m.lp --dec o @ 3 refused dec 1 syntax @ Max| x|st| cap1: x <= 3|End @ NBLOCKS two @ o:1:9: syntax: 'two' can't stand here: a number stands behind this keyword|
solve m.lp --dec o @ 3 refused dec 3 unknown-row @ Max| x|st| cap1: x <= 3|End @ NBLOCKS 1|BLOCK 1| cap1 cap9 @ o:3:7: unknown-row: no row of the model has the name 'cap9' here; an unnamed row is called c and its place, as c3|
solve m.lp --dec o @ 3 refused dec 4 row-twice @ Max| x|st| cap1: x <= 3|End @ NBLOCKS 1|BLOCK 1| cap1|MASTERCONSS cap1 @ o:4:13: row-twice: the row 'cap1' is listed a second time; keep one of the two places|
solve m.lp --dec o @ 3 refused blocks links @ Max @ NBLOCKS 2 @ o: links: a variable in rows of several blocks is linked by a row for each block but the first; these and the model's rows are more than 8192, or such a variable has a bound past 2305843009213693951; put rows of such variables under MASTERCONSS, or where the rows are too many read the model with --large, which takes 1048576|
detect m.lp o d @ 3 refused rows 1 blocks @ Max @ c1 @ o:1: blocks: the rows beside these fall into more than 4096 blocks, the most; read the model with --large, which takes 131072, or list fewer master rows|
check m.lp o @ 3 refused cert 9 depth @ Max @ bpcert 2 @ o:9: depth: a node lies under more than 8256 splits, the most; read it with --large, which takes 1048640|
solve m.lp --from o @ 3 refused from 9 depth @ Max @ bpcert 1| @ o:9: depth: the certificate is valid, but this leaf lies too deep to be split on (its splits and its zone's binary digits pass 8256); read it with --large, which takes 1048640, begin anew, or from another certificate|
show m.lp --large --dec o @ 3 refused blocks links @ Max @ NBLOCKS 2 @ o: links: a variable in rows of several blocks is linked by a row for each block but the first; these and the model's rows are more than 1048576, or such*
solve m.lp --dec o @ 3 refused dec 1 limit @ Max| x|st| cap1: x <= 3|End @ NBLOCKS 4097 @ o:1:9: limit: '4097' blocks are too many: 4096 are the most; read the model with --large, which takes 131072, or put more rows together|
solve m.lp --dec o --large @ 3 refused dec 1 limit @ Max| x|st| cap1: x <= 3|End @ NBLOCKS 131073 @ o:1:9: limit: '131073' blocks are too many: 131072 are the most; put more rows together|
solve m.lp --dec o @ 3 refused dec 3 unknown-row @ Max| x|st| cap1: x <= 3| x <= 4| cap3: x <= 5|End @ NBLOCKS 1|BLOCK 1 cap3 c2| c1 @ o:3:2: unknown-row: no row of the model has the name 'c1' here; *
show m.lp --large @ 3 refused lp 5 row-twice @ Max| x|st| c2: x <= 3| x <= 4|End @ - @ m.lp:5:2: row-twice: an earlier row has the name 'x' too (a row*
solve m.lp --dec o @ 3 refused blocks var-place x @ Max| x|st| cap1: x <= 3|Binaries| x|End @ NBLOCKS 2|BLOCK 1| cap1|BLOCKVARS 2 x @ o: var-place: the variable 'x' stands in a row of a block, and is listed with another block or with the master; list it with the block in whose rows it stands, or in no list|
show m.lp --dec o @ 3 refused blocks var-place x @ Max| x|st| cap1: x <= 3| job1: x <= 2|Binaries| x|End @ NBLOCKS 1|BLOCK 1| cap1|MASTERCONSS job1|MASTERVARS x @ o: var-place: the variable 'x' stands in a row of a block, and is listed with another block or with the master; list it with the block in whose rows it stands, or in no list|
detect m.lp o d @ 3 refused rows 2 unknown-row @ Max| x|st| x <= 3|End @ c1|c2 @ o:2:1: unknown-row: no row of the model has the name 'c2' here; an unnamed row is called c and its place, as c3|
check m.lp o @ 3 refused cert 3 syntax @ Max @ bpcert 1|claim infeasible|leaf 05 rows 0 priced 0|end| @ o:3: syntax: this is not the form*
migrate m.lp o n @ 3 refused cert 3 number @ Max @ bpcert 1|claim infeasible|leaf 1 rows 1 2 3 priced 20 1 2 3 4 5 6 7 8 9 10 11 12 13 14 15 16|end| @ o:3: number: in 'leaf 1 rows 1 2 3 priced 20 1 2 3 4 5 6 7 8 9 10 11 12 13 14..' a variable*
check m.lp o @ 3 refused cert 5 syntax @ Max @ bpcert 1|claim infeasible|leaf 1 rows 0 priced 0|end| @ o:5: syntax: the line is empty, or the text ends before the line `end`; was the file cut off?|
check m.lp o @ 3 refused cert 259 limit @ Max @ bpcert 3| @ o:259: limit: there are more than 256 cuts, the most|
check m.lp o @ 6 rejected 3 cut @ Max @ bpcert 3| @ o:3: cut: the sums of this cut's row may pass 4611686018427387903 (2^62 - 1) within the bounds; *
check m.lp o @ 6 rejected 4 weak @ Max @ bpcert 1| @ o:4: weak: the bound that this leaf's multipliers prove does not reach what the claim needs; the claim is not proved*
check m.lp o --visits 9 @ 10 unknown 4 @ Max @ bpcert 1| @ o:4: unknown: pricing the blocks of this leaf may take more visits than are left; *
solve m.lp --from o @ 3 refused from 9 depth @ Max @ bpcert 1| @ o:9: depth: the certificate is valid, but*
";

// A case.
#[derive(Clone, Copy)]
struct Case<'a> {
    // The words behind the program's name, with spaces between them; a dash where there are none.
    words: &'a str,
    // The status, and behind a space the first line of the report; `page` where the words' page is the note.
    ended: &'a str,
    // The text of `m.lp`, with a bar for each line feed; a dash where it can't be read.
    first: &'a str,
    // The text of `o`, in the same way; a dash where it isn't read.
    other: &'a str,
    // The note that is wanted, or its beginning and a star.
    note: &'a str,
}

// The case of a line.
fn case_of(line: &str) -> Option<Case<'_>> {
    let (words, rest) = line.split_once(" @ ")?;
    let (ended, rest) = rest.split_once(" @ ")?;
    let (first, rest) = rest.split_once(" @ ")?;
    let (other, note) = rest.split_once(" @ ")?;
    Some(Case {
        words,
        ended,
        first,
        other,
        note,
    })
}

// The byte of a text that a line has this one for.
fn byte_of(byte: u8) -> u8 {
    if byte == b'|' { b'\n' } else { byte }
}

// A text whose lines end with bars.
fn text_of(alloc: Global, line: &str) -> Result<Vec<u8>, AllocError> {
    let mut text = Vec::new(alloc);
    for byte in line.as_bytes() {
        text.push(byte_of(*byte))?;
    }
    Ok(text)
}

// Puts a text on a shelf.
fn put_text(alloc: Global, shelf: &mut MemShelf, name: &str, line: &str) -> Result<(), AllocError> {
    let text = text_of(alloc, line)?;
    if text.len() < LIMIT {
        shelf.put_file(name, text.as_slice())?;
    }
    Ok(())
}

// Puts the texts of a case on a shelf, and keeps that they were read, or that the first was not, or that one could not be written.
fn read_texts(
    alloc: Global,
    files: &mut Files,
    shelf: &mut MemShelf,
    case: &Case<'_>,
) -> Result<(), AllocError> {
    if case.first == "-" {
        files.fail("m.lp", false);
        return Ok(());
    }
    put_text(alloc, shelf, "m.lp", case.first)?;
    files.read("m.lp", 0);
    files.read("m.lp", 7);
    if case.other == "-" {
        return Ok(());
    }
    if case.ended.starts_with("8") {
        files.fail("c", true);
        files.fill();
        return Ok(());
    }
    put_text(alloc, shelf, "o", case.other)?;
    files.read("o", 0);
    Ok(())
}

// The status of a case, and the first line of its report.
fn ended_of<'a>(case: &Case<'a>) -> (u8, &'a [u8]) {
    let (status, report) = match case.ended.split_once(" ") {
        Some(ended) => ended,
        None => (case.ended, ""),
    };
    (status.parse::<u8>().unwrap_or(0), report.as_bytes())
}

// The note of a case on files of which nothing is kept yet.
fn noted(
    alloc: Global,
    words: &[String],
    files: &mut Files,
    shelf: &mut MemShelf,
    case: &Case<'_>,
) -> Result<Vec<u8>, AllocError> {
    read_texts(alloc, files, shelf, case)?;
    let (status, report) = ended_of(case);
    explain(alloc, words, status, report, files, shelf)
}

// The page that words ask for.
fn asked_page(alloc: Global, words: &[String]) -> Result<Vec<u8>, AllocError> {
    match page_for(words) {
        Some(page) => page_text(alloc, page),
        None => b"no page".to_vec(alloc),
    }
}

// The note of a case.
fn note_of(alloc: Global, case: &Case<'_>) -> Result<Vec<u8>, AllocError> {
    let words = words_of(alloc, case.words)?;
    if case.ended == "page" {
        return asked_page(alloc, words.as_slice());
    }
    let mut shelf = MemShelf::slow(alloc, &[], 7)?;
    let mut files = Files::new(alloc);
    noted(alloc, words.as_slice(), &mut files, &mut shelf, case)
}

// Whether a note begins as is written, with line feeds for bars.
fn begins_as(note: &[u8], start: &[u8]) -> bool {
    if note.len() < start.len() {
        return false;
    }
    for place in 0..start.len() {
        if note[place] != byte_of(start[place]) {
            return false;
        }
    }
    true
}

// Whether a note is as written; a star stands for its rest.
fn is_as(note: &[u8], wanted: &str) -> bool {
    match wanted.as_bytes().split_last() {
        Some((last, start)) if *last == b'*' => begins_as(note, start),
        _ => note.len() == wanted.len() && begins_as(note, wanted.as_bytes()),
    }
}

/// Adds the line of a case with another note than its own, with that note. Tells whether the line has a case.
pub fn add_wrong(alloc: Global, all: &mut String, line: &str) -> Result<bool, AllocError> {
    let Some(case) = case_of(line) else {
        return Ok(false);
    };
    let note = note_of(alloc, &case)?;
    if !is_as(note.as_slice(), case.note) {
        let found = String::from_utf8_lossy(alloc, note.as_slice())?;
        writeln!(all, "{found} at {line}")?;
    }
    Ok(true)
}

#[test]
fn notes_are_as_written(rt: HostRuntime) -> Result<(), Fail> {
    check(&rt, told(rt.alloc(), Table::Notes, CASES), "100 lines")
}
