// Command lines, and the order that each gives.
use crate::tables::{Table, check, told};
use bp_theory::Limits;
use bp_words::{Order, SolveOrder, Text, Watching, WordFault, read_words};
use std::alloc::{AllocError, Global};
use std::fmt;
use std::fmt::Write;
use std::test::Fail;

/// Lines of an order and of the words that give it, with ` @ ` between them. A dash stands for what isn't given, and
/// `''` for a word without letters; behind an order whose model keeps the large limits there is a plus, and last what watches the search. Other lines are headings.
const LINES: &str = "\
# Files, joined to their options and apart.
solve a.lp - - - - - - - 0 @ solve a.lp
solve a.lp - - c - - - - 0 @ solve --cert=c a.lp
solve a.lp d - c - - - - 0 @ solve a.lp --cert c --dec d
solve a.lp - - c c - - - 0 @ solve a.lp --from=c --cert c
solve --cert - - - - - - - 0 @ solve -- --cert
check a.lp c - - @ check a.lp c
check a.lp c d - @ check --dec=d a.lp c
show a.lp - - @ show a.lp
show a.lp d - @ show a.lp --dec d
show a.lp - blocks @ show --blocks a.lp
show a.lp d blocks @ show a.lp --dec=d --blocks
show a.lp d blocks @ show a.lp --blocks --dec d
show --blocks - - @ show -- --blocks
detect a.lp r d @ detect a.lp r d
propose a.lp d @ propose a.lp d
propose a.lp --dec @ propose a.lp -- --dec
merge a.lp c d n - @ merge a.lp c d n
merge a.lp c c c e @ merge a.lp c --dec e c c
migrate a.lp c n - @ migrate a.lp c n
migrate a.lp c c e @ migrate a.lp c --dec=e c
# The large limits.
solve a.lp - - - - - - - 0+ @ solve a.lp --large
solve a.lp d 5 c - - - - 2+ @ solve --large a.lp --dec d --steps 5 --cert c --cuts 2
solve --large - - - - - - - 0 @ solve -- --large
check a.lp c - -+ @ check --large a.lp c
check a.lp c d 9+ @ check a.lp c --dec=d --large --visits 9
show a.lp - -+ @ show a.lp --large
show a.lp d blocks+ @ show --large a.lp --blocks --dec d
detect a.lp r d+ @ detect --large a.lp r d
propose a.lp d+ @ propose a.lp d --large
propose a.lp --large+ @ propose a.lp --large -- --large
merge a.lp c d n e+ @ merge a.lp c d n --dec e --large
migrate a.lp c n -+ @ migrate a.lp --large c n
refused @ solve a.lp --large --large
refused @ solve a.lp --large=1
refused @ solve a.lp --large 1
refused @ solve a.lp --larger
refused @ solve --large
refused @ propose a.lp --large
refused @ gen 1 1 a.lp a.dec --large
refused @ demo 1 1 --large
# Numbers.
solve a.lp - 7 - - - - - 0 @ solve a.lp --steps 007
solve a.lp - 1152921504606846976 - - - - - 0 @ solve --steps=1152921504606846976 a.lp
solve a.lp - - - - - 1 - 0 @ solve a.lp --workers 1
solve a.lp - - - - - 64 0 0 @ solve a.lp --workers=64 --order=0
solve a.lp - - - - - - 18446744073709551615 0 @ solve --order 18446744073709551615 a.lp
solve a.lp d 0 c f - 3 19 0 @ solve a.lp --order 19 --workers +3 --from f --cert c --steps 0 --dec d
solve a.lp - - - f 1 - - 0 @ solve a.lp --from f --leaf 1
solve a.lp d 5 c f 18446744073709551615 - - 0 @ solve --leaf=18446744073709551615 --from=f a.lp --steps 5 --dec d --cert c
solve a.lp - - - - - - - 0 @ solve a.lp --cuts 0
solve a.lp - - - - - - - 256 @ solve --cuts=256 a.lp
solve a.lp d - - - - - - 7 @ solve a.lp --cuts +007 --dec d
solve a.lp - - - - - 2 5 9 @ solve a.lp --workers 2 --cuts 9 --order 5
solve a.lp - - - f 1 - - 3 @ solve a.lp --from f --leaf 1 --cuts 3
check a.lp c - 0 @ check a.lp c --visits 0
check a.lp c - 9 @ check --visits=+9 a.lp c
check a.lp c d 18446744073709551615 @ check a.lp --visits 18446744073709551615 c --dec d
gen 0 1024 a.lp a.dec @ gen +0 1024 a.lp a.dec
demo 18446744073709551615 1 @ demo 18446744073709551615 1
refused @ solve a.lp --steps
refused @ solve a.lp --steps=-1
refused @ solve a.lp --steps=1152921504606846977
refused @ solve a.lp --steps=1.5
refused @ solve a.lp --steps=1 --steps=1
refused @ solve a.lp --workers
refused @ solve a.lp --workers 0
refused @ solve a.lp --workers 65
refused @ solve a.lp --workers=-1
refused @ solve a.lp --workers 4294967297
refused @ solve a.lp --workers 3 --workers 3
refused @ solve a.lp --order
refused @ solve a.lp --order=18446744073709551616
refused @ solve a.lp --order 1 --order=2
refused @ solve a.lp --from f --leaf
refused @ solve a.lp --from f --leaf 0
refused @ solve a.lp --from f --leaf=-1
refused @ solve a.lp --from f --leaf 18446744073709551616
refused @ solve a.lp --from f --leaf 1 --leaf 2
refused @ solve a.lp --cuts
refused @ solve a.lp --cuts=-1
refused @ solve a.lp --cuts 257
refused @ solve a.lp --cuts 1.5
refused @ solve a.lp --cuts 4294967296
refused @ solve a.lp --cuts 1 --cuts 1
refused @ check a.lp c --visits
refused @ check a.lp c --visits=-1
refused @ check a.lp c --visits 1.5
refused @ check a.lp c --visits 18446744073709551616
refused @ check a.lp c --visits 1 --visits 1
refused @ gen 1 0 a.lp a.dec
refused @ gen 1 1025 a.lp a.dec
refused @ gen 18446744073709551616 1 a.lp a.dec
refused @ gen 1 1 a.lp
refused @ demo 1 ''
refused @ demo -1 1
# What watches a search.
solve a.lp - - - - - - - 0 time 60 @ solve a.lp --time 60
solve a.lp d 9 c - - - - 0 time 0.5 gap 1.25 log 5 stop f @ solve --dec d --steps 9 --time 0.5 --gap=1.25 a.lp --cert c --log 5 --stop f
solve a.lp - - - f - - - 3+ gap 0 @ solve a.lp --gap 0 --from f --cuts 3 --large
solve a.lp - - - - - - - 0 log 000000000000000.01 @ solve a.lp --log 000000000000000.01
solve a.lp - - - - - - - 0 stop a.lp @ solve a.lp --stop a.lp
refused @ solve a.lp --time
refused @ solve a.lp --time 1 --time 1
refused @ solve a.lp --time ''
refused @ solve a.lp --time=-1
refused @ solve a.lp --time +1
refused @ solve a.lp --time 1s
refused @ solve a.lp --time .5
refused @ solve a.lp --time 5.
refused @ solve a.lp --time 1.2.3
refused @ solve a.lp --time 1e3
refused @ solve a.lp --time nan
refused @ solve a.lp --time 0000000000000000.01
refused @ solve a.lp --gap 1%
refused @ solve a.lp --gap inf
refused @ solve a.lp --log
refused @ solve a.lp --log a
refused @ solve a.lp --stop
refused @ solve a.lp --time 1 --workers 1
refused @ solve a.lp --gap 1 --order 0
refused @ solve a.lp --log 1 --from f --leaf 1
refused @ solve a.lp --stop f --workers 2 --order 1
refused @ check a.lp c --time 1
refused @ demo 1 1 --time 1
# Words that are no command line.
refused @ prove a.lp
refused @ solve
refused @ solve a.lp b.lp
refused @ solve a.lp --cert
refused @ solve a.lp --cert=c --cert=c
refused @ solve a.lp --dec
refused @ solve a.lp --dec=d --dec=e
refused @ solve a.lp --from
refused @ solve a.lp --from c --from c
refused @ solve a.lp --leaf 1
refused @ solve a.lp --cert f --leaf 1
refused @ solve a.lp --from f --leaf 1 --workers 1
refused @ solve a.lp --from f --leaf 1 --order 0
refused @ check a.lp c --leaf 1
refused @ solve a.lp --block=d
refused @ solve a.lp --help
refused @ --help
refused @ help
refused @ --version
refused @ check a.lp
refused @ check a.lp c --from c
refused @ show
refused @ show a.lp --cert=c
refused @ show a.lp --blocks=x
refused @ show a.lp --blocks=true
refused @ show a.lp --blocks --blocks
refused @ show a.lp --blocks d
refused @ show --blocks
refused @ solve a.lp --blocks
refused @ check a.lp c --workers 2
refused @ solve a.lp --visits 2
refused @ migrate a.lp c n --visits 2
refused @ check a.lp c --cuts 2
refused @ merge a.lp c d n --cuts 2
refused @ detect a.lp r
refused @ detect a.lp --dec d r
refused @ propose
refused @ propose a.lp
refused @ propose a.lp d e
refused @ propose a.lp --dec d
refused @ propose a.lp d --blocks
refused @ merge a.lp c d
refused @ merge a.lp c d n e
refused @ merge a.lp c d n --cert e
refused @ migrate a.lp c
refused @ migrate a.lp c n e
refused @ migrate a.lp c n --steps 1
";

// Adds a word; `''` is one without letters.
fn add_word(alloc: Global, words: &mut Vec<String>, word: &str) -> Result<(), AllocError> {
    let word = if word == "''" { "" } else { word };
    words.push(String::from_str(alloc, word)?)?;
    Ok(())
}

/// The program's name, and the words of a line behind it. A dash stands for none.
pub fn words_of(alloc: Global, line: &str) -> Result<Vec<String>, AllocError> {
    let mut words = Vec::new(alloc);
    add_word(alloc, &mut words, "bprice")?;
    if line != "-" {
        for word in line.split(' ') {
            add_word(alloc, &mut words, word)?;
        }
    }
    Ok(words)
}

// What may be given with an order; a dash stands for nothing.
#[derive(Clone, Copy)]
enum Given<'a> {
    Name(&'a str),
    Number(u64),
    Nothing,
}

impl<'a> fmt::Display for Given<'a> {
    fn fmt<W: fmt::Write>(&self, f: &mut fmt::Formatter<W>) -> fmt::Result {
        match self {
            Given::Name(name) => write!(f, "{name}"),
            Given::Number(number) => write!(f, "{number}"),
            Given::Nothing => write!(f, "-"),
        }
    }
}

// A name that may be given.
fn name(text: &Option<Text>) -> Given<'_> {
    match text {
        Some(text) => Given::Name(text.as_str()),
        None => Given::Nothing,
    }
}

// A number that may be given.
fn number(number: Option<u64>) -> Given<'static> {
    match number {
        Some(number) => Given::Number(number),
        None => Given::Nothing,
    }
}

// An order to solve in short: the files, the steps, the leaf, the workers and their order, the cuts.
fn solve(alloc: Global, given: &SolveOrder) -> Result<String, AllocError> {
    let lp = given.lp.as_str();
    let dec = name(&given.dec);
    let steps = number(given.steps);
    let cert = name(&given.cert);
    let from = name(&given.from);
    let leaf = number(given.leaf);
    let workers = number(given.workers.map(u64::from));
    let order = number(given.order);
    let cuts = given.cuts;
    let plus = sign(&given.limits);
    let watching = watching(alloc, &given.watching)?;
    format!(in alloc;
        "solve {lp} {dec} {steps} {cert} {from} {leaf} {workers} {order} {cuts}{plus}{watching}"
    )
}

// What watches a search in short: each word that is given, with its value.
fn watching(alloc: Global, given: &Watching) -> Result<String, AllocError> {
    let mut text = String::new(alloc);
    put_watching(&mut text, " time ", &given.time)?;
    put_watching(&mut text, " gap ", &given.gap)?;
    put_watching(&mut text, " log ", &given.log)?;
    put_watching(&mut text, " stop ", &given.stop)?;
    Ok(text)
}

// A word that watches a search, where it is given, with its value.
fn put_watching(text: &mut String, word: &str, value: &Option<Text>) -> Result<(), AllocError> {
    if let Some(value) = value {
        text.push_str(word)?;
        text.push_str(value.as_str())?;
    }
    Ok(())
}

// A plus for the large limits.
fn sign(limits: &Limits) -> &'static str {
    match limits {
        Limits::Usual => "",
        Limits::Large => "+",
    }
}

// An order in short.
fn short(alloc: Global, order: &Order) -> Result<String, AllocError> {
    match order {
        Order::Solve(given) => solve(alloc, given),
        Order::Check(given) => {
            let (lp, cert) = (given.lp.as_str(), given.cert.as_str());
            let (dec, visits) = (name(&given.dec), number(given.visits));
            format!(in alloc; "check {lp} {cert} {dec} {visits}{}", sign(&given.limits))
        }
        Order::Show {
            lp,
            dec,
            blocks,
            classes,
            limits,
        } => {
            let blocks = if *blocks { "blocks" } else { "-" };
            let classes = if *classes { " classes" } else { "" };
            format!(in alloc;
                "show {} {} {blocks}{classes}{}",
                lp.as_str(),
                name(dec),
                sign(limits)
            )
        }
        Order::Merge(given) => {
            let (lp, dec) = (given.lp.as_str(), name(&given.dec));
            let (first, second) = (given.first.as_str(), given.second.as_str());
            let (new, plus) = (given.new.as_str(), sign(&given.limits));
            format!(in alloc; "merge {lp} {first} {second} {new} {dec}{plus}")
        }
        Order::Migrate {
            lp,
            cert,
            new,
            dec,
            limits,
        } => {
            let (lp, cert, new) = (lp.as_str(), cert.as_str(), new.as_str());
            format!(in alloc; "migrate {lp} {cert} {new} {}{}", name(dec), sign(limits))
        }
        others => made(alloc, others),
    }
}

// An order that makes texts in short.
fn made(alloc: Global, order: &Order) -> Result<String, AllocError> {
    match order {
        Order::Gen {
            seed,
            size,
            lp,
            dec,
        } => format!(in alloc; "gen {seed} {size} {} {}", lp.as_str(), dec.as_str()),
        Order::Demo { seed, size } => format!(in alloc; "demo {seed} {size}"),
        Order::Detect {
            lp,
            rows,
            dec,
            limits,
        } => {
            let (lp, rows, dec) = (lp.as_str(), rows.as_str(), dec.as_str());
            format!(in alloc; "detect {lp} {rows} {dec}{}", sign(limits))
        }
        Order::Propose { lp, dec, limits } => {
            format!(in alloc; "propose {} {}{}", lp.as_str(), dec.as_str(), sign(limits))
        }
        _ => String::from_str(alloc, "-"),
    }
}

// What words are read as, in short.
fn answer(alloc: Global, words: &[String]) -> Result<String, AllocError> {
    match read_words(alloc, words) {
        Ok(order) => short(alloc, &order),
        Err(WordFault::Refused) => String::from_str(alloc, "refused"),
        Err(WordFault::NoMemory) => Err(AllocError),
    }
}

// What the words of a line are read as.
fn answer_to(alloc: Global, line: &str) -> Result<String, AllocError> {
    let words = words_of(alloc, line)?;
    answer(alloc, words.as_slice())
}

/// Adds the line of words that give another order than its own, with that order. Tells whether the line has words.
pub fn add_wrong(alloc: Global, all: &mut String, line: &str) -> Result<bool, AllocError> {
    let Some((want, words)) = line.split_once(" @ ") else {
        return Ok(false);
    };
    let found = answer_to(alloc, words)?;
    if found.as_str() != want {
        writeln!(all, "{found} at {line}")?;
    }
    Ok(true)
}

#[test]
fn each_line_gives_its_order_or_is_refused(rt: HostRuntime) -> Result<(), Fail> {
    check(&rt, told(rt.alloc(), Table::Lines, LINES), "169 lines")
}

#[test]
fn no_words_are_refused(rt: HostRuntime) -> Result<(), Fail> {
    check(&rt, answer(rt.alloc(), &[]), "refused")
}
