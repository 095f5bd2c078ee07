// The words of the command line: what they may be, and what is wrong with others.
use crate::text::{Note, word_at};
use bp_theory::Limits;

/// The version of the program.
pub const VERSION: &str = "0.6.0";

// The kit that the program is proved with.
const KIT: &str = "rattle-kit-13f, logic dac8208d650f15bf";

// A command: its name, the words that it wants, the options that it takes, and what it does.
#[derive(Clone, Copy)]
struct Command {
    // The first word behind the program's name.
    name: &'static str,
    // The words that it wants, in order, with a space between them; one that `NUMBERS` has stands for a number.
    places: &'static str,
    // The options that it takes, by their names in `OPTIONS`.
    options: &'static [&'static str],
    // What the usage says behind the words.
    does: &'static str,
}

const COMMANDS: [Command; 9] = [
    Command {
        name: "solve",
        places: "LP",
        options: &[
            "--dec",
            "--steps",
            "--cert",
            "--from",
            "--leaf",
            "--workers",
            "--order",
            "--cuts",
            "--large",
            "--time",
            "--gap",
            "--log",
            "--stop",
        ],
        does: "a best point, and a certificate of it",
    },
    Command {
        name: "check",
        places: "LP CERT",
        options: &["--dec", "--visits", "--large"],
        does: "whether a certificate is valid",
    },
    Command {
        name: "show",
        places: "LP",
        options: &["--dec", "--blocks", "--classes", "--large"],
        does: "the blocks, and which are identical",
    },
    Command {
        name: "propose",
        places: "LP DEC",
        options: &["--large"],
        does: "writes a decomposition that it finds",
    },
    Command {
        name: "detect",
        places: "LP ROWS DEC",
        options: &["--large"],
        does: "writes the blocks beside the rows of a list",
    },
    Command {
        name: "merge",
        places: "LP A B NEW",
        options: &["--dec", "--large"],
        does: "writes one certificate for two",
    },
    Command {
        name: "migrate",
        places: "LP CERT NEW",
        options: &["--dec", "--large"],
        does: "writes a certificate anew, in version 2, with cuts 3",
    },
    Command {
        name: "gen",
        places: "SEED SIZE LP DEC",
        options: &[],
        does: "writes an assignment problem and its blocks",
    },
    Command {
        name: "demo",
        places: "SEED SIZE",
        options: &[],
        does: "makes one in memory, solves it, checks that",
    },
];

// An option: its name, its value or nothing, and what it means.
#[derive(Clone, Copy)]
struct Choice {
    // Its name with the two dashes.
    name: &'static str,
    // What the usage calls its value: a number where `NUMBERS` has the name. Empty where the option takes none.
    value: &'static str,
    // What the usage says behind the value; it begins with the spaces that align it.
    means: &'static str,
}

const OPTIONS: [Choice; 16] = [
    Choice {
        name: "--dec",
        value: "DEC",
        means: "      the decomposition of the model, as GCG DEC text",
    },
    Choice {
        name: "--steps",
        value: "N",
        means: "      stop after N steps, and keep a bound",
    },
    Choice {
        name: "--cert",
        value: "CERT",
        means: "    write the certificate of the answer",
    },
    Choice {
        name: "--from",
        value: "FILE",
        means: "    go on from the tree of this certificate",
    },
    Choice {
        name: "--leaf",
        value: "K",
        means: "       work below the K-th open leaf of that certificate alone",
    },
    Choice {
        name: "--visits",
        value: "M",
        means: "     price no leaf that asks for more than is left of M visits",
    },
    Choice {
        name: "--workers",
        value: "W",
        means: "    search in the order of W workers, 1 to 64",
    },
    Choice {
        name: "--order",
        value: "SEED",
        means: "   the seed of that order",
    },
    Choice {
        name: "--cuts",
        value: "C",
        means: "       add at most C rounding cuts, 0 to 256, before the first step",
    },
    Choice {
        name: "--blocks",
        value: "",
        means: "      tell the rows and variables of each block",
    },
    Choice {
        name: "--classes",
        value: "",
        means: "     tell them of the first block of each class",
    },
    Choice {
        name: "--large",
        value: "",
        means: "       read models of up to 524288 variables, not 4096",
    },
    Choice {
        name: "--time",
        value: "S",
        means: "       stop after S seconds, and keep a bound",
    },
    Choice {
        name: "--gap",
        value: "P",
        means: "        stop once value and bound are no more than P percent apart",
    },
    Choice {
        name: "--log",
        value: "S",
        means: "        tell on standard error how it goes, every S seconds",
    },
    Choice {
        name: "--stop",
        value: "FILE",
        means: "    stop once this file is there",
    },
];

// How many of the options the whole usage tells; that of a command tells all of its own.
const IN_USAGE: usize = 12;

// The words that stand for amounts, with what they are.
const AMOUNTS: [(&str, &str); 2] = [("S", "seconds"), ("P", "percent")];

// How many bytes an amount has at most.
const LONGEST_AMOUNT: usize = 18;

// The options that watch a search, and those beside which they may not stand.
const WATCHING: [&str; 4] = ["--time", "--gap", "--log", "--stop"];

const UNWATCHED: [&str; 3] = ["--leaf", "--workers", "--order"];

// The words that stand for numbers, with the least and the greatest number that each may be.
const NUMBERS: [(&str, u64, u64); 7] = [
    ("N", 0, 1 << 60),
    ("K", 1, u64::MAX),
    ("M", 0, u64::MAX),
    ("W", 1, 64),
    ("C", 0, 256),
    ("SEED", 0, u64::MAX),
    ("SIZE", 1, 1024),
];

const STATUSES: &str = "\
status: 0 done, 2 no command line, 3 text refused, 4 infeasible, 5 out of steps,
  6 rejected, 7 unreadable, 8 unwritable, 9 no memory, 10 out of visits, 11 no such file
";

// How far the commands' words reach in the list of them.
const WIDTH: usize = 28;

// How far words are read: whether the options are ended, how many words are no options, and the option whose value is
// awaited.
#[derive(Drop)]
struct Reach {
    // Whether `--` came: no word behind it is an option.
    ended: bool,
    // How many words were no options: the next such word is the one of this number, from 0, of the command's `places`.
    places: usize,
    // The option whose value the next word is; none where it is no value.
    awaits: Option<Choice>,
}

/// Puts the note on words that are no command line, the program's name first.
pub fn put_words_note(note: &mut Note, words: &[String]) {
    if words.len() == 0 {
        note.put("bprice: the words are no text in UTF-8\n");
    }
    if words.len() < 2 {
        put_usage(note);
    } else {
        put_first_note(note, words[1].as_str(), &words[2..]);
    }
}

// The note on a first word and those behind it.
fn put_first_note(note: &mut Note, first: &str, others: &[String]) {
    if first == "--version" {
        note.put("bprice, proved with ");
        note.put(KIT);
        note.put("\n");
    } else if first == "help" || is_help(first) {
        put_help(note, others);
    } else {
        match command_of(first) {
            Some(command) => put_command_note(note, &command, others),
            None => put_unknown(note, first),
        }
    }
}

// Whether a word asks for help.
fn is_help(word: &str) -> bool {
    word == "--help" || word == "-h"
}

// The command of that name.
fn command_of(name: &str) -> Option<Command> {
    for command in COMMANDS.as_slice() {
        if command.name == name {
            return Some(*command);
        }
    }
    None
}

// The usage of the command that is asked for, or of all.
fn put_help(note: &mut Note, others: &[String]) {
    let Some(other) = others.first() else {
        put_usage(note);
        return;
    };
    match command_of(other.as_str()) {
        Some(command) => put_command(note, &command),
        None => put_unknown(note, other.as_str()),
    }
}

// A command that there isn't, and those that there are.
fn put_unknown(note: &mut Note, word: &str) {
    note.put("bprice: ");
    note.put_quoted(word.as_bytes());
    note.put(" is no command; the first word is one of");
    for command in COMMANDS.as_slice() {
        note.put(" ");
        note.put(command.name);
    }
    note.put("\nusage: bprice COMMAND .., and bprice --help tells more\n");
}

/// The version, and the kit that the program is proved with.
pub fn put_version(note: &mut Note) {
    note.put("bprice ");
    note.put(VERSION);
    note.put(", proved with ");
    note.put(KIT);
    note.put("\n");
}

/// The usage of the command of that name; nothing where there is none.
pub fn put_command_page(note: &mut Note, name: &str) {
    if let Some(command) = command_of(name) {
        put_command(note, &command);
    }
}

/// All commands, options and statuses.
pub fn put_usage(note: &mut Note) {
    note.put("usage: bprice COMMAND .., and `help COMMAND` tells of one; `--` ends the options\n");
    for command in COMMANDS.as_slice() {
        put_short(note, command);
    }
    for choice in OPTIONS.iter().take(IN_USAGE) {
        put_choice(note, choice);
    }
    note.put(STATUSES);
}

// A command without its options, and what it does.
fn put_short(note: &mut Note, command: &Command) {
    let end = note.len().saturating_add(WIDTH);
    note.put("  ");
    put_shape(note, command);
    if !command.options.is_empty() {
        note.put(" [..]");
    }
    for _ in note.len()..end {
        note.put(" ");
    }
    note.put(command.does);
    note.put("\n");
}

// A command's name and the words that it wants.
fn put_shape(note: &mut Note, command: &Command) {
    note.put(command.name);
    note.put(" ");
    note.put(command.places);
}

// An option with what it means.
fn put_choice(note: &mut Note, choice: &Choice) {
    note.put("  ");
    note.put(choice.name);
    note.put(" ");
    note.put(choice.value);
    note.put(choice.means);
    note.put("\n");
}

// The usage of one command, what it does and its options.
fn put_command(note: &mut Note, command: &Command) {
    put_line(note, command);
    note.put("  ");
    note.put(command.does);
    note.put("\n");
    for choice in OPTIONS.as_slice() {
        if command.options.contains(&choice.name) {
            put_choice(note, choice);
        }
    }
}

// The line of a command's usage.
fn put_line(note: &mut Note, command: &Command) {
    note.put("usage: bprice ");
    put_shape(note, command);
    for choice in OPTIONS.as_slice() {
        if command.options.contains(&choice.name) {
            put_bracket(note, choice);
        }
    }
    note.put("\n");
}

// An option between brackets.
fn put_bracket(note: &mut Note, choice: &Choice) {
    note.put(" [");
    note.put(choice.name);
    if choice.value != "" {
        note.put(" ");
        note.put(choice.value);
    }
    note.put("]");
}

// What is wrong with the words of a command, or its usage where one asks for help.
fn put_command_note(note: &mut Note, command: &Command, words: &[String]) {
    for word in words {
        if is_help(word.as_str()) {
            put_command(note, command);
            return;
        }
    }
    note.put("bprice: ");
    put_fault(note, command, words);
    note.put("\n");
    put_line(note, command);
}

// The first word that is wrong and why; or else one that is misplaced, or the word that is missing.
fn put_fault(note: &mut Note, command: &Command, words: &[String]) {
    let mut reach = Reach {
        ended: false,
        places: 0,
        awaits: None,
    };
    for at in 0..words.len() {
        if put_wrong(note, command, &words[..at], words[at].as_str(), &mut reach) {
            return;
        }
    }
    match misplaced(words) {
        Some(why) => note.put(why),
        None => put_missing(note, command, &reach),
    }
}

// What is wrong with words that do not go together.
fn misplaced(words: &[String]) -> Option<&'static str> {
    match misplaced_leaf(words) {
        Some(why) => Some(why),
        None if has_any(words, &WATCHING) && has_any(words, &UNWATCHED) => {
            Some("--time, --gap, --log and --stop go without --leaf, --workers and --order")
        }
        None => None,
    }
}

// Whether one of these options stands among words.
fn has_any(words: &[String], options: &[&str]) -> bool {
    for option in options {
        if has_option(words, option) {
            return true;
        }
    }
    false
}

// What is wrong with a leaf that is named, where it has no certificate or a crew beside it.
fn misplaced_leaf(words: &[String]) -> Option<&'static str> {
    if !has_option(words, "--leaf") {
        None
    } else if !has_option(words, "--from") {
        Some("--leaf names an open leaf of the certificate behind --from, which is missing")
    } else if has_option(words, "--workers") || has_option(words, "--order") {
        Some("--leaf goes without --workers and --order: a crew works on the whole tree")
    } else {
        None
    }
}

/// The limits that the words of a command line ask for, the program's name first.
pub fn limits_of(words: &[String]) -> Limits {
    if has_option(words.get(1..).unwrap_or(&[]), "--large") {
        Limits::Large
    } else {
        Limits::Usual
    }
}

// Whether an option stands among words, before the word that ends options.
fn has_option(words: &[String], option: &str) -> bool {
    for word in words {
        if word.as_str() == "--" {
            return false;
        }
        if option_of(word.as_str()) == option {
            return true;
        }
    }
    false
}

// Puts what is wrong with a word behind those before it: whether anything is.
fn put_wrong(
    note: &mut Note,
    command: &Command,
    before: &[String],
    word: &str,
    reach: &mut Reach,
) -> bool {
    if let Some(choice) = reach.awaits {
        reach.awaits = None;
        return put_wrong_value(note, &choice, word);
    }
    if !reach.ended && is_option(word) {
        return put_wrong_option(note, command, before, word, reach);
    }
    let place = word_at(command.places, reach.places);
    reach.places = reach.places.saturating_add(1);
    put_wrong_place(note, command, place, word)
}

// Whether a word looks like an option.
fn is_option(word: &str) -> bool {
    word.len() > 1 && word.as_bytes().first() == Some(&b'-')
}

// An option without the value that is joined to it.
fn option_of(word: &str) -> &str {
    match word.split_once("=") {
        Some((option, _)) => option,
        None => word,
    }
}

// Puts what is wrong with the value behind an option: whether anything is.
fn put_wrong_value(note: &mut Note, choice: &Choice, word: &str) -> bool {
    if is_option(word) {
        put_no_value(note, choice);
        return true;
    }
    put_wrong_number(note, choice.value, word)
}

// An option whose value is missing.
fn put_no_value(note: &mut Note, choice: &Choice) {
    note.put(choice.name);
    note.put(" wants a value behind it: ");
    note.put(choice.value);
}

// Puts what is wrong with a word that looks like an option: whether anything is.
fn put_wrong_option(
    note: &mut Note,
    command: &Command,
    before: &[String],
    word: &str,
    reach: &mut Reach,
) -> bool {
    if word == "--" {
        reach.ended = true;
        return false;
    }
    let option = option_of(word);
    let Some(choice) = choice_of(command, option) else {
        put_no_option(note, command, option);
        return true;
    };
    if has_twin(before, option) {
        note.put(option);
        note.put(" is given twice; keep one of the two");
        return true;
    }
    put_wrong_choice(note, &choice, word, reach)
}

// The option of a command that has the name.
fn choice_of(command: &Command, name: &str) -> Option<Choice> {
    for choice in OPTIONS.as_slice() {
        if choice.name == name && command.options.contains(&choice.name) {
            return Some(*choice);
        }
    }
    None
}

// An option that a command doesn't take.
fn put_no_option(note: &mut Note, command: &Command, option: &str) {
    note.put_quoted(option.as_bytes());
    note.put(" is no option of ");
    note.put(command.name);
    note.put("; a file of that name goes behind --");
}

// Whether one of these words is the option too.
fn has_twin(words: &[String], option: &str) -> bool {
    for word in words {
        if option_of(word.as_str()) == option {
            return true;
        }
    }
    false
}

// Puts what is wrong with the value that is joined to an option, or awaits the one behind it: whether anything is.
fn put_wrong_choice(note: &mut Note, choice: &Choice, word: &str, reach: &mut Reach) -> bool {
    let Some((_, given)) = word.split_once("=") else {
        if choice.value != "" {
            reach.awaits = Some(*choice);
        }
        return false;
    };
    if choice.value == "" {
        note.put(choice.name);
        note.put(" takes no value");
        return true;
    }
    put_wrong_number(note, choice.value, given)
}

// Puts what is wrong with a word in the place of one that a command wants, or where it wants none: whether anything is.
fn put_wrong_place(note: &mut Note, command: &Command, place: &str, word: &str) -> bool {
    if place == "" {
        note.put_quoted(word.as_bytes());
        note.put(" is one word too many for ");
        note.put(command.name);
        return true;
    }
    put_wrong_number(note, place, word)
}

// Puts the numbers that a name stands for where a word is none of them: whether it is not.
fn put_wrong_number(note: &mut Note, name: &str, word: &str) -> bool {
    if put_wrong_amount(note, name, word) {
        return true;
    }
    for (number, least, greatest) in NUMBERS.as_slice() {
        if *number == name && !is_between(word, *least, *greatest) {
            note.put(name);
            note.put(" is a whole number from ");
            note.put_number(*least);
            note.put(" to ");
            note.put_number(*greatest);
            note.put(", and not ");
            note.put_quoted(word.as_bytes());
            return true;
        }
    }
    false
}

// Puts what an amount that a name stands for is where a word is none: whether it is not.
fn put_wrong_amount(note: &mut Note, name: &str, word: &str) -> bool {
    for (amount, unit) in AMOUNTS.as_slice() {
        if *amount == name && !is_amount(word) {
            note.put(name);
            note.put(" is a number of ");
            note.put(unit);
            note.put(" as 60 or 0.5, and not ");
            note.put_quoted(word.as_bytes());
            return true;
        }
    }
    false
}

// Whether a word is an amount: decimal digits, with one point at most, which has digits on both sides.
fn is_amount(word: &str) -> bool {
    let (whole, part) = word.split_once(".").unwrap_or((word, "0"));
    word.len() <= LONGEST_AMOUNT && is_digits(whole) && is_digits(part)
}

// Whether a text is decimal digits, one at least.
fn is_digits(text: &str) -> bool {
    for byte in text.as_bytes() {
        if !byte.is_ascii_digit() {
            return false;
        }
    }
    !text.is_empty()
}

// Whether a word is a number between two.
fn is_between(word: &str, least: u64, greatest: u64) -> bool {
    match word.parse::<u64>() {
        Ok(number) => least <= number && number <= greatest,
        Err(_) => false,
    }
}

// What is missing behind words of which each goes.
fn put_missing(note: &mut Note, command: &Command, reach: &Reach) {
    if let Some(choice) = reach.awaits {
        put_no_value(note, &choice);
        return;
    }
    let place = word_at(command.places, reach.places);
    if place == "" {
        note.put("these words are no command line");
    } else {
        note.put(command.name);
        note.put(" wants a further word: ");
        note.put(place);
    }
}
