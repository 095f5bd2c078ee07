// What watches a search from outside: a clock, a file that ends it, and a table on the standard error of how it goes.
use bp_cli::{Progress, Watch};
use bp_words::{Order, Text, Watching};
use std::alloc::{AllocError, Global};
use std::fs;
use std::io::Write;
use std::num::nearest_i64_to_f64;
use std::time::Instant;

// The file that ends a search is looked for once in so many seconds at most.
const SECONDS_BETWEEN_LOOKS: f64 = 1.0;

/// A watch that ends a search by the time, by the gap, or by a file that is there, and tells how it goes.
#[derive(Drop)]
pub struct SearchWatch<'a> {
    // The runtime.
    rt: &'a HostRuntime,
    // When the run began; nothing where the clock could not be read.
    begun: Option<Instant>,
    // For how many seconds the search may go on.
    most: Option<f64>,
    // Up to which gap in percent it goes on.
    gap: Option<f64>,
    // The file that ends it.
    stop: Option<&'a str>,
    // After how many seconds the file is looked for next.
    next_look: f64,
    // The table, where one is wanted.
    table: Option<Table>,
}

// The table of how a search goes.
#[derive(Clone, Copy)]
struct Table {
    // Every how many seconds a line comes.
    every: f64,
    // After how many seconds the next line comes.
    next: f64,
    // The cost of the last line, where it had one.
    cost: Option<i64>,
    // Whether the head is written.
    has_head: bool,
}

// The numbers of a line of the table.
#[derive(Clone, Copy)]
struct Line<'a> {
    seconds: f64,
    progress: &'a Progress,
}

impl<'a> SearchWatch<'a> {
    /// The watch that an order asks for, from now on.
    pub fn new(rt: &'a HostRuntime, order: &'a Order) -> Self {
        let mut watch = SearchWatch {
            rt,
            begun: Instant::now(rt).ok(),
            most: None,
            gap: None,
            stop: None,
            next_look: 0.0,
            table: None,
        };
        if let Order::Solve(given) = order {
            watch.set(&given.watching);
        }
        watch
    }

    // Watches as the words say.
    fn set(&mut self, given: &'a Watching) {
        self.most = amount(&given.time);
        self.gap = amount(&given.gap);
        self.stop = name(&given.stop);
        self.table = amount(&given.log).map(|every| Table {
            every,
            next: 0.0,
            cost: None,
            has_head: false,
        });
    }

    // How many seconds the run has taken.
    fn seconds(&self) -> f64 {
        match &self.begun {
            Some(begun) => match begun.elapsed(self.rt) {
                Ok(time) => time.as_secs_f64(),
                Err(_) => 0.0,
            },
            None => 0.0,
        }
    }

    // Whether the file that ends the search is there, if it is time to look.
    fn is_stopped(&mut self, seconds: f64) -> bool {
        match self.stop {
            Some(name) if seconds >= self.next_look => {
                self.next_look = seconds + SECONDS_BETWEEN_LOOKS;
                fs::exists(self.rt, name).unwrap_or(false)
            }
            _ => false,
        }
    }

    // Writes a line of the table, if it is time for one or a better point is kept.
    fn tell(&mut self, line: &Line<'_>) {
        let Some(mut table) = self.table else {
            return;
        };
        if line.seconds < table.next && table.cost == line.progress.cost {
            return;
        }
        if !table.has_head {
            self.put_head();
        }
        self.put_line(line);
        table.has_head = true;
        table.next = line.seconds + table.every;
        table.cost = line.progress.cost;
        self.table = Some(table);
    }

    // Writes the table's head. Where it can't be written, there is none.
    fn put_head(&self) {
        let (seconds, steps, leaves) = ("seconds", "steps", "leaves");
        let (bound, value, gap) = ("bound", "value", "gap %");
        if let Ok(text) = format!(in self.rt.alloc();
            "{seconds:>9} {steps:>10} {leaves:>8} {bound:>20} {value:>20} {gap:>9}\n"
        ) {
            let _ = self.rt.stderr().write_all(text.as_bytes());
        }
    }

    // Writes a line of the table in the same way.
    fn put_line(&self, line: &Line<'_>) {
        if let Ok(text) = line_text(self.rt.alloc(), line) {
            let _ = self.rt.stderr().write_all(text.as_bytes());
        }
    }
}

impl Watch for SearchWatch<'_> {
    fn goes_on(&mut self, progress: &Progress) -> bool {
        let seconds = self.seconds();
        self.tell(&Line { seconds, progress });
        let is_late = self.most.is_some_and(|most| seconds >= most);
        let is_close = is_within(gap_of(progress), self.gap);
        !(is_late || is_close || self.is_stopped(seconds))
    }
}

// Whether a gap in percent is one up to which the search goes on.
fn is_within(gap: Option<f64>, most: Option<f64>) -> bool {
    match (gap, most) {
        (Some(gap), Some(most)) => gap <= most,
        _ => false,
    }
}

// The number that an amount says, where it is given.
fn amount(given: &Option<Text>) -> Option<f64> {
    match given {
        Some(text) => text.as_str().parse::<f64>().ok(),
        None => None,
    }
}

// The name of a file, where it is given.
fn name(given: &Option<Text>) -> Option<&str> {
    match given {
        Some(text) => Some(text.as_str()),
        None => None,
    }
}

// The gap between bound and value in percent of the value, where both are known.
fn gap_of(progress: &Progress) -> Option<f64> {
    match (progress.bound, progress.cost) {
        (Some(bound), Some(cost)) if bound >= cost => Some(0.0),
        (Some(bound), Some(cost)) => {
            let apart = nearest_i64_to_f64(cost) - nearest_i64_to_f64(bound);
            Some(100.0 * apart / nearest_i64_to_f64(cost).abs())
        }
        _ => None,
    }
}

// A line of the table.
fn line_text(alloc: Global, line: &Line<'_>) -> Result<String, AllocError> {
    let Line { seconds, progress } = *line;
    let bound = number_text(alloc, told(progress, progress.bound))?;
    let value = number_text(alloc, told(progress, progress.cost))?;
    let gap = percent_text(alloc, gap_of(progress))?;
    let (steps, leaves) = (progress.steps, progress.leaves);
    format!(in alloc; "{seconds:>9.1} {steps:>10} {leaves:>8} {bound:>20} {value:>20} {gap:>9}\n")
}

// A cost or a bound as the report tells it: of the objective, not of the negated one.
fn told(progress: &Progress, number: Option<i64>) -> Option<i128> {
    number.map(|z| {
        if progress.maximises {
            -(z as i128)
        } else {
            z as i128
        }
    })
}

// A number, or a hyphen where there is none.
fn number_text(alloc: Global, number: Option<i128>) -> Result<String, AllocError> {
    match number {
        Some(number) => format!(in alloc; "{number}"),
        None => String::from_str(alloc, "-"),
    }
}

// A gap in percent, or a hyphen where there is none.
fn percent_text(alloc: Global, gap: Option<f64>) -> Result<String, AllocError> {
    match gap {
        Some(gap) => format!(in alloc; "{gap:.4}"),
        None => String::from_str(alloc, "-"),
    }
}
