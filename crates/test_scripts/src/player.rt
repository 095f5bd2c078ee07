// A script is played line by line:
//
// - `# ..`: a heading, which is printed as it stands; an empty line means nothing;
// - `file NAME`: the lines behind it, up to a line `.`, are a file of this name (`Draft::add` has their forms);
// - `unended NAME`: the same, and the last line has no line feed;
// - `run WORDS`: runs the program with these words, and prints them, its report and its status;
// - `first WORDS`: the same, and of the report its first line alone; `heads WORDS`: of each of its lines the first word;
// - `twice WORDS`: runs the program twice, tells whether the answers are the same, and prints the last line's first word;
// - `events N WORDS`: runs the program, and tells of the first N events which worker, from 1, takes a leaf, reports on its
//   leaf or drops it;
// - `words`: the same with no words at all, not even the program's own name;
// - `beginnings NAME WORDS`: the same with each beginning of the file, from no bytes to the whole; like answers of
//   neighbours are printed once;
// - `show NAME`: prints a file; `outline NAME`: the first word of each of its lines;
// - `faults N ..`: a new shelf whose calls with these numbers fail; `slow N`: one whose reads give at most N bytes;
// - `room N`: later outputs take N bytes; `full N ..`: later outputs fail at the puts with these numbers;
// - `clear`: no files, no faults.
use crate::draft::Draft;
use crate::stage::{Answer, Stage};
use crate::view::{View, seen};
use search_laws::{Event, Kind};
use std::alloc::{AllocError, Global};

// A script in the midst of its lines.
#[derive(Drop)]
struct Player {
    // What words and files are stored by.
    alloc: Global,
    // The files and outputs of later commands.
    stage: Stage,
    // The file that the next line belongs to; none where the next line is a command.
    draft: Option<Draft>,
    // What the commands so far answered.
    told: Vec<u8>,
}

/// What the commands of a script answer.
pub fn play(alloc: Global, script: &str) -> Result<Vec<u8>, AllocError> {
    let mut player = Player {
        alloc,
        stage: Stage::make(alloc)?,
        draft: None,
        told: Vec::new(alloc),
    };
    for line in script.lines() {
        player.take_line(line)?;
    }
    Ok(player.told)
}

impl Player {
    fn take_line(&mut self, line: &str) -> Result<(), AllocError> {
        match self.draft.take() {
            Some(draft) => self.write_line(draft, line),
            None => self.obey(line),
        }
    }

    // Adds a line to a file, or puts the file on the shelf.
    fn write_line(&mut self, draft: Draft, line: &str) -> Result<(), AllocError> {
        let mut draft = draft;
        if line == "." {
            draft.end();
            return self.stage.give(draft.name, draft.bytes);
        }
        draft.add(line)?;
        self.draft = Some(draft);
        Ok(())
    }

    fn obey(&mut self, line: &str) -> Result<(), AllocError> {
        let (order, rest) = line.split_once(' ').unwrap_or((line, ""));
        match order {
            "" => Ok(()),
            "#" => self.tell(line),
            "file" => self.begin(rest, true),
            "unended" => self.begin(rest, false),
            "run" => self.run(rest, View::Whole),
            "first" => self.run(rest, View::First),
            "heads" => self.run(rest, View::Heads),
            "twice" => self.run_twice(rest),
            "events" => self.run_events(rest),
            "words" => self.run_nameless(),
            "beginnings" => self.run_beginnings(rest),
            "show" => self.show(rest, View::Whole),
            "outline" => self.show(rest, View::Heads),
            _ => self.set(order, rest, line),
        }
    }

    // Obeys a line that sets the stage.
    fn set(&mut self, order: &str, rest: &str, line: &str) -> Result<(), AllocError> {
        let numbers = numbers_of(self.alloc, rest)?;
        let first = numbers.first().map(|number| *number as usize);
        match order {
            "faults" => self.stage.renew(&numbers, usize::MAX),
            "slow" => self.stage.renew(&[], first.unwrap_or(1)),
            "room" => {
                self.stage.print_into(first, Vec::new(self.alloc));
                Ok(())
            }
            "full" => {
                self.stage.print_into(None, numbers);
                Ok(())
            }
            "clear" => {
                self.stage = Stage::make(self.alloc)?;
                Ok(())
            }
            _ => {
                self.tell("a line that no script has:")?;
                self.tell(line)
            }
        }
    }

    fn begin(&mut self, name: &str, is_ended: bool) -> Result<(), AllocError> {
        self.draft = Some(Draft::begin(self.alloc, name, is_ended)?);
        Ok(())
    }

    fn run(&mut self, text: &str, view: View) -> Result<(), AllocError> {
        let words = words_of(self.alloc, text)?;
        let answer = self.stage.run(&words)?;
        let line = format!(in self.alloc; "> {text}")?;
        self.tell(line.as_str())?;
        self.tell_answer(&answer, view)
    }

    fn run_twice(&mut self, text: &str) -> Result<(), AllocError> {
        let words = words_of(self.alloc, text)?;
        let first = self.stage.run(&words)?;
        let second = self.stage.run(&words)?;
        let line = format!(in self.alloc; "> {text}, twice")?;
        self.tell(line.as_str())?;
        self.tell(if first.is_same(&second) {
            "the same answer"
        } else {
            "another answer"
        })?;
        self.tell_bytes(&first.report, View::Last)
    }

    fn run_events(&mut self, text: &str) -> Result<(), AllocError> {
        let (count, text) = text.split_once(' ').unwrap_or((text, ""));
        let words = words_of(self.alloc, text)?;
        let answer = self.stage.run(&words)?;
        let line = format!(in self.alloc; "> {text}, events")?;
        self.tell(line.as_str())?;
        for event in answer.events.iter().take(count.parse().unwrap_or(0)) {
            self.tell_event(event)?;
        }
        Ok(())
    }

    fn tell_event(&mut self, event: &Event) -> Result<(), AllocError> {
        let act = match event.kind {
            Kind::Take => "takes",
            Kind::Shut | Kind::Fork => "reports",
            Kind::Drop => "drops",
        };
        let worker = u64::from(event.worker) + 1;
        let line = format!(in self.alloc; "worker {worker} {act}")?;
        self.tell(line.as_str())
    }

    fn run_nameless(&mut self) -> Result<(), AllocError> {
        let answer = self.stage.run(&[])?;
        self.tell("> no words")?;
        self.tell_answer(&answer, View::Whole)
    }

    fn run_beginnings(&mut self, text: &str) -> Result<(), AllocError> {
        let (name, text) = text.split_once(' ').unwrap_or((text, ""));
        let Some(whole) = self.stage.file(name) else {
            return self.tell("a file that is not there");
        };
        let words = words_of(self.alloc, text)?;
        let line = format!(in self.alloc; "> {text} at each beginning of {name}")?;
        self.tell(line.as_str())?;
        let mut from = 0;
        let mut last: Option<Answer> = None;
        for count in 0..=whole.len() {
            self.stage.put(name, &whole[..count])?;
            let answer = self.stage.run(&words)?;
            if !last.as_ref().is_some_and(|last| last.is_same(&answer)) {
                self.tell_range(from, count.saturating_sub(1), &last)?;
                from = count;
                last = Some(answer);
            }
        }
        self.tell_range(from, whole.len(), &last)
    }

    // Prints the answer at each beginning of so many bytes, where there is one.
    fn tell_range(
        &mut self,
        from: usize,
        to: usize,
        answer: &Option<Answer>,
    ) -> Result<(), AllocError> {
        match answer {
            None => Ok(()),
            Some(answer) => {
                let line = format!(in self.alloc; "from {from} bytes to {to}")?;
                self.tell(line.as_str())?;
                self.tell_answer(answer, View::Whole)
            }
        }
    }

    fn show(&mut self, name: &str, view: View) -> Result<(), AllocError> {
        let line = format!(in self.alloc; "{name}:")?;
        self.tell(line.as_str())?;
        match self.stage.file(name) {
            None => self.tell("not there"),
            Some(bytes) => self.tell_bytes(&bytes, view),
        }
    }

    fn tell_answer(&mut self, answer: &Answer, view: View) -> Result<(), AllocError> {
        self.tell_bytes(&answer.report, view)?;
        let status = answer.status;
        let line = format!(in self.alloc; "status {status}")?;
        self.tell(line.as_str())
    }

    // Prints what a view shows of bytes, and tells it where they end without a line feed.
    fn tell_bytes(&mut self, bytes: &[u8], view: View) -> Result<(), AllocError> {
        self.told
            .extend_from_slice(&seen(self.alloc, bytes, view)?)?;
        match bytes.last() {
            None | Some(b'\n') => Ok(()),
            Some(_) => self.tell(" (no line feed)"),
        }
    }

    fn tell(&mut self, line: &str) -> Result<(), AllocError> {
        self.told.extend_from_slice(line.as_bytes())?;
        self.told.push(b'\n')?;
        Ok(())
    }
}

// The words of a command line, the program's name first.
fn words_of(alloc: Global, text: &str) -> Result<Vec<String>, AllocError> {
    let mut words = Vec::new(alloc);
    words.push(String::from_str(alloc, "bprice")?)?;
    for word in text.split_whitespace() {
        words.push(String::from_str(alloc, word)?)?;
    }
    Ok(words)
}

// The numbers of a text; other words are passed over.
fn numbers_of(alloc: Global, text: &str) -> Result<Vec<u64>, AllocError> {
    let mut numbers = Vec::new(alloc);
    for word in text.split_whitespace() {
        if let Ok(number) = word.parse::<u64>() {
            numbers.push(number)?;
        }
    }
    Ok(numbers)
}
