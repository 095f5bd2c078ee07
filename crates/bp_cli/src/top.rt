// The top call.
ghost use Rattle.std.specs.Prelude.{◌≡◌, ◌≢◌, ◌<◌, ◌⊎◌, ◌++◌, ℕ, [], map, string_bytes, IsTrue, IsSomeAnd, None, take};
ghost use Rattle.std.specs.Option.{option_map};
ghost use Rattle.bp_shelf.specs.Shelf.{Rose, next_count};
ghost use Rattle.cli_orders.specs.Orders.{IsInRange, AreRefused};
ghost use Rattle.bp_report.specs.Refusals.{words_refusal};
ghost use Rattle.frontend.specs.Answers.{AnswersBy, IsOnly, CutsOff, HasCauses, PutsReport, FailsToWrite};
ghost use Rattle.bp_cli.specs.Headline.{SolvesTruly, SolvesAccepted, ChecksTruly};
ghost use Rattle.bp_cli.specs.Promises.{Demonstrates, SolvesDecomposed, WritesCertificate};
ghost use Rattle.bp_cli.specs.Running.{Answers, AnswersOrder, HasWritten, HasPutLast, ListsEvents, OfOrder, stopped_at, StopsOrder};

use bp_report::words_text;
use bp_search::Watch;
use bp_shelf::{Shelf, Sink};
use bp_words::{Order, Text, WordFault, read_words};
use cmd_certificates::{merge, migrate};
use cmd_check::check;
use cmd_decompose::{detect, propose, show};
use cmd_demo::demonstrate;
use cmd_gen::generate;
use cmd_solve::{SolveRequest, solve};
use frontend::{Ended, Reply, Sources, print, stopped};
use search_outcome::Ran;
use std::alloc::Global;

/// Does all that the program does. The words begin with the program's name and a command.
///
/// For all LP and DEC texts that are accepted, `solve` answers `optimal` with a point that meets every row and bound of the
/// LP text and that no such point betters, `infeasible` where none exists, or `budget` after exactly the given steps with
/// a bound that no such point betters; the certificate that it writes is valid, and whatever `check` accepts is true,
/// whoever wrote it. From a valid certificate it goes on, whoever wrote that, with the given steps beside those of its tree,
/// or below one of its open leaves alone with no more than the given steps. A search that is watched, by `--time`, `--gap`, `--log` or
/// `--stop`, may end before the given steps: all is then as for an order of the steps that it took, which are handed out.
/// All this holds for a crew of any number of workers in any order too, whose events are listed, and with any number of cuts
/// that are added, which the certificate has. Each text is read under the limits of the order: the usual ones, or with `--large`
/// the large ones.
pub fn run<F: Shelf, O: Sink, W: Watch>(
    alloc: Global,
    words: &[String],
    shelf: &mut F,
    out: &mut O,
    watch: &mut W,
) -> Ran
    // The headline, for told files and a sink that tells. What `solve` prints is true of the program that the LP text
    // means: `optimal` with a best point, `infeasible`, or `budget` after exactly the given steps with a bound that no
    // point betters.
    ensures solved_truly { IsTrue (F.tells shelf.old) → IsTrue (O.tells out.old) →
        OfOrder (map string_bytes words.now)
        (λ order. SolvesTruly (stopped_at order result.steps) (F.file shelf.old) result.ended.kept result.ended.status (O.taken out.old)
        (O.taken out.new)) }
    // `solve` tells one of these of each LP text that means a program, and of each decomposition of it that is accepted.
    ensures solves_accepted { IsTrue (F.tells shelf.old) → OfOrder (map string_bytes words.now)
        (λ order. SolvesAccepted order (F.file shelf.old) result.ended.status) }
    ensures solves_decomposed { IsTrue (F.tells shelf.old) → OfOrder (map string_bytes words.now)
        (λ order. SolvesDecomposed order (F.file shelf.old) result.ended.status) }
    // The certificate that `solve` writes is one that `check` accepts, and what `check` accepts is true, whoever wrote it.
    ensures certified { IsTrue (F.tells shelf.old) → OfOrder (map string_bytes words.now)
        (λ order. WritesCertificate order (F.file shelf.new) result.ended.kept) }
    ensures checked_truly { IsTrue (F.tells shelf.old) → IsTrue (O.tells out.old) →
        OfOrder (map string_bytes words.now)
        (λ order. ChecksTruly order (F.file shelf.old) result.ended.status (O.taken out.old)
        (O.taken out.new)) }
    // Without a fault and with its memory a run answers the words by the files, whatever its sink tells, and adds its
    // report whole.
    ensures answered { IsTrue (F.tells shelf.old) →
        AnswersBy (Answers (map string_bytes words.now) result.steps (F.file shelf.old) result.ended.kept)
        result.ended.status (O.tells out.old) (O.taken out.old) (O.taken out.new) }
    // No other status is right.
    ensures exact { IsTrue (F.tells shelf.old) →
        IsOnly (Answers (map string_bytes words.now) result.steps (F.file shelf.old) result.ended.kept) result.ended.status }
    // `demo` uses no file, so its answer hangs on none.
    ensures demonstrated { OfOrder (map string_bytes words.now)
        (λ order. Demonstrates order result.ended.kept result.ended.status result.ended.lost (O.tells out.old)
        (O.taken out.old) (O.taken out.new)) }
    // What is written: the valid certificate of the outcome that is kept, or for want of memory a beginning of that of an
    // outcome, or the texts that are made; and that nothing else is.
    ensures written { IsTrue (F.tells shelf.old) → OfOrder (map string_bytes words.now)
        (λ order. HasWritten (stopped_at order result.steps) (F.file shelf.old) (F.file shelf.new) result.ended.kept
        result.ended.status) }
    // What a crew did, where one was ordered and its outcome is kept; and else nothing.
    ensures events { IsTrue (F.tells shelf.old) → OfOrder (map string_bytes words.now)
        (λ order. ListsEvents (stopped_at order result.steps) (F.file shelf.old) result.ended.kept result.ended.events.items) }
    ensures no_events { result.ended.kept ≡ None → result.ended.events.items ≡ [] }
    // The steps by which the answer goes: those of the order, and of a search that is watched no more than those; unless there was
    // no memory to read the words.
    ensures steps { (result.ended.status ≡ 9) ⊎ OfOrder (map string_bytes words.now)
        (λ order. StopsOrder order result.steps) }
    // The report is one put, and the last thing that is done. Where a write of the shelf failed, nothing is put, and
    // where the report could not be put, what is written stands whole.
    ensures puts { PutsReport result.ended.status (O.puts out.old) (O.puts out.new) }
    ensures failed { result.ended.status ≡ 8 →
        FailsToWrite (IsTrue (F.tells shelf.old) → OfOrder (map string_bytes words.now)
        (λ order. HasPutLast (stopped_at order result.steps) (F.file shelf.old) (F.file shelf.new)))
        (F.write_faults shelf.old) (F.write_faults shelf.new) (O.faults out.old) (O.faults out.new)
        (O.puts out.old) (O.puts out.new) (O.taken out.old) (O.taken out.new) }
    // Which status comes only where, over any shelf and sink.
    ensures causes { HasCauses result.ended.status (F.read_faults shelf.old) (F.read_faults shelf.new)
        (F.write_faults shelf.old) (F.write_faults shelf.new) (O.faults out.old)
        (O.faults out.new) }
    ensures kept { (result.ended.kept ≡ None) ⊎
        ((result.ended.status ≡ 0) ⊎ (result.ended.status ≡ 4) ⊎ (result.ended.status ≡ 5)) }
    ensures words { result.ended.status ≡ 2 → AreRefused (map string_bytes words.now) }
    ensures no_words { AreRefused (map string_bytes words.now) → (result.ended.status ≡ 2) ⊎
        (result.ended.status ≡ 8) ⊎ (result.ended.status ≡ 9) }
    ensures refusal { result.ended.status ≡ 2 → IsTrue (O.tells out.old) →
        O.taken out.new ≡ O.taken out.old ++ words_refusal }
    // What stands afterwards.
    ensures nothing_ordered { AreRefused (map string_bytes words.now) →
        F.file shelf.new ≡ F.file shelf.old }
    ensures silent { (result.ended.status ≡ 7) ⊎ (result.ended.status ≡ 9) ⊎ (result.ended.status ≡ 11) →
        O.taken out.new ≡ O.taken out.old }
    ensures cut_off { IsTrue (F.tells shelf.old) →
        CutsOff (Answers (map string_bytes words.now) result.steps (F.file shelf.old)) result.ended.status result.ended.lost (O.tells out.old)
        (O.taken out.old) (O.taken out.new) }
{
    answer_words(alloc, words, shelf, out, watch)
}

// Answers words.
fn answer_words<F: Shelf, O: Sink, W: Watch>(
    alloc: Global,
    words: &[String],
    shelf: &mut F,
    out: &mut O,
    watch: &mut W,
) -> Ran
    // Without a fault and with its memory a run answers the words by the files, whatever its sink tells, and adds its
    // report whole.
    ensures answered { IsTrue (F.tells shelf.old) →
        AnswersBy (Answers (map string_bytes words.now) result.steps (F.file shelf.old) result.ended.kept)
        result.ended.status (O.tells out.old) (O.taken out.old) (O.taken out.new) }
    // No other status is right.
    ensures exact { IsTrue (F.tells shelf.old) →
        IsOnly (Answers (map string_bytes words.now) result.steps (F.file shelf.old) result.ended.kept) result.ended.status }
    // `demo` uses no file, so its answer hangs on none.
    ensures demonstrated { OfOrder (map string_bytes words.now)
        (λ order. Demonstrates order result.ended.kept result.ended.status result.ended.lost (O.tells out.old)
        (O.taken out.old) (O.taken out.new)) }
    // What is written: the valid certificate of the outcome that is kept, or for want of memory a beginning of that of an
    // outcome, or the texts that are made; and that nothing else is.
    ensures written { IsTrue (F.tells shelf.old) → OfOrder (map string_bytes words.now)
        (λ order. HasWritten (stopped_at order result.steps) (F.file shelf.old) (F.file shelf.new) result.ended.kept
        result.ended.status) }
    // The report is one put, and the last thing that is done. Where a write of the shelf failed, nothing is put, and
    // where the report could not be put, what is written stands whole.
    ensures puts { PutsReport result.ended.status (O.puts out.old) (O.puts out.new) }
    ensures failed { result.ended.status ≡ 8 →
        FailsToWrite (IsTrue (F.tells shelf.old) → OfOrder (map string_bytes words.now)
        (λ order. HasPutLast (stopped_at order result.steps) (F.file shelf.old) (F.file shelf.new)))
        (F.write_faults shelf.old) (F.write_faults shelf.new) (O.faults out.old) (O.faults out.new)
        (O.puts out.old) (O.puts out.new) (O.taken out.old) (O.taken out.new) }
    // Which status comes only where, over any shelf and sink.
    ensures causes { HasCauses result.ended.status (F.read_faults shelf.old) (F.read_faults shelf.new)
        (F.write_faults shelf.old) (F.write_faults shelf.new) (O.faults out.old)
        (O.faults out.new) }
    ensures kept { (result.ended.kept ≡ None) ⊎
        ((result.ended.status ≡ 0) ⊎ (result.ended.status ≡ 4) ⊎ (result.ended.status ≡ 5)) }
    // What a crew did, where one was ordered and its outcome is kept; and else nothing.
    ensures events { IsTrue (F.tells shelf.old) → OfOrder (map string_bytes words.now)
        (λ order. ListsEvents (stopped_at order result.steps) (F.file shelf.old) result.ended.kept result.ended.events.items) }
    ensures no_events { result.ended.kept ≡ None → result.ended.events.items ≡ [] }
    // The steps by which the answer goes: those of the order, and of a search that is watched no more than those; unless there was
    // no memory to read the words.
    ensures steps { (result.ended.status ≡ 9) ⊎ OfOrder (map string_bytes words.now)
        (λ order. StopsOrder order result.steps) }
    ensures words { result.ended.status ≡ 2 → AreRefused (map string_bytes words.now) }
    ensures no_words { AreRefused (map string_bytes words.now) → (result.ended.status ≡ 2) ⊎
        (result.ended.status ≡ 8) ⊎ (result.ended.status ≡ 9) }
    ensures refusal { result.ended.status ≡ 2 → IsTrue (O.tells out.old) →
        O.taken out.new ≡ O.taken out.old ++ words_refusal }
    // What stands afterwards.
    ensures nothing_ordered { AreRefused (map string_bytes words.now) →
        F.file shelf.new ≡ F.file shelf.old }
    ensures silent { (result.ended.status ≡ 7) ⊎ (result.ended.status ≡ 9) ⊎ (result.ended.status ≡ 11) →
        O.taken out.new ≡ O.taken out.old }
    ensures cut_off { IsTrue (F.tells shelf.old) →
        CutsOff (Answers (map string_bytes words.now) result.steps (F.file shelf.old)) result.ended.status result.ended.lost (O.tells out.old)
        (O.taken out.old) (O.taken out.new) }
{
    match read_words(alloc, words) {
        Ok(order) => obey(alloc, &order, shelf, out, watch),
        Err(WordFault::Refused) => Ran {
            ended: refuse_words(alloc, out),
            steps: None,
        },
        Err(WordFault::NoMemory) => Ran {
            ended: stopped(alloc, 9),
            steps: None,
        },
    }
}

// Does what words order.
fn obey<F: Shelf, O: Sink, W: Watch>(
    alloc: Global,
    order: &Order,
    shelf: &mut F,
    out: &mut O,
    watch: &mut W,
) -> Ran
    requires { IsInRange order.now }
    ensures answered { IsTrue (F.tells shelf.old) →
        AnswersBy (AnswersOrder (stopped_at order.now result.steps) (F.file shelf.old) result.ended.kept) result.ended.status
        (O.tells out.old) (O.taken out.old) (O.taken out.new) }
    ensures exact { IsTrue (F.tells shelf.old) →
        IsOnly (AnswersOrder (stopped_at order.now result.steps) (F.file shelf.old) result.ended.kept) result.ended.status }
    ensures demonstrated { Demonstrates order.now result.ended.kept result.ended.status result.ended.lost
        (O.tells out.old) (O.taken out.old) (O.taken out.new) }
    ensures written { IsTrue (F.tells shelf.old) →
        HasWritten (stopped_at order.now result.steps) (F.file shelf.old) (F.file shelf.new) result.ended.kept result.ended.status }
    ensures puts { PutsReport result.ended.status (O.puts out.old) (O.puts out.new) }
    ensures failed { result.ended.status ≡ 8 →
        FailsToWrite (IsTrue (F.tells shelf.old) →
        HasPutLast (stopped_at order.now result.steps) (F.file shelf.old) (F.file shelf.new)) (F.write_faults shelf.old)
        (F.write_faults shelf.new) (O.faults out.old) (O.faults out.new) (O.puts out.old)
        (O.puts out.new) (O.taken out.old) (O.taken out.new) }
    ensures causes { HasCauses result.ended.status (F.read_faults shelf.old) (F.read_faults shelf.new)
        (F.write_faults shelf.old) (F.write_faults shelf.new) (O.faults out.old)
        (O.faults out.new) }
    ensures kept { (result.ended.kept ≡ None) ⊎
        ((result.ended.status ≡ 0) ⊎ (result.ended.status ≡ 4) ⊎ (result.ended.status ≡ 5)) }
    ensures events { IsTrue (F.tells shelf.old) →
        ListsEvents (stopped_at order.now result.steps) (F.file shelf.old) result.ended.kept result.ended.events.items }
    ensures no_events { result.ended.kept ≡ None → result.ended.events.items ≡ [] }
    ensures steps { StopsOrder order.now result.steps }
    ensures words { result.ended.status ≢ 2 }
    ensures silent { (result.ended.status ≡ 7) ⊎ (result.ended.status ≡ 9) ⊎ (result.ended.status ≡ 11) →
        O.taken out.new ≡ O.taken out.old }
    ensures cut_off { IsTrue (F.tells shelf.old) →
        CutsOff (AnswersOrder (stopped_at order.now result.steps) (F.file shelf.old)) result.ended.status result.ended.lost (O.tells out.old) (O.taken out.old)
        (O.taken out.new) }
{
    match order {
        Order::Solve(given) => solve(
            alloc,
            shelf,
            out,
            Sources {
                lp: given.lp.as_str(),
                dec: named(&given.dec),
                limits: given.limits,
            },
            SolveRequest {
                steps: given.steps,
                cert: named(&given.cert),
                from: named(&given.from),
                leaf: given.leaf,
                workers: given.workers,
                order: given.order,
                cuts: given.cuts,
                watched: given.watching.is_any(),
            },
            watch,
        ),
        Order::Check(given) => Ran {
            ended: check(
                alloc,
                shelf,
                out,
                Sources {
                    lp: given.lp.as_str(),
                    dec: named(&given.dec),
                    limits: given.limits,
                },
                given.cert.as_str(),
                given.visits,
            ),
            steps: None,
        },
        Order::Show {
            lp,
            dec,
            blocks,
            classes,
            limits,
        } => Ran {
            ended: show(
                alloc,
                shelf,
                out,
                Sources {
                    lp: lp.as_str(),
                    dec: named(dec),
                    limits: *limits,
                },
                *blocks,
                *classes,
            ),
            steps: None,
        },
        Order::Gen {
            seed,
            size,
            lp,
            dec,
        } => Ran {
            ended: generate(alloc, shelf, out, *seed, *size, lp.as_str(), dec.as_str()),
            steps: None,
        },
        Order::Demo { seed, size } => Ran {
            ended: demonstrate(alloc, out, *seed, *size),
            steps: None,
        },
        Order::Detect {
            lp,
            rows,
            dec,
            limits,
        } => Ran {
            ended: detect(
                alloc,
                shelf,
                out,
                *limits,
                lp.as_str(),
                rows.as_str(),
                dec.as_str(),
            ),
            steps: None,
        },
        Order::Propose { lp, dec, limits } => Ran {
            ended: propose(alloc, shelf, out, *limits, lp.as_str(), dec.as_str()),
            steps: None,
        },
        Order::Merge(given) => Ran {
            ended: merge(
                alloc,
                shelf,
                out,
                Sources {
                    lp: given.lp.as_str(),
                    dec: named(&given.dec),
                    limits: given.limits,
                },
                given.first.as_str(),
                given.second.as_str(),
                given.new.as_str(),
            ),
            steps: None,
        },
        Order::Migrate {
            lp,
            cert,
            new,
            dec,
            limits,
        } => Ran {
            ended: migrate(
                alloc,
                shelf,
                out,
                Sources {
                    lp: lp.as_str(),
                    dec: named(dec),
                    limits: *limits,
                },
                cert.as_str(),
                new.as_str(),
            ),
            steps: None,
        },
    }
}

// The name of a file, where one is given.
fn named(text: &Option<Text>) -> Option<&str>
    ensures { option_map (λ name. name.now) result ≡ text.now }
{
    match text {
        None => None,
        Some(text) => Some(text.as_str()),
    }
}

// Refuses words that are no command line.
fn refuse_words<O: Sink>(alloc: Global, out: &mut O) -> Ended
    ensures statuses { (result.status ≡ 2) ⊎ (result.status ≡ 8) ⊎ (result.status ≡ 9) }
    ensures kept { result.kept ≡ None }
    ensures events { result.events.items ≡ [] }
    ensures fault { result.status ≡ 8 → Rose (O.faults out.old) (O.faults out.new) }
    ensures rose { O.faults out.old < O.faults out.new → result.status ≡ 8 }
    ensures printed { IsTrue (O.tells out.old) → result.status ≡ 2 →
        O.taken out.new ≡ O.taken out.old ++ words_refusal }
    ensures partly { IsTrue (O.tells out.old) → result.status ≡ 8 →
        (count : ℕ) × (O.taken out.new ≡ O.taken out.old ++ take count words_refusal) }
    ensures lost { result.status ≡ 8 →
        IsSomeAnd result.lost (λ report. report.items ≡ words_refusal) }
    ensures silent { result.status ≡ 9 → O.taken out.new ≡ O.taken out.old }
    ensures once { result.status ≢ 9 → O.puts out.new ≡ next_count (O.puts out.old) }
    ensures never { result.status ≡ 9 → O.puts out.new ≡ O.puts out.old }
{
    match words_text(alloc) {
        Ok(report) => print(alloc, out, Reply { status: 2, report }, None),
        Err(_) => stopped(alloc, 9),
    }
}
