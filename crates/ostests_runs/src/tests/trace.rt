//! The text of reports, in memory, in a stream, and in a sink that refuses a write.

mod marks;
mod schedules;
mod sinks;

use marks::{ONE, ZERO};
use osbase::{CoreId, List, Mark, Report};
use osconf::{Config, read_config};
use ostrace::{
    MemorySink, Word, WriteFailed, WriteSink, write_ended_words, write_reports,
    write_reports_by_threads,
};
use sinks::{FailingSink, Refusal};
use std::alloc::{AllocError, Global};
use std::process::Abort;
use std::slice;
use std::test::Fail;
use std::thread::Threads;

// Core 0 has the task A, the ISR I1, the alarm L and the table S1; core 1 has the task Blink.
const CONFIG: &str =
    r#"{"cores":[{"id":0,"tasks":[{"name":"A","prio":1,"script":""}],"isrs":[{"name":"I1","level":1,"script":""}],"counters":[{"name":"C","max":9}],"alarms":[{"name":"L","counter":"C","action":"ActivateTask A"}],"tables":[{"name":"S1","counter":"C","duration":3,"points":[{"offset":0,"actions":["ActivateTask A"]}]}]},{"id":1,"tasks":[{"name":"Blink","prio":1,"script":""}]}]}"#;

fn report(alloc: Global, core: CoreId, marks: Vec<Mark>) -> Report {
    Report {
        core,
        items: List::new(alloc),
        clocks: List::new(alloc),
        marks: List::from_vec(marks),
        ended: true,
    }
}

// Checks that the report of core 0 with these marks is written as these lines.
fn compare(rt: &impl Abort, alloc: Global, marks: &[Mark], lines: &str) -> Result<(), Fail> {
    let report = report(alloc, ZERO, marks.to_vec(alloc)?);
    let config = read_config(alloc, CONFIG)?;
    let mut out = MemorySink::new(Vec::new(alloc));
    let outcome = write_reports(&config, &mut out, slice::from_ref(&report));
    assert!(rt;
        outcome.is_ok() && out.bytes.as_slice() == lines.as_bytes(),
        "{lines}"
    );
    Ok(())
}

#[test]
fn each_kind_of_mark_has_its_line(rt: HostRuntime) -> Result<(), Fail> {
    compare(&rt, rt.alloc(), &marks::HOOKS, marks::HOOK_LINES)?;
    compare(&rt, rt.alloc(), &marks::TASKS, marks::TASK_LINES)?;
    compare(&rt, rt.alloc(), &marks::OBJECTS, marks::OBJECT_LINES)?;
    compare(&rt, rt.alloc(), &marks::CALLS, marks::CALL_LINES)?;
    compare(&rt, rt.alloc(), &marks::SERVICES, marks::SERVICE_LINES)
}

// A request of core 0, and what core 1 answers.
fn exchange(alloc: Global) -> Result<Vec<Report>, AllocError> {
    let request = marks::REQUEST.to_vec(alloc)?;
    let answer = marks::ANSWER.to_vec(alloc)?;
    let mut reports = Vec::with_capacity(alloc, 2)?;
    reports.push(report(alloc, ZERO, request))?;
    reports.push(report(alloc, ONE, answer))?;
    Ok(reports)
}

// Checks that a sink in memory takes the text of the exchange, which these reports are.
fn write_to_memory(rt: &impl Abort, alloc: Global, config: &Config, reports: &[Report]) {
    let mut out = MemorySink::new(Vec::new(alloc));
    assert!(rt; write_reports(config, &mut out, reports).is_ok());
    assert!(rt; out.bytes.as_slice() == marks::EXCHANGE_LINES.as_bytes());
}

// Checks that a stream takes the text of the exchange, which these reports are.
fn write_to_a_stream(rt: &impl Abort, alloc: Global, config: &Config, reports: &[Report]) {
    let mut stream = WriteSink::new(Vec::new(alloc));
    assert!(rt; write_reports(config, &mut stream, reports).is_ok());
    assert!(rt; stream.writer.as_slice() == marks::EXCHANGE_LINES.as_bytes());
    assert!(rt; stream.failed == 0);
}

#[test]
fn reports_are_blocks_in_their_order(rt: HostRuntime) -> Result<(), Fail> {
    let config = read_config(rt.alloc(), CONFIG)?;
    let reports = exchange(rt.alloc())?;
    write_to_memory(&rt, rt.alloc(), &config, reports.as_slice());
    write_to_a_stream(&rt, rt.alloc(), &config, reports.as_slice());
    Ok(())
}

#[test]
fn a_report_is_shown_by_how_much_it_has(rt: HostRuntime) -> Result<(), Fail> {
    let report = report(rt.alloc(), ONE, marks::ANSWER.to_vec(rt.alloc())?);
    let shown = format!(in rt.alloc(); "{report:?}")?;
    assert!(rt; shown.as_str() == "Report { core: 1, items: 0, marks: 2, ended: true }");
    Ok(())
}

// Checks a sink that refused the write after `writes` others: it has a prefix of the text. If that is not the whole
// text, the outcome is a failed write, and the sink counts one; else neither. Answers how many bytes the sink has.
fn judge(
    rt: &impl Abort,
    out: &FailingSink,
    outcome: Result<(), WriteFailed>,
    text: &[u8],
    writes: usize,
) -> usize {
    let bytes = out.bytes.as_slice();
    let refusal = out.refusal;
    assert!(rt;
        text.starts_with(bytes),
        "{refusal:?} after {writes} writes"
    );
    let is_whole = bytes.len() == text.len();
    assert!(rt;
        outcome.is_ok() == is_whole,
        "{refusal:?} after {writes} writes"
    );
    assert!(rt;
        out.failed == u64::from(!is_whole),
        "{refusal:?} after {writes} writes"
    );
    bytes.len()
}

// How many bytes of the reports' text a sink takes, if it refuses the write after `writes` others. Judges the sink.
fn taken_of(
    rt: &impl Abort,
    alloc: Global,
    config: &Config,
    reports: &[Report],
    text: &[u8],
    (refusal, writes): (Refusal, usize),
) -> usize {
    let mut out = FailingSink::new(alloc, refusal, writes);
    let outcome = write_reports(config, &mut out, reports);
    judge(rt, &out, outcome, text, writes)
}

// Refuses each write of the exchange's text in turn, and at last none. Checks that the sink takes three bytes by each
// write before the refused one.
fn refuse_each(rt: &impl Abort, alloc: Global, refusal: Refusal) -> Result<(), Fail> {
    let config = read_config(alloc, CONFIG)?;
    let reports = exchange(alloc)?;
    let text = marks::EXCHANGE_LINES.as_bytes();
    for writes in 0..40 {
        let count = taken_of(
            rt,
            alloc,
            &config,
            reports.as_slice(),
            text,
            (refusal, writes),
        );
        assert!(rt;
            count == text.len().min(writes * 3),
            "{refusal:?} after {writes} writes"
        );
    }
    Ok(())
}

#[test]
fn each_refused_write_leaves_a_prefix(rt: HostRuntime) -> Result<(), Fail> {
    refuse_each(&rt, rt.alloc(), Refusal::Fails)?;
    refuse_each(&rt, rt.alloc(), Refusal::TakesNothing)
}

// Refuses a write of the report's text, each time after more writes. Checks that the sink has no less of the text than
// the time before, and at last all of it.
fn refuse_some(rt: &impl Abort, alloc: Global, config: &Config, report: &Report, text: &[u8]) {
    let reports = slice::from_ref(report);
    let mut before = 0;
    for writes in [0, 1, 5460, 5461, 5462, 6000, 8000, 9000] {
        let count = taken_of(rt, alloc, config, reports, text, (Refusal::Fails, writes));
        assert!(rt; count >= before, "after {writes} writes");
        before = count;
    }
    assert!(rt; before == text.len());
}

#[test]
fn many_lines_are_written_in_parts(rt: HostRuntime) -> Result<(), Fail> {
    let config = read_config(rt.alloc(), CONFIG)?;
    let ticks = report(rt.alloc(), ZERO, vec![in rt.alloc(); Mark::Tick; 5000]?);
    let lines = "tick\n".repeat(rt.alloc(), 5000)?;
    let text = format!(in rt.alloc(); "core 0\n{lines}")?;
    refuse_some(&rt, rt.alloc(), &config, &ticks, text.as_str().as_bytes());
    Ok(())
}

// `count` marks of tasks.
fn marks_of(alloc: Global, count: usize) -> Result<Vec<Mark>, AllocError> {
    let mut marks = Vec::with_capacity(alloc, count)?;
    for at in 0..count {
        marks.push(marks::TASKS[at % marks::TASKS.len()])?;
    }
    Ok(marks)
}

// Reports of `count` marks of core 0, of an eighth as many marks of core 0, and of a few marks of core 1.
fn uneven(alloc: Global, count: usize) -> Result<Vec<Report>, AllocError> {
    let mut reports = Vec::with_capacity(alloc, 3)?;
    for count in [count, count / 8] {
        reports.push(report(alloc, ZERO, marks_of(alloc, count)?))?;
    }
    reports.push(report(alloc, ONE, marks::ANSWER.to_vec(alloc)?))?;
    Ok(reports)
}

// The text of these reports, made by one thread.
fn text_of(alloc: Global, config: &Config, reports: &[Report]) -> Result<Vec<u8>, WriteFailed> {
    let mut out = MemorySink::new(Vec::new(alloc));
    write_reports(config, &mut out, reports)?;
    Ok(out.bytes)
}

// Checks that the text that threads make of these reports is this one.
fn compare_by_threads(
    rt: &(impl Abort + Threads + Sync),
    alloc: Global,
    config: &Config,
    reports: &[Report],
    text: &[u8],
) -> Result<(), WriteFailed> {
    let mut out = MemorySink::new(Vec::new(alloc));
    write_reports_by_threads(rt, alloc, config, &mut out, reports)?;
    assert!(rt; out.bytes.as_slice() == text);
    Ok(())
}

// The reports have too few lines for threads; then some more parts than a round has; then a first report that fills a
// round.
#[test]
fn threads_write_the_same_text(rt: HostRuntime) -> Result<(), Fail> {
    let config = read_config(rt.alloc(), CONFIG)?;
    for count in [100, 40_000, 1_048_576] {
        let reports = uneven(rt.alloc(), count)?;
        let reports = reports.as_slice();
        let text = text_of(rt.alloc(), &config, reports)?;
        compare_by_threads(&rt, rt.alloc(), &config, reports, text.as_slice())?;
    }
    Ok(())
}

// Refuses a write of what threads made of these reports, each time after more writes. Checks that the sink has a prefix
// of their text.
fn refuse_by_threads(
    rt: &(impl Abort + Threads + Sync),
    alloc: Global,
    config: &Config,
    reports: &[Report],
) -> Result<(), WriteFailed> {
    let text = text_of(alloc, config, reports)?;
    for writes in [0, 1, 3, 50_000, 2_000_000] {
        let mut out = FailingSink::new(alloc, Refusal::Fails, writes);
        let outcome = write_reports_by_threads(rt, alloc, config, &mut out, reports);
        judge(rt, &out, outcome, text.as_slice(), writes);
    }
    Ok(())
}

#[test]
fn a_refused_write_of_what_threads_made_leaves_a_prefix(rt: HostRuntime) -> Result<(), Fail> {
    let config = read_config(rt.alloc(), CONFIG)?;
    for count in [100, 40_000] {
        let reports = uneven(rt.alloc(), count)?;
        refuse_by_threads(&rt, rt.alloc(), &config, reports.as_slice())?;
    }
    Ok(())
}

// Refuses a write of the words' text, each time after more writes. Checks that the sink has no less of the text than
// the time before, and at last all of it.
fn refuse_words(rt: &impl Abort, alloc: Global, words: &[Word], text: &[u8]) {
    let mut before = 0;
    for writes in [0, 1, 5460, 5461, 5462, 9000, 15000, 20000, 30000] {
        let mut out = FailingSink::new(alloc, Refusal::TakesNothing, writes);
        let outcome = write_ended_words(&mut out, "many", words);
        let count = judge(rt, &out, outcome, text, writes);
        assert!(rt; count >= before, "after {writes} writes");
        before = count;
    }
    assert!(rt; before == text.len());
}

// Behind words for which there is room comes a word for which there is never room.
#[test]
fn a_long_word_is_written_by_itself(rt: HostRuntime) -> Result<(), Fail> {
    let ticks = "tick".repeat(rt.alloc(), 4000)?;
    let long = "abcdefghij".repeat(rt.alloc(), 2000)?;
    let text = format!(in rt.alloc(); "many {ticks} {long} end {ticks} {long}\n")?;
    let words = [
        Word::Text(ticks.as_str()),
        Word::Text(long.as_str()),
        Word::Text("end"),
        Word::Text(ticks.as_str()),
        Word::Text(long.as_str()),
    ];
    refuse_words(&rt, rt.alloc(), &words, text.as_str().as_bytes());
    Ok(())
}
