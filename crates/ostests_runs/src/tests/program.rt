//! The program over words: what is printed, sent off and reported, and the status.

use super::writes::{Failing, Refusal};
use osjob::{Fault, NoWords, Outcome, answer, close};
use ostrace::MemorySink;
use std::alloc::Global;
use std::process::Abort;
use std::rt::Files;
use std::sync::Wait;
use std::test::Fail;
use std::thread::Threads;

// Closes a job over an output of `bytes`, whose flush is refused if `left` is 0. Checks how many bytes are sent off,
// the line that is reported, and the status.
fn close_over(
    rt: &impl Abort,
    alloc: Global,
    bytes: Vec<u8>,
    left: usize,
    ending: Result<Outcome, Fault>,
    (sent, line, status): (usize, &str, u8),
) {
    let mut out = Failing::new(bytes, Refusal::Fails, left);
    let mut err = MemorySink::new(Vec::new(alloc));
    assert_eq!(rt; close(ending, &mut out, &mut err), status);
    assert_eq!(rt; out.sent, sent);
    assert_eq!(rt; err.bytes.as_slice(), line.as_bytes());
}

#[test]
fn a_text_is_sent_off_and_then_its_fault_is_reported(rt: HostRuntime) -> Result<(), Fail> {
    let examples = [
        (Ok(Outcome::Stalled), 1, (7, "", 3)),
        (Err(Fault::NoMemoryToRun), 1, (7, "fault 16 NoMemory\n", 1)),
        (Ok(Outcome::Stalled), 0, (0, "fault 19 WriteFailed\n", 1)),
        (
            Err(Fault::NoMemoryToRun),
            0,
            (0, "fault 19 WriteFailed\n", 1),
        ),
    ];
    for (ending, left, told) in examples.as_slice() {
        let bytes = Vec::from_slice(rt.alloc(), b"core 0\n")?;
        close_over(&rt, rt.alloc(), bytes, *left, *ending, *told);
    }
    Ok(())
}

// Answers these words over an output that takes nothing of the write after `left` others. Checks the text that is
// printed, the line that is reported, and the status.
fn answer_words(
    rt: &(impl AllocGlobal + Files + Threads + Wait + Abort + Sync),
    words: Vec<&str>,
    left: usize,
    (text, line, status): (&str, &str, u8),
) {
    let mut out = Failing::new(Vec::new(rt.alloc()), Refusal::TakesNothing, left);
    let mut err = MemorySink::new(Vec::new(rt.alloc()));
    assert_eq!(rt; answer(rt, Ok(words), &mut out, &mut err), status);
    assert_eq!(rt; out.bytes.as_slice(), text.as_bytes());
    assert_eq!(rt; err.bytes.as_slice(), line.as_bytes());
}

#[test]
fn words_result_in_a_text_or_a_line_and_a_status(rt: HostRuntime) -> Result<(), Fail> {
    let version = ["mcos", "--version"].as_slice();
    let failed = "fault 19 WriteFailed\n";
    let examples = [
        (version, 99, ("mcos 0.2.0\n", "", 0)),
        (version, 11, ("mcos 0.2.0\n", failed, 1)),
        (version, 4, ("mcos", failed, 1)),
        (
            ["mcos", "check", "no/such"].as_slice(),
            99,
            ("", "fault 21 Unreadable\n", 1),
        ),
    ];
    for (words, left, told) in examples.as_slice() {
        let words = Vec::from_slice(rt.alloc(), *words)?;
        answer_words(&rt, words, *left, *told);
    }
    Ok(())
}

#[test]
fn words_that_are_no_text_are_wrong_usage(rt: HostRuntime) -> Result<(), Fail> {
    let alloc = rt.alloc();
    let mut out = MemorySink::new(Vec::new(alloc));
    let mut err = MemorySink::new(Vec::new(alloc));
    let none: Result<Vec<String>, NoWords> = Err(NoWords::NotText);
    assert_eq!(rt; answer(&rt, none, &mut out, &mut err), 2);
    assert!(rt; out.bytes.is_empty());
    assert_eq!(rt;
        err.bytes.as_slice(),
        b"error: a word of the command line is not UTF-8\n".as_slice()
    );
    Ok(())
}
