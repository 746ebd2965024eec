//! The files of a job: which are read, and what is wrong with them.

ghost use Rattle.std.specs.Prelude.{Some, length};

use super::logs::BORDER;
use oscommand::Job;
use osjob::{Given, Source, print_from};
use osplay::{
    Difference, check_of, cut_of, files_of, given, replay_of, result_over, result_text, run_of,
    same,
};
use ostrace::MemorySink;
use std::alloc::{AllocError, Global};
use std::cell::Cell;
use std::sync::Wait;
use std::test::Fail;
use std::thread::Threads;

// Checks that the job over these files prints nothing and reports this fault's line.
fn compare_fault(
    rt: &(impl Threads + Wait + Sync),
    alloc: Global,
    job: &Job,
    files: &[Option<Vec<u8>>],
    fault: &str,
) -> Result<(), Difference> {
    let result = result_over(rt, alloc, job, files)?;
    let due = result_text(alloc, "", fault, 1)?;
    same(alloc, fault, result.as_str(), due.as_str())
}

// Checks that the job over three files, with this file in the place `at`, prints nothing and reports this fault's line.
fn compare_with(
    rt: &(impl Threads + Wait + Sync),
    alloc: Global,
    job: &Job,
    at: usize,
    file: Option<Vec<u8>>,
    fault: &str,
) -> Result<(), Difference> {
    let (border, _) = given(BORDER)?;
    let mut files = files_of(alloc, &[Some(border), Some("{}"), Some("x")])?;
    if let Some(place) = files.get_mut(at) {
        *place = file;
    }
    compare_fault(rt, alloc, job, files.as_slice(), fault)
}

// If a file of a job is no text, the fault depends on the file. If it cannot be read, the fault is the same for all.
#[test]
fn files_that_are_no_text_or_unreadable_are_faults(rt: HostRuntime) -> Result<(), Fail> {
    let alloc = rt.alloc();
    let scheduled = run_of(Some("turns.json"));
    let examples = [
        (scheduled, 0, "fault 1 NotJson\n"),
        (scheduled, 1, "fault 1 NotJson\n"),
        (scheduled, 2, "fault 1 NotJson\n"),
        (check_of(), 0, "fault 1 NotJson\n"),
        (cut_of(0), 0, "fault 1 NotJson\n"),
        (replay_of(0), 0, "fault 1 NotJson\n"),
        (replay_of(0), 1, "fault 14 BadLog\n"),
    ];
    for (job, at, fault) in examples.as_slice() {
        let no_text = Vec::from_slice(alloc, b"on\n\xff\n")?;
        compare_with(&rt, alloc, job, *at, Some(no_text), fault)?;
        compare_with(&rt, alloc, job, *at, None, "fault 21 Unreadable\n")?;
    }
    Ok(())
}

/// Given files, with a count of those that were asked for.
#[derive(Drop)]
struct Counted<'a> {
    given: Given<'a>,
    count: &'a Cell<usize>,
}

impl<'a> Source for Counted<'a> {
    ghost files = { λ counted. counted.given.files.now };

    ghost known = { λ counted. Some counted.given.files.now };

    ghost count = { λ counted. length counted.given.files.now };

    fn read(&mut self, at: usize) -> Result<(), AllocError> {
        self.count.set(self.count.get().saturating_add(1));
        self.given.read(at)
    }

    fn bytes(&self, at: usize) -> Option<&[u8]> {
        self.given.bytes(at)
    }
}

// How many files the job asks for.
fn reads(
    rt: &(impl Threads + Wait + Sync),
    alloc: Global,
    job: &Job,
    files: &[Option<Vec<u8>>],
) -> usize {
    let read = Cell::new(0);
    let source = Counted {
        given: Given { files },
        count: &read,
    };
    let mut out = MemorySink::new(Vec::new(alloc));
    let _ = print_from(rt, alloc, job, source, &mut out);
    read.get()
}

#[test]
fn no_file_is_read_after_one_with_a_fault(rt: HostRuntime) -> Result<(), Fail> {
    let alloc = rt.alloc();
    let (border, _) = given(BORDER)?;
    let scheduled = run_of(Some("turns.json"));
    let examples = [
        (scheduled, ["{}", "{}", "x"], 1),
        (scheduled, [border, "x", "x"], 2),
        (scheduled, [border, "{}", "x"], 3),
        (run_of(None), [border, "{}", "x"], 2),
        (check_of(), [border, "x", "x"], 1),
        (cut_of(0), [border, "x", "x"], 1),
    ];
    for (job, texts, count) in examples.as_slice() {
        let files = files_of(alloc, texts.map(Some).as_slice())?;
        let read = reads(&rt, alloc, job, files.as_slice());
        assert_eq!(rt; read, *count);
    }
    Ok(())
}
