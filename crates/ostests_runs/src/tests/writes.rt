//! An output that refuses a write.

ghost use Rattle.std.specs.Prelude.{◌≡◌, None};

use super::logs::BORDER;
use osbase::CoreId;
use oscommand::Job;
use osjob::{Output, perform};
use osplay::{
    Difference, check_of, cut_of, files_of, given, replay_of, result_from, result_over,
    result_text, run_of, same,
};
use ostrace::{MemorySink, Sink, WriteFailed};
use std::alloc::{AllocError, Global};
use std::sync::Wait;
use std::test::Fail;
use std::thread::Threads;

/// How a write is refused.
#[derive(Clone, Copy, Debug)]
pub(super) enum Refusal {
    /// It fails.
    Fails,
    /// It takes nothing.
    TakesNothing,
}

/// Takes one byte at a time, but refuses one of the writes, or the flush behind them.
#[derive(Drop)]
pub(super) struct Failing {
    pub(super) bytes: Vec<u8>,
    refusal: Refusal,
    // How many writes come before the refused one.
    left: usize,
    failed: u64,
    /// How many of the bytes are sent off.
    pub(super) sent: usize,
}

impl Failing {
    pub(super) fn new(bytes: Vec<u8>, refusal: Refusal, left: usize) -> Failing
        ensures { result.failed ≡ 0 }
    {
        Failing {
            bytes,
            refusal,
            left,
            failed: 0,
            sent: 0,
        }
    }
}

impl Sink for Failing {
    ghost taken = { λ _. None };

    ghost failed = { λ s. s.failed };

    fn write(&mut self, bytes: &[u8]) -> Option<usize> {
        let Some(first) = bytes.first() else {
            return Some(0);
        };
        let is_taken = self.left > 0 || self.failed > 0;
        if is_taken && self.bytes.push(*first).is_ok() {
            self.left = self.left.saturating_sub(1);
            return Some(1);
        }
        self.failed += 1;
        match self.refusal {
            Refusal::Fails => None,
            Refusal::TakesNothing => Some(0),
        }
    }
}

impl Output for Failing {
    ghost sent = { λ _. None };

    fn flush(&mut self) -> Result<(), WriteFailed> {
        if self.left == 0 && self.failed == 0 {
            self.failed += 1;
            return Err(WriteFailed);
        }
        self.sent = self.bytes.len();
        Ok(())
    }
}

// The result of a job over these files, if its output refuses the write after `left` others.
fn result_within(
    rt: &(impl Threads + Wait + Sync),
    alloc: Global,
    job: &Job,
    files: &[Option<Vec<u8>>],
    (refusal, left): (Refusal, usize),
) -> Result<String, Difference> {
    let mut out = Failing::new(Vec::new(alloc), refusal, left);
    let mut err = MemorySink::new(Vec::new(alloc));
    let status = perform(rt, alloc, job, files, &mut out, &mut err);
    result_from(alloc, out.bytes, err.bytes, status)
}

// What `result_within` is to answer for a job that prints `text` and, without a refusal, has the result `whole`.
fn due_within(alloc: Global, text: &str, whole: &str, left: usize) -> Result<String, AllocError> {
    match text.get(..left) {
        Some(prefix) if left < text.len() => {
            result_text(alloc, prefix, "fault 19 WriteFailed\n", 1)
        }
        _ => String::from_str(alloc, whole),
    }
}

// Refuses the write of the job's text after `left` others, or none if there are no more. Checks the job's result.
fn refuse_one(
    rt: &(impl Threads + Wait + Sync),
    alloc: Global,
    job: &Job,
    files: &[Option<Vec<u8>>],
    (text, whole): (&str, &str),
    (refusal, left): (Refusal, usize),
) -> Result<(), Difference> {
    let result = result_within(rt, alloc, job, files, (refusal, left))?;
    let due = due_within(alloc, text, whole, left)?;
    same(alloc, "", result.as_str(), due.as_str())
}

// Refuses each write of the job's text in turn, and at last none. Checks the job's result each time.
fn refuse_each(
    rt: &(impl Threads + Wait + Sync),
    alloc: Global,
    job: &Job,
    files: &[Option<Vec<u8>>],
    refusal: Refusal,
) -> Result<(), Difference> {
    let whole = result_over(rt, alloc, job, files)?;
    let (text, _) = whole.split_once("and reports\n").ok_or("a result")?;
    for left in 0..=text.len() {
        refuse_one(
            rt,
            alloc,
            job,
            files,
            (text, whole.as_str()),
            (refusal, left),
        )?;
    }
    Ok(())
}

// A run that prints the log of core 0.
const LOG_OF_0: Job = Job::Run {
    config: "config.json",
    stimuli: "stim.json",
    schedule: None,
    items: Some(CoreId { number: 0 }),
};

#[test]
fn a_refused_write_leaves_a_prefix_of_the_text(rt: HostRuntime) -> Result<(), Fail> {
    let alloc = rt.alloc();
    let (border, stimuli) = given(BORDER)?;
    let examples = [
        // The blocks of two cores, and the log of one.
        (run_of(None), border, stimuli),
        (LOG_OF_0, border, stimuli),
        // The block of one core, and then maybe a fault.
        (replay_of(0), border, "began 1 E_OK\nentered\npass1 M\n"),
        (replay_of(0), border, "began 1 E_OK\nlast\n"),
        (check_of(), border, ""),
        (cut_of(0), r#"{"cores":[{"id":0}]}"#, ""),
    ];
    for (job, config, second) in examples.as_slice() {
        let files = files_of(alloc, &[Some(*config), Some(*second)])?;
        refuse_each(&rt, alloc, job, files.as_slice(), Refusal::Fails)?;
        refuse_each(&rt, alloc, job, files.as_slice(), Refusal::TakesNothing)?;
    }
    Ok(())
}
