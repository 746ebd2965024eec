//! The logical clocks of runs by threads.

use super::reports::reports_of;
use super::threads::{EXAMPLES, KINDS};
use osbase::{CoreId, Item, MailKind, Report};
use osplay::given;
use std::alloc::Global;
use std::process::Abort;
use std::sync::Wait;
use std::test::Fail;
use std::thread::Threads;

// The clocks of the letters that the report's core posted to the core `to`, in order.
fn posted(alloc: Global, report: &Report, to: CoreId) -> Result<Vec<u64>, Fail> {
    let mut clocks = Vec::new(alloc);
    for (item, clock) in report.items.as_slice().iter().zip(report.clocks.as_slice()) {
        if *item == Item::Posted(to) {
            clocks.push(*clock)?;
        }
    }
    Ok(clocks)
}

// Checks that each letter that the receiver took from the sender has a greater clock there than at the sender. Answers
// how many such letters there are.
fn come_later(
    rt: &impl Abort,
    alloc: Global,
    sender: &Report,
    receiver: &Report,
) -> Result<usize, Fail> {
    let posted = posted(alloc, sender, receiver.core)?;
    let mut count = 0;
    for (item, clock) in receiver
        .items
        .as_slice()
        .iter()
        .zip(receiver.clocks.as_slice())
    {
        if let Item::Received { from, number, .. } = *item {
            if from == sender.core {
                let sent = posted.get(number as usize).ok_or("a letter")?;
                assert!(rt; *sent < *clock, "{sent} {clock}");
                count = usize::saturating_add(count, 1);
            }
        }
    }
    Ok(count)
}

// Checks that the report has a clock for each item, and that the clocks ascend.
fn ascend(rt: &impl Abort, report: &Report) {
    assert_eq!(rt; report.clocks.len(), report.items.len());
    let mut last = 0;
    for clock in report.clocks.as_slice() {
        assert!(rt; last < *clock, "{last} {clock}");
        last = *clock;
    }
}

// Checks that the receiver's clocks ascend, and that each letter that it took was posted at a smaller clock. Answers
// how many letters it took.
fn is_clocked(
    rt: &impl Abort,
    alloc: Global,
    receiver: &Report,
    senders: &[Report],
) -> Result<usize, Fail> {
    ascend(rt, receiver);
    let mut count = 0;
    for sender in senders {
        count = usize::saturating_add(count, come_later(rt, alloc, sender, receiver)?);
    }
    Ok(count)
}

// Checks the clocks of each of these reports. Answers how many letters their cores received.
fn are_clocked(rt: &impl Abort, alloc: Global, reports: &[Report]) -> Result<usize, Fail> {
    let mut count = 0;
    for receiver in reports {
        count = usize::saturating_add(count, is_clocked(rt, alloc, receiver, reports)?);
    }
    Ok(count)
}

// Checks the clocks of a run by threads of a table's first files. Answers how many letters its cores received.
fn received(
    rt: &(impl Abort + Threads + Wait + Sync),
    alloc: Global,
    mail: MailKind,
    table: &str,
    turns: u64,
) -> Result<usize, Fail> {
    let reports = reports_of(rt, alloc, mail, given(table)?, turns)?;
    are_clocked(rt, alloc, reports.as_slice())
}

// Checks, with each kind of mail, the clocks of a run by threads of a table's first files, and that its cores receive
// this number of letters.
fn all_are_clocked(
    rt: &(impl Abort + Threads + Wait + Sync),
    alloc: Global,
    table: &str,
    letters: usize,
    turns: u64,
) -> Result<(), Fail> {
    for mail in KINDS.iter() {
        let count = received(rt, alloc, *mail, table, turns)?;
        assert_eq!(rt; count, letters);
    }
    Ok(())
}

#[test]
fn clocks_ascend_and_letters_come_after_they_were_sent(rt: HostRuntime) -> Result<(), Fail> {
    for (example, _, letters, turns) in EXAMPLES.as_slice() {
        all_are_clocked(&rt, rt.alloc(), example.table(), *letters, *turns)?;
    }
    Ok(())
}
