//! Runs by threads. Each prints what every order of the cores' turns prints, or is compared with itself.

use super::reports::replays;
use super::spinlocks::{OWED, SHARED};
use osbase::MailKind;
use osplay::examples::{ALL_DOWN, ASKERS, MUTUAL, POLLING, REFUSED};
use osplay::sixteen::RING;
use osplay::{Difference, given, play_table, result_of, run_of, threads_of};
use std::alloc::Global;
use std::process::Abort;
use std::sync::Wait;
use std::test::Fail;
use std::thread::Threads;

/// More turns than any core of the runs below may spend with nothing to do.
pub(super) const MANY: u64 = 1_000_000_000;

/// The kinds of mail. What a test says holds with each.
pub const KINDS: [MailKind; 2] = [MailKind::Ring, MailKind::Locked];

/// Some turns, for a run that does not end.
pub(super) const FEW: u64 = 1_000;

const RUNS: &str = r#"
// Two cores, each of whose first task activates the other's second one, and a separate core.
config {"cores":[{"id":0,"start":[1,2],"tasks":[{"name":"A","prio":2,"auto":["M"],"script":"ActivateTask D;TerminateTask"},{"name":"C","prio":1,"script":"TerminateTask"}]},{"id":1,"tasks":[{"name":"B","prio":2,"auto":["M"],"script":"ActivateTask C;TerminateTask"},{"name":"D","prio":1,"script":"TerminateTask"}]},{"id":2,"tasks":[{"name":"V","prio":1,"auto":["M"],"script":"add v0 3;TerminateTask"}]}]}
check
ok
core 0 bound
core 1 bound
core 2 separate

stimuli {"0":"op op op","1":"op op op","2":"op op"}
run
core 0
start 1 E_OK
start 2 E_OK .. pre A
out 1 ActivateTask D
act C
in 1 ActivateTask C E_OK
stat A ActivateTask E_OK
post A
end A
pre C .. end C
core 1 .. pre B
out 0 ActivateTask C
act D
in 0 ActivateTask D E_OK
stat B ActivateTask E_OK
post B
end B
pre D .. end D
core 2 .. pre V
var V v0 3
post V
end V
ended

// Sixteen rounds of three cores, each round in the reverse order of the default schedule.
turns "2l 2o 1l 1s0 1o 0l 0s1 0o 2l 2o 1l 1s0 1o 0l 0s1 0o 2l 2o 1l 1s0 1o 0l 0s1 0o 2l 2o 1l 1s0 1o 0l 0s1 0o 2l 2o 1l 1s0 1o 0l 0s1 0o 2l 2o 1l 1s0 1o 0l 0s1 0o 2l 2o 1l 1s0 1o 0l 0s1 0o 2l 2o 1l 1s0 1o 0l 0s1 0o 2l 2o 1l 1s0 1o 0l 0s1 0o 2l 2o 1l 1s0 1o 0l 0s1 0o 2l 2o 1l 1s0 1o 0l 0s1 0o 2l 2o 1l 1s0 1o 0l 0s1 0o 2l 2o 1l 1s0 1o 0l 0s1 0o 2l 2o 1l 1s0 1o 0l 0s1 0o 2l 2o 1l 1s0 1o 0l 0s1 0o 2l 2o 1l 1s0 1o 0l 0s1 0o"
run
as before

threads 1000000000 2
on .. pass2 0 1 2
stim op
stim op
drained .. last

threads locked 1000000000 2
as before

items 2
as before

replay 2
as run

// The separate core by itself.
cut 2
{"cap":16,"cores":[{"alarms":[],"counters":[],"id":2,"isrs":[],"mode":"M","protection":"PRO_SHUTDOWN","resources":[],"start":[],"tables":[],"tasks":[{"activations":1,"auto":["M"],"budget":0,"extended":false,"name":"V","preemptable":true,"prio":1,"script":"add v0 3;TerminateTask"}]}],"master":2,"modes":["M"],"spinlocks":[],"version":1}

config
stimuli {"2":"op op"}
run
as run from core 2

// A core gives up once the given number of turns in a row changed nothing.
config {"cores":[{"id":0,"tasks":[{"name":"A","prio":1,"auto":["M"],"script":"work;TerminateTask"}]}]}
stimuli {"0":"op op"}
threads 1 -> 3
core 0 .. pre A
stalled

threads 2
core 0 .. pre A
post A
end A
ended

config {"cores":[{"id":0,"start":[1],"tasks":[{"name":"A","prio":1,"auto":["M"],"script":"ActivateTask B;TerminateTask"}]},{"id":1,"tasks":[{"name":"B","prio":1,"script":"TerminateTask"}]}]}
stimuli {}
threads 1 -> 3
core 0
core 1
stalled

config {"cores":[{"id":0},{"id":5}]}
stimuli {}
threads 1000
core 0 .. core 5
ended

// One order of the turns. At each turn the core takes an item.
threads 1000 order
"0o 0l 0o 0l 0o 0l 0l"

threads locked 1000 order
as before

// A core with a number above 7.
config {"version":2,"cores":[{"id":0,"start":[9],"tasks":[{"name":"A","prio":1,"auto":["M"],"script":"ActivateTask B;TerminateTask"}]},{"id":9,"tasks":[{"name":"B","prio":1,"script":"TerminateTask"}]}]}
stimuli {"0":"op op"}
run
core 0
start 9 E_OK .. pre A
out 9 ActivateTask B
stat A ActivateTask E_OK
post A
end A
core 9 .. act B
in 0 ActivateTask B E_OK
pre B
ended

threads 1000000000
as before

threads locked 1000000000
as before

check
ok
core 0 bound
core 9 bound

// Three alarms that act on another core, whose mailbox holds one envelope.
config {"cap":1,"cores":[{"id":0,"start":[1],"counters":[{"name":"C","max":9}],"alarms":[{"name":"L1","counter":"C","action":"ActivateTask P","auto":{"modes":["M"],"start":1,"cycle":0}},{"name":"L2","counter":"C","action":"ActivateTask Q","auto":{"modes":["M"],"start":1,"cycle":0}},{"name":"L3","counter":"C","action":"ActivateTask R","auto":{"modes":["M"],"start":1,"cycle":0}}]},{"id":1,"tasks":[{"name":"P","prio":1,"script":"TerminateTask"},{"name":"Q","prio":1,"script":"TerminateTask"},{"name":"R","prio":1,"script":"TerminateTask"}]}]}
stimuli {"0":"tick"}
run
core 0
start 1 E_OK .. tick
alarm L1
out 1 ActivateTask P
alarm L2
out 1 ActivateTask Q
alarm L3
out 1 ActivateTask R
core 1 .. act P
in 0 ActivateTask P E_OK
pre P
act Q
in 0 ActivateTask Q E_OK
act R
in 0 ActivateTask R E_OK
ended

threads 1000000000
as before

threads locked 1000000000
as before

turns "0o 1l 1o 0o 0l 1l 0o 1o 0l 1l 0o 0o 0o 0o 1s0 0o 1s0 0o 1s0 0o 1o 0l 1l 0l 1l"
run
as before

// Faults are reported in their order: of the configuration, of the core to log, and of the stimuli.
config {}
stimuli x
threads 1000000000 9
fault 2 Shape

config {"cores":[{"id":0,"tasks":[{"name":"A","prio":1,"auto":["M"],"script":"work;TerminateTask"}]}]}
stimuli x
threads 1000000000 9
fault 5 UnknownName

threads 1000000000
fault 1 NotJson

config {"cores":[{"id":0,"tasks":[{"name":"A","prio":1,"auto":["M"],"script":"work;TerminateTask"}]}]}
threads 1000000000 0
fault 21 Unreadable
"#;

/// The separate core's block, and the last line.
const SEPARATE_END: &str = "core 2\nhook Startup\nact V\npre V\nvar V v0 3\npost V\nend V\nended\n";

#[test]
fn runs_by_threads_print_their_texts(rt: HostRuntime) -> Result<(), Difference> {
    play_table(&rt, rt.alloc(), RUNS, 27)?;
    play_table(&rt, rt.alloc(), OWED, 36)?;
    play_table(&rt, rt.alloc(), SHARED, 3)
}

// The result of a run by threads of a table's first files, with this kind of mail.
fn threaded(
    rt: &(impl Threads + Wait + Sync),
    alloc: Global,
    mail: MailKind,
    table: &str,
    turns: u64,
) -> Result<String, Difference> {
    let (config, stimuli) = given(table)?;
    let texts = [Some(config), Some(stimuli)];
    result_of(rt, alloc, &threads_of(mail, turns, None), &texts)
}

// Checks that in this result of a run two cores that called each other have their answers. The run ended, and its text
// ends with `end`.
fn has_both_answers(rt: &impl Abort, text: &str, end: &str) -> Result<(), Fail> {
    assert!(rt; text.contains("stat A ActivateTask E_OK\n"));
    assert!(rt; text.contains("stat B ActivateTask E_OK\n"));
    let ended = text.strip_suffix("and reports\nand exits with 0");
    assert!(rt; ended.ok_or("a run that ended")?.ends_with(end));
    Ok(())
}

// Checks that in a run by threads two cores that call each other have their answers. The run ends, and its text ends
// with `end`.
fn both_answer(
    rt: &(impl Abort + Threads + Wait + Sync),
    alloc: Global,
    mail: MailKind,
    (table, end): (&str, &str),
) -> Result<(), Fail> {
    let result = threaded(rt, alloc, mail, table, MANY)?;
    has_both_answers(rt, result.as_str(), end)
}

#[test]
fn cores_that_call_each_other_end_and_a_separate_one_prints_its_block(
    rt: HostRuntime,
) -> Result<(), Fail> {
    for mail in KINDS.iter() {
        both_answer(&rt, rt.alloc(), *mail, (MUTUAL, "ended\n"))?;
        both_answer(&rt, rt.alloc(), *mail, (RUNS, SEPARATE_END))?;
    }
    Ok(())
}

// Checks that by this result of a run each of the sixteen cores got its answer, no status is an error, and the run
// ended.
fn has_sixteen_answers(rt: &impl Abort, alloc: Global, text: &str) -> Result<(), Fail> {
    for core in 0..16u8 {
        let answered = format!(in alloc; "stat A{core} ActivateTask E_OK\n")?;
        assert!(rt; text.contains(answered.as_str()), "{answered}");
    }
    assert!(rt; !text.contains("E_OS_"));
    assert!(rt; text.ends_with("ended\nand reports\nand exits with 0"));
    Ok(())
}

// Checks that in a run by threads each of the sixteen cores gets its answer, and the run ends.
fn ring_answers(
    rt: &(impl Abort + Threads + Wait + Sync),
    alloc: Global,
    mail: MailKind,
) -> Result<(), Fail> {
    let result = threaded(rt, alloc, mail, RING, MANY)?;
    has_sixteen_answers(rt, alloc, result.as_str())
}

#[test]
fn sixteen_cores_in_a_ring_answer_each_other(rt: HostRuntime) -> Result<(), Fail> {
    for mail in KINDS.iter() {
        ring_answers(&rt, rt.alloc(), *mail)?;
    }
    Ok(())
}

/// A table whose first files are run.
#[derive(Clone, Copy)]
pub(super) enum Example {
    Mutual,
    BoundAndSeparate,
    AllDown,
    Askers,
    Owed,
    Polling,
    Shared,
    Ring,
    Refused,
}

impl Example {
    pub(super) fn table(self) -> &'static str {
        match self {
            Example::Mutual => MUTUAL,
            Example::BoundAndSeparate => RUNS,
            Example::AllDown => ALL_DOWN,
            Example::Askers => ASKERS,
            Example::Owed => OWED,
            Example::Polling => POLLING,
            Example::Shared => SHARED,
            Example::Ring => RING,
            Example::Refused => REFUSED,
        }
    }
}

/// Examples, with how many cores and letters each run has, and its turns.
pub(super) const EXAMPLES: [(Example, usize, usize, u64); 9] = [
    (Example::Mutual, 2, 4, MANY),
    (Example::BoundAndSeparate, 3, 4, MANY),
    (Example::AllDown, 2, 0, MANY),
    (Example::Askers, 2, 0, MANY),
    (Example::Owed, 2, 0, MANY),
    (Example::Polling, 2, 0, MANY),
    (Example::Shared, 3, 0, MANY),
    (Example::Ring, 16, 32, MANY),
    (Example::Refused, 2, 0, FEW),
];

// Checks that with each kind of mail the run has `cores` reports, and each report's log replays to its block.
fn each_replays(
    rt: &(impl Abort + Threads + Wait + Sync),
    alloc: Global,
    texts: (&str, &str),
    cores: usize,
    turns: u64,
) -> Result<(), Fail> {
    for mail in KINDS.iter() {
        let replayed = replays(rt, alloc, *mail, texts, turns)?;
        assert_eq!(rt; replayed, cores);
    }
    Ok(())
}

#[test]
fn each_log_of_a_run_by_threads_replays_to_its_block(rt: HostRuntime) -> Result<(), Fail> {
    for (example, cores, _, turns) in EXAMPLES.as_slice() {
        each_replays(&rt, rt.alloc(), given(example.table())?, *cores, *turns)?;
    }
    Ok(())
}

// Checks that a run by threads of a table's first files, with this kind of mail, ends and has one or the other of these
// results.
fn ends_as(
    rt: &(impl Abort + Threads + Wait + Sync),
    alloc: Global,
    mail: MailKind,
    table: &str,
    (one, other): (&str, &str),
) -> Result<(), Fail> {
    let result = threaded(rt, alloc, mail, table, MANY)?;
    assert!(rt; result.ends_with("ended\nand reports\nand exits with 0"));
    assert!(rt; result.as_str() == one || result.as_str() == other);
    Ok(())
}

// Checks that with each kind of mail a run by threads of a table's first files ends. Its result is that of their run by
// the default schedule, or that of the run of `files` by `schedule`.
fn is_either(
    rt: &(impl Abort + Threads + Wait + Sync),
    alloc: Global,
    table: &str,
    schedule: Option<&'static str>,
    files: &[Option<&str>],
) -> Result<(), Fail> {
    let (config, stimuli) = given(table)?;
    let one = result_of(rt, alloc, &run_of(None), &[Some(config), Some(stimuli)])?;
    let other = result_of(rt, alloc, &run_of(schedule), files)?;
    for mail in KINDS.iter() {
        ends_as(rt, alloc, *mail, table, (one.as_str(), other.as_str()))?;
    }
    Ok(())
}

#[test]
fn all_cores_see_who_asked_first_for_their_shutdown(rt: HostRuntime) -> Result<(), Fail> {
    let alloc = rt.alloc();
    let (askers, stimuli) = given(ASKERS)?;
    let second_first = r#""0o 1l 1o 0o 0l 1l 0o 1o 0l 1l 0o 1o 1o 0l 0o 1o 0o 0l 1l 0l 1l""#;
    let files = [Some(askers), Some(stimuli), Some(second_first)];
    is_either(&rt, alloc, ASKERS, Some("turns.json"), &files)?;
    // The second core may have drained before it sees the halt.
    let (all_down, _) = given(ALL_DOWN)?;
    let files = [Some(all_down), Some(r#"{"0":"op"}"#)];
    is_either(&rt, alloc, ALL_DOWN, None, &files)
}

#[test]
fn a_core_that_waits_for_a_spinlock_gives_up_whoever_took_it(rt: HostRuntime) -> Result<(), Fail> {
    for mail in KINDS.iter() {
        let result = threaded(&rt, rt.alloc(), *mail, REFUSED, FEW)?;
        assert!(rt; result.ends_with("stalled\nand reports\nand exits with 3"));
    }
    Ok(())
}
