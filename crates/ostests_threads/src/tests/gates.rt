//! Runs by threads under gates of the tests' own, which say when a core begins a turn and for whom it waits. Each test
//! has the same result whatever the schedule is.

use super::reports::text_under;
use super::threads::KINDS;
use osbase::{CORES, CoreId};
use osplay::{cut_of, result_of, same};
use osthreads::{AWAKE, Gate, MailKind};
use std::alloc::Global;
use std::process::Abort;
use std::sync::Wait;
use std::sync::atomic::{AtomicU64, Ordering};
use std::test::Fail;
use std::thread::Threads;
use std::{array, thread};

/// Cores 0 and 1 activate a task of each other, core 2 is separate, and nobody starts core 3.
pub(super) const FOUR_CORES: &str =
    r#"{"cores":[{"id":0,"start":[1,2],"tasks":[{"name":"A","prio":1,"auto":["M"],"script":"ActivateTask D;TerminateTask"},{"name":"C","prio":1,"script":"TerminateTask"}]},{"id":1,"tasks":[{"name":"B","prio":1,"auto":["M"],"script":"ActivateTask C;TerminateTask"},{"name":"D","prio":1,"script":"TerminateTask"}]},{"id":2,"tasks":[{"name":"V","prio":1,"auto":["M"],"script":"add v0 3;TerminateTask"}]},{"id":3,"tasks":[{"name":"W","prio":1,"auto":["M"],"script":"TerminateTask"}]}]}"#;

/// Three operations of each core that is started.
pub(super) const STIMULI: &str = r#"{"0":"op op op","1":"op op op","2":"op op op"}"#;

/// The operations of the separate core alone.
const STIMULI_OF_CORE_2: &str = r#"{"2":"op op op"}"#;

/// What the services of the first two cores return.
const BOTH_RETURN: &str = "stat A ActivateTask E_OK\nstat B ActivateTask E_OK\n";

/// The separate core's block, and the part of the line behind it that is the same in every run.
const SEPARATE: &str = "core 2\nhook Startup\nact V\npre V\nvar V v0 3\npost V\nend V\ntook ";

const THREE_END: &str = "worker 0 ended\nworker 1 ended\nworker 2 ended\nworker 3 stopped\n";

/// Sixteen cores without tasks, all started by the first.
const SIXTEEN_CORES: &str =
    r#"{"version":2,"cores":[{"id":0,"start":[1,2,3,4,5,6,7,8,9,10,11,12,13,14,15]},{"id":1},{"id":2},{"id":3},{"id":4},{"id":5},{"id":6},{"id":7},{"id":8},{"id":9},{"id":10},{"id":11},{"id":12},{"id":13},{"id":14},{"id":15}]}"#;

const SIXTEEN_END: &str =
    "worker 0 ended\nworker 1 ended\nworker 2 ended\nworker 3 ended\nworker 4 ended\nworker 5 ended\nworker 6 ended\nworker 7 ended\nworker 8 ended\nworker 9 ended\nworker 10 ended\nworker 11 ended\nworker 12 ended\nworker 13 ended\nworker 14 ended\nworker 15 ended\n";

const NONE_ENDS: &str = "worker 0 stopped\nworker 1 stopped\nworker 2 stopped\nworker 3 stopped\n";

const CORE_0: CoreId = CoreId { number: 0 };

const CORE_3: CoreId = CoreId { number: 3 };

/// How many turns may change nothing before a worker stops: many, so that a core that is to end waits for the others.
const MANY: u64 = 100_000;

/// As many turns as the rounds that a worker makes before it sleeps.
const SLEEPLESS: u64 = AWAKE;

// Lets each thread start, but not that of the core `refused`, and counts the turns that each core began. If cores meet,
// each of a core's first turns waits until every other core began as many, for at most `TRIES` tries. A started core
// whose turn changed nothing yields until another core began a turn. So none stops while the others have no processor.
#[derive(Drop)]
pub(super) struct Watcher {
    cores: usize,
    // The core that nobody starts, if there is one.
    unstarted: Option<CoreId>,
    refused: Option<CoreId>,
    meets: bool,
    turns: [AtomicU64; CORES],
    started: AtomicU64,
    missed: AtomicU64,
}

const MEETINGS: u64 = 10;

const TRIES: u32 = 1_000_000;

const YIELDS: u32 = 100;

impl Watcher {
    // The gate of this number of cores, from core 0 on.
    fn over(cores: usize, unstarted: Option<CoreId>, refused: Option<CoreId>, meets: bool) -> Self {
        Watcher {
            cores,
            unstarted,
            refused,
            meets,
            turns: array::from_fn(|_| AtomicU64::new(0)),
            started: AtomicU64::new(0),
            missed: AtomicU64::new(0),
        }
    }

    // The gate of the four cores.
    pub(super) fn new(refused: Option<CoreId>, meets: bool) -> Self {
        Watcher::over(4, Some(CORE_3), refused, meets)
    }

    // Whether every core begins this number of turns within the tries. After a miss no core waits any more.
    fn have_all_begun(&self, turns: u64) -> bool {
        for _ in 0..TRIES {
            if self
                .turns
                .iter()
                .take(self.cores)
                .all(|begun| begun.load(Ordering::SeqCst) >= turns)
            {
                return true;
            }
            if self.missed.load(Ordering::SeqCst) > 0 {
                return false;
            }
            thread::yield_now();
        }
        false
    }
}

impl Gate for Watcher {
    // The thread of each core may start, except that of the core `refused`.
    fn starts(&self, core: CoreId) -> bool {
        self.refused != Some(core)
    }

    fn before(&self, core: CoreId) {
        let own = usize::from(core.number) % CORES;
        let begun = self.turns[own].fetch_add(1, Ordering::SeqCst);
        if self.meets && begun < MEETINGS && !self.have_all_begun(begun + 1) {
            self.missed.fetch_add(1, Ordering::SeqCst);
        }
        if self.unstarted != Some(core) {
            self.started.fetch_add(1, Ordering::SeqCst);
        }
    }

    fn idle(&self, core: CoreId) {
        let seen = self.started.load(Ordering::SeqCst);
        for _ in 0..YIELDS {
            if self.unstarted == Some(core) || self.started.load(Ordering::SeqCst) != seen {
                return;
            }
            thread::yield_now();
        }
    }
}

// Holds every core but core 0 until core 0 has stopped, for at most `TRIES` tries. Core 0 stops after `SLEEPLESS`
// turns in a row that changed nothing. These are so few that core 0 does not sleep before.
#[derive(Drop)]
struct Delay {
    fruitless: AtomicU64,
    was_idle: AtomicU64,
    missed: AtomicU64,
}

impl Delay {
    fn new() -> Self {
        Delay {
            fruitless: AtomicU64::new(0),
            was_idle: AtomicU64::new(0),
            missed: AtomicU64::new(0),
        }
    }

    // Whether, within the tries, `SLEEPLESS` turns of core 0 in a row change nothing.
    fn has_core_0_stopped(&self) -> bool {
        for _ in 0..TRIES {
            if self.fruitless.load(Ordering::SeqCst) >= SLEEPLESS {
                return true;
            }
            thread::yield_now();
        }
        false
    }
}

impl Gate for Delay {
    fn starts(&self, _core: CoreId) -> bool {
        true
    }

    fn before(&self, core: CoreId) {
        if core == CORE_0 {
            if self.was_idle.swap(0, Ordering::SeqCst) == 0 {
                self.fruitless.store(0, Ordering::SeqCst);
            }
        } else if !self.has_core_0_stopped() {
            self.missed.fetch_add(1, Ordering::SeqCst);
        }
    }

    fn idle(&self, core: CoreId) {
        if core == CORE_0 {
            self.was_idle.store(1, Ordering::SeqCst);
            self.fruitless.fetch_add(1, Ordering::SeqCst);
        }
    }
}

// The reports of a run of the four cores with this kind of mail, as a text.
fn four_under<R: Threads + Wait + Sync, G: Gate + Sync>(
    rt: &R,
    alloc: Global,
    mail: MailKind,
    gate: &G,
    turns: u64,
) -> Result<String, Fail> {
    text_under(rt, alloc, mail, (FOUR_CORES, STIMULI), gate, turns)
}

// Checks that no core waited in vain at the gate, and that each core began all the turns at which the cores meet.
fn have_met(rt: &impl Abort, gate: &Watcher) {
    assert_eq!(rt; gate.missed.load(Ordering::SeqCst), 0);
    for begun in gate.turns.iter().take(gate.cores) {
        assert!(rt; begun.load(Ordering::SeqCst) >= MEETINGS);
    }
}

// Checks that the lines of the text that begin with this word are `due`.
fn has_lines(alloc: Global, text: &str, word: &str, due: &str) -> Result<(), Fail> {
    let mut lines = String::new(alloc);
    for line in text.lines().filter(|line| line.starts_with(word)) {
        lines.push_str(line)?;
        lines.push_str("\n")?;
    }
    same(alloc, word, lines.as_str(), due)?;
    Ok(())
}

// The text of a run of the four cores under this gate. Checks that the three started cores end, and the fourth stops.
fn three_end(
    rt: &(impl Threads + Wait + Sync),
    alloc: Global,
    mail: MailKind,
    gate: &Watcher,
) -> Result<String, Fail> {
    let text = four_under(rt, alloc, mail, gate, MANY)?;
    has_lines(alloc, text.as_str(), "worker ", THREE_END)?;
    Ok(text)
}

#[test]
fn cores_that_call_each_other_end(rt: HostRuntime) -> Result<(), Fail> {
    for mail in KINDS.iter() {
        let text = three_end(&rt, rt.alloc(), *mail, &Watcher::new(None, false))?;
        has_lines(rt.alloc(), text.as_str(), "stat ", BOTH_RETURN)?;
    }
    Ok(())
}

#[test]
fn all_cores_run_at_once(rt: HostRuntime) -> Result<(), Fail> {
    for mail in KINDS.iter() {
        let gate = Watcher::new(None, true);
        three_end(&rt, rt.alloc(), *mail, &gate)?;
        have_met(&rt, &gate);
    }
    Ok(())
}

// Checks that the sixteen cores end under this gate.
fn sixteen_end(
    rt: &(impl Threads + Wait + Sync),
    alloc: Global,
    mail: MailKind,
    gate: &Watcher,
) -> Result<(), Fail> {
    let text = text_under(rt, alloc, mail, (SIXTEEN_CORES, "{}"), gate, MANY)?;
    has_lines(alloc, text.as_str(), "worker ", SIXTEEN_END)
}

#[test]
fn sixteen_cores_run_at_once(rt: HostRuntime) -> Result<(), Fail> {
    for mail in KINDS.iter() {
        let gate = Watcher::over(CORES, None, None, true);
        sixteen_end(&rt, rt.alloc(), *mail, &gate)?;
        have_met(&rt, &gate);
    }
    Ok(())
}

#[test]
fn a_core_that_nobody_starts_does_not_hold_up_the_others(rt: HostRuntime) -> Result<(), Fail> {
    for mail in KINDS.iter() {
        let text = three_end(&rt, rt.alloc(), *mail, &Watcher::new(None, false))?;
        assert!(rt; text.ends_with("\ncore 3\ntook 0\nworker 3 stopped\n"));
    }
    Ok(())
}

// Checks that the separate core ends and prints its block by this configuration, which is its own.
fn prints_by(
    rt: &(impl Abort + Threads + Wait + Sync),
    alloc: Global,
    mail: MailKind,
    gate: &Watcher,
    config: &str,
) -> Result<(), Fail> {
    let text = text_under(rt, alloc, mail, (config, STIMULI_OF_CORE_2), gate, MANY)?;
    has_lines(alloc, text.as_str(), "worker ", "worker 2 ended\n")?;
    assert!(rt; text.starts_with(SEPARATE));
    Ok(())
}

// Checks that the separate core prints its block among the four cores, and also by the configuration that is cut out
// of theirs.
fn prints_alike(
    rt: &(impl Abort + Threads + Wait + Sync),
    alloc: Global,
    mail: MailKind,
    gate: &Watcher,
) -> Result<(), Fail> {
    let among = three_end(rt, alloc, mail, gate)?;
    assert!(rt; among.contains(SEPARATE));
    let printed = result_of(rt, alloc, &cut_of(2), &[Some(FOUR_CORES)])?;
    let (config, _) = printed.split_once('\n').ok_or("a configuration")?;
    prints_by(rt, alloc, mail, gate, config)
}

#[test]
fn a_separate_core_prints_what_its_configuration_alone_prints(rt: HostRuntime) -> Result<(), Fail> {
    for mail in KINDS.iter() {
        let gate = Watcher::new(None, false);
        prints_alike(&rt, rt.alloc(), *mail, &gate)?;
    }
    Ok(())
}

// Checks that a run's text begins with `start`, and says that no worker ended.
fn none_ends(rt: &impl Abort, alloc: Global, text: &str, start: &str) -> Result<(), Fail> {
    assert!(rt; text.starts_with(start), "{text}");
    has_lines(alloc, text, "worker ", NONE_ENDS)
}

// Checks that no core ends if core 0 waits for the others, and these begin their first turns only once core 0 has
// stopped.
fn waits_in_vain(
    rt: &(impl Abort + Threads + Wait + Sync),
    alloc: Global,
    mail: MailKind,
) -> Result<(), Fail> {
    let gate = Delay::new();
    let text = four_under(rt, alloc, mail, &gate, SLEEPLESS)?;
    assert_eq!(rt; gate.missed.load(Ordering::SeqCst), 0);
    let start = "core 0\nstart 1 E_OK\nstart 2 E_OK\ntook ";
    none_ends(rt, alloc, text.as_str(), start)
}

#[test]
fn a_core_that_waits_for_ever_does_not_end(rt: HostRuntime) -> Result<(), Fail> {
    for mail in KINDS.iter() {
        waits_in_vain(&rt, rt.alloc(), *mail)?;
    }
    Ok(())
}

// Checks that no worker ended, and that no core took an item.
fn none_takes(alloc: Global, text: &str) -> Result<(), Fail> {
    has_lines(alloc, text, "worker ", NONE_ENDS)?;
    has_lines(alloc, text, "took ", "took 0\ntook 0\ntook 0\ntook 0\n")
}

#[test]
fn with_no_turn_allowed_nothing_is_done(rt: HostRuntime) -> Result<(), Fail> {
    let alloc = rt.alloc();
    for mail in KINDS.iter() {
        let text = four_under(&rt, alloc, *mail, &Watcher::new(None, false), 0)?;
        none_takes(alloc, text.as_str())?;
    }
    Ok(())
}

// Checks that the run's text says that a thread could not be started and that no worker ended, and that this core's
// report is empty.
fn are_stopped(rt: &impl Abort, alloc: Global, text: &str, core: u8) -> Result<(), Fail> {
    none_ends(rt, alloc, text, "a thread could not be started\ncore 0\n")?;
    let none = format!(in alloc; "core {core}\ntook 0\nworker {core} stopped\n")?;
    assert!(rt; text.contains(none.as_str()), "{text}");
    Ok(())
}

// Checks that no worker ends if the thread of this core may not start, and that this core's report is empty.
fn stops_all(
    rt: &(impl Abort + Threads + Wait + Sync),
    alloc: Global,
    mail: MailKind,
    core: u8,
) -> Result<(), Fail> {
    let gate = Watcher::new(Some(CoreId { number: core }), false);
    let text = four_under(rt, alloc, mail, &gate, MANY)?;
    are_stopped(rt, alloc, text.as_str(), core)
}

#[test]
fn a_thread_that_may_not_start_stops_all(rt: HostRuntime) -> Result<(), Fail> {
    let alloc = rt.alloc();
    for mail in KINDS.iter() {
        for core in 0..4u8 {
            stops_all(&rt, alloc, *mail, core)?;
        }
    }
    Ok(())
}
