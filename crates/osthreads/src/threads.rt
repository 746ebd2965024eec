//! A worker for each configured core, each on a thread of its own.

ghost use Rattle.std.specs.Prelude.{◌≡◌, ◌≤◌, map, IfErr, IfOk, None, Some, vec_len, vec_capacity};
ghost use Rattle.osworker.specs.Seats.{shared};
ghost use Rattle.osthreads.specs.Threads.{AreEnded, IsEnded, IsReady, IsSameEnd, MayStart, end_kept, end_of, outfit_cores};

use crate::ending::{EndOf, Ending, Kept, Outfit};
use osbase::MAILBOX;
use osmail::{LockedMail, RingEnd};
use osworker::{Gate, Run, Seats, core_worker};
use std::alloc::Global;
use std::snapshot::Snapshot;
use std::sync::Wait;
use std::sync::atomic::Ordering;
use std::thread;
use std::thread::{PromisedHandle, Scope, Threads};

/// What the joined threads gave back, by ascending core, and whether every thread could be started.
#[derive(Drop)]
pub struct Joined {
    pub endings: Vec<Ending>,
    pub complete: bool,
}

// What one thread does: the core works with its end of the rings if it was given one, and otherwise with an end of the
// mailboxes under locks.
#[tactic(auto, using(crate::proofs::Outfits::ready_with, crate::proofs::Outfits::same_given))]
fn work<R: Wait, G: Gate>(
    rt: &R,
    alloc: Global,
    run: &Run<'_>,
    outfit: Outfit,
    locked: &LockedMail<MAILBOX>,
    gate: &G,
) -> Ending
    requires { IsReady run.now.config.now run.now.cores.now (shared run.now.board.now run.now.bank.now) outfit }
    ensures ended { IsEnded run.now.config.now run.now.stimuli.now run.now.turns (shared run.now.board.now run.now.bank.now) outfit.seats.board.core result }
    ensures end { IsSameEnd outfit.end result.kept }
{
    let Outfit { seats, end } = outfit;
    match end {
        Some(end) => work_by_ring(rt, alloc, run, seats, end, gate),
        None => work_by_locks(rt, alloc, run, seats, locked, gate),
    }
}

// The core works with this end of the rings, and gives it back.
fn work_by_ring<R: Wait, G: Gate>(
    rt: &R,
    alloc: Global,
    run: &Run<'_>,
    seats: Seats,
    end: RingEnd,
    gate: &G,
) -> Ending
    requires { IsReady run.now.config.now run.now.cores.now (shared run.now.board.now run.now.bank.now) (record { seats = seats; end = Some end }) }
    ensures ended { IsEnded run.now.config.now run.now.stimuli.now run.now.turns (shared run.now.board.now run.now.bank.now) seats.board.core result }
    ensures end { IsSameEnd (Some end) result.kept }
{
    let worked = core_worker(rt, alloc, run, seats, end, gate);
    Ending {
        report: worked.report,
        seats: worked.seats,
        kept: Kept::Rings(worked.mail),
        stop: worked.stop,
    }
}

// The core works with an end of the mailboxes under locks, and gives back that end's record.
fn work_by_locks<R: Wait, G: Gate>(
    rt: &R,
    alloc: Global,
    run: &Run<'_>,
    seats: Seats,
    locked: &LockedMail<MAILBOX>,
    gate: &G,
) -> Ending
    requires { IsReady run.now.config.now run.now.cores.now (shared run.now.board.now run.now.bank.now) (record { seats = seats; end = None }) }
    ensures ended { IsEnded run.now.config.now run.now.stimuli.now run.now.turns (shared run.now.board.now run.now.bank.now) seats.board.core result }
    ensures end { IsSameEnd None result.kept }
{
    let end = locked.end(rt, alloc, seats.board.core());
    let worked = core_worker(rt, alloc, run, seats, end, gate);
    let steps = worked.mail.into_steps();
    Ending {
        report: worked.report,
        seats: worked.seats,
        kept: Kept::Steps(steps),
        stop: worked.stop,
    }
}

// Starts the thread of a core if no worker is told to stop, the gate lets it start, and the system has a thread. Else
// all workers are told to stop, and the core's worker stops before its first turn, on this thread.
fn start<'s, E, R: Threads + Wait + Sync, G: Gate + Sync>(
    rt: &'s R,
    scope: &Scope<'s, E>,
    alloc: Global,
    run: &Run<'s>,
    outfit: Outfit,
    locked: &'s LockedMail<MAILBOX>,
    gate: &'s G,
) -> Result<PromisedHandle<Ending, EndOf<'s>>, Ending>
    requires { IsReady run.now.config.now run.now.cores.now (shared run.now.board.now run.now.bank.now) outfit }
    ensures run { IfOk result (λ h. h.promise.run ≡ run.now) }
    ensures id { IfOk result (λ h. h.promise.id ≡ outfit.seats.board.core) }
    ensures end { IfOk result (λ h. h.promise.end.value ≡ outfit.end) }
    ensures here { IfErr result (λ e. IsEnded run.now.config.now run.now.stimuli.now run.now.turns (shared run.now.board.now run.now.bank.now) outfit.seats.board.core e × IsSameEnd outfit.end e.kept) }
{
    let id = outfit.seats.board.core();
    let Run {
        config,
        stimuli,
        cores,
        board,
        bank,
        clocks,
        wakers,
        told,
        turns,
    } = *run;
    let end = Snapshot::of(&outfit.end);
    // The closure captures the run's parts. If it captured a type with lifetimes, none of its clauses would be known.
    let job = move || -> Ending
        requires { IsReady config.now cores.now (shared board.now bank.now) outfit }
        ensures { IsEnded config.entry.now stimuli.entry.now turns (shared board.entry.now bank.entry.now) outfit.seats.board.core result × IsSameEnd outfit.end result.kept }
    {
        let run = Run {
            config,
            stimuli,
            cores,
            board,
            bank,
            clocks,
            wakers,
            told,
            turns,
        };
        work(rt, alloc, &run, outfit, locked, gate)
    };
    if told.load(Ordering::SeqCst) || !gate.starts(id) {
        told.store(true, Ordering::SeqCst);
        return Err(job());
    }
    match scope.spawn_with(EndOf { run: *run, id, end }, job) {
        Ok(handle) => Ok(handle),
        Err(refused) => {
            told.store(true, Ordering::SeqCst);
            let job = refused.value;
            Err(job())
        }
    }
}

// Starts a thread for each core's outfit, the last one first, and then joins them. Returns whether each could be
// started. If one could not, no more are started, but each core still has an ending.
fn run_each<'s, E, R: Threads + Wait + Sync, G: Gate + Sync>(
    rt: &'s R,
    scope: &Scope<'s, E>,
    alloc: Global,
    run: &Run<'s>,
    outfits: &mut Vec<Outfit>,
    locked: &'s LockedMail<MAILBOX>,
    gate: &'s G,
    endings: &mut Vec<Ending>,
) -> bool
    requires outfits { MayStart run.now.config.now run.now.cores.now (shared run.now.board.now run.now.bank.now) outfits.old endings.old }
    ensures ended { AreEnded run.now.config.now run.now.stimuli.now run.now.turns (shared run.now.board.now run.now.bank.now) (outfit_cores outfits.old.items) endings.new.items }
    ensures ends { map end_kept endings.new.items ≡ map end_of outfits.old.items }
    ensures len { vec_len endings.new ≤ vec_len outfits.old }
    ensures capacity { vec_capacity endings.new ≡ vec_capacity endings.old }
{
    let Some(last) = outfits.pop() else {
        return true;
    };
    let started = start(rt, scope, alloc, run, last, locked, gate);
    let complete = run_each(rt, scope, alloc, run, outfits, locked, gate, endings);
    match started {
        Ok(handle) => {
            endings.push_reserved(handle.join(rt));
            complete
        }
        Err(ending) => {
            endings.push_reserved(ending);
            false
        }
    }
}

/// Runs a worker for each core's outfit, each on a thread of its own, and joins all of them. Returns what they gave
/// back, and whether each thread could be started.
pub(crate) fn run_all<R: Threads + Wait + Sync, G: Gate + Sync>(
    rt: &R,
    alloc: Global,
    run: &Run<'_>,
    outfits: Vec<Outfit>,
    locked: &LockedMail<MAILBOX>,
    gate: &G,
    endings: Vec<Ending>,
) -> Joined
    requires outfits { MayStart run.now.config.now run.now.cores.now (shared run.now.board.now run.now.bank.now) outfits endings }
    ensures ended { AreEnded run.now.config.now run.now.stimuli.now run.now.turns (shared run.now.board.now run.now.bank.now) (outfit_cores outfits.items) result.endings.items }
    ensures ends { map end_kept result.endings.items ≡ map end_of outfits.items }
    ensures len { vec_len result.endings ≤ vec_len outfits }
{
    let Run {
        config,
        stimuli,
        cores,
        board,
        bank,
        clocks,
        wakers,
        told,
        turns,
    } = *run;
    thread::scope(
        thread::scope_env(),
        rt,
        |scope| -> Joined
            requires outfits { MayStart config.now cores.now (shared board.now bank.now) outfits endings }
            ensures ended { AreEnded config.entry.now stimuli.entry.now turns (shared board.entry.now bank.entry.now) (outfit_cores outfits.items) result.endings.items }
            ensures ends { map end_kept result.endings.items ≡ map end_of outfits.items }
            ensures len { vec_len result.endings ≤ vec_len outfits }
        {
            let run = Run {
                config,
                stimuli,
                cores,
                board,
                bank,
                clocks,
                wakers,
                told,
                turns,
            };
            let mut outfits = outfits;
            let mut endings = endings;
            let complete = run_each(
                rt,
                scope,
                alloc,
                &run,
                &mut outfits,
                locked,
                gate,
                &mut endings,
            );
            Joined { endings, complete }
        },
    )
}
