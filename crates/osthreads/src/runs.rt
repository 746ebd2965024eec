//! Runs of a configuration by threads.

ghost use Rattle.std.specs.Prelude.{◌≡◌, ◌≤◌, ◌⊎◌, IsTrue, IfOk, IfErr, IfNone, IfSome, map, vec_len};
ghost use Rattle.osmail.specs.Rings.{AreCores, IsUnused, end_id};
ghost use Rattle.osbase.specs.{declared.limits.TheConstants.MAILBOX, declared.messages.MailKind.TheVariants.Locked};
ghost use Rattle.std.specs.List.{AllByRecursion, list_all, list_any};
ghost use Rattle.osplan.specs.Stimuli.{AreKnown};
ghost use Rattle.osrun.specs.Sound.{AreSound};
ghost use Rattle.osworker.specs.{Seats.paired, Working.is_kept_by, Working.was_stopped_by};
ghost use Rattle.osthreads.specs.{declared.ending.Ending.Ending as EndingValue, Runs.AreFinished, declared.runs.ThreadReason.TheVariants.NoMemory, declared.runs.ThreadReason.TheVariants.NoThread};
ghost use Rattle.osthreads.specs.Threads.{AreAllFinished, AreAllKept, AreEndsFor, AreParts, AreSettled, HasRoomFor, IsPrepared, IsRoomFor, IsSeated, IsSettled, IsThreadFault, equipped};

use crate::ending::{Ending, Outfit};
use crate::threads::{Joined, run_all};
use osbase::{CoreId, List, MAILBOX, MailKind, Report, Stimuli};
use osboard::{Board, BoardSeat};
use osmail::{LockedMail, RingEnd, RingMail};
use osplan::Config;
use osrun::ids_of;
use osspin::{Clocks, SpinBank, SpinSeat};
use osworker::{Gate, Run, Seats, Stop, Wakers};
use std::alloc::{AllocError, Global};
use std::collections::VecDeque;
use std::sync::Wait;
use std::sync::atomic::AtomicBool;
use std::thread::Threads;
use thiserror::Error;

/// Why a threaded run failed.
#[derive(Clone, Copy, Debug, PartialEq, Eq, Error)]
pub enum ThreadReason {
    /// An allocation failed before the threads started. There is nothing to report.
    #[error("out of memory")]
    NotBegun,
    /// An allocation failed before a worker's turn. All workers stopped, and their reports fit one another.
    #[error("out of memory")]
    NoMemory,
    /// A thread could not be started. All workers stopped, and their reports fit one another; that of a core
    /// without a thread is empty.
    #[error("a thread could not be started")]
    NoThread,
    /// A core could not take an envelope; or, with mailboxes under locks, what was taken and left is not what was sent.
    #[error("the mail between two cores broke")]
    MailBreak,
}

/// Why a threaded run failed, and a report for each configured core, by ascending core, unless nothing was begun. Each
/// report says what its own items say.
#[derive(Debug, Drop, Error)]
#[error("{reason}")]
pub struct ThreadFault {
    pub reason: ThreadReason,
    pub reports: Vec<Report>,
}

// What the cores share, and each core's seats there, by ascending core.
#[derive(Drop)]
struct Seated {
    board: Board,
    bank: SpinBank,
    seats: Vec<Seats>,
}

// What a run needs before its threads start. All memory is allocated by then, but for what the workers' turns allocate.
#[derive(Drop)]
struct Prepared {
    cores: Vec<CoreId>,
    board: Board,
    bank: SpinBank,
    mail: RunMail,
    outfits: Vec<Outfit>,
    room: Room,
}

// The mail of a run: mailboxes under locks, where each core makes its own end, or rings, whose ends are already made.
// One of the two is empty.
#[derive(Drop)]
struct RunMail {
    locked: LockedMail<MAILBOX>,
    rings: RingMail<MAILBOX>,
}

// What the threads' endings are split into: the seats at the board and at the spinlocks, the ends of the rings, and the
// reports.
#[derive(Drop)]
struct Returned {
    board: Vec<BoardSeat>,
    spins: Vec<SpinSeat>,
    ends: Vec<RingEnd>,
    reports: Vec<Report>,
}

impl Returned {
    // Empty vectors, each with room for `count` elements.
    fn new(alloc: Global, count: usize) -> Result<Self, AllocError>
        ensures { IfOk result (HasRoomFor count) }
    {
        Ok(Returned {
            board: Vec::with_capacity(alloc, count)?,
            spins: Vec::with_capacity(alloc, count)?,
            ends: Vec::with_capacity(alloc, count)?,
            reports: Vec::with_capacity(alloc, count)?,
        })
    }
}

// What depends only on the number of threads: room for their endings and for what these are split into, and the clocks.
#[derive(Drop)]
struct Room {
    endings: Vec<Ending>,
    returned: Returned,
    clocks: Clocks,
}

impl Room {
    // Empty vectors with room for what `count` threads give back, and the clocks.
    fn new(alloc: Global, count: usize) -> Result<Self, AllocError>
        ensures { IfOk result (IsRoomFor count) }
    {
        Ok(Room {
            endings: Vec::with_capacity(alloc, count)?,
            returned: Returned::new(alloc, count)?,
            clocks: Clocks::new(alloc)?,
        })
    }
}

// Each core's seats: a seat at the board, paired with a seat at the spinlocks, in order.
fn pair(
    alloc: Global,
    board: Vec<BoardSeat>,
    spins: Vec<SpinSeat>,
) -> Result<Vec<Seats>, AllocError>
    ensures { IfOk result (λ seats. seats.items ≡ paired board.items spins.items) }
{
    let mut seats = Vec::with_capacity(alloc, board.len())?;
    let mut left = VecDeque::from(spins);
    for board in board {
        if let Some(spins) = left.pop_front() {
            seats.push(Seats { board, spins })?;
        }
    }
    Ok(seats)
}

// Each core's outfit: its seats with an end of the rings, paired in order. Seats for which no end is left are without
// one.
#[tactic(auto, using(crate::proofs::Outfits::equipped_more))]
fn equip(alloc: Global, seats: Vec<Seats>, ends: Vec<RingEnd>) -> Result<Vec<Outfit>, AllocError>
    ensures { IfOk result (λ outfits. outfits.items ≡ equipped seats.items ends.items) }
{
    let mut outfits = Vec::with_capacity(alloc, seats.len())?;
    let mut left = VecDeque::from(ends);
    for seats in seats {
        let end = left.pop_front();
        outfits.push(Outfit { seats, end })?;
    }
    Ok(outfits)
}

// The mail of a run of these cores, with room for `cap` envelopes in each mailbox, and the cores' ends of the rings.
// There are no ends if the mail is under locks.
#[tactic(auto, using(crate::proofs::Outfits::ring_ends, crate::proofs::Outfits::no_ends, crate::proofs::Outfits::none_linked, crate::proofs::Outfits::none_unused))]
fn mail_of(
    alloc: Global,
    kind: MailKind,
    cores: &[CoreId],
    cap: usize,
) -> Result<(RunMail, Vec<RingEnd>), AllocError>
    requires room { cap ≤ MAILBOX }
    requires cores { AreCores cores.now }
    ensures ends { IfOk result (λ r. map end_id r.1.items ≡ r.0.rings) }
    ensures cores { IfOk result (λ r. AreEndsFor kind cores.now r.1.items) }
    ensures unused { IfOk result (λ r. AllByRecursion IsUnused r.1.items) }
{
    match kind {
        MailKind::Ring => {
            let (rings, ends) = RingMail::new(alloc, cores, cap)?;
            let locked = LockedMail::new(alloc, &[], cap)?;
            Ok((RunMail { locked, rings }, ends))
        }
        MailKind::Locked => {
            let locked = LockedMail::new(alloc, cores, cap)?;
            let rings = RingMail::none(alloc);
            Ok((RunMail { locked, rings }, Vec::new(alloc)))
        }
    }
}

// What the cores share, and each core's seats there.
fn seat(alloc: Global, config: &Config) -> Result<Seated, AllocError>
    ensures { IfOk result (IsSeated config.now) }
{
    let plan = config.plan();
    let (board, at_board) = Board::new(alloc, List::from_vec(ids_of(alloc, plan)?), plan.master)?;
    let (bank, at_spins) = SpinBank::new(alloc, List::from_vec(ids_of(alloc, plan)?))?;
    let seats = pair(alloc, at_board, at_spins)?;
    Ok(Seated { board, bank, seats })
}

// What a run of this configuration by mail of this kind needs before its threads start.
fn prepare(alloc: Global, config: &Config, kind: MailKind) -> Result<Prepared, AllocError>
    ensures { IfOk result (IsPrepared config.now kind) }
{
    let plan = config.plan();
    let cores = ids_of(alloc, plan)?;
    let (mail, ends) = mail_of(alloc, kind, cores.as_slice(), usize::from(plan.cap))?;
    let Seated { board, bank, seats } = seat(alloc, config)?;
    let outfits = equip(alloc, seats, ends)?;
    let room = Room::new(alloc, outfits.len())?;
    Ok(Prepared {
        cores,
        board,
        bank,
        mail,
        outfits,
        room,
    })
}

/// Runs a worker for each configured core, each on a thread of its own, and returns their reports, one for each core in
/// ascending order. Each is the report of its own items. The items fit one another, the listed stimuli and what the
/// cores share. Each separate core prints what its configuration alone prints. A core that no core starts has a worker
/// too, whose turns change nothing. After `turns` turns in a row that change nothing, a worker stops; its core has not
/// ended then. Each other report is of a core that has ended.
pub fn run_threads<R: Threads + Wait + Sync, G: Gate + Sync>(
    rt: &R,
    alloc: Global,
    config: &Config,
    stimuli: &Stimuli,
    kind: MailKind,
    gate: &G,
    turns: u64,
) -> Result<Vec<Report>, ThreadFault>
    requires { AreKnown config.now stimuli.now }
    ensures sound { IfOk result (λ reports. AreSound config.now stimuli.now reports.items) }
    ensures finished { IfOk result (λ reports. AreFinished config.now stimuli.now turns reports.items) }
    ensures fault { IfErr result (λ f. IsThreadFault config.now stimuli.now f.reason f.reports.items) }
{
    let Ok(prepared) = prepare(alloc, config, kind) else {
        return Err(ThreadFault {
            reason: ThreadReason::NotBegun,
            reports: Vec::new(alloc),
        });
    };
    let told = AtomicBool::new(false);
    let wakers = Wakers::new();
    let Prepared {
        cores,
        board,
        bank,
        mut mail,
        outfits,
        room: Room {
            endings,
            returned,
            clocks,
        },
    } = prepared;
    let run = Run {
        config,
        stimuli: stimuli.as_slice(),
        cores: cores.as_slice(),
        board: &board,
        bank: &bank,
        clocks: &clocks,
        wakers: &wakers,
        told: &told,
        turns,
    };
    let joined = run_all(rt, alloc, &run, outfits, &mail.locked, gate, endings);
    let is_whole = is_whole(kind, &mut mail.locked, &joined);
    let broken = reason_in(&joined);
    let Returned {
        board: at_board,
        spins: at_spins,
        ends,
        reports,
    } = part(joined.endings, returned);
    if !is_whole {
        return Err(ThreadFault {
            reason: ThreadReason::MailBreak,
            reports,
        });
    }
    board.gather(at_board);
    bank.gather(at_spins);
    mail.rings.gather(ends);
    match broken {
        None => Ok(reports),
        Some(reason) => Err(ThreadFault { reason, reports }),
    }
}

// Whether every letter that was taken became an item. For mailboxes under locks, also whether every letter that was
// sent was taken in its turn or is left. Rings need no such test.
#[tactic(auto, using(crate::proofs::Gathering::all_kept))]
fn is_whole(kind: MailKind, mail: &mut LockedMail<MAILBOX>, joined: &Joined) -> bool
    ensures kept { IsTrue result → AreAllKept joined.now.endings.items }
    ensures settled { IsTrue result → kind ≡ Locked → AreSettled joined.now.endings.items }
{
    let endings = joined.endings.as_slice();
    are_kept(endings) && is_delivered(kind, mail, endings)
}

// Why a run whose mail is whole failed; `None` if it did not fail.
#[tactic(auto, using(crate::proofs::Gathering::all_finished))]
fn reason_in(joined: &Joined) -> Option<ThreadReason>
    ensures none { IfNone result (AreAllKept joined.now.endings.items → AreAllFinished joined.now.endings.items) }
    ensures some { IfSome result (λ reason. (reason ≡ NoThread) ⊎ (reason ≡ NoMemory)) }
{
    if !joined.complete {
        return Some(ThreadReason::NoThread);
    }
    if was_stopped(joined.endings.as_slice()) {
        return Some(ThreadReason::NoMemory);
    }
    None
}

// Whether some worker stopped since an allocation failed, or on request.
fn was_stopped(endings: &[Ending]) -> bool
    ensures { result ≡ list_any (λ (e : EndingValue). was_stopped_by e.stop) endings.now }
{
    endings.iter().any(|ending| matches!(ending.stop, Stop::NoMemory | Stop::Told))
}

// Whether each envelope that was taken became an item.
fn are_kept(endings: &[Ending]) -> bool
    ensures { result ≡ list_all (λ (e : EndingValue). is_kept_by e.stop) endings.now }
{
    endings
        .iter()
        .all(|ending| !matches!(ending.stop, Stop::Refused(_, _)))
}

// For mailboxes under locks, whether what was taken and what is left is what was sent. Rings need no such comparison.
#[tactic(auto, using(crate::proofs::Outfits::not_locked))]
fn is_delivered(kind: MailKind, mail: &mut LockedMail<MAILBOX>, endings: &[Ending]) -> bool
    ensures { IsTrue result → kind ≡ Locked → AreSettled endings.now }
{
    match kind {
        MailKind::Ring => true,
        MailKind::Locked => all_settle(mail, endings),
    }
}

// Whether, for each sender and each receiver, what was taken and then what is left is what was sent.
fn all_settle(mail: &mut LockedMail<MAILBOX>, endings: &[Ending]) -> bool
    ensures { IsTrue result → AreSettled endings.now }
{
    for sender in endings {
        if !settles_with(mail, sender, endings) {
            return false;
        }
    }
    true
}

// Whether, for this sender and each receiver, what was taken and then what is left is what was sent.
fn settles_with(mail: &mut LockedMail<MAILBOX>, sender: &Ending, receivers: &[Ending]) -> bool
    ensures { IsTrue result → AllByRecursion (IsSettled sender.now) receivers.now }
{
    for receiver in receivers {
        if !settles_one(mail, sender, receiver) {
            return false;
        }
    }
    true
}

// Whether, for this sender and this receiver, what was taken and then what is left is what was sent.
#[tactic(auto, using(crate::proofs::Outfits::settled_by))]
fn settles_one(mail: &mut LockedMail<MAILBOX>, sender: &Ending, receiver: &Ending) -> bool
    ensures { IsTrue result → IsSettled sender.now receiver.now }
{
    let (Some(sent), Some(taken)) = (sender.kept.steps(), receiver.kept.steps()) else {
        return false;
    };
    let (from, to) = (sender.report.core, receiver.report.core);
    let Some(left) = mail.left(from, to) else {
        return false;
    };
    left.settles(from, sent, to, taken)
}

// Splits the endings into the seats, the ends of the rings and the reports, in vectors that have room for them.
#[tactic(auto, using(crate::proofs::Outfits::kept_more))]
fn part(endings: Vec<Ending>, returned: Returned) -> Returned
    requires { HasRoomFor (vec_len endings) returned }
    ensures { AreParts endings.items result }
{
    let Returned {
        mut board,
        mut spins,
        mut ends,
        mut reports,
    } = returned;
    for ending in endings {
        let Ending {
            report,
            seats,
            kept,
            stop: _,
        } = ending;
        board.push_reserved(seats.board);
        spins.push_reserved(seats.spins);
        kept.put_end(&mut ends);
        reports.push_reserved(report);
    }
    Returned {
        board,
        spins,
        ends,
        reports,
    }
}
