ghost use Rattle.std.specs.Prelude.{◌≡◌, ◌<◌, ◌+◌, ◌≤◌, ℕ, [], All, IfOk, map, slice_index_or, vec_capacity, vec_len};
ghost use Rattle.osshared.specs.{Histories.Thinned, Runs.IsOneRun, Runs.IsRunOf, Seats.AllApart};
ghost use Rattle.osbase.specs.declared.limits.TheConstants.{CORES};
ghost use Rattle.osboard.specs.Boards.{IsLook, one_board};

use osbase::{CORES, CoreId, CoreMode, List, ModeId, Status};
use osboard::{Board, BoardCall, BoardList, BoardReply, BoardSeat, BoardView};
use osshared::Entry;
use std::alloc::{AllocError, Global};
use std::process::Abort;
use std::test::Fail;
use std::thread;
use std::thread::Threads;

type BoardEntry = Entry<BoardCall, BoardReply>;

// What a worker did: its calls except the looks, and whether each look showed what the worker had done.
#[derive(Drop)]
struct Work {
    log: Vec<BoardEntry>,
    shown: bool,
}

// What a worker hands back.
#[derive(Drop)]
struct Run {
    seat: BoardSeat,
    work: Work,
}

fn entry(core: CoreId, call: BoardCall, reply: BoardReply) -> BoardEntry
    ensures { result ≡ record { core = core; call = call; reply = reply } }
{
    Entry { core, call, reply }
}

// Whether the view shows that the core has entered, and mode 7.
fn has_entered(view: &BoardView, core: CoreId) -> bool {
    view.entered.contains(core) && view.modes.members[7]
}

// Whether a look from the seat shows that its core has entered, and mode 7.
fn is_shown(board: &Board, seat: &mut BoardSeat) -> bool
    requires { seat.old.place ≡ board.now }
    ensures place { seat.new.place ≡ seat.old.place }
    ensures core { seat.new.core ≡ seat.old.core }
    ensures log { (log : _) → Thinned IsLook seat.old.mine log → Thinned IsLook seat.new.mine log }
{
    let view = board.look(seat);
    has_entered(&view, seat.core())
}

// Whether each of a thousand looks from the seat shows that its core has entered, and mode 7.
fn is_shown_often(board: &Board, seat: &mut BoardSeat) -> bool
    requires { seat.old.place ≡ board.now }
    ensures place { seat.new.place ≡ seat.old.place }
    ensures core { seat.new.core ≡ seat.old.core }
    ensures log { (log : _) → Thinned IsLook seat.old.mine log → Thinned IsLook seat.new.mine log }
{
    let mut shown = true;
    for _ in 0..1000 {
        let now = is_shown(board, seat);
        shown = shown && now;
    }
    shown
}

// Makes no call if the seat's core number is not below `CORES`, or if there is no memory for the log. Else starts core
// 1, enters in mode 7, looks often, is ready, drains and asks for a shutdown; then looks who has drained, and at the
// halt.
fn take_part(board: &Board, alloc: Global, seat: BoardSeat) -> Run
    requires place { seat.place ≡ board.now }
    requires fresh { seat.mine ≡ [] }
    ensures place { result.seat.place ≡ board.now }
    ensures core { result.seat.core ≡ seat.core }
    ensures log { Thinned IsLook result.seat.mine result.work.log.items }
{
    let core = seat.core();
    let mode = CoreMode::Named(ModeId { index: 7 });
    let one = CoreId { number: 1 };
    let work = Work {
        log: Vec::new(alloc),
        shown: false,
    };
    let mut run = Run { seat, work };
    if usize::from(core.number) >= CORES || run.work.log.reserve(5).is_err() {
        return run;
    }
    let started = board.start(&mut run.seat, one);
    run.work.log.push_reserved(entry(core, BoardCall::Start(one), BoardReply::Started(started)));
    board.enter(&mut run.seat, mode);
    run.work.log.push_reserved(entry(core, BoardCall::Enter(mode), BoardReply::Acknowledged));
    run.work.shown = is_shown_often(board, &mut run.seat);
    board.ready(&mut run.seat);
    run.work.log.push_reserved(entry(core, BoardCall::MakeReady, BoardReply::Acknowledged));
    board.drain(&mut run.seat);
    run.work
        .log
        .push_reserved(entry(core, BoardCall::Drain, BoardReply::Acknowledged));
    let status = Status::EOsState;
    let decided = board.ask_halt(&mut run.seat, status);
    run.work.log.push_reserved(entry(
        core,
        BoardCall::AskHalt(status),
        BoardReply::Decided(decided),
    ));
    let drained = board.look_drained(&mut run.seat);
    let halt = board.look_halt(&mut run.seat);
    let has_drained = drained.contains(core);
    let is_halting = halt == Some(decided);
    run.work.shown = run.work.shown && has_drained && is_halting;
    run
}

// Takes part from each seat, on a thread of its own.
fn share<R: Threads + Sync>(
    rt: &R,
    board: &Board,
    alloc: Global,
    seats: Vec<BoardSeat>,
) -> Result<Vec<Run>, AllocError>
    requires { All (λ s. (s.place ≡ board.now) × (s.mine ≡ [])) seats.items }
    ensures len { IfOk result (λ runs. vec_len runs ≡ vec_len seats) }
    ensures each { IfOk result (λ runs. (i : ℕ) (d e : _) → i < vec_len seats → IsRunOf IsLook board.now (slice_index_or seats.items i e) (slice_index_or runs.items i d).seat (slice_index_or runs.items i d).work.log.items) }
{
    thread::map_vec(rt, seats, &|seat| take_part(board, alloc, seat))
}

// The seats of the runs, and what was done from them.
fn part(alloc: Global, runs: Vec<Run>) -> Result<(Vec<BoardSeat>, Vec<Work>), AllocError>
    ensures seats { IfOk result (λ r. r.0.items ≡ map (λ run. run.seat) runs.items) }
    ensures works { IfOk result (λ r. r.1.items ≡ map (λ run. run.work) runs.items) }
{
    let mut seats = Vec::new(alloc);
    let mut works = Vec::new(alloc);
    for run in runs {
        let Run { seat, work } = run;
        seats.push(seat)?;
        works.push(work)?;
    }
    Ok((seats, works))
}

// Runs a worker for each core on a thread of its own. Returns what each worker did. There is a legal history that has
// the calls of all logs, and no other calls.
fn run_all<R: Threads + Sync>(
    rt: &R,
    alloc: Global,
    cores: List<CoreId>,
    master: CoreId,
) -> Result<Vec<Work>, AllocError>
    requires cores { AllApart cores }
    requires master { master.number < CORES }
    ensures { IfOk result (λ works. IsOneRun one_board (record { cores = cores; about = master }) (map (λ work. work.log.items) works.items)) }
{
    let (board, seats) = Board::new(alloc, cores, master)?;
    let runs = share(rt, &board, alloc, seats)?;
    let (seats, works) = part(alloc, runs)?;
    board.gather(seats);
    Ok(works)
}

// Whether the worker's log has the reply.
fn has_reply(work: &Work, reply: BoardReply) -> bool {
    work.log.iter().any(|entry| entry.reply == reply)
}

// The reply to the worker's last call: who decided the shutdown, and with which status.
fn decided(work: &Work) -> Option<BoardReply> {
    match work.log.as_slice().last() {
        Some(entry) => Some(entry.reply),
        None => None,
    }
}

// Checks that each of the four workers made its five calls and was shown what it did, that all know of the same
// shutdown, and that exactly one of them started core 1.
fn agree(rt: &impl Abort, works: &[Work]) {
    assert!(rt; works.len() == 4);
    let Some(first) = works.first() else {
        panic!(rt; "a log for each core")
    };
    let mut started = 0usize;
    for work in works {
        assert!(rt; work.shown && work.log.len() == 5);
        assert!(rt; decided(work) == decided(first));
        if has_reply(work, BoardReply::Started(Status::EOk)) {
            started = started.wrapping_add(1);
        }
    }
    assert!(rt; started == 1);
}

#[test]
fn four_threads_share_a_board(rt: HostRuntime) -> Result<(), Fail> {
    let mut cores = List::new(rt.alloc());
    cores.push(CoreId { number: 0 })?;
    cores.push(CoreId { number: 1 })?;
    cores.push(CoreId { number: 5 })?;
    cores.push(CoreId { number: 15 })?;
    let works = run_all(&rt, rt.alloc(), cores, CoreId { number: 5 })?;
    agree(&rt, works.as_slice());
    Ok(())
}

#[test]
fn the_listed_board_shows_what_each_call_did(rt: HostRuntime) -> Result<(), Fail> {
    let (two, five) = (CoreId { number: 2 }, CoreId { number: 5 });
    let mut board = BoardList::new(two);
    assert!(rt; board.start(two, two) == Status::EOsState && board.start(two, five) == Status::EOk);
    board.enter(five, CoreMode::DontCare);
    board.ready(five);
    assert!(rt; !board.look_drained().contains(five));
    board.drain(five);
    let view = board.look();
    assert!(rt; view.started.contains(five) && view.entered.contains(five));
    assert!(rt; view.ready.contains(five) && !view.modes.members[0]);
    let drained = board.look_drained();
    assert!(rt; drained.contains(five) && !drained.contains(two));
    assert!(rt; board.look_halt().is_none());
    assert!(rt; board.ask_halt(five, Status::EOsLimit) == (five, Status::EOsLimit));
    assert!(rt; board.ask_halt(two, Status::EOk) == (five, Status::EOsLimit));
    Ok(())
}
