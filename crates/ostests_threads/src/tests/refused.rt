//! A worker whose core receives an envelope that it cannot take: the worker stops, and hands the letter out beside its
//! core's report. Core 0 works here. The test makes core 1's calls of the board, and sends from core 1's end of the
//! mail.

ghost use Rattle.std.specs.Prelude.{◌≡◌, ◌<◌, ◌∷◌, [], IfOk, vec_len, vec_capacity};
ghost use Rattle.osbase.specs.declared.references.CoreId.{CoreId as CoreIdValue};
ghost use Rattle.osshared.specs.Seats.{fresh};
ghost use Rattle.osmail.specs.Ends.{sent_to, taken_from};
ghost use Rattle.osworker.specs.Seats.{first_seats, shared};

use osbase::{
    Agreement, CORES, CoreId, CoreMode, CoreSet, Envelope, Item, Letter, List, MAILBOX, Message,
    ModeId, Report, Status,
};
use osboard::{Board, BoardSeat};
use osconf::read_config;
use osmail::{LockedMail, Mail, MailStep, RingEnd, RingMail};
use osrun::ids_of;
use osspin::{Clocks, SpinBank, SpinSeat};
use osthreads::{Gate, Run, Seats, Stop, Wakers, Worked, core_worker};
use std::alloc::{AllocError, Global};
use std::process::Abort;
use std::sync::Wait;
use std::sync::atomic::AtomicBool;
use std::test::Fail;

/// Core 0 starts core 1.
const TWO_CORES: &str = r#"{"cores":[{"id":0,"start":[1]},{"id":1}]}"#;

const CORE_0: CoreId = CoreId { number: 0 };

const CORE_1: CoreId = CoreId { number: 1 };

const MODE: ModeId = ModeId { index: 0 };

/// A reply, though core 0 made no request.
const REPLY: Letter = Letter {
    number: 0,
    message: Message::Reply(Status::EOk),
};

const ENVELOPE: Envelope = Envelope {
    letter: REPLY,
    clock: 0,
};

// Lets the worker go on.
#[derive(Drop)]
struct Open;

impl Gate for Open {
    fn starts(&self, _core: CoreId) -> bool {
        true
    }

    fn before(&self, _core: CoreId) {}

    fn idle(&self, _core: CoreId) {}
}

// An end of mail without a mailbox: it hands over one envelope from core 1, and sends none.
#[derive(Drop)]
struct Forged {
    envelope: Option<Envelope>,
    steps: Vec<MailStep>,
}

impl Mail for Forged {
    ghost sent = { λ end. sent_to end.steps.items };

    ghost taken = { λ end. taken_from end.steps.items };

    ghost has_room = { λ end. vec_len end.steps < vec_capacity end.steps };

    ghost Which = { Unit {0} };

    ghost which = { λ _. tt };

    fn room(&mut self) -> Result<(), AllocError> {
        self.steps.reserve(1)
    }

    fn send(&mut self, _to: CoreId, envelope: Envelope) -> Result<(), Envelope> {
        Err(envelope)
    }

    #[tactic(auto, using(osmail::proofs::Steps::taken_after_taken, osmail::proofs::Steps::sent_after_taken))]
    fn take(&mut self, from: CoreId) -> Option<Envelope> {
        if from.number != CORE_1.number {
            return None;
        }
        let envelope = self.envelope.take()?;
        self.steps
            .push_reserved(MailStep::Taken(from, envelope.letter));
        Some(envelope)
    }
}

// The board of both cores, with core 1's seat behind core 0's.
fn at_board(alloc: Global) -> Result<(Board, Vec<BoardSeat>), AllocError>
    ensures { IfOk result (λ r. r.1.items ≡ fresh r.0 (record { number = 0 }) ∷ fresh r.0 (record { number = 1 }) ∷ []) }
{
    let mut cores = List::new(alloc);
    cores.push(CORE_0)?;
    cores.push(CORE_1)?;
    Board::new(alloc, cores, CORE_0)
}

// The spinlocks, with core 0's seat.
fn at_spinlocks(alloc: Global) -> Result<(SpinBank, Vec<SpinSeat>), AllocError>
    ensures { IfOk result (λ r. r.1.items ≡ fresh r.0 (record { number = 0 }) ∷ []) }
{
    let mut cores = List::new(alloc);
    cores.push(CORE_0)?;
    SpinBank::new(alloc, cores)
}

// Core 0's seats, once core 1 has entered and is ready.
fn seats_of(
    rt: &impl Abort,
    board: &Board,
    bank: &SpinBank,
    mut at_board: Vec<BoardSeat>,
    mut at_spinlocks: Vec<SpinSeat>,
) -> Seats
    requires board { at_board.items ≡ fresh board.now (record { number = 0 }) ∷ fresh board.now (record { number = 1 }) ∷ [] }
    requires spinlocks { at_spinlocks.items ≡ fresh bank.now (record { number = 0 }) ∷ [] }
    ensures { result ≡ first_seats (shared board.now bank.now) (record { number = 0 }) }
{
    let (Some(mut other), Some(own)) = (at_board.pop(), at_board.pop()) else {
        panic!(rt; "two seats")
    };
    board.enter(&mut other, CoreMode::Named(MODE));
    board.ready(&mut other);
    let Some(spins) = at_spinlocks.pop() else {
        panic!(rt; "a seat")
    };
    Seats { board: own, spins }
}

// What core 0's worker hands back, with this end of the mail.
fn work<R: Wait + Abort, M: Mail>(rt: &R, alloc: Global, mail: M) -> Worked<M>
    requires { (core : CoreIdValue) → (M.sent mail core ≡ []) × (M.taken mail core ≡ []) }
{
    let Ok(config) = read_config(alloc, TWO_CORES) else {
        panic!(rt; "a configuration")
    };
    if config.plan().core(CORE_0).is_none() {
        panic!(rt; "core 0")
    }
    let Ok(cores) = ids_of(alloc, config.plan()) else {
        panic!(rt; "the cores")
    };
    let (Ok((board, at_board)), Ok((bank, at_spinlocks))) = (at_board(alloc), at_spinlocks(alloc))
    else {
        panic!(rt; "what the cores share")
    };
    let seats = seats_of(rt, &board, &bank, at_board, at_spinlocks);
    let Ok(clocks) = Clocks::new(alloc) else {
        panic!(rt; "clocks")
    };
    let run = Run {
        config: &config,
        stimuli: &[],
        cores: cores.as_slice(),
        board: &board,
        bank: &bank,
        clocks: &clocks,
        wakers: &Wakers::new(),
        told: &AtomicBool::new(false),
        turns: 1000,
    };
    core_worker(rt, alloc, &run, seats, mail, &Open)
}

// Checks that the worker stopped at the refused letter, and that its core started, took nothing from core 1 and did not
// end.
fn judge(rt: &impl Abort, report: &Report, stop: Stop) {
    let Stop::Refused(from, letter) = stop else {
        panic!(rt; "a refusal")
    };
    assert_eq!(rt; from, CORE_1);
    assert_eq!(rt; letter, REPLY);
    let mut members = [false; CORES];
    members[0] = true;
    members[1] = true;
    let items = [
        Item::Began {
            core: CORE_1,
            status: Status::EOk,
        },
        Item::Entered,
        Item::Pass1(Agreement::Mode(MODE)),
        Item::Readied,
        Item::Pass2(CoreSet { members }),
    ];
    assert_eq!(rt; report.items.as_slice(), items.as_slice());
    assert!(rt; !report.ended);
}

// Whether an end with these steps took the reply from core 1, and did nothing else.
fn has_taken(steps: &[MailStep]) -> bool {
    match steps {
        [MailStep::Taken(from, letter)] => *from == CORE_1 && *letter == REPLY,
        _ => false,
    }
}

// Core 1 sends the envelope to core 0.
fn post(
    rt: &(impl Abort + Wait),
    alloc: Global,
    mail: &LockedMail<MAILBOX>,
) -> Result<(), AllocError> {
    let mut other = mail.end(rt, alloc, CORE_1);
    other.room()?;
    assert_eq!(rt; other.send(CORE_0, ENVELOPE), Ok(()));
    Ok(())
}

#[test]
fn a_reply_that_nobody_awaits_stops_a_worker(rt: HostRuntime) -> Result<(), Fail> {
    let alloc = rt.alloc();
    let mail: LockedMail<MAILBOX> = LockedMail::new(alloc, &[CORE_0, CORE_1], 1)?;
    post(&rt, alloc, &mail)?;
    let worked = work(&rt, alloc, mail.end(&rt, alloc, CORE_0));
    judge(&rt, &worked.report, worked.stop);
    assert!(rt; has_taken(worked.mail.into_steps().as_slice()));
    Ok(())
}

#[test]
fn a_reply_by_a_ring_that_nobody_awaits_stops_a_worker(rt: HostRuntime) -> Result<(), Fail> {
    let alloc = rt.alloc();
    let made: (RingMail<MAILBOX>, Vec<RingEnd>) = RingMail::new(alloc, &[CORE_0, CORE_1], 1)?;
    let (_mail, mut ends) = made;
    let (Some(mut other), Some(own)) = (ends.pop(), ends.pop()) else {
        panic!(rt; "two ends")
    };
    assert_eq!(rt; other.send(CORE_0, ENVELOPE), Ok(()));
    let mut worked = work(&rt, alloc, own);
    judge(&rt, &worked.report, worked.stop);
    assert_eq!(rt; worked.mail.take(CORE_1), None);
    Ok(())
}

#[test]
fn a_worker_stops_whatever_end_of_mail_it_has(rt: HostRuntime) -> Result<(), Fail> {
    let mail = Forged {
        envelope: Some(ENVELOPE),
        steps: Vec::new(rt.alloc()),
    };
    let worked = work(&rt, rt.alloc(), mail);
    judge(&rt, &worked.report, worked.stop);
    assert!(rt; has_taken(worked.mail.steps.as_slice()));
    Ok(())
}
