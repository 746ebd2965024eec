//! One core's worker: turn by turn, until its core has ended or its turns change nothing any more.

ghost use Rattle.std.specs.Prelude.{◌≡◌, ◌+◌, ◌<◌, [], IsSome, IfNone, IfSome, List};
ghost use Rattle.osbase.specs.{declared.references.CoreId.CoreId as CoreIdValue, declared.turns.CoreStimuli.CoreStimuli as CoreStimuliValue};
ghost use Rattle.osplan.specs.View.{core_of};
ghost use Rattle.osrun.specs.{Fits.ids_of, CoreRuns.report_of, Requests.no_calls};
ghost use Rattle.osworker.specs.Seats.{AreAt, made_from, shared};
ghost use Rattle.osworker.specs.Rounds.{IsGoing, IsNext, IsServed, IsStopped, core_count, loads_at};
ghost use Rattle.osworker.specs.Working.{HasNoWork, IsSameWorker, IsTurn, IsWorked, MayTurn, UnlessTook};

use crate::gates::Gate;
use crate::run::Run;
use crate::seats::Seats;
use crate::stamps::Stamps;
use crate::turns::{Stop, Turned};
use crate::wakers::ROUND;
use crate::worker::{Shift, Worked, Worker};
use osbase::CoreId;
use osmail::Mail;
use osrun::CoreRun;
use std::alloc::Global;
use std::sync::Wait;
use std::sync::atomic::Ordering;

impl<'a, M: Mail> Shift<'a, M> {
    // The other core at this place of the round. The cores ascend, and the worker's own core is left out.
    fn other(&self, at: usize) -> CoreId
        requires { at + 1 < core_count self.now }
    {
        let core = self.worker.run.cores[at];
        if core.number < self.worker.core.id.number {
            core
        } else {
            self.worker.run.cores[at + 1]
        }
    }

    // Whether the core may serve, and an envelope may have come for it. At the start of a round, a core at work learns
    // this from the sender: loading one word is cheaper than looking at all mailboxes in vain. Later in the round, or
    // if its turns change nothing, the core looks itself.
    fn may_find_mail(&self) -> bool {
        let worker = &self.worker;
        worker.core.kernel.may_serve()
            && (self.at > 0
                || self.fruitless >= ROUND
                || worker.run.wakers.take_news(worker.core.id))
    }

    // Serves the next core of the round that sent an envelope. If none did, the core's own turn is next.
    fn serve(&mut self) -> Turned
        requires room { MayTurn M.has_room self.old.worker }
        requires others { self.old.at + 1 < core_count self.old }
        ensures turn { IsTurn M.sent M.taken M.which 0 result self.old.worker self.new.worker }
        ensures at { IsServed (core_count self.old) self.old.at result self.new.at }
        ensures fruitless { self.new.fruitless ≡ self.old.fruitless }
    {
        let others = self.worker.run.cores.len() - 1;
        if self.may_find_mail() {
            for at in self.at..others {
                let from = self.other(at);
                match self.worker.serve(from) {
                    Turned::Nothing => {}
                    turned => {
                        self.at = at + 1;
                        return turned;
                    }
                }
            }
        }
        self.at = others;
        Turned::Nothing
    }

    // Takes the turn at this place of the round, and moves on in the round.
    fn turn(&mut self) -> Turned
        requires { MayTurn M.has_room self.old.worker }
        ensures turn { IsTurn M.sent M.taken M.which (loads_at (core_count self.old) self.old.at) result self.old.worker self.new.worker }
        ensures stuck { self.old.at + 1 ≡ core_count self.old → UnlessTook result (HasNoWork self.old.worker) }
        ensures at { IsNext (core_count self.old) self.old.at result self.new.at }
        ensures fruitless { self.new.fruitless ≡ self.old.fruitless }
    {
        let cores = self.worker.run.cores.len();
        if self.at >= cores {
            self.at = 0;
            return self.worker.look();
        }
        if self.at + 1 == cores {
            self.at = cores;
            return self.worker.own();
        }
        self.serve()
    }

    // At the end of a round, lets the worker sleep if enough rounds in a row changed nothing.
    fn rest<R: Wait>(&self, rt: &R) {
        if self.at == 0 {
            let run = self.worker.run;
            run.wakers
                .rest(rt, self.worker.core.id, self.fruitless / ROUND);
        }
    }

    // Wakes the cores that the last item may concern.
    fn notify(&self) {
        if let Some(item) = self.worker.core.items.last() {
            let run = self.worker.run;
            run.wakers.notify(run.cores, self.worker.core.id, item);
        }
    }

    // Takes one more turn, unless the worker has to stop before. Returns why the worker stops, if it does. If an
    // allocation fails, all workers are told to stop.
    fn play_turn<R: Wait, G: Gate>(&mut self, rt: &R, gate: &G) -> Option<Stop>
        ensures none { IfNone result ((stimuli : List CoreStimuliValue) → IsGoing M.sent M.taken stimuli self.old → IsGoing M.sent M.taken stimuli self.new) }
        ensures some { IfSome result (λ stop. (stimuli : List CoreStimuliValue) → IsGoing M.sent M.taken stimuli self.old → IsStopped M.sent M.taken stimuli stop self.new) }
        ensures same { IsSameWorker M.which self.old.worker self.new.worker }
    {
        if self.worker.run.told.load(Ordering::SeqCst) {
            return Some(Stop::Told);
        }
        if self.fruitless >= self.worker.run.turns {
            return Some(Stop::Stalled);
        }
        gate.before(self.worker.core.id);
        if self.worker.make_room().is_err() {
            self.worker.run.told.store(true, Ordering::SeqCst);
            return Some(Stop::NoMemory);
        }
        match self.turn() {
            Turned::Took => {
                self.fruitless = 0;
                self.notify();
                if self.worker.core.has_ended() {
                    return Some(Stop::Ended);
                }
                None
            }
            Turned::Nothing => {
                self.fruitless += 1;
                gate.idle(self.worker.core.id);
                self.rest(rt);
                None
            }
            Turned::Refused(from, letter) => Some(Stop::Refused(from, letter)),
        }
    }

    // What the worker hands back: its core's report, with the clocks of the items, its seats, its end of the mail, and
    // why it stopped.
    fn hand_back(self, stop: Stop) -> Worked<M>
        ensures report { result.report ≡ record (report_of self.entry.worker.core) { clocks = self.entry.worker.stamps.clocks.items } }
        ensures seats { result.seats ≡ self.entry.worker.seats }
        ensures mail { result.mail ≡ self.entry.worker.mail }
        ensures stop { result.stop ≡ stop }
    {
        let Shift { worker, .. } = self;
        let Worker {
            run: _,
            mut core,
            seats,
            mail,
            stamps,
        } = worker;
        let mut report = core.report();
        report.clocks = stamps.into_clocks();
        Worked {
            report,
            seats,
            mail,
            stop,
        }
    }
}

/// The worker of one core. In rounds it serves the other cores by ascending number, does its core's own work and looks
/// at the board. It stops when its core has ended, when the allowed number of turns in a row has changed nothing, when
/// an allocation failed, when it was told to stop, or when it took an envelope that its core cannot take. A turn that
/// serves takes one envelope of the next core that sent one; if none is left, it changes nothing. A worker out of
/// memory tells the others to stop.
pub fn core_worker<'a, R: Wait, M: Mail, G: Gate>(
    rt: &R,
    alloc: Global,
    run: &'a Run<'a>,
    seats: Seats,
    mail: M,
    gate: &G,
) -> Worked<M>
    requires cores { run.now.cores.now ≡ ids_of run.now.config.now }
    requires configured { IsSome (core_of run.now.config.now seats.board.core) }
    requires placed { AreAt (shared run.now.board.now run.now.bank.now) seats.board.core seats }
    requires fresh { made_from seats ≡ no_calls }
    requires unused { (core : CoreIdValue) → (M.sent mail core ≡ []) × (M.taken mail core ≡ []) }
    ensures worked { IsWorked M.sent M.taken run.now result }
    ensures core { result.report.core ≡ seats.board.core }
    ensures seats { AreAt (shared run.now.board.now run.now.bank.now) seats.board.core result.seats }
    ensures which { M.which result.mail ≡ M.which mail }
{
    let core = CoreRun::new(alloc, run.config, seats.board.core(), run.stimuli);
    let stamps = Stamps::new(alloc, run.clocks, core.items.capacity().saturating_mul(2));
    let mut shift = Shift {
        worker: Worker {
            run,
            core,
            seats,
            mail,
            stamps,
        },
        at: 0,
        fruitless: 0,
    };
    for _ in rt.forever() {
        if let Some(stop) = shift.play_turn(rt, gate) {
            return shift.hand_back(stop);
        }
    }
    unreachable!()
}
