//! What follows from an item.

ghost use Rattle.std.specs.Prelude.{◌≡◌, ◌+◌, ◌<◌, ◌≤◌, [], IsTrue, Some, false, length};
ghost use Rattle.osbase.specs.{declared.limits.TheConstants.CORES, History.Took, Phases.is_before_live, Phases.is_past_first_gate};
ghost use Rattle.osplan.specs.{Clocked.are_clocks_within, Objects.most_posts_per_tick, Objects.outbox_needed, Stimuli.knows_stimulus};
ghost use Rattle.osjobs.specs.Jobs.{is_plain};
ghost use Rattle.osprogress.specs.Border.{is_sender_known};
ghost use Rattle.osstate.specs.Does.{HasRoom, item_entries, item_marks, service_entries, service_marks};
ghost use Rattle.osstate.specs.{Steps.state_after, Readings.is_served};
ghost use Rattle.osservice.specs.Terms.{MayBegin, MayPost, MayServe};
ghost use Rattle.osacts.specs.{Acts.look, Acts.prints, Steps.Steps};
ghost use Rattle.osadmit.specs.Admission.{admits};
ghost use Rattle.oskernel.specs.Bounded.{step_entries};
ghost use Rattle.oskernel.specs.Step.{calls_shutdown_hook, closes, effect, ends_core, gate_mark, next_operation, receives, service_awaiting, stimulates, success_value};
ghost use Rattle.oskernel.specs.Taking.{is_acting, may_fill_outbox, is_for_core, is_stimulus, is_known, is_request, is_second_gate};

use crate::interrupts::raise;
use crate::starting::start;
use osbase::{
    Agreement, Awaited, CoreId, Item, Mark, Message, RemoteCall, Runner, ServiceId, Status,
    Stimulus,
};
use oscript::Action;
use osservice::{ServiceResult, Step};
use osstate::CoreState;
use ostick::tick;

/// Takes an item that may be taken, and does what follows from it.
pub(crate) fn take<const P: usize, const J: usize, const OUT: usize>(
    state: &mut CoreState<'_, P, J, OUT>,
    item: &Item,
    marks: &mut Vec<Mark>,
)
    requires admitted { IsTrue (admits OUT state.old item.now) }
    requires outbox { outbox_needed state.old.view.own ≤ OUT }
    requires room { HasRoom step_entries item_marks state.old marks.old }
    ensures steps { Steps item_entries item_marks (effect item.now) (state_after (Took item.now) state.old) state.new marks.old marks.new }
    ensures within { IsTrue (are_clocks_within state.old.view.own) }
{
    state.take_item(item);
    follow(state, item, marks);
}

// What follows from an item that was taken.
#[inline(always)]
fn follow<const P: usize, const J: usize, const OUT: usize>(
    state: &mut CoreState<'_, P, J, OUT>,
    item: &Item,
    marks: &mut Vec<Mark>,
)
    requires known { IsTrue (is_known state.old item.now) }
    requires sender { IsTrue (is_sender_known item.now) }
    requires live { IsTrue (is_acting item.now) → is_before_live state.old.progress.phase ≡ false }
    requires past { IsTrue (is_second_gate item.now) → IsTrue (is_past_first_gate state.old.progress.phase) }
    requires fresh { IsTrue (is_second_gate item.now) → state.old.tasks.jobs ≡ [] }
    requires outbox { IsTrue (may_fill_outbox item.now) → length state.old.border.outbox < OUT }
    requires empty { IsTrue (is_stimulus item.now) → state.old.border.outbox ≡ [] }
    requires places { outbox_needed state.old.view.own ≤ OUT }
    requires room { HasRoom item_entries item_marks state.old marks.old }
    ensures { Steps item_entries item_marks (effect item.now) state.old state.new marks.old marks.new }
{
    match item {
        Item::Began { core, status } => {
            let mark = Mark::StartCoreReturned {
                core: *core,
                status: *status,
            };
            state.print(mark, marks);
        }
        Item::Pass1(agreement) => state.print(first_gate_mark(*agreement), marks),
        Item::Pass2(_) => start(state, marks),
        Item::Stim(stimulus) => stimulate(state, *stimulus, marks),
        Item::Received {
            from,
            number: _,
            message,
        } => receive(state, *from, message, marks),
        Item::On | Item::Entered | Item::Readied => {}
        Item::Posted(_) | Item::Drained | Item::PassEnd => {}
        Item::Granted(_) => close(state, Status::EOk, None, marks),
        Item::Tried { spinlock: _, taken } => {
            close(state, Status::EOk, Some(success_value(*taken)), marks)
        }
        Item::Freed(_) => close(state, Status::EOk, None, marks),
        Item::Halt { core, status } => print_halt(state, *core, *status, marks),
        Item::Last(shutdown) => end(state, *shutdown, marks),
    }
}

// The value that TryToGetSpinlock gives: 1 if it took the spinlock, else 0 (AUTOSAR SWS OS 4.x, TryToGetSpinlockType).
fn success_value(taken: bool) -> i64
    ensures { result ≡ success_value taken }
{
    if taken { 1 } else { 0 }
}

// Prints that this core is halted by the request of `core`, with this status.
fn print_halt<const P: usize, const J: usize, const OUT: usize>(
    state: &mut CoreState<'_, P, J, OUT>,
    core: CoreId,
    status: Status,
    marks: &mut Vec<Mark>,
)
    requires { HasRoom 1 1 state.old marks.old }
    ensures { Steps 1 1 (prints (Mark.Halted core status)) state.old state.new marks.old marks.new }
{
    let mark = Mark::Halted { core, status };
    state.print(mark, marks);
}

// The end of a core: if a shutdown of all cores was requested, ShutdownHook is called with its status.
fn end<const P: usize, const J: usize, const OUT: usize>(
    state: &mut CoreState<'_, P, J, OUT>,
    shutdown: Option<(CoreId, Status)>,
    marks: &mut Vec<Mark>,
)
    requires { HasRoom 1 1 state.old marks.old }
    ensures { Steps 1 1 (ends_core shutdown) state.old state.new marks.old marks.new }
{
    if let Some((_, status)) = shutdown {
        call_shutdown_hook(state, status, marks);
    }
}

// ShutdownHook is called, unless the core is down: then it was called already.
fn call_shutdown_hook<const P: usize, const J: usize, const OUT: usize>(
    state: &mut CoreState<'_, P, J, OUT>,
    status: Status,
    marks: &mut Vec<Mark>,
)
    requires { HasRoom 1 1 state.old marks.old }
    ensures { Steps 1 1 (calls_shutdown_hook status) state.old state.new marks.old marks.new }
{
    if !state.course().is_down() {
        state.print(Mark::ShutdownHook(status), marks);
    }
}

// What a core prints at the first gate: StartupHook, or that the modes conflict.
fn first_gate_mark(agreement: Agreement) -> Mark
    ensures value { result ≡ gate_mark agreement }
    ensures plain { IsTrue (is_plain result) }
{
    match agreement {
        Agreement::Conflict => Mark::ModesConflict,
        Agreement::Mode(_) => Mark::StartupHook,
        Agreement::NoMode => Mark::StartupHook,
    }
}

// Does what a stimulus asks for: one operation of the running job or its end, a tick, or an interrupt.
#[inline(always)]
fn stimulate<const P: usize, const J: usize, const OUT: usize>(
    state: &mut CoreState<'_, P, J, OUT>,
    stimulus: Stimulus,
    marks: &mut Vec<Mark>,
)
    requires known { IsTrue (knows_stimulus state.old.view.own stimulus) }
    requires posts { MayPost (1 + most_posts_per_tick state.old.view.own) OUT service_entries service_marks state.old marks.old }
    ensures { Steps service_entries service_marks (stimulates stimulus) state.old state.new marks.old marks.new }
{
    match stimulus {
        Stimulus::Op => do_next_operation(state, marks),
        Stimulus::Tick => tick(state, marks),
        Stimulus::Irq(isr) => raise(state, isr, marks),
    }
}

// Does the next operation of the running job, or ends the job. If no job runs, does nothing.
fn do_next_operation<const P: usize, const J: usize, const OUT: usize>(
    state: &mut CoreState<'_, P, J, OUT>,
    marks: &mut Vec<Mark>,
)
    requires { MayPost (1 + most_posts_per_tick state.old.view.own) OUT service_entries service_marks state.old marks.old }
    ensures { Steps service_entries service_marks (look (λ s. next_operation s.running)) state.old state.new marks.old marks.new }
{
    if let Some(job) = state.running_job() {
        do_next_action(state, job.runner, marks);
    }
}

// Does the next operation of the runner's job, or ends the job at the end of its script.
fn do_next_action<const P: usize, const J: usize, const OUT: usize>(
    state: &mut CoreState<'_, P, J, OUT>,
    runner: Runner,
    marks: &mut Vec<Mark>,
)
    requires { MayServe (1 + most_posts_per_tick state.old.view.own) OUT state.old runner marks.old }
    ensures { Steps service_entries service_marks (next_operation (Some runner)) state.old state.new marks.old marks.new }
{
    match state.next_action(runner) {
        Action::Perform(op) => crate::operations::operate(state, Step { runner, op }, marks),
        Action::End => osservice_tasks::end_without_terminate(state, runner, marks),
    }
}

// Serves a request or an action of another core, or gives the reply to the job whose call is open.
fn receive<const P: usize, const J: usize, const OUT: usize>(
    state: &mut CoreState<'_, P, J, OUT>,
    from: CoreId,
    message: &Message,
    marks: &mut Vec<Mark>,
)
    requires known { IsTrue (is_for_core state.old message.now) }
    requires sender { from.number < CORES }
    requires outbox { IsTrue (is_request message.now) → length state.old.border.outbox < OUT }
    requires begins { MayBegin service_entries service_marks state.old marks.old }
    ensures { Steps service_entries service_marks (receives from message.now) state.old state.new marks.old marks.new }
{
    match message {
        Message::Request(call) => serve_request(state, from, *call, marks),
        Message::Action(call) => serve_action(state, from, *call, marks),
        Message::Reply(status) => close(state, *status, None, marks),
        Message::Value(status, value) => close(state, *status, Some(*value), marks),
    }
}

// Serves a request and answers it. A core that is down or halted answers E_OS_CORE instead.
fn serve_request<const P: usize, const J: usize, const OUT: usize>(
    state: &mut CoreState<'_, P, J, OUT>,
    from: CoreId,
    call: RemoteCall,
    marks: &mut Vec<Mark>,
)
    requires served { IsTrue (is_served state.old.view call) }
    requires sender { from.number < CORES }
    requires posts { MayPost 1 OUT service_entries service_marks state.old marks.old }
    ensures { Steps service_entries service_marks (receives from (Message.Request call)) state.old state.new marks.old marks.new }
{
    if state.course().is_going() {
        oscall::serve_request(state, from, call, marks);
    } else {
        state.queue(from, Message::Reply(Status::EOsCore));
    }
}

// Serves an action. A core that is down or halted drops it.
fn serve_action<const P: usize, const J: usize, const OUT: usize>(
    state: &mut CoreState<'_, P, J, OUT>,
    from: CoreId,
    call: RemoteCall,
    marks: &mut Vec<Mark>,
)
    requires served { IsTrue (is_served state.old.view call) }
    requires begins { MayBegin service_entries service_marks state.old marks.old }
    ensures { Steps service_entries service_marks (receives from (Message.Action call)) state.old state.new marks.old marks.new }
{
    if state.course().is_going() {
        oscall::serve_action(state, from, call, marks);
    }
}

// The service of an open call, by what the call awaits; none for ShutdownAllCores, which does not return.
fn service_awaiting(awaits: Awaited) -> Option<ServiceId>
    ensures { result ≡ service_awaiting awaits }
{
    match awaits {
        Awaited::Reply { service, core: _ } => Some(service),
        Awaited::Get(_) => Some(ServiceId::GetSpinlock),
        Awaited::Try(_) => Some(ServiceId::TryToGetSpinlock),
        Awaited::Release(_) => Some(ServiceId::ReleaseSpinlock),
        Awaited::Halt(_) => None,
    }
}

// The job whose call is open gets the answer. If no call is open, as when an owed spinlock is freed, nothing happens.
fn close<const P: usize, const J: usize, const OUT: usize>(
    state: &mut CoreState<'_, P, J, OUT>,
    status: Status,
    value: Option<i64>,
    marks: &mut Vec<Mark>,
)
    requires { HasRoom service_entries service_marks state.old marks.old }
    ensures { Steps service_entries service_marks (look (λ s. closes s.awaits status value)) state.old state.new marks.old marks.new }
{
    let Some(call) = state.awaited_call() else {
        return;
    };
    if let Some(service) = service_awaiting(call.awaits) {
        let answer = ServiceResult { status, value };
        oschain::resume(state, call.runner, service, answer, marks);
    }
}
