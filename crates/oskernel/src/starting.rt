//! What is autostarted.

ghost use Rattle.std.specs.Prelude.{◌≡◌, ◌==◌, ◌+◌, ◌<◌, ◌≤◌, ◌^◌, [], IsTrue, Some, false};
ghost use Rattle.std.specs.List.{list_any, slice_get};
ghost use Rattle.osbase.specs.Phases.{is_before_live, is_past_first_gate};
ghost use Rattle.osplan.specs.Clocked.{are_clocks_within};
ghost use Rattle.osstate.specs.{Does.HasRoom, Does.item_entries, Does.item_marks, Sound.is_agreed};
ghost use Rattle.osacts.specs.{Acts.in_turn, Acts.look, Steps.QuietSteps, Steps.Steps};
ghost use Rattle.oskernel.specs.Step.{autostarts_alarm, autostarts_table, autostarts_task, starts, starts_in};
ghost use Rattle.oskernel.specs.Taking.{agreement_on, have_places};

use osbase::{Agreement, AlarmRef, List, Mark, ModeId, TableRef, TaskRef};
use osplan::{Alarm, Table, Task};
use osstate::CoreState;

/// The second gate is passed: the tasks of the agreed mode are autostarted, then its alarms, and then its schedule
/// tables.
pub(crate) fn start<const P: usize, const J: usize, const OUT: usize>(
    state: &mut CoreState<'_, P, J, OUT>,
    marks: &mut Vec<Mark>,
)
    requires live { is_before_live state.old.progress.phase ≡ false }
    requires past { IsTrue (is_past_first_gate state.old.progress.phase) }
    requires fresh { state.old.tasks.jobs ≡ [] }
    requires room { HasRoom item_entries item_marks state.old marks.old }
    ensures { Steps item_entries item_marks (look (λ s. starts s.agreement s.core)) state.old state.new marks.old marks.new }
{
    let mode = agreed_mode(state.agreement());
    start_tasks(state, mode, marks);
    start_alarms(state, mode);
    start_tables(state, mode);
}

// The tasks that start in the mode are activated, in index order.
fn start_tasks<const P: usize, const J: usize, const OUT: usize>(
    state: &mut CoreState<'_, P, J, OUT>,
    mode: Option<ModeId>,
    marks: &mut Vec<Mark>,
)
    requires live { is_before_live state.old.progress.phase ≡ false }
    requires fresh { state.old.tasks.jobs ≡ [] }
    requires room { HasRoom 32 32 state.old marks.old }
    ensures { Steps 32 32 (in_turn (autostarts_task (Some (agreement_on mode)) state.old.view.own) state.old.view.own.tasks) state.old state.new marks.old marks.new }
{
    let tasks = state.tasks();
    let mut index: u8 = 0;
    for task in tasks {
        autostart_task(state, mode, task, index, marks);
        index += 1;
    }
}

// The task of this index is activated, if it starts in the mode.
fn autostart_task<const P: usize, const J: usize, const OUT: usize>(
    state: &mut CoreState<'_, P, J, OUT>,
    mode: Option<ModeId>,
    task: &Task,
    index: u8,
    marks: &mut Vec<Mark>,
)
    requires own { slice_get state.old.view.own.tasks index ≡ Some task.now }
    requires ready { have_places index state.old }
    requires live { is_before_live state.old.progress.phase ≡ false }
    requires room { HasRoom 1 1 state.old marks.old }
    ensures steps { Steps 1 1 (autostarts_task (Some (agreement_on mode)) state.old.view.own index task.now) state.old state.new marks.old marks.new }
    ensures ready { have_places (index + 1) state.new }
{
    let core = state.id();
    if is_started_in(mode, &task.auto) {
        state.activate(TaskRef { core, index }, marks);
    }
}

// The alarms that start in the mode are set, in index order.
fn start_alarms<const P: usize, const J: usize, const OUT: usize>(
    state: &mut CoreState<'_, P, J, OUT>,
    mode: Option<ModeId>,
)
    requires count { state.old.progress.entries + 32 ≤ 2 ^ 63 }
    ensures { QuietSteps 32 (in_turn (autostarts_alarm (Some (agreement_on mode)) state.old.view.own) state.old.view.own.alarms) state.old state.new }
{
    let alarms = state.alarms();
    let mut index: u8 = 0;
    for alarm in alarms {
        autostart_alarm(state, mode, alarm, index);
        index += 1;
    }
}

// The alarm of this index is set, if it starts in the mode.
fn autostart_alarm<const P: usize, const J: usize, const OUT: usize>(
    state: &mut CoreState<'_, P, J, OUT>,
    mode: Option<ModeId>,
    alarm: &Alarm,
    index: u8,
)
    requires own { slice_get state.old.view.own.alarms index ≡ Some alarm.now }
    requires within { IsTrue (are_clocks_within state.old.view.own) }
    requires count { state.old.progress.entries < 2 ^ 63 }
    ensures { QuietSteps 1 (autostarts_alarm (Some (agreement_on mode)) state.old.view.own index alarm.now) state.old state.new }
{
    let core = state.id();
    if let Some(start) = &alarm.auto {
        if is_started_in(mode, &start.modes) {
            state.set_alarm(AlarmRef { core, index }, start.start, start.cycle);
        }
    }
}

// The schedule tables that start in the mode are started, in index order.
fn start_tables<const P: usize, const J: usize, const OUT: usize>(
    state: &mut CoreState<'_, P, J, OUT>,
    mode: Option<ModeId>,
)
    requires count { state.old.progress.entries + 8 ≤ 2 ^ 63 }
    ensures { QuietSteps 8 (in_turn (autostarts_table (Some (agreement_on mode)) state.old.view.own) state.old.view.own.tables) state.old state.new }
{
    let tables = state.tables();
    let mut index: u8 = 0;
    for table in tables {
        autostart_table(state, mode, table, index);
        index += 1;
    }
}

// The schedule table of this index is started, if it starts in the mode.
fn autostart_table<const P: usize, const J: usize, const OUT: usize>(
    state: &mut CoreState<'_, P, J, OUT>,
    mode: Option<ModeId>,
    table: &Table,
    index: u8,
)
    requires own { slice_get state.old.view.own.tables index ≡ Some table.now }
    requires within { IsTrue (are_clocks_within state.old.view.own) }
    requires count { state.old.progress.entries < 2 ^ 63 }
    ensures { QuietSteps 1 (autostarts_table (Some (agreement_on mode)) state.old.view.own index table.now) state.old state.new }
{
    let core = state.id();
    if let Some(start) = &table.auto {
        if is_started_in(mode, &start.modes) {
            state.start_table(TableRef { core, index }, start.offset);
        }
    }
}

// The mode on which the cores agreed; none if all of them say DONOTCARE.
fn agreed_mode(agreement: Option<Agreement>) -> Option<ModeId>
    requires { IsTrue (is_agreed agreement) }
    ensures { agreement ≡ Some (agreement_on result) }
{
    match agreement {
        Some(Agreement::Mode(mode)) => Some(mode),
        Some(Agreement::NoMode) => None,
        Some(Agreement::Conflict) => unreachable!(),
        None => unreachable!(),
    }
}

// Whether the list names the mode; nothing is autostarted without a mode.
fn is_started_in(mode: Option<ModeId>, modes: &List<ModeId>) -> bool
    ensures { result ≡ starts_in (Some (agreement_on mode)) modes.now }
{
    match mode {
        Some(agreed) => is_listed(modes.as_slice(), agreed),
        None => false,
    }
}

fn is_listed(modes: &[ModeId], mode: ModeId) -> bool
    ensures { result ≡ list_any (λ named. named.index == mode.index) modes.now }
{
    modes.iter().any(|named| named.index == mode.index)
}
