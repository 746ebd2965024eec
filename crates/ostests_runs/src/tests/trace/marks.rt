//! Marks of each kind, and the lines that the trace's format has for them in the block of core 0.

use osbase::{
    AlarmRef, CoreId, IsrRef, Mark, RemoteCall, Runner, ServiceId, Status, TableRef, TaskRef,
    Variable,
};

pub const ZERO: CoreId = CoreId { number: 0 };

pub const ONE: CoreId = CoreId { number: 1 };

const TASK: TaskRef = TaskRef {
    core: ZERO,
    index: 0,
};

const BLINK: TaskRef = TaskRef {
    core: ONE,
    index: 0,
};

const ISR: IsrRef = IsrRef {
    core: ZERO,
    index: 0,
};

const ALARM: AlarmRef = AlarmRef {
    core: ZERO,
    index: 0,
};

const TABLE: TableRef = TableRef {
    core: ZERO,
    index: 0,
};

const SEVENTH: Variable = Variable { index: 7 };

/// Marks of a core's start, its hooks and its end.
pub const HOOKS: [Mark; 8] = [
    Mark::StartCoreReturned {
        core: ONE,
        status: Status::EOk,
    },
    Mark::StartCoreReturned {
        core: CoreId { number: 255 },
        status: Status::EOsId,
    },
    Mark::ModesConflict,
    Mark::StartupHook,
    Mark::ErrorHook(Status::EOsNestingDeadlock),
    Mark::ProtectionHook(Status::EOsProtectionTime),
    Mark::ShutdownHook(Status::EOk),
    Mark::Halted {
        core: ONE,
        status: Status::EOsState,
    },
];

pub const HOOK_LINES: &str = "core 0
start 1 E_OK
start 255 E_OS_ID
conflict
hook Startup
hook Error E_OS_NESTING_DEADLOCK
hook Protection E_OS_PROTECTION_TIME
hook Shutdown E_OK
halt 1 E_OS_STATE
";

/// Marks of tasks and their events.
pub const TASKS: [Mark; 9] = [
    Mark::Activated(TASK),
    Mark::Terminated(BLINK),
    Mark::PreTaskHook(TASK),
    Mark::PostTaskHook(TASK),
    Mark::EventSet {
        task: TASK,
        mask: 4294967295,
    },
    Mark::EventCleared {
        task: TASK,
        mask: 1,
    },
    Mark::EventAwaited {
        task: BLINK,
        mask: 10,
    },
    Mark::Released(TASK),
    Mark::Tick,
];

pub const TASK_LINES: &str = "core 0
act A
end Blink
pre A
post A
ev A 4294967295
clr A 1
wait Blink 10
free A
tick
";

/// Marks of ISRs, alarms and schedule tables.
pub const OBJECTS: [Mark; 8] = [
    Mark::InterruptAccepted(ISR),
    Mark::InterruptLost(ISR),
    Mark::IsrEntered(ISR),
    Mark::IsrLeft(ISR),
    Mark::AlarmExpired(ALARM),
    Mark::ExpiryPoint {
        table: TABLE,
        offset: 0,
    },
    Mark::TableStopped(TABLE),
    Mark::TableBegun(TABLE),
];

pub const OBJECT_LINES: &str = "core 0
irq I1
lost I1
enter I1
leave I1
alarm L
point S1 0
stop S1
begin S1
";

const ACTIVATE: RemoteCall = RemoteCall::ActivateTask(BLINK);

/// Marks of calls from core to core.
pub const CALLS: [Mark; 8] = [
    Mark::CallQueued {
        core: ONE,
        call: ACTIVATE,
    },
    Mark::CallQueued {
        core: ONE,
        call: RemoteCall::SetEvent {
            task: BLINK,
            mask: 3,
        },
    },
    Mark::CallQueued {
        core: ONE,
        call: RemoteCall::SetRelAlarm {
            alarm: ALARM,
            increment: 2,
            cycle: 0,
        },
    },
    Mark::CallQueued {
        core: ONE,
        call: RemoteCall::SetAbsAlarm {
            alarm: ALARM,
            start: 7,
            cycle: 9,
        },
    },
    Mark::CallQueued {
        core: ONE,
        call: RemoteCall::CancelAlarm(ALARM),
    },
    Mark::CallQueued {
        core: ONE,
        call: RemoteCall::GetAlarm {
            alarm: ALARM,
            variable: SEVENTH,
        },
    },
    Mark::CallServed {
        core: ZERO,
        status: Status::EOsLimit,
        call: ACTIVATE,
    },
    Mark::CallAnswered {
        core: ZERO,
        alarm: ALARM,
        variable: SEVENTH,
        value: 12,
    },
];

pub const CALL_LINES: &str = "core 0
out 1 ActivateTask Blink
out 1 SetEvent Blink 3
out 1 SetRelAlarm L 2 0
out 1 SetAbsAlarm L 7 9
out 1 CancelAlarm L
out 1 GetAlarm L v7
in 0 ActivateTask Blink E_OS_LIMIT
in 0 GetAlarm L v7 E_OK 12
";

const FIRST: Variable = Variable { index: 0 };

/// Marks of the results of a job's services and operations.
pub const SERVICES: [Mark; 5] = [
    Mark::ServiceReturned {
        runner: Runner::Isr(ISR),
        service: ServiceId::ActivateTask,
        status: Status::EOk,
    },
    Mark::ValueReturned {
        runner: Runner::Task(TASK),
        service: ServiceId::GetCounterValue,
        value: 2,
    },
    Mark::VariableSet {
        runner: Runner::Task(TASK),
        variable: FIRST,
        value: 3,
    },
    Mark::VariableSet {
        runner: Runner::Task(TASK),
        variable: FIRST,
        value: i64::MAX,
    },
    Mark::VariableSet {
        runner: Runner::Isr(ISR),
        variable: FIRST,
        value: i64::MIN,
    },
];

pub const SERVICE_LINES: &str = "core 0
stat I1 ActivateTask E_OK
stat A GetCounterValue E_OK 2
var A v0 3
var A v0 9223372036854775807
var I1 v0 -9223372036854775808
";

/// What core 0 does to activate the task of core 1.
pub const REQUEST: [Mark; 3] = [
    Mark::StartupHook,
    Mark::Activated(TASK),
    Mark::CallQueued {
        core: ONE,
        call: ACTIVATE,
    },
];

/// What core 1 does after the request of core 0.
pub const ANSWER: [Mark; 2] = [
    Mark::Activated(BLINK),
    Mark::CallServed {
        core: ZERO,
        status: Status::EOk,
        call: ACTIVATE,
    },
];

pub const EXCHANGE_LINES: &str = "core 0
hook Startup
act A
out 1 ActivateTask Blink
core 1
act Blink
in 0 ActivateTask Blink E_OK
";
