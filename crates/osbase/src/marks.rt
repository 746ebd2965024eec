//! Marks: what a core does. Each mark is exactly one line of the core's trace.

use crate::messages::RemoteCall;
use crate::references::{AlarmRef, CoreId, IsrRef, Runner, TableRef, TaskRef, Variable};
use crate::statuses::{ServiceId, Status};

/// One line of a trace.
#[derive(Clone, Copy, PartialEq, Eq)]
pub enum Mark {
    /// `start K S`: a call of StartCore before StartOS returned.
    StartCoreReturned {
        core: CoreId,
        status: Status,
    },
    /// `conflict`: the started cores name different modes.
    ModesConflict,
    /// `hook Startup`: StartupHook is called.
    StartupHook,
    /// `hook Error S`: ErrorHook is called.
    ErrorHook(Status),
    /// `hook Protection S`: ProtectionHook is called.
    ProtectionHook(Status),
    /// `hook Shutdown S`: ShutdownHook is called.
    ShutdownHook(Status),
    /// `act T`: the task is activated.
    Activated(TaskRef),
    /// `end T`: the oldest job of the task has ended.
    Terminated(TaskRef),
    /// `pre T`: PreTaskHook is called, and the task enters the running state.
    PreTaskHook(TaskRef),
    /// `post T`: PostTaskHook is called, and the task leaves the running state.
    PostTaskHook(TaskRef),
    /// `ev T m`: events are set.
    EventSet {
        task: TaskRef,
        mask: u32,
    },
    /// `clr T m`: events are cleared.
    EventCleared {
        task: TaskRef,
        mask: u32,
    },
    /// `wait T m`: the task waits for one of these events.
    EventAwaited {
        task: TaskRef,
        mask: u32,
    },
    /// `free T`: the task is released from waiting.
    Released(TaskRef),
    /// `irq I`: an interrupt is accepted.
    InterruptAccepted(IsrRef),
    /// `lost I`: an interrupt is lost.
    InterruptLost(IsrRef),
    /// `enter I`: the ISR is entered, and its oldest job runs.
    IsrEntered(IsrRef),
    /// `leave I`: the ISR has ended.
    IsrLeft(IsrRef),
    /// `tick`: every hardware counter of the core advances by one.
    Tick,
    /// `alarm A`: the alarm expires.
    AlarmExpired(AlarmRef),
    /// `point S o`: the expiry point at this offset is processed.
    ExpiryPoint {
        table: TableRef,
        offset: u32,
    },
    /// `stop S`: the schedule table stops at the end of a period.
    TableStopped(TableRef),
    /// `begin S`: the next schedule table begins at the end of a period.
    TableBegun(TableRef),
    /// `out K op`: a request or an action goes to the outbox.
    CallQueued {
        core: CoreId,
        call: RemoteCall,
    },
    /// `in K op S`: a request or an action was served.
    CallServed {
        core: CoreId,
        status: Status,
        call: RemoteCall,
    },
    /// `in K GetAlarm A x E_OK n`: a request of GetAlarm was served, and has a value.
    CallAnswered {
        core: CoreId,
        alarm: AlarmRef,
        variable: Variable,
        value: i64,
    },
    /// `stat J Op S`: a service returned.
    ServiceReturned {
        runner: Runner,
        service: ServiceId,
        status: Status,
    },
    /// `stat J Op E_OK n`: a service returned with a value.
    ValueReturned {
        runner: Runner,
        service: ServiceId,
        value: i64,
    },
    /// `var J x n`: a variable got a value.
    VariableSet {
        runner: Runner,
        variable: Variable,
        value: i64,
    },
    /// `halt K S`: the core takes the shutdown of all cores that core K requested first.
    Halted {
        core: CoreId,
        status: Status,
    },
}
