//! Scripts: what a job does, operation by operation, and where it is in its script.
#![tactic(auto)]

pub mod calls;
pub mod rows;

ghost use Rattle.std.specs.Prelude.{◌≡◌, ◌<◌, ◌^◌};
ghost use Rattle.oscript.specs.Frames.{action_at, completed, new_frame, op_has_status, place_after, position_of, result_of, rewound, service_of_op, stored, value_of, with_value};

pub use calls::{action_of_op, call_of_op, is_action, is_activation, op_of_call};
use osbase::{
    AlarmRef, CoreId, CounterRef, List, ResourceRef, ServiceId, SpinlockId, Status, TableRef,
    TaskRef, Variable,
};
pub use rows::{Arg, Args, Kind, ParsedOp, Row, VERBS, Verb, op_of, parsed_op_of, row_of, verb_of};

/// One operation of a script. In place of an object, `None` is the invalid identifier, `?`.
#[derive(Clone, Copy, Debug, PartialEq, Eq)]
pub enum Op {
    /// Does nothing.
    Work,
    /// The variable becomes this number.
    Set(Variable, i64),
    /// Adds this number to the variable.
    Add(Variable, i64),
    /// Adds the second variable to the first.
    AddVariable(Variable, Variable),
    /// The variable becomes the number of the job's last status.
    StoreStatus(Variable),
    /// Goes on at the operation with this number, or past the last operation.
    Jump(u32),
    /// If the variable is 0, goes on at the operation with this number, otherwise at the next operation.
    JumpIfZero(Variable, u32),
    /// ActivateTask (OSEK/VDX OS 2.2.3, section 13.2.3.1).
    ActivateTask(Option<TaskRef>),
    /// TerminateTask (OSEK/VDX OS 2.2.3, section 13.2.3.2).
    TerminateTask,
    /// ChainTask (OSEK/VDX OS 2.2.3, section 13.2.3.3).
    ChainTask(Option<TaskRef>),
    /// Schedule (OSEK/VDX OS 2.2.3, section 13.2.3.4).
    Schedule,
    /// GetResource (OSEK/VDX OS 2.2.3, section 13.4.3.1).
    GetResource(Option<ResourceRef>),
    /// ReleaseResource (OSEK/VDX OS 2.2.3, section 13.4.3.2).
    ReleaseResource(Option<ResourceRef>),
    /// SetEvent of these events (OSEK/VDX OS 2.2.3, section 13.5.3.1).
    SetEvent(Option<TaskRef>, u32),
    /// ClearEvent of these events of the caller (OSEK/VDX OS 2.2.3, section 13.5.3.2).
    ClearEvent(u32),
    /// GetEvent: the variable gets the events that are set (OSEK/VDX OS 2.2.3, section 13.5.3.3).
    GetEvent(Option<TaskRef>, Variable),
    /// WaitEvent for one of these events of the caller (OSEK/VDX OS 2.2.3, section 13.5.3.4).
    WaitEvent(u32),
    /// IncrementCounter (AUTOSAR SWS OS 4.x, SWS_Os_00399).
    IncrementCounter(Option<CounterRef>),
    /// GetCounterValue: the variable gets the counter's value (AUTOSAR SWS OS 4.x, SWS_Os_00383).
    GetCounterValue(Option<CounterRef>, Variable),
    /// SetRelAlarm: the alarm is due after this many ticks, and again after each cycle if the cycle is not 0
    /// (OSEK/VDX OS 2.2.3, section 13.6.3.3).
    SetRelAlarm(Option<AlarmRef>, u32, u32),
    /// SetAbsAlarm: the alarm is due at this value of its counter, and again after each cycle if the cycle is not 0
    /// (OSEK/VDX OS 2.2.3, section 13.6.3.4).
    SetAbsAlarm(Option<AlarmRef>, u32, u32),
    /// CancelAlarm (OSEK/VDX OS 2.2.3, section 13.6.3.5).
    CancelAlarm(Option<AlarmRef>),
    /// GetAlarm: the variable gets the ticks until the alarm is due (OSEK/VDX OS 2.2.3, section 13.6.3.2).
    GetAlarm(Option<AlarmRef>, Variable),
    /// StartScheduleTableRel: the first period begins after this many ticks (AUTOSAR SWS OS 4.x, SWS_Os_00347).
    StartScheduleTableRel(Option<TableRef>, u32),
    /// StartScheduleTableAbs: the first period begins when the counter reaches this value (AUTOSAR SWS OS 4.x,
    /// SWS_Os_00358).
    StartScheduleTableAbs(Option<TableRef>, u32),
    /// NextScheduleTable: the second table waits for the end of a period of the first (AUTOSAR SWS OS 4.x,
    /// SWS_Os_00191).
    NextScheduleTable(Option<TableRef>, Option<TableRef>),
    /// StopScheduleTable (AUTOSAR SWS OS 4.x, SWS_Os_00006).
    StopScheduleTable(Option<TableRef>),
    /// GetScheduleTableStatus: the variable gets the number of the status (AUTOSAR SWS OS 4.x, SWS_Os_00227).
    GetScheduleTableStatus(Option<TableRef>, Variable),
    /// SuspendAllInterrupts (OSEK/VDX OS 2.2.3, section 13.3.2.4).
    SuspendAllInterrupts,
    /// ResumeAllInterrupts (OSEK/VDX OS 2.2.3, section 13.3.2.3).
    ResumeAllInterrupts,
    /// StartCore for the core with this number. A script always calls it too late, after StartOS (AUTOSAR SWS OS 4.x,
    /// SWS_Os_00676 and SWS_Os_00681).
    StartCore(Option<CoreId>),
    /// GetNumberOfActivatedCores: the variable gets the number of started cores (AUTOSAR SWS OS 4.x, SWS_Os_00672).
    GetNumberOfActivatedCores(Variable),
    /// ShutdownOS with this status, which takes the caller's core down (OSEK/VDX OS 2.2.3, section 13.7.2.3; AUTOSAR
    /// SWS OS 4.x, ShutdownOS).
    ShutdownOs(Status),
    /// ShutdownAllCores with this status (AUTOSAR SWS OS 4.x, SWS_Os_00713).
    ShutdownAllCores(Status),
    /// GetSpinlock: the job waits until it has the spinlock (AUTOSAR SWS OS 4.x, SWS_Os_00686).
    GetSpinlock(Option<SpinlockId>),
    /// TryToGetSpinlock: the variable becomes 1 if the spinlock is taken, else 0 (AUTOSAR SWS OS 4.x, SWS_Os_00703).
    TryToGetSpinlock(Option<SpinlockId>, Variable),
    /// ReleaseSpinlock (AUTOSAR SWS OS 4.x, SWS_Os_00695).
    ReleaseSpinlock(Option<SpinlockId>),
}

impl Op {
    /// The service that the operation calls, if it calls one that returns a status.
    pub fn service(self) -> Option<ServiceId>
        ensures { result ≡ service_of_op self }
    {
        row_of(verb_of(self)).service
    }

    /// Whether the operation calls a service that returns a status.
    pub fn has_status(self) -> bool
        ensures { result ≡ op_has_status self }
    {
        self.service().is_some()
    }

    /// The variable to which the operation assigns a value, if there is one.
    pub fn result(self) -> Option<Variable>
        ensures { result ≡ result_of self }
    {
        match self {
            Op::Set(variable, _) => Some(variable),
            Op::Add(variable, _) => Some(variable),
            Op::AddVariable(variable, _) => Some(variable),
            Op::StoreStatus(variable) => Some(variable),
            Op::GetEvent(_, variable) => Some(variable),
            Op::GetCounterValue(_, variable) => Some(variable),
            Op::GetAlarm(_, variable) => Some(variable),
            Op::GetScheduleTableStatus(_, variable) => Some(variable),
            Op::GetNumberOfActivatedCores(variable) => Some(variable),
            Op::TryToGetSpinlock(_, variable) => Some(variable),
            _ => None,
        }
    }

    /// The place in the script that the operation names as its target, if it is a jump.
    pub fn position(self) -> Option<u32>
        ensures { result ≡ position_of self }
    {
        match self {
            Op::Jump(position) => Some(position),
            Op::JumpIfZero(_, position) => Some(position),
            _ => None,
        }
    }
}

/// The operations of a task or an ISR, counted from 0.
pub type Script = List<Op>;

/// The state of a job in its script: its next operation, the status of its last service (E_OK before
/// any), and the variables of its task or ISR, which outlive the job.
#[derive(Clone, Copy, PartialEq, Eq)]
pub struct Frame {
    pub pc: usize,
    pub status: Status,
    pub vars: [i64; 8],
}

/// What a job does next.
#[derive(Clone, Copy, Debug, PartialEq, Eq)]
pub enum Action {
    /// This operation.
    Perform(Op),
    /// The job ends, as it is past its last operation.
    End,
}

impl Frame {
    /// The frame with which the first job of a task or an ISR begins.
    pub fn new() -> Self
        ensures { result ≡ new_frame }
    {
        Frame {
            pc: 0,
            status: Status::EOk,
            vars: [0; 8],
        }
    }

    /// The number that the variable holds; 0 if there is no such variable.
    pub fn value(&self, variable: Variable) -> i64
        ensures { result ≡ value_of variable self.now }
    {
        match self.vars.get(usize::from(variable.index)) {
            Some(value) => *value,
            None => 0,
        }
    }

    // The place at which the job goes on after `op`, which is at the frame's place: the target of a jump that is taken,
    // else the next place.
    fn place_after(&self, op: Op) -> usize
        requires { self.now.pc < 2 ^ 63 }
        ensures { result ≡ place_after op self.now }
    {
        match op {
            Op::Jump(position) => position as usize,
            Op::JumpIfZero(variable, position) if self.value(variable) == 0 => position as usize,
            _ => self.pc + 1,
        }
    }

    // Gives the variable this value, if there is such a variable.
    fn set(&mut self, variable: Variable, value: i64)
        ensures { self.new ≡ with_value variable value self.old }
    {
        let place = usize::from(variable.index);
        if place < self.vars.len() {
            self.vars[place] = value;
        }
    }

    // Stores the value in the variable, if there are both.
    fn store(&mut self, variable: Option<Variable>, value: Option<i64>)
        ensures { self.new ≡ stored variable value self.old }
    {
        match (variable, value) {
            (Some(variable), Some(value)) => self.set(variable, value),
            _ => {}
        }
    }

    /// Goes back to operation 0 with status E_OK, as the next job of the task or ISR begins: only
    /// the variables stay.
    pub fn rewind(&mut self)
        ensures { self.new ≡ rewound self.old }
    {
        self.pc = 0;
        self.status = Status::EOk;
    }
}

/// What a job does next if the frame says its place in the script: the operation there, or its end past the last one.
pub fn next(script: &[Op], frame: &Frame) -> Action
    ensures { result ≡ action_at script.now frame.now }
{
    match script.get(frame.pc) {
        Some(op) => Action::Perform(*op),
        None => Action::End,
    }
}

/// Completes the operation at the frame's place, which answered this status and value. The frame goes on to the next
/// operation. It keeps the status if the operation calls a service that returns one, and stores the value in the
/// operation's variable, if there are both. Past the last operation nothing changes.
pub fn complete(script: &[Op], frame: &mut Frame, status: Status, value: Option<i64>)
    ensures { frame.new ≡ completed script.now frame.old status value }
{
    if let Some(op) = script.get(frame.pc) {
        frame.pc = frame.place_after(*op);
        if op.has_status() {
            frame.status = status;
        }
        frame.store(op.result(), value);
    }
}
