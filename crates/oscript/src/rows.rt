//! The grammar of operations: a row for each verb, operations as verbs with arguments, and the objects that
//! an operation names.

ghost use Rattle.std.specs.Prelude.{◌≡◌, [], ◌∷◌, filter_map, slice_get};
ghost use Rattle.oscript.specs.Rows.{alarm_argument, asks_shared, core_at, parsed_op_of, form_view, halts_all, has_masks, int_at, items, mask_at, refers_to_own_only, number_at, object_in, objects_of, op_of, place_at, plain_row, ref_argument, ref_at, row_of, row_view, service_row, status_argument, status_at, uses_resource, variable_at};

use crate::Op;
use osbase::{AlarmRef, CoreId, Object, ObjectKind, Place, Reference, ServiceId, Status, Variable};

/// The kind that an argument of an operation must have.
#[derive(Clone, Copy, PartialEq, Eq)]
pub enum Kind {
    /// The name of an object of this kind, or `?`.
    Object(ObjectKind),
    /// Events, each a bit of a number from 1 to 4294967295.
    Mask,
    /// A whole number from the first number to the second.
    Number(u32, u32),
    /// A signed number of 64 bits.
    Int,
    /// A variable, `v0` to `v7`.
    Variable,
    /// The number of a core, 0 to 255, configured or not, or `?`.
    Core,
}

/// The arguments of an operation, or their kinds.
#[derive(Clone, Copy, PartialEq, Eq)]
pub enum Args<A> {
    Zero,
    One(A),
    Two(A, A),
    Three(A, A, A),
}

/// What an operation does, without its arguments.
#[derive(Clone, Copy, PartialEq, Eq)]
pub enum Verb {
    Work,
    Set,
    Add,
    AddVariable,
    StoreStatus,
    Jump,
    JumpIfZero,
    ActivateTask,
    TerminateTask,
    ChainTask,
    Schedule,
    GetResource,
    ReleaseResource,
    SetEvent,
    ClearEvent,
    GetEvent,
    WaitEvent,
    IncrementCounter,
    GetCounterValue,
    SetRelAlarm,
    SetAbsAlarm,
    CancelAlarm,
    GetAlarm,
    StartScheduleTableRel,
    StartScheduleTableAbs,
    NextScheduleTable,
    StopScheduleTable,
    GetScheduleTableStatus,
    SuspendAllInterrupts,
    ResumeAllInterrupts,
    StartCore,
    GetNumberOfActivatedCores,
    ShutdownOs,
    ShutdownAllCores,
    GetSpinlock,
    TryToGetSpinlock,
    ReleaseSpinlock,
}

/// One row of the grammar: an operation's word, the kinds of its arguments, and the service that the
/// operation calls, if it calls one that returns a status.
#[derive(Clone, Copy, PartialEq, Eq)]
pub struct Row {
    pub word: &'static str,
    pub kinds: Args<Kind>,
    pub service: Option<ServiceId>,
}

/// Every verb. A word is searched for from the front, so the operations that scripts use most come first.
pub const VERBS: [Verb; 37] = [
    Verb::ActivateTask,
    Verb::TerminateTask,
    Verb::Work,
    Verb::Set,
    Verb::Add,
    Verb::AddVariable,
    Verb::StoreStatus,
    Verb::Jump,
    Verb::JumpIfZero,
    Verb::ChainTask,
    Verb::Schedule,
    Verb::GetResource,
    Verb::ReleaseResource,
    Verb::SetEvent,
    Verb::ClearEvent,
    Verb::GetEvent,
    Verb::WaitEvent,
    Verb::IncrementCounter,
    Verb::GetCounterValue,
    Verb::SetRelAlarm,
    Verb::SetAbsAlarm,
    Verb::CancelAlarm,
    Verb::GetAlarm,
    Verb::StartScheduleTableRel,
    Verb::StartScheduleTableAbs,
    Verb::NextScheduleTable,
    Verb::StopScheduleTable,
    Verb::GetScheduleTableStatus,
    Verb::SuspendAllInterrupts,
    Verb::ResumeAllInterrupts,
    Verb::StartCore,
    Verb::GetNumberOfActivatedCores,
    Verb::ShutdownOs,
    Verb::ShutdownAllCores,
    Verb::GetSpinlock,
    Verb::TryToGetSpinlock,
    Verb::ReleaseSpinlock,
];

/// A task's name, or `?`.
pub const TASK: Kind = Kind::Object(ObjectKind::Task);

/// A resource's name, or `?`.
pub const RESOURCE: Kind = Kind::Object(ObjectKind::Resource);

/// A counter's name, or `?`.
pub const COUNTER: Kind = Kind::Object(ObjectKind::Counter);

/// An alarm's name, or `?`.
pub const ALARM: Kind = Kind::Object(ObjectKind::Alarm);

/// A schedule table's name, or `?`.
pub const TABLE: Kind = Kind::Object(ObjectKind::Table);

/// A spinlock's name, or `?`.
pub const SPINLOCK: Kind = Kind::Object(ObjectKind::Spinlock);

/// A number of ticks, or a value of a counter: any number of 32 bits.
pub const TICKS: Kind = Kind::Number(0, 4294967295);

/// A place in a script: that of an operation, or the one past the last operation of the longest script.
pub const POSITION: Kind = Kind::Number(0, 256);

/// The number of a status (`Status::numbered`).
pub const STATUS: Kind = Kind::Number(0, 16);

// The row of an operation without a service that returns a status.
#[inline(always)]
fn plain_row(word: &'static str, kinds: Args<Kind>) -> Row
    ensures { row_view result ≡ plain_row word.now kinds }
{
    Row {
        word,
        kinds,
        service: None,
    }
}

// The row of an operation whose service returns a status: its word is the service's.
#[inline(always)]
fn service_row(service: ServiceId, kinds: Args<Kind>) -> Row
    ensures { row_view result ≡ service_row service kinds }
{
    Row {
        word: service.name(),
        kinds,
        service: Some(service),
    }
}

/// The row of an operation.
#[inline(always)]
pub fn row_of(verb: Verb) -> Row
    ensures { row_view result ≡ row_of verb }
{
    match verb {
        Verb::Work => plain_row("work", Args::Zero),
        Verb::Set => plain_row("set", Args::Two(Kind::Variable, Kind::Int)),
        Verb::Add => plain_row("add", Args::Two(Kind::Variable, Kind::Int)),
        Verb::AddVariable => plain_row("addv", Args::Two(Kind::Variable, Kind::Variable)),
        Verb::StoreStatus => plain_row("status", Args::One(Kind::Variable)),
        Verb::Jump => plain_row("jump", Args::One(POSITION)),
        Verb::JumpIfZero => plain_row("jz", Args::Two(Kind::Variable, POSITION)),
        Verb::ActivateTask => service_row(ServiceId::ActivateTask, Args::One(TASK)),
        Verb::TerminateTask => service_row(ServiceId::TerminateTask, Args::Zero),
        Verb::ChainTask => service_row(ServiceId::ChainTask, Args::One(TASK)),
        Verb::Schedule => service_row(ServiceId::Schedule, Args::Zero),
        Verb::GetResource => service_row(ServiceId::GetResource, Args::One(RESOURCE)),
        Verb::ReleaseResource => service_row(ServiceId::ReleaseResource, Args::One(RESOURCE)),
        Verb::SetEvent => service_row(ServiceId::SetEvent, Args::Two(TASK, Kind::Mask)),
        Verb::ClearEvent => service_row(ServiceId::ClearEvent, Args::One(Kind::Mask)),
        Verb::GetEvent => service_row(ServiceId::GetEvent, Args::Two(TASK, Kind::Variable)),
        Verb::WaitEvent => service_row(ServiceId::WaitEvent, Args::One(Kind::Mask)),
        Verb::IncrementCounter => service_row(ServiceId::IncrementCounter, Args::One(COUNTER)),
        Verb::GetCounterValue => service_row(
            ServiceId::GetCounterValue,
            Args::Two(COUNTER, Kind::Variable),
        ),
        Verb::SetRelAlarm => service_row(ServiceId::SetRelAlarm, Args::Three(ALARM, TICKS, TICKS)),
        Verb::SetAbsAlarm => service_row(ServiceId::SetAbsAlarm, Args::Three(ALARM, TICKS, TICKS)),
        Verb::CancelAlarm => service_row(ServiceId::CancelAlarm, Args::One(ALARM)),
        Verb::GetAlarm => service_row(ServiceId::GetAlarm, Args::Two(ALARM, Kind::Variable)),
        Verb::StartScheduleTableRel => {
            service_row(ServiceId::StartScheduleTableRel, Args::Two(TABLE, TICKS))
        }
        Verb::StartScheduleTableAbs => {
            service_row(ServiceId::StartScheduleTableAbs, Args::Two(TABLE, TICKS))
        }
        Verb::NextScheduleTable => {
            service_row(ServiceId::NextScheduleTable, Args::Two(TABLE, TABLE))
        }
        Verb::StopScheduleTable => service_row(ServiceId::StopScheduleTable, Args::One(TABLE)),
        Verb::GetScheduleTableStatus => service_row(
            ServiceId::GetScheduleTableStatus,
            Args::Two(TABLE, Kind::Variable),
        ),
        Verb::SuspendAllInterrupts => plain_row("SuspendAllInterrupts", Args::Zero),
        Verb::ResumeAllInterrupts => plain_row("ResumeAllInterrupts", Args::Zero),
        Verb::StartCore => service_row(ServiceId::StartCore, Args::One(Kind::Core)),
        Verb::GetNumberOfActivatedCores => {
            plain_row("GetNumberOfActivatedCores", Args::One(Kind::Variable))
        }
        Verb::ShutdownOs => plain_row("ShutdownOS", Args::One(STATUS)),
        Verb::ShutdownAllCores => plain_row("ShutdownAllCores", Args::One(STATUS)),
        Verb::GetSpinlock => service_row(ServiceId::GetSpinlock, Args::One(SPINLOCK)),
        Verb::TryToGetSpinlock => service_row(
            ServiceId::TryToGetSpinlock,
            Args::Two(SPINLOCK, Kind::Variable),
        ),
        Verb::ReleaseSpinlock => service_row(ServiceId::ReleaseSpinlock, Args::One(SPINLOCK)),
    }
}

/// An argument of an operation. In place of an object or a core, `None` is the invalid identifier, `?`.
#[derive(Clone, Copy, PartialEq, Eq)]
pub enum Arg<R> {
    Object(ObjectKind, Option<R>),
    /// Events; 0 if the mask is out of its range.
    Mask(u32),
    Number(u32),
    Int(i64),
    Variable(u8),
    Core(Option<CoreId>),
}

/// An operation as its verb and its arguments. `R` says how the arguments refer to objects: by their names,
/// or by their places.
#[derive(Clone, Copy, PartialEq, Eq)]
pub struct ParsedOp<R> {
    pub verb: Verb,
    pub args: Args<Arg<R>>,
}

impl<A: Copy> Args<A> {
    /// The argument at this place, counted from 0.
    #[inline(always)]
    pub fn get(self, i: usize) -> Option<A>
        ensures { result ≡ slice_get (items self) i }
    {
        match (self, i) {
            (Args::One(a), 0) => Some(a),
            (Args::Two(a, _), 0) => Some(a),
            (Args::Two(_, b), 1) => Some(b),
            (Args::Three(a, _, _), 0) => Some(a),
            (Args::Three(_, b, _), 1) => Some(b),
            (Args::Three(_, _, c), 2) => Some(c),
            _ => None,
        }
    }
}

// The place of the object that the argument at index `i` names, if the object is of this kind.
#[inline(always)]
fn place_at(args: Args<Arg<Place>>, kind: ObjectKind, i: usize) -> Option<Place>
    ensures { result ≡ place_at kind (items args) i }
{
    match args.get(i) {
        Some(Arg::Object(other, target)) if kind.is(other) => target,
        _ => None,
    }
}

// The reference to the object that the argument at index `i` names, if the object is of the reference's kind.
#[inline(always)]
fn ref_at<R: Reference>(args: Args<Arg<Place>>, i: usize) -> Option<R>
    ensures { result ≡ ref_at R.KIND R.ref_of (items args) i }
{
    match place_at(args, R::KIND, i) {
        Some(place) => Some(R::at(place)),
        None => None,
    }
}

// The mask at index `i` of the arguments; 0 if there is none.
#[inline(always)]
fn mask_at(args: Args<Arg<Place>>, i: usize) -> u32
    ensures { result ≡ mask_at (items args) i }
{
    match args.get(i) {
        Some(Arg::Mask(mask)) => mask,
        _ => 0,
    }
}

// The signed number at index `i` of the arguments; 0 if there is none.
#[inline(always)]
fn int_at(args: Args<Arg<Place>>, i: usize) -> i64
    ensures { result ≡ int_at (items args) i }
{
    match args.get(i) {
        Some(Arg::Int(n)) => n,
        _ => 0,
    }
}

// The whole number at index `i` of the arguments; 0 if there is none.
#[inline(always)]
fn number_at(args: Args<Arg<Place>>, i: usize) -> u32
    ensures { result ≡ number_at (items args) i }
{
    match args.get(i) {
        Some(Arg::Number(n)) => n,
        _ => 0,
    }
}

// The status whose number is at index `i` of the arguments; E_OK if no status has that number.
#[inline(always)]
fn status_at(args: Args<Arg<Place>>, i: usize) -> Status
    ensures { result ≡ status_at (items args) i }
{
    match Status::numbered(u64::from(number_at(args, i))) {
        Some(status) => status,
        None => Status::EOk,
    }
}

// The core at index `i` of the arguments, if there is one.
#[inline(always)]
fn core_at(args: Args<Arg<Place>>, i: usize) -> Option<CoreId>
    ensures { result ≡ core_at (items args) i }
{
    match args.get(i) {
        Some(Arg::Core(target)) => target,
        _ => None,
    }
}

// The variable at index `i` of the arguments; `v0` if there is none.
#[inline(always)]
fn variable_at(args: Args<Arg<Place>>, i: usize) -> Variable
    ensures { result ≡ variable_at (items args) i }
{
    match args.get(i) {
        Some(Arg::Variable(index)) => Variable { index },
        _ => Variable { index: 0 },
    }
}

/// The operation with the form's verb and arguments. An argument that is not of its kind is taken as the invalid
/// identifier, as 0, as `v0` or as E_OK.
#[inline(always)]
pub fn op_of(form: ParsedOp<Place>) -> Op
    ensures { result ≡ op_of (form_view form) }
{
    let args = form.args;
    match form.verb {
        Verb::Work => Op::Work,
        Verb::Set => Op::Set(variable_at(args, 0), int_at(args, 1)),
        Verb::Add => Op::Add(variable_at(args, 0), int_at(args, 1)),
        Verb::AddVariable => Op::AddVariable(variable_at(args, 0), variable_at(args, 1)),
        Verb::StoreStatus => Op::StoreStatus(variable_at(args, 0)),
        Verb::Jump => Op::Jump(number_at(args, 0)),
        Verb::JumpIfZero => Op::JumpIfZero(variable_at(args, 0), number_at(args, 1)),
        Verb::ActivateTask => Op::ActivateTask(ref_at(args, 0)),
        Verb::TerminateTask => Op::TerminateTask,
        Verb::ChainTask => Op::ChainTask(ref_at(args, 0)),
        Verb::Schedule => Op::Schedule,
        Verb::GetResource => Op::GetResource(ref_at(args, 0)),
        Verb::ReleaseResource => Op::ReleaseResource(ref_at(args, 0)),
        Verb::SetEvent => Op::SetEvent(ref_at(args, 0), mask_at(args, 1)),
        Verb::ClearEvent => Op::ClearEvent(mask_at(args, 0)),
        Verb::GetEvent => Op::GetEvent(ref_at(args, 0), variable_at(args, 1)),
        Verb::WaitEvent => Op::WaitEvent(mask_at(args, 0)),
        Verb::IncrementCounter => Op::IncrementCounter(ref_at(args, 0)),
        Verb::GetCounterValue => Op::GetCounterValue(ref_at(args, 0), variable_at(args, 1)),
        Verb::SetRelAlarm => {
            Op::SetRelAlarm(ref_at(args, 0), number_at(args, 1), number_at(args, 2))
        }
        Verb::SetAbsAlarm => {
            Op::SetAbsAlarm(ref_at(args, 0), number_at(args, 1), number_at(args, 2))
        }
        Verb::CancelAlarm => Op::CancelAlarm(ref_at(args, 0)),
        Verb::GetAlarm => Op::GetAlarm(ref_at(args, 0), variable_at(args, 1)),
        Verb::StartScheduleTableRel => {
            Op::StartScheduleTableRel(ref_at(args, 0), number_at(args, 1))
        }
        Verb::StartScheduleTableAbs => {
            Op::StartScheduleTableAbs(ref_at(args, 0), number_at(args, 1))
        }
        Verb::NextScheduleTable => Op::NextScheduleTable(ref_at(args, 0), ref_at(args, 1)),
        Verb::StopScheduleTable => Op::StopScheduleTable(ref_at(args, 0)),
        Verb::GetScheduleTableStatus => {
            Op::GetScheduleTableStatus(ref_at(args, 0), variable_at(args, 1))
        }
        Verb::SuspendAllInterrupts => Op::SuspendAllInterrupts,
        Verb::ResumeAllInterrupts => Op::ResumeAllInterrupts,
        Verb::StartCore => Op::StartCore(core_at(args, 0)),
        Verb::GetNumberOfActivatedCores => Op::GetNumberOfActivatedCores(variable_at(args, 0)),
        Verb::ShutdownOs => Op::ShutdownOs(status_at(args, 0)),
        Verb::ShutdownAllCores => Op::ShutdownAllCores(status_at(args, 0)),
        Verb::GetSpinlock => Op::GetSpinlock(ref_at(args, 0)),
        Verb::TryToGetSpinlock => Op::TryToGetSpinlock(ref_at(args, 0), variable_at(args, 1)),
        Verb::ReleaseSpinlock => Op::ReleaseSpinlock(ref_at(args, 0)),
    }
}

// The argument that refers to this object. Without an object it is the invalid identifier.
fn argument<R: Reference>(target: Option<R>) -> Arg<Place>
    ensures { result ≡ ref_argument R.KIND R.place_of target }
{
    match target {
        Some(object) => Arg::Object(R::KIND, Some(object.place())),
        None => Arg::Object(R::KIND, None),
    }
}

// The arguments of SetRelAlarm and of SetAbsAlarm.
fn alarm_arguments(target: Option<AlarmRef>, first: u32, cycle: u32) -> Args<Arg<Place>>
    ensures { items result ≡ alarm_argument target ∷ Arg.Number first ∷ Arg.Number cycle ∷ [] }
{
    Args::Three(argument(target), Arg::Number(first), Arg::Number(cycle))
}

// The argument that names this variable.
fn variable_argument(variable: Variable) -> Arg<Place>
    ensures { result ≡ Arg.Variable variable.index }
{
    Arg::Variable(variable.index)
}

/// The verb of an operation.
pub fn verb_of(op: Op) -> Verb
    ensures { result ≡ (parsed_op_of op).0 }
{
    match op {
        Op::Work => Verb::Work,
        Op::Set(_, _) => Verb::Set,
        Op::Add(_, _) => Verb::Add,
        Op::AddVariable(_, _) => Verb::AddVariable,
        Op::StoreStatus(_) => Verb::StoreStatus,
        Op::Jump(_) => Verb::Jump,
        Op::JumpIfZero(_, _) => Verb::JumpIfZero,
        Op::ActivateTask(_) => Verb::ActivateTask,
        Op::TerminateTask => Verb::TerminateTask,
        Op::ChainTask(_) => Verb::ChainTask,
        Op::Schedule => Verb::Schedule,
        Op::GetResource(_) => Verb::GetResource,
        Op::ReleaseResource(_) => Verb::ReleaseResource,
        Op::SetEvent(_, _) => Verb::SetEvent,
        Op::ClearEvent(_) => Verb::ClearEvent,
        Op::GetEvent(_, _) => Verb::GetEvent,
        Op::WaitEvent(_) => Verb::WaitEvent,
        Op::IncrementCounter(_) => Verb::IncrementCounter,
        Op::GetCounterValue(_, _) => Verb::GetCounterValue,
        Op::SetRelAlarm(_, _, _) => Verb::SetRelAlarm,
        Op::SetAbsAlarm(_, _, _) => Verb::SetAbsAlarm,
        Op::CancelAlarm(_) => Verb::CancelAlarm,
        Op::GetAlarm(_, _) => Verb::GetAlarm,
        Op::StartScheduleTableRel(_, _) => Verb::StartScheduleTableRel,
        Op::StartScheduleTableAbs(_, _) => Verb::StartScheduleTableAbs,
        Op::NextScheduleTable(_, _) => Verb::NextScheduleTable,
        Op::StopScheduleTable(_) => Verb::StopScheduleTable,
        Op::GetScheduleTableStatus(_, _) => Verb::GetScheduleTableStatus,
        Op::SuspendAllInterrupts => Verb::SuspendAllInterrupts,
        Op::ResumeAllInterrupts => Verb::ResumeAllInterrupts,
        Op::StartCore(_) => Verb::StartCore,
        Op::GetNumberOfActivatedCores(_) => Verb::GetNumberOfActivatedCores,
        Op::ShutdownOs(_) => Verb::ShutdownOs,
        Op::ShutdownAllCores(_) => Verb::ShutdownAllCores,
        Op::GetSpinlock(_) => Verb::GetSpinlock,
        Op::TryToGetSpinlock(_, _) => Verb::TryToGetSpinlock,
        Op::ReleaseSpinlock(_) => Verb::ReleaseSpinlock,
    }
}

// The argument for a status: its number.
fn status_argument(status: Status) -> Arg<Place>
    ensures { result ≡ status_argument status }
{
    Arg::Number(u32::from(status.number()))
}

// The arguments of an operation that has only this one.
fn one(arg: Arg<Place>) -> Args<Arg<Place>>
    ensures { items result ≡ arg ∷ [] }
{
    Args::One(arg)
}

// The arguments of an operation that has these two.
fn two(first: Arg<Place>, second: Arg<Place>) -> Args<Arg<Place>>
    ensures { items result ≡ first ∷ second ∷ [] }
{
    Args::Two(first, second)
}

// The arguments of an operation, as a script has them.
fn args_of(op: Op) -> Args<Arg<Place>>
    ensures { items result ≡ (parsed_op_of op).1 }
{
    match op {
        Op::Work | Op::TerminateTask | Op::Schedule => Args::Zero,
        Op::SuspendAllInterrupts | Op::ResumeAllInterrupts => Args::Zero,
        Op::Set(x, n) => two(variable_argument(x), Arg::Int(n)),
        Op::Add(x, n) => two(variable_argument(x), Arg::Int(n)),
        Op::AddVariable(x, y) => two(variable_argument(x), variable_argument(y)),
        Op::StoreStatus(x) => one(variable_argument(x)),
        Op::Jump(position) => one(Arg::Number(position)),
        Op::JumpIfZero(x, position) => two(variable_argument(x), Arg::Number(position)),
        Op::ActivateTask(target) | Op::ChainTask(target) => one(argument(target)),
        Op::GetResource(target) | Op::ReleaseResource(target) => one(argument(target)),
        Op::SetEvent(target, mask) => two(argument(target), Arg::Mask(mask)),
        Op::ClearEvent(mask) | Op::WaitEvent(mask) => one(Arg::Mask(mask)),
        Op::GetEvent(target, x) => two(argument(target), variable_argument(x)),
        Op::IncrementCounter(target) => one(argument(target)),
        Op::GetCounterValue(target, x) => two(argument(target), variable_argument(x)),
        Op::SetRelAlarm(target, first, cycle) | Op::SetAbsAlarm(target, first, cycle) => {
            alarm_arguments(target, first, cycle)
        }
        Op::CancelAlarm(target) => one(argument(target)),
        Op::GetAlarm(target, x) => two(argument(target), variable_argument(x)),
        Op::StartScheduleTableRel(target, start) | Op::StartScheduleTableAbs(target, start) => {
            two(argument(target), Arg::Number(start))
        }
        Op::NextScheduleTable(from, to) => two(argument(from), argument(to)),
        Op::StopScheduleTable(target) => one(argument(target)),
        Op::GetScheduleTableStatus(target, x) => two(argument(target), variable_argument(x)),
        Op::StartCore(target) => one(Arg::Core(target)),
        Op::GetNumberOfActivatedCores(x) => one(variable_argument(x)),
        Op::ShutdownOs(status) | Op::ShutdownAllCores(status) => one(status_argument(status)),
        Op::GetSpinlock(target) | Op::ReleaseSpinlock(target) => one(argument(target)),
        Op::TryToGetSpinlock(target, x) => two(argument(target), variable_argument(x)),
    }
}

/// The form of an operation: its verb and its arguments.
pub fn parsed_op_of(op: Op) -> ParsedOp<Place>
    ensures { form_view result ≡ parsed_op_of op }
{
    ParsedOp {
        verb: verb_of(op),
        args: args_of(op),
    }
}

// The object that an argument names. The invalid identifier names none.
fn object_in(arg: Arg<Place>) -> Option<Object>
    ensures { result ≡ object_in arg }
{
    match arg {
        Arg::Object(kind, Some(place)) => Some(Object { kind, place }),
        Arg::Object(_, None) => None,
        Arg::Mask(_) => None,
        Arg::Number(_) => None,
        Arg::Int(_) => None,
        Arg::Variable(_) => None,
        Arg::Core(_) => None,
    }
}

// The objects that the arguments name, each at the place of its argument.
fn objects_in(args: Args<Arg<Place>>) -> [Option<Object>; 3]
    ensures { filter_map (λ o. o) result ≡ filter_map object_in (items args) }
{
    match args {
        Args::Zero => [None, None, None],
        Args::One(a) => [object_in(a), None, None],
        Args::Two(a, b) => [object_in(a), object_in(b), None],
        Args::Three(a, b, c) => [object_in(a), object_in(b), object_in(c)],
    }
}

impl Op {
    /// The objects that the operation names, each at the place of its argument. The invalid identifier names
    /// no object.
    pub fn objects(self) -> [Option<Object>; 3]
        ensures { filter_map (λ o. o) result ≡ objects_of self }
    {
        objects_in(args_of(self))
    }

    /// Whether each mask of the operation has an event.
    pub fn has_masks(self) -> bool
        ensures { result ≡ has_masks self }
    {
        match self {
            Op::SetEvent(_, mask) => mask >= 1,
            Op::ClearEvent(mask) => mask >= 1,
            Op::WaitEvent(mask) => mask >= 1,
            _ => true,
        }
    }

    /// Whether the operation takes or gives back a resource.
    pub fn uses_resource(self) -> bool
        ensures { result ≡ uses_resource self }
    {
        match self {
            Op::GetResource(_) => true,
            Op::ReleaseResource(_) => true,
            _ => false,
        }
    }

    /// Whether the operation asks how many cores are started, calls StartCore, or names a spinlock: what it does
    /// depends on what all cores share (AUTOSAR SWS OS 4.x, SWS_Os_00672, SWS_Os_00676, SWS_Os_00686, SWS_Os_00703 and
    /// SWS_Os_00695).
    pub fn asks_shared(self) -> bool
        ensures { result ≡ asks_shared self }
    {
        match self {
            Op::StartCore(_) | Op::GetNumberOfActivatedCores(_) => true,
            Op::GetSpinlock(target) => target.is_some(),
            Op::TryToGetSpinlock(target, _) => target.is_some(),
            Op::ReleaseSpinlock(target) => target.is_some(),
            _ => false,
        }
    }

    /// Whether the operation shuts all cores down (AUTOSAR SWS OS 4.x, SWS_Os_00713).
    pub fn halts_all(self) -> bool
        ensures { result ≡ halts_all self }
    {
        matches!(self, Op::ShutdownAllCores(_))
    }

    /// Whether the operation may name objects of its own core only.
    pub fn refers_to_own_only(self) -> bool
        ensures { result ≡ refers_to_own_only self }
    {
        match self {
            Op::GetResource(_) => true,
            Op::ReleaseResource(_) => true,
            Op::GetEvent(_, _) => true,
            Op::GetCounterValue(_, _) => true,
            Op::StartScheduleTableRel(_, _) => true,
            Op::StartScheduleTableAbs(_, _) => true,
            Op::NextScheduleTable(_, _) => true,
            Op::StopScheduleTable(_) => true,
            Op::GetScheduleTableStatus(_, _) => true,
            _ => false,
        }
    }
}
