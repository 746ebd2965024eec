//! Statuses and services, with the words that a trace prints for them.

ghost use Rattle.std.specs.Prelude.{◌≡◌};
ghost use Rattle.osbase.specs.Words.{service_name, status_name, status_number, status_numbered};

/// The status that a service returns (OSEK/VDX OS 2.2.3, StatusType; AUTOSAR SWS OS 4.x, StatusType).
/// The numbers 0 to 8 are OSEK's; the others are this project's own.
#[derive(Clone, Copy, Debug, PartialEq, Eq)]
pub enum Status {
    EOk,
    EOsAccess,
    EOsCallevel,
    EOsId,
    EOsLimit,
    EOsNofunc,
    EOsResource,
    EOsState,
    EOsValue,
    EOsMissingend,
    EOsDisabledint,
    EOsProtectionTime,
    EOsCore,
    EOsSpinlock,
    EOsInterferenceDeadlock,
    EOsNestingDeadlock,
    EOsProtectionLocked,
}

/// The statuses in the order of their numbers.
pub const STATUS_LIST: [Status; 17] = [
    Status::EOk,
    Status::EOsAccess,
    Status::EOsCallevel,
    Status::EOsId,
    Status::EOsLimit,
    Status::EOsNofunc,
    Status::EOsResource,
    Status::EOsState,
    Status::EOsValue,
    Status::EOsMissingend,
    Status::EOsDisabledint,
    Status::EOsProtectionTime,
    Status::EOsCore,
    Status::EOsSpinlock,
    Status::EOsInterferenceDeadlock,
    Status::EOsNestingDeadlock,
    Status::EOsProtectionLocked,
];

impl Status {
    /// The number that a script's variable gets for this status.
    pub fn number(self) -> u8
        ensures { result ≡ status_number self }
    {
        self as u8
    }

    /// The status with this number, if there is one.
    pub fn numbered(number: u64) -> Option<Status>
        ensures { result ≡ status_numbered number }
    {
        STATUS_LIST.get(number as usize).copied()
    }

    /// The word that a trace prints.
    pub fn name(self) -> &'static str
        ensures { result.now ≡ status_name self }
    {
        match self {
            Status::EOk => "E_OK",
            Status::EOsAccess => "E_OS_ACCESS",
            Status::EOsCallevel => "E_OS_CALLEVEL",
            Status::EOsId => "E_OS_ID",
            Status::EOsLimit => "E_OS_LIMIT",
            Status::EOsNofunc => "E_OS_NOFUNC",
            Status::EOsResource => "E_OS_RESOURCE",
            Status::EOsState => "E_OS_STATE",
            Status::EOsValue => "E_OS_VALUE",
            Status::EOsMissingend => "E_OS_MISSINGEND",
            Status::EOsDisabledint => "E_OS_DISABLEDINT",
            Status::EOsProtectionTime => "E_OS_PROTECTION_TIME",
            Status::EOsCore => "E_OS_CORE",
            Status::EOsSpinlock => "E_OS_SPINLOCK",
            Status::EOsInterferenceDeadlock => "E_OS_INTERFERENCE_DEADLOCK",
            Status::EOsNestingDeadlock => "E_OS_NESTING_DEADLOCK",
            Status::EOsProtectionLocked => "E_OS_PROTECTION_LOCKED",
        }
    }
}

/// A service whose status a trace prints (OSEK/VDX OS 2.2.3, section 13.8.1, OSServiceIdType).
#[derive(Clone, Copy, Debug, PartialEq, Eq)]
pub enum ServiceId {
    ActivateTask,
    TerminateTask,
    ChainTask,
    Schedule,
    GetResource,
    ReleaseResource,
    SetEvent,
    ClearEvent,
    GetEvent,
    WaitEvent,
    SetRelAlarm,
    SetAbsAlarm,
    CancelAlarm,
    GetAlarm,
    IncrementCounter,
    GetCounterValue,
    StartScheduleTableRel,
    StartScheduleTableAbs,
    NextScheduleTable,
    StopScheduleTable,
    GetScheduleTableStatus,
    GetSpinlock,
    TryToGetSpinlock,
    ReleaseSpinlock,
    StartCore,
}

impl ServiceId {
    /// The word that a trace prints.
    pub fn name(self) -> &'static str
        ensures { result.now ≡ service_name self }
    {
        match self {
            ServiceId::ActivateTask => "ActivateTask",
            ServiceId::TerminateTask => "TerminateTask",
            ServiceId::ChainTask => "ChainTask",
            ServiceId::Schedule => "Schedule",
            ServiceId::GetResource => "GetResource",
            ServiceId::ReleaseResource => "ReleaseResource",
            ServiceId::SetEvent => "SetEvent",
            ServiceId::ClearEvent => "ClearEvent",
            ServiceId::GetEvent => "GetEvent",
            ServiceId::WaitEvent => "WaitEvent",
            ServiceId::SetRelAlarm => "SetRelAlarm",
            ServiceId::SetAbsAlarm => "SetAbsAlarm",
            ServiceId::CancelAlarm => "CancelAlarm",
            ServiceId::GetAlarm => "GetAlarm",
            ServiceId::IncrementCounter => "IncrementCounter",
            ServiceId::GetCounterValue => "GetCounterValue",
            ServiceId::StartScheduleTableRel => "StartScheduleTableRel",
            ServiceId::StartScheduleTableAbs => "StartScheduleTableAbs",
            ServiceId::NextScheduleTable => "NextScheduleTable",
            ServiceId::StopScheduleTable => "StopScheduleTable",
            ServiceId::GetScheduleTableStatus => "GetScheduleTableStatus",
            ServiceId::GetSpinlock => "GetSpinlock",
            ServiceId::TryToGetSpinlock => "TryToGetSpinlock",
            ServiceId::ReleaseSpinlock => "ReleaseSpinlock",
            ServiceId::StartCore => "StartCore",
        }
    }
}
