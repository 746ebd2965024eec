//! The events of one task.

ghost use Rattle.std.specs.Prelude.{◌≡◌};
ghost use Rattle.osbase.specs.History.{awaits_one_of, have_common, is_waiting, no_events, with_awaited, with_cleared, with_none_set, with_set};

use osbase::TaskEvents;

/// No event is set, and the task does not wait.
pub fn no_events() -> TaskEvents
    ensures { result ≡ no_events }
{
    TaskEvents {
        set: 0,
        awaited: None,
    }
}

/// These events, with no event set (OSEK/VDX OS 2.2.3, section 13.2.3.1).
pub fn with_none_set(events: TaskEvents) -> TaskEvents
    ensures { result ≡ with_none_set events }
{
    TaskEvents { set: 0, ..events }
}

/// These events, with those of the mask set too (OSEK/VDX OS 2.2.3, section 13.5.3.1).
pub fn with_set(events: TaskEvents, mask: u32) -> TaskEvents
    ensures { result ≡ with_set mask events }
{
    TaskEvents {
        set: events.set | mask,
        ..events
    }
}

/// These events, with those of the mask cleared (OSEK/VDX OS 2.2.3, section 13.5.3.2).
pub fn with_cleared(events: TaskEvents, mask: u32) -> TaskEvents
    ensures { result ≡ with_cleared mask events }
{
    TaskEvents {
        set: events.set & !mask,
        ..events
    }
}

/// These events, with the task waiting for one of the events in `awaited`, or not waiting if that is none (OSEK/VDX OS
/// 2.2.3, section 13.5.3.4 and 4.2.1).
pub fn with_awaited(events: TaskEvents, awaited: Option<u32>) -> TaskEvents
    ensures { result ≡ with_awaited awaited events }
{
    TaskEvents { awaited, ..events }
}

/// Whether the task waits (OSEK/VDX OS 2.2.3, section 4.2.1).
pub fn is_waiting(events: TaskEvents) -> bool
    ensures { result ≡ is_waiting events }
{
    events.awaited.is_some()
}

/// Whether two masks have an event in common.
pub fn have_common(mask: u32, other: u32) -> bool
    ensures { result ≡ have_common mask other }
{
    mask & other != 0
}

/// Whether the task waits for at least one of these events (OSEK/VDX OS 2.2.3, section 4.2.1).
pub fn awaits_one_of(events: TaskEvents, mask: u32) -> bool
    ensures { result ≡ awaits_one_of mask events }
{
    match events.awaited {
        Some(awaited) => have_common(mask, awaited),
        None => false,
    }
}
