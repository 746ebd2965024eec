//! An item as its form and the parts of its line, and back from these to the item.

ghost use Rattle.std.specs.Prelude.{◌≡◌, true};
ghost use Rattle.osbase.specs.History.{no_cores};
ghost use Rattle.oslog.specs.Forms.{form_of, item_of, message_form, no_parts, received};

use crate::rows::Line;
use osbase::{
    Agreement, CORES, CoreId, CoreSet, IsrRef, Item, Message, ModeId, RemoteCall, SpinlockId,
    Status, Stimulus, TaskRef,
};

/// What the parts of a line say, one of each kind. A part that the row of a form does not have is ignored.
#[derive(Clone, Copy, PartialEq, Eq)]
pub struct Parts {
    pub core: CoreId,
    pub count: u64,
    pub status: Status,
    pub value: i64,
    pub mode: ModeId,
    pub isr: IsrRef,
    pub spinlock: SpinlockId,
    pub call: RemoteCall,
    pub cores: CoreSet,
}

impl Parts {
    /// The parts of a line before any word is read. Their values are fillers, and mean nothing.
    pub fn none() -> Parts
        ensures { result ≡ no_parts }
    {
        let core = CoreId { number: 0 };
        Parts {
            core,
            count: 0,
            status: Status::EOk,
            value: 0,
            mode: ModeId { index: 0 },
            isr: IsrRef { core, index: 0 },
            spinlock: SpinlockId { index: 0 },
            call: RemoteCall::ActivateTask(TaskRef { core, index: 0 }),
            cores: no_cores(),
        }
    }
}

/// The empty set of cores.
pub fn no_cores() -> CoreSet
    ensures { result ≡ no_cores }
{
    CoreSet {
        members: [false; CORES],
    }
}

/// The item of a line of this form, by the parts of the line.
pub fn item_of(line: Line, parts: &Parts) -> Item
    ensures { result ≡ item_of line parts.now }
{
    match line {
        Line::Op => Item::Stim(Stimulus::Op),
        Line::Tick => Item::Stim(Stimulus::Tick),
        Line::Irq => Item::Stim(Stimulus::Irq(parts.isr)),
        Line::Posted => Item::Posted(parts.core),
        Line::Request => received(parts, Message::Request(parts.call)),
        Line::Action => received(parts, Message::Action(parts.call)),
        Line::Reply => received(parts, Message::Reply(parts.status)),
        Line::Value => received(parts, Message::Value(parts.status, parts.value)),
        Line::On => Item::On,
        Line::Began => Item::Began {
            core: parts.core,
            status: parts.status,
        },
        Line::Entered => Item::Entered,
        Line::Conflict => Item::Pass1(Agreement::Conflict),
        Line::Agreed => Item::Pass1(Agreement::Mode(parts.mode)),
        Line::NoMode => Item::Pass1(Agreement::NoMode),
        Line::Readied => Item::Readied,
        Line::Started => Item::Pass2(parts.cores),
        Line::Granted => Item::Granted(parts.spinlock),
        Line::Taken => tried(parts, true),
        Line::NotTaken => tried(parts, false),
        Line::Freed => Item::Freed(parts.spinlock),
        Line::Halt => Item::Halt {
            core: parts.core,
            status: parts.status,
        },
        Line::Drained => Item::Drained,
        Line::PassEnd => Item::PassEnd,
        Line::Last => Item::Last(None),
        Line::LastHalted => Item::Last(Some((parts.core, parts.status))),
    }
}

// The item of a received letter with this message. `parts` has the letter's sender and number.
fn received(parts: &Parts, message: Message) -> Item
    ensures { result ≡ received parts.now message }
{
    Item::Received {
        from: parts.core,
        number: parts.count,
        message,
    }
}

// The item of an answered TryToGetSpinlock. `parts` has the spinlock, and `taken` says whether the core got it.
fn tried(parts: &Parts, taken: bool) -> Item
    ensures { result ≡ Item.Tried parts.now.spinlock taken }
{
    Item::Tried {
        spinlock: parts.spinlock,
        taken,
    }
}

/// The form of an item, and the parts of its line.
pub fn form_of(item: &Item) -> (Line, Parts)
    ensures { result ≡ form_of item.now }
{
    let none = Parts::none();
    match *item {
        Item::On => (Line::On, none),
        Item::Began { core, status } => with_status(Line::Began, core, status),
        Item::Entered => (Line::Entered, none),
        Item::Pass1(Agreement::Conflict) => (Line::Conflict, none),
        Item::Pass1(Agreement::NoMode) => (Line::NoMode, none),
        Item::Pass1(Agreement::Mode(mode)) => (Line::Agreed, Parts { mode, ..none }),
        Item::Readied => (Line::Readied, none),
        Item::Pass2(cores) => (Line::Started, Parts { cores, ..none }),
        Item::Stim(Stimulus::Op) => (Line::Op, none),
        Item::Stim(Stimulus::Tick) => (Line::Tick, none),
        Item::Stim(Stimulus::Irq(isr)) => (Line::Irq, Parts { isr, ..none }),
        Item::Posted(core) => (Line::Posted, Parts { core, ..none }),
        Item::Received {
            from,
            number,
            message,
        } => message_form(from, number, message),
        Item::Granted(spinlock) => (Line::Granted, Parts { spinlock, ..none }),
        Item::Tried { spinlock, taken } => {
            let form = if taken { Line::Taken } else { Line::NotTaken };
            (form, Parts { spinlock, ..none })
        }
        Item::Freed(spinlock) => (Line::Freed, Parts { spinlock, ..none }),
        Item::Halt { core, status } => with_status(Line::Halt, core, status),
        Item::Drained => (Line::Drained, none),
        Item::PassEnd => (Line::PassEnd, none),
        Item::Last(None) => (Line::Last, none),
        Item::Last(Some((core, status))) => with_status(Line::LastHalted, core, status),
    }
}

// This form, and parts with this core and this status.
fn with_status(form: Line, core: CoreId, status: Status) -> (Line, Parts)
    ensures { result ≡ (form, record no_parts { core = core; status = status }) }
{
    let parts = Parts {
        core,
        status,
        ..Parts::none()
    };
    (form, parts)
}

// The form of a received letter with this message, and the parts of the letter's line. `core` is the sender, and
// `count` the letter's number.
fn message_form(core: CoreId, count: u64, message: Message) -> (Line, Parts)
    ensures { result ≡ message_form (record no_parts { core = core; count = count }) message }
{
    let parts = Parts {
        core,
        count,
        ..Parts::none()
    };
    match message {
        Message::Request(call) => (Line::Request, Parts { call, ..parts }),
        Message::Action(call) => (Line::Action, Parts { call, ..parts }),
        Message::Reply(status) => (Line::Reply, Parts { status, ..parts }),
        Message::Value(status, value) => (
            Line::Value,
            Parts {
                status,
                value,
                ..parts
            },
        ),
    }
}
