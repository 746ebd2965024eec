//! A core's progress: the part of its state that refers to no object of any core.

ghost use Rattle.std.specs.Prelude.{◌≡◌, ◌<◌, ◌^◌, vec_capacity, vec_len};
ghost use Rattle.osbase.specs.History.{Took, Printed, Noted, WentDown, agreement_after, began_after, course_after, phase_after, phase_past_first_gate, started_after};
ghost use Rattle.osprogress.specs.Progress.{Joins, first_progress, moved_by, progress_after};

use osbase::{Agreement, CORES, CoreSet, Course, Item, Mark, Phase};

/// The progress of a core.
#[derive(Clone, Copy, PartialEq, Eq)]
pub struct Progress {
    pub phase: Phase,
    pub course: Course,
    /// How many entries of the start list are done.
    pub began: usize,
    /// The result of the first gate, once it is passed.
    pub agreement: Option<Agreement>,
    /// The started cores, once the second gate is passed; none before.
    pub started: CoreSet,
    /// How many items were taken.
    pub items: u64,
    /// How many entries the history has. This is also the place of the next entry.
    pub entries: u64,
}

impl Progress {
    /// The progress of a core that took no item: the master is in boot, another core is off.
    pub fn new(is_master: bool) -> Self
        ensures { result ≡ first_progress is_master }
    {
        Progress {
            phase: if is_master { Phase::Boot } else { Phase::Off },
            course: Course::Going,
            began: 0,
            agreement: None,
            started: CoreSet {
                members: [false; CORES],
            },
            items: 0,
            entries: 0,
        }
    }

    /// Takes an item, and counts it as an item and as an entry of the history.
    pub fn take_item(&mut self, item: &Item)
        requires began { self.old.began < 2 ^ 63 }
        requires items { self.old.items < 2 ^ 63 }
        requires entries { self.old.entries < 2 ^ 63 }
        ensures { self.new ≡ progress_after (Took item.now) self.old }
    {
        // The items that a live core takes most often change only the counts.
        match item {
            Item::Stim(_) => {}
            Item::Posted(_) => {}
            Item::Received {
                from: _,
                number: _,
                message: _,
            } => {}
            _ => self.move_by(item),
        }
        self.items += 1;
        self.entries += 1;
    }

    // Makes the changes of an item to all but the counts of items and entries.
    fn move_by(&mut self, item: &Item)
        requires { self.old.began < 2 ^ 63 }
        ensures { self.new ≡ moved_by item.now self.old }
    {
        self.phase = phase_by(self.phase, item);
        self.course = course_by(self.course, item);
        self.began = began_by(self.began, item);
        self.agreement = agreement_by(self.agreement, item);
        self.started = started_by(self.started, item);
    }

    /// The core shuts down (AUTOSAR SWS OS 4.x, ShutdownOS).
    pub fn go_down(&mut self)
        requires { self.old.entries < 2 ^ 63 }
        ensures { self.new ≡ progress_after (Noted WentDown) self.old }
    {
        self.course = Course::Down;
        self.entries += 1;
    }

    /// Records a mark that is printed: counts it as an entry, and puts it behind the other marks.
    pub fn record(&mut self, mark: Mark, marks: &mut Vec<Mark>)
        requires entries { self.old.entries < 2 ^ 63 }
        requires place { vec_len marks.old < vec_capacity marks.old }
        ensures progress { self.new ≡ progress_after (Printed mark) self.old }
        ensures marks { Joins mark marks.old marks.new }
    {
        self.entries += 1;
        marks.push_reserved(mark);
    }
}

// The phase after an item; an item that is not listed here leaves it as it is.
fn phase_by(phase: Phase, item: &Item) -> Phase
    ensures { result ≡ phase_after (Took item.now) phase }
{
    match item {
        Item::On => Phase::Boot,
        Item::Entered => Phase::FirstGate,
        Item::Pass1(agreement) => past_first_gate(*agreement),
        Item::Readied => Phase::SecondGate,
        Item::Pass2(_) => Phase::Live,
        Item::Drained => Phase::Drained,
        Item::PassEnd => Phase::Closing,
        Item::Last(_) => Phase::Ended,
        _ => phase,
    }
}

// The phase past the first gate. If the application modes conflict, it is the last phase.
fn past_first_gate(agreement: Agreement) -> Phase
    ensures { result ≡ phase_past_first_gate agreement }
{
    match agreement {
        Agreement::Conflict => Phase::Ended,
        Agreement::Mode(_) => Phase::BetweenGates,
        Agreement::NoMode => Phase::BetweenGates,
    }
}

// The course after an item: a shutdown of all cores halts a core that is not down.
fn course_by(course: Course, item: &Item) -> Course
    ensures { result ≡ course_after (Took item.now) course }
{
    if let Item::Halt { core: _, status: _ } = item {
        return course.halted();
    }
    course
}

// How many entries of the start list are done after an item.
fn began_by(began: usize, item: &Item) -> usize
    requires { began < 2 ^ 63 }
    ensures { result ≡ began_after (Took item.now) began }
{
    if let Item::Began { core: _, status: _ } = item {
        return began + 1;
    }
    began
}

// The result of the first gate after an item, once the gate is passed.
fn agreement_by(agreement: Option<Agreement>, item: &Item) -> Option<Agreement>
    ensures { result ≡ agreement_after (Took item.now) agreement }
{
    if let Item::Pass1(agreed) = item {
        return Some(*agreed);
    }
    agreement
}

// The started cores after an item, once the second gate is passed; none before.
fn started_by(started: CoreSet, item: &Item) -> CoreSet
    ensures { result ≡ started_after (Took item.now) started }
{
    if let Item::Pass2(cores) = item {
        return *cores;
    }
    started
}
