//! What follows from the sets of the board.

ghost use Rattle.std.specs.Prelude.{◌≡◌, count_by, position, IfSome, ◌<◌};
ghost use Rattle.osboard.specs.Boards.{agreement_in, have_all, start_answer};

use crate::calls::{BoardView, ModeSet};
use osbase::{Agreement, CoreId, CoreSet, ModeId, Status};

impl BoardView {
    /// What a start of this core is answered: E_OS_STATE if the core is started already, else E_OK (AUTOSAR SWS OS 4.x,
    /// StartCore).
    pub fn start_answer(&self, core: CoreId) -> Status
        ensures { result ≡ start_answer self.now core }
    {
        if self.started.contains(core) {
            Status::EOsState
        } else {
            Status::EOk
        }
    }

    /// Whether every started core has entered, so that the first gate is open.
    pub fn have_all_entered(&self) -> bool
        ensures { result ≡ have_all self.now.started self.now.entered }
    {
        have_all(&self.started, &self.entered)
    }

    /// Whether every started core is ready, so that the second gate is open.
    pub fn are_all_ready(&self) -> bool
        ensures { result ≡ have_all self.now.started self.now.ready }
    {
        have_all(&self.started, &self.ready)
    }

    /// The result of comparing the modes of the cores that entered: none, the one, or a conflict
    /// (AUTOSAR SWS OS 4.x, SWS_Os_00608 to SWS_Os_00610; that all may say DONOTCARE is this project's own).
    pub fn agreement(&self) -> Agreement
        ensures { result ≡ agreement_in self.now.modes }
    {
        match (named_count(&self.modes), first_named(&self.modes)) {
            (0, _) => Agreement::NoMode,
            (1, Some(index)) => Agreement::Mode(ModeId { index: index as u8 }),
            (1, None) => Agreement::NoMode,
            (_, _) => Agreement::Conflict,
        }
    }
}

// How many modes are named.
fn named_count(modes: &ModeSet) -> usize
    ensures { result ≡ count_by (λ b. b) modes.now.members }
{
    modes.members.iter().filter(|named| **named).count()
}

// The index of the first mode that is named; none if no mode is named.
fn first_named(modes: &ModeSet) -> Option<usize>
    ensures value { result ≡ position (λ b. b) modes.now.members }
    ensures small { IfSome result (λ index. index < 256) }
{
    modes.members.iter().position(|named| *named)
}

/// Whether each of the started cores is in the set `cores`: what a synchronisation point waits for (AUTOSAR SWS OS 4.x,
/// SWS_Os_00579 and SWS_Os_00580).
pub fn have_all(started: &CoreSet, cores: &CoreSet) -> bool
    ensures { result ≡ have_all started.now cores.now }
{
    started
        .members
        .iter()
        .zip(cores.members.iter())
        .all(|(needed, there)| !*needed || *there)
}
