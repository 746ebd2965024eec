//! The input and the output of a run: stimuli, turns and reports.

ghost use Rattle.std.specs.Prelude.{◌≡◌, find, option_copied};
ghost use Rattle.osbase.specs.{History.same_core, Runs.stimuli_of};

use crate::items::{Item, Stimulus};
use crate::lists::List;
use crate::marks::Mark;
use crate::references::CoreId;
use std::fmt;

/// The stimuli of one core, in order.
#[derive(Debug, Drop)]
pub struct CoreStimuli {
    pub core: CoreId,
    pub words: List<Stimulus>,
}

/// The stimuli of a run. A core that is not listed has none.
pub type Stimuli = List<CoreStimuli>;

/// The stimuli of this core, from its first entry; none if the core has no entry.
pub fn stimuli_for(stimuli: &[CoreStimuli], core: CoreId) -> &[Stimulus]
    ensures { result.now ≡ stimuli_of stimuli.now core }
{
    match entry_of(stimuli, core) {
        Some(entry) => entry.words.as_slice(),
        None => &[],
    }
}

// The first entry of this core, if there is one.
fn entry_of(stimuli: &[CoreStimuli], core: CoreId) -> Option<&CoreStimuli>
    ensures { option_copied result ≡ find (λ entry. same_core entry.core core) stimuli.now }
{
    stimuli
        .iter()
        .find(|entry| entry.core.number == core.number)
}

/// What a core does in its turn.
#[derive(Clone, Copy, Debug, PartialEq, Eq)]
pub enum Choice {
    /// Goes on with its own work.
    Own,
    /// Takes the oldest envelope from this core.
    Serve(CoreId),
    /// Looks at the board.
    Look,
}

/// A turn of a core.
pub type Turn = (CoreId, Choice);

/// Turns in order.
pub type Schedule = List<Turn>;

/// The report of one core of a run: the items that it took, the lines that it printed, and whether
/// it reached its end.
#[derive(Drop)]
pub struct Report {
    pub core: CoreId,
    pub items: List<Item>,
    /// The logical clock of each item, if each core runs on a thread of its own. One order of all cores' items is
    /// derived from the clocks. A listed run has an order already, and no clocks.
    pub clocks: List<u64>,
    pub marks: List<Mark>,
    pub ended: bool,
}

impl fmt::Debug for Report {
    // Prints how many items and lines there are. The trace shows the lines themselves.
    fn fmt<W: fmt::Write>(&self, f: &mut fmt::Formatter<W>) -> fmt::Result {
        f.debug_struct("Report")
            .field("core", &self.core.number)
            .field("items", &self.items.len())
            .field("marks", &self.marks.len())
            .field("ended", &self.ended)
            .finish()
    }
}
