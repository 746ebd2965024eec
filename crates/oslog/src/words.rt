//! The values of a line's words: statuses, core numbers and sets of cores.

ghost use Rattle.std.specs.Prelude.{◌≡◌};
ghost use Rattle.osbase.specs.History.{no_cores};
ghost use Rattle.ossyntax.specs.ParsedOp.{rest_words};
ghost use Rattle.oslog.specs.Words.{core_of, cores_from, status_of};

use crate::forms::no_cores;
use osbase::{CORES, CoreId, CoreSet, STATUS_LIST, Status};
use ossyntax::{cut, number_in};

/// The status that this word names.
pub fn status_of(word: &str) -> Option<Status>
    ensures { result ≡ status_of word.now }
{
    STATUS_LIST
        .iter()
        .copied()
        .find(|status| status.name() == word)
}

/// The core whose number is this word: 0 to 255 in decimal.
pub fn core_of(word: &str) -> Option<CoreId>
    ensures { result ≡ core_of word.now }
{
    let number = number_in(0, 255, word)?;
    Some(CoreId {
        number: number as u8,
    })
}

/// The set of the cores whose numbers the text lists, if the numbers ascend and each is below `CORES`. Without a text
/// it is the empty set.
pub fn cores_of(text: Option<&str>) -> Option<CoreSet>
    ensures { result ≡ cores_from 0 no_cores (rest_words text.entry) }
{
    let mut cores = no_cores();
    let mut least = 0;
    let mut left = text;
    while let Some(rest) = left {
        let (word, later) = cut(rest);
        let number = number_in(least, CORES as u64 - 1, word)?;
        cores.members[number as usize] = true;
        least = number + 1;
        left = later;
    }
    Some(cores)
}
