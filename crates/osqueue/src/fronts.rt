//! The word of the priorities that have entries, and where the queue of each begins. Each read of these is counted.

ghost use Rattle.std.specs.Prelude.{◌≡◌, ◌+◌, ◌<◌, ◌^◌, replicate, slice_index, slice_set};

use crate::reads::Reads;

/// A bit for each priority that has entries, and the place of its first entry.
#[derive(Drop)]
pub(crate) struct Fronts<const P: usize> {
    word: u32,
    places: [usize; P],
}

impl<const P: usize> Fronts<P> {
    /// No priority has entries.
    pub(crate) fn new() -> Self
        ensures { result ≡ record { word = 0; places = replicate P 0 } }
    {
        Fronts {
            word: 0,
            places: [0; P],
        }
    }

    /// Reads the word of the priorities that have entries.
    pub(crate) fn word(&self, reads: &mut Reads) -> u32
        requires { reads.old < 2 ^ 63 }
        ensures word { result ≡ self.now.word }
        ensures reads { reads.new ≡ reads.old + 1 }
    {
        reads.tick();
        self.word
    }

    /// Reads where the queue of a priority begins.
    pub(crate) fn place(&self, priority: u8, reads: &mut Reads) -> usize
        requires priority { priority < P }
        requires count { reads.old < 2 ^ 63 }
        ensures place { result ≡ slice_index self.now.places priority }
        ensures reads { reads.new ≡ reads.old + 1 }
    {
        reads.tick();
        self.places[usize::from(priority)]
    }

    /// Sets the word of the priorities that have entries.
    pub(crate) fn put_word(&mut self, word: u32)
        ensures { self.new ≡ record self.old { word = word } }
    {
        self.word = word;
    }

    /// Sets where the queue of a priority begins.
    pub(crate) fn put_place(&mut self, priority: u8, place: usize)
        requires { priority < P }
        ensures { self.new ≡ record self.old { places = slice_set self.old.places priority place } }
    {
        self.places[usize::from(priority)] = place;
    }
}
