//! How an order is sought, by the clocks of the items. Nothing is promised of the turns found: playing them shows if
//! they are an order.

use crate::worlds::World;
use osbase::{Choice, Item, List, Report, SPINLOCKS, Schedule, SpinlockId, Stimuli, Turn};
use osplan::Config;
use std::alloc::{AllocError, Global};

/// The turns found until no core could go on. Each turn is of the core whose next item has the least clock among the
/// items that the world admits; of several with that clock, it is of the first. An item that takes a spinlock is put
/// off while some core is to take or free it by an item with a smaller clock. `None` if an allocation fails.
pub(crate) fn turns_sought(
    alloc: Global,
    config: &Config,
    stimuli: &Stimuli,
    reports: &[Report],
) -> Option<Schedule> {
    let mut world = World::new(alloc, config, stimuli.as_slice()).ok()?;
    let mut tracks = tracks_of(alloc, reports).ok()?;
    played(alloc, &mut world, tracks.as_mut_slice(), count_of(reports))
}

// Plays at most `count` items, and returns the turns by which they were played. `None` if an allocation fails.
fn played(
    alloc: Global,
    world: &mut World,
    tracks: &mut [Track],
    count: usize,
) -> Option<Schedule> {
    let mut turns = List::new(alloc);
    for _ in 0..count {
        let Some((at, turn)) = next_turn(tracks, world) else {
            break;
        };
        world.turn(turn.0, turn.1).ok()?;
        turns.push(turn).ok()?;
        if let Some(track) = tracks.get_mut(at) {
            track.pass();
        }
    }
    Some(turns)
}

// How many items the reports have.
fn count_of(reports: &[Report]) -> usize {
    let mut count: usize = 0;
    for report in reports {
        count = count.saturating_add(report.items.len());
    }
    count
}

// The turn to play next, with the place of its core in `tracks`. `None` if no core can take its next item now.
fn next_turn(tracks: &[Track], world: &World) -> Option<(usize, Turn)> {
    let mut least: Option<u64> = None;
    let mut found = None;
    for (at, track) in tracks.iter().enumerate() {
        if let Some((clock, choice)) = sooner_choice(tracks, world, track, least) {
            least = Some(clock);
            found = Some((at, (track.report.core, choice)));
        }
    }
    found
}

// The choice by which the core can take its next item now, with the item's clock. `None` if the clock is not less than
// the least so far, the item's spinlock is to be used before, or the world does not admit the item.
fn sooner_choice(
    tracks: &[Track],
    world: &World,
    track: &Track,
    least: Option<u64>,
) -> Option<(u64, Choice)> {
    let (item, clock) = track.next()?;
    if is_too_late(least, clock) || waits(tracks, item, clock) {
        return None;
    }
    let choice = world.choice_for(track.report.core, item)?;
    Some((clock, choice))
}

// Whether the least clock so far, if there is one, is at most this clock.
fn is_too_late(least: Option<u64>, clock: u64) -> bool {
    match least {
        Some(least) => least <= clock,
        None => false,
    }
}

// Whether some core is to take or free the spinlock that this item takes, by an item with a smaller clock.
fn waits(tracks: &[Track], item: &Item, clock: u64) -> bool {
    match spinlock_taken(item) {
        Some(spinlock) => tracks
            .iter()
            .any(|track| track.uses_before(spinlock, clock)),
        None => false,
    }
}

// The items of one core that are still to be played.
#[derive(Drop)]
struct Track<'a> {
    report: &'a Report,
    // The place of the next item, and for each spinlock that of the next item that takes or frees it.
    place: usize,
    uses: [usize; SPINLOCKS],
}

// A track for each report. All items are still to be played.
fn tracks_of(alloc: Global, reports: &[Report]) -> Result<Vec<Track<'_>>, AllocError> {
    let mut tracks = Vec::with_capacity(alloc, reports.len())?;
    for report in reports {
        tracks.push(Track::new(report))?;
    }
    Ok(tracks)
}

impl<'a> Track<'a> {
    fn new(report: &'a Report) -> Self {
        Track {
            report,
            place: 0,
            uses: first_uses(report.items.as_slice()),
        }
    }

    // The next item, with its clock.
    fn next(&self) -> Option<(&'a Item, u64)> {
        let item = self.report.items.as_slice().get(self.place)?;
        let clock = self.report.clocks.as_slice().get(self.place)?;
        Some((item, *clock))
    }

    // Whether the core is to take or free the spinlock by an item with a smaller clock.
    fn uses_before(&self, spinlock: SpinlockId, clock: u64) -> bool {
        match self.clock_of_use(spinlock) {
            Some(own) => own < clock,
            None => false,
        }
    }

    // The clock of the next item that takes or frees the spinlock, if there is one.
    fn clock_of_use(&self, spinlock: SpinlockId) -> Option<u64> {
        let place = self.uses.get(usize::from(spinlock.index))?;
        let clock = self.report.clocks.as_slice().get(*place)?;
        Some(*clock)
    }

    // Marks the next item as played.
    fn pass(&mut self) {
        let items = self.report.items.as_slice();
        let played = self.place;
        self.place = played.saturating_add(1);
        let Some(spinlock) = items.get(played).and_then(spinlock_used) else {
            return;
        };
        if let Some(place) = self.uses.get_mut(usize::from(spinlock.index)) {
            *place = next_use(items, self.place, spinlock);
        }
    }
}

// The spinlock that the item takes.
fn spinlock_taken(item: &Item) -> Option<SpinlockId> {
    match item {
        Item::Granted(spinlock)
        | Item::Tried {
            spinlock,
            taken: true,
        } => Some(*spinlock),
        _ => None,
    }
}

// The spinlock that the item takes or frees.
fn spinlock_used(item: &Item) -> Option<SpinlockId> {
    match item {
        Item::Freed(spinlock) => Some(*spinlock),
        _ => spinlock_taken(item),
    }
}

// For each spinlock the place of the first item that takes or frees it, or the number of items if none does.
fn first_uses(items: &[Item]) -> [usize; SPINLOCKS] {
    let mut uses = [0; SPINLOCKS];
    for index in 0..SPINLOCKS as u8 {
        uses[usize::from(index)] = next_use(items, 0, SpinlockId { index });
    }
    uses
}

// The place of the first item from this place on that takes or frees the spinlock, or the number of items if none does.
fn next_use(items: &[Item], from: usize, spinlock: SpinlockId) -> usize {
    for place in from..items.len() {
        if let Some(used) = spinlock_used(&items[place]) {
            if used.index == spinlock.index {
                return place;
            }
        }
    }
    items.len()
}
