//! The resources that one job holds.

ghost use Rattle.std.specs.Prelude.{◌≡◌, ◌==◌, ◌<◌, ◌∷◌, [], drop, length, slice_get};
ghost use Rattle.osbase.specs.History.{greater, greatest_ceiling};

use arrayvec::ArrayVec;
use osbase::{HeldResource, RESOURCES};
use std::marker::Model;

/// The resources that a job holds, the newest first, and the greatest of their ceilings.
#[derive(Drop)]
pub struct Held {
    resources: ArrayVec<HeldResource, RESOURCES>,
    ceiling: u8,
}

impl Model for Held {
    ghost use Rattle.std.specs.Prelude.{◌≡◌, List};
    ghost use Rattle.osbase.specs.{declared.histories.HeldResource.HeldResource, History.greatest_ceiling};

    ghost Value = { List HeldResource };

    ghost view = { λ h. h.resources.items };

    ghost invariant = { λ h. h.ceiling ≡ greatest_ceiling h.resources.items };
}

impl Held {
    /// No resource.
    pub fn new() -> Self
        ensures { result ≡ [] }
    {
        Held {
            resources: ArrayVec::new(),
            ceiling: 0,
        }
    }

    /// Adds a resource as the newest.
    pub fn raise(&mut self, resource: HeldResource)
        requires { length self.old < RESOURCES }
        ensures { self.new ≡ resource ∷ self.old }
    {
        self.ceiling = greater(resource.ceiling, self.ceiling);
        self.resources.insert(0, resource);
    }

    /// If there is a resource, gives the newest one back and returns it.
    pub fn lower(&mut self) -> Option<HeldResource>
        ensures newest { result ≡ slice_get self.old 0 }
        ensures rest { self.new ≡ drop 1 self.old }
    {
        let newest = self.resources.pop_at(0)?;
        self.ceiling = greatest_ceiling(self.resources.as_slice());
        Some(newest)
    }

    /// The resources, the newest first.
    pub fn as_slice(&self) -> &[HeldResource]
        ensures { result.now ≡ self.now }
    {
        self.resources.as_slice()
    }

    /// The newest resource, if there is one.
    pub fn newest(&self) -> Option<HeldResource>
        ensures { result ≡ slice_get self.now 0 }
    {
        let newest = self.resources.as_slice().first()?;
        Some(*newest)
    }

    /// Whether no resource is held.
    pub fn is_empty(&self) -> bool
        ensures { result ≡ (length self.now == 0) }
    {
        self.resources.is_empty()
    }

    /// The greatest of the ceilings, or 0 if there is none (OSEK/VDX OS 2.2.3, section 8.5).
    pub fn ceiling(&self) -> u8
        ensures { result ≡ greatest_ceiling self.now }
    {
        self.ceiling
    }
}

impl Default for Held {
    fn default() -> Self
        ensures { result ≡ [] }
    {
        Held::new()
    }
}

/// The greater of two priorities.
pub fn greater(a: u8, b: u8) -> u8
    ensures { result ≡ greater a b }
{
    if a < b { b } else { a }
}

// The greatest ceiling of these resources; 0 if there is none.
fn greatest_ceiling(resources: &[HeldResource]) -> u8
    ensures { result ≡ greatest_ceiling resources.now }
{
    let mut greatest = 0;
    let mut place = resources.len();
    while place > 0 {
        place -= 1;
        greatest = greater(resources[place].ceiling, greatest);
    }
    greatest
}
