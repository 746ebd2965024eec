//! The places of the objects of a configuration's text, found by their names.

ghost use Rattle.std.specs.Prelude.{◌≡◌, IfOk, IfSome, IsTrue, Some, count_by, find, is_some, option_copied, true};
ghost use Rattle.std.specs.List.{list_all};
ghost use Rattle.osbase.specs.Names.{is_name};
ghost use Rattle.osplan.specs.Representable.{are_distinct};
ghost use Rattle.osschema.specs.{declared.declarations.Declaration.Declaration as Declared, Shape.is_named, Index.Indexes};
ghost use Rattle.osschema.specs.Declarations.{counter_declared, declarations, has_name, is_alone, mode_ref, place_alone, place_in, names_of, spinlock_ref};

use crate::declarations::{Declaration, byte_of, declarations_of};
use crate::shapes::ConfigText;
use osbase::{List, ModeId, ObjectKind, Place, Reference, SpinlockId};
use ossyntax::Places;
use std::alloc::{AllocError, Global};
use std::collections::HashMap;

// The place of the declared object, if it is of this kind.
fn place_in(kind: ObjectKind, declaration: &Declaration) -> Option<Place>
    ensures { result ≡ place_in kind declaration.now }
{
    if declaration.kind.is(kind) {
        Some(Place {
            core: declaration.core,
            index: byte_of(Some(declaration.index as u64)),
        })
    } else {
        None
    }
}

/// Finds an object of a list by its name, and tells whether all names differ.
#[derive(Drop)]
struct Index<'t> {
    // For each name, the place in the list of the first object with that name.
    first: HashMap<&'t str, usize>,
    are_apart: bool,
    hints: Hints,
}

// For each hint, the place of an object that may have the name looked for. So most names need no hash.
#[derive(Drop)]
struct Hints {
    places: Vec<u16>,
}

// How many hints there are for each object. With 16, two names of one configuration seldom share a hint.
const HINTS: usize = 16;

// The highest bits of a product depend on all bits of what is multiplied by this odd number.
const SPREAD: u64 = 0x9e37_79b9_7f4a_7c15;

impl Hints {
    // The hints for these objects. If two objects share a hint, the hint leads to the later one. A hint of no object
    // leads to the first object.
    fn of(alloc: Global, declared: &[Declaration]) -> Result<Self, AllocError> {
        let count = declared.len().saturating_mul(HINTS);
        let mut places = vec![in alloc; 0; count]?;
        for (place, declaration) in declared.iter().enumerate() {
            let hint = hint_of(declaration.name.as_str(), count);
            if let (Some(hinted), Ok(place)) = (places.get_mut(hint), u16::try_from(place)) {
                *hinted = place;
            }
        }
        Ok(Hints { places })
    }

    // The place in the list of an object that may have this name.
    #[inline(always)]
    fn place(&self, name: &str) -> Option<usize> {
        let places = self.places.as_slice();
        let place = places.get(hint_of(name, places.len()))?;
        Some(usize::from(*place))
    }
}

// The hint of a name: a number below `count`; 0 if `count` is 0. The hint is made of the name's first and last eight
// bytes, or of all if there are fewer, since hashing all bytes takes longer than comparing them.
#[inline(always)]
fn hint_of(name: &str, count: usize) -> usize {
    let bytes = name.as_bytes();
    let word = match (
        bytes.as_chunks::<8>().0.first(),
        bytes.as_rchunks::<8>().1.last(),
    ) {
        (Some(first), Some(last)) => u64::from_le_bytes(*first) ^ u64::from_be_bytes(*last),
        _ => word_of_few(bytes),
    };
    let spread = word.wrapping_mul(SPREAD) >> 32;
    (spread.wrapping_mul(count as u64) >> 32) as usize
}

// The bytes of a name that has fewer than eight, as one number.
fn word_of_few(bytes: &[u8]) -> u64 {
    let mut word = 0;
    for byte in bytes {
        word = (word << 8) | u64::from(*byte);
    }
    word
}

// The index by which the declared objects are found by their names.
fn index_of<'t>(alloc: Global, declared: &[Declaration<'t>]) -> Result<Index<'t>, AllocError>
    ensures { IfOk result (λ index. Indexes declared.now index.first index.are_apart declared.now) }
{
    let mut first = HashMap::new(alloc);
    let mut are_apart = true;
    let mut place = declared.len();
    // From the last object to the first, so that the first object of each name stays.
    while place > 0 {
        place -= 1;
        let later = first.insert(declared[place].name.as_str(), place)?;
        are_apart &= later.is_none();
    }
    Ok(Index {
        first,
        are_apart,
        hints: Hints::of(alloc, declared)?,
    })
}

/// The objects that a text declares.
#[derive(Drop)]
pub struct Objects<'t> {
    declared: List<Declaration<'t>>,
    index: Index<'t>,
    ghost named: { IsTrue (list_all (λ (d : Declared). is_name d.name) declared) },
    ghost indexed: { Indexes declared index.first index.are_apart declared },
}

impl<'t> Objects<'t> {
    /// The objects that this text declares. The names of all objects in the text must be well-formed.
    pub fn of(alloc: Global, text: &'t ConfigText<'t>) -> Result<Self, AllocError>
        requires named { IsTrue (is_named text.now) }
        ensures { IfOk result (λ objects. objects.declared ≡ declarations text.now) }
    {
        let declared = declarations_of(alloc, text)?;
        let index = index_of(alloc, declared.as_slice())?;
        Ok(Objects { declared, index })
    }

    /// Whether the names of all objects are different.
    pub fn are_named_apart(&self) -> bool
        ensures { result ≡ are_distinct (names_of self.now.declared) }
    {
        self.index.are_apart
    }

    /// The mode of this name, or the first mode if there is none.
    pub fn mode(&self, name: &str) -> ModeId
        ensures { result ≡ mode_ref self.now.declared name.now }
    {
        match self.place(ObjectKind::Mode, name) {
            Some(place) => ModeId::at(place),
            None => ModeId { index: 0 },
        }
    }

    /// The spinlock of this name, if there is one.
    pub fn spinlock(&self, name: &str) -> Option<SpinlockId>
        ensures { result ≡ spinlock_ref self.now.declared name.now }
    {
        match self.place(ObjectKind::Spinlock, name) {
            Some(place) => Some(SpinlockId::at(place)),
            None => None,
        }
    }

    /// The declaration of the counter of this name, if no other object has the name.
    pub fn counter(&self, name: &str) -> Option<&Declaration<'t>>
        ensures { option_copied result ≡ counter_declared self.now.declared name.now }
    {
        match self.find(name) {
            Some(declaration) => {
                if declaration.kind.is(ObjectKind::Counter) && self.is_alone(name) {
                    Some(declaration)
                } else {
                    None
                }
            }
            None => None,
        }
    }

    /// The place of the object of this kind and name, if no other object has the name.
    pub fn place_alone(&self, kind: ObjectKind, name: &str) -> Option<Place>
        ensures value { result ≡ place_alone self.now.declared kind name.now }
        ensures in_form { IfSome result (λ _. is_name name.now ≡ true) }
    {
        match self.find(name) {
            Some(declaration) => {
                if self.is_alone(name) {
                    place_in(kind, declaration)
                } else {
                    None
                }
            }
            None => None,
        }
    }

    // Whether exactly one object has the name. At least one must have it. If all names differ, no objects are counted.
    fn is_alone(&self, name: &str) -> bool
        requires declared { is_some (find (has_name name.now) self.now.declared) ≡ true }
        ensures { result ≡ is_alone self.now.declared name.now }
    {
        self.are_named_apart() || self.count(name) == 1
    }

    // How many objects have the name.
    fn count(&self, name: &str) -> usize
        ensures { result ≡ count_by (has_name name.now) self.now.declared }
    {
        self.declared
            .as_slice()
            .iter()
            .filter(|declaration| declaration.name.as_str() == name)
            .count()
    }

    // The first object that has the name.
    #[inline(always)]
    fn find(&self, name: &str) -> Option<&Declaration<'t>>
        ensures { option_copied result ≡ find (has_name name.now) self.now.declared }
    {
        match self.hinted(name) {
            Some(declaration) => Some(declaration),
            None => self.indexed(name),
        }
    }

    // The object at the place of the name's hint, if this object has the name and no two objects share a name.
    #[inline(always)]
    fn hinted(&self, name: &str) -> Option<&Declaration<'t>>
        ensures { IfSome result (λ found. find (has_name name.now) self.now.declared ≡ Some found.now) }
    {
        let place = self.index.hints.place(name)?;
        let declaration = self.declared.as_slice().get(place)?;
        if self.index.are_apart && declaration.name.as_str() == name {
            Some(declaration)
        } else {
            None
        }
    }

    // The first object that has the name, by the hash of the name.
    #[inline(never)]
    fn indexed(&self, name: &str) -> Option<&Declaration<'t>>
        ensures { option_copied result ≡ find (has_name name.now) self.now.declared }
    {
        match self.index.first.get(name) {
            Some(place) => self.declared.as_slice().get(*place),
            None => None,
        }
    }
}

impl Places for Objects<'_> {
    ghost use Rattle.osschema.specs.Declarations.{place_of};

    ghost place = { λ objects. place_of objects.declared };

    fn place(&self, kind: ObjectKind, name: &str) -> Option<Place> {
        match self.find(name) {
            Some(declaration) => place_in(kind, declaration),
            None => None,
        }
    }
}
