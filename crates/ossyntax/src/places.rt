//! The places of the objects that names refer to.

ghost use Rattle.std.specs.Prelude.{◌≡◌, ℕ, List, Option, IfSome, true};
ghost use Rattle.osbase.specs.{Names.is_name, declared.objects.ObjectKind.ObjectKind as KindOfObject, declared.objects.Place.Place as Where};

use osbase::{CoreId, ObjectKind, Place, is_name};

/// The places of the objects that names refer to.
pub trait Places {
    ghost place: { Self → KindOfObject → List ℕ → Option Where };

    /// The place of the object of this kind and name, if there is one. A text that is not a well-formed name names no
    /// object.
    fn place(&self, kind: ObjectKind, name: &str) -> Option<Place>
        ensures value { result ≡ place self.now kind name.now }
        ensures in_form { IfSome result (λ _. is_name name.now ≡ true) };
}

/// Gives every name the same place, so that a text can be checked whatever its names refer to.
#[derive(Clone, Copy)]
pub struct AnyName;

impl Places for AnyName {
    ghost use Rattle.ossyntax.specs.Operation.{place_of_any};

    ghost place = { λ _ kind name. place_of_any kind name };

    fn place(&self, _kind: ObjectKind, name: &str) -> Option<Place> {
        if is_name(name) {
            Some(Place {
                core: CoreId { number: 0 },
                index: 0,
            })
        } else {
            None
        }
    }
}
