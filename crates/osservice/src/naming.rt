//! What a script names.

ghost use Rattle.std.specs.Prelude.{◌≡◌, IfSome, IsTrue};
ghost use Rattle.osbase.specs.Objects.{object_at};
ghost use Rattle.osplan.specs.Objects.{is_own_object};
ghost use Rattle.osservice.specs.Named.{own_of};

use osbase::Reference;
use osstate::CoreState;

/// The object that a script names, if it is one of the core's own.
pub fn own_of<R: Reference, const P: usize, const J: usize, const OUT: usize>(
    state: &CoreState<'_, P, J, OUT>,
    target: Option<R>,
) -> Option<R>
    ensures value { result ≡ own_of (λ x. object_at R.KIND (R.place_of x)) state.now.view.own target }
    ensures own { IfSome result (λ x. IsTrue (is_own_object state.now.view.own (object_at R.KIND (R.place_of x)))) }
{
    let named = target?;
    if state.has(named.object()) {
        return Some(named);
    }
    None
}
