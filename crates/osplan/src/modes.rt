//! The names that application modes may have.

ghost use Rattle.std.specs.Prelude.{◌≡◌};
ghost use Rattle.osplan.specs.Representable.{is_reserved};

/// The word for the mode of a core that accepts any mode (AUTOSAR SWS OS 4.x, DONOTCARE).
pub const DONT_CARE: &str = "DONOTCARE";

/// Whether no mode may have this name: it is the word for any mode, or a log writes it in place of a mode.
pub fn is_reserved(name: &str) -> bool
    ensures { result ≡ is_reserved name.now }
{
    name == DONT_CARE || name == "conflict" || name == "none"
}
