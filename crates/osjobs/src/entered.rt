//! The ISRs whose oldest job was entered, the one entered last in front.

ghost use Rattle.std.specs.Prelude.{◌≡◌, ◌<◌, ◌∷◌, length, remove, IfSome, IfNone};
ghost use Rattle.osbase.specs.Interrupts.{isr_count, without_isr};

use arrayvec::ArrayVec;
use osbase::{ISRS, IsrRef};

/// The oldest job of the ISR is entered: the ISR is now the first in the list.
pub(crate) fn enter(isrs: &mut ArrayVec<IsrRef, ISRS>, isr: IsrRef)
    requires room { length (without_isr isr isrs.old.items) < ISRS }
    ensures { isrs.new.items ≡ isr ∷ without_isr isr isrs.old.items }
{
    leave(isrs, isr);
    isrs.insert(0, isr);
}

/// The ISR's entered job, if it has one, has ended: the ISR is taken out of the list.
pub(crate) fn leave(isrs: &mut ArrayVec<IsrRef, ISRS>, isr: IsrRef)
    ensures { isrs.new.items ≡ without_isr isr isrs.old.items }
{
    if let Some(place) = place_of(isrs.as_slice(), isr) {
        isrs.remove(place);
    }
}

/// How often the ISR is in the list.
pub(crate) fn count(isrs: &[IsrRef], isr: IsrRef) -> usize
    ensures { result ≡ isr_count isr isrs.now }
{
    let mut count = 0;
    let mut place = isrs.len();
    while place > 0 {
        place -= 1;
        if isrs[place] == isr {
            count += 1;
        }
    }
    count
}

// The first place of the ISR in the list; `None` if it is not there.
fn place_of(isrs: &[IsrRef], isr: IsrRef) -> Option<usize>
    ensures found { IfSome result (λ place. remove isrs.now place ≡ without_isr isr isrs.now) }
    ensures within { IfSome result (λ place. place < length isrs.now) }
    ensures none { IfNone result (without_isr isr isrs.now ≡ isrs.now) }
{
    for (place, other) in isrs.iter().enumerate() {
        if *other == isr {
            return Some(place);
        }
    }
    None
}
