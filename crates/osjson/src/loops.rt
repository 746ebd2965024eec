//! The loop over the elements of a list.

ghost use Rattle.std.specs.Prelude.{◌≡◌, Bool, IfOk, IsTrue, Option};
ghost use Rattle.std.specs.List.{list_all};
ghost use Rattle.osjson.specs.Reading.{Gives, each};

use crate::refusals::Refusal;
use osbase::List;
use std::alloc::Global;

/// Reads one element.
pub trait Reader<'e, T, U> {
    /// What an element is read as.
    ghost shape: { Self → T → Option U };

    /// A test. Every element that is read passes it.
    ghost passes: { Self → U → Bool };

    /// What the element is read as. `Unfit` where it does not have the reader's shape; `OutOfMemory` where memory runs
    /// out.
    fn read(&self, alloc: Global, element: &'e T) -> Result<U, Refusal>
        ensures shape { Gives (λ x. x) result (shape self.now element.now) }
        ensures passes { IfOk result (λ x. IsTrue (passes self.now x)) };
}

/// Each element as the reader reads it. `Unfit` where one of them does not have the reader's shape; `OutOfMemory` where
/// memory runs out.
pub fn read_each<'e, T, U: Drop, R: Reader<'e, T, U>>(
    alloc: Global,
    reader: &R,
    elements: &'e [T],
) -> Result<List<U>, Refusal>
    ensures shape { Gives (λ x. x) result (each (R.shape reader.now) elements.now) }
    ensures passes { IfOk result (λ xs. IsTrue (list_all (R.passes reader.now) xs)) }
{
    let mut read = List::new(alloc);
    for element in elements {
        read.push(reader.read(alloc, element)?)?;
    }
    Ok(read)
}
