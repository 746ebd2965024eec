//! The lock budgets of the resources that a job holds.

ghost use Rattle.std.specs.Prelude.{◌≡◌};
ghost use Rattle.osjobs.specs.Locks.{is_overheld, lock_of};
ghost use Rattle.osrunner.specs.Rows.{row_in};

use osbase::Runner;
use osplan::Core;
use osrunner::Rows;

// The lock budget of the core's resource of this index, in ticks; 0 is none.
fn lock_of(core: &Core, index: u8) -> u32
    ensures { result ≡ lock_of core.now index }
{
    match core.resources.as_slice().get(usize::from(index)) {
        Some(resource) => resource.lock,
        None => 0,
    }
}

/// Whether the runner's oldest job has reached the lock budget of a resource that it holds, in ticks since it took the
/// resource.
pub(crate) fn is_overheld(core: &Core, rows: &Rows, runner: Runner) -> bool
    ensures { result ≡ is_overheld core.now (row_in runner rows.now) }
{
    rows.held(runner).iter().any(|held| rows.is_lock_spent(
        runner,
        held.index,
        lock_of(core, held.index),
    ))
}
