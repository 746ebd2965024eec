//! Which operations the scripts of a core have.

ghost use Rattle.std.specs.{Prelude.◌≡◌, List.list_any};
ghost use Rattle.osplan.specs.{declared.plans.Isr.Isr as IsrValue, declared.plans.Task.Task as TaskValue, Naming.has_operation, Naming.passes_test};

use crate::plans::Core;
use crate::sides::Side;
use oscript::Op;

/// A test of an operation, for whether it ties its core to other cores.
#[derive(Clone, Copy)]
pub enum OpTest {
    /// It names an object on this side.
    Names(Side),
    /// Its effect depends on what all cores share.
    AsksShared,
    /// It shuts all cores down.
    HaltsAll,
}

impl OpTest {
    // Whether the operation does what the test asks about.
    fn passes(self, op: Op) -> bool
        ensures { result ≡ passes_test self op }
    {
        match self {
            OpTest::Names(side) => side.is_named_by_op(op),
            OpTest::AsksShared => op.asks_shared(),
            OpTest::HaltsAll => op.halts_all(),
        }
    }
}

// Whether an operation of the script passes the test.
fn script_has(script: &[Op], test: OpTest) -> bool
    ensures { result ≡ list_any (passes_test test) script.now }
{
    script.iter().any(|op| test.passes(*op))
}

// Whether the script of one of the core's tasks has an operation that passes the test.
fn tasks_have(core: &Core, test: OpTest) -> bool
    ensures { result ≡ list_any (λ (task : TaskValue). list_any (passes_test test) task.script) core.now.tasks }
{
    core.tasks
        .as_slice()
        .iter()
        .any(|task| script_has(task.script.as_slice(), test))
}

// Whether the script of one of the core's ISRs has an operation that passes the test.
fn isrs_have(core: &Core, test: OpTest) -> bool
    ensures { result ≡ list_any (λ (isr : IsrValue). list_any (passes_test test) isr.script) core.now.isrs }
{
    core.isrs
        .as_slice()
        .iter()
        .any(|isr| script_has(isr.script.as_slice(), test))
}

/// Whether a script of the core, of a task or of an ISR, has an operation that passes the test.
#[tactic(auto, using(crate::proofs::Scripts::any_script))]
pub fn has_operation(core: &Core, test: OpTest) -> bool
    ensures { result ≡ has_operation (passes_test test) core.now }
{
    tasks_have(core, test) || isrs_have(core, test)
}
