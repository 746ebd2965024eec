//! The operations and actions of a text, and what is right about them.

ghost use Rattle.std.specs.Prelude.{◌≡◌, IfOk, Some, length, map, nat_le};
ghost use Rattle.std.specs.List.{list_all, list_any};
ghost use Rattle.oscript.specs.{Calls.any_action as any_action_value, Rows.has_masks as has_events, Rows.uses_resource, declared.Op.Op as OpValue};
ghost use Rattle.ossyntax.specs.Operation.{op_of_text};
ghost use Rattle.osplan.specs.Representable.{goes_within, is_jumping_within};
ghost use Rattle.osplan.specs.Limits as limits;
ghost use Rattle.osschema.specs.Declarations.{counter_ref, place_of};
ghost use Rattle.osvalidate.specs.{declared.verdicts.Judged.Judged as JudgedValue, Action.action_of, Action.is_action_known, Action.is_action_masked, Check.is_operation_local, Operation.is_operation, Operation.op_of, Operation.operations_of};
ghost use Rattle.osvalidate.specs.Verdict.{Judges, action_verdict, counter_verdict, each, isr_verdict, judged_op, script_verdict};

use crate::verdicts::{Judged, Verdict};
use osbase::{
    CoreId, CounterRef, List, OPERATIONS, ObjectKind, Place, Reference, RemoteCall, TaskRef,
};
use oscript::{Op, Script, action_of_op};
use osjson::{PartReader, Refusal, read_parts};
use osplan::{ConfFault, is_local_to};
use osschema::Objects;
use ossyntax::{AnyName, Places, has_masks, is_action, is_known, op_of_text, references_of_text};
use std::alloc::{AllocError, Global};

// Whether the text is an operation, well-formed and in range.
fn is_operation(text: &str) -> bool
    ensures { result ≡ is_operation text.now }
{
    op_of_text(&AnyName, text).is_some()
}

// Whether the operation names no object of another core than `id`, if it may name only objects of its own core. An
// operation that is not well-formed (its numbers may be out of range), or has an unknown name, passes.
fn is_operation_local(objects: &Objects, id: CoreId, text: &str) -> bool
    ensures { result ≡ is_operation_local objects.now.declared id text.now }
{
    match references_of_text(objects, text) {
        Some(op) => is_local_to(id, op),
        None => true,
    }
}

// Whether the operation, if it is a jump, goes to one of the script's `count` operations, or just past the last.
fn goes_within(count: usize, op: Op) -> bool
    ensures { result ≡ goes_within count op }
{
    match op.position() {
        Some(position) => position as usize <= count,
        None => true,
    }
}

// Whether each jump of the script goes to one of the script's operations, or just past the last.
fn is_jumping_within(script: &[Op]) -> bool
    ensures { result ≡ is_jumping_within script.now }
{
    script.iter().all(|op| goes_within(script.len(), *op))
}

// Whether each operation of the script that may name only objects of its own core names none of another core than `id`.
fn are_ops_local(id: CoreId, script: &[Op]) -> bool
    ensures { result ≡ list_all (limits.is_local_to id) script.now }
{
    script.iter().all(|op| is_local_to(id, *op))
}

// Whether each mask in the script has at least one event.
fn have_events(script: &[Op]) -> bool
    ensures { result ≡ list_all has_events script.now }
{
    script.iter().all(|op| op.has_masks())
}

// Reads an operation whose form and names have no fault.
#[derive(Clone, Copy)]
struct OpReader<'o, 'e> {
    objects: &'o Objects<'e>,
}

impl PartReader<Op> for OpReader<'_, '_> {
    ghost shape = { λ reader. op_of_text (place_of reader.objects.now.declared) };

    fn read(&self, part: &str) -> Option<Op> {
        op_of_text(self.objects, part)
    }
}

// Reads any text as an operation, and judges it.
#[derive(Clone, Copy)]
struct OpJudge<'o, 'e> {
    objects: &'o Objects<'e>,
    core: CoreId,
}

impl PartReader<Judged<Op>> for OpJudge<'_, '_> {
    ghost shape = { λ judge part. Some (judged_op judge.objects.now.declared judge.core part) };

    fn read(&self, part: &str) -> Option<Judged<Op>> {
        Some(Judged {
            value: op_of_text(self.objects, part).unwrap_or(Op::Work),
            verdict: Verdict {
                known: is_known(self.objects, part),
                near: is_operation_local(self.objects, self.core, part),
                masked: has_masks(part),
                formed: is_operation(part),
            },
        })
    }
}

// The operations of these parts.
fn ops_of(alloc: Global, parts: &[Judged<Op>]) -> Result<Vec<Op>, AllocError>
    ensures { IfOk result (λ ops. ops.items ≡ map (λ (part : JudgedValue OpValue). part.value) parts.now) }
{
    let mut ops = Vec::new(alloc);
    for part in parts {
        ops.push(part.value)?;
    }
    Ok(ops)
}

// The verdict on all parts together.
fn verdict_of_parts(parts: &[Judged<Op>]) -> Verdict
    ensures { result ≡ each (λ (part : JudgedValue OpValue). part.verdict) parts.now }
{
    let mut verdict = Verdict::all_right();
    for part in parts {
        verdict = verdict.and(part.verdict);
    }
    verdict
}

// The operations of a script, and the verdict on the script. A part that means no operation becomes `Work`. `Limit` if
// there are too many parts; `NoMemory` where memory runs out.
fn judge_parts(
    alloc: Global,
    objects: &Objects,
    core: CoreId,
    script: &str,
) -> Result<Judged<Script>, ConfFault>
    ensures { Judges result (nat_le (length (operations_of script.now)) 256) (map (op_of objects.now.declared) (operations_of script.now)) (script_verdict objects.now.declared core script.now) }
{
    match read_parts(alloc, &OpJudge { objects, core }, script, ';', OPERATIONS) {
        Ok(parts) => {
            let ops = List::from_vec(ops_of(alloc, parts.as_slice())?);
            let verdict = verdict_of_parts(parts.as_slice());
            let formed = verdict.formed & is_jumping_within(ops.as_slice());
            Ok(Judged {
                value: ops,
                verdict: Verdict { formed, ..verdict },
            })
        }
        Err(Refusal::OutOfMemory) => Err(ConfFault::NoMemory),
        Err(Refusal::Unfit) => Err(ConfFault::Limit),
    }
}

/// The operations of a task's script, and the verdict on the script. A part that means no operation becomes `Work`.
/// `Limit` if there are too many parts; `NoMemory` where memory runs out. If each part means an operation, the script
/// is read only once.
pub fn judge_script(
    alloc: Global,
    objects: &Objects,
    core: CoreId,
    script: &str,
) -> Result<Judged<Script>, ConfFault>
    ensures { Judges result (nat_le (length (operations_of script.now)) 256) (map (op_of objects.now.declared) (operations_of script.now)) (script_verdict objects.now.declared core script.now) }
{
    match read_parts(alloc, &OpReader { objects }, script, ';', OPERATIONS) {
        Ok(ops) => {
            let verdict = Verdict {
                known: true,
                near: are_ops_local(core, ops.as_slice()),
                masked: have_events(ops.as_slice()),
                formed: is_jumping_within(ops.as_slice()),
            };
            Ok(Judged {
                value: ops,
                verdict,
            })
        }
        Err(Refusal::OutOfMemory) => Err(ConfFault::NoMemory),
        Err(Refusal::Unfit) => judge_parts(alloc, objects, core, script),
    }
}

// Whether an operation of the script gets or releases a resource.
fn uses_resource(script: &[Op]) -> bool
    ensures { result ≡ list_any uses_resource script.now }
{
    script.iter().any(|op| op.uses_resource())
}

/// The operations of an ISR's script, and the verdict on the script. The script is read and judged as a task's, but may
/// not get or release a resource. `Limit` if there are too many parts; `NoMemory` where memory runs out.
pub fn judge_isr_script(
    alloc: Global,
    objects: &Objects,
    core: CoreId,
    script: &str,
) -> Result<Judged<Script>, ConfFault>
    ensures { Judges result (nat_le (length (operations_of script.now)) 256) (map (op_of objects.now.declared) (operations_of script.now)) (isr_verdict objects.now.declared core script.now) }
{
    let Judged { value, verdict } = judge_script(alloc, objects, core, script)?;
    let formed = verdict.formed & !uses_resource(value.as_slice());
    Ok(Judged {
        value,
        verdict: Verdict { formed, ..verdict },
    })
}

// If the text is a well-formed action: whether the name in it is that of a task. Any other text passes.
fn is_action_known(objects: &Objects, text: &str) -> bool
    ensures { result ≡ is_action_known objects.now.declared text.now }
{
    !is_action(text) || is_known(objects, text)
}

// If the text is a well-formed action: whether its mask (if it has one) is in its range. Any other text passes.
fn is_action_masked(text: &str) -> bool
    ensures { result ≡ is_action_masked text.now }
{
    !is_action(text) || has_masks(text)
}

// A filler for the action where a text means none. It is never done.
fn any_action() -> RemoteCall
    ensures { result ≡ any_action_value }
{
    let core = CoreId { number: 0 };
    RemoteCall::ActivateTask(TaskRef::at(Place { core, index: 0 }))
}

// The verdict on a text that means no action, with `any_action` as the value.
fn judge_other(objects: &Objects, text: &str) -> Judged<RemoteCall>
    ensures value { result.value ≡ any_action_value }
    ensures verdict { result.verdict ≡ action_verdict objects.now.declared text.now }
{
    Judged {
        value: any_action(),
        verdict: Verdict {
            known: is_action_known(objects, text),
            near: true,
            masked: is_action_masked(text),
            formed: is_action(text),
        },
    }
}

/// The action that a text means, `any_action` if it means none, and the verdict on the text. An action may name any
/// core's task.
pub fn judge_action(objects: &Objects, text: &str) -> Judged<RemoteCall>
    ensures value { result.value ≡ action_of objects.now.declared text.now }
    ensures verdict { result.verdict ≡ action_verdict objects.now.declared text.now }
{
    let Some(op) = op_of_text(objects, text) else {
        return judge_other(objects, text);
    };
    let Some(action) = action_of_op(op) else {
        return judge_other(objects, text);
    };
    Judged {
        value: action,
        verdict: Verdict {
            known: true,
            near: true,
            masked: op.has_masks(),
            formed: true,
        },
    }
}

/// The counter of this name, and the verdict on it: whether it exists and is on this core. If it does not exist,
/// counter 0 of this core fills its place.
pub fn judge_counter(objects: &Objects, core: CoreId, name: &str) -> Judged<CounterRef>
    ensures value { result.value ≡ counter_ref objects.now.declared core name.now }
    ensures verdict { result.verdict ≡ counter_verdict objects.now.declared core name.now }
{
    match objects.place(ObjectKind::Counter, name) {
        Some(place) => Judged {
            value: CounterRef::at(place),
            verdict: Verdict {
                near: place.core.number == core.number,
                ..Verdict::all_right()
            },
        },
        None => Judged {
            value: CounterRef { core, index: 0 },
            verdict: Verdict {
                known: false,
                ..Verdict::all_right()
            },
        },
    }
}
