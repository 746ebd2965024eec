//! `groups` and `group`: the least group of each core, and the configuration of one group alone.

ghost use Rattle.std.specs.Prelude.{◌≡◌, ◌<◌, ◌≤◌, ◌^◌, IfErr, IfOk, filter, length, max, string_bytes};
ghost use Rattle.std.specs.List.{flat_map};
ghost use Rattle.osbase.specs.Sets.{core_ids, has_core};
ghost use Rattle.osplan.specs.declared.faults.ConfFault.TheVariants.{NoMemory};
ghost use Rattle.ostrace.specs.Taken.{Writes};
ghost use Rattle.osjob.specs.Groups.{group_at, group_head, group_line, groups_text, number_at, number_word};
ghost use Rattle.osjob.specs.Performs.{PrintsFrom, HasNoConfig, HasNoGroup, IsGroupOf, IsGroupOutput, IsGroupsOutput, NoFault};

use crate::checks::write_line;
use crate::endings::written;
use crate::faults::Fault;
use crate::outcomes::Outcome;
use crate::readings::{config_in, known_core};
use crate::sources::Source;
use itoa::Buffer;
use osbase::{CORE_NUMBERS, CoreId, CoreSet};
use osconf::{Config, config_text};
use osgroup::{group_config, least_group};
use ostrace::{Sink, WriteFailed, write_all};
use std::alloc::Global;

/// Prints for each configured core by ascending number the cores of its least group.
pub fn groups_out<S: Source, O: Sink>(
    alloc: Global,
    source: &mut S,
    out: &mut O,
) -> Result<Outcome, Fault>
    requires { O.failed out.old < 2 ^ 48 }
    ensures comes { PrintsFrom O.taken O.failed out.old out.new (NoFault (IsGroupsOutput (S.files source.new)))
        (HasNoConfig (S.files source.new)) (S.files source.new) (S.count source.new) result }
    ensures ahead { length (S.files source.new) ≤ max (length (S.files source.old)) 1 }
    ensures count { S.count source.new ≡ S.count source.old }
    ensures known { S.known source.new ≡ S.known source.old }
{
    let config = config_in(alloc, source)?;
    written(write_groups(&config, out), Ok(Outcome::Done))
}

// Writes the line of each configured core, by ascending number.
fn write_groups<O: Sink>(config: &Config, out: &mut O) -> Result<(), WriteFailed>
    requires { O.failed out.old < 2 ^ 48 }
    ensures { Writes O.taken O.failed out.old out.new (groups_text config.now) result }
{
    for number in 0..CORE_NUMBERS {
        write_group_at(config, out, CoreId { number })?;
    }
    Ok(())
}

// Writes the line of the core, or nothing if the core is not configured.
fn write_group_at<O: Sink>(config: &Config, out: &mut O, core: CoreId) -> Result<(), WriteFailed>
    requires { O.failed out.old < 2 ^ 48 }
    ensures { Writes O.taken O.failed out.old out.new (group_at config.now core) result }
{
    if config.plan().core(core).is_none() {
        return Ok(());
    }
    write_group(config, out, core)
}

// Writes the line of the core: its number, and the numbers of the cores of its least group.
fn write_group<O: Sink>(config: &Config, out: &mut O, core: CoreId) -> Result<(), WriteFailed>
    requires { O.failed out.old < 2 ^ 48 }
    ensures { Writes O.taken O.failed out.old out.new (group_line config.now core) result }
{
    let group = least_group(config, core);
    write_head(out, core)?;
    write_members(out, &group)?;
    write_all(out, b"\n")
}

// Writes the part of the core's line before the numbers of the group.
fn write_head<O: Sink>(out: &mut O, core: CoreId) -> Result<(), WriteFailed>
    requires { O.failed out.old < 2 ^ 48 }
    ensures { Writes O.taken O.failed out.old out.new (group_head core) result }
{
    write_all(out, b"core")?;
    write_number(out, core)?;
    write_all(out, b" group")
}

// Writes the numbers of the group's cores in ascending order, each after a space.
fn write_members<O: Sink>(out: &mut O, group: &CoreSet) -> Result<(), WriteFailed>
    requires { O.failed out.old < 2 ^ 48 }
    ensures { Writes O.taken O.failed out.old out.new (flat_map number_word (filter (has_core group.now) core_ids)) result }
{
    for number in 0..CORE_NUMBERS {
        write_member(out, group, CoreId { number })?;
    }
    Ok(())
}

// Writes a space and the core's number, or nothing if the core is not in the group.
fn write_member<O: Sink>(out: &mut O, group: &CoreSet, core: CoreId) -> Result<(), WriteFailed>
    requires { O.failed out.old < 2 ^ 48 }
    ensures { Writes O.taken O.failed out.old out.new (number_at (has_core group.now) core) result }
{
    if !group.contains(core) {
        return Ok(());
    }
    write_number(out, core)
}

// Writes a space and the core's number.
fn write_number<O: Sink>(out: &mut O, core: CoreId) -> Result<(), WriteFailed>
    requires { O.failed out.old < 2 ^ 48 }
    ensures { Writes O.taken O.failed out.old out.new (number_word core) result }
{
    let mut digits = Buffer::new();
    write_all(out, b" ")?;
    write_all(out, digits.format(core.number).as_bytes())
}

/// Prints the configuration of a core's least group alone. If the core is not configured, the fault is `UnknownName`.
pub fn group_out<S: Source, O: Sink>(
    alloc: Global,
    core: CoreId,
    source: &mut S,
    out: &mut O,
) -> Result<Outcome, Fault>
    requires { O.failed out.old < 2 ^ 48 }
    ensures comes { PrintsFrom O.taken O.failed out.old out.new (NoFault (IsGroupOutput core (S.files source.new)))
        (HasNoGroup core (S.files source.new)) (S.files source.new) (S.count source.new) result }
    ensures ahead { length (S.files source.new) ≤ max (length (S.files source.old)) 1 }
    ensures count { S.count source.new ≡ S.count source.old }
    ensures known { S.known source.new ≡ S.known source.old }
{
    let config = config_in(alloc, source)?;
    known_core(&config, core)?;
    let text = text_of_group(alloc, &config, core)?;
    written(write_line(out, text.as_str()), Ok(Outcome::Done))
}

// The text of the configuration of the core's least group alone.
fn text_of_group(alloc: Global, config: &Config, core: CoreId) -> Result<String, Fault>
    ensures ok { IfOk result (λ text. IsGroupOf config.now core (string_bytes text)) }
    ensures fault { IfErr result (λ fault. fault ≡ Fault.Text NoMemory) }
{
    let group = group_config(alloc, config, least_group(config, core))?;
    Ok(config_text(alloc, &group)?)
}
