//! The configuration of a group by itself.

ghost use Rattle.std.specs.Prelude.{◌≡◌, IsTrue, IfOk, IfErr, map};
ghost use Rattle.osgroup.specs.Groups.{bare_core, group_of, is_group, part_of};

use osbase::{CoreId, CoreSet, List};
use osplan::{ConfFault, Config, Core, Plan, Spinlock, copied_core, copied_modes};
use std::alloc::{AllocError, Global};

fn copied_start(core: &Core) -> Result<List<CoreId>, AllocError>
    ensures { IfOk result (λ start. start ≡ core.now.start) }
{
    core.start.clone()
}

fn copied_spinlock(spinlock: &Spinlock) -> Result<Spinlock, AllocError>
    ensures { IfOk result (λ copy. copy ≡ spinlock.now) }
{
    Ok(Spinlock {
        name: spinlock.name.clone()?,
        next: spinlock.next,
    })
}

fn copied_spinlocks(alloc: Global, plan: &Plan) -> Result<List<Spinlock>, AllocError>
    ensures { IfOk result (λ copies. copies ≡ plan.now.spinlocks) }
{
    let mut copies = List::new(alloc);
    for spinlock in plan.spinlocks.as_slice() {
        copies.push(copied_spinlock(spinlock)?)?;
    }
    Ok(copies)
}

// The core without its objects: its number, its mode, its start list, and its answer to a time fault.
fn bare_core(alloc: Global, core: &Core) -> Result<Core, AllocError>
    ensures { IfOk result (λ bare. bare ≡ bare_core core.now) }
{
    Ok(Core {
        id: core.id,
        mode: core.mode,
        start: copied_start(core)?,
        protection: core.protection,
        tasks: List::new(alloc),
        isrs: List::new(alloc),
        resources: List::new(alloc),
        counters: List::new(alloc),
        alarms: List::new(alloc),
        tables: List::new(alloc),
    })
}

// The core as the group's configuration has it: whole if it is in the group, else without its objects.
fn part_of(alloc: Global, group: &CoreSet, core: &Core) -> Result<Core, AllocError>
    ensures { IfOk result (λ part. part ≡ part_of group.now core.now) }
{
    if group.contains(core.id) {
        copied_core(core)
    } else {
        bare_core(alloc, core)
    }
}

// All cores of the plan, as the group's configuration has them.
fn parts_of(alloc: Global, group: &CoreSet, plan: &Plan) -> Result<List<Core>, AllocError>
    ensures { IfOk result (λ parts. parts ≡ map (part_of group.now) plan.now.cores) }
{
    let mut parts = List::new(alloc);
    for core in plan.cores.as_slice() {
        parts.push(part_of(alloc, group, core)?)?;
    }
    Ok(parts)
}

// The configuration of the group alone, as `group_config` describes it.
fn group_plan(alloc: Global, plan: &Plan, group: &CoreSet) -> Result<Plan, AllocError>
    ensures { IfOk result (λ part. part ≡ group_of plan.now group.now) }
{
    Ok(Plan {
        version: plan.version,
        cap: plan.cap,
        master: plan.master,
        modes: copied_modes(plan)?,
        spinlocks: copied_spinlocks(alloc, plan)?,
        cores: parts_of(alloc, group, plan)?,
    })
}

/// The configuration of a group alone, in which each core of the group sees what it sees in the whole. Each core
/// outside keeps its number, its mode, its start list and its answer to a time fault, and loses its objects. All else
/// stays: the version, the master, the modes, the spinlocks and the mailboxes' size. If memory runs out, the fault is
/// `NoMemory`. The given configuration stays as it is.
pub fn group_config(alloc: Global, config: &Config, group: CoreSet) -> Result<Config, ConfFault>
    requires { IsTrue (is_group config.now group) }
    ensures ok { IfOk result (λ part. part ≡ group_of config.now group) }
    ensures fault { IfErr result (λ fault. fault ≡ ConfFault.NoMemory) }
{
    let part = group_plan(alloc, config.plan(), &group)?;
    Ok(Config::new(part))
}
