//! The least groups of cores, and the configuration of a group by itself.

use osplay::{Difference, given, group_of, play_table, result_of, run_of};
use std::alloc::Global;
use std::sync::Wait;
use std::test::Fail;
use std::thread::Threads;

const GROUPS: &str = r#"
// Two cores that call each other, and one by itself. Starting a core does not join two cores into one group.
config {"cores":[{"id":0,"start":[1,2],"tasks":[{"name":"A","prio":1,"auto":["M"],"script":"ActivateTask B;TerminateTask"},{"name":"C","prio":1,"script":"TerminateTask"}]},{"id":1,"tasks":[{"name":"B","prio":1,"script":"ActivateTask C;TerminateTask"}]},{"id":2,"tasks":[{"name":"V","prio":1,"auto":["M"],"script":"work;TerminateTask"}]}]}
stimuli {"0":"op op op","1":"op op","2":"op op"}
groups
core 0 group 0 1
core 1 group 0 1
core 2 group 2

group 0
{"cap":16,"cores":[{"alarms":[],"counters":[],"id":0,"isrs":[],"mode":"M","protection":"PRO_SHUTDOWN","resources":[],"start":[1,2],"tables":[],"tasks":[{"activations":1,"auto":["M"],"budget":0,"extended":false,"name":"A","preemptable":true,"prio":1,"script":"ActivateTask B;TerminateTask"},{"activations":1,"auto":[],"budget":0,"extended":false,"name":"C","preemptable":true,"prio":1,"script":"TerminateTask"}]},{"alarms":[],"counters":[],"id":1,"isrs":[],"mode":"M","protection":"PRO_SHUTDOWN","resources":[],"start":[],"tables":[],"tasks":[{"activations":1,"auto":[],"budget":0,"extended":false,"name":"B","preemptable":true,"prio":1,"script":"ActivateTask C;TerminateTask"}]},{"alarms":[],"counters":[],"id":2,"isrs":[],"mode":"M","protection":"PRO_SHUTDOWN","resources":[],"start":[],"tables":[],"tasks":[]}],"master":0,"modes":["M"],"spinlocks":[],"version":1}

// The configuration of the group alone has the same groups, and the group has this configuration there, too.
config
groups
core 0 group 0 1
core 1 group 0 1
core 2 group 2

group 1
{"cap":16,"cores":[{"alarms":[],"counters":[],"id":0,"isrs":[],"mode":"M","protection":"PRO_SHUTDOWN","resources":[],"start":[1,2],"tables":[],"tasks":[{"activations":1,"auto":["M"],"budget":0,"extended":false,"name":"A","preemptable":true,"prio":1,"script":"ActivateTask B;TerminateTask"},{"activations":1,"auto":[],"budget":0,"extended":false,"name":"C","preemptable":true,"prio":1,"script":"TerminateTask"}]},{"alarms":[],"counters":[],"id":1,"isrs":[],"mode":"M","protection":"PRO_SHUTDOWN","resources":[],"start":[],"tables":[],"tasks":[{"activations":1,"auto":[],"budget":0,"extended":false,"name":"B","preemptable":true,"prio":1,"script":"ActivateTask C;TerminateTask"}]},{"alarms":[],"counters":[],"id":2,"isrs":[],"mode":"M","protection":"PRO_SHUTDOWN","resources":[],"start":[],"tables":[],"tasks":[]}],"master":0,"modes":["M"],"spinlocks":[],"version":1}

config {"cores":[{"id":0,"start":[1,2],"tasks":[{"name":"A","prio":1,"auto":["M"],"script":"ActivateTask B;TerminateTask"},{"name":"C","prio":1,"script":"TerminateTask"}]},{"id":1,"tasks":[{"name":"B","prio":1,"script":"ActivateTask C;TerminateTask"}]},{"id":2,"tasks":[{"name":"V","prio":1,"auto":["M"],"script":"work;TerminateTask"}]}]}
group 2
{"cap":16,"cores":[{"alarms":[],"counters":[],"id":0,"isrs":[],"mode":"M","protection":"PRO_SHUTDOWN","resources":[],"start":[1,2],"tables":[],"tasks":[]},{"alarms":[],"counters":[],"id":1,"isrs":[],"mode":"M","protection":"PRO_SHUTDOWN","resources":[],"start":[],"tables":[],"tasks":[]},{"alarms":[],"counters":[],"id":2,"isrs":[],"mode":"M","protection":"PRO_SHUTDOWN","resources":[],"start":[],"tables":[],"tasks":[{"activations":1,"auto":["M"],"budget":0,"extended":false,"name":"V","preemptable":true,"prio":1,"script":"work;TerminateTask"}]}],"master":0,"modes":["M"],"spinlocks":[],"version":1}

// A core that is not configured has no group.
group 3
fault 5 UnknownName

group 255
fault 5 UnknownName

// A chain of cores that alarms link.
config {"cores":[{"id":0,"start":[1,2,3],"counters":[{"name":"CK","max":9}],"alarms":[{"name":"K","counter":"CK","action":"ActivateTask B"}]},{"id":1,"counters":[{"name":"CL","max":9}],"alarms":[{"name":"L","counter":"CL","action":"ActivateTask D"}],"tasks":[{"name":"B","prio":1,"script":"TerminateTask"}]},{"id":2,"tasks":[{"name":"D","prio":1,"script":"TerminateTask"}]},{"id":3}]}
groups
core 0 group 0 1 2
core 1 group 0 1 2
core 2 group 0 1 2
core 3 group 3

// A schedule table that acts on another core.
config {"cores":[{"id":0,"start":[1,2]},{"id":1,"tasks":[{"name":"B","prio":1,"script":"TerminateTask"}]},{"id":2,"counters":[{"name":"CT","max":9}],"tables":[{"name":"T","counter":"CT","duration":4,"points":[{"offset":2,"actions":["ActivateTask B"]}]}]}]}
groups
core 0 group 0
core 1 group 1 2
core 2 group 1 2

// Two groups with a spinlock each.
config {"spinlocks":[{"name":"S"},{"name":"T"}],"cores":[{"id":0,"start":[1,2,3],"tasks":[{"name":"Door","prio":1,"auto":["M"],"script":"GetSpinlock S;ReleaseSpinlock S;TerminateTask"}]},{"id":1,"tasks":[{"name":"Light","prio":1,"auto":["M"],"script":"GetSpinlock S;ReleaseSpinlock S;TerminateTask"}]},{"id":2,"tasks":[{"name":"Wiper","prio":1,"auto":["M"],"script":"GetSpinlock T;ReleaseSpinlock T;TerminateTask"}]},{"id":3,"tasks":[{"name":"Horn","prio":1,"auto":["M"],"script":"GetSpinlock T;ReleaseSpinlock T;TerminateTask"}]}]}
groups
core 0 group 0 1
core 1 group 0 1
core 2 group 2 3
core 3 group 2 3

// The configuration of each of these groups has both spinlocks.
group 3
{"cap":16,"cores":[{"alarms":[],"counters":[],"id":0,"isrs":[],"mode":"M","protection":"PRO_SHUTDOWN","resources":[],"start":[1,2,3],"tables":[],"tasks":[]},{"alarms":[],"counters":[],"id":1,"isrs":[],"mode":"M","protection":"PRO_SHUTDOWN","resources":[],"start":[],"tables":[],"tasks":[]},{"alarms":[],"counters":[],"id":2,"isrs":[],"mode":"M","protection":"PRO_SHUTDOWN","resources":[],"start":[],"tables":[],"tasks":[{"activations":1,"auto":["M"],"budget":0,"extended":false,"name":"Wiper","preemptable":true,"prio":1,"script":"GetSpinlock T;ReleaseSpinlock T;TerminateTask"}]},{"alarms":[],"counters":[],"id":3,"isrs":[],"mode":"M","protection":"PRO_SHUTDOWN","resources":[],"start":[],"tables":[],"tasks":[{"activations":1,"auto":["M"],"budget":0,"extended":false,"name":"Horn","preemptable":true,"prio":1,"script":"GetSpinlock T;ReleaseSpinlock T;TerminateTask"}]}],"master":0,"modes":["M"],"spinlocks":[{"name":"S","next":null},{"name":"T","next":null}],"version":1}

// One group, whose cores have a spinlock in common.
config {"spinlocks":[{"name":"S"},{"name":"T"}],"cores":[{"id":0,"start":[1,2,3],"tasks":[{"name":"Door","prio":1,"auto":["M"],"script":"GetSpinlock T;ReleaseSpinlock T;TerminateTask"}]},{"id":1,"tasks":[{"name":"Light","prio":1,"auto":["M"],"script":"GetSpinlock T;ReleaseSpinlock T;TerminateTask"}]},{"id":2,"tasks":[{"name":"Wiper","prio":1,"auto":["M"],"script":"GetSpinlock T;ReleaseSpinlock T;TerminateTask"}]},{"id":3,"tasks":[{"name":"Horn","prio":1,"auto":["M"],"script":"GetSpinlock T;ReleaseSpinlock T;TerminateTask"}]}]}
groups
core 0 group 0 1 2 3
core 1 group 0 1 2 3
core 2 group 0 1 2 3
core 3 group 0 1 2 3

// A core that is never started joins the group of the core that its script calls.
config {"cores":[{"id":0,"start":[1],"tasks":[{"name":"A","prio":1,"auto":["M"],"script":"TerminateTask"}]},{"id":1,"tasks":[{"name":"B","prio":1,"auto":["M"],"script":"TerminateTask"}]},{"id":2,"tasks":[{"name":"X","prio":1,"script":"ActivateTask A;TerminateTask"}]}]}
groups
core 0 group 0 2
core 1 group 1
core 2 group 0 2

// A core that shuts all cores down is in the group of each of them, but they are not in its group.
config {"cores":[{"id":0,"start":[1,2],"tasks":[{"name":"A","prio":1,"auto":["M"],"script":"ShutdownAllCores 0"}]},{"id":1,"tasks":[{"name":"B","prio":1,"auto":["M"],"script":"TerminateTask"}]},{"id":2}]}
groups
core 0 group 0
core 1 group 0 1
core 2 group 0 2

// A group lists its cores in the order of their numbers, and only cores that are configured.
config {"version":2,"cores":[{"id":12,"tasks":[{"name":"A","prio":1,"auto":["M"],"script":"ActivateTask B;TerminateTask"}]},{"id":0,"start":[12,3]},{"id":3,"tasks":[{"name":"B","prio":1,"script":"TerminateTask"}]}]}
groups
core 0 group 0
core 3 group 3 12
core 12 group 3 12

// A fault of the configuration is reported as by `check`, even if the core is not configured.
config x
groups
fault 1 NotJson

group 9
fault 1 NotJson

config {"cores":[]}
groups
fault 3 Limit

group 9
fault 3 Limit
"#;

// The stimuli of each of the first groups.
const STIMULI_OF_0_AND_1: &str = r#"{"0":"op op op","1":"op op"}"#;

const STIMULI_OF_2: &str = r#"{"2":"op op"}"#;

#[test]
fn groups_print_their_texts(rt: HostRuntime) -> Result<(), Difference> {
    play_table(&rt, rt.alloc(), GROUPS, 19)
}

// The result of a run that has only the configuration of the least group of core `number`.
fn run_of_group(
    rt: &(impl Threads + Wait + Sync),
    alloc: Global,
    config: &str,
    number: u8,
    stimuli: &str,
) -> Result<String, Fail> {
    let printed = result_of(rt, alloc, &group_of(number), &[Some(config)])?;
    let (own, _) = printed.split_once('\n').ok_or("a configuration")?;
    Ok(result_of(rt, alloc, &run_of(None), &[Some(own), Some(stimuli)])?)
}

#[test]
fn a_group_prints_by_itself_what_it_prints_in_the_whole(rt: HostRuntime) -> Result<(), Fail> {
    let alloc = rt.alloc();
    let (config, stimuli) = given(GROUPS)?;
    let whole = result_of(&rt, alloc, &run_of(None), &[Some(config), Some(stimuli)])?;
    let (of_0_and_1, of_2) = whole.split_once("core 2\n").ok_or("the block of core 2")?;
    assert!(rt; of_0_and_1.contains("in 0 ActivateTask B E_OK"));
    assert!(rt; of_2.contains("end V"));
    let first = run_of_group(&rt, alloc, config, 1, STIMULI_OF_0_AND_1)?;
    assert!(rt; first.starts_with(of_0_and_1));
    let second = run_of_group(&rt, alloc, config, 2, STIMULI_OF_2)?;
    assert!(rt; second.ends_with(of_2));
    Ok(())
}
