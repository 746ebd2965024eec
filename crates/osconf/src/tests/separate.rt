//! Which cores are separate, and so may be cut out of a configuration.

use super::{Reader, alarms, counters, events, isrs, play, spinlocks, tables};
use std::test::Fail;

const FIRST: &str = r#"
// Core 1 is started by core 0, and core 2 by core 1. No script names a task of core 2.
text @
NotSeparate {"cap":2,"cores":[{"id":0,"start":[1,9],"tasks":[{"name":"A","prio":2,"script":"ActivateTask B;ActivateTask ?"}]},{"id":1,"start":[2],"tasks":[{"name":"B","prio":1,"script":""}]},{"id":2,"tasks":[{"name":"V","prio":1,"auto":["M"],"script":"work;ActivateTask V;ActivateTask ?;TerminateTask"}]},{"id":3}]}

// Core 0 activates a task of core 1, or core 1 a task of core 0. Core 1 is not started.
NotSeparate {"cores":[{"id":0,"tasks":[{"name":"A","prio":1,"script":"ActivateTask B"}]},{"id":1,"tasks":[{"name":"B","prio":1,"script":""}]}]}
NotSeparate {"cores":[{"id":0,"tasks":[{"name":"A","prio":1,"script":""}]},{"id":1,"tasks":[{"name":"B","prio":1,"script":"ActivateTask A"}]}]}

// A core that starts itself, and a core that is not configured.
NotSeparate {"cores":[{"id":0,"start":[0]}]}
NotSeparate {"master":5,"cores":[{"id":5}]}

// The other core's alarm counts, though that core is never started.
text {"cores":[{"id":0,"tasks":[{"name":"A","prio":1,"script":""}]},{"id":1,"tasks":[{"name":"B","prio":1,"script":""}],"counters":[{"name":"K","max":9}],"alarms":[{"name":"W","counter":"K","action":"ActivateTask @"}]}]}
fine B
NotSeparate A

// The other core's ISR counts, though that core is never started.
text {"cores":[{"id":0,"tasks":[{"name":"A","prio":1,"script":""}]},{"id":1,"tasks":[{"name":"B","prio":1,"script":""}],"isrs":[{"name":"I","level":1,"script":"ActivateTask @"}]}]}
fine B
NotSeparate A

// A script that starts cores (even cores that are not configured) or counts them binds its own core. A script that
// shuts all cores down binds every core. First, the script of a task.
text {"cores":[{"id":0,"tasks":[{"name":"A","prio":1,"script":"@"}]},{"id":1}]}
fine ShutdownOS 0;ShutdownOS 15
NotSeparate StartCore 0|StartCore 255|StartCore ?|work;GetNumberOfActivatedCores v7|work;ShutdownAllCores 15

// The script of an ISR.
text {"cores":[{"id":0,"isrs":[{"name":"I","level":1,"script":"@"}]},{"id":1}]}
fine ShutdownOS 0
NotSeparate StartCore ?|GetNumberOfActivatedCores v0|ShutdownAllCores 0

// Scripts of another core count, though that core is never started.
text {"cores":[{"id":0},{"id":1,"tasks":[{"name":"B","prio":1,"script":"@"}]}]}
fine StartCore 0;StartCore ?;GetNumberOfActivatedCores v0;ShutdownOS 0
NotSeparate ShutdownAllCores 0

text {"cores":[{"id":0},{"id":1,"isrs":[{"name":"J","level":1,"script":"@"}]}]}
fine StartCore 0;StartCore ?;GetNumberOfActivatedCores v0;ShutdownOS 0
NotSeparate work;ShutdownAllCores 0
"#;

// A script that names another core's task binds both cores.
const EVENTS: &str = r#"
fine ChainTask A;SetEvent B 1;GetEvent B v0
NotSeparate ChainTask C|SetEvent C 1
"#;

// A script that names another core's counter binds both cores.
const COUNTERS: &str = r#"
fine IncrementCounter K;GetCounterValue L v0;IncrementCounter ?
NotSeparate IncrementCounter Q
"#;

// A script that names another core's alarm binds both cores.
const ALARMS: &str = r#"
fine CancelAlarm W
NotSeparate CancelAlarm Z
"#;

// An alarm that acts on another core's task binds both cores.
const ACTIONS: &str = r#"
fine ActivateTask A|SetEvent E 1
NotSeparate ActivateTask B|SetEvent B 1
"#;

// An ISR's script that names another core's task binds both cores.
const ISRS: &str = r#"
fine ActivateTask A;SetEvent W 1;GetEvent ? v0
NotSeparate ActivateTask B
"#;

// A script that names a spinlock binds its own core.
const SPINLOCKS: &str = r#"
fine GetSpinlock ?;TryToGetSpinlock ? v0;ReleaseSpinlock ?
NotSeparate GetSpinlock S|TryToGetSpinlock S v0|ReleaseSpinlock ?;ReleaseSpinlock S
"#;

// A table that acts on another core's task binds both cores.
const TABLES: &str = r#"
fine {"name":"P","counter":"K","duration":9,"points":[{"offset":0,"actions":["ActivateTask A"]},{"offset":3,"actions":["ActivateTask A"]}]}
NotSeparate {"name":"P","counter":"K","duration":9,"points":[{"offset":0,"actions":["ActivateTask A"]},{"offset":3,"actions":["ActivateTask B"]}]}
"#;

const SECOND: &str = r#"
NotSeparate {"cap":2,"cores":[{"id":0,"start":[1,9],"tasks":[{"name":"A","prio":2,"script":"ActivateTask B;ActivateTask ?"}]},{"id":1,"start":[2],"tasks":[{"name":"B","prio":1,"script":""}]},{"id":2,"tasks":[{"name":"V","prio":1,"auto":["M"],"script":"work;ActivateTask V;ActivateTask ?;TerminateTask"}]},{"id":3}]}
NotSeparate {"cores":[{"id":0,"tasks":[{"name":"A","prio":1,"script":""}]},{"id":1,"tasks":[{"name":"B","prio":1,"script":"ActivateTask A"}]}]}
"#;

const THIRD: &str = r#"
fine {"cap":2,"cores":[{"id":0,"start":[1,9],"tasks":[{"name":"A","prio":2,"script":"ActivateTask B;ActivateTask ?"}]},{"id":1,"start":[2],"tasks":[{"name":"B","prio":1,"script":""}]},{"id":2,"tasks":[{"name":"V","prio":1,"auto":["M"],"script":"work;ActivateTask V;ActivateTask ?;TerminateTask"}]},{"id":3}]}
"#;

// A core that nobody starts, and a core that does not exist.
const FOURTH: &str = r#"
NotSeparate {"cap":2,"cores":[{"id":0,"start":[1,9],"tasks":[{"name":"A","prio":2,"script":"ActivateTask B;ActivateTask ?"}]},{"id":1,"start":[2],"tasks":[{"name":"B","prio":1,"script":""}]},{"id":2,"tasks":[{"name":"V","prio":1,"auto":["M"],"script":"work;ActivateTask V;ActivateTask ?;TerminateTask"}]},{"id":3}]}
"#;

const SIXTH: &str = r#"
fine {"master":5,"cores":[{"id":5}]}
"#;

#[test]
fn only_a_separate_core_is_cut_out(rt: HostRuntime) -> Result<(), Fail> {
    play(&rt, rt.alloc(), Reader::Alone(0), "@", FIRST, 23)?;
    play(&rt, rt.alloc(), Reader::Alone(1), "@", SECOND, 2)?;
    play(&rt, rt.alloc(), Reader::Alone(2), "@", THIRD, 1)?;
    play(&rt, rt.alloc(), Reader::Alone(3), "@", FOURTH, 1)?;
    play(&rt, rt.alloc(), Reader::Alone(5), "@", SIXTH, 1)?;
    play(&rt, rt.alloc(), Reader::Alone(9), "@", FOURTH, 1)
}

// The frames of these tables are those of the tests of events, counters, alarms, ISRs, spinlocks and schedule tables.
#[test]
fn cores_that_name_objects_of_another_are_not_separate(rt: HostRuntime) -> Result<(), Fail> {
    play(
        &rt,
        rt.alloc(),
        Reader::Alone(0),
        events::TWO_CORES,
        EVENTS,
        3,
    )?;
    play(
        &rt,
        rt.alloc(),
        Reader::Alone(0),
        counters::TWO_CORES,
        COUNTERS,
        2,
    )?;
    play(
        &rt,
        rt.alloc(),
        Reader::Alone(0),
        alarms::TWO_CORES,
        ALARMS,
        2,
    )?;
    play(
        &rt,
        rt.alloc(),
        Reader::Alone(0),
        alarms::ACTION,
        ACTIONS,
        4,
    )?;
    play(&rt, rt.alloc(), Reader::Alone(0), isrs::TWO_CORES, ISRS, 2)?;
    play(
        &rt,
        rt.alloc(),
        Reader::Alone(0),
        spinlocks::TWO_TASKS,
        SPINLOCKS,
        4,
    )?;
    play(&rt, rt.alloc(), Reader::Alone(0), tables::TABLE, TABLES, 2)
}
