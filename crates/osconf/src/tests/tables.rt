//! Schedule tables and the operations that name them.

use super::{Reader, fault_with, filled, listed, play_configurations};
use crate::ConfFault;
use std::alloc::Global;
use std::test::Fail;

// The offsets of a table's points, and its duration.
const TIMES: &str =
    r#"{"cores":[{"id":0,"tasks":[{"name":"A","prio":1,"script":""}],"counters":[{"name":"K","max":9,"min":3}],"tables":[{"name":"P","counter":"K",@}]}]}"#;

const TABLE_TIMES: &str = r#"
// The times of a table.
fine "duration":9,"points":[{"offset":0,"actions":["ActivateTask A"]}]
fine "duration":3,"points":[{"offset":3,"actions":["ActivateTask A"]}]
fine "duration":18,"points":[{"offset":9,"actions":["ActivateTask A"]},{"offset":18,"actions":["SetEvent A 1"]}]
fine "duration":6,"points":[{"offset":3,"actions":["ActivateTask A"]}],"repeating":true
fine "duration":9,"points":[{"offset":0,"actions":["ActivateTask A"]}],"auto":{"modes":["M"],"offset":9}
fine "duration":9,"points":[{"offset":3,"actions":["ActivateTask A"]}],"auto":{"modes":[],"offset":6}
BadTable "duration":10,"points":[{"offset":0,"actions":["ActivateTask A"]}]
BadTable "duration":9,"points":[{"offset":-1,"actions":["ActivateTask A"]}]
BadTable "duration":9,"points":[{"offset":1,"actions":["ActivateTask A"]}]
BadTable "duration":12,"points":[{"offset":10,"actions":["ActivateTask A"]}]
BadTable "duration":3,"points":[{"offset":4,"actions":["ActivateTask A"]}]
BadTable "duration":9,"points":[{"offset":3,"actions":["ActivateTask A"]},{"offset":3,"actions":["ActivateTask A"]}]
BadTable "duration":9,"points":[{"offset":3,"actions":["ActivateTask A"]},{"offset":5,"actions":["ActivateTask A"]}]
BadTable "duration":9,"points":[{"offset":6,"actions":["ActivateTask A"]},{"offset":3,"actions":["ActivateTask A"]}]
BadTable "duration":18,"points":[{"offset":0,"actions":["ActivateTask A"]},{"offset":10,"actions":["ActivateTask A"]}]
BadTable "duration":5,"points":[{"offset":3,"actions":["ActivateTask A"]}],"repeating":true
BadTable "duration":3,"points":[{"offset":3,"actions":["ActivateTask A"]}],"repeating":true
BadTable "duration":3,"points":[{"offset":18446744073709551615,"actions":["ActivateTask A"]}]
Limit "duration":0,"points":[{"offset":0,"actions":["ActivateTask A"]}]
Limit "duration":1000000001,"points":[{"offset":0,"actions":["ActivateTask A"]}]|"duration":9,"points":[]
Limit "duration":9,"points":[{"offset":0,"actions":[]}]
Limit "duration":9,"points":[{"offset":0,"actions":["ActivateTask A"]}],"auto":{"modes":["M"],"offset":0}
Limit "duration":9,"points":[{"offset":0,"actions":["ActivateTask A"]}],"auto":{"modes":["M"],"offset":10}
Limit "duration":9,"points":[{"offset":3,"actions":["ActivateTask A"]}],"auto":{"modes":["M"],"offset":7}
"#;

// Two cores, each with a task, a counter and a table; the first core's table is to be filled in.
pub(super) const TABLE: &str =
    r#"{"cores":[{"id":0,"tasks":[{"name":"A","prio":1,"script":""}],"counters":[{"name":"K","max":9,"min":3}],"tables":[@]},{"id":1,"tasks":[{"name":"B","prio":1,"script":""}],"counters":[{"name":"Q","max":9}],"tables":[{"name":"Z","counter":"Q","duration":1,"points":[{"offset":0,"actions":["ActivateTask B"]}],"auto":null}]}]}"#;

const TABLES: &str = r#"
// Faults of tables.
Shape {"name":"P","counter":"K","duration":9}|{"name":"P","counter":"K","duration":9,"points":[{"offset":0}]}
Shape {"name":"P","counter":"K","duration":9,"points":[],"auto":{"modes":[]}}
DuplicateName {"name":"Z","counter":"K","duration":9,"points":[{"offset":0,"actions":["x"]}]}
UnknownName {"name":"P","counter":"A","duration":9,"points":[{"offset":0,"actions":["x"]}]}
UnknownName {"name":"P","counter":"K","duration":9,"points":[{"offset":1,"actions":["ActivateTask N"]}]}
UnknownName {"name":"P","counter":"K","duration":9,"points":[{"offset":0,"actions":["x"]}],"auto":{"modes":["N"],"offset":1}}
WrongCore {"name":"P","counter":"Q","duration":9,"points":[{"offset":0,"actions":["SetEvent A 0"]}]}
BadMask {"name":"P","counter":"K","duration":9,"points":[{"offset":1,"actions":["SetEvent A 0"]}]}
BadTable {"name":"P","counter":"K","duration":9,"points":[{"offset":1,"actions":["x"]}]}
BadScript {"name":"P","counter":"K","duration":9,"points":[{"offset":0,"actions":["work"]}]}

// A core has at most 8 tables, a table 1 to 16 points, and a point 1 to 8 actions.
each [,] {"name":"T@","counter":"K","duration":1,"points":[{"offset":0,"actions":["ActivateTask A"]}]}
fine 0|8
Limit 9
"#;

// The operation of a script that names a table, here one of its own core.
const SCRIPT: &str =
    r#"{"cores":[{"id":0,"tasks":[{"name":"A","prio":1,"script":"@"}],"counters":[{"name":"K","max":9}],"tables":[{"name":"P","counter":"K","duration":1,"points":[{"offset":0,"actions":["ActivateTask A"]}]}]},{"id":1,"counters":[{"name":"Q","max":9}],"tables":[{"name":"Z","counter":"Q","duration":1,"points":[{"offset":0,"actions":["ActivateTask A"]}]}]}]}"#;

const OPERATIONS: &str = r#"
// Operations on tables.
fine StartScheduleTableRel P 4294967295|StartScheduleTableAbs ? 0|NextScheduleTable P P
fine NextScheduleTable ? P;NextScheduleTable P ?|StopScheduleTable P|GetScheduleTableStatus P v0
UnknownName StartScheduleTableRel K 1|NextScheduleTable P Nobody|StopScheduleTable A
WrongCore StartScheduleTableRel Z 1|StartScheduleTableAbs Z 0|NextScheduleTable P Z|NextScheduleTable ? Z
WrongCore StopScheduleTable Z|GetScheduleTableStatus Z v0
BadScript StartScheduleTableRel P|StartScheduleTableAbs P 4294967296|NextScheduleTable P|StopScheduleTable P 1
BadScript GetScheduleTableStatus P
"#;

const TEXTS: &str = r#"
text {"cores":[{"id":0,"tasks":[{"name":"A","prio":1,"script":""}],"counters":[{"name":"K","max":300}],"tables":[{"name":"P","counter":"K","duration":300,"points":[@]}]}]}
each [,] {"offset":@,"actions":["ActivateTask A"]}
fine 1|16
Limit 17

text {"cores":[{"id":0,"counters":[{"name":"K","max":9}],"tables":[{"name":"P","counter":"K","duration":9,"points":[{"offset":0,"actions":[@]}]}]}]}
each [,] "ActivateTask A@"
UnknownName 8
Limit 9|300
"#;

// A core whose alarms and then tables are to be filled in, and a core with a task.
const POSTING: &str =
    r#"{"cores":[{"id":0,"tasks":[{"name":"A","prio":1,"script":""}],"counters":[{"name":"K","max":9}],"alarms":[@],"tables":[@]},{"id":1,"tasks":[{"name":"B","prio":1,"script":""}]}]}"#;

const ALARM: &str = r#"{"name":"W@","counter":"K","action":"ActivateTask B"}"#;

// A table that posts four letters at one point and one at the other.
const FOUR_AND_ONE: &str =
    r#"{"name":"T@","counter":"K","duration":9,"points":[{"offset":0,"actions":["ActivateTask A","ActivateTask B","SetEvent B 1","SetEvent B 2","SetEvent B 4"]},{"offset":3,"actions":["ActivateTask B"]}]}"#;

// A core's alarms and the busiest point of each of its tables may together post at most 56 envelopes at once.
#[test]
fn a_core_may_post_at_most_56_envelopes_at_once(rt: HostRuntime) -> Result<(), Fail> {
    for (count, fault) in [(24, None), (25, Some(ConfFault::Limit))] {
        let refused = fault_of_alarms(rt.alloc(), count)?;
        assert_eq!(rt; refused, fault, "{count}");
    }
    Ok(())
}

// The fault of `count` alarms beside eight tables, or none.
fn fault_of_alarms(alloc: Global, count: u32) -> Result<Option<ConfFault>, Fail> {
    let text = with_alarms(alloc, count)?;
    fault_with_tables(alloc, text.as_str())
}

// The text of `POSTING` with `count` alarms. It has an `@` in place of the tables.
fn with_alarms(alloc: Global, count: u32) -> Result<String, Fail> {
    let alarms = listed(alloc, ALARM, ",", count)?;
    filled(alloc, POSTING, alarms.as_str())
}

// The fault of the text with eight tables in place of its `@`, or none.
fn fault_with_tables(alloc: Global, text: &str) -> Result<Option<ConfFault>, Fail> {
    let tables = listed(alloc, FOUR_AND_ONE, ",", 8)?;
    fault_with(alloc, Reader::Configuration, text, tables.as_str())
}

#[test]
fn texts_with_tables_have_their_faults_or_none(rt: HostRuntime) -> Result<(), Fail> {
    play_configurations(&rt, rt.alloc(), "@", TEXTS, 6)?;
    play_configurations(&rt, rt.alloc(), TABLE, TABLES, 14)?;
    play_configurations(&rt, rt.alloc(), TIMES, TABLE_TIMES, 25)?;
    play_configurations(&rt, rt.alloc(), SCRIPT, OPERATIONS, 20)
}
