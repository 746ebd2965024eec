//! Operations with a name and a number or a mask. Each is judged whatever the other is; the smallest fault is reported.

use super::play_configurations;
use std::test::Fail;

// Two cores, each with a task, a counter, an alarm and a schedule table; the script is that of the first core's task.
const SCRIPT: &str =
    r#"{"cores":[{"id":0,"tasks":[{"name":"A","prio":1,"script":"@"}],"counters":[{"name":"K","max":9}],"alarms":[{"name":"L","counter":"K","action":"ActivateTask A"}],"tables":[{"name":"P","counter":"K","duration":1,"points":[{"offset":0,"actions":["ActivateTask A"]}]}]},{"id":1,"tasks":[{"name":"B","prio":1,"script":""}],"counters":[{"name":"Q","max":9}],"alarms":[{"name":"F","counter":"Q","action":"ActivateTask A"}],"tables":[{"name":"Z","counter":"Q","duration":1,"points":[{"offset":0,"actions":["ActivateTask A"]}]}]}]}"#;

const NUMBERS: &str = r#"
// Faults of several operations: the smallest is reported, whatever the order of the operations.
UnknownName StartScheduleTableRel Z 4294967296;StartScheduleTableRel Nobody 4294967296
UnknownName SetEvent A 0;work;SetRelAlarm Nobody 4294967296 4294967296
WrongCore StartScheduleTableRel Z 4294967296;SetEvent A 0|ClearEvent 0;StartScheduleTableAbs Z 4294967296
WrongCore jump 9;StartScheduleTableRel Z 4294967296|jump 4294967296;StartScheduleTableAbs Z 4294967296;walk
WrongCore SetRelAlarm L 4294967296 1;NextScheduleTable P Z|GetEvent A v8;GetEvent B v0
BadMask StartScheduleTableRel P 4294967296;SetEvent A 0|WaitEvent 4294967296;jump 4294967296
BadScript GetEvent B v8|GetCounterValue Q v8|NextScheduleTable Z

// Events of a task of any core. Only a mask may not be 0.
text SetEvent A @|SetEvent B @|SetEvent ? @
fine 1|9|10|4294967294|4294967295
BadMask 0|4294967296|18446744073709551615|18446744073709551616|100000000000000000000000

// Alarms of any core.
text SetRelAlarm L @ 1|SetRelAlarm L 1 @|SetRelAlarm F @ 1|SetRelAlarm F 1 @|SetRelAlarm ? @ 1|SetRelAlarm ? 1 @
text SetAbsAlarm L @ 1|SetAbsAlarm L 1 @|SetAbsAlarm F @ 1|SetAbsAlarm F 1 @|SetAbsAlarm ? @ 1|SetAbsAlarm ? 1 @
fine 0|1|9|10|4294967294|4294967295

text SetRelAlarm L @ 1|SetRelAlarm L 1 @|SetRelAlarm L 4294967296 @|SetRelAlarm F @ 1|SetRelAlarm F 1 @
text SetRelAlarm ? @ 1|SetRelAlarm ? 1 @|SetAbsAlarm L @ 1|SetAbsAlarm L 1 @|SetAbsAlarm F @ 4294967296
text SetAbsAlarm F @ 1|SetAbsAlarm F 1 @|SetAbsAlarm ? @ 1|SetAbsAlarm ? 1 @
BadScript 4294967296|18446744073709551615|18446744073709551616|100000000000000000000000

// Tables of the script's own core only.
text StartScheduleTableRel P @|StartScheduleTableRel ? @|StartScheduleTableAbs P @|StartScheduleTableAbs ? @
fine 0|1|9|10|4294967294|4294967295
BadScript 4294967296|18446744073709551615|18446744073709551616|100000000000000000000000

text StartScheduleTableRel Z @|StartScheduleTableAbs Z @
WrongCore 0|1|9|10|4294967294|4294967295|4294967296|18446744073709551615|18446744073709551616|100000000000000000000000

// Unknown names, and names of objects of another kind.
text SetEvent Nobody @|SetEvent K @|SetEvent Z @|SetRelAlarm Nobody @ 1|SetRelAlarm Nobody 1 @
text SetRelAlarm Nobody 4294967296 @|SetRelAlarm Z @ 1|SetAbsAlarm Nobody @ 1|SetAbsAlarm Nobody 1 @|SetAbsAlarm B 1 @
text StartScheduleTableRel Nobody @|StartScheduleTableRel A @|StartScheduleTableRel F @|StartScheduleTableAbs Nobody @
text StartScheduleTableAbs K @|StartScheduleTableAbs Q @
UnknownName 0|1|9|10|4294967294|4294967295|4294967296|18446744073709551615|18446744073709551616
UnknownName 100000000000000000000000

// If a word has a wrong form, there is no other fault.
text SetEvent A @|SetEvent B @|SetEvent ? @|SetEvent Nobody @|SetRelAlarm L @ 1|SetRelAlarm F 1 @
text SetRelAlarm ? 4294967296 @|SetRelAlarm Nobody 1 @|SetAbsAlarm L 1 @|SetAbsAlarm F @ 1|SetAbsAlarm ? @ 4294967296
text SetAbsAlarm Nobody @ 1|StartScheduleTableRel P @|StartScheduleTableRel Z @|StartScheduleTableRel ? @
text StartScheduleTableRel Nobody @|StartScheduleTableAbs P @|StartScheduleTableAbs Z @|StartScheduleTableAbs ? @
text StartScheduleTableAbs Nobody @
BadScript |1 |00|01|04294967296|+1|-1|-4294967296|1.0|0x1|1 1|v0|?|A|١
"#;

// Two cores, with a table on the first whose points do not come in order.
const DISORDER: &str =
    r#"{"cores":[{"id":0,"tasks":[{"name":"A","prio":1,"script":"@"}],"counters":[{"name":"K","max":9}],"tables":[{"name":"P","counter":"K","duration":1,"points":[{"offset":1,"actions":["ActivateTask A"]},{"offset":0,"actions":["ActivateTask A"]}]}]},{"id":1,"counters":[{"name":"Q","max":9}],"tables":[{"name":"Z","counter":"Q","duration":1,"points":[{"offset":0,"actions":["ActivateTask A"]}]}]}]}"#;

const BESIDE_A_TABLE: &str = r#"
// Faults of an operation beside a fault of a table.
UnknownName StartScheduleTableRel Nobody 4294967296
WrongCore StartScheduleTableRel Z 0|StartScheduleTableRel Z 4294967296|StartScheduleTableAbs Z 4294967296
BadMask SetEvent A 4294967296
BadTable |StartScheduleTableRel P 4294967296|StartScheduleTableRel Z
"#;

// Two cores, with an alarm on the first whose action has a wrong form.
const INACTION: &str =
    r#"{"cores":[{"id":0,"tasks":[{"name":"A","prio":1,"script":"@"}],"counters":[{"name":"K","max":9}],"alarms":[{"name":"L","counter":"K","action":"SetEvent A"}],"tables":[{"name":"P","counter":"K","duration":1,"points":[{"offset":0,"actions":["ActivateTask A"]}]}]},{"id":1,"counters":[{"name":"Q","max":9}],"tables":[{"name":"Z","counter":"Q","duration":1,"points":[{"offset":0,"actions":["ActivateTask A"]}]}]}]}"#;

const BESIDE_AN_ACTION: &str = r#"
// Faults of an operation beside an action of a wrong form.
WrongCore StartScheduleTableRel Z 4294967296|StartScheduleTableAbs Z 4294967296
BadScript |StartScheduleTableRel Z x
"#;

#[test]
fn texts_with_names_and_numbers_have_their_faults_or_none(rt: HostRuntime) -> Result<(), Fail> {
    play_configurations(&rt, rt.alloc(), SCRIPT, NUMBERS, 691)?;
    play_configurations(&rt, rt.alloc(), DISORDER, BESIDE_A_TABLE, 8)?;
    play_configurations(&rt, rt.alloc(), INACTION, BESIDE_AN_ACTION, 4)
}
