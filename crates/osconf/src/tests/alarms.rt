//! Alarms, their actions, and the operations that name them.

use super::play_configurations;
use std::test::Fail;

const TEXTS: &str = r#"
// Numbers within their limits, at both ends, and numbers outside.
text {"cores":[{"id":0,"tasks":[{"name":"A","prio":1,"script":""}],"counters":[{"name":"K","max":9,"min":3}],"alarms":[{"name":"W","counter":"K","action":"ActivateTask A","auto":{"modes":["M"],"start":@,"cycle":0}}]}]}
fine 1|2|3|9
Limit 0|10|-1|4294967297|18446744073709551615|-9223372036854775808

// A cycle is 0, or as long as the counter allows.
text {"cores":[{"id":0,"tasks":[{"name":"A","prio":1,"script":""}],"counters":[{"name":"K","max":9,"min":3}],"alarms":[{"name":"W","counter":"K","action":"ActivateTask A","auto":{"modes":["M"],"start":9,"cycle":@}}]}]}
fine 0|3|4|9
Limit 1|2|10|-1|4294967296|4294967299|18446744073709551615

text {"cores":[{"id":0,"tasks":[{"name":"A","prio":1,"script":""}],"counters":[{"name":"K","max":1000000000,"min":1000000000}],"alarms":[{"name":"W","counter":"K","action":"ActivateTask A","auto":{"modes":["M"],"start":1000000000,"cycle":@}}]}]}
fine 0|1000000000
Limit 1|999999999|1000000001

// If exactly one counter has the name, the start is judged by that counter, even if it is another core's.
text {"cores":[{"id":0,"tasks":[{"name":"A","prio":1,"script":""}],"alarms":[{"name":"W","counter":"Q","action":"ActivateTask A","auto":{"modes":[],"start":@,"cycle":9}}]},{"id":1,"counters":[{"name":"Q","max":9}]}]}
WrongCore 1|9
Limit 0|10|-1

text {"cores":[{"id":0,"tasks":[{"name":"A","prio":1,"script":""}],"alarms":[{"name":"W","counter":"Q","action":"ActivateTask A","auto":{"modes":[],"start":@,"cycle":9}}]}]}
text {"cores":[{"id":0,"tasks":[{"name":"A","prio":1,"script":""}],"alarms":[{"name":"W","counter":"A","action":"ActivateTask A","auto":{"modes":[],"start":1,"cycle":@}}]}]}
text {"cores":[{"id":0,"tasks":[{"name":"A","prio":1,"script":""}],"alarms":[{"name":"W","counter":"W","action":"ActivateTask A","auto":{"modes":[],"start":@,"cycle":0}}]}]}
text {"cores":[{"id":0,"tasks":[{"name":"A","prio":1,"script":""}],"alarms":[{"name":"W","counter":"M","action":"ActivateTask A","auto":{"modes":[],"start":0,"cycle":@}}]}]}
UnknownName 0|1|-1|1000000001|18446744073709551615

// If two counters have the name, the start is not judged by either.
text {"cores":[{"id":0,"tasks":[{"name":"A","prio":1,"script":""}],"counters":[{"name":"K","max":9},{"name":"K","max":9}],"alarms":[{"name":"W","counter":"K","action":"ActivateTask A","auto":{"modes":[],"start":@,"cycle":0}}]}]}
DuplicateName 0|1|10

// The counter of an alarm.
text {"cores":[{"id":0,"tasks":[{"name":"A","prio":1,"script":""}],"counters":[{"name":"K","max":9,"min":3}],"alarms":[{"name":"W","counter":"@","action":"ActivateTask A","auto":{"modes":[],"start":1,"cycle":0}}]},{"id":1,"counters":[{"name":"Q","max":9}]}]}
fine K|\u004b
Shape |?|9|K L|_K|Ä
UnknownName k|A|W|M|Nobody
WrongCore Q

// The modes of an alarm.
text {"cores":[{"id":0,"tasks":[{"name":"A","prio":1,"script":""}],"counters":[{"name":"K","max":9}],"alarms":[{"name":"W","counter":"K","action":"ActivateTask A","auto":{"modes":[@],"start":1,"cycle":0}}]}]}
fine |"M"|"M","M"
UnknownName "N"|"M","A"|"K"|"DONOTCARE"
Shape ""|"?"|"M","9"|1|null|[]

// The name of an alarm.
text {"cores":[{"id":0,"tasks":[{"name":"A","prio":1,"script":""}],"counters":[{"name":"K","max":1}],"alarms":[{"name":"@","counter":"K","action":"ActivateTask A"}]}]}
Shape |_W|9|W X|?|W-X|Ä
fine W|w9_
// The name must differ from the names of all other objects, on any core, and from the mode's.
DuplicateName A|K|\u0041|M

text {"cores":[{"id":0,"tasks":[{"name":"A","prio":1,"script":""}],"counters":[{"name":"K","max":1}],"alarms":[{"name":"V","counter":"K","action":"ActivateTask A"},{"name":"@","counter":"K","action":"ActivateTask A"}]}]}
text {"cores":[{"id":0,"tasks":[{"name":"A","prio":1,"script":""}],"counters":[{"name":"K","max":1}],"alarms":[{"name":"@","counter":"K","action":"ActivateTask A"}]},{"id":1,"resources":[{"name":"V","ceiling":1}]}]}
text {"cores":[{"id":0,"tasks":[{"name":"V","prio":1,"script":""}]},{"id":1,"counters":[{"name":"K","max":1}],"alarms":[{"name":"@","counter":"K","action":"ActivateTask V"}]}]}
fine v|VV|m
DuplicateName V|M

// Of several faults the one with the least number is reported, whichever alarm has it.
text {"cores":[{"id":0,"tasks":[{"name":"A","prio":1,"script":"walk"}],"counters":[{"name":"K","max":9}],"alarms":[{"name":"V","counter":"K","action":""},@]},{"id":1,"counters":[{"name":"Q","max":9}]}]}
BadScript {"name":"W","counter":"K","action":"ActivateTask A"}
BadMask {"name":"W","counter":"K","action":"SetEvent A 0"}
WrongCore {"name":"W","counter":"Q","action":"SetEvent A 0"}
UnknownName {"name":"W","counter":"Q","action":"SetEvent B 0"}
UnknownName {"name":"W","counter":"Q","action":"","auto":{"modes":["N"],"start":1,"cycle":0}}
DuplicateName {"name":"V","counter":"Z","action":"SetEvent B 0"}
Limit {"name":"V","counter":"Q","action":"","auto":{"modes":["N"],"start":0,"cycle":0}}
Shape {"name":"V","counter":"Z","action":"","auto":{"modes":["?"],"start":0,"cycle":0}}

// An alarm of another shape.
text {"cores":[{"id":0,"tasks":[{"name":"A","prio":1,"script":""}],"counters":[{"name":"K","max":1}],"alarms":[@]}]}
Shape {}|[]|"W"|1|{"counter":"K","action":"ActivateTask A"}|{"name":"W","action":"ActivateTask A"}
Shape {"name":"W","counter":"K"}|{"name":"W","counter":"K","action":"ActivateTask A","cycle":1}
Shape {"name":"W","counter":"K","action":"ActivateTask A"},null
Shape {"name":"W","counter":"K","action":"ActivateTask A","auto":{}}
Shape {"name":"W","counter":"K","action":"ActivateTask A","auto":[]}
Shape {"name":"W","counter":"K","action":"ActivateTask A","auto":false}
Shape {"name":"W","counter":"K","action":"ActivateTask A","auto":["M"]}
Shape {"name":"W","counter":"K","action":"ActivateTask A","auto":{"start":1,"cycle":0}}
Shape {"name":"W","counter":"K","action":"ActivateTask A","auto":{"modes":[],"cycle":0}}
Shape {"name":"W","counter":"K","action":"ActivateTask A","auto":{"modes":[],"start":1}}
Shape {"name":"W","counter":"K","action":"ActivateTask A","auto":{"modes":[],"start":1,"cycle":0,"offset":0}}
fine {"name":"W","counter":"K","action":"ActivateTask A"}
fine {"name":"W","counter":"K","action":"ActivateTask A","auto":null}
fine {"auto":{"cycle":1,"start":1,"modes":[]},"action":"ActivateTask A","counter":"K","name":"W"}
fine {"name":"W","counter":"K","action":"ActivateTask A","auto":7,"auto":null}

// A core has at most 32 alarms; other cores have 32 of their own.
text {"cores":[{"id":0,"tasks":[{"name":"A","prio":1,"script":""}],"counters":[{"name":"K","max":1}],"alarms":[@]},{"id":1,"counters":[{"name":"L","max":1}],"alarms":[{"name":"W","counter":"L","action":"ActivateTask A"}]}]}
each [,] {"name":"W@","counter":"K","action":"ActivateTask A"}
fine 0|1|32
Limit 33|300
"#;

// Two cores; the action of the first core's alarm is to be filled in.
pub(super) const ACTION: &str =
    r#"{"cores":[{"id":0,"tasks":[{"name":"A","prio":1,"script":""},{"name":"E","prio":2,"extended":true,"script":""}],"resources":[{"name":"R","ceiling":1}],"counters":[{"name":"K","max":9}],"alarms":[{"name":"W","counter":"K","action":"@"}]},{"id":1,"tasks":[{"name":"B","prio":1,"script":""}],"counters":[{"name":"Q","max":1}]}]}"#;

const ACTIONS: &str = r#"
// Actions.
fine ActivateTask A|ActivateTask E|ActivateTask B|SetEvent E 1|SetEvent E 4294967295|SetEvent A 1|SetEvent B 7
UnknownName ActivateTask Nobody|ActivateTask R|ActivateTask K|ActivateTask Q|ActivateTask W|ActivateTask M
UnknownName SetEvent Nobody 1|SetEvent R 1|SetEvent Nobody 0|SetEvent K 4294967296
BadMask SetEvent E 0|SetEvent A 4294967296|SetEvent B 99999999999999999999999
// A text in a wrong form has no fault but BadScript.
BadScript | |ActivateTask |ActivateTask A |SetEvent E |ActivateTask|ActivateTask ?|ActivateTask 9| ActivateTask A
BadScript ActivateTask  A|ActivateTask A B|ActivateTask A;|ActivateTask A;TerminateTask|activatetask A|ActivateTask,A
BadScript SetEvent|SetEvent E|SetEvent ? 1|SetEvent ? 0|SetEvent E ?|SetEvent E 01|SetEvent E 00|SetEvent E -1
BadScript SetEvent E +1|SetEvent E 1 1|SetEvent E v0|SetEvent Nobody 01|SetEvent 1 E|ChainTask A|ChainTask Nobody
BadScript TerminateTask|work|Schedule|ClearEvent 0|WaitEvent 1|GetEvent A v0|GetEvent B v0|GetResource R
BadScript IncrementCounter K|IncrementCounter Nobody|GetCounterValue Q v0|SetRelAlarm W 1 0|CancelAlarm W|set v0 1
BadScript jump 9
"#;

// A core with two tasks, a resource, two counters and two alarms, and a core with a task, a counter and an alarm.
pub(super) const TWO_CORES: &str =
    r#"{"cores":[{"id":0,"tasks":[{"name":"A","prio":1,"script":"@"},{"name":"E","prio":2,"extended":true,"script":""}],"resources":[{"name":"R","ceiling":1}],"counters":[{"name":"K","max":9},{"name":"L","max":1000,"min":10}],"alarms":[{"name":"W","counter":"K","action":"ActivateTask A"},{"name":"X","counter":"L","action":"SetEvent E 5","auto":{"modes":["M"],"start":1000,"cycle":10}}]},{"id":1,"tasks":[{"name":"B","prio":1,"script":""}],"counters":[{"name":"Q","max":1}],"alarms":[{"name":"Z","counter":"Q","action":"ActivateTask B","auto":null}]}]}"#;

const OPERATIONS: &str = r#"
// Operations on alarms.
fine SetRelAlarm W 1 0|SetRelAlarm W 0 0|SetRelAlarm X 4294967295 4294967295|SetRelAlarm Z 9 9|SetRelAlarm ? 1 1
fine SetAbsAlarm W 0 0|SetAbsAlarm X 4294967295 4294967295|SetAbsAlarm Z 1 0|SetAbsAlarm ? 0 4294967295|CancelAlarm W
fine CancelAlarm Z|CancelAlarm ?|GetAlarm W v0|GetAlarm Z v7|GetAlarm ? v3
fine SetRelAlarm Z 1 0;GetAlarm Z v0;CancelAlarm Z;ActivateTask B
UnknownName SetRelAlarm Nobody 1 0|SetAbsAlarm Nobody 1 0|CancelAlarm Nobody|GetAlarm Nobody v0|SetRelAlarm A 1 0
UnknownName SetAbsAlarm K 1 0|CancelAlarm R|CancelAlarm Q|GetAlarm M v0|ActivateTask W|ActivateTask Z
UnknownName IncrementCounter W|GetResource W|GetCounterValue W v0|SetRelAlarm Nobody 4294967296 0
UnknownName SetAbsAlarm A 0 99999999999999999999999|CancelAlarm Nobody;GetAlarm W
// Texts that are not operations on alarms.
BadScript SetRelAlarm W 1 |CancelAlarm |SetRelAlarm|SetRelAlarm W|SetRelAlarm W 1|SetRelAlarm W 1 2 3
BadScript SetRelAlarm W  1 2|SetRelAlarm W 4294967296 0|SetRelAlarm W 0 4294967296|SetRelAlarm ? 4294967296 0
BadScript SetRelAlarm Z 0 99999999999999999999999|SetRelAlarm W -1 0|SetRelAlarm W 01 0|SetRelAlarm W 1 00
BadScript SetRelAlarm W v0 0|SetRelAlarm 1 W 0|SetRelAlarm ?? 1 0|SetRelAlarm Nobody 01 0|SetRelAlarm Nobody 1
BadScript SetAbsAlarm W 1|SetAbsAlarm W 1 ?|SetAbsAlarm W 4294967296 0|setabsalarm W 1 0|CancelAlarm|CancelAlarm W v0
BadScript CancelAlarm W X|CancelAlarm 1|GetAlarm W|GetAlarm W 1|GetAlarm W v8|GetAlarm v0 W|GetAlarm Nobody
BadScript GetAlarm W v0 v1
"#;

#[test]
fn texts_with_alarms_have_their_faults_or_none(rt: HostRuntime) -> Result<(), Fail> {
    play_configurations(&rt, rt.alloc(), "@", TEXTS, 143)?;
    play_configurations(&rt, rt.alloc(), ACTION, ACTIONS, 65)?;
    play_configurations(&rt, rt.alloc(), TWO_CORES, OPERATIONS, 66)
}
