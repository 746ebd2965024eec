//! Counters, and the operations that name them.

use super::play_configurations;
use std::test::Fail;

const TEXTS: &str = r#"
// Numbers within their limits, at both ends, and numbers outside.
text {"cores":[{"id":0,"counters":[{"name":"K","max":@}]}]}
text {"cores":[{"id":0,"counters":[{"name":"K","max":@,"min":1}]}]}
text {"cores":[{"id":0,"counters":[{"name":"K","max":1000000000,"min":@}]}]}
text {"cores":[{"id":0,"counters":[{"name":"K","max":5,"min":5},{"name":"L","max":@}]}]}
fine 1|2|999999999|1000000000
Limit 0|-1|1000000001|4294967296|4294967297|18446744073709551615|-9223372036854775808

// A counter's least cycle is no greater than its greatest value.
text {"cores":[{"id":0,"counters":[{"name":"K","max":7,"min":@}]}]}
fine 1|6|7
Limit 0|8|1000000000|4294967297|-1

text {"cores":[{"id":0,"counters":[{"name":"K","max":0,"min":@}]}]}
text {"cores":[{"id":0,"counters":[{"name":"K","max":-1,"min":@}]}]}
Limit 0|1|-1

// The name of a counter.
text {"cores":[{"id":0,"counters":[{"name":"@","max":1}]}]}
Shape |_K|9|K L|?|K-L|Ä
fine K|k9_

// The name must differ from the names of all other objects, on any core, and from the mode's.
text {"cores":[{"id":0,"tasks":[{"name":"A","prio":1,"script":""}],"counters":[{"name":"@","max":1}]}]}
text {"cores":[{"id":0,"resources":[{"name":"A","ceiling":1}],"counters":[{"name":"@","max":1}]}]}
text {"cores":[{"id":0,"counters":[{"name":"A","max":1},{"name":"@","max":2}]}]}
text {"cores":[{"id":0,"counters":[{"name":"A","max":1}]},{"id":1,"counters":[{"name":"@","max":1}]}]}
text {"cores":[{"id":0,"counters":[{"name":"@","max":1}]},{"id":1,"tasks":[{"name":"A","prio":1,"script":""}]}]}
text {"cores":[{"id":0,"counters":[{"name":"@","max":1}]},{"id":1,"resources":[{"name":"A","ceiling":1}]}]}
fine a|AA|m
DuplicateName A|\u0041|M

// A script is judged the same way on any core, and in any task of its core.
text {"cores":[{"id":5,"counters":[{"name":"K","max":1}]},{"id":3,"tasks":[{"name":"A","prio":1,"script":""},{"name":"B","prio":1,"script":"@"}],"counters":[{"name":"Q","max":1}]}],"master":3}
fine GetCounterValue Q v0|IncrementCounter Q;IncrementCounter K
WrongCore GetCounterValue K v0

// A core has at most 8 counters; other cores have 8 of their own.
text {"cores":[{"id":0,"counters":[@]},{"id":1,"counters":[{"name":"K","max":1}]}]}
each [,] {"name":"K@","max":1}
fine 0|1|8
Limit 9|300
"#;

// A core with a task, a resource and two counters, and a core with a task and a counter.
pub(super) const TWO_CORES: &str =
    r#"{"cores":[{"id":0,"tasks":[{"name":"A","prio":1,"script":"@"}],"resources":[{"name":"R","ceiling":1}],"counters":[{"name":"K","max":9},{"name":"L","max":1000000000,"min":10,"software":true}]},{"id":1,"tasks":[{"name":"B","prio":1,"script":""}],"counters":[{"name":"Q","max":1}]}]}"#;

const OPERATIONS: &str = r#"
// Operations on counters.
fine IncrementCounter K|IncrementCounter L|IncrementCounter Q|IncrementCounter ?|GetCounterValue K v0
fine GetCounterValue L v7|GetCounterValue ? v0|IncrementCounter Q;GetCounterValue K v1;ActivateTask B
UnknownName IncrementCounter Nobody|GetCounterValue Nobody v0|IncrementCounter A|IncrementCounter B|IncrementCounter R
UnknownName IncrementCounter M|GetCounterValue A v0|GetCounterValue R v0|ActivateTask K|GetResource K|GetResource Q
UnknownName GetEvent K v0|IncrementCounter Nobody;GetCounterValue K
BadScript IncrementCounter |GetCounterValue K |IncrementCounter|IncrementCounter K L|IncrementCounter K v0
BadScript IncrementCounter  K|IncrementCounter ??|IncrementCounter 1|incrementcounter K|GetCounterValue
BadScript GetCounterValue K|GetCounterValue K 1|GetCounterValue K v8|GetCounterValue K ?|GetCounterValue v0 K
BadScript GetCounterValue K v0 v1|GetCounterValue Nobody|GetCounterValue Q
// A script may advance a counter of another core, but may read only counters of its own core.
WrongCore GetCounterValue Q v0|IncrementCounter Q;GetCounterValue Q v0|GetCounterValue K v0;GetCounterValue Q v7;walk
WrongCore jump 9;GetCounterValue Q v0|WaitEvent 0;GetCounterValue Q v0
UnknownName GetCounterValue Q v0;IncrementCounter Nobody|IncrementCounter A;GetCounterValue Q v0
"#;

#[test]
fn texts_with_counters_have_their_faults_or_none(rt: HostRuntime) -> Result<(), Fail> {
    play_configurations(&rt, rt.alloc(), "@", TEXTS, 111)?;
    play_configurations(&rt, rt.alloc(), TWO_CORES, OPERATIONS, 46)
}
