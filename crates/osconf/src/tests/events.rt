//! Events, the operations that name tasks, and extended tasks.

use super::play_configurations;
use std::test::Fail;

// A core with two tasks, and a core with one; the last task of each is extended.
pub(super) const TWO_CORES: &str =
    r#"{"cores":[{"id":0,"tasks":[{"name":"A","prio":1,"script":"@"},{"name":"B","prio":1,"extended":true,"script":""}],"resources":[{"name":"R","ceiling":1}]},{"id":1,"tasks":[{"name":"C","prio":1,"extended":true,"script":""}]}]}"#;

const OPERATIONS: &str = r#"
// Operations on events.
fine ChainTask A|ChainTask C|ChainTask ?|SetEvent A 1|SetEvent B 2;SetEvent C 3|SetEvent ? 1|ClearEvent 1
fine GetEvent A v0|GetEvent B v7|GetEvent ? v0|WaitEvent 1
fine SetEvent A 3;WaitEvent 1;GetEvent A v0;ClearEvent 3;ChainTask B
UnknownName ChainTask Nobody|ChainTask M|ChainTask R|SetEvent Nobody 1|SetEvent R 1|GetEvent Nobody v0|GetEvent R v0
UnknownName SetEvent Nobody 1;SetEvent A
BadScript ChainTask |SetEvent A |WaitEvent 1 |ChainTask|ChainTask A B|ChainTask A 1|ChainTask 1|chaintask A|SetEvent
BadScript SetEvent A|SetEvent 1|SetEvent 1 A|SetEvent 1 1|SetEvent A B|SetEvent A ?|SetEvent A 1 1|SetEvent  A 1
BadScript SetEvent Nobody|ClearEvent|ClearEvent A|ClearEvent ?|ClearEvent A 1|ClearEvent 1 1|GetEvent|GetEvent A
BadScript GetEvent v0|GetEvent A 1|GetEvent A v8|GetEvent A v0 v1|GetEvent v0 A v0|WaitEvent|WaitEvent A|WaitEvent ?
BadScript WaitEvent v0|WaitEvent 1 1|waitevent 1

// An operation of the right form can have faults of its names and masks. The smallest fault of the text is reported.
UnknownName SetEvent Nobody 0|SetEvent Nobody 4294967296|WaitEvent 0;ChainTask Nobody|SetEvent A 0;GetEvent Nobody v0
BadScript SetEvent Nobody 01
WrongCore GetEvent C v0|GetEvent A v0;GetEvent C v0|WaitEvent 0;GetEvent C v0
BadScript GetEvent C v8
BadMask SetEvent A 0|SetEvent C 0|SetEvent ? 0|WaitEvent 1;WaitEvent 0|walk;WaitEvent 0|WaitEvent 0;walk
BadMask jump 9;ClearEvent 0
BadScript WaitEvent 0 1
"#;

const TEXTS: &str = r#"
// The form of a mask.
text {"cores":[{"id":0,"tasks":[{"name":"A","prio":1,"script":"SetEvent A @"}]}]}
text {"cores":[{"id":0,"tasks":[{"name":"A","prio":1,"script":"work;ClearEvent @;work"}]}]}
text {"cores":[{"id":0,"tasks":[{"name":"A","prio":1,"script":"WaitEvent @"}]}]}
fine 1|2|10|2147483648|4294967294|4294967295
BadMask 0|4294967296|4294967297|8589934593|18446744073709551615|18446744073709551616|100000000000000000000000
BadScript |00|01|007|04294967296|+1|-1|-0|1.0|1e0|0x1|1_0|x|A|v1|?|١

// A script is judged the same way on any core, and in any task of its core.
text {"cores":[{"id":0},{"id":3,"tasks":[{"name":"A","prio":1,"script":""},{"name":"B","prio":1,"script":"@"}]}]}
fine WaitEvent 1
BadMask WaitEvent 0

text {"cores":[{"id":0,"tasks":[{"name":"A","prio":1,"script":"WaitEvent 0"},{"name":"@","prio":1,"script":""}]}]}
BadMask B
DuplicateName A

// The activation limit of an extended task is 1.
text {"cores":[{"id":0,"tasks":[{"name":"A","prio":1,"extended":true,"activations":@,"script":""}]}]}
fine 1
Limit 0|2|64|65|-1|18446744073709551615

text {"cores":[{"id":0,"tasks":[{"name":"A","prio":1,"extended":false,"activations":@,"script":""}]}]}
fine 1|2|64
Limit 65

// Each task of a core has its own limit, and the smaller fault is reported.
text {"cores":[{"id":0,"tasks":[{"name":"A","prio":1,"activations":2,"script":"WaitEvent 0"},{"name":"B","prio":1,"extended":@,"activations":2,"script":""}]}]}
Limit true
BadMask false
"#;

#[test]
fn texts_with_events_have_their_faults_or_none(rt: HostRuntime) -> Result<(), Fail> {
    play_configurations(&rt, rt.alloc(), "@", TEXTS, 107)?;
    play_configurations(&rt, rt.alloc(), TWO_CORES, OPERATIONS, 73)
}
