//! Names and operations: their form, and names and numbers that occur twice.

use super::play_configurations;
use std::test::Fail;

const TEXTS: &str = r#"
// The form of a name.
text {"cores":[{"id":0,"tasks":[{"name":"@","prio":1,"script":""}]}]}
text {"cores":[{"id":0,"tasks":[{"name":"A","prio":1,"auto":["M","@"],"script":""}]}]}
Shape |A |_A|9|9A|A B| A|A-B|A.B|A?|Ä|Aß|A\u0000|A\n
// `?`, the word for an invalid object, is not a name.
Shape ?

text {"cores":[{"id":0,"tasks":[{"name":"@","prio":1,"script":""}]}]}
fine Z|z|A_|a9|T0_x|work|none|DONOTCARE|\u0041

text {"cores":[{"id":0,"tasks":[{"name":"A","prio":1,"auto":["M","@"],"script":""}]}]}
UnknownName Z|z|A_|a9|T0_x|work|none|DONOTCARE|\u0041

text {"cores":[{"id":0,"tasks":[{"name":"A","prio":1,"script":"ActivateTask @"}]}]}
BadScript |A |_A|9|9A|A B| A|A-B|A.B|A?|Ä|Aß|A\u0000|A\n
fine ?|A

// The form of an operation.
text {"cores":[{"id":0,"tasks":[{"name":"A","prio":1,"script":"@"}]}]}
fine |work|TerminateTask|ActivateTask A|ActivateTask ?|work;work;work
BadScript  |work |ActivateTask |ActivateTask A |;|;work|work;;work|work; work|work ;work|Work|work 1|work,work|work\n
BadScript walk|?|A|TerminateTask A|TerminateTask ?|TerminateTask;|ActivateTask|ActivateTask  A|ActivateTask A A
BadScript ActivateTask Nobody Nobody|ActivateTask\tA|ActivateTask ??|activatetask A

// Names and numbers that occur twice.
text {"master":1,"cores":[{"id":0},{"id":1},{"id":2},{"id":@}]}
fine 3
DuplicateName 0|1|2

// A task's name must differ from the names of all other tasks, on any core, and from the mode's.
text {"cores":[{"id":0,"tasks":[{"name":"A","prio":1,"script":""}]},{"id":1},{"id":2,"tasks":[{"name":"@","prio":1,"script":""}]}]}
text {"cores":[{"id":0,"tasks":[{"name":"A","prio":1,"script":""},{"name":"B","prio":1,"script":""},{"name":"@","prio":1,"script":""}]}]}
fine a|AA|m|MM
DuplicateName A|\u0041|M

// If a member occurs twice, its last value counts.
text @
Limit {"cap":2,"cap":0,"cores":[{"id":0}]}|{"cores":[{"id":0}],"cores":[]}
Shape {"cap":2,"cap":"two","cores":[{"id":0}]}|{"cap":2,"cap":null,"cores":[{"id":0}]}

// A task is found by its name, whatever its place in its core's list.
text {"cores":[{"id":3,"tasks":[{"name":"A","prio":1,"script":"ActivateTask @"},{"name":"B","prio":1,"script":""}]},{"id":1,"tasks":[{"name":"C","prio":1,"script":""},{"name":"D","prio":1,"script":""},{"name":"E","prio":1,"script":""}]}],"master":3}
UnknownName F

// A name has 1 to 128 characters.
text {"cores":[{"id":0,"tasks":[{"name":"@","prio":1,"script":""}]}]}
each [] n
fine 1|128

text {"cores":[{"id":0,"tasks":[{"name":"A","prio":1,"auto":["@"],"script":""}]}]}
text {"cores":[{"id":0,"tasks":[{"name":"A","prio":1,"script":"ActivateTask @"}]}]}
each [] n
UnknownName 1|128

text {"cores":[{"id":0,"tasks":[{"name":"@","prio":1,"script":""}]}]}
text {"cores":[{"id":0,"tasks":[{"name":"A","prio":1,"auto":["@"],"script":""}]}]}
each [] n
Shape 129

text {"cores":[{"id":0,"tasks":[{"name":"A","prio":1,"script":"ActivateTask @"}]}]}
each [] n
BadScript 129
"#;

#[test]
fn texts_with_names_have_their_faults_or_none(rt: HostRuntime) -> Result<(), Fail> {
    play_configurations(&rt, rt.alloc(), "@", TEXTS, 128)
}
