//! ISRs, their scripts and interrupts, budgets, and how a core answers a time fault.

use super::{Reader, play, play_configurations};
use std::test::Fail;

// A core with two tasks, two ISRs and a resource, and a core with one of each; the script is that of the first ISR.
pub(super) const TWO_CORES: &str =
    r#"{"cores":[{"id":0,"protection":"PRO_IGNORE","tasks":[{"name":"A","prio":1,"script":""},{"name":"W","prio":1,"extended":true,"script":""}],"isrs":[{"name":"I1","level":16,"budget":9,"script":"@"},{"name":"I2","level":1,"script":""}],"resources":[{"name":"R","ceiling":1}]},{"id":1,"tasks":[{"name":"B","prio":1,"script":""}],"isrs":[{"name":"J","level":1,"script":""}],"resources":[{"name":"Q","ceiling":1}]}]}"#;

const OPERATIONS: &str = r#"
// The script of an ISR names objects as a task's script does, but gets and releases no resource.
fine |work|ActivateTask A|ActivateTask B|ActivateTask ?|TerminateTask|Schedule|WaitEvent 1|SetEvent W 1|jump 0|jump 1
fine jump 2;work|SuspendAllInterrupts;ResumeAllInterrupts
BadScript GetResource R|ReleaseResource R|GetResource ?|ReleaseResource ?|work;GetResource R|ReleaseResource R;work
BadScript GetResource|GetResource R R|jump 2|jump 3;work|SuspendAllInterrupts x|ResumeAllInterrupts ?|walk|work;
UnknownName GetResource Nobody|ReleaseResource Nobody|GetResource A|GetResource I1|GetResource R;GetResource Nobody
WrongCore GetResource Q|ReleaseResource Q|GetResource R;ReleaseResource Q
BadMask SetEvent W 0|GetResource R;SetEvent W 0
// No operation names an ISR.
UnknownName ActivateTask I1|ActivateTask J|SetEvent I2 1|ReleaseResource J
"#;

const TEXTS: &str = r#"
// The level of an ISR, and budgets, at their limits.
text {"cores":[{"id":0,"isrs":[{"name":"I","level":@,"script":""}]}]}
text {"cores":[{"id":0,"isrs":[{"name":"H","level":16,"script":""},{"name":"I","level":@,"script":""}]}]}
fine 1|16
Limit 0|17|-1|257|4294967297|18446744073709551615|-9223372036854775808

text {"cores":[{"id":0,"isrs":[{"name":"I","level":1,"budget":@,"script":""}]}]}
text {"cores":[{"id":0,"tasks":[{"name":"A","prio":1,"budget":@,"script":""}]}]}
fine 0|1|1000000000
Limit -1|1000000001|4294967296|18446744073709551615|-9223372036854775808

// Values that are not whole numbers, or do not fit 64 bits.
text {"cores":[{"id":0,"isrs":[{"name":"I","level":@,"script":""}]}]}
text {"cores":[{"id":0,"isrs":[{"name":"I","level":1,"budget":@,"script":""}]}]}
text {"cores":[{"id":0,"tasks":[{"name":"A","prio":1,"budget":@,"script":""}]}]}
Shape null|true|"1"|[]|{}|1.0|1e0|-0|18446744073709551616|-9223372036854775809

// An ISR of another shape.
text {"cores":[{"id":0,"isrs":@}]}
Shape null|{}|"I"|[[]]|[null]|["I"]|[{}]|[{"level":1,"script":""}]|[{"name":"I","script":""}]|[{"name":"I","level":1}]
Shape [{"name":"I","level":1,"script":"","prio":1}]|[{"name":"I","level":1,"script":"","auto":[]}]
Shape [{"name":1,"level":1,"script":""}]|[{"name":"I","level":1,"script":null}]|[{"name":"I","level":1,"script":["work"]}]
fine []|[{"script":"","budget":1,"name":"I","level":1}]

text {"cores":[{"id":0}],"isrs":@}
Shape []

// The name of an ISR.
text {"cores":[{"id":0,"isrs":[{"name":"@","level":1,"script":""}]}]}
Shape |_I|9I|I 1|?|I-1|Ä
fine I|i9_
DuplicateName M

// The name must differ from the names of all other objects, on any core.
text {"cores":[{"id":0,"tasks":[{"name":"A","prio":1,"script":""}],"isrs":[{"name":"@","level":1,"script":""}]}]}
text {"cores":[{"id":0,"isrs":[{"name":"A","level":1,"script":""},{"name":"@","level":1,"script":""}]}]}
text {"cores":[{"id":0,"isrs":[{"name":"@","level":1,"script":""}],"resources":[{"name":"A","ceiling":1}]}]}
text {"cores":[{"id":0,"isrs":[{"name":"@","level":1,"script":""}]},{"id":1,"tasks":[{"name":"A","prio":1,"script":""}]}]}
text {"cores":[{"id":0,"isrs":[{"name":"A","level":1,"script":""}]},{"id":1,"isrs":[{"name":"@","level":1,"script":""}]}]}
fine a|AA|m
DuplicateName A|\u0041|M

// How a core answers a time fault.
text {"cores":[{"id":0,"protection":"@"}]}
fine PRO_IGNORE|PRO_TERMINATETASKISR|PRO_TERMINATEAPPL|PRO_TERMINATEAPPL_RESTART|PRO_SHUTDOWN|PRO\u005fSHUTDOWN
Shape |PRO_|PRO_NONE|PRO_SHUTDOWN | PRO_SHUTDOWN|pro_shutdown|PRO_SHUTDOWNS|PRO_TERMINATEAPPL_|SHUTDOWN|4

text {"cores":[{"id":0,"protection":@}]}
Shape null|true|4|[]|["PRO_SHUTDOWN"]|{}

// A core has at most 16 ISRs; other cores have 16 of their own.
text {"cores":[{"id":0,"isrs":[@]},{"id":1,"isrs":[{"name":"I","level":1,"script":""}]}]}
each [,] {"name":"I@","level":1,"script":""}
fine 0|1|16
Limit 17|300

// An ISR's script has at most 256 operations, whichever they are.
text {"cores":[{"id":0,"isrs":[{"name":"I","level":1,"script":"@"}]}]}
each [;] work
fine 256
Limit 257
each [;] GetResource ?
BadScript 256
Limit 257
each [;] ActivateTask I
UnknownName 256
Limit 257

// Of two faults the smaller is reported.
text @
Limit {"cores":[{"id":0,"isrs":[{"name":"M","level":17,"script":"GetResource ?"}]}]}
DuplicateName {"cores":[{"id":0,"isrs":[{"name":"M","level":1,"script":"GetResource Nobody"}]}]}
Shape {"cores":[{"id":0,"protection":"PRO_NONE","isrs":[{"name":"M","level":17,"script":""}]}]}
"#;

const INTERRUPTS: &str = r#"
// An interrupt must belong to one of the core's own ISRs.
text {"1":"op","0":"@"}
fine irq=I1|irq=I2|op irq=I1 tick irq=I2|irq=I1 irq=I1|irq=I2 op
BadStimulus irq|irq=|irq=A|irq=W|irq=R|irq=M|irq=J|irq=Nobody|irq=I|irq=I1x|irq=I12|irq=i1|IRQ=I1|Irq=I1|irq= I1
BadStimulus  irq=I1|irq=I1 |irq =I1|irq=I1,irq=I2|irq=I1\tirq=I2|irq=I1\n|irqI1|irq==I1|irq=irq=I1|oirq=I1|op=I1|tick=I1|irq=?|irq=0

text {"1":"@"}
fine irq=J|irq=J op irq=J
BadStimulus irq=I1|irq=I2|irq=B|irq=J J

// A core has at most 100,000 words.
text {"0":"@"}
each [ ] irq=I1
fine 1|100000
Limit 100001
each [ ] irq=J
BadStimulus 1|100000
Limit 100001
"#;

#[test]
fn texts_with_isrs_have_their_faults_or_none(rt: HostRuntime) -> Result<(), Fail> {
    play_configurations(&rt, rt.alloc(), "@", TEXTS, 158)?;
    play_configurations(&rt, rt.alloc(), TWO_CORES, OPERATIONS, 41)?;
    play(&rt, rt.alloc(), Reader::Interrupts, "@", INTERRUPTS, 46)
}
