//! Stimuli and schedules.

use super::{Reader, play};
use std::test::Fail;

// Three cores of version 2.
pub(super) const SECOND: &str = r#"{"version":2,"cores":[{"id":0},{"id":9},{"id":15}]}"#;

const NO_STIMULI: &str = r#"
// Words that are not stimuli.
text {"1":"op","0":"@"}
BadStimulus  |op |op op |tick |tick op | op|op  op|Op|OP|opop| tick|op  tick|tick  op|ticktick|optick|tickop|Tick|tic
BadStimulus ticks|tick\top|o|op,op|op;op|op\top|op\n|op\u0000|0o|work|A|?|irq|irq=|irq=A|irq=?|irq=Nobody

// Members that name no core.
text {"0":"op","@":""}
BadStimulus | |0 |2|7|8|10|00|01|001|+0|-0|-1|0.0|0e0| 0|0x0|256|257|4294967296|18446744073709551616|A|١

// Stimuli of another shape.
text @
BadStimulus null|0|true|""|"op"|[]|["op"]|[{"0":"op"}]|{"0":null}|{"0":true}|{"0":[]}|{"0":["op"]}|{"0":{}}
BadStimulus {"0":"","1":0}

// Each kind of fault.
BadStimulus {"0":"op  op"}|{"0":"tock"}|{"2":""}|{"00":""}|{"0":1}|[]
NotJson {

// A core has at most 100,000 words, which are counted before anything else is judged.
text {"0":"@"}
each [ ] op
fine 100000
Limit 100001

text {"0":"op @"}
each [ ] tick
fine 99999

text {"0":"@"}
each [ ] tick
Limit 100001
each [ ]
BadStimulus 100000

text {"0":"@"}
text {"5":"@"}
each [ ]
Limit 100001

text {"0":"nonsense","1":"@"}
text {"0":1,"x":"@"}
each [ ] op
Limit 100001

// If a member occurs twice, its last value counts.
text {"0":"@","0":"op"}
each [ ] op
fine 100001

// A text that is not an object has no words.
text ["@"]
each [ ] op
BadStimulus 100001
"#;

const NO_SCHEDULES: &str = r#"
// Words that are no turns.
text "@"
BadSchedule  |0o |o|l|s0|0|0 o|0O|0L|0S1|0x|0op|0o1|0l0|0ol|0o,1o|0o\t1o|0s|0so|0s1o|0s1s1|0s 1|0s-1|0s+1|-0o|+0o|0.0o
BadSchedule  0o|0o  1o|١o
// Turns in which a core serves itself.
BadSchedule 0s0|1s1|0o 1s1|0s0 1o
// Numbers with zeros before them.
BadSchedule 00o|01l|000o|0s01|1s00|01s0
// Turns of cores that are not configured.
BadSchedule 2o|7l|10o|256o|257l|4294967296o|0s2|2s0|1s256|1s18446744073709551616

// Turns of another shape.
text @
BadSchedule null|0|true|[]|["0o"]|{}|{"0":"o"}

// Each kind of fault.
BadSchedule "0s0"|"0"|"2o"|"00o"|"0s2"|"0o "|"0ol"|{}
NotJson 0o

// A schedule has at most 1,000,000 words, which are counted before anything else is judged.
text "0o @"
each [ ] 1l
fine 999999
Limit 1000000

text "@"
each [ ]
BadSchedule 1000000
Limit 1000001

text "0s0 @"
each [ ] 0o
Limit 1000000

// A value that is not a text has no words.
text ["0o @"]
each [ ] 1l
BadSchedule 1000000
"#;

const STIMULI_2: &str = r#"
text {"0":"op","@":""}
fine 9|15
BadStimulus 1|8|10|16|09|015|9 |15.0|150
"#;

const SECOND_SCHEDULES: &str = r#"
text "15o @"
fine 9o|15l|9s15|15s9|0s15|15s0
BadSchedule 1o|8o|16o|9s9|15s15|15s1|9s16|09o|9s09|015o|150o|9s150|15|15s|9 s15
"#;

#[test]
fn stimuli_and_schedules_have_their_faults_or_none(rt: HostRuntime) -> Result<(), Fail> {
    play(&rt, rt.alloc(), Reader::Stimuli, "@", NO_STIMULI, 90)?;
    play(&rt, rt.alloc(), Reader::Schedule, "@", NO_SCHEDULES, 72)?;
    play(&rt, rt.alloc(), Reader::SecondStimuli, "@", STIMULI_2, 11)?;
    play(
        &rt,
        rt.alloc(),
        Reader::SecondSchedule,
        "@",
        SECOND_SCHEDULES,
        21,
    )
}
