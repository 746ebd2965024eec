//! The first example and its logs, a core by itself, and what is no log.

use osplay::{Difference, compare, given, play_table, replay_of};
use std::test::Fail;

pub(super) const BORDER: &str = r#"
// One activation across the border.
config {"cores":[{"id":0,"start":[1],"tasks":[{"name":"A","prio":1,"auto":["M"],"script":"ActivateTask B;TerminateTask"}]},{"id":1,"tasks":[{"name":"B","prio":1,"script":"TerminateTask"}]}]}
// Neither its stimuli nor a log can be read.
replay 3
fault 5 UnknownName

replay 0
fault 21 Unreadable

items 3
fault 5 UnknownName

stimuli {"0":"op op","1":"op op"}
run
core 0
start 1 E_OK .. pre A
out 1 ActivateTask B
stat A ActivateTask E_OK
post A
end A
core 1 .. act B
in 0 ActivateTask B E_OK
pre B .. end B
ended

// The log of core 0. It replays to the core's block, even without its last line end.
items 0
began 1 E_OK .. pass2 0 1
stim op
post 1
in 1 0 rep E_OK
stim op
drained .. last

replay 0
as run

log open
as before

replay 0
as before

// The log of core 1.
items 1
on .. pass2 0 1
stim op
in 0 0 req ActivateTask B
post 0
stim op
drained .. last

replay 1
as run

// A schedule that ends the run, with a useless turn among the others.
turns "0o 1l 1o 0o 0l 1l 0o 1o 0l 1l 0o 0o 1s0 1o 0s1 1l 0o 1o 0o 1o 1o 0l 1l 0l 1l"
run
as run

// The same schedule, with a turn that changes nothing before each turn that changes something.
turns "1o 0o 0s1 1l 1s0 1o 1l 0o 0o 0l 1o 1l 0l 0o 0l 1o 1o 0l 0l 1l 1s0 0o 1s0 0o 0o 1s0 0s1 1o 1s0 0s1 0s1 0o 1s0 1o 0s1 0o 0l 1o 0l 1o 1o 0l 0o 1l 1o 0l 0l 1l"
run
as run

stimuli {}
run
core 0
start 1 E_OK .. pre A
core 1 .. ended

turns ""
run -> 3
core 0
core 1
stalled

turns "0o"
run -> 3
core 0
start 1 E_OK
core 1
stalled

// Faults of the stimuli, which come before those of the turns.
stimuli x
run
fault 1 NotJson

stimuli {"0":"op  op"}
turns x
run
fault 12 BadStimulus

// A log without lines.
log

replay 0
core 0

// A second reply is refused.
log
began 1 E_OK .. pass2 0 1
stim op
post 1
in 1 0 rep E_OK
in 1 1 rep E_OK
stim op
drained .. last

replay 0
core 0
start 1 E_OK .. pre A
out 1 ActivateTask B
stat A ActivateTask E_OK
fault 15 ItemRefused 9

// If an item may not be taken, its fault is printed after the block of the items before it. Here it is the first item.
log open
@

with stim op|began 1 E_OS_LIMIT|began 0 E_OK|on|last 3 E_OS_SPINLOCK|halt 255 E_OK|pass2
replay 0
core 0
fault 15 ItemRefused 1

// Here it is an item that a running core may not take.
log
began 1 E_OK .. pass2 0 1
@
last

with in 1 0 rep E_OK|in 1 0 req ActivateTask B|in 1 1 req ActivateTask A|in 0 0 req ActivateTask A|in 7 18446744073709551615 act SetEvent A 4294967295|in 1 0 rep E_OK -9223372036854775808|post 1|passend
replay 0
core 0
start 1 E_OK .. pre A
fault 15 ItemRefused 6

// A log with a line that is not an item is a bad log.
log open
@

with stim  op|stim op | stim op|stim|STIM op|stim irq=A
replay 0
fault 14 BadLog

with on 0|began 256 E_OK|began 01 E_OK|began 1 E_FINE
replay 0
fault 14 BadLog

with began 1|pass1 N|pass1 A|pass1|pass2 1 0|pass2 1 1
replay 0
fault 14 BadLog

with pass2 16|in 1 18446744073709551616 rep E_OK|in 1 0 rep E_OK 9223372036854775808|in 1 0 rep|in 1 0 E_OK|in 1 0 req TerminateTask|in 1 0 req ChainTask B|in 1 0 req ActivateTask ?|in 1 0 req ActivateTask NONE
replay 0
fault 14 BadLog

with in 1 0 req SetEvent A 0|in 1 0 act SetEvent A 4294967296|in 1 0 req ActivateTask|granted S|tried S 1|freed S|halt 1|last 1
replay 0
fault 14 BadLog

// So is a log with an empty line, even between other lines.
log
@

with
replay 0
fault 14 BadLog

log open
stim op
@
stim op

replay 0
fault 14 BadLog
"#;

const LOGS: &str = r#"
// One activation across the border, beside a core that has nothing to do with it.
config {"cores":[{"id":0,"start":[1,2],"tasks":[{"name":"A","prio":1,"auto":["M"],"script":"ActivateTask B;TerminateTask"}]},{"id":1,"tasks":[{"name":"B","prio":1,"script":"TerminateTask"}]},{"id":2,"tasks":[{"name":"V","prio":1,"auto":["M"],"script":"TerminateTask"}]}]}
check
ok
core 0 bound
core 1 bound
core 2 separate

stimuli {"0":"op op","2":"op"}
run
core 0
start 1 E_OK
start 2 E_OK .. pre A
out 1 ActivateTask B
stat A ActivateTask E_OK
post A
end A
core 1 .. act B
in 0 ActivateTask B E_OK
pre B
core 2 .. pre V
post V
end V
ended

stimuli {"2":"op"}
items 2
on .. pass2 0 1 2
stim op
drained .. last

replay 2
as run

// A core that is not separate, and cores that are not configured.
cut 0
fault 20 NotSeparate

cut 7
fault 20 NotSeparate

cut 255
fault 20 NotSeparate

// The separate core by itself.
cut 2
{"cap":16,"cores":[{"alarms":[],"counters":[],"id":2,"isrs":[],"mode":"M","protection":"PRO_SHUTDOWN","resources":[],"start":[],"tables":[],"tasks":[{"activations":1,"auto":["M"],"budget":0,"extended":false,"name":"V","preemptable":true,"prio":1,"script":"TerminateTask"}]}],"master":2,"modes":["M"],"spinlocks":[],"version":1}

config
stimuli {"2":"op"}
run
as run from core 2

cut 2
{"cap":16,"cores":[{"alarms":[],"counters":[],"id":2,"isrs":[],"mode":"M","protection":"PRO_SHUTDOWN","resources":[],"start":[],"tables":[],"tasks":[{"activations":1,"auto":["M"],"budget":0,"extended":false,"name":"V","preemptable":true,"prio":1,"script":"TerminateTask"}]}],"master":2,"modes":["M"],"spinlocks":[],"version":1}

check
ok
core 2 separate

// A core that is never started has a log without lines.
config {"cores":[{"id":0},{"id":5}]}
stimuli {}
items 5

replay 5
core 5

// Two cores. Core 0 sets and reads an alarm of core 1, whose action sets events of a task of core 0.
config {"cores":[{"id":0,"start":[1],"tasks":[{"name":"A","prio":1,"auto":["M"],"script":"SetRelAlarm L 2 0;GetAlarm L v1;TerminateTask"},{"name":"T","prio":2,"extended":true,"script":"TerminateTask"}]},{"id":1,"counters":[{"name":"C","max":9}],"alarms":[{"name":"L","counter":"C","action":"SetEvent T 5"}]}]}
stimuli {"0":"op op op","1":"tick tick"}
turns "0o 1l 1o 0o 0l 1l 0o 1o 0l 1l 0o 0o 1s0 1o 0s1 0o 0o 1s0 1o 0s1 0o 0o 1o 1o 1o 0s1 1o 0l 1l 0l 1l"
items 0
began 1 E_OK .. pass2 0 1
stim op
post 1
in 1 0 rep E_OK
stim op
post 1
in 1 1 rep E_OK 2
stim op
drained
in 1 2 act SetEvent T 5
passend
last

replay 0
core 0
start 1 E_OK .. pre A
out 1 SetRelAlarm L 2 0
stat A SetRelAlarm E_OK
out 1 GetAlarm L v1
stat A GetAlarm E_OK 2
post A
end A
in 1 SetEvent T 5 E_OS_STATE
hook Error E_OS_STATE
"#;

#[test]
fn logs_print_their_texts(rt: HostRuntime) -> Result<(), Difference> {
    play_table(&rt, rt.alloc(), BORDER, 68)?;
    play_table(&rt, rt.alloc(), LOGS, 15)
}

// No line of a table holds this line end.
#[test]
fn a_line_end_of_two_characters_is_a_bad_log(rt: HostRuntime) -> Result<(), Fail> {
    let (border, _) = given(BORDER)?;
    let texts = [Some(border), Some("stim op\r\n")];
    let came = ("", "fault 14 BadLog\n", 1);
    compare(&rt, rt.alloc(), &replay_of(0), &texts, came)?;
    Ok(())
}
