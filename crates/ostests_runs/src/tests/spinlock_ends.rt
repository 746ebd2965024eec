//! Spinlocks that are given back for a job that ended or a core that is down, and the logs of these runs.

use osplay::{Difference, play_table};

const RUNS: &str = r#"
// Task A of core 0 ends with two spinlocks. Core 1 activates task H there, and asks for the second spinlock.
config {"spinlocks":[{"name":"S1","next":"S2"},{"name":"S2"}],"cores":[{"id":0,"start":[1],"tasks":[{"name":"A","prio":2,"auto":["M"],"script":"GetSpinlock S1;GetSpinlock S2"},{"name":"N","prio":1,"auto":["M"],"script":"TerminateTask"},{"name":"H","prio":3,"script":"TerminateTask"}]},{"id":1,"tasks":[{"name":"B","prio":1,"auto":["M"],"script":"ActivateTask H;GetSpinlock S2;ReleaseSpinlock S2;TerminateTask"}]}]}
stimuli {"0":"op op op op op","1":"op op op op"}
// While a job's spinlocks are given back nothing is dispatched.
turns "0o 1l 1o 0o 0l 1l 0o 1o 0l 1l 0o 0o 0o 0o 1o 1o 0o 0o 0s1 0o 1s0 1o 1o 0o 0o 1o 1o 0o 1o 0o 1o 0l 1l 0l 1l"
run
core 0
start 1 E_OK .. act A
act N
pre A
stat A GetSpinlock E_OK
stat A GetSpinlock E_OK
hook Error E_OS_MISSINGEND
post A
end A
act H
in 1 ActivateTask H E_OK
pre H .. end H
pre N .. end N
core 1 .. pre B
out 0 ActivateTask H
stat B ActivateTask E_OK
stat B GetSpinlock E_OK
stat B ReleaseSpinlock E_OK
post B
end B
ended

items 0
began 1 E_OK .. pass2 0 1
stim op
granted S1
stim op
granted S2
stim op
freed S2
in 1 0 req ActivateTask H
post 1
freed S1
stim op
stim op
drained .. last

replay 0
as run

items 1
on .. pass2 0 1
stim op
post 0
in 0 0 rep E_OK
stim op
granted S2
stim op
freed S2
stim op
drained .. last

replay 1
as run

// Of two spinlocks the newest is given back first, after a job's end and after a halt.
first
began 1 E_OK .. pass2 0 1
stim op

log
granted S1
stim op
granted S2
stim op
freed S1

replay 0
as run up to end A
fault 15 ItemRefused 11

log
as before up to stim op
freed S2
freed S2

replay 0
as before up to end A
fault 15 ItemRefused 12

log
as before up to granted S2
halt 1 E_OK
freed S1

replay 0
as before up to stat A GetSpinlock E_OK
halt 1 E_OK
fault 15 ItemRefused 11

log
as before up to halt 1 E_OK
freed S2
drained

replay 0
as before up to halt 1 E_OK
fault 15 ItemRefused 12

log
as before up to freed S2
freed S1
drained .. last 1 E_OK

replay 0
as before up to halt 1 E_OK
hook Shutdown E_OK

// A halt has to wait until all spinlocks are given back.
log
as before up to granted S2
stim op
freed S2
halt 1 E_OK

replay 0
as run up to end A
fault 15 ItemRefused 12

// Core 1 waits for the spinlock of core 0, which shuts all cores down.
config {"spinlocks":[{"name":"S"}],"cores":[{"id":0,"start":[1],"tasks":[{"name":"A","prio":1,"auto":["M"],"script":"GetSpinlock S;ShutdownAllCores 4"}]},{"id":1,"tasks":[{"name":"B","prio":1,"auto":["M"],"script":"GetSpinlock S;TerminateTask"}]}]}
stimuli {"0":"op op","1":"op op"}
// A GetSpinlock that waits is dropped by the halt, and core 0 gives its spinlock back.
run
core 0
start 1 E_OK .. pre A
stat A GetSpinlock E_OK
halt 0 E_OS_LIMIT
hook Shutdown E_OS_LIMIT
core 1 .. pre B
halt 0 E_OS_LIMIT
hook Shutdown E_OS_LIMIT
ended

// The halt drops what core 1 asked for, and core 0 gives its spinlock back.
items 0
began 1 E_OK .. pass2 0 1
stim op
granted S
stim op
halt 0 E_OS_LIMIT
freed S
drained .. last 0 E_OS_LIMIT

replay 0
as run

items 1
on .. pass2 0 1
stim op
halt 0 E_OS_LIMIT
drained .. last 0 E_OS_LIMIT

replay 1
as run

// Core 1 asks again and again. Once the shutdown was requested, a look of core 1 drops the call.
turns "0o 1l 1o 0o 0l 1l 0o 1o 0l 1l 0o 0o 1o 1o 1l 1o 0o 0o 1o 1l 1o 0o 0o 0l 1l 0l 1l"
run
as run

// Two tasks and an ISR of core 0 each have a spinlock when the ISR shuts that core down.
config {"spinlocks":[{"name":"S1"},{"name":"S2"},{"name":"S3"}],"cores":[{"id":0,"start":[1],"tasks":[{"name":"A","prio":1,"auto":["M"],"script":"GetSpinlock S2;ActivateTask B;TerminateTask"},{"name":"B","prio":2,"script":"GetSpinlock S1;work;TerminateTask"}],"isrs":[{"name":"I","level":1,"script":"GetSpinlock S3;ShutdownOS 6"}]},{"id":1,"tasks":[{"name":"C","prio":1,"auto":["M"],"script":"work;work;work;work;work;GetSpinlock S2;ReleaseSpinlock S2;TerminateTask"}]}]}
stimuli {"0":"op op op irq=I op op op","1":"op op op op op op op op"}
// The spinlocks of a core that is down are given back, whoever had them.
run
core 0
start 1 E_OK .. pre A
stat A GetSpinlock E_OK
act B
stat A ActivateTask E_OK
post A
pre B
stat B GetSpinlock E_OK
irq I
enter I
stat I GetSpinlock E_OK
hook Shutdown E_OS_RESOURCE
core 1 .. pre C
stat C GetSpinlock E_OK
stat C ReleaseSpinlock E_OK
post C
end C
ended

// The newest spinlock of the whole core is given back first.
items 0
began 1 E_OK .. pass2 0 1
stim op
granted S2
stim op
stim op
granted S1
stim irq=I
stim op
granted S3
stim op
freed S3
freed S1
freed S2
drained .. last

replay 0
as run
"#;

#[test]
fn spinlocks_are_given_back_as_the_logs_say(rt: HostRuntime) -> Result<(), Difference> {
    play_table(&rt, rt.alloc(), RUNS, 20)
}
