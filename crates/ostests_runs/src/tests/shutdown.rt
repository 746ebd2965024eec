//! Runs that are shut down: one core, or all of them.

use osplay::examples::{ALL_DOWN, ASKERS};
use osplay::{Difference, play_table};

const RUNS: &str = r#"
// Core 1 shuts itself down, and core 0 activates a task of core 1.
config {"cores":[{"id":0,"start":[1],"tasks":[{"name":"A","prio":1,"auto":["M"],"script":"work;ActivateTask B;TerminateTask"}]},{"id":1,"tasks":[{"name":"B","prio":1,"auto":["M"],"script":"ShutdownOS 0"}]}]}
stimuli {"0":"op op op","1":"op"}
run
core 0
start 1 E_OK .. pre A
out 1 ActivateTask B
stat A ActivateTask E_OS_CORE
hook Error E_OS_CORE
post A
end A
core 1 .. pre B
hook Shutdown E_OK
ended

items 1
on .. pass2 0 1
stim op
drained
in 0 0 req ActivateTask B
post 0
passend
last

replay 1
as run

// A core that awaits a reply takes no halt.
first
began 1 E_OK .. pass2 0 1

log
stim op
stim op
halt 1 E_OK

replay 0
as run up to out 1 ActivateTask B
fault 15 ItemRefused 8

log
stim op
stim op
post 1
halt 1 E_OK

replay 0
as before up to out 1 ActivateTask B
fault 15 ItemRefused 9

log
as before up to post 1
in 1 0 rep E_OS_CORE
halt 1 E_OK

replay 0
as run up to hook Error E_OS_CORE
halt 1 E_OK

// A core that is down takes no stimulus and no halt, and calls no hook a second time.
first
on .. pass2 0 1

log
stim op
@

with stim op|halt 0 E_OS_ID
replay 1
core 1 .. pre B
hook Shutdown E_OK
fault 15 ItemRefused 7

log
stim op
drained .. last 0 E_OS_ID

replay 1
as run

// A core that was halted refuses a request. The caller takes the halt when the reply has come.
config {"cores":[{"id":0,"start":[1],"tasks":[{"name":"A","prio":1,"auto":["M"],"script":"work;ActivateTask B;TerminateTask"}]},{"id":1,"tasks":[{"name":"X","prio":2,"auto":["M"],"script":"ShutdownAllCores 0"},{"name":"B","prio":1,"script":"TerminateTask"}]}]}
stimuli {"0":"op op op op","1":"op op"}
run
as run up to end A
halt 1 E_OK
hook Shutdown E_OK
core 1 .. pre X
halt 1 E_OK
hook Shutdown E_OK
ended

// A core that is down takes no tick, and answers other cores with E_OS_CORE.
config {"cores":[{"id":0,"start":[1],"tasks":[{"name":"A","prio":1,"auto":["M"],"script":"work;work;work;ActivateTask B;TerminateTask"}]},{"id":1,"resources":[{"name":"R","ceiling":1,"lock":2}],"tasks":[{"name":"X","prio":1,"auto":["M"],"script":"GetResource R;jump 1"},{"name":"B","prio":2,"script":"TerminateTask"}]}]}
stimuli {"0":"op op op op op","1":"op tick tick tick tick"}
run
as run up to end A
core 1 .. pre X
stat X GetResource E_OK
tick
tick
hook Protection E_OS_PROTECTION_LOCKED
hook Shutdown E_OS_PROTECTION_LOCKED
ended

// A separate core that shuts down.
config {"cores":[{"id":0,"start":[1],"tasks":[{"name":"A","prio":1,"auto":["M"],"script":"TerminateTask"}]},{"id":1,"resources":[{"lock":2,"name":"R","ceiling":1},{"name":"S","ceiling":0}],"tasks":[{"name":"X","prio":1,"auto":["M"],"script":"GetResource R;jump 1"}]}]}
stimuli {"0":"op","1":"op tick tick op"}
run
core 0
start 1 E_OK .. pre A
post A
end A
as run from core 1

cut 1
{"cap":16,"cores":[{"alarms":[],"counters":[],"id":1,"isrs":[],"mode":"M","protection":"PRO_SHUTDOWN","resources":[{"ceiling":1,"lock":2,"name":"R"},{"ceiling":0,"lock":0,"name":"S"}],"start":[],"tables":[],"tasks":[{"activations":1,"auto":["M"],"budget":0,"extended":false,"name":"X","preemptable":true,"prio":1,"script":"GetResource R;jump 1"}]}],"master":1,"modes":["M"],"spinlocks":[],"version":1}

// With its own configuration that core prints the same.
config
stimuli {"1":"op tick tick op"}
run
as run from core 1

// Core 0 has a spinlock, and its alarms act on core 1, which shuts all cores down. A mailbox has room for one
// envelope.
config {"cap":1,"spinlocks":[{"name":"S"}],"cores":[{"id":0,"start":[1],"tasks":[{"name":"A","prio":1,"auto":["M"],"script":"GetSpinlock S;TerminateTask"}],"counters":[{"name":"C","max":9}],"alarms":[{"name":"L1","counter":"C","action":"ActivateTask P","auto":{"modes":["M"],"start":1,"cycle":0}},{"name":"L2","counter":"C","action":"ActivateTask Q","auto":{"modes":["M"],"start":1,"cycle":0}}]},{"id":1,"tasks":[{"name":"X","prio":2,"auto":["M"],"script":"ShutdownAllCores 7"},{"name":"P","prio":1,"script":"TerminateTask"},{"name":"Q","prio":1,"script":"TerminateTask"}]}]}
stimuli {"0":"op tick op","1":"op"}
// The halt finds both letters in the outbox.
turns "0o 1l 1o 0o 0l 1l 0o 1o 0l 1l 0o 0o 0o 1o 1o 0l 0o 0o 1s0 0o 0o 1s0 0o 1o 0l 1l 0l 1l"
run
core 0
start 1 E_OK .. pre A
stat A GetSpinlock E_OK
tick
alarm L1
out 1 ActivateTask P
alarm L2
out 1 ActivateTask Q
halt 1 E_OS_STATE
hook Shutdown E_OS_STATE
core 1 .. pre X
halt 1 E_OS_STATE
hook Shutdown E_OS_STATE
ended

// The outbox comes before the spinlock.
items 0
began 1 E_OK .. pass2 0 1
stim op
granted S
stim tick
halt 1 E_OS_STATE
post 1
post 1
freed S
drained .. last 1 E_OS_STATE

replay 0
as run

// The configuration above without the spinlock.
config {"cap":1,"cores":[{"id":0,"start":[1],"counters":[{"name":"C","max":9}],"alarms":[{"name":"L1","counter":"C","action":"ActivateTask P","auto":{"modes":["M"],"start":1,"cycle":0}},{"name":"L2","counter":"C","action":"ActivateTask Q","auto":{"modes":["M"],"start":1,"cycle":0}}]},{"id":1,"tasks":[{"name":"X","prio":2,"auto":["M"],"script":"ShutdownAllCores 7"},{"name":"P","prio":1,"script":"TerminateTask"},{"name":"Q","prio":1,"script":"TerminateTask"}]}]}
stimuli {"0":"op tick op","1":"op"}
// A core that was halted drops actions.
run
core 0
start 1 E_OK
hook Startup
as run from tick

// The halt finds both letters in the outbox, and the second one finds the mailbox full once.
turns "0o 1l 1o 0o 0l 1l 0o 1o 0l 1l 0o 1o 0o 1o 0l 0o 0o 1s0 0o 1s0 1o 0o 0l 1l 0l 1l"
run
as before

// The envelopes are posted after the halt.
items 0
began 1 E_OK .. pass2 0 1
stim op
stim tick
halt 1 E_OS_STATE
post 1
post 1
drained .. last 1 E_OS_STATE

replay 0
as run

items 1
on .. pass2 0 1
stim op
halt 1 E_OS_STATE
in 0 0 act ActivateTask P
in 0 1 act ActivateTask Q
drained .. last 1 E_OS_STATE

replay 1
as run

// A core that has called ShutdownAllCores and is not halted yet serves other cores, and dispatches nothing.
config {"cores":[{"id":0,"start":[1],"counters":[{"name":"C","max":9}],"alarms":[{"name":"L","counter":"C","action":"ActivateTask P","auto":{"modes":["M"],"start":1,"cycle":0}}]},{"id":1,"tasks":[{"name":"X","prio":2,"auto":["M"],"script":"ShutdownAllCores 0"},{"name":"P","prio":3,"script":"TerminateTask"}]}]}
stimuli {"0":"tick op op","1":"op op"}
run
core 0
start 1 E_OK .. tick
alarm L
out 1 ActivateTask P
halt 1 E_OK
hook Shutdown E_OK
core 1 .. pre X
act P
in 0 ActivateTask P E_OK
halt 1 E_OK
hook Shutdown E_OK
ended

// One core alone: an ISR shuts all cores down, an ISR shuts the core down, and a task does so while another one is
// ready.
config {"cores":[{"id":0,"tasks":[{"name":"A","prio":1,"auto":["M"],"script":"work;TerminateTask"}],"isrs":[{"name":"I","level":1,"script":"ShutdownAllCores 11"}]}]}
stimuli {"0":"irq=I op op op"}
run
core 0 .. pre A
irq I
enter I
halt 0 E_OS_PROTECTION_TIME
hook Shutdown E_OS_PROTECTION_TIME
ended

config {"cores":[{"id":0,"tasks":[{"name":"A","prio":1,"auto":["M"],"script":"work;TerminateTask"}],"isrs":[{"name":"I","level":1,"script":"work;ShutdownOS 15"}]}]}
stimuli {"0":"irq=I op op op irq=I tick"}
run
core 0 .. pre A
irq I
enter I
hook Shutdown E_OS_NESTING_DEADLOCK
ended

config {"cores":[{"id":0,"tasks":[{"name":"A","prio":1,"auto":["M"],"script":"ActivateTask B;ShutdownOS 3;TerminateTask"},{"name":"B","prio":1,"script":"TerminateTask"}]}]}
stimuli {"0":"op op op op"}
run
core 0 .. pre A
act B
stat A ActivateTask E_OK
hook Shutdown E_OS_ID
ended

// Two separate cores beside the master. All of them shut down, two before their stimuli are used up.
config {"cores":[{"id":0,"start":[1,2],"tasks":[{"name":"A","prio":1,"auto":["M"],"script":"work;ShutdownOS 0"}]},{"id":1,"tasks":[{"name":"B","prio":1,"auto":["M"],"script":"ShutdownOS 4"}]},{"id":2,"tasks":[{"name":"V","prio":1,"auto":["M"],"script":"add v0 3;ShutdownOS 2"}]}]}
stimuli {"0":"op op op","1":"op","2":"op op op op"}
run
core 0
start 1 E_OK
start 2 E_OK .. pre A
hook Shutdown E_OK
core 1 .. pre B
hook Shutdown E_OS_LIMIT
core 2 .. pre V
var V v0 3
hook Shutdown E_OS_CALLEVEL
ended

check
ok
core 0 bound
core 1 separate
core 2 separate

// The separate cores by themselves.
cut 2
{"cap":16,"cores":[{"alarms":[],"counters":[],"id":2,"isrs":[],"mode":"M","protection":"PRO_SHUTDOWN","resources":[],"start":[],"tables":[],"tasks":[{"activations":1,"auto":["M"],"budget":0,"extended":false,"name":"V","preemptable":true,"prio":1,"script":"add v0 3;ShutdownOS 2"}]}],"master":2,"modes":["M"],"spinlocks":[],"version":1}

config
stimuli {"2":"op op op op"}
run
as run from core 2

config {"cores":[{"id":0,"start":[1,2],"tasks":[{"name":"A","prio":1,"auto":["M"],"script":"work;ShutdownOS 0"}]},{"id":1,"tasks":[{"name":"B","prio":1,"auto":["M"],"script":"ShutdownOS 4"}]},{"id":2,"tasks":[{"name":"V","prio":1,"auto":["M"],"script":"add v0 3;ShutdownOS 2"}]}]}
cut 1
{"cap":16,"cores":[{"alarms":[],"counters":[],"id":1,"isrs":[],"mode":"M","protection":"PRO_SHUTDOWN","resources":[],"start":[],"tables":[],"tasks":[{"activations":1,"auto":["M"],"budget":0,"extended":false,"name":"B","preemptable":true,"prio":1,"script":"ShutdownOS 4"}]}],"master":1,"modes":["M"],"spinlocks":[],"version":1}

config
stimuli {"1":"op"}
run
core 1 .. pre B
hook Shutdown E_OS_LIMIT
ended
"#;

#[test]
fn shutdowns_print_their_texts(rt: HostRuntime) -> Result<(), Difference> {
    play_table(&rt, rt.alloc(), ALL_DOWN, 24)?;
    play_table(&rt, rt.alloc(), ASKERS, 4)?;
    play_table(&rt, rt.alloc(), RUNS, 33)
}
