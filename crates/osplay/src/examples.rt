//! Tables that are played by lists, and whose first files are run by threads, too.

/// Two cores that call each other.
pub const MUTUAL: &str = r#"
// Two cores that call each other, with room for one envelope in each mailbox.
config {"cap":1,"cores":[{"id":0,"start":[1],"tasks":[{"name":"A","prio":1,"auto":["M"],"activations":2,"script":"ActivateTask B;TerminateTask"}]},{"id":1,"tasks":[{"name":"B","prio":1,"auto":["M"],"activations":2,"script":"ActivateTask A;TerminateTask"}]}]}
stimuli {"0":"op op","1":"op op"}
run
core 0
start 1 E_OK .. pre A
out 1 ActivateTask B
act A
in 1 ActivateTask A E_OK
stat A ActivateTask E_OK
post A
end A
pre A
core 1 .. pre B
out 0 ActivateTask A
act B
in 0 ActivateTask B E_OK
stat B ActivateTask E_OK
post B
end B
pre B
ended

// The first core's reply finds a full mailbox twice.
turns "0o 1l 1o 0o 0l 1l 0o 1o 0l 1l 0o 1o 0o 1o 0s1 0o 0o 1s0 0o 1o 0s1 1s0 0o 1o 0o 1o 0l 1l 0l 1l"
run
as before
"#;

/// One core shuts all cores down.
pub const ALL_DOWN: &str = r#"
// Core 0 shuts all cores down while core 1 runs.
config {"cores":[{"id":0,"start":[1],"tasks":[{"name":"A","prio":1,"auto":["M"],"script":"ShutdownAllCores 0"}]},{"id":1,"tasks":[{"name":"B","prio":1,"auto":["M"],"script":"work;jump 0"}]}]}
stimuli {"0":"op","1":"op op op op op op"}
run
core 0
start 1 E_OK .. pre A
halt 0 E_OK
hook Shutdown E_OK
core 1 .. pre B
halt 0 E_OK
hook Shutdown E_OK
ended

items 0
began 1 E_OK .. pass2 0 1
stim op
halt 0 E_OK
drained .. last 0 E_OK

replay 0
as run

items 1
on .. pass2 0 1
stim op
stim op
halt 0 E_OK
drained .. last 0 E_OK

replay 1
as run

// A core that passes the second barrier after a request to shut all down.
turns "0o 1l 1o 0o 0l 1l 0o 1o 0l 0o 0o 1l 1l 0o 1o 0l 1l 0l 1l"
run
as run

// A core that has drained takes no halt. It calls ShutdownHook at its end.
stimuli {"0":"op"}
run
as run up to pre B
hook Shutdown E_OK
ended

// The log says which core asked for a shutdown of all, and with which status. A core may also end without one.
first
on .. pass2 0 1

log
halt 255 E_OS_STATE
drained .. last

replay 1
core 1 .. pre B
halt 255 E_OS_STATE

log
stim op
drained .. last 7 E_OS_VALUE

replay 1
core 1 .. pre B
hook Shutdown E_OS_VALUE

// After the halt there is no stimulus and no further halt. Once the core has drained, there is no halt either.
log
halt 0 E_OK
@

with stim op|halt 0 E_OK|passend
replay 1
core 1 .. pre B
halt 0 E_OK
fault 15 ItemRefused 7

log
drained
halt 0 E_OK

replay 1
core 1 .. pre B
fault 15 ItemRefused 7

// There is no halt behind the last barrier.
log
drained
passend
halt 0 E_OK

replay 1
core 1 .. pre B
fault 15 ItemRefused 8

// There is no halt before the second barrier.
first
on
entered
pass1 M
readied

log
halt 0 E_OK

replay 1
core 1
hook Startup
fault 15 ItemRefused 5

// A core that has asked for a shutdown of all awaits the halt, whichever core asked first.
first
began 1 E_OK .. pass2 0 1

log
stim op
halt 1 E_OS_LIMIT
drained

replay 0
core 0
start 1 E_OK .. pre A
halt 1 E_OS_LIMIT

log
stim op
@

with stim op|drained
replay 0
core 0
start 1 E_OK .. pre A
fault 15 ItemRefused 7

// Core 1 is down when core 0 asks for a shutdown of all.
config {"cores":[{"id":0,"start":[1],"tasks":[{"name":"A","prio":1,"auto":["M"],"script":"work;ShutdownAllCores 0"}]},{"id":1,"tasks":[{"name":"B","prio":1,"auto":["M"],"script":"ShutdownOS 5"}]}]}
stimuli {"0":"op op","1":"op op"}
// Core 1 has called ShutdownHook already.
run
as run up to pre B
hook Shutdown E_OS_NOFUNC
ended

items 1
on .. pass2 0 1
stim op
drained .. last 0 E_OK

replay 1
as run

// A core that is down takes no halt, whether it has drained or not.
turns "0o 1l 1o 0o 0l 1l 0o 1o 0l 1l 0o 1o 0o 0o 1l 1o 1l"
run -> 3
as run up to halt 0 E_OK
core 1 .. pre B
hook Shutdown E_OS_NOFUNC
stalled

// A look does not halt a core that tries for a spinlock, nor one that still has to give one back.
config {"spinlocks":[{"name":"S"}],"cores":[{"id":0,"start":[1],"tasks":[{"name":"A","prio":1,"auto":["M"],"script":"ShutdownAllCores 0"}]},{"id":1,"tasks":[{"name":"B","prio":1,"auto":["M"],"script":"TryToGetSpinlock S v0;ReleaseSpinlock S;TerminateTask"}]}]}
stimuli {"0":"op","1":"op op op"}
turns "0o 1l 1o 0o 0l 1l 0o 1o 0l 1l 1o 0o 0o 1l 1o 1l 1o 0o 1o 0l 1l 0l 1l"
run
as run up to halt 0 E_OK
hook Shutdown E_OK
core 1 .. pre B
stat B TryToGetSpinlock E_OK 1
halt 0 E_OK
hook Shutdown E_OK
ended

config {"spinlocks":[{"name":"S"}],"cores":[{"id":0,"start":[1],"tasks":[{"name":"A","prio":1,"auto":["M"],"script":"ShutdownAllCores 0"}]},{"id":1,"tasks":[{"name":"B","prio":1,"auto":["M"],"script":"GetSpinlock S"},{"name":"N","prio":1,"auto":["M"],"script":"TerminateTask"}]}]}
stimuli {"0":"op","1":"op op op"}
turns "0o 1l 1o 0o 0l 1l 0o 1o 0l 1l 1o 1o 1o 0o 0o 1l 1o 1l 0o 1o 0l 1l 0l 1l"
run
core 0
start 1 E_OK .. pre A
halt 0 E_OK
hook Shutdown E_OK
core 1 .. act B
act N
pre B
stat B GetSpinlock E_OK
hook Error E_OS_MISSINGEND
post B
end B
pre N
halt 0 E_OK
hook Shutdown E_OK
ended
"#;

/// Both cores ask for a shutdown of all.
pub const ASKERS: &str = r#"
// Both cores ask for a shutdown of all.
config {"cores":[{"id":0,"start":[1],"tasks":[{"name":"A","prio":1,"auto":["M"],"script":"ShutdownAllCores 4"}]},{"id":1,"tasks":[{"name":"B","prio":1,"auto":["M"],"script":"ShutdownAllCores 7"}]}]}
stimuli {"0":"op","1":"op"}
// Of two that ask, the first decides for both.
run
core 0
start 1 E_OK .. pre A
halt 0 E_OS_LIMIT
hook Shutdown E_OS_LIMIT
core 1 .. pre B
halt 0 E_OS_LIMIT
hook Shutdown E_OS_LIMIT
ended

// Core 1 has asked, too: its look does not halt it, but its own turn does, with the status that core 0 asked for.
turns "0o 1l 1o 0o 0l 1l 0o 1o 0l 1l 0o 1o 0o 1l 1o 0o 1o 0l 1l 0l 1l"
run
as before

// The same turns, up to the look of core 1.
turns "0o 1l 1o 0o 0l 1l 0o 1o 0l 1l 0o 1o 0o 1l"
run -> 3
core 0
start 1 E_OK .. pre A
halt 0 E_OS_LIMIT
core 1 .. pre B
stalled

// Core 1 asks first.
turns "0o 1l 1o 0o 0l 1l 0o 1o 0l 1l 0o 1o 1o 0l 0o 1o 0o 0l 1l 0l 1l"
run
core 0
start 1 E_OK .. pre A
halt 1 E_OS_STATE
hook Shutdown E_OS_STATE
core 1 .. pre B
halt 1 E_OS_STATE
hook Shutdown E_OS_STATE
ended
"#;

/// Calls of spinlocks that are refused.
pub const REFUSED: &str = r#"
// Task A of core 0 asks for S2 twice, asks for S1, which comes before S2, and tries to end. Core 1 tries for S2 and
// asks for it.
config {"spinlocks":[{"name":"S1","next":"S2"},{"name":"S2"}],"cores":[{"id":0,"start":[1],"tasks":[{"name":"A","prio":1,"auto":["M"],"script":"GetSpinlock S2;GetSpinlock S2;GetSpinlock S1;TerminateTask"}]},{"id":1,"tasks":[{"name":"B","prio":1,"auto":["M"],"script":"work;work;TryToGetSpinlock S2 v0;GetSpinlock S2"}]}]}
stimuli {"0":"op op op op","1":"op op op op"}
run -> 3
core 0
start 1 E_OK .. pre A
stat A GetSpinlock E_OK
stat A GetSpinlock E_OS_INTERFERENCE_DEADLOCK
hook Error E_OS_INTERFERENCE_DEADLOCK
stat A GetSpinlock E_OS_NESTING_DEADLOCK
hook Error E_OS_NESTING_DEADLOCK
stat A TerminateTask E_OS_SPINLOCK
hook Error E_OS_SPINLOCK
core 1 .. pre B
stat B TryToGetSpinlock E_OK 0
stalled

items 0 -> 3
began 1 E_OK .. pass2 0 1
stim op
granted S2
stim op
stim op
stim op
drained

replay 0
as run

items 1 -> 3
on .. pass2 0 1
stim op
stim op
stim op
tried S2 0
stim op

replay 1
as run

// Core 1 takes S2 first.
turns "0o 1l 1o 0o 0l 1l 0o 1o 0l 1l 1o 1o 1o 0o 1o 0o 1o 0o 1o 0o 0l 1o"
run -> 3
core 0
start 1 E_OK .. pre A
core 1 .. pre B
stat B TryToGetSpinlock E_OK 1
stat B GetSpinlock E_OS_INTERFERENCE_DEADLOCK
hook Error E_OS_INTERFERENCE_DEADLOCK
stalled

// A core that asks for a spinlock takes that one, and nothing else but an envelope or a halt.
first
began 1 E_OK .. pass2 0 1
stim op

log
granted S2

replay 0
core 0
start 1 E_OK .. pre A
stat A GetSpinlock E_OK

log
@

with granted S1|tried S2 1|tried S2 0|freed S2|stim op|drained
replay 0
core 0
start 1 E_OK .. pre A
fault 15 ItemRefused 7

log
halt 1 E_OK
drained .. last 1 E_OK

replay 0
core 0
start 1 E_OK .. pre A
halt 1 E_OK
hook Shutdown E_OK

// The spinlock is granted once, and not after the halt.
log
granted S2
granted S2

replay 0
core 0
start 1 E_OK .. pre A
stat A GetSpinlock E_OK
fault 15 ItemRefused 8

log
halt 1 E_OK
granted S2

replay 0
core 0
start 1 E_OK .. pre A
halt 1 E_OK
fault 15 ItemRefused 8

// A core that did not ask for a spinlock takes none.
first
on .. pass2 0 1
stim op

log
@

with granted S2|tried S2 1|freed S2
replay 1
core 1 .. pre B
fault 15 ItemRefused 7

// A core that tries for a spinlock takes either answer, and no halt before the answer.
log
stim op
stim op
tried S2 0
stim op
granted S2

replay 1
core 1 .. pre B
stat B TryToGetSpinlock E_OK 0
stat B GetSpinlock E_OK

log
stim op
stim op
tried S2 1
stim op
stim op
freed S2

replay 1
as run up to hook Error E_OS_INTERFERENCE_DEADLOCK
hook Error E_OS_MISSINGEND
post B
end B

log
stim op
stim op
@

with tried S1 1|granted S2|halt 0 E_OK
replay 1
core 1 .. pre B
fault 15 ItemRefused 9
"#;

/// A core tries again and again for the spinlock that another one has.
pub const POLLING: &str = r#"
// Core 1 polls for the spinlock that core 0 has.
config {"spinlocks":[{"name":"S"}],"cores":[{"id":0,"start":[1],"tasks":[{"name":"A","prio":1,"auto":["M"],"script":"GetSpinlock S;work;work;ReleaseSpinlock S;TerminateTask"}]},{"id":1,"tasks":[{"name":"B","prio":1,"auto":["M"],"script":"TryToGetSpinlock S v0;jz v0 0;ReleaseSpinlock S;TerminateTask"}]}]}
stimuli {"0":"op op op op op","1":"op op op op op op op op op op op op"}
items 1
on .. pass2 0 1
stim op
tried S 0
stim op
stim op
tried S 0
stim op
stim op
tried S 1
stim op
stim op
freed S
stim op
stim op
stim op
stim op
stim op
drained .. last

run
core 0
start 1 E_OK .. pre A
stat A GetSpinlock E_OK
stat A ReleaseSpinlock E_OK
post A
end A
core 1 .. pre B
stat B TryToGetSpinlock E_OK 0
stat B TryToGetSpinlock E_OK 0
stat B TryToGetSpinlock E_OK 1
stat B ReleaseSpinlock E_OK
post B
end B
ended

replay 1
as run
"#;
