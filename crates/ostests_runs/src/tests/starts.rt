//! Runs by application modes, and what a script learns of the start of cores.

use osplay::{Difference, play_table};

const RUNS: &str = r#"
// Two cores that name different modes.
config {"modes":["M","N"],"cores":[{"id":0,"start":[1,5],"mode":"M"},{"id":1,"mode":"N"}]}
stimuli {}
run
core 0
start 1 E_OK
start 5 E_OS_ID
conflict
core 1
conflict
ended

items 0
began 1 E_OK
began 5 E_OS_ID
entered
pass1 conflict

replay 0
as run

// After a conflict nothing is scheduled, and no stimulus is taken.
config {"modes":["M","N"],"cores":[{"id":0,"start":[1],"tasks":[{"name":"A","prio":1,"auto":["M","N"],"script":"TerminateTask"}]},{"id":1,"mode":"N"}]}
stimuli {"0":"op tick","1":"op"}
run
core 0
start 1 E_OK
conflict
core 1
conflict
ended

// A core that names no mode takes part in the conflict of the others.
config {"modes":["M","N"],"cores":[{"id":0,"mode":"DONOTCARE","start":[1,2]},{"id":1,"mode":"M"},{"id":2,"mode":"N"}]}
stimuli {}
run
core 0
start 1 E_OK
start 2 E_OK
conflict
core 1
conflict
core 2
conflict
ended

// A core that is never started takes no part in a conflict.
config {"modes":["M","N"],"cores":[{"id":0,"start":[1]},{"id":1,"mode":"M","tasks":[{"name":"B","prio":1,"auto":["M"],"script":"TerminateTask"}]},{"id":2,"mode":"N"}]}
stimuli {}
run
core 0
start 1 E_OK
hook Startup
core 1 .. pre B
core 2
ended

// Two cores that name no mode.
config {"cores":[{"id":0,"mode":"DONOTCARE","start":[1],"counters":[{"name":"C","max":9}],"alarms":[{"name":"L","counter":"C","action":"ActivateTask A","auto":{"modes":["M"],"start":1,"cycle":0}}],"tables":[{"name":"S","counter":"C","duration":2,"points":[{"offset":0,"actions":["ActivateTask A"]}],"auto":{"modes":["M"],"offset":1}}],"tasks":[{"name":"A","prio":1,"auto":["M"],"script":"TerminateTask"}]},{"id":1,"mode":"DONOTCARE","tasks":[{"name":"B","prio":1,"auto":["M"],"script":"TerminateTask"}]}]}
stimuli {"0":"op tick"}
// If no core names a mode, StartupHook is called and nothing autostarts.
run
core 0
start 1 E_OK .. tick
core 1 .. ended

stimuli {}
items 1
on
entered
pass1 none
readied
pass2 0 1
drained .. last

replay 1
core 1
hook Startup

// A core that takes the mode that the other one names.
config {"modes":["M","N"],"cores":[{"id":0,"mode":"DONOTCARE","start":[1],"tasks":[{"name":"A","prio":1,"auto":["N"],"script":"TerminateTask"},{"name":"B","prio":1,"auto":["M"],"script":"TerminateTask"}]},{"id":1,"mode":"N","tasks":[{"name":"D","prio":1,"auto":["N"],"script":"TerminateTask"}]}]}
stimuli {"0":"op op","1":"op op"}
run
core 0
start 1 E_OK .. pre A
post A
end A
core 1 .. pre D
post D
end D
ended

stimuli {"0":"op"}
items 0
began 1 E_OK
entered
pass1 N
readied
pass2 0 1
stim op
drained .. last

replay 0
as run

// A core that names a mode passes only in that mode or in a conflict; a core that names none passes in each case.
first
on
entered

log
@

with pass1 M|pass1 none
replay 1
core 1
fault 15 ItemRefused 3

log
pass1 conflict
readied

replay 1
core 1
conflict
fault 15 ItemRefused 4

first
began 1 E_OK
entered

log
pass1 M
readied
pass2 0

replay 0
core 0
start 1 E_OK .. pre B

log
pass1 none
readied
pass2 0

replay 0
as before up to hook Startup

log
pass1 conflict

replay 0
core 0
start 1 E_OK
conflict

// Tasks, alarms and tables autostart in each mode of their lists, and in no other.
config {"modes":["M","N","O"],"cores":[{"id":0,"mode":"N","counters":[{"name":"C","max":9}],"alarms":[{"name":"L1","counter":"C","action":"ActivateTask B","auto":{"modes":["O"],"start":1,"cycle":0}},{"name":"L2","counter":"C","action":"ActivateTask E","auto":{"modes":["M","N"],"start":1,"cycle":0}}],"tables":[{"name":"S1","counter":"C","duration":5,"points":[{"offset":0,"actions":["ActivateTask B"]}],"auto":{"modes":["M","O"],"offset":1}},{"name":"S2","counter":"C","duration":5,"points":[{"offset":0,"actions":["ActivateTask B"]}],"auto":{"modes":["N"],"offset":1}}],"tasks":[{"name":"A","prio":1,"auto":["M","N"],"script":"TerminateTask"},{"name":"B","prio":3,"auto":["O"],"script":"TerminateTask"},{"name":"D","prio":2,"auto":["N","N"],"script":"TerminateTask"},{"name":"E","prio":4,"auto":[],"script":"TerminateTask"}]}]}
stimuli {"0":"tick op op op op"}
run
core 0 .. act A
act D
pre D
tick
alarm L2
act E
point S2 0
act B
post D
pre E .. end E
pre B .. end B
pre D .. end D
pre A .. end A
ended

// A core without a mode names the first one.
config {"modes":["N","M"],"cores":[{"id":0,"tasks":[{"name":"A","prio":1,"auto":["N"],"script":"TerminateTask"},{"name":"B","prio":1,"auto":["M"],"script":"TerminateTask"}]}]}
stimuli {"0":"op op"}
run
core 0 .. pre A
post A
end A
ended

// StartCore comes too late. It names the invalid identifier, two cores that are not configured, a started core, a core
// that was never started, and the caller's own core. No status calls ErrorHook.
config {"cores":[{"id":0,"start":[1],"tasks":[{"name":"A","prio":1,"auto":["M"],"script":"StartCore ?;StartCore 5;StartCore 255;StartCore 1;StartCore 2;StartCore 0;status v0;TerminateTask"}]},{"id":1},{"id":2}]}
stimuli {"0":"op op op op op op op op"}
run
core 0
start 1 E_OK .. pre A
stat A StartCore E_OS_ID
stat A StartCore E_OS_ID
stat A StartCore E_OS_ID
stat A StartCore E_OS_ACCESS
stat A StartCore E_OS_ACCESS
stat A StartCore E_OS_ACCESS
var A v0 1
post A
end A
core 1 .. core 2
ended

// With interrupts suspended StartCore is refused before its checks, again without the hook. The calls without a
// status are ignored: no effect, no line, and the variable and the last status stay.
config {"cores":[{"id":0,"tasks":[{"name":"A","prio":1,"auto":["M"],"script":"set v1 9;StartCore ?;SuspendAllInterrupts;StartCore ?;status v0;GetNumberOfActivatedCores v1;ShutdownOS 0;ShutdownAllCores 0;status v0;addv v2 v1;ResumeAllInterrupts;GetNumberOfActivatedCores v1;status v0;TerminateTask"}]}]}
stimuli {"0":"op op op op op op op op op op op op op op"}
run
core 0 .. pre A
var A v1 9
stat A StartCore E_OS_ID
stat A StartCore E_OS_DISABLEDINT
var A v0 10
var A v0 10
var A v2 9
var A v1 1
var A v0 10
post A
end A
ended

// An ISR may call StartCore and GetNumberOfActivatedCores, which counts the started cores and not the configured ones.
config {"cores":[{"id":0,"start":[1,2],"tasks":[{"name":"A","prio":1,"auto":["M"],"script":"TerminateTask"}],"isrs":[{"name":"I","level":1,"script":"StartCore 1;GetNumberOfActivatedCores v7;StartCore ?"}]},{"id":1},{"id":2},{"id":3}]}
stimuli {"0":"irq=I op op op op op"}
run
core 0
start 1 E_OK
start 2 E_OK .. pre A
irq I
enter I
stat I StartCore E_OS_ACCESS
var I v7 3
stat I StartCore E_OS_ID
leave I
post A
end A
core 1
hook Startup
core 2 .. core 3
ended

// Operations of the right form, in a script of a task, and in one of an ISR. Core 0 starts cores, so it is bound in
// any case.
with StartCore ?|StartCore 0|StartCore 255|GetNumberOfActivatedCores v7|ShutdownOS 0|ShutdownOS 16|ShutdownAllCores 0|ShutdownAllCores 16
config {"cores":[{"id":0,"start":[0],"tasks":[{"name":"A","prio":1,"script":"@"}]},{"id":1}]}
check
ok
core 0 bound
core 1 off

config {"cores":[{"id":0,"start":[0],"isrs":[{"name":"A","level":1,"script":"@"}]},{"id":1}]}
check
as before

// Operations of a wrong form.
with StartCore|StartCore 256|StartCore 01|StartCore -1|StartCore x|StartCore A|StartCore 1 2|StartCore 18446744073709551616|GetNumberOfActivatedCores|GetNumberOfActivatedCores v8|GetNumberOfActivatedCores ?|GetNumberOfActivatedCores 0|ShutdownOS|ShutdownOS 17|ShutdownOS 00|ShutdownOS ?|ShutdownOS E_OK|shutdownOS 0|ShutdownAllCores|ShutdownAllCores 17|ShutdownAllCores ?|ShutdownAllCores 0 0
config {"cores":[{"id":0,"start":[0],"tasks":[{"name":"A","prio":1,"script":"@"}]},{"id":1}]}
check
fault 10 BadScript

config {"cores":[{"id":0,"start":[0],"isrs":[{"name":"A","level":1,"script":"@"}]},{"id":1}]}
check
as before

// What binds cores, and what does not.
// Started cores that name different modes: none is separate.
config {"modes":["M","N"],"cores":[{"id":0,"start":[1,2]},{"id":1,"mode":"N"},{"id":2},{"id":3,"mode":"N"}]}
check
ok
core 0 bound
core 1 bound
core 2 bound
core 3 off

// A core that is never started binds no other core by its mode.
config {"modes":["M","N"],"cores":[{"id":0,"start":[1]},{"id":1},{"id":2,"mode":"N"}]}
check
ok
core 0 bound
core 1 separate
core 2 off

// A core that names no mode is bound to those that do.
config {"cores":[{"id":0,"start":[1,2]},{"id":1,"mode":"DONOTCARE"},{"id":2}]}
check
ok
core 0 bound
core 1 bound
core 2 separate

config {"cores":[{"id":0,"mode":"DONOTCARE"}]}
check
ok
core 0 bound

// A StartCore, even one that names no core, binds the core that calls it, and not the core that it names.
config {"cores":[{"id":0,"start":[1,2]},{"id":1,"tasks":[{"name":"X","prio":1,"script":"StartCore ?"}]},{"id":2,"tasks":[{"name":"Y","prio":1,"script":"ShutdownOS 0"}]}]}
check
ok
core 0 bound
core 1 bound
core 2 separate

config {"cores":[{"id":0,"start":[1,2]},{"id":1,"tasks":[{"name":"X","prio":1,"script":"work;StartCore 2"}]},{"id":2}]}
check
ok
core 0 bound
core 1 bound
core 2 separate

// GetNumberOfActivatedCores binds the core that calls it, too.
config {"cores":[{"id":0,"start":[1,2]},{"id":1,"isrs":[{"name":"I","level":1,"script":"GetNumberOfActivatedCores v0"}]},{"id":2}]}
check
ok
core 0 bound
core 1 bound
core 2 separate

// ShutdownAllCores binds all cores, even in an ISR's script, or in a script of a core that is never started.
config {"cores":[{"id":0,"start":[1,2]},{"id":1,"isrs":[{"name":"I","level":1,"script":"ShutdownAllCores 0"}]},{"id":2}]}
check
ok
core 0 bound
core 1 bound
core 2 bound

config {"cores":[{"id":0,"start":[1]},{"id":1},{"id":2,"tasks":[{"name":"X","prio":1,"script":"ShutdownAllCores 0"}]}]}
check
ok
core 0 bound
core 1 bound
core 2 off

config {"cores":[{"id":0,"tasks":[{"name":"X","prio":1,"script":"ShutdownAllCores 0"}]}]}
check
ok
core 0 bound
"#;

#[test]
fn modes_and_starts_print_their_texts(rt: HostRuntime) -> Result<(), Difference> {
    play_table(&rt, rt.alloc(), RUNS, 93)
}
