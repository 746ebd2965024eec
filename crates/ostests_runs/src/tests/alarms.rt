//! Worked examples of counters and alarms.

use osplay::{Difference, play_table};

const RUNS: &str = r#"
// A counter that ticks advance past its greatest value, one that a task advances, and each check of the services.
config {"cores":[{"id":0,"counters":[{"name":"C","max":2},{"name":"S","max":9,"min":2,"software":true}],"tasks":[{"name":"A","prio":1,"auto":["M"],"script":"GetCounterValue C v0;IncrementCounter S;GetCounterValue S v1;IncrementCounter C;IncrementCounter F;IncrementCounter ?;GetCounterValue ? v2;GetCounterValue C v0;TerminateTask"}]},{"id":1,"counters":[{"name":"F","max":5,"software":true}]}]}
stimuli {"0":"tick tick op op op op op op op tick op op"}
run
core 0 .. pre A
tick
tick
stat A GetCounterValue E_OK 2
stat A IncrementCounter E_OK
stat A GetCounterValue E_OK 1
stat A IncrementCounter E_OS_ID
hook Error E_OS_ID
stat A IncrementCounter E_OS_CORE
hook Error E_OS_CORE
stat A IncrementCounter E_OS_ID
hook Error E_OS_ID
stat A GetCounterValue E_OS_ID
hook Error E_OS_ID
tick
stat A GetCounterValue E_OK 0
post A
end A
core 1
ended

// If an alarm is set to the present value of its counter, it expires a full turn later.
config {"cores":[{"id":0,"tasks":[{"name":"A","prio":1,"auto":["M"],"script":"SetAbsAlarm L 0 0;SetRelAlarm K 0 0;TerminateTask"},{"name":"B","prio":2,"script":"TerminateTask"}],"counters":[{"name":"C","max":3}],"alarms":[{"name":"L","counter":"C","action":"ActivateTask B"},{"name":"K","counter":"C","action":"ActivateTask B"}]}]}
stimuli {"0":"op op op tick tick tick tick op"}
run
core 0 .. pre A
stat A SetAbsAlarm E_OK
stat A SetRelAlarm E_OS_VALUE
hook Error E_OS_VALUE
post A
end A
<4*tick
>alarm L
act B
pre B .. end B
ended

// A cyclic alarm of a counter that goes past its greatest value.
config {"cores":[{"id":0,"tasks":[{"name":"A","prio":1,"auto":["M"],"script":"SetRelAlarm L 2 3;TerminateTask"},{"name":"B","prio":1,"script":"GetCounterValue C v0;TerminateTask"}],"counters":[{"name":"C","max":3}],"alarms":[{"name":"L","counter":"C","action":"ActivateTask B"}]}]}
stimuli {"0":"op op tick tick op op tick tick tick op op"}
run
core 0 .. pre A
stat A SetRelAlarm E_OK
post A
end A
tick
tick
alarm L
act B
pre B
stat B GetCounterValue E_OK 2
post B
end B
<3*tick
>alarm L
act B
pre B
stat B GetCounterValue E_OK 1
post B
end B
ended

// An alarm of another core is set, read and cancelled.
config {"cores":[{"id":0,"start":[1],"tasks":[{"name":"A","prio":1,"auto":["M"],"script":"SetRelAlarm L 5 0;GetAlarm L v0;CancelAlarm L;TerminateTask"}]},{"id":1,"tasks":[{"name":"B","prio":1,"script":"TerminateTask"}],"counters":[{"name":"C","max":9}],"alarms":[{"name":"L","counter":"C","action":"ActivateTask B"}]}]}
stimuli {"0":"op op op op"}
run
core 0
start 1 E_OK .. pre A
out 1 SetRelAlarm L 5 0
stat A SetRelAlarm E_OK
out 1 GetAlarm L v0
stat A GetAlarm E_OK 5
out 1 CancelAlarm L
stat A CancelAlarm E_OK
post A
end A
core 1 .. in 0 SetRelAlarm L 5 0 E_OK
in 0 GetAlarm L v0 E_OK 5
in 0 CancelAlarm L E_OK
ended

// Each check of the services of alarms. An alarm that is set stays in use until it is cancelled.
config {"cores":[{"id":0,"counters":[{"name":"C","max":5,"min":2}],"alarms":[{"name":"L","counter":"C","action":"ActivateTask A"}],"tasks":[{"name":"A","prio":1,"auto":["M"],"script":"SetRelAlarm ? 1 0;SetAbsAlarm F 1 0;CancelAlarm L;GetAlarm L v0;SetRelAlarm L 0 0;SetRelAlarm L 6 0;SetRelAlarm L 1 1;SetRelAlarm L 1 6;SetAbsAlarm L 6 0;SetAbsAlarm L 0 1;SetRelAlarm L 5 5;SetAbsAlarm L 0 0;SetRelAlarm L 0 0;GetAlarm L v0;CancelAlarm L;CancelAlarm L;SetAbsAlarm ? 0 0;GetAlarm ? v0;CancelAlarm ?;TerminateTask"}]},{"id":1,"counters":[{"name":"D","max":5}],"alarms":[{"name":"F","counter":"D","action":"ActivateTask A"}]}]}
stimuli {"0":"op op op op op op op op op op op op op op op op op op op op"}
run
core 0 .. pre A
stat A SetRelAlarm E_OS_ID
hook Error E_OS_ID
stat A SetAbsAlarm E_OS_CORE
hook Error E_OS_CORE
stat A CancelAlarm E_OS_NOFUNC
hook Error E_OS_NOFUNC
stat A GetAlarm E_OS_NOFUNC
hook Error E_OS_NOFUNC
<4*stat A SetRelAlarm E_OS_VALUE
hook Error E_OS_VALUE
>stat A SetAbsAlarm E_OS_VALUE
hook Error E_OS_VALUE
stat A SetAbsAlarm E_OS_VALUE
hook Error E_OS_VALUE
stat A SetRelAlarm E_OK
stat A SetAbsAlarm E_OS_STATE
hook Error E_OS_STATE
stat A SetRelAlarm E_OS_STATE
hook Error E_OS_STATE
stat A GetAlarm E_OK 5
stat A CancelAlarm E_OK
stat A CancelAlarm E_OS_NOFUNC
hook Error E_OS_NOFUNC
stat A SetAbsAlarm E_OS_ID
hook Error E_OS_ID
stat A GetAlarm E_OS_ID
hook Error E_OS_ID
stat A CancelAlarm E_OS_ID
hook Error E_OS_ID
post A
end A
core 1
ended

// Alarm actions on their own core: some are refused, and one releases a waiting job. A task also advances a counter.
config {"cores":[{"id":0,"counters":[{"name":"C","max":9},{"name":"S","max":9,"software":true}],"alarms":[{"name":"L1","counter":"C","action":"ActivateTask A","auto":{"modes":["M"],"start":1,"cycle":0}},{"name":"L2","counter":"C","action":"SetEvent W 4","auto":{"modes":["M"],"start":1,"cycle":0}},{"name":"L3","counter":"C","action":"SetEvent A 1","auto":{"modes":["M"],"start":1,"cycle":0}},{"name":"L4","counter":"S","action":"ActivateTask B","auto":{"modes":["M"],"start":1,"cycle":0}},{"name":"L5","counter":"C","action":"SetEvent V 1","auto":{"modes":["M"],"start":1,"cycle":0}}],"tasks":[{"name":"A","prio":1,"auto":["M"],"script":"IncrementCounter S;TerminateTask"},{"name":"W","prio":2,"extended":true,"auto":["M"],"script":"WaitEvent 4;ClearEvent 4;TerminateTask"},{"name":"B","prio":3,"script":"TerminateTask"},{"name":"V","prio":4,"extended":true,"script":"TerminateTask"}]}]}
stimuli {"0":"op tick op op op op op"}
run
core 0 .. act A
act W
pre W .. wait W 4
pre A
tick
alarm L1
hook Error E_OS_LIMIT
alarm L2
ev W 4
free W
alarm L3
hook Error E_OS_ACCESS
alarm L5
hook Error E_OS_STATE
post A
pre W
clr W 4
stat W ClearEvent E_OK
post W
end W
pre A
alarm L4
act B
stat A IncrementCounter E_OK
post A
pre B .. end B
pre A .. end A
ended

// If an alarm's action on another core is refused, that happens there; if that core was never started, it happens here.
config {"cores":[{"id":0,"start":[1],"counters":[{"name":"C","max":3}],"alarms":[{"name":"L1","counter":"C","action":"ActivateTask T","auto":{"modes":["M"],"start":1,"cycle":1}},{"name":"L2","counter":"C","action":"ActivateTask N","auto":{"modes":["M"],"start":1,"cycle":0}},{"name":"L3","counter":"C","action":"SetEvent W 2","auto":{"modes":["M"],"start":2,"cycle":0}}]},{"id":1,"tasks":[{"name":"T","prio":1,"script":"TerminateTask"},{"name":"W","prio":2,"extended":true,"auto":["M"],"script":"WaitEvent 2;TerminateTask"}]},{"id":2,"tasks":[{"name":"N","prio":1,"script":"TerminateTask"}]}]}
stimuli {"0":"tick tick","1":"op"}
run
core 0
start 1 E_OK .. tick
alarm L1
out 1 ActivateTask T
alarm L2
hook Error E_OS_CORE
tick
alarm L1
out 1 ActivateTask T
alarm L3
out 1 SetEvent W 2
core 1 .. pre W
post W
wait W 2
act T
in 0 ActivateTask T E_OK
pre T
in 0 ActivateTask T E_OS_LIMIT
hook Error E_OS_LIMIT
ev W 2
free W
in 0 SetEvent W 2 E_OK
post T
pre W
core 2
ended
"#;

#[test]
fn counters_and_alarms_print_their_texts(rt: HostRuntime) -> Result<(), Difference> {
    play_table(&rt, rt.alloc(), RUNS, 7)
}
