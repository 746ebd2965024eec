//! Events, waiting and chaining, on one core and across the border.

use osplay::{Difference, play_table};

const RUNS: &str = r#"
// A job that is released is placed after the other jobs of its priority.
config {"cores":[{"id":0,"tasks":[{"name":"W","prio":2,"extended":true,"auto":["M"],"script":"WaitEvent 1;TerminateTask"},{"name":"F","prio":2,"script":"TerminateTask"},{"name":"D","prio":1,"preemptable":false,"auto":["M"],"script":"ActivateTask F;SetEvent W 1;TerminateTask"}]}]}
stimuli {"0":"op op op op op op"}
run
core 0 .. act W
act D
pre W .. wait W 1
pre D
act F
stat D ActivateTask E_OK
ev W 1
free W
stat D SetEvent E_OK
post D
end D
pre F .. end F
pre W .. end W
ended

// A task at its limit chains to itself, over and over.
config {"cores":[{"id":0,"tasks":[{"name":"S","prio":1,"auto":["M"],"script":"ChainTask S"}]}]}
stimuli {"0":"op op"}
run
core 0 .. pre S
post S
end S
act S
pre S .. end S
act S
pre S
ended

// A chain to another core's task that is at its limit: the caller goes on.
config {"cores":[{"id":0,"start":[1],"tasks":[{"name":"A","prio":1,"auto":["M"],"script":"ChainTask B;TerminateTask"}]},{"id":1,"tasks":[{"name":"B","prio":1,"auto":["M"],"script":"TerminateTask"}]}]}
stimuli {"0":"op op"}
run
core 0
start 1 E_OK .. pre A
out 1 ActivateTask B
stat A ChainTask E_OS_LIMIT
hook Error E_OS_LIMIT
post A
end A
core 1 .. pre B
in 0 ActivateTask B E_OS_LIMIT
ended

// A chain to another core's task: the caller ends with the reply.
config {"cores":[{"id":0,"start":[1],"tasks":[{"name":"A","prio":1,"auto":["M"],"script":"ChainTask B"},{"name":"C","prio":0,"auto":["M"],"script":"TerminateTask"}]},{"id":1,"tasks":[{"name":"B","prio":1,"script":"TerminateTask"}]}]}
stimuli {"0":"op op","1":"op op"}
run
core 0
start 1 E_OK .. act A
act C
pre A
out 1 ActivateTask B
post A
end A
pre C .. end C
core 1 .. act B
in 0 ActivateTask B E_OK
pre B .. end B
ended

// A task sets the event that another core's task waits for.
config {"cores":[{"id":0,"start":[1],"tasks":[{"name":"A","prio":1,"auto":["M"],"script":"SetEvent W 4;TerminateTask"}]},{"id":1,"tasks":[{"name":"W","prio":1,"extended":true,"auto":["M"],"script":"WaitEvent 4;TerminateTask"}]}]}
stimuli {"0":"op op","1":"op op"}
run
core 0
start 1 E_OK .. pre A
out 1 SetEvent W 4
stat A SetEvent E_OK
post A
end A
core 1 .. pre W
post W
wait W 4
ev W 4
free W
in 0 SetEvent W 4 E_OK
pre W .. end W
ended

// Events for tasks of another core: one task has no events, and one is suspended.
config {"cores":[{"id":0,"start":[1],"tasks":[{"name":"A","prio":1,"auto":["M"],"script":"SetEvent B 1;SetEvent E 1;TerminateTask"}]},{"id":1,"tasks":[{"name":"B","prio":1,"script":"TerminateTask"},{"name":"E","prio":1,"extended":true,"script":"TerminateTask"}]}]}
stimuli {"0":"op op op"}
run
core 0
start 1 E_OK .. pre A
out 1 SetEvent B 1
stat A SetEvent E_OS_ACCESS
hook Error E_OS_ACCESS
out 1 SetEvent E 1
stat A SetEvent E_OS_STATE
hook Error E_OS_STATE
post A
end A
core 1 .. in 0 SetEvent B 1 E_OS_ACCESS
in 0 SetEvent E 1 E_OS_STATE
ended

// Each check of each service, and events that outlast a wait for them.
config {"cores":[{"id":0,"tasks":[{"name":"B","prio":1,"auto":["M"],"script":"ChainTask ?;ChainTask N;GetResource R;ChainTask B;ReleaseResource R;SetEvent ? 1;SetEvent B 1;SetEvent E 1;ClearEvent 1;WaitEvent 1;GetEvent ? v0;GetEvent B v0;GetEvent E v0;ChainTask F;TerminateTask"},{"name":"F","prio":0,"auto":["M"],"script":"ActivateTask E;SetEvent E 6;GetEvent E v1;status v2;TerminateTask"},{"name":"E","prio":0,"extended":true,"script":"WaitEvent 3;ClearEvent 2;GetEvent E v0;GetResource R;WaitEvent 4;ReleaseResource R;WaitEvent 1;TerminateTask"}],"resources":[{"name":"R","ceiling":1}]},{"id":1,"tasks":[{"name":"N","prio":1,"script":"TerminateTask"}]}]}
stimuli {"0":"op op op op op op op op op op op op op op op op op op op op op op op op op op op op"}
run
core 0 .. act B
act F
pre B
stat B ChainTask E_OS_ID
hook Error E_OS_ID
stat B ChainTask E_OS_CORE
hook Error E_OS_CORE
stat B GetResource E_OK
stat B ChainTask E_OS_RESOURCE
hook Error E_OS_RESOURCE
stat B ReleaseResource E_OK
stat B SetEvent E_OS_ID
hook Error E_OS_ID
stat B SetEvent E_OS_ACCESS
hook Error E_OS_ACCESS
stat B SetEvent E_OS_STATE
hook Error E_OS_STATE
stat B ClearEvent E_OS_ACCESS
hook Error E_OS_ACCESS
stat B WaitEvent E_OS_ACCESS
hook Error E_OS_ACCESS
stat B GetEvent E_OS_ID
hook Error E_OS_ID
stat B GetEvent E_OS_ACCESS
hook Error E_OS_ACCESS
stat B GetEvent E_OS_STATE
hook Error E_OS_STATE
stat B ChainTask E_OS_LIMIT
hook Error E_OS_LIMIT
post B
end B
pre F
act E
stat F ActivateTask E_OK
ev E 6
stat F SetEvent E_OK
stat F GetEvent E_OK 6
var F v2 0
post F
end F
pre E
stat E WaitEvent E_OK
clr E 2
stat E ClearEvent E_OK
stat E GetEvent E_OK 4
stat E GetResource E_OK
stat E WaitEvent E_OS_RESOURCE
hook Error E_OS_RESOURCE
stat E ReleaseResource E_OK
post E
wait E 1
core 1
ended
"#;

#[test]
fn events_and_chains_print_their_texts(rt: HostRuntime) -> Result<(), Difference> {
    play_table(&rt, rt.alloc(), RUNS, 7)
}
