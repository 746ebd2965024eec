//! Worked examples of tasks and resources, on one core and across the border.

use osplay::examples::MUTUAL;
use osplay::{Difference, play_table};

const RUNS: &str = r#"
// The configuration cannot be read.
check
fault 21 Unreadable

cut 0
fault 21 Unreadable

// If the configuration can be read and has a fault, that fault is reported, whether the other files are right or not.
config {"cores":[
stimuli {}
run
fault 1 NotJson

config {"cores":[{"id":0}],"x":1}
stimuli {}
run
fault 2 Shape

config {"cores":[]}
stimuli {}
run
fault 3 Limit

config {"master":1,"cores":[{"id":0}]}
stimuli x
run
fault 5 UnknownName

config {"cores":[{"id":0,"tasks":[{"name":"A","prio":1,"script":"GetResource R"}]},{"id":1,"resources":[{"name":"R","ceiling":1}]}]}
stimuli x
run
fault 6 WrongCore

config {"spinlocks":[{"name":"S1","next":"S1"}],"cores":[{"id":0}]}
stimuli x
run
fault 7 SpinOrder

config {"cores":[{"id":0,"tasks":[{"name":"A","prio":1,"script":"ClearEvent 4294967296"}]}]}
stimuli x
run
fault 8 BadMask

config {"cores":[
check
fault 1 NotJson

config {"cores":[]}
check
fault 3 Limit

config {}
cut 0
fault 2 Shape

config x
replay 3
fault 1 NotJson

// The activation limit across cores.
config {"cores":[{"id":0,"start":[1],"tasks":[{"name":"A","prio":1,"auto":["M"],"script":"ActivateTask B;ActivateTask B;TerminateTask"}]},{"id":1,"tasks":[{"name":"B","prio":1,"script":"TerminateTask"}]}]}
stimuli {"0":"op op op"}
run
core 0
start 1 E_OK .. pre A
out 1 ActivateTask B
stat A ActivateTask E_OK
out 1 ActivateTask B
stat A ActivateTask E_OS_LIMIT
hook Error E_OS_LIMIT
post A
end A
core 1 .. act B
in 0 ActivateTask B E_OK
pre B
in 0 ActivateTask B E_OS_LIMIT
ended

// Refused activations.
config {"cores":[{"id":0,"tasks":[{"name":"A","prio":1,"auto":["M"],"script":"ActivateTask B;ActivateTask ?;ActivateTask A;TerminateTask"}]},{"id":1,"tasks":[{"name":"B","prio":1,"script":"TerminateTask"}]}]}
stimuli {"0":"op op op op"}
run
core 0 .. pre A
stat A ActivateTask E_OS_CORE
hook Error E_OS_CORE
stat A ActivateTask E_OS_ID
hook Error E_OS_ID
stat A ActivateTask E_OS_LIMIT
hook Error E_OS_LIMIT
post A
end A
core 1
ended

check
ok
core 0 bound
core 1 off

cut 1
fault 20 NotSeparate

// Tasks of one core: the greatest priority runs first. Of jobs with equal priority the first activated runs first,
// even if it was preempted.
config {"cores":[{"id":0,"tasks":[{"name":"X","prio":1,"auto":["M"],"script":"ActivateTask Y;ActivateTask H;TerminateTask"},{"name":"Y","prio":1,"script":"TerminateTask"},{"name":"Z","prio":1,"script":"TerminateTask"},{"name":"H","prio":2,"script":"ActivateTask Z;TerminateTask"}]}]}
stimuli {"0":"op op op op op op op"}
run
core 0 .. pre X
act Y
stat X ActivateTask E_OK
act H
stat X ActivateTask E_OK
post X
pre H
act Z
stat H ActivateTask E_OK
post H
end H
pre X .. end X
pre Y .. end Y
pre Z .. end Z
ended

// A core by itself that adds to a variable.
config {"cores":[{"id":2,"tasks":[{"name":"V","prio":1,"auto":["M"],"script":"add v0 3;TerminateTask"}]}],"master":2}
stimuli {"2":"op op"}
run
core 2 .. pre V
var V v0 3
post V
end V
ended

// A task that cannot be preempted: Schedule lets a job of greater priority run, and none of equal priority.
config {"cores":[{"id":0,"tasks":[{"name":"N","prio":1,"preemptable":false,"auto":["M"],"script":"ActivateTask E;Schedule;ActivateTask U;Schedule;TerminateTask"},{"name":"E","prio":1,"script":"TerminateTask"},{"name":"U","prio":2,"script":"TerminateTask"}]}]}
stimuli {"0":"op op op op op op op"}
run
core 0 .. pre N
act E
stat N ActivateTask E_OK
stat N Schedule E_OK
act U
stat N ActivateTask E_OK
stat N Schedule E_OK
post N
pre U .. end U
pre N .. end N
pre E .. end E
ended

// A job that holds a resource runs at its ceiling, until it gives the resource back.
config {"cores":[{"id":0,"tasks":[{"name":"L","prio":1,"auto":["M"],"script":"GetResource R;ActivateTask H;ReleaseResource R;TerminateTask"},{"name":"H","prio":2,"script":"TerminateTask"}],"resources":[{"name":"R","ceiling":2}]}]}
stimuli {"0":"op op op op op"}
run
core 0 .. pre L
stat L GetResource E_OK
act H
stat L ActivateTask E_OK
stat L ReleaseResource E_OK
post L
pre H .. end H
pre L .. end L
ended

// A job that holds a resource does not yield at Schedule.
config {"cores":[{"id":0,"tasks":[{"name":"N","prio":1,"preemptable":false,"auto":["M"],"script":"GetResource R;ActivateTask U;Schedule;ReleaseResource R;TerminateTask"},{"name":"U","prio":2,"script":"TerminateTask"}],"resources":[{"name":"R","ceiling":1}]}]}
stimuli {"0":"op op op op op op"}
run
core 0 .. pre N
stat N GetResource E_OK
act U
stat N ActivateTask E_OK
stat N Schedule E_OS_RESOURCE
hook Error E_OS_RESOURCE
stat N ReleaseResource E_OK
post N
end N
pre U .. end U
ended

// Refused services of resources; releasing one of two keeps the other's ceiling, and a job's end gives all back.
config {"cores":[{"id":0,"tasks":[{"name":"A","prio":1,"auto":["M"],"script":"GetResource ?;GetResource LOW;GetResource R;GetResource R;GetResource S;ReleaseResource R;ActivateTask B;ReleaseResource S;TerminateTask;ReleaseResource LOW"},{"name":"B","prio":2,"script":"GetResource R;ReleaseResource ?;ReleaseResource R;ReleaseResource R;TerminateTask"}],"resources":[{"name":"R","ceiling":3},{"name":"S","ceiling":1},{"name":"LOW","ceiling":0}]}]}
stimuli {"0":"op op op op op op op op op op op op op op op op"}
run
core 0 .. pre A
stat A GetResource E_OS_ID
hook Error E_OS_ID
stat A GetResource E_OS_ACCESS
hook Error E_OS_ACCESS
stat A GetResource E_OK
stat A GetResource E_OS_ACCESS
hook Error E_OS_ACCESS
stat A GetResource E_OK
stat A ReleaseResource E_OS_NOFUNC
hook Error E_OS_NOFUNC
act B
stat A ActivateTask E_OK
stat A ReleaseResource E_OK
stat A TerminateTask E_OS_RESOURCE
hook Error E_OS_RESOURCE
stat A ReleaseResource E_OS_ACCESS
hook Error E_OS_ACCESS
hook Error E_OS_MISSINGEND
post A
end A
pre B
stat B GetResource E_OK
stat B ReleaseResource E_OS_ID
hook Error E_OS_ID
stat B ReleaseResource E_OK
stat B ReleaseResource E_OS_NOFUNC
hook Error E_OS_NOFUNC
post B
end B
ended

// Two cores, each of whose first task activates the other's second one while it awaits the reply to its own call.
config {"cores":[{"id":0,"start":[1],"tasks":[{"name":"A","prio":2,"auto":["M"],"script":"ActivateTask D;TerminateTask"},{"name":"C","prio":1,"script":"TerminateTask"}]},{"id":1,"tasks":[{"name":"B","prio":2,"auto":["M"],"script":"ActivateTask C;TerminateTask"},{"name":"D","prio":1,"script":"TerminateTask"}]}]}
stimuli {"0":"op op op","1":"op op op"}
run
core 0
start 1 E_OK .. pre A
out 1 ActivateTask D
act C
in 1 ActivateTask C E_OK
stat A ActivateTask E_OK
post A
end A
pre C .. end C
core 1 .. pre B
out 0 ActivateTask C
act D
in 0 ActivateTask D E_OK
stat B ActivateTask E_OK
post B
end B
pre D .. end D
ended

// The second job of a task finds the variables of the first, but neither its position nor its status.
config {"cores":[{"id":0,"tasks":[{"name":"A","prio":1,"auto":["M"],"activations":2,"script":"status v1;jz v0 4;set v2 -5;jump 8;ActivateTask A;ActivateTask A;status v1;add v0 9223372036854775807;add v0 2;addv v2 v2;jz v2 12;TerminateTask;jump 0"}]}]}
stimuli {"0":"op op op op op op op op op op op op op op op op op op op op op"}
run
core 0 .. pre A
var A v1 0
act A
stat A ActivateTask E_OK
stat A ActivateTask E_OS_LIMIT
hook Error E_OS_LIMIT
var A v1 4
var A v0 9223372036854775807
var A v0 9223372036854775807
var A v2 0
var A v1 4
var A v2 -5
var A v0 9223372036854775807
var A v2 -10
post A
end A
pre A
var A v1 0
var A v2 -5
ended

config {"cores":[{"id":7},{"id":0,"start":[7]}]}
check
ok
core 0 bound
core 7 separate
"#;

#[test]
fn runs_print_their_texts(rt: HostRuntime) -> Result<(), Difference> {
    play_table(&rt, rt.alloc(), MUTUAL, 2)?;
    play_table(&rt, rt.alloc(), RUNS, 26)
}
