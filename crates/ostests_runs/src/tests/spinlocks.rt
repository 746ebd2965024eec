//! Runs with spinlocks: their order, and what binds a core.

use osplay::{Difference, play_table};

const RUNS: &str = r#"
// While a task has a spinlock, it may not end itself, wait or call Schedule. A chain to another core is not sent.
config {"spinlocks":[{"name":"S"}],"cores":[{"id":0,"start":[1],"tasks":[{"name":"A","prio":1,"auto":["M"],"extended":true,"script":"GetSpinlock S;WaitEvent 1;Schedule;ChainTask A;ChainTask B;ChainTask C;ChainTask ?;TerminateTask;ReleaseSpinlock S;TerminateTask"}]},{"id":1,"tasks":[{"name":"B","prio":1,"script":"TerminateTask"}]},{"id":2,"tasks":[{"name":"C","prio":1,"script":"TerminateTask"}]}]}
stimuli {"0":"op op op op op op op op op op"}
run
core 0
start 1 E_OK .. pre A
stat A GetSpinlock E_OK
stat A WaitEvent E_OS_SPINLOCK
hook Error E_OS_SPINLOCK
stat A Schedule E_OS_SPINLOCK
hook Error E_OS_SPINLOCK
stat A ChainTask E_OS_SPINLOCK
hook Error E_OS_SPINLOCK
stat A ChainTask E_OS_SPINLOCK
hook Error E_OS_SPINLOCK
stat A ChainTask E_OS_CORE
hook Error E_OS_CORE
stat A ChainTask E_OS_ID
hook Error E_OS_ID
stat A TerminateTask E_OS_SPINLOCK
hook Error E_OS_SPINLOCK
stat A ReleaseSpinlock E_OK
post A
end A
core 1 .. core 2
ended

// If the task has a resource too, the status is E_OS_RESOURCE.
config {"spinlocks":[{"name":"S"}],"cores":[{"id":0,"tasks":[{"name":"A","prio":1,"auto":["M"],"extended":true,"script":"GetResource R;GetSpinlock S;TerminateTask;Schedule;ChainTask A;WaitEvent 1;ReleaseResource R;TerminateTask;ReleaseSpinlock S;TerminateTask"}],"resources":[{"name":"R","ceiling":1}]}]}
stimuli {"0":"op op op op op op op op op op"}
run
core 0 .. pre A
stat A GetResource E_OK
stat A GetSpinlock E_OK
stat A TerminateTask E_OS_RESOURCE
hook Error E_OS_RESOURCE
stat A Schedule E_OS_RESOURCE
hook Error E_OS_RESOURCE
stat A ChainTask E_OS_RESOURCE
hook Error E_OS_RESOURCE
stat A WaitEvent E_OS_RESOURCE
hook Error E_OS_RESOURCE
stat A ReleaseResource E_OK
stat A TerminateTask E_OS_SPINLOCK
hook Error E_OS_SPINLOCK
stat A ReleaseSpinlock E_OK
post A
end A
ended

// An ISR asks for the spinlock of the task that it interrupts, and takes one that comes earlier in the order.
config {"spinlocks":[{"name":"S1","next":"S2"},{"name":"S2"}],"cores":[{"id":0,"tasks":[{"name":"A","prio":1,"auto":["M"],"script":"GetSpinlock S2;work;ReleaseSpinlock S2;TerminateTask"}],"isrs":[{"name":"I","level":1,"script":"GetSpinlock S2;TryToGetSpinlock S2 v0;ReleaseSpinlock S2;GetSpinlock S1;ReleaseSpinlock S1"}]}]}
stimuli {"0":"op irq=I op op op op op op op op op"}
// The order holds within one job, so the ISR may take a spinlock that comes before the task's.
run
core 0 .. pre A
stat A GetSpinlock E_OK
irq I
enter I
stat I GetSpinlock E_OS_INTERFERENCE_DEADLOCK
hook Error E_OS_INTERFERENCE_DEADLOCK
stat I TryToGetSpinlock E_OS_INTERFERENCE_DEADLOCK
hook Error E_OS_INTERFERENCE_DEADLOCK
stat I ReleaseSpinlock E_OS_STATE
hook Error E_OS_STATE
stat I GetSpinlock E_OK
stat I ReleaseSpinlock E_OK
leave I
stat A ReleaseSpinlock E_OK
post A
end A
ended

items 0
entered .. pass2 0
stim op
granted S2
stim irq=I
stim op
stim op
stim op
stim op
granted S1
stim op
freed S1
stim op
stim op
stim op
freed S2
stim op
drained .. last

replay 0
as run

// A task that preempts may take an earlier spinlock, too.
config {"spinlocks":[{"name":"S1","next":"S2"},{"name":"S2"}],"cores":[{"id":0,"tasks":[{"name":"L","prio":1,"auto":["M"],"script":"GetSpinlock S2;ActivateTask H;ReleaseSpinlock S2;TerminateTask"},{"name":"H","prio":2,"script":"GetSpinlock S2;GetSpinlock S1;ReleaseSpinlock S2;ReleaseSpinlock S1;TerminateTask"}]}]}
stimuli {"0":"op op op op op op op op op"}
run
core 0 .. pre L
stat L GetSpinlock E_OK
act H
stat L ActivateTask E_OK
post L
pre H
stat H GetSpinlock E_OS_INTERFERENCE_DEADLOCK
hook Error E_OS_INTERFERENCE_DEADLOCK
stat H GetSpinlock E_OK
stat H ReleaseSpinlock E_OS_STATE
hook Error E_OS_STATE
stat H ReleaseSpinlock E_OK
post H
end H
pre L
stat L ReleaseSpinlock E_OK
post L
end L
ended

// Of three spinlocks in a row one may be left out. The newest is given back first.
config {"spinlocks":[{"name":"S1","next":"S2"},{"name":"S2","next":"S3"},{"name":"S3"}],"cores":[{"id":0,"tasks":[{"name":"A","prio":1,"auto":["M"],"script":"GetSpinlock S1;GetSpinlock S3;ReleaseSpinlock S1;GetSpinlock S2;ReleaseSpinlock S2;ReleaseSpinlock S3;GetSpinlock S2;TryToGetSpinlock S1 v0;TryToGetSpinlock S3 v0;ReleaseSpinlock S3;ReleaseSpinlock S2;ReleaseSpinlock S1;TerminateTask"}]}]}
stimuli {"0":"op op op op op op op op op op op op op"}
run
core 0 .. pre A
stat A GetSpinlock E_OK
stat A GetSpinlock E_OK
stat A ReleaseSpinlock E_OS_NOFUNC
hook Error E_OS_NOFUNC
stat A GetSpinlock E_OS_NESTING_DEADLOCK
hook Error E_OS_NESTING_DEADLOCK
stat A ReleaseSpinlock E_OS_STATE
hook Error E_OS_STATE
stat A ReleaseSpinlock E_OK
stat A GetSpinlock E_OK
stat A TryToGetSpinlock E_OS_INTERFERENCE_DEADLOCK
hook Error E_OS_INTERFERENCE_DEADLOCK
stat A TryToGetSpinlock E_OK 1
stat A ReleaseSpinlock E_OK
stat A ReleaseSpinlock E_OK
stat A ReleaseSpinlock E_OK
post A
end A
ended

// Calls that name no spinlock, and a TryToGetSpinlock for the job's own spinlock, which leaves the variable as it is.
config {"spinlocks":[{"name":"S"}],"cores":[{"id":0,"tasks":[{"name":"A","prio":1,"auto":["M"],"script":"GetSpinlock ?;TryToGetSpinlock ? v0;ReleaseSpinlock ?;ReleaseSpinlock S;set v0 7;TryToGetSpinlock S v0;addv v0 v0;TryToGetSpinlock S v0;addv v0 v0;ReleaseSpinlock S;status v1;TerminateTask"}]}]}
stimuli {"0":"op op op op op op op op op op op op"}
run
core 0 .. pre A
stat A GetSpinlock E_OS_ID
hook Error E_OS_ID
stat A TryToGetSpinlock E_OS_ID
hook Error E_OS_ID
stat A ReleaseSpinlock E_OS_ID
hook Error E_OS_ID
stat A ReleaseSpinlock E_OS_STATE
hook Error E_OS_STATE
var A v0 7
stat A TryToGetSpinlock E_OK 1
var A v0 2
stat A TryToGetSpinlock E_OS_INTERFERENCE_DEADLOCK
hook Error E_OS_INTERFERENCE_DEADLOCK
var A v0 4
stat A ReleaseSpinlock E_OK
var A v1 0
post A
end A
ended

// Spinlocks can be taken and given back while interrupts are suspended.
config {"spinlocks":[{"name":"S"}],"cores":[{"id":0,"tasks":[{"name":"A","prio":1,"auto":["M"],"script":"SuspendAllInterrupts;GetSpinlock S;ActivateTask A;GetSpinlock S;ReleaseSpinlock S;TryToGetSpinlock S v0;ReleaseSpinlock S;ReleaseSpinlock S;StartCore 0;ShutdownAllCores 0;ResumeAllInterrupts;TerminateTask"}],"isrs":[{"name":"I","level":1,"script":""}]}]}
stimuli {"0":"op op irq=I op op op op op op op op op op op op"}
run
core 0 .. pre A
stat A GetSpinlock E_OK
irq I
stat A ActivateTask E_OS_DISABLEDINT
hook Error E_OS_DISABLEDINT
stat A GetSpinlock E_OS_INTERFERENCE_DEADLOCK
hook Error E_OS_INTERFERENCE_DEADLOCK
stat A ReleaseSpinlock E_OK
stat A TryToGetSpinlock E_OK 1
stat A ReleaseSpinlock E_OK
stat A ReleaseSpinlock E_OS_STATE
hook Error E_OS_STATE
stat A StartCore E_OS_DISABLEDINT
enter I
leave I
post A
end A
ended

// If a job has used up its budget, the tick goes on. The core dispatches once the job's spinlock is given back.
config {"spinlocks":[{"name":"S"}],"cores":[{"id":0,"tasks":[{"name":"A","prio":2,"auto":["M"],"budget":2,"script":"GetSpinlock S;work"},{"name":"N","prio":1,"auto":["M"],"script":"GetSpinlock S;ReleaseSpinlock S;TerminateTask"},{"name":"H","prio":3,"script":"TerminateTask"}],"protection":"PRO_TERMINATETASKISR","counters":[{"name":"C","max":9}],"alarms":[{"name":"L","counter":"C","action":"ActivateTask H","auto":{"modes":["M"],"start":2,"cycle":0}}]}]}
stimuli {"0":"op tick tick op op op op"}
run
core 0 .. act A
act N
pre A
stat A GetSpinlock E_OK
tick
tick
hook Protection E_OS_PROTECTION_TIME
end A
alarm L
act H
pre H .. end H
pre N
stat N GetSpinlock E_OK
stat N ReleaseSpinlock E_OK
post N
end N
ended

// A job has held a resource for too many ticks: its core gives the job's spinlock back before another job runs.
config {"spinlocks":[{"name":"S"}],"cores":[{"id":0,"protection":"PRO_TERMINATETASKISR","resources":[{"name":"R","ceiling":2,"lock":2}],"tasks":[{"name":"A","prio":2,"auto":["M"],"script":"GetResource R;GetSpinlock S;jump 2"},{"name":"N","prio":1,"auto":["M"],"script":"GetSpinlock S;ReleaseSpinlock S;TerminateTask"}]}]}
stimuli {"0":"op op tick tick op op op"}
run
core 0 .. act A
act N
pre A
stat A GetResource E_OK
stat A GetSpinlock E_OK
tick
tick
hook Protection E_OS_PROTECTION_LOCKED
end A
as before from pre N

// A job with a spinlock has used up its execution budget, and its core shuts down.
config {"spinlocks":[{"name":"S"}],"cores":[{"id":0,"start":[1],"tasks":[{"name":"A","prio":1,"auto":["M"],"budget":2,"script":"work;GetSpinlock S;work"}]},{"id":1,"tasks":[{"name":"B","prio":1,"auto":["M"],"script":"work;work;work;GetSpinlock S;ReleaseSpinlock S;TerminateTask"}]}]}
stimuli {"0":"op op tick tick op","1":"op op op op op op"}
run
core 0
start 1 E_OK .. pre A
stat A GetSpinlock E_OK
tick
tick
hook Protection E_OS_PROTECTION_TIME
hook Shutdown E_OS_PROTECTION_TIME
core 1 .. pre B
stat B GetSpinlock E_OK
stat B ReleaseSpinlock E_OK
post B
end B
ended

// An ISR that ends with a spinlock. A job that has one of two spinlocks without an order may not take the other.
config {"spinlocks":[{"name":"S1"},{"name":"S2"}],"cores":[{"id":0,"tasks":[{"name":"A","prio":1,"auto":["M"],"script":"TryToGetSpinlock S1 v0;TryToGetSpinlock S2 v1;TerminateTask"}],"isrs":[{"name":"I","level":1,"script":"GetSpinlock S2;SuspendAllInterrupts"}]}]}
stimuli {"0":"irq=I op op op op op op"}
run
core 0 .. pre A
irq I
enter I
stat I GetSpinlock E_OK
hook Error E_OS_DISABLEDINT
leave I
stat A TryToGetSpinlock E_OK 1
stat A TryToGetSpinlock E_OS_NESTING_DEADLOCK
hook Error E_OS_NESTING_DEADLOCK
stat A TerminateTask E_OS_SPINLOCK
hook Error E_OS_SPINLOCK
ended

// A core that has drained keeps its spinlock.
config {"spinlocks":[{"name":"S"}],"cores":[{"id":0,"start":[1],"tasks":[{"name":"A","prio":1,"auto":["M"],"script":"GetSpinlock S;TerminateTask"}]},{"id":1,"tasks":[{"name":"B","prio":1,"auto":["M"],"script":"work;GetSpinlock S;TerminateTask"}]}]}
stimuli {"0":"op","1":"op op op"}
run -> 3
core 0
start 1 E_OK .. pre A
stat A GetSpinlock E_OK
core 1 .. pre B
stalled

// The greatest number of spinlocks, all held by one job.
config {"spinlocks":[{"name":"S0","next":"S1"},{"name":"S1","next":"S2"},{"name":"S2","next":"S3"},{"name":"S3","next":"S4"},{"name":"S4","next":"S5"},{"name":"S5","next":"S6"},{"name":"S6","next":"S7"},{"name":"S7","next":"S8"},{"name":"S8","next":"S9"},{"name":"S9","next":"Sa"},{"name":"Sa","next":"Sb"},{"name":"Sb","next":"Sc"},{"name":"Sc","next":"Sd"},{"name":"Sd","next":"Se"},{"name":"Se","next":"Sf"},{"name":"Sf"}],"cores":[{"id":0,"tasks":[{"name":"A","prio":1,"auto":["M"],"script":"GetSpinlock S0;GetSpinlock S1;GetSpinlock S2;GetSpinlock S3;GetSpinlock S4;GetSpinlock S5;GetSpinlock S6;GetSpinlock S7;GetSpinlock S8;GetSpinlock S9;GetSpinlock Sa;GetSpinlock Sb;GetSpinlock Sc;GetSpinlock Sd;GetSpinlock Se;GetSpinlock Sf"}]}]}
stimuli {"0":"op op op op op op op op op op op op op op op op op"}
items 0
entered .. pass2 0
stim op
granted S0
stim op
granted S1
stim op
granted S2
stim op
granted S3
stim op
granted S4
stim op
granted S5
stim op
granted S6
stim op
granted S7
stim op
granted S8
stim op
granted S9
stim op
granted Sa
stim op
granted Sb
stim op
granted Sc
stim op
granted Sd
stim op
granted Se
stim op
granted Sf
stim op
freed Sf
freed Se
freed Sd
freed Sc
freed Sb
freed Sa
freed S9
freed S8
freed S7
freed S6
freed S5
freed S4
freed S3
freed S2
freed S1
freed S0
drained .. last

replay 0
core 0 .. pre A
stat A GetSpinlock E_OK
stat A GetSpinlock E_OK
stat A GetSpinlock E_OK
stat A GetSpinlock E_OK
stat A GetSpinlock E_OK
stat A GetSpinlock E_OK
stat A GetSpinlock E_OK
stat A GetSpinlock E_OK
stat A GetSpinlock E_OK
stat A GetSpinlock E_OK
stat A GetSpinlock E_OK
stat A GetSpinlock E_OK
stat A GetSpinlock E_OK
stat A GetSpinlock E_OK
stat A GetSpinlock E_OK
stat A GetSpinlock E_OK
hook Error E_OS_MISSINGEND
post A
end A

// Two cores that share a spinlock, and one that asks for no spinlock.
config {"spinlocks":[{"name":"S"}],"cores":[{"id":0,"start":[1,2],"tasks":[{"name":"A","prio":1,"auto":["M"],"script":"GetSpinlock S;ReleaseSpinlock S;TerminateTask"}]},{"id":1,"tasks":[{"name":"B","prio":1,"auto":["M"],"script":"GetSpinlock S;ReleaseSpinlock S;TerminateTask"}]},{"id":2,"tasks":[{"name":"V","prio":1,"auto":["M"],"script":"GetSpinlock ?;add v0 3;TerminateTask"}]}]}
check
ok
core 0 bound
core 1 bound
core 2 separate

stimuli {"0":"op op op","1":"op op op","2":"op op op"}
run
core 0
start 1 E_OK
start 2 E_OK .. pre A
stat A GetSpinlock E_OK
stat A ReleaseSpinlock E_OK
post A
end A
core 1 .. pre B
stat B GetSpinlock E_OK
stat B ReleaseSpinlock E_OK
post B
end B
core 2 .. pre V
stat V GetSpinlock E_OS_ID
hook Error E_OS_ID
var V v0 3
post V
end V
ended

// The separate core by itself, which has no spinlocks.
cut 2
{"cap":16,"cores":[{"alarms":[],"counters":[],"id":2,"isrs":[],"mode":"M","protection":"PRO_SHUTDOWN","resources":[],"start":[],"tables":[],"tasks":[{"activations":1,"auto":["M"],"budget":0,"extended":false,"name":"V","preemptable":true,"prio":1,"script":"GetSpinlock ?;add v0 3;TerminateTask"}]}],"master":2,"modes":["M"],"spinlocks":[],"version":1}

config
stimuli {"2":"op op op"}
run
as run from core 2

// A spinlock that no script names binds no core.
config {"spinlocks":[{"name":"S"}],"cores":[{"id":0,"start":[1]},{"id":1}]}
check
ok
core 0 bound
core 1 separate

// A spinlock binds each core with a script that names it, of a task or an ISR, even if no other core names it.
config {"spinlocks":[{"name":"S"}],"cores":[{"id":0,"start":[1,2]},{"id":1,"isrs":[{"name":"I","level":1,"script":"work;ReleaseSpinlock S"}]},{"id":2,"tasks":[{"name":"X","prio":1,"script":"TryToGetSpinlock ? v0;ReleaseSpinlock ?"}]}]}
check
ok
core 0 bound
core 1 bound
core 2 separate

config {"spinlocks":[{"name":"S"}],"cores":[{"id":0,"start":[1]},{"id":1},{"id":2,"tasks":[{"name":"X","prio":1,"script":"TryToGetSpinlock S v0"}]}]}
check
ok
core 0 bound
core 1 separate
core 2 off

// Values of the member `spinlocks` that are accepted.
config {"spinlocks":@,"cores":[{"id":0,"tasks":[{"name":"A","prio":1,"script":""}]}]}
with []|[{"name":"S","next":null}]|[{"name":"S1","next":"S2"},{"name":"S2","next":"S3"},{"name":"S3"},{"name":"S4","next":"S3"}]|[{"name":"S1"},{"name":"S2","next":"S1"},{"name":"none"}]|[{"name":"S0","next":"S1"},{"name":"S1","next":"S2"},{"name":"S2","next":"S3"},{"name":"S3","next":"S4"},{"name":"S4","next":"S5"},{"name":"S5","next":"S6"},{"name":"S6","next":"S7"},{"name":"S7","next":"S8"},{"name":"S8","next":"S9"},{"name":"S9","next":"Sa"},{"name":"Sa","next":"Sb"},{"name":"Sb","next":"Sc"},{"name":"Sc","next":"Sd"},{"name":"Sd","next":"Se"},{"name":"Se","next":"Sf"},{"name":"Sf"}]
check
ok
core 0 separate

// Values that are refused, beside a task A and the mode M.
with {}|null|["S"]|[{}]|[{"name":"1S"}]|[{"name":"S","next":1}]|[{"name":"S","next":"?"}]|[{"name":"S","method":"LOCK_NOTHING"}]
check
fault 2 Shape

with [{"name":"S0"},{"name":"S1"},{"name":"S2"},{"name":"S3"},{"name":"S4"},{"name":"S5"},{"name":"S6"},{"name":"S7"},{"name":"S8"},{"name":"S9"},{"name":"Sa"},{"name":"Sb"},{"name":"Sc"},{"name":"Sd"},{"name":"Se"},{"name":"Sf"},{"name":"Sg"}]
check
fault 3 Limit

with [{"name":"S"},{"name":"S","next":"S"}]|[{"name":"A"}]|[{"name":"M"}]
check
fault 4 DuplicateName

with [{"name":"S","next":"S"},{"name":"R","next":"X"}]|[{"name":"S","next":"A"}]|[{"name":"S","next":"M"}]
check
fault 5 UnknownName

with [{"name":"S","next":"S"}]|[{"name":"S1","next":"S2"},{"name":"S2","next":"S3"},{"name":"S3","next":"S1"}]|[{"name":"S"},{"name":"S1","next":"S2"},{"name":"S2","next":"S3"},{"name":"S3","next":"S2"}]
check
fault 7 SpinOrder

// Operations of the right form whose names are known, in a script of a task, and in one of an ISR. Core 0 starts
// cores, so it is bound in any case.
with GetSpinlock S|GetSpinlock ?|TryToGetSpinlock S v0|TryToGetSpinlock ? v7|ReleaseSpinlock S|ReleaseSpinlock ?
config {"spinlocks":[{"name":"S"}],"cores":[{"id":0,"start":[0],"tasks":[{"name":"A","prio":1,"script":"@"}]},{"id":1}]}
check
ok
core 0 bound
core 1 off

config {"spinlocks":[{"name":"S"}],"cores":[{"id":0,"start":[0],"isrs":[{"name":"A","level":1,"script":"@"}]},{"id":1}]}
check
as before

// Operations with an unknown name, or with the name of an object of another kind.
with GetSpinlock X|GetSpinlock A|GetSpinlock M|TryToGetSpinlock X v0|ReleaseSpinlock A|ActivateTask S
config {"spinlocks":[{"name":"S"}],"cores":[{"id":0,"start":[0],"tasks":[{"name":"A","prio":1,"script":"@"}]},{"id":1}]}
check
fault 5 UnknownName

config {"spinlocks":[{"name":"S"}],"cores":[{"id":0,"start":[0],"isrs":[{"name":"A","level":1,"script":"@"}]},{"id":1}]}
check
as before

// Operations of a wrong form.
with GetSpinlock|GetSpinlock S S|GetSpinlock 0|GetSpinlock S;|getSpinlock S|TryToGetSpinlock|TryToGetSpinlock S|TryToGetSpinlock S v8|TryToGetSpinlock S 0|TryToGetSpinlock v0 S|ReleaseSpinlock|ReleaseSpinlock ? ?|ReleaseSpinlock S v0
check
fault 10 BadScript

config {"spinlocks":[{"name":"S"}],"cores":[{"id":0,"start":[0],"tasks":[{"name":"A","prio":1,"script":"@"}]},{"id":1}]}
check
as before
"#;

#[test]
fn spinlocks_print_their_texts(rt: HostRuntime) -> Result<(), Difference> {
    play_table(&rt, rt.alloc(), RUNS, 96)
}
