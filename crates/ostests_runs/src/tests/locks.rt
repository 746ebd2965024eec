//! Worked examples of the lock budgets of resources.

use osplay::{Difference, play_table};

const RUNS: &str = r#"
// A job that holds a resource for too many ticks ends.
config {"cores":[{"id":0,"tasks":[{"name":"A","prio":1,"auto":["M"],"script":"GetResource R;work;ReleaseResource R;TerminateTask"}],"protection":"PRO_TERMINATETASKISR","resources":[{"name":"R","ceiling":1,"lock":2}]}]}
stimuli {"0":"op tick op tick op"}
run
core 0 .. pre A
stat A GetResource E_OK
tick
tick
hook Protection E_OS_PROTECTION_LOCKED
end A
ended

items 0
entered .. pass2 0
stim op
stim tick
stim op
stim tick
stim op
drained .. last

replay 0
as run

// If the tick reaches the execution budget too, that alone is the fault.
config {"cores":[{"id":0,"tasks":[{"name":"A","prio":1,"auto":["M"],"budget":2,"script":"GetResource R;work;ReleaseResource R;TerminateTask"}],"protection":"PRO_TERMINATETASKISR","resources":[{"name":"R","ceiling":1,"lock":2}]}]}
stimuli {"0":"op tick op tick op"}
run
core 0 .. pre A
stat A GetResource E_OK
tick
tick
hook Protection E_OS_PROTECTION_TIME
end A
ended

// The tick before the resource was taken counts for the execution budget alone, so one tick reaches both budgets.
config {"cores":[{"id":0,"tasks":[{"name":"A","prio":1,"auto":["M"],"budget":3,"script":"GetResource R;work;ReleaseResource R;TerminateTask"}],"protection":"PRO_TERMINATETASKISR","resources":[{"name":"R","ceiling":1,"lock":2}]}]}
stimuli {"0":"tick op tick tick op"}
run
core 0 .. pre A
tick
stat A GetResource E_OK
tick
tick
hook Protection E_OS_PROTECTION_TIME
end A
ended

// Without that earlier tick, the lock budget is reached first.
stimuli {"0":"op tick tick tick op"}
run
core 0 .. pre A
stat A GetResource E_OK
tick
tick
hook Protection E_OS_PROTECTION_LOCKED
end A
tick
ended

// If the job ends, the counters and alarms of that tick follow.
config {"cores":[{"id":0,"protection":"PRO_TERMINATETASKISR","counters":[{"name":"C","max":9}],"alarms":[{"name":"L","counter":"C","action":"ActivateTask B","auto":{"modes":["M"],"start":2,"cycle":0}}],"resources":[{"name":"R","ceiling":1,"lock":2}],"tasks":[{"name":"A","prio":1,"auto":["M"],"script":"GetResource R;work;ReleaseResource R;TerminateTask"},{"name":"B","prio":2,"script":"TerminateTask"}]}]}
stimuli {"0":"op tick op tick op tick"}
run
as before up to end A
alarm L
act B
pre B .. end B
tick
ended

// With any other answer, or none, the core shuts down: the rest of that tick and the stimuli left are dropped.
config {"cores":[{"id":0,@"counters":[{"name":"C","max":9}],"alarms":[{"name":"L","counter":"C","action":"ActivateTask B","auto":{"modes":["M"],"start":2,"cycle":0}}],"resources":[{"name":"R","ceiling":1,"lock":2}],"tasks":[{"name":"A","prio":1,"auto":["M"],"script":"GetResource R;work;ReleaseResource R;TerminateTask"},{"name":"B","prio":2,"script":"TerminateTask"}]}]}
stimuli {"0":"op tick op tick op tick"}
with |"protection":"PRO_SHUTDOWN",|"protection":"PRO_IGNORE",|"protection":"PRO_TERMINATEAPPL",|"protection":"PRO_TERMINATEAPPL_RESTART",
run
core 0 .. pre A
stat A GetResource E_OK
tick
tick
hook Protection E_OS_PROTECTION_LOCKED
hook Shutdown E_OS_PROTECTION_LOCKED
ended

// Nested resources: the lock budget of the outer one is reached. Both are given back.
config {"cores":[{"id":0,"protection":"PRO_TERMINATETASKISR","resources":[{"name":"R","ceiling":1,"lock":3},{"name":"S","ceiling":1,"lock":3}],"tasks":[{"name":"A","prio":1,"auto":["M"],"script":"GetResource R;GetResource S;jump 2"},{"name":"B","prio":1,"auto":["M"],"script":"GetResource S;GetResource R;ReleaseResource R;ReleaseResource S;TerminateTask"}]}]}
stimuli {"0":"op tick op tick tick op op op op op"}
run
core 0 .. act A
act B
pre A
stat A GetResource E_OK
tick
stat A GetResource E_OK
tick
tick
hook Protection E_OS_PROTECTION_LOCKED
end A
pre B
stat B GetResource E_OK
stat B GetResource E_OK
stat B ReleaseResource E_OK
stat B ReleaseResource E_OK
post B
end B
ended

// The lock budget of the inner resource is reached; the outer one has no budget.
config {"cores":[{"id":0,"protection":"PRO_TERMINATETASKISR","resources":[{"name":"R","ceiling":1},{"name":"S","ceiling":1,"lock":1}],"tasks":[{"name":"A","prio":1,"auto":["M"],"script":"GetResource R;GetResource S;jump 2"}]}]}
stimuli {"0":"op tick tick op tick op"}
run
core 0 .. pre A
stat A GetResource E_OK
tick
tick
stat A GetResource E_OK
tick
hook Protection E_OS_PROTECTION_LOCKED
end A
ended

// One tick reaches both lock budgets: the hook is called once.
config {"cores":[{"id":0,"protection":"@","resources":[{"name":"R","ceiling":1,"lock":2},{"name":"S","ceiling":1,"lock":1}],"tasks":[{"name":"A","prio":1,"auto":["M"],"script":"GetResource R;GetResource S;jump 2"}]}]}
stimuli {"0":"op tick op tick op"}
with PRO_TERMINATETASKISR
run
core 0 .. pre A
stat A GetResource E_OK
tick
stat A GetResource E_OK
tick
hook Protection E_OS_PROTECTION_LOCKED
end A
ended

// The hook is called once, too, if the core shuts down.
with PRO_SHUTDOWN
run
as before up to hook Protection E_OS_PROTECTION_LOCKED
hook Shutdown E_OS_PROTECTION_LOCKED
ended

// The ticks of an ISR count for its own budget, and not for the resource of the job that it interrupts.
config {"cores":[{"id":0,"protection":"PRO_TERMINATETASKISR","resources":[{"name":"R","ceiling":1,"lock":2}],"tasks":[{"name":"A","prio":1,"auto":["M"],"script":"GetResource R;jump 1"}],"isrs":[{"name":"I","level":1,"budget":2,"script":"jump 0"}]}]}
stimuli {"0":"op tick irq=I op tick tick tick op"}
run
core 0 .. pre A
stat A GetResource E_OK
tick
irq I
enter I
tick
tick
hook Protection E_OS_PROTECTION_TIME
leave I
tick
hook Protection E_OS_PROTECTION_LOCKED
end A
ended

// While the holder has interrupts suspended, its ticks count. A pending ISR starts when the job has ended.
config {"cores":[{"id":0,"protection":"PRO_TERMINATETASKISR","resources":[{"name":"R","ceiling":1,"lock":2}],"tasks":[{"name":"A","prio":1,"auto":["M"],"script":"GetResource R;SuspendAllInterrupts;jump 2"}],"isrs":[{"name":"I","level":1,"script":"work"}]}]}
stimuli {"0":"op op irq=I tick tick op op"}
run
core 0 .. pre A
stat A GetResource E_OK
irq I
tick
tick
hook Protection E_OS_PROTECTION_LOCKED
end A
enter I
leave I
ended

// The ticks of a job that preempts the holder do not count.
config {"cores":[{"id":0,"protection":"PRO_TERMINATETASKISR","resources":[{"name":"R","ceiling":1,"lock":2}],"tasks":[{"name":"A","prio":1,"auto":["M"],"script":"GetResource R;ActivateTask H;jump 2"},{"name":"H","prio":2,"script":"TerminateTask"}]}]}
stimuli {"0":"op tick op tick tick op tick op"}
run
core 0 .. pre A
stat A GetResource E_OK
tick
act H
stat A ActivateTask E_OK
post A
pre H
tick
tick
post H
end H
pre A
tick
hook Protection E_OS_PROTECTION_LOCKED
end A
ended

// The job that preempts the holder has a resource and a lock budget of its own.
config {"cores":[{"id":0,"protection":"PRO_TERMINATETASKISR","resources":[{"name":"R","ceiling":1,"lock":3},{"name":"S","ceiling":2,"lock":1}],"tasks":[{"name":"A","prio":1,"auto":["M"],"script":"GetResource R;ActivateTask H;jump 2"},{"name":"H","prio":2,"script":"GetResource S;jump 1"}]}]}
stimuli {"0":"op tick op op tick tick tick op"}
run
as before up to pre H
stat H GetResource E_OK
tick
hook Protection E_OS_PROTECTION_LOCKED
end H
pre A
tick
tick
hook Protection E_OS_PROTECTION_LOCKED
end A
ended

// The tick at which the holder is preempted counts for the holder.
config {"cores":[{"id":0,"protection":"PRO_TERMINATETASKISR","counters":[{"name":"C","max":9}],"alarms":[{"name":"L","counter":"C","action":"ActivateTask H","auto":{"modes":["M"],"start":1,"cycle":0}}],"resources":[{"name":"R","ceiling":1,"lock":2}],"tasks":[{"name":"A","prio":1,"auto":["M"],"script":"GetResource R;jump 1"},{"name":"H","prio":2,"script":"TerminateTask"}]}]}
stimuli {"0":"op tick tick op tick op"}
run
core 0 .. pre A
stat A GetResource E_OK
tick
alarm L
act H
post A
pre H
tick
post H
end H
pre A
tick
hook Protection E_OS_PROTECTION_LOCKED
end A
ended

// A resource that was given back reaches no budget. If it is taken again, it counts from zero.
config {"cores":[{"id":0,"protection":"PRO_TERMINATETASKISR","resources":[{"name":"R","ceiling":1,"lock":2}],"tasks":[{"name":"A","prio":1,"auto":["M"],"script":"GetResource R;ReleaseResource R;GetResource R;jump 3"}]}]}
stimuli {"0":"op tick op tick tick tick op tick tick op"}
run
core 0 .. pre A
stat A GetResource E_OK
tick
stat A ReleaseResource E_OK
tick
tick
tick
stat A GetResource E_OK
tick
tick
hook Protection E_OS_PROTECTION_LOCKED
end A
ended

// A call that is refused takes nothing, so the count goes on.
config {"cores":[{"id":0,"protection":"PRO_TERMINATETASKISR","resources":[{"name":"R","ceiling":1,"lock":2}],"tasks":[{"name":"A","prio":1,"auto":["M"],"script":"GetResource R;GetResource R;jump 2"}]}]}
stimuli {"0":"op tick op tick op"}
run
core 0 .. pre A
stat A GetResource E_OK
tick
stat A GetResource E_OS_ACCESS
hook Error E_OS_ACCESS
tick
hook Protection E_OS_PROTECTION_LOCKED
end A
ended

// The inner resource is taken again; the count of the outer one goes on.
config {"cores":[{"id":0,"protection":"PRO_TERMINATETASKISR","resources":[{"name":"R","ceiling":1,"lock":3},{"name":"S","ceiling":1,"lock":2}],"tasks":[{"name":"A","prio":1,"auto":["M"],"script":"GetResource R;GetResource S;ReleaseResource S;GetResource S;ReleaseResource S;jump 5"}]}]}
stimuli {"0":"op op tick op op tick op tick op"}
run
core 0 .. pre A
stat A GetResource E_OK
stat A GetResource E_OK
tick
stat A ReleaseResource E_OK
stat A GetResource E_OK
tick
stat A ReleaseResource E_OK
tick
hook Protection E_OS_PROTECTION_LOCKED
end A
ended

// The budget belongs to the resource: each holder has all of it anew. Further activations stay.
config {"cores":[{"id":0,"protection":"PRO_TERMINATETASKISR","resources":[{"name":"R","ceiling":1,"lock":2}],"tasks":[{"name":"A","prio":1,"auto":["M"],"activations":2,"script":"ActivateTask A;GetResource R;jump 2"},{"name":"B","prio":1,"auto":["M"],"script":"GetResource R;jump 1"}]}]}
stimuli {"0":"op op tick tick op tick tick op op tick tick"}
run
core 0 .. act A
act B
pre A
act A
stat A ActivateTask E_OK
stat A GetResource E_OK
tick
tick
hook Protection E_OS_PROTECTION_LOCKED
end A
pre B
stat B GetResource E_OK
tick
tick
hook Protection E_OS_PROTECTION_LOCKED
end B
pre A
act A
stat A ActivateTask E_OK
stat A GetResource E_OK
tick
tick
hook Protection E_OS_PROTECTION_LOCKED
end A
pre A
ended

// A job that reaches its script's end with a resource gives it back: the next job may hold it as long.
config {"cores":[{"id":0,"protection":"PRO_TERMINATETASKISR","resources":[{"name":"R","ceiling":1,"lock":2}],"tasks":[{"name":"A","prio":1,"auto":["M"],"activations":2,"script":"ActivateTask A;GetResource R"}]}]}
stimuli {"0":"op op tick op op op tick tick op"}
run
core 0 .. pre A
act A
stat A ActivateTask E_OK
stat A GetResource E_OK
tick
hook Error E_OS_MISSINGEND
post A
end A
pre A
act A
stat A ActivateTask E_OK
stat A GetResource E_OK
tick
tick
hook Protection E_OS_PROTECTION_LOCKED
end A
pre A
act A
stat A ActivateTask E_OK
ended

// A lock budget of 0 means no budget.
config {"cores":[{"id":0,"resources":[{"name":"R","ceiling":1,"lock":0},{"name":"S","ceiling":1,"lock":1000000000}],"tasks":[{"name":"A","prio":1,"auto":["M"],"script":"GetResource R;GetResource S;ReleaseResource S;ReleaseResource R;TerminateTask"}]}]}
stimuli {"0":"op op tick tick tick op op op"}
run
core 0 .. pre A
stat A GetResource E_OK
stat A GetResource E_OK
tick
tick
tick
stat A ReleaseResource E_OK
stat A ReleaseResource E_OK
post A
end A
ended

// A core that is halted takes no tick: at the next tick its job would have reached the lock budget.
config {"cores":[{"id":0,"start":[1],"tasks":[{"name":"A","prio":1,"auto":["M"],"script":"ShutdownAllCores 16"}]},{"id":1,"resources":[{"name":"R","ceiling":1,"lock":2}],"tasks":[{"name":"B","prio":1,"auto":["M"],"script":"GetResource R;jump 1"}]}]}
stimuli {"0":"op","1":"op tick tick tick"}
run
core 0
start 1 E_OK .. pre A
halt 0 E_OS_PROTECTION_LOCKED
hook Shutdown E_OS_PROTECTION_LOCKED
core 1 .. pre B
stat B GetResource E_OK
tick
halt 0 E_OS_PROTECTION_LOCKED
hook Shutdown E_OS_PROTECTION_LOCKED
ended

// A core may shut down with this status by itself.
config {"cores":[{"id":0,"tasks":[{"name":"A","prio":1,"auto":["M"],"script":"ShutdownOS 16"}]}]}
stimuli {"0":"op tick"}
run
core 0 .. pre A
hook Shutdown E_OS_PROTECTION_LOCKED
ended
"#;

#[test]
fn lock_budgets_print_their_texts(rt: HostRuntime) -> Result<(), Difference> {
    play_table(&rt, rt.alloc(), RUNS, 29)
}
