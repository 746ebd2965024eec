//! Worked examples of interrupts and execution budgets.

use osplay::{Difference, play_table};

const RUNS: &str = r#"
// A job that waits has its whole budget again afterwards. A job that has used up its budget ends without PostTaskHook,
// and gives its resource back.
config {"cores":[{"id":0,"resources":[{"name":"R","ceiling":2}],"protection":"PRO_TERMINATETASKISR","tasks":[{"name":"W","prio":2,"extended":true,"auto":["M"],"budget":2,"script":"WaitEvent 1;GetResource R;TerminateTask"},{"name":"D","prio":1,"auto":["M"],"script":"SetEvent W 1;TerminateTask"}]}]}
stimuli {"0":"tick op op op tick tick op"}
run
core 0 .. act W
act D
pre W
tick
post W
wait W 1
pre D
ev W 1
free W
stat D SetEvent E_OK
post D
pre W
stat W GetResource E_OK
tick
tick
hook Protection E_OS_PROTECTION_TIME
end W
pre D .. end D
ended

// The run above, but the core shuts down.
config {"cores":[{"id":0,"resources":[{"name":"R","ceiling":2}],"protection":"PRO_IGNORE","tasks":[{"name":"W","prio":2,"extended":true,"auto":["M"],"budget":2,"script":"WaitEvent 1;GetResource R;TerminateTask"},{"name":"D","prio":1,"auto":["M"],"script":"SetEvent W 1;TerminateTask"}]}]}
stimuli {"0":"tick op op op tick tick op"}
run
as before up to hook Protection E_OS_PROTECTION_TIME
hook Shutdown E_OS_PROTECTION_TIME
ended

// Suspended interrupts: one is pending, a further one is lost, and services are refused.
config {"cores":[{"id":0,"tasks":[{"name":"A","prio":1,"auto":["M"],"script":"SuspendAllInterrupts;ActivateTask A;ResumeAllInterrupts;TerminateTask"},{"name":"H","prio":2,"script":"TerminateTask"}],"isrs":[{"name":"I1","level":1,"script":"ActivateTask H"}]}]}
stimuli {"0":"op irq=I1 irq=I1 op op op op op op"}
run
core 0 .. pre A
irq I1
lost I1
stat A ActivateTask E_OS_DISABLEDINT
hook Error E_OS_DISABLEDINT
enter I1
act H
stat I1 ActivateTask E_OK
leave I1
post A
pre H .. end H
pre A .. end A
ended

// An ISR that ends with interrupts suspended.
config {"cores":[{"id":0,"tasks":[{"name":"A","prio":1,"auto":["M"],"script":"TerminateTask"}],"isrs":[{"name":"I1","level":1,"script":"SuspendAllInterrupts"}]}]}
stimuli {"0":"irq=I1 op op op"}
run
core 0 .. pre A
irq I1
enter I1
hook Error E_OS_DISABLEDINT
leave I1
post A
end A
ended

// ISRs nest by their levels, and never interrupt an equal level. The task under them stays in the running state.
config {"cores":[{"id":0,"tasks":[{"name":"A","prio":1,"auto":["M"],"script":"work;TerminateTask"}],"isrs":[{"name":"I1","level":1,"script":"work;add v0 1"},{"name":"I2","level":2,"script":"work"},{"name":"J2","level":2,"script":"work"}]}]}
stimuli {"0":"irq=I1 op irq=I2 irq=J2 op op op op op op op op"}
run
core 0 .. pre A
irq I1
enter I1
irq I2
enter I2
irq J2
leave I2
enter J2
leave J2
var I1 v0 1
leave I1
post A
end A
ended

// Services that only tasks may call. A task that an ISR activates runs once no ISR runs. While the ISR runs, one more
// interrupt is pending, and a further one is lost.
config {"cores":[{"id":0,"tasks":[{"name":"A","prio":1,"auto":["M"],"script":"TerminateTask"},{"name":"E","prio":3,"extended":true,"script":"WaitEvent 1;TerminateTask"}],"isrs":[{"name":"I","level":1,"script":"TerminateTask;ChainTask A;Schedule;ClearEvent 1;WaitEvent 1;ActivateTask E"}]}]}
stimuli {"0":"irq=I op irq=I irq=I op op op op op op op op op op op op op op op op"}
run
core 0 .. pre A
irq I
enter I
stat I TerminateTask E_OS_CALLEVEL
hook Error E_OS_CALLEVEL
irq I
lost I
stat I ChainTask E_OS_CALLEVEL
hook Error E_OS_CALLEVEL
stat I Schedule E_OS_CALLEVEL
hook Error E_OS_CALLEVEL
stat I ClearEvent E_OS_CALLEVEL
hook Error E_OS_CALLEVEL
stat I WaitEvent E_OS_CALLEVEL
hook Error E_OS_CALLEVEL
act E
stat I ActivateTask E_OK
leave I
enter I
stat I TerminateTask E_OS_CALLEVEL
hook Error E_OS_CALLEVEL
stat I ChainTask E_OS_CALLEVEL
hook Error E_OS_CALLEVEL
stat I Schedule E_OS_CALLEVEL
hook Error E_OS_CALLEVEL
stat I ClearEvent E_OS_CALLEVEL
hook Error E_OS_CALLEVEL
stat I WaitEvent E_OS_CALLEVEL
hook Error E_OS_CALLEVEL
stat I ActivateTask E_OS_LIMIT
hook Error E_OS_LIMIT
leave I
post A
pre E .. wait E 1
pre A .. end A
ended

// A task reaches its script's end with interrupts suspended: the only error is E_OS_MISSINGEND, and the pending ISR
// starts in the same item.
config {"cores":[{"id":0,"tasks":[{"name":"A","prio":1,"auto":["M"],"script":"SuspendAllInterrupts;TerminateTask"}],"isrs":[{"name":"I","level":1,"script":"work"}]}]}
stimuli {"0":"op irq=I op op op op"}
run
core 0 .. pre A
irq I
stat A TerminateTask E_OS_DISABLEDINT
hook Error E_OS_DISABLEDINT
hook Error E_OS_MISSINGEND
post A
end A
enter I
leave I
ended

// A time fault of an ISR that has interrupts suspended: the task under it is not charged, and that tick's alarm acts.
config {"cores":[{"id":0,"protection":"PRO_TERMINATETASKISR","counters":[{"name":"C","max":9}],"alarms":[{"name":"L","counter":"C","action":"ActivateTask B","auto":{"modes":["M"],"start":3,"cycle":0}}],"tasks":[{"name":"A","prio":1,"auto":["M"],"budget":2,"script":"jump 0"},{"name":"B","prio":2,"script":"TerminateTask"}],"isrs":[{"name":"I","level":1,"budget":2,"script":"SuspendAllInterrupts;jump 1"}]}]}
stimuli {"0":"tick irq=I op tick tick op op tick op"}
run
core 0 .. pre A
tick
irq I
enter I
tick
tick
hook Protection E_OS_PROTECTION_TIME
leave I
alarm L
act B
post A
pre B .. end B
pre A
tick
hook Protection E_OS_PROTECTION_TIME
end A
ended

// After a time fault, further activations stay, and the next job has its whole budget.
config {"cores":[{"id":0,"protection":"PRO_TERMINATETASKISR","tasks":[{"name":"A","prio":1,"auto":["M"],"activations":2,"budget":1,"script":"ActivateTask A;jump 1"}]}]}
stimuli {"0":"op tick op op tick tick op"}
run
core 0 .. pre A
act A
stat A ActivateTask E_OK
tick
hook Protection E_OS_PROTECTION_TIME
end A
pre A
act A
stat A ActivateTask E_OK
tick
hook Protection E_OS_PROTECTION_TIME
end A
pre A
tick
hook Protection E_OS_PROTECTION_TIME
end A
ended

// With PRO_SHUTDOWN the rest of the tick is dropped, and so are the stimuli that are left.
config {"cores":[{"id":0,"protection":"PRO_SHUTDOWN","counters":[{"name":"C","max":9}],"alarms":[{"name":"L","counter":"C","action":"ActivateTask B","auto":{"modes":["M"],"start":1,"cycle":0}}],"tasks":[{"name":"A","prio":1,"auto":["M"],"budget":1,"script":"jump 0"},{"name":"B","prio":2,"script":"TerminateTask"}]}]}
stimuli {"0":"op tick op tick op"}
run
core 0 .. pre A
tick
hook Protection E_OS_PROTECTION_TIME
hook Shutdown E_OS_PROTECTION_TIME
ended

// With PRO_TERMINATEAPPL the rest of the tick is dropped, and so are the stimuli that are left.
config {"cores":[{"id":0,"protection":"PRO_TERMINATEAPPL","counters":[{"name":"C","max":9}],"alarms":[{"name":"L","counter":"C","action":"ActivateTask B","auto":{"modes":["M"],"start":1,"cycle":0}}],"tasks":[{"name":"A","prio":1,"auto":["M"],"budget":1,"script":"jump 0"},{"name":"B","prio":2,"script":"TerminateTask"}]}]}
stimuli {"0":"op tick op tick op"}
run
as before

// With PRO_TERMINATEAPPL_RESTART the rest of the tick is dropped, and so are the stimuli that are left.
config {"cores":[{"id":0,"protection":"PRO_TERMINATEAPPL_RESTART","counters":[{"name":"C","max":9}],"alarms":[{"name":"L","counter":"C","action":"ActivateTask B","auto":{"modes":["M"],"start":1,"cycle":0}}],"tasks":[{"name":"A","prio":1,"auto":["M"],"budget":1,"script":"jump 0"},{"name":"B","prio":2,"script":"TerminateTask"}]}]}
stimuli {"0":"op tick op tick op"}
run
as before

// A core that is down answers requests with E_OS_CORE, drops actions without a line, and ends with the others.
config {"cores":[{"id":0,"start":[1],"counters":[{"name":"C","max":9}],"alarms":[{"name":"L","counter":"C","action":"ActivateTask B","auto":{"modes":["M"],"start":1,"cycle":0}}],"tasks":[{"name":"A","prio":1,"auto":["M"],"script":"work;work;work;SetRelAlarm K 1 0;ActivateTask B;TerminateTask"}]},{"id":1,"counters":[{"name":"D","max":9}],"alarms":[{"name":"K","counter":"D","action":"ActivateTask B"}],"tasks":[{"name":"X","prio":1,"auto":["M"],"budget":1,"script":"jump 0"},{"name":"B","prio":2,"script":"TerminateTask"}]}]}
stimuli {"0":"op op op tick op op op","1":"op tick op op"}
run
core 0
start 1 E_OK .. pre A
tick
alarm L
out 1 ActivateTask B
out 1 SetRelAlarm K 1 0
stat A SetRelAlarm E_OS_CORE
hook Error E_OS_CORE
out 1 ActivateTask B
stat A ActivateTask E_OS_CORE
hook Error E_OS_CORE
post A
end A
core 1 .. pre X
tick
hook Protection E_OS_PROTECTION_TIME
hook Shutdown E_OS_PROTECTION_TIME
ended

// A separate core that shuts down.
config {"cores":[{"id":0,"start":[1],"tasks":[{"name":"A","prio":1,"auto":["M"],"script":"TerminateTask"}]},{"id":1,"protection":"PRO_SHUTDOWN","tasks":[{"name":"X","prio":1,"auto":["M"],"budget":2,"script":"jump 0"}],"isrs":[{"name":"I","level":1,"script":"work"}]}]}
stimuli {"0":"op","1":"irq=I tick op op tick tick op irq=I"}
run
core 0
start 1 E_OK .. pre A
post A
end A
core 1 .. pre X
irq I
enter I
tick
leave I
tick
tick
hook Protection E_OS_PROTECTION_TIME
hook Shutdown E_OS_PROTECTION_TIME
ended

// With its own configuration that core prints the same.
config {"master":1,"cores":[{"id":1,"protection":"PRO_SHUTDOWN","tasks":[{"name":"X","prio":1,"auto":["M"],"budget":2,"script":"jump 0"}],"isrs":[{"name":"I","level":1,"script":"work"}]}]}
stimuli {"1":"irq=I tick op op tick tick op irq=I"}
run
as run from core 1

// An ISR calls another core; while it awaits the reply, no interrupt is taken, and the task that was activated
// meanwhile waits.
config {"cores":[{"id":0,"start":[1],"tasks":[{"name":"A","prio":1,"auto":["M"],"script":"TerminateTask"},{"name":"H","prio":3,"script":"TerminateTask"}],"isrs":[{"name":"I","level":1,"script":"ActivateTask B"},{"name":"J","level":2,"script":"ActivateTask H"}]},{"id":1,"tasks":[{"name":"B","prio":1,"script":"ActivateTask H;TerminateTask"}]}]}
stimuli {"0":"irq=I op irq=J op op op op op op op","1":"op op op"}
run
core 0
start 1 E_OK .. pre A
irq I
enter I
out 1 ActivateTask B
stat I ActivateTask E_OK
irq J
enter J
act H
stat J ActivateTask E_OK
in 1 ActivateTask H E_OS_LIMIT
leave J
leave I
post A
pre H .. end H
pre A .. end A
core 1 .. act B
in 0 ActivateTask B E_OK
pre B
out 0 ActivateTask H
stat B ActivateTask E_OS_LIMIT
hook Error E_OS_LIMIT
ended
"#;

#[test]
fn interrupts_and_budgets_print_their_texts(rt: HostRuntime) -> Result<(), Difference> {
    play_table(&rt, rt.alloc(), RUNS, 16)
}
