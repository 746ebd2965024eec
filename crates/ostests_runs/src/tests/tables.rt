//! Worked examples of schedule tables.

use osplay::{Difference, play_table};

const RUNS: &str = r#"
// At an expiry point a table activates a task and releases a waiting task; the activation comes first. At the table's
// end the next table begins. Its point of offset 0 is processed at once, and again at the end of each of its periods.
config {"cores":[{"id":0,"tasks":[{"name":"W","prio":2,"extended":true,"auto":["M"],"script":"StartScheduleTableRel S1 1;NextScheduleTable S1 S2;WaitEvent 1;ClearEvent 1;WaitEvent 2"},{"name":"B","prio":1,"script":"TerminateTask"}],"counters":[{"name":"C","max":9}],"tables":[{"name":"S1","counter":"C","duration":3,"points":[{"offset":1,"actions":["SetEvent W 1","ActivateTask B"]}]},{"name":"S2","counter":"C","duration":2,"points":[{"offset":0,"actions":["ActivateTask B"]}],"repeating":true}]}]}
stimuli {"0":"op op op tick tick op op op tick tick op tick tick"}
run
core 0 .. pre W
stat W StartScheduleTableRel E_OK
stat W NextScheduleTable E_OK
post W
wait W 1
tick
tick
point S1 1
act B
ev W 1
free W
pre W
clr W 1
stat W ClearEvent E_OK
post W
wait W 2
pre B .. end B
tick
tick
stop S1
begin S2
point S2 0
act B
pre B .. end B
tick
tick
point S2 0
act B
pre B
ended

// Each check of the services that start a table, stop it, and ask for its status. The status is also asked for while
// the table waits for its offset.
config {"cores":[{"id":0,"counters":[{"name":"C","max":9}],"tables":[{"name":"S","counter":"C","duration":4,"points":[{"offset":2,"actions":["ActivateTask A"]}]},{"name":"U","counter":"C","duration":3,"points":[{"offset":0,"actions":["ActivateTask A"]}]}],"tasks":[{"name":"A","prio":1,"auto":["M"],"script":"StartScheduleTableRel ? 1;StartScheduleTableRel S 0;StartScheduleTableRel S 8;GetScheduleTableStatus S v0;StartScheduleTableRel S 7;StartScheduleTableRel S 7;StartScheduleTableRel S 8;StartScheduleTableAbs S 10;GetScheduleTableStatus S v0;add v0 0;StartScheduleTableAbs ? 0;StartScheduleTableAbs U 10;StopScheduleTable ?;StopScheduleTable U;StartScheduleTableAbs U 9;StartScheduleTableRel U 9;StopScheduleTable U;StopScheduleTable U;StartScheduleTableRel U 9;GetScheduleTableStatus ? v0;status v1;TerminateTask"}]}]}
stimuli {"0":"op op op op op op op op op op op op op op op op op op op op op op"}
run
core 0 .. pre A
stat A StartScheduleTableRel E_OS_ID
hook Error E_OS_ID
stat A StartScheduleTableRel E_OS_VALUE
hook Error E_OS_VALUE
stat A StartScheduleTableRel E_OS_VALUE
hook Error E_OS_VALUE
stat A GetScheduleTableStatus E_OK 0
stat A StartScheduleTableRel E_OK
stat A StartScheduleTableRel E_OS_STATE
hook Error E_OS_STATE
stat A StartScheduleTableRel E_OS_STATE
hook Error E_OS_STATE
stat A StartScheduleTableAbs E_OS_STATE
hook Error E_OS_STATE
stat A GetScheduleTableStatus E_OK 2
var A v0 2
stat A StartScheduleTableAbs E_OS_ID
hook Error E_OS_ID
stat A StartScheduleTableAbs E_OS_VALUE
hook Error E_OS_VALUE
stat A StopScheduleTable E_OS_ID
hook Error E_OS_ID
stat A StopScheduleTable E_OS_NOFUNC
hook Error E_OS_NOFUNC
stat A StartScheduleTableAbs E_OK
stat A StartScheduleTableRel E_OS_STATE
hook Error E_OS_STATE
stat A StopScheduleTable E_OK
stat A StopScheduleTable E_OS_NOFUNC
hook Error E_OS_NOFUNC
stat A StartScheduleTableRel E_OK
stat A GetScheduleTableStatus E_OS_ID
hook Error E_OS_ID
var A v1 3
post A
end A
ended

// NextScheduleTable checks, in this order, that both tables are valid and of one counter, that the second table is
// stopped, and that the first table runs. A table that waits to be the next cannot be started.
config {"cores":[{"id":0,"counters":[{"name":"C","max":9},{"name":"D","max":9}],"tables":[{"name":"S","counter":"C","duration":4,"points":[{"offset":2,"actions":["ActivateTask A"]}]},{"name":"U","counter":"C","duration":3,"points":[{"offset":0,"actions":["ActivateTask A"]}]},{"name":"V","counter":"D","duration":3,"points":[{"offset":0,"actions":["ActivateTask A"]}]},{"name":"X","counter":"C","duration":3,"points":[{"offset":0,"actions":["ActivateTask A"]}]}],"tasks":[{"name":"A","prio":1,"auto":["M"],"script":"StartScheduleTableRel S 1;NextScheduleTable ? U;NextScheduleTable S ?;NextScheduleTable S V;NextScheduleTable V S;NextScheduleTable S S;NextScheduleTable U S;NextScheduleTable U U;NextScheduleTable U X;NextScheduleTable S U;NextScheduleTable S U;NextScheduleTable U U;NextScheduleTable U X;StartScheduleTableRel U 0;StartScheduleTableAbs U 10;GetScheduleTableStatus U v0;TerminateTask"}]}]}
stimuli {"0":"op op op op op op op op op op op op op op op op op"}
run
core 0 .. pre A
stat A StartScheduleTableRel E_OK
<4*stat A NextScheduleTable E_OS_ID
hook Error E_OS_ID
><2*stat A NextScheduleTable E_OS_STATE
hook Error E_OS_STATE
><2*stat A NextScheduleTable E_OS_NOFUNC
hook Error E_OS_NOFUNC
>stat A NextScheduleTable E_OK
stat A NextScheduleTable E_OS_STATE
hook Error E_OS_STATE
stat A NextScheduleTable E_OS_STATE
hook Error E_OS_STATE
stat A NextScheduleTable E_OS_NOFUNC
hook Error E_OS_NOFUNC
stat A StartScheduleTableRel E_OS_STATE
hook Error E_OS_STATE
stat A StartScheduleTableAbs E_OS_STATE
hook Error E_OS_STATE
stat A GetScheduleTableStatus E_OK 1
post A
end A
ended

// A table that waits to be the next is replaced, and the new one begins.
config {"cores":[{"id":0,"counters":[{"name":"C","max":9}],"tables":[{"name":"U","counter":"C","duration":2,"points":[{"offset":0,"actions":["ActivateTask B"]}]},{"name":"S","counter":"C","duration":2,"points":[{"offset":1,"actions":["ActivateTask B"]}],"repeating":true},{"name":"V","counter":"C","duration":2,"points":[{"offset":0,"actions":["ActivateTask B"]},{"offset":2,"actions":["ActivateTask B"]}]}],"tasks":[{"name":"A","prio":2,"auto":["M"],"script":"StartScheduleTableRel S 1;NextScheduleTable S U;NextScheduleTable S V;GetScheduleTableStatus U v0;GetScheduleTableStatus V v1;TerminateTask"},{"name":"B","prio":1,"script":"TerminateTask"}]}]}
stimuli {"0":"op op op op op op tick tick op tick op tick tick op tick tick"}
run
core 0 .. pre A
stat A StartScheduleTableRel E_OK
stat A NextScheduleTable E_OK
stat A NextScheduleTable E_OK
stat A GetScheduleTableStatus E_OK 0
stat A GetScheduleTableStatus E_OK 1
post A
end A
tick
tick
point S 1
act B
pre B .. end B
tick
stop S
begin V
point V 0
act B
pre B .. end B
tick
tick
point V 2
act B
stop V
pre B .. end B
tick
tick
ended

// If the table that waits to be the next is stopped, the first one ends alone. If the first one is
// stopped, the one that waits is stopped with it.
config {"cores":[{"id":0,"counters":[{"name":"C","max":9}],"tables":[{"name":"S","counter":"C","duration":1,"points":[{"offset":1,"actions":["ActivateTask B"]}]},{"name":"U","counter":"C","duration":1,"points":[{"offset":0,"actions":["ActivateTask B"]}]}],"tasks":[{"name":"B","prio":1,"script":"GetScheduleTableStatus S v0;GetScheduleTableStatus U v1;TerminateTask"},{"name":"A","prio":2,"extended":true,"auto":["M"],"script":"StartScheduleTableRel S 1;NextScheduleTable S U;StopScheduleTable U;GetScheduleTableStatus U v0;GetScheduleTableStatus S v1;WaitEvent 1;StartScheduleTableRel S 1;NextScheduleTable S U;StopScheduleTable S;GetScheduleTableStatus U v0;TerminateTask"},{"name":"N","prio":3,"script":"SetEvent A 1;TerminateTask"}],"alarms":[{"name":"L","counter":"C","action":"ActivateTask N","auto":{"modes":["M"],"start":4,"cycle":0}}]}]}
stimuli {"0":"op op op op op op tick tick tick op op op tick op op op op op op op tick tick tick"}
run
core 0 .. pre A
stat A StartScheduleTableRel E_OK
stat A NextScheduleTable E_OK
stat A StopScheduleTable E_OK
stat A GetScheduleTableStatus E_OK 0
stat A GetScheduleTableStatus E_OK 2
post A
wait A 1
tick
tick
point S 1
act B
stop S
pre B
tick
stat B GetScheduleTableStatus E_OK 0
stat B GetScheduleTableStatus E_OK 0
post B
end B
tick
alarm L
act N
pre N
ev A 1
free A
stat N SetEvent E_OK
post N
end N
pre A
stat A StartScheduleTableRel E_OK
stat A NextScheduleTable E_OK
stat A StopScheduleTable E_OK
stat A GetScheduleTableStatus E_OK 0
post A
end A
tick
tick
tick
ended

// A point at the end of a period is processed before that end. If a table's last point comes earlier, the table stops,
// or repeats, only after its final delay.
config {"cores":[{"id":0,"counters":[{"name":"C","max":9}],"tables":[{"name":"S","counter":"C","duration":3,"points":[{"offset":1,"actions":["ActivateTask B"]},{"offset":3,"actions":["ActivateTask B"]}],"auto":{"modes":["M"],"offset":1}},{"name":"U","counter":"C","duration":3,"points":[{"offset":1,"actions":["ActivateTask B"]}],"auto":{"modes":["M"],"offset":2}},{"name":"V","counter":"C","duration":3,"points":[{"offset":2,"actions":["ActivateTask B"]}],"repeating":true,"auto":{"modes":["M"],"offset":1}}],"tasks":[{"name":"B","prio":1,"activations":9,"script":"TerminateTask"}]}]}
stimuli {"0":"tick tick tick tick tick tick tick tick tick"}
run
core 0 .. tick
tick
point S 1
act B
pre B
tick
point U 1
act B
point V 2
act B
tick
point S 3
act B
stop S
tick
stop U
tick
point V 2
act B
tick
tick
tick
point V 2
act B
ended

// A point of offset 0 is processed where each period begins. The first period begins after the table's offset, or at
// the value that the table is started for. If the counter already has that value, this is a full turn later.
config {"cores":[{"id":0,"counters":[{"name":"C","max":3}],"tables":[{"name":"S","counter":"C","duration":3,"points":[{"offset":0,"actions":["ActivateTask B"]}]},{"name":"U","counter":"C","duration":2,"points":[{"offset":0,"actions":["ActivateTask B"]},{"offset":1,"actions":["ActivateTask B"]}],"repeating":true},{"name":"V","counter":"C","duration":2,"points":[{"offset":0,"actions":["ActivateTask B"]}]}],"tasks":[{"name":"A","prio":1,"auto":["M"],"script":"StartScheduleTableRel S 2;StartScheduleTableAbs U 0;StartScheduleTableAbs V 3;TerminateTask"},{"name":"B","prio":0,"activations":9,"script":"TerminateTask"}]}]}
stimuli {"0":"op op tick op op tick tick tick tick tick tick tick"}
run
core 0 .. pre A
stat A StartScheduleTableRel E_OK
stat A StartScheduleTableAbs E_OK
tick
stat A StartScheduleTableAbs E_OK
post A
end A
tick
point S 0
act B
pre B
tick
point V 0
act B
tick
point U 0
act B
tick
stop S
point U 1
act B
stop V
tick
point U 0
act B
tick
point U 1
act B
tick
point U 0
act B
ended

// Tables that follow another one may come after it or before it in the list. The tick that starts such a table does not
// advance it too, and the table does not wait for an offset.
config {"cores":[{"id":0,"counters":[{"name":"C","max":9}],"tables":[{"name":"U","counter":"C","duration":2,"points":[{"offset":1,"actions":["ActivateTask N"]}],"repeating":true},{"name":"S","counter":"C","duration":1,"points":[{"offset":0,"actions":["ActivateTask N"]}]},{"name":"V","counter":"C","duration":2,"points":[{"offset":1,"actions":["ActivateTask B"]},{"offset":2,"actions":["ActivateTask N"]}]}],"tasks":[{"name":"A","prio":2,"auto":["M"],"script":"StartScheduleTableRel S 1;NextScheduleTable S V;TerminateTask"},{"name":"B","prio":1,"script":"NextScheduleTable V U;TerminateTask"},{"name":"N","prio":0,"activations":8,"script":"TerminateTask"}]}]}
stimuli {"0":"op op op tick tick tick op op tick tick tick tick"}
run
core 0 .. pre A
stat A StartScheduleTableRel E_OK
stat A NextScheduleTable E_OK
post A
end A
tick
point S 0
act N
pre N
tick
stop S
begin V
tick
point V 1
act B
post N
pre B
stat B NextScheduleTable E_OK
post B
end B
pre N
tick
point V 2
act N
stop V
begin U
tick
point U 1
act N
tick
tick
point U 1
act N
ended

// At a tick, the alarms of a counter act first, then its tables, both in their order; then the next counter is
// incremented. If a task increments a counter, the same happens for that counter before the service returns.
config {"cores":[{"id":0,"counters":[{"name":"C","max":9},{"name":"D","max":9},{"name":"E","max":9,"software":true}],"alarms":[{"name":"K","counter":"D","action":"ActivateTask B","auto":{"modes":["M"],"start":1,"cycle":1}},{"name":"L","counter":"C","action":"ActivateTask B","auto":{"modes":["M"],"start":1,"cycle":0}},{"name":"N","counter":"E","action":"ActivateTask B","auto":{"modes":["M"],"start":1,"cycle":0}}],"tables":[{"name":"R","counter":"D","duration":1,"points":[{"offset":0,"actions":["ActivateTask B"]}],"auto":{"modes":["M"],"offset":1}},{"name":"S","counter":"C","duration":1,"points":[{"offset":0,"actions":["ActivateTask B"]}],"auto":{"modes":["M"],"offset":1}},{"name":"U","counter":"C","duration":1,"points":[{"offset":0,"actions":["ActivateTask B"]}],"auto":{"modes":["M"],"offset":1}},{"name":"V","counter":"E","duration":1,"points":[{"offset":0,"actions":["ActivateTask B"]}],"auto":{"modes":["M"],"offset":1}}],"tasks":[{"name":"A","prio":2,"auto":["M"],"script":"IncrementCounter E;IncrementCounter E;TerminateTask"},{"name":"B","prio":1,"activations":9,"script":"TerminateTask"}]}]}
stimuli {"0":"tick op tick op op"}
run
core 0 .. pre A
tick
alarm L
act B
point S 0
act B
point U 0
act B
alarm K
act B
point R 0
act B
alarm N
act B
point V 0
act B
stat A IncrementCounter E_OK
tick
stop S
stop U
alarm K
act B
stop R
stop V
stat A IncrementCounter E_OK
post A
end A
pre B
ended

// Of a point's actions, the activations come first and then the events, both in their order. If an action is refused,
// ErrorHook is called, and the other actions are done.
config {"cores":[{"id":0,"counters":[{"name":"C","max":9}],"tables":[{"name":"S","counter":"C","duration":9,"points":[{"offset":0,"actions":["SetEvent W 1","ActivateTask A","SetEvent A 1","ActivateTask B","SetEvent V 2","ActivateTask V"]}],"auto":{"modes":["M"],"offset":1}}],"tasks":[{"name":"A","prio":1,"auto":["M"],"script":"TerminateTask"},{"name":"W","prio":2,"extended":true,"auto":["M"],"script":"WaitEvent 1;TerminateTask"},{"name":"B","prio":3,"script":"TerminateTask"},{"name":"V","prio":1,"extended":true,"script":"GetEvent V v0;TerminateTask"}]}]}
stimuli {"0":"op tick op op op op op"}
run
core 0 .. act A
act W
pre W .. wait W 1
pre A
tick
point S 0
hook Error E_OS_LIMIT
act B
act V
ev W 1
free W
hook Error E_OS_ACCESS
ev V 2
post A
pre B .. end B
pre W .. end W
pre A .. end A
pre V
stat V GetEvent E_OK 2
post V
end V
ended

// A table's actions on another core are sent in envelopes without replies, and that core may refuse them. If that core
// was never started, core 0 refuses them. Also, a task names the next table, which begins when the first one ends.
config {"cap":1,"cores":[{"id":0,"start":[1],"counters":[{"name":"C","max":3}],"tables":[{"name":"S","counter":"C","duration":2,"points":[{"offset":1,"actions":["SetEvent X 4","ActivateTask N","ActivateTask X","ActivateTask B","SetEvent Y 2"]},{"offset":2,"actions":["ActivateTask X"]}],"auto":{"modes":["M"],"offset":1}},{"name":"U","counter":"C","duration":1,"points":[{"offset":0,"actions":["SetEvent X 4"]}]}],"tasks":[{"name":"B","prio":1,"script":"NextScheduleTable S U;TerminateTask"}]},{"id":1,"tasks":[{"name":"X","prio":2,"extended":true,"script":"WaitEvent 4;TerminateTask"},{"name":"Y","prio":1,"extended":true,"auto":["M"],"script":"WaitEvent 2;ActivateTask B;TerminateTask"}]},{"id":2,"tasks":[{"name":"N","prio":1,"script":"TerminateTask"}]}]}
stimuli {"0":"tick tick op op tick tick","1":"op"}
run
core 0
start 1 E_OK .. tick
tick
point S 1
hook Error E_OS_CORE
out 1 ActivateTask X
act B
out 1 SetEvent X 4
out 1 SetEvent Y 2
pre B
stat B NextScheduleTable E_OK
post B
end B
tick
point S 2
out 1 ActivateTask X
stop S
begin U
point U 0
out 1 SetEvent X 4
tick
stop U
core 1 .. pre Y
post Y
wait Y 2
act X
in 0 ActivateTask X E_OK
pre X
ev X 4
in 0 SetEvent X 4 E_OK
ev Y 2
free Y
in 0 SetEvent Y 2 E_OK
in 0 ActivateTask X E_OS_LIMIT
hook Error E_OS_LIMIT
ev X 4
in 0 SetEvent X 4 E_OK
core 2
ended

// Tables that autostart in the mode that their list names, after the tasks autostart and before any task runs.
config {"cores":[{"id":0,"counters":[{"name":"C","max":9}],"tables":[{"name":"S","counter":"C","duration":2,"points":[{"offset":1,"actions":["ActivateTask B"]}],"repeating":true,"auto":{"modes":["M","M"],"offset":2}},{"name":"U","counter":"C","duration":2,"points":[{"offset":0,"actions":["ActivateTask B"]}],"auto":{"modes":[],"offset":1}},{"name":"V","counter":"C","duration":2,"points":[{"offset":0,"actions":["ActivateTask B"]}]},{"name":"X","counter":"C","duration":2,"points":[{"offset":1,"actions":["ActivateTask B"]},{"offset":2,"actions":["ActivateTask B"]}],"auto":{"modes":["M"],"offset":8}}],"tasks":[{"name":"A","prio":1,"auto":["M"],"script":"GetScheduleTableStatus S v0;GetScheduleTableStatus U v0;GetScheduleTableStatus V v0;TerminateTask"},{"name":"B","prio":1,"activations":9,"script":"TerminateTask"}]}]}
stimuli {"0":"op op op op tick tick tick op tick tick op tick tick tick tick"}
run
core 0 .. pre A
stat A GetScheduleTableStatus E_OK 2
stat A GetScheduleTableStatus E_OK 0
stat A GetScheduleTableStatus E_OK 0
post A
end A
tick
<2*tick
tick
point S 1
act B
pre B .. end B
>tick
tick
point S 1
act B
pre B
tick
tick
point S 1
act B
point X 1
act B
ended

// Faults: a repeating table without a final delay, a table of another core, and an operation with a word too many.
config {"cores":[{"id":0,"tasks":[{"name":"A","prio":1,"script":"TerminateTask"}],"counters":[{"name":"C","max":9}],"tables":[{"name":"S","counter":"C","duration":3,"repeating":true,"points":[{"offset":3,"actions":["ActivateTask A"]}]}]},{"id":1,"counters":[{"name":"F","max":9}],"tables":[{"name":"G","counter":"F","duration":1,"points":[{"offset":0,"actions":["ActivateTask A"]}]}]}]}
check
fault 9 BadTable

config {"cores":[{"id":0,"tasks":[{"name":"A","prio":1,"script":"NextScheduleTable S G"}],"counters":[{"name":"C","max":9}],"tables":[{"name":"S","counter":"C","duration":3,"repeating":true,"points":[{"offset":2,"actions":["ActivateTask A"]}]}]},{"id":1,"counters":[{"name":"F","max":9}],"tables":[{"name":"G","counter":"F","duration":1,"points":[{"offset":0,"actions":["ActivateTask A"]}]}]}]}
check
fault 6 WrongCore

config {"cores":[{"id":0,"tasks":[{"name":"A","prio":1,"script":"StopScheduleTable S 0"}],"counters":[{"name":"C","max":9}],"tables":[{"name":"S","counter":"C","duration":3,"repeating":true,"points":[{"offset":2,"actions":["ActivateTask A"]}]}]},{"id":1,"counters":[{"name":"F","max":9}],"tables":[{"name":"G","counter":"F","duration":1,"points":[{"offset":0,"actions":["ActivateTask A"]}]}]}]}
check
fault 10 BadScript
"#;

#[test]
fn tables_print_their_texts(rt: HostRuntime) -> Result<(), Difference> {
    play_table(&rt, rt.alloc(), RUNS, 15)
}
