//! Configurations and stimuli that are read, as they are printed for debugging.

use super::{Reader, play, play_configurations};
use std::test::Fail;

const PLANS: &str = r#"
// A missing member has its default value. A core is found by its number, whatever its place in the list.
text {"cores":[{"id":0,"start":[1],"tasks":[{"name":"A","prio":1,"auto":["M"],"script":"ActivateTask B;TerminateTask"}]},{"id":1,"tasks":[{"name":"B","prio":1,"script":"TerminateTask"}]}]}
is Plan { version: 1, cap: 16, master: CoreId { number: 0 }, modes: List { items: [Name { text: "M" }] }, spinlocks: List { items: [] }, cores: List { items: [Core { id: CoreId { number: 0 }, mode: Named(ModeId { index: 0 }), start: List { items: [CoreId { number: 1 }] }, protection: Shutdown, tasks: List { items: [Task { name: Name { text: "A" }, priority: 1, auto: List { items: [ModeId { index: 0 }] }, activations: 1, extended: false, preemptable: true, budget: 0, script: List { items: [ActivateTask(Some(TaskRef { core: CoreId { number: 1 }, index: 0 })), TerminateTask] } }] }, isrs: List { items: [] }, resources: List { items: [] }, counters: List { items: [] }, alarms: List { items: [] }, tables: List { items: [] } }, Core { id: CoreId { number: 1 }, mode: Named(ModeId { index: 0 }), start: List { items: [] }, protection: Shutdown, tasks: List { items: [Task { name: Name { text: "B" }, priority: 1, auto: List { items: [] }, activations: 1, extended: false, preemptable: true, budget: 0, script: List { items: [TerminateTask] } }] }, isrs: List { items: [] }, resources: List { items: [] }, counters: List { items: [] }, alarms: List { items: [] }, tables: List { items: [] } }] } }

// A core may start a core twice, itself, or a core that is not configured. Modes may be repeated. The scripts have
// operations on variables, jumps, and operations on tasks and events.
text {"cap":3,"master":1,"modes":["P","Q","R"],"cores":[{"id":0,"mode":"R","start":[1,1,0,9,1],"tasks":[{"name":"A","prio":1,"auto":["R","P","R"],"activations":2,"preemptable":false,"budget":7,"script":"ActivateTask B;ChainTask ?;set v1 -5;add v2 3;addv v3 v4;status v5;jump 0;jz v6 1;TerminateTask"},{"name":"E","prio":31,"extended":true,"script":"SetEvent E 4294967295;ClearEvent 2;GetEvent E v7;WaitEvent 1"}]},{"id":1,"mode":"DONOTCARE","tasks":[{"name":"C","prio":2,"script":"StartCore 0;ShutdownAllCores 0"},{"name":"B","prio":0,"script":""}]}]}
is Plan { version: 1, cap: 3, master: CoreId { number: 1 }, modes: List { items: [Name { text: "P" }, Name { text: "Q" }, Name { text: "R" }] }, spinlocks: List { items: [] }, cores: List { items: [Core { id: CoreId { number: 0 }, mode: Named(ModeId { index: 2 }), start: List { items: [CoreId { number: 1 }, CoreId { number: 1 }, CoreId { number: 0 }, CoreId { number: 9 }, CoreId { number: 1 }] }, protection: Shutdown, tasks: List { items: [Task { name: Name { text: "A" }, priority: 1, auto: List { items: [ModeId { index: 2 }, ModeId { index: 0 }, ModeId { index: 2 }] }, activations: 2, extended: false, preemptable: false, budget: 7, script: List { items: [ActivateTask(Some(TaskRef { core: CoreId { number: 1 }, index: 1 })), ChainTask(None), Set(Variable { index: 1 }, -5), Add(Variable { index: 2 }, 3), AddVariable(Variable { index: 3 }, Variable { index: 4 }), StoreStatus(Variable { index: 5 }), Jump(0), JumpIfZero(Variable { index: 6 }, 1), TerminateTask] } }, Task { name: Name { text: "E" }, priority: 31, auto: List { items: [] }, activations: 1, extended: true, preemptable: true, budget: 0, script: List { items: [SetEvent(Some(TaskRef { core: CoreId { number: 0 }, index: 1 }), 4294967295), ClearEvent(2), GetEvent(Some(TaskRef { core: CoreId { number: 0 }, index: 1 }), Variable { index: 7 }), WaitEvent(1)] } }] }, isrs: List { items: [] }, resources: List { items: [] }, counters: List { items: [] }, alarms: List { items: [] }, tables: List { items: [] } }, Core { id: CoreId { number: 1 }, mode: DontCare, start: List { items: [] }, protection: Shutdown, tasks: List { items: [Task { name: Name { text: "C" }, priority: 2, auto: List { items: [] }, activations: 1, extended: false, preemptable: true, budget: 0, script: List { items: [StartCore(Some(CoreId { number: 0 })), ShutdownAllCores(EOk)] } }, Task { name: Name { text: "B" }, priority: 0, auto: List { items: [] }, activations: 1, extended: false, preemptable: true, budget: 0, script: List { items: [] } }] }, isrs: List { items: [] }, resources: List { items: [] }, counters: List { items: [] }, alarms: List { items: [] }, tables: List { items: [] } }] } }

// Spinlocks, ISRs and resources.
text {"spinlocks":[{"name":"S","next":"V"},{"next":null,"name":"U"},{"name":"V","next":"U"}],"cores":[{"id":0,"protection":"PRO_IGNORE","tasks":[{"name":"A","prio":1,"script":"GetResource X;ReleaseResource Y;GetResource ?"}],"isrs":[{"name":"I1","level":16,"budget":9,"script":"work;GetSpinlock V;TryToGetSpinlock ? v2;ReleaseSpinlock S"},{"name":"I2","level":1,"script":""}],"resources":[{"name":"X","ceiling":1,"lock":7},{"name":"Y","ceiling":2}]}]}
is Plan { version: 1, cap: 16, master: CoreId { number: 0 }, modes: List { items: [Name { text: "M" }] }, spinlocks: List { items: [Spinlock { name: Name { text: "S" }, next: Some(SpinlockId { index: 2 }) }, Spinlock { name: Name { text: "U" }, next: None }, Spinlock { name: Name { text: "V" }, next: Some(SpinlockId { index: 1 }) }] }, cores: List { items: [Core { id: CoreId { number: 0 }, mode: Named(ModeId { index: 0 }), start: List { items: [] }, protection: Ignore, tasks: List { items: [Task { name: Name { text: "A" }, priority: 1, auto: List { items: [] }, activations: 1, extended: false, preemptable: true, budget: 0, script: List { items: [GetResource(Some(ResourceRef { core: CoreId { number: 0 }, index: 0 })), ReleaseResource(Some(ResourceRef { core: CoreId { number: 0 }, index: 1 })), GetResource(None)] } }] }, isrs: List { items: [Isr { name: Name { text: "I1" }, level: 16, budget: 9, script: List { items: [Work, GetSpinlock(Some(SpinlockId { index: 2 })), TryToGetSpinlock(None, Variable { index: 2 }), ReleaseSpinlock(Some(SpinlockId { index: 0 }))] } }, Isr { name: Name { text: "I2" }, level: 1, budget: 0, script: List { items: [] } }] }, resources: List { items: [Resource { name: Name { text: "X" }, ceiling: 1, lock: 7 }, Resource { name: Name { text: "Y" }, ceiling: 2, lock: 0 }] }, counters: List { items: [] }, alarms: List { items: [] }, tables: List { items: [] } }] } }

// Counters and alarms; a script may name those of another core.
text {"modes":["P","Q"],"cores":[{"id":0,"tasks":[{"name":"E","prio":1,"script":"IncrementCounter K;GetCounterValue L v7;SetRelAlarm Z 3 7;SetAbsAlarm F 4 0;CancelAlarm F;GetAlarm W v0"}],"counters":[{"name":"K","max":9},{"name":"L","max":1000000000,"min":10,"software":true}],"alarms":[{"name":"W","counter":"K","action":"ActivateTask B"},{"name":"Z","counter":"L","action":"SetEvent E 5","auto":{"modes":["Q"],"start":1000,"cycle":10}}]},{"id":1,"tasks":[{"name":"B","prio":0,"script":"IncrementCounter L"}],"counters":[{"name":"H","max":9}],"alarms":[{"name":"F","counter":"H","action":"ActivateTask B"}]}]}
is Plan { version: 1, cap: 16, master: CoreId { number: 0 }, modes: List { items: [Name { text: "P" }, Name { text: "Q" }] }, spinlocks: List { items: [] }, cores: List { items: [Core { id: CoreId { number: 0 }, mode: Named(ModeId { index: 0 }), start: List { items: [] }, protection: Shutdown, tasks: List { items: [Task { name: Name { text: "E" }, priority: 1, auto: List { items: [] }, activations: 1, extended: false, preemptable: true, budget: 0, script: List { items: [IncrementCounter(Some(CounterRef { core: CoreId { number: 0 }, index: 0 })), GetCounterValue(Some(CounterRef { core: CoreId { number: 0 }, index: 1 }), Variable { index: 7 }), SetRelAlarm(Some(AlarmRef { core: CoreId { number: 0 }, index: 1 }), 3, 7), SetAbsAlarm(Some(AlarmRef { core: CoreId { number: 1 }, index: 0 }), 4, 0), CancelAlarm(Some(AlarmRef { core: CoreId { number: 1 }, index: 0 })), GetAlarm(Some(AlarmRef { core: CoreId { number: 0 }, index: 0 }), Variable { index: 0 })] } }] }, isrs: List { items: [] }, resources: List { items: [] }, counters: List { items: [Counter { name: Name { text: "K" }, max: 9, min: 1, software: false }, Counter { name: Name { text: "L" }, max: 1000000000, min: 10, software: true }] }, alarms: List { items: [Alarm { name: Name { text: "W" }, counter: CounterRef { core: CoreId { number: 0 }, index: 0 }, action: ActivateTask(TaskRef { core: CoreId { number: 1 }, index: 0 }), auto: None }, Alarm { name: Name { text: "Z" }, counter: CounterRef { core: CoreId { number: 0 }, index: 1 }, action: SetEvent { task: TaskRef { core: CoreId { number: 0 }, index: 0 }, mask: 5 }, auto: Some(AlarmStart { modes: List { items: [ModeId { index: 1 }] }, start: 1000, cycle: 10 }) }] }, tables: List { items: [] } }, Core { id: CoreId { number: 1 }, mode: Named(ModeId { index: 0 }), start: List { items: [] }, protection: Shutdown, tasks: List { items: [Task { name: Name { text: "B" }, priority: 0, auto: List { items: [] }, activations: 1, extended: false, preemptable: true, budget: 0, script: List { items: [IncrementCounter(Some(CounterRef { core: CoreId { number: 0 }, index: 1 }))] } }] }, isrs: List { items: [] }, resources: List { items: [] }, counters: List { items: [Counter { name: Name { text: "H" }, max: 9, min: 1, software: false }] }, alarms: List { items: [Alarm { name: Name { text: "F" }, counter: CounterRef { core: CoreId { number: 1 }, index: 0 }, action: ActivateTask(TaskRef { core: CoreId { number: 1 }, index: 0 }), auto: None }] }, tables: List { items: [] } }] } }

// Schedule tables.
text {"modes":["P","Q"],"cores":[{"id":0,"tasks":[{"name":"A","prio":1,"script":"StartScheduleTableRel T 1;StartScheduleTableAbs N 2;NextScheduleTable N T;StopScheduleTable T;GetScheduleTableStatus N v1"}],"counters":[{"name":"K","max":9}],"tables":[{"name":"T","counter":"K","duration":9,"points":[{"offset":0,"actions":["ActivateTask A","SetEvent E 1"]},{"offset":4,"actions":["ActivateTask E"]}],"repeating":true,"auto":{"modes":["Q"],"offset":2}},{"name":"N","counter":"K","duration":5,"points":[{"offset":5,"actions":["SetEvent A 2"]}]}]},{"id":1,"tasks":[{"name":"E","prio":2,"script":""}]}]}
is Plan { version: 1, cap: 16, master: CoreId { number: 0 }, modes: List { items: [Name { text: "P" }, Name { text: "Q" }] }, spinlocks: List { items: [] }, cores: List { items: [Core { id: CoreId { number: 0 }, mode: Named(ModeId { index: 0 }), start: List { items: [] }, protection: Shutdown, tasks: List { items: [Task { name: Name { text: "A" }, priority: 1, auto: List { items: [] }, activations: 1, extended: false, preemptable: true, budget: 0, script: List { items: [StartScheduleTableRel(Some(TableRef { core: CoreId { number: 0 }, index: 0 }), 1), StartScheduleTableAbs(Some(TableRef { core: CoreId { number: 0 }, index: 1 }), 2), NextScheduleTable(Some(TableRef { core: CoreId { number: 0 }, index: 1 }), Some(TableRef { core: CoreId { number: 0 }, index: 0 })), StopScheduleTable(Some(TableRef { core: CoreId { number: 0 }, index: 0 })), GetScheduleTableStatus(Some(TableRef { core: CoreId { number: 0 }, index: 1 }), Variable { index: 1 })] } }] }, isrs: List { items: [] }, resources: List { items: [] }, counters: List { items: [Counter { name: Name { text: "K" }, max: 9, min: 1, software: false }] }, alarms: List { items: [] }, tables: List { items: [Table { name: Name { text: "T" }, counter: CounterRef { core: CoreId { number: 0 }, index: 0 }, duration: 9, repeating: true, points: List { items: [ExpiryPoint { offset: 0, actions: List { items: [ActivateTask(TaskRef { core: CoreId { number: 0 }, index: 0 }), SetEvent { task: TaskRef { core: CoreId { number: 1 }, index: 0 }, mask: 1 }] } }, ExpiryPoint { offset: 4, actions: List { items: [ActivateTask(TaskRef { core: CoreId { number: 1 }, index: 0 })] } }] }, auto: Some(TableStart { modes: List { items: [ModeId { index: 1 }] }, offset: 2 }) }, Table { name: Name { text: "N" }, counter: CounterRef { core: CoreId { number: 0 }, index: 0 }, duration: 5, repeating: false, points: List { items: [ExpiryPoint { offset: 5, actions: List { items: [SetEvent { task: TaskRef { core: CoreId { number: 0 }, index: 0 }, mask: 2 }] } }] }, auto: None }] } }, Core { id: CoreId { number: 1 }, mode: Named(ModeId { index: 0 }), start: List { items: [] }, protection: Shutdown, tasks: List { items: [Task { name: Name { text: "E" }, priority: 2, auto: List { items: [] }, activations: 1, extended: false, preemptable: true, budget: 0, script: List { items: [] } }] }, isrs: List { items: [] }, resources: List { items: [] }, counters: List { items: [] }, alarms: List { items: [] }, tables: List { items: [] } }] } }

// A task is found by its name, whatever its place in its core's list.
text {"cores":[{"id":3,"tasks":[{"name":"A","prio":1,"script":"ActivateTask A;ActivateTask B;ActivateTask C;ActivateTask D;ActivateTask E"},{"name":"B","prio":1,"script":""}]},{"id":1,"tasks":[{"name":"C","prio":1,"script":""},{"name":"D","prio":1,"script":""},{"name":"E","prio":1,"script":""}]}],"master":3}
is Plan { version: 1, cap: 16, master: CoreId { number: 3 }, modes: List { items: [Name { text: "M" }] }, spinlocks: List { items: [] }, cores: List { items: [Core { id: CoreId { number: 3 }, mode: Named(ModeId { index: 0 }), start: List { items: [] }, protection: Shutdown, tasks: List { items: [Task { name: Name { text: "A" }, priority: 1, auto: List { items: [] }, activations: 1, extended: false, preemptable: true, budget: 0, script: List { items: [ActivateTask(Some(TaskRef { core: CoreId { number: 3 }, index: 0 })), ActivateTask(Some(TaskRef { core: CoreId { number: 3 }, index: 1 })), ActivateTask(Some(TaskRef { core: CoreId { number: 1 }, index: 0 })), ActivateTask(Some(TaskRef { core: CoreId { number: 1 }, index: 1 })), ActivateTask(Some(TaskRef { core: CoreId { number: 1 }, index: 2 }))] } }, Task { name: Name { text: "B" }, priority: 1, auto: List { items: [] }, activations: 1, extended: false, preemptable: true, budget: 0, script: List { items: [] } }] }, isrs: List { items: [] }, resources: List { items: [] }, counters: List { items: [] }, alarms: List { items: [] }, tables: List { items: [] } }, Core { id: CoreId { number: 1 }, mode: Named(ModeId { index: 0 }), start: List { items: [] }, protection: Shutdown, tasks: List { items: [Task { name: Name { text: "C" }, priority: 1, auto: List { items: [] }, activations: 1, extended: false, preemptable: true, budget: 0, script: List { items: [] } }, Task { name: Name { text: "D" }, priority: 1, auto: List { items: [] }, activations: 1, extended: false, preemptable: true, budget: 0, script: List { items: [] } }, Task { name: Name { text: "E" }, priority: 1, auto: List { items: [] }, activations: 1, extended: false, preemptable: true, budget: 0, script: List { items: [] } }] }, isrs: List { items: [] }, resources: List { items: [] }, counters: List { items: [] }, alarms: List { items: [] }, tables: List { items: [] } }] } }

// Modes are found by their names. DONOTCARE stands for any mode, even if a task has that word as its name.
text {"cores":[{"id":0,"tasks":[{"name":"A","prio":1,"auto":["M"],"script":""}]},{"id":1,"mode":"DONOTCARE","tasks":[{"name":"B","prio":1,"script":""}]}]}
is Plan { version: 1, cap: 16, master: CoreId { number: 0 }, modes: List { items: [Name { text: "M" }] }, spinlocks: List { items: [] }, cores: List { items: [Core { id: CoreId { number: 0 }, mode: Named(ModeId { index: 0 }), start: List { items: [] }, protection: Shutdown, tasks: List { items: [Task { name: Name { text: "A" }, priority: 1, auto: List { items: [ModeId { index: 0 }] }, activations: 1, extended: false, preemptable: true, budget: 0, script: List { items: [] } }] }, isrs: List { items: [] }, resources: List { items: [] }, counters: List { items: [] }, alarms: List { items: [] }, tables: List { items: [] } }, Core { id: CoreId { number: 1 }, mode: DontCare, start: List { items: [] }, protection: Shutdown, tasks: List { items: [Task { name: Name { text: "B" }, priority: 1, auto: List { items: [] }, activations: 1, extended: false, preemptable: true, budget: 0, script: List { items: [] } }] }, isrs: List { items: [] }, resources: List { items: [] }, counters: List { items: [] }, alarms: List { items: [] }, tables: List { items: [] } }] } }

text {"modes":["P","Q","R"],"cores":[{"id":0,"mode":"R","tasks":[{"name":"A","prio":1,"auto":["R","P","R"],"script":""}]},{"id":1,"tasks":[{"name":"B","prio":1,"auto":["Q"],"script":""}]},{"id":2,"mode":"DONOTCARE","tasks":[{"name":"DONOTCARE","prio":1,"script":""}]}]}
is Plan { version: 1, cap: 16, master: CoreId { number: 0 }, modes: List { items: [Name { text: "P" }, Name { text: "Q" }, Name { text: "R" }] }, spinlocks: List { items: [] }, cores: List { items: [Core { id: CoreId { number: 0 }, mode: Named(ModeId { index: 2 }), start: List { items: [] }, protection: Shutdown, tasks: List { items: [Task { name: Name { text: "A" }, priority: 1, auto: List { items: [ModeId { index: 2 }, ModeId { index: 0 }, ModeId { index: 2 }] }, activations: 1, extended: false, preemptable: true, budget: 0, script: List { items: [] } }] }, isrs: List { items: [] }, resources: List { items: [] }, counters: List { items: [] }, alarms: List { items: [] }, tables: List { items: [] } }, Core { id: CoreId { number: 1 }, mode: Named(ModeId { index: 0 }), start: List { items: [] }, protection: Shutdown, tasks: List { items: [Task { name: Name { text: "B" }, priority: 1, auto: List { items: [ModeId { index: 1 }] }, activations: 1, extended: false, preemptable: true, budget: 0, script: List { items: [] } }] }, isrs: List { items: [] }, resources: List { items: [] }, counters: List { items: [] }, alarms: List { items: [] }, tables: List { items: [] } }, Core { id: CoreId { number: 2 }, mode: DontCare, start: List { items: [] }, protection: Shutdown, tasks: List { items: [Task { name: Name { text: "DONOTCARE" }, priority: 1, auto: List { items: [] }, activations: 1, extended: false, preemptable: true, budget: 0, script: List { items: [] } }] }, isrs: List { items: [] }, resources: List { items: [] }, counters: List { items: [] }, alarms: List { items: [] }, tables: List { items: [] } }] } }

// Configurations with no, one and several spinlocks, and their successors.
text {"cores":[{"id":0}]}
is Plan { version: 1, cap: 16, master: CoreId { number: 0 }, modes: List { items: [Name { text: "M" }] }, spinlocks: List { items: [] }, cores: List { items: [Core { id: CoreId { number: 0 }, mode: Named(ModeId { index: 0 }), start: List { items: [] }, protection: Shutdown, tasks: List { items: [] }, isrs: List { items: [] }, resources: List { items: [] }, counters: List { items: [] }, alarms: List { items: [] }, tables: List { items: [] } }] } }

text {"spinlocks":[{"name":"S"}],"cores":[{"id":0}]}
is Plan { version: 1, cap: 16, master: CoreId { number: 0 }, modes: List { items: [Name { text: "M" }] }, spinlocks: List { items: [Spinlock { name: Name { text: "S" }, next: None }] }, cores: List { items: [Core { id: CoreId { number: 0 }, mode: Named(ModeId { index: 0 }), start: List { items: [] }, protection: Shutdown, tasks: List { items: [] }, isrs: List { items: [] }, resources: List { items: [] }, counters: List { items: [] }, alarms: List { items: [] }, tables: List { items: [] } }] } }

text {"spinlocks":[{"name":"S","next":"Q"},{"next":null,"name":"R"},{"name":"Q","next":"R"},{"name":"T","next":"R"}],"cores":[{"id":0}]}
is Plan { version: 1, cap: 16, master: CoreId { number: 0 }, modes: List { items: [Name { text: "M" }] }, spinlocks: List { items: [Spinlock { name: Name { text: "S" }, next: Some(SpinlockId { index: 2 }) }, Spinlock { name: Name { text: "R" }, next: None }, Spinlock { name: Name { text: "Q" }, next: Some(SpinlockId { index: 1 }) }, Spinlock { name: Name { text: "T" }, next: Some(SpinlockId { index: 1 }) }] }, cores: List { items: [Core { id: CoreId { number: 0 }, mode: Named(ModeId { index: 0 }), start: List { items: [] }, protection: Shutdown, tasks: List { items: [] }, isrs: List { items: [] }, resources: List { items: [] }, counters: List { items: [] }, alarms: List { items: [] }, tables: List { items: [] } }] } }

// In version 2 cores may have numbers above 7.
text {"version":2,"master":15,"cores":[{"id":9},{"id":15}]}
is Plan { version: 2, cap: 16, master: CoreId { number: 15 }, modes: List { items: [Name { text: "M" }] }, spinlocks: List { items: [] }, cores: List { items: [Core { id: CoreId { number: 9 }, mode: Named(ModeId { index: 0 }), start: List { items: [] }, protection: Shutdown, tasks: List { items: [] }, isrs: List { items: [] }, resources: List { items: [] }, counters: List { items: [] }, alarms: List { items: [] }, tables: List { items: [] } }, Core { id: CoreId { number: 15 }, mode: Named(ModeId { index: 0 }), start: List { items: [] }, protection: Shutdown, tasks: List { items: [] }, isrs: List { items: [] }, resources: List { items: [] }, counters: List { items: [] }, alarms: List { items: [] }, tables: List { items: [] } }] } }

// Events of a task of this core and of another one, beside a resource.
text {"cores":[{"id":0,"tasks":[{"name":"A","prio":1,"script":"SetEvent C 4294967295;GetEvent B v7"},{"name":"B","prio":1,"extended":true,"script":""}],"resources":[{"name":"R","ceiling":1}]},{"id":1,"tasks":[{"name":"C","prio":1,"extended":true,"script":""}]}]}
is Plan { version: 1, cap: 16, master: CoreId { number: 0 }, modes: List { items: [Name { text: "M" }] }, spinlocks: List { items: [] }, cores: List { items: [Core { id: CoreId { number: 0 }, mode: Named(ModeId { index: 0 }), start: List { items: [] }, protection: Shutdown, tasks: List { items: [Task { name: Name { text: "A" }, priority: 1, auto: List { items: [] }, activations: 1, extended: false, preemptable: true, budget: 0, script: List { items: [SetEvent(Some(TaskRef { core: CoreId { number: 1 }, index: 0 }), 4294967295), GetEvent(Some(TaskRef { core: CoreId { number: 0 }, index: 1 }), Variable { index: 7 })] } }, Task { name: Name { text: "B" }, priority: 1, auto: List { items: [] }, activations: 1, extended: true, preemptable: true, budget: 0, script: List { items: [] } }] }, isrs: List { items: [] }, resources: List { items: [Resource { name: Name { text: "R" }, ceiling: 1, lock: 0 }] }, counters: List { items: [] }, alarms: List { items: [] }, tables: List { items: [] } }, Core { id: CoreId { number: 1 }, mode: Named(ModeId { index: 0 }), start: List { items: [] }, protection: Shutdown, tasks: List { items: [Task { name: Name { text: "C" }, priority: 1, auto: List { items: [] }, activations: 1, extended: true, preemptable: true, budget: 0, script: List { items: [] } }] }, isrs: List { items: [] }, resources: List { items: [] }, counters: List { items: [] }, alarms: List { items: [] }, tables: List { items: [] } }] } }

// If a member occurs twice, its last value counts, even if an earlier value is faulty.
text {"cap":0,"cap":2,"cores":[{"id":0}]}
text {"cap":"two","cap":2,"cores":[{"id":0}]}
text {"cap":0,"cores":[{"id":0}],"\u0063ap":2}
text {"cores":[],"cap":2,"cores":[{"id":8,"id":0}]}
is Plan { version: 1, cap: 2, master: CoreId { number: 0 }, modes: List { items: [Name { text: "M" }] }, spinlocks: List { items: [] }, cores: List { items: [Core { id: CoreId { number: 0 }, mode: Named(ModeId { index: 0 }), start: List { items: [] }, protection: Shutdown, tasks: List { items: [] }, isrs: List { items: [] }, resources: List { items: [] }, counters: List { items: [] }, alarms: List { items: [] }, tables: List { items: [] } }] } }

text {"cap":2,"cores":[{"id":0,"tasks":[{"name":"M","name":"A","prio":32,"prio":1,"script":";","script":""}]}]}
is Plan { version: 1, cap: 2, master: CoreId { number: 0 }, modes: List { items: [Name { text: "M" }] }, spinlocks: List { items: [] }, cores: List { items: [Core { id: CoreId { number: 0 }, mode: Named(ModeId { index: 0 }), start: List { items: [] }, protection: Shutdown, tasks: List { items: [Task { name: Name { text: "A" }, priority: 1, auto: List { items: [] }, activations: 1, extended: false, preemptable: true, budget: 0, script: List { items: [] } }] }, isrs: List { items: [] }, resources: List { items: [] }, counters: List { items: [] }, alarms: List { items: [] }, tables: List { items: [] } }] } }
"#;

const STIMULI: &str = r#"
text {}| { } 
is []

text {"0":""}
is [CoreStimuli { core: CoreId { number: 0 }, words: List { items: [] } }]

text {"1":"op"}
is [CoreStimuli { core: CoreId { number: 1 }, words: List { items: [Op] } }]

text {"1":"op","0":"op op op"}
is [CoreStimuli { core: CoreId { number: 0 }, words: List { items: [Op, Op, Op] } }, CoreStimuli { core: CoreId { number: 1 }, words: List { items: [Op] } }]

text {"0":"op op","1":""}
is [CoreStimuli { core: CoreId { number: 0 }, words: List { items: [Op, Op] } }, CoreStimuli { core: CoreId { number: 1 }, words: List { items: [] } }]

text {"0":"op op","1":"op"}
is [CoreStimuli { core: CoreId { number: 0 }, words: List { items: [Op, Op] } }, CoreStimuli { core: CoreId { number: 1 }, words: List { items: [Op] } }]

text {"1":"tick"}
is [CoreStimuli { core: CoreId { number: 1 }, words: List { items: [Tick] } }]

// Stimuli stay in their order.
text {"0":"tick op tick tick op"}
is [CoreStimuli { core: CoreId { number: 0 }, words: List { items: [Tick, Op, Tick, Tick, Op] } }]

text {"0":"op tick tick"}
is [CoreStimuli { core: CoreId { number: 0 }, words: List { items: [Op, Tick, Tick] } }]

text {"0":"tick op tick"}
is [CoreStimuli { core: CoreId { number: 0 }, words: List { items: [Tick, Op, Tick] } }]

text {"0":"tick tick op"}
is [CoreStimuli { core: CoreId { number: 0 }, words: List { items: [Tick, Tick, Op] } }]

// If a member occurs twice, its last value counts.
text {"0":"op","0":"op op"}
text {"0":1,"0":"o\u0070\u0020op"}
is [CoreStimuli { core: CoreId { number: 0 }, words: List { items: [Op, Op] } }]

text {"0":"nonsense","\u0030":"op"}
is [CoreStimuli { core: CoreId { number: 0 }, words: List { items: [Op] } }]
"#;

// An interrupt is `irq=` and the name of one of the core's ISRs.
const INTERRUPTS: &str = r#"
text {"0":"irq=I2 op irq=I1 irq=I2","1":"tick irq=J"}
is [CoreStimuli { core: CoreId { number: 0 }, words: List { items: [Irq(IsrRef { core: CoreId { number: 0 }, index: 1 }), Op, Irq(IsrRef { core: CoreId { number: 0 }, index: 0 }), Irq(IsrRef { core: CoreId { number: 0 }, index: 1 })] } }, CoreStimuli { core: CoreId { number: 1 }, words: List { items: [Tick, Irq(IsrRef { core: CoreId { number: 1 }, index: 0 })] } }]
"#;

const SCHEDULES: &str = r#"
text ""
is []

text  "1s0" 
is [(CoreId { number: 1 }, Serve(CoreId { number: 0 }))]

text "0o 0o 0o"
is [(CoreId { number: 0 }, Own), (CoreId { number: 0 }, Own), (CoreId { number: 0 }, Own)]

text "0\u006f\u00201l"
is [(CoreId { number: 0 }, Own), (CoreId { number: 1 }, Look)]

text "0o 1l 1s0"
is [(CoreId { number: 0 }, Own), (CoreId { number: 1 }, Look), (CoreId { number: 1 }, Serve(CoreId { number: 0 }))]
"#;

// Cores of one digit and of two.
const STIMULI_2: &str = r#"
text {"15":"tick op","9":"op","0":""}
is [CoreStimuli { core: CoreId { number: 0 }, words: List { items: [] } }, CoreStimuli { core: CoreId { number: 15 }, words: List { items: [Tick, Op] } }, CoreStimuli { core: CoreId { number: 9 }, words: List { items: [Op] } }]
"#;

const SECOND_SCHEDULES: &str = r#"
text "15o 9l 9s15 15s9 0s15 15s0 15l"
is [(CoreId { number: 15 }, Own), (CoreId { number: 9 }, Look), (CoreId { number: 9 }, Serve(CoreId { number: 15 })), (CoreId { number: 15 }, Serve(CoreId { number: 9 })), (CoreId { number: 0 }, Serve(CoreId { number: 15 })), (CoreId { number: 15 }, Serve(CoreId { number: 0 })), (CoreId { number: 15 }, Look)]
"#;

#[test]
fn texts_are_read_as_their_tables_say(rt: HostRuntime) -> Result<(), Fail> {
    play_configurations(&rt, rt.alloc(), "@", PLANS, 18)?;
    play(&rt, rt.alloc(), Reader::Stimuli, "@", STIMULI, 15)?;
    play(&rt, rt.alloc(), Reader::Interrupts, "@", INTERRUPTS, 1)?;
    play(&rt, rt.alloc(), Reader::Schedule, "@", SCHEDULES, 5)?;
    play(&rt, rt.alloc(), Reader::SecondStimuli, "@", STIMULI_2, 1)?;
    play(
        &rt,
        rt.alloc(),
        Reader::SecondSchedule,
        "@",
        SECOND_SCHEDULES,
        1,
    )
}
