//! Configurations that are read and written, also those of one core alone. Each text is read and written again.

use super::{Reader, play};
use std::test::Fail;

const WRITTEN: &str = r#"
// A missing member is written with its default value.
text {"cores":[{"id":0,"start":[1],"tasks":[{"name":"A","prio":1,"auto":["M"],"script":"ActivateTask B;TerminateTask"}]},{"id":1,"tasks":[{"name":"B","prio":1,"script":"TerminateTask"}]}]}
is {"cap":16,"cores":[{"alarms":[],"counters":[],"id":0,"isrs":[],"mode":"M","protection":"PRO_SHUTDOWN","resources":[],"start":[1],"tables":[],"tasks":[{"activations":1,"auto":["M"],"budget":0,"extended":false,"name":"A","preemptable":true,"prio":1,"script":"ActivateTask B;TerminateTask"}]},{"alarms":[],"counters":[],"id":1,"isrs":[],"mode":"M","protection":"PRO_SHUTDOWN","resources":[],"start":[],"tables":[],"tasks":[{"activations":1,"auto":[],"budget":0,"extended":false,"name":"B","preemptable":true,"prio":1,"script":"TerminateTask"}]}],"master":0,"modes":["M"],"spinlocks":[],"version":1}

// A core without a mode is written with the first mode. A core of any mode is written with DONOTCARE.
text {"modes":["B","N"],"cores":[{"id":0,"mode":"DONOTCARE","start":[1]},{"id":1,"mode":"N","tasks":[{"name":"A","prio":1,"auto":["N"],"script":""}]},{"id":2}]}
is {"cap":16,"cores":[{"alarms":[],"counters":[],"id":0,"isrs":[],"mode":"DONOTCARE","protection":"PRO_SHUTDOWN","resources":[],"start":[1],"tables":[],"tasks":[]},{"alarms":[],"counters":[],"id":1,"isrs":[],"mode":"N","protection":"PRO_SHUTDOWN","resources":[],"start":[],"tables":[],"tasks":[{"activations":1,"auto":["N"],"budget":0,"extended":false,"name":"A","preemptable":true,"prio":1,"script":""}]},{"alarms":[],"counters":[],"id":2,"isrs":[],"mode":"B","protection":"PRO_SHUTDOWN","resources":[],"start":[],"tables":[],"tasks":[]}],"master":0,"modes":["B","N"],"spinlocks":[],"version":1}

// A resource without a lock budget is written with 0.
text {"cores":[{"id":0,"resources":[{"name":"R","ceiling":1,"lock":2},{"name":"S","ceiling":3}]}]}
is {"cap":16,"cores":[{"alarms":[],"counters":[],"id":0,"isrs":[],"mode":"M","protection":"PRO_SHUTDOWN","resources":[{"ceiling":1,"lock":2,"name":"R"},{"ceiling":3,"lock":0,"name":"S"}],"start":[],"tables":[],"tasks":[]}],"master":0,"modes":["M"],"spinlocks":[],"version":1}

// The version stays the same.
text {"version":2,"master":15,"cores":[{"id":9},{"id":15}]}
is {"cap":16,"cores":[{"alarms":[],"counters":[],"id":9,"isrs":[],"mode":"M","protection":"PRO_SHUTDOWN","resources":[],"start":[],"tables":[],"tasks":[]},{"alarms":[],"counters":[],"id":15,"isrs":[],"mode":"M","protection":"PRO_SHUTDOWN","resources":[],"start":[],"tables":[],"tasks":[]}],"master":15,"modes":["M"],"spinlocks":[],"version":2}

text {"version":2,"cores":[{"id":0}]}
is {"cap":16,"cores":[{"alarms":[],"counters":[],"id":0,"isrs":[],"mode":"M","protection":"PRO_SHUTDOWN","resources":[],"start":[],"tables":[],"tasks":[]}],"master":0,"modes":["M"],"spinlocks":[],"version":2}
"#;

// Texts that are written as they were read.
const SAME: &str = r#"
// Spinlocks stay in their order, and each has the name of its successor.
text {"cap":16,"cores":[{"alarms":[],"counters":[],"id":0,"isrs":[{"budget":0,"level":1,"name":"I","script":"TryToGetSpinlock L v7"}],"mode":"M","protection":"PRO_SHUTDOWN","resources":[],"start":[],"tables":[],"tasks":[{"activations":1,"auto":["M"],"budget":0,"extended":false,"name":"A","preemptable":true,"prio":1,"script":"GetSpinlock S;GetSpinlock ?;TryToGetSpinlock L v0;ReleaseSpinlock ?;ReleaseSpinlock S"}]}],"master":0,"modes":["M"],"spinlocks":[{"name":"S","next":"L"},{"name":"K","next":null},{"name":"L","next":"K"}],"version":1}
is
"#;

// Texts of one core, which stay the same if the core is cut out.
const LONE: &str = r#"
// Tasks stay in their order.
text {"cap":16,"cores":[{"alarms":[],"counters":[],"id":0,"isrs":[],"mode":"M","protection":"PRO_SHUTDOWN","resources":[],"start":[],"tables":[],"tasks":[{"activations":60,"auto":[],"budget":0,"extended":false,"name":"B","preemptable":false,"prio":31,"script":"ActivateTask A;TerminateTask"},{"activations":3,"auto":["M"],"budget":0,"extended":false,"name":"A","preemptable":true,"prio":0,"script":"ActivateTask C"},{"activations":1,"auto":["M"],"budget":0,"extended":false,"name":"C","preemptable":true,"prio":0,"script":""}]}],"master":0,"modes":["M"],"spinlocks":[],"version":1}
is

// Operations on variables, and jumps.
text {"cap":16,"cores":[{"alarms":[],"counters":[],"id":0,"isrs":[],"mode":"M","protection":"PRO_SHUTDOWN","resources":[],"start":[],"tables":[],"tasks":[{"activations":1,"auto":[],"budget":0,"extended":false,"name":"A","preemptable":true,"prio":1,"script":"set v0 -9223372036854775808;add v1 9223372036854775807;addv v2 v7;status v3;jz v4 6;jump 0"}]}],"master":0,"modes":["M"],"spinlocks":[],"version":1}
is

text {"cap":16,"cores":[{"alarms":[],"counters":[],"id":0,"isrs":[],"mode":"M","protection":"PRO_SHUTDOWN","resources":[],"start":[],"tables":[],"tasks":[{"activations":1,"auto":["M"],"budget":0,"extended":true,"name":"A","preemptable":true,"prio":1,"script":"SetEvent A 4294967295;WaitEvent 1;ClearEvent 10;GetEvent A v7;SetEvent ? 2;GetEvent ? v0;ChainTask ?;ChainTask B"},{"activations":2,"auto":[],"budget":0,"extended":false,"name":"B","preemptable":true,"prio":1,"script":"SetEvent A 1;TerminateTask"}]}],"master":0,"modes":["M"],"spinlocks":[],"version":1}
is

text {"cap":16,"cores":[{"alarms":[],"counters":[],"id":0,"isrs":[],"mode":"M","protection":"PRO_SHUTDOWN","resources":[{"ceiling":31,"lock":1000000000,"name":"S"},{"ceiling":0,"lock":0,"name":"R"}],"start":[],"tables":[],"tasks":[{"activations":1,"auto":["M"],"budget":0,"extended":false,"name":"A","preemptable":true,"prio":1,"script":"GetResource R;GetResource S;ReleaseResource S;GetResource ?;ReleaseResource R;TerminateTask"}]}],"master":0,"modes":["M"],"spinlocks":[],"version":1}
is

text {"cap":16,"cores":[{"alarms":[],"counters":[{"max":1000000000,"min":1000000000,"name":"L","software":true},{"max":1,"min":1,"name":"K","software":false}],"id":0,"isrs":[],"mode":"M","protection":"PRO_SHUTDOWN","resources":[],"start":[],"tables":[],"tasks":[{"activations":1,"auto":["M"],"budget":0,"extended":false,"name":"A","preemptable":true,"prio":1,"script":"IncrementCounter K;GetCounterValue L v7;IncrementCounter ?;GetCounterValue ? v0;IncrementCounter L"}]}],"master":0,"modes":["M"],"spinlocks":[],"version":1}
is

text {"cap":16,"cores":[{"alarms":[{"action":"SetEvent A 4294967295","auto":{"cycle":1000000000,"modes":["M","M"],"start":1},"counter":"L","name":"X"},{"action":"ActivateTask A","auto":null,"counter":"K","name":"W"},{"action":"ActivateTask A","auto":{"cycle":0,"modes":[],"start":7},"counter":"K","name":"V"}],"counters":[{"max":1000000000,"min":1000000000,"name":"L","software":true},{"max":7,"min":1,"name":"K","software":false}],"id":0,"isrs":[],"mode":"M","protection":"PRO_SHUTDOWN","resources":[],"start":[],"tables":[],"tasks":[{"activations":1,"auto":["M"],"budget":0,"extended":true,"name":"A","preemptable":true,"prio":1,"script":"SetRelAlarm W 4294967295 0;SetAbsAlarm X 0 4294967295;CancelAlarm ?;GetAlarm V v7;GetAlarm ? v0"}]}],"master":0,"modes":["M"],"spinlocks":[],"version":1}
is

text {"cap":16,"cores":[{"alarms":[],"counters":[{"max":9,"min":1,"name":"K","software":false}],"id":0,"isrs":[],"mode":"M","protection":"PRO_SHUTDOWN","resources":[],"start":[],"tables":[{"auto":{"modes":["M"],"offset":2},"counter":"K","duration":9,"name":"P","points":[{"actions":["SetEvent A 4294967295","ActivateTask A"],"offset":0},{"actions":["ActivateTask A"],"offset":9}],"repeating":false},{"auto":null,"counter":"K","duration":1,"name":"O","points":[{"actions":["ActivateTask A"],"offset":0}],"repeating":true}],"tasks":[{"activations":1,"auto":[],"budget":0,"extended":true,"name":"A","preemptable":true,"prio":1,"script":"StartScheduleTableRel P 1;StartScheduleTableAbs O 0;NextScheduleTable P O;StopScheduleTable ?;GetScheduleTableStatus O v7"}]}],"master":0,"modes":["M"],"spinlocks":[],"version":1}
is

// ISRs stay in their order.
text {"cap":16,"cores":[{"alarms":[],"counters":[],"id":0,"isrs":[{"budget":1000000000,"level":16,"name":"J","script":"SuspendAllInterrupts;ActivateTask A;jz v7 0;ResumeAllInterrupts"},{"budget":0,"level":1,"name":"I","script":""}],"mode":"M","protection":"PRO_TERMINATETASKISR","resources":[],"start":[],"tables":[],"tasks":[{"activations":1,"auto":[],"budget":1000000000,"extended":false,"name":"A","preemptable":true,"prio":1,"script":""}]}],"master":0,"modes":["M"],"spinlocks":[],"version":1}
is

// Modes stay in their order, and are written by their names wherever they are named.
text {"cap":16,"cores":[{"alarms":[{"action":"ActivateTask A","auto":{"cycle":0,"modes":["B","N"],"start":7},"counter":"K","name":"V"}],"counters":[{"max":7,"min":1,"name":"K","software":false}],"id":0,"isrs":[],"mode":"N","protection":"PRO_SHUTDOWN","resources":[],"start":[],"tables":[{"auto":{"modes":["N"],"offset":2},"counter":"K","duration":7,"name":"P","points":[{"actions":["ActivateTask A"],"offset":0}],"repeating":false}],"tasks":[{"activations":1,"auto":["N","B","N"],"budget":0,"extended":false,"name":"A","preemptable":true,"prio":1,"script":""},{"activations":1,"auto":[],"budget":0,"extended":false,"name":"M","preemptable":true,"prio":1,"script":""}]}],"master":0,"modes":["B","C","N"],"spinlocks":[],"version":1}
is
"#;

const SECOND: &str = r#"
// The configuration of a core alone has all modes.
text {"modes":["B","N"],"cores":[{"id":0,"mode":"DONOTCARE","start":[1]},{"id":1,"mode":"N","tasks":[{"name":"A","prio":1,"auto":["N"],"script":""}]},{"id":2}]}
is {"cap":16,"cores":[{"alarms":[],"counters":[],"id":1,"isrs":[],"mode":"N","protection":"PRO_SHUTDOWN","resources":[],"start":[],"tables":[],"tasks":[{"activations":1,"auto":["N"],"budget":0,"extended":false,"name":"A","preemptable":true,"prio":1,"script":""}]}],"master":1,"modes":["B","N"],"spinlocks":[],"version":1}

// A core alone has no spinlocks, and names none.
text {"spinlocks":[{"name":"S"},{"name":"L","next":"S"}],"cores":[{"id":0,"start":[1],"tasks":[{"name":"A","prio":1,"script":"GetSpinlock L"}]},{"id":1,"tasks":[{"name":"B","prio":1,"script":"ReleaseSpinlock ?"}]}]}
is {"cap":16,"cores":[{"alarms":[],"counters":[],"id":1,"isrs":[],"mode":"M","protection":"PRO_SHUTDOWN","resources":[],"start":[],"tables":[],"tasks":[{"activations":1,"auto":[],"budget":0,"extended":false,"name":"B","preemptable":true,"prio":1,"script":"ReleaseSpinlock ?"}]}],"master":1,"modes":["M"],"spinlocks":[],"version":1}
"#;

const THIRD: &str = r#"
// A separate core is cut out of a configuration with other cores.
text {"cap":2,"cores":[{"id":0,"start":[1,9],"tasks":[{"name":"A","prio":2,"script":"ActivateTask B;ActivateTask ?"}]},{"id":1,"start":[2],"tasks":[{"name":"B","prio":1,"script":""}]},{"id":2,"tasks":[{"name":"V","prio":1,"auto":["M"],"script":"work;ActivateTask V;ActivateTask ?;TerminateTask"}]},{"id":3}]}
is {"cap":2,"cores":[{"alarms":[],"counters":[],"id":2,"isrs":[],"mode":"M","protection":"PRO_SHUTDOWN","resources":[],"start":[],"tables":[],"tasks":[{"activations":1,"auto":["M"],"budget":0,"extended":false,"name":"V","preemptable":true,"prio":1,"script":"work;ActivateTask V;ActivateTask ?;TerminateTask"}]}],"master":2,"modes":["M"],"spinlocks":[],"version":1}
"#;

const LAST: &str = r#"
// The configuration of a core alone has the same version.
text {"version":2,"cores":[{"id":0,"start":[15]},{"id":15}]}
is {"cap":16,"cores":[{"alarms":[],"counters":[],"id":15,"isrs":[],"mode":"M","protection":"PRO_SHUTDOWN","resources":[],"start":[],"tables":[],"tasks":[]}],"master":15,"modes":["M"],"spinlocks":[],"version":2}
"#;

#[test]
fn texts_are_written_as_their_tables_say(rt: HostRuntime) -> Result<(), Fail> {
    play(&rt, rt.alloc(), Reader::Written, "@", WRITTEN, 5)?;
    play(&rt, rt.alloc(), Reader::Written, "@", SAME, 1)?;
    play(&rt, rt.alloc(), Reader::Alone(0), "@", LONE, 9)?;
    play(&rt, rt.alloc(), Reader::Alone(1), "@", SECOND, 2)?;
    play(&rt, rt.alloc(), Reader::Alone(2), "@", THIRD, 1)?;
    play(&rt, rt.alloc(), Reader::Alone(15), "@", LAST, 1)
}
