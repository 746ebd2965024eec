//! Runs with cores that only version 2 of the configuration may have.

use osplay::sixteen::RING;
use osplay::{Difference, play_table};

const RUNS: &str = r#"
// A core with a number above 7, in a version other than 2.
config {@"cores":[{"id":0,"start":[9],"tasks":[{"name":"A","prio":1,"auto":["M"],"script":"ActivateTask B;TerminateTask"}]},{"id":9,"tasks":[{"name":"B","prio":1,"script":"TerminateTask"}]}]}
stimuli {"0":"op op"}
with |"version":1,|"version":3,
run
fault 3 Limit

// Numbers of two digits in stimuli, turns and logs.
config {"version":2,"cores":[{"id":0,"start":[15],"tasks":[{"name":"A","prio":1,"auto":["M"],"script":"ActivateTask B;TerminateTask"}]},{"id":15,"tasks":[{"name":"B","prio":1,"script":"TerminateTask"}]}]}
stimuli {"0":"op op","15":"op op"}
run
core 0
start 15 E_OK .. pre A
out 15 ActivateTask B
stat A ActivateTask E_OK
post A
end A
core 15 .. act B
in 0 ActivateTask B E_OK
pre B .. end B
ended

items 0
began 15 E_OK .. pass2 0 15
stim op
post 15
in 15 0 rep E_OK
stim op
drained .. last

replay 0
as run

items 15
on .. pass2 0 15
stim op
in 0 0 req ActivateTask B
post 0
stim op
drained .. last

replay 15
as run

turns "0o 15l 15o 0o 0l 15l 0o 15o 0l 15l 0o 0o 15s0 15o 0s15 15l 0o 15o 0o 15o 15o 0l 15l 0l 15l"
run
as run

// The configuration of a core alone has the same version.
config {"version":2,"cores":[{"id":0,"start":[12]},{"id":12,"tasks":[{"name":"V","prio":1,"auto":["M"],"script":"add v0 3;TerminateTask"}]}]}
check
ok
core 0 bound
core 12 separate

cut 12
{"cap":16,"cores":[{"alarms":[],"counters":[],"id":12,"isrs":[],"mode":"M","protection":"PRO_SHUTDOWN","resources":[],"start":[],"tables":[],"tasks":[{"activations":1,"auto":["M"],"budget":0,"extended":false,"name":"V","preemptable":true,"prio":1,"script":"add v0 3;TerminateTask"}]}],"master":12,"modes":["M"],"spinlocks":[],"version":2}

config
stimuli {"12":"op op"}
run
core 12 .. pre V
var V v0 3
post V
end V
ended
"#;

#[test]
fn cores_of_version_2_print_their_texts(rt: HostRuntime) -> Result<(), Difference> {
    play_table(&rt, rt.alloc(), RUNS, 12)?;
    play_table(&rt, rt.alloc(), RING, 1)
}
