//! Jobs at the limits of what is accepted: each is done.

use osplay::{Difference, play_table};

const RUNS: &str = r##"
// Eight cores, all started by the first, each with 32 tasks. Each task may have two jobs at once, and has a name of 128
// characters and a script of 256 operations.
config {"version":1,"cap":16,"master":0,"cores":[{"id":0,"start":[1,2,3,4,5,6,7],"tasks":[{"name":"<124*N>_000","prio":31,"activations":2,"auto":["M"],"script":"<255*work;>TerminateTask"}<31%,{"name":"<124*N>_0%","prio":31,"activations":2,"auto":[],"script":"<255*work;>TerminateTask"}>]}<7#,{"id":#,"start":[],"tasks":[{"name":"<124*N>_#00","prio":31,"activations":2,"auto":["M"],"script":"<255*work;>TerminateTask"}<31%,{"name":"<124*N>_#%","prio":31,"activations":2,"auto":[],"script":"<255*work;>TerminateTask"}>]}>]}
check
ok
core 0 bound
<7#core # separate
>
// Each core has as many stimuli as its job has operations.
stimuli {"0":"op<255* op>"<7#,"#":"op<255* op>">}
run
core 0
<7#start # E_OK
>hook Startup
act <124*N>_000
pre <124*N>_000 .. end <124*N>_000
<7#core #
hook Startup
act <124*N>_#00
pre <124*N>_#00 .. end <124*N>_#00
>ended

// More rounds than the run needs. In each round every core serves the others, makes its own turn and looks.
turns "0o<300* 0s1 0s2 0s3 0s4 0s5 0s6 0s7 0o 0l 1s0 1s2 1s3 1s4 1s5 1s6 1s7 1o 1l 2s0 2s1 2s3 2s4 2s5 2s6 2s7 2o 2l 3s0 3s1 3s2 3s4 3s5 3s6 3s7 3o 3l 4s0 4s1 4s2 4s3 4s5 4s6 4s7 4o 4l 5s0 5s1 5s2 5s3 5s4 5s6 5s7 5o 5l 6s0 6s1 6s2 6s3 6s4 6s5 6s7 6o 6l 7s0 7s1 7s2 7s3 7s4 7s5 7s6 7o 7l>"
run
as before

// All eight tables of core 0 act on core 1 at one count, so that core 0 posts as many envelopes at once as it may. The
// task of core 1 may have as many jobs as a core may have.
config {"cores":[{"id":0,"start":[1],"counters":[{"name":"C","max":9}],"tables":[{"name":"P0","counter":"C","duration":1,"auto":{"modes":["M"],"offset":1},"points":[{"offset":0,"actions":["ActivateTask B"<6*,"ActivateTask B">]}]}<7#,{"name":"P#","counter":"C","duration":1,"auto":{"modes":["M"],"offset":1},"points":[{"offset":0,"actions":["ActivateTask B"<6*,"ActivateTask B">]}]}>]},{"id":1,"tasks":[{"name":"B","prio":1,"activations":64,"script":"TerminateTask"}]}]}
stimuli {"0":"tick"}
run
core 0
start 1 E_OK
hook Startup
tick
point P0 0
<7*out 1 ActivateTask B
><7#point P# 0
<7*out 1 ActivateTask B
>>core 1
hook Startup
act B
in 0 ActivateTask B E_OK
pre B
<55*act B
in 0 ActivateTask B E_OK
>ended

turns "0o<300* 0l 1s0 1o 1l 0o>"
run
as before

// A configuration that may post one envelope more at once is refused.
config {"cores":[{"id":0,"start":[1],"counters":[{"name":"C","max":9}],"tables":[{"name":"P0","counter":"C","duration":1,"auto":{"modes":["M"],"offset":1},"points":[{"offset":0,"actions":["ActivateTask B"<6*,"ActivateTask B">]}]}<6#,{"name":"P#","counter":"C","duration":1,"auto":{"modes":["M"],"offset":1},"points":[{"offset":0,"actions":["ActivateTask B"<6*,"ActivateTask B">]}]}>,{"name":"P7","counter":"C","duration":1,"auto":{"modes":["M"],"offset":1},"points":[{"offset":0,"actions":["ActivateTask B"<7*,"ActivateTask B">]}]}]},{"id":1,"tasks":[{"name":"B","prio":1,"activations":64,"script":"TerminateTask"}]}]}
check
fault 3 Limit

// A job suspends interrupts 300 times, but only 255 times are counted. Then it resumes them again and again. After each
// 100 of these operations it prints a variable. The interrupt comes while interrupts are suspended.
config {"cores":[{"id":0,"isrs":[{"name":"I","level":1,"script":"work"}],"tasks":[{"name":"A","prio":1,"auto":["M"],"script":"set v0 -3;<100*SuspendAllInterrupts;>add v0 1;jz v0 104;jump 1;<100*ResumeAllInterrupts;>add v1 1;jump 104"}]}]}
// Each of the three rounds of suspensions has two more operations, and a jump unless it is the last round. Each of the
// two rounds of resumptions has two more. The last 54 operations resume interrupts.
stimuli {"0":"op op irq=I<307* op><204* op><54* op>"}
run
core 0 .. pre A
var A v0 -3
irq I
var A v0 -2
var A v0 -1
var A v0 0
var A v1 1
var A v1 2
ended

// One more operation resumes the last of the 255 suspensions.
stimuli {"0":"op op irq=I<307* op><204* op><55* op>"}
run
as before up to var A v1 2
enter I
ended
"##;

#[test]
fn jobs_at_the_limits_print_their_texts(rt: HostRuntime) -> Result<(), Difference> {
    play_table(&rt, rt.alloc(), RUNS, 8)
}
