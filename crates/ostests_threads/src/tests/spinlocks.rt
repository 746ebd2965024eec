//! Tables of spinlocks that are run by lists, by threads and by logs.

/// A spinlock that is given back for a job that ended.
pub const OWED: &str = r#"
// Task A of core 0 ends with the spinlock, and task B of core 1 gets it.
config {"spinlocks":[{"name":"S"}],"cores":[{"id":0,"start":[1],"tasks":[{"name":"A","prio":1,"auto":["M"],"script":"GetSpinlock S;work"}]},{"id":1,"tasks":[{"name":"B","prio":1,"auto":["M"],"script":"GetSpinlock S;ReleaseSpinlock S;TerminateTask"}]}]}
stimuli {"0":"op op op","1":"op op op"}
run
core 0
start 1 E_OK .. pre A
stat A GetSpinlock E_OK
hook Error E_OS_MISSINGEND
post A
end A
core 1 .. pre B
stat B GetSpinlock E_OK
stat B ReleaseSpinlock E_OK
post B
end B
ended

threads 1000000000
as before

threads locked 1000000000
as before

items 1
on .. pass2 0 1
stim op
granted S
stim op
freed S
stim op
drained .. last

replay 1
as run

items 0
began 1 E_OK .. pass2 0 1
stim op
granted S
stim op
stim op
freed S
drained .. last

replay 0
as run

// Before the answer to a ReleaseSpinlock no other item is taken, not even a halt.
first
on .. pass2 0 1
stim op

log
granted S
stim op
@

with halt 0 E_OK|stim op|granted S
replay 1
core 1 .. pre B
stat B GetSpinlock E_OK
fault 15 ItemRefused 9

log
granted S
stim op
freed S
halt 0 E_OK

replay 1
as run up to stat B ReleaseSpinlock E_OK
halt 0 E_OK

// The spinlock of an ended job is given back before anything else.
first
began 1 E_OK .. pass2 0 1
stim op

log
granted S
stim op
stim op
@

with stim op|halt 1 E_OK|drained
replay 0
as run up to end A
fault 15 ItemRefused 10

log
as before up to stim op
freed S
freed S

replay 0
as before up to end A
fault 15 ItemRefused 11

log
as before up to stim op
freed S
halt 1 E_OK

replay 0
as before up to end A
halt 1 E_OK

// While the job runs, it keeps its spinlock; so does a core that has drained.
log
granted S
freed S

replay 0
as before up to stat A GetSpinlock E_OK
fault 15 ItemRefused 8

log
granted S
drained
freed S

replay 0
as before up to stat A GetSpinlock E_OK
fault 15 ItemRefused 9

log
granted S
drained .. last 1 E_OS_ID

replay 0
as before up to stat A GetSpinlock E_OK
hook Shutdown E_OS_ID

// A log is bad if the line of a spinlock is not in form, or names no spinlock.
first

log open
@

with granted|granted X|granted A|granted M|granted ?|granted S S|granted  S
replay 0
fault 14 BadLog

with tried S|tried S 2|tried S 01|tried S -1|tried S E_OK|tried 1 S
replay 0
fault 14 BadLog

with freed|freed 0|freed S 1|Freed S
replay 0
fault 14 BadLog
"#;

/// A spinlock that three cores take.
pub const SHARED: &str = r#"
// Three cores that take and give back one spinlock, each of them twice.
config {"spinlocks":[{"name":"S"}],"cores":[{"id":0,"start":[1,2],"tasks":[{"name":"A","prio":1,"auto":["M"],"script":"GetSpinlock S;ReleaseSpinlock S;jump 0"}]},{"id":1,"tasks":[{"name":"B","prio":1,"auto":["M"],"script":"GetSpinlock S;ReleaseSpinlock S;jump 0"}]},{"id":2,"tasks":[{"name":"C","prio":1,"auto":["M"],"script":"GetSpinlock S;ReleaseSpinlock S;jump 0"}]}]}
stimuli {"0":"op op op op op op","1":"op op op op op op","2":"op op op op op op"}
run
core 0
start 1 E_OK
start 2 E_OK .. pre A
<2*stat A GetSpinlock E_OK
stat A ReleaseSpinlock E_OK
>core 1 .. pre B
<2*stat B GetSpinlock E_OK
stat B ReleaseSpinlock E_OK
>core 2 .. pre C
<2*stat C GetSpinlock E_OK
stat C ReleaseSpinlock E_OK
>ended

threads 1000000000
as before

threads locked 1000000000
as before
"#;
