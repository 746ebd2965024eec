//! Which core gets a spinlock, and the logs of these runs.

use osplay::examples::{POLLING, REFUSED};
use osplay::{Difference, play_table};

const SERVING: &str = r#"
// Core 1 waits for the spinlock of core 0, which activates a task of core 1.
config {"spinlocks":[{"name":"S"}],"cores":[{"id":0,"start":[1],"tasks":[{"name":"A","prio":1,"auto":["M"],"script":"GetSpinlock S;ActivateTask H;ReleaseSpinlock S;TerminateTask"}]},{"id":1,"tasks":[{"name":"B","prio":1,"auto":["M"],"script":"GetSpinlock S;ReleaseSpinlock S;TerminateTask"},{"name":"H","prio":2,"script":"TerminateTask"}]}]}
stimuli {"0":"op op op op","1":"op op op op op"}
// While a core waits for a spinlock, it serves other cores. Once it has the spinlock, it dispatches.
run
core 0
start 1 E_OK .. pre A
stat A GetSpinlock E_OK
out 1 ActivateTask H
stat A ActivateTask E_OK
stat A ReleaseSpinlock E_OK
post A
end A
core 1 .. pre B
act H
in 0 ActivateTask H E_OK
stat B GetSpinlock E_OK
post B
pre H .. end H
pre B
stat B ReleaseSpinlock E_OK
post B
end B
ended

items 1
on .. pass2 0 1
stim op
in 0 0 req ActivateTask H
post 0
granted S
stim op
stim op
freed S
stim op
stim op
drained .. last

replay 1
as run

// In a run, the core posts its letters before it takes the spinlock. In a log, the items may come in either order.
log
on .. pass2 0 1
stim op
in 0 0 req ActivateTask H
granted S
post 0
stim op

replay 1
as before up to pre B
"#;

#[test]
fn spinlocks_are_got_as_the_logs_say(rt: HostRuntime) -> Result<(), Difference> {
    play_table(&rt, rt.alloc(), REFUSED, 24)?;
    play_table(&rt, rt.alloc(), SERVING, 4)?;
    play_table(&rt, rt.alloc(), POLLING, 3)
}
