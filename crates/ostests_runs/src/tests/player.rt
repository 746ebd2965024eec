//! The player of the other tests' tables: a right table passes, and a wrong table is refused with the reason.

use osplay::{Difference, play_table, same};
use std::alloc::Global;
use std::sync::Wait;
use std::test::Fail;
use std::thread::Threads;

const CONFIG: &str = r#"config {"cores":[{"id":0}]}"#;

const RIGHT: &str = "check\nok\ncore 0 separate\n";

/// The run of the core, and its log, in each of the short forms; then two jobs, of which one ends and one waits.
const SHORT: &str = r#"stimuli {}
run
core 0 .. ended

run
as before

run
as run up to hook Startup
ended

run
core 0
as before from hook Startup

items 0
entered .. pass2 0
drained .. last

log
as before up to readied
pass2 0
as before from drained

replay 0
as run

config {"cores":[{"id":0,"tasks":[{"name":"A","prio":1,"auto":["M"],"script":"TerminateTask"},{"name":"W","prio":1,"extended":true,"auto":["M"],"script":"WaitEvent 1"}]}]}
stimuli {"0":"op op"}
run
core 0 .. act A
act W
pre A .. end A
pre W .. wait W 1
ended
"#;

// Plays the table of `CONFIG` and these blocks, and expects this number of jobs.
fn play_block(
    rt: &(impl Threads + Wait + Sync),
    alloc: Global,
    block: &str,
    jobs: usize,
) -> Result<(), Difference> {
    let table = format!(in alloc; "{CONFIG}\n{block}")?;
    play_table(rt, alloc, table.as_str(), jobs)
}

#[test]
fn a_right_table_passes(rt: HostRuntime) -> Result<(), Fail> {
    play_block(&rt, rt.alloc(), RIGHT, 1)?;
    play_block(&rt, rt.alloc(), SHORT, 7)?;
    Ok(())
}

#[test]
fn a_wrong_table_is_refused(rt: HostRuntime) -> Result<(), Fail> {
    let alloc = rt.alloc();
    let examples = [
        // Another count of jobs.
        (RIGHT, 2, "Jobs(1)"),
        // Another line, of the same length.
        (
            "check\nok\ncore 1 separate\n",
            1,
            r#"Line("check : line 1 is `core 0 separate` in place of `core 1 separate`")"#,
        ),
        // One line too few, and one too many.
        (
            "check\nok\n",
            1,
            r#"Line("check : line 1 is `core 0 separate` in place of `and reports`")"#,
        ),
        (
            "check\nok\ncore 0 separate\ncore 1 off\n",
            1,
            r#"Line("check : line 2 is `and reports` in place of `core 1 off`")"#,
        ),
        // Another status.
        (
            "check -> 3\nok\ncore 0 separate\n",
            1,
            r#"Line("check -> 3 : line 3 is `and exits with 0` in place of `and exits with 3`")"#,
        ),
        // A fault that is not reported.
        (
            "check\nok\ncore 0 separate\nfault 1 NotJson\n",
            1,
            r#"Line("check : line 3 is `and exits with 0` in place of `fault 1 NotJson`")"#,
        ),
        // Another line behind those of an earlier block, one of those too few, and one too many.
        (
            "check\nok\ncore 0 separate\n\ncheck\nas before up to core 0 separate\ncore 1 off\n",
            2,
            r#"Line("check : line 2 is `and reports` in place of `core 1 off`")"#,
        ),
        (
            "stimuli {}\nrun\ncore 0 .. ended\n\nrun\nas run from hook Startup\n",
            2,
            r#"Line("run : line 0 is `core 0` in place of `hook Startup`")"#,
        ),
        (
            "stimuli {}\nrun\ncore 0 .. ended\n\nrun\nas run up to ended\nended\n",
            2,
            r#"Line("run : line 3 is `and reports` in place of `ended`")"#,
        ),
        // Other lines than those that `..` stands for.
        (
            "stimuli {}\nrun\ncore 0 .. pre A\nended\n",
            1,
            r#"Line("run : line 2 is `ended` in place of `act A`")"#,
        ),
        // An earlier block with a fault that is not reported again, a line that it does not have, and no such block.
        (
            "check\nok\ncore 0 separate\n\ncheck\nas before\nfault 1 NotJson\n",
            2,
            r#"Line("check : line 0 is `ok` in place of `as before`")"#,
        ),
        (
            "check\nok\ncore 0 separate\n\ncheck\nas before up to core 1 off\n",
            2,
            r#"Lacks("the line from which or up to which a block is repeated")"#,
        ),
        (
            "check\nas ever up to ok\n",
            1,
            r#"Lacks("an earlier block")"#,
        ),
        (
            "check\nok .. core 0 separate\n",
            1,
            r#"Lacks("a line that `..` may follow")"#,
        ),
        // A job that does not exist, and no job at all.
        ("walk\nok\ncore 0 separate\n", 1, r#"Lacks("a job")"#),
        ("", 1, "Jobs(0)"),
    ];
    for (block, jobs, why) in examples.as_slice() {
        let Err(difference) = play_block(&rt, alloc, block, *jobs) else {
            return Err(Fail::new("a wrong table passes"));
        };
        let text = format!(in alloc; "{difference:?}")?;
        same(alloc, block, text.as_str(), why)?;
    }
    Ok(())
}
