//! Tables of worked examples, played line by line.

use crate::differences::Difference;
use crate::repeats::written_out;
use crate::scenes::{Block, Scene};
use std::alloc::Global;
use std::mem;
use std::sync::Wait;
use std::thread::Threads;

/// Plays the table, once its repeated parts are written out, and checks its number of jobs.
pub fn play_table(
    rt: &(impl Threads + Wait + Sync),
    alloc: Global,
    table: &str,
    jobs: usize,
) -> Result<(), Difference> {
    let text = written_out(alloc, table)?;
    let played = play(rt, alloc, text.as_str())?;
    if played != jobs {
        return Err(Difference::Jobs(played));
    }
    Ok(())
}

// Plays a table, and counts the jobs that were done. Between blocks a line that is empty or begins with `//` says
// nothing, and the others are:
// `config C`: the configuration of the jobs behind it, without stimuli, turns and log. Without a C it is what the job
// before printed.
// `stimuli S`: their stimuli, without turns and log.
// `turns T`: their schedule, in place of the default one.
// `with V|V|..`: a job whose configuration or log has an `@` is done once for each V in its place.
// Any other line heads a block, which goes up to an empty line:
// `log`: the log of the jobs behind it. `log open`: one without its last line end. `first`: what each log begins with,
// up to the next configuration.
// `run`, `items CORE`, `replay CORE`, `check`, `cut CORE`, `groups`, `group CORE`, `threads TURNS`, `threads TURNS
// CORE` or
// `threads TURNS order`: a job, and what it prints. `threads locked ..`: with locked mailboxes in place of rings.
// A last line `fault ..` is reported, and the job exits with 1; else it exits with 0, or with the N of `JOB -> N`. What
// `items` prints is the log of the jobs behind it.
// A part `<3*T>` stands for three T (`repeats.rt`), and in a block one line may stand for several:
// `A .. B`: A, the lines that each run has between them, and B. Behind `core 0` or `start 1 E_OK`, `hook Startup`; if B
// is `pre T`, also `act T`. Behind `on` or `began 1 E_OK`, `entered`, `pass1 M` and `readied`; behind `entered`, the
// last two. Behind `drained`, `passend`. Behind `pre T`, if B is `end T` or `wait T M`, `post T`.
// `as before`, alone: the block of the job before, or under `log` the log before, without what is `first`.
// `as run`, alone: what the last `run` printed, or under a `replay` only the block of the replayed core.
// `as before up to L`, `as run up to L`: the lines of that block up to the last line L, with this line.
// `as before from L`, `as run from L`: the lines of that block from the first line L on.
fn play(
    rt: &(impl Threads + Wait + Sync),
    alloc: Global,
    table: &str,
) -> Result<usize, Difference> {
    let mut scene = Scene::new(alloc);
    let mut head = None;
    let mut block = Block::new(alloc);
    let mut jobs = 0usize;
    for line in table.split('\n') {
        match head {
            None => head = scene.read(alloc, line)?,
            Some(_) if !line.is_empty() => block.push(line)?,
            Some(ended) => {
                let full = mem::replace(&mut block, Block::new(alloc));
                let more = scene.close(rt, alloc, ended, full)?;
                jobs = jobs.saturating_add(more);
                head = None;
            }
        }
    }
    Ok(jobs)
}

/// The first configuration of a table, and the first stimuli.
pub fn given(table: &str) -> Result<(&str, &str), Difference> {
    let config = first_of(table, "config ").ok_or("a configuration")?;
    let stimuli = first_of(table, "stimuli ").ok_or("stimuli")?;
    Ok((config, stimuli))
}

// What follows this word in the first line that begins with it.
fn first_of<'a>(table: &'a str, word: &str) -> Option<&'a str> {
    table.lines().find_map(|line| line.strip_prefix(word))
}
