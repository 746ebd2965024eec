//! The files of a table's jobs, and the blocks of what they print.

use crate::differences::Difference;
use crate::files::file_of;
use crate::jobs::job_of;
use crate::prints::{result_over, result_text, same};
use crate::shorts::{push_in_full, push_part, repeat_of};
use oscommand::Job;
use std::alloc::{AllocError, Global};
use std::sync::Wait;
use std::thread::Threads;

/// The files of a table's jobs, and what the job before and the last run printed.
#[derive(Drop)]
pub struct Scene<'a> {
    config: Option<String>,
    stimuli: Option<&'a str>,
    turns: Option<&'a str>,
    log: Option<String>,
    // The lines of the last log, and what each log begins with.
    logged: String,
    first: String,
    // The values that replace an `@`, one after the other, with `|` between them.
    values: &'a str,
    before: Block,
    ran: String,
}

/// The lines of a block. What is reported begins with the line of a fault.
#[derive(Drop)]
pub struct Block {
    printed: String,
    reported: String,
}

impl Block {
    pub fn new(alloc: Global) -> Block {
        Block {
            printed: String::new(alloc),
            reported: String::new(alloc),
        }
    }

    fn copied(&self, alloc: Global) -> Result<Block, AllocError> {
        Ok(Block {
            printed: String::from_str(alloc, self.printed.as_str())?,
            reported: String::from_str(alloc, self.reported.as_str())?,
        })
    }

    /// Adds a line, or the lines that it stands for. From the line of a fault on, lines are reported, not printed.
    pub fn push(&mut self, line: &str) -> Result<(), Difference> {
        let text = if self.reported.is_empty() && !line.starts_with("fault ") {
            &mut self.printed
        } else {
            &mut self.reported
        };
        push_in_full(text, line)
    }
}

impl<'a> Scene<'a> {
    pub fn new(alloc: Global) -> Scene<'a> {
        Scene {
            config: None,
            stimuli: None,
            turns: None,
            log: None,
            logged: String::new(alloc),
            first: String::new(alloc),
            values: "",
            before: Block::new(alloc),
            ran: String::new(alloc),
        }
    }

    /// Reads a line between blocks. If the line heads a block, returns the line.
    pub fn read(&mut self, alloc: Global, line: &'a str) -> Result<Option<&'a str>, AllocError> {
        let (word, rest) = line.split_once(' ').unwrap_or((line, ""));
        match word {
            "" | "//" => {}
            "config" => self.configure(alloc, rest)?,
            "stimuli" => {
                self.stimuli = Some(rest);
                self.turns = None;
                self.log = None;
            }
            "turns" => self.turns = Some(rest),
            "with" => self.values = rest,
            _ => return Ok(Some(line)),
        }
        Ok(None)
    }

    // Takes this configuration, or, without a text, what the job before printed. Forgets the other files and `first`.
    fn configure(&mut self, alloc: Global, text: &str) -> Result<(), AllocError> {
        let text = if text.is_empty() {
            self.before.printed.as_str()
        } else {
            text
        };
        self.config = Some(String::from_str(alloc, text)?);
        self.stimuli = None;
        self.turns = None;
        self.log = None;
        self.first.clear();
        Ok(())
    }

    /// Takes a block that has ended. Under `first` it is what each log begins with, under `log` the lines of a log.
    /// Under the name of a job it is the expected result: does that job. Answers how many jobs were done.
    pub fn close(
        &mut self,
        rt: &(impl Threads + Wait + Sync),
        alloc: Global,
        head: &str,
        block: Block,
    ) -> Result<usize, Difference> {
        match head {
            "first" => self.first = block.printed,
            "log" | "log open" => {
                self.logged = self.in_full(alloc, head, block)?.printed;
                self.log = Some(self.log_under(alloc, head)?);
            }
            job => {
                self.before = self.in_full(alloc, job, block)?;
                return self.play_job(rt, alloc, job);
            }
        }
        Ok(0)
    }

    // The text of the log under this head: what each log begins with, and then the lines of the last log. Under
    // `log open` it has no last line end.
    fn log_under(&self, alloc: Global, head: &str) -> Result<String, Difference> {
        let lines = self.logged.as_str();
        let lines = if head == "log open" {
            lines.strip_suffix('\n').ok_or("a line")?
        } else {
            lines
        };
        let mut log = String::from_str(alloc, self.first.as_str())?;
        log.push_str(lines)?;
        Ok(log)
    }

    // Does the job of a head for each value, and compares each result with the block. Keeps what `run` or `items`
    // prints. Answers how many jobs were done.
    fn play_job(
        &mut self,
        rt: &(impl Threads + Wait + Sync),
        alloc: Global,
        head: &str,
    ) -> Result<usize, Difference> {
        let mut jobs = 0usize;
        for value in self.values().split('|') {
            self.play_once(rt, alloc, head, value)?;
            jobs = jobs.saturating_add(1);
        }
        let printed = self.before.printed.as_str();
        if head.starts_with("items ") {
            self.logged = String::from_str(alloc, printed)?;
            self.log = Some(String::from_str(alloc, printed)?);
        } else if head.starts_with("run") {
            self.ran = String::from_str(alloc, printed)?;
        }
        Ok(jobs)
    }

    // The block under a head, with the lines of earlier blocks that it repeats written out.
    fn in_full(&self, alloc: Global, head: &str, block: Block) -> Result<Block, Difference> {
        if block.reported.is_empty() {
            if let Some(words) = block.printed.strip_suffix('\n') {
                if let Some(earlier) = self.earlier(alloc, head, words)? {
                    return Ok(earlier);
                }
            }
        }
        let mut printed = String::new(alloc);
        for line in block.printed.lines() {
            self.push_repeated(alloc, head, &mut printed, line)?;
        }
        Ok(Block {
            printed,
            reported: block.reported,
        })
    }

    // Adds the lines of an earlier block that this line of a block stands for, or the line itself.
    fn push_repeated(
        &self,
        alloc: Global,
        head: &str,
        printed: &mut String,
        line: &str,
    ) -> Result<(), Difference> {
        if let Some((words, part)) = repeat_of(line) {
            let earlier = self.earlier(alloc, head, words)?.ok_or("an earlier block")?;
            return push_part(alloc, printed, earlier.printed.as_str(), part);
        }
        printed.push_str(line)?;
        Ok(printed.push_str("\n")?)
    }

    // The earlier block that `as before` or `as run` means under a head. None for other words.
    fn earlier(&self, alloc: Global, head: &str, words: &str) -> Result<Option<Block>, AllocError> {
        match words {
            "as before" if head.starts_with("log") => Ok(Some(Block {
                printed: String::from_str(alloc, self.logged.as_str())?,
                reported: String::new(alloc),
            })),
            "as before" => Ok(Some(self.before.copied(alloc)?)),
            "as run" => Ok(Some(self.as_run(alloc, head)?)),
            _ => Ok(None),
        }
    }

    // What the last run printed, or for a replay only the block of the replayed core.
    fn as_run(&self, alloc: Global, head: &str) -> Result<Block, AllocError> {
        let ran = self.ran.as_str();
        let printed = match head.strip_prefix("replay ") {
            Some(core) => block_of(alloc, ran, core)?,
            None => String::from_str(alloc, ran)?,
        };
        Ok(Block {
            printed,
            reported: String::new(alloc),
        })
    }

    // The values, if the configuration or the log has an `@` for them; else one empty value.
    fn values(&self) -> &'a str {
        if has_place(&self.config) || has_place(&self.log) {
            self.values
        } else {
            ""
        }
    }

    // Does the job of a head once, with this value, and compares its result with its block.
    fn play_once(
        &self,
        rt: &(impl Threads + Wait + Sync),
        alloc: Global,
        head: &str,
        value: &str,
    ) -> Result<(), Difference> {
        let (words, status) = head.split_once(" -> ").unwrap_or((head, "0"));
        let job = job_of(words, self.turns.map(|_| "turns.json")).ok_or("a job")?;
        let files = self.files(alloc, &job, value)?;
        let result = result_over(rt, alloc, &job, files.as_slice())?;
        let due = self.due(alloc, status.parse::<u8>().ok().ok_or("a status")?)?;
        let job = format!(in alloc; "{head} {value}")?;
        same(alloc, job.as_str(), result.as_str(), due.as_str())
    }

    // The expected result of the job. The job exits with this status, or with 1 if it reports a fault.
    fn due(&self, alloc: Global, status: u8) -> Result<String, AllocError> {
        let (printed, reported) = (self.before.printed.as_str(), self.before.reported.as_str());
        let status = if reported.is_empty() { status } else { 1 };
        result_text(alloc, printed, reported, status)
    }

    // The files of the job: the configuration, and then for a replay the log, for other jobs the stimuli and the turns.
    // If the configuration or the log has an `@`, the value replaces the first one.
    fn files(
        &self,
        alloc: Global,
        job: &Job,
        value: &str,
    ) -> Result<Vec<Option<Vec<u8>>>, AllocError> {
        let mut files = Vec::new(alloc);
        files.push(filled(alloc, &self.config, value)?)?;
        if let Job::Replay { .. } = job {
            files.push(filled(alloc, &self.log, value)?)?;
        } else {
            files.push(file_of(alloc, self.stimuli)?)?;
            files.push(file_of(alloc, self.turns)?)?;
        }
        Ok(files)
    }
}

// The block of a core in what a run printed. The run's last line belongs to no block.
fn block_of(alloc: Global, ran: &str, core: &str) -> Result<String, AllocError> {
    let heading = format!(in alloc; "core {core}")?;
    let mut block = String::new(alloc);
    let mut is_here = false;
    for line in ran.lines() {
        if line.starts_with("core ") || line == "ended" || line == "stalled" {
            is_here = line == heading.as_str();
        }
        if is_here {
            block.push_str(line)?;
            block.push_str("\n")?;
        }
    }
    Ok(block)
}

// Whether there is a text, and it has an `@`.
fn has_place(text: &Option<String>) -> bool {
    match text {
        Some(text) => text.contains('@'),
        None => false,
    }
}

// The file of a text. If the text has an `@`, the value replaces the first one.
fn filled(
    alloc: Global,
    text: &Option<String>,
    value: &str,
) -> Result<Option<Vec<u8>>, AllocError> {
    let Some(text) = text else {
        return Ok(None);
    };
    let Some((before, after)) = text.split_once('@') else {
        return file_of(alloc, Some(text.as_str()));
    };
    let filled = format!(in alloc; "{before}{value}{after}")?;
    Ok(Some(filled.into_bytes()))
}
