//! What jobs and reports print, each in one text, and the first line of a text that is not as expected.

ghost use Rattle.std.specs.Prelude.{◌≡◌, IfOk, OnOk, string_bytes};
ghost use Rattle.ostrace_text.specs.Trace.{text_of};

use crate::differences::Difference;
use crate::files::files_of;
use osbase::Report;
use oscommand::Job;
use osjob::perform;
use osplan::Config;
use ostrace::{MemorySink, write_reports};
use std::alloc::{AllocError, Global};
use std::sync::Wait;
use std::thread::Threads;

/// Does the job over these texts. Checks that it prints `out`, reports `err`, and exits with `status`.
pub fn compare(
    rt: &(impl Threads + Wait + Sync),
    alloc: Global,
    job: &Job,
    texts: &[Option<&str>],
    (out, err, status): (&str, &str, u8),
) -> Result<(), Difference> {
    let text = result_of(rt, alloc, job, texts)?;
    let due = result_text(alloc, out, err, status)?;
    same(alloc, "", text.as_str(), due.as_str())
}

/// The result of a job over these texts, as `result_text` writes it.
pub fn result_of(
    rt: &(impl Threads + Wait + Sync),
    alloc: Global,
    job: &Job,
    texts: &[Option<&str>],
) -> Result<String, Difference> {
    let files = files_of(alloc, texts)?;
    result_over(rt, alloc, job, files.as_slice())
}

/// The result of a job over these files, as `result_text` writes it.
pub fn result_over(
    rt: &(impl Threads + Wait + Sync),
    alloc: Global,
    job: &Job,
    files: &[Option<Vec<u8>>],
) -> Result<String, Difference> {
    let mut out = MemorySink::new(Vec::new(alloc));
    let mut err = MemorySink::new(Vec::new(alloc));
    let status = perform(rt, alloc, job, files, &mut out, &mut err);
    result_from(alloc, out.bytes, err.bytes, status)
}

/// The result of a job that printed `out`, reported `err`, and exits with `status`, as `result_text` writes it.
pub fn result_from(
    alloc: Global,
    out: Vec<u8>,
    err: Vec<u8>,
    status: u8,
) -> Result<String, Difference> {
    let out = text_from(out)?;
    let err = text_from(err)?;
    Ok(result_text(alloc, out.as_str(), err.as_str(), status)?)
}

/// What a job prints, what it reports, and how it exits, in one text.
pub fn result_text(alloc: Global, out: &str, err: &str, status: u8) -> Result<String, AllocError> {
    format!(in alloc; "{out}and reports\n{err}and exits with {status}")
}

/// The blocks of the reports, in one text.
pub fn blocks_of(alloc: Global, config: &Config, reports: &[Report]) -> Result<String, Difference>
    ensures { IfOk result (λ text. string_bytes text ≡ text_of config.now reports.now) }
{
    let mut out = MemorySink::new(Vec::new(alloc));
    write_reports(config, &mut out, reports)?;
    text_from(out.bytes)
}

// The text of these bytes.
fn text_from(bytes: Vec<u8>) -> Result<String, Difference>
    ensures { IfOk result (λ text. string_bytes text ≡ bytes.items) }
{
    match String::from_utf8(bytes) {
        Ok(text) => Ok(text),
        Err(_error) => Err(Difference::Lacks("a text")),
    }
}

/// Checks that the text is `due`. If it is not, the difference names `job` and the first line that is not as expected.
pub fn same(alloc: Global, job: &str, text: &str, due: &str) -> Result<(), Difference>
    ensures { OnOk result (text.now ≡ due.now) }
{
    if text == due {
        return Ok(());
    }
    Err(Difference::Line(line_apart(alloc, job, text, due)?))
}

// Says which line of the text is the first that is not as expected, or that the last lines are missing.
fn line_apart(alloc: Global, job: &str, text: &str, due: &str) -> Result<String, AllocError> {
    let mut lines = due.split('\n');
    for (at, line) in text.split('\n').enumerate() {
        let wanted = lines.next().unwrap_or("no line");
        if line != wanted {
            return format!(in alloc; "{job}: line {at} is `{line}` in place of `{wanted}`");
        }
    }
    format!(in alloc; "{job}: the last lines are missing")
}
