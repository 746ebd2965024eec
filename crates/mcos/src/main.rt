//! `mcos`: a multicore AUTOSAR OS kernel, simulated.
#![tactic(auto)]

use osjob::{Fault, NoWords, answer, report_ending};
use ostrace::WriteSink;
use std::alloc::AllocError;
use std::env;
use std::io::{BufWriter, ErrorKind};
use std::process::ExitCode;

/// How many bytes of output are gathered before they are written. The lines of reports come in larger pieces, which are
/// written as they are.
const BUFFER: usize = 8192;

fn main(rt: HostRuntime) -> ExitCode {
    let mut err = WriteSink::new(rt.stderr());
    let status = match BufWriter::with_capacity(rt.alloc(), BUFFER, rt.stdout()) {
        Ok(writer) => answer(&rt, words_of(&rt), &mut WriteSink::new(writer), &mut err),
        Err(_) => report_ending(Err(Fault::from(AllocError)), &mut err),
    };
    ExitCode::from(status)
}

// The words of the command line, the program's name first.
fn words_of(rt: &HostRuntime) -> Result<Vec<String>, NoWords> {
    match env::args(rt) {
        Ok(args) => Ok(args.collect(rt.alloc())?),
        Err(error) if error.kind() == ErrorKind::OutOfMemory => Err(NoWords::NoMemory),
        Err(_) => Err(NoWords::NotText),
    }
}
