//! `check` and `cut`: how the cores of a configuration are coupled, and the configuration of a separate core
//! alone.

ghost use Rattle.std.specs.Prelude.{◌≡◌, ◌<◌, ◌≤◌, ◌^◌, ◌++◌, IfErr, IfOk, codes, length, max, string_bytes};
ghost use Rattle.std.specs.List.{flat_map};
ghost use Rattle.ostrace.specs.Taken.{Writes};
ghost use Rattle.osrun.specs.Fits.{ids_of};
ghost use Rattle.osjob.specs.Checks.{check_text, core_text, coupling_line, coupling_word, line_at};
ghost use Rattle.osjob.specs.Performs.{PrintsFrom, HasNoConfig, HasNoCut, IsCheckOutput, IsCutOf, IsCutOutput, IsNotCut, NoFault};

use crate::endings::written;
use crate::faults::Fault;
use crate::outcomes::Outcome;
use crate::readings::config_in;
use crate::sources::Source;
use osbase::{CORE_NUMBERS, CoreId};
use osconf::{Config, Coupling, config_text, coupling_of, cut};
use ostrace::{Sink, Word, WriteFailed, write_all, write_ended_words};
use std::alloc::Global;

/// Prints `ok`, and for each configured core by ascending number whether it is separate, bound or off.
pub fn check<S: Source, O: Sink>(
    alloc: Global,
    source: &mut S,
    out: &mut O,
) -> Result<Outcome, Fault>
    requires { O.failed out.old < 2 ^ 48 }
    ensures comes { PrintsFrom O.taken O.failed out.old out.new (NoFault (IsCheckOutput (S.files source.new)))
        (HasNoConfig (S.files source.new)) (S.files source.new) (S.count source.new) result }
    ensures ahead { length (S.files source.new) ≤ max (length (S.files source.old)) 1 }
    ensures count { S.count source.new ≡ S.count source.old }
    ensures known { S.known source.new ≡ S.known source.old }
{
    let config = config_in(alloc, source)?;
    written(write_check(&config, out), Ok(Outcome::Done))
}

// Writes the line `ok`, and the line of each configured core.
fn write_check<O: Sink>(config: &Config, out: &mut O) -> Result<(), WriteFailed>
    requires { O.failed out.old < 2 ^ 48 }
    ensures { Writes O.taken O.failed out.old out.new (check_text config.now) result }
{
    write_all(out, b"ok\n")?;
    write_couplings(config, out)
}

// Writes the line of each configured core, by ascending number.
fn write_couplings<O: Sink>(config: &Config, out: &mut O) -> Result<(), WriteFailed>
    requires { O.failed out.old < 2 ^ 48 }
    ensures { Writes O.taken O.failed out.old out.new (flat_map (coupling_line config.now) (ids_of config.now)) result }
{
    for number in 0..CORE_NUMBERS {
        write_coupling(config, out, CoreId { number })?;
    }
    Ok(())
}

// Writes the line of the core, or nothing if the core is not configured.
fn write_coupling<O: Sink>(config: &Config, out: &mut O, core: CoreId) -> Result<(), WriteFailed>
    requires { O.failed out.old < 2 ^ 48 }
    ensures { Writes O.taken O.failed out.old out.new (line_at config.now core) result }
{
    if config.plan().core(core).is_none() {
        return Ok(());
    }
    write_core(out, core, coupling_of(config, core))
}

// Writes the line that says how the core is coupled.
fn write_core<O: Sink>(out: &mut O, core: CoreId, coupling: Coupling) -> Result<(), WriteFailed>
    requires { O.failed out.old < 2 ^ 48 }
    ensures { Writes O.taken O.failed out.old out.new (core_text core coupling) result }
{
    let number = Word::Whole(u32::from(core.number));
    write_ended_words(out, "core", &[number, Word::Text(word_of(coupling))])
}

// The printed word of a coupling.
fn word_of(coupling: Coupling) -> &'static str
    ensures { result.now ≡ coupling_word coupling }
{
    match coupling {
        Coupling::Separate => "separate",
        Coupling::Bound => "bound",
        Coupling::Off => "off",
    }
}

/// Prints the configuration of a separate core alone. If the core is not separate, the fault is `NotSeparate`.
pub fn cut_out<S: Source, O: Sink>(
    alloc: Global,
    core: CoreId,
    source: &mut S,
    out: &mut O,
) -> Result<Outcome, Fault>
    requires { O.failed out.old < 2 ^ 48 }
    ensures comes { PrintsFrom O.taken O.failed out.old out.new (NoFault (IsCutOutput core (S.files source.new)))
        (HasNoCut core (S.files source.new)) (S.files source.new) (S.count source.new) result }
    ensures ahead { length (S.files source.new) ≤ max (length (S.files source.old)) 1 }
    ensures count { S.count source.new ≡ S.count source.old }
    ensures known { S.known source.new ≡ S.known source.old }
{
    let config = config_in(alloc, source)?;
    let text = text_of_cut(alloc, &config, core)?;
    written(write_line(out, text.as_str()), Ok(Outcome::Done))
}

// The text of a separate core's own configuration. If the core is not separate, the fault is `NotSeparate`.
fn text_of_cut(alloc: Global, config: &Config, core: CoreId) -> Result<String, Fault>
    ensures ok { IfOk result (λ text. IsCutOf config.now core (string_bytes text)) }
    ensures fault { IfErr result (IsNotCut config.now core) }
{
    let cut = cut(alloc, config, core)?;
    Ok(config_text(alloc, &cut)?)
}

/// Writes a text and a line end.
pub fn write_line<O: Sink>(out: &mut O, text: &str) -> Result<(), WriteFailed>
    requires { O.failed out.old < 2 ^ 48 }
    ensures { Writes O.taken O.failed out.old out.new (text.now ++ codes "\n") result }
{
    write_all(out, text.as_bytes())?;
    write_all(out, b"\n")
}
