//! Reading a job's files: the configuration, the stimuli, the schedule and the log.

ghost use Rattle.std.specs.Prelude.{◌≡◌, ◌≢◌, ◌<◌, ◌≤◌, IfOk, IfErr, IsSome, OnOk, length, max};
ghost use Rattle.std.specs.Result.{result_map_both};
ghost use Rattle.osplan.specs.{Stimuli.AreKnown, declared.faults.ConfFault.TheVariants.NoMemory, View.core_of};
ghost use Rattle.osinput.specs.Given.{schedule_faults, schedule_of_text, stimuli_faults, stimuli_of_text};
ghost use Rattle.osload.specs.Meaning.{config_of, faults_of};
ghost use Rattle.osjob.specs.Texts.{IsAsked, IsFaultOf, KeepsBelow, Means, bytes_at, text_at, text_or};
ghost use Rattle.osjob.specs.LogTexts.{IsLogFault, IsLogOf, IsUnknownCore, log_at};

use crate::faults::Fault;
use crate::sources::Source;
use osbase::{CoreId, Item, List};
use osconf::{ConfFault, Config, Schedule, Stimuli, read_config, read_schedule, read_stimuli};
use oslog::read_log;
use std::alloc::Global;
use std::str;

/// The fault if bytes that should be JSON are no text.
const NOT_JSON: Fault = Fault::Text(ConfFault::NotJson);

/// Reads the configuration, the first file.
pub fn config_in<S: Source>(alloc: Global, source: &mut S) -> Result<Config, Fault>
    ensures ok { IfOk result (λ config. Means config_of (text_at (S.files source.new) 0) config) }
    ensures fault { IfErr result (λ fault. fault ≢ Fault.Text NoMemory
        → IsFaultOf faults_of (text_at (S.files source.new) 0) fault) }
    ensures ahead { length (S.files source.new) ≤ max (length (S.files source.old)) 1 }
    ensures asked { IfErr result (IsAsked (S.count source.new) (S.files source.new)) }
    ensures count { S.count source.new ≡ S.count source.old }
    ensures known { S.known source.new ≡ S.known source.old }
{
    source.read(0)?;
    let text = text_at(source, 0, NOT_JSON)?;
    Ok(read_config(alloc, text)?)
}

/// Reads the stimuli, the second file, once the first file is read.
pub fn stimuli_in<S: Source>(
    alloc: Global,
    config: &Config,
    source: &mut S,
) -> Result<Stimuli, Fault>
    requires { 1 ≤ length (S.files source.old) }
    ensures ok { IfOk result (λ stimuli. Means (stimuli_of_text config.now) (text_at (S.files source.new) 1) stimuli) }
    ensures stimuli { IfOk result (AreKnown config.now) }
    ensures fault { IfErr result (λ fault. fault ≢ Fault.Text NoMemory
        → IsFaultOf (stimuli_faults config.now) (text_at (S.files source.new) 1) fault) }
    ensures ahead { length (S.files source.new) ≤ max (length (S.files source.old)) 2 }
    ensures keeps { KeepsBelow 1 (S.files source.old) (S.files source.new) }
    ensures asked { IfErr result (IsAsked (S.count source.new) (S.files source.new)) }
    ensures count { S.count source.new ≡ S.count source.old }
    ensures known { S.known source.new ≡ S.known source.old }
{
    source.read(1)?;
    let text = text_at(source, 1, NOT_JSON)?;
    Ok(read_stimuli(alloc, config, text)?)
}

/// Reads the schedule, the third file, once the first two files are read.
pub fn schedule_in<S: Source>(
    alloc: Global,
    config: &Config,
    source: &mut S,
) -> Result<Schedule, Fault>
    requires { 2 ≤ length (S.files source.old) }
    ensures ok { IfOk result (λ schedule. Means (schedule_of_text config.now) (text_at (S.files source.new) 2) schedule) }
    ensures fault { IfErr result (λ fault. fault ≢ Fault.Text NoMemory
        → IsFaultOf (schedule_faults config.now) (text_at (S.files source.new) 2) fault) }
    ensures ahead { length (S.files source.new) ≤ max (length (S.files source.old)) 3 }
    ensures keeps { KeepsBelow 2 (S.files source.old) (S.files source.new) }
    ensures asked { IfErr result (IsAsked (S.count source.new) (S.files source.new)) }
    ensures count { S.count source.new ≡ S.count source.old }
    ensures known { S.known source.new ≡ S.known source.old }
{
    source.read(2)?;
    let text = text_at(source, 2, NOT_JSON)?;
    Ok(read_schedule(alloc, config, text)?)
}

/// Reads the items of a core's log, the second file, once the first file is read.
pub fn log_in<S: Source>(
    alloc: Global,
    config: &Config,
    core: CoreId,
    source: &mut S,
) -> Result<List<Item>, Fault>
    requires read { 1 ≤ length (S.files source.old) }
    requires core { IsSome (core_of config.now core) }
    ensures ok { IfOk result (IsLogOf config.now (log_at (S.files source.new) 1)) }
    ensures fault { IfErr result (λ fault. fault ≢ Fault.Text NoMemory
        → IsLogFault config.now (log_at (S.files source.new) 1) fault) }
    ensures ahead { length (S.files source.new) ≤ max (length (S.files source.old)) 2 }
    ensures keeps { KeepsBelow 1 (S.files source.old) (S.files source.new) }
    ensures asked { IfErr result (IsAsked (S.count source.new) (S.files source.new)) }
    ensures count { S.count source.new ≡ S.count source.old }
    ensures known { S.known source.new ≡ S.known source.old }
{
    source.read(1)?;
    let text = text_at(source, 1, Fault::BadLog)?;
    Ok(read_log(alloc, config, core, text)?)
}

/// Checks that the core is configured. If it is not, the fault is `UnknownName`.
pub fn known_core(config: &Config, core: CoreId) -> Result<(), Fault>
    ensures ok { OnOk result (IsSome (core_of config.now core)) }
    ensures fault { IfErr result (IsUnknownCore config.now core) }
{
    match config.plan().core(core) {
        Some(_) => Ok(()),
        None => Err(Fault::Text(ConfFault::UnknownName)),
    }
}

// The text of the file in this place. If the file could not be read or does not exist, the fault is `Unreadable`; if
// the file is not UTF-8, the fault is `no_text`.
fn text_at<'a, S: Source>(source: &'a S, at: usize, no_text: Fault) -> Result<&'a str, Fault>
    requires read { at < S.count source.now → at < length (S.files source.now) }
    requires next { at ≤ length (S.files source.now) }
    requires apart { no_text ≢ Fault.Unreadable }
    ensures text { result_map_both (λ text. text.now) (λ fault. fault) result ≡ text_or no_text (bytes_at (S.files source.now) at) }
    ensures asked { IfErr result (IsAsked (S.count source.now) (S.files source.now)) }
{
    match source.bytes(at) {
        Some(bytes) => match str::from_utf8(bytes) {
            Ok(text) => Ok(text),
            Err(_) => Err(no_text),
        },
        None => Err(Fault::Unreadable),
    }
}
