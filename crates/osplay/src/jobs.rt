//! The jobs of a table, over files of these names.

use osbase::{CoreId, MailKind};
use oscommand::{Job, Print};

const CONFIG: &str = "config.json";

const STIMULI: &str = "stim.json";

const LOG: &str = "log.txt";

/// A run by the turns of a schedule, or by the default schedule. It prints the reports.
pub fn run_of(schedule: Option<&'static str>) -> Job<'static> {
    Job::Run {
        config: CONFIG,
        stimuli: STIMULI,
        schedule,
        items: None,
    }
}

/// A run by the turns of a schedule, or by the default schedule. It prints the log of core `number`.
pub fn items_of(schedule: Option<&'static str>, number: u8) -> Job<'static> {
    Job::Run {
        config: CONFIG,
        stimuli: STIMULI,
        schedule,
        items: Some(CoreId { number }),
    }
}

/// The job `check`.
pub fn check_of() -> Job<'static> {
    Job::Check { config: CONFIG }
}

/// The job `cut` of core `number`.
pub fn cut_of(number: u8) -> Job<'static> {
    Job::Cut {
        config: CONFIG,
        core: CoreId { number },
    }
}

/// The job `groups`.
pub fn groups_of() -> Job<'static> {
    Job::Groups { config: CONFIG }
}

/// The job `group` of core `number`.
pub fn group_of(number: u8) -> Job<'static> {
    Job::Group {
        config: CONFIG,
        core: CoreId { number },
    }
}

/// The job `replay` of core `number`, by its log.
pub fn replay_of(number: u8) -> Job<'static> {
    Job::Replay {
        config: CONFIG,
        core: CoreId { number },
        log: LOG,
    }
}

/// A run by threads. It prints the reports, or the log of core `items` if that is given. A core gives up once `turns`
/// turns in a row changed nothing.
pub fn threads_of(mail: MailKind, turns: u64, items: Option<u8>) -> Job<'static> {
    match items {
        Some(number) => threads_printing(mail, turns, Print::Log(CoreId { number })),
        None => threads_printing(mail, turns, Print::Trace),
    }
}

// A run by threads. It prints what `print` names. A core gives up once `turns` turns in a row changed nothing.
fn threads_printing(mail: MailKind, turns: u64, print: Print) -> Job<'static> {
    Job::Threads {
        config: CONFIG,
        stimuli: STIMULI,
        turns,
        mail,
        print,
    }
}

/// The job of these words, by the turns of a schedule if there is one. None if the words name no job.
pub fn job_of(words: &str, schedule: Option<&'static str>) -> Option<Job<'static>> {
    let (word, rest) = words.split_once(' ').unwrap_or((words, ""));
    match (word, rest) {
        ("run", "") => Some(run_of(schedule)),
        ("items", core) => Some(items_of(schedule, core.parse::<u8>().ok()?)),
        ("replay", core) => Some(replay_of(core.parse::<u8>().ok()?)),
        ("check", "") => Some(check_of()),
        ("cut", core) => Some(cut_of(core.parse::<u8>().ok()?)),
        ("groups", "") => Some(groups_of()),
        ("group", core) => Some(group_of(core.parse::<u8>().ok()?)),
        ("threads", rest) => threads_job(rest),
        _ => None,
    }
}

// A run by threads. The words are a number of turns, and then a core whose log is printed, or `order`, or nothing.
// With `locked` in front, the mail goes through locked mailboxes, and else through rings. None for other words.
fn threads_job(words: &str) -> Option<Job<'static>> {
    let (mail, words) = match words.strip_prefix("locked ") {
        Some(rest) => (MailKind::Locked, rest),
        None => (MailKind::Ring, words),
    };
    let (turns, print) = match words.split_once(' ') {
        Some((turns, "order")) => (turns, Print::Order),
        Some((turns, core)) => {
            let number = core.parse::<u8>().ok()?;
            (turns, Print::Log(CoreId { number }))
        }
        None => (words, Print::Trace),
    };
    Some(threads_printing(mail, turns.parse::<u64>().ok()?, print))
}
