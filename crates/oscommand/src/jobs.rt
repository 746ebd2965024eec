//! What the program is asked to do.

ghost use Rattle.std.specs.Prelude.{◌≡◌, IfOk, IfSome, IsSome, IsSomeAnd, Some, codes, false, is_none, map, option_map};
ghost use Rattle.std.specs.Str.{bytes_eq};
ghost use Rattle.std.specs.Str.Parse.{digits_value, without_leading_plus};
ghost use Rattle.clap.specs.Words.{IsUnsignedIn, app_of, first_of, found_of, kind_of, new_app, rows_of, rule_of, subcommand_rows_of, with_rule};
ghost use Rattle.clap.specs.declared.error.kind.ErrorKind.TheVariants.{ArgumentConflict};
ghost use Rattle.oscommand.specs.CommandLine.{AsksFor, FailsByWords, HasEntries, IsMailName, SaysCore, SaysMail, SaysNumber, SaysPrint, SaysTurns, command_line, config_rule, core_rule, has_items_and_order, is_set, items_rule, mail_name, option_rule, order_rule, replay_command, required_rule, run_command, schedule_rule, stimuli_rule, subcommand_name, threads_command, with_config_commands};
ghost use Rattle.oscommand.specs.Entries.{AreChecked, HasThreads, SaysJob};
ghost use Rattle.oscommand.specs.{declared.jobs.TheConstants.MOST_TURNS, Jobs.paths_of};

use clap::builder::ValueParser;
use clap::error::ErrorKind;
use clap::{Arg, ArgAction, ArgMatches, Command, Error};
use osbase::{CoreId, MailKind};
use std::alloc::{AllocError, Global};
use std::convert::AsStr;

/// What `mcos --version` prints behind the name.
const VERSION: &str = "0.2.0";

/// How many turns of a core in a row may change nothing, if `--turns` is not given.
pub const DEFAULT_TURNS: u64 = 1_000_000;

/// The greatest number that `--turns` takes.
pub const MOST_TURNS: u64 = 1_000_000_000;

/// The names of the kinds of mail between threads.
const MAIL_KINDS: &[&str] = &["ring", "locked"];

// This error has the wording of `clap`'s own errors.
const ORDER_AND_ITEMS: &str = "the argument '--order' cannot be used with '--items <CORE>'";

const RUN_HELP: &str = "\
Reads a configuration, the stimuli of its cores and, with --schedule, the turns in order.
Prints a block of lines for each core, and then `ended`, or `stalled` where a core did not end.

With --items prints the log of that core in their place: a line for each item that it took.

Exit status: 0 ended, 1 a fault (`fault N Name`), 2 wrong usage, 3 stalled.

Example: mcos run config.json stimuli.json";

const CHECK_ABOUT: &str = "Prints for each core whether it is separate, bound to others or off";

const CHECK_HELP: &str = "\
Reads a configuration. Prints `ok`, and a line for each core.

Exit status: 0 done, 1 a fault (`fault N Name`), 2 wrong usage.

Example: mcos check config.json";

const CUT_ABOUT: &str = "Prints the configuration of a separate core alone";

const CUT_HELP: &str = "\
Reads a configuration. Prints one on a single line, which has this core alone.

Exit status: 0 done, 1 a fault (`fault N Name`; 20 where the core is not separate), 2 wrong usage.

Example: mcos cut config.json 2";

const GROUPS_ABOUT: &str = "Prints the cores of each core's least group";

const GROUPS_HELP: &str = "\
Reads a configuration. Prints a line for each core: the cores of its least group. No core outside a group acts on one
inside.

Exit status: 0 done, 1 a fault (`fault N Name`), 2 wrong usage.

Example: mcos groups config.json";

const GROUP_ABOUT: &str = "Prints the configuration of a core's least group by itself";

const GROUP_HELP: &str = "\
Reads a configuration. Prints one on a single line, in which no core outside this core's least group has objects.

Exit status: 0 done, 1 a fault (`fault N Name`; 5 where the core is not configured), 2 wrong usage.

Example: mcos group config.json 2";

const REPLAY_HELP: &str = "\
Reads a configuration and the log of one of its cores, as `run --items` prints it.
Plays that core by itself, and prints its block of lines. An item that the core may not take is
fault 15, told with its number behind the block of the items before.

Exit status: 0 done, 1 a fault (`fault N Name`), 2 wrong usage.

Example: mcos replay config.json 0 log.txt";

const THREADS_HELP: &str = "\
Reads a configuration and the stimuli of its cores, and runs each core on a thread of its own.
Prints a block of lines for each core, and then `ended`, or `stalled` where a core did not end.
The order of the cores' turns is that of the threads, so two runs may print different texts.

A core gives up once N of its turns in a row (--turns) changed nothing, also one that is never started.

Envelopes go from core to core through rings without a lock, or with `--mail locked` through mailboxes under locks.

With --items prints the log of that core in their place: a line for each item that it took.

With --order prints the turns of all cores in one order in their place: a schedule for `run --schedule`, by which each
core takes the same items. Where none is found, prints `none`.

Exit status: 0 ended, 1 a fault (`fault N Name`), 2 wrong usage, 3 stalled.

Example: mcos threads config.json stimuli.json";

const TURNS_HELP: &str =
    "how many turns of a core in a row may change nothing, 1 to 1000000000; without it 1000000";

const MAIL_HELP: &str = "how envelopes go from core to core; without it ring";

/// The program's job, with the paths of its files.
#[derive(Clone, Copy, Debug, PartialEq, Eq)]
pub enum Job<'a> {
    /// Plays the listed turns, or else the default schedule, and prints each core's trace, or one core's log.
    Run {
        config: &'a str,
        stimuli: &'a str,
        schedule: Option<&'a str>,
        items: Option<CoreId>,
    },
    /// Prints which cores are separate.
    Check {
        config: &'a str,
    },
    /// Prints the configuration of a separate core alone.
    Cut {
        config: &'a str,
        core: CoreId,
    },
    /// Prints the least group of each core.
    Groups {
        config: &'a str,
    },
    /// Prints the configuration of a core's least group alone.
    Group {
        config: &'a str,
        core: CoreId,
    },
    /// Plays a core alone with the items of its log, and prints its trace.
    Replay {
        config: &'a str,
        core: CoreId,
        log: &'a str,
    },
    /// Runs each core on a thread of its own, and prints what `print` names. A core gives up after `turns` turns in a
    /// row that change nothing.
    Threads {
        config: &'a str,
        stimuli: &'a str,
        turns: u64,
        mail: MailKind,
        print: Print,
    },
}

/// What a run by threads prints.
#[derive(Clone, Copy, Debug, PartialEq, Eq)]
pub enum Print {
    /// Each core's trace.
    Trace,
    /// The log of one core alone.
    Log(CoreId),
    /// One order of all cores' turns, if one is found.
    Order,
}

impl<'a> Job<'a> {
    /// The paths of the job's files, in the order in which they are read and judged.
    pub fn paths(&self, alloc: Global) -> Result<Vec<&'a str>, AllocError>
        ensures { IfOk result (λ paths. map (λ path. path.now) paths.items ≡ paths_of self.now) }
    {
        let mut paths = Vec::new(alloc);
        match self {
            Job::Run {
                config,
                stimuli,
                schedule,
                ..
            } => {
                paths.push(*config)?;
                paths.push(*stimuli)?;
                if let Some(schedule) = schedule {
                    paths.push(*schedule)?;
                }
            }
            Job::Check { config } => paths.push(*config)?,
            Job::Cut { config, .. } => paths.push(*config)?,
            Job::Groups { config } => paths.push(*config)?,
            Job::Group { config, .. } => paths.push(*config)?,
            Job::Replay { config, log, .. } => {
                paths.push(*config)?;
                paths.push(*log)?;
            }
            Job::Threads {
                config,
                stimuli,
                ..
            } => {
                paths.push(*config)?;
                paths.push(*stimuli)?;
            }
        }
        Ok(paths)
    }
}

/// The job that the words ask for. The first word is the program's name. Wrong usage, help and the version are
/// errors of `clap`; a failed allocation is its error `OutOfMemory`.
pub fn job_of<'a, S: AsStr>(alloc: Global, words: &'a [S]) -> Result<Job<'a>, Error>
    ensures job { IfOk result (AsksFor (map S.text words.entry.now)) }
    ensures fault { FailsByWords (map S.text words.entry.now) result }
{
    let matches = command(alloc, MAIL_KINDS)?.try_get_matches_from(words)?;
    match job_in(&matches) {
        Some(job) => Ok(job),
        None => Err(conflict(alloc)?),
    }
}

// The job of the subcommand that is entered; `None` if two of its entries exclude each other.
fn job_in<'a>(matches: &ArgMatches<'a>) -> Option<Job<'a>>
    requires { IsSomeAnd (subcommand_rows_of matches.now) AreChecked }
    ensures { SaysJob (subcommand_rows_of matches.now) result }
{
    let Some((name, entries)) = matches.subcommand() else {
        unreachable!();
    };
    match name {
        "threads" => threads_job(entries),
        _ => Some(job_named(name, entries)),
    }
}

// The job of a subcommand other than `threads`, made from the subcommand's entries.
fn job_named<'a>(name: &str, entries: &ArgMatches<'a>) -> Job<'a>
    requires checked { AreChecked (name.now, rows_of (found_of entries.now)) }
    requires other { bytes_eq name.now (codes "threads") ≡ false }
    ensures { HasEntries (rows_of (found_of entries.now)) result × (subcommand_name result ≡ name.now) }
{
    match name {
        "run" => Job::Run {
            config: config_of(entries),
            stimuli: stimuli_of(entries),
            schedule: entry_of(entries, "schedule"),
            items: items_core(entries),
        },
        "check" => Job::Check {
            config: config_of(entries),
        },
        "cut" => Job::Cut {
            config: config_of(entries),
            core: core_of(entries),
        },
        "groups" => Job::Groups {
            config: config_of(entries),
        },
        "group" => Job::Group {
            config: config_of(entries),
            core: core_of(entries),
        },
        _ => Job::Replay {
            config: config_of(entries),
            core: core_of(entries),
            log: text_in(entries, "LOG"),
        },
    }
}

// The core whose number the word says. The number fits in a byte.
fn core_in(word: &str) -> CoreId
    requires { IsUnsignedIn 0 255 word.now }
    ensures { result.number ≡ digits_value 10 (without_leading_plus word.now) }
{
    let Ok(number) = word.parse::<u8>() else {
        unreachable!();
    };
    CoreId { number }
}

// The text of the argument with this name, if it is given.
fn entry_of<'a>(entries: &ArgMatches<'a>, id: &'static str) -> Option<&'a str>
    ensures { option_map (λ text. text.now) result ≡ first_of id.now (rows_of (found_of entries.now)) }
{
    entries.get_str(id)
}

// The text of the required argument with this name.
fn text_in<'a>(entries: &ArgMatches<'a>, id: &'static str) -> &'a str
    requires { IsSome (first_of id.now (rows_of (found_of entries.now))) }
    ensures { first_of id.now (rows_of (found_of entries.now)) ≡ Some result.now }
{
    let Some(text) = entry_of(entries, id) else {
        unreachable!();
    };
    text
}

// The path of the configuration.
fn config_of<'a>(entries: &ArgMatches<'a>) -> &'a str
    requires { IsSome (first_of (codes "CFG") (rows_of (found_of entries.now))) }
    ensures { first_of (codes "CFG") (rows_of (found_of entries.now)) ≡ Some result.now }
{
    text_in(entries, "CFG")
}

// The path of the stimuli.
fn stimuli_of<'a>(entries: &ArgMatches<'a>) -> &'a str
    requires { IsSome (first_of (codes "STIM") (rows_of (found_of entries.now))) }
    ensures { first_of (codes "STIM") (rows_of (found_of entries.now)) ≡ Some result.now }
{
    text_in(entries, "STIM")
}

// The core that the required argument `CORE` names.
fn core_of(entries: &ArgMatches) -> CoreId
    requires { IsSomeAnd (first_of (codes "CORE") (rows_of (found_of entries.now))) (IsUnsignedIn 0 255) }
    ensures { SaysNumber (first_of (codes "CORE") (rows_of (found_of entries.now))) result.number }
{
    core_in(text_in(entries, "CORE"))
}

// The core that `--items` names, if it is given.
fn items_core(entries: &ArgMatches) -> Option<CoreId>
    requires { IfSome (first_of (codes "items") (rows_of (found_of entries.now))) (IsUnsignedIn 0 255) }
    ensures { SaysCore (first_of (codes "items") (rows_of (found_of entries.now))) result }
{
    match entry_of(entries, "items") {
        Some(core) => Some(core_in(core)),
        None => None,
    }
}

// The error that `--order` is given beside `--items`.
fn conflict(alloc: Global) -> Result<Error, AllocError>
    ensures { IfOk result (λ error. kind_of error ≡ ArgumentConflict) }
{
    threads_command(alloc, MAIL_KINDS)?
        .bin_name("mcos threads")?
        .error(ErrorKind::ArgumentConflict, ORDER_AND_ITEMS)
}

// The job of `threads`; `None` if two of its entries exclude each other.
fn threads_job<'a>(threads: &ArgMatches<'a>) -> Option<Job<'a>>
    requires { HasThreads (rows_of (found_of threads.now)) }
    ensures entries { IfSome result (λ job. HasEntries (rows_of (found_of threads.now)) job × (subcommand_name job ≡ codes "threads")) }
    ensures none { is_none result ≡ has_items_and_order (rows_of (found_of threads.now)) }
{
    match print_of(threads) {
        Some(print) => Some(Job::Threads {
            config: config_of(threads),
            stimuli: stimuli_of(threads),
            turns: turns_of(threads),
            mail: mail_of(threads),
            print,
        }),
        None => None,
    }
}

// What `--items` and `--order` ask for; `None` if both are given.
fn print_of(threads: &ArgMatches) -> Option<Print>
    requires { IfSome (first_of (codes "items") (rows_of (found_of threads.now))) (IsUnsignedIn 0 255) }
    ensures says { IfSome result (SaysPrint (rows_of (found_of threads.now))) }
    ensures none { is_none result ≡ has_items_and_order (rows_of (found_of threads.now)) }
{
    match (items_core(threads), has_order(threads)) {
        (None, false) => Some(Print::Trace),
        (Some(core), false) => Some(Print::Log(core)),
        (None, true) => Some(Print::Order),
        (Some(_), true) => None,
    }
}

// Whether `--order` is given. The argument's text is `true` if it is given, and `false` otherwise.
fn has_order(threads: &ArgMatches) -> bool
    ensures { result ≡ is_set (first_of (codes "order") (rows_of (found_of threads.now))) }
{
    match entry_of(threads, "order") {
        Some(text) => text == "true",
        None => false,
    }
}

// The number of `--turns`, or else the default.
fn turns_of(threads: &ArgMatches) -> u64
    requires { IfSome (first_of (codes "turns") (rows_of (found_of threads.now))) (IsUnsignedIn 1 MOST_TURNS) }
    ensures { SaysTurns (first_of (codes "turns") (rows_of (found_of threads.now))) result }
{
    match entry_of(threads, "turns") {
        Some(turns) => turns_in(turns),
        None => DEFAULT_TURNS,
    }
}

// The number of turns that the word says. The number is in the range of `--turns`.
fn turns_in(word: &str) -> u64
    requires { IsUnsignedIn 1 MOST_TURNS word.now }
    ensures { result ≡ digits_value 10 (without_leading_plus word.now) }
{
    let Ok(turns) = word.parse::<u64>() else {
        unreachable!();
    };
    turns
}

// The kind of mail that `--mail` names, or else rings.
fn mail_of(threads: &ArgMatches) -> MailKind
    requires { IfSome (first_of (codes "mail") (rows_of (found_of threads.now))) IsMailName }
    ensures { SaysMail (first_of (codes "mail") (rows_of (found_of threads.now))) result }
{
    match entry_of(threads, "mail") {
        Some(mail) => mail_in(mail),
        None => MailKind::Ring,
    }
}

// The kind of mail that the word names.
fn mail_in(word: &str) -> MailKind
    requires { IsMailName word.now }
    ensures { word.now ≡ mail_name result }
{
    if word == "ring" {
        MailKind::Ring
    } else {
        MailKind::Locked
    }
}

// The program's command line, with these kinds of mail.
fn command<'a>(alloc: Global, kinds: &'a [&'a str]) -> Result<Command<'a>, AllocError>
    ensures { IfOk result (λ command. app_of command ≡ command_line kinds.entry) }
{
    let run = Command::new(alloc, "mcos")
        .version(VERSION)
        .about("A multicore AUTOSAR OS kernel, simulated")
        .subcommand_required(true)
        .subcommand(run_command(alloc)?)?;
    with_config_commands(alloc, run)?
        .subcommand(replay_command(alloc)?)?
        .subcommand(threads_command(alloc, kinds)?)
}

// Adds the subcommands that read only a configuration.
fn with_config_commands<'a>(alloc: Global, command: Command<'a>) -> Result<Command<'a>, AllocError>
    ensures { IfOk result (λ new. app_of new ≡ with_config_commands (app_of command.entry)) }
{
    command
        .subcommand(config_command(alloc, "check", CHECK_ABOUT, CHECK_HELP)?)?
        .subcommand(core_command(alloc, "cut", CUT_ABOUT, CUT_HELP)?)?
        .subcommand(config_command(alloc, "groups", GROUPS_ABOUT, GROUPS_HELP)?)?
        .subcommand(core_command(alloc, "group", GROUP_ABOUT, GROUP_HELP)?)
}

// A subcommand that reads a configuration.
fn config_command<'a>(
    alloc: Global,
    name: &'a str,
    about: &'a str,
    help: &'a str,
) -> Result<Command<'a>, AllocError>
    ensures { IfOk result (λ command. app_of command ≡ with_rule (new_app name.now) config_rule) }
{
    let config = required_arg(alloc, "CFG", "the configuration, a JSON file");
    Command::new(alloc, name)
        .about(about)
        .after_help(help)
        .arg(config)
}

// A subcommand that reads a configuration and names a core.
fn core_command<'a>(
    alloc: Global,
    name: &'a str,
    about: &'a str,
    help: &'a str,
) -> Result<Command<'a>, AllocError>
    ensures { IfOk result (λ command. app_of command ≡ with_rule (with_rule (new_app name.now) config_rule) core_rule) }
{
    config_command(alloc, name, about, help)?.arg(core_arg(alloc))
}

fn core_arg<'a>(alloc: Global) -> Arg<'a>
    ensures rule { rule_of result ≡ core_rule }
    ensures own { result.global ≡ false }
{
    Arg::new(alloc, "CORE")
        .required(true)
        .value_parser(ValueParser::unsigned(0, 255))
        .help("the core's number")
}

// A required argument.
fn required_arg<'a>(alloc: Global, name: &'a str, help: &'a str) -> Arg<'a>
    ensures rule { rule_of result ≡ required_rule name.now }
    ensures own { result.global ≡ false }
{
    Arg::new(alloc, name).required(true).help(help)
}

// An option that takes a value. The option has the name of the argument.
fn option_arg<'a>(
    alloc: Global,
    name: &'a str,
    value: &'a str,
    parser: ValueParser<'a>,
    help: &'a str,
) -> Arg<'a>
    ensures rule { rule_of result ≡ option_rule name.now parser.entry }
    ensures own { result.global ≡ false }
{
    Arg::new(alloc, name)
        .long(name)
        .value_name(value)
        .value_parser(parser)
        .action(ArgAction::Set)
        .help(help)
}

fn run_command<'a>(alloc: Global) -> Result<Command<'a>, AllocError>
    ensures { IfOk result (λ command. app_of command ≡ run_command) }
{
    let about = "Runs the cores turn by turn, and prints each core's trace";
    config_command(alloc, "run", about, RUN_HELP)?
        .arg(stimuli_arg(alloc))?
        .arg(schedule_arg(alloc))?
        .arg(items_arg(alloc))
}

fn stimuli_arg<'a>(alloc: Global) -> Arg<'a>
    ensures rule { rule_of result ≡ stimuli_rule }
    ensures own { result.global ≡ false }
{
    required_arg(alloc, "STIM", "each core's stimuli, a JSON file")
}

fn schedule_arg<'a>(alloc: Global) -> Arg<'a>
    ensures rule { rule_of result ≡ schedule_rule }
    ensures own { result.global ≡ false }
{
    Arg::new(alloc, "schedule")
        .long("schedule")
        .value_name("FILE")
        .action(ArgAction::Set)
        .help("the turns in order, a JSON file; without it the default schedule runs")
}

fn items_arg<'a>(alloc: Global) -> Arg<'a>
    ensures rule { rule_of result ≡ items_rule }
    ensures own { result.global ≡ false }
{
    let help = "prints the log of the core of this number alone";
    option_arg(alloc, "items", "CORE", ValueParser::unsigned(0, 255), help)
}

fn replay_command<'a>(alloc: Global) -> Result<Command<'a>, AllocError>
    ensures { IfOk result (λ command. app_of command ≡ replay_command) }
{
    let about = "Plays a core by itself with the items of its log, and prints its trace";
    let log = required_arg(alloc, "LOG", "the core's log, a text file");
    core_command(alloc, "replay", about, REPLAY_HELP)?.arg(log)
}

fn threads_command<'a>(alloc: Global, kinds: &'a [&'a str]) -> Result<Command<'a>, AllocError>
    ensures { IfOk result (λ command. app_of command ≡ threads_command kinds.entry) }
{
    let about = "Runs each core on a thread of its own, and prints each core's trace";
    let turns = ValueParser::unsigned(1, MOST_TURNS);
    config_command(alloc, "threads", about, THREADS_HELP)?
        .arg(stimuli_arg(alloc))?
        .arg(option_arg(alloc, "turns", "N", turns, TURNS_HELP))?
        .arg(option_arg(alloc, "mail", "KIND", ValueParser::Names(kinds), MAIL_HELP))?
        .arg(items_arg(alloc))?
        .arg(order_arg(alloc))
}

fn order_arg<'a>(alloc: Global) -> Arg<'a>
    ensures rule { rule_of result ≡ order_rule }
    ensures own { result.global ≡ false }
{
    Arg::new(alloc, "order")
        .long("order")
        .action(ArgAction::SetTrue)
        .help("prints the turns of all cores in one order, a schedule, or none")
}
