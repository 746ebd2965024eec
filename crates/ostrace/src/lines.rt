//! The lines of a trace.

ghost use Rattle.std.specs.Prelude.{◌≡◌, ◌^◌, ◌<◌, ◌++◌, ◌∷◌, [], IsTrue, codes, map};
ghost use Rattle.std.specs.Fmt.{decimal, signed_decimal};
ghost use Rattle.osbase.specs.Words.{service_name, status_name};
ghost use Rattle.oscript.specs.Rows.{form_view, items, word_of};
ghost use Rattle.ossyntax.specs.{Call.form_words, ParsedOp.arg_text, Operation.named};
ghost use Rattle.ostrace.specs.{Gathers.Gathers, Pieces.is_long, Pieces.is_of_result, Pieces.word_text};
ghost use Rattle.osplan.specs.Names.{name_of, runner_name, task_name};
ghost use Rattle.ostrace_text.specs.Trace.{call_words, after_spaces, line_of, spaced, value_words, variable_name};

use crate::gathered::Gathered;
use crate::sinks::{Sink, WriteFailed};
use crate::words::{
    Word, write_after_space, write_spaced, write_text_after_space, write_whole_after_space,
    write_word_after_space,
};
use osbase::{CoreId, Mark, Place, RemoteCall, Runner, ServiceId, Status, TaskRef, Variable};
use oscript::{Arg, Args, ParsedOp, Verb, op_of_call, parsed_op_of, row_of};
use ostrace_text::BlockNames;

// Writes a verb, a name, and a number, divided by spaces.
#[inline(always)]
fn write_number<S: Sink>(
    out: &mut S,
    gathered: &mut Gathered,
    verb: &str,
    name: &str,
    number: u32,
) -> Result<(), WriteFailed>
    requires { S.failed out.old < 2 ^ 48 }
    ensures { Gathers S.taken S.failed out.old out.new gathered.old gathered.new
        (spaced (verb.now ∷ name.now ∷ decimal number ∷ [])) result }
{
    gathered.put_pair(out, verb, name)?;
    write_whole_after_space(out, gathered, number)
}

// Writes `hook`, the name of a hook, and a status, divided by spaces.
#[inline(always)]
fn write_hook<S: Sink>(
    out: &mut S,
    gathered: &mut Gathered,
    hook: &str,
    status: Status,
) -> Result<(), WriteFailed>
    requires { S.failed out.old < 2 ^ 48 }
    ensures { Gathers S.taken S.failed out.old out.new gathered.old gathered.new
        (spaced (codes "hook" ∷ hook.now ∷ status_name status ∷ [])) result }
{
    gathered.put_pair(out, "hook", hook)?;
    write_text_after_space(out, gathered, status.name())
}

// Writes a verb, the name of a task, and a mask of events, divided by spaces.
#[inline(always)]
fn write_events<S: Sink>(
    out: &mut S,
    gathered: &mut Gathered,
    names: &BlockNames,
    verb: &str,
    task: TaskRef,
    mask: u32,
) -> Result<(), WriteFailed>
    requires { S.failed out.old < 2 ^ 48 }
    ensures { Gathers S.taken S.failed out.old out.new gathered.old gathered.new
        (spaced (verb.now ∷ task_name names.now task ∷ decimal mask ∷ [])) result }
{
    write_number(out, gathered, verb, names.task_name(task), mask)
}

// The word of a status: its name.
fn status_word(status: Status) -> Word<'static>
    ensures { word_text result ≡ status_name status }
{
    Word::Text(status.name())
}

// The words of an answer with a value: E_OK, and then the value.
fn answer_words(value: i64) -> [Word<'static>; 2]
    ensures { map word_text result ≡ value_words value }
{
    [status_word(Status::EOk), Word::Signed(value)]
}

// The word of a core's number.
fn core_word(core: CoreId) -> Word<'static>
    ensures { word_text result ≡ decimal core.number }
{
    Word::Whole(u32::from(core.number))
}

/// Writes a verb and the number of a core, divided by a space.
#[inline]
pub fn write_verb_and_core<S: Sink>(
    out: &mut S,
    gathered: &mut Gathered,
    verb: &str,
    core: CoreId,
) -> Result<(), WriteFailed>
    requires { S.failed out.old < 2 ^ 48 }
    ensures { Gathers S.taken S.failed out.old out.new gathered.old gathered.new
        (spaced (verb.now ∷ decimal core.number ∷ [])) result }
{
    write_spaced(out, gathered, verb, &[core_word(core)])
}

// Writes a verb, the number of a core, and a status, divided by spaces.
fn write_core<S: Sink>(
    out: &mut S,
    gathered: &mut Gathered,
    verb: &str,
    core: CoreId,
    status: Status,
) -> Result<(), WriteFailed>
    requires { S.failed out.old < 2 ^ 48 }
    ensures { Gathers S.taken S.failed out.old out.new gathered.old gathered.new
        (spaced (verb.now ∷ decimal core.number ∷ status_name status ∷ [])) result }
{
    write_spaced(out, gathered, verb, &[core_word(core), status_word(status)])
}

// The word of an argument; `?` for the invalid identifier.
#[inline(always)]
fn arg_word<'a>(names: &'a BlockNames, arg: Arg<Place>) -> Word<'a>
    ensures { word_text result ≡ arg_text (named (name_of names.now) arg) }
{
    match arg {
        Arg::Object(kind, Some(place)) => Word::Text(names.name_of(kind, place)),
        Arg::Object(_, None) | Arg::Core(None) => Word::Text("?"),
        Arg::Mask(number) | Arg::Number(number) => Word::Whole(number),
        Arg::Int(number) => Word::Signed(number),
        Arg::Variable(number) => Word::Variable(number),
        Arg::Core(Some(core)) => core_word(core),
    }
}

// Writes an argument after a space.
fn write_arg<S: Sink>(
    out: &mut S,
    gathered: &mut Gathered,
    names: &BlockNames,
    arg: Arg<Place>,
) -> Result<(), WriteFailed>
    requires { S.failed out.old < 2 ^ 48 }
    ensures { Gathers S.taken S.failed out.old out.new gathered.old gathered.new
        (after_spaces (arg_text (named (name_of names.now) arg) ∷ [])) result }
{
    write_word_after_space(out, gathered, arg_word(names, arg))
}

// Writes arguments, each after a space.
fn write_args<S: Sink>(
    out: &mut S,
    gathered: &mut Gathered,
    names: &BlockNames,
    args: Args<Arg<Place>>,
) -> Result<(), WriteFailed>
    requires { S.failed out.old < 2 ^ 48 }
    ensures { Gathers S.taken S.failed out.old out.new gathered.old gathered.new
        (after_spaces (map (λ a. arg_text (named (name_of names.now) a)) (items args))) result }
{
    match args {
        Args::Zero => Ok(()),
        Args::One(a) => write_arg(out, gathered, names, a),
        Args::Two(a, b) => {
            write_arg(out, gathered, names, a)?;
            write_arg(out, gathered, names, b)
        }
        Args::Three(a, b, c) => {
            write_arg(out, gathered, names, a)?;
            write_arg(out, gathered, names, b)?;
            write_arg(out, gathered, names, c)
        }
    }
}

// Writes the word of an operation's verb after a space.
fn write_verb_after_space<S: Sink>(
    out: &mut S,
    gathered: &mut Gathered,
    verb: Verb,
) -> Result<(), WriteFailed>
    requires { S.failed out.old < 2 ^ 48 }
    ensures { Gathers S.taken S.failed out.old out.new gathered.old gathered.new
        (after_spaces (word_of verb ∷ [])) result }
{
    write_text_after_space(out, gathered, row_of(verb).word)
}

// Writes the words of a call, each after a space.
fn write_call<S: Sink>(
    out: &mut S,
    gathered: &mut Gathered,
    names: &BlockNames,
    call: RemoteCall,
) -> Result<(), WriteFailed>
    requires { S.failed out.old < 2 ^ 48 }
    ensures { Gathers S.taken S.failed out.old out.new gathered.old gathered.new
        (after_spaces (call_words names.now call)) result }
{
    write_form(out, gathered, names, parsed_op_of(op_of_call(call)))
}

// Writes the words of an operation, each after a space. The function takes a form and no call, so that no goal of its
// proof is split into a case for each call.
fn write_form<S: Sink>(
    out: &mut S,
    gathered: &mut Gathered,
    names: &BlockNames,
    form: ParsedOp<Place>,
) -> Result<(), WriteFailed>
    requires { S.failed out.old < 2 ^ 48 }
    ensures { Gathers S.taken S.failed out.old out.new gathered.old gathered.new
        (after_spaces (form_words (name_of names.now) (form_view form))) result }
{
    write_verb_after_space(out, gathered, form.verb)?;
    write_args(out, gathered, names, form.args)
}

// Writes a verb, the number of a core, and the words of a call, divided by spaces.
fn write_remote<S: Sink>(
    out: &mut S,
    gathered: &mut Gathered,
    names: &BlockNames,
    verb: &str,
    core: CoreId,
    call: RemoteCall,
) -> Result<(), WriteFailed>
    requires { S.failed out.old < 2 ^ 48 }
    ensures { Gathers S.taken S.failed out.old out.new gathered.old gathered.new
        (spaced (verb.now ∷ decimal core.number ∷ call_words names.now call)) result }
{
    write_verb_and_core(out, gathered, verb, core)?;
    write_call(out, gathered, names, call)
}

// Writes `in`, the number of the core that called, the words of the served call, and those of its answer.
#[inline(always)]
fn write_served<S: Sink>(
    out: &mut S,
    gathered: &mut Gathered,
    names: &BlockNames,
    core: CoreId,
    call: RemoteCall,
    answer: &[Word],
) -> Result<(), WriteFailed>
    requires { S.failed out.old < 2 ^ 48 }
    ensures { Gathers S.taken S.failed out.old out.new gathered.old gathered.new
        (spaced (codes "in" ∷ decimal core.number
        ∷ (call_words names.now call ++ map word_text answer.now))) result }
{
    write_remote(out, gathered, names, "in", core, call)?;
    write_after_space(out, gathered, answer)
}

// Writes `stat`, the name of the task or ISR, the service, and the words of the service's answer.
#[inline(always)]
fn write_stat<S: Sink>(
    out: &mut S,
    gathered: &mut Gathered,
    names: &BlockNames,
    runner: Runner,
    service: ServiceId,
    answer: &[Word],
) -> Result<(), WriteFailed>
    requires { S.failed out.old < 2 ^ 48 }
    ensures { Gathers S.taken S.failed out.old out.new gathered.old gathered.new
        (spaced (codes "stat" ∷ runner_name names.now runner ∷ service_name service
        ∷ map word_text answer.now)) result }
{
    gathered.put_pair(out, "stat", names.runner_name(runner))?;
    write_text_after_space(out, gathered, service.name())?;
    write_after_space(out, gathered, answer)
}

// Writes `var`, the name of the task or ISR, the variable, and its new value, divided by spaces.
fn write_variable<S: Sink>(
    out: &mut S,
    gathered: &mut Gathered,
    names: &BlockNames,
    runner: Runner,
    variable: Variable,
    value: i64,
) -> Result<(), WriteFailed>
    requires { S.failed out.old < 2 ^ 48 }
    ensures { Gathers S.taken S.failed out.old out.new gathered.old gathered.new
        (spaced (codes "var" ∷ runner_name names.now runner ∷ variable_name variable
        ∷ signed_decimal value ∷ [])) result }
{
    let runner = Word::Text(names.runner_name(runner));
    let variable = Word::Variable(variable.index);
    write_spaced(
        out,
        gathered,
        "var",
        &[runner, variable, Word::Signed(value)],
    )
}

// Writes the line of a mark that says what an operation answered.
#[inline(always)]
fn write_result<S: Sink>(
    out: &mut S,
    gathered: &mut Gathered,
    names: &BlockNames,
    mark: &Mark,
) -> Result<(), WriteFailed>
    requires sink { S.failed out.old < 2 ^ 48 }
    requires mark { IsTrue (is_of_result mark.now) }
    ensures { Gathers S.taken S.failed out.old out.new gathered.old gathered.new
        (line_of names.now mark.now) result }
{
    match *mark {
        Mark::ServiceReturned {
            runner,
            service,
            status,
        } => {
            let answer = [status_word(status)];
            write_stat(out, gathered, names, runner, service, &answer)
        }
        Mark::ValueReturned {
            runner,
            service,
            value,
        } => write_stat(out, gathered, names, runner, service, &answer_words(value)),
        Mark::VariableSet {
            runner,
            variable,
            value,
        } => write_variable(out, gathered, names, runner, variable, value),
        _ => unreachable!(),
    }
}

// Writes the line of a mark that says what an operation answered or that a core was started or halted, or is of a call
// to another core. The function is not inlined, so that the short lines, which are most, have the registers.
#[inline(never)]
fn write_long_line<S: Sink>(
    out: &mut S,
    gathered: &mut Gathered,
    names: &BlockNames,
    mark: &Mark,
) -> Result<(), WriteFailed>
    requires sink { S.failed out.old < 2 ^ 48 }
    requires mark { IsTrue (is_long mark.now) }
    ensures { Gathers S.taken S.failed out.old out.new gathered.old gathered.new
        (line_of names.now mark.now) result }
{
    match *mark {
        Mark::StartCoreReturned { core, status } => write_core(
            out, gathered, "start", core, status,
        ),
        Mark::CallQueued { core, call } => write_remote(out, gathered, names, "out", core, call),
        Mark::CallServed { core, status, call } => {
            let answer = [status_word(status)];
            write_served(out, gathered, names, core, call, &answer)
        }
        Mark::CallAnswered {
            core,
            alarm,
            variable,
            value,
        } => {
            let call = RemoteCall::GetAlarm { alarm, variable };
            write_served(out, gathered, names, core, call, &answer_words(value))
        }
        Mark::Halted { core, status } => write_core(out, gathered, "halt", core, status),
        _ => write_result(out, gathered, names, mark),
    }
}

/// Writes the line of a mark, without its end.
#[inline]
pub fn write_line<S: Sink>(
    out: &mut S,
    gathered: &mut Gathered,
    names: &BlockNames,
    mark: &Mark,
) -> Result<(), WriteFailed>
    requires { S.failed out.old < 2 ^ 48 }
    ensures { Gathers S.taken S.failed out.old out.new gathered.old gathered.new
        (line_of names.now mark.now) result }
{
    match *mark {
        Mark::ModesConflict => gathered.put_text(out, "conflict"),
        Mark::StartupHook => gathered.put_pair(out, "hook", "Startup"),
        Mark::ErrorHook(status) => write_hook(out, gathered, "Error", status),
        Mark::ProtectionHook(status) => write_hook(out, gathered, "Protection", status),
        Mark::ShutdownHook(status) => write_hook(out, gathered, "Shutdown", status),
        Mark::Activated(task) => gathered.put_pair(out, "act", names.task_name(task)),
        Mark::Terminated(task) => gathered.put_pair(out, "end", names.task_name(task)),
        Mark::PreTaskHook(task) => gathered.put_pair(out, "pre", names.task_name(task)),
        Mark::PostTaskHook(task) => gathered.put_pair(out, "post", names.task_name(task)),
        Mark::EventSet { task, mask } => write_events(out, gathered, names, "ev", task, mask),
        Mark::EventCleared { task, mask } => write_events(out, gathered, names, "clr", task, mask),
        Mark::EventAwaited { task, mask } => write_events(out, gathered, names, "wait", task, mask),
        Mark::Released(task) => gathered.put_pair(out, "free", names.task_name(task)),
        Mark::InterruptAccepted(isr) => gathered.put_pair(out, "irq", names.isr_name(isr)),
        Mark::InterruptLost(isr) => gathered.put_pair(out, "lost", names.isr_name(isr)),
        Mark::IsrEntered(isr) => gathered.put_pair(out, "enter", names.isr_name(isr)),
        Mark::IsrLeft(isr) => gathered.put_pair(out, "leave", names.isr_name(isr)),
        Mark::Tick => gathered.put_text(out, "tick"),
        Mark::AlarmExpired(alarm) => gathered.put_pair(out, "alarm", names.alarm_name(alarm)),
        Mark::ExpiryPoint { table, offset } => {
            write_number(out, gathered, "point", names.table_name(table), offset)
        }
        Mark::TableStopped(table) => gathered.put_pair(out, "stop", names.table_name(table)),
        Mark::TableBegun(table) => gathered.put_pair(out, "begin", names.table_name(table)),
        _ => write_long_line(out, gathered, names, mark),
    }
}
