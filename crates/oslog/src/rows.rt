//! The grammar of a log: a row for each form of an item.

ghost use Rattle.std.specs.Prelude.{◌≡◌};
ghost use Rattle.oslog.specs.Rows.{keyword_text, row_of, row_view, words_row};
ghost use Rattle.oslog.specs.declared.rows.Keyword.{Keyword as Word};
ghost use Rattle.oslog.specs.declared.rows.Tail.TheVariants as tails;

/// A form of an item. An item with several alternatives has a form for each.
#[derive(Clone, Copy, PartialEq, Eq)]
pub enum Line {
    Op,
    Tick,
    Irq,
    Posted,
    Request,
    Action,
    Reply,
    /// A reply with a value.
    Value,
    On,
    Began,
    Entered,
    Conflict,
    Agreed,
    NoMode,
    Readied,
    Started,
    Granted,
    Taken,
    NotTaken,
    Freed,
    Halt,
    Drained,
    PassEnd,
    Last,
    /// The end of a log, after a request for a shutdown of all cores.
    LastHalted,
}

/// All forms, in the order in which they are tried: the most frequent ones first, and a keyword before a name.
pub const LINES: [Line; 25] = [
    Line::Op,
    Line::Tick,
    Line::Irq,
    Line::Posted,
    Line::Request,
    Line::Action,
    Line::Reply,
    Line::Value,
    Line::On,
    Line::Began,
    Line::Entered,
    Line::Conflict,
    Line::NoMode,
    Line::Agreed,
    Line::Readied,
    Line::Started,
    Line::Granted,
    Line::Taken,
    Line::NotTaken,
    Line::Freed,
    Line::Halt,
    Line::Drained,
    Line::PassEnd,
    Line::Last,
    Line::LastHalted,
];

/// One of the log's own words.
#[derive(Clone, Copy, PartialEq, Eq)]
pub enum Keyword {
    On,
    Began,
    Entered,
    Pass1,
    Conflict,
    NoMode,
    Readied,
    Pass2,
    Stim,
    Op,
    Tick,
    Post,
    Received,
    Request,
    Action,
    Reply,
    Granted,
    Tried,
    Freed,
    Yes,
    No,
    Halt,
    Drained,
    PassEnd,
    Last,
}

impl Keyword {
    /// The word as a log has it.
    #[inline(always)]
    pub fn text(self) -> &'static str
        ensures { result.now ≡ keyword_text self }
    {
        match self {
            Keyword::On => "on",
            Keyword::Began => "began",
            Keyword::Entered => "entered",
            Keyword::Pass1 => "pass1",
            Keyword::Conflict => "conflict",
            Keyword::NoMode => "none",
            Keyword::Readied => "readied",
            Keyword::Pass2 => "pass2",
            Keyword::Stim => "stim",
            Keyword::Op => "op",
            Keyword::Tick => "tick",
            Keyword::Post => "post",
            Keyword::Received => "in",
            Keyword::Request => "req",
            Keyword::Action => "act",
            Keyword::Reply => "rep",
            Keyword::Granted => "granted",
            Keyword::Tried => "tried",
            Keyword::Freed => "freed",
            Keyword::Yes => "1",
            Keyword::No => "0",
            Keyword::Halt => "halt",
            Keyword::Drained => "drained",
            Keyword::PassEnd => "passend",
            Keyword::Last => "last",
        }
    }
}

/// What a word of a line must be. No row has two words of the same kind, except keywords.
#[derive(Clone, Copy, PartialEq, Eq)]
pub enum Kind {
    Keyword(Keyword),
    /// The number of a core, configured or not: 0 to 255.
    Core,
    /// The number of a letter: a whole number of 64 bits.
    Count,
    /// The name of a status.
    Status,
    /// A signed number of 64 bits.
    Value,
    /// The name of an application mode.
    Mode,
    /// `irq=` and the name of an ISR.
    Irq,
    /// The name of a spinlock.
    Spinlock,
}

const REPLY: Kind = Kind::Keyword(Keyword::Reply);

const YES: Kind = Kind::Keyword(Keyword::Yes);

const NO: Kind = Kind::Keyword(Keyword::No);

/// What follows the words of a row.
#[derive(Clone, Copy, PartialEq, Eq)]
pub enum Tail {
    Nothing,
    /// The words of an operation that goes across cores.
    Call,
    /// The numbers of cores, ascending.
    Cores,
}

/// One row of the grammar: the first word, the words after it, and what follows them.
#[derive(Clone, Copy)]
pub struct Row {
    pub first: Keyword,
    pub kinds: &'static [Kind],
    pub tail: Tail,
}

// The row of this first word and words of these kinds, with nothing after them.
fn words(first: Keyword, kinds: &'static [Kind]) -> Row
    ensures { row_view result ≡ words_row first kinds.now }
{
    Row {
        first,
        kinds,
        tail: Tail::Nothing,
    }
}

// The row of a letter with a call: `in`, words of these kinds, and the call.
fn call(kinds: &'static [Kind]) -> Row
    ensures { row_view result ≡ (Word.Received, kinds.now, tails.Call) }
{
    Row {
        first: Keyword::Received,
        kinds,
        tail: Tail::Call,
    }
}

/// The row of a form.
#[inline(always)]
pub fn row_of(line: Line) -> Row
    ensures { row_view result ≡ row_of line }
{
    match line {
        Line::Op => words(Keyword::Stim, &[Kind::Keyword(Keyword::Op)]),
        Line::Tick => words(Keyword::Stim, &[Kind::Keyword(Keyword::Tick)]),
        Line::Irq => words(Keyword::Stim, &[Kind::Irq]),
        Line::Posted => words(Keyword::Post, &[Kind::Core]),
        Line::Request => call(&[Kind::Core, Kind::Count, Kind::Keyword(Keyword::Request)]),
        Line::Action => call(&[Kind::Core, Kind::Count, Kind::Keyword(Keyword::Action)]),
        Line::Reply => words(
            Keyword::Received,
            &[Kind::Core, Kind::Count, REPLY, Kind::Status],
        ),
        Line::Value => words(
            Keyword::Received,
            &[Kind::Core, Kind::Count, REPLY, Kind::Status, Kind::Value],
        ),
        Line::On => words(Keyword::On, &[]),
        Line::Began => words(Keyword::Began, &[Kind::Core, Kind::Status]),
        Line::Entered => words(Keyword::Entered, &[]),
        Line::Conflict => words(Keyword::Pass1, &[Kind::Keyword(Keyword::Conflict)]),
        Line::Agreed => words(Keyword::Pass1, &[Kind::Mode]),
        Line::NoMode => words(Keyword::Pass1, &[Kind::Keyword(Keyword::NoMode)]),
        Line::Readied => words(Keyword::Readied, &[]),
        Line::Started => Row {
            first: Keyword::Pass2,
            kinds: &[],
            tail: Tail::Cores,
        },
        Line::Granted => words(Keyword::Granted, &[Kind::Spinlock]),
        Line::Taken => words(Keyword::Tried, &[Kind::Spinlock, YES]),
        Line::NotTaken => words(Keyword::Tried, &[Kind::Spinlock, NO]),
        Line::Freed => words(Keyword::Freed, &[Kind::Spinlock]),
        Line::Halt => words(Keyword::Halt, &[Kind::Core, Kind::Status]),
        Line::Drained => words(Keyword::Drained, &[]),
        Line::PassEnd => words(Keyword::PassEnd, &[]),
        Line::Last => words(Keyword::Last, &[]),
        Line::LastHalted => words(Keyword::Last, &[Kind::Core, Kind::Status]),
    }
}
