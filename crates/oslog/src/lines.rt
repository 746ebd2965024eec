//! Reading: the items of a log.

ghost use Rattle.std.specs.Prelude.{◌≡◌, List as ListOf, Err, IfOk, IsSome, None, Some};
ghost use Rattle.osbase.specs.declared.items.Item.{Item as ItemValue};
ghost use Rattle.osplan.specs.View.{core_of};
ghost use Rattle.oslog.specs.{Items.item_of_text, Logs.IsLog, Logs.log_of_text, Logs.without_last_end};

use crate::faults::LogFault;
use crate::names::NameIndex;
use crate::reading::item_of_text;
use osbase::{CoreId, Item, List};
use osjson::{PartReader, Refusal, read_parts};
use osplan::Config;
use std::alloc::Global;

// Reads a line.
#[derive(Clone, Copy)]
struct LineReader<'n, 'p> {
    names: &'n NameIndex<'p>,
}

impl PartReader<Item> for LineReader<'_, '_> {
    ghost shape = { λ reader. item_of_text reader.names.now.config.now };

    fn read(&self, part: &str) -> Option<Item> {
        item_of_text(self.names, part)
    }
}

// The text without the end of its last line. But a text that is only a line end stays: its line is empty, and an empty
// line is no item.
fn without_last_end(text: &str) -> &str
    ensures { result.now ≡ without_last_end text.now }
{
    match text.strip_suffix('\n') {
        Some(rest) if !rest.is_empty() => rest,
        _ => text,
    }
}

// The items of a log, line by line; the end of the last line may be missing. `BadLog` where a line is not that of an
// item; `NoMemory` where memory runs out.
fn items_of_text(alloc: Global, names: &NameIndex, text: &str) -> Result<List<Item>, LogFault>
    ensures ok { IfOk result (λ items. log_of_text names.now.config.now text.now ≡ Some items) }
    ensures bad { result ≡ Err LogFault.BadLog → log_of_text names.now.config.now text.now ≡ None }
{
    let reader = LineReader { names };
    let body = without_last_end(text);
    // There are at most as many line ends as bytes.
    match read_parts(alloc, &reader, body, '\n', body.len() + 1) {
        Ok(items) => Ok(items),
        Err(Refusal::OutOfMemory) => Err(LogFault::NoMemory),
        Err(Refusal::Unfit) => Err(LogFault::BadLog),
    }
}

/// The items of this log, in order. The end of the last line may be missing. `BadLog` if no list of items has this text
/// as its log; `NoMemory` where memory runs out. Every core of the configuration reads a log in the same way.
pub fn read_log(
    alloc: Global,
    config: &Config,
    _core: CoreId,
    text: &str,
) -> Result<List<Item>, LogFault>
    requires { IsSome (core_of config.now _core) }
    ensures ok { IfOk result (IsLog config.now text.now) }
    // The text is the log of no other items.
    ensures only { IfOk result (λ items. (others : ListOf ItemValue) → IsLog config.now text.now others → others ≡ items) }
    ensures bad { result ≡ Err LogFault.BadLog → (items : ListOf ItemValue) → IsLog config.now text.now items → ⊥ }
{
    let names = NameIndex::new(alloc, config)?;
    items_of_text(alloc, &names, text)
}
