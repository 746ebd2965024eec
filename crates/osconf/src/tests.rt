mod alarms;
mod counters;
mod events;
mod given;
mod hostile;
mod isrs;
mod limits;
mod modes;
mod names;
mod numbers;
mod operations;
mod read;
mod resources;
mod separate;
mod spinlocks;
mod tables;
mod written;

use crate::{
    ConfFault, Config, config_text, cut, is_separate, read_config, read_schedule, read_stimuli,
};
use osbase::CoreId;
use std::alloc::Global;
use std::process::Abort;
use std::test::Fail;

// Core 0 starts core 1, and activates its task.
const TWO_CORES: &str =
    r#"{"cores":[{"id":0,"start":[1],"tasks":[{"name":"A","prio":1,"auto":["M"],"script":"ActivateTask B;TerminateTask"}]},{"id":1,"tasks":[{"name":"B","prio":1,"script":"TerminateTask"}]}]}"#;

// What a text is read as: a configuration; one that is written again; the core of this number, cut out of one; stimuli
// or a schedule of `TWO_CORES`; stimuli of `isrs::TWO_CORES`; or stimuli or a schedule of `given::SECOND`.
#[derive(Clone, Copy)]
enum Reader {
    Configuration,
    Written,
    Alone(u8),
    Stimuli,
    Interrupts,
    Schedule,
    SecondStimuli,
    SecondSchedule,
}

// The text with the value in place of its first `@`.
fn filled(alloc: Global, text: &str, value: &str) -> Result<String, Fail> {
    let (before, after) = text.split_once('@').ok_or("a place to fill")?;
    let mut filled = String::from_str(alloc, before)?;
    filled.push_str(value)?;
    filled.push_str(after)?;
    Ok(filled)
}

// The configuration of the text with the value in place of its first `@`.
fn configured(alloc: Global, text: &str, value: &str) -> Result<Config, Fail> {
    Ok(read_config(alloc, filled(alloc, text, value)?.as_str())?)
}

// `count` copies of the word, with `separator` between them. If the word has an `@`, each copy has its index there.
fn listed(alloc: Global, word: &str, separator: &str, count: u32) -> Result<String, Fail> {
    let Some((before, after)) = word.split_once('@') else {
        return repeated(alloc, word, separator, count);
    };
    let mut all = String::new(alloc);
    for index in 0..count {
        let separator = if index == 0 { "" } else { separator };
        push_word(alloc, &mut all, separator, (before, after), index)?;
    }
    Ok(all)
}

// Appends the separator, and then one word: its first part, the index, and its second part.
fn push_word(
    alloc: Global,
    all: &mut String,
    separator: &str,
    parts: (&str, &str),
    index: u32,
) -> Result<(), Fail> {
    let (before, after) = parts;
    let word = format!(in alloc; "{separator}{before}{index}{after}")?;
    all.push_str(word.as_str())?;
    Ok(())
}

// The word `count` times, with `separator` between its copies.
fn repeated(alloc: Global, word: &str, separator: &str, count: u32) -> Result<String, Fail> {
    let Some(others) = count.checked_sub(1) else {
        return Ok(String::new(alloc));
    };
    let mut all = repeated_both(alloc, word, separator, others)?;
    all.push_str(word)?;
    Ok(all)
}

// The word with `behind` after it, `count` times.
fn repeated_both(alloc: Global, word: &str, behind: &str, count: u32) -> Result<String, Fail> {
    let mut both = String::from_str(alloc, word)?;
    both.push_str(behind)?;
    Ok(both.as_str().repeat(alloc, count as usize)?)
}

// The configuration that has the cores and ISRs of the reader's stimuli or schedule.
fn config_for(alloc: Global, reader: Reader) -> Result<Config, Fail> {
    match reader {
        Reader::Interrupts => configured(alloc, isrs::TWO_CORES, ""),
        Reader::SecondStimuli | Reader::SecondSchedule => Ok(read_config(alloc, given::SECOND)?),
        _ => Ok(read_config(alloc, TWO_CORES)?),
    }
}

// The fault with which this reader refuses the text, or none if it reads the text.
fn fault_of(alloc: Global, reader: Reader, text: &str) -> Result<Option<ConfFault>, Fail> {
    match reader {
        Reader::Configuration | Reader::Written => Ok(read_config(alloc, text).err()),
        Reader::Alone(number) => cut_fault(alloc, text, CoreId { number }),
        Reader::Stimuli | Reader::Interrupts | Reader::SecondStimuli => {
            stimuli_fault(alloc, reader, text)
        }
        Reader::Schedule | Reader::SecondSchedule => schedule_fault(alloc, reader, text),
    }
}

// The fault of cutting the core out of the text's configuration, or none if that succeeds.
fn cut_fault(alloc: Global, text: &str, core: CoreId) -> Result<Option<ConfFault>, Fail> {
    let config = read_config(alloc, text)?;
    fault_of_core(alloc, &config, core)
}

// The fault of cutting the core out of the configuration, or none if that succeeds. Checks that `is_separate` agrees.
fn fault_of_core(alloc: Global, config: &Config, core: CoreId) -> Result<Option<ConfFault>, Fail> {
    let refused = cut(alloc, config, core).err();
    let is_told = is_separate(config, core) == refused.is_none();
    Ok(is_told.then_some(refused).ok_or("is_separate says so too")?)
}

fn stimuli_fault(alloc: Global, reader: Reader, text: &str) -> Result<Option<ConfFault>, Fail> {
    let config = config_for(alloc, reader)?;
    Ok(read_stimuli(alloc, &config, text).err())
}

fn schedule_fault(alloc: Global, reader: Reader, text: &str) -> Result<Option<ConfFault>, Fail> {
    let config = config_for(alloc, reader)?;
    Ok(read_schedule(alloc, &config, text).err())
}

// The reader's fault of the text with the value in place of its first `@`, or none.
fn fault_with(
    alloc: Global,
    reader: Reader,
    text: &str,
    value: &str,
) -> Result<Option<ConfFault>, Fail> {
    let whole = filled(alloc, text, value)?;
    fault_of(alloc, reader, whole.as_str())
}

// What this reader reads of the text, as it is printed for debugging. For `Written` and `Alone`: the text that the
// configuration is written as.
fn shown(alloc: Global, reader: Reader, text: &str) -> Result<String, Fail> {
    match reader {
        Reader::Configuration => shown_plan(alloc, text),
        Reader::Written => written_text(alloc, text),
        Reader::Alone(number) => cut_text(alloc, text, CoreId { number }),
        Reader::Stimuli | Reader::Interrupts | Reader::SecondStimuli => {
            shown_stimuli(alloc, reader, text)
        }
        Reader::Schedule | Reader::SecondSchedule => shown_schedule(alloc, reader, text),
    }
}

fn shown_plan(alloc: Global, text: &str) -> Result<String, Fail> {
    let config = read_config(alloc, text)?;
    Ok(format!(in alloc; "{:?}", config.plan())?)
}

// The text that the text's configuration is written as. Checks that this text stays the same if read and written again.
fn written_text(alloc: Global, text: &str) -> Result<String, Fail> {
    text_of(alloc, &read_config(alloc, text)?)
}

// The text of the core's own configuration, which is cut out of the text's configuration.
fn cut_text(alloc: Global, text: &str, core: CoreId) -> Result<String, Fail> {
    let config = read_config(alloc, text)?;
    text_of_core(alloc, &config, core)
}

// The text of the core's own configuration, which is cut out of `config`.
fn text_of_core(alloc: Global, config: &Config, core: CoreId) -> Result<String, Fail> {
    let alone = cut(alloc, config, core)?;
    text_of(alloc, &alone)
}

fn shown_stimuli(alloc: Global, reader: Reader, text: &str) -> Result<String, Fail> {
    let config = config_for(alloc, reader)?;
    let stimuli = read_stimuli(alloc, &config, text)?;
    Ok(format!(in alloc; "{:?}", stimuli.as_slice())?)
}

fn shown_schedule(alloc: Global, reader: Reader, text: &str) -> Result<String, Fail> {
    let config = config_for(alloc, reader)?;
    let turns = read_schedule(alloc, &config, text)?;
    Ok(format!(in alloc; "{:?}", turns.as_slice())?)
}

// The configuration's text. Checks that it is read and written again unchanged.
fn text_of(alloc: Global, config: &Config) -> Result<String, Fail> {
    let text = config_text(alloc, config)?;
    stays(alloc, text.as_str())?;
    Ok(text)
}

// Checks that the text is read and written again unchanged.
fn stays(alloc: Global, text: &str) -> Result<(), Fail> {
    let again = rewritten(alloc, text)?;
    let is_same = again.as_str() == text;
    Ok(is_same.then_some(()).ok_or("the same text again")?)
}

// The text of the configuration that the text is read as.
fn rewritten(alloc: Global, text: &str) -> Result<String, Fail> {
    let config = read_config(alloc, text)?;
    Ok(config_text(alloc, &config)?)
}

// Plays the table `lines` of texts and their faults, and checks that it has `cases` cases. The texts replace the `@` of
// the frame. For each group of texts there are these lines, in this order:
// `text T|T|..`: texts with an `@`; those of neighbouring lines are one group. Without one, the frame is the text.
// `each [B] W`: after this line a value is a count, and stands for that many words W with B between them.
// `is R`: each text of the group, which then has no `@`, is read as R, or unchanged if there is no R.
// `F V|V|..`: each text of the group, with each value in place of its `@`, has the fault F, or none if F is `fine`.
// A line that is empty or begins with `//` is ignored.
fn play(
    rt: &impl Abort,
    alloc: Global,
    reader: Reader,
    frame: &str,
    lines: &str,
    cases: usize,
) -> Result<(), Fail> {
    let mut texts = vec![in alloc; String::from_str(alloc, frame)?]?;
    let played = play_lines(rt, alloc, reader, frame, lines, &mut texts)?;
    assert_eq!(rt; played, cases);
    Ok(())
}

// Plays a table of configurations.
fn play_configurations(
    rt: &impl Abort,
    alloc: Global,
    frame: &str,
    lines: &str,
    cases: usize,
) -> Result<(), Fail> {
    play(rt, alloc, Reader::Configuration, frame, lines, cases)
}

// Plays a table's lines, and counts their cases. `texts` has the texts of the group, at first the frame alone.
fn play_lines(
    rt: &impl Abort,
    alloc: Global,
    reader: Reader,
    frame: &str,
    lines: &str,
    texts: &mut Vec<String>,
) -> Result<usize, Fail> {
    let mut each = None;
    let mut judged = true;
    let mut cases = 0usize;
    for line in lines.lines() {
        let (head, rest) = line.split_once(' ').unwrap_or((line, ""));
        match head {
            "" | "//" => {}
            "text" => {
                if judged {
                    texts.clear();
                    each = None;
                    judged = false;
                }
                add_texts(alloc, texts, frame, rest)?;
            }
            "each" => each = Some(word_of(rest)?),
            "is" => {
                judged = true;
                compare(rt, alloc, reader, texts.as_slice(), rest)?;
                cases = cases.saturating_add(texts.len());
            }
            fault => {
                judged = true;
                let more = judge_all(rt, alloc, reader, texts.as_slice(), each, rest, fault)?;
                cases = cases.saturating_add(more);
            }
        }
    }
    Ok(cases)
}

// Adds, for each of the words that `|` separates, the frame with this word in place of its first `@`.
fn add_texts(alloc: Global, texts: &mut Vec<String>, frame: &str, words: &str) -> Result<(), Fail> {
    for word in words.split('|') {
        texts.push(filled(alloc, frame, word)?)?;
    }
    Ok(())
}

// The word W of `[B] W`, and the text B between two words.
fn word_of(rest: &str) -> Result<(&str, &str), Fail> {
    let (between, word) = rest.split_once(']').ok_or("what is between words")?;
    let between = between.strip_prefix('[').ok_or("what is between words")?;
    Ok((word.strip_prefix(' ').unwrap_or(""), between))
}

// The value; or, if `each` is a word and what is between words, as many of these words as the value says.
fn worded(alloc: Global, each: Option<(&str, &str)>, value: &str) -> Result<String, Fail> {
    let Some((word, between)) = each else {
        return Ok(String::from_str(alloc, value)?);
    };
    let count = value.parse::<u32>().ok().ok_or("a count")?;
    listed(alloc, word, between, count)
}

// Checks that each of the texts is read as `read`, or unchanged if `read` is empty.
fn compare(
    rt: &impl Abort,
    alloc: Global,
    reader: Reader,
    texts: &[String],
    read: &str,
) -> Result<(), Fail> {
    for text in texts {
        let shown = shown(alloc, reader, text.as_str())?;
        let read = if read.is_empty() { text.as_str() } else { read };
        assert!(rt; shown.as_str() == read, "{text} {shown}");
    }
    Ok(())
}

// For each of the values that `|` separates: checks that each of the texts has this fault with what `worded` makes of
// the value. Counts these cases.
fn judge_all(
    rt: &impl Abort,
    alloc: Global,
    reader: Reader,
    texts: &[String],
    each: Option<(&str, &str)>,
    values: &str,
    fault: &str,
) -> Result<usize, Fail> {
    let mut cases = 0usize;
    for value in values.split('|') {
        let value = worded(alloc, each, value)?;
        judge(rt, alloc, reader, texts, value.as_str(), fault)?;
        cases = cases.saturating_add(texts.len());
    }
    Ok(cases)
}

// Checks that each of the texts with the value has the fault of this name, or none if the name is `fine`.
fn judge(
    rt: &impl Abort,
    alloc: Global,
    reader: Reader,
    texts: &[String],
    value: &str,
    fault: &str,
) -> Result<(), Fail> {
    for text in texts {
        let refused = fault_with(alloc, reader, text.as_str(), value)?;
        let name = refused.map_or("fine", |refused| refused.name());
        assert!(rt; name == fault, "{text} {fault}");
    }
    Ok(())
}

#[test]
fn a_fault_is_shown_by_its_number_and_its_name(rt: HostRuntime) -> Result<(), Fail> {
    let shown = format!(in rt.alloc(); "{}", ConfFault::NotSeparate)?;
    assert!(rt; shown.as_str() == "fault 20 NotSeparate");
    Ok(())
}
