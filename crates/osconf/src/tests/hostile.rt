//! Texts that are not configurations: not JSON, or of another shape.

use super::{Reader, TWO_CORES, fault_of, play_configurations, repeated};
use crate::ConfFault;
use std::alloc::Global;
use std::process::Abort;
use std::test::Fail;

const TEXTS: &str = r#"
// Texts that are not JSON.
text @
NotJson | |x|nul|"cores|{"cores":[{"id":0}]}x|{"cores":[{"id":0}]}{}|{"cores":[{"id":0}],}|{"cores":[{"id":0},]}
NotJson {'cores':[{'id':0}]}|{cores:[{"id":0}]}|{"cores":[{"id":0}]} // one core|{"cores":[{"id":01}]}
NotJson {"cores":[{"id":+1}]}|{"cores":[{"id":1.}]}|{"cores":[{"id":.5}]}|{"cores":[{"id":0x1}]}
NotJson {"cores":[{"id":1e400}]}|{"cores":[{"id":NaN}]}|{"cores":"\ud800"}|{"cores":"\x"}

// An object of another shape.
Shape null|true|1|""|[{"cores":[{"id":0}]}]|{"cap":1}|{"Cores":[{"id":0}]}|{"cores":[{"id":0}],"":0}
Shape {"cores":[{"id":0}],"prio":1}|{"cores":[{}]}|{"cores":[{"tasks":[]}]}|{"cores":[{"id":0,"cores":[]}]}
Shape {"cores":[{"id":0},[]]}|{"cores":[{"id":0},0]}|{"cores":[[{"id":0}]]}|{"cores":[{"id":0,"tasks":[{}]}]}
Shape {"cores":[{"id":0,"tasks":[[]]}]}|{"cores":[{"id":0,"tasks":[{"prio":1,"script":""}]}]}
Shape {"cores":[{"id":0,"tasks":[{"name":"A","script":""}]}]}|{"cores":[{"id":0,"tasks":[{"name":"A","prio":1}]}]}
Shape {"cores":[{"id":0,"tasks":[{"name":"A","prio":1,"script":"","id":0}]}]}
Shape {"cores":[{"id":0,"tasks":[{"name":"A","prio":1,"script":""},null]}]}|{"cores":[{"id":0,"resources":[{}]}]}
Shape {"cores":[{"id":0,"resources":[[]]}]}|{"cores":[{"id":0,"resources":["R"]}]}
Shape {"cores":[{"id":0,"resources":[{"ceiling":1}]}]}|{"cores":[{"id":0,"resources":[{"name":"R"}]}]}
Shape {"cores":[{"id":0,"resources":[{"name":"R","ceiling":1,"prio":1}]}]}
Shape {"cores":[{"id":0,"resources":[{"name":"R","ceiling":1},null]}]}|{"cores":[{"id":0}],"resources":[]}
Shape {"cores":[{"id":0,"counters":[{}]}]}|{"cores":[{"id":0,"counters":[[]]}]}|{"cores":[{"id":0,"counters":["K"]}]}
Shape {"cores":[{"id":0,"counters":[{"max":1}]}]}|{"cores":[{"id":0,"counters":[{"name":"K"}]}]}
Shape {"cores":[{"id":0,"counters":[{"name":"K","max":1,"ceiling":1}]}]}
Shape {"cores":[{"id":0,"counters":[{"name":"K","max":1},null]}]}|{"cores":[{"id":0}],"counters":[]}
Shape {"cores":[{"id":0}],"alarms":[]}

// A member that is no whole number.
// A number with a point or an exponent is not whole, nor is -0, nor one past 64 bits.
text {"version":@,"cores":[{"id":0}]}
text {"cap":@,"cores":[{"id":0}]}
text {"master":@,"cores":[{"id":0}]}
text {"cores":[{"id":@}]}
text {"cores":[{"id":0,"start":[@]}]}
text {"cores":[{"id":0,"tasks":[{"name":"A","prio":@,"script":""}]}]}
text {"cores":[{"id":0,"tasks":[{"name":"A","prio":1,"activations":@,"script":""}]}]}
text {"cores":[{"id":0,"resources":[{"name":"R","ceiling":@}]}]}
text {"cores":[{"id":0,"resources":[{"name":"R","ceiling":1,"lock":@}]}]}
text {"cores":[{"id":0,"counters":[{"name":"K","max":@}]}]}
text {"cores":[{"id":0,"counters":[{"name":"K","max":1,"min":@}]}]}
text {"cores":[{"id":0,"tasks":[{"name":"A","prio":1,"script":""}],"counters":[{"name":"K","max":1}],"alarms":[{"name":"W","counter":"K","action":"ActivateTask A","auto":{"modes":[],"start":@,"cycle":0}}]}]}
text {"cores":[{"id":0,"tasks":[{"name":"A","prio":1,"script":""}],"counters":[{"name":"K","max":1}],"alarms":[{"name":"W","counter":"K","action":"ActivateTask A","auto":{"modes":[],"start":1,"cycle":@}}]}]}
Shape null|true|"1"|[]|{}|1.0|1e0|1E0|10e-1|-0|0.5|-0.0|18446744073709551616|-9223372036854775809|1e300

// A member that is no list.
text {"cores":@}
text {"cores":[{"id":0,"start":@}]}
text {"cores":[{"id":0,"tasks":@}]}
text {"cores":[{"id":0,"resources":@}]}
text {"cores":[{"id":0,"counters":@}]}
text {"cores":[{"id":0,"alarms":@}]}
text {"cores":[{"id":0,"tasks":[{"name":"A","prio":1,"script":""}],"counters":[{"name":"K","max":1}],"alarms":[{"name":"W","counter":"K","action":"ActivateTask A","auto":{"modes":@,"start":1,"cycle":0}}]}]}
text {"cores":[{"id":0,"tasks":[{"name":"A","prio":1,"auto":@,"script":""}]}]}
Shape null|false|0|""|"M"|{}|{"id":0}

// A member that is no text.
text {"cores":[{"id":0,"tasks":[{"name":@,"prio":1,"script":""}]}]}
text {"cores":[{"id":0,"resources":[{"name":@,"ceiling":1}]}]}
text {"cores":[{"id":0,"counters":[{"name":@,"max":1}]}]}
text {"cores":[{"id":0,"tasks":[{"name":"A","prio":1,"script":""}],"counters":[{"name":"K","max":1}],"alarms":[{"name":@,"counter":"K","action":"ActivateTask A"}]}]}
text {"cores":[{"id":0,"tasks":[{"name":"A","prio":1,"script":""}],"counters":[{"name":"K","max":1}],"alarms":[{"name":"W","counter":@,"action":"ActivateTask A"}]}]}
text {"cores":[{"id":0,"tasks":[{"name":"A","prio":1,"script":""}],"counters":[{"name":"K","max":1}],"alarms":[{"name":"W","counter":"K","action":@}]}]}
text {"cores":[{"id":0,"tasks":[{"name":"A","prio":1,"script":""}],"counters":[{"name":"K","max":1}],"alarms":[{"name":"W","counter":"K","action":"ActivateTask A","auto":{"modes":[@],"start":1,"cycle":0}}]}]}
text {"cores":[{"id":0,"tasks":[{"name":"A","prio":1,"auto":[@],"script":""}]}]}
text {"cores":[{"id":0,"tasks":[{"name":"A","prio":1,"script":@}]}]}
Shape null|true|0|[]|["A"]|{}

// A member that is no truth value.
text {"cores":[{"id":0,"tasks":[{"name":"A","prio":1,"extended":@,"script":""}]}]}
text {"cores":[{"id":0,"tasks":[{"name":"A","prio":1,"preemptable":@,"script":""}]}]}
text {"cores":[{"id":0,"counters":[{"name":"K","max":1,"software":@}]}]}
Shape null|1|0|"true"|""|[]|[true]|{}
fine true|false
"#;

// A text that is not JSON because of a character before or after the object.
const AROUND: &str = r#"NotJson {"cores":[{"id":0}]}"#;

// A text that is not JSON because of a line's end in a string.
const WITHIN: &str = "NotJson";

const WHOLE: &[(Reader, &str)] = &[
    (Reader::Configuration, TWO_CORES),
    (Reader::Stimuli, r#"{"0":"op op","1":"op"}"#),
    (Reader::Schedule, r#""0o 1l 1s0""#),
];

#[test]
fn each_proper_prefix_is_not_json(rt: HostRuntime) -> Result<(), Fail> {
    for (reader, whole) in WHOLE {
        judge_prefixes(&rt, rt.alloc(), *reader, whole)?;
        judge_text(&rt, rt.alloc(), *reader, whole, None)?;
    }
    Ok(())
}

// Checks that no proper prefix of `whole` is JSON, and that all of them were tried.
fn judge_prefixes(rt: &impl Abort, alloc: Global, reader: Reader, whole: &str) -> Result<(), Fail> {
    let mut prefix = String::new(alloc);
    judge_each(rt, alloc, reader, whole, &mut prefix)?;
    assert!(rt; prefix.as_str() == whole);
    Ok(())
}

// Appends the characters of `whole` to `prefix`, one by one, and checks before each one that `prefix` is not JSON.
fn judge_each(
    rt: &impl Abort,
    alloc: Global,
    reader: Reader,
    whole: &str,
    prefix: &mut String,
) -> Result<(), Fail> {
    for c in whole.chars() {
        judge_text(rt, alloc, reader, prefix.as_str(), Some(ConfFault::NotJson))?;
        prefix.push(c)?;
    }
    Ok(())
}

// Checks that the text has this fault, or none.
fn judge_text(
    rt: &impl Abort,
    alloc: Global,
    reader: Reader,
    text: &str,
    fault: Option<ConfFault>,
) -> Result<(), Fail> {
    let refused = fault_of(alloc, reader, text)?;
    assert_eq!(rt; refused, fault, "{text}");
    Ok(())
}

// JSON may nest to a depth of 127.
#[test]
fn a_text_that_nests_too_deep_is_not_json(rt: HostRuntime) -> Result<(), Fail> {
    let examples = [
        (127, ConfFault::Shape),
        (128, ConfFault::NotJson),
        (200, ConfFault::NotJson),
    ];
    for (depth, fault) in examples {
        let refused = fault_of_lists(rt.alloc(), depth)?;
        assert_eq!(rt; refused, Some(fault), "{depth}");
    }
    Ok(())
}

// The fault of lists that nest to this depth.
fn fault_of_lists(alloc: Global, depth: u32) -> Result<Option<ConfFault>, Fail> {
    let text = nested(alloc, depth)?;
    fault_of(alloc, Reader::Configuration, text.as_str())
}

// The text of lists that nest to this depth.
fn nested(alloc: Global, depth: u32) -> Result<String, Fail> {
    let mut text = repeated(alloc, "[", "", depth)?;
    let ends = repeated(alloc, "]", "", depth)?;
    text.push_str(ends.as_str())?;
    Ok(text)
}

// Texts that are not JSON, and JSON texts with or without the shape of a configuration: each has the fault that its
// table names, or none. The `@` of a frame stands for the text, and the last argument says how many cases there are.
#[test]
fn texts_that_are_not_json_or_not_of_the_shape_have_their_faults_or_none(
    rt: HostRuntime,
) -> Result<(), Fail> {
    play_configurations(&rt, rt.alloc(), "@", TEXTS, 395)?;
    play_configurations(&rt, rt.alloc(), "\u{feff}@", AROUND, 1)?;
    play_configurations(&rt, rt.alloc(), "@\0", AROUND, 1)?;
    play_configurations(&rt, rt.alloc(), "{\"cores\":\"\n@\"}", WITHIN, 1)
}
