//! Spinlocks: their names and successors, and the operations that name them.

use super::{configured, play_configurations};
use crate::{Config, order_ok};
use osbase::SpinlockId;
use std::alloc::Global;
use std::process::Abort;
use std::test::Fail;

const TEXTS: &str = r#"
// The spinlocks of a configuration, none by default. Each has a name, and may have the name of its successor.
text {"spinlocks":@,"cores":[{"id":0}]}
fine []|[{"name":"S"}]|[{"name":"S","next":null}]|[{"name":"S","next":"R"},{"name":"R"}]|[{"next":null,"name":"S"},{"name":"R","next":"S"}]
fine [{"name":"none"},{"name":"conflict"},{"name":"DONOTCARE"}]|[{"name":"R","next":"T"},{"name":"S","next":"T"},{"name":"T"}]
Shape null|"S"|{}|1|true|["S"]|[null]|[[]]|[{}]|[{"next":null}]|[{"name":"S"},{}]|[{"name":"S"},null]|{"name":"S"}
Shape [{"name":null}]|[{"name":1}]|[{"name":["S"]}]|[{"name":"S","prio":1}]|[{"name":"S","Next":null}]|[{"name":"S","next":null,"id":0}]

text @
Shape {"cores":[{"id":0,"spinlocks":[]}]}|{"cores":[{"id":0}],"Spinlocks":[]}

// The names of spinlocks and of successors must have the form of a name.
text {"spinlocks":[{"name":"@"}],"cores":[{"id":0}]}
text {"spinlocks":[{"name":"T"},{"name":"S","next":"@"}],"cores":[{"id":0}]}
fine T|\u0054
Shape |9|_T|?|T | T|A B|A-B|\u00c4

text {"spinlocks":[{"name":"@"}],"cores":[{"id":0}]}
each [] n
fine 1|128
Shape 129

text {"spinlocks":[{"name":"S","next":"@"}],"cores":[{"id":0}]}
each [] n
UnknownName 1|128
Shape 129

// There are at most 16 spinlocks.
text {"spinlocks":[@],"cores":[{"id":0}]}
each [,] {"name":"S@"}
fine 0|1|15|16
Limit 17|1000

text {"spinlocks":[@],"cores":[{"id":0}]}
each [,] {"name":"S@","next":"S15"}
SpinOrder 16
UnknownName 15
Limit 17

// No name is used twice.
text {"modes":["A","B"],"spinlocks":[{"name":"S"},{"name":"@"}],"cores":[{"id":0,"tasks":[{"name":"T","prio":1,"script":""}]},{"id":1,"isrs":[{"name":"I","level":1,"script":""}],"counters":[{"name":"K","max":9}]}]}
fine M|s|SS|AB
DuplicateName S|A|B|T|I|K|\u0053

// A successor is a spinlock of the configuration.
text {"spinlocks":[{"name":"S","next":@},{"name":"R"}],"cores":[{"id":0,"tasks":[{"name":"T","prio":1,"script":""}],"resources":[{"name":"Q","ceiling":1}]},{"id":1,"counters":[{"name":"K","max":9}]}]}
fine null|"R"|"\u0052"
Shape 0|1|true|[]|["R"]|{}|{"name":"R"}|""
UnknownName "X"|"r"|"T"|"Q"|"K"|"M"|"DONOTCARE"|"none"
SpinOrder "S"

// Successors form no cycle: a chain of all 16 is accepted, and one that leads back to any of them is not.
text {"spinlocks":[{"name":"A","next":"B"},{"name":"B","next":"C"},{"name":"C","next":"D"},{"name":"D","next":"E"},{"name":"E","next":"F"},{"name":"F","next":"G"},{"name":"G","next":"H"},{"name":"H","next":"I"},{"name":"I","next":"J"},{"name":"J","next":"K"},{"name":"K","next":"L"},{"name":"L","next":"N"},{"name":"N","next":"O"},{"name":"O","next":"P"},{"name":"P","next":"Q"},{"name":"Q","next":@}],"cores":[{"id":0}]}
text {"spinlocks":[{"name":"Q","next":@},{"name":"P","next":"Q"},{"name":"O","next":"P"},{"name":"N","next":"O"},{"name":"L","next":"N"},{"name":"K","next":"L"},{"name":"J","next":"K"},{"name":"I","next":"J"},{"name":"H","next":"I"},{"name":"G","next":"H"},{"name":"F","next":"G"},{"name":"E","next":"F"},{"name":"D","next":"E"},{"name":"C","next":"D"},{"name":"B","next":"C"},{"name":"A","next":"B"}],"cores":[{"id":0}]}
fine null
SpinOrder "A"|"B"|"H"|"I"|"P"|"Q"
UnknownName "R"|"M"

// A cycle of three; one of two beside other spinlocks; one of one at the end of a chain; and chains into a cycle.
text {"spinlocks":[@],"cores":[{"id":0}]}
fine {"name":"S","next":"T"},{"name":"R","next":"S"},{"name":"T"},{"name":"Q","next":"S"}
SpinOrder {"name":"S","next":"R"},{"name":"R","next":"T"},{"name":"T","next":"S"}
SpinOrder {"name":"S"},{"name":"Q","next":"S"},{"name":"R","next":"T"},{"name":"T","next":"R"}
SpinOrder {"name":"S","next":"R"},{"name":"R","next":"T"},{"name":"T","next":"T"}
SpinOrder {"name":"S","next":"R"},{"name":"Q","next":"R"},{"name":"R","next":"T"},{"name":"T","next":"R"}

// Of two faults the smaller is reported.
text @
Shape {"spinlocks":[{"name":"S","next":"S"},{"name":"R","next":1}],"cores":[{"id":0}]}
Limit {"cap":0,"spinlocks":[{"name":"S","next":"S"}],"cores":[{"id":0}]}|{"spinlocks":[{"name":"S","next":"S"},{"name":"S"}],"cores":[]}
DuplicateName {"spinlocks":[{"name":"S","next":"R"},{"name":"R","next":"S"},{"name":"R"}],"cores":[{"id":0}]}
DuplicateName {"spinlocks":[{"name":"S","next":"S"},{"name":"M"}],"cores":[{"id":0}]}|{"spinlocks":[{"name":"S","next":"X"},{"name":"S"}],"cores":[{"id":0}]}
UnknownName {"spinlocks":[{"name":"S","next":"S"},{"name":"R","next":"X"}],"cores":[{"id":0}]}|{"master":1,"spinlocks":[{"name":"S","next":"S"}],"cores":[{"id":0}]}

text {"spinlocks":[{"name":"S","next":"R"},{"name":"R","next":"S"}],"cores":[{"id":0,"tasks":[{"name":"A","prio":1,"extended":true,"script":"@"}]},{"id":1,"resources":[{"name":"Q","ceiling":1}]}]}
WrongCore GetResource Q|walk;GetResource Q
UnknownName GetResource S|GetSpinlock Q|GetSpinlock X;GetResource Q
SpinOrder |GetSpinlock S|SetEvent A 0|walk|SetEvent A 0;walk|jump 9

text {"spinlocks":[{"name":"S","next":"S"}],"cores":[{"id":0,"tasks":[{"name":"A","prio":1,"script":""}],"counters":[{"name":"K","max":9}],"tables":[{"name":"P","counter":"K","duration":9,"points":[{"offset":@,"actions":["ActivateTask A"]}]}]}]}
SpinOrder 0|10
"#;

// Two cores that have an object of each kind, beside two spinlocks.
const TWO_CORES: &str =
    r#"{"spinlocks":[{"name":"S","next":"R"},{"name":"R"}],"cores":[{"id":0,"tasks":[{"name":"A","prio":1,"extended":true,"script":"@"}],"resources":[{"name":"Q","ceiling":1}],"isrs":[{"name":"I","level":1,"script":"GetSpinlock R;TryToGetSpinlock ? v0;ReleaseSpinlock R"}]},{"id":1,"tasks":[{"name":"B","prio":1,"script":""}],"counters":[{"name":"K","max":9}],"alarms":[{"name":"W","counter":"K","action":"ActivateTask B"}],"tables":[{"name":"P","counter":"K","duration":9,"points":[{"offset":0,"actions":["ActivateTask B"]}]}]}]}"#;

// Core 1, which is never started, names a spinlock.
pub(super) const TWO_TASKS: &str =
    r#"{"spinlocks":[{"name":"S"}],"cores":[{"id":0,"tasks":[{"name":"A","prio":1,"script":"@"}]},{"id":1,"tasks":[{"name":"B","prio":1,"script":"GetSpinlock S"}]}]}"#;

const OPERATIONS: &str = r#"
text @
fine GetSpinlock S|GetSpinlock R|GetSpinlock ?|TryToGetSpinlock S v0|TryToGetSpinlock R v7|TryToGetSpinlock ? v3
fine ReleaseSpinlock S|ReleaseSpinlock R|ReleaseSpinlock ?|GetSpinlock S;TryToGetSpinlock R v1;ReleaseSpinlock R;ReleaseSpinlock S
BadScript GetSpinlock|GetSpinlock |GetSpinlock S R|GetSpinlock S v0|GetSpinlock ??|GetSpinlock 0|GetSpinlock  S|getspinlock S|GetSpinLock S
BadScript TryToGetSpinlock|TryToGetSpinlock S|TryToGetSpinlock v0|TryToGetSpinlock S v8|TryToGetSpinlock S 0|TryToGetSpinlock S ?
BadScript TryToGetSpinlock ? ?|TryToGetSpinlock v0 S|TryToGetSpinlock S v0 v1|TryToGetSpinlock X v8|TryToGetSpinlock S v00
BadScript ReleaseSpinlock|ReleaseSpinlock ? ?|ReleaseSpinlock S R|ReleaseSpinlock S v0|ReleaseSpinlock -1|ReleaseSpinlock X Y

// An operation on a spinlock names a spinlock, and nothing else.
text GetSpinlock @
text ReleaseSpinlock @
text TryToGetSpinlock @ v0
text work;GetSpinlock S;GetSpinlock @
fine S|R|?
UnknownName X|s|v0|A|B|I|Q|K|W|P|M|DONOTCARE
BadScript |1|_S|S,R|S-R

// A spinlock may not be named in place of another object.
text ActivateTask @
text SetEvent @ 1
text GetResource @
text IncrementCounter @
text CancelAlarm @
text StopScheduleTable @
UnknownName S|R

// The smallest fault is reported.
text @
UnknownName GetSpinlock X;walk|TryToGetSpinlock X v0;SetEvent A 0
BadMask GetSpinlock ?;SetEvent A 0;TryToGetSpinlock S v8
"#;

// No alarm and no schedule table acts on a spinlock.
const ACTIONS: &str = r#"
text {"spinlocks":[{"name":"S"}],"cores":[{"id":0,"tasks":[{"name":"A","prio":1,"script":""}],"counters":[{"name":"K","max":9}],"alarms":[{"name":"W","counter":"K","action":"@"}]}]}
text {"spinlocks":[{"name":"S"}],"cores":[{"id":0,"tasks":[{"name":"A","prio":1,"script":""}],"counters":[{"name":"K","max":9}],"tables":[{"name":"P","counter":"K","duration":9,"points":[{"offset":0,"actions":["@"]}]}]}]}
fine ActivateTask A
BadScript GetSpinlock S|GetSpinlock ?|GetSpinlock X|TryToGetSpinlock S v0|ReleaseSpinlock S
UnknownName ActivateTask S|SetEvent S 1
"#;

// S comes before Q, and Q before R. T comes before R alone. No other spinlocks exist.
#[test]
fn spinlocks_may_be_got_in_their_order_alone(rt: HostRuntime) -> Result<(), Fail> {
    let text =
        r#"{"spinlocks":[{"name":"S","next":"Q"},{"name":"R"},{"name":"Q","next":"R"},{"name":"T","next":"R"}],"cores":[{"id":0}]}"#;
    let config = configured(rt.alloc(), "@", text)?;
    judge_order(&rt, rt.alloc(), &config)
}

// Checks, for each spinlock that was got last, which spinlocks may be got next. The expected text has a word for each
// spinlock that was got last, and in it a digit for each spinlock: 1 if it may be got next.
fn judge_order(rt: &impl Abort, alloc: Global, config: &Config) -> Result<(), Fail> {
    let mut after = String::new(alloc);
    push_order(config, &mut after)?;
    assert!(rt;
        after.as_str() == "011000 000000 010000 010000 000000 000000 ",
        "{after}"
    );
    Ok(())
}

// Appends, for each spinlock, which spinlocks may be got next if it was got last.
fn push_order(config: &Config, after: &mut String) -> Result<(), Fail> {
    for index in 0u8..6 {
        push_after(config, SpinlockId { index }, after)?;
        after.push(' ')?;
    }
    Ok(())
}

// Appends, for each spinlock, 1 if it may be got after `newest`, and 0 if it may not.
fn push_after(config: &Config, newest: SpinlockId, after: &mut String) -> Result<(), Fail> {
    for index in 0u8..6 {
        let comes = order_ok(config, newest, SpinlockId { index });
        after.push(if comes { '1' } else { '0' })?;
    }
    Ok(())
}

#[test]
fn texts_with_spinlocks_have_their_faults_or_none(rt: HostRuntime) -> Result<(), Fail> {
    play_configurations(&rt, rt.alloc(), "@", TEXTS, 140)?;
    play_configurations(&rt, rt.alloc(), TWO_CORES, OPERATIONS, 131)?;
    play_configurations(&rt, rt.alloc(), "@", ACTIONS, 16)
}
