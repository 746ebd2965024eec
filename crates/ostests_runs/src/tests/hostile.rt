//! Hostile texts, and the line that reports each fault.

use osconf::ConfFault;
use osjob::{Fault, report_ending};
use osplay::{Difference, play_table};
use ostrace::{MemorySink, WriteFailed};
use osworld::RunFault;
use std::alloc::AllocError;

const TEXTS: &str = r#"
// Lists within lists.
config <200*[><200*]>
check
fault 1 NotJson

config @

// Prefixes of a configuration.
with {"cores":[|{"cores":[{"id":0,"start":[1],"tasks":[{"name":"A|{"cores":[{"id":0}]
check
fault 1 NotJson

// An unknown member.
with {"cores":[{"id":0}],"x":1}
check
fault 2 Shape

// A configuration without cores, and a core number beyond the last.
with {"cores":[]}|{"cores":[{"id":8}]}
check
fault 3 Limit

// One core twice.
with {"cores":[{"id":0},{"id":0}]}
check
fault 4 DuplicateName

// A master that is not a configured core.
with {"master":1,"cores":[{"id":0}]}
check
fault 5 UnknownName

// An alarm on the counter of another core.
with {"cores":[{"id":0,"tasks":[{"name":"A","prio":1,"script":""}],"alarms":[{"name":"L","counter":"C","action":"ActivateTask A"}]},{"id":1,"counters":[{"name":"C","max":9}]}]}
check
fault 6 WrongCore

// A spinlock that is its own successor.
with {"spinlocks":[{"name":"S1","next":"S1"}],"cores":[{"id":0}]}
check
fault 7 SpinOrder

// A mask without events.
with {"cores":[{"id":0,"tasks":[{"name":"W","prio":1,"extended":true,"script":"SetEvent W 0"}]}]}
check
fault 8 BadMask

// A repeating table whose last point comes where the next period begins.
with {"cores":[{"id":0,"tasks":[{"name":"A","prio":1,"script":""}],"counters":[{"name":"C","max":9}],"tables":[{"name":"S","counter":"C","duration":3,"repeating":true,"points":[{"offset":3,"actions":["ActivateTask A"]}]}]}]}
check
fault 9 BadTable

// A jump past the end.
with {"cores":[{"id":0,"tasks":[{"name":"A","prio":1,"script":"jump 2"}]}]}
check
fault 10 BadScript

// Faults of the other files, beside a configuration without faults.
config {"cores":[{"id":0,"start":[1],"tasks":[{"name":"A","prio":1,"auto":["M"],"script":"ActivateTask B;TerminateTask"}]},{"id":1,"tasks":[{"name":"B","prio":1,"script":"TerminateTask"}]}]}
check
ok
core 0 bound
core 1 bound

// Two spaces between stimuli.
stimuli {"0":"op  op"}
run
fault 12 BadStimulus

// A core that serves itself.
stimuli {}
turns "0s0"
run
fault 13 BadSchedule

// Two spaces in a line of a log.
log
stim  op

replay 0
fault 14 BadLog

// A stimulus of a core that has not begun.
log
stim op

replay 0
core 0
fault 15 ItemRefused 1
"#;

#[test]
fn hostile_texts_have_their_faults(rt: HostRuntime) -> Result<(), Difference> {
    play_table(&rt, rt.alloc(), TEXTS, 19)
}

// Each fault, also those that no text has, and its line.
const FAULTS: [(Fault, &str); 22] = [
    (Fault::Text(ConfFault::NotJson), "fault 1 NotJson\n"),
    (Fault::Text(ConfFault::Shape), "fault 2 Shape\n"),
    (Fault::Text(ConfFault::Limit), "fault 3 Limit\n"),
    (
        Fault::Text(ConfFault::DuplicateName),
        "fault 4 DuplicateName\n",
    ),
    (Fault::Text(ConfFault::UnknownName), "fault 5 UnknownName\n"),
    (Fault::Text(ConfFault::WrongCore), "fault 6 WrongCore\n"),
    (Fault::Text(ConfFault::SpinOrder), "fault 7 SpinOrder\n"),
    (Fault::Text(ConfFault::BadMask), "fault 8 BadMask\n"),
    (Fault::Text(ConfFault::BadTable), "fault 9 BadTable\n"),
    (Fault::Text(ConfFault::BadScript), "fault 10 BadScript\n"),
    (Fault::Text(ConfFault::NoMemory), "fault 11 NoMemory\n"),
    (
        Fault::Text(ConfFault::BadStimulus),
        "fault 12 BadStimulus\n",
    ),
    (
        Fault::Text(ConfFault::BadSchedule),
        "fault 13 BadSchedule\n",
    ),
    (Fault::BadLog, "fault 14 BadLog\n"),
    (Fault::ItemRefused(1), "fault 15 ItemRefused 1\n"),
    (
        Fault::ItemRefused(u64::MAX),
        "fault 15 ItemRefused 18446744073709551615\n",
    ),
    (Fault::NoMemoryToRun, "fault 16 NoMemory\n"),
    (Fault::NoThread, "fault 17 NoThread\n"),
    (Fault::MailBreak, "fault 18 MailBreak\n"),
    (Fault::WriteFailed, "fault 19 WriteFailed\n"),
    (
        Fault::Text(ConfFault::NotSeparate),
        "fault 20 NotSeparate\n",
    ),
    (Fault::Unreadable, "fault 21 Unreadable\n"),
];

#[test]
fn each_fault_has_its_line(rt: HostRuntime) {
    for (fault, line) in FAULTS {
        let mut err = MemorySink::new(Vec::new(rt.alloc()));
        assert_eq!(rt; report_ending(Err(fault), &mut err), 1);
        assert_eq!(rt; err.bytes.as_slice(), line.as_bytes());
    }
}

// Memory that runs out before a run is one fault; memory that runs out in a run is another.
#[test]
fn out_of_memory_and_a_refused_write_have_their_faults(rt: HostRuntime) {
    assert_eq!(rt; Fault::from(AllocError).number(), 11);
    assert_eq!(rt; Fault::from(RunFault::NotBegun).number(), 16);
    assert_eq!(rt; Fault::from(WriteFailed).number(), 19);
}
