//! Application modes: their names, the mode of a core, and what names a mode.

use super::play_configurations;
use std::test::Fail;

const TEXTS: &str = r#"
// The modes of a configuration: 1 to 8 names of the right form, each given once and used for nothing else.
text {"modes":@,"cores":[{"id":0}]}
fine ["M"]|["B"]|["A","B","C","D","E","F","G","H"]|["donotcare","Conflict","NONE","DONOTCARE_"]
Shape null|"M"|{}|1|true|[1]|[null]|[["M"]]|["M",2]|["9"]|[""]|["?"]|["A B"]|["M","_M"]|["\u00c4"]
Limit []|["A","B","C","D","E","F","G","H","I"]|["A","A","A","A","A","A","A","A","none"]
DuplicateName ["M","M"]|["A","B","A"]|["none"]|["conflict"]|["DONOTCARE"]|["M","DONOTCARE"]|["none","none"]|["\u006eone"]

// A name has 1 to 128 characters.
text {"modes":["@"],"cores":[{"id":0}]}
each [] n
fine 1|128
Shape 129

text {"modes":[@],"cores":[{"id":0}]}
each [,] "N@"
fine 1|8
Limit 0|9|1000

// Without modes there is one mode, M. Then nothing else may have that name.
text {"cores":[{"id":0,"mode":"@"}]}
fine M|\u004d
UnknownName N|m|MM|none|conflict

text {"modes":["A","B"],"cores":[{"id":0,"tasks":[{"name":"@","prio":1,"script":""}]}]}
text {"modes":["A","B"],"cores":[{"id":0},{"id":1,"resources":[{"name":"@","ceiling":1}]}]}
fine M|a|BB|none|conflict|DONOTCARE
DuplicateName A|B|\u0041

// The mode of a core is one of the configuration's modes, or DONOTCARE.
text {"modes":["A","B"],"cores":[{"id":0,"mode":@,"tasks":[{"name":"T","prio":1,"script":""}]}]}
fine "A"|"B"|"DONOTCARE"|"\u0041"
Shape ""|null|1|true|[]|["A"]|{}|"9"|"A B"|"?"|"_A"
UnknownName "X"|"M"|"T"|"a"|"none"|"conflict"|"donotcare"

// A list of modes holds only modes of the configuration, and not DONOTCARE.
text {"modes":["A","B"],"cores":[{"id":0,"tasks":[{"name":"T","prio":1,"auto":[@],"script":""}]}]}
text {"modes":["A","B"],"cores":[{"id":0,"tasks":[{"name":"T","prio":1,"script":""}],"counters":[{"name":"K","max":9}],"alarms":[{"name":"W","counter":"K","action":"ActivateTask T","auto":{"modes":[@],"start":1,"cycle":0}}]}]}
text {"modes":["A","B"],"cores":[{"id":0,"tasks":[{"name":"T","prio":1,"script":""}],"counters":[{"name":"K","max":9}],"tables":[{"name":"P","counter":"K","duration":9,"points":[{"offset":0,"actions":["ActivateTask T"]}],"auto":{"modes":[@],"offset":1}}]}]}
fine |"A"|"B"|"B","A"|"B","B"
UnknownName "DONOTCARE"|"M"|"T"|"A","X"|"none"
Shape ""|null|"A","?"|"B",1|"9"

// An operation names no mode.
text {"modes":["A","B"],"cores":[{"id":0,"tasks":[{"name":"T","prio":1,"script":"ActivateTask @"}]}]}
UnknownName A|B
text {"modes":["A","B"],"cores":[{"id":0,"tasks":[{"name":"T","prio":1,"script":""}],"alarms":[{"name":"W","counter":"@","action":"ActivateTask T"}]}]}
UnknownName A|B

// A counter or a task that shares its name with a mode is not looked up.
text {"modes":["A","K"],"cores":[{"id":0,"tasks":[{"name":"T","prio":1,"script":""}],"counters":[{"name":"K","max":9}],"alarms":[{"name":"W","counter":"K","action":"ActivateTask T","auto":{"modes":[],"start":@,"cycle":0}}]}]}
DuplicateName 1|10

// Of two faults the smaller is reported.
text @
Shape {"modes":[],"cores":[{"id":0,"mode":null}]}
Limit {"modes":[],"cores":[{"id":0},{"id":0}]}|{"modes":[],"cores":[{"id":0,"mode":"M"}]}|{"modes":["none"],"cap":0,"cores":[{"id":0}]}
DuplicateName {"modes":["none"],"cores":[{"id":0,"mode":"X"}]}|{"modes":["A","A"],"master":1,"cores":[{"id":0}]}
UnknownName {"modes":["A"],"cores":[{"id":0,"mode":"X","tasks":[{"name":"T","prio":1,"script":"walk"}]}]}
"#;

#[test]
fn texts_with_modes_have_their_faults_or_none(rt: HostRuntime) -> Result<(), Fail> {
    play_configurations(&rt, rt.alloc(), "@", TEXTS, 143)
}
