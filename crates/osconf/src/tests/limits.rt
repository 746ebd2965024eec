//! Each limit of a configuration, at, below and above; each fault, and the smaller of two.

use super::play_configurations;
use std::test::Fail;

const TEXTS: &str = r#"
// A member's lowest and highest numbers, then what is just outside.
text {"version":@,"cores":[{"id":0}]}
fine 1|2
Limit 0|3

text {"cap":@,"cores":[{"id":0}]}
fine 1|16
Limit 0|17

text {"master":1,"cores":[{"id":1},{"id":@}]}
text {"version":1,"master":1,"cores":[{"id":1},{"id":@}]}
fine 0|7
Limit -1|8|9|15|16

text {"version":2,"master":1,"cores":[{"id":1},{"id":@}]}
fine 0|7|8|9|15
Limit -1|16

text {"cores":[{"id":0,"start":[1,@]}]}
fine 0|255
Limit -1|256

text {"cores":[{"id":0,"tasks":[{"name":"A","prio":@,"script":""}]}]}
fine 0|31
Limit -1|32

text {"cores":[{"id":0,"tasks":[{"name":"A","prio":1,"activations":@,"script":""}]}]}
fine 1|64
Limit 0|65

text {"cores":[{"id":0,"resources":[{"name":"R","ceiling":@}]}]}
fine 0|31
Limit -1|32

text {"cores":[{"id":0,"resources":[{"name":"R","ceiling":1,"lock":@}]}]}
fine 0|1000000000
Limit -1|1000000001

// Numbers far outside their limits.
text {"version":@,"cores":[{"id":0}]}
text {"cap":@,"cores":[{"id":0}]}
text {"master":1,"cores":[{"id":1},{"id":@}]}
text {"version":2,"master":1,"cores":[{"id":1},{"id":@}]}
text {"cores":[{"id":0,"start":[1,@]}]}
text {"cores":[{"id":0,"tasks":[{"name":"A","prio":@,"script":""}]}]}
text {"cores":[{"id":0,"tasks":[{"name":"A","prio":1,"activations":@,"script":""}]}]}
text {"cores":[{"id":0,"resources":[{"name":"R","ceiling":@}]}]}
Limit 18446744073709551615|-1|-9223372036854775808|257|4294967297

// A master that is not a configured core is unknown, however far its number is from those of the cores.
text {"master":@,"cores":[{"id":0},{"id":7}]}
fine 0|7
UnknownName 1|8|256|263|-1|18446744073709551615|-9223372036854775808

text {"cores":[{"id":@}]}
UnknownName 1|7

// Each task of a core has its own limits.
text {"cores":[{"id":0,"tasks":[{"name":"A","prio":31,"script":""},{"name":"B","prio":@,"script":""}]}]}
fine 0|31
Limit -1|32

// A configuration of version 1 has 1 to 8 cores, and one of version 2 has 1 to 16. They are counted before their numbers are compared.
text {"cores":[@]}
text {"version":1,"cores":[@]}
fine {"id":0}|{"id":7},{"id":6},{"id":5},{"id":4},{"id":3},{"id":2},{"id":1},{"id":0}
Limit |{"id":0},{"id":1},{"id":2},{"id":3},{"id":4},{"id":5},{"id":6},{"id":7},{"id":0}
each [,] {"id":0}
DuplicateName 2|8
Limit 9|16|17

text {"version":2,"cores":[@]}
each [,] {"id":@}
fine 1|8|9|16
Limit 0|17
each [,] {"id":0}
DuplicateName 2|9|16
Limit 17|300

// No other number is a version, however many cores there are.
text {"version":3,"cores":[@]}
each [,] {"id":@}
Limit 0|1|9|16|17

// The activation limits of a core's tasks add up to at most 64.
text {"cores":[{"id":0,"tasks":[{"name":"A","prio":1,"activations":63,"script":""},{"name":"B","prio":1,"activations":@,"script":""}]}]}
fine 1
Limit 0|2|-1|65|18446744073709551553

// By default, the activation limit of a task is 1.
text {"cores":[{"id":0,"tasks":[{"name":"A","prio":1,"script":""},{"name":"B","prio":1,"activations":@,"script":""}]}]}
fine 63
Limit 64

// Each fault of a configuration.
text @
NotJson {"cores":[
Shape []|{}|{"cores":[{"id":0}],"x":1}|{"cores":[{"id":0.5}]}|{"cores":[{"id":0}],"spinlock":[]}
Shape {"cores":[{"id":0,"tasks":[{"name":"9","prio":1,"script":""}]}]}
Limit {"cores":[]}|{"cores":[{"id":8}]}|{"cores":[{"id":-1}]}|{"version":3,"cores":[{"id":0}]}
DuplicateName {"cores":[{"id":0},{"id":0}]}|{"cores":[{"id":0,"tasks":[{"name":"M","prio":1,"script":""}]}]}
UnknownName {"master":1,"cores":[{"id":0}]}
UnknownName {"cores":[{"id":0,"tasks":[{"name":"A","prio":1,"auto":["N"],"script":""}]}]}
UnknownName {"cores":[{"id":0,"tasks":[{"name":"A","prio":1,"script":"ActivateTask B"}]}]}
BadScript {"cores":[{"id":0,"tasks":[{"name":"A","prio":1,"script":"jump 2"}]}]}
BadScript {"cores":[{"id":0,"tasks":[{"name":"A","prio":1,"script":"work;"}]}]}
Limit {"cores":[{"id":0,"tasks":[{"name":"A","prio":32,"script":"jump 2"}]}]}

// Of two faults the smaller is reported, whichever comes first in the text. Each two neighbouring faults are tried.
Shape {"version":3,"cores":[{"id":0}],"x":1}|{"cap":1.0,"cores":[{"id":8}]}
Limit {"cores":[{"id":0},{"id":0}],"cap":17}|{"cores":[{"id":0},{"id":0}],"version":3}|{"cores":[{"id":8},{"id":8}]}
Limit {"cores":[{"id":0,"tasks":[{"name":"A","prio":32,"script":""}]},{"id":1,"tasks":[{"name":"A","prio":1,"script":""}]}]}
DuplicateName {"master":1,"cores":[{"id":0},{"id":0}]}
DuplicateName {"cores":[{"id":0,"tasks":[{"name":"M","prio":1,"auto":["N"],"script":""}]}]}
UnknownName {"cores":[{"id":0,"tasks":[{"name":"A","prio":1,"script":"work;;ActivateTask B"}]}]}
UnknownName {"cores":[{"id":0,"tasks":[{"name":"A","prio":1,"script":"ActivateTask B;work x"}]}]}
UnknownName {"cores":[{"id":0,"tasks":[{"name":"A","prio":1,"auto":["N"],"script":";"}]}]}

// A core has at most 32 tasks; other cores have 32 of their own.
text {"cores":[{"id":0,"tasks":[@]},{"id":1,"tasks":[{"name":"A","prio":1,"script":""}]}]}
each [,] {"name":"T@","prio":1,"activations":1,"script":""}
fine 0|1|2|32
Limit 33|300

// The activation limits of a core's tasks add up to at most 64; other cores have 64 of their own.
text {"cores":[{"id":0,"tasks":[@]},{"id":1,"tasks":[{"name":"A","prio":1,"activations":64,"script":""}]}]}
each [,] {"name":"T@","prio":1,"activations":64,"script":""}
fine 1
Limit 2|32
each [,] {"name":"T@","prio":1,"activations":32,"script":""}
fine 2
each [,] {"name":"T@","prio":1,"activations":33,"script":""}
Limit 2
each [,] {"name":"T@","prio":1,"activations":2,"script":""}
fine 32
each [,] {"name":"T@","prio":1,"activations":3,"script":""}
Limit 32

// A script has at most 256 operations, which are counted before they are read.
text {"cores":[{"id":0,"tasks":[{"name":"A","prio":1,"script":"@"}]}]}
each [;] work
fine 256
Limit 257
each [;]
BadScript 256
Limit 257

text {"cores":[{"id":0,"tasks":[{"name":"A","prio":1,"script":"@;"}]}]}
each [;] ActivateTask B
Limit 256
"#;

#[test]
fn texts_at_limits_have_their_faults_or_none(rt: HostRuntime) -> Result<(), Fail> {
    play_configurations(&rt, rt.alloc(), "@", TEXTS, 194)
}
