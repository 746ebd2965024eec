//! The arguments of operations: variables, numbers, and positions in a script.

use super::play_configurations;
use std::test::Fail;

const TEXTS: &str = r#"
// Operations on variables.
text {"cores":[{"id":0,"tasks":[{"name":"A","prio":1,"script":"@"}]}]}
fine set v0 0|set v7 9223372036854775807|set v0 -9223372036854775808|add v3 -1|addv v0 v7|addv v1 v1|status v7
BadScript set v0 |set|set v0|set v0 1 2|set v0  1|set 1 v0|set v0 v1|set v0 ?|Set v0 1|add v0|addv v0 1|addv v0
BadScript addv 1 v0|status|status 0|status v0 v1|status ?

// The form of a variable.
text {"cores":[{"id":0,"tasks":[{"name":"A","prio":1,"script":"set @ 0"}]}]}
fine v0|v1|v6|v7
BadScript v8|v9|v|v00|v07|v10|V0|v-1|v+1|v0x|0|?|A|v٥

// The form of a signed number.
text {"cores":[{"id":0,"tasks":[{"name":"A","prio":1,"script":"add v0 @"}]}]}
fine 0|1|-1|10|9223372036854775807|-9223372036854775807|-9223372036854775808
BadScript 9223372036854775808|-9223372036854775809|18446744073709551615|18446744073709551616|-18446744073709551616
BadScript 100000000000000000000000|00|01|007|-0|-00|-01|+0|+1|-|--1|-+1|1-|1.0|1e0|0x1|1_0|١

// A jump goes to one of the script's operations, or just past the last one.
text {"cores":[{"id":0,"tasks":[{"name":"A","prio":1,"script":"@"}]}]}
fine jump 0|jump 1|jz v0 0|jz v7 1|jump 2;work|work;jump 1|work;jz v0 2
BadScript jump 2|jz v0 2|jump 3;work|work;jz v0 3|jump 256|jump 257|jump 4294967295|jump 4294967296
BadScript jump 18446744073709551616|jump -0|jump -1|jump +1|jump 00|jump 01|jump|jump v0|jump ?|jump 0 0|jz 0|jz v0
BadScript jz 0 v0|jz v8 0|jz v0 -1|jz v0 0 0
// The smallest fault of the text is reported.
UnknownName jump 9;ActivateTask B|ActivateTask B;jump 9

// The longest script has 256 operations.
text {"cores":[{"id":0,"tasks":[{"name":"A","prio":1,"script":"@;jump 255"}]}]}
text {"cores":[{"id":0,"tasks":[{"name":"A","prio":1,"script":"@;jump 256"}]}]}
each [;] work
fine 255

text {"cores":[{"id":0,"tasks":[{"name":"A","prio":1,"script":"@;jump 257"}]}]}
each [;] work
BadScript 255

text {"cores":[{"id":0,"tasks":[{"name":"A","prio":1,"script":"@;work;jump 257"}]}]}
each [;] work
Limit 255
"#;

#[test]
fn texts_with_arguments_have_their_faults_or_none(rt: HostRuntime) -> Result<(), Fail> {
    play_configurations(&rt, rt.alloc(), "@", TEXTS, 109)
}
