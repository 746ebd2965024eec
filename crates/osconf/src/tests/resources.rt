//! Resources, and the operations that name them.

use super::{configured, play_configurations};
use crate::Plan;
use osbase::{CoreId, ResourceRef};
use std::process::Abort;
use std::test::Fail;

// A core with two tasks and two resources, and a core with one of each.
const TWO_CORES: &str =
    r#"{"cores":[{"id":0,"tasks":[{"name":"A","prio":1,"script":"@"},{"name":"B","prio":1,"script":""}],"resources":[{"name":"R","ceiling":1},{"name":"S","ceiling":2}]},{"id":1,"tasks":[{"name":"C","prio":1,"script":""}],"resources":[{"name":"Q","ceiling":3}]}]}"#;

const OPERATIONS: &str = r#"
// Operations on resources.
fine GetResource R|GetResource S;GetResource R;ReleaseResource R;ReleaseResource S|ReleaseResource R|GetResource ?
fine ReleaseResource ?|GetResource R;ActivateTask C
UnknownName GetResource Nobody|ReleaseResource Nobody|GetResource A|GetResource C|ReleaseResource B|ActivateTask R
UnknownName ActivateTask Q|GetResource M|GetResource Nobody;GetResource R R
BadScript GetResource |GetResource|GetResource R S|GetResource R R|GetResource Q R|GetResource  R|GetResource ??
BadScript GetResource 1|getresource R|ReleaseResource|ReleaseResource R S
// A script may not name a resource of another core, but it may name a task of another core.
WrongCore GetResource Q|ReleaseResource Q|GetResource R;GetResource Q;ReleaseResource R|GetResource Q;walk
WrongCore GetResource;ReleaseResource Q|jump 9;GetResource Q
UnknownName GetResource Q;GetResource Nobody|ActivateTask R;GetResource Q|GetResource Q;walk;ActivateTask Nobody
"#;

const TEXTS: &str = r#"
// Each resource has its own limits.
text {"cores":[{"id":0,"resources":[{"name":"R","ceiling":31},{"name":"S","ceiling":@}]}]}
fine 0|31
Limit -1|32

text {"cores":[{"id":0,"resources":[{"name":"R","ceiling":1,"lock":1000000000},{"lock":@,"name":"S","ceiling":2}]}]}
fine 0|1|1000000000
Limit -1|1000000001|4294967296|18446744073709551615|-9223372036854775808
Shape 1.5|"2"|[2]

// Only a resource has a lock budget, and a resource has no other budget.
text {"cores":[{"id":0,"tasks":[{"name":"A","prio":1,"lock":@,"script":""}]}]}
text {"cores":[{"id":0,"isrs":[{"name":"I","level":1,"lock":@,"script":""}]}]}
text {"cores":[{"id":0,"resources":[{"name":"R","ceiling":1,"budget":@}]}]}
text {"cores":[{"id":0}],"spinlocks":[{"name":"S","lock":@}]}
Shape 0|2

// The name of a resource.
text {"cores":[{"id":0,"resources":[{"name":"@","ceiling":1}]}]}
Shape |_R|9|R S|?|R-S|Ä
fine R|r9_

// The name must differ from the names of all other objects, on any core, and from the mode's.
text {"cores":[{"id":0,"tasks":[{"name":"A","prio":1,"script":""}],"resources":[{"name":"@","ceiling":1}]}]}
text {"cores":[{"id":0,"tasks":[{"name":"A","prio":1,"script":""}]},{"id":1,"resources":[{"name":"@","ceiling":1}]}]}
text {"cores":[{"id":0,"resources":[{"name":"@","ceiling":1}]},{"id":1,"tasks":[{"name":"A","prio":1,"script":""}]}]}
text {"cores":[{"id":0,"resources":[{"name":"A","ceiling":1},{"name":"@","ceiling":2}]}]}
text {"cores":[{"id":0,"resources":[{"name":"A","ceiling":1}]},{"id":1,"resources":[{"name":"@","ceiling":1}]}]}
fine a|AA|m
DuplicateName A|\u0041|M

// A script is judged the same way on any core, and in any task of its core.
text {"cores":[{"id":5,"resources":[{"name":"R","ceiling":1}]},{"id":3,"tasks":[{"name":"A","prio":1,"script":""},{"name":"B","prio":1,"script":"@"}],"resources":[{"name":"Q","ceiling":1}]}],"master":3}
fine GetResource Q
WrongCore GetResource R|ReleaseResource R

// A core has at most 16 resources; other cores have 16 of their own.
text {"cores":[{"id":0,"resources":[@]},{"id":1,"resources":[{"name":"R","ceiling":1}]}]}
each [,] {"name":"R@","ceiling":1}
fine 0|1|16
Limit 17|300
"#;

#[test]
fn a_resource_has_its_name(rt: HostRuntime) -> Result<(), Fail> {
    let text =
        r#"{"cores":[{"id":0,"resources":[{"name":"R","ceiling":1},{"name":"S","ceiling":2}]}]}"#;
    let config = configured(rt.alloc(), "@", text)?;
    judge_name(&rt, config.plan());
    Ok(())
}

// Checks that the second resource of core 0 has the name S.
fn judge_name(rt: &impl Abort, plan: &Plan) {
    let second = ResourceRef {
        core: CoreId { number: 0 },
        index: 1,
    };
    let name = plan.resource_name(second);
    assert!(rt; name == "S", "{name}");
}

#[test]
fn texts_with_resources_have_their_faults_or_none(rt: HostRuntime) -> Result<(), Fail> {
    play_configurations(&rt, rt.alloc(), "@", TEXTS, 70)?;
    play_configurations(&rt, rt.alloc(), TWO_CORES, OPERATIONS, 35)
}
