//! The jobs of words, and words that are none.

use oscommand::job_of;
use osplay::same;
use std::alloc::{AllocError, Global};
use std::test::Fail;

// Words of the command line, and the job that they make, as it is printed for debugging; or how the program exits.
const WORDS: &str = r#"
mcos run a --schedule c b => Run { config: "a", stimuli: "b", schedule: Some("c"), items: None }
mcos run a b --items 255 => Run { config: "a", stimuli: "b", schedule: None, items: Some(CoreId { number: 255 }) }
mcos check a => Check { config: "a" }
mcos cut a 255 => Cut { config: "a", core: CoreId { number: 255 } }
mcos groups a => Groups { config: "a" }
mcos group a 16 => Group { config: "a", core: CoreId { number: 16 } }
mcos replay a 7 b => Replay { config: "a", core: CoreId { number: 7 }, log: "b" }
mcos threads a b --mail=locked => Threads { config: "a", stimuli: "b", turns: 1000000, mail: Locked, print: Trace }
mcos threads a b --mail ring => Threads { config: "a", stimuli: "b", turns: 1000000, mail: Ring, print: Trace }
mcos threads a b --turns 1 => Threads { config: "a", stimuli: "b", turns: 1, mail: Ring, print: Trace }
mcos threads a b --items=2 --turns=1000000000 => Threads { config: "a", stimuli: "b", turns: 1000000000, mail: Ring, print: Log(CoreId { number: 2 }) }
mcos threads --order a b => Threads { config: "a", stimuli: "b", turns: 1000000, mail: Ring, print: Order }

mcos => exits with 2
mcos walk a => exits with 2
mcos run a => exits with 2
mcos run a b --items 256 => exits with 2
mcos check => exits with 2
mcos cut a => exits with 2
mcos cut a 256 => exits with 2
mcos cut a -1 => exits with 2
mcos cut a x => exits with 2
mcos groups => exits with 2
mcos groups a 0 => exits with 2
mcos group a => exits with 2
mcos group a 256 => exits with 2
mcos threads a => exits with 2
mcos threads a b --turns 0 => exits with 2
mcos threads a b --turns 1000000001 => exits with 2
mcos threads a b --mail post => exits with 2
mcos threads a b --mail=Ring => exits with 2
mcos threads a b --order --items 0 => exits with 2
mcos threads a b --items 0 --order => exits with 2
mcos threads a b --order --order => exits with 2
mcos threads a b --order=true => exits with 2
mcos run a b --order => exits with 2
"#;

// The job that the words of this line make, or how the program exits.
fn job_text(alloc: Global, line: &str) -> Result<String, AllocError> {
    let words: Vec<&str> = line.split_whitespace().collect(alloc)?;
    match job_of(alloc, words.as_slice()) {
        Ok(job) => format!(in alloc; "{job:?}"),
        Err(error) => format!(in alloc; "exits with {}", error.exit_code()),
    }
}

#[test]
fn words_make_a_job_or_are_wrong_usage(rt: HostRuntime) -> Result<(), Fail> {
    let alloc = rt.alloc();
    let mut cases = 0usize;
    for (line, due) in WORDS.lines().filter_map(|line| line.split_once(" => ")) {
        let text = job_text(alloc, line)?;
        same(alloc, line, text.as_str(), due)?;
        cases = cases.saturating_add(1);
    }
    assert_eq!(rt; cases, 35);
    Ok(())
}
