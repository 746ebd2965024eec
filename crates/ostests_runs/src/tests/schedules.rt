//! The turns of the default schedule.

ghost use Rattle.osplan.specs.Stimuli.{AreKnown};

use super::logs::BORDER;
use osbase::Report;
use osconf::{Config, Stimuli, read_config, read_stimuli};
use osplay::examples::MUTUAL;
use osplay::{Difference, blocks_of, compare, given, run_of};
use osworld::{RunFault, default_schedule, run_world};
use std::alloc::Global;
use std::test::Fail;

#[test]
fn the_turns_of_the_default_schedule_give_what_the_default_run_gives(
    rt: HostRuntime,
) -> Result<(), Fail> {
    let alloc = rt.alloc();
    let (border, asked) = given(BORDER)?;
    let (mutual, both_asked) = given(MUTUAL)?;
    let examples = [(border, asked), (mutual, both_asked), (border, "{}")];
    for (config, stimuli) in examples.as_slice() {
        let texts = [Some(*config), Some(*stimuli)];
        let run = run_of_default_turns(alloc, config, stimuli)?;
        compare(&rt, alloc, &run_of(None), &texts, (run.as_str(), "", 0))?;
    }
    Ok(())
}

// The reports of the run of the default schedule's turns.
fn reports_of(alloc: Global, config: &Config, stimuli: &Stimuli) -> Result<Vec<Report>, RunFault>
    requires { AreKnown config.now stimuli.now }
{
    let turns = default_schedule(alloc, config, stimuli)?;
    run_world(alloc, config, stimuli, turns.as_slice())
}

// What a run with these reports prints if each started core ended.
fn run_text(alloc: Global, config: &Config, reports: &[Report]) -> Result<String, Difference> {
    let mut text = blocks_of(alloc, config, reports)?;
    text.push_str("ended\n")?;
    Ok(text)
}

// What the run of the default schedule's turns prints.
fn run_of_default_turns(alloc: Global, config: &str, stimuli: &str) -> Result<String, Fail> {
    let config = read_config(alloc, config)?;
    let stimuli = read_stimuli(alloc, &config, stimuli)?;
    match reports_of(alloc, &config, &stimuli) {
        Ok(reports) => Ok(run_text(alloc, &config, reports.as_slice())?),
        Err(fault) => Err(Fail::from(fault)),
    }
}
