//! The plans of the schedule tables of a text.

ghost use Rattle.std.specs.Prelude.{◌≡◌, IfOk, option_map, true};
ghost use Rattle.osvalidate.specs.{Action.action_of, Verdict.action_verdict, Verdict.point_verdict, Verdict.table_verdict};
ghost use Rattle.osload.specs.Meaning.{point_plan, table_plan, table_start_plan};

use crate::planners::{Planner, plan_each};
use crate::plans::{CorePlanner, modes_of};
use osbase::{List, Name, RemoteCall};
use osjson::Text;
use osplan::{ConfFault, ExpiryPoint, Table, TableStart};
use osschema::{Objects, PointText, TableStartText, TableText, word_of};
use osvalidate::{Judged, Verdict, are_table_modes_known, judge_action, judge_counter};
use std::alloc::{AllocError, Global};

impl<'e> Planner<'e, Text<'e>, RemoteCall> for CorePlanner<'_, 'e> {
    ghost made = { λ planner. action_of planner.objects.now.declared };

    ghost right = { λ planner. action_verdict planner.objects.now.declared };

    ghost is_short = { λ _ _. true };

    fn plan(&self, _: Global, text: &'e Text<'e>) -> Result<Judged<RemoteCall>, ConfFault> {
        Ok(judge_action(self.objects, text.as_str()))
    }
}

impl<'e> Planner<'e, PointText<'e>, ExpiryPoint> for CorePlanner<'_, 'e> {
    ghost made = { λ planner. point_plan planner.objects.now.declared };

    ghost right = { λ planner. point_verdict planner.objects.now.declared };

    ghost is_short = { λ _ _. true };

    #[tactic(auto, using(crate::proofs::Loops::always))]
    fn plan(
        &self,
        alloc: Global,
        point: &'e PointText<'e>,
    ) -> Result<Judged<ExpiryPoint>, ConfFault> {
        let actions = plan_each(alloc, self, point.actions.as_slice())?;
        Ok(Judged {
            value: ExpiryPoint {
                offset: word_of(point.offset),
                actions: actions.value,
            },
            verdict: Verdict {
                near: true,
                ..actions.verdict
            },
        })
    }
}

// How a schedule table is autostarted, as the text `auto` means it.
fn start_of(
    alloc: Global,
    objects: &Objects,
    auto: &TableStartText,
) -> Result<TableStart, AllocError>
    ensures { IfOk result (λ start. start ≡ table_start_plan objects.now.declared auto.now) }
{
    Ok(TableStart {
        modes: List::from_vec(modes_of(alloc, objects, auto.modes.as_slice())?),
        offset: word_of(auto.offset),
    })
}

// How a schedule table is autostarted, as the text `auto` means it. None if the table is not autostarted.
fn auto_of(
    alloc: Global,
    objects: &Objects,
    auto: &Option<TableStartText>,
) -> Result<Option<TableStart>, AllocError>
    ensures { IfOk result (λ start. start ≡ option_map (table_start_plan objects.now.declared) auto.now) }
{
    match auto {
        Some(auto) => Ok(Some(start_of(alloc, objects, auto)?)),
        None => Ok(None),
    }
}

impl<'e> Planner<'e, TableText<'e>, Table> for CorePlanner<'_, 'e> {
    ghost made = { λ planner. table_plan planner.objects.now.declared planner.core };

    ghost right = { λ planner. table_verdict planner.objects.now.declared planner.core };

    ghost is_short = { λ _ _. true };

    #[tactic(auto, using(crate::proofs::Loops::always))]
    fn plan(&self, alloc: Global, table: &'e TableText<'e>) -> Result<Judged<Table>, ConfFault> {
        let counter = judge_counter(self.objects, self.core, table.counter.as_str());
        let points = plan_each(alloc, self, table.points.as_slice())?;
        Ok(Judged {
            value: Table {
                name: Name::new(alloc, table.name.as_str())?,
                counter: counter.value,
                duration: word_of(table.duration),
                repeating: table.repeating,
                points: points.value,
                auto: auto_of(alloc, self.objects, &table.auto)?,
            },
            verdict: Verdict {
                known: counter.verdict.known
                    & points.verdict.known
                    & are_table_modes_known(self.objects, table),
                near: counter.verdict.near,
                masked: points.verdict.masked,
                formed: points.verdict.formed,
            },
        })
    }
}
