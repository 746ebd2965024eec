//! The services of resources.

ghost use Rattle.std.specs.Prelude.{IsTrue, ◌≡◌};
ghost use Rattle.osjobs.specs.Priorities.{is_own_runner};
ghost use Rattle.osstate.specs.Does.{service_entries, service_marks};
ghost use Rattle.osservice.specs.Terms.{MayAct};
ghost use Rattle.osservice_tasks.specs.Resources.{gets_resource, is_below, releases_resource};
ghost use Rattle.osacts.specs.{Runs.seen_in, Steps.Steps};

use osbase::{HeldResource, Mark, ResourceRef, Runner, ServiceId, Status};
use osservice::{accept, refuse};
use osstate::CoreState;

// Whether the resource's ceiling is below the static priority of one of the core's tasks. An ISR has no static
// priority, so no ceiling is below it.
fn is_below<const P: usize, const J: usize, const OUT: usize>(
    state: &CoreState<'_, P, J, OUT>,
    runner: Runner,
    resource: HeldResource,
) -> bool
    requires { IsTrue (is_own_runner state.now.view.own runner) }
    ensures { result ≡ is_below (seen_in state.now) runner resource }
{
    resource.ceiling < state.static_priority(runner)
}

/// A running job takes a resource (OSEK/VDX OS 2.2.3, section 13.4.3.1). The service returns E_OS_ID for the invalid
/// identifier and for a resource of another core, and E_OS_ACCESS for a resource that a job holds or whose ceiling is
/// below the caller's static priority. It has no other effect then.
pub fn get_resource<const P: usize, const J: usize, const OUT: usize>(
    state: &mut CoreState<'_, P, J, OUT>,
    runner: Runner,
    target: Option<ResourceRef>,
    marks: &mut Vec<Mark>,
)
    requires { MayAct service_entries service_marks state.old runner marks.old }
    ensures { Steps service_entries service_marks (gets_resource runner target) state.old state.new marks.old marks.new }
{
    let service = ServiceId::GetResource;
    let Some(resource) = state.resource(target) else {
        return refuse(state, runner, service, Status::EOsId, marks);
    };
    if state.is_occupied(resource.index) || is_below(state, runner, resource) {
        return refuse(state, runner, service, Status::EOsAccess, marks);
    }
    state.take_resource(runner, resource);
    accept(state, runner, service, marks);
}

/// A running job gives back the newest of the resources that it holds (OSEK/VDX OS 2.2.3, section 13.4.3.2).
/// The service returns E_OS_ID for the invalid identifier and for a resource of another core, E_OS_ACCESS for one whose
/// ceiling is below the caller's static priority, and E_OS_NOFUNC for one that is not the newest that the caller holds.
/// It has no other effect then.
pub fn release_resource<const P: usize, const J: usize, const OUT: usize>(
    state: &mut CoreState<'_, P, J, OUT>,
    runner: Runner,
    target: Option<ResourceRef>,
    marks: &mut Vec<Mark>,
)
    requires { MayAct service_entries service_marks state.old runner marks.old }
    ensures { Steps service_entries service_marks (releases_resource runner target) state.old state.new marks.old marks.new }
{
    let service = ServiceId::ReleaseResource;
    let Some(resource) = state.resource(target) else {
        return refuse(state, runner, service, Status::EOsId, marks);
    };
    if is_below(state, runner, resource) {
        return refuse(state, runner, service, Status::EOsAccess, marks);
    }
    if !state.is_newest(runner, resource.index) {
        return refuse(state, runner, service, Status::EOsNofunc, marks);
    }
    state.give_resource(runner, resource.index);
    accept(state, runner, service, marks);
}
