//! The world of a listed run: cores and what they share, turn by turn.
#![tactic(auto)]

mod answering;
pub mod orders;
pub mod runs;
mod seeking;
mod worlds;

pub use orders::order;
pub use osbase::Report;
pub use osrun::{
    Reply, Request, SpinWish, have_all_ended, item_for_reply, look_request, own_request,
};
pub use runs::{RunFault, default_schedule, run_default, run_world};
