//! What a turn of a core requests, and one core of a run, whatever gives the core its turns.
#![tactic(auto)]

pub mod core_runs;
pub mod cores;
pub mod ends;
pub mod laws;
pub mod requests;

pub use core_runs::{CoreKernel, CoreRun, roomy};
pub use cores::ids_of;
pub use ends::have_all_ended;
pub use oskernel::SpinWish;
pub use requests::{Reply, Request, item_for_reply, look_request, own_request, spin_call_of};
