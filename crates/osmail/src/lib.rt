//! The mailboxes between cores. Each ordered pair of cores has one, and no two pairs share one. What is put
//! into a mailbox leaves it in the same order.
//!
//! `ListMail` is for a listed run, in which one thread plays all cores. `RingMail` and `LockedMail` are for cores on
//! threads of their own; each of these cores has one end of the mail.
#![tactic(auto)]

pub mod ends;
mod letters;
pub mod list;
pub mod locked;
pub mod mailbox;
pub mod rings;
mod settling;

pub use ends::{Mail, MailStep};
pub use list::ListMail;
pub use locked::{LockedEnd, LockedMail};
pub use mailbox::Mailbox;
pub use rings::{RingEnd, RingMail};
