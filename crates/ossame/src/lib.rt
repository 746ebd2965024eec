//! Whether two items, letters or messages are the same. `==` gives this answer too, but no clause says what it means.
#![tactic(auto)]

pub mod items;
pub mod messages;

pub use items::{are_same_items, is_same_item};
pub use messages::is_same_letter;
