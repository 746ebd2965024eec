//! The shape of a configuration's text, and what it declares.
//!
//! A value that has the shape becomes a text in structs: its members exist and have their types, and the names of
//! its objects are well-formed. Its objects are in one list, in which they are looked up by name. Each part says
//! whether its own numbers keep their limits; all else is judged by the layer above.
#![tactic(auto)]

mod declarations;
mod numbers;
mod places;
mod shapes;
mod table_shapes;

pub use declarations::{Declaration, byte_of, number_id, word_of};
pub use numbers::is_between;
pub use places::Objects;
pub use shapes::{
    AlarmStartText, AlarmText, ConfigReader, ConfigText, CoreText, CounterText, IsrText,
    ResourceText, SpinlockText, TaskText,
};
pub use table_shapes::{PointText, TableStartText, TableText};
