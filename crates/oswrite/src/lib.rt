//! Writing a configuration as a JSON text, which reads back to the same configuration.
#![tactic(auto)]

mod texts;

pub use texts::config_text;
