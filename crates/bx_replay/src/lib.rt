//! Replays of scripts and records: their arguments, and the answers printed for each line.
#![tactic(auto)]

mod argument_error;
mod arguments;
mod kept;
mod record;
mod script;
mod server;

pub use argument_error::{ArgumentError, FirstLineError};
pub use arguments::Arguments;
pub use record::read_settings;
pub use script::replay;
