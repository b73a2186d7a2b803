//! The settings of `bayeuxd`, from its flags or its positional arguments.
#![tactic(auto)]

mod args;
mod flags;
mod seed;
mod settings;
#[cfg(test)]
mod tests;
mod unit;

pub use args::parse_args;
pub use flags::{VERSION, read_flags};
pub use seed::{draw_seed, read_digits, read_seed};
pub use settings::{LogFormat, LogLevel, Seed, Settings};
