//! Tests of `bx_script`, `bx_world`, `bx_fanout` and `bx_replay`.
//!
//! They are a separate crate because `.ci/run` proves a crate with tests twice.
#![tactic(auto)]

#[cfg(test)]
mod examples;
#[cfg(test)]
mod fanout;
#[cfg(test)]
mod gates;
#[cfg(test)]
mod replays;
#[cfg(test)]
mod requests;
#[cfg(test)]
mod same;
#[cfg(test)]
mod script;
#[cfg(test)]
mod workers;
