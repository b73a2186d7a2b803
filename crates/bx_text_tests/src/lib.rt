//! Tests of the crates that read and write the texts of messages.
//!
//! They are a separate crate because `.ci/run` proves a crate with tests twice.
#![tactic(auto)]

#[cfg(test)]
mod cut;
#[cfg(test)]
mod examples;
#[cfg(test)]
mod message;
#[cfg(test)]
mod names;
#[cfg(test)]
mod same;
#[cfg(test)]
mod transport;
