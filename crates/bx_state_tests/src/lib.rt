//! Tests of requests and of shards.
//!
//! They are a separate crate because `.ci/run` proves a crate with tests twice.
#![tactic(auto)]

#[cfg(test)]
mod entry;
#[cfg(test)]
mod same;
#[cfg(test)]
mod wakes;
