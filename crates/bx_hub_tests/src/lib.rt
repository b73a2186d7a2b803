//! Tests of `bx_window` and `bx_hub` from one thread.
//!
//! They are a separate crate because `.ci/run` proves a crate with tests twice.
#![tactic(auto)]

#[cfg(test)]
mod bench;
#[cfg(test)]
mod crowd;
#[cfg(test)]
mod examples;
#[cfg(test)]
mod moves;
#[cfg(test)]
mod pauses;
#[cfg(test)]
mod recorded;
#[cfg(test)]
mod same;
#[cfg(test)]
mod sessions;
#[cfg(test)]
mod steps;
#[cfg(test)]
mod tests;
#[cfg(test)]
mod wakers;
#[cfg(test)]
mod window;
