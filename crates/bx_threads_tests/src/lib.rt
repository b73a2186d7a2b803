//! Tests of `bx_hub` from several threads.
//!
//! They are a separate crate because `.ci/run` proves a crate with tests twice.
#![tactic(auto)]

#[cfg(test)]
mod bells;
#[cfg(test)]
mod caller;
#[cfg(test)]
mod crowd;
#[cfg(test)]
mod digests;
#[cfg(test)]
mod hubs;
#[cfg(test)]
mod locks;
#[cfg(test)]
mod rounds;
#[cfg(test)]
mod same;
#[cfg(test)]
mod threads;
