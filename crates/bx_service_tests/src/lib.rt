//! Tests of `bx_held` and `bx_service`: held connects and HTTP exchanges.
//!
//! They are a separate crate because `.ci/run` proves a crate with tests twice.
#![tactic(auto)]

#[cfg(test)]
mod answers;
#[cfg(test)]
mod connects;
#[cfg(test)]
mod exchanges;
#[cfg(test)]
mod observers;
#[cfg(test)]
mod requests;
#[cfg(test)]
mod runs;
#[cfg(test)]
mod same;
