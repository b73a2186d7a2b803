//! The definitions in which the server's laws are stated, and lemmas about the server.
//!
//! The lemmas hold for every list of messages and ticks. The proofs of other crates cite them.
#![tactic(auto)]
