//! The hub: a server for many threads, which post, tick and poll for answers.
//!
//! One lock guards the registry, the window's writer and the record. Each shard has its own lock.
#![tactic(auto)]

mod activity;
mod admission;
mod fault;
mod hub;
mod kind;
mod laws;
mod parsed_request;
mod recording;
mod shard_state;
mod submission;
mod survey;
mod walk;

pub use bx_connects::Watch;
pub use bx_shard::{Gate, OpenGate, SessionSurvey};
pub use fault::{HubFault, Lagging, PostFault, PostReceipt, TickReceipt};
pub use hub::{Hub, Pass};
pub use kind::{HubKind, Kind};
pub use laws::{appended_elements_differ, calls_are_sequentially_consistent};
pub use parsed_request::Rejection;
pub use recording::{NotRecording, RecordFront};
pub use shard_state::{
    ChangeEvidence, NoAnswer, SessionEvidence, ShardChange, Unfiled, WatchEvidence,
};
pub use submission::Tick;
pub use survey::{ShardSurvey, Survey};
pub use walk::{AdvanceReport, ChangeReport};
