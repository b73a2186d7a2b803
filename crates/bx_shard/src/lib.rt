//! Shards of sessions with their patterns, connects and answers, and workers that advance shards.
#![tactic(auto)]

mod follow;
mod gate;
mod laws;
mod patterns;
mod publish;
mod ride;
mod sessions;
mod shard;
mod survey;
mod tick;
mod upward;

pub use bx_connects::{TakenAnswer, Wakers, Watch};
pub use gate::{Gate, OpenGate};
pub use laws::{
    entry_determines_filed_answers, entry_determines_sessions, filed_answers_match_definitions,
    new_session_is_newest, refines_applied, refines_longer_list, refines_other_swept,
    refines_other_taken, refines_shut, refines_swept, refines_taken, refines_unchanged,
    refines_watched, refines_when_new, sessions_are_live, sessions_ascend,
};
pub use sessions::Sessions;
pub use shard::Shard;
pub use survey::SessionSurvey;
pub use upward::bring_up;
