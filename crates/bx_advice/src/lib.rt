//! A server's configuration and limits, errors in replies, and the advice for each outcome.
#![tactic(auto)]

mod advice;
mod config;
mod count;
mod error;
mod limit;
mod options;

pub use advice::{Advice, Outcome, Reconnect, advice_for};
pub use config::Config;
pub use count::{BodyLimit, Count, ShardCount, WorkerCount};
pub use error::Error;
pub use limit::{
    BODY_LIMIT, Limit, Limits, MAX_ENTRIES, MAX_MOMENT, MAX_SHARDS, MAX_WORKERS, STANDARD_LIMITS,
};
pub use options::Options;
