//! The window: one writer publishes batches of entries, and readers find them without a lock.
#![tactic(auto)]

mod batch;
mod front;
mod law;
mod published;
mod reader;
mod ring;
mod showing;
mod writer;

pub use batch::{UnpublishedBatch, entry_of};
pub use front::{Book, EmptyWindow, Front};
pub use law::{LogId, LogRule, LogStep, LoggedStep};
pub use published::{PublishedBatch, RingChange, Trimmed};
pub use reader::{LogReader, Next};
pub use ring::{KeptBatch, Ring};
pub use writer::{LogWriter, MAX_BATCHES, PublishFault, Writer, log_pair};
