//! One session: its subscriptions, connects, deliveries and riders.
#![tactic(auto)]

mod answered;
mod laws;
mod patterns;
mod pending;
mod room;
mod session;

pub use answered::{Answered, ConnectResult, Delivery};
pub use laws::{
    answer_has_place_of_its_entry, batches_at_most_entries, entry_forms_at_most_one_batch,
};
pub use pending::PendingConnect;
pub use room::RideRoom;
pub use session::Session;
