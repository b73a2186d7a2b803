//! The server for one thread: a list of requests and ticks that shards apply in any interleaving.
#![tactic(auto)]

mod laws;
mod step;
mod world;

pub use laws::{
    answers_are_filed, answers_can_be_taken, batches_repeat, headline, list_grows_as_admitted,
    no_answer_taken_twice, no_event_given_again, plain_events_given_once, replies_match_one_thread,
    schedules_compose, taken_answers_match_one_thread,
};
pub use step::{Applied, Step, StepOut};
pub use world::World;
