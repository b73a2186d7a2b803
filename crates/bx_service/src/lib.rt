//! Bayeux over HTTP: collects a request's body, posts its messages, and responds with the answers.
#![tactic(auto)]

mod answer_logger;
mod backend;
mod collect;
mod error;
mod exchange;
mod gathering;
mod observer;
mod probe;
mod response;
mod route;
mod service;
mod witness;

pub use answer_logger::AnswerLogger;
pub use backend::{Answered, Backend, Clock, Declined, HubBackend, Nonces, Unanswered};
pub use collect::{Collect, CollectError};
pub use error::RequestError;
pub use exchange::Exchange;
pub use gathering::ItemsFuture;
pub use observer::{Observer, ServiceEvent};
pub use route::Transports;
pub use service::{BayeuxService, ServiceFault};
pub use witness::{HubWitness, Lack, Stamp};
