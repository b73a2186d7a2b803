//! The documents of a POST or a GET, and responses to a GET as calls of a function in a script.
#![tactic(auto)]

mod callback;
mod error;
mod form;
mod laws;
mod request;
mod response;

pub use error::TransportError;
pub use form::has_media_type;
pub use laws::scripts_read_the_same;
pub use request::{read_get, read_post};
pub use response::{callback_of, push_script_safe};
