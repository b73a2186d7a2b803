//! The requests of the workloads, and their bodies as JSON.
use anyhow::Result;
use bx_cut::Bodies;
use bx_entry::{Access, Arrival};
use std::alloc::Global;

// The JSON of a handshake.
const HANDSHAKE: &str =
    r#"{"channel":"/meta/handshake","version":"1.0","supportedConnectionTypes":["long-polling"]}"#;

/// Creates a request with `body`, at moment 0.
pub fn arrival(body: String) -> Arrival {
    Arrival {
        moment: 0,
        nonce: 0,
        access: Access::ReadWrite,
        bodies: Bodies::Whole(body.into_bytes()),
    }
}

/// Creates a body with a handshake, which opens the session with the next number.
///
/// # Errors
///
/// If memory runs out.
pub fn handshake(alloc: Global) -> Result<String> {
    Ok(format!(in alloc; "[{HANDSHAKE}]")?)
}

/// Creates a body with the handshake of session `number`, and its subscription to `patterns`.
///
/// `patterns`: a JSON string, or an array of JSON strings.
///
/// # Errors
///
/// If memory runs out.
pub fn opening(alloc: Global, number: u64, patterns: &str) -> Result<String> {
    Ok(format!(in alloc;
        "[{HANDSHAKE},{{\"channel\":\"/meta/subscribe\",\"clientId\":\"{number:048x}\",\"subscription\":{patterns}}}]"
    )?)
}

/// Creates a body with a subscription of session `number` to the channel of `thread`.
///
/// # Errors
///
/// If memory runs out.
pub fn subscription(alloc: Global, number: u64, thread: u64) -> Result<String> {
    Ok(format!(in alloc;
        "[{{\"channel\":\"/meta/subscribe\",\"clientId\":\"{number:048x}\",\"subscription\":\"/stock/{thread}\"}}]"
    )?)
}

/// Creates a body with a publish by session `number` to the channel of `thread`.
///
/// # Errors
///
/// If memory runs out.
pub fn publish(alloc: Global, number: u64, thread: u64) -> Result<String> {
    Ok(format!(in alloc;
        "[{{\"channel\":\"/stock/{thread}\",\"clientId\":\"{number:048x}\",\"data\":{{\"symbol\":\"GOOG\",\"price\":1234.5}}}}]"
    )?)
}

/// Creates a body with a connect of session `number`, which is answered at once.
///
/// # Errors
///
/// If memory runs out.
pub fn connect(alloc: Global, number: u64) -> Result<String> {
    Ok(format!(in alloc;
        "[{{\"channel\":\"/meta/connect\",\"clientId\":\"{number:048x}\",\"connectionType\":\"long-polling\",\"advice\":{{\"timeout\":0}}}}]"
    )?)
}
