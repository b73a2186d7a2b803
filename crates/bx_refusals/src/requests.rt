//! The configuration of the runs, and the texts of responses and of lines. A text that is not UTF-8
//! is `Wrong`.
use crate::unlike::Unlike;
use bx_advice::{Config, Limit};
use bx_calls::config_of;
use bx_message::{Answer, Item, Reply, body_text, reply_text};
use std::alloc::Global;

/// Creates a configuration with `shards` shards and at most four sessions.
///
/// # Errors
///
/// `Wrong` if `shards` is not from 1 to 64.
pub fn config(shards: usize) -> Result<Config, Unlike> {
    let config = config_of(shards).ok_or(Unlike::Wrong("no configuration"))?;
    config
        .with_maximum(Limit::Sessions, 4)
        .ok_or(Unlike::Wrong("no configuration"))
}

/// Returns the JSON array of an answer: its events, then its reply.
pub fn text_of(alloc: Global, answer: Answer) -> Result<String, Unlike> {
    string(bx_calls::text_of(alloc, answer)?)
}

/// Returns the body of a response with `items`, a JSON array.
pub fn response(alloc: Global, items: &[Item]) -> Result<String, Unlike> {
    string(body_text(alloc, items)?)
}

/// Returns `reply` as JSON.
pub fn reply(alloc: Global, reply: &Reply) -> Result<String, Unlike> {
    string(reply_text(alloc, reply)?)
}

/// Converts `text`, bytes in UTF-8, to a string.
pub fn string(text: Vec<u8>) -> Result<String, Unlike> {
    match String::from_utf8(text) {
        Ok(text) => Ok(text),
        Err(_) => Err(Unlike::Wrong("not a text")),
    }
}

/// Appends `line` to `text`, after a newline unless `text` is empty.
///
/// # Errors
///
/// `Memory` if memory runs out. Then `text` may have a new newline at its end.
pub fn add_line(text: &mut String, line: &str) -> Result<(), Unlike> {
    if !text.is_empty() {
        text.push_str("\n")?;
    }
    text.push_str(line)?;
    Ok(())
}
