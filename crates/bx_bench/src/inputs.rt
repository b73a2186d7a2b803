//! Bodies to cut into messages.
use std::alloc::{AllocError, Global};

const MEGABYTE: usize = 1_048_576;

/// Creates a body of about 1 MB with 256 publishes.
///
/// # Errors
///
/// `AllocError` if memory runs out.
pub fn many(alloc: Global) -> Result<Vec<u8>, AllocError> {
    publishes(alloc, 256, 3_900)
}

/// Creates a body of about 0.5 MB with 256 publishes, which has about 1 MB as a form.
///
/// # Errors
///
/// `AllocError` if memory runs out.
pub fn short(alloc: Global) -> Result<Vec<u8>, AllocError> {
    publishes(alloc, 256, 1_950)
}

// Creates a body with `count` publishes, each with about `size` bytes of data.
fn publishes(alloc: Global, count: u32, size: usize) -> Result<Vec<u8>, AllocError> {
    let mut body = Vec::with_capacity(alloc, MEGABYTE)?;
    body.push(b'[')?;
    for i in 0..count {
        if i > 0 {
            body.push(b',')?;
        }
        add_message(&mut body, size)?;
    }
    body.push(b']')?;
    Ok(body)
}

/// Creates a body of about 1 MB with one publish.
///
/// # Errors
///
/// `AllocError` if memory runs out.
pub fn one(alloc: Global) -> Result<Vec<u8>, AllocError> {
    publishes(alloc, 1, MEGABYTE - 200)
}

// Appends a publish with about `size` bytes of data: an array of short texts, numbers and objects.
fn add_message(body: &mut Vec<u8>, size: usize) -> Result<(), AllocError> {
    body.extend_from_slice(b"{\"channel\":\"/stock/GOOG\",\"clientId\":\"")?;
    body.extend_from_slice(b"000000000000000000000000000000000000000000000001")?;
    body.extend_from_slice(b"\",\"id\":\"17\",\"data\":[0")?;
    let part =
        b",{\"symbol\":\"GOOG\",\"price\":1234.5},\"up \\\"and\\\" away\",[1,2,3],null".as_slice();
    for _ in 0..size / part.len() {
        body.extend_from_slice(part)?;
    }
    body.extend_from_slice(b"]}")
}
