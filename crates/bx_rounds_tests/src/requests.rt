//! Creation of the requests that the tests of this crate send.
use bx_cut::Bodies;
use bx_entry::{Access, Arrival};
use std::alloc::{AllocError, Global};

/// Creates a request with the JSON `body` at moment 0.
///
/// The request has nonce 0, and its sender may read and publish.
///
/// # Errors
///
/// `AllocError` if memory runs out.
pub fn request(alloc: Global, body: &str) -> Result<Arrival, AllocError> {
    Ok(Arrival {
        moment: 0,
        nonce: 0,
        access: Access::ReadWrite,
        bodies: Bodies::Whole(body.as_bytes().to_vec(alloc)?),
    })
}
