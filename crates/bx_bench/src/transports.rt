//! Workloads of reading the same JSON from a POST's body and from a form.
use crate::inputs;
use anyhow::{Result, anyhow};
use bx_cut::Document;
use bx_transport::read_post;
use form_urlencoded::Serializer;
use std::alloc::Global;
use std::str;

const RUNS: usize = 20;

const FORM: &[u8] = b"application/x-www-form-urlencoded";

/// Reads a form of about 1 MB and cuts its document into messages, 20 times.
///
/// Returns the number of messages over all runs.
///
/// # Errors
///
/// If memory runs out.
pub fn form(alloc: Global) -> Result<usize> {
    let json = inputs::short(alloc)?;
    let mut form = Serializer::new(String::new(alloc));
    form.append_pair("message", str::from_utf8(json.as_slice())?)?;
    take(alloc, Some(FORM), form.finish().as_bytes())
}

/// Reads the document of [`form`] from a JSON body and cuts it into messages, 20 times.
///
/// Returns the number of messages over all runs.
///
/// # Errors
///
/// If memory runs out.
pub fn plain(alloc: Global) -> Result<usize> {
    take(alloc, None, inputs::short(alloc)?.as_slice())
}

fn take(alloc: Global, content_type: Option<&[u8]>, body: &[u8]) -> Result<usize> {
    let mut total = 0usize;
    for _ in 0..RUNS {
        let owned = Vec::from_slice(alloc, body)?;
        let bodies = read_post(alloc, content_type, owned).map_err(|_| anyhow!("not taken"))?;
        if bodies.len() > 0 {
            let document = Document::read(alloc, bodies.get(0)).map_err(|_| anyhow!("not cut"))?;
            total = total.saturating_add(document.pieces().len());
        }
    }
    Ok(total)
}
