//! Requests over connections in memory, and the responses to them.
//!
//! The requests are POSTs that end early, forms of HTTP that few clients send, a request after a
//! held connect, and a request to a closed hub.
#![tactic(auto)]

mod host;
mod requests;
mod runs;
mod wire;

use anyhow::Result;

fn main(rt: HostRuntime) -> Result<()> {
    let text = runs::run(rt)?;
    rt.print(text.as_str())?;
    Ok(())
}
