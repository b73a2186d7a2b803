//! A workload of a script of requests, as the replay reads it.
use anyhow::Result;
use serde_json::Value;
use std::alloc::Global;
use std::io::{BufRead, BufReader};
use std::str;

// Reads the body in `line` as a `serde_json` value, and returns the number of its messages. The
// body begins at the first `[`; without one, the number is 0.
fn messages(alloc: Global, line: &[u8]) -> Result<usize> {
    let Some(start) = line.iter().position(|byte| *byte == b'[') else {
        return Ok(0);
    };
    let value = Value::from_str(alloc, str::from_utf8(&line[start..])?)?;
    Ok(value.as_array().map_or(0, |items| items.len()))
}

/// Reads the body of each line of standard input as a `serde_json` value.
///
/// Returns the number of messages in all lines.
///
/// # Errors
///
/// If reading fails, a body is not UTF-8 or not JSON, or memory runs out.
pub fn check(rt: &HostRuntime) -> Result<usize> {
    let alloc = rt.alloc();
    let mut reader = BufReader::new(alloc, rt.reader())?;
    let mut line = Vec::new(alloc);
    let mut total = 0usize;
    for _ in 0..u64::MAX {
        line.clear();
        if reader.read_until(b'\n', &mut line)? == 0 {
            break;
        }
        total = total.saturating_add(messages(alloc, line.as_slice())?);
    }
    Ok(total)
}
