use crate::ascii::push_ascii;
use crate::session_lines::{MAX_LIST_BYTES, TRUNCATED};
use bx_hub::SessionSurvey;
use json::Writer;
use std::alloc::{AllocError, Global};
use std::collections::BTreeMap;

// Up to this number, subscriptions are counted. Policy of this server.
const MAX_SUBSCRIPTIONS: usize = 100_000;

// The maximum number of patterns in the list. Policy of this server.
const MAX_PATTERNS: usize = 10_000;

/// Counts subscriptions by pattern, up to 100,000.
#[derive(Drop)]
pub struct ChannelLines {
    counts: BTreeMap<String, u64>,
    subscriptions: usize,
    is_truncated: bool,
}

impl ChannelLines {
    /// Creates an empty list.
    pub fn new(alloc: Global) -> ChannelLines {
        ChannelLines {
            counts: BTreeMap::new(alloc),
            subscriptions: 0,
            is_truncated: false,
        }
    }

    /// Counts the subscriptions of `session`.
    ///
    /// Returns `false` if some are not counted, because there are 100,000. Then the last line says
    /// so, and further sessions need not be added. On error, some may be counted.
    pub fn add(&mut self, alloc: Global, session: &SessionSurvey) -> Result<bool, AllocError> {
        for pattern in &session.patterns {
            if self.subscriptions >= MAX_SUBSCRIPTIONS {
                self.is_truncated = true;
                return Ok(false);
            }
            let count = self
                .counts
                .entry(String::from_str(alloc, pattern.as_str())?)?
                .or_insert(0);
            *count = count.saturating_add(1);
            self.subscriptions += 1;
        }
        Ok(true)
    }

    /// Returns the text of the list: a line of JSON for each pattern, in ascending byte order.
    ///
    /// After 10,000 patterns, or over a mebibyte, the list ends with a line that says so.
    pub fn text(&self, alloc: Global) -> Result<Vec<u8>, AllocError> {
        let mut text = Vec::new(alloc);
        let mut is_truncated = self.is_truncated;
        for (place, (pattern, count)) in self.counts.iter().enumerate() {
            if place >= MAX_PATTERNS || text.len() > MAX_LIST_BYTES {
                is_truncated = true;
                break;
            }
            push_ascii(
                alloc,
                &mut text,
                pattern_line(alloc, pattern.as_str(), *count)?,
            )?;
        }
        if is_truncated {
            text.extend_from_slice(TRUNCATED)?;
        }
        Ok(text)
    }
}

fn pattern_line(alloc: Global, pattern: &str, count: u64) -> Result<Vec<u8>, AllocError> {
    let mut line = Writer::new(Vec::new(alloc));
    line.begin_object()?;
    line.key("pattern")?;
    line.string(pattern)?;
    line.key("subscriptions")?;
    line.u64(count)?;
    line.end_object()?;
    let mut line = line.into_inner();
    line.push(b'\n')?;
    Ok(line)
}
