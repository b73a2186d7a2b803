use crate::ascii::push_ascii;
use bx_hub::SessionSurvey;
use json::{Token, Writer};
use std::alloc::{AllocError, Global};
use std::time::Duration;

/// After this length in bytes, a list has at most two more lines. Policy of this server.
pub(crate) const MAX_LIST_BYTES: usize = 1_048_576;

/// The last line of a list that lacks something.
pub(crate) const TRUNCATED: &[u8] = b"{\"truncated\":true}\n";

// The maximum number of sessions in the list. Policy of this server.
const MAX_SESSIONS: usize = 1000;

/// A list of sessions, with a line of JSON for each.
#[derive(Drop)]
pub struct SessionLines {
    text: Vec<u8>,
    count: usize,
    is_truncated: bool,
}

impl SessionLines {
    /// Creates an empty list.
    pub fn new(alloc: Global) -> SessionLines {
        SessionLines {
            text: Vec::new(alloc),
            count: 0,
            is_truncated: false,
        }
    }

    /// Appends a line about `session`. `now`: milliseconds since the server started.
    ///
    /// Returns `false` if the list has 1,000 sessions, or over a mebibyte. Then the last line says
    /// so, and further sessions need not be pushed.
    pub fn push(
        &mut self,
        alloc: Global,
        session: &SessionSurvey,
        now: u64,
    ) -> Result<bool, AllocError> {
        if self.count >= MAX_SESSIONS || self.text.len() > MAX_LIST_BYTES {
            self.is_truncated = true;
            return Ok(false);
        }
        let line = session_line(alloc, session, now)?;
        push_ascii(alloc, &mut self.text, line)?;
        self.count += 1;
        Ok(true)
    }

    /// Returns the text of the list.
    pub fn into_text(self) -> Result<Vec<u8>, AllocError> {
        let SessionLines {
            mut text,
            is_truncated,
            ..
        } = self;
        if is_truncated {
            text.extend_from_slice(TRUNCATED)?;
        }
        Ok(text)
    }
}

fn session_line(alloc: Global, session: &SessionSurvey, now: u64) -> Result<Vec<u8>, AllocError> {
    let mut line = Writer::new(Vec::new(alloc));
    line.begin_object()?;
    line.key("number")?;
    line.u64(session.number)?;
    line.key("age_seconds")?;
    line.u64(Duration::from_millis(now.saturating_sub(session.opened)).as_secs())?;
    line.key("acknowledges")?;
    line.token(Token::Bool(session.ack))?;
    line.key("held")?;
    line.token(Token::Bool(session.is_held))?;
    line.key("overflowed")?;
    line.token(Token::Bool(session.has_overflowed))?;
    for (name, value) in [
        ("events", session.events as u64),
        ("bytes", session.bytes as u64),
        ("outstanding", session.outstanding as u64),
        ("batch", session.batch),
    ] {
        line.key(name)?;
        line.u64(value)?;
    }
    line.key("patterns")?;
    line.begin_array()?;
    for pattern in &session.patterns {
        line.string(pattern.as_str())?;
    }
    line.end_array()?;
    line.end_object()?;
    let mut line = line.into_inner();
    line.push(b'\n')?;
    Ok(line)
}
