//! The part `pieces`: responses that are written in several pieces.
use crate::requests::add_line;
use crate::unlike::{Unlike, check};
use bx_calls::{event, json_string};
use bx_message::Item;
use bx_pieces::Pieces;
use bytes::{Buf, Bytes};
use futures::task::Poll;
use futures::test::MockTask;
use http_body::Body;
use http_body_util::BodyExt;
use std::alloc::{AllocError, AllocGlobal, Global};
use std::random::RandomSource;

// The number of letters in the data of each event. A piece of 64 KiB has no room for two events.
const SIGNS: usize = 40_000;

// The most frames to read from a response: three pieces and the end.
const MOST_FRAMES: usize = 4;

/// Reads a response of three pieces, first as an array and then as a script.
///
/// Returns a line for each response. It has the length in bytes of each frame, and the number of
/// bytes that are left after the frame.
///
/// # Errors
///
/// - `Memory` if memory runs out outside of the calls of `Pieces`, or in a second attempt.
/// - `Wrong` if a frame or the whole text is not as expected, or if a frame follows an error.
pub fn run<R: RandomSource + AllocGlobal>(rt: &R, alloc: Global) -> Result<String, Unlike> {
    let task = MockTask::new(rt).map_err(|_| Unlike::Memory)?;
    let mut text = String::new(alloc);
    for callback in [None, Some("cb")] {
        let line = given(alloc, &task, callback)?;
        add_line(&mut text, line.as_str())?;
    }
    Ok(text)
}

// Reads a whole response, and returns the line with the lengths of its frames. If the response
// breaks off, checks that no frame follows, and reads a new response. With a `callback`, the
// response is a script.
fn given(alloc: Global, task: &MockTask, callback: Option<&str>) -> Result<String, Unlike> {
    let wanted = wanted(alloc, callback)?;
    for _ in 0..2 {
        let mut body = answered(alloc, callback)?;
        if let Some(line) = read(alloc, task, &mut body, wanted.as_str())? {
            return Ok(line);
        }
        let part = next_part(task, &mut body)?;
        check(part.is_none(), "a frame follows an error")?;
    }
    Err(Unlike::Memory)
}

// Reads the response `body`, and returns the line with the lengths of its frames.
//
// Checks that its text is `wanted`. Returns `None` if memory runs out for a frame.
fn read(
    alloc: Global,
    task: &MockTask,
    body: &mut Pieces<Bytes>,
    wanted: &str,
) -> Result<Option<String>, Unlike> {
    let mut whole = Vec::with_capacity(alloc, wanted.len())?;
    let mut line = String::new(alloc);
    for _ in 0..MOST_FRAMES {
        let data = match next_part(task, body)? {
            None => break,
            Some(Ok(data)) => data,
            Some(Err(_)) => return Ok(None),
        };
        whole.extend_from_slice(data.chunk())?;
        let left = body.size_hint().exact();
        let left = left.ok_or(Unlike::Wrong("the length is not known"))?;
        line.push_str(format!(in alloc; "{} and {left} left, ", data.len())?.as_str())?;
    }
    check(whole.as_slice() == wanted.as_bytes(), "another text")?;
    line.push_str("the events")?;
    Ok(Some(line))
}

// Returns the data of the next frame of `body`, an error if memory ran out, or `None` at the end.
fn next_part(
    task: &MockTask,
    body: &mut Pieces<Bytes>,
) -> Result<Option<Result<Bytes, AllocError>>, Unlike> {
    match task.poll(&mut body.frame()) {
        Poll::Pending => Err(Unlike::Wrong("a body waits")),
        Poll::Ready(None) => Ok(None),
        Poll::Ready(Some(Err(error))) => Ok(Some(Err(error))),
        Poll::Ready(Some(Ok(frame))) => match frame.into_data() {
            Ok(data) => Ok(Some(Ok(data))),
            Err(_) => Err(Unlike::Wrong("no data")),
        },
    }
}

// Creates a response with three events, and retries once if memory runs out. If `callback` is
// given, the response is a script that calls it.
fn answered(alloc: Global, callback: Option<&str>) -> Result<Pieces<Bytes>, Unlike> {
    let data = json_string(alloc, "x", SIGNS)?;
    let event = event(alloc, "/a/b", data.as_str())?;
    let mut items = Vec::new(alloc);
    for _ in 0..3 {
        items.push(Item::EventItem(event.clone()?))?;
    }
    match Pieces::answer(alloc, callback, items.as_slice()) {
        Ok(body) => Ok(body),
        Err(_) => Ok(Pieces::answer(alloc, callback, items.as_slice())?),
    }
}

// Returns the expected text of the whole response. If `callback` is given, it is called with the
// array of the events.
fn wanted(alloc: Global, callback: Option<&str>) -> Result<String, Unlike> {
    let data = json_string(alloc, "x", SIGNS)?;
    let event = format!(in alloc; "{{\"channel\":\"/a/b\",\"data\":{data}}}")?;
    let events = format!(in alloc; "[{event},{event},{event}]")?;
    match callback {
        Some(name) => Ok(format!(in alloc; "{name}({events})")?),
        None => Ok(events),
    }
}
