//! Tests of responses that are written in several frames.
use crate::same::same;
use bx_calls::json_string;
use bx_message::Item;
use bx_pieces::Pieces;
use bytes::{Buf, Bytes};
use futures::task::Poll;
use futures::test::MockTask;
use http_body::Body;
use http_body_util::BodyExt;
use std::alloc::Global;
use std::process::Abort;
use std::test::*;

// Number of characters in a large event's data. 64 KiB have room for one large event and a small
// one, but not for two large ones.
const LARGE: usize = 40_000;

// Number of frames of a response with the events of `items`.
const FRAMES: usize = 3;

// The events of `items`: three large ones and, before the last of them, a small one. Each has this
// sign as its data, this many times.
const SIGNS: [(&str, usize); 4] = [("x", LARGE), ("y", LARGE), ("\u{2028}", 1), ("z", LARGE)];

// Number of events in a large response, number of characters in the data of each, and number of
// bytes in the response. Each event has 28 bytes more, and one byte after it.
const EVENTS: usize = 256;

const MEGABYTE: usize = 1_000_000;

const LARGEST: u64 = 256_007_425;

/// Creates an event on `/a/b` with a JSON string of `count` times `sign` as its data.
pub fn event(alloc: Global, sign: &str, count: usize) -> Result<Item, Fail> {
    let data = json_string(alloc, sign, count)?;
    Ok(Item::EventItem(bx_calls::event(alloc, "/a/b", data.as_str())?))
}

// Returns the events of `SIGNS`.
fn items(alloc: Global) -> Result<Vec<Item>, Fail> {
    let mut items = Vec::new(alloc);
    for (sign, count) in SIGNS {
        items.push(event(alloc, sign, count)?)?;
    }
    Ok(items)
}

// Returns the text of a response with the events of `items`, between `front` and `back`. `sign`:
// the small event's data.
fn wanted(alloc: Global, front: &str, sign: &str, back: &str) -> Result<String, Fail> {
    let x = json_string(alloc, "x", LARGE)?;
    let y = json_string(alloc, "y", LARGE)?;
    let z = json_string(alloc, "z", LARGE)?;
    Ok(format!(in alloc;
        r#"{front}{{"channel":"/a/b","data":{x}}},{{"channel":"/a/b","data":{y}}},{{"channel":"/a/b","data":"{sign}"}},{{"channel":"/a/b","data":{z}}}{back}"#
    )?)
}

// Returns the data of the next frame, or `None` at the end. Fails if the body waits or fails.
fn next_data(task: &MockTask, body: &mut Pieces<Bytes>) -> Result<Option<Bytes>, Fail> {
    match task.poll(&mut body.frame()) {
        Poll::Pending => Err(Fail::from("it waits")),
        Poll::Ready(None) => Ok(None),
        Poll::Ready(Some(Err(_))) => Err(Fail::from("no memory")),
        Poll::Ready(Some(Ok(frame))) => Ok(Some(frame.into_data().ok().ok_or("no data")?)),
    }
}

// Checks that a response with `items` has three frames with the text `wanted`, at most 64 KiB each.
// Also checks that its body always reports how many bytes are left. `callback`: the function that a
// script calls with the array. `None`: the response is the array.
fn check_pieces(
    rt: &impl Abort,
    alloc: Global,
    task: &MockTask,
    callback: Option<&str>,
    wanted: &str,
) -> Result<(), Fail> {
    let items = items(alloc)?;
    let mut body = Pieces::<Bytes>::answer(alloc, callback, items.as_slice())?;
    let mut text = Vec::new(alloc);
    for _ in 0..FRAMES {
        check_left(rt, &body, wanted.len(), text.len());
        let data = next_data(task, &mut body)?.ok_or("no frame")?;
        same(rt, data.len() <= 65_536, true, "a frame of 64 KiB");
        text.extend_from_slice(data.chunk())?;
    }
    check_left(rt, &body, wanted.len(), text.len());
    same(rt, next_data(task, &mut body)?.is_none(), true, "the end");
    same(rt, text.as_slice() == wanted.as_bytes(), true, "the text");
    Ok(())
}

// Checks that `body` reports how many bytes are left, and its end only if none are. `whole`: its
// length in bytes. `given`: how many of them were taken.
fn check_left(rt: &impl Abort, body: &Pieces<Bytes>, whole: usize, given: usize) {
    let left = whole.saturating_sub(given) as u64;
    same(rt, body.size_hint().exact(), Some(left), given);
    same(rt, body.is_end_stream(), left == 0, given);
}

// Checks that a long array and a long script are written in three frames.
#[test]
fn responses_of_several_pieces(rt: HostRuntime) -> Result<(), Fail> {
    let alloc = rt.alloc();
    let task = MockTask::new(&rt)?;
    let array = wanted(alloc, "[", "\u{2028}", "]")?;
    check_pieces(&rt, alloc, &task, None, array.as_str())?;
    let script = wanted(alloc, "cb.x([", "\\u2028", "])")?;
    check_pieces(&rt, alloc, &task, Some("cb.x"), script.as_str())
}

// Checks that a response with as many and as large events as one request can publish can be begun.
#[test]
fn response_of_256_megabytes(rt: HostRuntime) -> Result<(), Fail> {
    let alloc = rt.alloc();
    let data = json_string(alloc, "x", MEGABYTE)?;
    let event = bx_calls::event(alloc, "/a/b", data.as_str())?;
    let mut items = Vec::new(alloc);
    for _ in 0..EVENTS {
        items.push(Item::EventItem(event.clone()?))?;
    }
    let body = Pieces::<Bytes>::answer(alloc, None, items.as_slice())?;
    same(&rt, body.size_hint().exact(), Some(LARGEST), "all");
    Ok(())
}
