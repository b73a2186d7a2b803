//! The part `window`: a window of ticks with two readers.
ghost use Rattle.std.specs.Prelude.{◌≡◌};

mod shows;

use crate::requests::add_line;
use crate::unlike::{Unlike, check};
use bx_calls::Ticker;
use bx_window::{EmptyWindow, LogId, LogReader, PublishFault, log_pair};
use shows::shown;
use std::alloc::Global;
use std::marker::Brand;
use std::sync::Wait;

// A change of the window.
#[derive(Clone, Copy)]
enum Deed {
    // Publishes a batch of this number of ticks.
    Publish(u64),
    // Drops the batches that end at or before this place.
    Trim(u64),
}

// The changes of the run. The first trim drops nothing, the second drops the first batch, and the
// third drops all batches that are left.
const DEEDS: [Deed; 7] = [
    Deed::Publish(3),
    Deed::Publish(2),
    Deed::Trim(2),
    Deed::Trim(3),
    Deed::Publish(1),
    Deed::Trim(100),
    Deed::Publish(2),
];

/// Publishes batches of ticks and trims the window, and returns a line for each change.
///
/// Each line has what a reader finds at each place after the change. The last line has what another
/// reader finds that has not read before.
pub fn run<R: Wait>(rt: &R, alloc: Global) -> Result<String, Unlike> {
    worked::<Brand, R>(rt, alloc, EmptyWindow::new())
}

fn worked<L: LogId, R: Wait>(rt: &R, alloc: Global, opened: EmptyWindow) -> Result<String, Unlike>
    requires { opened.seen.book ≡ L.book }
{
    let (writer, mut readers) = log_pair::<L, &R>(alloc, rt, opened, 2)?;
    let mut writer = Ticker::new(writer);
    let (Some(mut other), Some(mut reader)) = (readers.pop(), readers.pop()) else {
        return Err(Unlike::Wrong("no reader"));
    };
    let mut text = String::new(alloc);
    for deed in DEEDS {
        change(alloc, &mut writer, &mut reader, deed)?;
        let line = shown(alloc, &mut reader, writer.end)?;
        add_line(&mut text, line.as_str())?;
    }
    let line = shown(alloc, &mut other, writer.end)?;
    add_line(&mut text, line.as_str())?;
    Ok(text)
}

// Makes the change `deed`. If memory runs out, checks that `reader` still finds what it found
// before, and makes the change again. A batch is then published again as it was returned.
fn change<L: LogId, R: Wait + Drop>(
    alloc: Global,
    writer: &mut Ticker<L, R>,
    reader: &mut LogReader<L>,
    deed: Deed,
) -> Result<(), Unlike> {
    let before = shown(alloc, reader, writer.end)?;
    match deed {
        Deed::Publish(count) => {
            let bundle = writer.bundle(alloc, count)?;
            let Err((back, why)) = writer.publish_bundle(alloc, bundle, count) else {
                return Ok(());
            };
            check(why == PublishFault::Memory, "the window is full")?;
            check_same(alloc, writer, reader, before.as_str())?;
            let again = writer.publish_bundle(alloc, back, count);
            check(again.is_ok(), "not published")
        }
        Deed::Trim(place) => {
            if writer.trim(place) {
                return Ok(());
            }
            check_same(alloc, writer, reader, before.as_str())?;
            check(writer.trim(place), "not trimmed")
        }
    }
}

// Checks that `reader` still finds what the text `before` has, and has seen all changes of the
// writer.
fn check_same<L: LogId, R: Wait + Drop>(
    alloc: Global,
    writer: &Ticker<L, R>,
    reader: &mut LogReader<L>,
    before: &str,
) -> Result<(), Unlike> {
    let after = shown(alloc, reader, writer.end)?;
    check(
        after.as_str() == before && writer.tell().steps() == reader.note().steps(),
        "a refused call changes the window",
    )
}
