//! What a reader of a window finds.
use crate::unlike::Unlike;
use bx_window::{LogId, LogReader, Next};
use std::alloc::Global;

/// Returns what `reader` finds at each place from 0 to `end`, as a text.
///
/// The text begins with the number of changes that `reader` has then seen, and the places at which
/// the window begins and ends. A batch is given by its first place and the place after its last
/// entry.
///
/// # Errors
///
/// `Memory` if memory runs out outside of `LogReader::next`; `Wrong` if that call fails again.
pub fn shown<L: LogId>(
    alloc: Global,
    reader: &mut LogReader<L>,
    end: u64,
) -> Result<String, Unlike> {
    let mut places = String::new(alloc);
    for place in 0..=end {
        let found = found_at(alloc, reader, place)?;
        places.push_str(found.as_str())?;
    }
    let front = reader.note();
    let (steps, begin, len) = (front.steps(), front.begin(), front.len());
    Ok(format!(in alloc; "steps {steps}, from {begin} to {len}:{places}")?)
}

// Returns a text for what is at `place`: the batch, `end` of the list, or `gone` if it was dropped.
fn found_at<L: LogId>(
    alloc: Global,
    reader: &mut LogReader<L>,
    place: u64,
) -> Result<String, Unlike> {
    match next(reader, place)? {
        Next::Batch(batch) => {
            let first = batch.first;
            let past = first.saturating_add(batch.entries.len() as u64);
            Ok(format!(in alloc; " [{first}, {past})")?)
        }
        Next::Level => Ok(String::from_str(alloc, " end")?),
        Next::Overrun => Ok(String::from_str(alloc, " gone")?),
    }
}

// Returns what `reader` finds at `place`. Retries once if memory runs out and the reader has seen
// no further change.
fn next<L: LogId>(reader: &mut LogReader<L>, place: u64) -> Result<Next, Unlike> {
    let before = reader.note().steps();
    let next = match reader.next(place) {
        Err(_) if reader.note().steps() == before => reader.next(place),
        next => next,
    };
    match next {
        Ok(next) => Ok(next),
        Err(_) => Err(Unlike::Wrong("nothing is found")),
    }
}
