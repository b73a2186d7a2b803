ghost use Rattle.std.specs.Prelude.{◌<◌, ◌≤◌};

use crate::tally::Tally;
use bx_load::NANOS_PER_SECOND;
use std::alloc::{AllocError, Global};

// The percentages of events for which the report has a latency.
const PERCENTAGES: [u64; 4] = [50, 90, 99, 100];

// The number of microseconds in a millisecond.
const MICROS_PER_MILLI: u64 = 1000;

/// Formats the results as four lines.
pub fn report(alloc: Global, tally: &Tally) -> Result<String, AllocError> {
    let mut text = String::new(alloc);
    rates(&mut text, tally)?;
    text.push_str("latency:")?;
    for percent in PERCENTAGES {
        latency(&mut text, tally, percent)?;
    }
    let (lost, doubled) = (tally.lost, tally.doubled);
    let (out_of_order, unknown) = (tally.out_of_order, tally.unknown);
    write!(
        text,
        "\nlost {lost}, doubled {doubled}, out of order {out_of_order}, unknown {unknown}"
    )?;
    Ok(text)
}

fn rates(text: &mut String, tally: &Tally) -> Result<(), AllocError> {
    let (published, delivered) = (tally.published, tally.delivered);
    let publish_rate = rate(published, tally.begun, tally.last_published);
    let event_rate = rate(delivered, tally.begun, tally.last_delivered);
    write!(
        text,
        "publishes: {published}, {publish_rate} a second\nevents: {delivered}, {event_rate} a second\n"
    )
}

// Appends the latency in milliseconds that `percent` percent of the events do not exceed.
fn latency(text: &mut String, tally: &Tally, percent: u64) -> Result<(), AllocError>
    requires some { 0 < percent }
    requires within { percent ≤ 100 }
{
    let latency = tally.latencies.at(percent).unwrap_or(0);
    let (whole, part) = (latency / MICROS_PER_MILLI, latency % MICROS_PER_MILLI);
    write!(text, " {percent} % {whole}.{part:03} ms")
}

// Returns `count` per second between two times in nanoseconds.
fn rate(count: u64, begin: u64, end: u64) -> u64 {
    let took = end.saturating_sub(begin).max(1);
    u64::try_from(count as u128 * NANOS_PER_SECOND as u128 / took as u128).unwrap_or(u64::MAX)
}
