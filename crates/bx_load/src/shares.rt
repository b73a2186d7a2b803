ghost use Rattle.std.specs.Prelude.{◌≡◌, ℕ, ◌+◌, ◌*◌, ◌/◌, ◌^◌, ◌<◌, ◌≤◌, ◌↔◌};

/// The number of nanoseconds in a second.
pub const NANOS_PER_SECOND: u64 = 1_000_000_000;

/// Returns the number of events that publisher `publisher`, counted from 0, sends.
///
/// Event `own` of the publisher is event `own * publishers + publisher` of all, both from 0.
pub fn events_of(publisher: u32, publishers: u32, events: u32) -> u32
    requires { publisher < publishers }
    ensures { (own : ℕ) → (own * publishers + publisher < events) ↔ (own < result) }
{
    if events <= publisher {
        0
    } else {
        (events - publisher - 1) / publishers + 1
    }
}

/// Returns when event `event` of all is due, in nanoseconds after the first event.
///
/// `rate`: events per second of all publishers together.
pub fn due(event: u64, rate: u32) -> u64
    requires some { 0 < rate }
    requires few { event < 2 ^ 32 }
    ensures { result ≡ event * 1000000000 / rate }
{
    event * NANOS_PER_SECOND / rate as u64
}
