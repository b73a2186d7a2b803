use crate::page::push_head;
use std::alloc::{AllocError, Global};
use std::time::Duration;

const NAME: &str = "bayeux_processing_seconds";

const HELP: &str = "Time to process a request, without waiting for events.";

// The upper bounds of buckets except the last: nanoseconds, and labels in seconds. Policy of this
// server.
const BOUNDS: [(u64, &str); 10] = [
    (10_000, "0.00001"),
    (25_000, "0.000025"),
    (50_000, "0.00005"),
    (100_000, "0.0001"),
    (250_000, "0.00025"),
    (500_000, "0.0005"),
    (1_000_000, "0.001"),
    (10_000_000, "0.01"),
    (100_000_000, "0.1"),
    (1_000_000_000, "1"),
];

/// The last bucket has no upper bound.
pub(crate) const BUCKETS: usize = 11;

/// Returns the index of the bucket for a time of `nanoseconds`.
pub(crate) fn bucket_of(nanoseconds: u64) -> usize {
    BOUNDS
        .iter()
        .position(|bound| nanoseconds <= bound.0)
        .unwrap_or(BUCKETS - 1)
}

/// Appends the rows of the histogram.
///
/// `counts`: the number of times in each bucket. `sum`: the sum of all times, in nanoseconds.
pub(crate) fn push_histogram(
    alloc: Global,
    page: &mut String,
    counts: &[u64],
    sum: u64,
) -> Result<(), AllocError> {
    push_head(alloc, page, NAME, "histogram", HELP)?;
    let mut total: u64 = 0;
    for (place, count) in counts.iter().enumerate() {
        total = total.saturating_add(*count);
        let bound = match BOUNDS.get(place) {
            Some(bound) => bound.1,
            None => "+Inf",
        };
        page.push_str(format!(in alloc; "{NAME}_bucket{{le=\"{bound}\"}} {total}\n")?.as_str())?;
    }
    let sum = Duration::from_nanos(sum);
    let (whole, part) = (sum.as_secs(), sum.subsec_nanos());
    let rows = format!(in alloc; "{NAME}_sum {whole}.{part:09}\n{NAME}_count {total}\n")?;
    page.push_str(rows.as_str())
}
