use crate::counts::MetricValues;
use crate::histogram::push_histogram;
use crate::metric::{METRICS, Metric};
use crate::process::ProcessValues;
use crate::settings::PageSettings;
use bx_message::MessageKind;
use std::alloc::{AllocError, Global};

// Room in bytes that is enough for 64 shards if each value has twenty digits.
const ROOM: usize = 16384;

const LAG: &str = "bayeux_shard_lag_entries";

const LAG_HELP: &str = "Entries of the list that the shard has not applied.";

/// Formats the page of metrics: rows of the server, of its shards and settings, and of the process.
///
/// The lines `# HELP` and `# TYPE` precede the first row of each name.
///
/// Prometheus' text format 0.0.4.
pub fn page_text(
    alloc: Global,
    metrics: &MetricValues,
    settings: &PageSettings,
    process: &ProcessValues,
) -> Result<String, AllocError> {
    let mut page = String::with_capacity(alloc, ROOM)?;
    for (place, (metric, name, type_name, help)) in METRICS.iter().enumerate() {
        let before = METRICS.get(place.wrapping_sub(1));
        if !before.is_some_and(|row| row.1 == *name) {
            push_head(alloc, &mut page, name, type_name, help)?;
        }
        let label = label_of(alloc, *metric)?;
        let value = metrics.value(place);
        page.push_str(format!(in alloc; "{name}{label} {value}\n")?.as_str())?;
    }
    push_head(alloc, &mut page, LAG, "gauge", LAG_HELP)?;
    for (shard, lag) in metrics.lags.iter().enumerate() {
        page.push_str(format!(in alloc; "{LAG}{{shard=\"{shard}\"}} {lag}\n")?.as_str())?;
    }
    push_histogram(alloc, &mut page, metrics.times.as_slice(), metrics.time)?;
    settings.push_rows(alloc, &mut page)?;
    process.push_rows(alloc, &mut page)?;
    Ok(page)
}

/// The unit in which a number counts.
#[derive(Clone, Copy)]
pub(crate) enum Unit {
    One,
    Hundredth,
    Thousandth,
}

/// Appends a row without labels: `value`, which counts in `unit`.
pub(crate) fn push_value(
    alloc: Global,
    page: &mut String,
    name: &str,
    value: u64,
    unit: Unit,
) -> Result<(), AllocError> {
    let row = match unit {
        Unit::One => format!(in alloc; "{name} {value}\n")?,
        Unit::Hundredth => {
            let (whole, part) = (value / 100, value % 100);
            format!(in alloc; "{name} {whole}.{part:02}\n")?
        }
        Unit::Thousandth => {
            let (whole, part) = (value / 1000, value % 1000);
            format!(in alloc; "{name} {whole}.{part:03}\n")?
        }
    };
    page.push_str(row.as_str())
}

/// Appends the lines `# HELP` and `# TYPE`.
pub(crate) fn push_head(
    alloc: Global,
    page: &mut String,
    name: &str,
    type_name: &str,
    help: &str,
) -> Result<(), AllocError> {
    let head = format!(in alloc; "# HELP {name} {help}\n# TYPE {name} {type_name}\n")?;
    page.push_str(head.as_str())
}

// Returns the label that distinguishes `metric` from others with the same name, if there are any.
fn label_of(alloc: Global, metric: Metric) -> Result<String, AllocError> {
    match metric {
        Metric::Responses(status) => format!(in alloc; "{{status=\"{}\"}}", status.code()),
        Metric::Refused(error) => {
            let (status, reason) = (error.status().code(), error.reason());
            format!(in alloc; "{{status=\"{status}\",reason=\"{reason}\"}}")
        }
        Metric::SuccessfulReplies(kind) => format!(in alloc; "{{kind=\"{}\"}}", kind_name(kind)),
        Metric::ErrorReplies(error) => format!(in alloc; "{{error=\"{}\"}}", error.text()),
        _ => Ok(String::new(alloc)),
    }
}

fn kind_name(kind: MessageKind) -> &'static str {
    match kind {
        MessageKind::Handshake => "handshake",
        MessageKind::Connect => "connect",
        MessageKind::Subscribe => "subscribe",
        MessageKind::Unsubscribe => "unsubscribe",
        MessageKind::Disconnect => "disconnect",
        MessageKind::Publish => "publish",
        MessageKind::UnknownMeta => "unknown_meta",
    }
}
