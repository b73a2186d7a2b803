//! The rows of the metrics page that show the version, the limits and the times of a server.
use crate::page::{Unit, push_head, push_value};
use bx_advice::{BodyLimit, Config, Limit};
use std::alloc::{AllocError, Global};

const LIMIT: &str = "bayeux_limit";

const TIMES: [(&str, &str); 3] = [
    ("bayeux_timeout_seconds", "The longest hold of a connect."),
    (
        "bayeux_interval_seconds",
        "The pause between connects that the server advises.",
    ),
    (
        "bayeux_max_interval_seconds",
        "How long a session lives without a message.",
    ),
];

/// The settings that the metrics page shows.
#[derive(Clone, Copy)]
pub struct PageSettings {
    pub version: &'static str,
    pub config: Config,
    pub body: BodyLimit,
    /// The greatest number of messages in a request.
    pub messages: usize,
}

impl PageSettings {
    /// Appends the rows for the version, the limits, the number of shards and the times.
    ///
    /// A limit that is not configured and has no default has no row.
    pub(crate) fn push_rows(&self, alloc: Global, page: &mut String) -> Result<(), AllocError> {
        let (version, config) = (self.version, &self.config);
        push_head(
            alloc,
            page,
            "bayeux_build_info",
            "gauge",
            "The version of the server.",
        )?;
        page.push_str(format!(in alloc;
            "bayeux_build_info{{version=\"{version}\"}} 1\n"
        )?.as_str())?;
        push_head(alloc, page, LIMIT, "gauge", "Limits, by what they limit.")?;
        for limit in &Limit::ALL {
            let value = config.limits.get(*limit);
            if value <= limit.greatest() {
                push_limit(alloc, page, limit_name(*limit), value as u64)?;
            }
        }
        push_limit(alloc, page, "body", self.body.get() as u64)?;
        push_limit(alloc, page, "messages", self.messages as u64)?;
        push_limit(alloc, page, "shards", config.shards as u64)?;
        let times = [config.timeout, config.interval, config.max_interval];
        for ((name, help), time) in TIMES.iter().zip(times) {
            push_head(alloc, page, name, "gauge", help)?;
            push_value(alloc, page, name, time as u64, Unit::Thousandth)?;
        }
        Ok(())
    }
}

fn push_limit(alloc: Global, page: &mut String, name: &str, value: u64) -> Result<(), AllocError> {
    page.push_str(format!(in alloc; "{LIMIT}{{name=\"{name}\"}} {value}\n")?.as_str())
}

fn limit_name(limit: Limit) -> &'static str {
    match limit {
        Limit::Events => "events",
        Limit::Bytes | Limit::Sessions | Limit::Patterns => limit.name(),
    }
}
