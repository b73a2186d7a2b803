ghost use Rattle.std.specs.Prelude.{◌≡◌, ◌++◌, IfOk, OnOk};
ghost use Rattle.bx_metrics.specs.Responses.{asked_of, fields_text, message_text, response_text, with_number};

use itoa::Buffer;
use std::alloc::{AllocError, Global};

/// What `GET /healthz` reports of a server.
#[derive(Clone, Copy, Debug, PartialEq, Eq)]
pub enum ServerHealth {
    Listening,
    /// It has not begun to listen, or ends.
    NotListening,
    /// It listens, but has applied no tick for two seconds, so that requests wait.
    NoTick,
}

/// What a request to the metrics listener asks for.
#[derive(Clone, Copy, Debug, PartialEq, Eq)]
pub enum MetricsRequest {
    /// `GET /`.
    StatusPage,
    /// `GET /metrics`.
    Metrics,
    /// `GET /sessions`.
    Sessions,
    /// `GET /channels`.
    Channels,
    /// `GET /healthz`.
    Health,
    /// A page or list for another host name, which [`of`](Self::of) does not return.
    Misdirected,
    /// A GET of another target.
    Other,
    /// Another method than GET, or none.
    NoGet,
}

impl MetricsRequest {
    /// Returns what the request with this `head` asks for, by its method and target.
    pub fn of(head: &[u8]) -> MetricsRequest
        ensures { result ≡ asked_of head.now }
    {
        if head.starts_with(b"GET / ") {
            MetricsRequest::StatusPage
        } else if head.starts_with(b"GET /metrics ") {
            MetricsRequest::Metrics
        } else if head.starts_with(b"GET /sessions ") {
            MetricsRequest::Sessions
        } else if head.starts_with(b"GET /channels ") {
            MetricsRequest::Channels
        } else if head.starts_with(b"GET /healthz ") {
            MetricsRequest::Health
        } else if head.starts_with(b"GET ") {
            MetricsRequest::Other
        } else {
            MetricsRequest::NoGet
        }
    }
}

/// Creates the response to `asked`. Its fields close the connection, and forbid browsers to guess
/// another media type and to show the page in a frame.
///
/// - `StatusPage`: 200 with `page`, which is HTML
/// - `Metrics`: 200 with `page`, which is in Prometheus' text format 0.0.4
/// - `Sessions`, `Channels`: 200 with `page`, which has a JSON value in each line
/// - `Health`: 200 if `health` is `Listening`, otherwise 503
/// - `Misdirected`: 421
/// - `Other`: 404
/// - `NoGet`: 405
pub fn response_text(
    alloc: Global,
    asked: MetricsRequest,
    health: ServerHealth,
    page: &[u8],
) -> Result<Vec<u8>, AllocError>
    ensures { IfOk result (λ text. text.items ≡ response_text asked health page.now) }
{
    match asked {
        MetricsRequest::StatusPage => message(
            alloc,
            "200 OK\r\ncontent-type: text/html; charset=utf-8",
            page,
        ),
        MetricsRequest::Metrics => message(
            alloc,
            "200 OK\r\ncontent-type: text/plain; version=0.0.4; charset=utf-8",
            page,
        ),
        MetricsRequest::Sessions | MetricsRequest::Channels => message(
            alloc,
            "200 OK\r\ncontent-type: text/plain; charset=utf-8",
            page,
        ),
        MetricsRequest::Health => match health {
            ServerHealth::Listening => message(alloc, "200 OK", b"listening\n"),
            ServerHealth::NotListening => message(
                alloc,
                "503 Service Unavailable",
                b"not listening\n",
            ),
            ServerHealth::NoTick => message(
                alloc,
                "503 Service Unavailable",
                b"no tick for two seconds\n",
            ),
        },
        MetricsRequest::Misdirected => message(alloc, "421 Misdirected Request", b""),
        MetricsRequest::Other => message(alloc, "404 Not Found", b""),
        MetricsRequest::NoGet => message(alloc, "405 Method Not Allowed\r\nallow: GET", b""),
    }
}

// `status`: the code and reason phrase, optionally followed by a line break and another field.
fn message(alloc: Global, status: &str, body: &[u8]) -> Result<Vec<u8>, AllocError>
    ensures { IfOk result (λ text. text.items ≡ message_text status.now body.now) }
{
    let mut text = Vec::new(alloc);
    text.extend_from_slice(b"HTTP/1.1 ")?;
    text.extend_from_slice(status.as_bytes())?;
    push_fields(&mut text, body.len())?;
    text.extend_from_slice(body)?;
    Ok(text)
}

fn push_fields(text: &mut Vec<u8>, length: usize) -> Result<(), AllocError>
    ensures { OnOk result (text.new.items ≡ text.old.items ++ fields_text length) }
{
    push_number(
        text,
        "\r\ncontent-length: ",
        length,
        "\r\nconnection: close\r\nx-content-type-options: nosniff\r\nx-frame-options: DENY\r\n\r\n",
    )
}

fn push_number(
    text: &mut Vec<u8>,
    before: &str,
    number: usize,
    behind: &str,
) -> Result<(), AllocError>
    ensures { OnOk result (text.new.items ≡ text.old.items ++ with_number before.now number behind.now) }
{
    let mut buffer = Buffer::new();
    text.extend_from_slice(before.as_bytes())?;
    text.extend_from_slice(buffer.format(number).as_bytes())?;
    text.extend_from_slice(behind.as_bytes())
}
