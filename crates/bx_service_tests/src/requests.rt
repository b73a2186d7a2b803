//! Requests of the runs, and checks of their responses.
use crate::same::same;
use bx_service::{Collect, ServiceFault};
use bytes::Bytes;
use futures::Future;
use futures::task::{Context, Poll};
use futures::test::MockTask;
use http::header::{ALLOW, CONTENT_LENGTH, CONTENT_TYPE, HeaderName, TRANSFER_ENCODING};
use http::{Request, Response};
use http_body::{Body, Frame};
use std::alloc::Global;
use std::process::Abort;
use std::test::*;

pub const JSON: &str = "application/json;charset=UTF-8";

pub const SCRIPT: &str = "application/javascript;charset=UTF-8";

pub const FORM: &str = "application/x-www-form-urlencoded";

/// The output of an HTTP exchange: a response, or a fault of the service.
pub type Given = Result<Response<bx_pieces::Pieces<Bytes>>, ServiceFault>;

/// The error of a body that breaks off.
#[derive(Clone, Copy)]
pub struct Broken;

/// A body of one frame, followed by its end or an error.
#[derive(Drop)]
pub struct Pieces {
    // Whether the first poll is pending.
    is_late: bool,
    // The data of the frame, until it is read.
    data: Option<Bytes>,
    // Whether an error follows the frame.
    is_broken: bool,
}

impl Body for Pieces {
    type Data = Bytes;

    type Error = Broken;

    fn poll_frame(&mut self, cx: &mut Context<'_>) -> Poll<Option<Result<Frame<Bytes>, Broken>>> {
        if self.is_late {
            self.is_late = false;
            return cx.yield_now();
        }
        match self.data.take() {
            Some(data) => Poll::Ready(Some(Ok(Frame::data(data)))),
            None if self.is_broken => Poll::Ready(Some(Err(Broken))),
            None => Poll::Ready(None),
        }
    }
}

/// A request to the service, as the tests describe it.
///
/// Its target is `/cometd` and its content is JSON, unless a variant says otherwise.
#[derive(Clone, Copy)]
pub enum Ask {
    /// A POST of this media type and text.
    Body(&'static str, &'static str),
    /// A POST of this media type and text, padded with spaces to this number of bytes.
    Padded(&'static str, &'static str, usize),
    /// A POST of this text, which is ready at the second poll. The first poll is pending.
    Late(&'static str),
    /// A POST of the first bytes of this text, followed by an error. The number is how many bytes.
    Broken(&'static str, usize),
    /// A POST of `[]` with this `Content-Length` and a body that is pending at its first poll.
    Said(u64),
    /// A POST of `[]`, padded with spaces to this number of bytes, which is its `Content-Length`.
    Exact(usize),
    /// A POST of `[]` with these header lines of `Transfer-Encoding`.
    Coded(&'static [&'static str]),
    /// A request with this method and target, an empty body, and the coding `gzip, chunked`. If a
    /// number is given, it is the `Content-Length`.
    Gzip(&'static str, &'static str, Option<u64>),
    /// A request with this method, target and text.
    To(&'static str, &'static str, &'static str),
    /// A GET of this target, with an empty body.
    Get(&'static str),
}

impl Ask {
    /// Creates a JSON POST of `text` to `/cometd`.
    pub fn post(text: &'static str) -> Ask {
        Ask::Body(JSON, text)
    }

    fn text(self) -> &'static str {
        match self {
            Ask::Body(_, text) | Ask::Padded(_, text, _) | Ask::To(_, _, text) => text,
            Ask::Late(text) | Ask::Broken(text, _) => text,
            Ask::Said(_) | Ask::Exact(_) | Ask::Coded(_) => "[]",
            Ask::Gzip(..) | Ask::Get(_) => "",
        }
    }

    fn body(self, alloc: Global) -> Result<Pieces, Fail> {
        let mut bytes = self.text().as_bytes().to_vec(alloc)?;
        if let Ask::Padded(_, _, len) | Ask::Broken(_, len) | Ask::Exact(len) = self {
            bytes.resize(len, b' ')?;
        }
        Ok(Pieces {
            is_late: matches!(self, Ask::Late(_) | Ask::Said(_)),
            data: Some(Bytes::copy_from_slice(alloc, bytes.as_slice())?),
            is_broken: matches!(self, Ask::Broken(..)),
        })
    }

    fn line(self) -> (&'static str, &'static str) {
        match self {
            Ask::To(method, target, _) | Ask::Gzip(method, target, _) => (method, target),
            Ask::Get(target) => ("GET", target),
            _ => ("POST", "/cometd"),
        }
    }

    fn kind(self) -> &'static str {
        match self {
            Ask::Body(kind, _) | Ask::Padded(kind, _, _) => kind,
            _ => JSON,
        }
    }

    fn length(self) -> Option<u64> {
        match self {
            Ask::Said(length) => Some(length),
            Ask::Exact(length) => Some(length as u64),
            Ask::Gzip(_, _, length) => length,
            _ => None,
        }
    }

    fn codings(self) -> &'static [&'static str] {
        match self {
            Ask::Coded(codings) => codings,
            Ask::Gzip(..) => &["gzip, chunked"],
            _ => &[],
        }
    }

    /// Creates the HTTP request that `self` describes. Fails if a part of it is not valid.
    pub fn request(self, alloc: Global) -> Result<Request<Pieces>, Fail> {
        let body = self.body(alloc)?;
        let (method, target) = self.line();
        let mut builder = Request::builder(alloc)
            .method(method)
            .uri(target)
            .header(CONTENT_TYPE, self.kind());
        if let Some(length) = self.length() {
            builder = builder.header(CONTENT_LENGTH, length);
        }
        for coding in self.codings() {
            builder = builder.header(TRANSFER_ENCODING, *coding);
        }
        Ok(builder.body(body).map_err(|_| "no request")?)
    }
}

/// The response that a request must get.
#[derive(Clone, Copy)]
pub enum Want {
    /// A response with status 200 and this JSON.
    Json(&'static str),
    /// A response with status 200 and this script.
    Script(&'static str),
    /// A response with this status, which is not 200, and an empty body.
    Status(u16),
}

impl Want {
    // Returns the status, the text, and the values of `Content-Type` and `Allow`.
    fn parts(
        self,
    ) -> (
        u16,
        &'static str,
        Option<&'static str>,
        Option<&'static str>,
    ) {
        match self {
            Want::Json(text) => (200, text, Some(JSON), None),
            Want::Script(text) => (200, text, Some(SCRIPT), None),
            Want::Status(405) => (405, "", None, Some("GET, POST")),
            Want::Status(status) => (status, "", None, None),
        }
    }
}

/// Checks that a poll of `exchange` is pending, and wakes `task` exactly if `is_woken` is `true`.
pub fn check_pending<F: Future<Output = Given>, R: Abort>(
    rt: &R,
    exchange: &mut F,
    task: &MockTask,
    is_woken: bool,
)
    requires { F.can_poll exchange.old }
    ensures { F.can_poll exchange.new }
{
    match task.poll(exchange) {
        Poll::Pending => same(rt, task.is_woken(), is_woken, "a wake"),
        Poll::Ready(_) => panic!(rt; "it does not wait"),
    }
}

/// Checks that the next poll of `exchange` returns the response `want`.
///
/// Aborts the test if the status, a header field or the body is another one. Fails if the poll is
/// pending or fails, or memory runs out.
pub fn check_given<F: Future<Output = Given>, R: Abort>(
    rt: &R,
    alloc: Global,
    exchange: &mut F,
    task: &MockTask,
    want: Want,
) -> Result<(), Fail>
    requires { F.can_poll exchange.old }
{
    let Poll::Ready(given) = task.poll(exchange) else {
        return Err(Fail::from("it waits"));
    };
    let response = given.map_err(|_| "no memory")?;
    let (status, text, kind, allow) = want.parts();
    same(rt, response.status().as_u16(), status, text);
    check_field(rt, &response, CONTENT_TYPE, kind);
    check_field(rt, &response, ALLOW, allow);
    let body = body_of(alloc, response, task)?;
    same(rt, body.as_slice(), text.as_bytes(), text);
    Ok(())
}

// Returns the body of `response`. Fails if a poll of it is pending or memory runs out.
fn body_of(
    alloc: Global,
    response: Response<bx_pieces::Pieces<Bytes>>,
    task: &MockTask,
) -> Result<Vec<u8>, Fail> {
    let mut body = Collect::new(alloc, response.into_body(), usize::MAX);
    match task.poll(&mut body) {
        Poll::Ready(Ok(text)) => Ok(text),
        _ => Err(Fail::from("no body")),
    }
}

// Checks that `response` has the header field `name` with `value`, or lacks it if that is `None`.
fn check_field<R: Abort>(
    rt: &R,
    response: &Response<bx_pieces::Pieces<Bytes>>,
    name: HeaderName,
    value: Option<&str>,
) {
    let field = response.headers().get(name);
    let found = field.map(|field| field.as_bytes());
    same(rt, found, value.map(|text| text.as_bytes()), value);
}
