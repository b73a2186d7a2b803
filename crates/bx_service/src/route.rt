ghost use Rattle.std.specs.Prelude.{◌≡◌, codes};
ghost use Rattle.http_header.specs.HeaderMap.{get_all};
ghost use Rattle.bx_service.specs.Statuses.{are_plain, get_route, is_json, is_served, post_route, route_of, unless_coded};

use crate::error::RequestError;
use bx_transport::has_media_type;
use http::header::{CONTENT_TYPE, TRANSFER_ENCODING};
use http::{HeaderMap, Method};

/// The transports that a service accepts.
#[derive(Clone, Copy, Debug, PartialEq, Eq)]
pub enum Transports {
    /// Long-polling by POSTs, and callback-polling by GETs.
    All,
    /// Long-polling by POSTs with the media type `application/json`.
    ///
    /// A page of another site cannot send such a request without the server's consent (CORS).
    JsonPosts,
}

impl Transports {
    fn post_route(self, fields: &HeaderMap) -> Route
        ensures { result ≡ post_route self fields.now }
    {
        match self {
            Transports::JsonPosts if !is_json(fields) => Route::Refused(RequestError::MediaType),
            _ => Route::Post,
        }
    }

    fn get_route(self) -> Route
        ensures { result ≡ get_route self }
    {
        match self {
            Transports::All => Route::Get,
            Transports::JsonPosts => Route::Refused(RequestError::CallbackPolling),
        }
    }
}

fn is_json(fields: &HeaderMap) -> bool
    ensures { result ≡ is_json fields.now }
{
    let content_type = fields.get(CONTENT_TYPE).map(|value| value.as_bytes());
    has_media_type(content_type, b"application/json")
}

/// Where the messages of a request are, or why it is rejected.
#[derive(Clone, Copy, Debug, PartialEq, Eq)]
pub(crate) enum Route {
    /// A POST, with its messages in the body.
    Post,
    /// A GET, with its messages in the query.
    Get,
    Refused(RequestError),
}

impl Route {
    /// Returns where a request has its messages, or the first of these reasons to reject it:
    ///
    /// - 404: the path is not served.
    /// - 405: the method is neither POST nor GET.
    /// - 501: the fields name a transfer coding other than one `chunked`.
    /// - 415 or 403: `transports` leaves out POSTs of the media type, or GETs.
    ///
    /// RFC 9112, section 6.1, for 501. The rest is a policy of this server.
    pub(crate) fn of(
        transports: Transports,
        method: &Method,
        path: &str,
        fields: &HeaderMap,
    ) -> Route
        ensures { result ≡ route_of transports method.now path.now fields.now }
    {
        if !is_served(path) {
            return Route::Refused(RequestError::NotFound);
        }
        let method = method.as_str();
        if method == "POST" {
            transports.post_route(fields).unless_coded(fields)
        } else if method == "GET" {
            transports.get_route().unless_coded(fields)
        } else {
            Route::Refused(RequestError::MethodNotAllowed)
        }
    }

    // Rejects `fields` with a `Transfer-Encoding` other than one `chunked`.
    fn unless_coded(self, fields: &HeaderMap) -> Route
        ensures { result ≡ unless_coded fields.now self }
    {
        if are_plain(fields) {
            self
        } else {
            Route::Refused(RequestError::TransferCoding)
        }
    }
}

// Returns `true` if there is no `Transfer-Encoding`, or only one, `chunked` in any letter case.
fn are_plain(fields: &HeaderMap) -> bool
    ensures { result ≡ are_plain (get_all fields.now (codes "transfer-encoding")) }
{
    let mut codings = fields.get_all(TRANSFER_ENCODING).iter();
    match (codings.next(), codings.next()) {
        (Some(coding), None) => coding.as_bytes().eq_ignore_ascii_case(b"chunked"),
        (coding, _) => coding.is_none(),
    }
}

// The paths are a policy of this server.
fn is_served(path: &str) -> bool
    ensures { result ≡ is_served path.now }
{
    path == "/cometd" || path.starts_with("/cometd/")
}
