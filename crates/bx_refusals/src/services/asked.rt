//! HTTP requests. `ID` in a text is a placeholder for the client id of a session.
use crate::unlike::Unlike;
use bytes::Bytes;
use http::Request;
use http::header::CONTENT_TYPE;
use http_body_util::Full;
use std::alloc::{AllocError, Global};

/// A request body that is not JSON.
pub const BROKEN: &str = "[";

/// The body of a subscription to `/a/*`. `ID` is a placeholder for the client id.
pub const SUBSCRIBE: &str =
    r#"[{"channel":"/meta/subscribe","clientId":"ID","subscription":"/a/*"}]"#;

/// The body of a connect that acknowledges no batch, held if it gets no events. `ID` is a
/// placeholder for the client id.
pub const CONNECT: &str =
    r#"[{"channel":"/meta/connect","clientId":"ID","connectionType":"long-polling","ext":{"ack":0}}]"#;

/// The body of a publish to `/a/b` with the data 7. `ID` is a placeholder for the client id.
pub const PUBLISH: &str = r#"[{"channel":"/a/b","clientId":"ID","data":7}]"#;

/// The path and query of a connect that is never held. `ID` is a placeholder for the client id. The
/// response is a script.
pub const QUERY_CONNECT: &str =
    r#"/cometd?jsonp=cb.x&message=[{%22channel%22:%22/meta/connect%22,%22clientId%22:%22ID%22,%22connectionType%22:%22callback-polling%22,%22advice%22:{%22timeout%22:0}}]"#;

/// The method and contents of a request, from which the request can be built more than once.
#[derive(Clone, Copy)]
pub enum Asked<'a> {
    /// A POST to `/cometd` with this body.
    Post(&'a str),
    /// A GET of this path and query.
    Get(&'a str),
}

/// Builds the HTTP request for `asked`.
pub fn request(alloc: Global, asked: Asked<'_>) -> Result<Request<Full<Bytes>>, Unlike> {
    let made = match asked {
        Asked::Post(text) => {
            let body = Full::new(Bytes::copy_from_slice(alloc, text.as_bytes())?);
            Request::post(alloc, "/cometd")
                .header(CONTENT_TYPE, "application/json")
                .body(body)
        }
        Asked::Get(target) => Request::get(alloc, target).body(Full::new(Bytes::from_static(b""))),
    };
    match made {
        Ok(request) => Ok(request),
        Err(_) => Err(Unlike::Memory),
    }
}

/// Returns `text` with the first `word` replaced by `by`, or `text` if `word` is missing.
pub fn replaced(alloc: Global, text: &str, word: &str, by: &str) -> Result<String, AllocError> {
    match text.split_once(word) {
        Some((front, back)) => format!(in alloc; "{front}{by}{back}"),
        None => String::from_str(alloc, text),
    }
}
