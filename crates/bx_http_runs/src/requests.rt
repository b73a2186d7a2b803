//! Requests, and what is printed of the responses to them.
use crate::host::{Host, add_written, post};
use crate::wire::Wire;
use anyhow::{Result, anyhow};
use bx_advice::BODY_LIMIT;
use bx_calls::texts::{CONNECT_OTHER, HANDSHAKE, PUBLISH, SUBSCRIBE_OTHER};
use bx_hub::{Hub, HubKind};
use bx_pieces::Pieces;
use bytes::Bytes;
use http::{Request, Response};
use hyper::body::Incoming;
use hyper::service::Service;
use std::alloc::{AllocError, Global};
use std::sync::Wait;

// A mark in the bytes of a request. The bytes after it arrive once the server has written
// something.
const GO_ON: &str = "<goes on>";

// A mark in the bytes of a request, to be replaced by `BODY_LIMIT` spaces.
const BLANKS: &str = "<blanks>";

// Requests in rare forms of HTTP, each with its own connection: its name, a colon and a space, and
// its bytes, which may have the marks `GO_ON` and `BLANKS`.
const FORMS: [&str; 20] = [
    "in chunks: POST /cometd HTTP/1.1\r\nhost: a\r\ntransfer-encoding: chunked\r\n\r\n3\r\n[{\"\r\n20;last=no\r\nchannel\":\"/meta/ping\",\"id\":\"7\"}]\r\n0\r\n\r\n",
    "of HTTP/1.0: POST /cometd HTTP/1.0\r\ncontent-length: 35\r\n\r\n[{\"channel\":\"/meta/ping\",\"id\":\"7\"}]",
    "that asks whether to go on: POST /cometd HTTP/1.1\r\nhost: a\r\nexpect: 100-continue\r\ncontent-length: 35\r\n\r\n<goes on>[{\"channel\":\"/meta/ping\",\"id\":\"7\"}]",
    "with its whole address: POST http://a/cometd/x?y HTTP/1.1\r\nhost: a\r\ncontent-length: 35\r\n\r\n[{\"channel\":\"/meta/ping\",\"id\":\"7\"}]",
    "of two documents: POST /cometd HTTP/1.1\r\nhost: a\r\ncontent-type: application/x-www-form-urlencoded\r\ncontent-length: 139\r\n\r\nmessage=[{%22channel%22:%22/meta/ping%22,%22id%22:%227%22}]&jsonp=no&message=[]&message=[{%22channel%22:%22/meta/ping%22,%22id%22:%227%22}]",
    "by a callback: GET /cometd?jsonp=a.b&message=[{%22channel%22:%22/meta/ping%22,%22id%22:%22%E2%80%A8%22}] HTTP/1.1\r\nhost: a\r\n\r\n",
    "two at once: POST /cometd HTTP/1.1\r\nhost: a\r\ncontent-length: 2\r\n\r\n[]GET /cometd?message=[{%22channel%22:%22/meta/ping%22,%22id%22:%227%22}] HTTP/1.1\r\nhost: a\r\n\r\n",
    "for its head alone: HEAD /cometd?message=[] HTTP/1.1\r\nhost: a\r\n\r\n",
    "by another method: PUT /cometd HTTP/1.1\r\nhost: a\r\ncontent-length: 2\r\n\r\n[]",
    "to another path: POST /comet HTTP/1.1\r\nhost: a\r\ncontent-length: 2\r\n\r\n[]",
    "without a query: GET /cometd HTTP/1.1\r\nhost: a\r\n\r\n",
    "by a callback that is no name: GET /cometd?message=[]&jsonp=a(b HTTP/1.1\r\nhost: a\r\n\r\n",
    "by a form: POST /cometd HTTP/1.1\r\nhost: a\r\ncontent-type: application/x-www-form-urlencoded\r\ncontent-length: 10\r\n\r\nmessage=[]",
    "by a form without a message: POST /cometd HTTP/1.1\r\nhost: a\r\ncontent-type: application/x-www-form-urlencoded\r\ncontent-length: 8\r\n\r\nother=[]",
    "as long as may be, which is no document: POST /cometd HTTP/1.1\r\nhost: a\r\ntransfer-encoding: chunked\r\n\r\n100000\r\n<blanks>\r\n0\r\n\r\n",
    "that is longer: POST /cometd HTTP/1.1\r\nhost: a\r\ntransfer-encoding: chunked\r\n\r\n100000\r\n<blanks>\r\n1\r\n \r\n0\r\n\r\n",
    "that says it is longer: POST /cometd HTTP/1.1\r\nhost: a\r\ncontent-length: 1048577\r\n\r\n",
    "longer than it says: POST /cometd HTTP/1.1\r\nhost: a\r\ncontent-length: 2\r\n\r\n[]]\r\n\r\n",
    "shorter than it says: POST /cometd HTTP/1.1\r\nhost: a\r\ncontent-length: 3\r\n\r\n[]",
    "in chunks that lie: POST /cometd HTTP/1.1\r\nhost: a\r\ntransfer-encoding: chunked\r\n\r\n1\r\n[]\r\n0\r\n\r\n",
];

// Returns a copy of `bytes`, with `BODY_LIMIT` spaces in place of the first `BLANKS`.
fn filled(alloc: Global, bytes: &str) -> Result<String, AllocError> {
    match bytes.split_once(BLANKS) {
        Some((front, back)) => {
            let blanks = " ".repeat(alloc, BODY_LIMIT)?;
            format!(in alloc; "{front}{blanks}{back}")
        }
        None => String::from_str(alloc, bytes),
    }
}

// Returns the number of entries in the hub's list. To learn it, posts a request without messages,
// which adds no entry.
fn entries<L: HubKind, H: Wait + Drop, R: Wait>(
    rt: &R,
    alloc: Global,
    hub: &Hub<L, H>,
) -> Result<u64> {
    match bx_calls::post(rt, alloc, hub, &mut hub.pass(), "[]") {
        Ok((entries, _)) => Ok(entries),
        Err(_) => Err(anyhow!("not posted")),
    }
}

// Returns the body of the response `written`. Fails if `written` has no end of a response's head.
fn body_of(alloc: Global, written: &[u8]) -> Result<String> {
    let written = String::from_utf8_lossy(alloc, written)?;
    let parts = written.as_str().split_once("\r\n\r\n");
    let (_, body) = parts.ok_or(anyhow!("no response"))?;
    Ok(String::from_str(alloc, body)?)
}

impl<S, E> Host<'_, S>
where
    S: Service<Request<Incoming<Wire>>, Response = Response<Pieces<Bytes>>, Error = E> + Clone,
    E: Into<anyhow::Error> + Drop,
{
    /// Sends all requests, closing the hub before the last, and returns the text to print.
    ///
    /// # Errors
    ///
    /// If memory runs out or a response is missing.
    ///
    /// # Blocking
    ///
    /// Locks as [`Hub::post`] and [`Hub::close`] do.
    pub fn serve_all<L: HubKind, H: Wait + Drop, R: Wait>(
        &self,
        rt: &R,
        hub: &Hub<L, H>,
    ) -> Result<String>
        requires { (each : S) → S.can_call each }
    {
        let mut text = self.posts(rt, hub)?;
        self.add_forms(&mut text)?;
        self.add_held(&mut text)?;
        hub.close(rt);
        text.push_str("\na request without messages to a closed hub\n")?;
        self.post("[]", &mut text)?;
        Ok(text)
    }

    // Sends each proper prefix of a handshake, starting with the empty one, and then all of it.
    // Returns a text. It has the number of prefixes after which the hub's list was empty. It also
    // has the body of the response to the whole handshake, and the length of the list at the end.
    fn posts<L: HubKind, H: Wait + Drop, R: Wait>(&self, rt: &R, hub: &Hub<L, H>) -> Result<String>
        requires { (each : S) → S.can_call each }
    {
        let alloc = self.alloc;
        let post = post(alloc, HANDSHAKE)?;
        let empty = self.empty_behind(rt, hub, post.as_bytes())?;
        let wire = Wire::new(alloc, post.as_bytes(), b"")?;
        let body = body_of(alloc, self.serve(wire)?.as_slice())?;
        let entries = entries(rt, alloc, hub)?;
        Ok(format!(in alloc; "empty behind {empty}\n{body}\n{entries} entries\n")?)
    }

    // Sends each proper prefix of `bytes` on its own connection, and drops the response or error.
    // Returns the number of prefixes after which the hub's list was empty.
    fn empty_behind<L: HubKind, H: Wait + Drop, R: Wait>(
        &self,
        rt: &R,
        hub: &Hub<L, H>,
        bytes: &[u8],
    ) -> Result<usize>
        requires { (each : S) → S.can_call each }
    {
        let mut empty = 0usize;
        for count in 0..bytes.len() {
            let wire = Wire::new(self.alloc, &bytes[..count], b"")?;
            let _ = self.serve(wire);
            if entries(rt, self.alloc, hub)? == 0 {
                empty = empty.saturating_add(1);
            }
        }
        Ok(empty)
    }

    // Serves each request of `FORMS`, and appends its name and what the server wrote to `text`.
    fn add_forms(&self, text: &mut String) -> Result<()>
        requires { (each : S) → S.can_call each }
    {
        for form in &FORMS {
            let (name, bytes) = form.split_once(": ").ok_or(anyhow!("no name"))?;
            text.push_str(format!(in self.alloc; "\na request {name}\n")?.as_str())?;
            self.add_form(bytes, text)?;
        }
        Ok(())
    }

    fn add_form(&self, bytes: &str, text: &mut String) -> Result<()>
        requires { (each : S) → S.can_call each }
    {
        let (coming, later) = match bytes.split_once(GO_ON) {
            Some(parts) => parts,
            None => (bytes, ""),
        };
        let coming = filled(self.alloc, coming)?;
        let wire = Wire::new(self.alloc, coming.as_bytes(), later.as_bytes())?;
        add_written(text, self.alloc, self.serve(wire)?.as_slice())?;
        Ok(())
    }

    // Publishes to a session while its connect is held, with another request after the connect.
    // Appends what the server wrote to `text`. The reply to the publish, which has its own
    // connection, comes before the answer to the connect, because the connect waits for the
    // publish.
    fn add_held(&self, text: &mut String) -> Result<()>
        requires { (each : S) → S.can_call each }
    {
        text.push_str("\na session opens and subscribes\n")?;
        self.post(HANDSHAKE, text)?;
        self.post(SUBSCRIBE_OTHER, text)?;
        text.push_str("\nwhile its connect is held, it publishes\n")?;
        let mut both = post(self.alloc, CONNECT_OTHER)?;
        both.push_str(post(self.alloc, "[]")?.as_str())?;
        let wire = Wire::new(self.alloc, both.as_bytes(), b"")?;
        let written = self.serve_around(wire, PUBLISH, text)?;
        text.push_str("\nthe connect, and the request behind it\n")?;
        add_written(text, self.alloc, written.as_slice())?;
        Ok(())
    }
}
