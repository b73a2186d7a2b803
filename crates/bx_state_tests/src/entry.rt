//! Tests of which requests a read-only listener allows.
use crate::same::same;
use bx_cut::Bodies;
use bx_entry::{Access, AdmitFault, Arrival, Refusal, SharedPatterns};
use bx_names::Pattern;
use std::alloc::Global;
use std::test::Fail;

// What reading a request returns: the number of its messages, or why it is rejected.
type Found = Result<usize, AdmitFault>;

const FORBIDDEN: Found = Err(AdmitFault::Refused(Refusal::Forbidden));

const NOT_JSON: Found = Err(AdmitFault::Refused(Refusal::NotJson));

const NOT_OBJECT: Found = Err(AdmitFault::Refused(Refusal::NotObject));

const NO_CHANNEL: Found = Err(AdmitFault::Refused(Refusal::NoChannel));

const CONNECT: &str = "{\"channel\":\"/meta/connect\"}";

const SERVICE: &str = "[{\"channel\":\"/service/a\"}]";

const PUBLISH: &str = "{\"channel\":\"/a\"}";

// Creates a request of `documents` that arrived on a listener with `access`, and reads it.
fn read_at(alloc: Global, access: Access, documents: &[&str]) -> Found {
    let mut texts = Vec::new(alloc);
    for document in documents {
        texts.push(String::from_str(alloc, document)?)?;
    }
    let arrival = Arrival {
        moment: 0,
        nonce: 0,
        access,
        bodies: Bodies::Decoded(texts),
    };
    Ok(arrival.read(alloc)?.len())
}

// Creates the access of a read-only listener with `patterns`.
fn readers(alloc: Global, patterns: &[&str]) -> Result<Access, Fail> {
    let mut allowed = Vec::new(alloc);
    for text in patterns {
        allowed.push(Pattern::read(alloc, *text)?)?;
    }
    Ok(Access::ReadOnly(SharedPatterns::new(alloc, allowed)?))
}

// Requests of two documents. Each has its result on the publishers' listener, and then its result
// on the read-only listener. Faults of the documents are reported before `Forbidden`.
const REQUESTS: [(&str, &str, Found, Found); 12] = [
    ("[]", "[]", Ok(0), Ok(0)),
    (CONNECT, SERVICE, Ok(2), Ok(2)),
    ("{\"channel\":\"\\u002fmeta\\/x\"}", "[]", Ok(1), Ok(1)),
    ("[]", PUBLISH, Ok(1), FORBIDDEN),
    (PUBLISH, SERVICE, Ok(2), FORBIDDEN),
    (SERVICE, PUBLISH, Ok(2), FORBIDDEN),
    ("[{\"channel\":\"\"}]", "[]", Ok(1), FORBIDDEN),
    (
        CONNECT,
        "[{\"channel\":\"/service/a\"},{\"channel\":\"/metas/a\"},{\"channel\":\"/meta/a\"}]",
        Ok(4),
        FORBIDDEN,
    ),
    (PUBLISH, "[", NOT_JSON, NOT_JSON),
    ("", PUBLISH, NOT_JSON, NOT_JSON),
    (PUBLISH, "7", NOT_OBJECT, NOT_OBJECT),
    ("{\"channel\":7}", PUBLISH, NO_CHANNEL, NO_CHANNEL),
];

// Checks that the read-only listener rejects a request if one of its messages is forbidden. A
// message is forbidden if its channel is neither a meta nor a service channel.
#[test]
fn readers_publish_nothing(rt: HostRuntime) -> Result<(), Fail> {
    for (first, second, at_publishers, at_readers) in &REQUESTS {
        let found = read_at(rt.alloc(), Access::ReadWrite, &[*first, *second]);
        same(&rt, found, *at_publishers, *first);
        let found = read_at(rt.alloc(), readers(rt.alloc(), &[])?, &[*first, *second]);
        same(&rt, found, *at_readers, *first);
    }
    Ok(())
}

// Channels, each with whether the read-only listener with the patterns `/hall`, `/room/*` and
// `/open/**` allows a message to it. A channel name that is not valid matches no pattern.
const CHANNELS: [(&str, Found); 10] = [
    ("/hall", Ok(1)),
    ("/room/1", Ok(1)),
    ("/open/1/2", Ok(1)),
    ("/meta/connect", Ok(1)),
    ("/hall/1", FORBIDDEN),
    ("/room/1/2", FORBIDDEN),
    ("/openly/1", FORBIDDEN),
    ("/open/*", FORBIDDEN),
    ("/open//1", FORBIDDEN),
    ("/open/a b", FORBIDDEN),
];

// Reads a message to `channel` on the read-only listener of `CHANNELS`.
fn read_to(alloc: Global, channel: &str) -> Result<Found, Fail> {
    let text = format!(in alloc; "[{{\"channel\":\"{channel}\"}}]")?;
    let access = readers(alloc, &["/hall", "/room/*", "/open/**"])?;
    Ok(read_at(alloc, access, &[text.as_str()]))
}

// Checks which broadcast channels a read-only listener with patterns allows.
#[test]
fn readers_publish_by_patterns(rt: HostRuntime) -> Result<(), Fail> {
    for (channel, wanted) in &CHANNELS {
        same(&rt, read_to(rt.alloc(), *channel)?, *wanted, *channel);
    }
    Ok(())
}
