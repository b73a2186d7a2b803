//! Tests of reading documents from bodies and queries, and of writing responses.
use crate::message::{check_body, connected, published};
use crate::same::same;
use bx_advice::BODY_LIMIT;
use bx_cut::Bodies;
use bx_message::{AckReply, Item};
use bx_transport::{TransportError, callback_of, read_get, read_post};
use std::alloc::{AllocError, Global};
use std::process::Abort;
use std::test::Fail;

const FORM: &str = "application/x-www-form-urlencoded";

// Returns the documents between vertical bars, with U+FFFD for bytes that are not UTF-8.
fn listed(alloc: Global, bodies: &Bodies) -> Result<String, AllocError> {
    let mut text = String::new(alloc);
    for i in 0..bodies.len() {
        text.push('|')?;
        text.push_str(String::from_utf8_lossy(alloc, bodies.get(i))?.as_str())?;
    }
    text.push('|')?;
    Ok(text)
}

// The documents of a request, as `listed` formats them, or why it is rejected.
type Read<T> = Result<T, TransportError>;

// Returns the documents of a POST with `body`, as `listed` formats them.
fn post(alloc: Global, content_type: Option<&str>, body: &str) -> Read<String> {
    let body = Vec::from_slice(alloc, body.as_bytes())?;
    let bodies = read_post(alloc, content_type.map(str::as_bytes), body)?;
    Ok(listed(alloc, &bodies)?)
}

// Returns the callback's name in a query, a space, and the documents as `listed` formats them.
fn get(alloc: Global, query: &str) -> Read<String> {
    let (name, bodies) = read_get(alloc, query.as_bytes())?;
    let documents = listed(alloc, &bodies)?;
    Ok(format!(in alloc; "{name} {documents}")?)
}

// Checks that the documents or the error in `taken` are those in `wanted`.
fn check(rt: &impl Abort, taken: Read<String>, wanted: Read<&str>, at: &str) {
    match &taken {
        Ok(text) => same(rt, Ok(text.as_str()), wanted, at),
        Err(error) => same(rt, Err(*error), wanted, at),
    }
}

// Content types that make a POST's body a form.
const FORMS: [&str; 4] = [
    "Application/X-WWW-Form-Urlencoded; charset=UTF-8",
    "application/x-www-form-urlencoded;",
    "\t APPLICATION/X-WWW-FORM-URLENCODED \t;a=b",
    " application/x-www-form-urlencoded ",
];

// Content types that do not.
const OTHERS: [Option<&str>; 7] = [
    Some("application/x-www-form-urlencoded x"),
    Some("application/x-www-form-urlencode"),
    Some("application/x-www-form-urlencodedd"),
    Some("text/plain"),
    Some("text/plain;application/x-www-form-urlencoded"),
    Some(""),
    None,
];

// Checks which content types make a POST's body a form.
#[test]
fn content_types_tell_forms(rt: HostRuntime) {
    let body = "message=[]&x=1&message=[]";
    for content_type in FORMS {
        let taken = post(rt.alloc(), Some(content_type), body);
        check(&rt, taken, Ok("|[]|[]|"), content_type);
    }
    for content_type in OTHERS {
        let taken = post(rt.alloc(), content_type, body);
        let wanted = Ok("|message=[]&x=1&message=[]|");
        check(&rt, taken, wanted, content_type.unwrap_or("none"));
    }
}

// Checks how forms are decoded, and which have no message.
#[test]
fn forms_are_decoded(rt: HostRuntime) {
    let table: [(&str, Read<&str>); 13] = [
        ("message=%5B%5D", Ok("|[]|")),
        ("message=a+b%2Bc", Ok("|a b+c|")),
        ("message=%zz%5", Ok("|%zz%5|")),
        ("message=", Ok("||")),
        ("message=a=b", Ok("|a=b|")),
        ("&&message=1&&message=2&", Ok("|1|2|")),
        ("m%65ssage=1", Ok("|1|")),
        ("message=%FF", Ok("|\u{fffd}|")),
        ("message=%E2%80%A8", Ok("|\u{2028}|")),
        ("Message=1&message=2", Ok("|2|")),
        ("", Err(TransportError::NoMessage)),
        ("Message=1", Err(TransportError::NoMessage)),
        ("message%3D1", Err(TransportError::NoMessage)),
    ];
    for (form, wanted) in table {
        check(&rt, post(rt.alloc(), Some(FORM), form), wanted, form);
    }
}

// Checks how a query names its callback, and which queries are rejected.
#[test]
fn queries_name_their_callback(rt: HostRuntime) {
    let table: [(&str, Read<&str>); 11] = [
        ("message=[]", Ok("jsonpcallback |[]|")),
        ("jsonp=a&jsonp=b&message=[]", Ok("b |[]|")),
        ("jsonp=a(b&jsonp=b&message=[]", Ok("b |[]|")),
        (
            "message=1&jsonp=cb.x_$-%5B0%5D&message=2",
            Ok("cb.x_$-[0] |1|2|"),
        ),
        ("message=[]&jsonp=", Err(TransportError::BadName)),
        ("jsonp=a(b", Err(TransportError::BadName)),
        ("message=1&jsonp=b&jsonp=a(b", Err(TransportError::BadName)),
        ("message=1&jsonp=a+b", Err(TransportError::BadName)),
        ("message=1&jsonp=%FF", Err(TransportError::BadName)),
        ("jsonp=cb", Err(TransportError::NoMessage)),
        ("", Err(TransportError::NoMessage)),
    ];
    for (query, wanted) in table {
        check(&rt, get(rt.alloc(), query), wanted, query);
    }
}

// Queries at limits: a start, and how often a letter follows it, with the error if there is one.
const LONG_QUERIES: [(&str, usize, Option<TransportError>); 4] = [
    ("message=1&jsonp=", 256, None),
    ("message=1&jsonp=", 257, Some(TransportError::BadName)),
    ("x=", BODY_LIMIT - 2, Some(TransportError::NoMessage)),
    ("x=", BODY_LIMIT - 1, Some(TransportError::TooLarge)),
];

// Content types and lengths of POSTs, with the error if there is one.
const LONG_POSTS: [(Option<&str>, usize, Option<TransportError>); 4] = [
    (None, BODY_LIMIT, None),
    (None, BODY_LIMIT + 1, Some(TransportError::TooLarge)),
    (Some(FORM), BODY_LIMIT, Some(TransportError::NoMessage)),
    (Some(FORM), BODY_LIMIT + 1, Some(TransportError::TooLarge)),
];

// Checks that the limits of the length of a callback's name, of a query, and of a body are exact.
#[test]
fn sizes_are_limited(rt: HostRuntime) -> Result<(), Fail> {
    for (start, count, fault) in &LONG_QUERIES {
        let query = format!(in rt.alloc(); "{start}{}", "a".repeat(rt.alloc(), *count)?)?;
        let found = get(rt.alloc(), query.as_str()).err();
        same(&rt, found, *fault, (*start, *count));
    }
    for (content_type, size, fault) in &LONG_POSTS {
        let blanks = " ".repeat(rt.alloc(), *size)?;
        let found = post(rt.alloc(), *content_type, blanks.as_str()).err();
        same(&rt, found, *fault, (*content_type, *size));
    }
    Ok(())
}

// Checks that the text of the response with `items` and the callback `name` is `wanted`.
fn check_callback(
    rt: &impl Abort,
    alloc: Global,
    name: &str,
    items: &[Item],
    wanted: &str,
) -> Result<(), AllocError> {
    let text = callback_of(alloc, name, items)?;
    same(rt, text.as_slice(), wanted.as_bytes(), wanted);
    Ok(())
}

// Checks that callbacks escape U+2028 and U+2029, and that other responses do not.
#[test]
fn callbacks_hold_no_line_ends(rt: HostRuntime) -> Result<(), Fail> {
    let alloc = rt.alloc();
    check_body(&rt, alloc, &[], "[]")?;
    check_callback(&rt, alloc, "jsonpcallback", &[], "jsonpcallback([])")?;
    let event = Item::EventItem(published(alloc, "\"x\u{2028}\u{2028}y\"")?);
    let reply = connected(alloc, "\"\u{2029}\u{2027}\"", AckReply::NoAck)?;
    let items = [event, reply];
    let wanted = "[{\"channel\":\"/a/b\",\"data\":\"x\u{2028}\u{2028}y\"}]";
    check_body(&rt, alloc, &items[..1], wanted)?;
    let wanted =
        "cb.x([{\"channel\":\"/a/b\",\"data\":\"x\\u2028\\u2028y\"},{\"advice\":{\"interval\":0,\"reconnect\":\"retry\",\"timeout\":30000},\"channel\":\"/meta/connect\",\"clientId\":\"Z1\",\"id\":\"\\u2029\u{2027}\",\"successful\":true}])";
    Ok(check_callback(&rt, alloc, "cb.x", &items, wanted)?)
}
