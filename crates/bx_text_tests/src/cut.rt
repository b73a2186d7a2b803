//! Tests of splitting bodies into messages, and of looking up members and texts.
use crate::same::same;
use bx_cut::{CutError, Document, elements_of, member_of, spells, text_of};
use std::alloc::{AllocError, Global};
use std::process::Abort;
use std::test::Fail;

// The number of messages in a body, or why it is rejected.
type Count = Result<usize, CutError>;

// Returns the number of messages in `body`.
fn count_of(alloc: Global, body: &[u8]) -> Count {
    Ok(Document::read(alloc, body)?.pieces().len())
}

// Checks that the texts of the messages in `document` are `wanted`.
fn check_pieces(rt: &impl Abort, document: &Document<'_>, wanted: &[&str]) {
    same(rt, document.pieces().len(), wanted.len(), wanted);
    for (piece, want) in document.pieces().iter().zip(wanted) {
        same(rt, piece.text(), *want, wanted);
    }
}

// Documents, each with its messages.
const DOCUMENTS: [(&str, &[&str]); 6] = [
    (
        r#"[{"a":1},{"b":[2, 3]}]"#,
        &[r#"{"a":1}"#, r#"{"b":[2, 3]}"#],
    ),
    ("[]", &[]),
    (" \t\r\n[ \n{ } \t, {\r} ] \r\n", &["{ }", "{\r}"]),
    (" {\n\"a\" : 1 } ", &["{\n\"a\" : 1 }"]),
    (
        r#"[{"a":",]}"},{"b":"\\"},{"c":"\","}]"#,
        &[r#"{"a":",]}"}"#, r#"{"b":"\\"}"#, r#"{"c":"\","}"#],
    ),
    (
        r#"[{"a":{"b":[{},{}]}},{}]"#,
        &[r#"{"a":{"b":[{},{}]}}"#, "{}"],
    ),
];

// Checks the messages that documents are split into.
#[test]
fn documents_have_their_pieces(rt: HostRuntime) -> Result<(), Fail> {
    for (body, wanted) in &DOCUMENTS {
        let document = Document::read(rt.alloc(), body.as_bytes())?;
        check_pieces(&rt, &document, *wanted);
    }
    Ok(())
}

// Objects, each with the name of a member, and the member, which is `None` if it is missing.
const MEMBERS: [(&str, &str, Option<&str>); 12] = [
    (r#"{"a":1,"b":2}"#, "a", Some("1")),
    (r#"{"b":{"a":3}}"#, "a", None),
    (r#"{"\u0061":5}"#, "a", Some("5")),
    (r#"{"a":1,"a":2}"#, "a", Some("2")),
    (r#"{"a":1,"\u0061":2}"#, "a", Some("2")),
    (r#"{"\u0061":1,"a":2}"#, "a", Some("2")),
    (
        r#"{ "a" : "x,\"}" , "b":{"a":3} }"#,
        "a",
        Some(r#""x,\"}""#),
    ),
    (r#"{"a":"\\","b":7}"#, "b", Some("7")),
    (r#"{"a": -1.5e+3 , "b":null}"#, "a", Some("-1.5e+3")),
    (r#"{"":1}"#, "", Some("1")),
    (r#"{"\ud83d\ude00é\u00e9\n\/":1}"#, "😀éé\n/", Some("1")),
    (r#"{"ab":1,"a":2,"abc":3}"#, "ab", Some("1")),
];

// Returns member `name` of the only message in `body`. `Some(None)`: the message lacks the member.
fn member_in<'a>(alloc: Global, body: &'a str, name: &str) -> Option<Option<&'a str>> {
    let document = Document::read(alloc, body.as_bytes()).ok()?;
    Some(document.pieces().first()?.member(name))
}

// Checks that keys are compared after unescaping, and that the last member with a name counts, in a
// message and in its text.
#[test]
fn members_are_the_last_of_their_name(rt: HostRuntime) {
    for (body, name, wanted) in &MEMBERS {
        same(
            &rt,
            member_in(rt.alloc(), *body, *name),
            Some(*wanted),
            *body,
        );
        same(&rt, member_of(*body, *name), *wanted, *body);
    }
}

// Bodies that are not JSON.
const NO_JSON: [&[u8]; 22] = [
    b"",
    b"[{}",
    b"[{},]",
    b"[{}{}]",
    b"{\"a\" 1}",
    b"{} {}",
    b"[1",
    b"[{}]]",
    b"[}",
    b"{\"a\":[1}",
    b"[{\"a\":[{},{1}]}]",
    b"\"\xff\"",
    b"{\"a\":\"\xed\xa0\x80\"}",
    b"\xef\xbb\xbf{}",
    b"{\"a\":\"\\ud800\"}",
    b"{\"\\udc00\":1}",
    b"{\"a\":\"\\x\"}",
    b"{\"a\":\"\n\"}",
    b"{\"a\":01}",
    b"{\"a\":1e400}",
    b"[1,{\"a\":[,]}]",
    b"{}\x0b",
];

// JSON with something else than an object in the place of a message.
const NO_OBJECTS: [&[u8]; 7] = [
    b"1",
    b"[1,{}]",
    b"null",
    b"\"{}\"",
    b"[[{}]]",
    b"[{},\"{}\"]",
    b"[{},null,{}]",
];

// Checks the errors of bodies that are not valid.
#[test]
fn faults_are_told_in_order(rt: HostRuntime) {
    for body in NO_JSON {
        same(
            &rt,
            count_of(rt.alloc(), body),
            Err(CutError::NotJson),
            body,
        );
    }
    for body in NO_OBJECTS {
        same(
            &rt,
            count_of(rt.alloc(), body),
            Err(CutError::NotObject),
            body,
        );
    }
}

// A body: a text, a part that is repeated, and a text after it.
type Parts = (&'static str, &'static str, &'static str);

// Returns the text of `parts` with its part repeated `count` times.
fn repeated(alloc: Global, (front, part, back): Parts, count: usize) -> Result<String, AllocError> {
    let parts = part.repeat(alloc, count)?;
    format!(in alloc; "{front}{parts}{back}")
}

// Bodies at limits: how often a part is repeated, and the number of messages, or the error. Only
// messages count toward the limit of 256, and other errors come before it.
const COUNTED: [(Parts, usize, Count); 13] = [
    (("[", "{},", "{}]"), 255, Ok(256)),
    (("[", "{},", "{}]"), 256, Err(CutError::TooMany)),
    (("[", "{},", "1]"), 256, Err(CutError::NotObject)),
    (("[", "{},", "{}"), 256, Err(CutError::NotJson)),
    (("[", "{},", "{}]]"), 999, Err(CutError::NotJson)),
    (("[1,", "{},", "{}]"), 999, Err(CutError::NotObject)),
    (("[{\"a\":[", "{},", "{}]},{}]"), 300, Ok(2)),
    (("{\"a\":0.", "7", "}"), 1_000, Ok(1)),
    (("{\"a\":1", "0", "}"), 308, Ok(1)),
    (("{\"a\":1", "0", "}"), 309, Err(CutError::NotJson)),
    (("{\"a\":-18446744073709551616", "", "}"), 0, Ok(1)),
    (("{\"a\":1.7976931348623157e308", "", "}"), 0, Ok(1)),
    (
        ("{\"a\":1.7976931348623159e308", "", "}"),
        0,
        Err(CutError::NotJson),
    ),
];

// A text that surrounds nested values, what opens and what closes each of them, and how many there
// are, with the number of messages, or the error.
const NESTED: [(Parts, Parts, usize, Count); 4] = [
    (("", "{\"a\":", "0"), ("", "}", ""), 127, Ok(1)),
    (
        ("", "{\"a\":", "0"),
        ("", "}", ""),
        128,
        Err(CutError::NotJson),
    ),
    (("[{},{\"a\":", "[", ""), ("", "]", "},{}]"), 125, Ok(3)),
    (
        ("[{},{\"a\":", "[", ""),
        ("", "]", "},{}]"),
        126,
        Err(CutError::NotJson),
    ),
];

// Checks that the limits of messages, numbers and nesting are exact.
#[test]
fn limits_are_exact(rt: HostRuntime) -> Result<(), Fail> {
    for (parts, count, wanted) in &COUNTED {
        let body = repeated(rt.alloc(), *parts, *count)?;
        same(
            &rt,
            count_of(rt.alloc(), body.as_bytes()),
            *wanted,
            (*parts, *count),
        );
    }
    for (open, close, depth, wanted) in &NESTED {
        let front = repeated(rt.alloc(), *open, *depth)?;
        let back = repeated(rt.alloc(), *close, *depth)?;
        let body = format!(in rt.alloc(); "{front}{back}")?;
        same(
            &rt,
            count_of(rt.alloc(), body.as_bytes()),
            *wanted,
            (*open, *depth),
        );
    }
    Ok(())
}

// Checks the elements of an array, and that an object has none.
#[test]
fn arrays_have_their_elements(rt: HostRuntime) {
    let array = r#"["/a", "b,]" ,[1,{"c":2}],{} , -1]"#;
    let mut elements = elements_of(array);
    for wanted in [r#""/a""#, r#""b,]""#, r#"[1,{"c":2}]"#, "{}", "-1"] {
        same(&rt, elements.next(), Some(wanted), array);
    }
    same(&rt, elements.next(), None, array);
    same(&rt, elements_of("{\"a\":1}").next(), None, "an object");
}

// Checks how JSON strings are unescaped, and that a number has no text.
#[test]
fn strings_are_unescaped(rt: HostRuntime) -> Result<(), Fail> {
    for (value, wanted) in [
        (r#""""#, Some("")),
        (r#""\u0061\u00e9\u20AC""#, Some("aé€")),
        (r#""\"\\\/\b\f\n\r\t""#, Some("\"\\/\u{8}\u{c}\n\r\t")),
        (r#""\ud83d\ude00é\u0000""#, Some("😀é\0")),
        ("1", None),
    ] {
        let text = text_of(rt.alloc(), value)?;
        same(&rt, text.as_ref().map(String::as_str), wanted, value);
        same(
            &rt,
            spells(value, wanted.unwrap_or("")),
            wanted.is_some(),
            value,
        );
    }
    Ok(())
}
