//! Tests of the lines of a record.
use crate::answer::answer_text;
use crate::{config_text, read_config, request_text, tick_text};
use bx_advice::{BODY_LIMIT, Config, Limit, Options};
use bx_cut::Bodies;
use bx_entry::{Access, Arrival};
use std::alloc::Global;
use std::test::Fail;

// Returns the lines of a request with `bodies` at moment 5 with nonce 2748, if lines can express
// it.
fn text_of(alloc: Global, bodies: Bodies) -> Result<Option<Vec<u8>>, Fail> {
    let arrival = Arrival {
        moment: 5,
        nonce: 2748,
        access: Access::ReadWrite,
        bodies,
    };
    let messages = arrival.read(alloc)?;
    Ok(request_text(alloc, &arrival, messages.as_slice())?)
}

fn whole(alloc: Global, body: &str) -> Result<Bodies, Fail> {
    Ok(Bodies::Whole(Vec::from_slice(alloc, body.as_bytes())?))
}

// Returns `true` if the request with `body` has exactly `lines`.
fn has_lines(alloc: Global, body: &str, lines: &str) -> Result<bool, Fail> {
    match text_of(alloc, whole(alloc, body)?)? {
        Some(text) => Ok(text.as_slice() == lines.as_bytes()),
        None => Ok(false),
    }
}

#[test]
fn plain_documents_stand_as_they_are(rt: HostRuntime) -> Result<(), Fail> {
    let alloc = rt.alloc();
    assert!(rt; has_lines(alloc, "[]", "5 P []\n")?);
    assert!(rt;
        has_lines(
            alloc,
            "{\"channel\":\"/a\",\"data\":\"50% + \u{2028}\"}\r",
            "5 P {\"channel\":\"/a\",\"data\":\"50% + \u{2028}\"}\r\n"
        )?
    );
    Ok(())
}

#[test]
fn handshakes_have_their_nonce(rt: HostRuntime) -> Result<(), Fail> {
    let alloc = rt.alloc();
    let body = "[{\"channel\":\"/a\",\"data\":1},{\"channel\":\"/meta/handshake\"}]";
    let lines =
        "5 N 00000000000000000000000000000abc\n5 P [{\"channel\":\"/a\",\"data\":1},{\"channel\":\"/meta/handshake\"}]\n";
    assert!(rt; has_lines(alloc, body, lines)?);
    Ok(())
}

#[test]
fn line_ends_go_by_a_form(rt: HostRuntime) -> Result<(), Fail> {
    let alloc = rt.alloc();
    let body = "{\"channel\":\"/a\",\n\"data\":\"50% + \u{2028}~*\"}";
    let lines =
        "5 F message=%7B%22channel%22%3A%22%2Fa%22%2C%0A%22data%22%3A%2250%25+%2B+%E2%80%A8%7E*%22%7D\n";
    assert!(rt; has_lines(alloc, body, lines)?);
    Ok(())
}

#[test]
fn several_documents_go_by_a_form(rt: HostRuntime) -> Result<(), Fail> {
    let alloc = rt.alloc();
    let mut documents = Vec::new(alloc);
    documents.push(String::from_str(alloc, "[]")?)?;
    documents.push(String::from_str(alloc, "{\"channel\":\"/b\"}")?)?;
    match text_of(alloc, Bodies::Decoded(documents))? {
        Some(text) => {
            let lines = "5 F message=%5B%5D&message=%7B%22channel%22%3A%22%2Fb%22%7D\n";
            assert!(rt; text.as_slice() == lines.as_bytes());
        }
        None => assert!(rt; false),
    }
    Ok(())
}

#[test]
fn what_no_line_says_has_no_text(rt: HostRuntime) -> Result<(), Fail> {
    let alloc = rt.alloc();
    assert!(rt; text_of(alloc, Bodies::Decoded(Vec::new(alloc)))?.is_none());
    let mut body = vec![in alloc; b' '; BODY_LIMIT - 2]?;
    body.extend_from_slice(b"[]")?;
    match text_of(alloc, Bodies::Whole(body.clone()?))? {
        Some(text) => assert_eq!(rt; text.len(), BODY_LIMIT + 5),
        None => assert!(rt; false),
    }
    body.push(b' ')?;
    assert!(rt; text_of(alloc, Bodies::Whole(body))?.is_none());
    let mut encoded = vec![in alloc; b' '; BODY_LIMIT - 17]?;
    encoded.extend_from_slice(b"\n[]")?;
    match text_of(alloc, Bodies::Whole(encoded.clone()?))? {
        Some(text) => assert_eq!(rt; text.len(), BODY_LIMIT + 5),
        None => assert!(rt; false),
    }
    encoded.push(b' ')?;
    assert!(rt; text_of(alloc, Bodies::Whole(encoded))?.is_none());
    Ok(())
}

#[test]
fn ticks_have_their_moment(rt: HostRuntime) -> Result<(), Fail> {
    let alloc = rt.alloc();
    assert!(rt; tick_text(alloc, 0)?.as_slice() == b"0 T\n".as_slice());
    assert!(rt;
        tick_text(alloc, 9_223_372_036_854_775_808)?.as_slice()
            == b"9223372036854775808 T\n".as_slice()
    );
    Ok(())
}

#[test]
fn answers_have_their_place_and_digest(rt: HostRuntime) -> Result<(), Fail> {
    let alloc = rt.alloc();
    let mut digest = [0u8; 32];
    digest[0] = 0xa9;
    digest[1] = 0x0f;
    digest[31] = 0xff;
    let line =
        b"A 18446744073709551615 a90f0000000000000000000000000000000000000000000000000000000000ff\n";
    let text = answer_text(alloc, 18_446_744_073_709_551_615, &digest)?;
    assert!(rt; text.as_slice() == line.as_slice());
    Ok(())
}

// Returns `true` if the line of `config` is exactly `line`, and gives the line again when read.
fn has_line(alloc: Global, config: Option<Config>, line: &str) -> Result<bool, Fail> {
    let Some(config) = config else {
        return Ok(false);
    };
    let words: Vec<&[u8]> = line
        .trim_end()
        .as_bytes()
        .split(|byte| *byte == b' ')
        .collect(alloc)?;
    let Some(read) = read_config(&words) else {
        return Ok(false);
    };
    let is_written = config_text(alloc, &config)?.as_slice() == line.as_bytes();
    Ok(is_written && config_text(alloc, &read)?.as_slice() == line.as_bytes())
}

#[test]
fn configurations_are_names_and_values(rt: HostRuntime) -> Result<(), Fail> {
    let alloc = rt.alloc();
    let config = Config::new(4, 30_000, 0, 10_000);
    let line =
        "shards=4 timeout=30000 interval=0 max_interval=10000 options=- bytes=- sessions=65536 patterns=1024 limit=1024\n";
    assert!(rt; has_line(alloc, config, line)?);
    let options = Options {
        ride: true,
        anonymous: true,
    };
    let config = Config::new(64, 4_294_967_295, 7, 0)
        .map(|config| config.with(options))
        .and_then(|config| config.with_limit(9))
        .and_then(|config| config.with_maximum(Limit::Bytes, 70_000))
        .and_then(|config| config.with_maximum(Limit::Sessions, 3))
        .and_then(|config| config.with_maximum(Limit::Patterns, 2));
    let line =
        "shards=64 timeout=4294967295 interval=7 max_interval=0 options=ra bytes=70000 sessions=3 patterns=2 limit=9\n";
    assert!(rt; has_line(alloc, config, line)?);
    Ok(())
}

#[test]
fn other_first_lines_are_refused(rt: HostRuntime) -> Result<(), Fail> {
    let alloc = rt.alloc();
    let first = "timeout=30000 interval=0 max_interval=10000 options=-";
    for (shards, limits) in [
        (
            "shards=0",
            "bytes=- sessions=65536 patterns=1024 limit=1024",
        ),
        (
            "shards=65",
            "bytes=- sessions=65536 patterns=1024 limit=1024",
        ),
        ("shard=1", "bytes=- sessions=65536 patterns=1024 limit=1024"),
        ("shards", "bytes=- sessions=65536 patterns=1024 limit=1024"),
        ("1", "bytes=- sessions=65536 patterns=1024 limit=1024"),
        (
            "shards=1",
            "bytes=0 sessions=65536 patterns=1024 limit=1024",
        ),
        (
            "shards=1",
            "bytes=4294967296 sessions=65536 patterns=1024 limit=1024",
        ),
        ("shards=1", "bytes=- sessions=- patterns=1024 limit=1024"),
        (
            "shards=1",
            "bytes=- patterns=1024 sessions=65536 limit=1024",
        ),
        (
            "shards=1",
            "bytes=- sessions=65536 patterns=1025 limit=1024",
        ),
        ("shards=1", "bytes=- sessions=65536 patterns=1024"),
        (
            "shards=1",
            "bytes=- sessions=65536 patterns=1024 limit=1024 ",
        ),
    ] {
        let line = format!(in alloc; "{shards} {first} {limits}")?;
        let words: Vec<&[u8]> = line.as_bytes().split(|byte| *byte == b' ').collect(alloc)?;
        assert!(rt; read_config(&words).is_none(), "{line}");
    }
    Ok(())
}
