//! The examples of doc comments, run as tests.
//!
//! `tests/test_documents.py` checks that each example is here.
use bx_advice::Config;
use bx_cut::Document;
use bx_names::{ChannelName, Pattern, matches};
use bx_transport::read_post;
use std::test::*;

// Runs the example of `Pattern::read`.
#[test]
fn pattern_read(rt: HostRuntime) -> Result<(), Fail> {
    let alloc = rt.alloc();
    let pattern = Pattern::read(alloc, "/chat/*")?;
    let hall = ChannelName::read(alloc, "/chat/hall")?;
    let table = ChannelName::read(alloc, "/chat/hall/table")?;
    assert!(rt; matches(&pattern, &hall));
    assert!(rt; !matches(&pattern, &table));
    Ok(())
}

// Runs the example of `Document::read`.
#[test]
fn document_read(rt: HostRuntime) -> Result<(), Fail> {
    let alloc = rt.alloc();
    let document = Document::read(alloc, br#"[{"channel":"/chat/hall","data":1}]"#)?;
    let message = document.pieces().first().ok_or("no message")?;
    assert_eq!(rt; document.pieces().len(), 1);
    assert_eq!(rt; message.member("channel"), Some(r#""/chat/hall""#));
    assert_eq!(rt; message.member("id"), None);
    Ok(())
}

// Runs the example of `Config::new`.
#[test]
fn config_new(rt: HostRuntime) -> Result<(), Fail> {
    let config = Config::new(4, 30_000, 0, 10_000).ok_or("shards: 1 to 64")?;
    assert_eq!(rt; config.shards, 4);
    assert_eq!(rt; config.timeout, 30_000);
    assert!(rt; Config::new(65, 30_000, 0, 10_000).is_none());
    Ok(())
}

// Runs the example of `read_post`.
#[test]
fn read_post_of_a_form(rt: HostRuntime) -> Result<(), Fail> {
    let alloc = rt.alloc();
    let content_type = Some(b"application/x-www-form-urlencoded".as_slice());
    let body = b"message=%5B%5D&message=%7B%7D".to_vec(alloc)?;
    let bodies = read_post(alloc, content_type, body)?;
    assert_eq!(rt; bodies.len(), 2);
    assert_eq!(rt; bodies.get(0), b"[]".as_slice());
    assert_eq!(rt; bodies.get(1), b"{}".as_slice());
    Ok(())
}
