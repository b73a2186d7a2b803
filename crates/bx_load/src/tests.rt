//! Tests of the settings, of when a response is complete, and of events.
use crate::{LoadSettings, Received, Requests, SettingsFault, Stamp, item_of, read_response};
use serde_json::Value;
use std::alloc::Global;
use std::test::Fail;

const RESPONSE: &[u8] = b"HTTP/1.1 200 OK\r\nContent-Length: 2\r\n\r\n[]";

fn settings(alloc: Global, args: &str) -> Result<Result<LoadSettings, SettingsFault>, Fail> {
    let mut all = Vec::new(alloc);
    for arg in args.split_whitespace() {
        all.push(String::from_str(alloc, arg)?)?;
    }
    Ok(LoadSettings::read(alloc, all.as_slice()))
}

#[test]
fn arguments_are_settings(rt: HostRuntime) -> Result<(), Fail> {
    let read = settings(
        rt.alloc(),
        "http://127.0.0.1:8087/cometd 100 10 4 5000 250 ack",
    )??;
    assert_eq!(rt; read.target.host.as_str(), "127.0.0.1:8087");
    assert_eq!(rt; read.target.path.as_str(), "/cometd");
    assert_eq!(rt;
        (read.sessions, read.channels, read.publishers),
        (100, 10, 4)
    );
    assert_eq!(rt;
        (read.events, read.rate, read.is_acknowledging),
        (5000, 250, true)
    );
    Ok(())
}

#[test]
fn the_first_wrong_argument_is_named(rt: HostRuntime) -> Result<(), Fail> {
    let named = [
        ("http://h/x 1 1 1", SettingsFault::Count),
        ("http://h/x 1 1 1 1 1 ack 1", SettingsFault::Count),
        ("https://h/x 1 0 1 1", SettingsFault::Url),
        ("http://h 1 1 1 1", SettingsFault::Url),
        ("http://h/x -1 0 1 1", SettingsFault::Sessions),
        ("http://h/x 0 0 0 1", SettingsFault::Channels),
        ("http://h/x 0 1 4294967296 0", SettingsFault::Publishers),
        ("http://h/x 0 1 4294967295 0", SettingsFault::Events),
        ("http://h/x 1 1 1 1 0", SettingsFault::Rate),
        ("http://h/x 1 1 1 1 acks", SettingsFault::Rate),
        ("http://h/x 1 1 1 1 5 5", SettingsFault::Ack),
        ("http://h/x 1 1 1 1 ack 5", SettingsFault::Ack),
    ];
    for (args, fault) in named {
        assert_eq!(rt; settings(rt.alloc(), args)?.err(), Some(fault));
    }
    Ok(())
}

#[test]
fn a_response_is_read_once_it_is_whole(rt: HostRuntime) -> Result<(), Fail> {
    assert_eq!(rt; RESPONSE.len(), 40);
    let Ok(Some(whole)) = read_response(RESPONSE) else {
        return Err(Fail::from("not read"));
    };
    assert_eq!(rt; (whole.status, whole.start, whole.end), (200, 38, 40));
    assert!(rt; matches!(read_response(&RESPONSE[..39]), Ok(None)));
    assert!(rt; matches!(read_response(b"HTTP/1.1 200 OK\r\n\r\n"), Err(_)));
    Ok(())
}

#[test]
fn an_event_says_what_was_published(rt: HostRuntime) -> Result<(), Fail> {
    let settings = settings(rt.alloc(), "http://h:1/x 1 1 1 1")??;
    let stamp = Stamp {
        publisher: 3,
        number: 7,
        moment: 12,
    };
    let requests = Requests {
        alloc: rt.alloc(),
        target: &settings.target,
        client: "c",
    };
    let request = requests.format_publish(5, stamp)?;
    let (head, body) = request.as_str().split_once("\r\n\r\n").ok_or("no body")?;
    assert!(rt; head.starts_with("POST /x HTTP/1.1\r\nhost: h:1\r\n"));
    let messages = Value::from_str(rt.alloc(), body)?;
    let message = messages.get(0).ok_or("no message")?;
    let Received::Event(read) = item_of(message) else {
        return Err(Fail::from("no event"));
    };
    assert_eq!(rt; (read.publisher, read.number, read.moment), (3, 7, 12));
    Ok(())
}
