//! Tests of parsing messages, and of formatting replies, events and responses.
use crate::same::same;
use bx_advice::{Config, Error, Outcome};
use bx_cut::Document;
use bx_message::{
    AckMember, AckReply, Event, Item, Message, MessageError, MessageKind, RawJson, Reply,
    SharedEvent, Text, TextMember, body_text, event_text, reply_text,
};
use bx_names::ChannelName;
use std::alloc::{AllocError, Global};
use std::fmt::Display;
use std::process::Abort;
use std::test::Fail;

fn config() -> Result<Config, Fail> {
    Ok(Config::new(2, 30_000, 0, 10_000).ok_or("no configuration")?)
}

// Parses the only message in `body`.
fn read(alloc: Global, body: &str) -> Result<Result<Message, MessageError>, Fail> {
    let document = Document::read(alloc, body.as_bytes())?;
    match document.pieces() {
        [piece] => Ok(Message::read(alloc, piece)),
        _ => Err(Fail::from("not one message")),
    }
}

fn json(alloc: Global, json: Option<&str>) -> Result<Option<RawJson>, AllocError> {
    match json {
        Some(json) => Ok(Some(RawJson::new(alloc, json)?)),
        None => Ok(None),
    }
}

// Creates a message with `channel`, `id` and a subscription.
fn message(alloc: Global, channel: &str, id: Option<&str>) -> Result<Message, Fail> {
    let mut message = read(alloc, r#"{"channel":"/a","subscription":["/a", 1]}"#)??;
    message.channel = Text::new(alloc, channel)?;
    message.id = json(alloc, id)?;
    Ok(message)
}

fn check_reply(
    rt: &impl Abort,
    alloc: Global,
    message: &Message,
    client: Option<&Text>,
    (outcome, ack): (Outcome, AckReply),
    wanted: &str,
) -> Result<(), Fail> {
    let kind = MessageKind::of(message.channel.as_str());
    let reply = Reply::to_message(&config()?, kind, message, client, outcome, ack)?;
    let text = reply_text(alloc, &reply)?;
    same(rt, text.as_slice(), wanted.as_bytes(), wanted);
    Ok(())
}

// Checks the members of replies to messages of several kinds.
#[test]
fn replies_have_their_members(rt: HostRuntime) -> Result<(), Fail> {
    let alloc = rt.alloc();
    let no_ack = AckReply::NoAck;
    let table = [
        (
            "/meta/handshake",
            Some("\"1\""),
            Outcome::Opened,
            no_ack,
            r#"{"advice":{"interval":0,"reconnect":"retry","timeout":30000},"channel":"/meta/handshake","clientId":"Z1","id":"1","successful":true,"supportedConnectionTypes":["long-polling","callback-polling"],"version":"1.0"}"#,
        ),
        (
            "/meta/handshake",
            None,
            Outcome::Opened,
            AckReply::AckTrue,
            r#"{"advice":{"interval":0,"reconnect":"retry","timeout":30000},"channel":"/meta/handshake","clientId":"Z1","ext":{"ack":true},"successful":true,"supportedConnectionTypes":["long-polling","callback-polling"],"version":"1.0"}"#,
        ),
        (
            "/meta/connect",
            None,
            Outcome::Connected,
            AckReply::AckNumber(18_446_744_073_709_551_615),
            r#"{"advice":{"interval":0,"reconnect":"retry","timeout":30000},"channel":"/meta/connect","clientId":"Z1","ext":{"ack":18446744073709551615},"successful":true}"#,
        ),
        (
            "/meta/connect",
            None,
            Outcome::Failed(Error::QueueOverflow),
            no_ack,
            r#"{"advice":{"interval":0,"reconnect":"handshake"},"channel":"/meta/connect","clientId":"Z1","error":"413::Queue overflow","successful":false}"#,
        ),
        (
            "/meta/unsubscribe",
            Some("-1.5E+3"),
            Outcome::Failed(Error::MissingSubscription),
            no_ack,
            r#"{"channel":"/meta/unsubscribe","clientId":"Z1","error":"400::Missing subscription","id":-1.5E+3,"subscription":["/a", 1],"successful":false}"#,
        ),
        (
            "/meta/disconnect",
            None,
            Outcome::Done,
            no_ack,
            r#"{"channel":"/meta/disconnect","clientId":"Z1","successful":true}"#,
        ),
        (
            "/a/b",
            Some("\"q\""),
            Outcome::Done,
            no_ack,
            r#"{"channel":"/a/b","id":"q","successful":true}"#,
        ),
        (
            "/a\"\\\n\u{1}\u{7f}\u{2028}é",
            None,
            Outcome::Failed(Error::InvalidChannel),
            no_ack,
            "{\"channel\":\"/a\\\"\\\\\\n\\u0001\u{7f}\u{2028}é\",\"error\":\"400::Invalid channel\",\"successful\":false}",
        ),
    ];
    let client = Text::new(alloc, "Z1")?;
    for (channel, id, outcome, ack, wanted) in table {
        let message = message(alloc, channel, id)?;
        check_reply(&rt, alloc, &message, Some(&client), (outcome, ack), wanted)?;
    }
    Ok(())
}

// Checks that the reply to a rejected handshake has no client id.
#[test]
fn a_refused_handshake_has_no_client(rt: HostRuntime) -> Result<(), Fail> {
    let message = read(rt.alloc(), r#"{"channel":"/meta/handshake"}"#)??;
    let answer = (Outcome::Failed(Error::UnsupportedVersion), AckReply::NoAck);
    let wanted =
        r#"{"advice":{"interval":0,"reconnect":"none"},"channel":"/meta/handshake","error":"400::Unsupported version","successful":false,"supportedConnectionTypes":["long-polling","callback-polling"],"version":"1.0"}"#;
    check_reply(&rt, rt.alloc(), &message, None, answer, wanted)
}

// Creates an event with the members `channel`, `data` and, if it is not `None`, `id`.
fn event(
    alloc: Global,
    channel: &str,
    payload: &str,
    id: Option<&str>,
) -> Result<Event, AllocError> {
    Ok(Event {
        channel: Text::new(alloc, channel)?,
        payload: RawJson::new(alloc, payload)?,
        id: json(alloc, id)?,
    })
}

// Checks that an event has the channel, data and id of its publish.
#[test]
fn events_are_their_publishes(rt: HostRuntime) -> Result<(), Fail> {
    let alloc = rt.alloc();
    let table = [
        ("/a/b", "7", None, r#"{"channel":"/a/b","data":7}"#),
        (
            "/a/b",
            r#"{"a" : 1.50}"#,
            Some("\"q\""),
            r#"{"channel":"/a/b","data":{"a" : 1.50},"id":"q"}"#,
        ),
        (
            "/é",
            "\"\\u0041\"",
            Some("0"),
            r#"{"channel":"/é","data":"\u0041","id":0}"#,
        ),
    ];
    for (channel, payload, id, wanted) in table {
        let text = event_text(alloc, &event(alloc, channel, payload, id)?)?;
        same(&rt, text.as_slice(), wanted.as_bytes(), wanted);
    }
    Ok(())
}

/// Checks that the text of the response with `items` is `wanted`.
///
/// # Errors
///
/// `AllocError` if memory runs out.
pub fn check_body(
    rt: &impl Abort,
    alloc: Global,
    items: &[Item],
    wanted: &str,
) -> Result<(), AllocError> {
    let text = body_text(alloc, items)?;
    same(rt, text.as_slice(), wanted.as_bytes(), wanted);
    Ok(())
}

/// Creates an event on channel `/a/b` with the data `payload`.
///
/// # Errors
///
/// `Fail` if memory runs out.
pub fn published(alloc: Global, payload: &str) -> Result<SharedEvent, Fail> {
    let name = ChannelName::read(alloc, "/a/b")?;
    let event = Event {
        channel: Text::new(alloc, "/a/b")?,
        payload: RawJson::new(alloc, payload)?,
        id: None,
    };
    Ok(SharedEvent::new(alloc, event, name)?)
}

/// Creates the reply to a connect of client `Z1` with `id`.
///
/// # Errors
///
/// `Fail` if memory runs out.
pub fn connected(alloc: Global, id: &str, ack: AckReply) -> Result<Item, Fail> {
    let client = Text::new(alloc, "Z1")?;
    let id = RawJson::new(alloc, id)?;
    let reply = Reply::to_connect(&config()?, client, Some(id), Outcome::Connected, ack);
    Ok(Item::ReplyItem(reply))
}

// Creates the items of a response: an event twice, and the reply to a connect.
fn items(alloc: Global) -> Result<[Item; 3], Fail> {
    let event = published(alloc, "7")?;
    let again = event.clone()?;
    let reply = connected(alloc, "12", AckReply::AckNumber(1))?;
    Ok([Item::EventItem(event), Item::EventItem(again), reply])
}

// Checks that the text of a response is the JSON array of its items.
#[test]
fn a_body_is_the_array_of_its_items(rt: HostRuntime) -> Result<(), Fail> {
    let alloc = rt.alloc();
    check_body(&rt, alloc, &[], "[]")?;
    let wanted =
        r#"[{"channel":"/a/b","data":7},{"channel":"/a/b","data":7},{"advice":{"interval":0,"reconnect":"retry","timeout":30000},"channel":"/meta/connect","clientId":"Z1","ext":{"ack":1},"id":12,"successful":true}]"#;
    Ok(check_body(&rt, alloc, &items(alloc)?, wanted)?)
}

// Checks that the kind of a message depends on its whole channel.
#[test]
fn kinds_go_by_the_whole_channel(rt: HostRuntime) {
    for (channel, message_kind) in [
        ("/meta/handshake", MessageKind::Handshake),
        ("/meta/connect", MessageKind::Connect),
        ("/meta/connect/", MessageKind::UnknownMeta),
        ("/meta/", MessageKind::UnknownMeta),
        ("/meta", MessageKind::Publish),
        ("/META/connect", MessageKind::Publish),
        ("", MessageKind::Publish),
    ] {
        same(&rt, MessageKind::of(channel), message_kind, channel);
    }
}

// Returns the text of a member that should be a string: `?` if it is not, `None` if it is absent.
fn text_of(member: &TextMember) -> Option<&str> {
    match member {
        TextMember::Absent => None,
        TextMember::NotText => Some("?"),
        TextMember::Text(text) => Some(text.as_str()),
    }
}

// Appends a space, `name`, `=` and `value` to `out`, or nothing if `value` is `None`.
fn add<T: Display + Drop>(
    alloc: Global,
    out: &mut String,
    name: &str,
    value: Option<T>,
) -> Result<(), AllocError> {
    match value {
        Some(value) => out.push_str(format!(in alloc; " {name}={value}")?.as_str()),
        None => Ok(()),
    }
}

fn add_texts(
    alloc: Global,
    out: &mut String,
    name: &str,
    texts: &[Text],
) -> Result<(), AllocError> {
    for text in texts {
        add(alloc, out, name, Some(text.as_str()))?;
    }
    Ok(())
}

// Appends the fields of `m` to `out` in order of declaration, except the channel and absent
// members.
//
// Each is a space, a name, `=` and a value, which is `?` for a member that should be a string and
// is not. The field `listed` is only its name.
fn add_fields(alloc: Global, out: &mut String, m: &Message) -> Result<(), AllocError> {
    add(alloc, out, "id", m.id.as_ref().map(RawJson::as_str))?;
    add(alloc, out, "client", text_of(&m.client))?;
    add(alloc, out, "version", text_of(&m.version))?;
    add_texts(alloc, out, "type", m.supported.as_slice())?;
    add(alloc, out, "connection", text_of(&m.connection))?;
    add(
        alloc,
        out,
        "subscription",
        m.subscription.as_ref().map(RawJson::as_str),
    )?;
    add_texts(alloc, out, "text", m.texts.as_slice())?;
    if m.listed {
        out.push_str(" listed")?;
    }
    add(alloc, out, "data", m.payload.as_ref().map(RawJson::as_str))?;
    match m.ack {
        AckMember::NoAck => {}
        AckMember::AckTrue => add(alloc, out, "ack", Some("true"))?,
        AckMember::AckNumber(number) => add(alloc, out, "ack", Some(number))?,
    }
    add(alloc, out, "timeout", m.timeout)
}

// Returns the channel of the only message in `body`, and then its fields as `add_fields` has them.
fn fields_in(alloc: Global, body: &str) -> Result<String, Fail> {
    let message = read(alloc, body)??;
    Ok(fields_of(alloc, &message)?)
}

fn fields_of(alloc: Global, message: &Message) -> Result<String, AllocError> {
    let mut fields = String::from_str(alloc, message.channel.as_str())?;
    add_fields(alloc, &mut fields, message)?;
    Ok(fields)
}

// Members that follow the channel `/a` in a message, each with the text of the parsed message's
// fields.
const MEMBERS: [(&str, &str); 34] = [
    ("", "/a"),
    (r#","channel":"/b""#, "/b"),
    (r#","\u0063hannel":"\/b\u002f\u00e9""#, "/b/é"),
    (r#","id":"x\u0041""#, r#"/a id="x\u0041""#),
    (r#","id":1.5E+3"#, "/a id=1.5E+3"),
    (r#","id":1,"id":"""#, r#"/a id="""#),
    (r#","id":1,"id":null"#, "/a"),
    (r#","id":{"id":1}"#, "/a"),
    (r#","clientId":"\u0063""#, "/a client=c"),
    (r#","clientId":"c","clientId":5"#, "/a client=?"),
    (r#","clientId":null"#, "/a client=?"),
    (r#","version":1"#, "/a version=?"),
    (
        r#","supportedConnectionTypes":["long-polling", 1,["x"],"\u0079"]"#,
        "/a type=long-polling type=y",
    ),
    (r#","supportedConnectionTypes":"long-polling""#, "/a"),
    (
        r#","connectionType":"websocket""#,
        "/a connection=websocket",
    ),
    (
        r#","subscription":"/\u0061""#,
        r#"/a subscription="/\u0061" text=/a listed"#,
    ),
    (
        r#","subscription":["/a", "/b"]"#,
        r#"/a subscription=["/a", "/b"] text=/a text=/b listed"#,
    ),
    (r#","subscription":[]"#, "/a subscription=[] listed"),
    (
        r#","subscription":["/a",1]"#,
        r#"/a subscription=["/a",1] text=/a"#,
    ),
    (r#","subscription":null"#, "/a subscription=null"),
    (
        r#","data":1,"data": {"a" : 1.50} "#,
        r#"/a data={"a" : 1.50}"#,
    ),
    (r#","data":null"#, "/a data=null"),
    (r#","ext":{"ack":true}"#, "/a ack=true"),
    (r#","ext":{"ack": 7 }"#, "/a ack=7"),
    (
        r#","ext":{"ack":18446744073709551615}"#,
        "/a ack=18446744073709551615",
    ),
    (r#","ext":{"ack":18446744073709551616}"#, "/a"),
    (r#","ext":{"ack":-1}"#, "/a"),
    (r#","ext":{"ack":1.0}"#, "/a"),
    (r#","ext":{"ack":"5"}"#, "/a"),
    (r#","ext":{"ack":1,"\u0061ck":true}"#, "/a ack=true"),
    (r#","ext":{"ack":1},"ext":[{"ack":1}]"#, "/a"),
    (r#","advice":{"timeout":0}"#, "/a timeout=0"),
    (r#","advice":{"timeout":-5}"#, "/a"),
    (r#","advice":{"timeout":5},"advice":5"#, "/a"),
];

// Checks the fields of a message with each row of `MEMBERS`.
#[test]
fn members_are_the_fields(rt: HostRuntime) -> Result<(), Fail> {
    for (members, wanted) in &MEMBERS {
        let body = format!(in rt.alloc(); r#"{{"channel":"/a"{members}}}"#)?;
        let fields = fields_in(rt.alloc(), body.as_str())?;
        same(&rt, fields.as_str(), *wanted, *members);
    }
    Ok(())
}

// Checks that a message is rejected unless its `channel` is a string.
#[test]
fn a_message_has_a_channel(rt: HostRuntime) -> Result<(), Fail> {
    for body in [
        "{}",
        r#"{"channel":1}"#,
        r#"{"channel":null}"#,
        r#"{"channel":["/a"]}"#,
        r#"{"channel":"/a","channel":{}}"#,
        r#"{"Channel":"/a"}"#,
        r#"{"data":{"channel":"/a"}}"#,
    ] {
        let fault = read(rt.alloc(), body)?.err();
        same(&rt, fault, Some(MessageError::NoChannel), body);
    }
    Ok(())
}
