//! Runs with requests to the read-only listener.
use crate::requests::{Ask, FORM, JSON, Want};
use crate::runs::{
    BAD, CONNECT, CONNECTED, ENDED, FORBIDDEN, Held, MISSING, NOT_ALLOWED, NOTHING, OK, PUBLISH,
    Run, Step, TOO_LARGE, UNAVAILABLE,
};
use bx_advice::BODY_LIMIT;
use bx_calls::texts;

/// A request with a message forbidden to readers gets 403 and is not admitted.
///
/// Faults of its path, method, length or documents are reported first. At the end, a handshake
/// opens the hub's first session.
pub const PUBLISH_NOTHING: Run = Run {
    first: &[
        Step::ReadText(texts::HANDSHAKE_AND_PUBLISH, FORBIDDEN),
        Step::ReadText(texts::PUBLISH_AND_HANDSHAKE, FORBIDDEN),
        Step::Read(
            Ask::Body(FORM, texts::FORM_HANDSHAKE_AND_PUBLISH),
            FORBIDDEN,
        ),
        Step::Read(Ask::Get(texts::QUERY_HANDSHAKE_AND_PUBLISH), FORBIDDEN),
        Step::Read(
            Ask::Get("/cometd?message={%22channel%22:%22/a%22}"),
            FORBIDDEN,
        ),
        Step::ReadText(r#"{"channel":"/a/b","data":7}"#, FORBIDDEN),
        Step::ReadText(r#"[{"channel":"a"}]"#, FORBIDDEN),
        Step::ReadText(r#"[{"channel":"/meta"}]"#, FORBIDDEN),
        Step::ReadText(r#"[{"channel":"/a"}"#, BAD),
        Step::ReadText(r#"[{"channel":"/a"},7]"#, BAD),
        Step::ReadText(r#"[{"channel":"/a"},{}]"#, BAD),
        Step::Read(Ask::Body(FORM, r#"other=[{"channel":"/a"}]"#), BAD),
        Step::Read(
            Ask::Get("/cometd?jsonp=a(&message={%22channel%22:%22/a%22}"),
            BAD,
        ),
        Step::Read(Ask::To("POST", "/cometdx", texts::PUBLISH), MISSING),
        Step::Read(Ask::To("PUT", "/cometd", texts::PUBLISH), NOT_ALLOWED),
        Step::Read(Ask::Padded(JSON, texts::PUBLISH, BODY_LIMIT + 1), TOO_LARGE),
        Step::ReadText("[]", OK),
        Step::ReadText(texts::HANDSHAKE, Want::Json(texts::HANDSHAKEN)),
    ],
    ..NOTHING
};

/// Both listeners serve all sessions. The read-only one accepts publishes only to service channels.
pub const HEAR: Run = Run {
    first: &[
        Step::Post(texts::HANDSHAKE, texts::HANDSHAKEN),
        Step::ReadText(texts::HANDSHAKE, Want::Json(texts::SECOND_HANDSHAKEN)),
        Step::Read(Ask::Body(FORM, texts::FORM_OF_TWO), FORBIDDEN),
        PUBLISH,
        Step::ReadText(texts::CONNECT_AT_ONCE, CONNECTED),
        Step::ReadText(texts::SUBSCRIBE, Want::Json(texts::SUBSCRIBED)),
        Step::ReadText(texts::PUBLISH, FORBIDDEN),
        Step::Read(Ask::Get(texts::QUERY_PUBLISH), FORBIDDEN),
        Step::ReadText(texts::PUBLISH_SERVICE, Want::Json(texts::PUBLISHED_SERVICE)),
        Step::ReadText(texts::CONNECT_AT_ONCE, CONNECTED),
        PUBLISH,
        Step::ReadText(texts::CONNECT_AT_ONCE, Want::Json(texts::ANSWER)),
        Step::Post(texts::CONNECT_AT_ONCE, texts::CONNECTED),
    ],
    held: Some(Held {
        before: &[Step::ReadText(texts::PUBLISH_OWN, FORBIDDEN)],
        then: &[Step::ReadText(texts::DISCONNECT, Want::Json(texts::DISCONNECTED))],
        gives: Some((true, ENDED)),
        ..CONNECT
    }),
    last: &[
        Step::Close,
        Step::ReadText(texts::PUBLISH, FORBIDDEN),
        Step::ReadText(texts::HANDSHAKE, UNAVAILABLE),
    ],
    ..NOTHING
};

/// Waiting events are not sent with the response to a rejected request, but with the next rider's.
pub const RIDE: Run = Run {
    first: &[
        Step::Post(texts::HANDSHAKE, texts::HANDSHAKEN),
        Step::ReadText(texts::HANDSHAKE, Want::Json(texts::SECOND_HANDSHAKEN)),
        Step::ReadText(texts::SUBSCRIBE, Want::Json(texts::SUBSCRIBED)),
        PUBLISH,
        Step::ReadText(texts::PUBLISH_OWN, FORBIDDEN),
        Step::Post(texts::PUBLISH_OWN, texts::RIDDEN),
    ],
    ride: true,
    ..NOTHING
};
