//! The runs of the exchange tests: requests and expected responses.
mod readers;

use crate::requests::{Ask, FORM, JSON, Want};
use bx_advice::BODY_LIMIT;
use bx_calls::texts;

/// A step of a run. If it sends a request, the second task polls the exchange.
#[derive(Clone, Copy)]
pub enum Step {
    /// Checks that a POST of the first JSON gets status 200 with the second.
    Post(&'static str, &'static str),
    /// Checks that a GET of this target gets status 200 with this script.
    Query(&'static str, &'static str),
    /// Checks that a request to the publishers' listener gets `Want`.
    Ask(Ask, Want),
    /// Checks that a request to a service with a limit of [`SMALL`] bytes gets `Want`.
    Small(Ask, Want),
    /// Checks that a request to the read-only listener gets `Want`.
    Read(Ask, Want),
    /// Checks that a POST of this JSON to the read-only listener gets `Want`.
    ReadText(&'static str, Want),
    /// Checks that a POST of this JSON at a moment that is too large gets `Want`.
    TooLate(&'static str, Want),
    /// Checks that the exchange for a POST of this JSON is pending at its first poll, and drops it.
    Wait(&'static str),
    /// Checks that a POST gets 400 if its body fails after a prefix of this JSON, for each prefix.
    Break(&'static str),
    Tick(u64),
    Close,
    /// Pauses the first session's shard.
    Pause,
    /// Sweeps the answers filed by entries before place 5, and checks how many were dropped.
    Sweep(usize),
}

/// An exchange that waits during other steps. The first task polls it.
#[derive(Clone, Copy)]
pub struct Held {
    pub ask: Ask,
    /// Whether the exchange's first poll waits for the request's body, and so wakes the task.
    pub is_late: bool,
    /// The steps after which the exchange still waits.
    pub before: &'static [Step],
    pub then: &'static [Step],
    /// Whether the steps `then` wake the first task, and the response of the exchange after them.
    /// `None`: the exchange is dropped.
    pub gives: Option<(bool, Want)>,
}

/// A run over its own hub: steps, then an exchange that waits, if there is one, then more steps.
#[derive(Clone, Copy)]
pub struct Run {
    pub first: &'static [Step],
    pub held: Option<Held>,
    pub last: &'static [Step],
    /// Whether the hub of a run sends waiting events with the reply to a rider.
    pub ride: bool,
}

// A run without steps, as a base for others.
const NOTHING: Run = Run {
    first: &[],
    held: None,
    last: &[],
    ride: false,
};

// A run that opens and subscribes the first session, and opens the second, as a base for others.
const OPEN: Run = Run {
    first: &[
        Step::Post(texts::HANDSHAKE, texts::HANDSHAKEN),
        Step::Post(texts::HANDSHAKE, texts::SECOND_HANDSHAKEN),
        Step::Post(texts::SUBSCRIBE, texts::SUBSCRIBED),
    ],
    ..NOTHING
};

// A connect of the first session that waits and is dropped, as a base for others.
const CONNECT: Held = Held {
    ask: Ask::Body(JSON, texts::CONNECT),
    is_late: false,
    before: &[],
    then: &[],
    gives: None,
};

const PUBLISH: Step = Step::Post(texts::PUBLISH, texts::PUBLISHED);

const OK: Want = Want::Json("[]");

const CALLED: Want = Want::Script("jsonpcallback([])");

const BAD: Want = Want::Status(400);

const FORBIDDEN: Want = Want::Status(403);

const MISSING: Want = Want::Status(404);

const NOT_ALLOWED: Want = Want::Status(405);

const TOO_LARGE: Want = Want::Status(413);

const CODED: Want = Want::Status(501);

const UNAVAILABLE: Want = Want::Status(503);

/// The limit on a body or query in a step that is [`Step::Small`], in bytes.
pub const SMALL: usize = 16;

// Bodies and queries of up to `SMALL` bytes are read, and longer ones get 413. With a
// `Content-Length` above this limit, a request gets 413 before any of the body has arrived.
const SMALL_LIMIT: Run = Run {
    first: &[
        Step::Small(Ask::Padded(JSON, "[]", SMALL), OK),
        Step::Small(Ask::Padded(JSON, "[]", SMALL + 1), TOO_LARGE),
        Step::Small(Ask::Padded(FORM, "message=[]", SMALL), OK),
        Step::Small(Ask::Padded(FORM, "message=[]", SMALL + 1), TOO_LARGE),
        Step::Small(Ask::Exact(SMALL), OK),
        Step::Small(Ask::Said((SMALL + 1) as u64), TOO_LARGE),
        Step::Small(Ask::Said(u64::MAX), TOO_LARGE),
        Step::Small(Ask::Get("/cometd?message=[]&x=123"), CALLED),
        Step::Small(Ask::Get("/cometd?message=[]&x=1234"), TOO_LARGE),
        Step::Small(Ask::Get("/cometd?jsonp=a(&message=["), TOO_LARGE),
    ],
    ..NOTHING
};

// A POST to a path below `/cometd` is answered. So is a POST if its body arrives late.
const ANSWERED: Run = Run {
    first: &[Step::Ask(
        Ask::To("POST", "/cometd/handshake", texts::HANDSHAKE),
        Want::Json(texts::HANDSHAKEN),
    )],
    held: Some(Held {
        ask: Ask::Late(texts::HANDSHAKE),
        is_late: true,
        gives: Some((true, Want::Json(texts::SECOND_HANDSHAKEN))),
        ..CONNECT
    }),
    ..NOTHING
};

// Requests are rejected because of their path, method, transfer coding, documents, length or
// moment, and open no session. If the `Content-Length` is above the limit, a request is rejected
// before its body arrives.
const REFUSED: Run = Run {
    first: &[
        Step::Ask(Ask::To("POST", "/cometdx", ""), MISSING),
        Step::Ask(Ask::Get("/comet"), MISSING),
        Step::Ask(Ask::To("POST", "/", ""), MISSING),
        Step::Ask(Ask::To("PUT", "/cometdx", ""), MISSING),
        Step::Ask(Ask::To("PUT", "/cometd", ""), NOT_ALLOWED),
        Step::Ask(Ask::To("DELETE", "/cometd/connect", ""), NOT_ALLOWED),
        Step::Ask(Ask::Coded(&["chunked"]), OK),
        Step::Ask(Ask::Coded(&["CHUNKed"]), OK),
        Step::Ask(Ask::Coded(&["gzip, chunked"]), CODED),
        Step::Ask(Ask::Coded(&["gzip"]), CODED),
        Step::Ask(Ask::Coded(&["identity"]), CODED),
        Step::Ask(Ask::Coded(&["chunke"]), CODED),
        Step::Ask(Ask::Coded(&[""]), CODED),
        Step::Ask(Ask::Coded(&["gzip", "chunked"]), CODED),
        Step::Ask(Ask::Coded(&["chunked", "gzip"]), CODED),
        Step::Ask(Ask::Coded(&["chunked", "chunked"]), CODED),
        Step::Ask(Ask::Coded(&["gzip", "br", "chunked"]), CODED),
        Step::Ask(Ask::Gzip("GET", "/cometd?message=[]", None), CODED),
        Step::Ask(Ask::Gzip("POST", "/cometdx", None), MISSING),
        Step::Ask(Ask::Gzip("PUT", "/cometd", None), NOT_ALLOWED),
        Step::Ask(Ask::Gzip("POST", "/cometd", Some(TOO_LONG)), CODED),
        Step::Ask(Ask::Get("/cometd"), BAD),
        Step::Ask(Ask::Get("/cometd?jsonp=cb"), BAD),
        Step::Ask(Ask::Get("/cometd?message=[]&jsonp=a(b"), BAD),
        Step::Ask(Ask::Get("/cometd/?message=["), BAD),
        Step::Ask(Ask::Body(JSON, ""), BAD),
        Step::Ask(Ask::Body(JSON, "["), BAD),
        Step::Ask(Ask::Body(JSON, "[1]"), BAD),
        Step::Ask(Ask::Body(JSON, r#"[{"channel":1}]"#), BAD),
        Step::Ask(Ask::Body(JSON, "message=[]"), BAD),
        Step::Ask(Ask::Body(FORM, ""), BAD),
        Step::Ask(Ask::Body(FORM, "jsonp=cb"), BAD),
        Step::Ask(Ask::Body(FORM, "message=["), BAD),
        Step::Ask(Ask::Body(FORM, "message=[]"), OK),
        Step::Ask(Ask::Body(JSON, "[]"), OK),
        Step::Ask(Ask::Padded(JSON, "[]", BODY_LIMIT), OK),
        Step::Ask(Ask::Padded(JSON, "[]", BODY_LIMIT + 1), TOO_LARGE),
        Step::Ask(Ask::Said(TOO_LONG), TOO_LARGE),
        Step::TooLate(texts::HANDSHAKE, BAD),
        Step::Post(texts::HANDSHAKE, texts::HANDSHAKEN),
    ],
    ..NOTHING
};

// The least length of a body that is rejected, in bytes.
const TOO_LONG: u64 = BODY_LIMIT as u64 + 1;

// A request to a closed hub gets 503.
const CLOSED: Run = Run {
    first: &[
        Step::Close,
        Step::Ask(Ask::Body(JSON, texts::HANDSHAKE), UNAVAILABLE),
    ],
    ..NOTHING
};

// A form of two documents is answered with JSON, and queries with scripts.
const OTHER_FORMS: Run = Run {
    first: &[
        Step::Post(texts::HANDSHAKE, texts::HANDSHAKEN),
        Step::Ask(
            Ask::Body(FORM, texts::FORM_OF_TWO),
            Want::Json(texts::BOTH_OF_THE_FORM),
        ),
        Step::Post(texts::CONNECT_AT_ONCE, texts::CONNECTED_BY_THE_FORM),
        Step::Query(texts::QUERY_PUBLISH, texts::SCRIPT_PUBLISHED),
        Step::Query(texts::QUERY_CONNECT, texts::SCRIPT_CONNECTED),
        Step::Ask(Ask::Get("/cometd?message=[]"), CALLED),
    ],
    ..NOTHING
};

// A connect, the steps after which it still waits, the steps after those, whether they wake its
// task, and the response to the connect.
const ENDS: [(&str, &[Step], &[Step], bool, Want); 7] = [
    // A publish answers a held connect with its event.
    (
        texts::CONNECT,
        &[],
        &[PUBLISH],
        true,
        Want::Json(texts::ANSWER),
    ),
    // A newer connect answers the held one.
    (texts::CONNECT, &[], &[RECONNECT], true, SUPERSEDED),
    // The session's disconnect answers the held connect.
    (texts::CONNECT, &[], &[DISCONNECT], true, ENDED),
    // A tick at the deadline answers the held connect. An earlier one does not.
    (texts::CONNECT, &[EARLY], &[DEADLINE], true, CONNECTED),
    // Closing the hub answers the held connect with 503.
    (texts::CONNECT, &[], &[Step::Close], true, UNAVAILABLE),
    // So it does for the second session's connect, which is in another shard.
    (texts::CONNECT_OTHER, &[], &[Step::Close], true, UNAVAILABLE),
    // Pausing the shard of a held connect does not wake the task, but the next poll gets 503.
    (texts::CONNECT, &[], &[Step::Pause], false, UNAVAILABLE),
];

// A step in which the first session sends another connect.
const RECONNECT: Step = Step::Wait(texts::CONNECT);

// A step in which the first session disconnects.
const DISCONNECT: Step = Step::Post(texts::DISCONNECT, texts::DISCONNECTED);

// Ticks before and at the deadline of a held connect.
const EARLY: Step = Step::Tick(29_999);

const DEADLINE: Step = Step::Tick(30_000);

const CONNECTED: Want = Want::Json(texts::CONNECTED);

const SUPERSEDED: Want = Want::Json(texts::SUPERSEDED);

const ENDED: Want = Want::Json(texts::SESSION_ENDED);

// While the first session's shard is paused, only requests that need its answer get 503.
const OTHERS_GO_ON: Run = Run {
    first: &[
        Step::Post(texts::HANDSHAKE, texts::HANDSHAKEN),
        Step::Pause,
        Step::Post(texts::HANDSHAKE, texts::SECOND_HANDSHAKEN),
        Step::Post(texts::SUBSCRIBE, texts::SUBSCRIBED),
        PUBLISH,
        Step::Ask(Ask::Body(JSON, texts::CONNECT_AT_ONCE), UNAVAILABLE),
        PUBLISH,
        Step::Post("[]", "[]"),
    ],
    ..NOTHING
};

// A request gets 400 and opens no session if its body fails.
const BROKEN_OFF: Run = Run {
    first: &[
        Step::Break(texts::HANDSHAKE),
        Step::Post(texts::HANDSHAKE, texts::HANDSHAKEN),
    ],
    ..NOTHING
};

// The exchange of a held connect is dropped, in a session that acknowledges batches. The session's
// next connect gets the event published meanwhile. The answer that nobody took is swept, once.
const GIVEN_UP: Run = Run {
    first: &[
        Step::Post(texts::ACK_HANDSHAKE, texts::ACK_HANDSHAKEN),
        Step::Post(texts::HANDSHAKE, texts::SECOND_HANDSHAKEN),
        Step::Post(texts::SUBSCRIBE, texts::SUBSCRIBED),
    ],
    held: Some(Held {
        ask: Ask::Body(JSON, texts::ACK_CONNECT),
        ..CONNECT
    }),
    last: &[
        PUBLISH,
        Step::Post(texts::ACK_CONNECT, texts::ACK_CONNECTED_WITH_EVENT),
        Step::Sweep(1),
        Step::Sweep(0),
    ],
    ..NOTHING
};

// The exchange of a held connect is dropped, in a session without acknowledgements. The event in
// the connect's answer is lost.
const LOST: Run = Run {
    held: Some(CONNECT),
    last: &[
        PUBLISH,
        Step::Post(texts::CONNECT_AT_ONCE, texts::CONNECTED),
    ],
    ..OPEN
};

// The reply to a session's publish, also by a query, carries its waiting events. If the session
// publishes two events during a held connect, the connect gets the first, and the rider the second.
// In a paused shard, a rider gets 503.
const RIDDEN: Run = Run {
    first: &[
        Step::Post(texts::HANDSHAKE, texts::HANDSHAKEN),
        Step::Post(texts::HANDSHAKE, texts::SECOND_HANDSHAKEN),
        Step::Post(texts::SUBSCRIBE, texts::SUBSCRIBED),
        PUBLISH,
        Step::Post(texts::PUBLISH_OWN, texts::RIDDEN),
        Step::Query(texts::QUERY_PUBLISH, texts::SCRIPT_RIDDEN),
    ],
    held: Some(Held {
        then: &[Step::Post(texts::PUBLISH_TWO, texts::SECOND_RIDDEN)],
        gives: Some((true, Want::Json(texts::CONNECTED_WITH_OWN))),
        ..CONNECT
    }),
    last: &[
        Step::Pause,
        Step::Ask(Ask::Body(JSON, texts::PUBLISH_OWN), UNAVAILABLE),
    ],
    ride: true,
};

const RUNS: [Run; 13] = [
    ANSWERED,
    REFUSED,
    SMALL_LIMIT,
    CLOSED,
    OTHER_FORMS,
    OTHERS_GO_ON,
    BROKEN_OFF,
    GIVEN_UP,
    LOST,
    RIDDEN,
    readers::PUBLISH_NOTHING,
    readers::HEAR,
    readers::RIDE,
];

/// The number of runs of the exchange tests.
pub const COUNT: usize = RUNS.len() + ENDS.len();

/// Returns the run with index `number` of the exchange tests, or `None` if there are fewer runs.
///
/// The runs of `RUNS` come first, and then one for each row of `ENDS`.
pub fn run_at(number: usize) -> Option<Run> {
    if let Some(run) = RUNS.get(number) {
        return Some(*run);
    }
    let (connect, before, then, is_woken, want) = ENDS.get(number.checked_sub(RUNS.len())?)?;
    let held = Held {
        ask: Ask::post(*connect),
        before: *before,
        then: *then,
        gives: Some((*is_woken, *want)),
        ..CONNECT
    };
    Some(Run {
        held: Some(held),
        ..OPEN
    })
}
