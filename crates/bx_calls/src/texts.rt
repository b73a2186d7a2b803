//! Texts of requests and of their responses.

/// The JSON of a request with one handshake, by long-polling.
pub const HANDSHAKE: &str =
    r#"[{"channel":"/meta/handshake","version":"1.0","supportedConnectionTypes":["long-polling"]}]"#;

/// A handshake of a session that acknowledges batches.
pub const ACK_HANDSHAKE: &str =
    r#"[{"channel":"/meta/handshake","version":"1.0","supportedConnectionTypes":["long-polling"],"ext":{"ack":true}}]"#;

/// The first session's subscription to `/a/*`.
pub const SUBSCRIBE: &str =
    r#"[{"channel":"/meta/subscribe","clientId":"000000000000000000000000000000000000000000000001","subscription":"/a/*"}]"#;

/// The second session's subscription to `/a/*`.
pub const SUBSCRIBE_OTHER: &str =
    r#"[{"channel":"/meta/subscribe","clientId":"000000000000000000000000000000000000000000000002","subscription":"/a/*"}]"#;

/// The third session's subscription to `/a/*`.
pub const SUBSCRIBE_THIRD: &str =
    r#"[{"channel":"/meta/subscribe","clientId":"000000000000000000000000000000000000000000000003","subscription":"/a/*"}]"#;

/// The first session's connect, which may be held.
pub const CONNECT: &str =
    r#"[{"channel":"/meta/connect","clientId":"000000000000000000000000000000000000000000000001","connectionType":"long-polling"}]"#;

/// The second session's connect, which may be held.
pub const CONNECT_OTHER: &str =
    r#"[{"channel":"/meta/connect","clientId":"000000000000000000000000000000000000000000000002","connectionType":"long-polling"}]"#;

/// The third session's connect, which may be held.
pub const CONNECT_THIRD: &str =
    r#"[{"channel":"/meta/connect","clientId":"000000000000000000000000000000000000000000000003","connectionType":"long-polling"}]"#;

/// The first session's connect with a timeout of 0, which is never held.
pub const CONNECT_AT_ONCE: &str =
    r#"[{"channel":"/meta/connect","clientId":"000000000000000000000000000000000000000000000001","connectionType":"long-polling","advice":{"timeout":0}}]"#;

/// The second session's connect with a timeout of 0, which is never held.
pub const CONNECT_OTHER_AT_ONCE: &str =
    r#"[{"channel":"/meta/connect","clientId":"000000000000000000000000000000000000000000000002","connectionType":"long-polling","advice":{"timeout":0}}]"#;

/// The first session's connect, which acknowledges no batch and may be held.
pub const ACK_CONNECT: &str =
    r#"[{"channel":"/meta/connect","clientId":"000000000000000000000000000000000000000000000001","connectionType":"long-polling","ext":{"ack":0}}]"#;

/// The first session's disconnect.
pub const DISCONNECT: &str =
    r#"[{"channel":"/meta/disconnect","clientId":"000000000000000000000000000000000000000000000001"}]"#;

/// The second session's publish to `/a/b`.
pub const PUBLISH: &str =
    r#"[{"channel":"/a/b","clientId":"000000000000000000000000000000000000000000000002","data":7}]"#;

/// The first session's publish to `/a/c`.
pub const PUBLISH_OWN: &str =
    r#"[{"channel":"/a/c","clientId":"000000000000000000000000000000000000000000000001","data":8}]"#;

/// The first session's publishes to `/a/c` and `/a/d`.
pub const PUBLISH_TWO: &str =
    r#"[{"channel":"/a/c","clientId":"000000000000000000000000000000000000000000000001","data":8},{"channel":"/a/d","clientId":"000000000000000000000000000000000000000000000001","data":9}]"#;

/// A form of two documents: the first session's subscription, and its publish.
pub const FORM_OF_TWO: &str =
    r#"message=[{"channel":"/meta/subscribe","clientId":"000000000000000000000000000000000000000000000001","subscription":"/a/*"}]&message=[{"channel":"/a/x","clientId":"000000000000000000000000000000000000000000000001","data":1}]"#;

/// The target of a GET with the callback `cb.x`: the first session publishes a text with a line
/// separator to `/a/b`.
pub const QUERY_PUBLISH: &str =
    r#"/cometd?message=[{%22channel%22:%22/a/b%22,%22clientId%22:%22000000000000000000000000000000000000000000000001%22,%22data%22:%22x%E2%80%A8y%22}]&jsonp=cb.x"#;

/// A handshake, then a publish without a client id.
pub const HANDSHAKE_AND_PUBLISH: &str =
    r#"[{"channel":"/meta/handshake","version":"1.0","supportedConnectionTypes":["long-polling"]},{"channel":"/a/b","data":7}]"#;

/// A publish without a client id, then a handshake.
pub const PUBLISH_AND_HANDSHAKE: &str =
    r#"[{"channel":"/a/b","data":7},{"channel":"/meta/handshake","version":"1.0","supportedConnectionTypes":["long-polling"]}]"#;

/// A form of two documents: a handshake, and a publish without a client id.
pub const FORM_HANDSHAKE_AND_PUBLISH: &str =
    r#"message=[{"channel":"/meta/handshake","version":"1.0","supportedConnectionTypes":["long-polling"]}]&message={"channel":"/a/b","data":7}"#;

/// The target of a GET with the callback `cb.x`: a handshake, then a publish without a client id.
pub const QUERY_HANDSHAKE_AND_PUBLISH: &str =
    r#"/cometd?message=[{%22channel%22:%22/meta/handshake%22,%22version%22:%221.0%22,%22supportedConnectionTypes%22:[%22long-polling%22]},{%22channel%22:%22/a/b%22,%22data%22:7}]&jsonp=cb.x"#;

/// The first session's publish to a service channel.
pub const PUBLISH_SERVICE: &str =
    r#"[{"channel":"/service/a","clientId":"000000000000000000000000000000000000000000000001","data":7}]"#;

/// A message that fails, and only adds an entry to the list.
pub const PING: &str = r#"[{"channel":"/meta/ping"}]"#;

/// The target of a GET with the callback `cb.x`: the first session's connect, which is never held.
pub const QUERY_CONNECT: &str =
    r#"/cometd?jsonp=cb.x&message=[{%22channel%22:%22/meta/connect%22,%22clientId%22:%22000000000000000000000000000000000000000000000001%22,%22connectionType%22:%22long-polling%22,%22advice%22:{%22timeout%22:0}}]"#;

/// The reply to the first handshake.
pub const HANDSHAKEN: &str =
    r#"[{"advice":{"interval":0,"reconnect":"retry","timeout":30000},"channel":"/meta/handshake","clientId":"000000000000000000000000000000000000000000000001","successful":true,"supportedConnectionTypes":["long-polling","callback-polling"],"version":"1.0"}]"#;

/// The reply to the second handshake.
pub const SECOND_HANDSHAKEN: &str =
    r#"[{"advice":{"interval":0,"reconnect":"retry","timeout":30000},"channel":"/meta/handshake","clientId":"000000000000000000000000000000000000000000000002","successful":true,"supportedConnectionTypes":["long-polling","callback-polling"],"version":"1.0"}]"#;

/// The reply to the first handshake, if its session acknowledges batches.
pub const ACK_HANDSHAKEN: &str =
    r#"[{"advice":{"interval":0,"reconnect":"retry","timeout":30000},"channel":"/meta/handshake","clientId":"000000000000000000000000000000000000000000000001","ext":{"ack":true},"successful":true,"supportedConnectionTypes":["long-polling","callback-polling"],"version":"1.0"}]"#;

/// The reply to the first session's subscription to `/a/*`.
pub const SUBSCRIBED: &str =
    r#"[{"channel":"/meta/subscribe","clientId":"000000000000000000000000000000000000000000000001","subscription":"/a/*","successful":true}]"#;

/// The reply to the first session's connect, without events.
pub const CONNECTED: &str =
    r#"[{"advice":{"interval":0,"reconnect":"retry","timeout":30000},"channel":"/meta/connect","clientId":"000000000000000000000000000000000000000000000001","successful":true}]"#;

/// The event of the second session's publish, then the reply to the first session's connect.
pub const ANSWER: &str =
    r#"[{"channel":"/a/b","data":7},{"advice":{"interval":0,"reconnect":"retry","timeout":30000},"channel":"/meta/connect","clientId":"000000000000000000000000000000000000000000000001","successful":true}]"#;

/// The event of [`PUBLISH`], then the reply to the third session's connect.
pub const ANSWER_THIRD: &str =
    r#"[{"channel":"/a/b","data":7},{"advice":{"interval":0,"reconnect":"retry","timeout":30000},"channel":"/meta/connect","clientId":"000000000000000000000000000000000000000000000003","successful":true}]"#;

/// The event of the second session's publish, as the first batch of an acknowledging session, then
/// the reply to that session's connect.
pub const ACK_CONNECTED_WITH_EVENT: &str =
    r#"[{"channel":"/a/b","data":7},{"advice":{"interval":0,"reconnect":"retry","timeout":30000},"channel":"/meta/connect","clientId":"000000000000000000000000000000000000000000000001","ext":{"ack":1},"successful":true}]"#;

/// The event of the first session's publish, then the reply to that session's connect.
pub const CONNECTED_WITH_OWN: &str =
    r#"[{"channel":"/a/c","data":8},{"advice":{"interval":0,"reconnect":"retry","timeout":30000},"channel":"/meta/connect","clientId":"000000000000000000000000000000000000000000000001","successful":true}]"#;

/// The reply to a connect of the first session that a newer connect superseded.
pub const SUPERSEDED: &str =
    r#"[{"channel":"/meta/connect","clientId":"000000000000000000000000000000000000000000000001","error":"408::Superseded connect","successful":false}]"#;

/// The reply to the first session's held connect when it disconnects.
pub const SESSION_ENDED: &str =
    r#"[{"advice":{"interval":0,"reconnect":"none"},"channel":"/meta/connect","clientId":"000000000000000000000000000000000000000000000001","successful":true}]"#;

/// The reply to the first session's disconnect.
pub const DISCONNECTED: &str =
    r#"[{"channel":"/meta/disconnect","clientId":"000000000000000000000000000000000000000000000001","successful":true}]"#;

/// The reply to a publish to `/a/b`.
pub const PUBLISHED: &str = r#"[{"channel":"/a/b","successful":true}]"#;

/// The reply to a publish to the service channel `/service/a`.
pub const PUBLISHED_SERVICE: &str = r#"[{"channel":"/service/a","successful":true}]"#;

/// The events of `PUBLISH` and `PUBLISH_OWN`, then the reply to `PUBLISH_OWN`, a rider.
pub const RIDDEN: &str =
    r#"[{"channel":"/a/b","data":7},{"channel":"/a/c","data":8},{"channel":"/a/c","successful":true}]"#;

/// The replies to the two publishes of `PUBLISH_TWO`, with the second one's event between them.
pub const SECOND_RIDDEN: &str =
    r#"[{"channel":"/a/c","successful":true},{"channel":"/a/d","data":9},{"channel":"/a/d","successful":true}]"#;

/// A script with the event of `QUERY_PUBLISH`, then the reply to this publish.
pub const SCRIPT_RIDDEN: &str =
    r#"cb.x([{"channel":"/a/b","data":"x\u2028y"},{"channel":"/a/b","successful":true}])"#;

/// The replies to both documents of `FORM_OF_TWO`.
pub const BOTH_OF_THE_FORM: &str =
    r#"[{"channel":"/meta/subscribe","clientId":"000000000000000000000000000000000000000000000001","subscription":"/a/*","successful":true},{"channel":"/a/x","successful":true}]"#;

/// A script with the reply to `QUERY_PUBLISH`.
pub const SCRIPT_PUBLISHED: &str = r#"cb.x([{"channel":"/a/b","successful":true}])"#;

/// A script with the event of `QUERY_PUBLISH`, then the reply to `QUERY_CONNECT`.
pub const SCRIPT_CONNECTED: &str =
    r#"cb.x([{"channel":"/a/b","data":"x\u2028y"},{"advice":{"interval":0,"reconnect":"retry","timeout":30000},"channel":"/meta/connect","clientId":"000000000000000000000000000000000000000000000001","successful":true}])"#;

/// The event of `FORM_OF_TWO`, then the reply to the first session's connect.
pub const CONNECTED_BY_THE_FORM: &str =
    r#"[{"channel":"/a/x","data":1},{"advice":{"interval":0,"reconnect":"retry","timeout":30000},"channel":"/meta/connect","clientId":"000000000000000000000000000000000000000000000001","successful":true}]"#;
