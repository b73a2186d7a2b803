ghost use Rattle.std.specs.Prelude.{◌≡◌, Some};
ghost use Rattle.bx_metrics.specs.Outcomes.{place_of};
ghost use Rattle.bx_metrics.specs.declared.metric.Metric.TheVariants.{ErrorReplies, Refused, Responses, SuccessfulReplies};

use bx_advice::Error;
use bx_entry::Refusal;
use bx_hub::PostFault;
use bx_message::{MessageKind, Status};
use bx_service::RequestError;
use bx_transport::TransportError;

/// A number that the page of metrics shows. Policy of this server.
#[derive(Clone, Copy, Debug, PartialEq, Eq)]
pub enum Metric {
    /// In seconds.
    Uptime,
    OpenConnections,
    AcceptedConnections,
    /// Requests that have arrived and have not ended.
    RequestsInProgress,
    /// Admitted requests that have not ended, even if they wait for no answer.
    AdmittedInProgress,
    AdmittedRequests,
    /// Events in answers, counted before the response is created.
    Events,
    /// Requests that got no response because memory ran out.
    MissingResponses,
    Entries,
    Ticks,
    /// Ticks that the hub did not append to the list.
    RefusedTicks,
    /// Shards that had not applied the last tick when it was posted.
    ShardsBehind,
    /// Filed answers that were dropped because nobody took them.
    SweptAnswers,
    /// Live sessions at the last tick.
    Sessions,
    /// Sessions opened up to the last tick.
    OpenedSessions,
    /// Batches in the window at the last tick.
    Batches,
    /// Held connects at the last tick.
    HeldConnects,
    /// Filed answers that nobody has taken, at the last tick.
    FiledAnswers,
    /// 1 while requests are recorded, otherwise 0.
    Recording,
    /// Bytes written to the record.
    RecordedBytes,
    /// Responses with this status.
    Responses(Status),
    /// Responses without items, for this reason.
    Refused(RequestError),
    /// Successful replies to messages of this kind.
    SuccessfulReplies(MessageKind),
    /// Replies with this error.
    ErrorReplies(Error),
}

/// A metric, its name, its type in Prometheus' format, and its help text.
pub(crate) type Row = (Metric, &'static str, &'static str, &'static str);

// Expands to rows: one for each metric, then for each metric with a label one for each label.
macro_rules! rows {
    (
        $($name:literal, $type_name:literal, $help:literal: $metric:expr;)*
        labels:
        $($group:literal, $group_type:literal, $group_help:literal: $of:path: $($label:expr),*;)*
    ) => {
        [
            $(($metric, $name, $type_name, $help),)*
            $($(($of($label), $group, $group_type, $group_help)),*),*
        ]
    };
}

/// The rows of the metrics page, in order, with those of the same name adjacent.
pub(crate) const METRICS: [Row; 75] = rows! {
    "bayeux_uptime_seconds_total", "counter", "Seconds since the program started.": Metric::Uptime;
    "bayeux_connections", "gauge", "Open connections.": Metric::OpenConnections;
    "bayeux_connections_total", "counter", "Connections accepted.": Metric::AcceptedConnections;
    "bayeux_requests", "gauge", "Requests in progress.": Metric::RequestsInProgress;
    "bayeux_requests_held", "gauge", "Admitted requests in progress.": Metric::AdmittedInProgress;
    "bayeux_requests_admitted_total", "counter", "Requests admitted.": Metric::AdmittedRequests;
    "bayeux_events_total", "counter", "Events in responses.": Metric::Events;
    "bayeux_responses_missing_total", "counter", "Requests dropped for lack of memory.": Metric::MissingResponses;
    "bayeux_list_entries_total", "counter", "Length of the list at the last tick, in entries.": Metric::Entries;
    "bayeux_ticks_total", "counter", "Ticks appended to the list.": Metric::Ticks;
    "bayeux_ticks_refused_total", "counter", "Ticks not appended to the list.": Metric::RefusedTicks;
    "bayeux_shards_behind", "gauge", "Shards that had not applied the last tick.": Metric::ShardsBehind;
    "bayeux_answers_swept_total", "counter", "Unclaimed answers dropped.": Metric::SweptAnswers;
    "bayeux_sessions", "gauge", "Live sessions.": Metric::Sessions;
    "bayeux_sessions_opened_total", "counter", "Sessions opened.": Metric::OpenedSessions;
    "bayeux_window_batches", "gauge", "Batches in the window.": Metric::Batches;
    "bayeux_connects_held", "gauge", "Held connects.": Metric::HeldConnects;
    "bayeux_answers_filed", "gauge", "Filed answers that nobody has taken.": Metric::FiledAnswers;
    "bayeux_recording", "gauge", "Whether requests are recorded: 1 or 0.": Metric::Recording;
    "bayeux_record_bytes_total", "counter", "Bytes written to the record.": Metric::RecordedBytes;
    labels:
    "bayeux_responses_total", "counter", "Responses, by status.": Metric::Responses:
        Status::Ok, Status::BadRequest, Status::Forbidden, Status::NotFound, Status::MethodNotAllowed,
        Status::TooLarge, Status::UnsupportedMediaType, Status::NotImplemented, Status::Unavailable;
    "bayeux_requests_refused_total", "counter", "Requests without an answer, by reason.": Metric::Refused:
        RequestError::NotFound, RequestError::MethodNotAllowed, RequestError::TransferCoding,
        RequestError::CallbackPolling, RequestError::MediaType, RequestError::BodyFailed,
        RequestError::Unreadable(TransportError::TooLarge), RequestError::Unreadable(TransportError::BadName),
        RequestError::Unreadable(TransportError::NoMessage), RequestError::Unreadable(TransportError::Memory),
        RequestError::NotAdmitted(PostFault::Refused(Refusal::NotJson)),
        RequestError::NotAdmitted(PostFault::Refused(Refusal::NotObject)),
        RequestError::NotAdmitted(PostFault::Refused(Refusal::TooMany)),
        RequestError::NotAdmitted(PostFault::Refused(Refusal::NoChannel)),
        RequestError::NotAdmitted(PostFault::Refused(Refusal::Forbidden)),
        RequestError::NotAdmitted(PostFault::Refused(Refusal::BadMoment)),
        RequestError::NotAdmitted(PostFault::Refused(Refusal::Ended)),
        RequestError::NotAdmitted(PostFault::TooManyMessages),
        RequestError::NotAdmitted(PostFault::Closed),
        RequestError::NotAdmitted(PostFault::Behind { first: 0 }),
        RequestError::NotAdmitted(PostFault::Overrun { shard: 0, place: 0 }),
        RequestError::NotAdmitted(PostFault::WrongShard { shard: 0, found: 0 }),
        RequestError::Unanswered;
    "bayeux_replies_total", "counter", "Successful replies, by kind of message.": Metric::SuccessfulReplies:
        MessageKind::Handshake, MessageKind::Connect, MessageKind::Subscribe, MessageKind::Unsubscribe,
        MessageKind::Disconnect, MessageKind::Publish, MessageKind::UnknownMeta;
    "bayeux_errors_total", "counter", "Error replies, by error.": Metric::ErrorReplies:
        Error::UnknownMetaChannel, Error::SecondHandshake, Error::UnsupportedVersion,
        Error::NoSupportedConnectionType, Error::TooManySessions, Error::NoClientId, Error::UnknownClient,
        Error::UnknownConnectionType, Error::InvalidChannel, Error::InvalidPattern, Error::TooManyPatterns,
        Error::SubscriptionDenied, Error::MissingSubscription, Error::MissingData, Error::SupersededConnect,
        Error::QueueOverflow;
};

impl Metric {
    /// Returns the index of the metric's row in [`METRICS`].
    pub(crate) fn place(self) -> usize
        ensures { place_of self ≡ Some result }
    {
        match self {
            Metric::Uptime => 0,
            Metric::OpenConnections => 1,
            Metric::AcceptedConnections => 2,
            Metric::RequestsInProgress => 3,
            Metric::AdmittedInProgress => 4,
            Metric::AdmittedRequests => 5,
            Metric::Events => 6,
            Metric::MissingResponses => 7,
            Metric::Entries => 8,
            Metric::Ticks => 9,
            Metric::RefusedTicks => 10,
            Metric::ShardsBehind => 11,
            Metric::SweptAnswers => 12,
            Metric::Sessions => 13,
            Metric::OpenedSessions => 14,
            Metric::Batches => 15,
            Metric::HeldConnects => 16,
            Metric::FiledAnswers => 17,
            Metric::Recording => 18,
            Metric::RecordedBytes => 19,
            Metric::Responses(status) => place_of_status(status),
            Metric::Refused(error) => place_of_refused(error),
            Metric::SuccessfulReplies(kind) => place_of_kind(kind),
            Metric::ErrorReplies(error) => place_of_error(error),
        }
    }
}

fn place_of_status(status: Status) -> usize
    ensures { place_of (Responses status) ≡ Some result }
{
    20 + status as usize
}

fn place_of_kind(kind: MessageKind) -> usize
    ensures { place_of (SuccessfulReplies kind) ≡ Some result }
{
    52 + kind as usize
}

fn place_of_error(error: Error) -> usize
    ensures { place_of (ErrorReplies error) ≡ Some result }
{
    59 + error as usize
}

// Errors with the same reason have the same row.
fn place_of_refused(error: RequestError) -> usize
    ensures { place_of (Refused error) ≡ Some result }
{
    match error {
        RequestError::NotFound => 29,
        RequestError::MethodNotAllowed => 30,
        RequestError::TransferCoding => 31,
        RequestError::CallbackPolling => 32,
        RequestError::MediaType => 33,
        RequestError::BodyFailed => 34,
        RequestError::Unreadable(TransportError::TooLarge) => 35,
        RequestError::Unreadable(TransportError::BadName) => 36,
        RequestError::Unreadable(TransportError::NoMessage) => 37,
        RequestError::Unreadable(TransportError::Memory)
        | RequestError::NotAdmitted(PostFault::Memory)
        | RequestError::Memory => 38,
        RequestError::NotAdmitted(PostFault::Refused(refusal)) => 39 + refusal as usize,
        RequestError::NotAdmitted(PostFault::TooManyMessages) => 46,
        RequestError::NotAdmitted(PostFault::Closed) => 47,
        RequestError::NotAdmitted(PostFault::Behind { .. }) => 48,
        RequestError::NotAdmitted(PostFault::Overrun { .. }) => 49,
        RequestError::NotAdmitted(PostFault::WrongShard { .. }) => 50,
        RequestError::Unanswered => 51,
    }
}
