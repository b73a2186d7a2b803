use crate::{
    ChannelLines, Counts, Metric, MetricValues, MetricsRequest, PageSettings, ProcessTexts,
    ProcessValues, STATUS_PAGE, ServerHealth, SessionLines, page_text, response_text,
};
use bx_advice::{BodyLimit, Config, Error};
use bx_hub::{Lagging, PostFault, SessionSurvey, Survey};
use bx_message::{MessageKind, Status};
use bx_names::Pattern;
use bx_service::{Observer, RequestError, ServiceEvent};
use bx_transport::TransportError;
use std::alloc::Global;
use std::test::Fail;
use std::time::Duration;

// The expected page for 72 values: 1, the greatest number, and 3 to 72. The last three metrics have
// no values. There are two shards.
const PAGE: &str = r#"# HELP bayeux_uptime_seconds_total Seconds since the program started.
# TYPE bayeux_uptime_seconds_total counter
bayeux_uptime_seconds_total 1
# HELP bayeux_connections Open connections.
# TYPE bayeux_connections gauge
bayeux_connections 18446744073709551615
# HELP bayeux_connections_total Connections accepted.
# TYPE bayeux_connections_total counter
bayeux_connections_total 3
# HELP bayeux_requests Requests in progress.
# TYPE bayeux_requests gauge
bayeux_requests 4
# HELP bayeux_requests_held Admitted requests in progress.
# TYPE bayeux_requests_held gauge
bayeux_requests_held 5
# HELP bayeux_requests_admitted_total Requests admitted.
# TYPE bayeux_requests_admitted_total counter
bayeux_requests_admitted_total 6
# HELP bayeux_events_total Events in responses.
# TYPE bayeux_events_total counter
bayeux_events_total 7
# HELP bayeux_responses_missing_total Requests dropped for lack of memory.
# TYPE bayeux_responses_missing_total counter
bayeux_responses_missing_total 8
# HELP bayeux_list_entries_total Length of the list at the last tick, in entries.
# TYPE bayeux_list_entries_total counter
bayeux_list_entries_total 9
# HELP bayeux_ticks_total Ticks appended to the list.
# TYPE bayeux_ticks_total counter
bayeux_ticks_total 10
# HELP bayeux_ticks_refused_total Ticks not appended to the list.
# TYPE bayeux_ticks_refused_total counter
bayeux_ticks_refused_total 11
# HELP bayeux_shards_behind Shards that had not applied the last tick.
# TYPE bayeux_shards_behind gauge
bayeux_shards_behind 12
# HELP bayeux_answers_swept_total Unclaimed answers dropped.
# TYPE bayeux_answers_swept_total counter
bayeux_answers_swept_total 13
# HELP bayeux_sessions Live sessions.
# TYPE bayeux_sessions gauge
bayeux_sessions 14
# HELP bayeux_sessions_opened_total Sessions opened.
# TYPE bayeux_sessions_opened_total counter
bayeux_sessions_opened_total 15
# HELP bayeux_window_batches Batches in the window.
# TYPE bayeux_window_batches gauge
bayeux_window_batches 16
# HELP bayeux_connects_held Held connects.
# TYPE bayeux_connects_held gauge
bayeux_connects_held 17
# HELP bayeux_answers_filed Filed answers that nobody has taken.
# TYPE bayeux_answers_filed gauge
bayeux_answers_filed 18
# HELP bayeux_recording Whether requests are recorded: 1 or 0.
# TYPE bayeux_recording gauge
bayeux_recording 19
# HELP bayeux_record_bytes_total Bytes written to the record.
# TYPE bayeux_record_bytes_total counter
bayeux_record_bytes_total 20
# HELP bayeux_responses_total Responses, by status.
# TYPE bayeux_responses_total counter
bayeux_responses_total{status="200"} 21
bayeux_responses_total{status="400"} 22
bayeux_responses_total{status="403"} 23
bayeux_responses_total{status="404"} 24
bayeux_responses_total{status="405"} 25
bayeux_responses_total{status="413"} 26
bayeux_responses_total{status="415"} 27
bayeux_responses_total{status="501"} 28
bayeux_responses_total{status="503"} 29
# HELP bayeux_requests_refused_total Requests without an answer, by reason.
# TYPE bayeux_requests_refused_total counter
bayeux_requests_refused_total{status="404",reason="Bayeux is at /cometd"} 30
bayeux_requests_refused_total{status="405",reason="the method is neither GET nor POST"} 31
bayeux_requests_refused_total{status="501",reason="the transfer coding is not chunked"} 32
bayeux_requests_refused_total{status="403",reason="callback-polling is off"} 33
bayeux_requests_refused_total{status="415",reason="the content type is not application/json"} 34
bayeux_requests_refused_total{status="400",reason="the body ended early"} 35
bayeux_requests_refused_total{status="413",reason="the request is too large"} 36
bayeux_requests_refused_total{status="400",reason="the name of the callback is not valid"} 37
bayeux_requests_refused_total{status="400",reason="the parameter message is missing"} 38
bayeux_requests_refused_total{status="503",reason="out of memory"} 39
bayeux_requests_refused_total{status="400",reason="the messages are not JSON"} 40
bayeux_requests_refused_total{status="400",reason="a message is not a JSON object"} 41
bayeux_requests_refused_total{status="400",reason="too many messages in one request"} 42
bayeux_requests_refused_total{status="400",reason="a message has no channel"} 43
bayeux_requests_refused_total{status="403",reason="the listener is read-only"} 44
bayeux_requests_refused_total{status="400",reason="the clock is out of range"} 45
bayeux_requests_refused_total{status="503",reason="the list is full"} 46
bayeux_requests_refused_total{status="400",reason="more messages in one request than the server accepts"} 47
bayeux_requests_refused_total{status="503",reason="the server is shutting down"} 48
bayeux_requests_refused_total{status="503",reason="the window is full because a shard lags"} 49
bayeux_requests_refused_total{status="503",reason="internal error: the window lacks entries that a shard needs"} 50
bayeux_requests_refused_total{status="503",reason="internal error: the lock of a shard guards another shard"} 51
bayeux_requests_refused_total{status="503",reason="the answer is unavailable"} 52
# HELP bayeux_replies_total Successful replies, by kind of message.
# TYPE bayeux_replies_total counter
bayeux_replies_total{kind="handshake"} 53
bayeux_replies_total{kind="connect"} 54
bayeux_replies_total{kind="subscribe"} 55
bayeux_replies_total{kind="unsubscribe"} 56
bayeux_replies_total{kind="disconnect"} 57
bayeux_replies_total{kind="publish"} 58
bayeux_replies_total{kind="unknown_meta"} 59
# HELP bayeux_errors_total Error replies, by error.
# TYPE bayeux_errors_total counter
bayeux_errors_total{error="404::Unknown meta channel"} 60
bayeux_errors_total{error="400::Second handshake"} 61
bayeux_errors_total{error="400::Unsupported version"} 62
bayeux_errors_total{error="400::No supported connection type"} 63
bayeux_errors_total{error="503::Too many sessions"} 64
bayeux_errors_total{error="401::No client id"} 65
bayeux_errors_total{error="402::Unknown client"} 66
bayeux_errors_total{error="400::Unknown connection type"} 67
bayeux_errors_total{error="400::Invalid channel"} 68
bayeux_errors_total{error="400::Invalid pattern"} 69
bayeux_errors_total{error="400::Too many patterns"} 70
bayeux_errors_total{error="403::Subscription denied"} 71
bayeux_errors_total{error="400::Missing subscription"} 72
bayeux_errors_total{error="400::Missing data"} 0
bayeux_errors_total{error="408::Superseded connect"} 0
bayeux_errors_total{error="413::Queue overflow"} 0
# HELP bayeux_shard_lag_entries Entries of the list that the shard has not applied.
# TYPE bayeux_shard_lag_entries gauge
bayeux_shard_lag_entries{shard="0"} 0
bayeux_shard_lag_entries{shard="1"} 12
# HELP bayeux_processing_seconds Time to process a request, without waiting for events.
# TYPE bayeux_processing_seconds histogram
bayeux_processing_seconds_bucket{le="0.00001"} 1
bayeux_processing_seconds_bucket{le="0.000025"} 1
bayeux_processing_seconds_bucket{le="0.00005"} 3
bayeux_processing_seconds_bucket{le="0.0001"} 3
bayeux_processing_seconds_bucket{le="0.00025"} 3
bayeux_processing_seconds_bucket{le="0.0005"} 3
bayeux_processing_seconds_bucket{le="0.001"} 3
bayeux_processing_seconds_bucket{le="0.01"} 6
bayeux_processing_seconds_bucket{le="0.1"} 6
bayeux_processing_seconds_bucket{le="1"} 6
bayeux_processing_seconds_bucket{le="+Inf"} 10
bayeux_processing_seconds_sum 5.000000123
bayeux_processing_seconds_count 10
# HELP bayeux_build_info The version of the server.
# TYPE bayeux_build_info gauge
bayeux_build_info{version="1.2.3"} 1
# HELP bayeux_limit Limits, by what they limit.
# TYPE bayeux_limit gauge
bayeux_limit{name="sessions"} 65536
bayeux_limit{name="patterns"} 1024
bayeux_limit{name="events"} 1024
bayeux_limit{name="body"} 1048576
bayeux_limit{name="messages"} 32
bayeux_limit{name="shards"} 2
# HELP bayeux_timeout_seconds The longest hold of a connect.
# TYPE bayeux_timeout_seconds gauge
bayeux_timeout_seconds 30.000
# HELP bayeux_interval_seconds The pause between connects that the server advises.
# TYPE bayeux_interval_seconds gauge
bayeux_interval_seconds 0.005
# HELP bayeux_max_interval_seconds How long a session lives without a message.
# TYPE bayeux_max_interval_seconds gauge
bayeux_max_interval_seconds 4294967.295
# HELP process_cpu_seconds_total Processor time of the process, in seconds.
# TYPE process_cpu_seconds_total counter
process_cpu_seconds_total 3.05
# HELP process_resident_memory_bytes Resident memory of the process.
# TYPE process_resident_memory_bytes gauge
process_resident_memory_bytes 8192
# HELP process_virtual_memory_bytes Virtual memory of the process.
# TYPE process_virtual_memory_bytes gauge
process_virtual_memory_bytes 16384
# HELP process_open_fds Open file descriptors.
# TYPE process_open_fds gauge
process_open_fds 12
# HELP process_max_fds Limit of open file descriptors.
# TYPE process_max_fds gauge
process_max_fds 1024
# HELP process_start_time_seconds Start of the process, in seconds since 1970.
# TYPE process_start_time_seconds gauge
process_start_time_seconds 1700000007.08
"#;

// Texts of files in /proc, of a program with a name that has a space and parentheses.
const PROCESS: ProcessTexts<'static> = ProcessTexts {
    process: "77 (a (b) 3) S 1 77 77 0 -1 4194560 1 2 3 4 250 55 6 7 20 0 5 0 708 16384 2 18446744073709551615 1 1 0\n",
    limits: "Limit                     Soft Limit           Hard Limit           Units     \nMax processes             63432                63432                processes \nMax open files            1024                 1048576              files     \n",
    system: "cpu  1 2 3 4\nbtime 1700000000\nprocesses 5\n",
};

// Returns the page of `metrics` and `process`.
//
// The settings are two shards, the default limits, and times of different lengths.
fn page_of(alloc: Global, metrics: &MetricValues, process: &ProcessValues) -> Result<String, Fail> {
    let settings = PageSettings {
        version: "1.2.3",
        config: Config::new(2, 30_000, 5, u32::MAX).ok_or("the settings are not valid")?,
        body: BodyLimit::greatest(),
        messages: 32,
    };
    Ok(page_text(alloc, metrics, &settings, process)?)
}

#[test]
fn pages_have_the_rows(rt: HostRuntime) -> Result<(), Fail> {
    let alloc = rt.alloc();
    let mut values = Vec::new(alloc);
    for value in 1..73 {
        values.push(if value == 2 { u64::MAX } else { value })?;
    }
    let lags = vec![in alloc; 0, 12]?;
    let times = vec![in alloc; 1, 0, 2, 0, 0, 0, 0, 3, 0, 0, 4]?;
    let metrics = MetricValues::of(values, lags, times, 5_000_000_123);
    let page = page_of(alloc, &metrics, &ProcessValues::of(PROCESS, Some(12)))?;
    assert_eq!(rt; page.as_str(), PAGE);
    Ok(())
}

// Times of requests in nanoseconds, each with the least upper bound of a bucket in which it counts:
// the shortest time, each bound, and the time after it.
const BOUNDED: [(u64, &str); 21] = [
    (0, "0.00001"),
    (10_000, "0.00001"),
    (10_001, "0.000025"),
    (25_000, "0.000025"),
    (25_001, "0.00005"),
    (50_000, "0.00005"),
    (50_001, "0.0001"),
    (100_000, "0.0001"),
    (100_001, "0.00025"),
    (250_000, "0.00025"),
    (250_001, "0.0005"),
    (500_000, "0.0005"),
    (500_001, "0.001"),
    (1_000_000, "0.001"),
    (1_000_001, "0.01"),
    (10_000_000, "0.01"),
    (10_000_001, "0.1"),
    (100_000_000, "0.1"),
    (100_000_001, "1"),
    (1_000_000_000, "1"),
    (1_000_000_001, "+Inf"),
];

// Checks that a time counts in the first bucket with a bound that it does not exceed, and in the
// sum.
#[test]
fn times_count_in_their_buckets(rt: HostRuntime) -> Result<(), Fail> {
    let alloc = rt.alloc();
    let process = ProcessValues::of(PROCESS, None);
    for (time, bound) in &BOUNDED {
        let counts = Counts::new(alloc, 1)?;
        counts.add_time(Duration::from_nanos(*time));
        let page = page_of(alloc, &counts.read(alloc)?, &process)?;
        let (whole, part) = (time / 1_000_000_000, time % 1_000_000_000);
        let sum = format!(in alloc; "_seconds_sum {whole}.{part:09}\n")?;
        assert!(rt; page.as_str().contains(sum.as_str()));
        let row = format!(in alloc; "_bucket{{le=\"{bound}\"}} 1\n")?;
        let (before, _) = page.as_str().split_once(row.as_str()).ok_or("no such row")?;
        assert!(rt; !before.contains("\"} 1\nbayeux_processing"));
    }
    Ok(())
}

#[test]
fn unknown_values_have_no_rows(rt: HostRuntime) -> Result<(), Fail> {
    let alloc = rt.alloc();
    let unreadable = ProcessTexts {
        process: "",
        limits: "Max open files            unlimited            unlimited            files\n",
        system: "btime 18446744073709551615\n",
    };
    let none = ProcessValues::of(unreadable, None);
    let metrics = MetricValues::of(Vec::new(alloc), Vec::new(alloc), Vec::new(alloc), 0);
    let page = page_of(alloc, &metrics, &none)?;
    assert!(rt; !page.as_str().contains("process_"));
    for (system, start_time) in [("btime 1\n", Some(808)), (unreadable.system, None)] {
        let process = ProcessValues::of(ProcessTexts { system, ..PROCESS }, None);
        assert_eq!(rt; process.start_time, start_time, "with {system}");
    }
    Ok(())
}

#[test]
fn pages_are_in_responses(rt: HostRuntime) -> Result<(), Fail> {
    let alloc = rt.alloc();
    let asked = MetricsRequest::of(b"GET / HTTP/1.1\r\n\r\n");
    assert_eq!(rt; asked, MetricsRequest::StatusPage);
    let length = STATUS_PAGE.len();
    let text = response_text(
        alloc,
        asked,
        ServerHealth::NotListening,
        STATUS_PAGE.as_bytes(),
    )?;
    let head = format!(in alloc;
        "HTTP/1.1 200 OK\r\ncontent-type: text/html; charset=utf-8\r\ncontent-length: {length}\r\nconnection: close\r\nx-content-type-options: nosniff\r\nx-frame-options: DENY\r\n\r\n"
    )?;
    assert!(rt; text.starts_with(head.as_bytes()));
    assert!(rt; text.ends_with(b"</html>\n"));
    Ok(())
}

#[test]
fn counts_are_of_their_metric(rt: HostRuntime) -> Result<(), Fail> {
    let alloc = rt.alloc();
    let counts = Counts::new(alloc, 3)?;
    counts.add(Metric::Events, 3);
    counts.add(Metric::Events, 2);
    counts.add(Metric::Responses(Status::Unavailable), 1);
    let memory = RequestError::NotAdmitted(PostFault::Memory);
    counts.add(Metric::Refused(memory), 4);
    counts.see(ServiceEvent::Refused(RequestError::Unreadable(TransportError::Memory)));
    counts.add(Metric::SuccessfulReplies(MessageKind::UnknownMeta), 5);
    counts.add(Metric::ErrorReplies(Error::QueueOverflow), 6);
    counts.set(Metric::Entries, 9);
    counts.set(Metric::FiledAnswers, 7);
    counts.set_lag(0, 2, 10);
    counts.set_lag(2, 10, 2);
    counts.set_lag(3, 10, 0);
    assert_eq!(rt; counts.get(Metric::Events), 5);
    counts.see(ServiceEvent::RequestArrived);
    counts.see(ServiceEvent::Admitted(None));
    assert_eq!(rt; counts.get(Metric::AdmittedInProgress), 1);
    counts.see(ServiceEvent::RequestEnded { was_admitted: true });
    assert_eq!(rt; counts.get(Metric::AdmittedInProgress), 0);
    assert_eq!(rt; counts.get(Metric::RequestsInProgress), 0);
    assert_eq!(rt; counts.get(Metric::AdmittedRequests), 1);
    counts.see(ServiceEvent::Responded(None));
    assert_eq!(rt; counts.get(Metric::MissingResponses), 1);
    let page = page_of(
        alloc,
        &counts.read(alloc)?,
        &ProcessValues::of(PROCESS, None),
    )?;
    let text = page.as_str();
    assert!(rt; text.contains("\nbayeux_events_total 5\n"));
    assert!(rt; text.contains("\nbayeux_list_entries_total 9\n"));
    assert!(rt; text.contains("\nbayeux_answers_filed 7\n"));
    assert!(rt; text.contains("{shard=\"1\"} 0\nbayeux_shard_lag_entries{shard=\"2\"} 8\n"));
    assert!(rt; !text.contains("{shard=\"3\"}"));
    assert!(rt; text.contains("{status=\"503\"} 1\n"));
    assert!(rt; text.contains("{status=\"503\",reason=\"out of memory\"} 5\n"));
    assert!(rt; text.contains("{kind=\"unknown_meta\"} 5\n"));
    assert!(rt; text.contains("{error=\"413::Queue overflow\"} 6\n"));
    Ok(())
}

#[test]
fn state_is_in_its_metrics(rt: HostRuntime) -> Result<(), Fail> {
    let counts = Counts::new(rt.alloc(), 1)?;
    counts.set_survey(Survey {
        entries: 9,
        live: 8,
        opened: 7,
        batches: 6,
    });
    counts.add_tick(0, Lagging::none());
    assert_eq!(rt; counts.get(Metric::ShardsBehind), 0);
    counts.add_tick(
        500,
        Lagging {
            memory: 1,
            overrun: 2,
            paused: 4,
            closed: 8,
            misplaced: 16,
        },
    );
    for (metric, value) in [
        (Metric::Entries, 9),
        (Metric::Sessions, 8),
        (Metric::OpenedSessions, 7),
        (Metric::Batches, 6),
        (Metric::Ticks, 2),
        (Metric::ShardsBehind, 31),
    ] {
        assert_eq!(rt; counts.get(metric), value);
    }
    Ok(())
}

#[test]
fn health_is_that_of_listener_and_ticks(rt: HostRuntime) -> Result<(), Fail> {
    let counts = Counts::new(rt.alloc(), 1)?;
    assert_eq!(rt; counts.health(9000), ServerHealth::NotListening);
    counts.set_listens(true);
    counts.add_tick(500, Lagging::none());
    assert_eq!(rt; counts.health(2499), ServerHealth::Listening);
    assert_eq!(rt; counts.health(2500), ServerHealth::NoTick);
    assert_eq!(rt; counts.health(0), ServerHealth::Listening);
    Ok(())
}

// Returns session `number`, opened at moment 2000, with `patterns`.
fn session_of(alloc: Global, number: u64, patterns: &[&str]) -> Result<SessionSurvey, Fail> {
    let mut active = Vec::new(alloc);
    for pattern in patterns {
        active.push(Pattern::read(alloc, pattern)?)?;
    }
    Ok(SessionSurvey {
        number,
        opened: 2000,
        ack: true,
        has_overflowed: false,
        is_held: true,
        patterns: active,
        events: 5,
        bytes: 60,
        outstanding: 2,
        batch: u64::MAX,
    })
}

#[test]
fn sessions_have_lines(rt: HostRuntime) -> Result<(), Fail> {
    let alloc = rt.alloc();
    let mut lines = SessionLines::new(alloc);
    let first = session_of(alloc, 0, &["/chat/*", "/a"])?;
    assert!(rt; lines.push(alloc, &first, 4999)?);
    assert!(rt; lines.push(alloc, &session_of(alloc, u64::MAX, &[])?, 1999)?);
    let text = lines.into_text()?;
    let wanted =
        r#"{"number":0,"age_seconds":2,"acknowledges":true,"held":true,"overflowed":false,"events":5,"bytes":60,"outstanding":2,"batch":18446744073709551615,"patterns":["/chat/*","/a"]}
{"number":18446744073709551615,"age_seconds":0,"acknowledges":true,"held":true,"overflowed":false,"events":5,"bytes":60,"outstanding":2,"batch":18446744073709551615,"patterns":[]}
"#;
    assert_eq!(rt; str::from_utf8(text.as_slice())?, wanted);
    Ok(())
}

#[test]
fn patterns_have_lines_in_order(rt: HostRuntime) -> Result<(), Fail> {
    let alloc = rt.alloc();
    let mut lines = ChannelLines::new(alloc);
    for patterns in [["/b", "/a/*"], ["/a", "/b"], ["/\u{e4}\u{1f600}", "/b"]] {
        assert!(rt; lines.add(alloc, &session_of(alloc, 1, &patterns)?)?);
    }
    let text = lines.text(alloc)?;
    let wanted = r#"{"pattern":"/a","subscriptions":1}
{"pattern":"/a/*","subscriptions":1}
{"pattern":"/b","subscriptions":3}
{"pattern":"/\u00e4\ud83d\ude00","subscriptions":1}
"#;
    assert_eq!(rt; str::from_utf8(text.as_slice())?, wanted);
    Ok(())
}

// Returns the number of lines of `text`, and whether its last line says that it lacks something.
fn lines_of(text: &[u8]) -> Result<(usize, bool), Fail> {
    let text = str::from_utf8(text)?;
    Ok((
        text.lines().count(),
        text.ends_with("{\"truncated\":true}\n"),
    ))
}

#[test]
fn lists_end_after_many_lines(rt: HostRuntime) -> Result<(), Fail> {
    let alloc = rt.alloc();
    let mut lines = SessionLines::new(alloc);
    let session = session_of(alloc, 1, &["/a"])?;
    for _ in 0..1000 {
        assert!(rt; lines.push(alloc, &session, 0)?);
    }
    assert!(rt; !lines.push(alloc, &session, 0)?);
    assert_eq!(rt; lines_of(lines.into_text()?.as_slice())?, (1001, true));
    let mut patterns = Vec::new(alloc);
    for number in 0..10_000 {
        patterns.push(Pattern::read(alloc, format!(in alloc; "/{number}")?.as_str())?)?;
    }
    let many = SessionSurvey {
        patterns,
        ..session_of(alloc, 1, &[])?
    };
    let mut lines = ChannelLines::new(alloc);
    for _ in 0..10 {
        assert!(rt; lines.add(alloc, &many)?);
    }
    assert_eq!(rt; lines_of(lines.text(alloc)?.as_slice())?, (10_000, false));
    assert!(rt; !lines.add(alloc, &session)?);
    assert_eq!(rt; lines_of(lines.text(alloc)?.as_slice())?, (10_001, true));
    let mut lines = ChannelLines::new(alloc);
    assert!(rt; lines.add(alloc, &many)? && lines.add(alloc, &session)?);
    assert_eq!(rt; lines_of(lines.text(alloc)?.as_slice())?, (10_001, true));
    Ok(())
}
