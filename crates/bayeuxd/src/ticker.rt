use crate::clock::SinceStart;
use crate::refusals::ListenerRefusals;
use crate::replies::ReplyLogger;
use crate::serve::ServerKind;
use bx_advice::Error;
use bx_hub::{Hub, HubKind, Pass, ShardSurvey, Tick};
use bx_metrics::{Counts, Metric};
use bx_service::Clock as _;
use bx_window::LogId;
use log::{Log, warn};
use std::alloc::{AllocGlobal, Global};
use std::collections::VecDeque;
use std::sync::atomic::{AtomicBool, Ordering};
use std::sync::{Arc, Wait};
use std::thread::{JoinHandle, Threads};
use std::time::{Clock, Duration};
use std::{io, thread};

// The pause before each tick, in milliseconds. Policy of this server.
const TICK: u64 = 100;

// A filed answer is dropped after this number of ticks: a minute. Policy of this server.
const KEPT: usize = 600;

// The same, if more answers are filed than sessions are live, each of which needs at most one: a
// second. Policy of this server.
const KEPT_IN_A_CROWD: usize = 10;

// Ticks between the log lines for rejected requests and overflows: a second. Policy of this server.
const TELLING: u64 = 10;

// How many file descriptors may be in use beside those of connections. If no more than these are
// left, the log has a warning. Policy of this server.
const OTHER_FILES: u64 = 20;

/// What the thread that posts ticks uses.
#[derive(Drop)]
pub struct TickerParts<L: HubKind, R: Wait + Drop> {
    pub rt: R,
    pub hub: Arc<Hub<L, R>, Global>,
    /// The clock of the ticks' moments.
    pub clock: SinceStart<R>,
    pub counts: Arc<Counts, Global>,
    pub refusals: ListenerRefusals<R>,
    /// The limit of file descriptors, if it is known.
    pub max_files: Option<u64>,
}

/// The thread that posts ticks.
#[derive(Drop)]
pub struct Ticker {
    thread: JoinHandle<()>,
    stop: Arc<AtomicBool, Global>,
}

impl Ticker {
    /// Starts to post a tick every 100 ms.
    ///
    /// The thread counts the ticks and copies the hub's state to `counts`. Once a second, it logs
    /// the refusals of both listeners, the sessions that overflowed, the rejected handshakes, and
    /// whether connections need almost all file descriptors.
    /// It drops filed answers that are not taken within a minute, or within a second while more
    /// are filed than sessions are live.
    ///
    /// # Errors
    ///
    /// The error of starting the thread.
    pub fn start<L, R>(parts: TickerParts<ServerKind<L>, R>) -> io::Result<Ticker>
    where
        L: LogId + Send + Sync + 'static,
        R: Wait + Threads + Clock + AllocGlobal + Log + Sync + Send + Copy + Drop + 'static,
    {
        let rt = parts.rt;
        let stop = Arc::new(rt.alloc(), AtomicBool::new(false))?;
        let over = Arc::try_clone(&stop)?;
        let thread = thread::spawn(&rt, move || post_ticks(&parts, &*over))?;
        Ok(Ticker { thread, stop })
    }

    /// Logs what has not been logged yet, and ends the thread.
    ///
    /// # Blocking
    ///
    /// Blocks until the thread has ended.
    pub fn end<R: Threads>(self, rt: &R) {
        let Ticker { thread, stop } = self;
        stop.store(true, Ordering::SeqCst);
        thread.join(rt);
    }
}

// Posts a tick every 100 ms until `stop` is set.
fn post_ticks<L: HubKind, R>(parts: &TickerParts<L, R>, stop: &AtomicBool)
where
    R: Wait + Clock + AllocGlobal + Log + Drop,
{
    let TickerParts {
        rt,
        hub,
        clock,
        counts,
        refusals,
        max_files,
    } = parts;
    let mut pass = hub.pass();
    let mut places = VecDeque::new(rt.alloc());
    let mut overflows = ReplyLogger::new(Error::QueueOverflow, "sessions overflowed");
    let mut rejected = ReplyLogger::new(Error::TooManySessions, "handshakes rejected");
    let mut turn: u64 = 0;
    for _ in rt.forever() {
        let is_over = stop.load(Ordering::SeqCst);
        if is_over || turn % TELLING == 0 {
            refusals.log_new();
            overflows.log_new(rt, &**counts);
            rejected.log_new(rt, &**counts);
            log_files(rt, &**counts, *max_files);
        }
        if is_over {
            break;
        }
        thread::sleep(rt, Duration::from_millis(TICK));
        turn = turn.wrapping_add(1);
        // A tick that is not appended adds no place. Then answers are dropped only if many are
        // filed.
        let moment = clock.now();
        match hub.tick(rt, rt.alloc(), &mut pass, Tick::new(moment)) {
            Ok(ticked) => {
                counts.add_tick(moment, ticked.advanced.behind());
                let _ = places.push_back(ticked.place);
            }
            Err(_) => counts.add(Metric::RefusedTicks, 1),
        }
        let filed = survey(rt, &**hub, &mut pass, &**counts);
        let kept = if filed > counts.get(Metric::Sessions) {
            KEPT_IN_A_CROWD
        } else {
            KEPT
        };
        if let Some(before) = last_before(&mut places, kept) {
            let swept = hub.sweep(rt, before).dropped();
            counts.add(Metric::SweptAnswers, swept as u64);
        }
    }
}

// Warns if connections leave only few of `max_files` descriptors. Without one, they wait.
fn log_files<R: Log>(rt: &R, counts: &Counts, max_files: Option<u64>) {
    let connections = counts.get(Metric::OpenConnections);
    if let Some(limit) = max_files {
        if connections.saturating_add(OTHER_FILES) >= limit {
            warn!(rt; target: "bayeuxd", connections, limit; "few file descriptors are free");
        }
    }
}

// Removes all of `places` except the newest `kept`, and returns the newest place removed.
fn last_before(places: &mut VecDeque<u64>, kept: usize) -> Option<u64> {
    let mut last = None;
    for _ in kept..places.len() {
        last = places.pop_front();
    }
    last
}

// Copies the state of the hub to `counts`, and returns how many answers are filed in all shards.
fn survey<L: HubKind, H: Wait + Drop, R: Wait>(
    rt: &R,
    hub: &Hub<L, H>,
    pass: &mut Pass<L>,
    counts: &Counts,
) -> u64 {
    let listed = hub.survey(rt, pass);
    counts.set_survey(listed);
    let (mut connects, mut answers): (u64, u64) = (0, 0);
    for shard in 0..counts.shards() {
        let Some(ShardSurvey { place, held, filed }) = hub.survey_shard(rt, shard) else {
            break;
        };
        counts.set_lag(shard, listed.entries, place);
        connects = connects.saturating_add(held as u64);
        answers = answers.saturating_add(filed as u64);
    }
    counts.set(Metric::HeldConnects, connects);
    counts.set(Metric::FiledAnswers, answers);
    answers
}
