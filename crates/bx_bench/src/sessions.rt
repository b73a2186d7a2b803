//! Workloads of 1,000 sessions.
use crate::workloads::stock_event;
use anyhow::{Result, anyhow};
use bx_advice::Config;
use bx_message::{SharedEvent, Text};
use bx_session::{ConnectResult, Delivery, PendingConnect, Session};
use std::alloc::Global;

const SESSIONS: u64 = 1_000;

// A limit on the number of batches that no workload reaches.
const MANY: u64 = 1_000_000_000;

// Number of events delivered to a session before it connects, in each of `ROUNDS` turns.
const ROUND: u64 = 100;

const ROUNDS: u64 = 10;

const HOLD: u64 = 30_000;

// The configuration, client id and event of all deliveries.
#[derive(Drop)]
struct Setting {
    config: Config,
    client: Text,
    event: SharedEvent,
}

impl Setting {
    fn new(alloc: Global) -> Result<Setting> {
        Ok(Setting {
            config: Config::new(1, 30_000, 0, 10_000).ok_or(anyhow!("no configuration"))?,
            client: Text::new(alloc, "000000000000000000000000000000000000000000000001")?,
            event: stock_event(alloc)?,
        })
    }

    fn open(&self, alloc: Global) -> Result<Vec<Session>> {
        let mut sessions = Vec::new(alloc);
        for number in 0..SESSIONS {
            sessions.push(Session::open(alloc, number, true, 0))?;
        }
        Ok(sessions)
    }

    // Delivers the event of `self`, and returns how many events the held connect gets: 0 if none is
    // held. Fails if the session overflows or memory runs out.
    fn deliver(&self, session: &mut Session, place: u64) -> Result<u64> {
        session.reserve()?;
        let event = self.event.clone()?;
        let further = session.further(&event)?;
        if session.is_overflowed() || session.last_batch() > MANY {
            return Err(anyhow!("overflow"));
        }
        match session.deliver(&self.config, place, event, further) {
            Delivery::Given(answered) => Ok(answered.answer.events.len() as u64),
            Delivery::Waits | Delivery::Overflowed => Ok(0),
        }
    }

    // Connects and acknowledges all batches. Returns how many events the connect gets: 0 if it is
    // held.
    fn connect(&self, alloc: Global, session: &mut Session, hold: u64) -> Result<u64> {
        let number = session.last_batch();
        if number > MANY {
            return Err(anyhow!("too many batches"));
        }
        let connect = PendingConnect::new(alloc, number, &self.client, None, 0, hold)?;
        let connection = session.connect(alloc, &self.config, connect, Some(number))?;
        let ConnectResult { answered, .. } = connection;
        Ok(answered.map_or(0, |answered| answered.answer.events.len() as u64))
    }
}

/// Opens 1,000 sessions, and returns their number.
///
/// # Errors
///
/// If memory runs out.
pub fn open(alloc: Global) -> Result<usize> {
    let setting = Setting::new(alloc)?;
    Ok(setting.open(alloc)?.len())
}

/// Delivers 1,000 events to each of 1,000 sessions, and returns the number of sessions.
///
/// The events wait, since no session connects.
///
/// # Errors
///
/// If memory runs out.
pub fn wait(alloc: Global) -> Result<usize> {
    let setting = Setting::new(alloc)?;
    let mut sessions = setting.open(alloc)?;
    for place in 0..ROUND * ROUNDS {
        for session in sessions.iter_mut() {
            setting.deliver(session, place)?;
        }
    }
    Ok(sessions.len())
}

/// Delivers 100 events to each of 1,000 sessions and then connects each session, 10 times.
///
/// Returns the number of events that the connects get.
///
/// # Errors
///
/// If memory runs out.
pub fn batches(alloc: Global) -> Result<usize> {
    let setting = Setting::new(alloc)?;
    let mut sessions = setting.open(alloc)?;
    let mut total = 0u64;
    for _ in 0..ROUNDS {
        for place in 0..ROUND {
            for session in sessions.iter_mut() {
                setting.deliver(session, place)?;
            }
        }
        for session in sessions.iter_mut() {
            total = total.saturating_add(setting.connect(alloc, session, 0)?);
        }
    }
    Ok(total as usize)
}

/// Holds a connect of each of 1,000 sessions and answers it with an event, 1,000 times.
///
/// Returns the number of events that the connects get.
///
/// # Errors
///
/// If memory runs out.
pub fn holds(alloc: Global) -> Result<usize> {
    let setting = Setting::new(alloc)?;
    let mut sessions = setting.open(alloc)?;
    let mut total = 0u64;
    for place in 0..ROUND * ROUNDS {
        for session in sessions.iter_mut() {
            setting.connect(alloc, session, HOLD)?;
            total = total.saturating_add(setting.deliver(session, place)?);
        }
    }
    Ok(total as usize)
}
