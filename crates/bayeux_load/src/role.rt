use bx_load::{Arrivals, LoadSettings, Reception, Stamp, due, events_of};
use std::alloc::{AllocError, Global};

/// What a client does.
#[derive(Drop)]
pub enum Role {
    Subscriber(Subscriber),
    Publisher(Publisher),
}

/// A session that receives the events of one channel.
#[derive(Drop)]
pub struct Subscriber {
    /// Counted from 0.
    pub channel: u32,
    /// The number of the batch that the next connect acknowledges.
    pub acknowledged: Option<u64>,
    // One element for each publisher of the channel.
    arrivals: Vec<Arrivals>,
}

impl Subscriber {
    /// Creates the role of session `number`, counted from 0.
    pub fn new(
        alloc: Global,
        settings: &LoadSettings,
        number: u64,
    ) -> Result<Subscriber, AllocError> {
        let channel = (number % settings.channels as u64) as u32;
        let mut arrivals = Vec::new(alloc);
        for publisher in 0..settings.publishers {
            if publisher % settings.channels == channel {
                let count = events_of(publisher, settings.publishers, settings.events);
                arrivals.push(Arrivals::new(alloc, count as usize)?)?;
            }
        }
        Ok(Subscriber {
            channel,
            acknowledged: None,
            arrivals,
        })
    }

    /// Returns how many events the session should receive.
    pub fn expected(&self) -> u64 {
        let mut expected: u64 = 0;
        for arrivals in self.arrivals.iter() {
            expected = expected.saturating_add(arrivals.seen.len() as u64);
        }
        expected
    }

    /// Returns how many events did not arrive.
    pub fn lost(&self) -> u64 {
        let mut lost: u64 = 0;
        for arrivals in self.arrivals.iter() {
            lost = lost.saturating_add(arrivals.lost() as u64);
        }
        lost
    }

    /// Records the arrival of the event with data `stamp`, and returns how it arrived.
    pub fn take(&mut self, settings: &LoadSettings, stamp: Stamp) -> Reception {
        let channels = settings.channels as u64;
        if stamp.publisher % channels != self.channel as u64 {
            return Reception::Unknown;
        }
        let at = (stamp.publisher / channels) as usize;
        match self.arrivals.get_mut(at) {
            Some(arrivals) => arrivals.take(stamp.number as usize),
            None => Reception::Unknown,
        }
    }
}

/// A client that publishes its share of the events.
#[derive(Drop)]
pub struct Publisher {
    number: u64,
    /// Counted from 0.
    pub channel: u32,
    sent: u64,
    // The number of the next event, counted from 0 among those of all publishers.
    next: u64,
}

impl Publisher {
    /// Creates the role of publisher `number`, counted from 0.
    pub fn new(settings: &LoadSettings, number: u64) -> Publisher {
        Publisher {
            number,
            channel: (number % settings.channels as u64) as u32,
            sent: 0,
            next: number,
        }
    }

    /// Returns the data of the next event if it is due, and counts the event as sent.
    ///
    /// `passed`: nanoseconds since the publishers started. `now`: nanoseconds since the load
    /// started.
    pub fn next(&mut self, settings: &LoadSettings, passed: u64, now: u64) -> Option<Stamp> {
        if self.next >= settings.events as u64 {
            return None;
        }
        if settings.rate > 0 && due(self.next, settings.rate) > passed {
            return None;
        }
        let stamp = Stamp {
            publisher: self.number,
            number: self.sent,
            moment: now,
        };
        self.sent = self.sent.saturating_add(1);
        self.next = self.next.saturating_add(settings.publishers as u64);
        Some(stamp)
    }
}
