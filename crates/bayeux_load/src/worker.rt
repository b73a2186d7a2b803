use crate::fault::Fault;
use crate::part::LoadPart;
use crate::tally::Tally;
use bx_load::NANOS_PER_SECOND;
use mio::{Events, Poll};
use std::net::Net;
use std::sync::Wait;
use std::sync::atomic::Ordering;
use std::time::Clock;

// Nanoseconds between updates of the line of progress.
const SHOWN: u64 = 200_000_000;

// The greatest number of connections that one wait reports.
const EVENTS: usize = 1024;

// The number of bytes that one read takes at most.
const BUFFER: usize = 65_536;

/// What a thread needs to wait for its connections, to read from them, and to show progress.
#[derive(Drop)]
struct Waiting {
    poll: Poll,
    events: Events,
    buffer: Vec<u8>,
    // The nanosecond of the load at which the line of progress was last written, if it is shown.
    shown: Option<u64>,
}

/// Runs a part until the load is over, and returns its results.
///
/// `is_shown`: whether to show progress on standard error.
///
/// # Errors
///
/// The first fault of this part, or `Other` if another part failed.
pub fn work<R>(rt: &R, mut part: LoadPart, is_shown: bool) -> Result<Tally, Fault>
where
    R: Net + Clock + Wait + Eprint,
{
    match turns(rt, &mut part, is_shown) {
        Ok(()) => Ok(part.end()),
        Err(fault) => {
            part.context.has_failed.store(true, Ordering::SeqCst);
            Err(fault)
        }
    }
}

fn turns<R>(rt: &R, part: &mut LoadPart, is_shown: bool) -> Result<(), Fault>
where
    R: Net + Clock + Wait + Eprint,
{
    let alloc = part.context.alloc;
    let mut waiting = Waiting {
        events: Events::with_capacity(alloc, EVENTS)?,
        buffer: vec![in alloc; 0; BUFFER]?,
        poll: Poll::new(rt)?,
        shown: if is_shown { Some(0) } else { None },
    };
    for _ in rt.forever() {
        if waiting.is_last(rt, part)? {
            break;
        }
    }
    Ok(())
}

impl Waiting {
    // Serves clients, publishes what is due, and shows progress. Returns `true` if the load is
    // over.
    fn is_last<R>(&mut self, rt: &R, part: &mut LoadPart) -> Result<bool, Fault>
    where
        R: Net + Clock + Eprint,
    {
        self.serve(rt, part)?;
        let now = part.context.now(rt)?;
        part.send_due(now)?;
        let is_over = part.is_over(now)?;
        if let Some(shown) = self.shown
            && (is_over || now.saturating_sub(shown) > SHOWN)
        {
            self.shown = Some(now);
            show(rt, part, now, is_over);
        }
        Ok(is_over)
    }

    // Opens more clients, waits for connections, and serves the clients with a ready connection.
    fn serve<R: Net + Clock>(&mut self, rt: &R, part: &mut LoadPart) -> Result<(), Fault> {
        part.open(rt, self.poll.registry())?;
        self.poll.poll(&mut self.events, Some(part.poll_timeout()))?;
        for event in self.events.iter() {
            part.serve(rt, event.token().0, self.buffer.as_mut_slice())?;
        }
        Ok(())
    }
}

// Writes the line of progress, or erases it at the end.
fn show(rt: &impl Eprint, part: &LoadPart, now: u64, is_over: bool) {
    if is_over {
        let _ = rt.eprint("\r\x1b[K");
        return;
    }
    let (unready, unpublished, delivered) = part.context.progress();
    let seconds = now / NANOS_PER_SECOND;
    let _ = eprint!(rt;
        "\r{seconds:>5} s  {unready} to open, {unpublished} to publish, {delivered} events\x1b[K"
    );
}
