use crate::context::{Context, SharedContext};
use crate::fault::Fault;
use crate::part::LoadPart;
use crate::tally::Tally;
use crate::worker::work;
use bx_load::{LoadSettings, Target};
use std::alloc::AllocGlobal;
use std::net::{Net, SocketAddr, TcpListener, TcpStream, ToSocketAddrs};
use std::sync::atomic::Ordering;
use std::sync::{Arc, Wait};
use std::thread;
use std::thread::{JoinHandle, Threads};
use std::time::{Clock, Instant};

// The greatest number of threads. More threads did not increase the measured rate.
const MOST_THREADS: u64 = 8;

type Other = JoinHandle<Result<Tally, Fault>>;

/// A load that runs on several threads.
#[derive(Drop)]
pub struct ThreadedLoad<R> {
    rt: R,
    context: SharedContext,
}

impl<R> ThreadedLoad<R>
where
    R: Net<Listener = TcpListener, Stream = TcpStream>
        + Clock
        + Wait
        + Threads
        + Eprint
        + AllocGlobal
        + Sync
        + Send
        + Copy
        + Drop
        + 'static,
{
    /// Creates a load, which starts now.
    ///
    /// # Errors
    ///
    /// `Unreachable` if the host has no address, `System` if the clock cannot be read, or `Memory`.
    pub fn new(rt: R, settings: LoadSettings) -> Result<ThreadedLoad<R>, Fault> {
        let alloc = rt.alloc();
        let threads = threads_for(&rt);
        let address = address_of(&rt, &settings.target)?;
        let Ok(start) = Instant::now(&rt) else {
            return Err(Fault::System);
        };
        let context = Context::new(alloc, settings, address, start, threads);
        Ok(ThreadedLoad {
            rt,
            context: Arc::new(alloc, context)?,
        })
    }

    /// Loads the server and returns the results of all threads.
    ///
    /// `is_shown`: whether to show a line of progress on standard error.
    ///
    /// # Errors
    ///
    /// `System` if a thread cannot be spawned, `Memory`, or the fault of the first failed part.
    pub fn run(&self, is_shown: bool) -> Result<Tally, Fault> {
        let alloc = self.context.alloc;
        let mut whole = Tally::new(alloc)?;
        let mut others = Vec::with_capacity(alloc, MOST_THREADS as usize)?;
        let own = self.run_own(&mut others, is_shown);
        // Ends the threads that run, so that they can be joined.
        if own.is_err() {
            self.context.has_failed.store(true, Ordering::SeqCst);
        }
        let mut fault = add(&mut whole, own);
        for other in others {
            fault = fault.or(add(&mut whole, other.join(&self.rt)));
        }
        match fault {
            None => Ok(whole),
            Some(fault) => Err(fault),
        }
    }

    // Spawns the threads of the other parts, and runs the first part.
    fn run_own(&self, others: &mut Vec<Other>, is_shown: bool) -> Result<Tally, Fault> {
        for index in 1..self.context.threads {
            self.begin(index, others)?;
        }
        let part = LoadPart::new(&self.context, 0)?;
        work(&self.rt, part, is_shown)
    }

    // Spawns a thread that runs part `index`. Room for its handle comes first, so that it is
    // joined.
    fn begin(&self, index: u64, others: &mut Vec<Other>) -> Result<(), Fault> {
        let rt = self.rt;
        let part = LoadPart::new(&self.context, index)?;
        match thread::spawn(&rt, move || work(&rt, part, false)) {
            Ok(other) => Ok(others.push(other)?),
            Err(_) => Err(Fault::System),
        }
    }
}

// Adds the result of a part to `whole`, or returns its fault, unless that is `Other`.
fn add(whole: &mut Tally, part: Result<Tally, Fault>) -> Option<Fault> {
    match part {
        Ok(tally) => {
            whole.add(&tally);
            None
        }
        Err(Fault::Other) => None,
        Err(fault) => Some(fault),
    }
}

fn address_of(net: &impl Net, target: &Target) -> Result<SocketAddr, Fault> {
    match target.host.as_str().to_socket_addrs(net) {
        Ok(mut addresses) => addresses.next().ok_or(Fault::Unreachable),
        Err(_) => Err(Fault::Unreachable),
    }
}

// Half the number of processors, from 1 to 8, if known. The server may need the other half.
fn threads_for(rt: &impl Threads) -> u64 {
    match thread::available_parallelism(rt) {
        Ok(count) => (count.get() as u64 / 2).clamp(1, MOST_THREADS),
        Err(_) => 1,
    }
}
