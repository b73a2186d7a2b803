use crate::serve::ServerKind;
use bx_hub::{Hub, HubKind, RecordFront};
use bx_metrics::{Counts, Metric};
use bx_record::{
    CountedFile, RecordFault, RecordFile, Source, TakenAnswerLines, TakenText, WaitingAnswerLines,
    WriteSummary, WriterEnd, config_text, write_until_stopped,
};
use bx_settings::Settings;
use bx_window::LogId;
use log::{Log, info, warn};
use std::alloc::{AllocError, AllocGlobal, Global};
use std::fs::{File, OpenOptions};
use std::io::Write;
use std::os::unix::fs::OpenOptionsExt;
use std::rt::Files;
use std::sync::atomic::{AtomicBool, Ordering};
use std::sync::{Arc, Wait};
use std::thread::{JoinHandle, Threads};
use std::time::Clock;
use std::{io, thread};

// Only its owner can read and write the record file.
const OWNERS: u32 = 0o600;

/// The file of a record, which takes a limited number of bytes, and counts them.
#[derive(Drop)]
pub struct LimitedFile<F> {
    file: F,
    // How many more bytes it takes.
    left: usize,
    counts: Arc<Counts, Global>,
}

impl<F: Write> Write for LimitedFile<F> {
    fn write(&mut self, buf: &[u8]) -> io::Result<usize> {
        if buf.len() > self.left {
            return Err(io::ErrorKind::FileTooLarge.into());
        }
        let written = self.file.write(buf)?;
        self.left = self.left.saturating_sub(written);
        self.counts.add(Metric::RecordedBytes, written as u64);
        Ok(written)
    }

    fn flush(&mut self) -> io::Result<()> {
        self.file.flush()
    }
}

/// The file of a record, after its first line was written.
#[derive(Drop)]
pub struct NewRecordFile<F> {
    file: CountedFile<LimitedFile<F>>,
    has_answers: bool,
    counts: Arc<Counts, Global>,
}

/// Creates the record file at `path` for `settings`, and writes its first line.
///
/// # Errors
///
/// `AlreadyExists`, `FileTooLarge`, or the error of a system call. After the last two, the file may
/// exist.
pub fn make_record<R: Files<File = File> + Log + AllocGlobal>(
    rt: &R,
    path: &str,
    settings: &Settings<'_>,
    counts: &Arc<Counts, Global>,
) -> io::Result<NewRecordFile<File>> {
    let file = OpenOptions::new()
        .write(true)
        .create_new(true)
        .mode(OWNERS)
        .open(rt, path)?;
    let mut file = CountedFile::new(LimitedFile {
        file,
        left: settings.record_bytes,
        counts: Arc::try_clone(counts)?,
    });
    file.write_all(config_text(rt.alloc(), &settings.config)?.as_slice())?;
    info!(rt; target: "bayeuxd", file = path; "recording started");
    Ok(NewRecordFile {
        file,
        has_answers: settings.record_answers,
        counts: Arc::try_clone(counts)?,
    })
}

/// The thread that writes the record, if there is one.
#[derive(Drop)]
pub struct Recorder {
    thread: Option<JoinHandle<()>>,
    answers: Option<Arc<WaitingAnswerLines, Global>>,
    stop: Arc<AtomicBool, Global>,
}

impl Recorder {
    /// Starts to record what is appended to the hub's list, if `file` is given.
    ///
    /// A thread writes the record, and logs a warning if the record ends before the server.
    ///
    /// # Errors
    ///
    /// - `InvalidInput`: the list is not empty.
    /// - The error of starting the thread. The hub goes on recording.
    ///
    /// # Blocking
    ///
    /// Locks admission.
    pub fn start<L, R, F>(
        rt: R,
        hub: &Arc<Hub<ServerKind<L>, R>, Global>,
        file: Option<NewRecordFile<F>>,
    ) -> io::Result<Recorder>
    where
        L: LogId + Send + Sync + 'static,
        R: Wait + Threads + Clock + AllocGlobal + Log + Sync + Send + Copy + Drop + 'static,
        F: Write + Send + Drop + 'static,
    {
        let alloc = rt.alloc();
        let stop = Arc::new(alloc, AtomicBool::new(false))?;
        let Some(
            NewRecordFile {
                file,
                has_answers,
                counts,
            },
        ) = file
        else {
            return Ok(Recorder {
                thread: None,
                answers: None,
                stop,
            });
        };
        let log = Arc::new(alloc, WaitingAnswerLines::new(alloc))?;
        let record = HubRecord {
            rt,
            alloc,
            hub: Arc::try_clone(hub)?,
            log: Arc::try_clone(&log)?,
        };
        let over = Arc::try_clone(&stop)?;
        let Ok(start) = hub.start_record(&rt, alloc) else {
            return Err(io::ErrorKind::InvalidInput.into());
        };
        let out = RecordFile::new(file, start);
        counts.set(Metric::Recording, 1);
        let thread = thread::spawn(&rt, move || {
            let written = write_until_stopped(&rt, alloc, record, out, &*over);
            counts.set(Metric::Recording, 0);
            tell(&rt, &written);
        })?;
        Ok(Recorder {
            thread: Some(thread),
            answers: has_answers.then_some(log),
            stop,
        })
    }

    /// Returns the log of answers' digests, if they are recorded.
    pub fn answers(&self) -> Result<Option<Arc<WaitingAnswerLines, Global>>, AllocError> {
        match &self.answers {
            Some(log) => Ok(Some(Arc::try_clone(log)?)),
            None => Ok(None),
        }
    }

    /// Writes the lines that wait, and ends the thread, if there is one.
    ///
    /// # Blocking
    ///
    /// Blocks until the thread has ended.
    pub fn end<R: Threads>(self, rt: &R) {
        let Recorder { thread, stop, .. } = self;
        stop.store(true, Ordering::SeqCst);
        if let Some(thread) = thread {
            thread.join(rt);
        }
    }
}

// Why a record ended early, and at which place of the list.
#[derive(Clone, Copy, Debug)]
struct Ended {
    fault: RecordFault,
    place: u64,
}

// The waiting lines of a hub's record, and those of its answers.
#[derive(Drop)]
struct HubRecord<L: HubKind, R: Wait + Drop> {
    rt: R,
    alloc: Global,
    hub: Arc<Hub<L, R>, Global>,
    log: Arc<WaitingAnswerLines, Global>,
}

impl<L: HubKind, R: Wait + Log + Drop> Source for HubRecord<L, R> {
    type TextPosition = RecordFront<L>;

    type Fault = Ended;

    fn waiting(&self) -> usize {
        self.hub.waiting_record_bytes(&self.rt)
    }

    fn take(&mut self, empty: Vec<u8>) -> Option<TakenText<RecordFront<L>, Ended>> {
        let TakenText { chunk, fault } = self.hub.take_record(&self.rt, empty).ok()?;
        let place = chunk.upto().place();
        Some(TakenText {
            chunk,
            fault: fault.map(|fault| Ended { fault, place }),
        })
    }

    // Takes the waiting lines of answers, and leaves `empty` in their place. Logs a warning if the
    // log of answers ended early. The list has each request before the log has its answer.
    fn take_answers(&mut self, empty: Vec<u8>) -> Vec<u8> {
        let TakenAnswerLines { bytes, fault, .. } = self.log.take(&self.rt, empty);
        if let Some(fault) = fault {
            let why = fault.reason();
            warn!(&self.rt; target: "bayeuxd", reason = why; "recording of answers ended early");
        }
        bytes
    }

    fn stop(&mut self) {
        self.hub.stop_record(&self.rt);
        self.log.stop(&self.rt, self.alloc);
    }
}

fn tell<R: Log>(rt: &R, written: &WriteSummary<Ended>) {
    let count = written.count;
    match &written.end {
        WriterEnd::StopRequested =>
            info!(rt; target: "bayeuxd", bytes = count; "recording complete"),
        WriterEnd::Ended(Ended { fault, place }) => {
            let why = fault.reason();
            warn!(rt; target: "bayeuxd", bytes = count, place, reason = why; "recording ended early");
        }
        WriterEnd::AlreadyEnded => {
            warn!(rt; target: "bayeuxd", bytes = count, reason = "nothing is recorded"; "recording ended early");
        }
        WriterEnd::WriteFailed(error) => {
            warn!(rt; target: "bayeuxd", bytes = count, reason:% = error; "recording ended early");
        }
    }
}
