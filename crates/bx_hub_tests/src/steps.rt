//! Runs over a hub as tables of steps: calls and their expected results.

use crate::bench::{Bench, Looking, Waiting, Watched, behind};
use crate::same::same;
use bx_advice::Options;
use bx_calls::{
    Found, HubWork, Stage, Task, arrival, config_of, hold, in_turn, shards_for, tick, work_in_hub,
};
use bx_entry::Ticket;
use bx_hub::{HubKind, PostFault, ShardSurvey, Survey};
use bx_record::RecordFault;
use std::alloc::{AllocGlobal, Global};
use std::process::Abort;
use std::random::RandomSource;
use std::sync::atomic::Ordering;
use std::sync::{Arc, Wait};
use std::test::*;

/// A moment above the greatest that a tick may have.
pub const LATE: u64 = (1 << 62) + 1;

/// What an operator must see of session 1, the first one.
#[derive(Clone, Copy)]
pub struct Shown {
    /// The moment at which the session was opened.
    pub opened: u64,
    pub ack: bool,
    pub has_overflowed: bool,
    pub is_held: bool,
    /// The texts of its patterns.
    pub patterns: &'static [&'static str],
    pub events: usize,
    pub bytes: usize,
    pub outstanding: usize,
    pub batch: u64,
}

/// A step of a run. `Finds`, `Wait` and `Watch` name places in the first session's shard.
#[derive(Clone, Copy)]
pub enum Step {
    /// Opens and subscribes the first session. Its connect is held at place 2.
    Hold,
    /// Opens three sessions. The first and third, in one shard, hold connects at places 5 and 6.
    HoldTwo,
    /// Opens the second session, which then publishes an event for the first one.
    Publish,
    /// Opens the second session and publishes its event, with another pass. Then extends the
    /// caller's pass to the other one.
    PublishApart,
    /// Posts a request. Fields: its body, its first place, and how many shards do not apply it,
    /// because they are paused. For a request without messages, the place is the list's length.
    Post(&'static str, u64, usize),
    /// Posts a connect or rider, and checks that its answer is pending. Fields: the body and place.
    Wait(&'static str, u64),
    /// Posts pings. Fields: the first place, the place after the last ping, and the least length of
    /// a body in bytes. The last field: how many shards do not apply the pings, because they are
    /// paused.
    Pings(u64, u64, usize, usize),
    /// Posts a request that is not admitted and comes back. Fields: its body and the fault.
    Refused(&'static str, PostFault),
    /// Posts the request that came back last. Fields: its body, and its place or the fault. If the
    /// request is admitted, all shards must apply it.
    Again(&'static str, Result<u64, PostFault>),
    /// Posts a tick. Fields: its moment, and its place or the fault.
    Tick(u64, Result<u64, PostFault>),
    /// Checks the caller's pass. Fields: where the window begins and where the list ends.
    Seen(u64, u64),
    /// Checks the hub's counts of the list, sessions and window.
    List(Survey),
    /// Polls for an answer. Fields: the place of its connect or rider, the text of the expected
    /// answer, and what is found.
    Finds(u64, &'static str, Found),
    /// Checks that a poll for place 2 of shard 2 finds no answer, and that no waker is stored
    /// there. Shard 2 does not exist, or has no session.
    Elsewhere,
    /// Pauses the first session's shard.
    Pause,
    /// Resumes the first session's shard.
    Resume,
    /// Pauses the shard with this index.
    PauseShard(usize),
    /// Resumes the shard with this index.
    ResumeShard(usize),
    /// Checks that no shard has this index.
    NoShard(usize),
    /// Checks the first session's shard. Fields: the numbers of entries that it has applied, of
    /// held connects, and of filed answers.
    Stands(u64, usize, usize),
    /// Checks a session of the first session's shard. Fields: its index, and what is seen of the
    /// first session, or `None` if the shard has no session at the index.
    Session(usize, Option<Shown>),
    /// Sweeps the answers filed by entries before a place. Fields: the place, and how many are
    /// dropped.
    Sweep(u64, usize),
    Close,
    /// Registers a waker. Fields: the place of the connect, the waker's task, and the result.
    Watch(u64, Task, Watched),
    /// Checks whether a task was woken, and that no wake of the first task happened under its
    /// shard's lock.
    Woken(Task, bool),
    /// Checks whether the first task was woken before the other shard advanced. Field: the shard
    /// that advanced first.
    WokenFirst(usize),
    /// Starts a record, and checks that this succeeds if the field is `true`, and otherwise fails.
    Starts(bool),
    Stops,
    /// Checks how many bytes wait to be written to the record.
    Waits(usize),
    /// Takes what waits of the record, and checks it. Fields: its length in bytes, and the fault
    /// that ended the record, if any.
    Takes(usize, Option<RecordFault>),
    /// Takes what waits of the record, and checks it. Fields: its lines, and the fault that ended
    /// the record, if any.
    Lines(&'static [&'static str], Option<RecordFault>),
    /// Checks that there is no record.
    NoRecord,
}

impl<L: HubKind, H: Wait + Drop> Bench<L, H> {
    // Runs a step that posts or ticks, and passes other steps to `ask`.
    fn take<R: Wait + Abort>(&mut self, rt: &R, step: Step, at: usize) -> Result<(), Fail> {
        let alloc = self.alloc;
        match step {
            Step::Hold => {
                let ticket = hold(rt, alloc, &self.hub, &mut self.pass)?;
                same(rt, ticket, self.ticket(2), at);
            }
            Step::HoldTwo => self.hold_two(rt)?,
            Step::Publish => self.publish(rt)?,
            Step::PublishApart => self.publish_apart(rt)?,
            Step::Post(body, place, paused) => {
                let posted = self.post(rt, arrival(alloc, body)?, body);
                same(rt, posted, Ok((place, behind(paused))), at);
            }
            Step::Wait(body, place) => self.wait(rt, body, place)?,
            Step::Pings(first, end, length, paused) => self.pings(rt, first, end, length, paused)?,
            Step::Refused(body, fault) => {
                let posted = self.post(rt, arrival(alloc, body)?, body);
                same(rt, posted, Err(fault), at);
            }
            Step::Again(body, wanted) => {
                let back = self.back.take().ok_or("nothing came back")?;
                let wanted = wanted.map(|place| (place, behind(0)));
                same(rt, self.post(rt, back, body), wanted, at);
            }
            Step::Tick(moment, wanted) => {
                let ticked = tick(rt, alloc, &self.hub, &mut self.pass, moment);
                same(rt, ticked, wanted, at);
            }
            _ => self.ask(rt, step, at)?,
        }
        Ok(())
    }

    // Runs a step that polls, watches, sweeps, closes, pauses or resumes, and passes others to
    // `look`.
    fn ask<R: Wait + Abort>(&mut self, rt: &R, step: Step, at: usize) -> Result<(), Fail> {
        let home = self.waiting.home;
        match step {
            Step::Finds(place, text, wanted) => {
                let ticket = self.ticket(place);
                same(rt, self.find(rt, ticket, text)?, wanted, at);
            }
            Step::Watch(place, task, wanted) => {
                let ticket = self.ticket(place);
                same(rt, self.watch(rt, ticket, task)?, wanted, at);
            }
            Step::Elsewhere => {
                let ticket = Ticket { place: 2, shard: 2 };
                same(rt, self.find(rt, ticket, "")?, Found::Nothing, at);
                let watched = self.watch(rt, ticket, Task::First)?;
                same(rt, watched, Watched::Unknown, at);
            }
            Step::Pause => same(rt, self.hub.pause(rt, home).is_some(), true, at),
            Step::Resume => same(rt, self.hub.resume(rt, home).is_some(), true, at),
            Step::PauseShard(index) => same(rt, self.hub.pause(rt, index).is_some(), true, at),
            Step::ResumeShard(index) => same(rt, self.hub.resume(rt, index).is_some(), true, at),
            Step::Sweep(place, count) => same(rt, self.hub.sweep(rt, place).dropped(), count, at),
            Step::Close => drop(self.hub.close(rt)),
            _ => self.look(rt, step, at)?,
        }
        Ok(())
    }

    // Runs a step that inspects the hub or uses its record.
    fn look<R: Wait + Abort>(&mut self, rt: &R, step: Step, at: usize) -> Result<(), Fail> {
        let (alloc, hub, waiting) = (self.alloc, &self.hub, &self.waiting);
        match step {
            Step::Seen(begin, len) => {
                let seen = (self.pass.begin(), self.pass.len());
                same(rt, seen, (begin, len), at);
            }
            Step::List(survey) => same(rt, hub.survey(rt, &mut self.pass), survey, at),
            Step::NoShard(index) => self.misses(rt, index)?,
            Step::Stands(place, held, filed) => {
                let stood = ShardSurvey { place, held, filed };
                same(rt, hub.survey_shard(rt, waiting.home), Some(stood), at);
            }
            Step::Session(index, wanted) => self.sees(rt, index, wanted)?,
            Step::Woken(task, wanted) => {
                same(rt, waiting.tasks.task(task).is_woken(), wanted, at);
                let under_lock = waiting.woken_under_lock.load(Ordering::SeqCst);
                same(rt, under_lock, false, at);
            }
            Step::WokenFirst(shard) => {
                let early = waiting.before_woken.load(Ordering::SeqCst) > 0;
                same(rt, early, waiting.home == shard, at);
            }
            Step::Starts(wanted) => same(rt, hub.start_record(rt, alloc).is_ok(), wanted, at),
            Step::Stops => drop(hub.stop_record(rt)),
            Step::Waits(length) => same(rt, hub.waiting_record_bytes(rt), length, at),
            Step::Takes(length, fault) => drop(self.take_record(rt, length, fault)?),
            Step::Lines(lines, fault) => self.take_lines(rt, lines, fault)?,
            Step::NoRecord => {
                let taken = hub.take_record(rt, Vec::new(alloc));
                same(rt, taken.is_err(), true, at);
            }
            _ => return Err(Fail::from("a step of no kind")),
        }
        Ok(())
    }

    // Checks that no shard has `index`.
    fn misses<R: Wait + Abort>(&self, rt: &R, index: usize) -> Result<(), Fail> {
        same(rt, self.hub.pause(rt, index).is_some(), false, index);
        same(rt, self.hub.survey_shard(rt, index), None, index);
        let shown = self.hub.survey_session(rt, self.alloc, index, 0)?;
        same(rt, shown.is_some(), false, index);
        same(rt, self.hub.resume(rt, index).is_some(), false, index);
        Ok(())
    }

    // Runs all steps, and checks that the gate was called, and as often after advances as before
    // them.
    fn take_all<R: Wait + Abort>(&mut self, rt: &R, steps: &[Step]) -> Result<(), Fail> {
        same(rt, self.pass.len(), 0, "seen at first");
        for (at, step) in steps.iter().enumerate() {
            self.take(rt, *step, at)?;
        }
        let before = self.waiting.before.load(Ordering::SeqCst);
        same(rt, before > 0, true, "the gate was passed");
        let after = self.waiting.after.load(Ordering::SeqCst);
        same(rt, after, before, "behind the entries too");
        Ok(())
    }
}

// A run over a new hub: its steps, and what the hub's gate records.
#[derive(Drop)]
struct Run<'a> {
    steps: &'a [Step],
    waiting: Arc<Waiting, Global>,
}

impl<R: Wait + Abort> HubWork<&R> for Run<'_> {
    type Value = ();

    type Fault = Fail;

    fn work<L: HubKind>(self, stage: &Stage<L, &R>) -> Result<(), Fail> {
        let mut bench = Bench {
            alloc: stage.alloc,
            hub: Arc::try_clone(&stage.hub)?,
            pass: stage.hub.pass(),
            waiting: self.waiting,
            back: None,
            older: None,
        };
        bench.take_all(stage.rt, self.steps)
    }
}

// Runs all steps with a new hub. `home`: the first session's shard; `ride`: whether replies of
// riders carry waiting events.
fn check_run<R: Wait + Abort + AllocGlobal + RandomSource>(
    rt: &R,
    home: usize,
    ride: bool,
    steps: &[Step],
) -> Result<(), Fail> {
    let alloc = rt.alloc();
    let options = Options {
        ride,
        anonymous: false,
    };
    let config = config_of(shards_for(home)).ok_or("no configuration")?;
    let placing = in_turn(alloc, home)?;
    let waiting = Arc::new(alloc, Waiting::new(rt, home)?)?;
    let gate = Looking {
        waiting: Arc::try_clone(&waiting)?,
    };
    let run = Run { steps, waiting };
    work_in_hub(rt, alloc, config.with(options), placing, gate, run)
}

/// Runs each of `runs` with a new hub, once for each of `homes`, the first session's shard: 0, 1 or
/// 4.
///
/// `ride`: whether replies of riders carry waiting events.
///
/// # Errors
///
/// [`Fail`] if memory runs out, or a call fails unexpectedly.
pub fn check_runs<R: Wait + Abort + AllocGlobal + RandomSource>(
    rt: &R,
    homes: &[usize],
    ride: bool,
    runs: &[&[Step]],
) -> Result<(), Fail> {
    for steps in runs {
        for home in homes {
            check_run(rt, *home, ride, *steps)?;
        }
    }
    Ok(())
}
