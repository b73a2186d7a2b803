//! Tests of HTTP exchanges: one thread polls them, step by step.
use crate::requests::{Ask, Given, Want, check_given, check_pending};
use crate::runs::{COUNT, Held, SMALL, Step, run_at};
use crate::same::same;
use bx_advice::{BodyLimit, Options};
use bx_calls::{HubWork, Stage, Tasks, config_of, tick, work_in_open_hub};
use bx_entry::{Access, SharedPatterns};
use bx_hub::{HubKind, Pass};
use bx_service::{Backend, BayeuxService, Clock, HubBackend, Nonces};
use futures::Future;
use hyper::service::Service;
use std::alloc::AllocGlobal;
use std::process::Abort;
use std::random::RandomSource;
use std::sync::{Arc, Wait};
use std::test::*;

// A clock fixed at a moment in milliseconds, and a source of nonces that are all 0.
#[derive(Clone, Copy)]
struct Still(u64);

impl Clock for Still {
    fn now(&self) -> u64 {
        self.0
    }
}

impl Nonces for Still {
    fn next(&self) -> u128 {
        0
    }
}

// Four services that post to one hub.
#[derive(Drop)]
struct Services<S: Drop> {
    // The service at the publishers' listener.
    usual: BayeuxService<S>,
    // The service at the read-only listener.
    readers: BayeuxService<S>,
    // The service with a clock fixed at a moment above the greatest that a request may have.
    too_late: BayeuxService<S>,
    // The service with a limit of 16 bytes on bodies and queries.
    small: BayeuxService<S>,
}

// A hub and its services, a caller's pass, and two tasks that poll exchanges.
#[derive(Drop)]
struct Bench<'a, L: HubKind, S: Drop, R: Wait + Drop> {
    stage: &'a Stage<L, R>,
    pass: Pass<L>,
    services: Services<S>,
    tasks: Tasks,
}

impl<L: HubKind, S: Backend<Items: Drop>, R: Wait + Abort + Drop> Bench<'_, L, S, R> {
    // Checks that the first poll of the exchange for `ask` returns the response `want`.
    fn asks(&self, service: &BayeuxService<S>, ask: Ask, want: Want) -> Result<(), Fail> {
        let Stage { rt, alloc, .. } = self.stage;
        let mut exchange = service.call(ask.request(*alloc)?);
        check_given(rt, *alloc, &mut exchange, &self.tasks.second, want)
    }

    // Checks that the first poll of the exchange for a POST of `text` is pending. Then drops the
    // exchange.
    fn waits(&self, text: &'static str) -> Result<(), Fail> {
        let request = Ask::post(text).request(self.stage.alloc)?;
        let mut exchange = self.services.usual.call(request);
        check_pending(&self.stage.rt, &mut exchange, &self.tasks.second, false);
        Ok(())
    }

    // Checks that a POST gets 400 if its body fails after a prefix of `text`, for each prefix.
    fn breaks(&self, text: &'static str) -> Result<(), Fail> {
        let service = &self.services.usual;
        for len in 0..=text.len() {
            self.asks(service, Ask::Broken(text, len), Want::Status(400))?;
        }
        Ok(())
    }

    fn take(&mut self, step: Step) -> Result<(), Fail> {
        let Stage { rt, alloc, hub } = self.stage;
        let all = &self.services;
        match step {
            Step::Post(text, json) => self.asks(&all.usual, Ask::post(text), Want::Json(json))?,
            Step::Query(target, script) => {
                self.asks(&all.usual, Ask::Get(target), Want::Script(script))?;
            }
            Step::Ask(ask, want) => self.asks(&all.usual, ask, want)?,
            Step::Small(ask, want) => self.asks(&all.small, ask, want)?,
            Step::Read(ask, want) => self.asks(&all.readers, ask, want)?,
            Step::ReadText(text, want) => self.asks(&all.readers, Ask::post(text), want)?,
            Step::TooLate(text, want) => self.asks(&all.too_late, Ask::post(text), want)?,
            Step::Wait(text) => self.waits(text)?,
            Step::Break(text) => self.breaks(text)?,
            Step::Tick(moment) => {
                tick(rt, *alloc, hub, &mut self.pass, moment)?;
            }
            Step::Close => drop(hub.close(rt)),
            Step::Pause => same(rt, hub.pause(rt, 1).is_some(), true, "a pause"),
            Step::Sweep(count) => same(rt, hub.sweep(rt, 5).dropped(), count, "a sweep"),
        }
        Ok(())
    }

    fn take_all(&mut self, steps: &[Step]) -> Result<(), Fail> {
        for step in steps {
            self.take(*step)?;
        }
        Ok(())
    }

    // Polls `exchange`, and checks that it is pending, also after the steps `held.before`. Then
    // takes the steps `held.then`. If `held.gives` is given, checks whether those woke the first
    // task, and what the next poll returns.
    fn watch<F: Future<Output = Given>>(
        &mut self,
        exchange: &mut F,
        held: &Held,
    ) -> Result<(), Fail>
        requires { F.can_poll exchange.old }
    {
        let Stage { rt, alloc, .. } = self.stage;
        check_pending(rt, exchange, &self.tasks.first, held.is_late);
        self.take_all(held.before)?;
        if !held.before.is_empty() {
            check_pending(rt, exchange, &self.tasks.first, false);
        }
        self.take_all(held.then)?;
        if let Some((is_woken, want)) = held.gives {
            same(rt, self.tasks.first.is_woken(), is_woken, "a wake");
            check_given(rt, *alloc, exchange, &self.tasks.first, want)?;
        }
        Ok(())
    }

    // Makes the exchange `held`, which waits during other steps.
    fn hold(&mut self, held: &Held) -> Result<(), Fail> {
        let request = held.ask.request(self.stage.alloc)?;
        let mut exchange = self.services.usual.call(request);
        self.watch(&mut exchange, held)
    }

    // Executes the run with index `number`, and checks its responses.
    fn execute(&mut self, number: usize) -> Result<(), Fail> {
        let run = run_at(number).ok_or("no such run")?;
        self.take_all(run.first)?;
        if let Some(held) = &run.held {
            self.hold(held)?;
        }
        self.take_all(run.last)
    }
}

// Creates a service over the hub of `stage` with `access`. Its clock is fixed at `moment`, in
// milliseconds, and its nonces are 0.
fn service_of<L: HubKind, R: Wait + Copy + Drop>(
    stage: &Stage<L, R>,
    access: Access,
    moment: u64,
) -> Result<BayeuxService<HubBackend<L, R, Still, Still>>, Fail> {
    let hub = Arc::try_clone(&stage.hub)?;
    let still = Still(moment);
    let backend = HubBackend::new(stage.rt, stage.alloc, hub, access, still, still);
    Ok(BayeuxService::new(stage.alloc, backend)?)
}

fn services_of<L: HubKind, R: Wait + Copy + Drop>(
    stage: &Stage<L, R>,
) -> Result<Services<HubBackend<L, R, Still, Still>>, Fail> {
    let none = SharedPatterns::new(stage.alloc, Vec::new(stage.alloc))?;
    let limit = BodyLimit::new(SMALL).ok_or("no such limit")?;
    Ok(Services {
        usual: service_of(stage, Access::ReadWrite, 0)?,
        readers: service_of(stage, Access::ReadOnly(none), 0)?,
        too_late: service_of(stage, Access::ReadWrite, (1 << 62) + 1)?,
        small: service_of(stage, Access::ReadWrite, 0)?.with_limit(limit),
    })
}

// The run with index `number`, and the tasks that poll its exchanges.
#[derive(Drop)]
struct ExchangeRun {
    tasks: Tasks,
    number: usize,
}

impl<R: Wait + Abort + Copy + Drop> HubWork<R> for ExchangeRun {
    type Value = ();

    type Fault = Fail;

    fn work<L: HubKind>(self, stage: &Stage<L, R>) -> Result<(), Fail> {
        let services = services_of(stage)?;
        let mut bench = Bench {
            stage,
            pass: stage.hub.pass(),
            services,
            tasks: self.tasks,
        };
        bench.execute(self.number)
    }
}

// Checks the responses of the run with index `number`, over a new hub of two shards.
fn check_run<R: Wait + Abort + AllocGlobal + RandomSource>(
    rt: &R,
    number: usize,
) -> Result<(), Fail> {
    let config = config_of(2).ok_or("no configuration")?;
    let ride = run_at(number).ok_or("no such run")?.ride;
    let config = config.with(Options {
        ride,
        anonymous: false,
    });
    let tasks = Tasks::new(rt)?;
    work_in_open_hub(rt, rt.alloc(), config, ExchangeRun { tasks, number })
}

// Checks the responses of all runs.
#[test]
fn exchanges(rt: HostRuntime) -> Result<(), Fail> {
    for number in 0..COUNT {
        check_run(&rt, number)?;
    }
    Ok(())
}
