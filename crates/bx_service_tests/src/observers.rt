//! Tests of observers: the events that a service reports, with a backend of fixed outcomes.
use crate::answers::event;
use crate::requests::Ask;
use crate::same::same;
use bx_cut::Bodies;
use bx_entry::Refusal;
use bx_hub::PostFault;
use bx_message::Status;
use bx_record::WaitingAnswerLines;
use bx_service::{
    AnswerLogger, Answered, Backend, BayeuxService, Declined, Observer, RequestError, ServiceEvent,
    Unanswered,
};
use futures::Future;
use futures::task::{Context, Poll};
use futures::test::MockTask;
use hyper::service::Service;
use std::alloc::Global;
use std::sync::Arc;
use std::sync::atomic::{AtomicU64, Ordering};
use std::test::*;

// An observer that appends a hexadecimal digit for each event, and keeps the last 16 digits.
#[derive(Drop)]
struct Digits(AtomicU64);

impl Observer for Digits {
    fn see(&self, event: ServiceEvent<'_>) {
        let digit = match event {
            ServiceEvent::ConnectionOpened => 1,
            ServiceEvent::ConnectionClosed => 2,
            ServiceEvent::RequestArrived => 3,
            ServiceEvent::Admitted(Some(9)) => 4,
            ServiceEvent::Refused(
                RequestError::NotAdmitted(PostFault::Refused(Refusal::BadMoment)),
            ) => 5,
            ServiceEvent::Answered {
                place: Some(9),
                items: [],
            } => 6,
            ServiceEvent::Refused(RequestError::Unanswered) => 7,
            ServiceEvent::Refused(RequestError::MethodNotAllowed) => 14,
            ServiceEvent::Responded(Some(Status::Ok)) => 8,
            ServiceEvent::Responded(Some(Status::Unavailable)) => 9,
            ServiceEvent::Responded(Some(Status::BadRequest)) => 10,
            ServiceEvent::Responded(Some(Status::MethodNotAllowed)) => 11,
            ServiceEvent::RequestEnded { was_admitted: true } => 12,
            ServiceEvent::RequestEnded {
                was_admitted: false,
            } => 13,
            _ => 15,
        };
        let seen = self.0.load(Ordering::SeqCst);
        self.0.store(seen.wrapping_mul(16).wrapping_add(digit), Ordering::SeqCst);
    }
}

// What the backend does with a request: it returns items, or that they are unavailable, or does not
// admit the request, or never answers.
#[derive(Clone, Copy)]
enum Said {
    Items,
    NoItems,
    Refusal,
    Nothing,
}

#[derive(Drop)]
struct Saying {
    alloc: Global,
    said: Said,
}

impl Backend for Saying {
    type Witness = ();

    type Items = Given;

    fn admit(&self, bodies: Bodies) -> Result<Given, Declined<()>> {
        if let Said::Refusal = self.said {
            return Err(Declined {
                fault: PostFault::Refused(Refusal::BadMoment),
                bodies,
                witness: None,
            });
        }
        Ok(Given {
            alloc: self.alloc,
            said: self.said,
            turns: 0,
        })
    }

    fn place(&self, _items: &Given) -> Option<u64> {
        Some(9)
    }
}

// The future of a request's items: ready at its second poll, or never.
#[derive(Drop)]
struct Given {
    alloc: Global,
    said: Said,
    turns: u32,
}

impl Future for Given {
    type Output = Result<Answered<()>, Unanswered<()>>;

    fn poll(&mut self, cx: &mut Context<'_>) -> Poll<Result<Answered<()>, Unanswered<()>>> {
        self.turns = self.turns.saturating_add(1);
        match self.said {
            Said::Items if self.turns > 1 => Poll::Ready(Ok(Answered {
                items: Vec::new(self.alloc),
                witness: (),
            })),
            Said::NoItems if self.turns > 1 => Poll::Ready(Err(Unanswered::Unavailable(()))),
            _ => cx.yield_now(),
        }
    }
}

// Makes an exchange for `ask` over a connection to `service`, and polls it up to three times. Then
// closes the connection.
fn exchange<O: Observer>(
    alloc: Global,
    task: &MockTask,
    service: &BayeuxService<Saying, O>,
    ask: Ask,
) -> Result<(), Fail> {
    let connection = service.clone()?;
    let mut exchange = connection.call(ask.request(alloc)?);
    for _ in 0..3 {
        if task.poll(&mut exchange).is_ready() {
            break;
        }
    }
    Ok(())
}

// Makes an exchange for `ask` with a backend that does `said`, and returns the digits of two
// observers.
fn told(alloc: Global, task: &MockTask, said: Said, ask: Ask) -> Result<(u64, u64), Fail> {
    let one = Arc::new(alloc, Digits(AtomicU64::new(0)))?;
    let two = Arc::new(alloc, Digits(AtomicU64::new(0)))?;
    let pair = (Arc::try_clone(&one)?, Arc::try_clone(&two)?);
    let service = BayeuxService::with_observer(alloc, Saying { alloc, said }, pair)?;
    exchange(alloc, task, &service, ask)?;
    Ok((one.0.load(Ordering::SeqCst), two.0.load(Ordering::SeqCst)))
}

// Checks that two observers each see all events of a connection and its request, in order.
#[test]
fn observers_are_told(rt: HostRuntime) -> Result<(), Fail> {
    let alloc = rt.alloc();
    let task = MockTask::new(&rt)?;
    let post = Ask::post("[]");
    let put = Ask::To("PUT", "/cometd", "");
    for (said, ask, digits) in [
        (Said::Items, post, 0x1_3468_c2),
        (Said::NoItems, post, 0x1_3479_c2),
        (Said::Refusal, post, 0x1_35ad_2),
        (Said::Nothing, post, 0x1_34c2),
        (Said::Items, put, 0x1_3ebd_2),
    ] {
        let told = told(alloc, &task, said, ask)?;
        same(&rt, told, (digits, digits), "digits");
    }
    Ok(())
}

// The digest that `sha256sum` computes of `[{"channel":"/a/b","data":"x"}]`, in hexadecimal.
const EVENT_DIGEST: &str = "f6f2643f1ada2b3a95283ad147b15188884e6deadf53ea95c92c18f9e7155b8d";

// Returns `value`. This compiles only if threads can share `value`.
fn shared<T: Send + Sync>(value: T) -> T {
    value
}

#[test]
fn answers_are_logged(rt: HostRuntime) -> Result<(), Fail> {
    let alloc = rt.alloc();
    let one_event = [event(alloc, "x", 1)?];
    let items = one_event.as_slice();
    let log = Arc::new(alloc, WaitingAnswerLines::new(alloc))?;
    let nobody = shared(AnswerLogger::new(rt, alloc, None));
    let logger = shared(AnswerLogger::new(rt, alloc, Some(Arc::try_clone(&log)?)));
    let last = u64::MAX;
    let line = format!(in alloc; "A {last} {EVENT_DIGEST}\n")?;
    for (place, logged) in [(Some(last), line.as_str()), (None, "")] {
        for event in [
            ServiceEvent::RequestArrived,
            ServiceEvent::Admitted(place),
            ServiceEvent::Refused(RequestError::Unanswered),
            ServiceEvent::Responded(Some(Status::Ok)),
            ServiceEvent::RequestEnded { was_admitted: true },
        ] {
            logger.see(event);
        }
        nobody.see(ServiceEvent::Answered { place, items });
        assert_eq!(rt; log.take(&rt, Vec::new(alloc)).bytes.len(), 0);
        logger.see(ServiceEvent::Answered { place, items });
        let taken = log.take(&rt, Vec::new(alloc));
        assert_eq!(rt; taken.bytes.as_slice(), logged.as_bytes());
    }
    Ok(())
}
