ghost use Rattle.std.specs.Prelude.{◌≡◌};
ghost use Rattle.bx_metrics.specs.Outcomes.{metric_of};

use crate::counts::Counts;
use crate::metric::Metric;
use bx_advice::Outcome;
use bx_message::{Item, Reply};
use bx_service::{Observer, ServiceEvent};

impl Observer for Counts {
    fn see(&self, event: ServiceEvent<'_>) {
        match event {
            ServiceEvent::ConnectionOpened => {
                self.add(Metric::AcceptedConnections, 1);
                self.add(Metric::OpenConnections, 1);
            }
            ServiceEvent::ConnectionClosed => self.remove_one(Metric::OpenConnections),
            ServiceEvent::RequestArrived => self.add(Metric::RequestsInProgress, 1),
            ServiceEvent::Admitted(_) => {
                self.add(Metric::AdmittedRequests, 1);
                self.add(Metric::AdmittedInProgress, 1);
            }
            ServiceEvent::Refused(error) => self.add(Metric::Refused(error), 1),
            ServiceEvent::Answered { place: _, items } => count_all(self, items),
            ServiceEvent::Responded(Some(status)) => self.add(Metric::Responses(status), 1),
            ServiceEvent::Responded(None) => self.add(Metric::MissingResponses, 1),
            ServiceEvent::RequestEnded { was_admitted } => {
                self.remove_one(Metric::RequestsInProgress);
                if was_admitted {
                    self.remove_one(Metric::AdmittedInProgress);
                }
            }
        }
    }
}

fn count_all(counts: &Counts, items: &[Item]) {
    let mut events: u64 = 0;
    for item in items {
        match item {
            Item::EventItem(_) => events = events.saturating_add(1),
            Item::ReplyItem(reply) => counts.add(metric_of(reply), 1),
        }
    }
    if events > 0 {
        counts.add(Metric::Events, events);
    }
}

fn metric_of(reply: &Reply) -> Metric
    ensures { result ≡ metric_of reply.now }
{
    match reply.outcome {
        Outcome::Failed(error) => Metric::ErrorReplies(error),
        _ => Metric::SuccessfulReplies(reply.message_kind),
    }
}
