//! The part `rounds`: rounds that start with two shards, which one worker advances.
use crate::requests::{add_line, config, response};
use crate::unlike::{Unlike, check};
use bx_advice::{Options, ShardCount, WorkerCount};
use bx_calls::arrival;
use bx_calls::texts::{ACK_CONNECT, ACK_HANDSHAKE, CONNECT, HANDSHAKE, PUBLISH, SUBSCRIBE};
use bx_entry::{Arrival, ByRemainder, Input};
use bx_fanout::{Out, Round, RoundFault};
use bx_shard::OpenGate;
use std::alloc::{AllocError, Global};
use std::sync::Arc;
use std::thread::Threads;

// An upper bound on the inputs of a round.
const MOST_INPUTS: usize = 1_000;

// The bodies of requests, each with its moment in milliseconds.
type Requests = &'static [(u64, &'static str)];

// A run: the requests `first`, a redistribution of the sessions to `shards` shards unless it is
// `None`, and the requests `then`. If `ride` is set, replies carry waiting events.
#[derive(Clone, Copy)]
struct Worked {
    first: Requests,
    shards: Option<usize>,
    then: Requests,
    ride: bool,
}

// A request in which the first session subscribes to `/a/*`, and publishes an event that it
// receives itself.
const SUBSCRIBE_AND_PUBLISH: &str =
    r#"[{"channel":"/meta/subscribe","clientId":"000000000000000000000000000000000000000000000001","subscription":"/a/*"},{"channel":"/a/x","clientId":"000000000000000000000000000000000000000000000001","data":1}]"#;

// A request in which the first session publishes two events, with the data 2 and 3.
const PUBLISH_TWO: &str =
    r#"[{"channel":"/a/y","clientId":"000000000000000000000000000000000000000000000001","data":2},{"channel":"/a/z","clientId":"000000000000000000000000000000000000000000000001","data":3}]"#;

const UNSUBSCRIBE: &str =
    r#"[{"channel":"/meta/unsubscribe","clientId":"000000000000000000000000000000000000000000000001","subscription":"/a/*"}]"#;

// The three requests `ACKNOWLEDGE_..` are connects of the first session that are never held. The
// name of each has the batch that it acknowledges.

const ACKNOWLEDGE_NONE: &str =
    r#"[{"channel":"/meta/connect","clientId":"000000000000000000000000000000000000000000000001","connectionType":"long-polling","ext":{"ack":0},"advice":{"timeout":0}}]"#;

const ACKNOWLEDGE_FIRST: &str =
    r#"[{"channel":"/meta/connect","clientId":"000000000000000000000000000000000000000000000001","connectionType":"long-polling","ext":{"ack":1},"advice":{"timeout":0}}]"#;

const ACKNOWLEDGE_SECOND: &str =
    r#"[{"channel":"/meta/connect","clientId":"000000000000000000000000000000000000000000000001","connectionType":"long-polling","ext":{"ack":2},"advice":{"timeout":0}}]"#;

// A connect of the first session that acknowledges the first batch, held if it gets no events.
const HOLD_FIRST: &str =
    r#"[{"channel":"/meta/connect","clientId":"000000000000000000000000000000000000000000000001","connectionType":"long-polling","ext":{"ack":1}}]"#;

const SUBSCRIBE_BELOW: &str =
    r#"[{"channel":"/meta/subscribe","clientId":"000000000000000000000000000000000000000000000001","subscription":"/a/**"}]"#;

// A publish of the second session to a channel two segments below `/a`.
const PUBLISH_BELOW: &str =
    r#"[{"channel":"/a/b/c","clientId":"000000000000000000000000000000000000000000000002","data":[1, 2]}]"#;

// A run without requests, as a base for others.
const NOTHING: Worked = Worked {
    first: &[],
    shards: None,
    then: &[],
    ride: false,
};

const WORKED: [Worked; 6] = [
    // A publish answers a held connect.
    Worked {
        first: &[
            (0, HANDSHAKE),
            (0, HANDSHAKE),
            (0, SUBSCRIBE),
            (10, CONNECT),
            (20, PUBLISH),
        ],
        ..NOTHING
    },
    // Batches are sent again until they are acknowledged.
    Worked {
        first: &[
            (0, ACK_HANDSHAKE),
            (0, SUBSCRIBE_AND_PUBLISH),
            (1, ACKNOWLEDGE_NONE),
            (2, PUBLISH_TWO),
            (3, ACKNOWLEDGE_NONE),
            (4, UNSUBSCRIBE),
            (5, ACKNOWLEDGE_NONE),
            (6, ACKNOWLEDGE_FIRST),
            (7, ACKNOWLEDGE_SECOND),
        ],
        ..NOTHING
    },
    // The first batch answers a held connect and is sent again. The connect that acknowledges the
    // batch is held until the end.
    Worked {
        first: &[
            (0, ACK_HANDSHAKE),
            (0, HANDSHAKE),
            (0, SUBSCRIBE_BELOW),
            (1, ACK_CONNECT),
            (2, PUBLISH_BELOW),
            (3, ACK_CONNECT),
            (4, HOLD_FIRST),
        ],
        ..NOTHING
    },
    // Sessions are redistributed to five shards while a connect is held.
    Worked {
        first: &[
            (0, HANDSHAKE),
            (0, HANDSHAKE),
            (0, SUBSCRIBE),
            (10, CONNECT),
        ],
        shards: Some(5),
        then: &[(20, PUBLISH)],
        ..NOTHING
    },
    // Sessions are redistributed to one shard while a batch is not yet acknowledged.
    Worked {
        first: &[
            (0, ACK_HANDSHAKE),
            (0, SUBSCRIBE_AND_PUBLISH),
            (1, ACKNOWLEDGE_NONE),
        ],
        shards: Some(1),
        then: &[(2, ACKNOWLEDGE_NONE)],
        ..NOTHING
    },
    // Replies to publishes carry waiting events. In the fifth request, the first event answers the
    // held connect, and a reply carries the second event. The last reply carries no event.
    Worked {
        first: &[
            (0, HANDSHAKE),
            (1, SUBSCRIBE_AND_PUBLISH),
            (2, PUBLISH_TWO),
            (3, CONNECT),
            (4, PUBLISH_TWO),
            (5, UNSUBSCRIBE),
        ],
        ride: true,
        ..NOTHING
    },
];

/// Makes all runs, and returns a line for each response.
///
/// Each line begins with the number of its request in its run, from 1. After the responses of a
/// run, a line is appended for each connect that is still held.
pub fn run<R: Threads + Sync>(rt: &R, alloc: Global) -> Result<String, Unlike> {
    let mut text = String::new(alloc);
    for worked in WORKED {
        make(rt, alloc, worked, &mut text)?;
    }
    Ok(text)
}

// Makes the run `worked`, and appends its lines.
fn make<R: Threads + Sync>(
    rt: &R,
    alloc: Global,
    worked: Worked,
    text: &mut String,
) -> Result<(), Unlike> {
    let outs = Vec::new(alloc);
    let mut dealer = Dealer { rt, alloc, outs };
    let held = dealer.held_after(worked)?;
    add_line(text, dealer.written()?.as_str())?;
    add_held(alloc, held.as_slice(), text)
}

// Appends a line for each connect that is held. `held`: the numbers of their requests, from 0.
fn add_held(alloc: Global, held: &[usize], text: &mut String) -> Result<(), Unlike> {
    for number in held {
        let line = format!(in alloc; "{} held", number.saturating_add(1))?;
        add_line(text, line.as_str())?;
    }
    Ok(())
}

fn placing(alloc: Global) -> Result<Arc<ByRemainder>, Unlike> {
    Ok(Arc::new(alloc, ByRemainder)?)
}

// Creates a round with two shards. `ride`: whether replies carry waiting events.
fn new_round(alloc: Global, ride: bool) -> Result<Round<ByRemainder>, Unlike> {
    let config = config(2)?.with(Options {
        ride,
        anonymous: false,
    });
    let placing = placing(alloc)?;
    Ok(Round::new(alloc, config, placing, WorkerCount::one())?)
}

fn inputs(alloc: Global, requests: Requests) -> Result<Vec<Input>, Unlike> {
    let mut inputs = Vec::new(alloc);
    for (moment, body) in requests {
        inputs.push(input(alloc, *moment, *body)?)?;
    }
    Ok(inputs)
}

fn input(alloc: Global, moment: u64, body: &str) -> Result<Input, AllocError> {
    let arrival = arrival(alloc, body)?;
    Ok(Input::Post(Arrival { moment, ..arrival }))
}

// Returns `round` with its sessions redistributed to `shards` shards, unless this is `None`.
fn redistributed<R: Threads + Sync>(
    rt: &R,
    alloc: Global,
    round: Round<ByRemainder>,
    shards: Option<usize>,
) -> Result<Round<ByRemainder>, Unlike> {
    let Some(shards) = shards else {
        return Ok(round);
    };
    let placing = placing(alloc)?;
    match ShardCount::new(shards) {
        Some(shards) => resharded(rt, alloc, round, shards, placing),
        None => Err(Unlike::Wrong("too many shards")),
    }
}

// Redistributes the sessions of `round`. On an error, retries once with the round that it returns.
fn resharded<R: Threads + Sync>(
    rt: &R,
    alloc: Global,
    round: Round<ByRemainder>,
    shards: ShardCount,
    placing: Arc<ByRemainder>,
) -> Result<Round<ByRemainder>, Unlike> {
    let again = Arc::try_clone(&placing)?;
    match resharded_once(rt, alloc, round, shards, placing) {
        Ok(round) => Ok(round),
        Err(back) => match resharded_once(rt, alloc, back, shards, again) {
            Ok(round) => Ok(round),
            Err(_) => Err(Unlike::Wrong("not redistributed")),
        },
    }
}

// Prover: a function of its own, because a call of `reshard` with other values is proved slowly.
fn resharded_once<R: Threads + Sync>(
    rt: &R,
    alloc: Global,
    round: Round<ByRemainder>,
    shards: ShardCount,
    placing: Arc<ByRemainder>,
) -> Result<Round<ByRemainder>, Round<ByRemainder>> {
    match round.reshard(rt, alloc, shards, placing) {
        Ok(round) => Ok(round),
        Err((back, _)) => Err(back),
    }
}

// Returns the line of a response.
fn line_of(alloc: Global, out: &Out) -> Result<String, Unlike> {
    let Ok(items) = &out.result else {
        return Err(Unlike::Wrong("an input is refused"));
    };
    let body = response(alloc, items.as_slice())?;
    Ok(format!(in alloc; "{} 200 {body}", out.input.saturating_add(1))?)
}

// A runner of requests, and the outs so far.
#[derive(Drop)]
struct Dealer<'a, R> {
    rt: &'a R,
    alloc: Global,
    outs: Vec<Out>,
}

impl<R: Threads + Sync> Dealer<'_, R> {
    // Makes the run `worked` with a new round, and returns the numbers of the requests whose
    // connects are then held.
    fn held_after(&mut self, worked: Worked) -> Result<Vec<usize>, Unlike> {
        let mut round = new_round(self.alloc, worked.ride)?;
        self.deal(&mut round, worked.first)?;
        let mut round = redistributed(self.rt, self.alloc, round, worked.shards)?;
        self.deal(&mut round, worked.then)?;
        Ok(round.held(self.alloc)?)
    }

    // Runs `requests` and appends their outs. If memory runs out, continues once with the requests
    // that were not admitted.
    fn deal(&mut self, round: &mut Round<ByRemainder>, requests: Requests) -> Result<(), Unlike> {
        let inputs = inputs(self.alloc, requests)?;
        match self.run(round, inputs.as_slice())? {
            None => Ok(()),
            Some(admitted) => match inputs.as_slice().get(admitted..) {
                Some(rest) => self.deal_rest(round, rest),
                None => Err(Unlike::Wrong("more was taken in than there is")),
            },
        }
    }

    // Runs `rest` and appends their outs. Checks that the earlier outs stay.
    fn deal_rest(&mut self, round: &mut Round<ByRemainder>, rest: &[Input]) -> Result<(), Unlike> {
        let front = self.written()?;
        check(self.run(round, rest)?.is_none(), "refused once more")?;
        let whole = self.written()?;
        check(
            whole.as_str().starts_with(front.as_str()),
            "what was given did not stay",
        )
    }

    // Runs `inputs` and appends their outs. Returns `None`, or how many inputs were admitted if
    // memory ran out.
    fn run(
        &mut self,
        round: &mut Round<ByRemainder>,
        inputs: &[Input],
    ) -> Result<Option<usize>, Unlike> {
        let before = round.started_inputs();
        if before > MOST_INPUTS || inputs.len() > MOST_INPUTS {
            return Err(Unlike::Wrong("too many inputs"));
        }
        match round.run(self.rt, self.alloc, &OpenGate, inputs, &mut self.outs) {
            Ok(()) => Ok(None),
            Err(RoundFault::Memory { admitted })
                if round.started_inputs() == before.saturating_add(admitted) => {
                Ok(Some(admitted))
            }
            Err(_) => Err(Unlike::Wrong("another number was taken in")),
        }
    }

    // Returns a line for each response so far.
    fn written(&self) -> Result<String, Unlike> {
        let mut text = String::new(self.alloc);
        for out in self.outs.as_slice() {
            add_line(&mut text, line_of(self.alloc, out)?.as_str())?;
        }
        Ok(text)
    }
}
