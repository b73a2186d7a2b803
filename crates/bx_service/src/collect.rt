ghost use Rattle.std.specs.Prelude.{◌≡◌, ◌++◌, ◌≤◌, [], OnOk, IfErr, vec_len};
ghost use Rattle.bx_service.specs.Bodies.{Gives, Refuses, data_bytes};

use bytes::{Buf, BufMut};
use futures::task::{Context, Poll};
use futures::{Future, ready};
use http_body::{Body, Frame};
use std::alloc::{AllocError, Global};
use std::mem;

// How many frames one poll takes before it yields to other tasks.
const BUDGET: usize = 64;

/// Why a body was not collected.
#[derive(Clone, Copy, Debug, PartialEq, Eq)]
pub enum CollectError {
    /// The body has more bytes than the limit allows.
    TooLarge,
    /// Reading the body failed, for example because its connection ended.
    Failed,
    Memory,
}

impl From<AllocError> for CollectError {
    ghost use Rattle.bx_service.specs.declared.collect.CollectError.TheVariants.{Memory};

    ghost from_gives = { λ _ fault. fault ≡ Memory };

    fn from(_error: AllocError) -> CollectError {
        CollectError::Memory
    }
}

/// A future of all the data of a body, in one buffer.
///
/// Trailers are dropped. Many small frames do not make the buffer larger than the limit.
#[derive(Drop)]
pub struct Collect<B> {
    alloc: Global,
    body: B,
    limit: usize,
    bytes: Vec<u8>,
    ghost within: { vec_len bytes ≤ limit },
}

impl<B> Collect<B> {
    /// Creates a future that collects `body`, and fails if it has more than `limit` bytes.
    pub fn new(alloc: Global, body: B, limit: usize) -> Collect<B>
        ensures { (result.body ≡ body) × (result.limit ≡ limit) × (result.bytes.items ≡ []) }
    {
        Collect {
            alloc,
            body,
            limit,
            bytes: Vec::new(alloc),
        }
    }
}

impl<B, D> Future for Collect<B>
where
    B: Body<Data = D>,
    D: Buf + Drop,
{
    type Output = Result<Vec<u8>, CollectError>;

    ghost can_poll = { λ c. B.can_poll c.body };

    ghost needs = { λ c. B.needs c.body };

    ghost gives = { λ c. Gives D.unread (B.yields c.body) c.limit c.bytes.items };

    fn poll(&mut self, cx: &mut Context<'_>) -> Poll<Result<Vec<u8>, CollectError>> {
        for _ in 0..BUDGET {
            let frame = match ready!(self.body.poll_frame(cx)) {
                Some(Ok(frame)) => frame,
                Some(Err(_)) => return Poll::Ready(Err(CollectError::Failed)),
                None => {
                    let all = mem::replace(&mut self.bytes, Vec::new(self.alloc));
                    return Poll::Ready(Ok(all));
                }
            };
            if let Err(fault) = add(&mut self.bytes, self.limit, frame) {
                return Poll::Ready(Err(fault));
            }
        }
        cx.yield_now()
    }
}

// Appends the data of `frame`, if any, to `bytes`, unless `bytes` would exceed `limit`.
fn add<D: Buf + Drop>(
    bytes: &mut Vec<u8>,
    limit: usize,
    frame: Frame<D>,
) -> Result<(), CollectError>
    requires { vec_len bytes.old ≤ limit }
    ensures ok { OnOk result (bytes.new.items ≡ bytes.old.items ++ data_bytes D.unread frame) }
    ensures room { vec_len bytes.new ≤ limit }
    ensures err { IfErr result (Refuses limit (bytes.old.items ++ data_bytes D.unread frame)) }
{
    let Ok(data) = frame.into_data() else {
        return Ok(());
    };
    if data.remaining() > limit - bytes.len() {
        return Err(CollectError::TooLarge);
    }
    bytes.put(data)?;
    Ok(())
}
