//! Connections in memory.
ghost use Rattle.std.specs.Prelude.{⊤};

use bytes::{Buf, Bytes};
use futures::task::{Context, Poll};
use std::alloc::{AllocError, Global};
use std::{io, mem};
use tokio::io::{AsyncRead, AsyncWrite};

/// A connection in memory that keeps what is written to it.
///
/// Reads return the bytes `coming`. Once something has been written, they return the bytes `later`.
/// Then they return the end.
#[derive(Drop)]
pub struct Wire {
    coming: Bytes,
    later: Bytes,
    written: Vec<u8>,
}

impl Wire {
    /// Creates a connection that returns `coming`, and `later` once something has been written.
    ///
    /// # Errors
    ///
    /// `AllocError` if memory runs out.
    pub fn new(alloc: Global, coming: &[u8], later: &[u8]) -> Result<Wire, AllocError> {
        Ok(Wire {
            coming: Bytes::copy_from_slice(alloc, coming)?,
            later: Bytes::copy_from_slice(alloc, later)?,
            written: Vec::new(alloc),
        })
    }

    /// Returns all bytes that were written to the connection.
    pub fn into_written(self) -> Vec<u8> {
        let Wire { written, .. } = self;
        written
    }
}

impl AsyncRead for Wire {
    ghost reads = { λ _ _ _. ⊤ };

    ghost is_at_end = { λ _. ⊤ };

    ghost reads_nothing = { λ _. tt };

    ghost reads_in_order = { λ _ _ _ _ _ _ _. tt };

    fn poll_read(&mut self, cx: &mut Context<'_>, buf: &mut [u8]) -> Poll<io::Result<usize>> {
        if self.coming.is_empty() && !self.later.is_empty() {
            if self.written.is_empty() {
                return cx.yield_now();
            }
            mem::swap(&mut self.coming, &mut self.later);
        }
        let count = self.coming.len().min(buf.len());
        buf[..count].copy_from_slice(&self.coming.as_slice()[..count]);
        self.coming.advance(count);
        Poll::Ready(Ok(count))
    }
}

impl AsyncWrite for Wire {
    ghost writes = { λ _ _ _. ⊤ };

    ghost writes_nothing = { λ _. tt };

    ghost writes_in_order = { λ _ _ _ _ _ _ _. tt };

    fn poll_write(&mut self, _cx: &mut Context<'_>, buf: &[u8]) -> Poll<io::Result<usize>> {
        match self.written.extend_from_slice(buf) {
            Ok(()) => Poll::Ready(Ok(buf.len())),
            Err(_) => Poll::Ready(Err(io::Error::from(io::ErrorKind::OutOfMemory))),
        }
    }

    fn poll_flush(&mut self, _cx: &mut Context<'_>) -> Poll<io::Result<()>> {
        Poll::Ready(Ok(()))
    }

    fn poll_shutdown(&mut self, _cx: &mut Context<'_>) -> Poll<io::Result<()>> {
        Poll::Ready(Ok(()))
    }
}
