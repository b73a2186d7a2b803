use crate::context::Context;
use crate::fault::Fault;
use bx_load::read_response;
use mio::net::TcpStream;
use mio::{Interest, Registry, Token};
use std::alloc::Global;
use std::io;
use std::io::{Read, Write};
use std::net::Net;

// The largest input buffer that is kept, in bytes.
const KEPT: usize = 4096;

// The status of a response that has what was asked for.
const OK: u16 = 200;

/// A connection, with the request to write and the response read so far.
#[derive(Drop)]
pub struct Link {
    socket: TcpStream,
    output: String,
    written: usize,
    input: Vec<u8>,
}

impl Link {
    /// Starts to connect to the server, and registers the connection under `token`.
    pub fn open(
        net: &impl Net,
        context: &Context,
        registry: &Registry,
        token: usize,
    ) -> Result<Link, Fault> {
        let mut socket = TcpStream::connect(net, context.address)?;
        let _ = socket.set_nodelay(true);
        let interest = Interest::READABLE | Interest::WRITABLE;
        registry.register(&mut socket, Token(token), interest)?;
        Ok(Link {
            socket,
            output: String::new(context.alloc),
            written: 0,
            input: Vec::new(context.alloc),
        })
    }

    /// Writes what it can of `request` without waiting. The previous request must be answered.
    pub fn send(&mut self, request: String) -> Result<(), Fault> {
        self.output = request;
        self.written = 0;
        self.flush()
    }

    /// Writes as much of the rest of the request as it can without waiting.
    pub fn flush(&mut self) -> Result<(), Fault> {
        for _ in 0..u64::MAX {
            let left = self.output.as_bytes().get(self.written..).unwrap_or(&[]);
            if left.is_empty() {
                break;
            }
            match (&self.socket).write(left) {
                Ok(count) => self.written = self.written.saturating_add(count),
                Err(error) if error.kind() == io::ErrorKind::WouldBlock => break,
                Err(error) if error.kind() == io::ErrorKind::NotConnected => break,
                Err(error) => return Err(error.into()),
            }
        }
        Ok(())
    }

    /// Reads what is available, and appends it to the response.
    ///
    /// `buffer`: scratch space for reading, not empty.
    ///
    /// # Errors
    ///
    /// `Ended` if the server closed the connection, or that of a system call.
    pub fn fill(&mut self, buffer: &mut [u8]) -> Result<(), Fault> {
        for _ in 0..u64::MAX {
            match (&self.socket).read(buffer) {
                Ok(0) => return Err(Fault::Ended),
                Ok(count) => {
                    self.input.extend_from_slice(&buffer[..count])?;
                    // If more data arrives, the poll reports the connection again.
                    if count < buffer.len() {
                        break;
                    }
                }
                Err(error) if error.kind() == io::ErrorKind::WouldBlock => break,
                Err(error) => return Err(error.into()),
            }
        }
        Ok(())
    }

    /// Returns the body of the response, if it is complete.
    ///
    /// # Errors
    ///
    /// `BadResponse` if the response is malformed, its status is not 200, or more data follows.
    pub fn body(&self) -> Result<Option<&[u8]>, Fault> {
        match read_response(self.input.as_slice()) {
            Ok(None) => Ok(None),
            Ok(Some(found)) if found.status == OK && found.end == self.input.len() => {
                Ok(Some(&self.input.as_slice()[found.start..found.end]))
            }
            _ => Err(Fault::BadResponse),
        }
    }

    /// Drops the response, and its memory if that exceeds 4 KiB.
    pub fn forget(&mut self, alloc: Global) {
        if self.input.capacity() > KEPT {
            self.input = Vec::new(alloc);
        } else {
            self.input.clear();
        }
    }
}
