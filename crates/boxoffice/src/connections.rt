//! The connections that sessions come over.

use session_server::Visit;
use std::alloc::{AllocError, Global};
use std::io::{self, Read};
use std::net::{Shutdown, TcpStream};

/// What comes over a connection. It ends the connection once it is let go, so that who called sees the end of the session.
pub(crate) struct Caller<'a>(&'a TcpStream);

impl Read for Caller<'_> {
    fn read(&mut self, buf: &mut [u8]) -> io::Result<usize> {
        let mut stream = self.0;
        stream.read(buf)
    }
}

impl Drop for Caller<'_> {
    fn drop(self) {
        let Caller(stream) = self;
        let _ = stream.shutdown(Shutdown::Both);
    }
}

/// The visits over these connections, numbered from 0. Each reply is sent at once.
pub(crate) fn visits(
    alloc: Global,
    streams: &[TcpStream],
) -> Result<Vec<Visit<Caller<'_>, &TcpStream>>, AllocError> {
    let mut visits = Vec::new(alloc);
    for (id, stream) in streams.iter().enumerate() {
        let _ = stream.set_nodelay(true);
        visits.push(Visit {
            id: id as u64,
            reader: Caller(stream),
            writer: stream,
        })?;
    }
    Ok(visits)
}
