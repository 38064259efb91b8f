//! Connections that come to a port of this machine.

ghost use Rattle.std.specs.Prelude.{◌≡◌, IfOk, vec_len};

use std::alloc::Global;
use std::net::{Ipv4Addr, Net, SocketAddr, TcpListener, TcpStream};
use thiserror::Error;

/// Why the connections were not taken.
#[derive(Clone, Copy, PartialEq, Eq, Debug, Error)]
pub enum ListenFault {
    #[error("the port could not be taken")]
    Bind,
    #[error("a connection could not be taken")]
    Accept,
    /// The port was not taken.
    #[error("out of memory")]
    Memory,
}

/// Waits for so many connections to this port of 127.0.0.1, and gives them in the order in which they came. A `&` to
/// one is both reader and writer.
///
/// After an error all connections that came are closed.
pub fn listen<N: Net<Listener = TcpListener, Stream = TcpStream>>(
    net: &N,
    alloc: Global,
    port: u16,
    count: usize,
) -> Result<Vec<TcpStream>, ListenFault>
    ensures { IfOk result (λ streams. vec_len streams ≡ count) }
{
    let Ok(mut streams) = Vec::with_capacity(alloc, count) else {
        return Err(ListenFault::Memory);
    };
    let here = SocketAddr::from((Ipv4Addr::LOCALHOST, port));
    let Ok(listener) = TcpListener::bind(net, here) else {
        return Err(ListenFault::Bind);
    };
    for _ in 0..count {
        let Ok((stream, _)) = listener.accept() else {
            return Err(ListenFault::Accept);
        };
        streams.push_reserved(stream);
    }
    Ok(streams)
}
