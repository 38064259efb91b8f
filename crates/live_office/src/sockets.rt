//! The doors of an office: a port of this machine, and a Unix socket.

ghost use Rattle.std.specs.Prelude.{◌≡◌, ◌≢◌};
ghost use Rattle.live_office.specs.declared.door.Access.TheVariants.{Session};

use crate::caller::{Answers, Caller, Connection, TURN};
use crate::closing::Closing;
use crate::door::{Access, Door};
use crate::places::{Place, Places};
use crate::serving::Call;
use crate::socket_file::{SocketFault, bind_socket};
use session_server::ListenFault;
use std::alloc::Global;
use std::io::{BufWriter, Write};
use std::net::{Ipv4Addr, Net, SocketAddr, TcpListener, TcpStream};
use std::os::fd::OwnedFd;
use std::os::unix::net::{UnixListener, UnixStream};
use std::rt::Files;
use std::sync::{Mutex, Wait};
use std::time::{Clock, Duration};
use std::{io, thread};

/// The clerks' door: a port, at which callers have the lines of a session, and `site`. Who finds no place is told `full`.
#[derive(Drop)]
pub struct TcpDoor<'a> {
    alloc: Global,
    listener: TcpListener,
    turn: Mutex<()>,
    closing: &'a Closing,
    places: &'a Places,
}

/// The operators' door: a Unix socket, at which callers have all lines of an office. Where its places are taken, who comes
/// has one that is kept.
#[derive(Drop)]
pub struct UnixDoor<'a> {
    alloc: Global,
    listener: UnixListener,
    turn: Mutex<()>,
    closing: &'a Closing,
    places: &'a Places,
}

// The system lets an `accept` give up after a time, as a read. The library has that setting for connections alone, so the
// socket of the listener takes the type of one for a moment.
fn timed_port(listener: TcpListener) -> io::Result<TcpListener> {
    let socket = TcpStream::from(OwnedFd::from(listener));
    socket.set_read_timeout(Some(Duration::from_millis(TURN)))?;
    Ok(TcpListener::from(OwnedFd::from(socket)))
}

fn timed_socket(listener: UnixListener) -> io::Result<UnixListener> {
    let socket = UnixStream::from(OwnedFd::from(listener));
    socket.set_read_timeout(Some(Duration::from_millis(TURN)))?;
    Ok(UnixListener::from(OwnedFd::from(socket)))
}

impl<'a> TcpDoor<'a> {
    /// A door at this port of 127.0.0.1, until the office closes; `Bind` where there can be none.
    pub fn bind<N: Net<Listener = TcpListener, Stream = TcpStream>>(
        net: &N,
        alloc: Global,
        port: u16,
        closing: &'a Closing,
        places: &'a Places,
    ) -> Result<TcpDoor<'a>, ListenFault> {
        let here = SocketAddr::from((Ipv4Addr::LOCALHOST, port));
        let Ok(listener) = TcpListener::bind(net, here) else {
            return Err(ListenFault::Bind);
        };
        match timed_port(listener) {
            Ok(listener) => Ok(TcpDoor {
                alloc,
                listener,
                turn: Mutex::new(()),
                closing,
                places,
            }),
            Err(_) => Err(ListenFault::Bind),
        }
    }

    // Threads wait here one at a time, so that one alone looks each turn whether the office closes.
    fn accept<T: Wait>(&self, rt: &T) -> io::Result<Connection> {
        let _turn = self.turn.lock(rt);
        if self.closing.is_closing() {
            return Err(io::Error::from(io::ErrorKind::WouldBlock));
        }
        let (stream, _) = self.listener.accept()?;
        Ok(Connection::from(stream))
    }
}

impl<'a> UnixDoor<'a> {
    /// A door at a Unix socket at this path, for its owner alone, until the office closes; it is made in this folder, which is
    /// made for that and removed. A socket that was there is replaced, so the caller knows that no other office listens at it: whoever has the site's file locked.
    ///
    /// Errors are those of `check_socket`, and `Bind`, after which a socket may be there.
    pub fn bind<H: Files + Net>(
        host: &H,
        alloc: Global,
        folder: &str,
        path: &str,
        closing: &'a Closing,
        places: &'a Places,
    ) -> Result<UnixDoor<'a>, SocketFault> {
        let listener = bind_socket(host, alloc, folder, path)?;
        match timed_socket(listener) {
            Ok(listener) => Ok(UnixDoor {
                alloc,
                listener,
                turn: Mutex::new(()),
                closing,
                places,
            }),
            Err(_) => Err(SocketFault::Bind),
        }
    }

    // Threads wait here one at a time, so that one alone looks each turn whether the office closes.
    fn accept<T: Wait>(&self, rt: &T) -> io::Result<Connection> {
        let _turn = self.turn.lock(rt);
        if self.closing.is_closing() {
            return Err(io::Error::from(io::ErrorKind::WouldBlock));
        }
        let (stream, _) = self.listener.accept()?;
        Ok(Connection::from(stream))
    }
}

// A connection that came in, if there is one. After a fault the next can come only after a while.
fn connection<C: Clock>(clock: &C, came: io::Result<Connection>) -> Option<Connection> {
    match came {
        Ok(connection) => Some(connection),
        Err(error) => {
            if error.kind() != io::ErrorKind::WouldBlock {
                thread::sleep(clock, Duration::from_millis(TURN));
            }
            None
        }
    }
}

// What comes from a caller at this place, and what is sent to it.
fn caller<'a>(
    alloc: Global,
    connection: Connection,
    closing: &'a Closing,
    place: Place<'a>,
) -> Option<(Caller<'a>, BufWriter<Answers<'a>>)> {
    let Ok(writer) = connection.timed(place.is_kept()) else {
        return None;
    };
    let Ok(writer) = BufWriter::new(alloc, Answers::new(writer, closing)) else {
        return None;
    };
    Some((Caller::new(connection, closing, place), writer))
}

// The access of a caller at the operators' door.
fn access_at(is_kept: bool) -> Access
    ensures { result ≢ Session }
{
    if is_kept {
        Access::Kept
    } else {
        Access::Operator
    }
}

impl<'a> TcpDoor<'a> {
    // The caller at a connection, once there is a place. Who finds none is told that all are taken.
    fn placed<C: Clock>(
        &self,
        clock: &C,
        mut connection: Connection,
    ) -> Option<(Caller<'a>, BufWriter<Answers<'a>>)> {
        match self.places.find(clock) {
            Some(place) => caller(self.alloc, connection, self.closing, place),
            None => {
                let _ = connection.write(b"full\n");
                None
            }
        }
    }
}

impl<'a> Door<Caller<'a>, BufWriter<Answers<'a>>> for TcpDoor<'a> {
    ghost gives = { λ access. access ≡ Session };

    fn next<T: Wait + Clock>(&self, rt: &T) -> Option<Call<Caller<'a>, BufWriter<Answers<'a>>>> {
        for _ in rt.forever() {
            if self.closing.is_closing() {
                break;
            }
            let Some(connection) = connection(rt, self.accept(rt)) else {
                continue;
            };
            if let Some((reader, writer)) = self.placed(rt, connection) {
                return Some(Call::new(Access::Session, reader, writer));
            }
        }
        None
    }
}

impl<'a> Door<Caller<'a>, BufWriter<Answers<'a>>> for UnixDoor<'a> {
    ghost gives = { λ access. access ≢ Session };

    fn next<T: Wait + Clock>(&self, rt: &T) -> Option<Call<Caller<'a>, BufWriter<Answers<'a>>>> {
        for _ in rt.forever() {
            if self.closing.is_closing() {
                break;
            }
            let Some(connection) = connection(rt, self.accept(rt)) else {
                continue;
            };
            let place = self.places.take();
            let access = access_at(place.is_kept());
            if let Some((reader, writer)) = caller(self.alloc, connection, self.closing, place) {
                return Some(Call::new(access, reader, writer));
            }
        }
        None
    }
}
