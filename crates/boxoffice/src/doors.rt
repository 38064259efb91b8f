//! The socket beside the file of an office, and how an office is closed by it.

use live_office::{SocketFault, check_socket, remove_socket};
use operator_cli::CloseFault;
use std::alloc::{AllocError, Global};
use std::io::{self, ErrorKind, Read, Write};
use std::net::Net;
use std::os::unix::fs::MetadataExt;
use std::os::unix::net::UnixStream;
use std::rt::Files;
use std::time::{Clock, Duration};
use std::{fs, thread};

// How often an office is told to close, or it is looked whether it has, and how long is waited in between, in milliseconds:
// two minutes.
const LOOKS: u64 = 2_400;

const PAUSE: u64 = 50;

// How long an office may take to end a connection, in seconds, and the most bytes of its answer to `close`.
const PATIENCE: u64 = 120;

const MOST_BYTES: u64 = 64;

/// Which socket it is: a file that is made later in its place is another.
#[derive(Clone, Copy, PartialEq, Eq)]
struct SocketId {
    device: u64,
    inode: u64,
    made: i64,
    made_nanoseconds: i64,
}

/// What an office says to `close`.
#[derive(Clone, Copy, PartialEq, Eq)]
enum Heard {
    /// It closes.
    Closing,
    /// It closes, and its file is not the one that it holds.
    Lost,
    /// The connection ended without a word.
    Nothing,
    /// It neither says a word nor ends the connection.
    Silence,
}

/// What a caller finds at a socket.
#[derive(Drop)]
enum Found {
    /// A connection to the office whose socket this is.
    Office { stream: UnixStream, id: SocketId },
    /// Nobody listens.
    Nobody,
}

// Which socket is at this path, if anything is.
fn id_at<F: Files>(files: &F, path: &str) -> Option<SocketId> {
    let Ok(about) = fs::symlink_metadata(files, path) else {
        return None;
    };
    Some(SocketId {
        device: about.dev(),
        inode: about.ino(),
        made: about.mtime(),
        made_nanoseconds: about.mtime_nsec(),
    })
}

// Who listens at this path.
fn who_listens<H: Files + Net>(host: &H, path: &str) -> io::Result<Found> {
    let Some(id) = id_at(host, path) else {
        return Ok(Found::Nobody);
    };
    match UnixStream::connect(host, path) {
        Ok(stream) => Ok(Found::Office { stream, id }),
        Err(error) => match error.kind() {
            ErrorKind::NotFound | ErrorKind::ConnectionRefused => Ok(Found::Nobody),
            _ => Err(error),
        },
    }
}

// Reads a connection to its end.
fn hear(alloc: Global, stream: UnixStream) -> io::Result<Heard> {
    stream.set_read_timeout(Some(Duration::from_secs(PATIENCE)))?;
    let mut bytes = Vec::new(alloc);
    match stream.take(MOST_BYTES).read_to_end(&mut bytes) {
        Ok(_) => {}
        Err(error) => match error.kind() {
            ErrorKind::WouldBlock => return Ok(Heard::Silence),
            ErrorKind::OutOfMemory => return Err(error),
            _ => {}
        },
    }
    let bytes = bytes.as_slice();
    if bytes == b"closing\n".as_slice() {
        Ok(Heard::Closing)
    } else if bytes == b"lost-file\n".as_slice() {
        Ok(Heard::Lost)
    } else {
        Ok(Heard::Nothing)
    }
}

// Says `close`, and hears what the office says to it.
fn told(alloc: Global, mut stream: UnixStream) -> io::Result<Heard> {
    if stream.write_all(b"close\n").is_err() {
        return Ok(Heard::Nothing);
    }
    hear(alloc, stream)
}

/// A file, where the socket of its office is, where it is put aside while the office closes, and where it is made.
#[derive(Drop)]
pub(crate) struct Socket {
    file: String,
    path: String,
    aside: String,
    folder: String,
}

impl Socket {
    /// The socket of this file's office, at FILE-sock, and aside at FILE-shut. It is made in the folder FILE-in.
    pub(crate) fn of(alloc: Global, file: &str) -> Result<Socket, AllocError> {
        let name = String::from_str(alloc, file)?;
        let mut path = String::from_str(alloc, file)?;
        path.push_str("-sock")?;
        let mut aside = String::from_str(alloc, file)?;
        aside.push_str("-shut")?;
        let mut folder = String::from_str(alloc, file)?;
        folder.push_str("-in")?;
        Ok(Socket {
            file: name,
            path,
            aside,
            folder,
        })
    }

    /// Where callers come in.
    pub(crate) fn path(&self) -> &str {
        self.path.as_str()
    }

    /// The folder in which the socket is made.
    pub(crate) fn folder(&self) -> &str {
        self.folder.as_str()
    }

    /// Whether a socket can be at both places, and nothing else is there. Nothing is changed.
    pub(crate) fn check<F: Files>(&self, files: &F) -> Result<(), SocketFault> {
        check_socket(files, self.path.as_str())?;
        check_socket(files, self.aside.as_str())
    }

    /// Puts the socket aside, where no caller looks for it. Where it cannot be, it is removed.
    pub(crate) fn put_aside<F: Files>(&self, files: &F) {
        if check_socket(files, self.aside.as_str()).is_err()
            || fs::rename(files, self.path.as_str(), self.aside.as_str()).is_err()
        {
            remove_socket(files, self.path.as_str());
        }
    }

    /// Removes the socket that was put aside.
    pub(crate) fn remove<F: Files>(&self, files: &F) {
        if check_socket(files, self.aside.as_str()).is_ok() {
            remove_socket(files, self.aside.as_str());
        }
    }

    // Whether an office still listens at one of the two places: a connection to it, which ends when it does.
    fn listens<H: Files + Net>(
        &self,
        host: &H,
        office: SocketId,
    ) -> io::Result<Option<UnixStream>> {
        for path in [self.path.as_str(), self.aside.as_str()] {
            if let Found::Office { stream, id } = who_listens(host, path)? {
                if id == office {
                    return Ok(Some(stream));
                }
            }
        }
        Ok(None)
    }

    // What the end of an office comes to that said no word of it: its file may be gone.
    fn ended<F: Files>(&self, files: &F) -> Option<CloseFault> {
        match fs::exists(files, self.file.as_str()) {
            Ok(false) => Some(CloseFault::LostFile),
            _ => None,
        }
    }

    // Waits until an office that closes has ended.
    fn await_end<H: Clock + Files + Net>(
        &self,
        host: &H,
        alloc: Global,
        office: SocketId,
    ) -> io::Result<Option<CloseFault>> {
        for _ in 0..LOOKS {
            match self.listens(host, office)? {
                None => return Ok(self.ended(host)),
                Some(stream) => {
                    if hear(alloc, stream)? == Heard::Silence {
                        return Ok(Some(CloseFault::StillOpen));
                    }
                }
            }
            thread::sleep(host, Duration::from_millis(PAUSE));
        }
        Ok(Some(CloseFault::StillOpen))
    }

    // What is at the place where an office puts its socket aside: an office that closes, for which is waited, or none.
    fn await_aside<H: Clock + Files + Net>(
        &self,
        host: &H,
        alloc: Global,
        was_told: bool,
    ) -> io::Result<Option<CloseFault>> {
        match who_listens(host, self.aside.as_str())? {
            Found::Office { id, .. } => self.await_end(host, alloc, id),
            Found::Nobody => {
                if was_told {
                    Ok(self.ended(host))
                } else {
                    Ok(Some(CloseFault::NotOpen))
                }
            }
        }
    }

    /// Has the office close, and waits until it has; says why it did not, if it did not. Where a connection ends without a
    /// word, `close` is said again.
    pub(crate) fn close<H: Clock + Files + Net>(
        &self,
        host: &H,
        alloc: Global,
    ) -> io::Result<Option<CloseFault>> {
        let mut was_told = false;
        for _ in 0..LOOKS {
            let Found::Office { stream, id } = who_listens(host, self.path.as_str())? else {
                return self.await_aside(host, alloc, was_told);
            };
            match told(alloc, stream)? {
                Heard::Closing => return self.await_end(host, alloc, id),
                Heard::Lost => {
                    let fault = self.await_end(host, alloc, id)?;
                    return Ok(Some(fault.unwrap_or(CloseFault::LostFile)));
                }
                Heard::Silence => return Ok(Some(CloseFault::StillOpen)),
                Heard::Nothing => was_told = true,
            }
            thread::sleep(host, Duration::from_millis(PAUSE));
        }
        Ok(Some(CloseFault::StillOpen))
    }
}
