//! A connection over which a caller sends lines.

ghost use Rattle.std.specs.Prelude.{◌≡◌, ◌≢◌, [], length, take, true, false, None, Ok, IsErr, IfOk, OnErr};
ghost use Rattle.std.specs.Io.{ReadsAtMost, WritesAtMost};
ghost use Rattle.std.specs.Io.KnownBytes.{ReadConsumes, WriteAppends};
ghost use Rattle.live_office.specs.Caller.{is_in_line};

use crate::closing::Closing;
use crate::places::Place;
use std::io::{self, ErrorKind, Read, Write};
use std::net::TcpStream;
use std::os::unix::net::UnixStream;
use std::time::Duration;

/// How long an `accept`, a read or a write waits before it looks whether the office closes, in milliseconds.
pub(crate) const TURN: u64 = 500;

// The same where a caller has a place that is kept.
const KEPT_TURN: u64 = 250;

// For how many turns on end a caller may send nothing: an hour.
const SILENT_TURNS: u32 = 7_200;

// The turn with which a caller may have to give its place up: a second, and half of it at a place that is kept.
const IDLE_TURN: u32 = 1;

// For how many turns on end a caller may read nothing of what is written to it: a minute.
const UNREAD_TURNS: u32 = 120;

// How long a write waits once the office closes, in milliseconds, and how often in all a session may then wait so: a second.
const HURRIED_TURN: u64 = 20;

const HURRIED_TURNS: u32 = 50;

/// A connection at one of the two doors. Two of them may share one connection, which ends with the last.
#[derive(Drop)]
pub enum Connection {
    Tcp { stream: TcpStream },
    Unix { stream: UnixStream },
}

impl From<TcpStream> for Connection {
    fn from(stream: TcpStream) -> Connection {
        Connection::Tcp { stream }
    }
}

impl From<UnixStream> for Connection {
    fn from(stream: UnixStream) -> Connection {
        Connection::Unix { stream }
    }
}

impl Read for Connection {
    fn read(&mut self, buf: &mut [u8]) -> io::Result<usize> {
        match self {
            Connection::Tcp { stream } => stream.read(buf),
            Connection::Unix { stream } => stream.read(buf),
        }
    }
}

impl Write for Connection {
    fn write(&mut self, buf: &[u8]) -> io::Result<usize> {
        match self {
            Connection::Tcp { stream } => stream.write(buf),
            Connection::Unix { stream } => stream.write(buf),
        }
    }

    fn flush(&mut self) -> io::Result<()> {
        Ok(())
    }
}

impl Connection {
    // Sets how long a write waits. Where the system does not take it, a write waits as before.
    fn waits_to_write(&self, milliseconds: u64) {
        let turn = Some(Duration::from_millis(milliseconds));
        let _ = match self {
            Connection::Tcp { stream } => stream.set_write_timeout(turn),
            Connection::Unix { stream } => stream.set_write_timeout(turn),
        };
    }

    // Sets how long a read and a write wait, and gives the connection once more, as a writer.
    pub(crate) fn timed(&self, is_kept: bool) -> io::Result<Connection> {
        let silent = Some(Duration::from_millis(if is_kept { KEPT_TURN } else { TURN }));
        let unread = Some(Duration::from_millis(TURN));
        match self {
            Connection::Tcp { stream } => {
                stream.set_nodelay(true)?;
                stream.set_read_timeout(silent)?;
                stream.set_write_timeout(unread)?;
                Ok(Connection::from(stream.try_clone()?))
            }
            Connection::Unix { stream } => {
                stream.set_read_timeout(silent)?;
                stream.set_write_timeout(unread)?;
                Ok(Connection::from(stream.try_clone()?))
            }
        }
    }
}

/// What is sent to a caller. A write fails where a minute goes by with nothing read; once the office closes, a second in
/// all is waited. After a write that failed each further one fails, and waits for nothing: a buffer before it tries again what
/// it holds.
#[derive(Drop)]
pub struct Answers<'a> {
    connection: Connection,
    closing: &'a Closing,
    is_hurried: bool,
    waited: u32,
    has_failed: bool,
}

impl<'a> Answers<'a> {
    /// What goes over this connection, which gives up after a time.
    pub(crate) fn new(connection: Connection, closing: &'a Closing) -> Answers<'a> {
        Answers {
            connection,
            closing,
            is_hurried: false,
            waited: 0,
            has_failed: false,
        }
    }

    // Waits less for each write once the office closes.
    fn hurry(&mut self) {
        if self.closing.is_closing() && !self.is_hurried {
            self.is_hurried = true;
            self.connection.waits_to_write(HURRIED_TURN);
        }
    }

    // Whether a session waited for too long once the office closes.
    fn is_late(&mut self) -> bool {
        if self.is_hurried && self.waited < HURRIED_TURNS {
            self.waited += 1;
            return false;
        }
        self.is_hurried
    }

    // Writes, as soon as the caller reads.
    fn write_in_time(&mut self, buf: &[u8]) -> io::Result<usize>
        ensures { WritesAtMost result buf.now }
    {
        'turns: for _ in 0..UNREAD_TURNS {
            self.hurry();
            match self.connection.write(buf) {
                Ok(count) => return Ok(count),
                Err(error) => match error.kind() {
                    ErrorKind::WouldBlock => {
                        if self.is_late() {
                            return Err(error);
                        }
                    }
                    ErrorKind::Interrupted => {}
                    _ => return Err(error),
                },
            }
        }
        Err(io::Error::from(ErrorKind::TimedOut))
    }
}

impl Write for Answers<'_> {
    fn write(&mut self, buf: &[u8]) -> io::Result<usize>
        ensures bound { WritesAtMost result buf.now }
        ensures bytes { WriteAppends None None result buf.now }
        ensures failed { OnErr result (self.new.has_failed ≡ true) }
        ensures fails { self.old.has_failed ≡ true → IsErr result }
    {
        if self.has_failed {
            return Err(io::Error::from(ErrorKind::TimedOut));
        }
        let written = self.write_in_time(buf);
        self.has_failed = written.is_err();
        written
    }

    fn flush(&mut self) -> io::Result<()> {
        Ok(())
    }
}

/// What a reader gives that gives up after a time. A read fails where the office closes, where an hour goes by with
/// nothing given, where a second does and the place is given up, and where the reader ends within a line, so that a line
/// that was cut off is not asked.
#[derive(Drop)]
pub struct WholeLines<'a, R: Read + Drop> {
    reader: R,
    closing: &'a Closing,
    place: Option<Place<'a>>,
    is_in_line: bool,
}

fn is_in_line(was: bool, bytes: &[u8]) -> bool
    ensures { result ≡ is_in_line was bytes.now }
{
    let mut begun = was;
    for byte in bytes {
        begun = *byte != b'\n';
    }
    begun
}

impl<'a, R: Read + Drop> WholeLines<'a, R> {
    /// What comes from this reader, from the start of a line.
    pub fn new(reader: R, closing: &'a Closing) -> WholeLines<'a, R>
        ensures reader { result.reader ≡ reader }
        ensures line { result.is_in_line ≡ false }
    {
        WholeLines {
            reader,
            closing,
            place: None,
            is_in_line: false,
        }
    }

    // Whether the place was given up.
    fn is_given_up(&self) -> bool {
        match &self.place {
            Some(place) => place.is_given_up(),
            None => false,
        }
    }

    // Whether the place is given up, since nothing came for so many turns.
    fn gives_up(&self, turn: u32) -> bool {
        match &self.place {
            Some(place) => {
                turn >= IDLE_TURN && (place.is_kept() || !self.is_in_line) && place.give_up()
            }
            None => false,
        }
    }

    // The result of a read of these bytes. An end within a line is a fault.
    fn came(&mut self, bytes: &[u8]) -> io::Result<usize>
        ensures reader { self.new.reader ≡ self.old.reader }
        ensures line { self.new.is_in_line ≡ is_in_line self.old.is_in_line bytes.now }
        ensures all { IfOk result (λ count. count ≡ length bytes.now) }
        ensures none { OnErr result (bytes.now ≡ []) }
        ensures cut_off { self.old.is_in_line ≡ true → result ≢ Ok 0 }
    {
        if bytes.is_empty() && self.is_in_line {
            return Err(io::Error::from(ErrorKind::UnexpectedEof));
        }
        self.is_in_line = is_in_line(self.is_in_line, bytes);
        Ok(bytes.len())
    }
}

impl<R: Read + Drop> Read for WholeLines<'_, R> {
    ghost remaining = { λ c. R.remaining c.reader };

    fn read(&mut self, buf: &mut [u8]) -> io::Result<usize>
        ensures bound { ReadsAtMost result buf.new }
        ensures bytes { ReadConsumes (R.remaining self.old.reader) (R.remaining self.new.reader)
            result buf.new }
        ensures line { IfOk result (λ count. self.new.is_in_line ≡ is_in_line self.old.is_in_line
            (take count buf.new)) }
        ensures cut_off { self.old.is_in_line ≡ true → result ≢ Ok 0 }
    {
        'turns: for turn in 0..SILENT_TURNS {
            if self.closing.is_closing() {
                return Err(io::Error::from(ErrorKind::ConnectionAborted));
            }
            match self.reader.read(buf) {
                Ok(count) => return self.came(&buf[..count]),
                Err(error) => match error.kind() {
                    ErrorKind::WouldBlock => {
                        if self.gives_up(turn) {
                            return Err(io::Error::from(ErrorKind::TimedOut));
                        }
                    }
                    ErrorKind::Interrupted => {}
                    _ => return Err(error),
                },
            }
        }
        Err(io::Error::from(ErrorKind::TimedOut))
    }
}

/// What a caller sends over a connection (`WholeLines`). Who gives a place up is told `idle`.
#[derive(Drop)]
pub struct Caller<'a> {
    lines: WholeLines<'a, Connection>,
}

impl<'a> Caller<'a> {
    /// What comes over this connection, which gives up after a time, from the start of a line, at this place.
    pub(crate) fn new(connection: Connection, closing: &'a Closing, place: Place<'a>) -> Caller<'a>
        ensures { result.lines.is_in_line ≡ false }
    {
        Caller {
            lines: WholeLines {
                reader: connection,
                closing,
                place: Some(place),
                is_in_line: false,
            },
        }
    }
}

impl Read for Caller<'_> {
    fn read(&mut self, buf: &mut [u8]) -> io::Result<usize>
        ensures bound { ReadsAtMost result buf.new }
        ensures bytes { ReadConsumes None None result buf.new }
        ensures line { IfOk result (λ count. self.new.lines.is_in_line ≡ is_in_line
            self.old.lines.is_in_line (take count buf.new)) }
        ensures cut_off { self.old.lines.is_in_line ≡ true → result ≢ Ok 0 }
    {
        match self.lines.read(buf) {
            Ok(count) => Ok(count),
            Err(error) => {
                if self.lines.is_given_up() {
                    let _ = self.lines.reader.write(b"idle\n");
                }
                Err(error)
            }
        }
    }
}
