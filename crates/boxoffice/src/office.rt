//! The office of a site whose records are in one file.

use crate::doors::Socket;
use crate::files::{FileFault, failed};
use crate::watch::{FileId, Fill, Held, id_at, watch};
use crate::{Shelf, close_site, open_site, out_of_memory};
use live_office::{Closing, Gauge, Places, Sparing, TcpDoor, UnixDoor};
use operator_cli::{
    CloseFault, Status, office_store, tell_close_fault, tell_listen_fault, tell_socket_fault,
};
use site_desk::SiteBook;
use sql_records::Records;
use sqlite::{Alter, Connection};
use std::io::{self, ErrorKind};
use std::net::{Net, TcpListener, TcpStream};
use std::rt::Files as Paths;
use std::sync::Wait;
use std::thread::{Threads, join};
use std::time::Clock;

// An office whose doors these are, whatever the records of its site stand in.
fn office<S: Alter + Drop + Send>(
    rt: &HostRuntime,
    host: &(impl Threads + Wait + Clock + Sync),
    site: SiteBook<Records<S>>,
    port: u16,
    file: &str,
    clerks: &TcpDoor<'_>,
    operators: &UnixDoor<'_>,
    closing: &Closing,
    gauge: &Gauge,
    sparing: Sparing,
) -> (Status, Option<Connection<S>>) {
    office_store(
        host,
        rt.alloc(),
        site,
        port,
        file,
        clerks,
        operators,
        closing,
        gauge,
        sparing,
        &mut rt.stdout(),
        &mut rt.stderr(),
    )
}

// The same, while the file is watched. Where that is lost the office fails, and its connection comes back only where the
// file is there to take what stands in the log.
fn office_watched<S: Alter + Drop + Send>(
    rt: &HostRuntime,
    host: &(impl Threads + Wait + Clock + Sync),
    site: SiteBook<Records<S>>,
    port: u16,
    held: &Held<'_>,
    clerks: &TcpDoor<'_>,
    operators: &UnixDoor<'_>,
    closing: &Closing,
    gauge: &Gauge,
    sparing: Sparing,
) -> (Status, Option<Connection<S>>) {
    let limit = site.book().limit().entries();
    let fill = Fill::new(gauge, limit.saturating_sub(sparing.reserve));
    // The watch is first: a first closure that gets no thread runs when the second has ended.
    let ((), came) = join(
        host,
        move || watch(rt, held, None, closing, fill),
        move || {
            let came = office(
                rt,
                host,
                site,
                port,
                held.path(),
                clerks,
                operators,
                closing,
                gauge,
                sparing,
            );
            closing.ended();
            came
        },
    );
    came
}

// What an office comes to whose file was lost or not, once what can be is stored in it.
fn close_office<S: Alter + Drop, H: Shelf<Connection<S>>>(
    rt: &HostRuntime,
    shelf: &H,
    held: &Held<'_>,
    closing: &Closing,
    came: (Status, Option<Connection<S>>),
) -> Status {
    if !closing.is_lost() {
        return shelf.close(rt, came);
    }
    // What only the log holds is left in it where the file is lost.
    if !held.is_lost(rt) {
        let _ = shelf.close(rt, came);
    }
    tell_close_fault(CloseFault::LostFile, &mut rt.stderr())
}

/// The file of an office, which was this one before it was opened. Where there was none, it is lost.
pub(crate) fn file_held<'a>(
    rt: &HostRuntime,
    file: &'a str,
    before: io::Result<Option<FileId>>,
) -> io::Result<Held<'a>> {
    match before? {
        Some(id) => Held::of(rt, file, id),
        None => Err(io::Error::from(ErrorKind::NotFound)),
    }
}

/// Tells why it is not known which file an office holds.
pub(crate) fn tell_not_held(rt: &HostRuntime, error: &io::Error) -> Status {
    match error.kind() {
        ErrorKind::OutOfMemory => out_of_memory(rt),
        ErrorKind::NotFound => tell_close_fault(CloseFault::LostFile, &mut rt.stderr()),
        _ => failed(rt, FileFault::Disk),
    }
}

/// Keeps the office of a site open until it closes. Its socket is put aside while the file is locked, so
/// that none of another office is; and it goes once the file is closed, so that whoever waits for that finds a file to open.
pub(crate) fn run_open<S: Alter + Drop + Send, H: Shelf<Connection<S>>>(
    rt: &HostRuntime,
    host: &(impl Threads
        + Wait
        + Clock
        + Sync
        + Paths
        + Net<Listener = TcpListener, Stream = TcpStream>),
    port: u16,
    file: &str,
    sparing: Sparing,
    shelf: &H,
) -> Result<Status, Status> {
    let Ok(socket) = Socket::of(rt.alloc(), file) else {
        return Ok(out_of_memory(rt));
    };
    if let Err(fault) = socket.check(host) {
        return Ok(tell_socket_fault(fault, &mut rt.stderr()));
    }
    let before = id_at(rt, file);
    let site = open_site(rt, file, shelf)?;
    let held = match file_held(rt, file, before) {
        Ok(held) => held,
        Err(error) => return Ok(close_site(rt, shelf, tell_not_held(rt, &error), site)),
    };
    let closing = Closing::watched();
    let (at_port, at_socket) = (Places::of_clerks(), Places::of_operators());
    let clerks = match TcpDoor::bind(host, rt.alloc(), port, &closing, &at_port) {
        Ok(clerks) => clerks,
        Err(fault) => {
            let status = tell_listen_fault(fault, &mut rt.stderr());
            return Ok(close_site(rt, shelf, status, site));
        }
    };
    let operators = match UnixDoor::bind(
        host,
        rt.alloc(),
        socket.folder(),
        socket.path(),
        &closing,
        &at_socket,
    ) {
        Ok(operators) => operators,
        Err(fault) => {
            let status = tell_socket_fault(fault, &mut rt.stderr());
            return Ok(close_site(rt, shelf, status, site));
        }
    };
    let gauge = Gauge::new(site.book().len() as u64);
    let came = office_watched(
        rt, host, site, port, &held, &clerks, &operators, &closing, &gauge, sparing,
    );
    socket.put_aside(host);
    let status = close_office(rt, shelf, &held, &closing, came);
    socket.remove(host);
    Ok(status)
}
