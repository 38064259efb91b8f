//! The commands on a file whose office is open, which go to it by its socket.

use crate::doors::Socket;
use crate::{buffered, not_read, out_of_memory};
use delta_wire::MOST_BYTES;
use operator_cli::{
    CloseFault, Order, Status, ask_office, events_office, export_office, find_office,
    import_office, list_office, shares_office, status_office, tell_close_fault, tell_open,
};
use request_ledger::RequestNumber;
use rights_lattice::SiteId;
use std::io::{self, BufWriter, ErrorKind, Read};
use std::net::Net;
use std::os::unix::net::UnixStream;
use std::rt::Files;
use std::time::Duration;

// How long an office may take to answer, in seconds.
const PATIENCE: u64 = 120;

/// A connection to an open office: where it answers, and where it is asked.
#[derive(Drop)]
struct OfficeConnection {
    answers: UnixStream,
    questions: BufWriter<UnixStream>,
}

fn office_at(rt: &HostRuntime, stream: UnixStream) -> io::Result<OfficeConnection> {
    stream.set_read_timeout(Some(Duration::from_secs(PATIENCE)))?;
    stream.set_write_timeout(Some(Duration::from_secs(PATIENCE)))?;
    let questions = BufWriter::new(rt.alloc(), stream.try_clone()?)?;
    Ok(OfficeConnection {
        answers: stream,
        questions,
    })
}

// The connection to a file's office; None where none is open.
fn connected<H: Files + Net>(
    rt: &HostRuntime,
    host: &H,
    file: &str,
) -> Result<Option<UnixStream>, Status> {
    let Ok(socket) = Socket::of(rt.alloc(), file) else {
        return Err(out_of_memory(rt));
    };
    match UnixStream::connect(host, socket.path()) {
        Ok(stream) => Ok(Some(stream)),
        Err(_) => Ok(None),
    }
}

// The office of a file, if one is open.
fn office_of<H: Files + Net>(
    rt: &HostRuntime,
    host: &H,
    file: &str,
) -> Result<Option<OfficeConnection>, Status> {
    let Some(stream) = connected(rt, host, file)? else {
        return Ok(None);
    };
    match office_at(rt, stream) {
        Ok(office) => Ok(Some(office)),
        Err(_) => Err(tell_close_fault(CloseFault::NotOpen, &mut rt.stderr())),
    }
}

// Whether one of the files has an open office.
fn is_open<H: Files + Net>(rt: &HostRuntime, host: &H, files: &[&str]) -> Result<bool, Status> {
    for file in files {
        if connected(rt, host, file)?.is_some() {
            return Ok(true);
        }
    }
    Ok(false)
}

// What a command comes to that does not go to an office, where one of its files has one that is open.
fn turned_away<H: Files + Net>(
    rt: &HostRuntime,
    host: &H,
    files: &[&str],
) -> Result<Option<Status>, Status> {
    if is_open(rt, host, files)? {
        return Ok(Some(tell_open(&mut rt.stderr())));
    }
    Ok(None)
}

/// What a command asks of an open office.
#[derive(Drop)]
enum Question<'a> {
    Session,
    Find { number: RequestNumber },
    List { event: &'a str },
    Events,
    Shares { event: &'a str },
    Export { to: SiteId },
    Import { bytes: Vec<u8> },
    Status,
}

// What a question comes to at an office.
fn at_office(
    rt: &HostRuntime,
    question: Question<'_>,
    office: OfficeConnection,
) -> Result<Status, Status> {
    let OfficeConnection {
        answers,
        mut questions,
    } = office;
    let alloc = rt.alloc();
    let asked = &mut questions;
    let err = &mut rt.stderr();
    let mut out = buffered(rt)?;
    let status = match question {
        Question::Session => ask_office(alloc, rt.stdin(), answers, asked, &mut out, err),
        Question::Find { number } => find_office(alloc, number, answers, asked, &mut out, err),
        Question::List { event } => list_office(alloc, event, answers, asked, &mut out, err),
        Question::Events => events_office(alloc, answers, asked, &mut out, err),
        Question::Shares { event } => shares_office(alloc, event, answers, asked, &mut out, err),
        Question::Export { to } => export_office(alloc, to, answers, asked, &mut out, err),
        Question::Import { bytes } => {
            import_office(alloc, bytes.as_slice(), answers, asked, &mut out, err)
        }
        Question::Status => status_office(alloc, answers, asked, &mut out, err),
    };
    Ok(status)
}

// What a question comes to at the office of a file, if one is open.
fn visit<H: Files + Net>(
    rt: &HostRuntime,
    host: &H,
    file: &str,
    question: Question<'_>,
) -> Result<Option<Status>, Status> {
    match office_of(rt, host, file)? {
        Some(office) => Ok(Some(at_office(rt, question, office)?)),
        None => Ok(None),
    }
}

// The input, or so much of it as is too long for a message.
fn input_of(rt: &HostRuntime) -> Result<Vec<u8>, Status> {
    let mut bytes = Vec::new(rt.alloc());
    match rt
        .stdin()
        .take(MOST_BYTES as u64 + 1)
        .read_to_end(&mut bytes)
    {
        Ok(_) => Ok(bytes),
        Err(error) if error.kind() == ErrorKind::OutOfMemory => Err(out_of_memory(rt)),
        Err(_) => Err(not_read(rt)),
    }
}

// `import` has read its message before it is connected: whoever is holds one of the office's few places.
fn bring<H: Files + Net>(rt: &HostRuntime, host: &H, file: &str) -> Result<Option<Status>, Status> {
    if !is_open(rt, host, &[file])? {
        return Ok(None);
    }
    let bytes = input_of(rt)?;
    match visit(rt, host, file, Question::Import { bytes })? {
        Some(status) => Ok(Some(status)),
        None => Ok(Some(tell_close_fault(CloseFault::NotOpen, &mut rt.stderr()))),
    }
}

/// What a command comes to where an office has its file open; None where the command is to open the file itself.
pub(crate) fn visited<H: Files + Net>(
    rt: &HostRuntime,
    host: &H,
    order: &Order<'_>,
) -> Result<Option<Status>, Status> {
    match order {
        Order::World
        | Order::Version
        | Order::Init { .. }
        | Order::Close { .. }
        | Order::Backup { .. } => Ok(None),
        Order::Migrate { file }
        | Order::Grow { file, .. }
        | Order::Open { file, .. }
        | Order::Alone { file } => turned_away(rt, host, &[*file]),
        Order::Pair { file, copy } => turned_away(rt, host, &[*file, *copy]),
        Order::Audit { files, .. } | Order::Serve { files, .. } => {
            turned_away(rt, host, files.as_slice())
        }
        Order::Ask { file, .. } => visit(rt, host, file, Question::Session),
        Order::Find { file, number, .. } => {
            visit(rt, host, file, Question::Find { number: *number })
        }
        Order::List { file, event, .. } => visit(rt, host, file, Question::List { event }),
        Order::Events { file, .. } => visit(rt, host, file, Question::Events),
        Order::Shares { file, event, .. } => visit(rt, host, file, Question::Shares { event }),
        Order::Export { file, to, .. } => visit(rt, host, file, Question::Export { to: *to }),
        Order::Import { file, .. } => bring(rt, host, file),
        Order::Status { file, .. } => visit(rt, host, file, Question::Status),
    }
}
