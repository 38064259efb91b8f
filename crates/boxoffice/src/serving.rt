//! Sites that run in one process, each with callers of its own.

use crate::connections::visits;
use crate::copies::{Either, close_both, open_both};
use crate::{Shelf, buffered, close_all, keep, open_all, out_of_memory};
use history_keeper::Keeper;
use operator_cli::{
    FileNames, Status, refuse_parts, refuse_unpaired, serve_stores, tell_listen_fault,
};
use paired_records::Pair;
use session_server::{SiteEnd, Visit, listen};
use site_desk::SiteBook;
use sqlite::{Alter, Connection};
use std::alloc::Global;
use std::io::{BufWriter, Read, Stdout, Write};
use std::net::{Net, TcpListener, TcpStream};
use std::sync::Wait;
use std::thread::Threads;

// The connections that are made to the port.
fn callers(
    rt: &HostRuntime,
    host: &impl Net<Listener = TcpListener, Stream = TcpStream>,
    port: u16,
    sessions: usize,
) -> Result<Vec<TcpStream>, Status> {
    match listen(host, rt.alloc(), port, sessions) {
        Ok(streams) => Ok(streams),
        Err(fault) => Err(tell_listen_fault(fault, &mut rt.stderr())),
    }
}

// The ends of these sites once they have run with their visits, whatever their records stand in and whoever visits.
fn served<
    K: Keeper + Drop + Send,
    R: Read + Drop + Send,
    V: Write + Drop + Send,
    W: Write,
    E: Write,
>(
    alloc: Global,
    host: &(impl Threads + Wait + Sync),
    sites: Vec<SiteBook<K>>,
    visits: Vec<Visit<R, V>>,
    rounds: u64,
    out: &mut W,
    err: &mut E,
) -> (Status, Option<Vec<SiteEnd<K, R, V>>>) {
    serve_stores(host, alloc, sites, visits, rounds, out, err)
}

// The books of sites that have come to their end.
fn books_of<K: Keeper + Drop, R: Read + Drop, V: Write + Drop>(
    rt: &HostRuntime,
    ends: Vec<SiteEnd<K, R, V>>,
    books: &mut Vec<SiteBook<K>>,
) -> Result<(), Status> {
    for SiteEnd { book, .. } in ends {
        keep(rt, books, book)?;
    }
    Ok(())
}

// Runs the sites, whose callers are there. Their books come back, unless that failed.
fn serve_callers<K: Keeper + Drop + Send>(
    rt: &HostRuntime,
    host: &(impl Threads + Wait + Sync),
    sites: Vec<SiteBook<K>>,
    streams: &[TcpStream],
    rounds: u64,
    out: &mut BufWriter<Stdout>,
) -> (Status, Vec<SiteBook<K>>) {
    let Ok(visits) = visits(rt.alloc(), streams) else {
        return (out_of_memory(rt), sites);
    };
    let mut books = Vec::new(rt.alloc());
    let (mut status, ends) = served(
        rt.alloc(),
        host,
        sites,
        visits,
        rounds,
        out,
        &mut rt.stderr(),
    );
    if let Some(ends) = ends
        && let Err(fault) = books_of(rt, ends, &mut books)
    {
        status = fault;
    }
    (status, books)
}

// Runs these sites, which are known to be all, for so many callers. Nobody can connect before all sites are open.
fn serve_sites<K: Keeper + Drop + Send>(
    rt: &HostRuntime,
    host: &(impl Threads + Wait + Sync + Net<Listener = TcpListener, Stream = TcpStream>),
    sites: Vec<SiteBook<K>>,
    port: u16,
    sessions: usize,
    rounds: u64,
    out: &mut BufWriter<Stdout>,
) -> (Status, Vec<SiteBook<K>>) {
    if let Some(status) = refuse_parts(rt.alloc(), sites.as_slice(), out, &mut rt.stderr()) {
        return (status, sites);
    }
    match callers(rt, host, port, sessions) {
        Ok(streams) => serve_callers(rt, host, sites, streams.as_slice(), rounds, out),
        Err(status) => (status, sites),
    }
}

/// Runs the sites of these files.
pub(crate) fn run_serve<S: Alter + Drop + Send, H: Shelf<Connection<S>>>(
    rt: &HostRuntime,
    host: &(impl Threads + Wait + Sync + Net<Listener = TcpListener, Stream = TcpStream>),
    files: &FileNames<'_>,
    port: u16,
    sessions: usize,
    rounds: u64,
    shelf: &H,
) -> Result<Status, Status> {
    let mut out = buffered(rt)?;
    let mut sites = Vec::new(rt.alloc());
    if let Err(status) = open_all(rt, files, shelf, &mut sites) {
        return Ok(close_all(rt, shelf, status, sites));
    }
    let (status, sites) = serve_sites(rt, host, sites, port, sessions, rounds, &mut out);
    Ok(close_all(rt, shelf, status, sites))
}

// The book of each site over both of its files, put behind those before it.
fn open_pairs<S: Alter + Drop, H: Shelf<Connection<S>>>(
    rt: &HostRuntime,
    files: &[&str],
    copies: &[&str],
    shelf: &H,
    sites: &mut Vec<SiteBook<Pair<S, Either>>>,
) -> Result<(), Status> {
    for (file, copy) in files.iter().zip(copies.iter()) {
        let site = open_both(rt, file, copy, shelf)?;
        keep(rt, sites, site)?;
    }
    Ok(())
}

fn close_pairs<S: Alter + Drop, H: Shelf<Connection<S>>>(
    rt: &HostRuntime,
    shelf: &H,
    mut status: Status,
    sites: Vec<SiteBook<Pair<S, Either>>>,
) -> Status {
    for site in sites {
        status = close_both(rt, shelf, status, site);
    }
    status
}

/// Runs the sites of these files, each with its copy.
pub(crate) fn run_serve_copies<S: Alter + Drop + Send, H: Shelf<Connection<S>>>(
    rt: &HostRuntime,
    host: &(impl Threads + Wait + Sync + Net<Listener = TcpListener, Stream = TcpStream>),
    files: &[&str],
    copies: &[&str],
    port: u16,
    sessions: usize,
    rounds: u64,
    shelf: &H,
) -> Result<Status, Status> {
    if files.len() != copies.len() {
        return Ok(refuse_unpaired(&mut rt.stdout(), &mut rt.stderr()));
    }
    let mut out = buffered(rt)?;
    let mut sites = Vec::new(rt.alloc());
    if let Err(status) = open_pairs(rt, files, copies, shelf, &mut sites) {
        return Ok(close_pairs(rt, shelf, status, sites));
    }
    let (status, sites) = serve_sites(rt, host, sites, port, sessions, rounds, &mut out);
    Ok(close_pairs(rt, shelf, status, sites))
}
