//! Whether the file of an office is still the one that it holds, and how much of its history is used.

use live_office::{Closing, Gauge};
use std::io::{self, ErrorKind};
use std::os::unix::fs::MetadataExt;
use std::time::Duration;
use std::{fs, thread};

// How long is waited until it is looked whether the office closes, in milliseconds, and for how many of these the file is
// not looked at: a second.
const PAUSE: u64 = 20;

const PAUSES: u64 = 50;

/// Which file it is.
#[derive(Clone, Copy, PartialEq, Eq)]
pub(crate) struct FileId {
    device: u64,
    inode: u64,
}

impl FileId {
    /// Whether the other is on the same device.
    pub(crate) fn is_beside(self, other: FileId) -> bool {
        self.device == other.device
    }
}

/// Which file is at this path, if there is one.
pub(crate) fn id_at(rt: &HostRuntime, path: &str) -> io::Result<Option<FileId>> {
    match fs::metadata(rt, path) {
        Ok(about) => Ok(Some(FileId {
            device: about.dev(),
            inode: about.ino(),
        })),
        Err(error) => match error.kind() {
            ErrorKind::NotFound | ErrorKind::NotADirectory => Ok(None),
            _ => Err(error),
        },
    }
}

// Whether another file is at the path than this, or none. Where the system does not say, it is taken to be this.
fn is_other(rt: &HostRuntime, path: &str, held: Option<FileId>) -> bool {
    match id_at(rt, path) {
        Ok(now) => now != held,
        Err(_) => false,
    }
}

/// The file of an office and its log, as the office holds them.
#[derive(Drop)]
pub(crate) struct Held<'a> {
    path: &'a str,
    log: String,
    file: FileId,
    log_file: Option<FileId>,
}

impl<'a> Held<'a> {
    /// The file at this path, which was this one before it was opened, and its log.
    pub(crate) fn of(rt: &HostRuntime, path: &'a str, file: FileId) -> io::Result<Held<'a>> {
        let real = fs::canonicalize(rt, path)?;
        let log = format!(in rt.alloc(); "{}-wal", real.as_str())?;
        let log_file = id_at(rt, log.as_str())?;
        Ok(Held {
            path,
            log,
            file,
            log_file,
        })
    }

    /// The path, as it was given.
    pub(crate) fn path(&self) -> &'a str {
        self.path
    }

    /// Whether another file is at the path, or none.
    pub(crate) fn is_lost(&self, rt: &HostRuntime) -> bool {
        is_other(rt, self.path, Some(self.file))
    }

    /// The same of its log.
    pub(crate) fn is_log_lost(&self, rt: &HostRuntime) -> bool {
        is_other(rt, self.log.as_str(), self.log_file)
    }
}

// Looks whether file and log are still those.
fn look(rt: &HostRuntime, held: &Held<'_>, closing: &Closing) {
    if held.is_lost(rt) || held.is_log_lost(rt) {
        closing.lost();
    }
}

// How many of a hundred entries are used when it is told, once each.
const MARKS: [u64; 3] = [90, 95, 99];

/// How much is used of the entries that new requests may have, and the last mark that was told.
#[derive(Drop)]
pub(crate) struct Fill<'a> {
    gauge: &'a Gauge,
    most: u64,
    told: u64,
}

impl<'a> Fill<'a> {
    /// Nothing was told of this gauge; new requests may have so many entries.
    pub(crate) fn new(gauge: &'a Gauge, most: u64) -> Fill<'a> {
        Fill {
            gauge,
            most,
            told: 0,
        }
    }

    // Tells the last mark that was passed, if it was not told.
    fn tell(&mut self, rt: &HostRuntime) {
        let entries = self.gauge.entries();
        let mut passed = 0;
        for mark in &MARKS {
            if entries.saturating_mul(100) >= self.most.saturating_mul(*mark) {
                passed = *mark;
            }
        }
        if self.most > 0 && passed > self.told {
            self.told = passed;
            let _ = eprintln!(rt;
                "filled {passed} of 100: {entries} of {} entries",
                self.most
            );
        }
    }
}

fn look_at_all(rt: &HostRuntime, held: &Held<'_>, copy: Option<&Held<'_>>, closing: &Closing) {
    look(rt, held, closing);
    if let Some(copy) = copy {
        look(rt, copy, closing);
    }
}

/// Looks each second whether file and log are still those that the office holds, of its copy too if it has one, and once
/// more as it closes. Where they are not, the office closes. Nothing of them is read or changed. It tells too when the
/// history is nearly full.
pub(crate) fn watch(
    rt: &HostRuntime,
    held: &Held<'_>,
    copy: Option<&Held<'_>>,
    closing: &Closing,
    mut fill: Fill<'_>,
) {
    for turn in 0..u64::MAX {
        if closing.is_closing() {
            break;
        }
        if turn % PAUSES == 0 {
            look_at_all(rt, held, copy, closing);
            fill.tell(rt);
        }
        thread::sleep(rt, Duration::from_millis(PAUSE));
    }
    look_at_all(rt, held, copy, closing);
    fill.tell(rt);
    closing.looked();
}
