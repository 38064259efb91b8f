//! An open office at doors that hold their callers until all are in: what each was answered, as text.
//!
//! Each test ends by itself, and finds the same whatever the schedule.
ghost use Rattle.std.specs.Prelude.{◌≡◌};
ghost use Rattle.live_office.specs.declared.door.Access.TheVariants.{Session, Operator as AllLines};

use crate::books::talked;
use crate::said::{SiteNumbers, book_of};
use history_keeper::ListKeeper;
use live_office::{Access, Call, Closing, Door, Gauge, Sparing, open_office};
use rights_lattice::Event;
use site_desk::SiteBook;
use std::alloc::Global;
use std::io::{self, Read, Write};
use std::process::Abort;
use std::sync::atomic::{AtomicU64, Ordering};
use std::sync::{Mutex, Wait};
use std::thread;
use std::thread::Threads;
use std::time::Clock;

// Where callers wait for one another before they send anything.
#[derive(Drop)]
struct Meeting {
    wanted: u64,
    came: AtomicU64,
    missed: AtomicU64,
}

impl Meeting {
    fn of(wanted: u64) -> Meeting {
        Meeting {
            wanted,
            came: AtomicU64::new(0),
            missed: AtomicU64::new(0),
        }
    }

    // Waits until all are in, for some turns.
    fn wait(&self) {
        self.came.fetch_add(1, Ordering::SeqCst);
        for _ in 0..1_000_000u64 {
            if self.came.load(Ordering::SeqCst) >= self.wanted {
                return;
            }
            thread::yield_now();
        }
        self.missed.store(1, Ordering::SeqCst);
    }
}

// What a caller sends. One who meets others sends nothing before they are in.
#[derive(Clone, Copy)]
struct Sends<'a> {
    bytes: &'static [u8],
    meeting: Option<&'a Meeting>,
}

impl Read for Sends<'_> {
    fn read(&mut self, buf: &mut [u8]) -> io::Result<usize> {
        if let Some(meeting) = self.meeting {
            meeting.wait();
            self.meeting = None;
        }
        self.bytes.read(buf)
    }
}

// Where what a caller is answered is kept.
#[derive(Drop)]
struct Page<'a, T: Wait> {
    rt: &'a T,
    text: &'a Mutex<Vec<u8>>,
}

impl<T: Wait> Write for Page<'_, T> {
    fn write(&mut self, buf: &[u8]) -> io::Result<usize> {
        let mut text = self.text.lock(self.rt);
        match text.extend_from_slice(buf) {
            Ok(()) => Ok(buf.len()),
            Err(_) => Err(io::ErrorKind::OutOfMemory.into()),
        }
    }

    fn flush(&mut self) -> io::Result<()> {
        Ok(())
    }
}

// Callers who come in one by one, and after the last of them none.
#[derive(Drop)]
struct Coming<'a, T: Wait> {
    rt: &'a T,
    callers: Mutex<Vec<(Sends<'a>, &'a Mutex<Vec<u8>>)>>,
}

impl<'a, T: Wait> Coming<'a, T> {
    fn none(rt: &'a T, alloc: Global) -> Coming<'a, T> {
        Coming {
            rt,
            callers: Mutex::new(Vec::new(alloc)),
        }
    }

    fn comes(&self, rt: &(impl Abort + Wait), caller: Sends<'a>, text: &'a Mutex<Vec<u8>>) {
        self.callers
            .lock(rt)
            .push((caller, text))
            .expect(rt, "memory");
    }

    fn next<U: Wait>(&self, rt: &U) -> Option<(Sends<'a>, Page<'a, T>)> {
        let (caller, text) = self.callers.lock(rt).pop()?;
        Some((caller, Page { rt: self.rt, text }))
    }
}

#[derive(Drop)]
struct ClerksDoor<'a, T: Wait>(Coming<'a, T>);

#[derive(Drop)]
struct OperatorsDoor<'a, T: Wait>(Coming<'a, T>);

impl<'a, T: Wait> Door<Sends<'a>, Page<'a, T>> for ClerksDoor<'a, T> {
    ghost gives = { λ access. access ≡ Session };

    fn next<U: Wait + Clock>(&self, rt: &U) -> Option<Call<Sends<'a>, Page<'a, T>>> {
        let (reader, writer) = self.0.next(rt)?;
        Some(Call::new(Access::Session, reader, writer))
    }
}

impl<'a, T: Wait> Door<Sends<'a>, Page<'a, T>> for OperatorsDoor<'a, T> {
    ghost gives = { λ access. access ≡ AllLines };

    fn next<U: Wait + Clock>(&self, rt: &U) -> Option<Call<Sends<'a>, Page<'a, T>>> {
        let (reader, writer) = self.0.next(rt)?;
        Some(Call::new(Access::Operator, reader, writer))
    }
}

// The book of site 0 of two after these lines.
fn book_after(rt: &(impl Abort + Wait), alloc: Global, lines: &[u8]) -> SiteBook<ListKeeper> {
    let office = SiteNumbers {
        me: 0,
        among: 2,
        limit: 1000,
    };
    let mut out = Vec::new(alloc);
    talked(rt, alloc, book_of(rt, alloc, office), lines, &mut out)
}

// How many seats of `gala` a site may still sell once its office, with callers at these doors, had no caller more.
fn left_after<'a, T: Threads + Wait + Clock + Abort + Sync>(
    rt: &T,
    alloc: Global,
    book: SiteBook<ListKeeper>,
    clerks: Coming<'a, T>,
    operators: Coming<'a, T>,
) -> u64 {
    let closing = Closing::new();
    let clerks = ClerksDoor(clerks);
    let operators = OperatorsDoor(operators);
    match open_office(
        rt,
        alloc,
        book,
        &clerks,
        &operators,
        &closing,
        &Gauge::new(0),
        Sparing::nothing(),
    ) {
        Ok(book) => book.book().left(Event::read(b"gala").expect(rt, "a name")),
        Err(_) => panic!(rt; "threads, and memory"),
    }
}

const WANT_IT: [&[u8]; 16] = [
    b"site\nclose\nsell 10 gala 1\n",
    b"site\nexport 1\nsell 11 gala 1\n",
    b"site\nclose\nsell 12 gala 1\n",
    b"site\nclose\nsell 13 gala 1\n",
    b"site\nclose\nsell 14 gala 1\n",
    b"site\nclose\nsell 15 gala 1\n",
    b"site\nclose\nsell 16 gala 1\n",
    b"site\nclose\nsell 17 gala 1\n",
    b"site\nclose\nsell 18 gala 1\n",
    b"site\nclose\nsell 19 gala 1\n",
    b"site\nclose\nsell 20 gala 1\n",
    b"site\nclose\nsell 21 gala 1\n",
    b"site\nclose\nsell 22 gala 1\n",
    b"site\nclose\nsell 23 gala 1\n",
    b"site\nclose\nsell 24 gala 1\n",
    b"site\nclose\nsell 25 gala 1\n",
];

// Sixteen callers want the last seat, and each line is sent once all are in: one gets it. The port of an office has no line of the
// office. An office that serves one after another fails here, and one that sells without the lock, or several requests by what is
// left before the first.
#[test]
fn sixteen_callers_want_the_last_seat(rt: HostRuntime) {
    let alloc = rt.alloc();
    let meeting = Meeting::of(16);
    let mut texts = Vec::new(alloc);
    for _ in 0..16u32 {
        texts
            .push(Mutex::new(Vec::new(alloc)))
            .expect(&rt, "memory");
    }
    let clerks = Coming::none(&rt, alloc);
    for (bytes, text) in WANT_IT.iter().zip(texts.iter()) {
        let caller = Sends {
            bytes: *bytes,
            meeting: Some(&meeting),
        };
        clerks.comes(&rt, caller, text);
    }
    let book = book_after(&rt, alloc, b"announce 1 gala\nrelease 2 gala 1\n");
    let left = left_after(&rt, alloc, book, clerks, Coming::none(&rt, alloc));
    assert!(rt; left == 0);
    assert!(rt; meeting.missed.load(Ordering::SeqCst) == 0);
    let (mut done, mut short) = (0u32, 0u32);
    for text in texts.iter() {
        let text = text.lock(&rt);
        if text.as_slice() == b"site 0 of 2\nbad-line\ndone\n".as_slice() {
            done = done.wrapping_add(1);
        } else if text.as_slice() == b"site 0 of 2\nbad-line\nshort 0\n".as_slice() {
            short = short.wrapping_add(1);
        }
    }
    assert!(rt; done == 1 && short == 15);
}

// An operator has the lines of the office too, and after `close` no line is answered. At the port the first line that cannot be read
// is the last.
#[test]
fn an_operator_looks_and_closes(rt: HostRuntime) {
    let alloc = rt.alloc();
    let text = Mutex::new(Vec::new(alloc));
    let operators = Coming::none(&rt, alloc);
    operators.comes(
        &rt,
        Sends {
            bytes: b"export 1\nimport\nack 1 0 2\nend\nexport 1\nfind 2\nlist gala\nstatus\nsite\nclose\nleft gala\n",
            meeting: None,
        },
        &text,
    );
    let told = Mutex::new(Vec::new(alloc));
    let clerks = Coming::none(&rt, alloc);
    clerks.comes(
        &rt,
        Sends {
            bytes: b"POST / HTTP/1.1\r\nsell 3 gala 1\n",
            meeting: None,
        },
        &told,
    );
    let book = book_after(&rt, alloc, b"announce 1 gala\nrelease 2 gala 1\n");
    let left = left_after(&rt, alloc, book, clerks, operators);
    assert!(rt; left == 1);
    let wanted = b"delta 0 1 2\nname gala\ngave gala 0 0 1\nend\nacked\nnothing\n1 done\n\
        0 announce 1 gala done\n1 release 2 gala 1 done\nend\n\
        site 0 sites 2 entries 2 limit 1000 callers "
        .as_slice();
    let rest = b"\nsite 0 of 2\nclosing\n".as_slice();
    let text = text.lock(&rt);
    assert!(rt; text.as_slice().starts_with(wanted) && text.as_slice().ends_with(rest));
    assert!(rt; told.lock(&rt).as_slice() == b"bad-line\n".as_slice());
}
