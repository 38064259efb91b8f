//! Messages through a link, as text, with ample memory.
ghost use Rattle.std.specs.Prelude.{◌≡◌};

use crate::said::{message, put, put_message};
use link_queue::{Gone, Rx, RxEnd, Tx, TxEnd, link, settle};
use plain_words::numbered;
use rights_lattice::SiteId;
use site_exchange::{Message, Upto};
use std::alloc::Global;
use std::process::Abort;
use std::sync::Wait;
use std::sync::atomic::{AtomicU64, Ordering};
use std::thread;
use std::thread::{Threads, yield_now};

const ACK: &[u8] = b"ack 1 0 3\nend\n";

const DELTA: &[u8] =
    b"delta 1 0 2\nname gala\ngave gala 0 0 100\ngave gala 0 1 40\nused gala 1 40\nend\n";

fn put_got(rt: &impl Abort, got: Result<Message, Gone>, out: &mut Vec<u8>) {
    match got {
        Ok(message) => put_message(rt, out, &message),
        Err(Gone) => put(rt, out, b"gone\n"),
    }
}

fn put_counts(rt: &impl Abort, sent: u64, got: u64, out: &mut Vec<u8>) {
    put(rt, out, numbered(b"put ", sent).as_slice());
    put(rt, out, numbered(b" got ", got).as_slice());
}

// Puts both and ends the link, and tells whether both were put.
fn put_two<R: Wait>(rt: &R, mut tx: Tx, first: Message, second: Message) -> (TxEnd, bool)
    ensures { result.0.link ≡ tx.link }
{
    let one = tx.send(rt, first).is_ok();
    let two = tx.send(rt, second).is_ok();
    (tx.end(rt), one && two)
}

fn get_four<R: Wait + Abort>(rt: &R, alloc: Global, mut rx: Rx) -> (RxEnd, Vec<u8>)
    ensures { result.0.link ≡ rx.link }
{
    let mut out = Vec::new(alloc);
    put_got(rt, rx.recv(rt), &mut out);
    put_got(rt, rx.recv(rt), &mut out);
    put_got(rt, rx.recv(rt), &mut out);
    put_got(rt, rx.recv(rt), &mut out);
    (rx.end(), out)
}

// What was got, whether both were put, and what settling tells.
fn through<R: Threads + Wait + Abort + Sync>(
    rt: &R,
    alloc: Global,
    tx: Tx,
    rx: Rx,
    first: Message,
    second: Message,
) -> (Vec<u8>, bool)
    requires { tx.link ≡ rx.link }
{
    let (put, got) = thread::join(
        rt,
        move || -> (TxEnd, bool)
            ensures { result.0.link ≡ tx.link }
        { put_two(rt, tx, first, second) },
        move || -> (RxEnd, Vec<u8>)
            ensures { result.0.link ≡ rx.link }
        { get_four(rt, alloc, rx) },
    );
    let (tx, sent) = put;
    let (rx, mut out) = got;
    let settled = settle(tx, rx);
    put_counts(rt, settled.put, settled.got, &mut out);
    (out, sent)
}

#[test]
fn two_messages_cross_a_link_of_one(rt: HostRuntime) {
    let alloc = rt.alloc();
    let (tx, rx) = link(alloc, 1).expect(&rt, "memory");
    let (first, second) = (message(&rt, alloc, ACK), message(&rt, alloc, DELTA));
    let (text, sent) = through(&rt, alloc, tx, rx, first, second);
    let wanted =
        b"ack 1 0 3\nend\ndelta 1 0 2\nname gala\ngave gala 0 0 100\ngave gala 0 1 40\nused gala 1 40\nend\ngone\ngone\nput 2 got 2";
    assert!(rt; sent && text.as_slice() == wanted.as_slice());
}

// A message for nobody.
fn for_nobody<R: Wait + Abort>(rt: &R, alloc: Global) -> Vec<u8> {
    let mut out = Vec::new(alloc);
    let (mut tx, rx) = link(alloc, 1).expect(rt, "memory");
    let end = rx.end();
    match tx.send(rt, message(rt, alloc, ACK)) {
        Ok(()) => put(rt, &mut out, b"put\n"),
        Err(message) => put_message(rt, &mut out, &message),
    }
    put_counts(rt, tx.end(rt).put(), end.got(), &mut out);
    out
}

// What comes where these were put and their sender is gone.
fn behind_sender<R: Wait + Abort>(rt: &R, alloc: Global, texts: &[&'static [u8]]) -> Vec<u8> {
    let (mut tx, rx) = link(alloc, 2).expect(rt, "memory");
    for text in texts {
        assert!(rt; tx.send(rt, message(rt, alloc, text)).is_ok());
    }
    drop(tx);
    let (end, mut out) = get_four(rt, alloc, rx);
    put(rt, &mut out, numbered(b"got ", end.got()).as_slice());
    out
}

// A link with less room than its capacity waits here for ever, and one that loses what it holds with its sender fails.
#[test]
fn one_end_of_a_link_is_gone(rt: HostRuntime) {
    let alloc = rt.alloc();
    let back = b"ack 1 0 3\nend\nput 0 got 0".as_slice();
    assert!(rt; for_nobody(&rt, alloc).as_slice() == back);
    let none = b"gone\ngone\ngone\ngone\ngot 0".as_slice();
    assert!(rt; behind_sender(&rt, alloc, &[]).as_slice() == none);
    let both =
        b"ack 1 0 3\nend\ndelta 1 0 2\nname gala\ngave gala 0 0 100\ngave gala 0 1 40\nused gala 1 40\nend\ngone\ngone\ngot 2".as_slice();
    assert!(rt; behind_sender(&rt, alloc, &[ACK, DELTA]).as_slice() == both);
}

// An acknowledgement of so many entries.
fn ack(upto: u64) -> Option<Message> {
    Some(Message::Ack {
        by: SiteId::of(1)?,
        to: SiteId::of(0)?,
        upto: Upto::of(upto)?,
    })
}

// Puts acknowledgements of 1 entry, of 2, and so on, and ends the link. The count has how many were put so far.
fn put_each<R: Wait>(rt: &R, mut tx: Tx, count: u64, put: &AtomicU64) -> u64 {
    for upto in 1..=count {
        if let Some(message) = ack(upto)
            && tx.send(rt, message).is_ok()
        {
            put.fetch_add(1, Ordering::SeqCst);
        }
    }
    tx.end(rt).put()
}

// The texts of what comes until nothing more does.
fn get_each<R: Wait + Abort>(rt: &R, alloc: Global, mut rx: Rx, most: u64) -> (Vec<u8>, u64) {
    let mut out = Vec::new(alloc);
    for _ in 0..most {
        match rx.recv(rt) {
            Ok(message) => put_message(rt, &mut out, &message),
            Err(Gone) => break,
        }
    }
    (out, rx.end().got())
}

const MANY: u64 = 1000;

fn texts_of_many(rt: &impl Abort, alloc: Global) -> Vec<u8> {
    let mut texts = Vec::new(alloc);
    for upto in 1..=MANY {
        put(rt, &mut texts, numbered(b"ack 1 0 ", upto).as_slice());
        put(rt, &mut texts, b"\nend\n");
    }
    texts
}

// A link that ends, or hands back or drops what is sent, behind some of these fails here.
#[test]
fn many_messages_cross_a_link_of_four(rt: HostRuntime) {
    let alloc = rt.alloc();
    let (tx, rx) = link(alloc, 4).expect(&rt, "memory");
    let sent = AtomicU64::new(0);
    let (put, (texts, got)) = thread::join(
        &rt,
        || put_each(&rt, tx, MANY, &sent),
        || get_each(&rt, alloc, rx, 2 * MANY),
    );
    assert!(rt; (put, got) == (MANY, MANY));
    assert!(rt; texts.as_slice() == texts_of_many(&rt, alloc).as_slice());
}

// How often the receiver looks whether the second message was put before it gets the first.
const TURNS: u64 = 100_000;

// Gets nothing until two messages were put, for some turns; then the first, and how many were put before it.
fn get_late<R: Wait>(rt: &R, mut rx: Rx, put: &AtomicU64) -> (bool, u64) {
    for _ in 0..TURNS {
        if put.load(Ordering::SeqCst) == 2 {
            break;
        }
        yield_now();
    }
    let before = put.load(Ordering::SeqCst);
    let is_got = rx.recv(rt).is_ok() && rx.recv(rt).is_ok();
    (is_got, before)
}

// A link of one that has room for two fails here where its sender puts both within those turns.
#[test]
fn sender_waits_at_a_full_link(rt: HostRuntime) {
    let (tx, rx) = link(rt.alloc(), 1).expect(&rt, "memory");
    let sent = AtomicU64::new(0);
    let (put, (is_got, before)) = thread::join(
        &rt,
        || put_each(&rt, tx, 2, &sent),
        || get_late(&rt, rx, &sent),
    );
    assert!(rt; is_got && put == 2 && before < 2);
}
