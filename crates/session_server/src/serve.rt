//! Sessions in threads.

ghost use Rattle.std.specs.Prelude.{◌≡◌, [], ◌≤◌, ◌+◌, ◌++◌, None, true, is_some, count_by, length, map, vec_len, vec_capacity, IfOk};
ghost use Rattle.site_desk.specs.Seats.{parts_of, shares_of};
ghost use Rattle.session_server.specs.Finished.{given_since};
ghost use Rattle.session_server.specs.Visited.{AllServed, AreServed, receipts_of, seats_of, visit_ended, visit_of};

use crate::fault::TalkFault;
use crate::seat_answerer::SeatAnswerer;
use crate::session::{Session, SessionEnd};
use crate::talk_over::talk;
use history_keeper::Keeper;
use site_desk::{Desk, Gate, Opens, Seat};
use std::alloc::{AllocError, Global};
use std::io::{Read, Write};
use std::snapshot::Snapshot;
use std::sync::Wait;
use std::thread;
use std::thread::{Promise, Scope, Threads};

// One session, from its first line to its last.
fn serve<T: Wait, R: Read + Drop, W: Write + Drop, K: Keeper, L: Opens, G: Gate>(
    rt: &T,
    alloc: Global,
    desk: &Desk<K, L>,
    gate: &G,
    session: Session<R, W, L>,
) -> (SessionEnd<R, W>, Seat<L>)
    ensures visit { visit_ended result.0 ≡ visit_of session }
    ensures writer { is_some result.0.writer ≡ true }
    ensures parts { result.1.parts ≡ session.seat.parts }
    ensures share { result.1.count
        ≤ session.seat.count + given_since (length L.began) result.0.receipts.items }
{
    let Session {
        id,
        reader,
        mut writer,
        seat,
    } = session;
    let reader_began = Snapshot::of(&reader);
    let writer_began = Snapshot::of(&writer);
    let mut at = SeatAnswerer::new(alloc, desk, gate, id, seat);
    let ended = talk(rt, alloc, reader, &mut writer, &mut at);
    let (seat, receipts, seen) = at.into_parts();
    (
        SessionEnd {
            id,
            writer: Some(writer),
            receipts,
            seen,
            ended,
            reader_began,
            writer_began,
        },
        seat,
    )
}

// The session that a thread was begun with.
#[derive(Drop)]
struct Begun<R: Read + Drop, W: Write + Drop, L: Opens> {
    session: Snapshot<Session<R, W, L>>,
}

impl<R: Read + Drop, W: Write + Drop, L: Opens> Promise<(SessionEnd<R, W>, Seat<L>)>
    for Begun<R, W, L> {
    ghost kept_by = { λ p r. (visit_ended r.0 ≡ visit_of p.session.value)
        × (is_some r.0.writer ≡ true) × (r.1.parts ≡ p.session.value.seat.parts)
        × (r.1.count ≤ p.session.value.seat.count + given_since (length L.began) r.0.receipts.items) };
}

// Starts the last session, then the others, and then waits for it.
fn serve_from<
    's,
    E,
    T: Threads + Wait + Sync,
    R: Read + Drop + Send + 's,
    W: Write + Drop + Send + 's,
    K: Keeper + Send + 's,
    L: Opens + Send + Sync + 's,
    G: Gate + Sync + 's,
>(
    scope: &'s Scope<'s, E>,
    rt: &'s T,
    alloc: Global,
    desk: &'s Desk<K, L>,
    gate: &'s G,
    mut sessions: Vec<Session<R, W, L>>,
    ends: &mut Vec<SessionEnd<R, W>>,
    seats: &mut Vec<Seat<L>>,
)
    requires ends { vec_len ends.old + vec_len sessions ≤ vec_capacity ends.old }
    requires seats { vec_len seats.old + vec_len sessions ≤ vec_capacity seats.old }
    ensures visits { map visit_ended ends.new.items
        ≡ map visit_ended ends.old.items ++ map visit_of sessions.items }
    ensures parts { AllServed ends.new.items → parts_of seats.new.items
        ≡ parts_of seats.old.items + parts_of (seats_of sessions.items) }
    ensures seats { length seats.new.items + count_by (λ e. is_some e.writer) ends.old.items
        ≡ length seats.old.items + count_by (λ e. is_some e.writer) ends.new.items }
    ensures shares { let given = given_since (length L.began) in shares_of seats.new.items
        + given (receipts_of ends.old.items) ≤ shares_of seats.old.items
        + shares_of (seats_of sessions.items) + given (receipts_of ends.new.items) }
    ensures room { (vec_len ends.new ≡ vec_len ends.old + vec_len sessions)
        × (vec_capacity ends.new ≡ vec_capacity ends.old) }
    ensures seats_room { (vec_len seats.new ≤ vec_len seats.old + vec_len sessions)
        × (vec_capacity seats.new ≡ vec_capacity seats.old) }
{
    let Some(session) = sessions.pop() else {
        return;
    };
    let begun = Begun {
        session: Snapshot::of(&session),
    };
    let id = session.id;
    let reader_began = Snapshot::of(&session.reader);
    let writer_began = Snapshot::of(&session.writer);
    match scope.spawn_with(begun, move || serve(rt, alloc, desk, gate, session)) {
        Ok(thread) => {
            serve_from(scope, rt, alloc, desk, gate, sessions, ends, seats);
            let (end, seat) = thread.join(rt);
            ends.push_reserved(end);
            seats.push_reserved(seat);
        }
        Err(_) => {
            serve_from(scope, rt, alloc, desk, gate, sessions, ends, seats);
            ends.push_reserved(not_started(alloc, id, reader_began, writer_began));
        }
    }
}

// The end of a session whose thread could not be started.
fn not_started<R: Read + Drop, W: Write + Drop>(
    alloc: Global,
    id: u64,
    reader_began: Snapshot<R>,
    writer_began: Snapshot<W>,
) -> SessionEnd<R, W>
    ensures id { result.id ≡ id }
    ensures began { (result.reader_began ≡ reader_began) × (result.writer_began ≡ writer_began) }
    ensures writer { result.writer ≡ None }
{
    SessionEnd {
        id,
        writer: None,
        receipts: Vec::new(alloc),
        seen: Vec::new(alloc),
        ended: Err(TalkFault::NotStarted),
        reader_began,
        writer_began,
    }
}

/// Serves each session at the desk in a thread of its own, and waits for all of them. Their ends come in the order in
/// which they were handed in, with as many seats as ends have their writer; where all have it, these have the parts that were
/// handed in. Beyond the shares that the seats handed in had, no more was newly entered for them than they were given
/// receipts of entries behind the history with which the desk began.
///
/// An error is want of memory, before any thread is started: nothing was asked, and sessions and seats are dropped.
pub fn serve_all<
    T: Threads + Wait + Sync,
    R: Read + Drop + Send,
    W: Write + Drop + Send,
    K: Keeper + Send,
    L: Opens + Send + Sync,
    G: Gate + Sync,
>(
    rt: &T,
    alloc: Global,
    sessions: Vec<Session<R, W, L>>,
    desk: &Desk<K, L>,
    gate: &G,
) -> Result<(Vec<SessionEnd<R, W>>, Vec<Seat<L>>), AllocError>
    ensures { IfOk result
        (λ r. AreServed (length L.began) sessions.items r.0.items r.1.items) }
{
    let mut ends = Vec::with_capacity(alloc, sessions.len())?;
    let mut seats = Vec::with_capacity(alloc, sessions.len())?;
    Ok(thread::scope(
        thread::scope_env(),
        rt,
        move |scope| -> (Vec<SessionEnd<R, W>>, Vec<Seat<L>>)
            requires { (vec_len ends + vec_len sessions ≤ vec_capacity ends)
                × (vec_len seats + vec_len sessions ≤ vec_capacity seats)
                × (ends.items ≡ []) × (seats.items ≡ []) }
            ensures { AreServed (length L.began) sessions.items result.0.items result.1.items }
        {
            serve_from(
                scope, rt, alloc, desk, gate, sessions, &mut ends, &mut seats,
            );
            (ends, seats)
        },
    ))
}
