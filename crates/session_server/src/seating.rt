//! A seat for each session.

ghost use Rattle.std.specs.Prelude.{◌≡◌, ◌<◌, ◌≤◌, ◌+◌, ◌++◌, IfOk, map, vec_len, vec_capacity};
ghost use Rattle.site_desk.specs.Seats.{parts_of, shares_of};
ghost use Rattle.session_server.specs.Visited.{seats_of, visit_of};

use crate::session::Session;
use crate::site::Visit;
use site_desk::{Opens, Seat};
use std::alloc::{AllocError, Global};
use std::io::{Read, Write};

// Cuts a seat off for each session. The seat that is given back keeps the other parts.
pub(crate) fn seated<R: Read + Drop, W: Write + Drop, L: Opens>(
    alloc: Global,
    visits: Vec<Visit<R, W>>,
    seat: Seat<L>,
) -> Result<(Vec<Session<R, W, L>>, Seat<L>), AllocError>
    requires { vec_len visits < seat.parts }
    ensures visits { IfOk result (λ r. map visit_of r.0.items ≡ visits.items) }
    ensures parts { IfOk result (λ r. parts_of (seats_of r.0.items) + r.1.parts ≡ seat.parts) }
    ensures shares { IfOk result (λ r. shares_of (seats_of r.0.items) + r.1.count ≡ seat.count) }
{
    let mut sessions = Vec::with_capacity(alloc, visits.len())?;
    let seat = seat_from(visits, seat, &mut sessions);
    Ok((sessions, seat))
}

// Seats the last session after the others.
fn seat_from<R: Read + Drop, W: Write + Drop, L: Opens>(
    mut visits: Vec<Visit<R, W>>,
    seat: Seat<L>,
    sessions: &mut Vec<Session<R, W, L>>,
) -> Seat<L>
    requires parts { vec_len visits < seat.parts }
    requires room { vec_len sessions.old + vec_len visits ≤ vec_capacity sessions.old }
    ensures visits { map visit_of sessions.new.items
        ≡ map visit_of sessions.old.items ++ visits.items }
    ensures parts { parts_of (seats_of sessions.new.items) + result.parts
        ≡ parts_of (seats_of sessions.old.items) + seat.parts }
    ensures shares { shares_of (seats_of sessions.new.items) + result.count
        ≡ shares_of (seats_of sessions.old.items) + seat.count }
    ensures room { (vec_len sessions.new ≡ vec_len sessions.old + vec_len visits)
        × (vec_capacity sessions.new ≡ vec_capacity sessions.old) }
{
    let Some(Visit { id, reader, writer }) = visits.pop() else {
        return seat;
    };
    let (rest, seat) = seat.split();
    let own = seat_from(visits, rest, sessions);
    sessions.push_reserved(Session {
        id,
        reader,
        writer,
        seat,
    });
    own
}
