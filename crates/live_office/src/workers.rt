//! The threads of an office, each of which serves one caller after another.

ghost use Rattle.std.specs.Prelude.{◌≡◌, ◌+◌, ◌≤◌, ◌<◌, true, vec_len, vec_capacity};
ghost use Rattle.site_desk.specs.Seats.{parts_of};

use crate::door::Door;
use crate::handler::Last;
use crate::serving::serve;
use crate::shared::Shared;
use history_keeper::Keeper;
use site_desk::{Opens, Seat};
use std::io::{Read, Write};
use std::snapshot::Snapshot;
use std::sync::Wait;
use std::thread::{Promise, Scope, Threads};
use std::time::Clock;

/// How many callers are served at once at the clerks' door.
pub const CLERKS: u32 = 64;

/// How many are served at once at the operators' door, with all lines of an office.
pub const OPERATORS: u32 = 8;

// The threads at the clerks' door: one more, which finds a place for who comes.
pub(crate) const CLERK_THREADS: u32 = CLERKS + 1;

// The threads at the operators' door: two more, for places that are kept for `status` and `close`.
pub(crate) const OPERATOR_THREADS: u32 = OPERATORS + 2;

// The doors of an office, and what all callers share.
#[derive(Drop)]
pub(crate) struct OfficeDoors<'a, K: Keeper, L: Opens, C, O> {
    pub(crate) shared: &'a Shared<'a, K, L>,
    pub(crate) clerks: &'a C,
    pub(crate) operators: &'a O,
}

// Serves one caller after another at a door, until there is none.
fn work_at<T: Wait + Clock, R: Read + Drop, W: Write + Drop, D: Door<R, W>, K: Keeper, L: Opens>(
    rt: &T,
    shared: &Shared<'_, K, L>,
    seat: Seat<L>,
    door: &D,
) -> Seat<L>
    ensures parts { result.parts ≡ seat.parts }
{
    let mut seat = seat;
    'callers: for _ in rt.forever() {
        let Some(call) = door.next(rt) else {
            break;
        };
        let (served, own) = serve(rt, shared, seat, call);
        seat = own;
        if let Ok(Some(Last::Close)) = served.ended {
            shared.closing.asked(&served);
            shared.closing.await_look(rt);
        }
        served.part(shared.closing.is_lost());
    }
    seat
}

// The work of the thread with this number: the first are at the operators' door, the others at the clerks'.
fn work<
    T: Wait + Clock,
    R: Read + Drop,
    W: Write + Drop,
    C: Door<R, W>,
    O: Door<R, W>,
    K: Keeper,
    L: Opens,
>(rt: &T, doors: &OfficeDoors<'_, K, L, C, O>, seat: Seat<L>, number: u32) -> Seat<L>
    ensures parts { result.parts ≡ seat.parts }
{
    if number <= OPERATOR_THREADS {
        work_at(rt, doors.shared, seat, doors.operators)
    } else {
        work_at(rt, doors.shared, seat, doors.clerks)
    }
}

// The seat that a thread was begun with.
#[derive(Drop)]
struct Begun<L: Opens>(Snapshot<Seat<L>>);

impl<L: Opens> Promise<Seat<L>> for Begun<L> {
    ghost kept_by = { λ p r. r.parts ≡ p.0.value.parts };
}

// Starts so many threads, each with one part of the seat, and waits for them. Where one could not be started the office
// closes, and its part is lost.
#[tactic(auto, using(crate::proofs::Seats::parts_push))]
pub(crate) fn work_all<
    's,
    E,
    T: Threads + Wait + Clock + Sync,
    R: Read + Drop + Send + 's,
    W: Write + Drop + Send + 's,
    C: Door<R, W> + Sync + 's,
    O: Door<R, W> + Sync + 's,
    K: Keeper + Send + 's,
    L: Opens + Send + Sync + 's,
>(
    scope: &'s Scope<'s, E>,
    rt: &'s T,
    doors: &'s OfficeDoors<'s, K, L, C, O>,
    seat: Seat<L>,
    count: u32,
    seats: &mut Vec<Seat<L>>,
) -> bool
    requires { (count < seat.parts) × (vec_len seats.old + count + 1 ≤ vec_capacity seats.old) }
    ensures parts { result ≡ true → parts_of seats.new.items ≡ parts_of seats.old.items
        + seat.parts }
    ensures room { (vec_len seats.new ≤ vec_len seats.old + count + 1) × (vec_capacity seats.new ≡
        vec_capacity seats.old) }
{
    if count == 0 {
        seats.push_reserved(seat);
        return true;
    }
    let (rest, own) = seat.split();
    let begun = Begun(Snapshot::of(&own));
    let thread = match scope.spawn_with(begun, move || work(rt, doors, own, count)) {
        Ok(thread) => thread,
        Err(refused) => {
            doors.shared.closing.not_staffed(refused);
            seats.push_reserved(rest);
            return false;
        }
    };
    let all = work_all(scope, rt, doors, rest, count - 1, seats);
    seats.push_reserved(thread.join(rt));
    all
}
