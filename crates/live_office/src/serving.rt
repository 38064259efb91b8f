//! One caller, from the first line to the last.

ghost use Rattle.std.specs.Prelude.{◌≡◌};
ghost use Rattle.live_office.specs.Admissible.{admissible};
ghost use Rattle.live_office.specs.Parting.{last_text, parting_text};
ghost use Rattle.live_office.specs.Served.{IsServed};
ghost use Rattle.plain_words.specs.Writing.{Writes};

use crate::caller_seat::CallerSeat;
use crate::door::Access;
use crate::handler::Last;
use crate::shared::Shared;
use crate::sparing::Sparing;
use crate::talking::office_talk;
use history_keeper::Keeper;
use plain_words::{WriteFault, write_bytes};
use session_server::TalkFault;
use site_desk::{Desk, Opens, Seat};
use std::io::{Read, Write};
use std::snapshot::Snapshot;
use std::sync::Wait;
use std::time::Clock;

/// A caller that came in. It has neither `Drop` nor `Clone`: nothing but serving it uses it up.
pub struct Call<R: Read + Drop, W: Write + Drop> {
    access: Access,
    reader: R,
    writer: W,
}

impl<R: Read + Drop, W: Write + Drop> Call<R, W> {
    /// A caller with this access, whose lines come from the reader, and whose answers go to the writer.
    pub fn new(access: Access, reader: R, writer: W) -> Call<R, W>
        ensures access { result.access ≡ access }
        ensures reader { result.reader ≡ reader }
        ensures writer { result.writer ≡ writer }
    {
        Call {
            access,
            reader,
            writer,
        }
    }
}

/// A caller that was served. What it was sent is what its lines were answered, one by one. It has no `Drop`: who was
/// served is told why the session ends (`part`).
///
/// Its reader and writer as they began are there for contracts alone.
pub struct Served<'a, R: Read + Drop, W: Write + Drop, K: Keeper, L: Opens> {
    _desk: &'a Desk<K, L>,
    access: Access,
    sparing: Sparing,
    reader_began: Snapshot<R>,
    writer_began: Snapshot<W>,
    writer: W,
    pub ended: Result<Option<Last>, TalkFault>,
    ghost served: { ∥ IsServed (admissible L.office L.began K.Keeper) access sparing
        (R.remaining reader_began.value) (W.contents writer_began.value) (W.contents writer) ended ∥₁ },
}

// What a last line is answered.
fn last_text(is_lost: bool, last: Last) -> &'static [u8]
    ensures { result.now ≡ last_text is_lost last }
{
    match last {
        Last::Quit => b"",
        Last::Close => {
            if is_lost {
                b"lost-file\n"
            } else {
                b"closing\n"
            }
        }
        Last::Unread => b"bad-line\n",
        Last::Full => b"full\n",
    }
}

// Tells a caller the word with which a session ends so, if there is one.
fn tell_end<W: Write>(
    is_lost: bool,
    ended: &Result<Option<Last>, TalkFault>,
    out: &mut W,
) -> Result<(), WriteFault>
    ensures { Writes (W.contents out.old) (W.contents out.new) result (parting_text is_lost
        ended.now) }
{
    match ended {
        Ok(Some(last)) => write_bytes(last_text(is_lost, *last), out),
        Ok(None) => write_bytes(b"", out),
        Err(_) => write_bytes(b"", out),
    }
}

impl<R: Read + Drop, W: Write + Drop, K: Keeper, L: Opens> Served<'_, R, W, K, L> {
    /// Tells the caller the word with which the session ends, if there is one, and ends the connection.
    pub(crate) fn part(self, is_lost: bool) {
        let Served {
            _desk,
            access: _access,
            sparing: _sparing,
            reader_began: _reader_began,
            writer_began: _writer_began,
            mut writer,
            ended,
        } = self;
        let _ = tell_end(is_lost, &ended, &mut writer);
        let _ = writer.flush();
    }
}

// Answers a caller.
fn answer<T: Wait + Clock, R: Read + Drop, W: Write, K: Keeper, L: Opens>(
    rt: &T,
    shared: &Shared<'_, K, L>,
    seat: Seat<L>,
    access: Access,
    reader: R,
    out: &mut W,
) -> (Result<Option<Last>, TalkFault>, Seat<L>)
    ensures served { IsServed (admissible L.office L.began K.Keeper) access shared.now.sparing
        (R.remaining reader) (W.contents out.old) (W.contents out.new) result.0 }
    ensures parts { result.1.parts ≡ seat.parts }
{
    let mut at = CallerSeat::new(shared, seat, access);
    let ended = office_talk(rt, shared.alloc, reader, out, &mut at);
    (ended, at.into_seat())
}

// Serves a caller, from the first line to the last, and counts it meanwhile.
pub(crate) fn serve<'a, T: Wait + Clock, R: Read + Drop, W: Write + Drop, K: Keeper, L: Opens>(
    rt: &T,
    shared: &Shared<'a, K, L>,
    seat: Seat<L>,
    call: Call<R, W>,
) -> (Served<'a, R, W, K, L>, Seat<L>)
    ensures access { result.0.access ≡ call.access }
    ensures sparing { result.0.sparing ≡ shared.now.sparing }
    ensures reader { result.0.reader_began.value ≡ call.reader }
    ensures writer { result.0.writer_began.value ≡ call.writer }
    ensures parts { result.1.parts ≡ seat.parts }
{
    let Call {
        access,
        reader,
        mut writer,
    } = call;
    let reader_began = Snapshot::of(&reader);
    let writer_began = Snapshot::of(&writer);
    shared.callers.come();
    let (ended, seat) = answer(rt, shared, seat, access, reader, &mut writer);
    shared.callers.go();
    (
        Served {
            _desk: shared.desk,
            access,
            sparing: shared.sparing,
            reader_began,
            writer_began,
            writer,
            ended,
        },
        seat,
    )
}
