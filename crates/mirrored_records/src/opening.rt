//! Two copies of one history are opened.
ghost use Rattle.std.specs.Prelude.{◌≡◌, ◌≤◌, ℕ, IfOk, IfErr, OnOk, OnErr, length, take};
ghost use Rattle.mirrored_records.specs.Mirrored.{IsBroughtUp, IsOpened, LeavesBetween, OneIsShort, surviving};
ghost use Rattle.mirrored_records.specs.Prefixes.{DifferAt, IsLonger};

use crate::mirror::{Mirror, Survivor};
use crate::same::first_difference;
use book_core::Entry;
use history_keeper::{KeepFault, Keeper};
use thiserror::Error;

/// Why two copies do not become one history.
#[derive(Clone, Copy, Debug, PartialEq, Eq, Error)]
pub enum MirrorFault {
    /// Neither copy extends the other: this is the first place at which they differ.
    #[error("the copies differ at entry {place}")]
    Differs { place: usize },
    /// The shorter could not be brought up to the longer. It has lost none of its entries.
    #[error("the shorter copy could not be brought up: {fault}")]
    Short { fault: KeepFault },
}

// How many entries are brought up in one transaction.
const PIECE: usize = 4096;

// Adds to a keeper of the front up to a place what comes up to another.
#[tactic(auto, using(crate::proofs::BringLemmas::piece_kept, crate::proofs::BringLemmas::left_between))]
fn bring_piece<K: Keeper>(
    keeper: &mut K,
    place: usize,
    end: usize,
    whole: &[Entry],
) -> Result<(), KeepFault>
    requires sound { K.failed keeper.old ≡ 0 }
    requires within { (place ≤ end) × (end ≤ length whole.now) }
    requires begun { K.is_trusted keeper.old → take place whole.now ≡ K.kept keeper.old }
    ensures brought { OnOk result
        (IsBroughtUp K.Keeper keeper.old keeper.new (take end whole.now)) }
    ensures short { OnErr result
        (LeavesBetween K.Keeper keeper.old keeper.new (take place whole.now) whole.now) }
{
    keeper.append_all(&whole[place..end])
}

// Adds to a keeper what it lacks of the whole, piece by piece.
fn bring_up<K: Keeper>(keeper: &mut K, count: usize, whole: &[Entry]) -> Result<(), KeepFault>
    requires sound { K.failed keeper.old ≡ 0 }
    requires within { count ≤ length whole.now }
    requires begun { K.is_trusted keeper.old → take count whole.now ≡ K.kept keeper.old }
    ensures brought { OnOk result (IsBroughtUp K.Keeper keeper.old keeper.new whole.now) }
    ensures short { OnErr result
        (LeavesBetween K.Keeper keeper.old keeper.new (take count whole.now) whole.now) }
{
    let mut place = count;
    while place < whole.len() {
        let end = whole.len().min(place.saturating_add(PIECE));
        bring_piece(keeper, place, end, whole)?;
        place = end;
    }
    Ok(())
}

/// Opens two copies, whose entries these are. It takes the longer, and brings the shorter up to it.
///
/// `Differs` if neither extends the other; then nothing was changed. `Short` if the shorter could not be written: it may
/// have got some of what it lacked, and has lost nothing.
pub fn open<A: Keeper + Drop, B: Keeper + Drop, W: Survivor>(
    mut first: A,
    one: Vec<Entry>,
    mut second: B,
    other: Vec<Entry>,
) -> Result<(Mirror<A, B, W>, Vec<Entry>), (A, B, MirrorFault)>
    requires sound { (A.failed first ≡ 0) × (B.failed second ≡ 0) }
    requires first { A.is_trusted first → one.items ≡ A.kept first }
    requires second { B.is_trusted second → other.items ≡ B.kept second }
    ensures opened { IfOk result (λ it. IsOpened (surviving W.is_first A.Keeper B.Keeper)
        (record { first = first; second = second; failures = 0 }) it.0 it.1.items) }
    ensures longer { IfOk result (λ it. IsLonger one.items other.items it.1.items) }
    ensures trusted { IfOk result (λ it. (A.is_trusted it.0.first → A.is_trusted first)
        × (B.is_trusted it.0.second → B.is_trusted second)) }
    ensures differs { IfErr result (λ e. (place : ℕ) → e.2 ≡ MirrorFault.Differs place
        → (e.0 ≡ first) × (e.1 ≡ second) × DifferAt one.items other.items place) }
    ensures short { IfErr result (λ e. (fault : KeepFault) → e.2 ≡ MirrorFault.Short fault
        → OneIsShort A.Keeper B.Keeper (first, e.0) (second, e.1) one.items other.items) }
{
    if let Some(place) = first_difference(one.as_slice(), other.as_slice()) {
        return Err((first, second, MirrorFault::Differs { place }));
    }
    if one.len() < other.len() {
        if let Err(fault) = bring_up(&mut first, one.len(), other.as_slice()) {
            return Err((first, second, MirrorFault::Short { fault }));
        }
        return Ok((Mirror::of(first, second), other));
    }
    if let Err(fault) = bring_up(&mut second, other.len(), one.as_slice()) {
        return Err((first, second, MirrorFault::Short { fault }));
    }
    Ok((Mirror::of(first, second), one))
}
