//! Two databases are opened as the book of one site.
ghost use Rattle.std.specs.Prelude.{◌≡◌, IfErr, IfOk, Some};
ghost use Rattle.paired_records.specs.Pairs.{IsPairBook, RefusesPair};

use crate::marks::is_one_of_two;
use book_core::ReplayFault;
use history_keeper::KeepFault;
use mirrored_records::{Mirror, MirrorFault, Survivor, open};
use site_desk::SiteBook;
use sql_records::{OpenFault, Records};
use sqlite::{Alter, Connection};
use std::alloc::Global;
use thiserror::Error;

/// The records of two databases as one store. `W` says which of them survives, and no code asks it.
pub type Pair<S, W> = Mirror<Records<S>, Records<S>, W>;

/// Why two databases do not become the book of one site.
#[derive(Clone, Copy, Debug, PartialEq, Eq, Error)]
pub enum PairFault {
    /// One of them is not marked as one of two. Nothing was read.
    #[error("one of the two has no mark")]
    NotPaired,
    /// One of them holds no records that are opened.
    #[error("records are not opened: {fault}")]
    Opening { fault: OpenFault },
    /// They are of different sites, or were made with other numbers.
    #[error("the two are of different sites")]
    OtherSite,
    /// Neither extends the other: this is the first place at which they differ.
    #[error("the two differ at entry {place}")]
    Differs { place: usize },
    /// The shorter could not be brought up to the longer. It has lost none of its entries.
    #[error("the shorter could not be brought up: {fault}")]
    Short { fault: KeepFault },
    /// The longer is no history of the site, or memory was refused. The shorter was brought up to it.
    #[error("the history is not read: {fault}")]
    Replay { fault: ReplayFault },
}

impl From<MirrorFault> for PairFault {
    ghost use Rattle.std.specs.Prelude.{◌≡◌};
    ghost use Rattle.paired_records.specs.Pairs.{of_mirror_fault};

    ghost from_gives = { λ mirror fault. fault ≡ of_mirror_fault mirror };

    fn from(fault: MirrorFault) -> PairFault {
        match fault {
            MirrorFault::Differs { place } => PairFault::Differs { place },
            MirrorFault::Short { fault } => PairFault::Short { fault },
        }
    }
}

/// What comes back of two databases that do not become a book, with the cause: each, but for one that is not opened.
pub type PairRefusal<S> = (Option<Connection<S>>, Option<Connection<S>>, PairFault);

fn refusal<S: Alter + Drop>(
    first: Records<S>,
    second: Records<S>,
    fault: PairFault,
) -> PairRefusal<S>
    ensures { result ≡ (Some first.conn, Some second.conn, fault) }
{
    (Some(first.close()), Some(second.close()), fault)
}

/// Opens two databases that are marked as one of two as the book of one site.
///
/// The longer is taken, and the shorter is brought up to it. An error gives both back, but for one that is not opened.
/// `Short` may have added entries to the shorter, and before `Replay` it was brought up. Of other errors what comes back is as
/// it was.
pub fn open_pair<S: Alter + Drop, W: Survivor>(
    alloc: Global,
    first: Connection<S>,
    second: Connection<S>,
) -> Result<SiteBook<Pair<S, W>>, PairRefusal<S>>
    ensures opened { IfOk result (IsPairBook S.Store first second W.is_first) }
    ensures refused { IfErr result
        (λ e. RefusesPair S.Store first second W.is_first e.0 e.1 e.2) }
{
    if !is_one_of_two(&first) || !is_one_of_two(&second) {
        return Err((Some(first), Some(second), PairFault::NotPaired));
    }
    let (first, one, meta) = match Records::open(alloc, first) {
        Ok(read) => read,
        Err(fault) => return Err((None, Some(second), PairFault::Opening { fault })),
    };
    let (second, other, copy) = match Records::open(alloc, second) {
        Ok(read) => read,
        Err(fault) => return Err((Some(first.close()), None, PairFault::Opening { fault })),
    };
    if meta != copy {
        return Err(refusal(first, second, PairFault::OtherSite));
    }
    let (mirror, entries) = match open::<Records<S>, Records<S>, W>(first, one, second, other) {
        Ok(opened) => opened,
        Err((first, second, fault)) => return Err(refusal(first, second, PairFault::from(fault))),
    };
    match SiteBook::start(alloc, mirror, entries, meta) {
        Ok(book) => Ok(book),
        Err((mirror, fault)) => {
            let (first, second) = mirror.into_parts();
            Err(refusal(first, second, PairFault::Replay { fault }))
        }
    }
}

/// The two databases of a book, with their stores as they are.
pub fn close_pair<S: Alter + Drop, W: Survivor>(
    book: SiteBook<Pair<S, W>>,
) -> (Connection<S>, Connection<S>)
    ensures { result ≡ (book.keeper.first.conn, book.keeper.second.conn) }
{
    let (first, second) = book.into_keeper().into_parts();
    (first.close(), second.close())
}
