//! The books of all sites, stopped and looked at side by side.
ghost use Rattle.std.specs.Prelude.{◌≡◌, ◌<◌, ◌↔◌, ℕ, None, Err, IfOk, IfSome, IsTrue};
ghost use Rattle.rights_lattice.specs.Sums.{max_sites};
ghost use Rattle.book_core.specs.Legal.{IsLegal};
ghost use Rattle.world_steps.specs.Audit.{books_of, events_in, lines_in, totals_in};
ghost use Rattle.world_steps.specs.Sites.{AreSites, IsFirstAhead, IsFirstPassed, IsWhole, NoneIsAhead, SeesNoneAbove, StandsAt};
ghost use Rattle.book_core.specs.Books.{AreNotOversold};

use crate::books::{add_names, listed, with_own};
use book_core::Book;
use local_rights::Totals;
use rights_lattice::{Event, SiteId};
use std::alloc::{AllocError, Global};
use std::collections::BTreeSet;
use thiserror::Error;

/// Why books were not summed up, in the order in which the faults are told.
#[derive(Clone, Copy, PartialEq, Eq, Debug, Error)]
pub enum AuditFault {
    /// A book is not of the site that its place names, or counts more sites than there are books.
    #[error("the books are not those of all sites")]
    NotWhole,
    /// The viewer's book shows more of the owner's row than the owner's own book does.
    #[error("a site knows more of a row than its owner")]
    Ahead { viewer: SiteId, owner: SiteId },
    /// Memory was refused.
    #[error("out of memory")]
    Memory,
}

impl From<AllocError> for AuditFault {
    ghost use Rattle.std.specs.Prelude.{◌≡◌};
    ghost use Rattle.world_steps.specs.declared.auditing.AuditFault.TheVariants.{Memory};

    ghost from_gives = { λ _ fault. fault ≡ Memory };

    fn from(_error: AllocError) -> AuditFault {
        AuditFault::Memory
    }
}

/// Each name that a book knows, rising, with what all books released, sold and took back of it: the sums over the
/// flat list of the requests that were done.
///
/// The k-th book is that of site k. `NotWhole` where a book is of another site, or counts more sites than there are
/// books; else `Ahead` where a book shows more of a row than the book of its owner does, with the least such viewer and
/// then the least owner; and `Memory` last. An empty list of books is whole, and has no names to list. What messages
/// the books took does not matter: no more is outstanding than was released wherever this is Ok.
pub fn audit(alloc: Global, books: &[&Book]) -> Result<Vec<(Event, Totals)>, AuditFault>
    ensures not_whole { (result ≡ Err AuditFault.NotWhole) ↔ (IsWhole (books_of books.now) → ⊥) }
    ensures ahead { (v o : ℕ) → result ≡ Err (AuditFault.Ahead v o)
        → IsWhole (books_of books.now) × IsFirstAhead (books_of books.now) v o }
    ensures memory { result ≡ Err AuditFault.Memory
        → IsWhole (books_of books.now) × NoneIsAhead (books_of books.now) }
    ensures in_order { IfOk result
        (λ _. IsWhole (books_of books.now) × NoneIsAhead (books_of books.now)) }
    ensures lines { IfOk result (λ lines. lines.items ≡ lines_in (books_of books.now)) }
    ensures not_oversold { IfOk result (λ _. AreNotOversold (books_of books.now)) }
{
    if !is_whole(books) {
        return Err(AuditFault::NotWhole);
    }
    if let Some((viewer, owner)) = first_ahead(books) {
        return Err(AuditFault::Ahead { viewer, owner });
    }
    Ok(lines(alloc, books)?)
}

/// Whether the k-th book is of site k, and counts no more sites than there are books.
pub fn is_whole(books: &[&Book]) -> bool
    ensures whole { IsTrue result ↔ IsWhole (books_of books.now) }
    ensures sites { IsTrue result → AreSites (books_of books.now) }
{
    for (place, book) in books.iter().enumerate() {
        if !stands_at(book, place, books.len()) {
            return false;
        }
    }
    true
}

// Whether a book is of the site with this number, and counts no more than so many sites.
fn stands_at(book: &Book, place: usize, sites: usize) -> bool
    ensures stands { IsTrue result ↔ StandsAt place sites book.now }
    ensures few { IsTrue result → place < max_sites }
    ensures own { book.now.office.me < book.now.office.sites }
    ensures legal { IsLegal book.now.office book.now.history }
{
    // Names what a book's length tells, that its history is legal, which the prover wants to see.
    let _ = book.len();
    book.me().number() as usize == place && book.sites().count() as usize <= sites
}

// The first site whose book shows more of a row than the book of its owner, and the first such owner.
fn first_ahead(books: &[&Book]) -> Option<(SiteId, SiteId)>
    requires whole { IsWhole (books_of books.now) }
    ensures found { IfSome result (λ ahead. IsFirstAhead (books_of books.now) ahead.0 ahead.1) }
    ensures none { result ≡ None → NoneIsAhead (books_of books.now) }
{
    for viewer in books {
        if let Some(owner) = first_passed(books, viewer) {
            return Some((viewer.me(), owner));
        }
    }
    None
}

// The first site of whose row a book shows more than that site's own book.
fn first_passed(books: &[&Book], viewer: &Book) -> Option<SiteId>
    requires whole { IsWhole (books_of books.now) }
    ensures found { IfSome result (IsFirstPassed (books_of books.now) viewer.now) }
    ensures none { result ≡ None → SeesNoneAbove (books_of books.now) viewer.now }
{
    for owner in books {
        if !viewer.sees_within(owner) {
            return Some(owner.me());
        }
    }
    None
}

// Each name that a book knows, rising, with its sums.
fn lines(alloc: Global, books: &[&Book]) -> Result<Vec<(Event, Totals)>, AllocError>
    requires sites { AreSites (books_of books.now) }
    ensures { IfOk result (λ lines. lines.items ≡ lines_in (books_of books.now)) }
{
    let mut lines = Vec::new(alloc);
    for event in events(alloc, books)? {
        lines.push((event, totals(books, event)))?;
    }
    Ok(lines)
}

// The names that a book knows, rising.
fn events(alloc: Global, books: &[&Book]) -> Result<Vec<Event>, AllocError>
    ensures { IfOk result (λ events. events.items ≡ events_in (books_of books.now)) }
{
    let mut names = BTreeSet::new(alloc);
    for book in books {
        add_names(&mut names, book)?;
    }
    listed(alloc, &names)
}

// What all books released, sold and took back of an event.
fn totals(books: &[&Book], event: Event) -> Totals
    requires sites { AreSites (books_of books.now) }
    ensures { result ≡ totals_in (books_of books.now) event }
{
    let mut totals = Totals {
        released: 0,
        sold: 0,
        refunded: 0,
    };
    for book in books {
        totals = with_own(totals, book, event);
    }
    totals
}
