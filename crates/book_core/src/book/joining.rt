//! What a peer's delta leads to.
ghost use Rattle.std.specs.Prelude.{IfOk, IfErr, ◌≡◌};
ghost use Rattle.rights_lattice.specs.State.{is_within, knows_all, reaches_all};
ghost use Rattle.rights_lattice.specs.RightsView.{are_within, is_cell_of};
ghost use Rattle.book_core.specs.History.{state_of, delta_of};
ghost use Rattle.book_core.specs.Joining.{foreign, is_foreign, is_of_sites, join_decision};
ghost use Rattle.book_core.specs.OwnRow.{HasOwnRights, KeepsOwnRow};
ghost use Rattle.book_core.specs.Plans.{IsJoinDecision, IsJoinPlan, IsJoinFault, LeavesJoinRoom};
ghost use Rattle.book_core.specs.BookView.{LacksRoomFor, office_now};
ghost use Rattle.book_core.specs.declared.entry.Entry.TheVariants.{Joined};

use crate::book::Book;
use crate::entry::Entry;
use crate::plan::{JoinDecision, JoinFault, JoinPlan, Planned};
use delta_mutators::Delta;
use rights_lattice::{Cell, Event, Mark, Rights, SiteId, Sites, owner};

impl Book {
    /// What a peer's delta leads to, where it is not refused: nothing, where the state has all of it, or a new entry.
    ///
    /// The book shows what it showed and loses no room in every case. Where a new entry is planned it has all the room
    /// that this takes. It makes no room but for a delta that joins. A refusal gives the delta back.
    pub fn plan_join(&mut self, peer: SiteId, delta: Delta) -> Result<JoinPlan, (Delta, JoinFault)>
        ensures unchanged { self.new ≡ record self.old { room = self.new.room } }
        ensures plan { IfOk result (IsJoinPlan self.new peer delta) }
        ensures own_row { IfOk result (KeepsOwnRow self.new) }
        ensures fault { IfErr result (λ e. (e.0 ≡ delta) × IsJoinFault self.new peer delta e.1) }
        ensures still { LeavesJoinRoom
            (join_decision self.old.office self.old.history peer delta) self.old self.new }
        ensures memory { IfErr result (λ e. e.1 ≡ JoinFault.Memory
            → LacksRoomFor self.old.room (Joined peer delta)) }
        ensures has_rights { HasOwnRights self.new }
    {
        // The prover opens the book, whose type says that its history is legal.
        let _ = &self.limit;
        match self.join_decision(peer, &delta) {
            JoinDecision::Joins => {}
            JoinDecision::NothingNew => return Ok(JoinPlan::NothingNew),
            JoinDecision::Refuses(fault) => return Err((delta, fault)),
        }
        let entry = Entry::Joined { peer, delta };
        if self.reserve(&entry).is_err() {
            return Err((delta_in(entry), JoinFault::Memory));
        }
        Ok(JoinPlan::New(Planned { entry }))
    }

    /// The decision on a peer's delta: the first that applies. It reads the delta where it lies, and wants no memory.
    ///
    /// `plan_join` follows it, so memory may be wanted of a delta that joins, and of no other.
    pub fn join_decision(&self, peer: SiteId, delta: &Delta) -> JoinDecision
        ensures { IsJoinDecision self.now peer delta.now result }
    {
        if !self.is_of_sites(peer, delta) {
            return JoinDecision::Refuses(JoinFault::UnknownSite);
        }
        if let Some(mark) = foreign(self.rights.rights(), self.me(), delta.marks()) {
            return JoinDecision::Refuses(JoinFault::ForeignRow { mark });
        }
        if self.has_all_of(delta) {
            return JoinDecision::NothingNew;
        }
        if self.is_full() {
            return JoinDecision::Refuses(JoinFault::Full);
        }
        JoinDecision::Joins
    }

    pub(super) fn is_of_sites(&self, peer: SiteId, delta: &Delta) -> bool
        ensures { result ≡ is_of_sites (office_now self.now) peer delta.now }
    {
        let sites = self.sites();
        peer.number() < sites.count() && peer != self.me() && are_within(sites, delta.marks())
    }

    pub(super) fn has_all_of(&self, delta: &Delta) -> bool
        ensures { result ≡ is_within delta.now (state_of self.now.history) }
    {
        self.knows_all(delta.names()) && self.reaches_all(delta.marks())
    }

    fn knows_all(&self, names: &[Event]) -> bool
        ensures { result ≡ knows_all (state_of self.now.history).names names.now }
    {
        names.iter().all(|name| self.knows(*name))
    }

    fn reaches_all(&self, marks: &[Mark]) -> bool
        ensures { result ≡ reaches_all (state_of self.now.history).cells marks.now }
    {
        marks
            .iter()
            .all(|mark| mark.value <= self.cell(mark.event, mark.cell))
    }
}

// The delta of an entry that is not entered.
fn delta_in(entry: Entry) -> Delta
    ensures { result ≡ delta_of entry }
{
    match entry {
        Entry::Asked { delta, .. } => delta,
        Entry::Joined { delta, .. } => delta,
        Entry::Grown { sites } => sites.into_delta(),
    }
}

fn are_within(sites: Sites, marks: &[Mark]) -> bool
    ensures { result ≡ are_within sites marks.now }
{
    marks.iter().all(|mark| is_cell_of(sites, &mark.cell))
}

fn is_cell_of(sites: Sites, cell: &Cell) -> bool
    ensures { result ≡ is_cell_of sites cell.now }
{
    match cell {
        Cell::Gave { by, to } => by.number() < sites.count() && to.number() < sites.count(),
        Cell::Used { by } | Cell::Back { by } => by.number() < sites.count(),
    }
}

// The first mark of the site's own row that is above its own value.
pub(super) fn foreign(rights: &Rights, me: SiteId, marks: &[Mark]) -> Option<Mark>
    ensures { result ≡ foreign me rights.now.cells marks.now }
{
    for mark in marks {
        if is_foreign(rights, me, mark) {
            return Some(*mark);
        }
    }
    None
}

fn is_foreign(rights: &Rights, me: SiteId, mark: &Mark) -> bool
    ensures { result ≡ is_foreign me rights.now.cells mark.now }
{
    owner(mark.cell) == me && rights.get(mark.event, mark.cell) < mark.value
}
