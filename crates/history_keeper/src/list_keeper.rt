//! A keeper in memory.
ghost use Rattle.std.specs.Prelude.{◌≡◌, ◌≢◌, ◌⊎◌, ◌++◌, [], ◌∷◌, Some, None, IsErr, false, true, refl};
ghost use Rattle.std.specs.Prelude.{OnOk, OnErr};
ghost use Rattle.history_keeper.specs.ListView.{AppendsAll, FailsNext, left_by, left_by_all};

use crate::keeper::{KeepFault, Keeper};
use book_core::Entry;
use std::alloc::{AllocError, Global};
use std::marker::Model;
use std::slice;

// Which append fails, counted from 1 from now on, and whether its entry is kept.
#[derive(Clone, Copy)]
struct Failing {
    append: u64,
    is_stored: bool,
}

/// A list in memory, whose appends fail where a test says so, or for want of memory.
#[derive(Drop)]
pub struct ListKeeper {
    alloc: Global,
    entries: Vec<Entry>,
    failures: u64,
    failing: Option<Failing>,
}

impl Model for ListKeeper {
    ghost use Rattle.history_keeper.specs.ListView.{ListView, coded_list_view};

    ghost Value = { ListView };

    ghost coded = { coded_list_view };

    ghost view = { λ k. record { kept = k.entries.items; failures = k.failures; failing = k.failing } };
}

impl ListKeeper {
    /// Nothing is kept, and no append is to fail.
    pub fn new(alloc: Global) -> ListKeeper
        ensures { result ≡ record { kept = []; failures = 0; failing = None } }
    {
        ListKeeper::from(alloc, Vec::new(alloc))
    }

    /// These entries are kept, and no append is to fail.
    pub fn from(alloc: Global, entries: Vec<Entry>) -> ListKeeper
        ensures { result ≡ record { kept = entries.items; failures = 0; failing = None } }
    {
        ListKeeper {
            alloc,
            entries,
            failures: 0,
            failing: None,
        }
    }

    /// The append with this number, counted from 1 from now on, answers `Disk`, and its entry is kept where `is_stored`; or
    /// `Memory`, where there is none to keep it, and it is not kept. The number 0 stands for the next append too.
    pub fn fail_at(&mut self, append: u64, is_stored: bool)
        ensures { self.new ≡ record self.old
            { failing = Some (record { append = append; is_stored = is_stored }) } }
    {
        self.failing = Some(Failing { append, is_stored });
    }

    /// The entries that are kept.
    pub fn into_entries(self) -> Vec<Entry>
        ensures { result.items ≡ self.kept }
    {
        let ListKeeper { entries, .. } = self;
        entries
    }
}

// Adds a copy of the entry.
fn push_copy(alloc: Global, entries: &mut Vec<Entry>, entry: &Entry) -> Result<(), AllocError>
    ensures ok { OnOk result (entries.new.items ≡ entries.old.items ++ entry.now ∷ []) }
    ensures err { OnErr result (entries.new.items ≡ entries.old.items) }
{
    let copy = entry.copy(alloc)?;
    entries.push(copy)?;
    Ok(())
}

// Adds copies of the entries, all or none.
fn push_copies(alloc: Global, entries: &mut Vec<Entry>, more: &[Entry]) -> Result<(), AllocError>
    ensures ok { OnOk result (entries.new.items ≡ entries.old.items ++ more.now) }
    ensures err { OnErr result (entries.new.items ≡ entries.old.items) }
{
    let before = entries.len();
    for entry in more {
        if push_copy(alloc, entries, entry).is_err() {
            entries.truncate(before);
            return Err(AllocError);
        }
    }
    Ok(())
}

impl Keeper for ListKeeper {
    ghost kept = { λ k. k.kept };

    ghost may_leave = { λ k left. left ≡ Some k.kept };

    ghost is_of = { λ k meta. Unit {0} };

    ghost failed = { λ k. k.failures };

    ghost is_trusted = { λ k. Unit {0} };

    ghost survives = { λ k _. ∣ (Some k.kept, refl) ∣₁ };

    /// As of every keeper; and `Disk` only where `fail_at` says so, with the entry kept where it says so. There the
    /// append is never Ok.
    fn append(&mut self, entry: &Entry) -> Result<(), KeepFault>
        ensures added { OnOk result (AppendsAll self.old (entry.now ∷ []) self.new) }
        ensures due { FailsNext self.old.failing → IsErr result }
        ensures disk { result ≡ Err KeepFault.Disk → FailsNext self.old.failing
            × (self.new.kept ≡ left_by self.old.failing self.old.kept entry.now) }
        ensures memory { result ≡ Err KeepFault.Memory → self.new.kept ≡ self.old.kept }
        ensures stopped { OnErr result
            ((self.new.kept ≡ self.old.kept) ⊎ (self.new.kept ≡ self.old.kept ++ entry.now ∷ [])) }
        ensures counted { self.old.failures ≡ 0 → OnErr result (self.new.failures ≡ 1) }
        ensures named { self.old.failures ≡ 0 → result ≢ Err KeepFault.Shut }
        ensures shut { self.old.failures ≢ 0
            → (result ≡ Err KeepFault.Shut) × (self.new ≡ self.old) }
    {
        self.append_all(slice::from_ref(entry))
    }

    /// As of every keeper; and `Disk` only where `fail_at` says so of the next append, with all entries kept where it says so.
    /// There it is never Ok.
    fn append_all(&mut self, entries: &[Entry]) -> Result<(), KeepFault>
        ensures added { OnOk result (AppendsAll self.old entries.now self.new) }
        ensures due { FailsNext self.old.failing → IsErr result }
        ensures disk { result ≡ Err KeepFault.Disk → FailsNext self.old.failing
            × (self.new.kept ≡ left_by_all self.old.failing self.old.kept entries.now) }
        ensures memory { result ≡ Err KeepFault.Memory → self.new.kept ≡ self.old.kept }
        ensures stopped { OnErr result ((self.new.kept ≡ self.old.kept)
            ⊎ (self.new.kept ≡ self.old.kept ++ entries.now)) }
        ensures counted { self.old.failures ≡ 0 → OnErr result (self.new.failures ≡ 1) }
        ensures named { self.old.failures ≡ 0 → result ≢ Err KeepFault.Shut }
        ensures shut { self.old.failures ≢ 0
            → (result ≡ Err KeepFault.Shut) × (self.new ≡ self.old) }
    {
        if self.failures > 0 {
            return Err(KeepFault::Shut);
        }
        let (is_due, is_stored) = match self.failing {
            Some(Failing { append, is_stored }) if append <= 1 => (true, is_stored),
            _ => (false, true),
        };
        if is_stored && push_copies(self.alloc, &mut self.entries, entries).is_err() {
            self.failures = 1;
            return Err(KeepFault::Memory);
        }
        if is_due {
            self.failures = 1;
            return Err(KeepFault::Disk);
        }
        if let Some(Failing { append, is_stored }) = self.failing {
            self.failing = Some(Failing {
                append: append.saturating_sub(1),
                is_stored,
            });
        }
        Ok(())
    }

    fn failures(&self) -> u64 {
        self.failures
    }
}
