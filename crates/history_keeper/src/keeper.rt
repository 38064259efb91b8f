//! What every keeper promises.
ghost use Rattle.std.specs.Prelude.{◌≡◌, ◌≢◌, ℕ, List, Option, [], ◌∷◌, ◌++◌, OnOk, OnErr, IsErrOf, MatchResult};
ghost use Rattle.book_core.specs.declared.entry.Entry.{Entry as Entered};
ghost use Rattle.history_keeper.specs.declared.meta.Meta.{Meta};
ghost use Rattle.history_keeper.specs.Keeping.{Keeps, RestsAt, LeavesAllOrNone, LeavesWithOrWithout};

use book_core::Entry;
use std::alloc::AllocError;
use thiserror::Error;

/// Why an entry is not known to be kept.
#[derive(Clone, Copy, Debug, PartialEq, Eq, Error)]
pub enum KeepFault {
    /// Memory was refused. Whether the entry is kept is known once the store is opened again.
    #[error("out of memory")]
    Memory,
    /// The store could not be written, or has no room for the entry. Whether it has it is known once it is opened again.
    #[error("the store could not be written")]
    Disk,
    /// An earlier call failed: an append, or a look-up in records.
    #[error("an earlier append failed")]
    Shut,
}

impl From<AllocError> for KeepFault {
    ghost use Rattle.std.specs.Prelude.{◌≡◌};
    ghost use Rattle.history_keeper.specs.declared.keeper.KeepFault.TheVariants.{Memory};

    ghost from_gives = { λ _ fault. fault ≡ Memory };

    fn from(_error: AllocError) -> KeepFault {
        KeepFault::Memory
    }
}

/// What a history is stored in: a list of entries that grows at its end.
pub trait Keeper {
    /// The entries that are kept, the oldest first.
    ghost kept: { Self → List Entered };

    /// The lists that an open reads after a stop at this moment, and `None` where it would not read one.
    ghost may_leave: { Self → Option (List Entered) → Type 0 };

    /// A stop at this moment leaves the records of a site with these numbers, as far as they tell them.
    ghost is_of: { Self → Meta → Type 0 };

    /// 0, or 1 once a call has failed: the keeper is shut.
    ghost failed: { Self → ℕ };

    /// Nothing else has written the store, and it has returned what was written.
    ghost is_trusted: { Self → Type 0 };

    /// Adds the entry at the end. After the first error a stop leaves the list with the entry or without, and the keeper is
    /// shut: each later append answers `Shut` and changes nothing.
    fn append(&mut self, entry: &Entry) -> Result<(), KeepFault>
        ensures kept { OnOk result (is_trusted self.new
            → Keeps (kept self.old ++ entry.now ∷ []) (kept self.new) (may_leave self.new)) }
        ensures stopped { failed self.old ≡ 0 → OnErr result (is_trusted self.new
            → LeavesWithOrWithout (kept self.old) entry.now (may_leave self.new)) }
        ensures open { OnOk result ((failed self.old ≡ 0) × (failed self.new ≡ 0)) }
        ensures counted { failed self.old ≡ 0 → OnErr result (failed self.new ≡ 1) }
        ensures named { failed self.old ≡ 0 → IsErrOf result KeepFault.Shut → ⊥ }
        ensures shut { failed self.old ≢ 0 → (result ≡ Err KeepFault.Shut) × (self.new ≡ self.old) }
        ensures site { is_trusted self.new
            → (meta : Meta) → is_of self.old meta → is_of self.new meta }
        ensures trusted { is_trusted self.new → is_trusted self.old };

    /// Adds the entries at the end, all at once. After the first error a stop leaves the list with all of them or with none,
    /// and the keeper is shut, as behind `append`.
    fn append_all(&mut self, entries: &[Entry]) -> Result<(), KeepFault>
        ensures kept { OnOk result (is_trusted self.new
            → Keeps (kept self.old ++ entries.now) (kept self.new) (may_leave self.new)) }
        ensures stopped { failed self.old ≡ 0 → OnErr result (is_trusted self.new
            → LeavesAllOrNone (kept self.old) entries.now (may_leave self.new)) }
        ensures counted { failed self.old ≡ 0
            → MatchResult result (λ _. failed self.new ≡ 0) (λ _. failed self.new ≡ 1) }
        ensures named { failed self.old ≡ 0 → IsErrOf result KeepFault.Shut → ⊥ }
        ensures shut { failed self.old ≢ 0
            → (result ≡ Err KeepFault.Shut) × (self.new ≡ self.old) }
        ensures site { is_trusted self.new → (meta : Meta)
            → is_of self.old meta → is_of self.new meta }
        ensures trusted { is_trusted self.new → is_trusted self.old };

    /// 0, or 1 once a call has failed: the keeper is shut. As long as none has, a stop leaves what is kept.
    fn failures(&self) -> u64
        ensures counted { result ≡ failed self.now }
        ensures rest { RestsAt result (is_trusted self.now) (kept self.now) (may_leave self.now) };

    /// A stop leaves something, also once the keeper is shut.
    ghost survives: { (k : Self) → is_trusted k → ∥ ((left : Option (List Entered)) × may_leave k left) ∥₁ };
}
