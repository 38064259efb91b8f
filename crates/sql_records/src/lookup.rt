//! Why the records do not answer a question.
use crate::fault::told;
use sqlite::Error as StoreError;
use std::alloc::AllocFailed;
use thiserror::Error;

/// Why a question to the records has no answer. Each but `Shut` shuts the records, which change nothing then.
#[derive(Clone, Copy, Debug, PartialEq, Eq, Error)]
pub enum FindFault {
    /// An earlier call failed.
    #[error("an earlier call failed")]
    Shut,
    /// The row at this place, or at 0 where it tells none, does not read as a request: the store does not return what was
    /// written to it.
    #[error("the row at place {place} is damaged")]
    Damaged { place: u64 },
    /// Memory was refused.
    #[error("out of memory")]
    Memory,
    /// The store could not be read.
    #[error("the store could not be read")]
    Disk,
}

impl From<StoreError> for FindFault {
    ghost use Rattle.std.specs.Prelude.{◌≡◌};
    ghost use Rattle.sql_records.specs.Faults.{told};
    ghost use Rattle.sql_records.specs.declared.lookup.FindFault.TheVariants.{Memory, Disk};

    ghost from_gives = { λ error fault. fault ≡ told Memory Disk error };

    fn from(error: StoreError) -> FindFault {
        told(FindFault::Memory, FindFault::Disk, error)
    }
}

impl<T: Drop> From<AllocFailed<T>> for FindFault {
    ghost use Rattle.std.specs.Prelude.{◌≡◌};
    ghost use Rattle.sql_records.specs.declared.lookup.FindFault.TheVariants.{Memory};

    ghost from_gives = { λ _ fault. fault ≡ Memory };

    fn from(_error: AllocFailed<T>) -> FindFault {
        FindFault::Memory
    }
}
