//! Why a site's records are not made or not opened, and why an entry is not kept.
ghost use Rattle.std.specs.Prelude.{◌≡◌};
ghost use Rattle.history_keeper.specs.declared.keeper.KeepFault.TheVariants.{Memory, Disk};
ghost use Rattle.sql_records.specs.Faults.{told};

use history_keeper::KeepFault;
use sqlite::{Error as StoreError, ErrorCode};
use std::alloc::{AllocError, AllocFailed};
use thiserror::Error;

/// Why no new records were made.
#[derive(Clone, Copy, Debug, PartialEq, Eq, Error)]
pub enum InitFault {
    /// The database has a table or view with the name of one of ours.
    #[error("the database has a table of records")]
    AlreadyThere,
    /// Memory was refused.
    #[error("out of memory")]
    Memory,
    /// The database could not be written, or holds something else, or a transaction is open. It is as it was, or has the
    /// new records.
    #[error("the database could not be written")]
    Disk,
}

/// Why records are not opened.
#[derive(Clone, Copy, Debug, PartialEq, Eq, Error)]
pub enum OpenFault {
    /// The tables are not those of records, or the numbers in them are those of no site.
    #[error("the database holds no records of a site")]
    NotOurs,
    /// The records are of another version than is read here.
    #[error("the records have the schema {version}")]
    OtherSchema { version: i64 },
    /// The least place, below the number of rows, that has no row or whose row does not read as an entry.
    #[error("the entry {place} is damaged")]
    Damaged { place: u64 },
    /// Memory was refused.
    #[error("out of memory")]
    Memory,
    /// The database could not be read, or a transaction is open.
    #[error("the database could not be read")]
    Disk,
}

/// Why records are not migrated.
#[derive(Clone, Copy, Debug, PartialEq, Eq, Error)]
pub enum MigrateFault {
    /// The tables are not those of records, or the numbers in them are those of no site.
    #[error("the database holds no records of a site")]
    NotOurs,
    /// The records are of a version that is not known.
    #[error("the records have the schema {version}")]
    OtherSchema { version: i64 },
    /// The records are of the version already.
    #[error("there is nothing to migrate")]
    Nothing,
    /// The least place, below the number of rows, that has no row or whose row does not read as an entry of the first
    /// version; or, where each does, the first whose entry may not follow those before it.
    #[error("the entry {place} is damaged")]
    Damaged { place: u64 },
    /// Memory was refused.
    #[error("out of memory")]
    Memory,
    /// The database could not be read or written, or a transaction is open.
    #[error("the database could not be written")]
    Disk,
}

impl From<StoreError> for MigrateFault {
    ghost use Rattle.std.specs.Prelude.{◌≡◌};
    ghost use Rattle.sql_records.specs.Faults.{told};
    ghost use Rattle.sql_records.specs.declared.fault.MigrateFault.TheVariants.{Memory, Disk};

    ghost from_gives = { λ error fault. fault ≡ told Memory Disk error };

    fn from(error: StoreError) -> MigrateFault {
        told(MigrateFault::Memory, MigrateFault::Disk, error)
    }
}

impl From<StoreError> for InitFault {
    ghost use Rattle.std.specs.Prelude.{◌≡◌};
    ghost use Rattle.sql_records.specs.Faults.{told};
    ghost use Rattle.sql_records.specs.declared.fault.InitFault.TheVariants.{Memory, Disk};

    ghost from_gives = { λ error fault. fault ≡ told Memory Disk error };

    fn from(error: StoreError) -> InitFault {
        told(InitFault::Memory, InitFault::Disk, error)
    }
}

impl From<StoreError> for OpenFault {
    ghost use Rattle.std.specs.Prelude.{◌≡◌};
    ghost use Rattle.sql_records.specs.Faults.{told};
    ghost use Rattle.sql_records.specs.declared.fault.OpenFault.TheVariants.{Memory, Disk};

    ghost from_gives = { λ error fault. fault ≡ told Memory Disk error };

    fn from(error: StoreError) -> OpenFault {
        told(OpenFault::Memory, OpenFault::Disk, error)
    }
}

impl From<AllocError> for OpenFault {
    ghost use Rattle.std.specs.Prelude.{◌≡◌};
    ghost use Rattle.sql_records.specs.declared.fault.OpenFault.TheVariants.{Memory};

    ghost from_gives = { λ _ fault. fault ≡ Memory };

    fn from(_error: AllocError) -> OpenFault {
        OpenFault::Memory
    }
}

impl<T: Drop> From<AllocFailed<T>> for OpenFault {
    ghost use Rattle.std.specs.Prelude.{◌≡◌};
    ghost use Rattle.sql_records.specs.declared.fault.OpenFault.TheVariants.{Memory};

    ghost from_gives = { λ _ fault. fault ≡ Memory };

    fn from(_error: AllocFailed<T>) -> OpenFault {
        OpenFault::Memory
    }
}

/// Why an entry is not known to be kept, for an error of the store.
pub(crate) fn keep_fault(error: StoreError) -> KeepFault
    ensures { result ≡ told Memory Disk error }
{
    told(KeepFault::Memory, KeepFault::Disk, error)
}

/// The fault for an error of the store: the first for want of memory, the second for each other error.
pub(crate) fn told<F: Copy>(memory: F, disk: F, error: StoreError) -> F
    ensures { result ≡ told memory disk error }
{
    match error {
        StoreError::SqliteFailure(ErrorCode::OutOfMemory) => memory,
        _ => disk,
    }
}
