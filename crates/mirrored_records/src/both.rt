//! An append to two keepers, one after the other.
ghost use Rattle.std.specs.Prelude.{◌≡◌, ◌∷◌, [], OnOk, IsErrOf};
ghost use Rattle.mirrored_records.specs.Mirrored.{AppendsBoth, AreOpen};

use book_core::Entry;
use history_keeper::{KeepFault, Keeper};

// Adds the entry at the end of both, to the second only after the first has it.
pub(crate) fn append_both<A: Keeper, B: Keeper>(
    first: &mut A,
    second: &mut B,
    entry: &Entry,
) -> Result<(), KeepFault>
    requires open { AreOpen A.Keeper B.Keeper first.old second.old }
    ensures open { OnOk result (AreOpen A.Keeper B.Keeper first.new second.new) }
    ensures appends { AppendsBoth A.Keeper B.Keeper
        first.old first.new second.old second.new (entry.now ∷ []) result }
    ensures named { IsErrOf result KeepFault.Shut → ⊥ }
{
    first.append(entry)?;
    second.append(entry)
}

// Adds the entries at the end of both, all at once, to the second only after the first has them.
pub(crate) fn append_all_both<A: Keeper, B: Keeper>(
    first: &mut A,
    second: &mut B,
    entries: &[Entry],
) -> Result<(), KeepFault>
    requires open { AreOpen A.Keeper B.Keeper first.old second.old }
    ensures open { OnOk result (AreOpen A.Keeper B.Keeper first.new second.new) }
    ensures appends { AppendsBoth A.Keeper B.Keeper
        first.old first.new second.old second.new entries.now result }
    ensures named { IsErrOf result KeepFault.Shut → ⊥ }
{
    first.append_all(entries)?;
    second.append_all(entries)
}
