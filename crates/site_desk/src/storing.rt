//! Entries are kept before they are entered.
ghost use Rattle.std.specs.Prelude.{◌≡◌, ◌++◌, ◌∷◌, [], OnOk, OnErr};
ghost use Rattle.book_core.specs.OwnRow.{HasOwnRights, LeavesOwnRow};
ghost use Rattle.book_core.specs.Plans.{IsReady};
ghost use Rattle.site_desk.specs.Storing.{Appends, IsStoredBy};

use book_core::{Book, Planned};
use history_keeper::{KeepFault, Keeper};

// Keeps a planned entry, and enters it only then.
pub(crate) fn store<K: Keeper>(
    book: &mut Book,
    keeper: &mut K,
    planned: Planned,
) -> Result<(), KeepFault>
    requires ready { IsReady book.old planned }
    requires stored { IsStoredBy K.Keeper
        keeper.old book.old.history }
    ensures office { book.new.office ≡ book.old.office }
    ensures entered { OnOk result (book.new.history ≡ book.old.history ++ planned ∷ []) }
    ensures unchanged { OnErr result (book.new ≡ book.old) }
    ensures appends { Appends K.Keeper
        keeper.old keeper.new book.old.history book.new.history planned result }
    ensures own_row { OnOk result (LeavesOwnRow planned book.old book.new) }
    ensures has_rights { OnOk result (HasOwnRights book.new) }
{
    keeper.append(planned.entry())?;
    book.enter(planned);
    Ok(())
}
