//! The text of a message that comes to an office.

ghost use Rattle.std.specs.Prelude.{◌≡◌, Err};
ghost use Rattle.site_exchange.specs.declared.message.TakeFault.TheVariants.{Store};
ghost use Rattle.live_office.specs.declared.importing.ImportFault.TheVariants.{Refused};
ghost use Rattle.live_office.specs.Admissible.{IsShut, admissible};
ghost use Rattle.live_office.specs.Importing.{IsImported};

use delta_wire::{WireFault, read_message};
use history_keeper::Keeper;
use site_desk::{Desk, Opens, Taken};
use site_exchange::TakeFault;
use std::alloc::Global;
use std::sync::Wait;
use thiserror::Error;

/// Why a message is not taken.
#[derive(Clone, Copy, PartialEq, Eq, Debug, Error)]
pub enum ImportFault {
    /// The text is no message, or memory was refused for it.
    #[error("the text is no message")]
    Unread { fault: WireFault },
    /// The book does not take the message.
    #[error("the message is not taken")]
    Refused { fault: TakeFault },
}

/// Takes the message that the bytes spell, and gives the acknowledgement that is to go back.
///
/// Errors are those of `read_message`, which change nothing, and of `Desk::take`: after `Store` the book is closed.
pub fn import_at<T: Wait, K: Keeper, L: Opens>(
    rt: &T,
    alloc: Global,
    desk: &Desk<K, L>,
    bytes: &[u8],
) -> Result<Taken, ImportFault>
    ensures imported { IsImported (admissible L.office L.began K.Keeper) bytes.now result }
    ensures shut { result ≡ Err (Refused Store) → IsShut (admissible L.office L.began K.Keeper) }
{
    let message = match read_message(alloc, bytes) {
        Ok(message) => message,
        Err(fault) => return Err(ImportFault::Unread { fault }),
    };
    match desk.take(rt, message) {
        Ok(taken) => Ok(taken),
        Err(fault) => Err(ImportFault::Refused { fault }),
    }
}
