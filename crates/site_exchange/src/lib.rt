//! Messages between sites: what is due to a peer, what a site does with what comes, and acknowledgements (JPDC 2018).
//!
//! A message is a delta with its sender, its receiver and the length of the sender's history that it covers, or the
//! acknowledgement of one. `Exchange` holds how much of the history each peer has acknowledged and gives the next
//! message (`next`). `check` judges whom a message is for and from; `ack_for` is the answer to a delta that was taken.
//!
//! Guaranteed: the message that is due is the join of the entries that its peer has not acknowledged, and none where
//! it has acknowledged all; an acknowledged length never decreases; the first refusal in a fixed order is returned. A
//! message is believed to be of the site that it names: that it is, is a premise.
//!
//! A new message is a variant of `Message`, with its case in `check`, `specs/Exchange.antt` and `Taking.antt`, and a
//! text in `delta_wire`. A new reason to refuse one is a variant of `CheckFault`, in its place of the order.
//!
//! Lemmas for callers: `Counts`, `ExchangeLaws`, `Verdicts`.
#![tactic(auto)]

pub mod checking;
pub mod exchange;
pub mod message;
pub mod upto;

pub use checking::{ack_for, check};
pub use exchange::Exchange;
pub use message::{CheckFault, Message, TakeFault};
pub use upto::Upto;
