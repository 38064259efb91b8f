//! The book of a site with the keeper of its history, and the desk at which sessions share it.
//!
//! `SiteBook` stores an entry before it applies it: `ask` a request, `take` a message, `grow` a count of sites. Where
//! an entry is not known to be stored the book is closed until it is started again from what the store holds. `Desk`
//! is that book behind one `Mutex`, with a count of new entries in which each `Seat` has a share; `finish` gives the
//! book back. `ask_all` of both answers several requests, whose entries are stored by one sync.
//!
//! Guaranteed: an open book's history is what its store holds, as far as that is trusted, and a crash leaves just
//! that. A call at a desk is answered as some admissible book would: legal, of this site, extending the initial
//! history, and consistent with its store; which one it was, no contract says. Several requests, asked together, made
//! another such book of one (`Moments.AsksAtDesk`). `finish` returns the first receipt or look that the history does not
//! hold.
//!
//! A new call is a method of `SiteBook` with a relation (`specs/Calls.antt`), one of `DeskState` with that relation,
//! one of `Desk` with the same at one moment (`specs/Moments.antt`), and a case of `Call` in `site_runs`.
#![tactic(auto)]

mod answer;
mod asking;
mod asking_all;
mod desk;
mod desk_state;
mod event_cells;
mod fault;
mod finish;
mod gate;
mod given;
mod growing;
mod joining;
mod looking_up;
mod receipt;
mod seat;
mod site_book;
mod storing;
mod walk;

pub use answer::{Answer, Seen, SiteShare, SiteStatus, Taken};
pub use desk::Desk;
pub use fault::{AskFault, LookFault, LookUpFault, NextFault};
pub use finish::FinishFault;
pub use gate::{Gate, NoGate, Place};
pub use receipt::Receipt;
pub use seat::{Opens, Seat};
pub use site_book::SiteBook;
