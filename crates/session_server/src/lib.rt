//! Sessions: lines in, reply lines out, one by one or each in a thread of its own; and sites that run at once.
//!
//! `talk` answers the lines of a reader by an `Answerer`: `BookAnswerer` (the book of a site) or `SeatAnswerer` (a seat at a
//! desk). `serve_all` gives each session a thread. `exchange_all` sends and receives over links. `run_all` runs
//! several sites, each with its sessions and its links to all others. `listen` takes connections of this machine.
//!
//! Guaranteed: what a session's writer gets is exactly the reply lines of the answers, in order, up to a failed write,
//! and a session in a thread has one receipt or look for each line that was answered with one. Of each link what was
//! got is a prefix of what was put, and each site's book extends the history that was handed in. Who answers whom
//! first, and that a call which waits returns, is not proved.
//!
//! What answers lines is another `Answerer`. A new line of sessions is a case of both answerers and of
//! `specs/BookStep.antt` and `SeatStep.antt`, and of the seat in `live_office`.
//!
//! Lemmas for callers: `Books`, `Sessions`, `Sites`.
#![tactic(auto)]

mod answerer;
mod book_answerer;
mod exchange;
mod fault;
mod link_ends;
mod links;
mod one_site;
mod peer;
mod receiving;
mod replica;
mod run;
mod seat_answerer;
mod seating;
mod sending;
mod serve;
mod session;
mod settling;
mod site;
mod sockets;
mod talk_over;
mod threads;

pub use answerer::Answerer;
pub use book_answerer::BookAnswerer;
pub use exchange::{ExchangeFault, exchange_all};
pub use fault::{Ended, TalkFault};
pub use peer::{Peer, PeerEnd};
pub use run::run_all;
pub use seat_answerer::SeatAnswerer;
pub use serve::serve_all;
pub use session::{Session, SessionEnd};
pub use site::{LinkEnd, Site, SiteEnd, Visit};
pub use sockets::{ListenFault, listen};
pub use talk_over::talk;
