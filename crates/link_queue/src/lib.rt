//! A link from one sender to one receiver: what was got is a prefix of what was put.
//!
//! `link` gives the two ends of a bounded queue of messages, for two threads. `send` returns the message where the
//! receiver is gone; `recv` waits for the next message or says that the sender is gone. Each end is ended once, and
//! `settle` brings the two ended halves together.
//!
//! Guaranteed: messages come in the order in which they were sent, each at most once, none that was not sent. `settle`
//! proves of a link's two ends that what was got is a prefix of what was put. `specs/Link.antt` is the rule of the
//! queue; no contract says that a message arrives or that a call returns.
//!
//! A new thing that an end may do is a method in `ends.rt` that keeps the rule of `rule.rt` and `specs/Link.antt`,
//! which nothing else knows.
#![tactic(auto)]

mod ends;
mod item;
mod rule;

pub use ends::{Gone, Rx, RxEnd, Settled, Tx, TxEnd, link, settle};
