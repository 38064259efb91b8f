//! A site that is to run beside others, and what it leaves.

use crate::session::SessionEnd;
use history_keeper::Keeper;
use rights_lattice::SiteId;
use site_desk::{FinishFault, SiteBook};
use std::io::{Read, Write};

/// A session that is to come to a site. The number is the one that a gate sees.
#[derive(Drop)]
pub struct Visit<R: Read + Drop, W: Write + Drop> {
    pub id: u64,
    pub reader: R,
    pub writer: W,
}

/// A site's book, and the sessions that come to it.
#[derive(Drop)]
pub struct Site<K: Keeper + Drop, R: Read + Drop, W: Write + Drop> {
    pub book: SiteBook<K>,
    pub sessions: Vec<Visit<R, W>>,
}

/// A site's book, its sessions in the order in which they were handed in, and whether they were given what the history
/// holds.
#[derive(Drop)]
pub struct SiteEnd<K: Keeper + Drop, R: Read + Drop, W: Write + Drop> {
    pub book: SiteBook<K>,
    pub sessions: Vec<SessionEnd<R, W>>,
    pub finished: Result<(), FinishFault>,
}

/// What went through a link from one site to another, of acknowledgements or of deltas: how many messages were put in,
/// how many came out, and its receiver's count of those that it did not take.
#[derive(Clone, Copy, PartialEq, Eq, Debug)]
pub struct LinkEnd {
    pub by: SiteId,
    pub to: SiteId,
    pub acks: bool,
    pub put: u64,
    pub got: u64,
    pub refused: u64,
}
