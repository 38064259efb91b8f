//! The links between all sites of a process.

ghost use Rattle.std.specs.Prelude.{◌≡◌, ◌++◌, ◌∷◌, [], ◌<◌, All, IfOk, map};
ghost use Rattle.session_server.specs.Mesh.{AreJoined, CameTo, GotPeer, IsMesh, IsNewPeer, each_with, linkage_of, others_of, peers_of};

use crate::peer::Peer;
use crate::site::Site;
use history_keeper::Keeper;
use link_queue::link;
use rights_lattice::SiteId;
use std::alloc::{AllocError, Global};
use std::io::{Read, Write};

// A site with its ends of its links.
#[derive(Drop)]
pub(crate) struct LinkedSite<K: Keeper + Drop, R: Read + Drop, W: Write + Drop> {
    pub(crate) site: Site<K, R, W>,
    pub(crate) peers: Vec<Peer>,
}

// Four links between two sites: the ends of the first, and those of the other.
fn pair(
    alloc: Global,
    capacity: usize,
    one: SiteId,
    other: SiteId,
) -> Result<(Peer, Peer), AllocError>
    requires { 0 < capacity }
    ensures joined { IfOk result (λ r. AreJoined (linkage_of r.0, linkage_of r.1)) }
    ensures new { IfOk result (λ r. IsNewPeer r.0 × IsNewPeer r.1) }
    ensures named { IfOk result (λ r. (r.0.to ≡ other) × (r.1.to ≡ one)) }
{
    let (there_delta_tx, there_delta_rx) = link(alloc, capacity)?;
    let (there_ack_tx, there_ack_rx) = link(alloc, capacity)?;
    let (back_delta_tx, back_delta_rx) = link(alloc, capacity)?;
    let (back_ack_tx, back_ack_rx) = link(alloc, capacity)?;
    Ok((
        Peer {
            to: other,
            delta_tx: there_delta_tx,
            ack_tx: there_ack_tx,
            delta_rx: back_delta_rx,
            ack_rx: back_ack_rx,
        },
        Peer {
            to: one,
            delta_tx: back_delta_tx,
            ack_tx: back_ack_tx,
            delta_rx: there_delta_rx,
            ack_rx: there_ack_rx,
        },
    ))
}

// Each site with a link of each kind to each other site.
pub(crate) fn link_all<K: Keeper + Drop, R: Read + Drop, W: Write + Drop>(
    alloc: Global,
    sites: Vec<Site<K, R, W>>,
    capacity: usize,
) -> Result<Vec<LinkedSite<K, R, W>>, AllocError>
    requires { 0 < capacity }
    ensures sites { IfOk result (λ linked. map (λ l. l.site) linked.items ≡ sites.items) }
    ensures mesh { IfOk result
        (λ linked. IsMesh (map (λ l. map linkage_of l.peers.items) linked.items)) }
    ensures new { IfOk result (λ linked. All (λ l. All IsNewPeer l.peers.items) linked.items) }
    ensures named { IfOk result (λ linked. map (λ l. peers_of l.peers.items) linked.items
        ≡ others_of (map (λ l. l.site.book.book.office.me) linked.items)) }
{
    let mut linked: Vec<LinkedSite<K, R, W>> = Vec::new(alloc);
    for site in sites {
        linked = with_site(alloc, capacity, linked, site)?;
    }
    Ok(linked)
}

// Links a new site with each before it.
fn with_site<K: Keeper + Drop, R: Read + Drop, W: Write + Drop>(
    alloc: Global,
    capacity: usize,
    earlier: Vec<LinkedSite<K, R, W>>,
    site: Site<K, R, W>,
) -> Result<Vec<LinkedSite<K, R, W>>, AllocError>
    requires capacity { 0 < capacity }
    requires mesh { IsMesh (map (λ l. map linkage_of l.peers.items) earlier.items) }
    requires new { All (λ l. All IsNewPeer l.peers.items) earlier.items }
    requires named { map (λ l. peers_of l.peers.items) earlier.items
        ≡ others_of (map (λ l. l.site.book.book.office.me) earlier.items) }
    ensures sites { IfOk result
        (λ linked. map (λ l. l.site) linked.items ≡ map (λ l. l.site) earlier.items ++ site ∷ []) }
    ensures mesh { IfOk result
        (λ linked. IsMesh (map (λ l. map linkage_of l.peers.items) linked.items)) }
    ensures new { IfOk result (λ linked. All (λ l. All IsNewPeer l.peers.items) linked.items) }
    ensures named { IfOk result (λ linked. map (λ l. peers_of l.peers.items) linked.items
        ≡ others_of (map (λ l. l.site.book.book.office.me) linked.items)) }
{
    let (mut linked, peers) = linked_with(alloc, capacity, site.book.book().me(), earlier)?;
    linked.push(LinkedSite { site, peers })?;
    Ok(linked)
}

// Links the site with each of these, which get its other ends.
fn linked_with<K: Keeper + Drop, R: Read + Drop, W: Write + Drop>(
    alloc: Global,
    capacity: usize,
    me: SiteId,
    earlier: Vec<LinkedSite<K, R, W>>,
) -> Result<(Vec<LinkedSite<K, R, W>>, Vec<Peer>), AllocError>
    requires { 0 < capacity }
    ensures sites { IfOk result
        (λ r. map (λ l. l.site) r.0.items ≡ map (λ l. l.site) earlier.items) }
    ensures came { IfOk result (λ r. CameTo (map (λ l. map linkage_of l.peers.items) earlier.items)
        (map (λ l. map linkage_of l.peers.items) r.0.items) (map linkage_of r.1.items)) }
    ensures named { IfOk result (λ r. (map (λ l. peers_of l.peers.items) r.0.items
        ≡ each_with (map (λ l. peers_of l.peers.items) earlier.items) (map (λ l. me) earlier.items))
        × (peers_of r.1.items ≡ map (λ l. l.site.book.book.office.me) earlier.items)) }
    ensures new { IfOk result
        (λ r. All IsNewPeer r.1.items × (All (λ l. All IsNewPeer l.peers.items) earlier.items
        → All (λ l. All IsNewPeer l.peers.items) r.0.items)) }
{
    let mut linked = Vec::new(alloc);
    let mut peers = Vec::new(alloc);
    for one in earlier {
        let (other, here) = link_with(alloc, capacity, me, one)?;
        linked.push(other)?;
        peers.push(here)?;
    }
    Ok((linked, peers))
}

// Links the site with another, which gets its ends.
fn link_with<K: Keeper + Drop, R: Read + Drop, W: Write + Drop>(
    alloc: Global,
    capacity: usize,
    me: SiteId,
    other: LinkedSite<K, R, W>,
) -> Result<(LinkedSite<K, R, W>, Peer), AllocError>
    requires { 0 < capacity }
    ensures site { IfOk result (λ r. r.0.site ≡ other.site) }
    ensures peers { IfOk result (λ r. GotPeer other.peers.items r.0.peers.items r.1) }
    ensures named { IfOk result (λ r. (peers_of r.0.peers.items
        ≡ peers_of other.peers.items ++ me ∷ []) × (r.1.to ≡ other.site.book.book.office.me)) }
{
    let LinkedSite { site, mut peers } = other;
    let (there, here) = pair(alloc, capacity, site.book.book().me(), me)?;
    peers.push(there)?;
    Ok((LinkedSite { site, peers }, here))
}
