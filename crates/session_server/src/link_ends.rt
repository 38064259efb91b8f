//! What went through the links between sites.

ghost use Rattle.std.specs.Prelude.{◌≡◌, ℕ, ◌+◌, ◌++◌, All, IfOk, OnOk, length, map, vec_len};
ghost use Rattle.session_server.specs.Mesh.{IsMesh, linkage_left, others_of};
ghost use Rattle.session_server.specs.Settled.{AreLinksTold, IsLeftOfNew, ends_to, link_end as link_end_of, link_ends as ends_between};

use crate::peer::PeerEnd;
use crate::settling::{Through, Went, settle_all};
use crate::site::{LinkEnd, Site};
use history_keeper::Keeper;
use rights_lattice::SiteId;
use std::alloc::{AllocError, Global};
use std::io::{Read, Write};

// The numbers of the sites.
pub(crate) fn numbers<K: Keeper + Drop, R: Read + Drop, W: Write + Drop>(
    alloc: Global,
    sites: &Vec<Site<K, R, W>>,
) -> Result<Vec<SiteId>, AllocError>
    ensures { IfOk result (λ ids. ids.items ≡ map (λ s. s.book.book.office.me) sites.now.items) }
{
    let mut ids = Vec::new(alloc);
    for site in sites {
        ids.push(site.book.book().me())?;
    }
    Ok(ids)
}

// The links between the sites with these numbers, settled: each tells what its two ends tell, which exchanges for any count
// of rounds may have left.
pub(crate) fn link_ends(
    alloc: Global,
    sites: &[SiteId],
    ends: Vec<Vec<PeerEnd>>,
) -> Result<Vec<LinkEnd>, AllocError>
    requires count { vec_len ends ≡ length sites.now }
    requires mesh { IsMesh (map (λ row. map linkage_left row.items) ends.items) }
    requires named { map (λ row. map (λ e. e.to) row.items) ends.items ≡ others_of sites.now }
    ensures { IfOk result (λ links. (rounds : ℕ) → All (λ row. All (IsLeftOfNew rounds) row)
        (map (λ row. row.items) ends.items) → AreLinksTold rounds sites.now links.items) }
{
    let told = settle_all(alloc, ends)?;
    links_told(alloc, sites, &told)
}

// The links between the sites, with what went from each site to each other.
fn links_told(
    alloc: Global,
    sites: &[SiteId],
    told: &Vec<Vec<Went>>,
) -> Result<Vec<LinkEnd>, AllocError>
    requires sites { vec_len told.now ≡ length sites.now }
    requires others { All (λ row. vec_len row + 1 ≡ length sites.now) told.now.items }
    ensures { IfOk result
        (λ links. links.items ≡ ends_between sites.now (map (λ row. row.items) told.now.items)) }
{
    let mut links = Vec::new(alloc);
    for k in 0..sites.len() {
        let by = sites[k];
        let row = told[k].as_slice();
        add_links(&mut links, by, &sites[..k], &row[..k])?;
        add_links(&mut links, by, &sites[k + 1..], &row[k..])?;
    }
    Ok(links)
}

// Adds the links from one site to others.
fn add_links(
    links: &mut Vec<LinkEnd>,
    by: SiteId,
    others: &[SiteId],
    told: &[Went],
) -> Result<(), AllocError>
    requires { length told.now ≡ length others.now }
    ensures { OnOk result (links.new.items ≡ links.old.items ++ ends_to by others.now told.now) }
{
    for k in 0..others.len() {
        let to = others[k];
        let went = told[k];
        links.push(link_end(by, to, false, went.deltas))?;
        links.push(link_end(by, to, true, went.acks))?;
    }
    Ok(())
}

fn link_end(by: SiteId, to: SiteId, acks: bool, through: Through) -> LinkEnd
    ensures { result ≡ link_end_of by to acks through }
{
    LinkEnd {
        by,
        to,
        acks,
        put: through.put,
        got: through.got,
        refused: through.refused,
    }
}
