//! The numbers of a site's records.
use book_core::Limit;
use rights_lattice::{SiteId, Sites};

/// Whose history the records hold, among how many sites it began, and how long it may become.
#[derive(Clone, Copy, Debug, PartialEq, Eq)]
pub struct Meta {
    pub me: SiteId,
    pub sites: Sites,
    pub limit: Limit,
}
