//! Totals over all sites.

/// Seats of an event that all sites released, sold, and took back in refunds.
#[derive(Clone, Copy, PartialEq, Eq, Debug)]
pub struct Totals {
    pub released: u64,
    pub sold: u64,
    pub refunded: u64,
}

/// What a view shows of an event: the same sums over the cells that it knows, and the seats that are open by it, which
/// are none where the view is no position, as after a forged delta.
#[derive(Clone, Copy, PartialEq, Eq, Debug)]
pub struct ViewTotals {
    pub released: u64,
    pub sold: u64,
    pub refunded: u64,
    pub open_seats: Option<u64>,
}
