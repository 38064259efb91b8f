//! What all callers of an office share.

use crate::callers::Callers;
use crate::closing::Closing;
use crate::gauge::Gauge;
use crate::sparing::Sparing;
use crate::together::Together;
use history_keeper::Keeper;
use site_desk::{Desk, Opens};
use std::alloc::Global;

/// What all callers of an office share: the desk, where they ask together, what closes the office, how many they are, how
/// long the history is and how it is spared.
#[derive(Drop)]
pub struct Shared<'a, K: Keeper, L: Opens> {
    pub alloc: Global,
    pub desk: &'a Desk<K, L>,
    pub together: &'a Together<K, L>,
    pub closing: &'a Closing,
    pub callers: &'a Callers,
    pub gauge: &'a Gauge,
    pub sparing: Sparing,
}
