//! The limits of what a state names.

/// The greatest number of a site, whether the site is there or not.
pub const GREATEST_SITE: u64 = 63;

/// How many numbers there are for sites, from 0 on.
pub const SITE_NUMBERS: usize = GREATEST_SITE as usize + 1;

/// The greatest count of sites of a world.
pub const MOST_SITES: u64 = 64;

/// The most bytes of an event's name.
pub const LONGEST_NAME: usize = 32;
