//! The kind of the records, and its versions.
ghost use Rattle.std.specs.Prelude.{◌≡◌};
ghost use Rattle.sql_records.specs.Layout.{version_number};

// The kind that the records are of, as the row of `meta` says it.
pub(crate) const KIND: &[u8] = b"ticket-escrow";

/// A version of the records. Both have the same tables and columns.
#[derive(Clone, Copy, Debug, PartialEq, Eq)]
pub enum Version {
    /// A sale is given back whole, and no site grows.
    First,
    /// A sale is given back in parts too, and a site may grow. It is the version that is written.
    Second,
}

impl Version {
    /// The number that `meta` has for it.
    pub fn number(self) -> i64
        ensures { result ≡ version_number self }
    {
        match self {
            Version::First => 1,
            Version::Second => 2,
        }
    }
}
