//! Where items end.

/// Where the items of a text end.
#[derive(Clone, Copy, PartialEq, Eq, Debug)]
pub enum Ending {
    /// At the line `end`, behind which nothing stands.
    AtEndLine,
    /// Where the bytes end at the beginning of a line.
    AtEndOfBytes,
}
