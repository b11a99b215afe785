//! What is at a path, as callers see it.

ghost use Rattle.std.specs.Prelude.{◌≡◌};
ghost use Rattle.cfdp_actions.specs.Store.{is_file_kind};

use cfdp_paths::Path;

/// What is at a path of a filestore.
#[derive(Clone, Copy, Debug, PartialEq, Eq)]
pub enum Kind {
    /// A file with its octets.
    File,
    /// A directory.
    Directory,
}

impl Kind {
    /// Whether it is a file.
    pub fn is_file(self) -> bool
        ensures { result ≡ is_file_kind self }
    {
        matches!(self, Kind::File)
    }
}

/// One line of a store's listing.
#[derive(Debug, Drop, PartialEq, Eq)]
pub struct Entry {
    /// Where it is.
    pub path: Path,
    /// Whether it is a file or a directory.
    pub kind: Kind,
    /// How many octets a file has; 0 for a directory.
    pub size: u64,
    /// A file's modular checksum (CCSDS 727.0-B-5, checksum procedures); 0 for a directory.
    pub checksum: u32,
}

/// What is at or below a path, with its size and without its octets.
#[derive(Debug, Drop, PartialEq, Eq)]
pub struct ExistingNode {
    /// Where it is.
    pub path: Path,
    /// Whether it is a file or a directory.
    pub kind: Kind,
    /// How many octets a file has; 0 for a directory.
    pub size: u64,
}
