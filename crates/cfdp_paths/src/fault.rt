//! Why octets spell no path.

ghost use Rattle.std.specs.Prelude.{◌≡◌, Some};
ghost use Rattle.cfdp_paths.specs.Words.{path_fault_text};
ghost use Rattle.cfdp_paths.specs.declared.fault.PathFault.TheVariants.{Memory};

use std::alloc::AllocError;
use std::error::Error;
use std::fmt;

/// Why octets spell no path, or why the path that they spell was not made.
#[derive(Debug, Clone, Copy, PartialEq, Eq)]
pub enum PathFault {
    /// There are no octets, or `/` alone.
    Empty,
    /// A name has no octets, as the last one of `a/`.
    EmptyName,
    /// A name is `.` or `..`, or holds the octet 0.
    BadName,
    /// A name has more than 96 octets.
    NameTooLong,
    /// There are more than 8 names.
    TooDeep,
    /// There was no memory for the path.
    Memory,
}

impl PathFault {
    /// The fault in words.
    fn words(self) -> &'static str
        ensures { result.now ≡ path_fault_text self }
    {
        match self {
            PathFault::Empty => "the path has no name",
            PathFault::EmptyName => "a name of the path is empty",
            PathFault::BadName => "a name of the path is `.` or `..`, or holds the octet 0",
            PathFault::NameTooLong => "a name of the path has more than 96 octets",
            PathFault::TooDeep => "the path has more than 8 names",
            PathFault::Memory => "no memory for the path",
        }
    }
}

impl fmt::Display for PathFault {
    ghost output = { λ fault. Some (path_fault_text fault) };

    fn fmt<W: fmt::Write>(&self, f: &mut fmt::Formatter<W>) -> fmt::Result {
        f.write_str(self.words())
    }
}

impl Error for PathFault {}

impl From<AllocError> for PathFault {
    ghost from_gives = { λ _ fault. fault ≡ Memory };

    fn from(_refusal: AllocError) -> PathFault {
        Self::Memory
    }
}
