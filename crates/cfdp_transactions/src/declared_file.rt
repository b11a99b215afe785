//! What Metadata declare of their file: whether there is one, and how long it may be.

ghost use Rattle.std.specs.Prelude.{◌≡◌};
ghost use Rattle.cfdp_transactions.specs.Entry.{has_file};
ghost use Rattle.cfdp_transactions.specs.World.{bound};

use crate::Config;
use cfdp_pdus::Metadata;

/// Whether the transaction has a file: its destination file name is not empty.
pub(crate) fn names_file(metadata: &Metadata) -> bool
    ensures { result ≡ has_file metadata.now }
{
    !metadata.destination_name.is_empty()
}

/// How many octets the transaction's file may have: none without a file, the declared size, or the cap where that is 0,
/// which says that the size is unbounded.
pub(crate) fn bound_of(config: &Config, metadata: &Metadata) -> u64
    ensures { result ≡ bound config.now metadata.now }
{
    if !names_file(metadata) {
        0
    } else if metadata.size == 0 {
        config.cap()
    } else {
        metadata.size
    }
}
