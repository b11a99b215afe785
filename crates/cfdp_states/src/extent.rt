//! What is at a path, without its octets.

ghost use Rattle.std.specs.Prelude.{◌≡◌, ◌<◌, ◌≤◌, ◌^◌};
ghost use Rattle.cfdp_states.specs.code.Sketching.{extent_weight, extent_content, weight_in};

use cfdp_actions::PAYLOAD_OCTETS;

/// What is at a path: a directory, or a file of at most this many octets.
#[derive(Clone, Copy, Debug, PartialEq, Eq)]
pub enum Extent {
    /// A directory.
    Directory,
    /// A file, with the most octets that it may have.
    File(u64),
}

impl Extent {
    /// The blocks of its octets: none for a directory.
    pub fn content(self) -> u64
        ensures value { result ≡ extent_content self }
        ensures within { result < 2 ^ 58 }
    {
        match self {
            Extent::Directory => 0,
            Extent::File(octets) => octets.div_ceil(PAYLOAD_OCTETS),
        }
    }

    /// All blocks that it takes: one, and those of its octets.
    pub fn blocks(self) -> u64
        ensures value { result ≡ extent_weight self }
        ensures within { result ≤ 2 ^ 58 }
    {
        1 + self.content()
    }
}

/// All blocks that an extent takes: none where there is none.
pub fn weigh(extent: Option<Extent>) -> u64
    ensures value { result ≡ weight_in extent }
    ensures within { result ≤ 2 ^ 58 }
{
    match extent {
        None => 0,
        Some(extent) => extent.blocks(),
    }
}
