//! How octets are counted in blocks.

ghost use Rattle.std.specs.Prelude.{◌≡◌, ◌≤◌};
ghost use Rattle.cfdp_actions.specs.Filestore.{blocks_of};

/// The octets of a file or of a staged list that a block holds.
pub const PAYLOAD_OCTETS: u64 = 120;

/// The blocks of this many octets: one for each 120, rounded up. `octets` must be at most twice the largest file.
pub fn blocks_of(octets: u64) -> u32
    requires { octets ≤ 15728640 }
    ensures { result ≡ blocks_of octets }
{
    octets.div_ceil(PAYLOAD_OCTETS) as u32
}
