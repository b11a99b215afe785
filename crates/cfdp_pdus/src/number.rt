//! Numbers, the most significant octet first.

ghost use Rattle.std.specs.Prelude.{◌≡◌, ◌≤◌, ◌<◌, ◌^◌, IfOk};
ghost use Rattle.cfdp_pdus.specs.Bits.{flag, fss};
ghost use Rattle.cfdp_tlv.specs.Reading.{Answers};
ghost use Rattle.cfdp_pdus.specs.First.{number_at};

use crate::PduFault;
use byteorder::{BigEndian, ByteOrder};

/// The number in the first `len` octets, the most significant first, and the octets after them; `fault` if there are
/// fewer. Cost: constant.
#[tactic(auto, unfolding(crate::specs::First::number_at))]
pub fn read_number(octets: &[u8], len: usize, fault: PduFault) -> Result<(u64, &[u8]), PduFault>
    requires low { 1 ≤ len }
    requires high { len ≤ 8 }
    ensures exact { Answers (λ x. (x.0, x.1.now)) result (number_at fault len octets.now) }
    ensures fits { IfOk result (λ x. x.0 < 256 ^ len) }
{
    if octets.len() < len {
        return Err(fault);
    }
    Ok((BigEndian::read_uint(octets, len), &octets[len..]))
}

/// Whether a bit is 1. The lowest bit is number 0.
pub fn bit(octet: u8, index: u32) -> bool
    requires { index ≤ 7 }
    ensures { result ≡ flag index octet }
{
    (octet >> index) % 2 == 1
}

/// How many octets a file size or an offset has: 8 with the large file flag, else 4.
pub fn size_len(large: bool) -> usize
    ensures { result ≡ fss large }
{
    if large { 8 } else { 4 }
}
