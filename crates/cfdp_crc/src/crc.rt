//! The CRC of octets.

ghost use Rattle.std.specs.Prelude.{◌≡◌};
ghost use Rattle.cfdp_crc.specs.Crc.{crc_of, with_octet};

use crate::remainders::word_of;

/// What is left after the bits of one more octet.
fn with_octet(left: u16, octet: u8) -> u16
    ensures { result ≡ with_octet left octet }
{
    let [high, low] = left.to_be_bytes();
    word_of(high ^ octet) ^ (u16::from(low) * 256)
}

/// The CRC of octets: sixteen bits of the polynomial x^16 + x^12 + x^5 + 1, begun with ones, the highest bit first,
/// nothing inverted. That of the nine octets `123456789` is 0x29b1. Takes no memory. Cost: one look-up an octet.
pub fn crc16(octets: &[u8]) -> u16
    ensures { result ≡ crc_of octets.now }
{
    let mut left = 0xffff_u16;
    for octet in octets {
        left = with_octet(left, *octet);
    }
    left
}
