//! The sum, word by word.

ghost use Rattle.std.specs.Prelude.{◌≡◌, ◌+◌, ◌<◌, ◌≤◌, length};
ghost use Rattle.cfdp_checksum.specs.Checksum.{checksum, checksum_at, weighed_from};

use byteorder::{BigEndian, ByteOrder};

/// The octets of a word.
const WORD_OCTETS: usize = 4;

/// The modular checksum of a file (CCSDS 727.0-B-5, checksum procedures): the sum modulo 2^32 of its octets as words
/// of four from offset 0, the last word filled with zeros. It takes no memory, and goes over the octets once.
#[inline]
pub fn modular_checksum(octets: &[u8]) -> u32
    ensures { result ≡ checksum octets.now }
{
    let mut sum = 0u32;
    let mut rest = octets;
    // By hand and with a label, since the loop's invariant names what is left of the octets.
    'words: while rest.len() >= 4 {
        sum = sum.wrapping_add(BigEndian::read_u32(rest));
        rest = rest.split_at(4).1;
    }
    sum.wrapping_add(last_word(rest))
}

/// What octets that begin at an offset of a file add to its modular checksum (CCSDS 727.0-B-5, checksum procedures):
/// their sum modulo 2^32, each at its position in a word of four octets, counted from offset 0 of the file. It takes no
/// memory, and goes over the octets once.
#[inline]
pub fn modular_checksum_at(offset: usize, octets: &[u8]) -> u32
    ensures { result ≡ checksum_at offset octets.now }
{
    let word_offset = offset % WORD_OCTETS;
    if word_offset == 0 {
        return modular_checksum(octets);
    }
    let (first, rest) = octets.split_at(octets.len().min(WORD_OCTETS - word_offset));
    first_word(word_offset, first).wrapping_add(modular_checksum(rest))
}

/// The end of a word from an offset in it on, or a part of that, which stops before the word ends.
fn first_word(word_offset: usize, octets: &[u8]) -> u32
    requires some { 0 < word_offset }
    requires inside { word_offset < 4 }
    requires fits { word_offset + length octets.now ≤ 4 }
    ensures { result ≡ weighed_from word_offset octets.now }
{
    last_word(octets) >> (8 * word_offset)
}

/// Fewer octets than a word, filled with zeros at its end.
#[tactic(auto, unfolding(crate::specs::Checksum::weighed_from))]
fn last_word(octets: &[u8]) -> u32
    requires { length octets.now < 4 }
    ensures { result ≡ weighed_from 0 octets.now }
{
    match octets {
        [] => 0,
        [a] => BigEndian::read_u32(&[*a, 0, 0, 0]),
        [a, b] => BigEndian::read_u32(&[*a, *b, 0, 0]),
        [a, b, c, ..] => BigEndian::read_u32(&[*a, *b, *c, 0]),
    }
}
