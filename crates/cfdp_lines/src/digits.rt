//! Words of hexadecimal digits, decoded without a branch on a digit: which digits come cannot be foreseen.
ghost use Rattle.std.specs.Prelude.{◌≡◌, ◌*◌, ◌/◌, ◌<◌, ◌≤◌, ◌↔◌, true, length, Err, IsOk, IsTrue, OnErr, OnOk};
ghost use Rattle.hex.specs.Hex.{decode_of, is_hex_digit};
ghost use Rattle.std.specs.List.{list_all};
ghost use Rattle.cfdp_lines.specs.code.Digits.{AreSixteenOctets, ArePairs, AreNibbles, AreValues, value_of};
ghost use Rattle.cfdp_lines.specs.code.Hexadecimal.{octets_or_none};
ghost use Rattle.cfdp_lines.specs.declared.faults.LineFault.TheVariants.{Bad};

use crate::faults::LineFault;
use std::simd::prelude::*;

/// For each octet the value of the digit that it is, or 255 where it is none.
static VALUES: [u8; 256] = [
    255, 255, 255, 255, 255, 255, 255, 255, 255, 255, 255, 255, 255, 255, 255, 255, 255, 255, 255,
    255, 255, 255, 255, 255, 255, 255, 255, 255, 255, 255, 255, 255, 255, 255, 255, 255, 255, 255,
    255, 255, 255, 255, 255, 255, 255, 255, 255, 255, 0, 1, 2, 3, 4, 5, 6, 7, 8, 9, 255, 255, 255,
    255, 255, 255, 255, 10, 11, 12, 13, 14, 15, 255, 255, 255, 255, 255, 255, 255, 255, 255, 255,
    255, 255, 255, 255, 255, 255, 255, 255, 255, 255, 255, 255, 255, 255, 255, 255, 10, 11, 12, 13,
    14, 15, 255, 255, 255, 255, 255, 255, 255, 255, 255, 255, 255, 255, 255, 255, 255, 255, 255,
    255, 255, 255, 255, 255, 255, 255, 255, 255, 255, 255, 255, 255, 255, 255, 255, 255, 255, 255,
    255, 255, 255, 255, 255, 255, 255, 255, 255, 255, 255, 255, 255, 255, 255, 255, 255, 255, 255,
    255, 255, 255, 255, 255, 255, 255, 255, 255, 255, 255, 255, 255, 255, 255, 255, 255, 255, 255,
    255, 255, 255, 255, 255, 255, 255, 255, 255, 255, 255, 255, 255, 255, 255, 255, 255, 255, 255,
    255, 255, 255, 255, 255, 255, 255, 255, 255, 255, 255, 255, 255, 255, 255, 255, 255, 255, 255,
    255, 255, 255, 255, 255, 255, 255, 255, 255, 255, 255, 255, 255, 255, 255, 255, 255, 255, 255,
    255, 255, 255, 255, 255, 255, 255, 255, 255, 255, 255, 255, 255, 255, 255, 255, 255, 255, 255,
    255, 255, 255,
];

/// The table, lent.
fn values() -> &'static [u8; 256]
    ensures { result.now ≡ VALUES }
{
    &VALUES
}

/// The value of a digit, in either case; 255 of an octet that is none. Cost: one look-up.
fn value_of(octet: u8) -> u8
    ensures { result ≡ value_of octet }
{
    values()[usize::from(octet)]
}

/// How many octets a vector has.
const LANES: usize = 16;

/// The values of digits, in either case; 16 or more for each octet that is none. An octet is moved so that `0` to `9`
/// are 246 to 255, and again so that `A` to `F` are 0 to 5. All others are cut to a range that the last difference, or
/// sum, takes to 16 to 255.
#[inline(always)]
fn values_in(octets: u8x16) -> u8x16
    requires { AreSixteenOctets octets }
    ensures { AreValues octets result }
{
    let moved = octets + u8x16::splat(198);
    let digits = moved.simd_max(u8x16::splat(6)) - u8x16::splat(246);
    let moved = (octets & u8x16::splat(223)) - u8x16::splat(b'A');
    let letters = moved.simd_min(u8x16::splat(245)) + u8x16::splat(10);
    digits.simd_min(letters)
}

/// Decodes the first sixteen pairs of octets, whether they are digits or not. Returns for each pair both values, or-ed
/// together.
#[inline(always)]
fn decode_block(word: &[u8], room: &mut [u8]) -> u8x16
    requires word { 2 * LANES ≤ length word.now }
    requires room { LANES ≤ length room.old }
    ensures { ArePairs word.now room.new LANES (AreNibbles result) }
{
    let front = values_in(u8x16::from_slice(word));
    let back = values_in(u8x16::from_slice(&word[LANES..]));
    let (high, low) = front.deinterleave(back);
    (high * u8x16::splat(16) + low).copy_to_slice(room);
    high | low
}

/// Decodes pairs of octets, whether they are digits or not: sixteen at once, of which the last sixteen may include some
/// that are decoded already, or fewer one by one. Returns their values, all or-ed together: below 16 exactly if each is
/// a digit. It takes no branch on a digit.
fn decode_pairs(word: &[u8], room: &mut [u8]) -> u8
    requires { length word.now ≡ 2 * length room.old }
    ensures { ArePairs word.now room.new (length room.old) (result < 16) }
{
    if room.len() < LANES {
        let mut seen = 0;
        'pairs: for index in 0..room.len() {
            let high = value_of(word[2 * index]);
            let low = value_of(word[2 * index + 1]);
            seen |= high | low;
            room[index] = high.wrapping_mul(16).wrapping_add(low);
        }
        return seen;
    }
    let mut lanes = u8x16::splat(0);
    let mut start = 0;
    'vectors: while room.len() - start > LANES {
        lanes = lanes | decode_block(&word[2 * start..], &mut room[start..]);
        start += LANES;
    }
    let last = room.len() - LANES;
    let all = lanes | decode_block(&word[2 * last..], &mut room[last..]);
    all.reduce_or()
}

/// How many pairs of digits a piece of a word has. The last piece has fewer than twice as many.
const PIECE_PAIRS: usize = 1024;

/// Decodes a word into room for as many octets as it has pairs of digits, by pieces. A bad digit is found at the end of
/// its piece, which has fewer than 2,048 pairs. Nothing is decoded after that piece.
pub(crate) fn decode_into(word: &[u8], room: &mut [u8]) -> Result<(), LineFault>
    requires { length room.old ≡ length word.now / 2 }
    ensures octets { OnOk result (room.new ≡ octets_or_none (decode_of word.now)) }
    ensures good { IsOk result ↔ IsOk (decode_of word.now) }
    ensures only { OnErr result (result ≡ Err Bad) }
{
    if word.len() % 2 != 0 {
        return Err(LineFault::Bad);
    }
    let mut start = 0;
    'pieces: while room.len() - start >= 2 * PIECE_PAIRS {
        let end = start + PIECE_PAIRS;
        if decode_pairs(&word[2 * start..2 * end], &mut room[start..end]) >= 16 {
            return Err(LineFault::Bad);
        }
        start = end;
    }
    if decode_pairs(&word[2 * start..], &mut room[start..]) < 16 {
        Ok(())
    } else {
        Err(LineFault::Bad)
    }
}

/// Whether an octet is a digit, in either case.
fn is_digit(octet: u8) -> bool
    ensures { result ≡ is_hex_digit octet }
{
    value_of(octet) < 16
}

/// Whether each octet is a digit, in either case.
fn are_digits(word: &[u8]) -> bool
    ensures { result ≡ list_all is_hex_digit word.now }
{
    word.iter().all(|octet| is_digit(*octet))
}

/// Whether [`decode_into`] decodes a word. It takes no room. Cost: at most one look-up for each octet.
pub(crate) fn is_decodable(word: &[u8]) -> bool
    ensures { IsTrue result ↔ IsOk (decode_of word.now) }
{
    word.len() % 2 == 0 && are_digits(word)
}
