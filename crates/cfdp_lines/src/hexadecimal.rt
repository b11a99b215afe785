//! Hexadecimal in a line of a script.
ghost use Rattle.std.specs.Prelude.{◌≡◌, ◌≢◌, ◌↔◌, ◌<◌, ◌≤◌, ◌++◌, ℕ, List, [], length, take, Some, None, Err, IsOk, IsErr, IsSome, IfSome, IsTrue, OnOk, OnErr};
ghost use Rattle.hex.specs.Hex.{decode_of};
ghost use Rattle.cfdp_lines.specs.Hexadecimal.{hex_octets, octets_of_words};
ghost use Rattle.cfdp_lines.specs.code.Hexadecimal.{octets_or_none};
ghost use Rattle.cfdp_lines.specs.Words.{words_of};
ghost use Rattle.cfdp_lines.specs.declared.faults.LineFault.TheVariants.{Bad};

use crate::digits::{decode_into, is_decodable};
use crate::faults::LineFault;
use crate::words::skip_spaces;
use memchr::memchr;

const SPACE: u8 = b' ';

/// Appends the octets of a word: pairs of digits in either case. An empty word, as between two spaces, costs a test and
/// takes no memory.
fn decode_word(word: &[u8], octets: &mut Vec<u8>) -> Result<(), LineFault>
    ensures octets { OnOk result (octets.new.items ≡ octets.old.items ++ octets_or_none (decode_of word.now)) }
    ensures good { OnOk result (IsOk (decode_of word.now)) }
    ensures bad { result ≡ Err Bad → IsErr (decode_of word.now) }
    ensures some { result ≡ Err LineFault.Memory → 0 < length word.now }
{
    if word.is_empty() {
        return Ok(());
    }
    let start = octets.len();
    let len = start.checked_add(word.len() / 2).ok_or(LineFault::Memory)?;
    octets.resize(len, 0)?;
    let room = &mut octets.as_mut_slice()[start..];
    decode_into(word, room)
}

/// Appends the octets of the words of a line, with spaces between words, before and after.
fn decode_spaced(line: &[u8], octets: &mut Vec<u8>) -> Result<(), LineFault>
    requires { octets.old.items ≡ [] }
    ensures octets { OnOk result (hex_octets line.now ≡ Some octets.new.items) }
    ensures bad { result ≡ Err Bad → hex_octets line.now ≡ None }
    ensures some { result ≡ Err LineFault.Memory → hex_octets line.now ≢ Some [] }
{
    for word in line.split(|octet| *octet == SPACE) {
        decode_word(word, octets)?;
    }
    Ok(())
}

/// Replaces `octets` by the octets that a line of hexadecimal spells. A line that is one word is not gone through octet
/// by octet for its spaces.
fn try_decode(line: &[u8], octets: &mut Vec<u8>) -> Result<(), LineFault>
    ensures octets { OnOk result (hex_octets line.now ≡ Some octets.new.items) }
    ensures bad { result ≡ Err Bad → hex_octets line.now ≡ None }
    ensures some { result ≡ Err LineFault.Memory → hex_octets line.now ≢ Some [] }
{
    octets.clear();
    match memchr(SPACE, line) {
        None => decode_word(line, octets),
        Some(_) => decode_spaced(line, octets),
    }
}

/// Whether a line of hexadecimal spells octets. It asks for no memory.
#[cold]
fn is_hexadecimal(line: &[u8]) -> bool
    ensures { IsTrue result ↔ IsSome (hex_octets line.now) }
{
    for word in line.split(|octet| *octet == SPACE) {
        if !is_decodable(word) {
            return false;
        }
    }
    true
}

/// Replaces `octets` by the octets that a line of hexadecimal spells: pairs of digits in either case, with spaces
/// between pairs, before and after.
///
/// # Errors
///
/// `Bad` exactly if the line spells none, even when out of memory: only then the line is looked at once more. A
/// line that spells no octet takes no memory.
pub fn decode_line(line: &[u8], octets: &mut Vec<u8>) -> Result<(), LineFault>
    ensures octets { OnOk result (hex_octets line.now ≡ Some octets.new.items) }
    ensures bad { (result ≡ Err Bad) ↔ (hex_octets line.now ≡ None) }
    ensures some { result ≡ Err LineFault.Memory → hex_octets line.now ≢ Some [] }
{
    match try_decode(line, octets) {
        Err(LineFault::Memory) if !is_hexadecimal(line) => Err(LineFault::Bad),
        decoded => decoded,
    }
}

/// Puts the octets that a line of hexadecimal spells into room of a fixed size, and returns how many they are; nothing
/// where the line spells none, or more than there is room for. It asks for no memory. Cost: one pass over the line.
pub fn decode_within(line: &[u8], room: &mut [u8]) -> Option<usize>
    ensures some { IfSome result (λ len. hex_octets line.now ≡ Some (take len room.new)) }
    ensures within { IfSome result (λ len. len ≤ length room.new) }
    ensures none { (octets : List ℕ) → result ≡ None → hex_octets line.now ≡ Some octets →
        length room.old < length octets }
{
    let mut len = 0;
    for word in line.split(|octet| *octet == SPACE) {
        let pairs = word.len() / 2;
        if pairs > room.len() - len {
            return None;
        }
        let Ok(()) = decode_into(word, &mut room[len..len + pairs]) else {
            return None;
        };
        len += pairs;
    }
    Some(len)
}

/// Replaces `octets` by the octets that the words of a line spell.
///
/// # Errors
///
/// `Bad` where a word is no pairs of digits, and `Memory` out of memory. Cost: one pass over the line, and out of
/// memory one more.
pub fn decode_words(line: &[u8], octets: &mut Vec<u8>) -> Result<(), LineFault>
    ensures octets { OnOk result (octets_of_words (words_of line.now) ≡ Some octets.new.items) }
    ensures bad { (result ≡ Err Bad) ↔ (octets_of_words (words_of line.now) ≡ None) }
    ensures some { result ≡ Err LineFault.Memory → octets_of_words (words_of line.now) ≢ Some [] }
{
    decode_line(skip_spaces(line), octets)
}
