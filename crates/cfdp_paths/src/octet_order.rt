//! Comparisons of octets, a word of eight at a time.

ghost use Rattle.std.specs.Prelude.{◌≡◌, ◌≢◌, ◌+◌, ◌<◌, ◌≤◌, drop, length, nat_eq, take};
ghost use Rattle.std.specs.Cmp.Lexicographic.{pointwise, slice_cmp};
ghost use Rattle.std.specs.Ordering.{nat_cmp};
ghost use Rattle.core.specs.Slice.Scan.{Settles, big_endian};

use std::cmp::Ordering;

/// How many octets a word has.
const WORD: usize = 8;

/// How `a` compares to `b`: as the first octets that differ, and else as the lengths. Cost: two words are read for each
/// eight octets at the front that are equal.
pub(crate) fn order(a: &[u8], b: &[u8]) -> Ordering
    ensures { result ≡ slice_cmp nat_cmp a.now b.now }
{
    let both = a.len().min(b.len());
    let (x, y) = deciding_words(a, b, both);
    if x != y {
        return order_unequal(x, y);
    }
    a.len().cmp(&b.len())
}

/// Whether the octets are the same. Cost: that of [`order`], and none where the lengths differ.
pub(crate) fn is_same(a: &[u8], b: &[u8]) -> bool
    ensures { result ≡ pointwise nat_eq a.now b.now }
{
    if a.len() != b.len() {
        return false;
    }
    let (x, y) = deciding_words(a, b, a.len());
    x == y
}

/// How two different numbers compare.
fn order_unequal(x: u64, y: u64) -> Ordering
    requires { x ≢ y }
    ensures { result ≡ nat_cmp x y }
{
    if x < y {
        Ordering::Less
    } else {
        Ordering::Greater
    }
}

/// Two numbers that compare as the first `both` octets of each: they are equal where those are.
fn deciding_words(a: &[u8], b: &[u8], both: usize) -> (u64, u64)
    requires in_a { both ≤ length a.now }
    requires in_b { both ≤ length b.now }
    ensures { Settles a.now b.now both result.0 result.1 }
{
    if both < WORD {
        return deciding_octets(a, b, both);
    }
    let last = both - WORD;
    let mut start = 0;
    while start < last {
        let (x, y) = (word(a, start), word(b, start));
        if x != y {
            return (x, y);
        }
        start += WORD;
    }
    // The last word may have octets that were compared already: these are equal.
    (word(a, last), word(b, last))
}

/// Like `deciding_words`, for fewer octets than a word has.
fn deciding_octets(a: &[u8], b: &[u8], both: usize) -> (u64, u64)
    requires few { both < 8 }
    requires in_a { both ≤ length a.now }
    requires in_b { both ≤ length b.now }
    ensures { Settles a.now b.now both result.0 result.1 }
{
    if 4 <= both {
        let (x, y) = (half_word(a, 0), half_word(b, 0));
        if x != y {
            return (x, y);
        }
        return (half_word(a, both - 4), half_word(b, both - 4));
    }
    for index in 0..both {
        let (x, y) = (u64::from(a[index]), u64::from(b[index]));
        if x != y {
            return (x, y);
        }
    }
    (0, 0)
}

/// The eight octets from the index on as a number, the first one the highest.
fn word(octets: &[u8], index: usize) -> u64
    requires { index + 8 ≤ length octets.now }
    ensures { result ≡ big_endian 0 (take 8 (drop index octets.now)) }
{
    u64::from_be_bytes([
        octets[index],
        octets[index + 1],
        octets[index + 2],
        octets[index + 3],
        octets[index + 4],
        octets[index + 5],
        octets[index + 6],
        octets[index + 7],
    ])
}

/// The four octets from the index on as a number, the first one the highest.
fn half_word(octets: &[u8], index: usize) -> u64
    requires { index + 4 ≤ length octets.now }
    ensures { result ≡ big_endian 0 (take 4 (drop index octets.now)) }
{
    let half = u32::from_be_bytes([
        octets[index],
        octets[index + 1],
        octets[index + 2],
        octets[index + 3],
    ]);
    u64::from(half)
}
