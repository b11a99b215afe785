//! Searches for the octet between names. Most names are short: a few octets are looked at all at once.

ghost use Rattle.std.specs.Prelude.{◌≡◌, ◌+◌, ◌≤◌, ◌<◌, length};
ghost use Rattle.memchr.specs.Find.{IsFirst, IsFirstByte, IsLast, IsLastByte, Passes};
ghost use Rattle.cfdp_paths.specs.code.Marks.{marks_of};
ghost use Rattle.cfdp_paths.specs.Paths.{is_separator};

use crate::buffers::SEPARATOR;
use std::simd::prelude::*;

/// The index of the first separator, if there is one: what `memchr` of the separator returns. Takes no memory. Cost:
/// one step for each sixteen octets up to there, or one for all where there are fewer.
pub(crate) fn first_separator(octets: &[u8]) -> Option<usize>
    ensures { IsFirstByte is_separator octets.now result }
{
    if octets.len() < 16 {
        return first_of_few(octets);
    }
    let last = octets.len() - 16;
    let mut start = 0;
    while start < last {
        let found = first_of_16(octets, start);
        if found.is_some() {
            return found;
        }
        start += 16;
    }
    // The last sixteen may have octets that were looked at already: these are no separators.
    first_of_16(octets, last)
}

/// The index of the first separator among fewer than sixteen octets.
fn first_of_few(octets: &[u8]) -> Option<usize>
    requires { length octets.now < 16 }
    ensures { IsFirstByte is_separator octets.now result }
{
    let len = octets.len();
    if 8 <= len {
        return match first_of_8(octets, 0) {
            None => first_of_8(octets, len - 8),
            found => found,
        };
    }
    if 4 <= len {
        return match first_of_4(octets, 0) {
            None => first_of_4(octets, len - 4),
            found => found,
        };
    }
    for (offset, octet) in octets.iter().enumerate() {
        if *octet == SEPARATOR {
            return Some(offset);
        }
    }
    None
}

/// The index of the last separator, if there is one: what `memrchr` of the separator returns. Takes no memory. Cost:
/// one step for each sixteen octets from the end down to there, or one for all where there are fewer.
pub(crate) fn last_separator(octets: &[u8]) -> Option<usize>
    ensures { IsLastByte is_separator octets.now result }
{
    if octets.len() < 16 {
        return last_of_few(octets);
    }
    let mut end = octets.len();
    while 16 < end {
        let found = last_of_16(octets, end - 16);
        if found.is_some() {
            return found;
        }
        end -= 16;
    }
    // The first sixteen may have octets that were looked at already: these are no separators.
    last_of_16(octets, 0)
}

/// The index of the last separator among fewer than sixteen octets.
fn last_of_few(octets: &[u8]) -> Option<usize>
    requires { length octets.now < 16 }
    ensures { IsLastByte is_separator octets.now result }
{
    let len = octets.len();
    if 8 <= len {
        return match last_of_8(octets, len - 8) {
            None => last_of_8(octets, 0),
            found => found,
        };
    }
    if 4 <= len {
        return match last_of_4(octets, len - 4) {
            None => last_of_4(octets, 0),
            found => found,
        };
    }
    for offset in (0..len).rev() {
        if octets[offset] == SEPARATOR {
            return Some(offset);
        }
    }
    None
}

/// The index of the first separator of the sixteen octets from the index on, if there is one.
#[inline(always)]
fn first_of_16(octets: &[u8], index: usize) -> Option<usize>
    requires { index + 16 ≤ length octets.now }
    ensures { IsFirst (Passes is_separator octets.now) index (index + 16) result }
{
    let marks = marks_of_16(octets, index);
    if marks == 0 {
        return None;
    }
    Some(index + marks.trailing_zeros() as usize)
}

/// The index of the last separator of the sixteen octets from the index on, if there is one.
#[inline(always)]
fn last_of_16(octets: &[u8], index: usize) -> Option<usize>
    requires { index + 16 ≤ length octets.now }
    ensures { IsLast (Passes is_separator octets.now) index (index + 16) result }
{
    let marks = marks_of_16(octets, index);
    if marks == 0 {
        return None;
    }
    Some(index + marks.ilog2() as usize)
}

/// A bit for each of the sixteen octets from the index on, the first one the lowest: set where it is a separator.
#[inline(always)]
fn marks_of_16(octets: &[u8], index: usize) -> u64
    requires { index + 16 ≤ length octets.now }
    ensures { result ≡ marks_of octets.now index 16 }
{
    let vector = u8x16::from_slice(&octets[index..]);
    vector.simd_eq(u8x16::splat(SEPARATOR)).to_bitmask()
}

/// The index of the first separator of the eight octets from the index on, if there is one.
#[inline(always)]
fn first_of_8(octets: &[u8], index: usize) -> Option<usize>
    requires { index + 8 ≤ length octets.now }
    ensures { IsFirst (Passes is_separator octets.now) index (index + 8) result }
{
    let marks = marks_of_8(octets, index);
    if marks == 0 {
        return None;
    }
    Some(index + marks.trailing_zeros() as usize)
}

/// The index of the last separator of the eight octets from the index on, if there is one.
#[inline(always)]
fn last_of_8(octets: &[u8], index: usize) -> Option<usize>
    requires { index + 8 ≤ length octets.now }
    ensures { IsLast (Passes is_separator octets.now) index (index + 8) result }
{
    let marks = marks_of_8(octets, index);
    if marks == 0 {
        return None;
    }
    Some(index + marks.ilog2() as usize)
}

/// A bit for each of the eight octets from the index on, the first one the lowest: set where it is a separator.
#[inline(always)]
fn marks_of_8(octets: &[u8], index: usize) -> u64
    requires { index + 8 ≤ length octets.now }
    ensures { result ≡ marks_of octets.now index 8 }
{
    let vector = u8x8::from_slice(&octets[index..]);
    vector.simd_eq(u8x8::splat(SEPARATOR)).to_bitmask()
}

/// The index of the first separator of the four octets from the index on, if there is one.
#[inline(always)]
fn first_of_4(octets: &[u8], index: usize) -> Option<usize>
    requires { index + 4 ≤ length octets.now }
    ensures { IsFirst (Passes is_separator octets.now) index (index + 4) result }
{
    let marks = marks_of_4(octets, index);
    if marks == 0 {
        return None;
    }
    Some(index + marks.trailing_zeros() as usize)
}

/// The index of the last separator of the four octets from the index on, if there is one.
#[inline(always)]
fn last_of_4(octets: &[u8], index: usize) -> Option<usize>
    requires { index + 4 ≤ length octets.now }
    ensures { IsLast (Passes is_separator octets.now) index (index + 4) result }
{
    let marks = marks_of_4(octets, index);
    if marks == 0 {
        return None;
    }
    Some(index + marks.ilog2() as usize)
}

/// A bit for each of the four octets from the index on, the first one the lowest: set where it is a separator.
#[inline(always)]
fn marks_of_4(octets: &[u8], index: usize) -> u64
    requires { index + 4 ≤ length octets.now }
    ensures { result ≡ marks_of octets.now index 4 }
{
    let vector = u8x4::from_slice(&octets[index..]);
    vector.simd_eq(u8x4::splat(SEPARATOR)).to_bitmask()
}
