//! The order of names whose lengths are around those of the words by which they are compared: it is that of octets.

use super::super::{Row, all_hold};
use super::parsed;
use cfdp_paths::Memory;
use std::alloc::Global;

/// How many octets each of the two names has.
static LENGTHS: [(&str, usize); 6] = [
    ("7 octets", 7),
    ("8 octets", 8),
    ("9 octets", 9),
    ("15 octets", 15),
    ("16 octets", 16),
    ("17 octets", 17),
];

/// An octet of the first name and one of the second, where all others are `m`: both greater, both less, and neither.
static CHANGED: [(u8, u8); 3] = [(0xff, b'n'), (1, b'l'), (b'm', b'm')];

/// A name of this length, with this octet at an index.
fn name(alloc: Global, length: usize, index: usize, octet: u8) -> Result<Vec<u8>, Memory> {
    let mut name = vec![in alloc; b'm'; length]?;
    if let Some(changed) = name.get_mut(index) {
        *changed = octet;
    }
    Ok(name)
}

/// Whether the paths of two names are in the order of the octets, and are the same if these are.
fn is_in_order(alloc: Global, one: &[u8], other: &[u8]) -> Result<bool, Memory> {
    let (path, second) = (parsed(alloc, one)?, parsed(alloc, other)?);
    Ok(path.cmp(&second) == one.cmp(other) && (path == second) == (one == other))
}

/// Like `is_in_order`, of a name and all names of a length, each with another octet at each of its indices.
fn are_in_order(alloc: Global, one: &[u8], length: usize, octet: u8) -> Result<bool, Memory> {
    for index in 0..length {
        let other = name(alloc, length, index, octet)?;
        if !is_in_order(alloc, one, &other)? {
            return Ok(false);
        }
    }
    Ok(true)
}

/// Like `are_in_order`, of all names of a length beside all those of another.
fn all_are_in_order(alloc: Global, length: usize, other: usize) -> Result<bool, Memory> {
    for index in 0..length {
        for (octet, second) in CHANGED {
            let one = name(alloc, length, index, octet)?;
            if !are_in_order(alloc, &one, other, second)? {
                return Ok(false);
            }
        }
    }
    Ok(true)
}

/// A length, beside each of the six.
impl Row for usize {
    fn holds(&self, alloc: Global) -> Result<bool, Memory> {
        for (_, length) in LENGTHS {
            if !all_are_in_order(alloc, *self, length)? {
                return Ok(false);
            }
        }
        Ok(true)
    }
}

#[test]
fn names_in_the_order_of_octets(rt: HostRuntime) {
    all_hold(&rt, rt.alloc(), &LENGTHS);
}
