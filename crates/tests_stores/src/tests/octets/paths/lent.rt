//! The names that octets spell, lent out of these octets.

use super::limits::longest;
use super::{Row, all_hold};
use cfdp_paths::{LONGEST_NAME, Memory, Names, PathFault};
use std::alloc::{AllocError, Global};

/// Octets that spell a path, and its names, with `|` after each.
struct Lent {
    octets: &'static [u8],
    names: &'static [u8],
}

static LENT: [(&str, Lent); 8] = [
    (
        "one name",
        Lent {
            octets: b"a",
            names: b"a|",
        },
    ),
    (
        "a / in front",
        Lent {
            octets: b"/a",
            names: b"a|",
        },
    ),
    (
        "a name of dots",
        Lent {
            octets: b"...",
            names: b"...|",
        },
    ),
    (
        "an octet above 127",
        Lent {
            octets: b"\xff",
            names: b"\xff|",
        },
    ),
    (
        "three names",
        Lent {
            octets: b"d/x/y",
            names: b"d|x|y|",
        },
    ),
    (
        "three names after a /",
        Lent {
            octets: b"/d/x/y",
            names: b"d|x|y|",
        },
    ),
    (
        "dots in names",
        Lent {
            octets: b"/.a/a./..a",
            names: b".a|a.|..a|",
        },
    ),
    (
        "eight names after a /",
        Lent {
            octets: b"/1/2/3/4/5/6/7/8",
            names: b"1|2|3|4|5|6|7|8|",
        },
    ),
];

/// The names, with `|` after each.
fn joined(alloc: Global, names: Names<'_>) -> Result<Vec<u8>, Memory> {
    let mut text = Vec::new(alloc);
    for name in names {
        text.extend_from_slice(name)?;
        text.push(b'|')?;
    }
    Ok(text)
}

/// The names of the path that the octets spell, with `|` after each. They spell one, so that it can fail
/// only out of memory.
fn names(alloc: Global, octets: &[u8]) -> Result<Vec<u8>, Memory> {
    let mut octets = Vec::from_slice(alloc, octets)?;
    if Names::fault_in(&octets).is_some() {
        return Err(AllocError);
    }
    joined(alloc, Names::lend(&mut octets))
}

impl Row for Lent {
    fn holds(&self, alloc: Global) -> Result<bool, Memory> {
        Ok(names(alloc, self.octets)?.as_slice() == self.names)
    }
}

#[test]
fn names_are_lent(rt: HostRuntime) {
    all_hold(&rt, rt.alloc(), &LENT);
}

/// Whether the longest path, with and without `/` in front, has eight names of 96 octets.
fn longest_is_lent(alloc: Global) -> Result<bool, Memory> {
    let octets = longest(alloc, b'1')?;
    let mut rooted = Vec::from_slice(alloc, b"/")?;
    rooted.extend_from_slice(&octets)?;
    let mut want = Vec::new(alloc);
    for name in b'1'..=b'8' {
        want.extend_from_slice(&[name; LONGEST_NAME])?;
        want.push(b'|')?;
    }
    Ok(names(alloc, &octets)? == want && names(alloc, &rooted)? == want)
}

#[test]
fn the_longest_is_lent(rt: HostRuntime) {
    assert!(rt; longest_is_lent(rt.alloc()) == Ok(true), "the longest path");
}
