//! The longest path there is: 8 names of 96 octets, 775 octets in all.

use super::answers::{has_beginning, has_family, moves};
use super::parsed;
use cfdp_paths::{LONGEST_NAME, Memory, Path};
use std::alloc::Global;

/// The octets that spell it: 96 times the first name, 96 times `2`, 96 times `3` and so on.
pub fn longest(alloc: Global, first: u8) -> Result<Vec<u8>, Memory> {
    let mut octets = Vec::from_slice(alloc, &[first; LONGEST_NAME])?;
    for name in b'2'..=b'8' {
        octets.push(b'/')?;
        octets.extend_from_slice(&[name; LONGEST_NAME])?;
    }
    Ok(octets)
}

/// Its first seven names, one more each time, then seven and eight of them, with `|` after each.
fn longest_family(alloc: Global, octets: &[u8]) -> Result<Vec<u8>, Memory> {
    let mut texts = Vec::new(alloc);
    for len in &[96, 193, 290, 387, 484, 581, 678, 678, 775] {
        texts.extend_from_slice(octets.get(..*len).unwrap_or(b""))?;
        texts.push(b'|')?;
    }
    Ok(texts)
}

fn printed(alloc: Global, path: &Path) -> Result<String, Memory> {
    format!(in alloc; "{path:?}")
}

/// Whether the path of the octets is printed as them.
fn is_printed(alloc: Global, octets: &[u8]) -> Result<bool, Memory> {
    let path = parsed(alloc, octets)?;
    Ok(printed(alloc, &path)?.as_bytes() == octets)
}

/// Whether it is read, copied, and printed, and has its beginnings, its ancestors and its parent.
fn longest_is_read(alloc: Global) -> Result<bool, Memory> {
    let octets = longest(alloc, b'1')?;
    let family = longest_family(alloc, &octets)?;
    Ok(
        is_printed(alloc, &octets)?
            && has_family(alloc, &octets, &family)?
            && has_beginning(alloc, &octets, 8, &octets)?,
    )
}

#[test]
fn it_is_read(rt: HostRuntime) {
    assert!(rt; longest_is_read(rt.alloc()) == Ok(true), "the longest path");
}

/// Whether it is moved to another longest path.
fn longest_moves(alloc: Global) -> Result<bool, Memory> {
    let octets = longest(alloc, b'1')?;
    let want = longest(alloc, b'9')?;
    moves(alloc, &octets, &[b'1'; 96], &[b'9'; 96], &want)
}

#[test]
fn it_moves(rt: HostRuntime) {
    assert!(rt; longest_moves(rt.alloc()) == Ok(true), "the longest path");
}
