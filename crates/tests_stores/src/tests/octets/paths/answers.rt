//! Each call that can run out of memory, with ample memory, and with each allocation refused in turn
//! (`rt try --test --fail-alloc N`): what was refused is reported, and the row is tried once more.

use super::{Row, all_hold, parsed, texts};
use cfdp_paths::{MOST_NAMES, Memory, Path};
use std::alloc::Global;

/// Octets that spell a path, and the texts of its ancestors, its parent and its copy. One `/` in front means nothing,
/// and any octet but `/` and 0 may be in a name.
type Family = (&'static [u8], &'static [u8]);

static FAMILIES: [(&str, Family); 8] = [
    ("one name", (b"a", b"a|")),
    ("a / in front", (b"/a", b"a|")),
    ("a name of dots", (b"...", b"...|")),
    ("an octet above 127", (b"\xff", b"\xff|")),
    (
        "dots in names",
        (b"/.a/a./..a", b".a|.a/a.|.a/a.|.a/a./..a|"),
    ),
    (
        "a space and control octets",
        (b" /\x01\x7f", b" | | /\x01\x7f|"),
    ),
    ("three names after a /", (b"/d/x/y", b"d|d/x|d/x|d/x/y|")),
    (
        "eight names after a /",
        (
            b"/1/2/3/4/5/6/7/8",
            b"1|1/2|1/2/3|1/2/3/4|1/2/3/4/5|1/2/3/4/5/6|1/2/3/4/5/6/7|1/2/3/4/5/6/7|1/2/3/4/5/6/7/8|",
        ),
    ),
];

/// The ancestors of a path, its parent, where it has one, and its copy.
fn family(alloc: Global, path: &Path) -> Result<Vec<Path>, Memory> {
    let mut family = path.ancestors(alloc)?;
    if let Some(parent) = path.parent(alloc)? {
        family.push(parent)?;
    }
    family.push(path.copy(alloc)?)?;
    Ok(family)
}

/// Whether these are the texts of the ancestors of a path, its parent and its copy.
pub fn has_family(alloc: Global, octets: &[u8], want: &[u8]) -> Result<bool, Memory> {
    let path = parsed(alloc, octets)?;
    let family = family(alloc, &path)?;
    Ok(texts(alloc, &family)?.as_slice() == want)
}

impl Row for Family {
    fn holds(&self, alloc: Global) -> Result<bool, Memory> {
        has_family(alloc, self.0, self.1)
    }
}

#[test]
fn families(rt: HostRuntime) {
    all_hold(&rt, rt.alloc(), &FAMILIES);
}

/// How many of the first names of `d/x/y`, and the text of these.
type Beginning = (usize, &'static [u8]);

static BEGINNINGS: [(&str, Beginning); 3] = [
    ("one name", (1, b"d")),
    ("two names", (2, b"d/x")),
    ("three names", (3, b"d/x/y")),
];

/// The first names of a path, if it has this many.
fn beginning(alloc: Global, path: &Path, depth: usize) -> Result<Option<Path>, Memory> {
    if depth == 0 || path.depth() < depth {
        return Ok(None);
    }
    Ok(Some(path.beginning(alloc, depth)?))
}

/// Whether this is the text of the first names of a path, of which it has this many.
pub fn has_beginning(
    alloc: Global,
    octets: &[u8],
    depth: usize,
    want: &[u8],
) -> Result<bool, Memory> {
    let path = parsed(alloc, octets)?;
    match beginning(alloc, &path, depth)? {
        Some(beginning) => Ok(beginning.text(alloc)?.as_slice() == want),
        None => Ok(false),
    }
}

impl Row for Beginning {
    fn holds(&self, alloc: Global) -> Result<bool, Memory> {
        has_beginning(alloc, b"d/x/y", self.0, self.1)
    }
}

#[test]
fn beginnings(rt: HostRuntime) {
    all_hold(&rt, rt.alloc(), &BEGINNINGS);
}

/// A path, where it is moved from and to, and its text then.
type Move = (&'static [u8], &'static [u8], &'static [u8], &'static [u8]);

static MOVES: [(&str, Move); 4] = [
    ("to a longer path", (b"d/x/y", b"d", b"e/f", b"e/f/x/y")),
    ("to a shorter path", (b"d/x/y/z", b"d/x", b"e", b"e/y/z")),
    ("the path itself", (b"d", b"d", b"e/f", b"e/f")),
    (
        "to a path of eight names",
        (b"1/2/3/4/5/6/7", b"1", b"8/9", b"8/9/2/3/4/5/6/7"),
    ),
];

/// A path, moved from one path to another, where it is there and has room.
fn rebased(alloc: Global, path: &Path, from: &Path, to: &Path) -> Result<Option<Path>, Memory> {
    if !path.is_at_or_below(from) || path.depth() + to.depth() > MOST_NAMES + from.depth() {
        return Ok(None);
    }
    Ok(Some(path.rebased(alloc, from, to)?))
}

/// What a path spells once it is moved from one path to another, where it is there and has room.
fn moved(alloc: Global, path: &[u8], from: &[u8], to: &[u8]) -> Result<Option<Path>, Memory> {
    let path = parsed(alloc, path)?;
    let from = parsed(alloc, from)?;
    let to = parsed(alloc, to)?;
    rebased(alloc, &path, &from, &to)
}

/// Whether it spells this.
pub fn moves(
    alloc: Global,
    path: &[u8],
    from: &[u8],
    to: &[u8],
    want: &[u8],
) -> Result<bool, Memory> {
    let moved = moved(alloc, path, from, to)?;
    Ok(moved == Some(parsed(alloc, want)?))
}

impl Row for Move {
    fn holds(&self, alloc: Global) -> Result<bool, Memory> {
        moves(alloc, self.0, self.1, self.2, self.3)
    }
}

#[test]
fn paths_move(rt: HostRuntime) {
    all_hold(&rt, rt.alloc(), &MOVES);
}
