//! Maps by path, at one type of values.

ghost use Rattle.std.specs.Prelude.{◌≡◌, ◌+◌, nat_lt, length};
ghost use Rattle.std.specs.List.{list_any};

use super::{Row, all_hold, parsed};
use cfdp_paths::{MOST_NAMES, Memory, Path, PathMap};
use std::alloc::Global;

/// A map of these paths, in no order, with their numbers in the list.
fn map_of(alloc: Global, paths: &[&[u8]]) -> Result<PathMap<usize>, Memory> {
    let mut map = PathMap::new(alloc);
    for (number, octets) in paths.iter().enumerate() {
        map.insert(parsed(alloc, octets)?, number)?;
    }
    Ok(map)
}

/// The entries of the map.
fn shown(alloc: Global, map: &PathMap<usize>) -> Result<String, Memory> {
    format!(in alloc; "{:?}", map.entries())
}

/// Whether these are the entries of the map.
fn is_shown(alloc: Global, map: &PathMap<usize>, want: &str) -> Result<bool, Memory> {
    Ok(shown(alloc, map)?.as_str() == want)
}

/// A path, the value at it, how many entries are at and below it, and whether one is below it.
type LookUp = (&'static [u8], Option<usize>, usize, bool);

static LOOK_UPS: [(&str, LookUp); 5] = [
    ("the top of a tree", (b"d", Some(2), 3, true)),
    ("within a tree", (b"d/x", Some(1), 2, true)),
    ("the end of a tree", (b"d/x/y", Some(3), 1, false)),
    ("no entry, beside others", (b"d/y", None, 0, false)),
    ("an entry alone", (b"e", Some(4), 1, false)),
];

/// The map of which that is so.
static LOOKED_UP: [&[u8]; 5] = [b"d0", b"d/x", b"d", b"d/x/y", b"e"];

/// What the map says of a path.
fn looked_up(map: &PathMap<usize>, path: &Path) -> (Option<usize>, usize, bool) {
    let below = map.has_below(path);
    (map.get(path).copied(), map.tree(path).len(), below)
}

impl Row for LookUp {
    fn holds(&self, alloc: Global) -> Result<bool, Memory> {
        let map = map_of(alloc, &LOOKED_UP)?;
        let path = parsed(alloc, self.0)?;
        Ok(looked_up(&map, &path) == (self.1, self.2, self.3))
    }
}

#[test]
fn look_ups(rt: HostRuntime) {
    all_hold(&rt, rt.alloc(), &LOOK_UPS);
}

/// The value at the first names of a path, where it has this many.
fn at_beginning(map: &PathMap<usize>, path: &Path, depth: usize) -> Option<usize> {
    if path.depth() < depth {
        return None;
    }
    map.get_beginning(path, depth).copied()
}

/// How many names of `d/x/y`, and the value at these in a map.
type Beginning = (usize, Option<usize>);

static BEGINNINGS: [(&str, Beginning); 4] = [
    ("no names", (0, None)),
    ("one name", (1, Some(1))),
    ("two names", (2, None)),
    ("three names", (3, Some(2))),
];

/// The map of which that is so.
static BEGUN: [&[u8]; 3] = [b"e", b"d", b"d/x/y"];

impl Row for Beginning {
    fn holds(&self, alloc: Global) -> Result<bool, Memory> {
        let map = map_of(alloc, &BEGUN)?;
        let path = parsed(alloc, b"d/x/y")?;
        Ok(path.depth() >= self.0 && at_beginning(&map, &path, self.0) == self.1)
    }
}

#[test]
fn beginnings(rt: HostRuntime) {
    all_hold(&rt, rt.alloc(), &BEGINNINGS);
}

/// Exchanges and sets the value at `b`, and takes out the entry at `a` twice: what was there each time.
fn change(map: &mut PathMap<usize>, a: &Path, b: &Path) -> [Option<usize>; 3] {
    let mut was = None;
    if map.get(b).is_some() {
        was = Some(map.exchange(b, 9));
    }
    if map.get(b) == Some(&9) {
        map.set(b, 7);
    }
    [was, map.remove(a), map.remove(a)]
}

/// The map that is changed.
static CHANGED: [&[u8]; 4] = [b"b", b"a", b"c", b"a"];

/// Whether the changes answer what was there, and leave what they should.
fn is_changed(alloc: Global) -> Result<bool, Memory> {
    let mut map = map_of(alloc, &CHANGED)?;
    let a = parsed(alloc, b"a")?;
    let b = parsed(alloc, b"b")?;
    let were = change(&mut map, &a, &b);
    Ok(were == [Some(0), Some(3), None] && is_shown(alloc, &map, "[(b, 7), (c, 2)]")?)
}

#[test]
fn changes(rt: HostRuntime) {
    assert!(rt;
        is_changed(rt.alloc()) == Ok(true),
        "exchange, set and remove"
    );
}

/// Whether one of the entries would have more than 8 names once it moved.
fn is_too_deep(entries: &[(Path, usize)], from: &Path, to: &Path) -> bool
    ensures { result ≡ list_any (λ e. nat_lt (8 + length from.now) (length e.0 + length to.now)) entries.now }
{
    entries.iter().any(|entry| entry.0.depth() + to.depth() > MOST_NAMES + from.depth())
}

/// Moves what is at and below a path, where all of it has room there.
fn relocate(map: &mut PathMap<usize>, from: &Path, to: &Path) -> Result<(), Memory> {
    if to.depth() > MOST_NAMES || is_too_deep(map.tree(from), from, to) {
        return Ok(());
    }
    map.relocate(from, to)
}

/// Like `relocate`, of the paths that the octets spell.
fn move_to(alloc: Global, map: &mut PathMap<usize>, from: &[u8], to: &[u8]) -> Result<(), Memory> {
    let from = parsed(alloc, from)?;
    let to = parsed(alloc, to)?;
    relocate(map, &from, &to)
}

/// Paths, two of them, and the map of all once what is at and below the one moved to the other.
struct Move {
    paths: &'static [&'static [u8]],
    from: &'static [u8],
    to: &'static [u8],
    want: &'static str,
}

static MOVES: [(&str, Move); 4] = [
    (
        "to where nothing exists",
        Move {
            paths: &[b"d0", b"d/x", b"d", b"d/x/y", b"b"],
            from: b"d",
            to: b"c",
            want: "[(b, 4), (c, 2), (c/x, 1), (c/x/y, 3), (d0, 0)]",
        },
    ),
    (
        "onto another directory: what has the same path there is gone",
        Move {
            paths: &[b"d", b"d/x", b"e", b"e/x", b"e/z"],
            from: b"d",
            to: b"e",
            want: "[(e, 0), (e/x, 1), (e/z, 4)]",
        },
    ),
    (
        "below itself",
        Move {
            paths: &[b"d", b"d/x"],
            from: b"d",
            to: b"d/x",
            want: "[(d/x, 0), (d/x/x, 1)]",
        },
    ),
    (
        "to where it has no room",
        Move {
            paths: &[b"1/2/3/4/5/6/7/8"],
            from: b"1",
            to: b"d/x",
            want: "[(1/2/3/4/5/6/7/8, 0)]",
        },
    ),
];

impl Row for Move {
    fn holds(&self, alloc: Global) -> Result<bool, Memory> {
        let mut map = map_of(alloc, self.paths)?;
        move_to(alloc, &mut map, self.from, self.to)?;
        is_shown(alloc, &map, self.want)
    }
}

#[test]
fn moves(rt: HostRuntime) {
    all_hold(&rt, rt.alloc(), &MOVES);
}

/// Makes 26 entries in the directory `d`, whose names begin with the same letter.
fn fill(alloc: Global, map: &mut PathMap<usize>, first: u8) -> Result<(), Memory> {
    for second in b'a'..=b'z' {
        map.insert(parsed(alloc, &[b'd', b'/', first, second])?, 9)?;
    }
    Ok(())
}

/// What is beside the entries of the directory, and the directory.
static BESIDE_A_CROWD: [&[u8]; 3] = [b"d", b"d0", b"c"];

/// A directory of 676 entries beside others.
fn crowd(alloc: Global) -> Result<PathMap<usize>, Memory> {
    let mut map = map_of(alloc, &BESIDE_A_CROWD)?;
    for first in b'a'..=b'z' {
        fill(alloc, &mut map, first)?;
    }
    Ok(map)
}

/// How many entries are at and below a path.
fn count(alloc: Global, map: &PathMap<usize>, path: &[u8]) -> Result<usize, Memory> {
    let path = parsed(alloc, path)?;
    Ok(map.tree(&path).len())
}

/// How many of them there are after a move of the directory: where it was, where it is, and in all.
fn moved_crowd(alloc: Global) -> Result<(usize, usize, usize), Memory> {
    let mut map = crowd(alloc)?;
    move_to(alloc, &mut map, b"d", b"e/f")?;
    let (from, to) = (count(alloc, &map, b"d")?, count(alloc, &map, b"e/f")?);
    Ok((from, to, map.entries().len()))
}

#[test]
fn move_of_many(rt: HostRuntime) {
    assert!(rt;
        moved_crowd(rt.alloc()) == Ok((0, 677, 679)),
        "676 entries and their directory"
    );
}
