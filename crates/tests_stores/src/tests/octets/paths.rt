//! Worked paths and faults, and how paths compare.

mod answers;
mod lent;
mod limits;
mod maps;
mod words;

use super::super::calls::parsed;
use super::{Row, all_hold};
use cfdp_paths::{LONGEST_NAME, Memory, Names, Path, PathFault};
use std::alloc::Global;
use std::cmp::Ordering;

/// Octets that spell no path, and their fault.
type FaultyPath = (&'static [u8], PathFault);

static FAULTS: [(&str, FaultyPath); 24] = [
    ("no octets", (b"", PathFault::Empty)),
    ("a / alone", (b"/", PathFault::Empty)),
    ("two / alone", (b"//", PathFault::EmptyName)),
    ("a / at the end", (b"a/", PathFault::EmptyName)),
    ("a / at both ends", (b"/a/", PathFault::EmptyName)),
    ("two / in front", (b"//a", PathFault::EmptyName)),
    ("two / in between", (b"a//b", PathFault::EmptyName)),
    ("an empty name before ..", (b"a//..", PathFault::EmptyName)),
    (".. before an empty name", (b"..//a", PathFault::BadName)),
    (".. before a / at the end", (b"a/../", PathFault::BadName)),
    (". alone", (b".", PathFault::BadName)),
    (".. alone", (b"..", PathFault::BadName)),
    (".. after a /", (b"/..", PathFault::BadName)),
    (". in between", (b"a/./b", PathFault::BadName)),
    ("a 0 at the end", (b"a\0", PathFault::BadName)),
    ("a 0 alone", (b"\0", PathFault::BadName)),
    ("nine names", (b"1/2/3/4/5/6/7/8/9", PathFault::TooDeep)),
    (
        "nine names after a /",
        (b"/1/2/3/4/5/6/7/8/9", PathFault::TooDeep),
    ),
    (
        "eight names and a / at the end",
        (b"1/2/3/4/5/6/7/8/", PathFault::TooDeep),
    ),
    (
        "eight names and two / at the end",
        (b"1/2/3/4/5/6/7/8//", PathFault::TooDeep),
    ),
    (
        ".. as the ninth name",
        (b"1/2/3/4/5/6/7/8/..", PathFault::TooDeep),
    ),
    (
        ".. as the tenth name",
        (b"1/2/3/4/5/6/7/8/9/..", PathFault::TooDeep),
    ),
    (
        ". as the eighth name",
        (b"1/2/3/4/5/6/7/./9", PathFault::BadName),
    ),
    (
        "an empty name as the eighth",
        (b"/1/2/3/4/5/6/7//9", PathFault::EmptyName),
    ),
];

impl Row for FaultyPath {
    fn holds(&self, alloc: Global) -> Result<bool, Memory> {
        Ok(
            Path::parse(alloc, self.0).err() == Some(self.1)
                && Names::fault_in(self.0) == Some(self.1),
        )
    }
}

/// They are refused so where each allocation is refused, too: a fault is found without memory.
#[test]
fn faults_in_order(rt: HostRuntime) {
    all_hold(&rt, rt.alloc(), &FAULTS);
}

/// What is before and after a name of 97 octets, and the fault of the whole.
type AroundALongName = (&'static [u8], &'static [u8], PathFault);

static AROUND_A_LONG_NAME: [(&str, AroundALongName); 8] = [
    ("alone", (b"", b"", PathFault::NameTooLong)),
    ("a / in front", (b"/", b"", PathFault::NameTooLong)),
    ("a 0 at its end", (b"", b"\0", PathFault::BadName)),
    ("a / after it", (b"", b"/", PathFault::NameTooLong)),
    (".. after it", (b"", b"/..", PathFault::NameTooLong)),
    (".. before it", (b"../", b"", PathFault::BadName)),
    (
        "an empty name before it",
        (b"//", b"", PathFault::EmptyName),
    ),
    (
        "eight names before it",
        (b"1/2/3/4/5/6/7/8/", b"", PathFault::TooDeep),
    ),
];

/// The whole.
fn around_a_long_name(alloc: Global, before: &[u8], following: &[u8]) -> Result<Vec<u8>, Memory> {
    let mut octets = Vec::from_slice(alloc, before)?;
    octets.extend_from_slice(&[b'x'; LONGEST_NAME + 1])?;
    octets.extend_from_slice(following)?;
    Ok(octets)
}

impl Row for AroundALongName {
    fn holds(&self, alloc: Global) -> Result<bool, Memory> {
        let octets = around_a_long_name(alloc, self.0, self.1)?;
        Ok(
            Path::parse(alloc, &octets).err() == Some(self.2)
                && Names::fault_in(&octets) == Some(self.2),
        )
    }
}

#[test]
fn names_too_long(rt: HostRuntime) {
    all_hold(&rt, rt.alloc(), &AROUND_A_LONG_NAME);
}

/// What a path is to another one.
#[derive(Clone, Copy)]
enum Relation {
    Child,
    /// Below it, and no child.
    Below,
    Same,
    NotBelow,
}

impl Relation {
    /// Whether such a path is at or below the other one, below it, and a child of it.
    fn stated(self) -> (bool, bool, bool) {
        match self {
            Relation::Child => (true, true, true),
            Relation::Below => (true, true, false),
            Relation::Same => (true, false, false),
            Relation::NotBelow => (false, false, false),
        }
    }
}

/// Two paths, and what the first is to the second.
type Beside = (&'static [u8], &'static [u8], Relation);

static BESIDE: [(&str, Beside); 7] = [
    (
        "an ancestor that is not the parent",
        (b"d/x/y", b"d", Relation::Below),
    ),
    ("a parent of two names", (b"d/x/y", b"d/x", Relation::Child)),
    ("the same three names", (b"d/x/y", b"d/x/y", Relation::Same)),
    ("a parent of one name", (b"d/x", b"d", Relation::Child)),
    ("the same two names", (b"d/x", b"d/x", Relation::Same)),
    ("a child", (b"d", b"d/x", Relation::NotBelow)),
    (
        "a name that is a beginning of the other",
        (b"dx", b"d", Relation::NotBelow),
    ),
];

/// Whether the first path is at or below the second, below it, and a child of it.
fn beside(path: &Path, other: &Path) -> (bool, bool, bool) {
    (
        path.is_at_or_below(other),
        path.is_below(other),
        path.is_child_of(other),
    )
}

impl Row for Beside {
    fn holds(&self, alloc: Global) -> Result<bool, Memory> {
        let path = parsed(alloc, self.0)?;
        let other = parsed(alloc, self.1)?;
        Ok(beside(&path, &other) == self.2.stated())
    }
}

#[test]
fn one_path_beside_another(rt: HostRuntime) {
    all_hold(&rt, rt.alloc(), &BESIDE);
}

/// A path, how many names of `d/x/y`, and how it compares with the path of these.
type Beginning = (&'static [u8], usize, Ordering);

static BEGINNINGS: [(&str, Beginning); 4] = [
    ("no names", (b"d", 0, Ordering::Greater)),
    ("one equal name", (b"d", 1, Ordering::Equal)),
    ("two names, the first equal", (b"d", 2, Ordering::Less)),
    ("three names, the first less", (b"e", 3, Ordering::Greater)),
];

/// How a path compares with the first names of another, where that has this many.
fn order(path: &Path, other: &Path, depth: usize) -> Option<Ordering> {
    if other.depth() < depth {
        return None;
    }
    Some(path.cmp_names(&other.first_names(depth)))
}

impl Row for Beginning {
    fn holds(&self, alloc: Global) -> Result<bool, Memory> {
        let path = parsed(alloc, self.0)?;
        let other = parsed(alloc, b"d/x/y")?;
        Ok(order(&path, &other, self.1) == Some(self.2))
    }
}

#[test]
fn order_of_beginnings(rt: HostRuntime) {
    all_hold(&rt, rt.alloc(), &BEGINNINGS);
}

/// The texts of the paths, with `|` after each.
fn texts(alloc: Global, paths: &[Path]) -> Result<Vec<u8>, Memory> {
    let mut texts = Vec::new(alloc);
    for path in paths {
        texts.extend_from_slice(&path.text(alloc)?)?;
        texts.push(b'|')?;
    }
    Ok(texts)
}

/// Paths, and their texts in order.
type Sorted = (&'static [&'static [u8]], &'static [u8]);

static SORTED: [(&str, Sorted); 1] = [(
    "seven paths",
    (
        &[b"d0", b"d/y", b"d/x/z", b"e", b"d", b"d/x", b"D"],
        b"D|d|d/x|d/x/z|d/y|d0|e|",
    ),
)];

/// The paths that each of these spells.
fn paths_of(alloc: Global, octets: &[&[u8]]) -> Result<Vec<Path>, Memory> {
    let mut paths = Vec::new(alloc);
    for path in octets {
        paths.push(parsed(alloc, path)?)?;
    }
    Ok(paths)
}

/// These paths in order.
fn sorted(alloc: Global, octets: &[&[u8]]) -> Result<Vec<Path>, Memory> {
    let mut paths = paths_of(alloc, octets)?;
    paths.sort()?;
    Ok(paths)
}

impl Row for Sorted {
    fn holds(&self, alloc: Global) -> Result<bool, Memory> {
        let paths = sorted(alloc, self.0)?;
        Ok(texts(alloc, &paths)?.as_slice() == self.1)
    }
}

#[test]
fn paths_in_order(rt: HostRuntime) {
    all_hold(&rt, rt.alloc(), &SORTED);
}

fn printed(alloc: Global, path: &Path, fault: PathFault) -> Result<String, Memory> {
    format!(in alloc; "{path:?}: {fault}")
}

/// Octets, their path as it is printed, and a fault after it.
type Printed = (&'static [u8], PathFault, &'static str);

static PRINTED: [(&str, Printed); 1] = [(
    "a space and octets that are no letters",
    (
        b"/d/a \xff\n/x",
        PathFault::TooDeep,
        "d/a \\xff\\n/x: the path has more than 8 names",
    ),
)];

impl Row for Printed {
    fn holds(&self, alloc: Global) -> Result<bool, Memory> {
        let path = parsed(alloc, self.0)?;
        Ok(printed(alloc, &path, self.1)?.as_str() == self.2)
    }
}

#[test]
fn paths_and_faults_are_printed(rt: HostRuntime) {
    all_hold(&rt, rt.alloc(), &PRINTED);
}
