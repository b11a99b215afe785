//! What paths hold, and how much memory, once they moved within a map.

ghost use Rattle.std.specs.Prelude.{◌≡◌, ◌+◌, nat_lt, length};
ghost use Rattle.std.specs.List.{list_any};

use crate::{MOST_NAMES, Memory, Path, PathFault, PathMap};
use std::alloc::Global;

/// Paths, two of them, and the map of all after the entries at and below the one have moved to the other.
struct Move {
    name: &'static str,
    paths: &'static [&'static [u8]],
    from: &'static [u8],
    to: &'static [u8],
    want: &'static str,
    /// How many octets the memory of each path then holds, in path order.
    capacities: &'static [usize],
}

static MOVES: [Move; 7] = [
    Move {
        name: "a path alone, to one of the same length",
        paths: &[b"d/x", b"e"],
        from: b"d",
        to: b"c",
        want: "[(c/x, 0), (e, 1)]",
        capacities: &[3, 1],
    },
    Move {
        name: "a path alone, to one of half the length",
        paths: &[b"ab/d/x"],
        from: b"ab/d",
        to: b"c",
        want: "[(c/x, 0)]",
        capacities: &[6],
    },
    Move {
        name: "a path alone, to one of less than half the length",
        paths: &[b"abc/d/x"],
        from: b"abc/d",
        to: b"c",
        want: "[(c/x, 0)]",
        capacities: &[3],
    },
    Move {
        name: "a path alone, to one that is much shorter",
        paths: &[b"a long name/and a long one below/x"],
        from: b"a long name/and a long one below",
        to: b"c",
        want: "[(c/x, 0)]",
        capacities: &[3],
    },
    Move {
        name: "paths, to one of the same length",
        paths: &[b"d", b"d/x", b"d/x/y", b"e"],
        from: b"d",
        to: b"c",
        want: "[(c, 0), (c/x, 1), (c/x/y, 2), (e, 3)]",
        capacities: &[1, 3, 5, 1],
    },
    Move {
        name: "paths, to one that is a bit shorter",
        paths: &[b"dd", b"dd/x", b"dd/x/y"],
        from: b"dd",
        to: b"c",
        want: "[(c, 0), (c/x, 1), (c/x/y, 2)]",
        capacities: &[2, 4, 6],
    },
    // The first of them alone would keep too much.
    Move {
        name: "paths, to one that is much shorter",
        paths: &[b"ddd", b"ddd/x", b"ddd/x/y"],
        from: b"ddd",
        to: b"c",
        want: "[(c, 0), (c/x, 1), (c/x/y, 2)]",
        capacities: &[1, 3, 5],
    },
];

/// A map of these paths, in no order, with their numbers in the list.
fn map_of(alloc: Global, paths: &[&[u8]]) -> Result<PathMap<usize>, PathFault> {
    let mut map = PathMap::new(alloc);
    for (number, octets) in paths.iter().enumerate() {
        map.insert(Path::parse(alloc, octets)?, number)?;
    }
    Ok(map)
}

/// Whether one of the entries would have more than 8 names once it moved.
fn is_too_deep(entries: &[(Path, usize)], from: &Path, to: &Path) -> bool
    ensures { result ≡ list_any (λ e. nat_lt (8 + length from.now) (length e.0 + length to.now)) entries.now }
{
    entries.iter().any(|entry| entry.0.depth() + to.depth() > MOST_NAMES + from.depth())
}

/// Moves the entries at and below a path, where each has room there.
fn relocate(map: &mut PathMap<usize>, from: &Path, to: &Path) -> Result<(), Memory> {
    if to.depth() > MOST_NAMES || is_too_deep(map.tree(from), from, to) {
        return Ok(());
    }
    map.relocate(from, to)
}

/// How many octets the memory of each path holds.
fn capacities(alloc: Global, map: &PathMap<usize>) -> Result<Vec<usize>, Memory> {
    map.entries()
        .iter()
        .map(|entry| entry.0.capacity())
        .collect(alloc)
}

/// What the map holds after the move, and the memory of its paths.
fn moved(alloc: Global, row: &Move) -> Result<(String, Vec<usize>), PathFault> {
    let mut map = map_of(alloc, row.paths)?;
    let from = Path::parse(alloc, row.from)?;
    let to = Path::parse(alloc, row.to)?;
    relocate(&mut map, &from, &to)?;
    let shown = format!(in alloc; "{:?}", map.entries())?;
    let capacities = capacities(alloc, &map)?;
    Ok((shown, capacities))
}

#[test]
fn moves(rt: HostRuntime) -> Result<(), PathFault> {
    for row in &MOVES {
        let (shown, capacities) = moved(rt.alloc(), row)?;
        let name = row.name;
        assert_eq!(rt; shown.as_str(), row.want, "{name}");
        assert_eq!(rt; capacities.as_slice(), row.capacities, "memory of {name}");
    }
    Ok(())
}
