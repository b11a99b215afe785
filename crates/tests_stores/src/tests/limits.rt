//! A `TreeStore` of as many blocks as there may be: a staged list that takes all that is left, and a path of as many
//! and as long names as there may be. `.ci/run_scripts` has a directory of 4,096 entries.

use super::calls::{StoreCall, deepest, parsed};
use super::steps::{
    Existing, NamedSteps, Shown, Step, are_existing, are_listed, performs, puts, run, shows_octets,
    shows_staged, take, takes,
};
use cfdp_actions::{Filestore, Kind, Protected};
use cfdp_paths::Memory;
use cfdp_tree::TreeStore;
use std::alloc::Global;
use std::process::Abort;

/// As many blocks as there may be.
const BLOCKS: u32 = 65_536;

/// The octets of all blocks but the two of a directory and of a file in it.
const LONGEST: u64 = 65_534 * 120;

/// The checksum of three pieces among zeros: the words `firs` and `t`, the last two octets of a word `mi`, `ddle`, and
/// `last`, added up.
const CHECKSUM: u32 = 0xab2f_bfb5;

/// What is staged in the last slot takes all that is left, with three pieces in it, of which the second one goes from
/// one block into the next. It becomes the contents of a file, which takes no block.
const A_LIST_TAKES_ALL_THAT_IS_LEFT: &[Step<'static>] = &[
    performs!(CreateDirectory, b"d" => status 0x50, ticks 1, free 65_535),
    performs!(CreateFile, b"d/f" => status 0x00, ticks 1, free 65_534),
    takes!(StoreCall::Extend(63, 1) => ticks 1, free 65_533),
    takes!(StoreCall::Extend(63, 3_600_000) => ticks 29_999, free 35_534),
    takes!(StoreCall::Extend(63, LONGEST) => ticks 35_534, free 0),
    puts!(slot 63, at LONGEST - 4, b"last"),
    puts!(slot 63, at 3_599_998, b"middle"),
    puts!(slot 63, at 0, b"first"),
    shows_staged!(slot 63, size LONGEST, at 0, b"first"),
    shows_staged!(slot 63, size LONGEST, at 3_599_998, b"middle"),
    shows_staged!(slot 63, size LONGEST, at LONGEST - 4, b"last"),
    Step::Shows(Shown::StagedChecksum(63, CHECKSUM)),
    takes!(StoreCall::Install(63, b"d/f") => ticks 0, free 0),
    shows_staged!(slot 63, size 0, at 0, b""),
    shows_octets!(b"d/f", size LONGEST, at 0, b"first"),
    shows_octets!(b"d/f", size LONGEST, at 3_599_998, b"middle"),
    shows_octets!(b"d/f", size LONGEST, at LONGEST - 4, b"last"),
    Step::Shows(Shown::Checksum(b"d/f", Some(CHECKSUM))),
    performs!(DeleteFile, b"d/f" => status 0x10, ticks 65_535, free 65_535),
    performs!(RemoveDirectory, b"d" => status 0x60, ticks 1, free BLOCKS),
];

/// The octets of all blocks are staged, and given back.
const A_LIST_TAKES_ALL_BLOCKS: &[Step<'static>] = &[
    takes!(StoreCall::Extend(63, 65_536 * 120) => ticks BLOCKS, free 0),
    takes!(StoreCall::Unstage(63) => ticks BLOCKS, free BLOCKS),
];

#[test]
fn a_list_takes_all_blocks(rt: HostRuntime) -> Result<(), Memory> {
    let mut store = TreeStore::new(rt.alloc(), BLOCKS)?;
    let script = NamedSteps {
        name: "a list takes all blocks",
        parts: &[A_LIST_TAKES_ALL_BLOCKS, A_LIST_TAKES_ALL_THAT_IS_LEFT],
    };
    run(&rt, rt.alloc(), &mut store, &Protected::new(), &script)
}

/// Whether just these are listed, those at and below the directory are there, and the longest path has this many names.
fn shows_rows<S: Filestore>(
    alloc: Global,
    store: &S,
    listing: &[Existing<'_>],
    directory: &[u8],
    existing: &[Existing<'_>],
    names: u8,
) -> Result<bool, Memory> {
    let top = parsed(alloc, directory)?;
    Ok(
        deepest(store, &top) == Some(names)
            && are_listed(alloc, &store.listing(alloc)?, listing)?
            && are_existing(alloc, &store.existing(alloc, &top)?, existing)?,
    )
}

/// A path of as many and as long names as there may be: 96 equal letters each, the first name those of one letter, and
/// the others `n`.
fn long(alloc: Global, first: u8) -> Result<Vec<u8>, Memory> {
    let mut path = Vec::from_slice(alloc, &[first; 96])?;
    for _ in 1..8 {
        path.push(b'/')?;
        path.extend_from_slice(&[b'n'; 96])?;
    }
    Ok(path)
}

/// The path of its first names, this many of them.
fn beginning(path: &[u8], names: u32) -> &[u8] {
    let len = names.wrapping_mul(97).wrapping_sub(1);
    path.get(..len as usize).unwrap_or(path)
}

/// What is where the path is that of a file with six octets, and those of its first names are directories.
fn long_rows(alloc: Global, path: &[u8]) -> Result<Vec<Existing<'_>>, Memory> {
    let mut rows = Vec::new(alloc);
    for names in 1..8u32 {
        rows.push((beginning(path, names), Kind::Directory, 0, 0))?;
    }
    rows.push((path, Kind::File, 6, 0xe3d6_7465))?;
    Ok(rows)
}

/// Makes the directories in one another.
fn made(alloc: Global, path: &[u8]) -> Result<Vec<Step<'_>>, Memory> {
    let mut steps = Vec::new(alloc);
    for names in 1..8u32 {
        let directory = beginning(path, names);
        let free = BLOCKS - names;
        steps.push(performs!(CreateDirectory, directory => status 0x50, ticks 1, free free))?;
    }
    Ok(steps)
}

/// Makes the file.
fn delivered(file: &[u8]) -> [Step<'_>; 4] {
    [
        takes!(StoreCall::Extend(0, 6) => ticks 1, free 65_528),
        puts!(slot 0, at 0, b"octets"),
        takes!(StoreCall::Install(0, file) => ticks 1, free 65_527),
        shows_octets!(file, size 6, at 0, b"octets"),
    ]
}

/// The first directory gets another name.
fn renamed<'a>(old: &'a [u8], new: &'a [u8]) -> [Step<'a>; 2] {
    [
        performs!(RenameFile, old, new => status 0x20, ticks 0, free 65_527),
        Step::Shows(Shown::Deepest(old, None)),
    ]
}

/// The file has its octets, and is removed.
fn deleted(file: &[u8]) -> [Step<'_>; 2] {
    [
        shows_octets!(file, size 6, at 0, b"octets"),
        performs!(DeleteFile, file => status 0x10, ticks 2, free 65_529),
    ]
}

/// Removes the directories, the deepest one first.
fn unmade(alloc: Global, path: &[u8]) -> Result<Vec<Step<'_>>, Memory> {
    let mut steps = Vec::new(alloc);
    for above in 0..7u32 {
        let directory = beginning(path, 7 - above);
        let free = 65_530 + above;
        steps.push(performs!(RemoveDirectory, directory => status 0x60, ticks 1, free free))?;
    }
    Ok(steps)
}

/// Just the directories and the file exist.
fn look_at_long<S: Filestore>(
    rt: &impl Abort,
    alloc: Global,
    store: &S,
    path: &[u8],
) -> Result<(), Memory> {
    let rows = long_rows(alloc, path)?;
    let holds = shows_rows(alloc, store, &rows, beginning(path, 1), &rows, 8)?;
    assert!(rt; holds, "at {}", path.escape_ascii());
    Ok(())
}

/// Makes all at the path.
fn make_long<S: Filestore>(
    rt: &impl Abort,
    alloc: Global,
    store: &mut S,
    path: &[u8],
) -> Result<(), Memory> {
    let none = Protected::new();
    take(rt, alloc, store, &none, "makes", &made(alloc, path)?)?;
    take(rt, alloc, store, &none, "delivers", &delivered(path))?;
    look_at_long(rt, alloc, store, path)
}

/// Moves it to another one.
fn move_long<S: Filestore>(
    rt: &impl Abort,
    alloc: Global,
    store: &mut S,
    old: &[u8],
    new: &[u8],
) -> Result<(), Memory> {
    let moves = renamed(beginning(old, 1), beginning(new, 1));
    take(rt, alloc, store, &Protected::new(), "renames", &moves)?;
    look_at_long(rt, alloc, store, new)
}

/// Removes it.
fn remove_long<S: Filestore>(
    rt: &impl Abort,
    alloc: Global,
    store: &mut S,
    path: &[u8],
) -> Result<(), Memory> {
    let none = Protected::new();
    take(rt, alloc, store, &none, "deletes", &deleted(path))?;
    take(rt, alloc, store, &none, "removes", &unmade(alloc, path)?)
}

/// The first directory gets another name, of which only the letters differ.
#[test]
fn a_path_has_eight_names_of_96_octets(rt: HostRuntime) -> Result<(), Memory> {
    let old = long(rt.alloc(), b'n')?;
    let new = long(rt.alloc(), b'm')?;
    let mut store = TreeStore::new(rt.alloc(), BLOCKS)?;
    make_long(&rt, rt.alloc(), &mut store, &old)?;
    move_long(&rt, rt.alloc(), &mut store, &old, &new)?;
    remove_long(&rt, rt.alloc(), &mut store, &new)
}
