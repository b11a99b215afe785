//! The store inside an arena, looked up and read by names that are lent out of octets; and the checksum of a file in
//! both stores.

use super::calls::{StoreCall, parsed};
use super::steps::{BLOCKS, Existing, Step, performs, puts, take, takes};
use cfdp_actions::{Filestore, Kind, ListStore, Protected, entry_checksum};
use cfdp_paths::{Memory, Names, Path};
use cfdp_tree::TreeStore;
use std::alloc::Global;
use std::process::Abort;

/// Makes what is in [`FOUND`].
const MAKES: &[Step<'static>] = &[
    performs!(CreateDirectory, b"d" => status 0x50, ticks 1, free 63),
    performs!(CreateFile, b"e" => status 0x00, ticks 1, free 62),
    takes!(StoreCall::Extend(0, 5) => ticks 1, free 61),
    puts!(slot 0, at 0, b"abcde"),
    takes!(StoreCall::Install(0, b"d/f") => ticks 1, free 60),
];

/// What exists, also with a `/` in front. The octets of `d/f` are the words 61 62 63 64 and 65 00 00 00.
const FOUND: &[Existing<'static>] = &[
    (b"d", Kind::Directory, 0, 0),
    (b"/d", Kind::Directory, 0, 0),
    (b"e", Kind::File, 0, 0),
    (b"d/f", Kind::File, 5, 0xc662_6364),
    (b"/d/f", Kind::File, 5, 0xc662_6364),
];

/// Where nothing exists: other names, and names below a file.
const ABSENT: &[&[u8]] = &[
    b"f",
    b"D",
    b"d/e",
    b"d/ff",
    b"d/f/g",
    b"e/d",
    b"d/f/d/f/d/f/d/f",
];

/// A name, a path, the offset from which its file is read, and, where a file is there, how many octets that is and what
/// is in four octets `.` then.
const READ: &[(&str, (&[u8], u64, Option<(usize, [u8; 4])>))] = &[
    ("the beginning", (b"d/f", 0, Some((4, *b"abcd")))),
    (
        "a / in front, and the second octet on",
        (b"/d/f", 1, Some((4, *b"bcde"))),
    ),
    ("up to the end", (b"d/f", 2, Some((3, *b"cde.")))),
    ("at the end", (b"d/f", 5, Some((0, *b"....")))),
    ("far after the end", (b"d/f", u64::MAX, Some((0, *b"....")))),
    ("an empty file", (b"e", 0, Some((0, *b"....")))),
    ("a directory", (b"d", 0, None)),
    ("a name below a file", (b"d/f/g", 0, None)),
];

/// A store of [`MAKES`].
fn made(rt: &impl Abort, alloc: Global) -> Result<TreeStore, Memory> {
    let mut store = TreeStore::new(alloc, BLOCKS)?;
    take(rt, alloc, &mut store, &Protected::new(), "lent", MAKES)?;
    Ok(store)
}

/// Whether this is there; `None`: nothing.
fn is_found(
    alloc: Global,
    store: &TreeStore,
    octets: &[u8],
    want: Option<(Kind, u64, u32)>,
) -> Result<bool, Memory> {
    let mut octets = Vec::from_slice(alloc, octets)?;
    if Names::fault_in(&octets).is_some() {
        return Ok(false);
    }
    let found = store.find(Names::lend(&mut octets));
    Ok(found.map(|found| (found.kind, found.size, found.checksum)) == want)
}

#[test]
fn finds_what_exists(rt: HostRuntime) -> Result<(), Memory> {
    let alloc = rt.alloc();
    let store = made(&rt, alloc)?;
    for (path, kind, size, sum) in FOUND {
        assert!(&rt;
            is_found(alloc, &store, path, Some((*kind, *size, *sum)))?,
            "{}",
            path.escape_ascii()
        );
    }
    for path in ABSENT {
        assert!(&rt;
            is_found(alloc, &store, path, None)?,
            "{}",
            path.escape_ascii()
        );
    }
    Ok(())
}

/// What is read of the file into four octets `.`, and how many octets that is; `None` where no file exists.
fn read(
    alloc: Global,
    store: &TreeStore,
    octets: &[u8],
    at: u64,
) -> Result<Option<(usize, [u8; 4])>, Memory> {
    let mut octets = Vec::from_slice(alloc, octets)?;
    let mut buffer = *b"....";
    if Names::fault_in(&octets).is_some() {
        return Ok(None);
    }
    let count = store.read_at(Names::lend(&mut octets), at, &mut buffer);
    Ok(count.map(|count| (count, buffer)))
}

#[test]
fn reads_files_alone(rt: HostRuntime) -> Result<(), Memory> {
    let alloc = rt.alloc();
    let store = made(&rt, alloc)?;
    for (name, (path, at, want)) in READ {
        let read = read(alloc, &store, path, *at)?;
        assert!(&rt; read == *want, "{name}");
    }
    Ok(())
}

/// The checksum of the file at a path; `None` where there is no file.
fn checksum_of<S: Filestore>(store: &S, path: &Path) -> Option<u32> {
    match store.kind(path) {
        Some(Kind::File) => Some(entry_checksum(store, path)),
        Some(Kind::Directory) | None => None,
    }
}

/// The modular checksum of octets, one after another (CCSDS 727.0-B-5, checksum procedures): each is the most
/// significant octet of its word, or 1, 2 or 3 octets after that.
fn sum_of(octets: &[u8]) -> u32 {
    let mut sum = 0_u32;
    for (index, octet) in octets.iter().enumerate() {
        let shift = 24 - 8 * (index % 4) as u32;
        sum = sum.wrapping_add(u32::from(*octet) << shift);
    }
    sum
}

/// Whether a file has its checksum.
fn is_summed<S: Filestore>(alloc: Global, store: &S, row: &Existing<'_>) -> Result<bool, Memory> {
    let (octets, kind, _size, sum) = row;
    let path = parsed(alloc, octets)?;
    let want = match kind {
        Kind::File => Some(*sum),
        Kind::Directory => None,
    };
    Ok(checksum_of(store, &path) == want)
}

/// Makes the files in a store, and looks at the checksum of each.
fn sum_all<S: Filestore>(rt: &impl Abort, alloc: Global, store: &mut S) -> Result<(), Memory> {
    take(rt, alloc, store, &Protected::new(), "summed", MAKES)?;
    for row in FOUND {
        assert!(rt; is_summed(alloc, store, row)?, "{}", row.0.escape_ascii());
    }
    Ok(())
}

#[test]
fn each_store_sums_its_files(rt: HostRuntime) -> Result<(), Memory> {
    let alloc = rt.alloc();
    sum_all(&rt, alloc, &mut ListStore::new(alloc, BLOCKS)?)?;
    sum_all(&rt, alloc, &mut TreeStore::new(alloc, BLOCKS)?)
}

/// Lengths of files at the ends of words and of blocks.
static LENGTHS: [usize; 12] = [0, 1, 2, 3, 4, 5, 119, 120, 121, 122, 240, 1_001];

/// Octets of which no two neighbours are equal.
fn octets_of(alloc: Global, length: usize) -> Result<Vec<u8>, Memory> {
    let mut octets = Vec::with_capacity(alloc, length)?;
    for index in 0..length {
        octets.push((index % 251) as u8)?;
    }
    Ok(octets)
}

/// Writes a file into a store: its checksum is the sum over what was written.
fn sum_written<S: Filestore>(
    rt: &impl Abort,
    alloc: Global,
    store: &mut S,
    octets: &[u8],
) -> Result<(), Memory> {
    let blocks = octets.len().div_ceil(120).min(64) as u32;
    let free = BLOCKS.saturating_sub(blocks);
    let steps = [
        takes!(StoreCall::Extend(0, octets.len() as u64) => ticks blocks, free free),
        puts!(slot 0, at 0, octets),
        takes!(StoreCall::Install(0, b"sum") => ticks 1, free free.saturating_sub(1)),
    ];
    take(rt, alloc, store, &Protected::new(), "written", &steps)?;
    let path = parsed(alloc, b"sum")?;
    assert!(rt;
        checksum_of(store, &path) == Some(sum_of(octets)),
        "{} octets",
        octets.len()
    );
    Ok(())
}

#[test]
fn each_store_sums_what_was_written(rt: HostRuntime) -> Result<(), Memory> {
    let alloc = rt.alloc();
    for length in &LENGTHS {
        let octets = octets_of(alloc, *length)?;
        sum_written(&rt, alloc, &mut ListStore::new(alloc, BLOCKS)?, &octets)?;
        sum_written(&rt, alloc, &mut TreeStore::new(alloc, BLOCKS)?, &octets)?;
    }
    Ok(())
}
