//! Worked scripts, each run on a `ListStore` and a `TreeStore` of 64 blocks. Eight protected paths are in
//! `.ci/cases/run/lines.txt`.

use super::calls::{StoreCall, parsed};
use super::steps::{
    Existing, NamedSteps, Shown, Step, performs, puts, run_on_both, shows_octets, shows_staged,
    takes,
};
use super::{many, one_hash};
use cfdp_actions::{Filestore, Kind, ListStore, Protected};
use cfdp_paths::Memory;
use cfdp_tree::TreeStore;
use std::alloc::Global;

const CREATES_AND_REMOVES: &[Step<'static>] = &[
    performs!(CreateDirectory, b"d" => status 0x50, ticks 1, free 63),
    performs!(CreateFile, b"d/x" => status 0x00, ticks 1, free 62),
    performs!(RemoveDirectory, b"d" => status 0x62, ticks 0, free 62),
    performs!(RenameFile, b"d/x", b"b" => status 0x20, ticks 0, free 62),
    performs!(ReplaceFile, b"b", b"c" => status 0x42, ticks 0, free 62),
    performs!(RemoveDirectory, b"d" => status 0x60, ticks 1, free 63),
    performs!(DenyDirectory, b"d" => status 0x80, ticks 0, free 63),
    performs!(AppendFile, b"b", b"b" => status 0x30, ticks 0, free 63),
    performs!(DenyFile, b"b" => status 0x70, ticks 1, free 64),
    performs!(DeleteFile, b"b" => status 0x11, ticks 0, free 64),
    performs!(CreateFile, b"x/y" => status 0x01, ticks 0, free 64),
];

const DENIES: &[Step<'static>] = &[
    performs!(DenyFile, b"z" => status 0x70, ticks 0, free 64),
    performs!(DenyDirectory, b"y/z" => status 0x80, ticks 0, free 64),
    performs!(CreateDirectory, b"d" => status 0x50, ticks 1, free 63),
    performs!(CreateFile, b"d/x" => status 0x00, ticks 1, free 62),
    performs!(DenyDirectory, b"d" => status 0x82, ticks 0, free 62),
    performs!(DenyFile, b"d" => status 0x72, ticks 0, free 62),
];

const MOVES_A_DIRECTORY: &[Step<'static>] = &[
    performs!(CreateDirectory, b"d" => status 0x50, ticks 1, free 63),
    performs!(CreateFile, b"d/x" => status 0x00, ticks 1, free 62),
    performs!(RenameFile, b"d", b"e" => status 0x20, ticks 0, free 62),
    performs!(DeleteFile, b"e/x" => status 0x10, ticks 1, free 63),
    performs!(RenameFile, b"e", b"e/f" => status 0x23, ticks 0, free 63),
    performs!(RenameFile, b"e", b"e" => status 0x22, ticks 0, free 63),
    performs!(RenameFile, b"q", b"r" => status 0x21, ticks 0, free 63),
    performs!(RenameFile, b"e", b"q/r" => status 0x23, ticks 0, free 63),
];

/// What is at and below `z/b` after the next script: seven names.
const BELOW: &[Existing<'static>] = &[
    (b"z/b", Kind::Directory, 0, 0),
    (b"z/b/c", Kind::Directory, 0, 0),
    (b"z/b/c/d", Kind::Directory, 0, 0),
    (b"z/b/c/d/e", Kind::Directory, 0, 0),
    (b"z/b/c/d/e/f", Kind::Directory, 0, 0),
    (b"z/b/c/d/e/f/g", Kind::Directory, 0, 0),
    (b"z/b/c/d/e/f/g/h", Kind::Directory, 0, 0),
];

const MOVES_NO_DEEPER_THAN_EIGHT_NAMES: &[Step<'static>] = &[
    performs!(CreateDirectory, b"e" => status 0x50, ticks 1, free 63),
    performs!(CreateDirectory, b"a" => status 0x50, ticks 1, free 62),
    performs!(CreateDirectory, b"a/b" => status 0x50, ticks 1, free 61),
    performs!(CreateDirectory, b"a/b/c" => status 0x50, ticks 1, free 60),
    performs!(CreateDirectory, b"a/b/c/d" => status 0x50, ticks 1, free 59),
    performs!(CreateDirectory, b"a/b/c/d/e" => status 0x50, ticks 1, free 58),
    performs!(CreateDirectory, b"a/b/c/d/e/f" => status 0x50, ticks 1, free 57),
    performs!(CreateDirectory, b"a/b/c/d/e/f/g" => status 0x50, ticks 1, free 56),
    performs!(CreateDirectory, b"a/b/c/d/e/f/g/h" => status 0x50, ticks 1, free 55),
    performs!(RenameFile, b"a", b"e/a" => status 0x23, ticks 0, free 55),
    performs!(RenameFile, b"a", b"z" => status 0x20, ticks 0, free 55),
    Step::Shows(Shown::Deepest(b"z", Some(8))),
    Step::Shows(Shown::Deepest(b"e", Some(1))),
    Step::Shows(Shown::Deepest(b"a", None)),
    Step::Shows(Shown::ExistingNode(b"z/b", BELOW)),
];

/// Ones, as many as two blocks have.
const ONES: &[u8] = &[1; 240];

/// A block of ones.
const BLOCK: &[u8] = &[1; 120];

/// One octet fewer.
const SHORT: &[u8] = &[1; 119];

const APPENDS_A_BLOCK_TO_ITSELF: &[Step<'static>] = &[
    takes!(StoreCall::Extend(0, 120) => ticks 1, free 63),
    puts!(slot 0, at 0, BLOCK),
    takes!(StoreCall::Install(0, b"a") => ticks 1, free 62),
    performs!(AppendFile, b"a", b"a" => status 0x30, ticks 2, free 61),
    Step::Shows(Shown::Listing(&[(b"a", Kind::File, 240, 0x3c3c_3c3c)])),
    shows_octets!(b"a", size 240, at 0, ONES),
];

const APPENDS_A_SHORT_FILE_TO_ITSELF: &[Step<'static>] = &[
    takes!(StoreCall::Extend(0, 119) => ticks 1, free 63),
    puts!(slot 0, at 0, SHORT),
    takes!(StoreCall::Install(0, b"a") => ticks 1, free 62),
    performs!(AppendFile, b"a", b"a" => status 0x30, ticks 2, free 61),
    Step::Shows(Shown::Listing(&[(b"a", Kind::File, 238, 0x3c3c_3b3b)])),
];

/// A copy of a file over it and beside it, and three octets over the copy.
const REPLACES: &[Step<'static>] = &[
    takes!(StoreCall::Extend(0, 120) => ticks 1, free 63),
    puts!(slot 0, at 0, BLOCK),
    takes!(StoreCall::Install(0, b"a") => ticks 1, free 62),
    performs!(ReplaceFile, b"a", b"a" => status 0x40, ticks 0, free 62),
    performs!(CreateFile, b"b" => status 0x00, ticks 1, free 61),
    performs!(ReplaceFile, b"b", b"a" => status 0x40, ticks 2, free 60),
    shows_octets!(b"a", size 120, at 0, BLOCK),
    Step::Shows(Shown::Checksum(b"a", Some(0x1e1e_1e1e))),
    shows_octets!(b"b", size 120, at 0, BLOCK),
    Step::Shows(Shown::Checksum(b"b", Some(0x1e1e_1e1e))),
    takes!(StoreCall::Extend(0, 3) => ticks 1, free 59),
    puts!(slot 0, at 0, b"xyz"),
    takes!(StoreCall::Install(0, b"b") => ticks 1, free 60),
    Step::Shows(Shown::ExistingNode(b"b", &[(b"b", Kind::File, 3, 0)])),
    shows_octets!(b"b", size 3, at 0, b"xyz"),
    Step::Shows(Shown::Checksum(b"b", Some(0x7879_7a00))),
];

/// What is staged in the last slot takes all that another one leaves, and gives it back.
const STAGES: &[Step<'static>] = &[
    takes!(StoreCall::Extend(0, 7440) => ticks 62, free 2),
    takes!(StoreCall::Extend(63, 121) => ticks 2, free 0),
    shows_staged!(slot 63, size 121, at 118, &[0, 0, 0]),
    puts!(slot 63, at 119, b"ab"),
    shows_staged!(slot 63, size 121, at 118, &[0, b'a', b'b']),
    takes!(StoreCall::Unstage(63) => ticks 2, free 2),
    shows_staged!(slot 63, size 0, at 0, b""),
    takes!(StoreCall::Unstage(0) => ticks 62, free 64),
];

/// The sum of what is staged after each piece: among zeros, over a part of the last one, over its beginning, and twice.
/// Then over all with the greatest octets and with zeros, and after the list grew within a word. Then the sum of files
/// that are appended within a word, and of one that is replaced.
const KEEPS_SUMS: &[Step<'static>] = &[
    takes!(StoreCall::Extend(0, 7) => ticks 1, free 63),
    Step::Shows(Shown::StagedChecksum(0, 0)),
    puts!(slot 0, at 2, &[1, 2, 3]),
    Step::Shows(Shown::StagedChecksum(0, 0x0300_0102)),
    puts!(slot 0, at 1, &[4, 5, 6]),
    Step::Shows(Shown::StagedChecksum(0, 0x0304_0506)),
    puts!(slot 0, at 0, &[7]),
    Step::Shows(Shown::StagedChecksum(0, 0x0a04_0506)),
    puts!(slot 0, at 0, &[7]),
    Step::Shows(Shown::StagedChecksum(0, 0x0a04_0506)),
    puts!(slot 0, at 0, &[255; 7]),
    Step::Shows(Shown::StagedChecksum(0, 0xffff_feff)),
    puts!(slot 0, at 0, &[0; 7]),
    Step::Shows(Shown::StagedChecksum(0, 0)),
    puts!(slot 0, at 4, &[1, 2, 3]),
    Step::Shows(Shown::StagedChecksum(0, 0x0102_0300)),
    takes!(StoreCall::Extend(0, 9) => ticks 0, free 63),
    Step::Shows(Shown::StagedChecksum(0, 0x0102_0300)),
    puts!(slot 0, at 7, &[4, 5]),
    Step::Shows(Shown::StagedChecksum(0, 0x0602_0304)),
    takes!(StoreCall::Install(0, b"a") => ticks 1, free 62),
    Step::Shows(Shown::StagedChecksum(0, 0)),
    Step::Shows(Shown::Checksum(b"a", Some(0x0602_0304))),
    takes!(StoreCall::Extend(1, 5) => ticks 1, free 61),
    puts!(slot 1, at 0, &[1, 2, 3, 4, 5]),
    takes!(StoreCall::Install(1, b"b") => ticks 1, free 60),
    Step::Shows(Shown::Checksum(b"b", Some(0x0602_0304))),
    performs!(AppendFile, b"a", b"b" => status 0x30, ticks 1, free 60),
    Step::Shows(Shown::Checksum(b"a", Some(0x0a08_0507))),
    performs!(AppendFile, b"b", b"a" => status 0x30, ticks 1, free 60),
    Step::Shows(Shown::Checksum(b"b", Some(0x0d0c_0b09))),
    performs!(ReplaceFile, b"a", b"b" => status 0x40, ticks 3, free 60),
    Step::Shows(Shown::Checksum(b"a", Some(0x0d0c_0b09))),
    // What a file had is staged no more, once another one replaced it.
    takes!(StoreCall::Extend(0, 4) => ticks 1, free 59),
    puts!(slot 0, at 0, &[1]),
    takes!(StoreCall::Install(0, b"b") => ticks 1, free 60),
    Step::Shows(Shown::Checksum(b"b", Some(0x0100_0000))),
    takes!(StoreCall::Extend(0, 2) => ticks 1, free 59),
    puts!(slot 0, at 1, &[9]),
    Step::Shows(Shown::StagedChecksum(0, 0x0009_0000)),
    takes!(StoreCall::Unstage(0) => ticks 1, free 60),
    Step::Shows(Shown::StagedChecksum(0, 0)),
];

/// Each is run on a store of its own.
static SCRIPTS: [NamedSteps<'static>; 9] = [
    NamedSteps {
        name: "keeps sums",
        parts: &[KEEPS_SUMS],
    },
    NamedSteps {
        name: "creates and removes",
        parts: &[CREATES_AND_REMOVES],
    },
    NamedSteps {
        name: "denies",
        parts: &[DENIES],
    },
    NamedSteps {
        name: "moves a directory",
        parts: &[MOVES_A_DIRECTORY],
    },
    NamedSteps {
        name: "moves no deeper than eight names",
        parts: &[MOVES_NO_DEEPER_THAN_EIGHT_NAMES],
    },
    NamedSteps {
        name: "appends a block to itself",
        parts: &[APPENDS_A_BLOCK_TO_ITSELF],
    },
    NamedSteps {
        name: "appends a short file to itself",
        parts: &[APPENDS_A_SHORT_FILE_TO_ITSELF],
    },
    NamedSteps {
        name: "replaces",
        parts: &[REPLACES],
    },
    NamedSteps {
        name: "stages",
        parts: &[STAGES],
    },
];

#[test]
fn scripts(rt: HostRuntime) -> Result<(), Memory> {
    for script in SCRIPTS
        .iter()
        .chain(&many::SCRIPTS)
        .chain(&one_hash::SCRIPTS)
    {
        run_on_both(&rt, rt.alloc(), &Protected::new(), script)?;
    }
    Ok(())
}

/// Over a store with the protected path `sys/boot`.
const PROTECTS: &[Step<'static>] = &[
    performs!(CreateDirectory, b"sys" => status 0x50, ticks 1, free 63),
    performs!(RenameFile, b"sys", b"s" => status 0x23, ticks 0, free 63),
    performs!(RemoveDirectory, b"sys" => status 0x60, ticks 1, free 64),
    performs!(CreateDirectory, b"sys" => status 0x50, ticks 1, free 63),
    performs!(CreateFile, b"sys/boot" => status 0x00, ticks 1, free 62),
    performs!(DeleteFile, b"sys/boot" => status 0x12, ticks 0, free 62),
    performs!(DenyFile, b"sys/boot/z" => status 0x72, ticks 0, free 62),
    performs!(ReplaceFile, b"sys/boot", b"sys/boot" => status 0x43, ticks 0, free 62),
];

#[test]
fn protects(rt: HostRuntime) -> Result<(), Memory> {
    let mut protected = Protected::new();
    let is_added = adds(rt.alloc(), &mut protected, b"sys/boot")?;
    assert!(rt; is_added, "a path is protected");
    let script = NamedSteps {
        name: "protects",
        parts: &[PROTECTS],
    };
    run_on_both(&rt, rt.alloc(), &protected, &script)
}

/// Protects a path: whether there is room for it.
fn adds(alloc: Global, protected: &mut Protected, path: &[u8]) -> Result<bool, Memory> {
    let path = parsed(alloc, path)?;
    Ok(protected.add(path).is_ok())
}

/// The changes of the one store take memory, those of the other none.
#[test]
fn tells_whether_changes_take_memory(rt: HostRuntime) -> Result<(), Memory> {
    let lists = ListStore::new(rt.alloc(), 2)?;
    assert!(rt; !lists.takes_no_memory(), "a list store takes memory");
    let tree = TreeStore::new(rt.alloc(), 2)?;
    assert!(rt; tree.takes_no_memory(), "a tree store takes none");
    Ok(())
}
