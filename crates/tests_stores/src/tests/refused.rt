//! Each call that can run out of memory, for runs in which one allocation is refused (`rt try --test --fail-alloc N`).
//! A call whose own allocation it is answers `Memory` and leaves the store as before. Made once more it succeeds. Where
//! the allocation is the test's own, the test ends. With every allocation granted each call succeeds at once. Of a
//! `TreeStore` no change can be refused.

use super::calls::{StoreCall, read_staged, staged_size};
use super::steps::{BLOCKS, NamedSteps, Shown, Step, performs, puts, shows_staged, takes};
use cfdp_actions::{Entry, Filestore, Kind, ListStore, Protected};
use cfdp_paths::Memory;
use cfdp_tree::TreeStore;
use std::alloc::{AllocError, Global};
use std::process::Abort;

/// What a store shows of its state: all that exists, what is staged in one slot, and the free blocks.
#[derive(Drop, PartialEq)]
struct Picture {
    listing: Vec<Entry>,
    staged: Option<Vec<u8>>,
    free: u32,
}

/// The slot in which the steps stage octets.
const SLOT: u8 = 63;

fn picture_of<S: Filestore>(alloc: Global, store: &S) -> Result<Picture, Memory> {
    Ok(Picture {
        listing: store.listing(alloc)?,
        staged: read_staged(alloc, store, SLOT, 0, staged_size(store, SLOT))?,
        free: store.free(),
    })
}

/// Whether the step, which was out of memory, may want it, and left the store as it was.
fn leaves<S: Filestore>(
    alloc: Global,
    store: &S,
    step: &Step<'_>,
    before: &Picture,
) -> Result<bool, Memory> {
    let may_want = !step.is_change() || !store.takes_no_memory();
    Ok(may_want && picture_of(alloc, store)? == *before)
}

/// Takes a step: whether all is as it says. Where it is out of memory, that is reported, and it is taken once more.
fn holds_at_last<S: Filestore, R: Abort + Print>(
    rt: &R,
    alloc: Global,
    store: &mut S,
    step: &Step<'_>,
) -> Result<bool, Memory> {
    let before = picture_of(alloc, store)?;
    match step.holds(alloc, store, &Protected::new()) {
        Err(AllocError) => {
            let _ = println!(rt; "the step was out of memory");
            Ok(leaves(alloc, store, step, &before)? && step.holds(alloc, store, &Protected::new())?)
        }
        answer => answer,
    }
}

/// Takes the steps one after another. Of one that does not hold the script and its number are reported, from 0.
fn take_at_last<S: Filestore, R: Abort + Print>(
    rt: &R,
    alloc: Global,
    store: &mut S,
    name: &str,
    steps: &[Step<'_>],
) -> Result<(), Memory> {
    for (number, step) in steps.iter().enumerate() {
        let holds = holds_at_last(rt, alloc, store, step)?;
        assert!(rt; holds, "script {name}: step {number} does not hold");
    }
    Ok(())
}

/// Of an empty store.
const NEW: &[Step<'static>] = &[
    Step::Shows(Shown::Listing(&[])),
    shows_staged!(slot SLOT, size 0, at 0, b""),
    takes!(StoreCall::Unstage(SLOT) => ticks 0, free BLOCKS),
];

const CREATES: &[Step<'static>] = &[
    performs!(CreateDirectory, b"d" => status 0x50, ticks 1, free 63),
    performs!(CreateFile, b"d/x" => status 0x00, ticks 1, free 62),
    performs!(CreateFile, b"d/x" => status 0x01, ticks 0, free 62),
    performs!(CreateFile, b"c" => status 0x00, ticks 1, free 61),
    Step::Shows(Shown::Listing(&[
        (b"c", Kind::File, 0, 0),
        (b"d", Kind::Directory, 0, 0),
        (b"d/x", Kind::File, 0, 0),
    ])),
];

const RENAMES: &[Step<'static>] = &[
    performs!(CreateDirectory, b"d" => status 0x50, ticks 1, free 63),
    performs!(CreateFile, b"d/x" => status 0x00, ticks 1, free 62),
    performs!(RenameFile, b"d", b"e" => status 0x20, ticks 0, free 62),
    performs!(RenameFile, b"e/x", b"c" => status 0x20, ticks 0, free 62),
    Step::Shows(Shown::Listing(&[(b"c", Kind::File, 0, 0), (b"e", Kind::Directory, 0, 0)])),
];

const REMOVES: &[Step<'static>] = &[
    performs!(CreateFile, b"a" => status 0x00, ticks 1, free 63),
    performs!(DeleteFile, b"a" => status 0x10, ticks 1, free 64),
    performs!(CreateFile, b"a" => status 0x00, ticks 1, free 63),
    performs!(DenyFile, b"a" => status 0x70, ticks 1, free 64),
    performs!(CreateDirectory, b"a" => status 0x50, ticks 1, free 63),
    performs!(RemoveDirectory, b"a" => status 0x60, ticks 1, free 64),
    performs!(CreateDirectory, b"a" => status 0x50, ticks 1, free 63),
    performs!(DenyDirectory, b"a" => status 0x80, ticks 1, free 64),
    Step::Shows(Shown::Listing(&[])),
];

/// A block of ones.
const ONES: &[u8] = &[1; 120];

/// What is delivered at `a` takes blocks of its own: one where it is staged, and one for the file.
const APPENDS: &[Step<'static>] = &[
    takes!(StoreCall::Extend(SLOT, 120) => ticks 1, free 63),
    puts!(slot SLOT, at 0, ONES),
    takes!(StoreCall::Install(SLOT, b"a") => ticks 1, free 62),
    performs!(AppendFile, b"a", b"a" => status 0x30, ticks 2, free 61),
    Step::Shows(Shown::Listing(&[(b"a", Kind::File, 240, 0x3c3c_3c3c)])),
];

const REPLACES: &[Step<'static>] = &[
    takes!(StoreCall::Extend(SLOT, 120) => ticks 1, free 63),
    puts!(slot SLOT, at 0, ONES),
    takes!(StoreCall::Install(SLOT, b"a") => ticks 1, free 62),
    performs!(CreateFile, b"b" => status 0x00, ticks 1, free 61),
    performs!(ReplaceFile, b"b", b"a" => status 0x40, ticks 2, free 60),
    Step::Shows(Shown::Listing(&[
        (b"a", Kind::File, 120, 0x1e1e_1e1e),
        (b"b", Kind::File, 120, 0x1e1e_1e1e),
    ])),
];

/// What is staged grows, is installed where nothing exists, and then over the file.
const STAGES_AND_INSTALLS: &[Step<'static>] = &[
    takes!(StoreCall::Extend(SLOT, 4) => ticks 1, free 63),
    takes!(StoreCall::Extend(SLOT, 120) => ticks 0, free 63),
    puts!(slot SLOT, at 0, ONES),
    takes!(StoreCall::Install(SLOT, b"a") => ticks 1, free 62),
    takes!(StoreCall::Extend(SLOT, 4) => ticks 1, free 61),
    puts!(slot SLOT, at 0, &[1; 4]),
    takes!(StoreCall::Install(SLOT, b"a") => ticks 1, free 62),
    shows_staged!(slot SLOT, size 0, at 0, b""),
    Step::Shows(Shown::Listing(&[(b"a", Kind::File, 4, 0x0101_0101)])),
];

const WHAT_EXISTS: &[Step<'static>] = &[
    performs!(CreateDirectory, b"d" => status 0x50, ticks 1, free 63),
    performs!(CreateFile, b"d/x" => status 0x00, ticks 1, free 62),
    Step::Shows(Shown::Listing(&[(b"d", Kind::Directory, 0, 0), (b"d/x", Kind::File, 0, 0)])),
    Step::Shows(Shown::ExistingNode(
        b"d",
        &[(b"d", Kind::Directory, 0, 0), (b"d/x", Kind::File, 0, 0)],
    )),
];

/// Each is run in stores of its own.
static SCRIPTS: [NamedSteps<'static>; 8] = [
    NamedSteps {
        name: "new",
        parts: &[NEW],
    },
    NamedSteps {
        name: "creates",
        parts: &[CREATES],
    },
    NamedSteps {
        name: "renames",
        parts: &[RENAMES],
    },
    NamedSteps {
        name: "removes",
        parts: &[REMOVES],
    },
    NamedSteps {
        name: "appends",
        parts: &[APPENDS],
    },
    NamedSteps {
        name: "replaces",
        parts: &[REPLACES],
    },
    NamedSteps {
        name: "stages and installs",
        parts: &[STAGES_AND_INSTALLS],
    },
    NamedSteps {
        name: "what exists",
        parts: &[WHAT_EXISTS],
    },
];

/// Runs the script in a new store of each kind.
fn run_at_last<R: Abort + Print>(
    rt: &R,
    alloc: Global,
    script: &NamedSteps<'_>,
) -> Result<(), Memory> {
    let (mut lists, mut tree) = (
        ListStore::new(alloc, BLOCKS)?,
        TreeStore::new(alloc, BLOCKS)?,
    );
    for steps in script.parts {
        take_at_last(rt, alloc, &mut lists, script.name, steps)?;
        take_at_last(rt, alloc, &mut tree, script.name, steps)?;
    }
    Ok(())
}

/// A `TreeStore` of more blocks than the other scripts have.
const MORE_BLOCKS: u32 = 257;

/// Of 60 staged blocks the last one is written first, then the first one, and then the 33rd one.
const WRITES_OUT_OF_ORDER: &[Step<'static>] = &[
    takes!(StoreCall::Extend(SLOT, 7_200) => ticks 60, free 197),
    puts!(slot SLOT, at 7_080, ONES),
    puts!(slot SLOT, at 0, ONES),
    puts!(slot SLOT, at 3_840, ONES),
    shows_staged!(slot SLOT, size 7_200, at 7_080, ONES),
    shows_staged!(slot SLOT, size 7_200, at 0, ONES),
    shows_staged!(slot SLOT, size 7_200, at 3_840, ONES),
    takes!(StoreCall::Unstage(SLOT) => ticks 60, free MORE_BLOCKS),
];

/// A store of more blocks. If one of its allocations is refused, the next call makes it.
fn larger_store<R: Print>(rt: &R, alloc: Global) -> Result<TreeStore, Memory> {
    match TreeStore::new(alloc, MORE_BLOCKS) {
        Err(AllocError) => {
            let _ = println!(rt; "the store was out of memory");
            TreeStore::new(alloc, MORE_BLOCKS)
        }
        answer => answer,
    }
}

#[test]
fn writes_out_of_order_in_a_larger_store(rt: HostRuntime) -> Result<(), Memory> {
    let mut store = larger_store(&rt, rt.alloc())?;
    take_at_last(
        &rt,
        rt.alloc(),
        &mut store,
        "writes out of order",
        WRITES_OUT_OF_ORDER,
    )
}

#[test]
fn each_call(rt: HostRuntime) -> Result<(), Memory> {
    for script in &SCRIPTS {
        run_at_last(&rt, rt.alloc(), script)?;
    }
    Ok(())
}
