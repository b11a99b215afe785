//! Octets of sizes around those of whole blocks: staged in pieces, appended to others and to themselves, and replaced.

use super::calls::StoreCall;
use super::steps::{BLOCKS, Step, performs, puts, shows_octets, shows_staged, take, takes};
use cfdp_actions::{Filestore, ListStore, Protected};
use cfdp_paths::Memory;
use cfdp_tree::TreeStore;
use std::alloc::Global;
use std::process::Abort;

/// How many octets the files have: none, and around one block and two of them.
static SIZES: [usize; 6] = [0, 1, 119, 120, 121, 240];

/// The most octets that two of them have.
const MOST: usize = 480;

/// A slot for what is staged beside the files.
const SLOT: u8 = 1;

/// Octets that are distinguished by their offsets.
fn octets() -> [u8; MOST] {
    let mut octets = [0; MOST];
    for (index, octet) in octets.iter_mut().enumerate() {
        *octet = (index * 7 % 251) as u8;
    }
    octets
}

/// How many blocks this many octets take.
fn blocks(octets: usize) -> u32 {
    (octets.div_ceil(120) & 0xffff) as u32
}

/// How many blocks are free after this many.
fn all_but(blocks: u32) -> u32 {
    BLOCKS.wrapping_sub(blocks)
}

/// The octets from one offset up to another.
fn part(octets: &[u8], from: usize, to: usize) -> &[u8] {
    octets.get(from..to).unwrap_or(b"")
}

/// The file of the name has just these octets.
fn has<'a>(name: &'a [u8], octets: &'a [u8]) -> Step<'a> {
    shows_octets!(name, size octets.len() as u64, at 0, octets)
}

/// Makes a file of these octets in a store of which this many blocks are in use.
fn push_file<'a>(
    steps: &mut Vec<Step<'a>>,
    name: &'a [u8],
    octets: &'a [u8],
    used: u32,
) -> Result<(), Memory> {
    let taken = blocks(octets.len());
    let used = used.wrapping_add(taken);
    steps.extend_from_slice(&[
        takes!(StoreCall::Extend(0, octets.len() as u64) => ticks taken, free all_but(used)),
        puts!(slot 0, at 0, octets),
        takes!(StoreCall::Install(0, name) => ticks 1, free all_but(used.wrapping_add(1))),
    ])?;
    Ok(())
}

/// One file is appended to another, which is then replaced by it. The first octets of both are the one's.
fn push_join<'a>(steps: &mut Vec<Step<'a>>, both: &'a [u8], front: usize) -> Result<(), Memory> {
    let (front, back) = (part(both, 0, front), part(both, front, both.len()));
    let (of_both, of_front, of_back) = (
        blocks(both.len()),
        blocks(front.len()),
        blocks(back.len()),
    );
    push_file(steps, b"f", front, 0)?;
    push_file(steps, b"g", back, of_front.wrapping_add(1))?;
    let appended = of_both.wrapping_sub(of_front).wrapping_add(of_back);
    let beside = all_but(of_both.wrapping_add(of_back).wrapping_add(2));
    let replaced = of_back.wrapping_add(of_both.wrapping_mul(2));
    let twice = all_but(of_both.wrapping_mul(2).wrapping_add(2));
    let last = of_both.wrapping_add(1);
    steps.extend_from_slice(&[
        performs!(AppendFile, b"f", b"g" => status 0x30, ticks appended, free beside),
        has(b"f", both),
        has(b"g", back),
        performs!(ReplaceFile, b"g", b"f" => status 0x40, ticks replaced, free twice),
        has(b"g", both),
        performs!(DeleteFile, b"f" => status 0x10, ticks last, free all_but(last)),
        performs!(DeleteFile, b"g" => status 0x10, ticks last, free BLOCKS),
    ])?;
    Ok(())
}

/// Appends a file of the second size to one of the first.
fn join<S: Filestore>(
    rt: &impl Abort,
    alloc: Global,
    store: &mut S,
    octets: &[u8],
    front: usize,
    back: usize,
) -> Result<(), Memory> {
    let mut steps = Vec::new(alloc);
    push_join(&mut steps, part(octets, 0, front.wrapping_add(back)), front)?;
    let name = format!(in alloc; "{back} octets are appended to {front}")?;
    take(rt, alloc, store, &Protected::new(), &name, &steps)
}

fn join_all<S: Filestore>(rt: &impl Abort, alloc: Global, store: &mut S) -> Result<(), Memory> {
    let octets = octets();
    for front in &SIZES {
        for back in &SIZES {
            join(rt, alloc, store, &octets, *front, *back)?;
        }
    }
    Ok(())
}

#[test]
fn files_are_appended(rt: HostRuntime) -> Result<(), Memory> {
    join_all(&rt, rt.alloc(), &mut ListStore::new(rt.alloc(), BLOCKS)?)?;
    join_all(&rt, rt.alloc(), &mut TreeStore::new(rt.alloc(), BLOCKS)?)
}

/// A file is appended to itself, which is the first half of these octets.
fn push_double<'a>(steps: &mut Vec<Step<'a>>, twice: &'a [u8]) -> Result<(), Memory> {
    let taken = blocks(twice.len());
    let used = taken.wrapping_add(1);
    push_file(steps, b"f", part(twice, 0, twice.len() / 2), 0)?;
    steps.extend_from_slice(&[
        performs!(AppendFile, b"f", b"f" => status 0x30, ticks taken, free all_but(used)),
        has(b"f", twice),
        performs!(DeleteFile, b"f" => status 0x10, ticks used, free BLOCKS),
    ])?;
    Ok(())
}

/// This many octets, twice.
fn doubled(alloc: Global, octets: &[u8], count: usize) -> Result<Vec<u8>, Memory> {
    let once = part(octets, 0, count);
    let mut twice = Vec::from_slice(alloc, once)?;
    twice.extend_from_slice(once)?;
    Ok(twice)
}

/// Appends a file of this size to itself.
fn double<S: Filestore>(
    rt: &impl Abort,
    alloc: Global,
    store: &mut S,
    size: usize,
) -> Result<(), Memory> {
    let twice = doubled(alloc, &octets(), size)?;
    let mut steps = Vec::new(alloc);
    push_double(&mut steps, &twice)?;
    let name = format!(in alloc; "{size} octets are appended to themselves")?;
    take(rt, alloc, store, &Protected::new(), &name, &steps)
}

fn double_all<S: Filestore>(rt: &impl Abort, alloc: Global, store: &mut S) -> Result<(), Memory> {
    for size in &SIZES {
        double(rt, alloc, store, *size)?;
    }
    Ok(())
}

#[test]
fn files_are_appended_to_themselves(rt: HostRuntime) -> Result<(), Memory> {
    double_all(&rt, rt.alloc(), &mut ListStore::new(rt.alloc(), BLOCKS)?)?;
    double_all(&rt, rt.alloc(), &mut TreeStore::new(rt.alloc(), BLOCKS)?)
}

/// A name; with how many octets a list begins, how many it has after the first piece, and how many after the second.
type StagedSizes = (&'static str, usize, usize, usize);

static GROWTHS: [StagedSizes; 5] = [
    ("two octets from nothing", 0, 1, 2),
    ("up to a whole block", 1, 119, 120),
    ("to a second block", 119, 120, 121),
    ("by a whole block at once", 120, 240, 240),
    ("from a part of a block to four whole ones", 100, 300, 480),
];

/// What an extension adds.
static ZEROS: [u8; MOST] = [0; MOST];

/// What is staged has just this many octets; these are among them.
fn is_staged<'a>(size: usize, from: usize, octets: &'a [u8]) -> Step<'a> {
    shows_staged!(slot SLOT, size size as u64, at from as u64, octets)
}

/// What is staged has zeros at its end when it was extended, and then what is put there in two pieces.
fn push_growth<'a>(
    steps: &mut Vec<Step<'a>>,
    octets: &'a [u8],
    growth: &StagedSizes,
) -> Result<(), Memory> {
    let (_, begun, middle, size) = *growth;
    let (first, last) = (blocks(begun), blocks(size));
    let whole = part(octets, 0, size);
    let beginning = part(whole, 0, begun);
    steps.extend_from_slice(&[
        takes!(StoreCall::Extend(SLOT, begun as u64) => ticks first, free all_but(first)),
        puts!(slot SLOT, at 0, beginning),
        takes!(StoreCall::Extend(SLOT, size as u64) => ticks last.wrapping_sub(first), free all_but(last)),
        is_staged(size, 0, beginning),
        is_staged(size, begun, part(&ZEROS, begun, size)),
        puts!(slot SLOT, at begun as u64, part(whole, begun, middle)),
        puts!(slot SLOT, at middle as u64, part(whole, middle, size)),
        is_staged(size, 0, whole),
        takes!(StoreCall::Unstage(SLOT) => ticks last, free BLOCKS),
    ])?;
    Ok(())
}

fn grow<S: Filestore>(
    rt: &impl Abort,
    alloc: Global,
    store: &mut S,
    growth: &StagedSizes,
) -> Result<(), Memory> {
    let octets = octets();
    let mut steps = Vec::new(alloc);
    push_growth(&mut steps, &octets, growth)?;
    take(rt, alloc, store, &Protected::new(), growth.0, &steps)
}

fn grow_all<S: Filestore>(rt: &impl Abort, alloc: Global, store: &mut S) -> Result<(), Memory> {
    for growth in &GROWTHS {
        grow(rt, alloc, store, growth)?;
    }
    Ok(())
}

#[test]
fn what_is_staged_grows(rt: HostRuntime) -> Result<(), Memory> {
    grow_all(&rt, rt.alloc(), &mut ListStore::new(rt.alloc(), BLOCKS)?)?;
    grow_all(&rt, rt.alloc(), &mut TreeStore::new(rt.alloc(), BLOCKS)?)
}
