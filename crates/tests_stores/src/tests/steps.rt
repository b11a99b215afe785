//! Steps of scripts as rows of tables: what is asked of a store and what results from it, and what the store shows.

use super::calls::{
    CallResult, StoreCall, checksum, deepest, parsed, read, read_staged, size, staged_size,
};
use cfdp_actions::{Entry, ExistingNode, Filestore, Kind, ListStore, Protected};
use cfdp_paths::{Memory, Path};
use cfdp_status::Action;
use cfdp_tree::TreeStore;
use std::alloc::Global;
use std::process::Abort;

/// How many blocks the stores of most tests have, those of [`run_on_both`] among them.
pub const BLOCKS: u32 = 64;

/// A step of a script. The macros after this enum write the rows of a table.
#[derive(Clone, Copy)]
pub enum Step<'a> {
    /// An action is performed at its names, and comes to a status, ticks and free blocks.
    Performs {
        action: Action,
        first: &'a [u8],
        /// Empty: no second name.
        second: &'a [u8],
        /// The status octet.
        status: u8,
        ticks: u32,
        /// The blocks that are free then.
        free: u32,
    },
    /// What is asked comes to ticks and free blocks.
    Takes {
        asked: StoreCall<'a>,
        ticks: u32,
        free: u32,
    },
    /// These octets are in what is staged in the slot, from the offset `at` on.
    Puts {
        slot: u8,
        at: u64,
        octets: &'a [u8],
    },
    /// What is shown then.
    Shows(Shown<'a>),
}

/// A [`Step::Performs`], as `performs!(RenameFile, b"a", b"b" => status 0x20, ticks 0, free 62)`.
macro_rules! performs {
    ($action:ident, $first:expr => status $status:expr, ticks $ticks:expr, free $free:expr) => {
        performs!($action, $first, b"" => status $status, ticks $ticks, free $free)
    };
    ($action:ident, $first:expr, $second:expr => status $status:expr, ticks $ticks:expr, free $free:expr) => {
        $crate::tests::steps::Step::Performs {
            action: cfdp_status::Action::$action,
            first: $first,
            second: $second,
            status: $status,
            ticks: $ticks,
            free: $free,
        }
    };
}

/// A [`Step::Takes`], as `takes!(Asked::Extend(0, 120) => ticks 1, free 63)`.
macro_rules! takes {
    ($asked:expr => ticks $ticks:expr, free $free:expr) => {
        $crate::tests::steps::Step::Takes {
            asked: $asked,
            ticks: $ticks,
            free: $free,
        }
    };
}

/// A [`Step::Puts`], as `puts!(slot 0, at 3, b"abc")`.
macro_rules! puts {
    (slot $slot:expr, at $at:expr, $octets:expr) => {
        $crate::tests::steps::Step::Puts {
            slot: $slot,
            at: $at,
            octets: $octets,
        }
    };
}

/// A [`Step::Shows`] of [`Shown::Octets`], as `shows_octets!(b"a", size 240, at 3, b"abc")`.
macro_rules! shows_octets {
    ($path:expr, size $size:expr, at $at:expr, $octets:expr) => {
        $crate::tests::steps::Step::Shows($crate::tests::steps::Shown::Octets {
            path: $path,
            size: $size,
            at: $at,
            octets: $octets,
        })
    };
}

/// A [`Step::Shows`] of [`Shown::Staged`], as `shows_staged!(slot 0, size 240, at 3, b"abc")`.
macro_rules! shows_staged {
    (slot $slot:expr, size $size:expr, at $at:expr, $octets:expr) => {
        $crate::tests::steps::Step::Shows($crate::tests::steps::Shown::Staged {
            slot: $slot,
            size: $size,
            at: $at,
            octets: $octets,
        })
    };
}

pub(crate) use performs;
pub(crate) use puts;
pub(crate) use shows_octets;
pub(crate) use shows_staged;
pub(crate) use takes;

/// What a store shows.
#[derive(Clone, Copy)]
pub enum Shown<'a> {
    /// How many octets the file at the path has, and some of them, from the offset `at` on.
    Octets {
        path: &'a [u8],
        size: u64,
        at: u64,
        octets: &'a [u8],
    },
    /// How many octets are staged in the slot, and some of them, from the offset `at` on.
    Staged {
        slot: u8,
        size: u64,
        at: u64,
        octets: &'a [u8],
    },
    /// The checksum of the file at the path; `None` where no file exists.
    Checksum(&'a [u8], Option<u32>),
    /// The checksum of what is staged in the slot.
    StagedChecksum(u8, u32),
    /// The names of the longest path at or below the path; `None` where nothing exists.
    Deepest(&'a [u8], Option<u8>),
    /// All that exists.
    Listing(&'a [Existing<'a>]),
    /// The paths of all that exists, a space after each.
    Paths(&'a [u8]),
    /// All that is at and below the path.
    ExistingNode(&'a [u8], &'a [Existing<'a>]),
}

/// The octets of a path, and the kind, the size and the checksum of what is there.
pub type Existing<'a> = (&'a [u8], Kind, u64, u32);

impl<'a> Step<'a> {
    /// Whether it changes the store, and does not show it alone.
    pub fn is_change(&self) -> bool {
        !matches!(self, Step::Shows(_))
    }

    /// Takes the step: whether all is as it says.
    pub fn holds<S: Filestore>(
        &self,
        alloc: Global,
        store: &mut S,
        protected: &Protected,
    ) -> Result<bool, Memory> {
        match self {
            Step::Performs {
                action,
                first,
                second,
                status,
                ticks,
                free,
            } => {
                let asked = StoreCall::Perform(*action, first, second);
                let answer = CallResult::Performed(*status, *ticks);
                comes_to(alloc, store, protected, &asked, &answer, *free)
            }
            Step::Takes { asked, ticks, free } => {
                comes_to(
                    alloc,
                    store,
                    protected,
                    asked,
                    &CallResult::Ticks(*ticks),
                    *free,
                )
            }
            Step::Puts { slot, at, octets } => {
                let free = store.free();
                let asked = StoreCall::Put(*slot, *at, octets);
                comes_to(alloc, store, protected, &asked, &CallResult::Put, free)
            }
            Step::Shows(shown) => shown.holds(alloc, store),
        }
    }
}

/// Whether this is the answer to what is asked, and this many blocks are free then.
fn comes_to<S: Filestore>(
    alloc: Global,
    store: &mut S,
    protected: &Protected,
    asked: &StoreCall<'_>,
    answer: &CallResult,
    free: u32,
) -> Result<bool, Memory> {
    let found = asked.answer(alloc, store, protected)?;
    Ok(found == *answer && store.free() == free)
}

impl<'a> Shown<'a> {
    /// Whether the store shows it.
    pub fn holds<S: Filestore>(&self, alloc: Global, store: &S) -> Result<bool, Memory> {
        match self {
            Shown::Octets {
                path,
                size,
                at,
                octets,
            } => { has_octets(alloc, store, &parsed(alloc, path)?, *size, *at, octets) }
            Shown::Staged {
                slot,
                size,
                at,
                octets,
            } => has_staged(alloc, store, *slot, *size, *at, octets),
            Shown::Checksum(path, sum) => Ok(checksum(store, &parsed(alloc, path)?) == *sum),
            Shown::StagedChecksum(slot, sum) => Ok(has_staged_checksum(store, *slot, *sum)),
            Shown::Deepest(path, names) => Ok(deepest(store, &parsed(alloc, path)?) == *names),
            Shown::Listing(rows) => are_listed(alloc, &store.listing(alloc)?, rows),
            Shown::Paths(text) => Ok(texts(alloc, &store.listing(alloc)?)?.as_slice() == *text),
            Shown::ExistingNode(path, rows) => {
                are_existing(alloc, &store.existing(alloc, &parsed(alloc, path)?)?, rows)
            }
        }
    }
}

fn has_octets<S: Filestore>(
    alloc: Global,
    store: &S,
    path: &Path,
    count: u64,
    at: u64,
    octets: &[u8],
) -> Result<bool, Memory> {
    let found = read(alloc, store, path, at, octets.len() as u64)?;
    Ok(size(store, path) == Some(count) && is_just(found, octets))
}

/// Whether these octets were read.
fn is_just(found: Option<Vec<u8>>, octets: &[u8]) -> bool {
    match found {
        Some(found) => found.as_slice() == octets,
        None => false,
    }
}

fn has_staged<S: Filestore>(
    alloc: Global,
    store: &S,
    slot: u8,
    count: u64,
    at: u64,
    octets: &[u8],
) -> Result<bool, Memory> {
    let found = read_staged(alloc, store, slot, at, octets.len() as u64)?;
    Ok(staged_size(store, slot) == count && is_just(found, octets))
}

fn has_staged_checksum<S: Filestore>(store: &S, slot: u8, sum: u32) -> bool {
    slot < 64 && store.staged_checksum(slot) == sum
}

/// Whether just these are listed.
pub fn are_listed(alloc: Global, listing: &[Entry], rows: &[Existing<'_>]) -> Result<bool, Memory> {
    for (entry, (path, kind, size, sum)) in listing.iter().zip(rows) {
        let is_same = entry.kind == *kind && entry.size == *size && entry.checksum == *sum;
        if !is_same || entry.path != parsed(alloc, path)? {
            return Ok(false);
        }
    }
    Ok(listing.len() == rows.len())
}

/// Whether just these exist. Nothing is said of checksums.
pub fn are_existing(
    alloc: Global,
    existing: &[ExistingNode],
    rows: &[Existing<'_>],
) -> Result<bool, Memory> {
    for (found, (path, kind, size, _)) in existing.iter().zip(rows) {
        let is_same = found.kind == *kind && found.size == *size;
        if !is_same || found.path != parsed(alloc, path)? {
            return Ok(false);
        }
    }
    Ok(existing.len() == rows.len())
}

/// The paths of a listing, a space after each.
fn texts(alloc: Global, listing: &[Entry]) -> Result<Vec<u8>, Memory> {
    let mut texts = Vec::new(alloc);
    for entry in listing {
        texts.extend_from_slice(&entry.path.text(alloc)?)?;
        texts.push(b' ')?;
    }
    Ok(texts)
}

/// Steps under a name, in parts that follow one another.
#[derive(Drop)]
pub struct NamedSteps<'a> {
    pub name: &'a str,
    pub parts: &'a [&'a [Step<'a>]],
}

/// Takes the steps one after another. Of one that does not hold the script and its number in its part are reported,
/// from 0.
pub fn take<S: Filestore>(
    rt: &impl Abort,
    alloc: Global,
    store: &mut S,
    protected: &Protected,
    name: &str,
    steps: &[Step<'_>],
) -> Result<(), Memory> {
    for (number, step) in steps.iter().enumerate() {
        let holds = step.holds(alloc, store, protected)?;
        assert!(rt; holds, "{name}: step {number} does not hold");
    }
    Ok(())
}

/// Runs the script in the store.
pub fn run<S: Filestore>(
    rt: &impl Abort,
    alloc: Global,
    store: &mut S,
    protected: &Protected,
    script: &NamedSteps<'_>,
) -> Result<(), Memory> {
    for steps in script.parts {
        take(rt, alloc, store, protected, script.name, steps)?;
    }
    Ok(())
}

/// Runs the script in an empty store of each kind.
pub fn run_on_both(
    rt: &impl Abort,
    alloc: Global,
    protected: &Protected,
    script: &NamedSteps<'_>,
) -> Result<(), Memory> {
    run(
        rt,
        alloc,
        &mut ListStore::new(alloc, BLOCKS)?,
        protected,
        script,
    )?;
    run(
        rt,
        alloc,
        &mut TreeStore::new(alloc, BLOCKS)?,
        protected,
        script,
    )
}
