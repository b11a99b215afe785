//! A view of a store that describes one tree alone.

use super::scene::{Before, Scene, path_of};
use super::views::{AppliedRequest, Row, requests, run};
use cfdp_actions::{Entry, ExistingNode, Filestore, Kind, ListStore, Protected};
use cfdp_leases::footprint;
use cfdp_paths::{Memory, Path};
use cfdp_states::View;
use cfdp_status::Action;
use std::alloc::{AllocError, Global};
use std::process::Abort;

/// A store that has no memory for a listing, nor for what is at and below a path outside of one tree.
#[derive(Drop)]
struct OneTree<S: Filestore> {
    inner: S,
    root: Path,
}

impl<S: Filestore> Filestore for OneTree<S> {
    ghost state = { λ s. S.state s.inner };

    fn kind(&self, path: &Path) -> Option<Kind> {
        self.inner.kind(path)
    }

    fn parent_is_good(&self, path: &Path) -> bool {
        self.inner.parent_is_good(path)
    }

    fn has_entries(&self, path: &Path) -> bool {
        self.inner.has_entries(path)
    }

    fn has_beside(&self, path: &Path, others: &[Path]) -> bool {
        self.inner.has_beside(path, others)
    }

    fn size(&self, path: &Path) -> u64 {
        self.inner.size(path)
    }

    fn read(&self, path: &Path, at: u64, buffer: &mut [u8]) {
        self.inner.read(path, at, buffer);
    }

    fn checksum(&self, path: &Path) -> u32 {
        self.inner.checksum(path)
    }

    fn deepest(&self, path: &Path) -> u8 {
        self.inner.deepest(path)
    }

    fn deepest_beside(&self, path: &Path, others: &[Path]) -> u8 {
        self.inner.deepest_beside(path, others)
    }

    fn staged_size(&self, slot: u8) -> u64 {
        self.inner.staged_size(slot)
    }

    fn read_staged(&self, slot: u8, at: u64, buffer: &mut [u8]) {
        self.inner.read_staged(slot, at, buffer);
    }

    fn staged_checksum(&self, slot: u8) -> u32 {
        self.inner.staged_checksum(slot)
    }

    fn free(&self) -> u32 {
        self.inner.free()
    }

    fn takes_no_memory(&self) -> bool {
        self.inner.takes_no_memory()
    }

    fn listing(&self, _alloc: Global) -> Result<Vec<Entry>, Memory> {
        Err(AllocError)
    }

    fn existing(&self, alloc: Global, path: &Path) -> Result<Vec<ExistingNode>, Memory> {
        if path.is_at_or_below(&self.root) {
            self.inner.existing(alloc, path)
        } else {
            Err(AllocError)
        }
    }

    fn make_file(&mut self, path: &Path) -> Result<u32, Memory> {
        self.inner.make_file(path)
    }

    fn make_dir(&mut self, path: &Path) -> Result<u32, Memory> {
        self.inner.make_dir(path)
    }

    fn remove(&mut self, path: &Path) -> Result<u32, Memory> {
        self.inner.remove(path)
    }

    fn rename(&mut self, from: &Path, to: &Path) -> Result<u32, Memory> {
        self.inner.rename(from, to)
    }

    fn append(&mut self, first: &Path, second: &Path) -> Result<u32, Memory> {
        self.inner.append(first, second)
    }

    fn replace(&mut self, first: &Path, second: &Path) -> Result<u32, Memory> {
        self.inner.replace(first, second)
    }

    fn stage_extend(&mut self, slot: u8, size: u64) -> Result<u32, Memory> {
        self.inner.stage_extend(slot, size)
    }

    fn stage_put(&mut self, slot: u8, at: u64, octets: &[u8]) {
        self.inner.stage_put(slot, at, octets);
    }

    fn unstage(&mut self, slot: u8) -> u32 {
        self.inner.unstage(slot)
    }

    fn install(&mut self, slot: u8, path: &Path) -> Result<u32, Memory> {
        self.inner.install(slot, path)
    }
}

/// A tree, and what is beside it.
static BEFORE: [Before; 4] = [
    Before::Delivered(b"src", 600),
    Before::Delivered(b"other", 240),
    Before::Performed(b"\x00\x03\x50\x01d"),
    Before::Performed(b"\x00\x07\x00\x05d/log"),
];

/// What is exclusive is in the tree, and no more than kind and size is asked of what is shared.
static IN_TREE: Row = (
    "in the tree",
    None,
    &[
        (Action::AppendFile, b"d/log", b"src", 0x30),
        (Action::RemoveDirectory, b"d", b"", 0x62),
    ],
    5,
    13,
);

/// The store does not describe this one.
static OUTSIDE: [AppliedRequest; 1] = [(Action::DeleteFile, b"other", b"", 0x10)];

/// Whether the store gives no listing.
fn has_no_listing(alloc: Global, store: &OneTree<ListStore>) -> bool {
    store.listing(alloc).is_err()
}

/// Whether there is no view of what it does not describe.
fn is_hidden(
    alloc: Global,
    store: &OneTree<ListStore>,
    protected: &Protected,
) -> Result<bool, Memory> {
    let requests = requests(alloc, &OUTSIDE)?;
    let leased = footprint(alloc, &requests, None)?;
    Ok(View::of(alloc, store, protected, &leased).is_err())
}

fn look_at(
    rt: &impl Abort,
    alloc: Global,
    store: &OneTree<ListStore>,
    protected: &Protected,
) -> Result<(), Memory> {
    run(rt, alloc, store, protected, &IN_TREE)?;
    let hidden = is_hidden(alloc, store, protected)?;
    assert!(rt;
        hidden && has_no_listing(alloc, store),
        "what is outside of the tree"
    );
    Ok(())
}

/// The view can be made, whatever else is in the store.
#[test]
fn a_view_asks_for_leased_trees_alone(rt: HostRuntime) -> Result<(), Memory> {
    let root = path_of(rt.alloc(), b"d")?;
    let Scene {
        store,
        protected,
        ..
    } = Scene::new(&rt, rt.alloc(), 64, &BEFORE)?;
    let store = OneTree { inner: store, root };
    look_at(&rt, rt.alloc(), &store, &protected)
}
