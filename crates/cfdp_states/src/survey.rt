//! What is in a store at some paths, without octets.

ghost use Rattle.std.specs.Prelude.{◌≡◌, ◌≤◌, ◌<◌, IsTrue, IfOk, OnOk, length, take, slice_index_or};
ghost use Rattle.std.specs.List.{list_any};
ghost use Rattle.cfdp_paths.specs.Paths.{Path, same_path, is_at_or_below};
ghost use Rattle.cfdp_actions.specs.Filestore.{blocks};
ghost use Rattle.cfdp_leases.specs.Footprint.{is_covered};
ghost use Rattle.cfdp_states.specs.Sketching.{extent_at};
ghost use Rattle.cfdp_states.specs.code.Sketching.{AddsWhere, IsSurvey, added, extent_of_existing};

use crate::extent::Extent;
use crate::extents::Extents;
use cfdp_actions::{ExistingNode, Filestore, Kind};
use cfdp_leases::Footprint;
use cfdp_paths::{Memory, Path};
use std::alloc::Global;

/// What is at each path that the footprint covers.
pub fn survey<S: Filestore>(
    alloc: Global,
    store: &S,
    footprint: &Footprint,
) -> Result<Extents, Memory>
    ensures extents { IfOk result (λ extents.
        IsSurvey extents (is_covered footprint.now) (S.state store.now).filestore) }
    ensures small { blocks (S.state store.now).filestore ≤ 65536 }
{
    // Its contract says that few blocks are in use, so that no size passes what an extent can say.
    let _ = store.takes_no_memory();
    let exclusive = footprint.exclusive();
    let shared = footprint.shared();
    let mut extents = Extents::sorted(alloc);
    // Shared paths and leased trees in turn, all in path order, so that each new entry is the last one.
    let mut next = 0;
    let mut last = 0;
    for (index, root) in exclusive.iter().enumerate() {
        let rest = &shared[next..];
        let before = rest.partition_point(|path| *path < *root);
        add_paths(&mut extents, store, &rest[..before])?;
        next += before;
        if is_inside(exclusive, last, index) {
            continue;
        }
        add_tree(alloc, &mut extents, store, root)?;
        last = index;
    }
    add_paths(&mut extents, store, &shared[next..])?;
    Ok(extents)
}

/// Whether the root at the index is at or below the one at an earlier index.
fn is_inside(roots: &[Path], earlier: usize, index: usize) -> bool
    requires order { earlier ≤ index }
    requires within { index < length roots.now }
    ensures { IsTrue result → (root : Path) → root ≡ slice_index_or roots.now index root
        → IsTrue (list_any (λ above. is_at_or_below root above) (take index roots.now)) }
{
    earlier < index && roots[index].is_at_or_below(&roots[earlier])
}

/// Adds what is at the path and below it.
fn add_tree<S: Filestore>(
    alloc: Global,
    extents: &mut Extents,
    store: &S,
    root: &Path,
) -> Result<(), Memory>
    requires { blocks (S.state store.now).filestore ≤ 65536 }
    ensures { OnOk result (AddsWhere (λ path. is_at_or_below path root.now)
        (S.state store.now).filestore extents.old extents.new) }
{
    let found = store.existing(alloc, root)?;
    add_all(extents, found)?;
    Ok(())
}

/// Adds all that was found.
fn add_all(extents: &mut Extents, found: Vec<ExistingNode>) -> Result<(), Memory>
    ensures { OnOk result (extents.new ≡ added found.items extents.old) }
{
    for existing in found {
        let extent = extent_of_existing(&existing);
        let ExistingNode { path, .. } = existing;
        extents.insert(path, extent)?;
    }
    Ok(())
}

/// Adds what is at the paths.
fn add_paths<S: Filestore>(extents: &mut Extents, store: &S, paths: &[Path]) -> Result<(), Memory>
    requires { blocks (S.state store.now).filestore ≤ 65536 }
    ensures { OnOk result (AddsWhere (λ path. list_any (same_path path) paths.now)
        (S.state store.now).filestore extents.old extents.new) }
{
    for path in paths {
        add_extent(extents, store, path)?;
    }
    Ok(())
}

/// Adds what is at the path.
pub fn add_extent<S: Filestore>(extents: &mut Extents, store: &S, path: &Path) -> Result<(), Memory>
    requires { blocks (S.state store.now).filestore ≤ 65536 }
    ensures { OnOk result (AddsWhere (λ other. same_path other path.now)
        (S.state store.now).filestore extents.old extents.new) }
{
    match extent_at(store, path) {
        None => Ok(()),
        Some(extent) => extents.put(path, extent),
    }
}

/// What is at the path, if anything is.
fn extent_at<S: Filestore>(store: &S, path: &Path) -> Option<Extent>
    requires { blocks (S.state store.now).filestore ≤ 65536 }
    ensures { result ≡ extent_at (S.state store.now).filestore path.now }
{
    match store.kind(path) {
        None => None,
        Some(Kind::Directory) => Some(Extent::Directory),
        Some(Kind::File) => Some(Extent::File(store.size(path))),
    }
}

/// What the store says that is there.
fn extent_of_existing(existing: &ExistingNode) -> Extent
    ensures { result ≡ extent_of_existing existing.now }
{
    match existing.kind {
        Kind::Directory => Extent::Directory,
        Kind::File => Extent::File(existing.size),
    }
}
