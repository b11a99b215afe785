//! How the footprint of a list is gathered.

ghost use Rattle.std.specs.Prelude.{◌≡◌, ◌≤◌, ◌+◌, ◌++◌, ◌∷◌, [], IsTrue, OnOk, IfOk, IfErr};
ghost use Rattle.std.specs.Prelude.{flat_map, insert, length, take};
ghost use Rattle.std.specs.FinSet as set;
ghost use Rattle.std.specs.List.{list_any};
ghost use Rattle.std.specs.List.Sorted.{IsStrictlySortedBy};
ghost use Rattle.std.specs.Option.{option_copied};
ghost use Rattle.cfdp_paths.specs.Paths.{ancestors, parent, path_cmp, same_path};
ghost use Rattle.cfdp_actions.specs.Actions.{Perform};
ghost use Rattle.cfdp_leases.specs.Footprint.{exclusive_in, footprint_of, read_in, shared_in};
ghost use Rattle.cfdp_leases.specs.code.Footprint.{NoneIsRoot, HaveAncestors, SameSet};
ghost use Rattle.cfdp_leases.specs.Items.{install_of, items_of};

use crate::footprints::Footprint;
use cfdp_actions::Request;
use cfdp_paths::{Memory, Path};
use std::alloc::Global;

/// The footprint of a list of filestore requests, and of the destination of the file that is installed before them.
///
/// # Errors
///
/// [`Memory`] where there was none. Cost: for each named path a binary search among those gathered so far, and one
/// comparison with the path at the index of the parent before. Where that is not its parent, a binary search for the
/// parent. Where the parent is new, one more search for each ancestor above it, from the deepest up to the first that
/// is there. A path is copied once, however often it comes; those after it are shifted then.
pub fn footprint(
    alloc: Global,
    requests: &[Request],
    destination: Option<&Path>,
) -> Result<Footprint, Memory>
    ensures { IfOk result (λ fp. fp ≡ footprint_of (items_of (option_copied destination.entry) requests.now)) }
{
    let mut exclusive = Vec::new(alloc);
    let mut shared = Vec::new(alloc);
    add_install(alloc, &mut exclusive, &mut shared, destination)?;
    // The index of the last parent: most paths have the same parent as the path before.
    let mut parent = 0;
    for request in requests {
        add_changed(alloc, &mut exclusive, request)?;
        parent = add_above(alloc, &mut shared, request, parent)?;
        add_read(alloc, &mut shared, request)?;
    }
    Ok(Footprint { exclusive, shared })
}

/// Adds the paths of the install, where there is one.
fn add_install(
    alloc: Global,
    exclusive: &mut Vec<Path>,
    shared: &mut Vec<Path>,
    destination: Option<&Path>,
) -> Result<(), Memory>
    requires exclusive_ordered { IsStrictlySortedBy path_cmp exclusive.old.items }
    requires shared_ordered { IsStrictlySortedBy path_cmp shared.old.items }
    requires above { HaveAncestors shared.old.items }
    ensures exclusive_ordered { OnOk result (IsStrictlySortedBy path_cmp exclusive.new.items) }
    ensures shared_ordered { OnOk result (IsStrictlySortedBy path_cmp shared.new.items) }
    ensures named { NoneIsRoot exclusive.old.items → OnOk result (NoneIsRoot exclusive.new.items) }
    ensures exclusive { OnOk result (SameSet exclusive.new.items (exclusive.old.items
        ++ flat_map exclusive_in (install_of (option_copied destination.entry)))) }
    ensures shared { OnOk result (SameSet shared.new.items (shared.old.items
        ++ flat_map shared_in (install_of (option_copied destination.entry)))) }
{
    match destination {
        None => Ok(()),
        Some(path) => {
            add(alloc, exclusive, path)?;
            add_ancestors(alloc, shared, path, 0)?;
            Ok(())
        }
    }
}

/// Adds the paths that a request changes.
fn add_changed(alloc: Global, paths: &mut Vec<Path>, request: &Request) -> Result<(), Memory>
    requires { IsStrictlySortedBy path_cmp paths.old.items }
    ensures ordered { OnOk result (IsStrictlySortedBy path_cmp paths.new.items) }
    ensures added { OnOk result (SameSet paths.new.items (paths.old.items ++ exclusive_in (Perform request.now))) }
    ensures named { NoneIsRoot paths.old.items → OnOk result (NoneIsRoot paths.new.items) }
{
    match request {
        Request::RenameFile(from, to) => {
            add(alloc, paths, from)?;
            add(alloc, paths, to)
        }
        Request::CreateFile(path)
        | Request::DeleteFile(path)
        | Request::AppendFile(path, _)
        | Request::ReplaceFile(path, _)
        | Request::CreateDirectory(path)
        | Request::RemoveDirectory(path)
        | Request::DenyFile(path)
        | Request::DenyDirectory(path) => add(alloc, paths, path),
    }
}

/// Adds the path that a request only reads, if any.
fn add_read(alloc: Global, paths: &mut Vec<Path>, request: &Request) -> Result<(), Memory>
    requires { IsStrictlySortedBy path_cmp paths.old.items }
    ensures ordered { OnOk result (IsStrictlySortedBy path_cmp paths.new.items) }
    ensures added { OnOk result (SameSet paths.new.items (paths.old.items ++ read_in (Perform request.now))) }
{
    match request {
        Request::AppendFile(_, second) | Request::ReplaceFile(_, second) => {
            add(alloc, paths, second)
        }
        Request::CreateFile(_)
        | Request::DeleteFile(_)
        | Request::RenameFile(_, _)
        | Request::CreateDirectory(_)
        | Request::RemoveDirectory(_)
        | Request::DenyFile(_)
        | Request::DenyDirectory(_) => Ok(()),
    }
}

/// Adds the proper ancestors of the paths that a request names. Looks for a parent at the index `guess` first, and
/// returns the index at which the last one was.
fn add_above(
    alloc: Global,
    paths: &mut Vec<Path>,
    request: &Request,
    guess: usize,
) -> Result<usize, Memory>
    requires ordered { IsStrictlySortedBy path_cmp paths.old.items }
    requires above { HaveAncestors paths.old.items }
    ensures ordered { OnOk result (IsStrictlySortedBy path_cmp paths.new.items) }
    ensures added { OnOk result (SameSet paths.new.items (paths.old.items
        ++ flat_map ancestors (exclusive_in (Perform request.now) ++ read_in (Perform request.now)))) }
{
    let parent = add_ancestors(alloc, paths, request.first(), guess)?;
    match request.second() {
        Some(second) => add_ancestors(alloc, paths, second, parent),
        None => Ok(parent),
    }
}

/// Adds the proper ancestors of a path. `paths` has the ancestors of each of its paths already. The search for the
/// parent begins at index `guess`; returned is the parent's index, or `guess` if the path has none. Cost: that of
/// `find_parent`, and if the parent is not there that of `insert_ancestors`. No ancestor is searched for twice.
fn add_ancestors(
    alloc: Global,
    paths: &mut Vec<Path>,
    path: &Path,
    guess: usize,
) -> Result<usize, Memory>
    requires ordered { IsStrictlySortedBy path_cmp paths.old.items }
    requires above { HaveAncestors paths.old.items }
    ensures ordered { OnOk result (IsStrictlySortedBy path_cmp paths.new.items) }
    ensures added { OnOk result (SameSet paths.new.items (paths.old.items ++ ancestors path.now)) }
    ensures above { OnOk result (HaveAncestors paths.new.items) }
{
    let depth = path.depth();
    if depth == 1 {
        return Ok(guess);
    }
    match find_parent(paths, path, guess) {
        Ok(index) => Ok(index),
        Err(index) => insert_ancestors(alloc, paths, path, index),
    }
}

/// Inserts a path's parent at its index, and then the ancestors above it that are not there, from the deepest up to the
/// first that is: all above that one are there too. Returns the index of the parent. Cost: a binary search for each
/// ancestor above the parent that is not there, and one for the first that is; those after a new path are shifted.
fn insert_ancestors(
    alloc: Global,
    paths: &mut Vec<Path>,
    path: &Path,
    index: usize,
) -> Result<usize, Memory>
    requires above { HaveAncestors paths.old.items }
    requires deep { 2 ≤ length path.now }
    requires index { index ≤ length paths.old.items }
    requires gap { IsStrictlySortedBy path_cmp (insert paths.old.items index (parent path.now)) }
    ensures ordered { OnOk result (IsStrictlySortedBy path_cmp paths.new.items) }
    ensures added { OnOk result (SameSet paths.new.items (paths.old.items ++ ancestors path.now)) }
{
    let depth = path.depth();
    insert_beginning(alloc, paths, path, depth - 1, index)?;
    let mut parent = index;
    for count in (1..depth - 1).rev() {
        match find_beginning(paths, path, count) {
            Ok(_) => return Ok(parent),
            Err(before) => {
                insert_beginning(alloc, paths, path, count, before)?;
                // The parent is after it, so its index is one more now.
                parent += 1;
            }
        }
    }
    Ok(parent)
}

/// `Ok`: the index of the path's parent, and then all its proper ancestors are there. `Err`: the index at which the
/// parent would have to be inserted. Cost: one comparison, and a binary search where the parent is not at the index
/// `guess`.
#[tactic(auto, using(crate::proofs::Closed::parent_there))]
fn find_parent(paths: &[Path], path: &Path, guess: usize) -> Result<usize, usize>
    requires ordered { IsStrictlySortedBy path_cmp paths.now }
    ensures found { IfOk result (λ _. IsTrue (list_any (same_path (parent path.now)) paths.now)) }
    ensures index { IfErr result (λ index. index ≤ length paths.now) }
    ensures gap { IfErr result (λ index. IsStrictlySortedBy path_cmp (insert paths.now index (parent path.now))) }
{
    let depth = path.depth();
    match paths.get(guess) {
        Some(held) if path.is_child_of(held) => Ok(guess),
        _ => find_beginning(paths, path, depth - 1),
    }
}

/// Adds a path where it keeps the order. No path is made where it is there.
fn add(alloc: Global, paths: &mut Vec<Path>, path: &Path) -> Result<(), Memory>
    requires { IsStrictlySortedBy path_cmp paths.old.items }
    ensures ordered { OnOk result (IsStrictlySortedBy path_cmp paths.new.items) }
    ensures added { OnOk result (SameSet paths.new.items (paths.old.items ++ path.now ∷ [])) }
    ensures named { NoneIsRoot paths.old.items → OnOk result (NoneIsRoot paths.new.items) }
{
    match find_beginning(paths, path, path.depth()) {
        Ok(_) => Ok(()),
        Err(index) => insert_beginning(alloc, paths, path, path.depth(), index),
    }
}

/// Inserts the path of the first `depth` names of a path at an index where it keeps the order, and shifts those from
/// there on.
fn insert_beginning(
    alloc: Global,
    paths: &mut Vec<Path>,
    path: &Path,
    depth: usize,
    index: usize,
) -> Result<(), Memory>
    requires some { 1 ≤ depth }
    requires within { depth ≤ length path.now }
    requires index { index ≤ length paths.old.items }
    requires gap { IsStrictlySortedBy path_cmp (insert paths.old.items index (take depth path.now)) }
    ensures ordered { OnOk result (IsStrictlySortedBy path_cmp paths.new.items) }
    ensures added { OnOk result (SameSet paths.new.items (paths.old.items ++ take depth path.now ∷ [])) }
    ensures named { NoneIsRoot paths.old.items → OnOk result (NoneIsRoot paths.new.items) }
    ensures one_more { OnOk result (length paths.new.items ≡ length paths.old.items + 1) }
{
    let beginning = path.beginning(alloc, depth)?;
    paths.insert(index, beginning)?;
    Ok(())
}

/// `Ok`: the index of the path of the first `depth` names. `Err`: the index at which it would have to be inserted.
fn find_beginning(paths: &[Path], path: &Path, depth: usize) -> Result<usize, usize>
    requires ordered { IsStrictlySortedBy path_cmp paths.now }
    requires within { depth ≤ length path.now }
    ensures found { IfOk result (λ _. IsTrue (list_any (same_path (take depth path.now)) paths.now)) }
    ensures index { IfErr result (λ index. index ≤ length paths.now) }
    ensures gap { IfErr result (λ index. IsStrictlySortedBy path_cmp (insert paths.now index (take depth path.now))) }
{
    let beginning = path.first_names(depth);
    paths.binary_search_by(|held| held.cmp_names(&beginning))
}
