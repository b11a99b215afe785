//! Where the paths that a list of items names were before it.

ghost use Rattle.std.specs.Prelude.{◌≡◌, ◌≤◌, ◌∷◌, ◌++◌, ◌||◌, [], false, length, min, take, IfOk, OnOk, map, not, true};
ghost use Rattle.std.specs.List.{list_all, list_any};
ghost use Rattle.std.specs.Option.{option_copied};
ghost use Rattle.cfdp_actions.specs.Actions.{Perform};
ghost use Rattle.cfdp_actions.specs.Filestore.{is_root};
ghost use Rattle.cfdp_leases.specs.Items.{items_of};
ghost use Rattle.cfdp_paths.specs.Paths.{is_at_or_below};
ghost use Rattle.cfdp_leases.specs.Footprint.{named_in};
ghost use Rattle.cfdp_states.specs.code.Sparse.{AreSame, HoldsLeased, SeesBy, back_over, moved_back, origin, paths_in};

use cfdp_actions::Request;
use cfdp_leases::Footprint;
use cfdp_paths::{MOST_NAMES, Memory, Path, PathMap};
use std::alloc::Global;

/// The paths of the footprint, and those that the items name, where they were before the first item: each once, in path
/// order. Cost: a copy of each, one search for each, and for each named path a comparison with each rename before it.
pub fn shown(
    alloc: Global,
    footprint: &Footprint,
    destination: Option<&Path>,
    requests: &[Request],
) -> Result<PathMap<()>, Memory>
    ensures leased { IfOk result (λ paths. HoldsLeased (paths_in paths) footprint.now) }
    ensures sees { IfOk result (λ paths. SeesBy (paths_in paths)
        (items_of (option_copied destination.entry) requests.now)) }
{
    let exclusive = footprint.exclusive();
    let shared = footprint.shared();
    let named = before_items(alloc, destination, requests)?;
    let mut paths = PathMap::new(alloc);
    // The longest list first. It is in path order, so that each of its paths goes to the end.
    add_all(alloc, &mut paths, shared)?;
    add_all(alloc, &mut paths, exclusive)?;
    add_all(alloc, &mut paths, &named)?;
    Ok(paths)
}

/// Where the paths that the items name were before the first one.
fn before_items(
    alloc: Global,
    destination: Option<&Path>,
    requests: &[Request],
) -> Result<Vec<Path>, Memory>
    ensures { IfOk result (λ paths. SeesBy paths.items (items_of (option_copied destination.entry) requests.now)) }
{
    let mut paths = before_all(alloc, requests)?;
    match destination {
        None => Ok(paths),
        Some(path) => {
            add_path(alloc, &mut paths, path)?;
            Ok(paths)
        }
    }
}

/// Where the paths that the requests name were before the first one.
fn before_all(alloc: Global, requests: &[Request]) -> Result<Vec<Path>, Memory>
    ensures { IfOk result (λ paths. SeesBy paths.items (map Perform requests.now)) }
{
    let mut paths = Vec::new(alloc);
    for number in (0..requests.len()).rev() {
        let request = &requests[number];
        paths = back_over(alloc, paths, request)?;
        add_named(alloc, &mut paths, request)?;
    }
    Ok(paths)
}

/// Where the paths were before the request.
fn back_over(alloc: Global, paths: Vec<Path>, request: &Request) -> Result<Vec<Path>, Memory>
    ensures { IfOk result (λ before. before.items ≡ back_over request.now paths.items) }
{
    match request {
        Request::RenameFile(from, to) => moved_back(alloc, paths, from, to),
        Request::CreateFile(_)
        | Request::DeleteFile(_)
        | Request::AppendFile(_, _)
        | Request::ReplaceFile(_, _)
        | Request::CreateDirectory(_)
        | Request::RemoveDirectory(_)
        | Request::DenyFile(_)
        | Request::DenyDirectory(_) => Ok(paths),
    }
}

/// Adds the paths that the request names.
fn add_named(alloc: Global, paths: &mut Vec<Path>, request: &Request) -> Result<(), Memory>
    ensures added { OnOk result (AreSame paths.new.items (paths.old.items ++ named_in (Perform request.now))) }
    ensures named { OnOk result (list_all (λ p. not (is_root p)) (named_in (Perform request.now)) ≡ true) }
{
    add_path(alloc, paths, request.first())?;
    match request.second() {
        None => Ok(()),
        Some(second) => {
            add_path(alloc, paths, second)?;
            Ok(())
        }
    }
}

/// Adds a copy of the path, which is not the root, if it is not among the paths.
#[tactic(auto, using(crate::proofs::SparseLists::path_named))]
fn add_path(alloc: Global, paths: &mut Vec<Path>, path: &Path) -> Result<(), Memory>
    ensures added { OnOk result (AreSame paths.new.items (paths.old.items ++ path.now ∷ [])) }
    ensures named { OnOk result (is_root path.now ≡ false) }
{
    // Its contract says that it has a name.
    let _ = path.depth();
    if !paths.contains(path) {
        paths.push(path.copy(alloc)?)?;
    }
    Ok(())
}

/// Where the paths were before the first path was renamed to the second. What is at or below the first was not there.
/// Takes memory only where one of them is at or below either path.
fn moved_back(alloc: Global, paths: Vec<Path>, from: &Path, to: &Path) -> Result<Vec<Path>, Memory>
    ensures { IfOk result (λ moved. moved.items ≡ moved_back from.now to.now paths.items) }
{
    if !any_moves(&paths, from, to) {
        return Ok(paths);
    }
    let mut moved = Vec::new(alloc);
    for path in paths {
        if let Some(origin) = origin(alloc, path, from, to)? {
            moved.push(origin)?;
        }
    }
    Ok(moved)
}

/// Whether a rename of the first path to the second says where one of the paths was.
fn any_moves(paths: &[Path], from: &Path, to: &Path) -> bool
    ensures { result ≡ list_any (λ path. is_at_or_below path to.now || is_at_or_below path from.now) paths.now }
{
    paths.iter().any(|path| path.is_at_or_below(to) || path.is_at_or_below(from))
}

/// Where the path was before the first path was renamed to the second, if anything can be there: its first 8 names.
fn origin(alloc: Global, path: Path, from: &Path, to: &Path) -> Result<Option<Path>, Memory>
    ensures { IfOk result (λ before. before ≡ origin from.now to.now path) }
{
    if path.is_at_or_below(to) {
        let most = MOST_NAMES + to.depth() - from.depth();
        let front = first_names(alloc, path, most)?;
        return Ok(Some(front.rebased(alloc, to, from)?));
    }
    if path.is_at_or_below(from) {
        Ok(None)
    } else {
        Ok(Some(path))
    }
}

/// The path of the first names of the path, at most `most` of them. It is copied only if it has more.
fn first_names(alloc: Global, path: Path, most: usize) -> Result<Path, Memory>
    requires { 1 ≤ most }
    ensures { IfOk result (λ front. front ≡ take (min (length path) most) path) }
{
    if path.depth() <= most {
        return Ok(path);
    }
    path.beginning(alloc, most)
}

/// Adds copies of those of the paths that are not there.
fn add_all(alloc: Global, paths: &mut PathMap<()>, others: &[Path]) -> Result<(), Memory>
    ensures { OnOk result (AreSame (paths_in paths.new) (paths_in paths.old ++ others.now)) }
{
    for path in others {
        paths.put(alloc, path, ())?;
    }
    Ok(())
}
