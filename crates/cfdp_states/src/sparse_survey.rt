//! What a list of items sees of a store, without octets.

ghost use Rattle.std.specs.Prelude.{◌≡◌, ◌+◌, ◌<◌, ◌≤◌, ◌||◌, Bool, drop, if◌then◌else◌, is_some, IsFalse, IsTrue, [], Ok, IfOk, IfSome, OnOk, length, take, true};
ghost use Rattle.std.specs.FinMap as finite;
ghost use Rattle.std.specs.List.{list_any};
ghost use Rattle.cfdp_paths.specs.Paths.{Path, is_at_or_below, is_below, same_path};
ghost use Rattle.cfdp_actions.specs.Filestore.{Filestore, blocks, deepest_beside, has_beside, node_at};
ghost use Rattle.cfdp_leases.specs.Footprint.{is_exclusive};
ghost use Rattle.cfdp_states.specs.Alone.{alone};
ghost use Rattle.cfdp_states.specs.Views.{only};
ghost use Rattle.cfdp_states.specs.code.Sketching.{AddsWhere};
ghost use Rattle.cfdp_states.specs.code.Sparse.{AreSame, FillsAt, HoldsLeased, IsFiller, IsSparseSurvey, IsUnseenBelow, PassAbove, children, is_moved, is_shown, moves_at, paths_in, shows};

use crate::extent::Extent;
use crate::extents::Extents;
use crate::survey::add_extent;
use cfdp_actions::{Filestore, Request};
use cfdp_leases::{Footprint, Lease, covers};
use cfdp_paths::{MOST_NAMES, Memory, Names, Path, PathMap};
use std::alloc::{AllocError, Global};

/// What is at the paths and above them, as far as the footprint covers it. In a directory that is leased exclusively,
/// one made-up directory takes the role of all entries that lead to none of the paths. If the requests move the leased
/// directory, the made-up one is as deep as the deepest of what it represents. `None` if no such directory can be made.
///
/// Cost:
///
/// - each path at or above one of the paths, once and in path order: a `kind`, a `has_entries`, and a `size` if that is
///   a file;
/// - each of them that is leased exclusively and has entries: some searches among the paths, a look at those below it,
///   a `has_beside`, and a `deepest_beside` if a request moves it;
/// - each rename, if there are at least two, and at least 128 paths, up to the first that renames a path with some of
///   the paths below it: two searches among the paths.
pub fn survey_sparse<S: Filestore>(
    alloc: Global,
    store: &S,
    footprint: &Footprint,
    paths: &PathMap<()>,
    requests: &[Request],
) -> Result<Option<Extents>, Memory>
    requires { HoldsLeased (paths_in paths.now) footprint.now }
    ensures extents { IfOk result (λ found. IfSome found (λ extents.
        IsSparseSurvey (is_moved requests.now) (shows (paths_in paths.now)) extents
        (λ p. is_shown (paths_in paths.now) p)
        (alone (only footprint.now (S.state store.now).filestore) []))) }
    ensures small { blocks (S.state store.now).filestore ≤ 65536 }
{
    // Its contract says that few blocks are in use, so that an extent can say each size.
    let _ = store.takes_no_memory();
    let mut extents = empty_form(alloc, paths, requests);
    let entries = paths.entries();
    for (index, entry) in entries.iter().enumerate() {
        let path = &entry.0;
        let known = known_depth(&entries[..index], path);
        if !add_beginnings(
            alloc,
            &mut extents,
            store,
            footprint,
            paths,
            requests,
            path,
            known,
        )? {
            return Ok(None);
        }
    }
    Ok(Some(extents))
}

/// The fewest paths for which a tree of names pays. With fewer, a rename moves so few that its look-ups cost more.
const FEWEST_IN_TREE: usize = 128;

/// Nothing, in the form that suits the requests: by names if there are many paths, at least two of the requests are
/// renames, and one of these may move paths that the list sees; else in path order. Cost: if there are many paths, that
/// of `moves_seen` for each rename.
fn empty_form(alloc: Global, paths: &PathMap<()>, requests: &[Request]) -> Extents
    ensures { result ≡ finite.empty }
{
    let is_long = paths.entries().len() >= FEWEST_IN_TREE;
    let renames = requests
        .iter()
        .filter(|request| renamed_path(request).is_some());
    if is_long && renames.count() > 1 && requests.iter().any(|request| moves_seen(paths, request)) {
        Extents::branched(alloc)
    } else {
        Extents::sorted(alloc)
    }
}

/// Whether one of the paths is below the path that a request renames. Cost: two searches, and none where the renamed
/// path has 8 names.
fn moves_seen(paths: &PathMap<()>, request: &Request) -> bool {
    match renamed_path(request) {
        None => false,
        Some(from) => from.depth() < MOST_NAMES && paths.has_below(from),
    }
}

/// The path that a request renames, if it is a rename.
fn renamed_path(request: &Request) -> Option<&Path> {
    match request {
        Request::RenameFile(from, _) => Some(from),
        Request::CreateFile(_)
        | Request::DeleteFile(_)
        | Request::AppendFile(_, _)
        | Request::ReplaceFile(_, _)
        | Request::CreateDirectory(_)
        | Request::RemoveDirectory(_)
        | Request::DenyFile(_)
        | Request::DenyDirectory(_) => None,
    }
}

/// How many first names of a path are the first names of the last of the paths before it, too.
fn known_depth(before: &[(Path, ())], path: &Path) -> usize
    ensures known { PassAbove (λ x. is_shown (paths_in before.now) x) (take result path.now) }
    ensures within { result ≤ length path.now }
{
    match before.last() {
        None => 0,
        Some(last) => common_depth(&last.0, path),
    }
}

/// How many first names two paths share.
fn common_depth(other: &Path, path: &Path) -> usize
    ensures shared { take result other.now ≡ take result path.now }
    ensures within { result ≤ length path.now }
{
    let mut theirs = other.names();
    let mut ours = path.names();
    for depth in 0..path.depth() {
        if !next_is_shared(&mut ours, &mut theirs) {
            return depth;
        }
    }
    path.depth()
}

/// Takes the next name of both, and returns whether it is the same one.
fn next_is_shared(ours: &mut Names<'_>, theirs: &mut Names<'_>) -> bool
    ensures shared { IsTrue result → take 1 theirs.old ≡ take 1 ours.old }
    ensures ours { IsTrue result → ours.new ≡ drop 1 ours.old }
    ensures theirs { IsTrue result → theirs.new ≡ drop 1 theirs.old }
{
    match (ours.next(), theirs.next()) {
        (Some(our), Some(their)) => our == their,
        _ => false,
    }
}

/// Adds what is at a path and above it; `false` where that cannot be said. The path of its first `known` names, and all
/// above that, are in already.
fn add_beginnings<S: Filestore>(
    alloc: Global,
    extents: &mut Extents,
    store: &S,
    footprint: &Footprint,
    paths: &PathMap<()>,
    requests: &[Request],
    path: &Path,
    known: usize,
) -> Result<bool, Memory>
    requires leased { HoldsLeased (paths_in paths.now) footprint.now }
    requires small { blocks (S.state store.now).filestore ≤ 65536 }
    requires shown { IsTrue (is_shown (paths_in paths.now) path.now) }
    requires known { known ≤ length path.now }
    ensures { result ≡ Ok true → (done : Path → Bool) → PassAbove done (take known path.now) →
        let F = alone (only footprint.now (S.state store.now).filestore) [] in
        IsSparseSurvey (is_moved requests.now) (shows (paths_in paths.now)) extents.old done F
        → IsSparseSurvey (is_moved requests.now) (shows (paths_in paths.now)) extents.new
        (λ p. done p || is_at_or_below path.now p) F }
{
    let end = path.depth() + 1;
    for depth in known + 1..end {
        let beginning = path.beginning(alloc, depth)?;
        if !add_path(
            alloc, extents, store, footprint, paths, requests, &beginning,
        )? {
            return Ok(false);
        }
    }
    Ok(true)
}

/// Adds what is at a path; `false` where that cannot be said.
fn add_path<S: Filestore>(
    alloc: Global,
    extents: &mut Extents,
    store: &S,
    footprint: &Footprint,
    paths: &PathMap<()>,
    requests: &[Request],
    path: &Path,
) -> Result<bool, Memory>
    requires leased { HoldsLeased (paths_in paths.now) footprint.now }
    requires small { blocks (S.state store.now).filestore ≤ 65536 }
    requires shown { IsTrue (is_shown (paths_in paths.now) path.now) }
    ensures { result ≡ Ok true → (done : Path → Bool) →
        let F = alone (only footprint.now (S.state store.now).filestore) [] in
        IsSparseSurvey (is_moved requests.now) (shows (paths_in paths.now)) extents.old done F
        → IsSparseSurvey (is_moved requests.now) (shows (paths_in paths.now)) extents.new
        (λ p. done p || same_path p path.now) F }
{
    let depth = path.depth();
    let is_full = store.has_entries(path);
    if is_full && depth == MOST_NAMES {
        return Ok(false);
    }
    let is_exclusive = add_node(extents, store, footprint, path)?;
    if !is_full || !is_exclusive {
        return Ok(true);
    }
    add_filler(alloc, extents, store, paths, requests, path)
}

/// Adds what is at a path, if the footprint covers it, and returns whether it does so exclusively.
fn add_node<S: Filestore>(
    extents: &mut Extents,
    store: &S,
    footprint: &Footprint,
    path: &Path,
) -> Result<bool, Memory>
    requires { blocks (S.state store.now).filestore ≤ 65536 }
    ensures added { OnOk result (AddsWhere (λ p. same_path p path.now)
        (alone (only footprint.now (S.state store.now).filestore) []) extents.old extents.new) }
    ensures exclusive { IfOk result (λ exclusive. exclusive ≡ is_exclusive footprint.now path.now) }
{
    match covers(footprint, path) {
        None => Ok(false),
        Some(Lease::Exclusive) => {
            add_extent(extents, store, path)?;
            Ok(true)
        }
        Some(Lease::Shared) => {
            add_extent(extents, store, path)?;
            Ok(false)
        }
    }
}

/// Adds the made-up directory below a path, if an entry there leads to none of the paths; `false` where no name is left
/// for it.
fn add_filler<S: Filestore>(
    alloc: Global,
    extents: &mut Extents,
    store: &S,
    paths: &PathMap<()>,
    requests: &[Request],
    path: &Path,
) -> Result<bool, Memory>
    requires { length path.now < 8 }
    ensures { result ≡ Ok true → (F : Filestore)
        → ((x : Path) → IsTrue (is_at_or_below x path.now)
        → node_at F x ≡ node_at (S.state store.now).filestore x)
        → FillsAt (shows (paths_in paths.now)) (is_moved requests.now) F path.now extents.old extents.new }
{
    let Some(depth) = hidden_depth(alloc, store, paths, requests, path)? else {
        return Ok(true);
    };
    let Some(filler) = filler(alloc, paths, path, depth)? else {
        return Ok(false);
    };
    extents.insert(filler, Extent::Directory)?;
    Ok(true)
}

/// How many names the path of the made-up directory below a path has. If a request moves the path: as many as the
/// longest path at or below an entry that leads to none of the paths; else one more than the path. `None` where each
/// entry leads to one of the paths.
fn hidden_depth<S: Filestore>(
    alloc: Global,
    store: &S,
    paths: &PathMap<()>,
    requests: &[Request],
    path: &Path,
) -> Result<Option<usize>, Memory>
    requires { length path.now < 8 }
    ensures there { IfOk result (λ found. is_some found
        ≡ has_beside (S.state store.now).filestore path.now (children path.now (paths_in paths.now))) }
    ensures deep { IfOk result (λ found. IfSome found (λ depth. depth ≡ (if is_moved requests.now path.now
        then deepest_beside (S.state store.now).filestore path.now (children path.now (paths_in paths.now))
        else length path.now + 1))) }
    ensures within { IfOk result (λ found. IfSome found (λ depth. depth ≤ 8)) }
{
    let others = children(alloc, paths, path)?;
    Ok(depth_beside(store, &others, requests, path))
}

/// Like `hidden_depth`, given `others`: the children of the path that lead to the paths.
fn depth_beside<S: Filestore>(
    store: &S,
    others: &[Path],
    requests: &[Request],
    path: &Path,
) -> Option<usize>
    requires { length path.now < 8 }
    ensures there { is_some result ≡ has_beside (S.state store.now).filestore path.now others.now }
    ensures deep { IfSome result (λ depth. depth ≡ (if is_moved requests.now path.now
        then deepest_beside (S.state store.now).filestore path.now others.now else length path.now + 1)) }
    ensures within { IfSome result (λ depth. depth ≤ 8) }
{
    if !store.has_beside(path, others) {
        return None;
    }
    if is_moved(requests, path) {
        Some(usize::from(store.deepest_beside(path, others)))
    } else {
        Some(path.depth() + 1)
    }
}

/// The children of a path that are at or above one of the paths, in path order. Cost: two searches, a look at each of
/// the paths below it, and a copy of each child.
fn children(alloc: Global, paths: &PathMap<()>, path: &Path) -> Result<Vec<Path>, Memory>
    ensures { IfOk result (λ found. AreSame found.items (children path.now (paths_in paths.now))) }
{
    children_in(alloc, paths.tree(path), path)
}

/// The children of a path that are at or above the path of one of the entries, in the order of these: each once, if
/// they are in path order.
fn children_in(alloc: Global, entries: &[(Path, ())], path: &Path) -> Result<Vec<Path>, Memory>
    ensures { IfOk result (λ found. AreSame found.items (children path.now (paths_in entries.now))) }
{
    let depth = path.depth() + 1;
    let mut found = Vec::new(alloc);
    for entry in entries {
        let other = &entry.0;
        if leads_anew(&found, other, path) {
            found.push(other.beginning(alloc, depth)?)?;
        }
    }
    Ok(found)
}

/// Whether another path is below the path, and not at or below the last child that was found.
fn leads_anew(found: &[Path], other: &Path, path: &Path) -> bool
    ensures below { IsTrue result → IsTrue (is_below other.now path.now) }
    ensures known { IsFalse result → IsTrue (is_below other.now path.now)
        → IsTrue (list_any (λ child. is_at_or_below other.now child) found.now) }
{
    match found.last() {
        Some(last) if other.is_at_or_below(last) => false,
        _ => other.is_below(path),
    }
}

/// Whether one of the requests moves the path, or one that is above it.
fn is_moved(requests: &[Request], path: &Path) -> bool
    ensures { result ≡ is_moved requests.now path.now }
{
    requests.iter().any(|request| moves(request, path))
}

/// Whether a request moves the path, or one that is above it.
fn moves(request: &Request, path: &Path) -> bool
    ensures { result ≡ moves_at request.now path.now }
{
    match request {
        Request::RenameFile(from, _) => path.is_at_or_below(from),
        Request::CreateFile(_)
        | Request::DeleteFile(_)
        | Request::AppendFile(_, _)
        | Request::ReplaceFile(_, _)
        | Request::CreateDirectory(_)
        | Request::RemoveDirectory(_)
        | Request::DenyFile(_)
        | Request::DenyDirectory(_) => false,
    }
}

/// A path of `depth` names below a path, whose child of that path is at or above none of the paths; `None` where no
/// name is left for the child.
fn filler(
    alloc: Global,
    paths: &PathMap<()>,
    path: &Path,
    depth: usize,
) -> Result<Option<Path>, Memory>
    requires below { length path.now < depth }
    requires within { depth ≤ 8 }
    ensures { IfOk result (λ found. IfSome found (λ filler. IsUnseenBelow (paths_in paths.now) path.now depth filler)) }
{
    for octet in b'0'..u8::MAX {
        let filler = below(alloc, path, depth, octet)?;
        let child = filler.beginning(alloc, path.depth() + 1)?;
        if !is_shown(paths, &child) {
            return Ok(Some(filler));
        }
    }
    Ok(None)
}

/// Whether the path is at or above one of the paths. Cost: two searches.
fn is_shown(paths: &PathMap<()>, path: &Path) -> bool
    ensures { result ≡ is_shown (paths_in paths.now) path.now }
{
    !paths.tree(path).is_empty()
}

/// A path of `depth` names below the path, whose own names are all this octet.
fn below(alloc: Global, path: &Path, depth: usize, octet: u8) -> Result<Path, Memory>
    requires below { length path.now < depth }
    requires within { depth ≤ 8 }
    ensures { IfOk result (λ filler. IsFiller path.now depth filler) }
{
    let longest = longest(alloc, octet)?;
    let front = longest.beginning(alloc, path.depth())?;
    let deep = longest.beginning(alloc, depth)?;
    let filler = deep.rebased(alloc, &front, path)?;
    Ok(filler)
}

/// A path of as many names as a path may have, all of them this octet, which is a name.
fn longest(alloc: Global, octet: u8) -> Result<Path, Memory>
    ensures { IfOk result (λ path. length path ≡ 8) }
{
    let text = [
        octet, b'/', octet, b'/', octet, b'/', octet, b'/', octet, b'/', octet, b'/', octet, b'/',
        octet,
    ];
    let Ok(path) = Path::parse(alloc, &text) else {
        return Err(AllocError);
    };
    if path.depth() == MOST_NAMES {
        Ok(path)
    } else {
        Err(AllocError)
    }
}
