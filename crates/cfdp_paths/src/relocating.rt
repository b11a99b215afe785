//! Moves of the entries at and below a path, in entries in path order.

ghost use Rattle.std.specs.Prelude.{◌≡◌, ◌+◌, ◌≤◌, false, IsTrue, IfOk, OnOk, OnErr, [], ◌++◌, length, take, drop, map, vec_len, vec_capacity};
ghost use Rattle.std.specs.List.{list_all, between};
ghost use Rattle.cfdp_paths.specs.Paths.{is_at_or_below, joined, rebased};
ghost use Rattle.cfdp_paths.specs.PathMaps.{IsOrdered, tree_in, rest_in, puts, moved_to, is_too_deep};
ghost use Rattle.cfdp_paths.specs.code.PathMaps.{IsPieceOf, with_paths};

use crate::path_map::{piece, put_reserved};
use crate::{Memory, Path};
use std::alloc::Global;
use std::collections::VecDeque;

/// Moves the entries at a path and below it: each path p/r becomes q/r.
pub(crate) fn relocate<T: Drop>(
    entries: &mut Vec<(Path, T)>,
    from: &Path,
    to: &Path,
) -> Result<(), Memory>
    requires ordered { IsOrdered entries.old.items }
    requires depth { is_too_deep from.now to.now (tree_in from.now entries.old.items) ≡ false }
    ensures ok { OnOk result (entries.new.items
        ≡ puts (rest_in from.now entries.old.items) (moved_to from.now to.now (tree_in from.now entries.old.items))) }
    ensures err { OnErr result (entries.new.items ≡ entries.old.items) }
{
    let alloc = *entries.allocator();
    let (start, end) = piece(entries, from);
    if end - start == 1 {
        return relocate_entry(entries, start, from, to);
    }
    if all_may_stay(&entries[start..end], from, to) {
        return relocate_in_memory(entries, start, end, from, to);
    }
    let paths = new_paths(alloc, &entries[start..end], from, to)?;
    let moved = Vec::with_capacity(alloc, paths.len())?;
    let taken = detach(entries, start, end)?;
    put_moved(entries, to, renamed(taken, paths, moved));
    Ok(())
}

/// Whether each of these paths p/r may become q/r in the memory that it has: if `to` has no more octets than `from`,
/// and the memory of each is at most twice the octets of q/r. Takes no memory. Cost: a look at each entry at most.
fn all_may_stay<T>(entries: &[(Path, T)], from: &Path, to: &Path) -> bool
    requires { IsTrue (list_all (λ e. is_at_or_below e.0 from.now) entries.now) }
    ensures { IsTrue result → length (joined to.now) ≤ length (joined from.now) }
{
    for entry in entries {
        if !entry.0.may_stay(from, to) {
            return false;
        }
    }
    to.is_no_longer_than(from)
}

/// Moves the entry at the index, which is the only one at or below the first path. Cost: one path at most, one
/// search, and two shifts of the entries after it.
fn relocate_entry<T: Drop>(
    entries: &mut Vec<(Path, T)>,
    index: usize,
    from: &Path,
    to: &Path,
) -> Result<(), Memory>
    requires ordered { IsOrdered entries.old.items }
    requires piece { IsPieceOf from.now entries.old.items index (index + 1) }
    requires depth { is_too_deep from.now to.now (tree_in from.now entries.old.items) ≡ false }
    ensures ok { OnOk result (entries.new.items
        ≡ puts (rest_in from.now entries.old.items) (moved_to from.now to.now (tree_in from.now entries.old.items))) }
    ensures err { OnErr result (entries.new.items ≡ entries.old.items) }
{
    if entries[index].0.may_stay(from, to) {
        relocate_entry_in_memory(entries, index, from, to);
        return Ok(());
    }
    let alloc = *entries.allocator();
    let path = entries[index].0.rebased(alloc, from, to)?;
    let (_, value) = entries.remove(index);
    put_reserved(entries, path, value);
    Ok(())
}

/// Like `relocate_entry`, where the second path has no more octets than the first: the path stays in the memory that it
/// has. Takes no memory.
fn relocate_entry_in_memory<T: Drop>(
    entries: &mut Vec<(Path, T)>,
    index: usize,
    from: &Path,
    to: &Path,
)
    requires ordered { IsOrdered entries.old.items }
    requires piece { IsPieceOf from.now entries.old.items index (index + 1) }
    requires depth { is_too_deep from.now to.now (tree_in from.now entries.old.items) ≡ false }
    requires short { length (joined to.now) ≤ length (joined from.now) }
    ensures { entries.new.items
        ≡ puts (rest_in from.now entries.old.items) (moved_to from.now to.now (tree_in from.now entries.old.items)) }
{
    let (mut path, value) = entries.remove(index);
    path.rebase(from, to);
    put_reserved(entries, path, value);
}

/// Moves the entries from `start` up to `end`, which are all that is at and below the first path, to the second path,
/// which has no more octets: each path stays in the memory that it has.
fn relocate_in_memory<T: Drop>(
    entries: &mut Vec<(Path, T)>,
    start: usize,
    end: usize,
    from: &Path,
    to: &Path,
) -> Result<(), Memory>
    requires ordered { IsOrdered entries.old.items }
    requires piece { IsPieceOf from.now entries.old.items start end }
    requires depth { is_too_deep from.now to.now (tree_in from.now entries.old.items) ≡ false }
    requires short { length (joined to.now) ≤ length (joined from.now) }
    ensures ok { OnOk result (entries.new.items
        ≡ puts (rest_in from.now entries.old.items) (moved_to from.now to.now (tree_in from.now entries.old.items))) }
    ensures err { OnErr result (entries.new.items ≡ entries.old.items) }
{
    let mut moved = detach(entries, start, end)?;
    rebase_all(&mut moved, from, to);
    put_moved(entries, to, moved);
    Ok(())
}

/// Each path p/r becomes q/r, in the memory that it has. Takes no memory.
fn rebase_all<T>(entries: &mut [(Path, T)], from: &Path, to: &Path)
    requires below { IsTrue (list_all (λ e. is_at_or_below e.0 from.now) entries.old) }
    requires depth { is_too_deep from.now to.now entries.old ≡ false }
    requires short { length (joined to.now) ≤ length (joined from.now) }
    ensures { entries.new ≡ moved_to from.now to.now entries.old }
{
    for entry in entries.iter_mut() {
        entry.0.rebase(from, to);
    }
}

/// The new paths of the entries at and below the first path, in order.
fn new_paths<T>(
    alloc: Global,
    tree: &[(Path, T)],
    from: &Path,
    to: &Path,
) -> Result<VecDeque<Path>, Memory>
    requires tree { IsTrue (list_all (λ e. is_at_or_below e.0 from.now) tree.now) }
    requires depth { is_too_deep from.now to.now tree.now ≡ false }
    ensures { IfOk result (λ paths. paths.items ≡ map (λ e. rebased from.now to.now e.0) tree.now) }
{
    let mut paths = VecDeque::with_capacity(alloc, tree.len())?;
    for entry in tree {
        paths.push_back(entry.0.rebased(alloc, from, to)?)?;
    }
    Ok(paths)
}

/// Takes the entries from index `start` up to `end` out. What stays has room for them.
fn detach<T>(
    entries: &mut Vec<(Path, T)>,
    start: usize,
    end: usize,
) -> Result<Vec<(Path, T)>, Memory>
    requires order { start ≤ end }
    requires within { end ≤ vec_len entries.old }
    ensures taken { IfOk result (λ taken. taken.items ≡ between start end entries.old.items) }
    ensures left { OnOk result (entries.new.items ≡ take start entries.old.items ++ drop end entries.old.items) }
    ensures room { vec_capacity entries.new ≡ vec_capacity entries.old }
    ensures err { OnErr result (entries.new.items ≡ entries.old.items) }
{
    entries.rotate_left(end);
    let kept = entries.len() - (end - start);
    match entries.split_off(kept) {
        Ok(taken) => {
            entries.rotate_right(start);
            Ok(taken)
        }
        Err(want) => {
            entries.rotate_right(end);
            Err(want)
        }
    }
}

/// Puts the entries into a list that is empty and has room for them, at these paths.
fn renamed<T: Drop>(
    entries: Vec<(Path, T)>,
    mut paths: VecDeque<Path>,
    mut moved: Vec<(Path, T)>,
) -> Vec<(Path, T)>
    requires empty { moved.items ≡ [] }
    requires room { vec_len entries ≤ vec_capacity moved }
    requires paths { length paths.items ≡ length entries.items }
    ensures { result.items ≡ with_paths paths.items entries.items }
{
    for (_, value) in entries {
        let path = paths.pop_front().unwrap();
        moved.push_reserved((path, value));
    }
    moved
}

/// Puts entries at and below a path, which are in path order, each at its index. There is room for them.
fn put_moved<T: Drop>(entries: &mut Vec<(Path, T)>, to: &Path, mut moved: Vec<(Path, T)>)
    requires ordered { IsOrdered entries.old.items }
    requires in_order { IsOrdered moved.items }
    requires below { IsTrue (list_all (λ e. is_at_or_below e.0 to.now) moved.items) }
    requires room { vec_len entries.old + vec_len moved ≤ vec_capacity entries.old }
    ensures { entries.new.items ≡ puts entries.old.items moved.items }
{
    let (start, end) = piece(entries, to);
    if start == end {
        // No entry is there: they go in as one piece.
        let following = entries.len() - start;
        entries.rotate_left(start);
        entries.append(&mut moved).unwrap();
        entries.rotate_left(following);
        return;
    }
    for (path, value) in moved {
        put_reserved(entries, path, value);
    }
}
