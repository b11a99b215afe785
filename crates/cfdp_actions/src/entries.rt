//! What entries in path order say about the whole of them.

ghost use Rattle.std.specs.Prelude.{◌≡◌, ℕ, ◌+◌, ◌≤◌, ◌==◌, ◌&&◌, IfOk, Some, List, length, map, sum_by};
ghost use Rattle.std.specs.FinMap.Entries.{where_key};
ghost use Rattle.std.specs.List.{list_any};
ghost use Rattle.cfdp_paths.specs.Paths.{path_cmp, is_at_or_below};
ghost use Rattle.cfdp_actions.specs.Filestore.{weight, deepest_of, is_beside};
ghost use Rattle.cfdp_actions.specs.Store.{listing_entry, existing_node};
ghost use Rattle.cfdp_actions.specs.code.Listed.{shown_entries, blocks_in};

use crate::blocks::blocks_of;
use crate::content::Content;
use crate::{Entry, ExistingNode};
use cfdp_checksum::modular_checksum;
use cfdp_paths::{Memory, Path};
use std::alloc::Global;

/// The number of names of the longest path; 0 where there is none.
pub fn deepest(entries: &[(Path, Content)]) -> u8
    ensures value { result ≡ deepest_of (shown_entries entries.now) }
    ensures within { result ≤ 8 }
{
    let mut deepest = 0;
    for entry in entries {
        deepest = deepest.max(entry.0.depth());
    }
    deepest as u8
}

/// Whether the first `depth` names of a path are one of the paths.
fn has_beginning(paths: &[Path], path: &Path, depth: usize) -> bool
    ensures { result ≡ list_any (λ q. (length q == depth) && is_at_or_below path.now q) paths.now }
{
    paths.iter().any(|other| other.depth() == depth && path.is_at_or_below(other))
}

/// Whether a path is below `path`, and not by way of one of its children that are among `others`.
fn is_beside(others: &[Path], path: &Path, entry: &Path) -> bool
    ensures { result ≡ is_beside others.now path.now entry.now }
{
    entry.is_below(path) && !has_beginning(others, entry, path.depth() + 1)
}

/// Whether one of the entries is below `path`, and not by way of one of its children that are among `others`.
pub fn any_beside(entries: &[(Path, Content)], path: &Path, others: &[Path]) -> bool
    ensures { result ≡ list_any (λ e. is_beside others.now path.now e.0) (shown_entries entries.now) }
{
    for entry in entries {
        if is_beside(others, path, &entry.0) {
            return true;
        }
    }
    false
}

/// The number of names of the longest path of these entries; 0 where there is none.
pub fn deepest_beside(entries: &[(Path, Content)], path: &Path, others: &[Path]) -> u8
    ensures value { result
        ≡ deepest_of (where_key path_cmp (is_beside others.now path.now) (shown_entries entries.now)) }
    ensures within { result ≤ 8 }
{
    let mut deepest = 0;
    for entry in entries {
        if is_beside(others, path, &entry.0) {
            deepest = deepest.max(entry.0.depth());
        }
    }
    deepest as u8
}

/// The blocks of all entries and of the staged lists together, of which there are at most 65,536.
pub fn blocks_in(entries: &[(Path, Content)], staged: &[Vec<u8>]) -> u32
    requires { blocks_in entries.now staged.now ≤ 65536 }
    ensures { result ≡ blocks_in entries.now staged.now }
{
    let mut blocks = 0;
    for entry in entries {
        blocks += entry.1.blocks();
    }
    for list in staged {
        blocks += blocks_of(list.len() as u64);
    }
    blocks
}

/// The entries without their octets.
pub fn existing(alloc: Global, entries: &[(Path, Content)]) -> Result<Vec<ExistingNode>, Memory>
    ensures { IfOk result (λ all. all.items ≡ map existing_node (shown_entries entries.now)) }
{
    let mut all = Vec::with_capacity(alloc, entries.len())?;
    for (path, content) in entries {
        all.push(ExistingNode {
            path: path.copy(alloc)?,
            kind: content.kind(),
            size: content.octets().len() as u64,
        })?;
    }
    Ok(all)
}

/// The entries with the checksums of their octets.
pub fn listing(alloc: Global, entries: &[(Path, Content)]) -> Result<Vec<Entry>, Memory>
    ensures { IfOk result (λ all. all.items ≡ map listing_entry (shown_entries entries.now)) }
{
    let mut all = Vec::with_capacity(alloc, entries.len())?;
    for (path, content) in entries {
        let octets = content.octets();
        all.push(Entry {
            path: path.copy(alloc)?,
            kind: content.kind(),
            size: octets.len() as u64,
            checksum: modular_checksum(octets),
        })?;
    }
    Ok(all)
}
