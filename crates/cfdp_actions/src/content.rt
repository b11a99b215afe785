//! What is at a path of a store that keeps it in memory.

ghost use Rattle.std.specs.Prelude.{◌≡◌, ◌+◌, ◌≤◌, ◌++◌, if◌then◌else◌, IsTrue, IfOk, OnOk, OnErr, Some, length};
ghost use Rattle.std.specs.FinMap.{put, is_sorted};
ghost use Rattle.cfdp_paths.specs.Paths.{path_cmp, same_path};
ghost use Rattle.cfdp_actions.specs.Filestore.{File, octets_in, weight, is_file, is_directory};
ghost use Rattle.cfdp_actions.specs.Store.{kind_of};
ghost use Rattle.cfdp_actions.specs.code.Listed.{shown_entries, entry_found, content_node};

use crate::Kind;
use crate::blocks::blocks_of;
use cfdp_paths::{Memory, Path, PathMap};
use std::alloc::Global;

/// What is at a path.
#[derive(Debug, Drop)]
pub enum Content {
    /// A directory.
    Directory,
    /// A file with its octets.
    File(Vec<u8>),
}

impl Content {
    /// Whether it is a file or a directory.
    pub fn kind(&self) -> Kind
        ensures { result ≡ kind_of (content_node self.now) }
    {
        match self {
            Content::Directory => Kind::Directory,
            Content::File(_) => Kind::File,
        }
    }

    /// Whether it is a directory.
    pub fn is_directory(&self) -> bool
        ensures { result ≡ is_directory (Some (content_node self.now)) }
    {
        matches!(self, Content::Directory)
    }

    /// The octets of a file; none for a directory.
    pub fn octets(&self) -> &[u8]
        ensures { result.now ≡ octets_in (Some (content_node self.now)) }
    {
        match self {
            Content::Directory => &[],
            Content::File(octets) => octets.as_slice(),
        }
    }

    /// The octets of a file; none for a directory.
    pub fn into_octets(self, alloc: Global) -> Vec<u8>
        ensures { result.items ≡ octets_in (Some (content_node self)) }
    {
        match self {
            Content::Directory => Vec::new(alloc),
            Content::File(octets) => octets,
        }
    }

    /// The blocks that it takes, where they are at most 65,536: one, and one more for each 120 octets.
    pub fn blocks(&self) -> u32
        requires { weight (Some (content_node self.now)) ≤ 65536 }
        ensures { result ≡ weight (Some (content_node self.now)) }
    {
        match self {
            Content::Directory => 1,
            Content::File(octets) => 1 + blocks_of(octets.len() as u64),
        }
    }
}

/// The octets of the file at the path; none where there is no file.
pub fn octets_at<'a>(entries: &'a PathMap<Content>, path: &Path) -> &'a [u8]
    ensures { result.now ≡ octets_in (entry_found entries.now path.now) }
{
    match entries.get(path) {
        Some(content) => content.octets(),
        None => &[],
    }
}

/// How many octets a file had, and how many it has.
#[derive(Clone, Copy)]
pub struct Growth {
    pub from: u64,
    pub to: u64,
}

/// Puts the second file's octets, as they were before, after those of the first file, in place.
pub fn append(
    entries: &mut PathMap<Content>,
    alloc: Global,
    first: &Path,
    second: &Path,
) -> Result<Growth, Memory>
    requires sorted { IsTrue (is_sorted path_cmp (shown_entries entries.old)) }
    requires file { IsTrue (is_file (entry_found entries.old first.now)) }
    ensures ok { OnOk result (let front = octets_in (entry_found entries.old first.now) in
        let back = octets_in (entry_found entries.old second.now) in
        shown_entries entries.new ≡ put path_cmp first.now (File (front ++ back)) (shown_entries entries.old)) }
    ensures err { OnErr result (shown_entries entries.new ≡ shown_entries entries.old) }
    ensures from { IfOk result (λ growth. growth.from ≡ length (octets_in (entry_found entries.old first.now))) }
    ensures to { IfOk result (λ growth. growth.to ≡ length (octets_in (entry_found entries.old first.now))
        + length (octets_in (entry_found entries.old second.now))) }
{
    let mut octets = entries
        .exchange(first, Content::Directory)
        .into_octets(alloc);
    let from = octets.len() as u64;
    let extended = extend(&mut octets, entries, second, first == second);
    let to = octets.len() as u64;
    entries.set(first, Content::File(octets));
    extended?;
    Ok(Growth { from, to })
}

/// Puts the octets of the file at the path, or their own once more, after the octets.
fn extend(
    octets: &mut Vec<u8>,
    entries: &PathMap<Content>,
    path: &Path,
    doubles: bool,
) -> Result<(), Memory>
    ensures ok { OnOk result (octets.new.items
        ≡ octets.old.items ++ (if doubles then octets.old.items else octets_in (entry_found entries.now path.now))) }
    ensures err { OnErr result (octets.new.items ≡ octets.old.items) }
{
    if doubles {
        octets.extend_from_within(..)
    } else {
        octets.extend_from_slice(octets_at(entries, path))
    }
}
