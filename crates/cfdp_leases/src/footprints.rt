//! What one list of filestore requests leases.

ghost use Rattle.std.specs.Prelude.{◌≡◌};
ghost use Rattle.std.specs.List.{list_any};
ghost use Rattle.std.specs.FinSet as set;
ghost use Rattle.std.specs.List.Sorted.{IsStrictlySortedBy};
ghost use Rattle.cfdp_leases.specs.Footprint.{covers};
ghost use Rattle.cfdp_paths.specs.Paths.{is_at_or_below, path_cmp, same_path};

use crate::lease::Lease;
use cfdp_paths::Path;
use std::marker::Model;

/// The paths that a list of filestore requests may change, and those that it relies on.
///
/// Each is in it once for each kind. Contracts see it as two finite sets of paths.
#[derive(Debug, Drop)]
pub struct Footprint {
    pub(crate) exclusive: Vec<Path>,
    pub(crate) shared: Vec<Path>,
}

impl Model for Footprint {
    ghost use Rattle.std.specs.FinSet as set;
    ghost use Rattle.cfdp_leases.specs.Footprint as words;
    ghost use Rattle.cfdp_leases.specs.code.Footprint as words_in_code;

    ghost Value = { words.Footprint };

    ghost coded = { words_in_code.footprint_code };

    ghost view = { λ f. words_in_code.of_lists f.exclusive.items f.shared.items };

    ghost invariant = { λ f. words_in_code.IsSoundFootprint f.exclusive.items f.shared.items };
}

impl Footprint {
    /// The paths that are leased exclusively, in path order, each once: those that the requests and the install may
    /// change. Takes no memory.
    pub fn exclusive(&self) -> &[Path]
        ensures paths { set.from_list result.now ≡ self.now.exclusive }
        ensures ordered { IsStrictlySortedBy path_cmp result.now }
    {
        &self.exclusive
    }

    /// The paths that are leased as shared, in path order, each once: those that the requests only read, and the proper
    /// ancestors of all named paths. Some may be at or below an exclusive path. Takes no memory.
    pub fn shared(&self) -> &[Path]
        ensures paths { set.from_list result.now ≡ self.now.shared }
        ensures ordered { IsStrictlySortedBy path_cmp result.now }
    {
        &self.shared
    }
}

/// How a footprint holds a path: exclusively at or below an exclusive path, else shared where it is a shared one, else
/// not at all. Takes no memory. Cost: a comparison with each exclusive path, up to the first that is at or above the
/// path, and one search among the shared ones.
pub fn covers(footprint: &Footprint, path: &Path) -> Option<Lease>
    ensures { result ≡ covers footprint.now path.now }
{
    if has_above(&footprint.exclusive, path) {
        Some(Lease::Exclusive)
    } else if has(&footprint.shared, path) {
        Some(Lease::Shared)
    } else {
        None
    }
}

/// Whether this path is one of the paths. Cost: one search.
fn has(paths: &[Path], path: &Path) -> bool
    requires { IsStrictlySortedBy path_cmp paths.now }
    ensures { result ≡ list_any (λ held. same_path held path.now) paths.now }
{
    paths.binary_search(path).is_ok()
}

/// Whether this path is at or below one of the paths.
fn has_above(paths: &[Path], path: &Path) -> bool
    ensures { result ≡ list_any (λ held. is_at_or_below path.now held) paths.now }
{
    paths.iter().any(|held| path.is_at_or_below(held))
}
