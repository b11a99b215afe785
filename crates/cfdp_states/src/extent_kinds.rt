//! What the tests of the action table ask of the extents.

ghost use Rattle.std.specs.FinMap as finite;
ghost use Rattle.cfdp_paths.specs.PathMaps.{is_too_deep, tree_in};
ghost use Rattle.cfdp_states.specs.code.Sketching.{IsOutline};

use crate::extent::Extent;
use crate::extents::Extents;
use cfdp_actions::{Kind, Kinds};
use cfdp_paths::Path;

/// It describes each filestore in which the same kinds and sizes exist.
impl Kinds for Extents {
    ghost tells = { IsOutline };

    ghost deep = { λ m p q. is_too_deep p q (tree_in p (finite.entries m)) };

    fn kind(&self, path: &Path) -> Option<Kind> {
        match self.get(path) {
            None => None,
            Some(Extent::Directory) => Some(Kind::Directory),
            Some(Extent::File(_)) => Some(Kind::File),
        }
    }

    fn parent_is_good(&self, path: &Path) -> bool {
        self.has_good_parent(path)
    }

    fn has_entries(&self, path: &Path) -> bool {
        self.has_below(path)
    }

    fn is_too_deep(&self, from: &Path, to: &Path) -> bool {
        Extents::is_too_deep(self, from, to)
    }
}
