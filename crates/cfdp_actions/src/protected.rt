//! Prefixes that no request may change.

ghost use Rattle.std.specs.Prelude.{◌≡◌, ◌↔◌, ◌≤◌, List, [], ◌∷◌, ◌++◌, length, slice_get, OnOk, OnErr, IfErr, IsErr};
ghost use Rattle.std.proofs.Common.{rules};
ghost use Rattle.std.specs.Cmp.Rules.{comparing};
ghost use Rattle.std.specs.List.{list_any};
ghost use Rattle.std.specs.Option.{option_copied};
ghost use Rattle.cfdp_paths.specs.Paths.{is_at_or_below};
ghost use Rattle.cfdp_actions.specs.Actions.{is_protected, bars};
ghost use Rattle.cfdp_actions.specs.Prefixes.{same_paths};

use crate::Request;
use arrayvec::ArrayVec;
use cfdp_paths::Path;
use std::marker::Model;

/// The most paths that a configuration protects.
pub const MOST_PREFIXES: usize = 8;

/// Up to eight paths, the prefixes: what is at or below one of them is neither changed nor removed, and what is
/// above one of them is not moved. New paths may be made there.
///
/// Contracts see it as the list of its paths. It takes no memory, and a question compares its path at most twice with
/// each prefix, of which there are eight at most.
#[derive(Debug, Drop)]
pub struct Protected {
    prefixes: ArrayVec<Option<Path>, MOST_PREFIXES>,
}

impl Model for Protected {
    ghost use Rattle.std.specs.Prelude.{◌≡◌, ℕ, List, length};
    ghost use Rattle.cfdp_actions.specs.code.Prefixes.{present};

    ghost Value = { List (List (List ℕ)) };

    ghost view = { λ p. present p.prefixes.items };

    ghost invariant = { λ p. length (present p.prefixes.items) ≡ length p.prefixes.items };
}

impl Protected {
    /// Nothing is protected.
    pub fn new() -> Self
        ensures { result ≡ [] }
    {
        Protected {
            prefixes: ArrayVec::new(),
        }
    }

    /// Protects what is at or below the path; hands the path back exactly where eight are protected.
    pub fn add(&mut self, path: Path) -> Result<(), Path>
        ensures full { IsErr result ↔ (length self.old ≡ 8) }
        ensures ok { OnOk result (self.new ≡ self.old ++ path ∷ []) }
        ensures err { OnErr result (self.new ≡ self.old) }
        ensures handed_back { IfErr result (λ back. back ≡ path) }
        ensures few { length self.new ≤ 8 }
    {
        if self.prefixes.is_full() {
            return Err(path);
        }
        self.prefixes.push(Some(path));
        Ok(())
    }

    /// How many paths are protected: at most eight.
    pub fn len(&self) -> usize
        ensures value { result ≡ length self.now }
        ensures within { result ≤ 8 }
    {
        self.prefixes.len()
    }

    /// The protected path with this index, from 0, in the order in which they were added.
    pub fn get(&self, index: usize) -> Option<&Path>
        ensures { option_copied result ≡ slice_get self.now index }
    {
        self.prefixes.as_slice().get(index)?.as_ref()
    }

    /// Whether the path is at or below a prefix. Cost: at most eight comparisons of paths.
    pub fn covers(&self, path: &Path) -> bool
        ensures { result ≡ is_protected self.now path.now }
    {
        for prefix in self.prefixes.as_slice() {
            if let Some(prefix) = prefix {
                if path.is_at_or_below(prefix) {
                    return true;
                }
            }
        }
        false
    }

    /// Whether a prefix is at or below the path.
    fn reaches_below(&self, path: &Path) -> bool
        ensures { result ≡ list_any (λ prefix. is_at_or_below prefix path.now) self.now }
    {
        for prefix in self.prefixes.as_slice() {
            if let Some(prefix) = prefix {
                if prefix.is_at_or_below(path) {
                    return true;
                }
            }
        }
        false
    }

    /// Whether the request would change what is protected. Creates are never barred; other requests if the first name
    /// is at or below a prefix; renames also if a prefix is at or below it. Cost: at most sixteen comparisons of paths.
    pub fn bars(&self, request: &Request) -> bool
        ensures { result ≡ bars self.now request.now }
    {
        match request {
            Request::CreateFile(_) | Request::CreateDirectory(_) => false,
            Request::RenameFile(from, _) => self.covers(from) || self.reaches_below(from),
            Request::DeleteFile(path)
            | Request::AppendFile(path, _)
            | Request::ReplaceFile(path, _)
            | Request::RemoveDirectory(path)
            | Request::DenyFile(path)
            | Request::DenyDirectory(path) => self.covers(path),
        }
    }
}

/// Two are equal where they have the same paths in the same order. A comparison takes no memory.
impl PartialEq for Protected {
    ghost eq = { same_paths };

    ghost laws = { Prim.search (comparing, rules) };

    fn eq(&self, other: &Protected) -> bool {
        self.prefixes.as_slice() == other.prefixes.as_slice()
    }
}

impl Eq for Protected {
    ghost laws = { Prim.search (comparing, rules) };
}
