//! The names of a path, lent one after the other.

ghost use Rattle.std.specs.Iterator.{YieldsFirstRef, item_count};
ghost use Rattle.std.specs.Prelude.{◌≡◌, ◌≤◌, [], Some, None, drop, length};
ghost use Rattle.cfdp_paths.specs.Faults.{fault_of};
ghost use Rattle.cfdp_paths.specs.Paths.{IsPath, names_of, path_of};

use crate::buffers::{SEPARATOR, replace};
use crate::fault::PathFault;
use crate::parsing::{find_fault, slash_len};
use crate::scan::first_separator;
use std::marker::Model;

/// The names of a path that are still to come, in order. It lends them, and takes no memory: [`Path::names`] out of a
/// path, [`Names::lend`] out of the octets that spell one.
///
/// Cost: going through all of them is one pass over the path's octets.
///
/// [`Path::names`]: crate::Path::names
#[derive(Drop)]
pub struct Names<'a> {
    /// The octets of these names, with [`SEPARATOR`] between them; `None` after the last one.
    pub(crate) octets: Option<&'a [u8]>,
}

impl<'a> Model for Names<'a> {
    ghost use Rattle.std.specs.Option.{option_copied};
    ghost use Rattle.cfdp_paths.specs.Paths.{Path};
    ghost use Rattle.cfdp_paths.specs.code.Paths.{path_in};

    ghost Value = { Path };

    ghost view = { λ names. path_in (option_copied names.octets) };
}

impl<'a> Names<'a> {
    /// No names: those of the root. Takes no memory. In constant time.
    pub fn none() -> Names<'a>
        ensures { result ≡ [] }
    {
        Names { octets: None }
    }

    /// Why octets spell no path, as [`Path::parse`] says; `None` where they spell one. Never [`PathFault::Memory`].
    /// Takes no memory, and changes nothing. Cost: one pass over the octets.
    ///
    /// [`Path::parse`]: crate::Path::parse
    pub fn fault_in(octets: &[u8]) -> Option<PathFault>
        ensures { result ≡ fault_of octets.now }
    {
        find_fault(octets)
    }

    /// The names of the path that the octets spell, as [`Path::parse`] reads them. They are lent out of the octets,
    /// which change while they are lent. Needs octets that spell a path: [`Names::fault_in`] says. Takes no memory.
    /// Cost: one pass over the octets.
    ///
    /// [`Path::parse`]: crate::Path::parse
    pub fn lend(octets: &'a mut [u8]) -> Names<'a>
        requires { fault_of octets.old ≡ None }
        ensures names { path_of octets.old ≡ Some result }
        ensures within { IsPath result }
    {
        let start = slash_len(octets);
        replace(octets, b'/', SEPARATOR);
        Names::from_offset(octets, start)
    }

    /// The names in the octets from an offset on, with separators between them.
    fn from_offset(octets: &'a [u8], start: usize) -> Names<'a>
        requires { start ≤ length octets.now }
        ensures { result ≡ names_of (drop start octets.now) }
    {
        Names {
            octets: Some(&octets[start..]),
        }
    }
}

impl<'a> Iterator for Names<'a> {
    type Item = &'a [u8];

    ghost next_gives = { YieldsFirstRef (λ names. names) };

    ghost remaining = { item_count (λ names. names) };

    fn next(&mut self) -> Option<&'a [u8]> {
        let octets = self.octets?;
        match first_separator(octets) {
            Some(offset) => {
                self.octets = Some(&octets[offset + 1..]);
                Some(&octets[..offset])
            }
            None => {
                self.octets = None;
                Some(octets)
            }
        }
    }
}
