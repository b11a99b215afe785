//! The leftmost fault among the names between the `/`, or how many names these are.

ghost use Rattle.std.specs.Prelude.{◌≡◌, ◌≤◌, ◌||◌, ◌==◌, [], ◌∷◌, None, Some, MatchResult, drop, if◌then◌else◌, length};
ghost use Rattle.std.specs.List.{list_any};
ghost use Rattle.cfdp_paths.specs.Faults.{fault_of, fault_of_name};
ghost use Rattle.cfdp_paths.specs.Paths.{dot, names_in, same_name, without_slash};

use crate::fault::PathFault;
use crate::{LONGEST_NAME, MOST_NAMES};

/// The fault of the octets, if they spell no path. Takes no memory. Cost: one pass over the octets.
pub(crate) fn find_fault(octets: &[u8]) -> Option<PathFault>
    ensures { result ≡ fault_of octets.now }
{
    match count_names(octets) {
        Ok(_) => None,
        Err(fault) => Some(fault),
    }
}

/// How many names the octets spell, or their fault, if they spell no path. Takes no memory. Cost: one pass over the
/// octets.
pub(crate) fn count_names(octets: &[u8]) -> Result<usize, PathFault>
    ensures { MatchResult result (λ count. (fault_of octets.now ≡ None) × (count ≡ length (names_in octets.now)))
        (λ fault. fault_of octets.now ≡ Some fault) }
{
    let names = strip_slash(octets);
    if names.is_empty() {
        return Err(PathFault::Empty);
    }
    let mut count = 0;
    let mut start = 0;
    let mut holds_zero = false;
    for index in 0..names.len() {
        let octet = names[index];
        if octet == b'/' {
            if let Some(fault) = fault_at(count, &names[start..index], holds_zero) {
                return Err(fault);
            }
            count += 1;
            start = index + 1;
            holds_zero = false;
        } else if octet == 0 {
            holds_zero = true;
        }
    }
    if let Some(fault) = fault_at(count, &names[start..], holds_zero) {
        return Err(fault);
    }
    Ok(count + 1)
}

/// What is wrong with the name that comes after `count` others, if anything.
fn fault_at(count: usize, name: &[u8], holds_zero: bool) -> Option<PathFault>
    requires { holds_zero ≡ list_any (λ octet. octet == 0) name.now }
    ensures { result ≡ if count == MOST_NAMES then Some PathFault.TooDeep else fault_of_name name.now }
{
    if count == MOST_NAMES {
        Some(PathFault::TooDeep)
    } else if name.is_empty() {
        Some(PathFault::EmptyName)
    } else if holds_zero || is_dots(name) {
        Some(PathFault::BadName)
    } else if name.len() > LONGEST_NAME {
        Some(PathFault::NameTooLong)
    } else {
        None
    }
}

/// Whether the name is `.` or `..`.
fn is_dots(name: &[u8]) -> bool
    ensures { result ≡ (same_name name.now (dot ∷ []) || same_name name.now (dot ∷ dot ∷ [])) }
{
    name == b".".as_slice() || name == b"..".as_slice()
}

/// The octets without one `/` at the start.
pub(crate) fn strip_slash(octets: &[u8]) -> &[u8]
    ensures { result.now ≡ without_slash octets.now }
{
    match octets {
        [b'/', rest @ ..] => rest,
        _ => octets,
    }
}

/// How many octets that `/` takes: 1 or 0.
pub(crate) fn slash_len(octets: &[u8]) -> usize
    ensures rest { drop result octets.now ≡ without_slash octets.now }
    ensures within { result ≤ length octets.now }
{
    match octets {
        [b'/', ..] => 1,
        _ => 0,
    }
}
