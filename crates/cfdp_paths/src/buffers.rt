//! The names of a path in one buffer.

ghost use Rattle.std.specs.Prelude.{◌≡◌, ◌<◌, ◌≤◌, ◌+◌, ◌-◌, ◌*◌, ◌==◌, ◌++◌, ◌&&◌, if◌then◌else◌, IfOk, drop, length};
ghost use Rattle.std.specs.Prelude.{map, nat_le, take, vec_capacity, vec_len};
ghost use Rattle.cfdp_paths.specs.Paths.{is_at_or_below, names_of};

use crate::octet_order::is_same;
use crate::scan::last_separator;
use std::alloc::{AllocError, Global};

/// What is between the names: no name holds it, and it comes before all that a name may hold.
pub(crate) const SEPARATOR: u8 = 0;

/// A copy of the octets, with each `old` replaced by `new`. Cost: one allocation, and two passes over the octets.
pub(crate) fn replaced(
    alloc: Global,
    octets: &[u8],
    old: u8,
    new: u8,
) -> Result<Vec<u8>, AllocError>
    ensures { IfOk result (λ copy. copy.items ≡ map (λ octet. if octet == old then new else octet) octets.now) }
{
    let mut copy = Vec::from_slice(alloc, octets)?;
    replace(&mut copy, old, new);
    Ok(copy)
}

/// Replaces each `old` by `new`.
pub(crate) fn replace(octets: &mut [u8], old: u8, new: u8)
    ensures { octets.new ≡ map (λ octet. if octet == old then new else octet) octets.old }
{
    for octet in octets.iter_mut() {
        if *octet == old {
            *octet = new;
        }
    }
}

/// Replaces the first `count` octets, of which there are as many or more, by the octets `new`. Takes no memory. Cost:
/// one copy of the octets at most.
pub(crate) fn replace_front(octets: &mut Vec<u8>, count: usize, new: &[u8])
    requires within { count ≤ length octets.old.items }
    requires short { length new.now ≤ count }
    ensures { octets.new.items ≡ new.now ++ drop count octets.old.items }
{
    let shorter = count - new.len();
    if shorter > 0 {
        let kept = octets.len() - shorter;
        octets.copy_within(shorter.., 0);
        octets.truncate(kept);
    }
    overwrite(octets, new);
}

/// Whether [`replace_front`] takes these octets, and leaves them in memory of at most twice the length that they then
/// have. Takes no memory. In constant time.
pub(crate) fn suits_front(octets: &Vec<u8>, count: usize, new: &[u8]) -> bool
    requires { count ≤ vec_len octets.now }
    ensures { result ≡ (nat_le (length new.now) count
        && nat_le (vec_capacity octets.now) (2 * (vec_len octets.now - count + length new.now))) }
{
    new.len() <= count && octets.capacity() <= 2 * (octets.len() - count + new.len())
}

/// Puts the octets `new` over the first ones.
fn overwrite(octets: &mut [u8], new: &[u8])
    requires { length new.now ≤ length octets.old }
    ensures { octets.new ≡ new.now ++ drop (length new.now) octets.old }
{
    octets[..new.len()].copy_from_slice(new);
}

/// The octets of the first `count` names, or all octets where there are no more names. Takes no memory. Cost: one pass
/// over those octets.
pub(crate) fn first_names(octets: &[u8], count: usize) -> &[u8]
    requires { 1 ≤ count }
    ensures { names_of result.now ≡ take count (names_of octets.now) }
{
    let mut left = count;
    for (offset, octet) in octets.iter().enumerate() {
        if *octet == SEPARATOR {
            left -= 1;
            if left == 0 {
                return &octets[..offset];
            }
        }
    }
    octets
}

/// The octets of all names but the last `count`, of which there are more. Takes no memory. Cost: one pass over the
/// octets of those last names.
pub(crate) fn without_last(octets: &[u8], count: usize) -> &[u8]
    requires { count < length (names_of octets.now) }
    ensures { names_of result.now ≡ take (length (names_of octets.now) - count) (names_of octets.now) }
{
    let mut end = octets.len();
    for _dropped in 0..count {
        end = last_separator(&octets[..end]).unwrap();
    }
    &octets[..end]
}

/// Whether the first names of the octets are exactly those of `front`. Cost: one comparison of the octets of `front`,
/// and none where what comes after them is not a separator.
pub(crate) fn begins(octets: &[u8], front: &[u8]) -> bool
    ensures { result ≡ is_at_or_below (names_of octets.now) (names_of front.now) }
{
    let end = front.len();
    if octets.len() < end {
        return false;
    }
    let (head, rest) = octets.split_at(end);
    match rest {
        [] => is_same(head, front),
        [octet, ..] => *octet == SEPARATOR && is_same(head, front),
    }
}
