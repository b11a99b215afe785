//! The lists of octets that are staged in slots.

ghost use Rattle.std.specs.Prelude.{◌≡◌, ◌+◌, ◌<◌, ◌≤◌, OnOk, OnErr, [], length, vec_len, slice_index_or, slice_set};
ghost use Rattle.cfdp_actions.specs.Store.{extended, overwritten};
ghost use Rattle.cfdp_actions.specs.Listed.{vector_octets};

use cfdp_paths::Memory;
use std::alloc::Global;
use std::mem;

/// Adds zeros at the end of a list, up to the size.
pub fn extend(staged: &mut Vec<Vec<u8>>, slot: usize, size: usize) -> Result<(), Memory>
    requires slot { slot < vec_len staged.old }
    requires longer { length (slice_index_or (vector_octets staged.old.items) slot []) ≤ size }
    ensures ok { OnOk result (vector_octets staged.new.items
        ≡ slice_set (vector_octets staged.old.items) slot (extended
        (slice_index_or (vector_octets staged.old.items) slot []) size)) }
    ensures err { OnErr result (vector_octets staged.new.items ≡ vector_octets staged.old.items) }
    ensures slots { length staged.new.items ≡ length staged.old.items }
{
    staged[slot].resize(size, 0)?;
    Ok(())
}

/// Replaces the octets of a list, from offset `at` on, by these.
pub fn overwrite(staged: &mut Vec<Vec<u8>>, slot: usize, at: usize, octets: &[u8])
    requires slot { slot < vec_len staged.old }
    requires range { at + length octets.now ≤ length (slice_index_or (vector_octets staged.old.items) slot []) }
    ensures list { vector_octets staged.new.items
        ≡ slice_set (vector_octets staged.old.items) slot (overwritten
        (slice_index_or (vector_octets staged.old.items) slot []) at octets.now) }
    ensures slots { length staged.new.items ≡ length staged.old.items }
{
    overwrite_list(staged[slot].as_mut_slice(), at, octets);
}

/// Replaces octets, from offset `at` on, by these.
fn overwrite_list(list: &mut [u8], at: usize, octets: &[u8])
    requires { at + length octets.now ≤ length list.old }
    ensures { list.new ≡ overwritten list.old at octets.now }
{
    list[at..at + octets.len()].copy_from_slice(octets);
}

/// Takes a list out of its slot, which is then empty.
pub fn take_list(alloc: Global, staged: &mut Vec<Vec<u8>>, slot: usize) -> Vec<u8>
    requires { slot < vec_len staged.old }
    ensures list { result.items ≡ slice_index_or (vector_octets staged.old.items) slot [] }
    ensures emptied { vector_octets staged.new.items ≡ slice_set (vector_octets staged.old.items) slot [] }
    ensures slots { length staged.new.items ≡ length staged.old.items }
{
    mem::replace(&mut staged[slot], Vec::new(alloc))
}
