//! Octets from payload to payload.
ghost use Rattle.std.specs.Prelude.{◌≡◌, ◌≢◌, ◌+◌, ◌<◌, ◌≤◌, [], length, slice_index_or, slice_set};
ghost use Rattle.cfdp_arena.specs.Blocks.{copied};

use crate::Block;

/// The octets of a block before its payload.
const LINK_OCTETS: usize = 8;

/// Copies octets from the payload of one block to that of another block of the same region. `split_at_mut` lends the
/// two blocks at the same time, so that no buffer is needed.
pub(crate) fn copy_between(
    blocks: &mut [Block],
    from: usize,
    from_at: usize,
    to: usize,
    to_at: usize,
    len: usize,
)
    requires from { from < length blocks.old }
    requires to { to < length blocks.old }
    requires apart { from ≢ to }
    requires from_within { from_at + len ≤ 120 }
    requires to_within { to_at + len ≤ 120 }
    ensures { blocks.new ≡ slice_set blocks.old to
        (copied (slice_index_or blocks.old from []) from_at (slice_index_or blocks.old to []) to_at len) }
{
    let (front, back) = blocks.split_at_mut(from.max(to));
    if from < to {
        copy_part(&front[from], from_at, &mut back[0], to_at, len);
    } else {
        copy_part(&back[0], from_at, &mut front[to], to_at, len);
    }
}

/// Copies octets from the payload of one block to that of another.
fn copy_part(source: &Block, from_at: usize, target: &mut Block, to_at: usize, len: usize)
    requires from_within { from_at + len ≤ 120 }
    requires to_within { to_at + len ≤ 120 }
    ensures { target.new ≡ copied source.now from_at target.old to_at len }
{
    let start = LINK_OCTETS + from_at;
    let octets = &source[start..start + len];
    let start = LINK_OCTETS + to_at;
    target[start..start + len].copy_from_slice(octets);
}

/// Copies octets of a block's payload to another offset in it. The two ranges may overlap.
pub(crate) fn copy_within(block: &mut Block, from_at: usize, to_at: usize, len: usize)
    requires from_within { from_at + len ≤ 120 }
    requires to_within { to_at + len ≤ 120 }
    ensures { block.new ≡ copied block.old from_at block.old to_at len }
{
    let start = LINK_OCTETS + from_at;
    block.copy_within(start..start + len, LINK_OCTETS + to_at);
}
