//! Orders in which the pieces of a file are sent.

ghost use Rattle.std.specs.Prelude.{◌≡◌, ◌<◌, IfOk, map, reverse};
ghost use Rattle.std.specs.List.{range_with_len};
ghost use Rattle.cfdp_uploads.specs.Orders.{neighbour};

use std::alloc::{AllocError, Global};

/// The indices from the first piece to the last, of `count` pieces.
///
/// # Errors
///
/// [`AllocError`] when out of memory. Cost: one allocation, and one pass over the indices.
pub fn in_order(alloc: Global, count: usize) -> Result<Vec<usize>, AllocError>
    ensures { IfOk result (λ order. order.items ≡ range_with_len 0 count) }
{
    let mut order = Vec::with_capacity(alloc, count)?;
    for index in 0..count {
        order.push(index)?;
    }
    Ok(order)
}

/// The indices from the last piece to the first, of `count` pieces.
///
/// # Errors
///
/// [`AllocError`] when out of memory. Cost: one allocation, and two passes over the indices.
pub fn reversed(alloc: Global, count: usize) -> Result<Vec<usize>, AllocError>
    ensures { IfOk result (λ order. order.items ≡ reverse (range_with_len 0 count)) }
{
    let mut order = in_order(alloc, count)?;
    order.reverse();
    Ok(order)
}

/// The piece whose turn the piece with an index gets: its neighbour, if it has one.
fn neighbour(count: usize, index: usize) -> usize
    requires { index < count }
    ensures { result ≡ neighbour count index }
{
    if index % 2 == 1 {
        index - 1
    } else if index + 1 < count {
        index + 1
    } else {
        index
    }
}

/// The indices of `count` pieces, of each two the second one first: 1, 0, 3, 2 and so on. Of an odd number of pieces
/// the last one stays the last.
///
/// # Errors
///
/// [`AllocError`] when out of memory. Cost: one pass over the indices, and the allocations of a list that grows to
/// `count`.
pub fn swapped(alloc: Global, count: usize) -> Result<Vec<usize>, AllocError>
    ensures { IfOk result (λ order. order.items ≡ map (neighbour count) (range_with_len 0 count)) }
{
    (0..count)
        .map(|index| neighbour(count, index))
        .collect(alloc)
}
