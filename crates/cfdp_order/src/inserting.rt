//! Inserts a node.
ghost use Rattle.std.specs.Prelude.{◌≡◌, ℕ, ◌+◌, ◌<◌, ◌≤◌, List, ◌∷◌, ◌++◌, length, All};
ghost use Rattle.cfdp_order.specs.Orders.{nodes, times_in, IsOrder, OtherLinksStay, SplitsFrom};

use crate::balancing::{balance, join};
use crate::links::{Links, Order};
use crate::sought::Sought;
use std::cmp::Ordering;

/// Inserts a node into an order, where it comes after the nodes that come before what is sought, and before the rest.
/// The node is in no order yet, and its index is within the array.
///
/// Returns the new order; the old one means nothing then. By at most as many comparisons as the old order has levels,
/// each in a call within the one before it.
pub fn insert<S: Sought>(links: &mut [Links], order: Order, node: u16, sought: &S) -> Order
    requires order { IsOrder links.old order }
    requires within { node < length links.old }
    requires fresh { times_in node (nodes links.old order) ≡ 0 }
    requires small { length links.old ≤ 65536 }
    requires known { All (S.can_compare sought.now) (nodes links.old order) }
    ensures order { IsOrder links.new result }
    ensures inserted { (before after : List ℕ) → nodes links.old order ≡ before ++ after
        → SplitsFrom (S.side sought.now) before after → nodes links.new result ≡ before ++ node ∷ after }
    ensures one_more { (other : ℕ) → times_in other (nodes links.new result) ≡ times_in other
        (node ∷ nodes links.old order) }
    ensures least { order.height ≤ result.height }
    ensures most { result.height ≤ order.height + 1 }
    ensures others { OtherLinksStay links.old links.new (node ∷ nodes links.old order) }
{
    if order.is_empty() {
        return join(links, Order::empty(), node, Order::empty());
    }
    let around = links[usize::from(order.root)];
    match sought.compare(order.root) {
        Ordering::Less => {
            let right = insert(links, around.right(), node, sought);
            balance(links, around.left(), order.root, right)
        }
        Ordering::Equal | Ordering::Greater => {
            let left = insert(links, around.left(), node, sought);
            balance(links, left, order.root, around.right())
        }
    }
}
