//! Finds a node.
ghost use Rattle.std.specs.Prelude.{◌≡◌, ℕ, ◌≤◌, List, ◌++◌, length, slice_get, All};
ghost use Rattle.cfdp_order.specs.Orders.{nodes, IsOrder, SplitsFrom, SplitsAfter};

use crate::links::{Links, Order};
use crate::sought::Sought;
use std::cmp::Ordering;

/// The first node of an order; `None` of an empty one. In time linear in the levels.
pub fn first(links: &[Links], order: Order) -> Option<u16>
    requires order { IsOrder links.now order }
    requires small { length links.now ≤ 65536 }
    ensures { result ≡ slice_get (nodes links.now order) 0 }
{
    let mut found = None;
    let mut part = order;
    while !part.is_empty() {
        found = Some(part.root);
        part = links[usize::from(part.root)].left();
    }
    found
}

/// The first node of an order that does not come before what is sought; `None` if each does. By at most as many
/// comparisons as the order has levels.
pub fn first_from<S: Sought>(links: &[Links], order: Order, sought: &S) -> Option<u16>
    requires order { IsOrder links.now order }
    requires small { length links.now ≤ 65536 }
    requires known { All (S.can_compare sought.now) (nodes links.now order) }
    ensures { (before after : List ℕ) → nodes links.now order ≡ before ++ after
        → SplitsFrom (S.side sought.now) before after → result ≡ slice_get after 0 }
{
    let mut found = None;
    let mut part = order;
    while !part.is_empty() {
        let around = links[usize::from(part.root)];
        match sought.compare(part.root) {
            Ordering::Less => part = around.right(),
            Ordering::Equal | Ordering::Greater => {
                found = Some(part.root);
                part = around.left();
            }
        }
    }
    found
}

/// The first node of an order that comes after what is sought; `None` if none does. By at most as many comparisons as
/// the order has levels.
pub fn first_after<S: Sought>(links: &[Links], order: Order, sought: &S) -> Option<u16>
    requires order { IsOrder links.now order }
    requires small { length links.now ≤ 65536 }
    requires known { All (S.can_compare sought.now) (nodes links.now order) }
    ensures { (before after : List ℕ) → nodes links.now order ≡ before ++ after
        → SplitsAfter (S.side sought.now) before after → result ≡ slice_get after 0 }
{
    let mut next = None;
    let mut part = order;
    while !part.is_empty() {
        let around = links[usize::from(part.root)];
        match sought.compare(part.root) {
            Ordering::Less | Ordering::Equal => part = around.right(),
            Ordering::Greater => {
                next = Some(part.root);
                part = around.left();
            }
        }
    }
    next
}
