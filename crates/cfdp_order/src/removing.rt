//! Removes a node.
ghost use Rattle.std.specs.Prelude.{◌≡◌, ℕ, ◌+◌, ◌<◌, ◌≤◌, max, List, ◌∷◌, ◌++◌, length, All};
ghost use Rattle.cfdp_order.specs.Orders.{nodes, times_in, AreNear, IsOrder, OtherLinksStay, SplitsFrom};

use crate::balancing::balance;
use crate::links::{Links, Order};
use crate::sought::Sought;
use std::cmp::Ordering;

/// A node that was taken from the front of an order, and the order of the rest.
#[derive(Clone, Copy)]
struct Front {
    node: u16,
    rest: Order,
}

/// Removes a node from an order. In the order, the nodes before it come before what is sought, and the nodes after it
/// do not. An order without the node keeps its nodes.
///
/// Returns the new order; the old one means nothing then. By at most as many comparisons as the old order has levels,
/// each in a call within the one before it.
pub fn remove<S: Sought>(links: &mut [Links], order: Order, node: u16, sought: &S) -> Order
    requires order { IsOrder links.old order }
    requires small { length links.old ≤ 65536 }
    requires known { All (S.can_compare sought.now) (nodes links.old order) }
    ensures order { IsOrder links.new result }
    ensures removed { (before after : List ℕ) → nodes links.old order ≡ before ++ node ∷ after
        → SplitsFrom (S.side sought.now) before after → nodes links.new result ≡ before ++ after }
    ensures absent { times_in node (nodes links.old order) ≡ 0 → nodes links.new result ≡ nodes links.old order }
    ensures fewer { (other : ℕ) → times_in other (nodes links.new result) ≤ times_in other (nodes links.old order) }
    ensures least { order.height ≤ result.height + 1 }
    ensures most { result.height ≤ order.height }
    ensures others { OtherLinksStay links.old links.new (nodes links.old order) }
{
    if order.is_empty() {
        return order;
    }
    let around = links[usize::from(order.root)];
    if order.root == node {
        return merge(links, around.left(), around.right());
    }
    match sought.compare(order.root) {
        Ordering::Less => {
            let right = remove(links, around.right(), node, sought);
            balance(links, around.left(), order.root, right)
        }
        Ordering::Equal | Ordering::Greater => {
            let left = remove(links, around.left(), node, sought);
            balance(links, left, order.root, around.right())
        }
    }
}

/// Joins two orders whose heights differ by at most one. In time linear in the levels.
fn merge(links: &mut [Links], left: Order, right: Order) -> Order
    requires left { IsOrder links.old left }
    requires right { IsOrder links.old right }
    requires once { (other : ℕ) → times_in other (nodes links.old left ++ nodes links.old right) ≤ 1 }
    requires near { AreNear left.height right.height }
    requires small { length links.old ≤ 65536 }
    ensures order { IsOrder links.new result }
    ensures nodes { nodes links.new result ≡ nodes links.old left ++ nodes links.old right }
    ensures least { max left.height right.height ≤ result.height }
    ensures most { result.height ≤ max left.height right.height + 1 }
    ensures others { OtherLinksStay links.old links.new (nodes links.old left ++ nodes links.old right) }
{
    if right.is_empty() {
        return left;
    }
    let front = take_first(links, right);
    balance(links, left, front.node, front.rest)
}

/// Takes the first node from an order that has one. By at most as many calls within one another as the order has
/// levels.
fn take_first(links: &mut [Links], order: Order) -> Front
    requires order { IsOrder links.old order }
    requires some { 0 < order.height }
    requires small { length links.old ≤ 65536 }
    ensures order { IsOrder links.new result.rest }
    ensures nodes { nodes links.old order ≡ result.node ∷ nodes links.new result.rest }
    ensures least { order.height ≤ result.rest.height + 1 }
    ensures most { result.rest.height ≤ order.height }
    ensures others { OtherLinksStay links.old links.new (nodes links.old order) }
{
    let around = links[usize::from(order.root)];
    if around.left().is_empty() {
        return Front {
            node: order.root,
            rest: around.right(),
        };
    }
    let front = take_first(links, around.left());
    Front {
        node: front.node,
        rest: balance(links, front.rest, order.root, around.right()),
    }
}
