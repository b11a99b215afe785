//! Joins two orders and a node between them, and balances the tree.
ghost use Rattle.std.specs.Prelude.{◌≡◌, ◌+◌, ◌<◌, ◌≤◌, max, [], ◌∷◌, ◌++◌, length};
ghost use Rattle.cfdp_order.specs.Orders.{links_at, nodes, AreNear, IsOrder, OtherLinksStay};
ghost use Rattle.cfdp_order.specs.code.Orders.{CanJoin};

use crate::links::{Links, Order};

/// Joins two orders whose heights differ by at most one, and the node between them. In constant time.
pub(crate) fn join(links: &mut [Links], left: Order, node: u16, right: Order) -> Order
    requires parts { CanJoin links.old left node right }
    requires small { length links.old ≤ 65536 }
    requires near { AreNear left.height right.height }
    ensures order { IsOrder links.new result }
    ensures nodes { nodes links.new result ≡ nodes links.old left ++ node ∷ nodes links.old right }
    ensures height { result.height ≡ max left.height right.height + 1 }
    ensures others { OtherLinksStay links.old links.new (node ∷ []) }
{
    links[usize::from(node)] = Links::to(left, right);
    Order {
        root: node,
        height: left.height.max(right.height) + 1,
    }
}

/// Joins two orders whose heights differ by at most two, and the node between them. In constant time.
pub(crate) fn balance(links: &mut [Links], left: Order, node: u16, right: Order) -> Order
    requires parts { CanJoin links.old left node right }
    requires small { length links.old ≤ 65536 }
    requires left { left.height ≤ right.height + 2 }
    requires right { right.height ≤ left.height + 2 }
    ensures order { IsOrder links.new result }
    ensures nodes { nodes links.new result ≡ nodes links.old left ++ node ∷ nodes links.old right }
    ensures near { AreNear left.height right.height → result.height ≡ max left.height right.height + 1 }
    ensures least { max left.height right.height ≤ result.height }
    ensures most { result.height ≤ max left.height right.height + 1 }
    ensures others { OtherLinksStay links.old links.new (nodes links.old left ++ node ∷ nodes links.old right) }
{
    if right.height + 1 < left.height {
        turn_right(links, left, node, right)
    } else if left.height + 1 < right.height {
        turn_left(links, left, node, right)
    } else {
        join(links, left, node, right)
    }
}

/// Joins two orders and the node between them, where the left one is higher by two: the node at its top comes to the
/// top. In constant time.
fn turn_right(links: &mut [Links], left: Order, node: u16, right: Order) -> Order
    requires parts { CanJoin links.old left node right }
    requires small { length links.old ≤ 65536 }
    requires high { left.height ≡ right.height + 2 }
    ensures order { IsOrder links.new result }
    ensures nodes { nodes links.new result ≡ nodes links.old left ++ node ∷ nodes links.old right }
    ensures least { left.height ≤ result.height }
    ensures most { result.height ≤ left.height + 1 }
    ensures others { OtherLinksStay links.old links.new (nodes links.old left ++ node ∷ nodes links.old right) }
{
    let top = links[usize::from(left.root)];
    if top.left_height < top.right_height {
        return turn_right_twice(links, left, node, right);
    }
    let after = join(links, top.right(), node, right);
    join(links, top.left(), left.root, after)
}

/// Like `turn_right`, where the left order is higher to its right: the node at the top there comes to the top. In
/// constant time.
fn turn_right_twice(links: &mut [Links], left: Order, node: u16, right: Order) -> Order
    requires parts { CanJoin links.old left node right }
    requires small { length links.old ≤ 65536 }
    requires high { left.height ≡ right.height + 2 }
    requires inner { (links_at links.old left.root).left_height < (links_at links.old left.root).right_height }
    ensures order { IsOrder links.new result }
    ensures nodes { nodes links.new result ≡ nodes links.old left ++ node ∷ nodes links.old right }
    ensures height { result.height ≡ left.height }
    ensures others { OtherLinksStay links.old links.new (nodes links.old left ++ node ∷ nodes links.old right) }
{
    let top = links[usize::from(left.root)];
    let middle = links[usize::from(top.right)];
    let before = join(links, top.left(), left.root, middle.left());
    let after = join(links, middle.right(), node, right);
    join(links, before, top.right, after)
}

/// Joins two orders and the node between them, where the right one is higher by two: the node at its top comes to the
/// top. In constant time.
fn turn_left(links: &mut [Links], left: Order, node: u16, right: Order) -> Order
    requires parts { CanJoin links.old left node right }
    requires small { length links.old ≤ 65536 }
    requires high { right.height ≡ left.height + 2 }
    ensures order { IsOrder links.new result }
    ensures nodes { nodes links.new result ≡ nodes links.old left ++ node ∷ nodes links.old right }
    ensures least { right.height ≤ result.height }
    ensures most { result.height ≤ right.height + 1 }
    ensures others { OtherLinksStay links.old links.new (nodes links.old left ++ node ∷ nodes links.old right) }
{
    let top = links[usize::from(right.root)];
    if top.right_height < top.left_height {
        return turn_left_twice(links, left, node, right);
    }
    let before = join(links, left, node, top.left());
    join(links, before, right.root, top.right())
}

/// Like `turn_left`, where the right order is higher to its left: the node at the top there comes to the top. In
/// constant time.
fn turn_left_twice(links: &mut [Links], left: Order, node: u16, right: Order) -> Order
    requires parts { CanJoin links.old left node right }
    requires small { length links.old ≤ 65536 }
    requires high { right.height ≡ left.height + 2 }
    requires inner { (links_at links.old right.root).right_height < (links_at links.old right.root).left_height }
    ensures order { IsOrder links.new result }
    ensures nodes { nodes links.new result ≡ nodes links.old left ++ node ∷ nodes links.old right }
    ensures height { result.height ≡ right.height }
    ensures others { OtherLinksStay links.old links.new (nodes links.old left ++ node ∷ nodes links.old right) }
{
    let top = links[usize::from(right.root)];
    let middle = links[usize::from(top.left)];
    let before = join(links, left, node, middle.left());
    let after = join(links, middle.right(), right.root, top.right());
    join(links, before, top.left, after)
}
