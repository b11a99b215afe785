//! Nodes with keys that rise, that fall or that are mixed, in one order and in two: how they are listed, and how many
//! nodes a call compares, by counts.

ghost use Rattle.std.specs.Prelude.{◌≡◌, ◌+◌, ◌<◌, ◌≤◌, IfOk, length, slice_index};
ghost use Rattle.std.specs.Ordering.{nat_cmp};
ghost use Rattle.cfdp_order.specs.Orders.{IsOrder};

use crate::{Links, Order, Sought, first, first_after, first_from, insert, remove};
use std::alloc::{AllocError, Global};
use std::cell::Cell;
use std::cmp::Ordering;
use std::process::Abort;

/// A key that is sought among those of the nodes, and a count of the nodes that were compared with it.
#[derive(Drop)]
struct OrderKey<'a> {
    keys: &'a [u32],
    key: u32,
    compared: Cell<u32>,
}

impl Sought for OrderKey<'_> {
    ghost can_compare = { λ sought node. node < length sought.keys.now };

    ghost side = { λ sought node. nat_cmp (slice_index sought.keys.now node) sought.key };

    fn compare(&self, node: u16) -> Ordering {
        self.compared.set(self.compared.get().saturating_add(1));
        self.keys[usize::from(node)].cmp(&self.key)
    }
}

/// A key among those of the nodes, which nothing was compared with yet.
fn sought_key(keys: &[u32], key: u32) -> OrderKey<'_>
    ensures keys { result.keys.now ≡ keys.now }
    ensures key { result.key ≡ key }
{
    OrderKey {
        keys,
        key,
        compared: Cell::new(0),
    }
}

/// How the keys of nodes follow one another.
#[derive(Clone, Copy)]
enum Sequence {
    Rising,
    Falling,
    Mixed,
}

/// The keys of at most 65,536 nodes, no two of them equal.
fn keys_of(alloc: Global, sequence: Sequence, count: u32) -> Result<Vec<u32>, AllocError>
    requires { count ≤ 65536 }
    ensures { IfOk result (λ keys. length keys.items ≡ count) }
{
    let mut keys = Vec::new(alloc);
    for node in 0..count {
        keys.push(match sequence {
            Sequence::Rising => node,
            Sequence::Falling => 65_536 - node,
            Sequence::Mixed => node * 1_237 % 65_537,
        })?;
    }
    Ok(keys)
}

/// An order of nodes by their keys, and the most nodes that a call compared.
#[derive(Drop)]
struct Made {
    links: Vec<Links>,
    order: Order,
    most: u32,
}

/// Inserts one node for each key.
fn order_of(alloc: Global, keys: &[u32]) -> Result<Made, AllocError>
    requires { length keys.now ≤ 65536 }
    ensures { IfOk result (λ made. IsOrder made.links.items made.order × (length made.links.items ≡ length keys.now)) }
{
    let mut links = Vec::new(alloc);
    links.resize(keys.len(), Links::none())?;
    let mut order = Order::empty();
    let mut most = 0;
    for node in 0..keys.len() {
        let sought = sought_key(keys, keys[node]);
        order = insert(&mut links, order, node as u16, &sought);
        most = most.max(sought.compared.get());
    }
    Ok(Made { links, order, most })
}

/// Removes those nodes whose numbers 3 does not divide.
fn remove_most(made: &mut Made, keys: &[u32])
    requires order { IsOrder made.old.links.items made.old.order }
    requires long { length made.old.links.items ≡ length keys.now }
    requires small { length keys.now ≤ 65536 }
    ensures order { IsOrder made.new.links.items made.new.order }
    ensures long { length made.new.links.items ≡ length keys.now }
{
    made.most = 0;
    for node in 0..keys.len() {
        if node % 3 != 0 {
            let sought = sought_key(keys, keys[node]);
            made.order = remove(&mut made.links, made.order, node as u16, &sought);
            made.most = made.most.max(sought.compared.get());
        }
    }
}

/// The keys of the nodes of an order, one after the other.
fn listed(
    alloc: Global,
    links: &[Links],
    order: Order,
    keys: &[u32],
) -> Result<Vec<u32>, AllocError>
    requires order { IsOrder links.now order }
    requires long { length links.now ≡ length keys.now }
    requires small { length keys.now ≤ 65536 }
{
    let mut list = Vec::new(alloc);
    let mut next = first(links, order);
    for _step in 0..keys.len() {
        if let Some(key) = key_of(keys, next) {
            list.push(key)?;
            next = first_after(links, order, &sought_key(keys, key));
        }
    }
    Ok(list)
}

/// The key of a node, if there is one.
fn key_of(keys: &[u32], node: Option<u16>) -> Option<u32> {
    let node = node?;
    keys.get(usize::from(node)).copied()
}

/// Nodes, and the most levels of an order of as many.
struct Row {
    name: &'static str,
    sequence: Sequence,
    count: u32,
    levels: u8,
}

static ROWS: [Row; 9] = [
    Row {
        name: "one",
        sequence: Sequence::Rising,
        count: 1,
        levels: 1,
    },
    Row {
        name: "two",
        sequence: Sequence::Rising,
        count: 2,
        levels: 2,
    },
    Row {
        name: "three, rising",
        sequence: Sequence::Rising,
        count: 3,
        levels: 2,
    },
    Row {
        name: "three, falling",
        sequence: Sequence::Falling,
        count: 3,
        levels: 2,
    },
    Row {
        name: "mixed",
        sequence: Sequence::Mixed,
        count: 100,
        levels: 9,
    },
    Row {
        name: "many, rising",
        sequence: Sequence::Rising,
        count: 2_000,
        levels: 15,
    },
    Row {
        name: "many, falling",
        sequence: Sequence::Falling,
        count: 2_000,
        levels: 15,
    },
    Row {
        name: "many, mixed",
        sequence: Sequence::Mixed,
        count: 2_000,
        levels: 15,
    },
    Row {
        name: "the most, mixed",
        sequence: Sequence::Mixed,
        count: 65_536,
        levels: 22,
    },
];

#[test]
fn all_in_order(rt: HostRuntime) -> Result<(), AllocError> {
    for row in &ROWS {
        let keys = keys_of(rt.alloc(), row.sequence, row.count.min(65_536))?;
        let made = order_of(rt.alloc(), &keys)?;
        assert!(&rt;
            made.order.height <= row.levels,
            "{}: {} levels",
            row.name,
            made.order.height
        );
        assert!(&rt;
            made.most <= u32::from(row.levels),
            "{}: {} comparisons",
            row.name,
            made.most
        );
        let list = listed(rt.alloc(), &made.links, made.order, &keys)?;
        let mut sorted = keys.clone()?;
        sorted.sort()?;
        assert_eq!(&rt; list.as_slice(), sorted.as_slice(), "{}", row.name);
    }
    Ok(())
}

#[test]
fn the_rest_in_order(rt: HostRuntime) -> Result<(), AllocError> {
    for row in &ROWS {
        let keys = keys_of(rt.alloc(), row.sequence, row.count.min(65_536))?;
        let mut made = order_of(rt.alloc(), &keys)?;
        remove_most(&mut made, &keys);
        assert!(&rt;
            made.most <= u32::from(row.levels),
            "{}: {} comparisons",
            row.name,
            made.most
        );
        let list = listed(rt.alloc(), &made.links, made.order, &keys)?;
        let sorted = sorted_part(rt.alloc(), &keys, 3, 0)?;
        assert_eq!(&rt; list.as_slice(), sorted.as_slice(), "{}", row.name);
    }
    Ok(())
}

/// The keys of those nodes whose numbers leave a rest, sorted.
fn sorted_part(
    alloc: Global,
    keys: &[u32],
    divisor: usize,
    rest: usize,
) -> Result<Vec<u32>, AllocError>
    requires { 0 < divisor }
{
    let mut sorted = Vec::new(alloc);
    for node in 0..keys.len() {
        if node % divisor == rest {
            sorted.push(keys[node])?;
        }
    }
    sorted.sort()?;
    Ok(sorted)
}

/// Two orders in one array: the nodes of even and of odd numbers.
#[derive(Drop)]
struct Pair {
    links: Vec<Links>,
    even: Order,
    odd: Order,
}

/// Inserts one node for each key into the order of its number.
fn pair_of(alloc: Global, keys: &[u32]) -> Result<Pair, AllocError>
    requires { length keys.now ≤ 65536 }
    ensures { IfOk result (λ pair. IsOrder pair.links.items pair.even × IsOrder pair.links.items pair.odd
        × (length pair.links.items ≡ length keys.now)) }
{
    let mut links = Vec::new(alloc);
    links.resize(keys.len(), Links::none())?;
    let mut even = Order::empty();
    let mut odd = Order::empty();
    for node in 0..keys.len() {
        let sought = sought_key(keys, keys[node]);
        if node % 2 == 0 {
            even = insert(&mut links, even, node as u16, &sought);
        } else {
            odd = insert(&mut links, odd, node as u16, &sought);
        }
    }
    Ok(Pair { links, even, odd })
}

#[test]
fn two_in_one_array(rt: HostRuntime) -> Result<(), AllocError> {
    for row in &ROWS {
        let keys = keys_of(rt.alloc(), row.sequence, row.count.min(65_536))?;
        let pair = pair_of(rt.alloc(), &keys)?;
        let even = listed(rt.alloc(), &pair.links, pair.even, &keys)?;
        assert_eq!(&rt;
            even.as_slice(),
            sorted_part(rt.alloc(), &keys, 2, 0)?.as_slice(),
            "{}",
            row.name
        );
        let odd = listed(rt.alloc(), &pair.links, pair.odd, &keys)?;
        assert_eq!(&rt;
            odd.as_slice(),
            sorted_part(rt.alloc(), &keys, 2, 1)?.as_slice(),
            "{}",
            row.name
        );
    }
    Ok(())
}

/// Keys that are sought among 0, 10, 20, and so on up to 90, and what comes from there on, and after it.
struct Search {
    name: &'static str,
    key: u32,
    from: Option<u16>,
    after: Option<u16>,
}

static SEARCHES: [Search; 5] = [
    Search {
        name: "the first one",
        key: 0,
        from: Some(0),
        after: Some(1),
    },
    Search {
        name: "one in the middle",
        key: 40,
        from: Some(4),
        after: Some(5),
    },
    Search {
        name: "between two",
        key: 41,
        from: Some(5),
        after: Some(5),
    },
    Search {
        name: "the last one",
        key: 90,
        from: Some(9),
        after: None,
    },
    Search {
        name: "after the last one",
        key: 91,
        from: None,
        after: None,
    },
];

/// The first node at a key or after it, and the first one after it.
fn found_at(made: &Made, keys: &[u32], key: u32) -> (Option<u16>, Option<u16>)
    requires order { IsOrder made.now.links.items made.now.order }
    requires long { length made.now.links.items ≡ length keys.now }
    requires small { length keys.now ≤ 65536 }
{
    let sought = sought_key(keys, key);
    let from = first_from(&made.links, made.order, &sought);
    let after = first_after(&made.links, made.order, &sought);
    (from, after)
}

#[test]
fn searches(rt: HostRuntime) -> Result<(), AllocError> {
    let keys = [0, 10, 20, 30, 40, 50, 60, 70, 80, 90];
    let made = order_of(rt.alloc(), &keys)?;
    for search in &SEARCHES {
        let (from, after) = found_at(&made, &keys, search.key);
        assert_eq!(&rt; from, search.from, "{}", search.name);
        assert_eq!(&rt; after, search.after, "{}", search.name);
    }
    Ok(())
}
