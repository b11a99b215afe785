//! Comparisons of octets beside those of slices, of all lengths up to twice sixteen octets and one more.

use crate::octet_order::{is_same, order};

/// The most octets.
const MOST: usize = 33;

/// Octets that rise, of which the one at the index, if it is there, is another one.
fn with_other(index: usize, other: u8) -> [u8; MOST] {
    let mut octets = [0; MOST];
    for (offset, octet) in octets.iter_mut().enumerate() {
        *octet = if offset == index {
            other
        } else {
            100 + offset as u8
        };
    }
    octets
}

/// Both compare as slices do, in both directions.
#[test]
fn like_slices(rt: HostRuntime) {
    let rising = with_other(MOST, 0);
    for index in 0..MOST + 1 {
        for other in [0, 99, 255] {
            let octets = with_other(index, other);
            for len in 0..MOST + 1 {
                for other_len in 0..MOST + 1 {
                    let (a, b) = (&rising[..len], &octets[..other_len]);
                    assert_eq!(rt;
                        order(a, b),
                        a.cmp(b),
                        "{len} octets to {other_len}, {other} at {index}"
                    );
                    assert_eq!(rt;
                        order(b, a),
                        b.cmp(a),
                        "{other_len} octets, {other} at {index}, to {len}"
                    );
                    assert_eq!(rt;
                        is_same(a, b),
                        a == b,
                        "{len} octets and {other_len}, {other} at {index}"
                    );
                }
            }
        }
    }
}
