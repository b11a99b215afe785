//! The searches for a separator beside those of `memchr`, on octets of all lengths up to a few vectors.

use crate::buffers::SEPARATOR;
use crate::scan::{first_separator, last_separator};
use memchr::{memchr, memrchr};

/// The most octets: more than two vectors have.
const MOST: usize = 40;

/// Octets with a separator at one index and at another.
fn with_separators(first: usize, second: usize) -> [u8; MOST] {
    let mut octets = [b'x'; MOST];
    for (offset, octet) in octets.iter_mut().enumerate() {
        if offset == first || offset == second {
            *octet = SEPARATOR;
        }
    }
    octets
}

/// Separators at each two indices. Those after the end of the octets leave one or none.
#[test]
fn like_memchr(rt: HostRuntime) {
    for first in 0..MOST {
        for second in first..MOST {
            let octets = with_separators(first, second);
            for len in 0..MOST + 1 {
                let front = &octets[..len];
                assert_eq!(rt;
                    first_separator(front),
                    memchr(SEPARATOR, front),
                    "the first, at {first} and {second} of {len}"
                );
                assert_eq!(rt;
                    last_separator(front),
                    memrchr(SEPARATOR, front),
                    "the last, at {first} and {second} of {len}"
                );
            }
        }
    }
}
