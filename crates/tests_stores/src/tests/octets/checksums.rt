//! Worked sums.

use super::{Row, all_hold};
use cfdp_checksum::*;
use std::alloc::{AllocError, Global};

/// Octets and their sum.
type Sum = (&'static [u8], u32);

static SUMS: [(&str, Sum); 5] = [
    (
        "fifteen octets",
        (
            &[0, 1, 2, 3, 4, 5, 6, 7, 8, 9, 10, 11, 12, 13, 14],
            0x181c_2015,
        ),
    ),
    ("no octets", (&[], 0)),
    (
        "as many ones as a block has octets",
        (&[1; 120], 0x1e1e_1e1e),
    ),
    ("one fewer", (&[1; 119], 0x1e1e_1e1d)),
    (
        "the greatest octets: the sum begins again at 2^32",
        (&[255; 8], 0xffff_fffe),
    ),
];

/// An offset, octets that begin there, and what they add to the checksum of a file.
type Added = (usize, &'static [u8], u32);

static ADDED: [(&str, Added); 12] = [
    (
        "the words 01020304 and 05",
        (0, &[1, 2, 3, 4, 5], 0x0602_0304),
    ),
    (
        "one octet on in its word: ..010203 and 0405",
        (1, &[1, 2, 3, 4, 5], 0x0406_0203),
    ),
    (
        "two on: ..0102 and 030405",
        (2, &[1, 2, 3, 4, 5], 0x0304_0602),
    ),
    (
        "three on: ..01 and 02030405",
        (3, &[1, 2, 3, 4, 5], 0x0203_0406),
    ),
    ("the next word", (4, &[1, 2, 3, 4, 5], 0x0602_0304)),
    (
        "a word far after it",
        (7_864_317, &[1, 2, 3, 4, 5], 0x0406_0203),
    ),
    ("one octet within a word", (5, &[255], 0x00ff_0000)),
    ("up to the end of a word", (5, &[1, 2, 3], 0x0001_0203)),
    ("not up to the end of a word", (6, &[9], 0x0000_0900)),
    ("no octets", (3, &[], 0)),
    (
        "the greatest octets: the sum begins again at 2^32",
        (3, &[255; 5], 0x0000_00fe),
    ),
    (
        "119 ones, from the second octet of a word on",
        (1, &[1; 119], 0x1d1e_1e1e),
    ),
];

impl Row for Sum {
    fn holds(&self, _: Global) -> Result<bool, AllocError> {
        Ok(modular_checksum(self.0) == self.1)
    }
}

impl Row for Added {
    fn holds(&self, _: Global) -> Result<bool, AllocError> {
        Ok(modular_checksum_at(self.0, self.1) == self.2)
    }
}

#[test]
fn sums(rt: HostRuntime) {
    all_hold(&rt, rt.alloc(), &SUMS);
}

#[test]
fn sums_at_offsets(rt: HostRuntime) {
    all_hold(&rt, rt.alloc(), &ADDED);
}
