//! More names of one hash than the index of the store inside an arena has in a list: they are found, listed, removed
//! and renamed like others. `worked` runs these scripts.

use super::calls::StoreCall;
use super::steps::{Existing, NamedSteps, Shown, Step, performs, puts, shows_octets, takes};
use cfdp_actions::Kind;
use std::hash::{FoldHasher, Hasher};

// The hash of 16 octets is a product. One factor is the last eight octets, less a constant of the hasher bit by bit.
// For these it is 0, so that all these names have the hash 0, in whatever directory.
const A: &[u8] = b"aaaaaaaa\x15\x7c\x4a\x7f\xb9\x79\x37\x9e";

const B: &[u8] = b"bbbbbbbb\x15\x7c\x4a\x7f\xb9\x79\x37\x9e";

const C: &[u8] = b"cccccccc\x15\x7c\x4a\x7f\xb9\x79\x37\x9e";

const D: &[u8] = b"dddddddd\x15\x7c\x4a\x7f\xb9\x79\x37\x9e";

const E: &[u8] = b"eeeeeeee\x15\x7c\x4a\x7f\xb9\x79\x37\x9e";

const F: &[u8] = b"ffffffff\x15\x7c\x4a\x7f\xb9\x79\x37\x9e";

const G: &[u8] = b"gggggggg\x15\x7c\x4a\x7f\xb9\x79\x37\x9e";

const H: &[u8] = b"hhhhhhhh\x15\x7c\x4a\x7f\xb9\x79\x37\x9e";

const I: &[u8] = b"iiiiiiii\x15\x7c\x4a\x7f\xb9\x79\x37\x9e";

const J: &[u8] = b"jjjjjjjj\x15\x7c\x4a\x7f\xb9\x79\x37\x9e";

const K: &[u8] = b"kkkkkkkk\x15\x7c\x4a\x7f\xb9\x79\x37\x9e";

/// Three of these names below `d`.
const BELOW_A: &[u8] = b"d/aaaaaaaa\x15\x7c\x4a\x7f\xb9\x79\x37\x9e";

const BELOW_B: &[u8] = b"d/bbbbbbbb\x15\x7c\x4a\x7f\xb9\x79\x37\x9e";

const BELOW_K: &[u8] = b"d/kkkkkkkk\x15\x7c\x4a\x7f\xb9\x79\x37\x9e";

/// The name `A` below the directory `K`.
const IN_K: &[u8] =
    b"kkkkkkkk\x15\x7c\x4a\x7f\xb9\x79\x37\x9e/aaaaaaaa\x15\x7c\x4a\x7f\xb9\x79\x37\x9e";

/// Ten files: the list of their head has eight of them.
const CREATES: &[Step<'static>] = &[
    performs!(CreateFile, A => status 0x00, ticks 1, free 63),
    performs!(CreateFile, B => status 0x00, ticks 1, free 62),
    performs!(CreateFile, C => status 0x00, ticks 1, free 61),
    performs!(CreateFile, D => status 0x00, ticks 1, free 60),
    performs!(CreateFile, E => status 0x00, ticks 1, free 59),
    performs!(CreateFile, F => status 0x00, ticks 1, free 58),
    performs!(CreateFile, G => status 0x00, ticks 1, free 57),
    performs!(CreateFile, H => status 0x00, ticks 1, free 56),
    performs!(CreateFile, I => status 0x00, ticks 1, free 55),
    performs!(CreateFile, J => status 0x00, ticks 1, free 54),
];

/// What exists then.
const CREATED: &[Existing<'static>] = &[
    (A, Kind::File, 0, 0),
    (B, Kind::File, 0, 0),
    (C, Kind::File, 0, 0),
    (D, Kind::File, 0, 0),
    (E, Kind::File, 0, 0),
    (F, Kind::File, 0, 0),
    (G, Kind::File, 0, 0),
    (H, Kind::File, 0, 0),
    (I, Kind::File, 0, 0),
    (J, Kind::File, 0, 0),
];

/// Each is found, and another name is not.
const FINDS: &[Step<'static>] = &[
    Step::Shows(Shown::Listing(CREATED)),
    Step::Shows(Shown::Deepest(A, Some(1))),
    Step::Shows(Shown::Deepest(H, Some(1))),
    Step::Shows(Shown::Deepest(I, Some(1))),
    Step::Shows(Shown::Deepest(J, Some(1))),
    Step::Shows(Shown::Deepest(K, None)),
    performs!(CreateFile, A => status 0x01, ticks 0, free 54),
    performs!(CreateFile, J => status 0x01, ticks 0, free 54),
    performs!(DeleteFile, K => status 0x11, ticks 0, free 54),
];

/// Those in the list go, from its end, its middle and its front, and others that are not in it.
const REMOVES: &[Step<'static>] = &[
    performs!(DeleteFile, I => status 0x10, ticks 1, free 55),
    performs!(DeleteFile, A => status 0x10, ticks 1, free 56),
    performs!(DeleteFile, D => status 0x10, ticks 1, free 57),
    performs!(DeleteFile, H => status 0x10, ticks 1, free 58),
    Step::Shows(Shown::Deepest(I, None)),
    Step::Shows(Shown::Deepest(D, None)),
    Step::Shows(Shown::Deepest(J, Some(1))),
    performs!(DeleteFile, B => status 0x10, ticks 1, free 59),
    performs!(DeleteFile, C => status 0x10, ticks 1, free 60),
    performs!(DeleteFile, E => status 0x10, ticks 1, free 61),
    performs!(DeleteFile, F => status 0x10, ticks 1, free 62),
    performs!(DeleteFile, G => status 0x10, ticks 1, free 63),
    Step::Shows(Shown::Listing(&[(J, Kind::File, 0, 0)])),
    Step::Shows(Shown::Deepest(J, Some(1))),
    performs!(CreateFile, J => status 0x01, ticks 0, free 63),
    performs!(DeleteFile, J => status 0x10, ticks 1, free 64),
    performs!(DeleteFile, J => status 0x11, ticks 0, free 64),
    performs!(CreateFile, J => status 0x00, ticks 1, free 63),
    Step::Shows(Shown::Listing(&[(J, Kind::File, 0, 0)])),
];

/// What exists after the next script.
const RENAMED: &[Existing<'static>] = &[
    (b"a", Kind::File, 0, 0),
    (A, Kind::File, 0, 0),
    (C, Kind::File, 0, 0),
    (D, Kind::File, 0, 0),
    (E, Kind::File, 0, 0),
    (F, Kind::File, 0, 0),
    (G, Kind::File, 0, 0),
    (H, Kind::File, 0, 0),
    (J, Kind::File, 0, 0),
    (K, Kind::File, 0, 0),
];

/// Names of this hash are given away, taken, and changed for one another.
const RENAMES: &[Step<'static>] = &[
    performs!(RenameFile, A, b"a" => status 0x20, ticks 0, free 54),
    performs!(RenameFile, I, b"i" => status 0x20, ticks 0, free 54),
    performs!(RenameFile, J, K => status 0x20, ticks 0, free 54),
    performs!(RenameFile, B, J => status 0x20, ticks 0, free 54),
    performs!(RenameFile, b"i", A => status 0x20, ticks 0, free 54),
    performs!(RenameFile, K, C => status 0x22, ticks 0, free 54),
    performs!(RenameFile, I, b"i" => status 0x21, ticks 0, free 54),
    Step::Shows(Shown::Listing(RENAMED)),
    Step::Shows(Shown::Deepest(A, Some(1))),
    Step::Shows(Shown::Deepest(B, None)),
    Step::Shows(Shown::Deepest(I, None)),
    Step::Shows(Shown::Deepest(J, Some(1))),
    Step::Shows(Shown::Deepest(K, Some(1))),
];

/// What is at and below `d` in the next script. The octets are the word 61 62 63 00.
const BELOW: &[Existing<'static>] = &[
    (b"d", Kind::Directory, 0, 0),
    (BELOW_A, Kind::File, 0, 0),
    (BELOW_B, Kind::File, 3, 0x6162_6300),
    (BELOW_K, Kind::File, 3, 0x6162_6300),
];

/// Directories, whose entries are found by the same hash, and octets in files that are not in the list.
const IN_DIRECTORIES: &[Step<'static>] = &[
    performs!(CreateDirectory, K => status 0x50, ticks 1, free 53),
    performs!(CreateDirectory, b"d" => status 0x50, ticks 1, free 52),
    performs!(CreateFile, IN_K => status 0x00, ticks 1, free 51),
    performs!(RemoveDirectory, K => status 0x62, ticks 0, free 51),
    performs!(RenameFile, IN_K, BELOW_A => status 0x20, ticks 0, free 51),
    performs!(RemoveDirectory, K => status 0x60, ticks 1, free 52),
    takes!(StoreCall::Extend(0, 3) => ticks 1, free 51),
    puts!(slot 0, at 0, b"abc"),
    takes!(StoreCall::Install(0, BELOW_K) => ticks 1, free 50),
    performs!(CreateFile, BELOW_B => status 0x00, ticks 1, free 49),
    performs!(ReplaceFile, BELOW_B, BELOW_K => status 0x40, ticks 2, free 48),
    performs!(AppendFile, J, BELOW_B => status 0x30, ticks 2, free 47),
    shows_octets!(J, size 3, at 0, b"abc"),
    Step::Shows(Shown::Checksum(BELOW_K, Some(0x6162_6300))),
    Step::Shows(Shown::ExistingNode(b"d", BELOW)),
    performs!(RenameFile, b"d", K => status 0x20, ticks 0, free 47),
    Step::Shows(Shown::Deepest(K, Some(2))),
    performs!(DeleteFile, IN_K => status 0x10, ticks 1, free 48),
    Step::Shows(Shown::Deepest(IN_K, None)),
];

pub static SCRIPTS: [NamedSteps<'static>; 4] = [
    NamedSteps {
        name: "finds",
        parts: &[CREATES, FINDS],
    },
    NamedSteps {
        name: "removes",
        parts: &[CREATES, REMOVES],
    },
    NamedSteps {
        name: "renames",
        parts: &[CREATES, RENAMES],
    },
    NamedSteps {
        name: "in directories",
        parts: &[CREATES, IN_DIRECTORIES],
    },
];

/// The names have one hash indeed.
#[test]
fn names_have_one_hash(rt: HostRuntime) {
    for name in [A, B, C, D, E, F, G, H, I, J, K] {
        let mut hasher = FoldHasher::default();
        hasher.write(name);
        assert!(&rt; hasher.finish() == 0, "{}", name.escape_ascii());
        let mut hasher = FoldHasher::default();
        hasher.write_u32(11);
        hasher.write(name);
        assert!(&rt;
            hasher.finish() == 0,
            "{} after a number",
            name.escape_ascii()
        );
    }
}
