//! A store of more than forty entries in several directories, and each change of it with ample memory. `worked` runs
//! these scripts.

use super::calls::StoreCall;
use super::steps::{Existing, NamedSteps, Shown, Step, performs, puts, shows_octets, takes};
use cfdp_actions::Kind;

/// Five directories with eight empty files in each.
const FILL: &[Step<'static>] = &[
    performs!(CreateDirectory, b"e" => status 0x50, ticks 1, free 63),
    performs!(CreateFile, b"e/1" => status 0x00, ticks 1, free 62),
    performs!(CreateFile, b"e/2" => status 0x00, ticks 1, free 61),
    performs!(CreateFile, b"e/3" => status 0x00, ticks 1, free 60),
    performs!(CreateFile, b"e/4" => status 0x00, ticks 1, free 59),
    performs!(CreateFile, b"e/5" => status 0x00, ticks 1, free 58),
    performs!(CreateFile, b"e/6" => status 0x00, ticks 1, free 57),
    performs!(CreateFile, b"e/7" => status 0x00, ticks 1, free 56),
    performs!(CreateFile, b"e/8" => status 0x00, ticks 1, free 55),
    performs!(CreateDirectory, b"d" => status 0x50, ticks 1, free 54),
    performs!(CreateFile, b"d/1" => status 0x00, ticks 1, free 53),
    performs!(CreateFile, b"d/2" => status 0x00, ticks 1, free 52),
    performs!(CreateFile, b"d/3" => status 0x00, ticks 1, free 51),
    performs!(CreateFile, b"d/4" => status 0x00, ticks 1, free 50),
    performs!(CreateFile, b"d/5" => status 0x00, ticks 1, free 49),
    performs!(CreateFile, b"d/6" => status 0x00, ticks 1, free 48),
    performs!(CreateFile, b"d/7" => status 0x00, ticks 1, free 47),
    performs!(CreateFile, b"d/8" => status 0x00, ticks 1, free 46),
    performs!(CreateDirectory, b"c" => status 0x50, ticks 1, free 45),
    performs!(CreateFile, b"c/1" => status 0x00, ticks 1, free 44),
    performs!(CreateFile, b"c/2" => status 0x00, ticks 1, free 43),
    performs!(CreateFile, b"c/3" => status 0x00, ticks 1, free 42),
    performs!(CreateFile, b"c/4" => status 0x00, ticks 1, free 41),
    performs!(CreateFile, b"c/5" => status 0x00, ticks 1, free 40),
    performs!(CreateFile, b"c/6" => status 0x00, ticks 1, free 39),
    performs!(CreateFile, b"c/7" => status 0x00, ticks 1, free 38),
    performs!(CreateFile, b"c/8" => status 0x00, ticks 1, free 37),
    performs!(CreateDirectory, b"b" => status 0x50, ticks 1, free 36),
    performs!(CreateFile, b"b/1" => status 0x00, ticks 1, free 35),
    performs!(CreateFile, b"b/2" => status 0x00, ticks 1, free 34),
    performs!(CreateFile, b"b/3" => status 0x00, ticks 1, free 33),
    performs!(CreateFile, b"b/4" => status 0x00, ticks 1, free 32),
    performs!(CreateFile, b"b/5" => status 0x00, ticks 1, free 31),
    performs!(CreateFile, b"b/6" => status 0x00, ticks 1, free 30),
    performs!(CreateFile, b"b/7" => status 0x00, ticks 1, free 29),
    performs!(CreateFile, b"b/8" => status 0x00, ticks 1, free 28),
    performs!(CreateDirectory, b"a" => status 0x50, ticks 1, free 27),
    performs!(CreateFile, b"a/1" => status 0x00, ticks 1, free 26),
    performs!(CreateFile, b"a/2" => status 0x00, ticks 1, free 25),
    performs!(CreateFile, b"a/3" => status 0x00, ticks 1, free 24),
    performs!(CreateFile, b"a/4" => status 0x00, ticks 1, free 23),
    performs!(CreateFile, b"a/5" => status 0x00, ticks 1, free 22),
    performs!(CreateFile, b"a/6" => status 0x00, ticks 1, free 21),
    performs!(CreateFile, b"a/7" => status 0x00, ticks 1, free 20),
    performs!(CreateFile, b"a/8" => status 0x00, ticks 1, free 19),
    Step::Shows(Shown::Paths(FILLED)),
];

/// What is in it then.
const FILLED: &[u8] = b"a a/1 a/2 a/3 a/4 a/5 a/6 a/7 a/8 b b/1 b/2 b/3 b/4 b/5 b/6 b/7 b/8 \
    c c/1 c/2 c/3 c/4 c/5 c/6 c/7 c/8 d d/1 d/2 d/3 d/4 d/5 d/6 d/7 d/8 \
    e e/1 e/2 e/3 e/4 e/5 e/6 e/7 e/8 ";

/// A change at one path leaves all else.
const CHANGE: &[Step<'static>] = &[
    performs!(RenameFile, b"a", b"z" => status 0x20, ticks 0, free 19),
    performs!(RenameFile, b"z/8", b"b/0" => status 0x20, ticks 0, free 19),
    performs!(DeleteFile, b"z/5" => status 0x10, ticks 1, free 20),
    performs!(CreateDirectory, b"z/5" => status 0x50, ticks 1, free 19),
    performs!(RenameFile, b"z", b"c/z" => status 0x20, ticks 0, free 19),
    performs!(CreateFile, b"c/z/5/9" => status 0x00, ticks 1, free 18),
    performs!(RemoveDirectory, b"c/z" => status 0x62, ticks 0, free 18),
    performs!(CreateFile, b"a" => status 0x00, ticks 1, free 17),
    performs!(DenyDirectory, b"e" => status 0x82, ticks 0, free 17),
    performs!(DenyFile, b"e/1" => status 0x70, ticks 1, free 18),
    performs!(RenameFile, b"d/8", b"d/80" => status 0x20, ticks 0, free 18),
    performs!(RenameFile, b"c", b"c/z/9" => status 0x23, ticks 0, free 18),
    Step::Shows(Shown::Paths(CHANGED)),
];

/// What exists then.
const CHANGED: &[u8] = b"a b b/0 b/1 b/2 b/3 b/4 b/5 b/6 b/7 b/8 \
    c c/1 c/2 c/3 c/4 c/5 c/6 c/7 c/8 c/z c/z/1 c/z/2 c/z/3 c/z/4 c/z/5 c/z/5/9 c/z/6 c/z/7 \
    d d/1 d/2 d/3 d/4 d/5 d/6 d/7 d/80 e e/2 e/3 e/4 e/5 e/6 e/7 e/8 ";

/// 121 octets, all 7.
const SEVENS: &[u8] = &[7; 121];

/// Twice as many.
const TWICE: &[u8] = &[7; 242];

/// What is at and below the directory in which the one file with octets is then.
const EXISTING: &[Existing<'static>] = &[
    (b"d", Kind::Directory, 0, 0),
    (b"d/1", Kind::File, 0, 0),
    (b"d/2", Kind::File, 0, 0),
    (b"d/3", Kind::File, 0, 0),
    (b"d/4", Kind::File, 0, 0),
    (b"d/5", Kind::File, 0, 0),
    (b"d/6", Kind::File, 0, 0),
    (b"d/7", Kind::File, 0, 0),
    (b"d/8", Kind::File, 242, 0),
];

/// Octets that are installed and appended, that replace others, and that are given back.
const MOVE_OCTETS: &[Step<'static>] = &[
    takes!(StoreCall::Extend(0, 121) => ticks 2, free 17),
    puts!(slot 0, at 0, SEVENS),
    takes!(StoreCall::Install(0, b"b/3") => ticks 0, free 17),
    performs!(AppendFile, b"b/3", b"b/3" => status 0x30, ticks 3, free 16),
    performs!(AppendFile, b"c/1", b"b/3" => status 0x30, ticks 6, free 13),
    performs!(ReplaceFile, b"d/8", b"c/1" => status 0x40, ticks 6, free 10),
    performs!(DeleteFile, b"b/3" => status 0x10, ticks 4, free 14),
    performs!(ReplaceFile, b"c/1", b"e/1" => status 0x40, ticks 3, free 17),
    shows_octets!(b"d/8", size 242, at 0, TWICE),
    shows_octets!(b"c/1", size 0, at 0, b""),
    shows_octets!(b"e/1", size 0, at 0, b""),
    Step::Shows(Shown::Deepest(b"d", Some(2))),
    Step::Shows(Shown::ExistingNode(b"d", EXISTING)),
];

pub static SCRIPTS: [NamedSteps<'static>; 2] = [
    NamedSteps {
        name: "changes",
        parts: &[FILL, CHANGE],
    },
    NamedSteps {
        name: "moves octets",
        parts: &[FILL, MOVE_OCTETS],
    },
];
