//! The store inside an arena, gone through entry by entry.

ghost use Rattle.std.specs.Prelude.{All};
ghost use Rattle.cfdp_paths.specs.Paths.{IsName};

use super::calls::{StoreCall, parsed};
use super::steps::{BLOCKS, Existing, Step, performs, puts, take, takes};
use cfdp_actions::{Kind, Protected};
use cfdp_paths::{Memory, Names};
use cfdp_tree::TreeStore;
use std::alloc::Global;
use std::process::Abort;

/// Makes what is in [`ROWS`], in another order.
const MAKES: &[Step<'static>] = &[
    performs!(CreateFile, b"b" => status 0x00, ticks 1, free 63),
    performs!(CreateDirectory, b"ab" => status 0x50, ticks 1, free 62),
    performs!(CreateDirectory, b"a" => status 0x50, ticks 1, free 61),
    performs!(CreateFile, b"a!" => status 0x00, ticks 1, free 60),
    performs!(CreateDirectory, b"a/b" => status 0x50, ticks 1, free 59),
    takes!(StoreCall::Extend(0, 3) => ticks 1, free 58),
    puts!(slot 0, at 0, b"abc"),
    takes!(StoreCall::Install(0, b"a/b/c") => ticks 1, free 57),
];

/// What exists, in path order: names are compared whole, so that what is below `a` is before `a!`. The octets of
/// `a/b/c` are the word 61 62 63 00.
const ROWS: &[Existing<'static>] = &[
    (b"a", Kind::Directory, 0, 0),
    (b"a/b", Kind::Directory, 0, 0),
    (b"a/b/c", Kind::File, 3, 0x6162_6300),
    (b"a!", Kind::File, 0, 0),
    (b"ab", Kind::Directory, 0, 0),
    (b"b", Kind::File, 0, 0),
];

/// Paths, and the row that comes next after each: those that are there, and others.
const ASKED: &[(&[u8], usize)] = &[
    (b"a", 1),
    (b"a/b", 2),
    (b"a/b/c", 3),
    (b"a!", 4),
    (b"ab", 5),
    (b"b", 6),
    (b"A", 0),
    (b"a/a", 1),
    (b"a/a/c/d", 1),
    (b"a/b/c/d", 3),
    (b"a/b/d", 3),
    (b"a/c", 3),
    (b"a/b!", 3),
    (b"a!/a", 4),
    (b"aa", 4),
    (b"ab/a/b/c/d/e/f/g", 5),
    (b"b/a", 6),
    (b"z", 6),
];

#[test]
fn goes_through_in_path_order(rt: HostRuntime) -> Result<(), Memory> {
    let alloc = rt.alloc();
    let mut store = TreeStore::new(alloc, BLOCKS)?;
    assert!(&rt; is_next(&store, Names::none(), None), "an empty store");
    take(&rt, alloc, &mut store, &Protected::new(), "next", MAKES)?;
    assert!(&rt;
        is_next(&store, Names::none(), ROWS.first()),
        "the first one"
    );
    for (text, index) in ASKED {
        let path = parsed(alloc, text)?;
        assert!(&rt;
            is_next(&store, path.names(), ROWS.get(*index)),
            "{}",
            text.escape_ascii()
        );
    }
    Ok(())
}

/// Whether this is next after the path; `None` where nothing is.
fn is_next(store: &TreeStore, after: Names<'_>, wanted: Option<&Existing<'_>>) -> bool
    requires { All IsName after }
{
    let mut text = [0; 776];
    match (store.next_entry(after, &mut text), wanted) {
        (Some(found), Some((path, kind, size, sum))) => {
            let is_same = found.kind == *kind && found.size == *size && found.checksum == *sum;
            is_same && &text[found.start..] == *path
        }
        (None, None) => true,
        _ => false,
    }
}
