//! Verdicts that no program prints: the call of the repository's `docs/GUIDE.md`, needs that no u32 says, and verdicts
//! that run out of memory (`rt try --test --fail-alloc N` refuses the Nth growth, and no other). All other worked lists
//! are in `.ci/cases/admission.txt`.

use super::scene::{Before, Scene, parse};
use cfdp_actions::{Entry, Filestore};
use cfdp_leases::footprint;
use cfdp_paths::Memory;
use cfdp_quota::Quota;
use cfdp_status::TransactionId;
use cfdp_verifier::Proposal;
use std::alloc::Global;
use std::process::Abort;

/// The filestore of the guide, of 32 blocks.
static GUIDE: [Before; 7] = [
    Before::Protected(b"sys"),
    Before::Delivered(b"img", 600),
    Before::Performed(b"\x00\x03\x50\x01\x64"),
    Before::Delivered(b"d/old", 240),
    Before::Performed(b"\x00\x05\x50\x03\x73\x79\x73"),
    Before::Delivered(b"sys/boot", 120),
    Before::Admitted(22, b"\x00\x05\x00\x03\x64\x2f\x78"),
];

/// A destination, the requests' TLVs, and what the call says of them.
type Call = (&'static [u8], &'static [&'static [u8]], &'static str);

static CALLS: [Call; 2] = [
    (
        b"d/new",
        &[b"\x00\x07\x70\x05\x64\x2f\x6f\x6c\x64"],
        "5 blocks, 6 steps",
    ),
    (
        b"d/..",
        &[
            b"\x00\x07\x70\x05\x64\x2f\x6f\x6c\x64",
            b"\x00\x03\x00\x01\x64",
        ],
        "BadPath(Destination)",
    ),
];

/// What the call says of a file of 480 octets at most.
#[test]
fn the_call_of_the_guide(rt: HostRuntime) -> Result<(), Memory> {
    let alloc = rt.alloc();
    let scene = Scene::new(&rt, alloc, 32, &GUIDE)?;
    for (destination, tlvs, said) in &CALLS {
        let replied = scene.judge(&rt, alloc, Some((*destination, 480)), tlvs)?;
        assert!(&rt; replied.as_str() == *said, "{said}");
    }
    Ok(())
}

/// How many octets a file has at most, how many blocks are to spare, and what is said of it alone. A file of
/// 4,294,967,294 blocks of 120 octets needs one more for its name.
static NEEDS: [(u64, u32, &str); 4] = [
    (515_396_075_280, 4_294_967_295, "4294967295 blocks, 2 steps"),
    (
        515_396_075_280,
        4_294_967_294,
        "NoRoom(4294967295, 4294967294)",
    ),
    (
        515_396_075_281,
        4_294_967_295,
        "NoRoom(4294967295, 4294967295)",
    ),
    (u64::MAX, 4_294_967_295, "NoRoom(4294967295, 4294967295)"),
];

/// A need that no u32 can say differs from the greatest that one can.
#[test]
fn needs_that_no_count_tells(rt: HostRuntime) -> Result<(), Memory> {
    let scene = Scene::new(&rt, rt.alloc(), 64, &[])?;
    for (bound, spare, said) in &NEEDS {
        let list = Proposal {
            destination: Some(b"a"),
            bound: *bound,
            requests: &[],
        };
        let replied = scene.tell(rt.alloc(), &Quota::new(*spare), &list)?;
        assert!(&rt; replied.as_str() == *said, "{bound} octets, {spare} blocks");
    }
    Ok(())
}

/// The file's destination and bound, where there is one, the requests' TLVs, and what is said of them.
type Row = (
    Option<(&'static [u8], u64)>,
    &'static [&'static [u8]],
    &'static str,
);

/// A directory with a file, and a file that a live transaction is about to create.
static BEFORE: [Before; 3] = [
    Before::Performed(b"\x00\x03\x50\x01m"),
    Before::Performed(b"\x00\x05\x00\x03m/x"),
    Before::Admitted(22, b"\x00\x03\x00\x01x"),
];

/// A list that is granted, one that is refused and one in conflict; and a directory that moves, there and back, and of
/// which a file answers by the new path, for which it is opened.
static LISTS: [Row; 5] = [
    (
        Some((b"b", 240)),
        &[
            b"\x00\x05\x30\x01b\x01b",
            b"\x00\x03\x50\x01d",
            b"\x00\x07\x20\x01b\x03d/b",
        ],
        "6 blocks, 10 steps",
    ),
    (
        Some((b"b", 240)),
        &[b"\x00\x03\x50\x01d", b"\x00\x05\x20\x01b\x01d"],
        "WouldFail(1, RenameNewPresent)",
    ),
    (
        Some((b"b", 240)),
        &[b"\x00\x03\x50\x01d", b"\x00\x05\x20\x01x\x01e"],
        "Conflict(TransactionId { source: 1, number: 22 })",
    ),
    (
        None,
        &[b"\x00\x05\x20\x01m\x01e", b"\x00\x05\x20\x01e\x01m"],
        "0 blocks, 2 steps",
    ),
    (
        None,
        &[b"\x00\x05\x20\x01m\x01e", b"\x00\x05\x10\x03e/x"],
        "0 blocks, 3 steps",
    ),
];

/// What stays the same when out of memory: what exists, the first transaction in the way of a list that deletes
/// `x`, and the blocks to spare.
type SceneView = (Vec<Entry>, Option<TransactionId>, u32);

fn seen(rt: &impl Abort, alloc: Global, scene: &Scene) -> Result<SceneView, Memory> {
    let delete = [parse(alloc, b"\x00\x03\x10\x01x")?];
    let in_the_way = footprint(alloc, &delete, None)?;
    let listing = scene.store.listing(alloc)?;
    let user = scene.leases.conflict(&in_the_way);
    Ok((listing, user, scene.quota(rt).spare()))
}

/// What is said of a list. Out of memory instead, all is as before, and the next answer is the verdict.
fn judge(rt: &impl Abort, alloc: Global, scene: &Scene, row: &Row) -> Result<String, Memory> {
    let (file, tlvs, said) = *row;
    let before = seen(rt, alloc, scene)?;
    match scene.judge(rt, alloc, file, tlvs) {
        Ok(replied) => Ok(replied),
        Err(_) => {
            assert!(rt; seen(rt, alloc, scene)? == before, "out of memory: {said}");
            scene.judge(rt, alloc, file, tlvs)
        }
    }
}

#[test]
fn a_list_is_judged_or_memory_is_refused(rt: HostRuntime) -> Result<(), Memory> {
    let scene = Scene::new(&rt, rt.alloc(), 64, &BEFORE)?;
    for row in &LISTS {
        let replied = judge(&rt, rt.alloc(), &scene, row)?;
        assert!(&rt; replied.as_str() == row.2, "{}", row.2);
    }
    Ok(())
}
