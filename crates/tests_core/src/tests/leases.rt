//! Leases by their own calls: grants for which there is no memory, lists at random beside a plain list, paths of one
//! hash. Worked leases are in `.ci/cases/leases.txt`.

mod one_hash;
mod plain;

use super::scene::{hold, path_of};
use cfdp_leases::{Footprint, Leases, footprint};
use cfdp_paths::{Memory, Path};
use cfdp_status::{Action, TransactionId};
use std::alloc::Global;
use std::process::Abort;

/// A request by its action and names, the second one empty where there is none.
type Named = (Action, &'static [u8], &'static [u8]);

fn id(number: u64) -> TransactionId {
    TransactionId { source: 1, number }
}

/// The footprint of one request.
fn footprint_of(alloc: Global, (action, first, second): Named) -> Result<Footprint, Memory> {
    let request = super::scene::request(alloc, action, first, second)?;
    footprint(alloc, &[request], None)
}

/// Removes the directory in which transactions create a file each.
const REMOVE: Named = (Action::RemoveDirectory, b"d", b"");

/// The first transaction whose footprint conflicts with each of these, and which of five transactions hold one.
fn answers(leases: &Leases, probes: &[Footprint; 2]) -> ([Option<TransactionId>; 2], [bool; 5]) {
    let conflicts = [leases.conflict(&probes[0]), leases.conflict(&probes[1])];
    let held = [1, 2, 3, 4, 5].map(|number| leases.holds(id(number)));
    (conflicts, held)
}

/// Creates of `a` to `e` in one directory.
static FIVE: [Named; 5] = [
    (Action::CreateFile, b"d/a", b""),
    (Action::CreateFile, b"d/b", b""),
    (Action::CreateFile, b"d/c", b""),
    (Action::CreateFile, b"d/d", b""),
    (Action::CreateFile, b"d/e", b""),
];

/// Their footprints.
fn five(alloc: Global) -> Result<Vec<Footprint>, Memory> {
    let mut footprints = Vec::with_capacity(alloc, FIVE.len())?;
    for named in &FIVE {
        footprints.push(footprint_of(alloc, *named)?)?;
    }
    Ok(footprints)
}

/// Grants a footprint: where that is refused no answer has changed, and the same is granted when it is asked for again.
fn grant_one(
    rt: &impl Abort,
    leases: &mut Leases,
    number: u64,
    footprint: Footprint,
    again: Footprint,
    probes: &[Footprint; 2],
) {
    let before = answers(leases, probes);
    if hold(rt, leases, id(number), footprint).is_err() {
        assert!(rt;
            answers(leases, probes) == before,
            "{number}: out of memory"
        );
        assert!(rt;
            hold(rt, leases, id(number), again).is_ok(),
            "{number}: asked for again"
        );
    }
    assert!(rt; leases.holds(id(number)), "{number}: granted");
}

/// Five grants one after another. All else that takes memory comes before them, so that only a grant can be refused
/// from then on. It shows its point where `rt try --test --fail-alloc N` refuses each growth in turn.
#[test]
fn a_refused_grant_changes_nothing(rt: HostRuntime) -> Result<(), Memory> {
    let alloc = rt.alloc();
    let probes = [
        footprint_of(alloc, REMOVE)?,
        footprint_of(alloc, (Action::DeleteFile, b"d/e", b""))?,
    ];
    let footprints = five(alloc)?;
    let again = five(alloc)?;
    let mut leases = Leases::new(alloc);
    let wanted = footprints.into_iter().zip(again);
    for (number, (footprint, again)) in (1..=5u64).zip(wanted) {
        grant_one(&rt, &mut leases, number, footprint, again, &probes);
    }
    assert!(rt;
        leases.conflict(&probes[0]) == Some(id(1)),
        "the removal of d"
    );
    assert!(rt;
        leases.conflict(&probes[1]) == Some(id(5)),
        "the removal of d/e"
    );
    Ok(())
}

/// Whether each path is before the next one.
fn in_order(paths: &[Path]) -> bool {
    paths
        .iter()
        .zip(paths.iter().skip(1))
        .all(|(path, next)| path < next)
}

/// The footprint of creates of 64 files below seven directories, and of one of the files as a destination.
fn wide_footprint(alloc: Global) -> Result<Footprint, Memory> {
    let mut requests = Vec::with_capacity(alloc, 64)?;
    for number in 0..64 {
        let name = format!(in alloc; "1/2/3/4/5/6/7/{number}")?;
        requests.push(super::scene::request(alloc, Action::CreateFile, name.as_bytes(), b"")?)?;
    }
    let destination = path_of(alloc, b"1/2/3/4/5/6/7/8")?;
    footprint(alloc, &requests, Some(&destination))
}

#[test]
fn each_path_is_there_once(rt: HostRuntime) -> Result<(), Memory> {
    let footprint = wide_footprint(rt.alloc())?;
    assert!(rt;
        footprint.exclusive().len() == 64 && footprint.shared().len() == 7,
        "how many paths"
    );
    assert!(rt;
        in_order(footprint.exclusive()) && in_order(footprint.shared()),
        "their order"
    );
    Ok(())
}
