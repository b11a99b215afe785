//! Leases of two paths of one hash: one is found by its hash, the other by the path. Each grant is made again where it
//! was out of memory.

use super::super::scene::{hold, path_of, request};
use super::id;
use cfdp_leases::{Footprint, Leases, footprint};
use cfdp_paths::Memory;
use cfdp_status::{Action, TransactionId};
use std::alloc::Global;
use std::process::Abort;

/// The last octets of a path. The hash of a path multiplies two numbers. One of them is the last eight octets, less the
/// constant of the hash bit by bit: for that constant it is 0, whatever comes before. These are the constants of
/// Fibonacci hashing and of FxHash, of which one is right.
static ENDS: [[u8; 8]; 2] = [
    *b"\x15\x7c\x4a\x7f\xb9\x79\x37\x9e",
    *b"\x95\x0a\x22\x27\xb7\xc1\x7c\x51",
];

/// Two paths.
#[derive(Drop)]
struct Pair {
    first: Vec<u8>,
    second: Vec<u8>,
}

/// The octets of a path of one name.
fn name(alloc: Global, letter: u8, end: &[u8]) -> Result<Vec<u8>, Memory> {
    let mut octets = Vec::from_slice(alloc, &[letter; 8])?;
    octets.extend_from_slice(end)?;
    Ok(octets)
}

/// Looks for two paths of one hash.
fn find_pair(alloc: Global) -> Result<Option<Pair>, Memory> {
    for end in &ENDS {
        let first = name(alloc, b'a', end)?;
        let hash = path_of(alloc, &first)?.hash();
        for letter in b"bcde" {
            let second = name(alloc, *letter, end)?;
            if path_of(alloc, &second)?.hash() == hash {
                return Ok(Some(Pair { first, second }));
            }
        }
    }
    Ok(None)
}

/// One of the two paths.
#[derive(Clone, Copy)]
enum Which {
    First,
    Second,
}

impl Pair {
    fn octets(&self, which: Which) -> &[u8] {
        match which {
            Which::First => &self.first,
            Which::Second => &self.second,
        }
    }
}

/// A grant, or the end of one. Transactions go by their numbers.
#[derive(Clone, Copy)]
enum Change {
    /// The transaction deletes the path, so that it leases it exclusively.
    Deletes(u64, Which),
    /// The transaction appends the path to a file of its own, so that it shares it.
    Reads(u64, Which),
    /// The transaction is over.
    Ends(u64),
}

impl Change {
    /// The number of its transaction.
    fn number(self) -> u64 {
        match self {
            Deletes(number, _) | Reads(number, _) | Ends(number) => number,
        }
    }
}

/// A name, a change, and which transaction then conflicts with a delete of the first path, and with one of the second.
type Row = (&'static str, Change, [Option<u64>; 2]);

use Change::{Deletes, Ends, Reads};
use Which::{First, Second};

static ROWS: [Row; 14] = [
    ("the first is leased", Deletes(1, First), [Some(1), None]),
    (
        "the second is leased",
        Deletes(2, Second),
        [Some(1), Some(2)],
    ),
    ("the first is free", Ends(1), [None, Some(2)]),
    (
        "the first is leased again",
        Deletes(3, First),
        [Some(3), Some(2)],
    ),
    ("the second is free", Ends(2), [Some(3), None]),
    ("the second is shared", Reads(4, Second), [Some(3), Some(4)]),
    ("two share the second", Reads(5, Second), [Some(3), Some(4)]),
    ("one shares the second", Ends(4), [Some(3), Some(5)]),
    ("the first is free again", Ends(3), [None, Some(5)]),
    ("the first is shared", Reads(1, First), [Some(1), Some(5)]),
    ("two share the first", Reads(2, First), [Some(1), Some(5)]),
    ("the second is free again", Ends(5), [Some(1), None]),
    ("one shares the first", Ends(1), [Some(2), None]),
    ("all is free", Ends(2), [None, None]),
];

/// The footprint of one request.
fn footprint_of(
    alloc: Global,
    action: Action,
    first: &[u8],
    second: &[u8],
) -> Result<Footprint, Memory> {
    footprint(alloc, &[request(alloc, action, first, second)?], None)
}

/// The footprint that a change leases, if it leases one.
fn leased_by(alloc: Global, pair: &Pair, change: Change) -> Result<Option<Footprint>, Memory> {
    match change {
        Deletes(_, which) => {
            let path = pair.octets(which);
            Ok(Some(footprint_of(alloc, Action::DeleteFile, path, b"")?))
        }
        Reads(number, which) => {
            let own = [b'0' + (number % 10) as u8];
            let path = pair.octets(which);
            Ok(Some(footprint_of(alloc, Action::AppendFile, &own, path)?))
        }
        Ends(_) => Ok(None),
    }
}

/// What each row leases. It is made before the first grant, so that only grants can be out of memory after it.
fn leased_by_each(alloc: Global, pair: &Pair) -> Result<Vec<Option<Footprint>>, Memory> {
    let mut all = Vec::with_capacity(alloc, ROWS.len())?;
    for row in &ROWS {
        all.push(leased_by(alloc, pair, row.1)?)?;
    }
    Ok(all)
}

/// Which transaction conflicts with each of two footprints.
fn conflicts(leases: &Leases, probes: &[Footprint; 2]) -> [Option<TransactionId>; 2] {
    [leases.conflict(&probes[0]), leases.conflict(&probes[1])]
}

/// Leases a footprint. Out of memory, the leases are as before, and it is leased when it is asked for again.
fn lease(
    rt: &impl Abort,
    leases: &mut Leases,
    name: &str,
    number: u64,
    footprint: Footprint,
    again: Option<Footprint>,
    probes: &[Footprint; 2],
) {
    let before = conflicts(leases, probes);
    if hold(rt, leases, id(number), footprint).is_err() {
        assert!(rt; conflicts(leases, probes) == before, "refused: {name}");
        if let Some(again) = again {
            assert!(rt;
                hold(rt, leases, id(number), again).is_ok(),
                "again: {name}"
            );
        }
    }
    assert!(rt; leases.holds(id(number)), "{name}");
}

/// Goes through the rows.
fn go_through(
    rt: &impl Abort,
    leases: &mut Leases,
    leased: Vec<Option<Footprint>>,
    again: Vec<Option<Footprint>>,
    probes: &[Footprint; 2],
) {
    for ((name, change, expected), (leased, again)) in ROWS
        .iter()
        .zip(leased.into_iter().zip(again))
    {
        let number = change.number();
        match leased {
            Some(footprint) => lease(rt, leases, name, number, footprint, again, probes),
            None => {
                leases.release(id(number));
                assert!(rt; !leases.holds(id(number)), "{name}");
            }
        }
        let expected = expected.map(|number| number.map(id));
        assert!(rt; conflicts(leases, probes) == expected, "{name}");
    }
}

/// What leases of no path show at their end.
const NO_PATHS: &str = "paths: LeasedPaths { by_hash: {}, others: {} } }";

/// Goes through the rows with a pair of paths, and returns what the leases show after that. All that takes memory but
/// the grants comes before them.
fn shown_after(rt: &impl Abort, alloc: Global, pair: &Pair) -> Result<String, Memory> {
    let leased = leased_by_each(alloc, pair)?;
    let again = leased_by_each(alloc, pair)?;
    let probes = [
        footprint_of(alloc, Action::DeleteFile, &pair.first, b"")?,
        footprint_of(alloc, Action::DeleteFile, &pair.second, b"")?,
    ];
    let mut leases = Leases::new(alloc);
    go_through(rt, &mut leases, leased, again, &probes);
    format!(in alloc; "{leases:?}")
}

/// `.ci/refused` refuses each growth in turn. After all grants no path is kept, and as much memory as of two paths that
/// share no hash.
#[test]
fn two_paths_of_one_hash_are_kept_apart(rt: HostRuntime) -> Result<(), Memory> {
    let alloc = rt.alloc();
    let found = find_pair(alloc)?;
    assert!(&rt; found.is_some(), "no two paths of one hash were found");
    let other = Pair {
        first: Vec::from_slice(alloc, b"first")?,
        second: Vec::from_slice(alloc, b"second")?,
    };
    if let Some(pair) = found {
        let kept = shown_after(&rt, alloc, &pair)?;
        let expected = shown_after(&rt, alloc, &other)?;
        assert!(&rt;
            kept == expected && kept.ends_with(NO_PATHS),
            "kept: {kept}"
        );
    }
    Ok(())
}
