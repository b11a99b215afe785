//! Configurations at the edges of their limits.

use super::scene::protects;
use ConfigFault::{BadBlocks, BadCap, BadChecks, BadJournal};
use cfdp_actions::Protected;
use cfdp_paths::Memory;
use cfdp_transactions::{Config, ConfigFault};
use std::alloc::{AllocError, Global};
use std::process::Abort;

/// A name; the blocks, the cap, the check limit and the journal; the fault, where they have one.
type Row = (&'static str, u32, u64, u32, u32, Option<ConfigFault>);

static ROWS: [Row; 12] = [
    ("the least", 16, 0, 1, 16, None),
    ("the greatest", 65_536, 7_864_320, 1_000, 1_000_000, None),
    ("too few blocks", 15, 0, 1, 16, Some(BadBlocks)),
    ("too many blocks", 65_537, 0, 1, 16, Some(BadBlocks)),
    ("too great a cap", 16, 7_864_321, 1, 16, Some(BadCap)),
    ("no checks", 16, 0, 0, 16, Some(BadChecks)),
    ("too many checks", 16, 0, 1_001, 16, Some(BadChecks)),
    ("too small a journal", 16, 0, 1, 15, Some(BadJournal)),
    ("too large a journal", 16, 0, 1, 1_000_001, Some(BadJournal)),
    ("blocks first", 15, 7_864_321, 0, 15, Some(BadBlocks)),
    ("the cap next", 16, 7_864_321, 0, 15, Some(BadCap)),
    ("checks next", 16, 0, 0, 15, Some(BadChecks)),
];

/// Whether a configuration has the fault of its row.
fn has_fault(row: &Row) -> bool {
    let (_, blocks, cap, checks, journal, fault) = row;
    let replied = Config::new(2, *blocks, *cap, *checks, *journal, Protected::new());
    replied.err() == *fault
}

#[test]
fn each_limit_at_its_edge(rt: HostRuntime) {
    for row in &ROWS {
        assert!(rt; has_fault(row), "{}", row.0);
    }
}

/// The entity, the blocks, the cap, the check limit and the journal.
type Values = (u64, u32, u64, u32, u32);

/// A configuration with one protected path.
fn make(alloc: Global, values: Values, name: &[u8]) -> Result<Option<Config>, Memory> {
    let (entity, blocks, cap, checks, journal) = values;
    let mut protected = Protected::new();
    if !protects(alloc, &mut protected, name)? {
        return Ok(None);
    }
    Ok(Config::new(entity, blocks, cap, checks, journal, protected).ok())
}

const VALUES: Values = (2, 64, 2400, 2, 1000);

/// A name, a configuration's values and protected path, and whether it is equal to the one beside it.
type Pair = (&'static str, Values, &'static [u8], bool);

/// Each is beside one with [`VALUES`] and `sys`.
static PAIRS: [Pair; 7] = [
    ("the same path with a / in front", VALUES, b"/sys", true),
    ("another path", VALUES, b"sy", false),
    ("another entity", (3, 64, 2400, 2, 1000), b"sys", false),
    ("more blocks", (2, 65, 2400, 2, 1000), b"sys", false),
    ("another cap", (2, 64, 2401, 2, 1000), b"sys", false),
    ("another check limit", (2, 64, 2400, 3, 1000), b"sys", false),
    ("another journal", (2, 64, 2400, 2, 1001), b"sys", false),
];

/// Whether the pair is as the row says. Both can be made.
fn is_pair(alloc: Global, config: &Config, pair: &Pair) -> Result<bool, Memory> {
    let (_, values, name, equal) = pair;
    match make(alloc, *values, name)? {
        Some(other) => Ok((*config == other) == *equal),
        None => Ok(false),
    }
}

/// Two configurations are equal where all their values are.
#[test]
fn pairs(rt: HostRuntime) -> Result<(), Memory> {
    let Some(config) = make(rt.alloc(), VALUES, b"sys")? else {
        return Err(AllocError);
    };
    for pair in &PAIRS {
        let holds = is_pair(rt.alloc(), &config, pair)?;
        assert!(rt; holds, "{}", pair.0);
    }
    Ok(())
}
