//! A journal of sixteen entries that some Metadata PDUs filled in part: worked transactions go on until it is full, and
//! nothing goes in from then on. A journal of nineteen entries has one for each of their events. An event that was out
//! of memory is handed in once more.

use super::entity::{Given, Replied, id, is_replied};
use cfdp_actions::{Entry, Filestore, Protected};
use cfdp_engine::Journaled;
use cfdp_paths::Memory;
use cfdp_transactions::{Config, Core, Phase, Reply};
use cfdp_tree::TreeStore;
use std::alloc::{AllocError, Global};
use std::process::Abort;
use std::sync::Arc;

/// A name, an event, and the reply to it.
type NamedEvent = (&'static str, Given, Replied);

/// Four transactions one after another: a file that is created, neither a file nor requests, a file in two pieces,
/// denials.
static FOUR: [NamedEvent; 20] = [
    (
        "metadata of 5, which creates a file",
        Given::Pdu("24000d0001050207400000000000000003000161"),
        Replied::Admitted(1, 2),
    ),
    (
        "EOF of 5",
        Given::Pdu("24000a0001050204000000000000000000"),
        Replied::Complete,
    ),
    ("step of 5", Given::Step(5), Replied::Performed(0x00)),
    (
        "outcome of 5",
        Given::Take(5),
        Replied::Finished("2c0008000105020503010400016100"),
    ),
    (
        "metadata of 6, neither a file nor requests",
        Given::Pdu("240008000106020740000000000000"),
        Replied::Admitted(0, 0),
    ),
    (
        "EOF of 6",
        Given::Pdu("24000a0001060204000000000000000000"),
        Replied::Done,
    ),
    (
        "step of 6, which has nothing to do",
        Given::Step(6),
        Replied::Idle,
    ),
    (
        "outcome of 6",
        Given::Take(6),
        Replied::Finished("2c0002000106020503"),
    ),
    (
        "metadata of 10, a file",
        Given::Pdu("24000a00010a0207400000000f01730166"),
        Replied::Admitted(2, 2),
    ),
    (
        "second piece of 10",
        Given::Pdu("34000b00010a020000000808090a0b0c0d0e"),
        Replied::Stored,
    ),
    (
        "first piece of 10",
        Given::Pdu("34000e00010a020000000000010203040506070809"),
        Replied::Stored,
    ),
    (
        "EOF of 10",
        Given::Pdu("24000a00010a020400181c20150000000f"),
        Replied::Complete,
    ),
    ("install of 10", Given::Step(10), Replied::Installed),
    (
        "outcome of 10",
        Given::Take(10),
        Replied::Finished("2c000200010a020502"),
    ),
    (
        "metadata of 14, denials",
        Given::Pdu("24001400010e020740000000000000000370017a00058003792f7a"),
        Replied::Admitted(0, 2),
    ),
    (
        "EOF of 14",
        Given::Pdu("24000a00010e0204000000000000000000"),
        Replied::Complete,
    ),
    (
        "first denial of 14",
        Given::Step(14),
        Replied::Performed(0x70),
    ),
    (
        "second denial of 14",
        Given::Step(14),
        Replied::Performed(0x80),
    ),
    (
        "outcome of 14",
        Given::Take(14),
        Replied::Finished("2c001000010e020503010470017a0001068003792f7a00"),
    ),
    // The twentieth event: no journal of these tests has an entry for it.
    (
        "cancellation of 14, whose outcome was taken",
        Given::Cancel(14),
        Replied::JournalFull,
    ),
];

/// Sixteen Metadata PDUs, of neither a file nor requests, of transactions of entity 3.
static FILLERS: [&str; 16] = [
    "240008000301020740000000000000",
    "240008000302020740000000000000",
    "240008000303020740000000000000",
    "240008000304020740000000000000",
    "240008000305020740000000000000",
    "240008000306020740000000000000",
    "240008000307020740000000000000",
    "240008000308020740000000000000",
    "240008000309020740000000000000",
    "24000800030a020740000000000000",
    "24000800030b020740000000000000",
    "24000800030c020740000000000000",
    "24000800030d020740000000000000",
    "24000800030e020740000000000000",
    "24000800030f020740000000000000",
    "240008000310020740000000000000",
];

pub type JournaledTree = Journaled<TreeStore>;

/// The entity 2 that has just begun, with a journal of this many entries, which may be: only memory can be refused.
pub fn journaled_tree(alloc: Global, entries: u32) -> Result<JournaledTree, Memory> {
    let Ok(config) = Config::new(2, 64, 2400, 2, entries, Protected::new()) else {
        return Err(AllocError);
    };
    let store = TreeStore::new(alloc, 64)?;
    let core = Core::new(alloc, config, store)?;
    Journaled::new(alloc, core)
}

/// What exists, the blocks to spare, the entries, and how far the four transactions are.
type JournalView = (Vec<Entry>, u32, usize, [Option<Phase>; 4]);

fn seen(alloc: Global, journaled: &JournaledTree) -> Result<JournalView, Memory> {
    let core = journaled.core();
    let phases = [
        core.phase(id(5)),
        core.phase(id(6)),
        core.phase(id(10)),
        core.phase(id(14)),
    ];
    let listing = core.store().listing(alloc)?;
    Ok((listing, core.spare(), journaled.journal().len(), phases))
}

/// The reply to an event. Out of memory, or where the journal is full, nothing has changed.
fn accept(
    rt: &impl Abort,
    alloc: Global,
    journaled: &mut JournaledTree,
    given: Given,
) -> Result<Reply, Memory> {
    let before = seen(alloc, journaled)?;
    let event = Arc::new(alloc, given.event(alloc)?)?;
    let reply = journaled.accept(0, event);
    if matches!(reply, Reply::Memory | Reply::JournalFull) {
        assert!(rt;
            seen(alloc, journaled)? == before,
            "an event that was out of memory or of room in the journal"
        );
    }
    Ok(reply)
}

/// Whether an event is replied to so. Out of memory, the same event is handed in again.
fn replies(
    rt: &impl Abort,
    alloc: Global,
    journaled: &mut JournaledTree,
    given: Given,
    replied: Replied,
) -> Result<bool, Memory> {
    let reply = match accept(rt, alloc, journaled, given)? {
        Reply::Memory => accept(rt, alloc, journaled, given)?,
        reply => reply,
    };
    is_replied(rt, alloc, &reply, replied)
}

/// Fills in this many entries.
fn fill(
    rt: &impl Abort,
    alloc: Global,
    journaled: &mut JournaledTree,
    count: usize,
) -> Result<(), Memory> {
    for text in FILLERS.iter().take(count) {
        let replied = replies(
            rt,
            alloc,
            journaled,
            Given::Pdu(*text),
            Replied::Admitted(0, 0),
        )?;
        assert!(rt; replied, "{text}");
    }
    Ok(())
}

/// Hands in the events of the transactions after `count` others. The journal may have this many entries: as many events
/// of all get their own replies, and all others JournalFull.
fn go_on(
    rt: &impl Abort,
    alloc: Global,
    journaled: &mut JournaledTree,
    count: usize,
    entries: usize,
) -> Result<(), Memory> {
    let mut before = count;
    for (name, given, replied) in &FOUR {
        let replied = if before < entries {
            *replied
        } else {
            Replied::JournalFull
        };
        let well = replies(rt, alloc, journaled, *given, replied)?;
        assert!(rt; well, "{name}, after {count} fillers: another reply");
        before = before.saturating_add(1);
    }
    Ok(())
}

#[test]
fn fills_after_any_number_of_entries(rt: HostRuntime) -> Result<(), Memory> {
    for count in 0..=16usize {
        let mut journaled = journaled_tree(rt.alloc(), 16)?;
        fill(&rt, rt.alloc(), &mut journaled, count)?;
        go_on(&rt, rt.alloc(), &mut journaled, count, 16)?;
        assert!(&rt;
            journaled.journal().len() == 16,
            "{} entries, of which {count} are fillers",
            journaled.journal().len()
        );
    }
    Ok(())
}

#[test]
fn has_an_entry_for_each_event_of_four_transactions(rt: HostRuntime) -> Result<(), Memory> {
    let mut journaled = journaled_tree(rt.alloc(), 19)?;
    go_on(&rt, rt.alloc(), &mut journaled, 0, 19)?;
    assert!(&rt;
        journaled.journal().len() == 19,
        "{} entries",
        journaled.journal().len()
    );
    Ok(())
}
