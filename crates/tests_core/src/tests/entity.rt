//! A receiving entity that is handed events one after another, what it replies, and what it says of itself in between.

ghost use Rattle.std.specs.Prelude.{◌≡◌};
ghost use Rattle.cfdp_actions.specs.Store.{empty_store};

use super::scene::path_of;
use cfdp_actions::{Filestore, Kind, ListStore, Protected};
use cfdp_paths::Memory;
use cfdp_pdus::{Pdu, read_pdu};
use cfdp_status::{Action, Status, TransactionId};
use cfdp_transactions::{Config, Core, Event, Outcome, Phase, Reply, read_event};
use cfdp_tree::TreeStore;
use cfdp_verifier::Refusal;
use std::alloc::{AllocError, Global};
use std::process::Abort;

/// What is handed in. PDUs are in hexadecimal, without spaces. Transactions are those of entity 1 with these numbers.
#[derive(Clone, Copy)]
pub enum Given {
    Pdu(&'static str),
    Step(u8),
    Cancel(u8),
    Check(u8),
    Take(u8),
}

/// What is replied.
#[derive(Clone, Copy)]
pub enum Replied {
    Admitted(u32, u32),
    Conflict(u8),
    Stored,
    Complete,
    Waiting,
    Faulted(u8),
    /// With the octet of the status.
    Performed(u8),
    Installed,
    Done,
    Cancelled,
    /// The outcome is sent as this Finished PDU.
    Finished(&'static str),
    Idle,
    JournalFull,
}

/// A file: its path, how many octets it has, and their checksum.
pub type Existing = (&'static [u8], u64, u32);

/// One after another.
#[derive(Clone, Copy)]
pub enum Row {
    /// An event, and the reply.
    On(Given, Replied),
    /// The blocks that are free, and those of them that nobody was granted.
    Store(u32, u32),
    /// All that exists, in path order.
    Existing(&'static [Existing]),
    /// What is missing of a transaction's file.
    Gaps(u8, &'static [(u64, u64)]),
    /// The blocks and the steps that a transaction spent.
    Spent(u8, i64, u32),
    /// How far a transaction is: `None` where it is not known.
    Phase(u8, Option<Phase>),
    /// The first transaction that is performed.
    Runnable(Option<u8>),
    /// How far a transaction's file has come: the end of the last octet kept, and the offset up to which gaps are
    /// reported.
    Reached(u8, u64, u64),
    /// The size and the destination file name of a transaction's Metadata.
    Metadata(u8, u64, &'static [u8]),
    /// All transactions, in order of admission.
    Order(&'static [u8]),
    /// The first transaction whose outcome can be taken.
    Over(Option<u8>),
}

/// Rows under a name.
pub type Case = (&'static str, &'static [Row]);

impl Row {
    /// What it is about.
    fn about(self) -> &'static str {
        match self {
            Row::On(..) => "the reply",
            Row::Store(..) => "the free blocks",
            Row::Existing(_) => "what exists",
            Row::Gaps(..) => "the gaps",
            Row::Spent(..) => "what was spent",
            Row::Phase(..) => "the phase",
            Row::Runnable(_) => "the first that is performed",
            Row::Reached(..) => "how far the file has come",
            Row::Metadata(..) => "the Metadata",
            Row::Order(_) => "the order of admission",
            Row::Over(_) => "the first outcome",
        }
    }
}

/// The transaction of entity 1 with this number.
pub fn id(number: u8) -> TransactionId {
    TransactionId {
        source: 1,
        number: u64::from(number),
    }
}

/// The octets of a hexadecimal text, which has some: only memory can be refused.
pub fn octets_of(alloc: Global, text: &str) -> Result<Vec<u8>, Memory> {
    hex::decode(alloc, text).map_err(|_| AllocError)
}

/// The event of octets, which bring one.
pub fn event_in(alloc: Global, octets: &[u8]) -> Result<Event, Memory> {
    match read_event(alloc, octets) {
        Ok(Some(event)) => Ok(event),
        _ => Err(AllocError),
    }
}

impl Given {
    pub fn event(self, alloc: Global) -> Result<Event, Memory> {
        match self {
            Given::Pdu(text) => event_in(alloc, &octets_of(alloc, text)?),
            Given::Step(number) => Ok(Event::Step(id(number))),
            Given::Cancel(number) => Ok(Event::Cancel(id(number))),
            Given::Check(number) => Ok(Event::Check(id(number))),
            Given::Take(number) => Ok(Event::Take(id(number))),
        }
    }
}

/// The status of an octet that is in a response.
fn status_of(rt: &impl Abort, octet: u8) -> Status {
    let status = Status::of_octet(octet);
    assert!(rt; status.is_some(), "no status has the octet {octet}");
    status.unwrap_or(Status::NotAllowed(Action::CreateFile))
}

impl Replied {
    /// The reply. Where it hands out an outcome that is compared by itself: out of memory, which no row says.
    fn reply(self, rt: &impl Abort) -> Reply {
        match self {
            Replied::Admitted(blocks, steps) => Reply::Admitted(blocks, steps),
            Replied::Conflict(number) => Reply::Refused(Refusal::Conflict(id(number))),
            Replied::Stored => Reply::Stored,
            Replied::Complete => Reply::Complete,
            Replied::Waiting => Reply::Waiting,
            Replied::Faulted(condition) => Reply::Faulted(condition),
            Replied::Performed(octet) => Reply::Performed(status_of(rt, octet)),
            Replied::Installed => Reply::Installed,
            Replied::Done => Reply::Done,
            Replied::Cancelled => Reply::Cancelled,
            Replied::Idle => Reply::Idle,
            Replied::JournalFull => Reply::JournalFull,
            Replied::Finished(_) => Reply::Memory,
        }
    }
}

/// Whether the outcome is sent as this Finished PDU.
fn is_sent_as(alloc: Global, outcome: &Outcome, text: &str) -> Result<bool, Memory> {
    match read_pdu(alloc, &octets_of(alloc, text)?) {
        Ok(Pdu::Finished(header, finished)) => {
            Ok(outcome.send && outcome.header == header && outcome.finished == finished)
        }
        Ok(_) => Ok(false),
        Err(_) => Err(AllocError),
    }
}

/// Whether the reply is the one that is reported.
pub fn is_replied(
    rt: &impl Abort,
    alloc: Global,
    reply: &Reply,
    replied: Replied,
) -> Result<bool, Memory> {
    match (replied, reply) {
        (Replied::Finished(text), Reply::Taken(shared)) => is_sent_as(
            alloc,
            shared.outcome(),
            text,
        ),
        (Replied::Finished(_), _) => Ok(false),
        _ => Ok(reply.same(&replied.reply(rt))),
    }
}

/// The entity 2 that has just begun, over an empty store of 64 blocks, where a file of unbounded size has 2,400 octets
/// at most. These limits are good: only memory can be refused.
fn entity_over<S: Filestore>(alloc: Global, store: S) -> Result<Core<S>, Memory>
    requires { S.state store ≡ empty_store 64 (S.state store).takes_no_memory }
{
    match Config::new(2, 64, 2400, 2, 1000, Protected::new()) {
        Ok(config) => Core::new(alloc, config, store),
        Err(_) => Err(AllocError),
    }
}

/// The reply, by one call or by the one that gives it twice.
fn apply<S: Filestore>(
    rt: &impl Abort,
    case: &str,
    core: &mut Core<S>,
    event: &Event,
    twice: bool,
) -> Reply {
    if !twice {
        return core.apply(event);
    }
    let (reply, again) = core.apply_both(event);
    assert!(rt; reply.same(&again), "{case}: the reply that is given twice");
    reply
}

/// What stays the same when out of memory: how far a transaction is, what it was granted and whether it holds
/// leases, the free blocks and those to spare, and the first transaction that is performed.
type KeptState = (
    Option<Phase>,
    Option<(u32, u32)>,
    bool,
    (u32, u32),
    Option<TransactionId>,
);

fn kept_state<S: Filestore>(core: &Core<S>, id: TransactionId) -> KeptState {
    (
        core.phase(id),
        core.grant(id),
        core.leases().holds(id),
        (core.store().free(), core.spare()),
        core.next_runnable(),
    )
}

/// Whether an event may be answered with out of memory: over a store that takes none only Metadata and Take may.
fn may_lack_memory<S: Filestore>(core: &Core<S>, event: &Event) -> bool {
    !core.store().takes_no_memory() || matches!(event, Event::Metadata(..) | Event::Take(_))
}

/// The reply; out of memory, which may be, nothing has changed, and the same event is handed in again.
fn hand_in<S: Filestore>(
    rt: &impl Abort,
    case: &str,
    alloc: Global,
    core: &mut Core<S>,
    event: &Event,
    twice: bool,
) -> Result<Reply, Memory> {
    let before = (
        kept_state(core, event.transaction()),
        core.store().listing(alloc)?,
    );
    let reply = apply(rt, case, core, event, twice);
    if let Reply::Memory = reply {
        let after = (
            kept_state(core, event.transaction()),
            core.store().listing(alloc)?,
        );
        assert!(rt;
            before == after && may_lack_memory(core, event),
            "{case}: an event that was out of memory"
        );
        return Ok(apply(rt, case, core, event, twice));
    }
    Ok(reply)
}

/// Whether the reply to what is handed in is the one that is reported.
fn replies<S: Filestore>(
    rt: &impl Abort,
    case: &str,
    alloc: Global,
    core: &mut Core<S>,
    (given, replied): (Given, Replied),
    twice: bool,
) -> Result<bool, Memory> {
    let event = given.event(alloc)?;
    let reply = hand_in(rt, case, alloc, core, &event, twice)?;
    is_replied(rt, alloc, &reply, replied)
}

/// Whether what exists is what is expected, in path order.
fn is_listed<S: Filestore>(
    alloc: Global,
    core: &Core<S>,
    expected: &[Existing],
) -> Result<bool, Memory> {
    let listing = core.store().listing(alloc)?;
    for (entry, (name, size, checksum)) in listing.iter().zip(expected) {
        let is_there = entry.kind == Kind::File && entry.path == path_of(alloc, name)?;
        if !(is_there && entry.size == *size && entry.checksum == *checksum) {
            return Ok(false);
        }
    }
    Ok(listing.len() == expected.len())
}

/// Whether these are all transactions, in order of admission.
fn has_order<S: Filestore>(core: &Core<S>, numbers: &[u8]) -> bool {
    for (index, number) in numbers.iter().enumerate() {
        if core.transaction_at(index) != Some(id(*number)) {
            return false;
        }
    }
    core.transaction_at(numbers.len()) == None
}

/// Whether a row holds.
fn is_met<S: Filestore>(
    rt: &impl Abort,
    case: &str,
    alloc: Global,
    core: &mut Core<S>,
    row: Row,
    twice: bool,
) -> Result<bool, Memory> {
    match row {
        Row::On(given, replied) => replies(rt, case, alloc, core, (given, replied), twice),
        Row::Existing(expected) => is_listed(alloc, core, expected),
        Row::Store(free, spare) => Ok(core.store().free() == free && core.spare() == spare),
        Row::Gaps(number, expected) => match core.gaps(id(number)) {
            None => Ok(expected.is_empty()),
            Some(gaps) => Ok(gaps.as_slice() == expected),
        },
        Row::Spent(number, blocks, steps) => {
            let spent = (core.blocks_spent(id(number)), core.steps_spent(id(number)));
            Ok(spent == (Some(blocks), Some(steps)))
        }
        Row::Phase(number, phase) => Ok(core.phase(id(number)) == phase),
        Row::Runnable(number) => Ok(core.next_runnable() == number.map(id)),
        Row::Reached(number, progress, reach) => {
            let reached = (core.progress(id(number)), core.reach(id(number)));
            Ok(reached == (Some(progress), Some(reach)))
        }
        Row::Metadata(number, size, name) => match core.metadata(id(number)) {
            None => Ok(false),
            Some(metadata) => {
                Ok(metadata.size == size && metadata.destination_name.as_slice() == name)
            }
        },
        Row::Order(numbers) => Ok(has_order(core, numbers)),
        Row::Over(number) => Ok(core.next_outcome() == number.map(id)),
    }
}

/// Hands the rows of a case to an entity. Of one that does not hold the case, its number and what it is about are
/// reported.
fn meet<S: Filestore>(
    rt: &impl Abort,
    alloc: Global,
    core: &mut Core<S>,
    (name, rows): Case,
    twice: bool,
) -> Result<(), Memory> {
    for (index, row) in rows.iter().enumerate() {
        let met = is_met(rt, name, alloc, core, *row, twice)?;
        assert!(rt; met, "{name}: {}, number {index}", row.about());
    }
    Ok(())
}

/// Hands the rows of a case to an entity that has just begun, over an empty store.
fn run<S: Filestore>(
    rt: &impl Abort,
    alloc: Global,
    case: Case,
    twice: bool,
    store: S,
) -> Result<(), Memory>
    requires { S.state store ≡ empty_store 64 (S.state store).takes_no_memory }
{
    let mut core = entity_over(alloc, store)?;
    meet(rt, alloc, &mut core, case, twice)
}

/// Hands the rows of each case to entities that have just begun, over a store of each kind. Each reply is given once,
/// and by other entities twice.
pub fn check_all(rt: &impl Abort, alloc: Global, cases: &[Case]) -> Result<(), Memory> {
    for case in cases {
        for twice in [false, true] {
            run(rt, alloc, *case, twice, ListStore::new(alloc, 64)?)?;
            run(rt, alloc, *case, twice, TreeStore::new(alloc, 64)?)?;
        }
    }
    Ok(())
}
