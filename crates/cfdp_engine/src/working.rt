//! Workers.

ghost use Rattle.std.specs.Prelude.{◌≡◌, [], IfOk, IsTrue, OnErr, OnOk, min};
ghost use Rattle.std.specs.Arc.{arc_value};
ghost use Rattle.cfdp_engine.specs.Sharing.{AddsReceipts, IsReceived};
ghost use Rattle.cfdp_pdus.specs.First.{pdu_at};
ghost use Rattle.cfdp_pdus.specs.Receiving.{IsCopied};
ghost use Rattle.cfdp_transactions.specs.MostSettled.{most_settled};
ghost use Rattle.cfdp_engine.specs.Working.{AreSteps, BeginAll, BringAll, Brings, event_in, is_passed_over, passed_over};
ghost use Rattle.cfdp_engine.specs.code.Working.{BeginsOne, PassesOver};

use crate::gate::Gate;
use crate::message::Message;
use crate::seat::Seat;
use crate::shared::Shared;
use crate::stop::Stop;
use arrayvec::ArrayVec;
use cfdp_actions::Filestore;
use cfdp_pdus::PduFault;
use cfdp_transactions::{Event, MOST_SETTLED, read_event};
use crossbeam_channel::{Receiver, RecvError};
use std::alloc::{AllocError, Global};
use std::sync::{Arc, Wait};

/// What a worker leaves.
#[derive(Drop)]
pub struct Worked {
    /// Its seat, with the receipts of what it handed in after those that it had.
    pub seat: Seat,
    /// The messages that it took, in order.
    pub taken: Vec<Message>,
    /// How many of them were PDUs without an event; after 2⁶⁴ - 1 that number stays.
    pub dropped: u64,
    /// Why it stopped before its inbox was closed.
    pub stopped: Option<Stop>,
}

/// The event of a PDU's octets. `None` where they spell no PDU, or one that is no event of a receiving entity.
///
/// # Errors
///
/// Out of memory, for a Metadata PDU or a File Data PDU alone.
fn event_in(alloc: Global, octets: &[u8]) -> Result<Option<Event>, AllocError>
    ensures event { IfOk result (λ event. event ≡ event_in octets.now) }
    ensures memory { OnErr result (IsCopied (pdu_at octets.now)) }
{
    match read_event(alloc, octets) {
        Ok(event) => Ok(event),
        Err(PduFault::Memory) => Err(AllocError),
        Err(_) => Ok(None),
    }
}

/// The first handle of a value that several holders share; it is dropped where there is no memory.
fn first_handle<T: Drop>(alloc: Global, value: T) -> Result<Arc<T, Global>, AllocError>
    ensures { IfOk result (λ handle. arc_value handle ≡ value) }
{
    Ok(Arc::new(alloc, value)?)
}

/// Hands in an event of the worker's own: the index of its entry.
fn hand_in<S: Filestore, R: Wait>(
    rt: &R,
    alloc: Global,
    shared: &Shared<S>,
    seat: &mut Seat,
    event: Event,
) -> Result<u32, Stop>
    ensures ok { IfOk result (λ index. IsReceived seat.old seat.new index event) }
    ensures err { OnErr result (seat.new ≡ seat.old) }
{
    let event = first_handle(alloc, event)?;
    shared.accept(rt, seat, event)
}

/// Steps what can be stepped.
fn run<S: Filestore, R: Wait>(
    rt: &R,
    alloc: Global,
    shared: &Shared<S>,
    seat: &mut Seat,
) -> Result<(), Stop>
    ensures { AddsReceipts (AreSteps most_settled) seat.old seat.new }
{
    for _ in 0..MOST_SETTLED {
        let Some(id) = shared.next_runnable(rt) else {
            break;
        };
        hand_in(rt, alloc, shared, seat, Event::Step(id))?;
    }
    Ok(())
}

/// Hands in what a message brings. It returns whether the message is a PDU without an event, which is passed over and
/// counted: such a PDU never stops the worker, unless the copy runs out of memory.
fn serve<S: Filestore, R: Wait>(
    rt: &R,
    alloc: Global,
    shared: &Shared<S>,
    seat: &mut Seat,
    message: &Message,
) -> Result<bool, Stop>
    ensures brings { OnOk result (AddsReceipts (Brings message.now) seat.old seat.new) }
    ensures passed_over { IfOk result (λ dropped. dropped ≡ is_passed_over message.now) }
    ensures goes_on { IsTrue (is_passed_over message.now) → PassesOver message.now result }
    ensures stopped { OnErr result (AddsReceipts (BeginsOne message.now) seat.old seat.new) }
{
    match message {
        Message::Run => run(rt, alloc, shared, seat)?,
        Message::Event(event) => {
            let event = Arc::try_clone(event)?;
            shared.accept(rt, seat, event)?;
        }
        Message::Pdu(octets) => {
            let Some(event) = event_in(alloc, octets)? else {
                return Ok(true);
            };
            hand_in(rt, alloc, shared, seat, event)?;
        }
    }
    Ok(false)
}

/// How many messages a worker takes from its inbox at once.
const HANDFUL: usize = 16;

/// The messages that come to a worker, in order. All that are in the inbox are taken at once, 17 at most, so that a
/// sender that waits for room is woken once for all of them.
#[derive(Drop)]
struct Incoming<'a> {
    inbox: &'a Receiver<Message, Global>,
    /// Those that were taken and are not handed in yet, the last one first.
    taken: ArrayVec<Option<Message>, HANDFUL>,
}

impl<'a> Incoming<'a> {
    /// The next message, for which it waits. Takes no memory.
    ///
    /// # Errors
    ///
    /// The inbox is closed and empty.
    fn next<R: Wait>(&mut self, rt: &R) -> Result<Message, RecvError> {
        if let Some(Some(message)) = self.taken.pop() {
            return Ok(message);
        }
        let first = self.inbox.recv(rt)?;
        for _ in 0..HANDFUL {
            if self.taken.is_full() {
                break;
            }
            let Ok(message) = self.inbox.try_recv(rt) else {
                break;
            };
            self.taken.push(Some(message));
        }
        self.taken.reverse();
        Ok(first)
    }
}

/// Takes messages until the inbox is closed, and notes in `worked` what becomes of them.
fn serve_all<S: Filestore, R: Wait, G: Gate>(
    rt: &R,
    alloc: Global,
    shared: &Shared<S>,
    inbox: &Receiver<Message, Global>,
    gate: &G,
    worked: &mut Worked,
) -> Result<(), Stop>
    requires taken { worked.old.taken.items ≡ [] }
    requires dropped { worked.old.dropped ≡ 0 }
    ensures finished { OnOk result (AddsReceipts (BringAll worked.new.taken.items) worked.old.seat worked.new.seat) }
    ensures dropped { OnOk result (worked.new.dropped ≡ min (passed_over worked.new.taken.items) u64.MAX) }
    ensures stopped { OnErr result (AddsReceipts (BeginAll worked.new.taken.items) worked.old.seat worked.new.seat) }
    ensures running { worked.new.stopped ≡ worked.old.stopped }
{
    let mut turn = 0u64;
    let mut incoming = Incoming {
        inbox,
        taken: ArrayVec::new(),
    };
    for _ in rt.forever() {
        worked.taken.reserve(1)?;
        let Ok(message) = incoming.next(rt) else {
            break;
        };
        gate.pass(rt, worked.seat.number(), turn);
        turn = turn.saturating_add(1);
        let served = serve(rt, alloc, shared, &mut worked.seat, &message);
        worked.taken.push_reserved(message);
        if served? {
            worked.dropped = worked.dropped.saturating_add(1);
        }
    }
    Ok(())
}

/// Hands in what the inbox brings, in order, until it is closed: each PDU's event and each event, and for each
/// [`Message::Run`] steps, as long as a transaction can be stepped and at most 4,224 times. With each message it passes
/// the gate first. The inbox is closed with it: it is given up where the worker stops.
///
/// A PDU that is refused for another cause than memory, or is no event of a receiving entity, is passed over and
/// counted. No lock is held while it waits for a message, is at the gate or reads a PDU. The room of a message in what
/// it took is made before it is received. Cost: for each message that of [`Shared::accept`], and of reading a PDU.
///
/// It stops out of memory, or where the journal is full.
pub fn work<S: Filestore, R: Wait, G: Gate>(
    rt: &R,
    alloc: Global,
    shared: &Shared<S>,
    seat: Seat,
    inbox: Receiver<Message, Global>,
    gate: &G,
) -> Worked
    ensures finished { result.stopped ≡ None → AddsReceipts (BringAll result.taken.items) seat result.seat }
    ensures dropped { result.stopped ≡ None → result.dropped ≡ min (passed_over result.taken.items) u64.MAX }
    ensures stopped { AddsReceipts (BeginAll result.taken.items) seat result.seat }
{
    let mut worked = Worked {
        seat,
        taken: Vec::new(alloc),
        dropped: 0,
        stopped: None,
    };
    if let Err(stop) = serve_all(rt, alloc, shared, &inbox, gate, &mut worked) {
        worked.stopped = Some(stop);
    }
    worked
}
