//! The receiving entity.

ghost use Rattle.std.specs.Prelude.{◌≡◌, ◌≤◌, ◌<◌, ◌^◌, ℕ, [], max, is_some, drop, length, slice_get, take, false, true, List, IfErr, IfNone, IfOk, IfSome, IsOk, None, OnErr, OnOk, Ok, Some};
ghost use Rattle.std.specs.Option.{option_copied};
ghost use Rattle.cfdp_transactions.specs.World.{next_runnable};
ghost use Rattle.cfdp_pdus.specs.Canonical.{IsHeader, IsSizedEof};
ghost use Rattle.cfdp_pdus.specs.First.{pdu_at};
ghost use Rattle.cfdp_pdus.specs.Sound.{IsNoFileData};
ghost use Rattle.cfdp_pdus.specs.declared.fault.PduFault.TheVariants.{Memory as NoMemory};
ghost use Rattle.cfdp_transactions.specs.declared.event.Event.TheVariants.{Metadata as MetadataCame};
ghost use Rattle.cfdp_sessions.specs.Sessions.{AreDistinct, session_id};
ghost use Rattle.cfdp_status.specs.declared.transaction.TransactionId.{TransactionId as TransactionIdOf};
ghost use Rattle.cfdp_transactions.specs.Sound.{Sound};
ghost use Rattle.cfdp_transactions.specs.Entry.{id_of};
ghost use Rattle.cfdp_transactions.specs.Writable.{IsReadable};
ghost use Rattle.cfdp_receiver.specs.declared.reading.Dropped.TheVariants.{Pdu as PduDropped};
ghost use Rattle.cfdp_receiver.specs.declared.receiver.NotWritten.TheVariants.{NoMore};
ghost use Rattle.cfdp_receiver.specs.State.{AckPdu, CancelAsked, DataPdu, EofPdu, MetadataPdu, OtherPdu, PromptPdu, Expire, Finish, ForgetAsked, ClockMoved, Input, Work, begin, is_closed, session_of, status_of};
ghost use Rattle.cfdp_receiver.specs.Due.{IsSet, first_due, first_over};
ghost use Rattle.cfdp_receiver.specs.Handing.{own_time};
ghost use Rattle.cfdp_receiver.specs.Laws.{AreKnown, EndsThere};
ghost use Rattle.cfdp_receiver.specs.Heard.{IsDropped, IsUnread, heard, input_at};
ghost use Rattle.cfdp_receiver.specs.StateMachine.{IsNotMade, answer_in, mib_fault, has_come, is_any_due, is_last, turn_after};
ghost use Rattle.cfdp_receiver.specs.code.StateMachine.{AtIndex, IsInOrder, IsWholeReceiver};
ghost use Rattle.cfdp_receiver.specs.Sent.{IsNotSent, as_sent, crc_len, longest_sealed, pdus_of};
ghost use Rattle.cfdp_receiver.specs.Turning.{after_input, is_too_far, most_nak_requests, turn};

use crate::answer::{Answer, Unsent};
use crate::reading::{Directed, Dropped, read_data, read_directed};
use crate::state_machine::{Room, StateMachine};
use crate::{Mib, MibFault};
use cfdp_crc::{seal, unseal};
use cfdp_directives::{Ack, Prompt, TransactionStatus};
use cfdp_entity::Entity;
use cfdp_pdus::{Eof, Header, Metadata, PduFault, Piece};
use cfdp_sessions::Session;
use cfdp_status::TransactionId;
use cfdp_transactions::transaction_of;
use std::alloc::{AllocError, Global};
use std::marker::Model;

/// Why a receiver was not made, in the order of tests.
#[derive(Clone, Copy, Debug, PartialEq, Eq)]
pub enum NotMade {
    /// A value of the management information base is out of range.
    Mib(MibFault),
    /// The entity has a transaction already.
    HasTransactions,
    /// Out of memory.
    Memory,
}

/// A receiver was not made. The entity is given back as it was.
#[derive(Drop)]
pub struct Unmade {
    /// Why not.
    pub why: NotMade,
    /// The entity.
    pub entity: Entity,
}

/// Why a PDU of an answer was not written.
#[derive(Clone, Copy, Debug, PartialEq, Eq)]
pub enum NotWritten {
    /// The answer is not that of the last input. Its Finished PDU may have been replaced.
    NotLast,
    /// The answer has fewer PDUs.
    NoMore,
    /// The buffer is too short for the PDU. [`Receiver::longest`] octets are always enough.
    TooShort,
}

/// A receiving entity in acknowledged and unacknowledged mode (CCSDS 727.0-B-5, the procedures at the receiving
/// entity): octets and the present time go in; PDUs to send, indications and the next deadline come out. It has no
/// socket, no clock and no thread.
///
/// A driver hands in what comes, by [`Receiver::receive`], or that time has passed, by [`Receiver::expire`]; then calls
/// [`Receiver::work`] while [`Receiver::has_work`], and [`Receiver::finish`] while [`Receiver::has_outcome`]. It writes
/// the PDUs of each answer before the next input, and sleeps until [`Receiver::deadline`].
///
/// A moment is what the driver's clock says, in ticks. An earlier one than the latest counts as the latest, and where
/// [`Mib::most_ahead`] sets a limit, an input with a moment further ahead is not taken. Where the driver's clock was
/// set, [`Receiver::move_clock`] says so. The receiver's timers run by its own time: the ticks that passed between the
/// moments. With a limit, a driver asks [`Receiver::is_too_far`] first: at a moment that is too far ahead the calls in
/// its loops do nothing, so the loops would not end.
///
/// Contracts see its state, of which each call makes one turn; no two of its sessions have one name, a session is known
/// exactly where the core has an entry, and no transaction that is closed and remembered has a session
/// ([`Receiver::whole`]).
///
/// The longest calls are those of [`Entity`] for the same event. What a receiver adds to them is small: some passes
/// over the sessions of at most 64 transactions, and its timers. `docs/C.md`, 'The longest calls', has the figures.
#[derive(Drop)]
pub struct Receiver {
    machine: StateMachine,
}

impl Model for Receiver {
    ghost use Rattle.std.specs.Coded.{codes};
    ghost use Rattle.cfdp_transactions.specs.code.CoreFields.{nodes_code};
    ghost use Rattle.cfdp_receiver.specs.StateMachine.{StateMachineFields};
    ghost use Rattle.cfdp_receiver.specs.code.StateMachine.{IsWholeReceiver};

    ghost Value = { StateMachineFields };

    ghost coded = { Prim.hlevel (codes, nodes_code) };

    ghost view = { λ r. r.machine };

    ghost invariant = { λ r. IsWholeReceiver r.machine.state };
}

/// The most octets of a Finished PDU with its CRC.
const LONGEST_SEALED_FINISHED: usize = 16_490;

impl Receiver {
    /// A receiver without sessions, over an entity without transactions. Its filestore may hold files.
    ///
    /// # Errors
    ///
    /// The first of: [`NotMade::Mib`], [`NotMade::HasTransactions`], and [`NotMade::Memory`] when out of memory. The
    /// entity is given back as it was. Cost: the memory of 64 sessions and of the names of 16 sources, 256 of each,
    /// which is all that it takes but for Metadata PDUs and outcomes.
    pub fn new(alloc: Global, mib: Mib, entity: Entity) -> Result<Receiver, Unmade>
        ensures ok { IfOk result (λ receiver. receiver.state ≡ begin mib entity) }
        ensures fit { OnOk result (mib_fault mib ≡ None) }
        ensures free { OnOk result (entity.table ≡ []) }
        ensures err { IfErr result (λ unmade. IsNotMade mib entity unmade.why) }
        ensures back { IfErr result (λ unmade. unmade.entity ≡ entity) }
    {
        if let Some(fault) = mib.fault() {
            let why = NotMade::Mib(fault);
            return Err(Unmade { why, entity });
        }
        if entity.core().transaction_at(0).is_some() {
            let why = NotMade::HasTransactions;
            return Err(Unmade { why, entity });
        }
        match Room::new(alloc) {
            Ok(room) => Ok(Receiver {
                machine: StateMachine::new(alloc, mib, entity, room),
            }),
            Err(_) => {
                let why = NotMade::Memory;
                Err(Unmade { why, entity })
            }
        }
    }

    /// What is true at all times: what the laws in [`crate::laws`] ask of a state holds of this one. Does nothing.
    pub fn whole(&self)
        ensures sound { Sound self.now.state.world }
        ensures distinct { AreDistinct self.now.state.sessions }
        ensures known { AreKnown self.now.state }
        ensures over { (id : TransactionIdOf) → is_closed self.now.state id ≡ true → session_of self.now.state id
            ≡ None }
        ensures ends { EndsThere self.now.state.world }
        ensures set { IsSet self.now.state.mib }
        ensures asks { 1 ≤ most_nak_requests self.now.state.mib }
    {
        self.machine.entity.sound();
        self.machine.sessions.distinct();
    }

    /// What is true at all times stays true at each input. Does nothing.
    fn stays_whole(&self)
        ensures { (input : Input) → IsWholeReceiver (after_input self.now.state input) }
    {
        cfdp_transactions::laws::only_take_removes();
        cfdp_transactions::laws::take_removes();
        cfdp_transactions::laws::next_is_sound();
        cfdp_transactions::laws::next_is_promised();
        self.machine.entity.sound();
        self.machine.sessions.distinct();
    }

    /// Takes the octets of one PDU that came. The call may change them, since it takes a CRC off in place: do not use
    /// them after it.
    ///
    /// # Errors
    ///
    /// Why they were dropped; or out of memory, for a Metadata PDU alone. The receiver is as before.
    ///
    /// Cost: that of its event, and at most one pass over the 64 sessions; for a transaction without a session also one
    /// over 16 sources and the 256 names of its own one, for a PDU with a CRC one over its octets, and for a NAK
    /// sequence its gaps. A File Data PDU after one of the same transaction takes at most 1.3 times the instructions of
    /// [`Entity::receive`]: so they were counted for 1,000 octets in order without a CRC.
    pub fn receive(&mut self, alloc: Global, now: u64, octets: &mut [u8]) -> Result<Answer, Dropped>
        ensures ok { IfOk result (λ answer. (input : Input) × (heard now octets.old ≡ Ok input)
            × (turn self.old.state input ≡ (self.new.state, answer_in self.new answer))) }
        ensures last { IfOk result (λ answer. is_last self.new answer ≡ true) }
        ensures turns { OnOk result (self.new.turns ≡ turn_after self.old.turns) }
        ensures err { IfErr result (IsDropped now octets.old) }
        ensures unchanged { OnErr result (self.new ≡ self.old) }
    {
        let len = unseal(octets)?;
        let octets = &octets[..len];
        let Some((header, piece)) = read_data(octets) else {
            return self.take_directed(alloc, now, octets);
        };
        if self.machine.is_too_far(now) {
            return Ok(self.machine.take_nothing());
        }
        let found = self.machine.find(transaction_of(&header));
        if let Some(index) = found
            && self.machine.is_in_order(index, &header, &piece)
        {
            self.machine.count();
            let unsent = self.hear_in_order(now, index, &header, &piece);
            return Ok(unsent.answer(self.machine.turns));
        }
        self.take_data(now, found, &header, &piece)
    }

    /// Makes the turn of the octets of a PDU that has no CRC and is no File Data PDU. The answer is made here and not
    /// in [`Receiver::receive`], where the room for it would be cleared for each PDU.
    fn take_directed(&mut self, alloc: Global, now: u64, octets: &[u8]) -> Result<Answer, Dropped>
        requires { IsNoFileData (pdu_at octets.now) }
        ensures ok { IfOk result (λ answer. (input : Input) × (input_at now octets.now ≡ Ok input)
            × (turn self.old.state input ≡ (self.new.state, answer_in self.new answer))) }
        ensures last { IfOk result (λ answer. is_last self.new answer ≡ true) }
        ensures turns { OnOk result (self.new.turns ≡ turn_after self.old.turns) }
        ensures err { IfErr result (IsUnread now octets.now) }
        ensures unchanged { OnErr result (self.new ≡ self.old) }
    {
        let turn = self.machine.next_turn();
        let mut heard = self.hear_directed(alloc, now, octets);
        if let Ok(answer) = &mut heard {
            self.machine.number(turn, answer);
        }
        heard
    }

    /// Makes the turn of a File Data PDU.
    fn take_data(
        &mut self,
        now: u64,
        found: Option<usize>,
        header: &Header,
        piece: &Piece<'_>,
    ) -> Result<Answer, Dropped>
        requires timely { is_too_far self.old.state now ≡ false }
        requires some { IfSome found (λ index. session_of self.old.state (id_of header.now)
            ≡ slice_get self.old.state.sessions index) }
        requires within { IfSome found (λ index. index < length self.old.state.sessions) }
        requires named { IfSome found (λ index. AtIndex self.old.state.sessions index (λ s. session_id s
            ≡ id_of header.now)) }
        requires none { IfNone found (session_of self.old.state (id_of header.now) ≡ None) }
        requires header { IsHeader header.now }
        ensures ok { IfOk result (λ answer. turn self.old.state (DataPdu now header.now piece.now)
            ≡ (self.new.state, answer_in self.new answer)) }
        ensures last { IfOk result (λ answer. is_last self.new answer ≡ true) }
        ensures turns { OnOk result (self.new.turns ≡ turn_after self.old.turns) }
        ensures taken { IsOk result }
    {
        let turn = self.machine.next_turn();
        let mut heard = self.hear_data(now, found, header, piece);
        if let Ok(answer) = &mut heard {
            self.machine.number(turn, answer);
        }
        heard
    }

    /// The octets of a PDU came that has no CRC and is no File Data PDU.
    fn hear_directed(&mut self, alloc: Global, now: u64, octets: &[u8]) -> Result<Answer, Dropped>
        requires { IsNoFileData (pdu_at octets.now) }
        ensures ok { IfOk result (λ answer. (input : Input) × (input_at now octets.now ≡ Ok input)
            × (turn self.old.state input ≡ (self.new.state, answer_in self.new answer))) }
        ensures err { IfErr result (IsUnread now octets.now) }
        ensures unchanged { OnErr result (self.new ≡ self.old) }
    {
        let directed = read_directed(alloc, octets)?;
        if self.machine.is_too_far(now) {
            return Ok(Answer::not_taken());
        }
        match directed {
            Directed::Metadata(header, metadata) => {
                self.hear_metadata(alloc, now, header, metadata)
            }
            Directed::Eof(header, eof) => Ok(self.hear_eof(alloc, now, &header, eof)),
            Directed::Ack(header, ack) => Ok(self.hear_ack(now, &header, ack)),
            Directed::Prompt(header, prompt) => Ok(self.hear_prompt(now, &header, prompt)),
            Directed::Other(header) => Ok(self.hear_other(now, &header)),
        }
    }

    /// A Metadata PDU came.
    fn hear_metadata(
        &mut self,
        alloc: Global,
        now: u64,
        header: Header,
        metadata: Metadata,
    ) -> Result<Answer, Dropped>
        requires timely { is_too_far self.old.state now ≡ false }
        requires readable { IsReadable (MetadataCame header metadata) }
        ensures ok { IfOk result (λ answer. turn self.old.state (MetadataPdu now header metadata)
            ≡ (self.new.state, answer_in self.new answer)) }
        ensures err { IfErr result (λ why. why ≡ PduDropped NoMemory) }
        ensures unchanged { OnErr result (self.new ≡ self.old) }
    {
        self.stays_whole();
        match self.machine.metadata(alloc, now, header, metadata) {
            Ok(answer) => Ok(answer),
            Err(_) => Err(Dropped::Pdu(PduFault::Memory)),
        }
    }

    /// A File Data PDU came. It is never dropped: its answer is made where [`Receiver::receive`] returns it, and is not
    /// moved.
    fn hear_data(
        &mut self,
        now: u64,
        found: Option<usize>,
        header: &Header,
        piece: &Piece<'_>,
    ) -> Result<Answer, Dropped>
        requires timely { is_too_far self.old.state now ≡ false }
        requires some { IfSome found (λ index. session_of self.old.state (id_of header.now)
            ≡ slice_get self.old.state.sessions index) }
        requires within { IfSome found (λ index. index < length self.old.state.sessions) }
        requires named { IfSome found (λ index. AtIndex self.old.state.sessions index (λ s. session_id s
            ≡ id_of header.now)) }
        requires none { IfNone found (session_of self.old.state (id_of header.now) ≡ None) }
        requires header { IsHeader header.now }
        ensures ok { IfOk result (λ answer. turn self.old.state (DataPdu now header.now piece.now)
            ≡ (self.new.state, answer_in self.new answer)) }
        ensures taken { IsOk result }
    {
        self.stays_whole();
        self.machine.later(now);
        Ok(self.machine.data(found, header, piece))
    }

    /// A File Data PDU came with which nothing is sent, of the session with this index.
    fn hear_in_order(
        &mut self,
        now: u64,
        index: usize,
        header: &Header,
        piece: &Piece<'_>,
    ) -> Unsent
        requires timely { is_too_far self.old.state now ≡ false }
        requires order { IsInOrder self.old.state header.now piece.now index }
        requires header { IsHeader header.now }
        ensures ok { turn self.old.state (DataPdu now header.now piece.now)
            ≡ (self.new.state, answer_in self.new result) }
        ensures turns { self.new.turns ≡ self.old.turns }
    {
        self.stays_whole();
        self.machine.later(now);
        self.machine.keeps(index, header, piece)
    }

    /// An EOF PDU came.
    fn hear_eof(&mut self, alloc: Global, now: u64, header: &Header, eof: Eof) -> Answer
        requires timely { is_too_far self.old.state now ≡ false }
        requires header { IsHeader header.now }
        requires sized { IsSizedEof header.now.large eof }
        ensures { turn self.old.state (EofPdu now header.now eof) ≡ (self.new.state, answer_in self.new result) }
    {
        self.stays_whole();
        self.machine.later(now);
        self.machine.eof(alloc, header, eof)
    }

    /// An ACK PDU came.
    fn hear_ack(&mut self, now: u64, header: &Header, ack: Ack) -> Answer
        requires timely { is_too_far self.old.state now ≡ false }
        ensures { turn self.old.state (AckPdu now header.now ack) ≡ (self.new.state, answer_in self.new result) }
    {
        self.stays_whole();
        self.machine.later(now);
        self.machine.ack(header, ack)
    }

    /// A Prompt PDU came.
    fn hear_prompt(&mut self, now: u64, header: &Header, prompt: Prompt) -> Answer
        requires timely { is_too_far self.old.state now ≡ false }
        ensures { turn self.old.state (PromptPdu now header.now prompt) ≡ (self.new.state, answer_in self.new result) }
    {
        self.stays_whole();
        self.machine.later(now);
        self.machine.prompt(header, prompt)
    }

    /// A NAK, Keep Alive or Finished PDU came.
    fn hear_other(&mut self, now: u64, header: &Header) -> Answer
        requires timely { is_too_far self.old.state now ≡ false }
        ensures { turn self.old.state (OtherPdu now header.now) ≡ (self.new.state, answer_in self.new result) }
    {
        self.stays_whole();
        self.machine.later(now);
        self.machine.other(header)
    }

    /// Time has passed: the first timer that is due is served, of the first session that has one. Takes no memory.
    /// Cost: at most one pass over the 64 sessions, that of its event, and for a NAK sequence its gaps.
    pub fn expire(&mut self, now: u64) -> Answer
        ensures ok { turn self.old.state (Expire now) ≡ (self.new.state, answer_in self.new result) }
        ensures last { is_last self.new result ≡ true }
        ensures turns { self.new.turns ≡ turn_after self.old.turns }
    {
        if self.machine.is_too_far(now) {
            return self.machine.take_nothing();
        }
        let turn = self.machine.next_turn();
        self.stays_whole();
        self.machine.later(now);
        let answer = self.machine.expire();
        self.machine.end_turn(turn, answer)
    }

    /// The next item of the first transaction that has one is performed: the file is installed, or a request is
    /// performed. Takes no memory. Cost: that of its event, which the request says, and a pass over the core's 64
    /// transactions. No pass over the sessions.
    pub fn work(&mut self, now: u64) -> Answer
        ensures ok { turn self.old.state (Work now) ≡ (self.new.state, answer_in self.new result) }
        ensures last { is_last self.new result ≡ true }
        ensures turns { self.new.turns ≡ turn_after self.old.turns }
    {
        if self.machine.is_too_far(now) {
            return self.machine.take_nothing();
        }
        let turn = self.machine.next_turn();
        self.stays_whole();
        self.machine.later(now);
        let answer = self.machine.work();
        self.machine.end_turn(turn, answer)
    }

    /// Takes the outcome of the first transaction that is over. The answer has its indication, and its Finished PDU
    /// where one has to be sent (CCSDS 727.0-B-5, the notice of completion procedures at the receiving entity). Of an
    /// abandoned transaction it has neither.
    ///
    /// # Errors
    ///
    /// [`AllocError`] when out of memory, where a transaction is over: the receiver is as before, and the call can be
    /// made again.
    ///
    /// Cost: at most one pass over the 64 sessions, a copy of the requests' names, and the octets of the PDU.
    pub fn finish(&mut self, alloc: Global, now: u64) -> Result<Answer, AllocError>
        ensures ok { IfOk result (λ answer. turn self.old.state (Finish now)
            ≡ (self.new.state, answer_in self.new answer)) }
        ensures last { IfOk result (λ answer. is_last self.new answer ≡ true) }
        ensures turns { OnOk result (self.new.turns ≡ turn_after self.old.turns) }
        ensures lean { first_over self.old.state.world self.old.state.sessions ≡ None → IsOk result }
        ensures unchanged { OnErr result (self.new ≡ self.old) }
    {
        if self.machine.is_too_far(now) {
            return Ok(self.machine.take_nothing());
        }
        let turn = self.machine.next_turn();
        self.stays_whole();
        let answer = self.machine.finish(alloc, now)?;
        Ok(self.machine.end_turn(turn, answer))
    }

    /// The user cancels a transaction (condition code 15). Takes no memory. Cost: that of its event, a look-up, and at
    /// most one pass over the 64 sessions.
    pub fn cancel(&mut self, now: u64, id: TransactionId) -> Answer
        ensures ok { turn self.old.state (CancelAsked now id) ≡ (self.new.state, answer_in self.new result) }
        ensures last { is_last self.new result ≡ true }
        ensures turns { self.new.turns ≡ turn_after self.old.turns }
    {
        if self.machine.is_too_far(now) {
            return self.machine.take_nothing();
        }
        let turn = self.machine.next_turn();
        self.stays_whole();
        self.machine.later(now);
        let answer = self.machine.cancel(id);
        self.machine.end_turn(turn, answer)
    }

    /// The names of all transactions that were closed are forgotten. Call it when a sender's transaction sequence
    /// numbers start again, or when a 17th source has to be let in: a source with a session keeps its place, and each
    /// other one loses it. A Metadata PDU of a closed transaction that comes once more begins it anew then. Takes no
    /// memory. Cost: for each of 16 sources a pass over the 64 sessions.
    pub fn forget_closed(&mut self) -> Answer
        ensures ok { turn self.old.state ForgetAsked ≡ (self.new.state, answer_in self.new result) }
        ensures last { is_last self.new result ≡ true }
        ensures turns { self.new.turns ≡ turn_after self.old.turns }
    {
        let turn = self.machine.next_turn();
        self.stays_whole();
        let answer = self.machine.forget();
        self.machine.end_turn(turn, answer)
    }

    /// The driver's clock was set, back or ahead, and now says this moment. What is left of each timer stays.
    /// Without this call an earlier moment counts as the latest, so that after one wrong reading, far ahead, no timer
    /// would be due until the clock comes to it. A moment is never too far ahead for this call: where there is a limit,
    /// a driver begins with it. Takes no memory. Cost: constant.
    pub fn move_clock(&mut self, now: u64) -> Answer
        ensures ok { turn self.old.state (ClockMoved now) ≡ (self.new.state, answer_in self.new result) }
        ensures last { is_last self.new result ≡ true }
        ensures turns { self.new.turns ≡ turn_after self.old.turns }
    {
        let turn = self.machine.next_turn();
        self.stays_whole();
        let answer = self.machine.move_clock(now);
        self.machine.end_turn(turn, answer)
    }

    /// Whether a moment is further ahead of the latest one than [`Mib::most_ahead`] allows: then an input is not taken.
    /// In constant time.
    pub fn is_too_far(&self, now: u64) -> bool
        ensures { result ≡ is_too_far self.now.state now }
    {
        self.machine.is_too_far(now)
    }

    /// The moment from which on a timer is due: `None` where none runs, or where it is due after the greatest moment.
    /// It may be further ahead than [`Mib::most_ahead`] allows: then call [`Receiver::expire`] at moments before it.
    /// Takes no memory. Cost: one pass over the 64 sessions, with a look-up for each.
    pub fn deadline(&self) -> Option<u64>
        ensures { (now : ℕ) → now < 2 ^ 64 → has_come result now
            ≡ is_any_due (first_due (record self.now.state { now = own_time self.now.state now })
            self.now.state.sessions) }
    {
        match self.machine.deadline() {
            None => None,
            Some(time) => self.machine.by_clock(time),
        }
    }

    /// Whether a transaction has an item to be performed. Cost: a pass over the core's table.
    pub fn has_work(&self) -> bool
        ensures { result ≡ is_some (next_runnable self.now.state.world.table) }
    {
        self.machine.entity.core().next_runnable().is_some()
    }

    /// Whether a transaction is over whose outcome was not taken. Cost: a pass over the sessions.
    pub fn has_outcome(&self) -> bool
        ensures { result ≡ is_some (first_over self.now.state.world self.now.state.sessions) }
    {
        self.machine.first_over().is_some()
    }

    /// What an ACK PDU says of a transaction (CCSDS 727.0-B-5 §5.2.4). Cost: a pass over the sessions, and over the
    /// names of its source that are remembered.
    pub fn status(&self, id: TransactionId) -> TransactionStatus
        ensures { result ≡ status_of self.now.state id }
    {
        self.machine.status(id)
    }

    /// Returns the session of a transaction, if it has one: what is kept of it beside the core. Its moments are those
    /// of the receiver's own time: the ticks that have passed for it. Cost: a pass over the sessions.
    pub fn session(&self, id: TransactionId) -> Option<&Session>
        ensures { option_copied result ≡ session_of self.now.state id }
    {
        self.machine.sessions.get(id)
    }

    /// The entity, for what it says of transactions, and for its filestore. Costs nothing.
    pub fn entity(&self) -> &Entity
        ensures { result.now ≡ self.now.state.world }
    {
        &self.machine.entity
    }

    /// How many octets a PDU that [`Receiver::write`] writes has at most: 16,490, or those of the longest NAK PDU, if
    /// these are more. In constant time.
    pub fn longest(&self) -> usize
        ensures { result ≡ max longest_sealed self.now.state.mib.longest_nak }
    {
        LONGEST_SEALED_FINISHED.max(usize::from(self.machine.mib.longest_nak))
    }

    /// Writes the PDU with this number of an answer, counted from 0, to the front of a buffer, and returns its length
    /// in octets. It has a CRC where the management information base says so. The octets after it are as before. The
    /// answer has to be one of this receiver, which can't tell it from one of another receiver. Takes no memory. Cost:
    /// the octets.
    ///
    /// # Errors
    ///
    /// The first of: [`NotWritten::NotLast`] where the answer is not that of the last input, [`NotWritten::NoMore`]
    /// where it has no such PDU, and [`NotWritten::TooShort`] where the buffer has no room for the PDU, which it has if
    /// it has [`Receiver::longest`] octets. An input that was dropped has no answer, so the one before it is still the
    /// last.
    pub fn write(&self, answer: &Answer, number: usize, out: &mut [u8]) -> Result<usize, NotWritten>
        ensures ok { IfOk result (λ len. (octets : List ℕ)
            × (slice_get (pdus_of self.now answer.now) number ≡ Some octets)
            × (as_sent self.now.state.mib octets ≡ take len out.new)) }
        ensures last { OnOk result (is_last self.now answer.now ≡ true) }
        // So the length is that of the octets as sent.
        ensures room { IfOk result (λ len. len ≤ length out.old) }
        ensures rest { IfOk result (λ len. drop len out.new ≡ drop len out.old) }
        ensures err { IfErr result (IsNotSent (is_last self.now answer.now) (crc_len self.now.state.mib)
            (slice_get (pdus_of self.now answer.now) number) (length out.old)) }
        // A buffer with `longest` octets is never too short, whatever the last answer.
        ensures enough { is_last self.now answer.now ≡ true → max longest_sealed self.now.state.mib.longest_nak
            ≤ length out.old → IfErr result (λ why. why ≡ NoMore) }
        ensures unchanged { OnErr result (out.new ≡ out.old) }
    {
        if answer.turn != self.machine.turns {
            return Err(NotWritten::NotLast);
        }
        if !self.machine.mib.has_crc {
            return self.machine.put(answer, number, out);
        }
        let room = out.len().saturating_sub(2);
        let len = self.machine.put(answer, number, &mut out[..room])?;
        Ok(seal(out, len).unwrap_or(len))
    }
}
