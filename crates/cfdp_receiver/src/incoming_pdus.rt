//! PDUs that come: Metadata, File Data, EOF, ACK and Prompt.

ghost use Rattle.std.specs.Prelude.{◌≡◌, ◌<◌, ◌^◌, ◌∷◌, [], if◌then◌else◌, Bool, true, false, not, ◌&&◌, ◌==◌, length, slice_get, None, Some, IfNone, IfOk, IfSome, OnErr};
ghost use Rattle.cfdp_pdus.specs.Bits.{fss};
ghost use Rattle.cfdp_pdus.specs.Canonical.{IsHeader, IsSizedEof};
ghost use Rattle.cfdp_pdus.specs.Codes.{no_error};
ghost use Rattle.cfdp_directives.specs.Spelling.{IsSizedAck};
ghost use Rattle.cfdp_sessions.specs.Sessions.{SessionFields, session_id};
ghost use Rattle.cfdp_sessions.specs.declared.session.Stage.TheVariants.{Held as HeldStage, Known as KnownStage};
ghost use Rattle.cfdp_transactions.specs.Entry.{id_of};
ghost use Rattle.cfdp_transactions.specs.declared.event.Event.TheVariants.{Metadata as MetadataCame};
ghost use Rattle.cfdp_transactions.specs.Next.{next};
ghost use Rattle.cfdp_transactions.specs.World.{World, entry_of};
ghost use Rattle.cfdp_transactions.specs.Writable.{IsReadable};
ghost use Rattle.cfdp_receiver.specs.State.{MetadataPdu, DataPdu, EofPdu, AckPdu, PromptPdu, OtherPdu, at_of, past_status, is_closed, session_of, status_of};
ghost use Rattle.cfdp_receiver.specs.declared.indication.Indication.TheVariants.{FileSegmentRecv};
ghost use Rattle.cfdp_receiver.specs.Handing.{is_list_begun, is_ours};
ghost use Rattle.cfdp_receiver.specs.Due.{is_receiving_at};
ghost use Rattle.cfdp_receiver.specs.StateMachine.{StateMachineFields, answer_in, listed};
ghost use Rattle.cfdp_receiver.specs.code.StateMachine.{AtIndex, HavePlaces, IsInOrder, begins_no_gap, IsSessionAt, Turns, at_moment, machine_heard, in_world, all_naks, with_session};
ghost use Rattle.cfdp_receiver.specs.Laws.{AreKnown};
ghost use Rattle.cfdp_receiver.specs.Turning.{acked, acks_only, asks_at_once, described, foreign, is_immediate, is_kept_by, progress_at, prompted, quiet, roused, stage_in, takes_prompts};

use crate::answer::{Answer, NakSequence, Unsent, turned};
use crate::state_machine::StateMachine;
use crate::{Became, Described, Indication, JointPhase, Word};
use cfdp_directives::{Ack, Prompt, TransactionStatus};
use cfdp_pdus::condition::{FILESTORE_REJECTION, NO_ERROR};
use cfdp_pdus::{Eof, Header, Metadata, Piece, directive};
use cfdp_retransmission::Timer;
use cfdp_sessions::{Ending, Session, Stage};
use cfdp_status::TransactionId;
use cfdp_transactions::{Event, Reply, transaction_of};
use std::alloc::{AllocError, Global};

/// The ACK PDU of an EOF PDU, in acknowledged mode.
fn acked(header: &Header, condition: u8, status: TransactionStatus) -> Option<(Header, Ack)>
    requires header { IsHeader header.now }
    requires condition { condition < 16 }
    ensures value { listed result ≡ acked header.now condition status }
    ensures sized { IfSome result (λ a. IsHeader a.0 × IsSizedAck a.1) }
{
    if !header.acknowledged {
        return None;
    }
    let ack = Ack {
        directive: directive::EOF,
        condition,
        status,
    };
    Some((turned(header), ack))
}

/// An EOF PDU is acknowledged, and no more.
fn acks_only(header: &Header, eof: Eof, status: TransactionStatus, word: Word) -> Answer
    requires header { IsHeader header.now }
    requires condition { eof.condition < 16 }
    ensures { (M : StateMachineFields) → answer_in M result ≡ acks_only header.now eof status word }
{
    Answer::said(transaction_of(header), word).with_ack(acked(header, eof.condition, status))
}

/// File-Segment-Recv, where the core kept the octets of a File Data PDU.
fn segment_indicated(id: TransactionId, piece: &Piece<'_>, reply: &Reply) -> Option<Indication>
    ensures { listed result ≡ (if is_kept_by reply.now then FileSegmentRecv id piece.now.offset
        (length piece.now.octets) ∷ [] else []) }
{
    if matches!(reply, Reply::Stored | Reply::Complete) {
        let len = piece.octets.len() as u64;
        Some(Indication::FileSegmentRecv(id, piece.offset, len))
    } else {
        None
    }
}

/// What a Metadata PDU says of its transaction.
fn described(id: TransactionId, metadata: &Metadata) -> Indication
    ensures { result ≡ described id metadata.now }
{
    Indication::MetadataRecv(
        id,
        Described {
            size: metadata.size,
            closure: metadata.closure,
            checksum_type: metadata.checksum_type,
        },
    )
}

impl StateMachine {
    /// The answer to a PDU that is not for the receiver of a file, or for another entity.
    pub(crate) fn foreign(&self, header: &Header) -> Answer
        ensures { (M : StateMachineFields) → answer_in M result ≡ quiet (foreign header.now) }
    {
        if header.toward_sender {
            Answer::quiet(Became::NotOurs)
        } else {
            Answer::said(transaction_of(header), Word::NotForUs)
        }
    }

    /// A Metadata PDU came (CCSDS 727.0-B-5 §5.2.5).
    pub(crate) fn metadata(
        &mut self,
        alloc: Global,
        now: u64,
        header: Header,
        metadata: Metadata,
    ) -> Result<Answer, AllocError>
        requires { IsReadable (MetadataCame header metadata) }
        ensures ok { IfOk result (λ answer. Turns (at_moment now self.old) self.new answer
            (MetadataPdu now header metadata)) }
        ensures unchanged { OnErr result (self.new ≡ self.old) }
    {
        if !self.is_ours(&header) {
            self.later(now);
            return Ok(self.foreign(&header));
        }
        let id = transaction_of(&header);
        let Some(index) = self.find(id) else {
            return self.metadata_of_none(alloc, now, header, metadata);
        };
        match self.session(index).stage {
            Stage::Held(eof) if header.acknowledged => {
                self.joins(alloc, now, index, header, metadata, eof)
            }
            Stage::Held(_) => {
                self.later(now);
                Ok(Answer::said(id, Word::Idle))
            }
            Stage::Known => self.metadata_again(now, index, header, metadata),
            Stage::Over(_) | Stage::Waiting => {
                self.later(now);
                Ok(Answer::said(id, Word::Duplicate))
            }
        }
    }

    /// Hands a Metadata event to the core. Only then is the moment noted.
    fn hand_metadata(
        &mut self,
        now: u64,
        header: Header,
        metadata: Metadata,
    ) -> Result<Reply, AllocError>
        requires { IsReadable (MetadataCame header metadata) }
        ensures reply { IfOk result (λ reply. next self.old.state.world (MetadataCame header metadata)
            ≡ (self.new.state.world, reply)) }
        ensures moment { IfOk result (λ reply. self.new ≡ in_world self.new.state.world (at_moment now self.old)) }
        ensures unchanged { OnErr result (self.new ≡ self.old) }
    {
        match self.entity.apply_owned(Event::Metadata(header, metadata)) {
            Reply::Memory => Err(AllocError),
            reply => {
                self.later(now);
                Ok(reply)
            }
        }
    }

    /// The stage of a transaction whose Metadata was handed to the core, which keeps no entry of one with too many
    /// requests.
    fn stage_in(&self, id: TransactionId, is_sent: bool, at_fault: u64) -> Stage
        ensures { result ≡ stage_in (entry_of self.now.state.world id) is_sent at_fault }
    {
        match self.entity.core().phase(id) {
            Some(_) => Stage::Known,
            None => Stage::Over(Ending {
                condition: FILESTORE_REJECTION,
                is_sent,
                at_fault,
            }),
        }
    }

    /// Metadata of a transaction that has no session.
    fn metadata_of_none(
        &mut self,
        alloc: Global,
        now: u64,
        header: Header,
        metadata: Metadata,
    ) -> Result<Answer, AllocError>
        requires ours { is_ours self.old.state header ≡ true }
        requires none { session_of self.old.state (id_of header) ≡ None }
        requires readable { IsReadable (MetadataCame header metadata) }
        ensures ok { IfOk result (λ answer. Turns (at_moment now self.old) self.new answer
            (MetadataPdu now header metadata)) }
        ensures unchanged { OnErr result (self.new ≡ self.old) }
    {
        let id = transaction_of(&header);
        let is_closed = self.closed.remembers(id);
        if is_closed {
            self.later(now);
            return Ok(Answer::said(id, Word::Duplicate));
        }
        if let Some(word) = self.no_room(id) {
            self.later(now);
            return Ok(Answer::said(id, word));
        }
        let indicated = described(id, &metadata);
        let is_sent = header.acknowledged || metadata.closure;
        let reply = self.hand_metadata(now, header, metadata)?;
        let stage = self.stage_in(id, is_sent, header.destination);
        let session = self.begun(alloc, header, stage);
        self.begin(session);
        Ok(Answer::replied(id, reply).with_indication(Some(indicated)))
    }

    /// Metadata of a transaction whose EOF PDU is held. It asks for nothing: the NAK PDUs that asked for the Metadata
    /// PDU asked for the whole file, too.
    fn joins(
        &mut self,
        alloc: Global,
        now: u64,
        index: usize,
        header: Header,
        metadata: Metadata,
        eof: Eof,
    ) -> Result<Answer, AllocError>
        requires ours { is_ours self.old.state header ≡ true }
        requires here { IsSessionAt self.old.state (id_of header) index }
        requires held { AtIndex self.old.state.sessions index (λ s. s.stage ≡ HeldStage eof) }
        requires acknowledged { header.acknowledged ≡ true }
        requires readable { IsReadable (MetadataCame header metadata) }
        ensures ok { IfOk result (λ answer. Turns (at_moment now self.old) self.new answer
            (MetadataPdu now header metadata)) }
        ensures unchanged { OnErr result (self.new ≡ self.old) }
    {
        let id = transaction_of(&header);
        let indicated = described(id, &metadata);
        let reply = self.hand_metadata(now, header, metadata)?;
        let first = self.session(index).header;
        self.entity.eof(&first, eof);
        let stage = self.stage_in(id, true, header.destination);
        let session = self.begun(alloc, header, stage);
        self.sessions.look_first(index);
        self.sessions.put(session);
        Ok(Answer::replied(id, reply).with_indication(Some(indicated)))
    }

    /// Metadata of a transaction that the core knows.
    fn metadata_again(
        &mut self,
        now: u64,
        index: usize,
        header: Header,
        metadata: Metadata,
    ) -> Result<Answer, AllocError>
        requires ours { is_ours self.old.state header ≡ true }
        requires here { IsSessionAt self.old.state (id_of header) index }
        requires known { AtIndex self.old.state.sessions index (λ s. s.stage ≡ KnownStage) }
        requires readable { IsReadable (MetadataCame header metadata) }
        ensures ok { IfOk result (λ answer. Turns (at_moment now self.old) self.new answer
            (MetadataPdu now header metadata)) }
        ensures unchanged { OnErr result (self.new ≡ self.old) }
    {
        let id = transaction_of(&header);
        let before = self.awaited(self.session(index));
        let reply = self.hand_metadata(now, header, metadata)?;
        self.hear(index, before);
        Ok(Answer::replied(id, reply))
    }

    /// A File Data PDU came (CCSDS 727.0-B-5 §5.3), of the session with this index, if its transaction has one.
    pub(crate) fn data(
        &mut self,
        found: Option<usize>,
        header: &Header,
        piece: &Piece<'_>,
    ) -> Answer
        requires some { IfSome found (λ index. session_of self.old.state (id_of header.now)
            ≡ slice_get self.old.state.sessions index) }
        requires within { IfSome found (λ index. index < length self.old.state.sessions) }
        requires named { IfSome found (λ index. AtIndex self.old.state.sessions index (λ s. session_id s
            ≡ id_of header.now)) }
        requires none { IfNone found (session_of self.old.state (id_of header.now) ≡ None) }
        requires header { IsHeader header.now }
        ensures { Turns self.old self.new result (DataPdu self.old.state.now header.now piece.now) }
    {
        if !self.is_ours(header) {
            return self.foreign(header);
        }
        let id = transaction_of(header);
        let Some(index) = found else {
            return Answer::said(id, self.absent(id));
        };
        match self.session(index).stage {
            Stage::Known => self.takes_data(index, header, piece),
            Stage::Held(_) | Stage::Over(_) | Stage::Waiting => Answer::said(id, Word::Idle),
        }
    }

    /// Whether file data begins no gap that is asked for at once: it begins within what was received, or right after
    /// it.
    fn begins_no_gap(&self, id: TransactionId, piece: &Piece<'_>) -> bool
        ensures { result ≡ begins_no_gap self.now.state id piece.now }
    {
        !self.is_immediate() || piece.offset <= self.progress(id)
    }

    /// Whether nothing is sent with file data for the session with this index: no EOF PDU of its transaction came, and
    /// no gap is asked for at once.
    pub(crate) fn is_in_order(&self, index: usize, header: &Header, piece: &Piece<'_>) -> bool
        requires { IsSessionAt self.now.state (id_of header.now) index }
        ensures { result ≡ true → IsInOrder self.now.state header.now piece.now index }
    {
        self.is_ours(header)
            && self.begins_no_gap(transaction_of(header), piece)
            && self.at(self.session(index)).is_receiving()
    }

    /// File data with which nothing is sent, of the session with this index. It does what [`StateMachine::data`] does,
    /// and its answer is small.
    pub(crate) fn keeps(&mut self, index: usize, header: &Header, piece: &Piece<'_>) -> Unsent
        requires ours { is_ours self.old.state header.now ≡ true }
        requires here { IsSessionAt self.old.state (id_of header.now) index }
        requires known { AtIndex self.old.state.sessions index (λ s. s.stage ≡ KnownStage) }
        requires receiving { AtIndex self.old.state.sessions index (λ s. is_receiving_at (at_of self.old.state.world s)
            ≡ true) }
        requires no_gap { begins_no_gap self.old.state (id_of header.now) piece.now ≡ true }
        requires header { IsHeader header.now }
        ensures ok { Turns self.old self.new result (DataPdu self.old.state.now header.now piece.now) }
        ensures turns { self.new.turns ≡ self.old.turns }
    {
        let id = self.session(index).name();
        let reply = self.entity.file_data(header, piece);
        self.restarts(index);
        let indicated = segment_indicated(id, piece, &reply);
        Unsent::replied(id, reply, indicated)
    }

    /// An event of the transaction of a session was handed to the core while file data was taken and no EOF PDU had
    /// come: the session's timer begins anew.
    fn restarts(&mut self, index: usize)
        requires { index < length self.old.state.sessions }
        ensures { (U : World) (session : SessionFields) → slice_get self.old.state.sessions index ≡ Some session
            → is_receiving_at (at_of U session) ≡ true → self.new ≡ machine_heard U self.old session }
    {
        let timer = Timer::start(self.latest);
        self.sessions.set_timer(index, timer);
    }

    /// File data of a transaction that the core knows.
    fn takes_data(&mut self, index: usize, header: &Header, piece: &Piece<'_>) -> Answer
        requires ours { is_ours self.old.state header.now ≡ true }
        requires here { IsSessionAt self.old.state (id_of header.now) index }
        requires known { AtIndex self.old.state.sessions index (λ s. s.stage ≡ KnownStage) }
        requires header { IsHeader header.now }
        ensures { Turns self.old self.new result (DataPdu self.old.state.now header.now piece.now) }
    {
        if self.is_immediate() && self.session(index).header.acknowledged {
            return self.takes_at_once(index, header, piece);
        }
        let id = transaction_of(header);
        let before = self.awaited(self.session(index));
        let reply = self.entity.file_data(header, piece);
        self.hear(index, before);
        let indicated = segment_indicated(id, piece, &reply);
        Answer::replied(id, reply).with_indication(indicated)
    }

    /// File data of a transaction that the core knows, in acknowledged mode and immediate NAK mode.
    fn takes_at_once(&mut self, index: usize, header: &Header, piece: &Piece<'_>) -> Answer
        requires ours { is_ours self.old.state header.now ≡ true }
        requires here { IsSessionAt self.old.state (id_of header.now) index }
        requires known { AtIndex self.old.state.sessions index (λ s. s.stage ≡ KnownStage) }
        requires immediate { is_immediate self.old.state.mib.nak_mode ≡ true }
        requires acknowledged { AtIndex self.old.state.sessions index (λ s. s.header.acknowledged ≡ true) }
        requires header { IsHeader header.now }
        ensures { Turns self.old self.new result (DataPdu self.old.state.now header.now piece.now) }
    {
        let id = transaction_of(header);
        let before = self.awaited(self.session(index));
        let low = self.progress(self.session(index).name());
        let reply = self.entity.file_data(header, piece);
        let naks = self.asks_at_once(self.session(index), low);
        self.hear(index, before);
        let indicated = segment_indicated(id, piece, &reply);
        Answer::replied(id, reply)
            .with_naks(naks)
            .with_indication(indicated)
    }

    /// The NAK sequence for a gap that began after all that was there before, while file data is taken and no EOF PDU
    /// came.
    fn asks_at_once(&self, session: &Session, low: u64) -> Option<NakSequence>
        requires known { session.now.stage ≡ KnownStage }
        requires immediate { is_immediate self.now.state.mib.nak_mode ≡ true }
        requires acknowledged { session.now.header.acknowledged ≡ true }
        ensures { (U : World) → low ≡ progress_at (entry_of U (session_id session.now))
            → all_naks result ≡ asks_at_once (record self.now.state { world = U }) self.now.state.world session.now }
    {
        if self.at(session) != JointPhase::Receiving {
            return None;
        }
        self.sound();
        let id = session.name();
        let requests = self.missing_from(id, low)?;
        if requests.as_slice().is_empty() {
            return None;
        }
        let high = self.entity.core().reach(id)?;
        Some(self.sequence(session, low, high, requests))
    }

    /// What an ACK PDU says of a transaction that has no session (CCSDS 727.0-B-5 §5.2.4).
    fn past_status(&self, id: TransactionId) -> TransactionStatus
        ensures { result ≡ past_status (is_closed self.now.state id) self.now.state.closed.forgot }
    {
        if self.closed.remembers(id) {
            TransactionStatus::Terminated
        } else if self.closed.has_forgotten() {
            TransactionStatus::Undefined
        } else {
            TransactionStatus::Unrecognized
        }
    }

    /// What an ACK PDU says of a transaction (CCSDS 727.0-B-5 §5.2.4).
    pub(crate) fn status(&self, id: TransactionId) -> TransactionStatus
        ensures { result ≡ status_of self.now.state id }
    {
        match self.find(id) {
            Some(_) => TransactionStatus::Active,
            None => self.past_status(id),
        }
    }

    /// An EOF PDU came (CCSDS 727.0-B-5 §5.2.2).
    pub(crate) fn eof(&mut self, alloc: Global, header: &Header, eof: Eof) -> Answer
        requires header { IsHeader header.now }
        requires sized { IsSizedEof header.now.large eof }
        ensures { Turns self.old self.new result (EofPdu self.old.state.now header.now eof) }
    {
        if !self.is_ours(header) {
            return self.foreign(header);
        }
        let Some(index) = self.find(transaction_of(header)) else {
            return self.eof_of_none(alloc, header, eof);
        };
        let active = TransactionStatus::Active;
        match self.session(index).stage {
            Stage::Known => self.eof_of_known(index, header, eof),
            Stage::Held(_) if eof.condition == NO_ERROR => {
                acks_only(header, eof, active, Word::Duplicate)
            }
            Stage::Held(_) => {
                let ending = Ending {
                    condition: eof.condition,
                    is_sent: true,
                    at_fault: header.source,
                };
                self.sessions.end(index, ending);
                acks_only(header, eof, active, Word::Faulted)
            }
            Stage::Over(_) | Stage::Waiting => acks_only(header, eof, active, Word::Idle),
        }
    }

    /// The EOF PDU of a transaction that the core knows. A cancel in the middle of a list is acknowledged, and no more.
    fn eof_of_known(&mut self, index: usize, header: &Header, eof: Eof) -> Answer
        requires ours { is_ours self.old.state header.now ≡ true }
        requires here { IsSessionAt self.old.state (id_of header.now) index }
        requires known { AtIndex self.old.state.sessions index (λ s. s.stage ≡ KnownStage) }
        requires header { IsHeader header.now }
        requires sized { IsSizedEof header.now.large eof }
        ensures { Turns self.old self.new result (EofPdu self.old.state.now header.now eof) }
    {
        if eof.condition != NO_ERROR && self.is_list_begun(transaction_of(header)) {
            return acks_only(header, eof, TransactionStatus::Active, Word::ListBegun);
        }
        self.takes_eof(index, header, eof)
    }

    /// The EOF PDU of a transaction that the core knows, which is handed to the core.
    fn takes_eof(&mut self, index: usize, header: &Header, eof: Eof) -> Answer
        requires ours { is_ours self.old.state header.now ≡ true }
        requires here { IsSessionAt self.old.state (id_of header.now) index }
        requires known { AtIndex self.old.state.sessions index (λ s. s.stage ≡ KnownStage) }
        requires header { IsHeader header.now }
        requires sized { IsSizedEof header.now.large eof }
        requires taken { (not (eof.condition == no_error) && is_list_begun self.old.state (id_of header.now)) ≡ false }
        ensures { Turns self.old self.new result (EofPdu self.old.state.now header.now eof) }
    {
        let id = transaction_of(header);
        let was_receiving = self.at(self.session(index)) == JointPhase::Receiving;
        let before = self.awaited(self.session(index));
        let reply = self.entity.eof(header, eof);
        let has_left = was_receiving && self.at(self.session(index)) != JointPhase::Receiving;
        let ack = acked(header, eof.condition, TransactionStatus::Active);
        let answer = Answer::replied(id, reply).with_ack(ack);
        if !has_left || eof.condition != NO_ERROR {
            self.hear(index, before);
            return answer;
        }
        let naks = self.asks_where_awaiting(self.session(index));
        self.hear(index, before);
        answer
            .with_naks(naks)
            .with_indication(Some(Indication::EofRecv(id)))
    }

    /// The EOF PDU of a transaction that has no session.
    fn eof_of_none(&mut self, alloc: Global, header: &Header, eof: Eof) -> Answer
        requires ours { is_ours self.old.state header.now ≡ true }
        requires none { session_of self.old.state (id_of header.now) ≡ None }
        requires header { IsHeader header.now }
        requires sized { IsSizedEof header.now.large eof }
        ensures { Turns self.old self.new result (EofPdu self.old.state.now header.now eof) }
    {
        let id = transaction_of(header);
        if self.closed.remembers(id) || eof.condition != NO_ERROR || !header.acknowledged {
            return acks_only(header, eof, self.past_status(id), self.absent(id));
        }
        if let Some(word) = self.no_room(id) {
            return Answer::said(id, word);
        }
        let session = self.begun(alloc, *header, Stage::Held(eof));
        let naks = self.asks(&session);
        self.begin(session);
        Answer::said(id, Word::Held)
            .with_ack(acked(header, eof.condition, TransactionStatus::Active))
            .with_naks(naks)
            .with_indication(Some(Indication::EofRecv(id)))
    }

    /// An ACK PDU came (CCSDS 727.0-B-5 §5.2.4).
    pub(crate) fn ack(&mut self, header: &Header, ack: Ack) -> Answer
        requires { HavePlaces self.old.state }
        ensures { Turns self.old self.new result (AckPdu self.old.state.now header.now ack) }
    {
        if !self.is_ours(header) {
            return self.foreign(header);
        }
        let id = transaction_of(header);
        let Some(index) = self.find(id) else {
            return Answer::said(id, Word::Idle);
        };
        let session = self.session(index);
        match session.stage {
            Stage::Waiting if ack.directive == directive::FINISHED => {
                let has_changed = session.has_changed;
                self.close(index, has_changed);
                Answer::said(id, Word::Acknowledged)
            }
            Stage::Held(_) | Stage::Known | Stage::Over(_) | Stage::Waiting => {
                Answer::said(id, Word::Idle)
            }
        }
    }

    /// A NAK, Keep Alive or Finished PDU came, which goes toward a sender.
    pub(crate) fn other(&self, header: &Header) -> Answer
        ensures { Turns self.now self.now result (OtherPdu self.now.state.now header.now) }
    {
        if !self.is_ours(header) {
            return self.foreign(header);
        }
        Answer::quiet(Became::NotOurs)
    }

    /// A Prompt PDU came (CCSDS 727.0-B-5 §5.2.7).
    pub(crate) fn prompt(&mut self, header: &Header, prompt: Prompt) -> Answer
        requires { AreKnown self.old.state }
        ensures { Turns self.old self.new result (PromptPdu self.old.state.now header.now prompt) }
    {
        if !self.is_ours(header) {
            return self.foreign(header);
        }
        let id = transaction_of(header);
        let Some(index) = self.find(id) else {
            return Answer::said(id, Word::Idle);
        };
        let session = self.session(index);
        if !session.header.acknowledged || !self.at(session).takes_prompts() {
            return Answer::said(id, Word::Idle);
        }
        let answer = self.prompted(header, session, prompt);
        self.rouse(index);
        answer
    }

    /// What a Prompt PDU is answered with: a NAK sequence, or a Keep Alive PDU.
    fn prompted(&self, header: &Header, session: &Session, prompt: Prompt) -> Answer
        requires known { AreKnown self.now.state }
        requires found { session_of self.now.state (session_id session.now) ≡ Some session.now }
        requires takes { takes_prompts (at_of self.now.state.world session.now) ≡ true }
        ensures { (M : StateMachineFields) → answer_in M result
            ≡ prompted self.now.state header.now session.now prompt }
    {
        let answer = Answer::said(transaction_of(header), Word::Answered);
        match prompt {
            Prompt::Nak => answer.with_naks(self.asks(session)),
            Prompt::KeepAlive => {
                let progress = self.progress(session.name());
                answer.with_keep_alive(turned(&session.header), progress)
            }
        }
    }

    /// A PDU is a sign of life: the timer of a session begins anew while file data is taken and no EOF PDU came.
    fn rouse(&mut self, index: usize)
        requires { index < length self.old.state.sessions }
        ensures { AtIndex self.old.state.sessions index (λ s. self.new
            ≡ with_session self.old (roused self.old.state s)) }
    {
        self.sound();
        if self.at(self.session(index)).is_receiving() {
            let timer = Timer::start(self.latest);
            self.sessions.set_timer(index, timer);
        }
    }
}
