//! The machine: what a receiving entity keeps, and what all its turns use.

ghost use Rattle.std.specs.Prelude.{false, ◌≡◌, ◌<◌, ◌≤◌, ◌^◌, [], All, Bool, None, Some, IfNone, IfOk, IfSome, length, slice_get, ℕ, nat_le, ◌++◌, ◌∷◌, true};
ghost use Rattle.std.specs.Option.{option_map};
ghost use Rattle.cfdp_pdus.specs.Bits.{fss};
ghost use Rattle.cfdp_pdus.specs.Canonical.{IsHeader};
ghost use Rattle.cfdp_directives.specs.Spelling.{IsSizedRange};
ghost use Rattle.cfdp_sessions.specs.Closed.{has_room_for, has_source, with_source};
ghost use Rattle.cfdp_sessions.specs.Sessions.{AreDistinct, SessionFields, session_id};
ghost use Rattle.cfdp_sessions.specs.code.Sessions.{IsSizedStage};
ghost use Rattle.cfdp_transactions.specs.Sound.{Sound};
ghost use Rattle.cfdp_transactions.specs.World.{World, entry_of};
ghost use Rattle.cfdp_receiver.specs.State.{at_of, begin, session_of, lacks_room};
ghost use Rattle.cfdp_receiver.specs.Handing.{is_list_begun, is_ours, later, own_time};
ghost use Rattle.cfdp_receiver.specs.StateMachine.{IsMib, has_come, turn_after};
ghost use Rattle.cfdp_receiver.specs.code.StateMachine.{AtIndex, IsSessionAt, IsTaking, awaited_of, machine_heard, all_naks, silent, machine_closed};
ghost use Rattle.cfdp_receiver.specs.Turning.{word_without_session, all_of, asks, asks_entry, asks_where_awaiting, begun_session, gaps_after, is_immediate, is_news, most_nak_requests, progress_at, sequence, is_too_far, no_room_word};
ghost use Rattle.cfdp_receiver.specs.declared.indication.Became.TheVariants.{Nothing, TooFarAhead};

use crate::answer::{Answer, NakSequence};
use crate::last_finished::LastFinished;
use crate::{JointPhase, Mib, NakMode, Word};
use arrayvec::ArrayVec;
use cfdp_directives::NakRange;
use cfdp_entity::Entity;
use cfdp_pdus::Header;
use cfdp_retransmission::Timer;
use cfdp_sessions::{ClosedTransactions, Session, Sessions, Stage, most_closed};
use cfdp_status::TransactionId;
use cfdp_transactions::{MOST_GAPS, Phase};
use std::alloc::{AllocError, Global};
use std::marker::Model;

/// The longest that a timer runs, in ticks.
const LONGEST_INTERVAL: u64 = 4_294_967_295;

/// What is missing of a file.
pub(crate) type Gaps = ArrayVec<NakRange, MOST_GAPS>;

/// What a receiving entity keeps: its core, and beside it the sessions and the names closed last.
#[derive(Drop)]
pub(crate) struct StateMachine {
    pub(crate) entity: Entity,
    pub(crate) mib: Mib,
    /// The receiver's own time: the ticks that have passed for it, by which its timers run.
    pub(crate) latest: u64,
    /// The latest moment that was handed in, by the driver's clock.
    pub(crate) seen: u64,
    pub(crate) sessions: Sessions,
    pub(crate) closed: ClosedTransactions,
    pub(crate) last_finished: LastFinished,
    /// How many turns were made, modulo 2^64: the number of the last one.
    pub(crate) turns: u64,
}

impl Model for StateMachine {
    ghost use Rattle.std.specs.Coded.{codes};
    ghost use Rattle.cfdp_transactions.specs.code.CoreFields.{nodes_code};
    ghost use Rattle.cfdp_receiver.specs.StateMachine.{IsMib, StateMachineFields};

    ghost Value = { StateMachineFields };

    ghost coded = { Prim.hlevel (codes, nodes_code) };

    ghost view = { λ m. record {
      state = record {
        world = m.entity;
        mib = m.mib;
        now = m.latest;
        seen = m.seen;
        sessions = m.sessions;
        closed = m.closed;
      };
      last_finished = m.last_finished;
      turns = m.turns;
    } };

    ghost invariant = { λ m. IsMib m.mib };
}

/// The memory that a machine takes when it is made, which is all that it takes but for Metadata and outcomes.
#[derive(Drop)]
pub(crate) struct Room {
    sessions: Sessions,
    closed: ClosedTransactions,
}

impl Room {
    /// Room without a session, and without a name.
    pub(crate) fn new(alloc: Global) -> Result<Room, AllocError>
        ensures sessions { IfOk result (λ room. room.sessions ≡ []) }
        ensures sources { IfOk result (λ room. room.closed.sources ≡ []) }
        ensures forgot { IfOk result (λ room. room.closed.forgot ≡ false) }
    {
        Ok(Room {
            sessions: Sessions::new(alloc)?,
            closed: ClosedTransactions::new(alloc)?,
        })
    }
}

impl StateMachine {
    /// A machine without sessions.
    pub(crate) fn new(alloc: Global, mib: Mib, entity: Entity, room: Room) -> StateMachine
        requires mib { IsMib mib }
        requires sessions { room.sessions ≡ [] }
        requires sources { room.closed.sources ≡ [] }
        requires forgot { room.closed.forgot ≡ false }
        ensures state { result.state ≡ begin mib entity }
        ensures last_finished { result.last_finished ≡ [] }
    {
        StateMachine {
            entity,
            mib,
            latest: 0,
            seen: 0,
            sessions: room.sessions,
            closed: room.closed,
            last_finished: LastFinished::none(alloc),
            turns: 0,
        }
    }

    /// The number of the next turn.
    pub(crate) fn next_turn(&self) -> u64
        ensures { result ≡ turn_after self.now.turns }
    {
        self.turns.wrapping_add(1)
    }

    /// One more turn is made.
    pub(crate) fn count(&mut self)
        ensures { self.new ≡ record self.old { turns = turn_after self.old.turns } }
    {
        self.turns = self.next_turn();
    }

    /// Makes a turn at a moment that is too far ahead: nothing is done.
    pub(crate) fn take_nothing(&mut self) -> Answer
        ensures machine { self.new ≡ record self.old { turns = turn_after self.old.turns } }
        ensures answer { result ≡ record (silent TooFarAhead) { turn = turn_after self.old.turns } }
    {
        let turn = self.next_turn();
        self.end_turn(turn, Answer::not_taken())
    }

    /// The turn with this number was made: its answer is the last one now. The answer is not moved.
    pub(crate) fn number(&mut self, turn: u64, answer: &mut Answer)
        ensures machine { self.new ≡ record self.old { turns = turn } }
        ensures answer { answer.new ≡ record answer.old { turn = turn } }
    {
        self.turns = turn;
        answer.turn = turn;
    }

    /// The turn with this number was made: its answer is the last one now.
    pub(crate) fn end_turn(&mut self, turn: u64, mut answer: Answer) -> Answer
        ensures machine { self.new ≡ record self.old { turns = turn } }
        ensures answer { result ≡ record answer { turn = turn } }
    {
        self.number(turn, &mut answer);
        answer
    }

    /// A moment is handed in: an earlier one counts as the latest.
    pub(crate) fn later(&mut self, now: u64)
        ensures { self.new ≡ record self.old { state = later now self.old.state } }
    {
        let passed = now.saturating_sub(self.seen).min(LONGEST_INTERVAL);
        self.latest = self.latest.saturating_add(passed);
        self.seen = self.seen.max(now);
    }

    /// Whether a moment is further ahead of the latest one than may be.
    pub(crate) fn is_too_far(&self, now: u64) -> bool
        ensures { result ≡ is_too_far self.now.state now }
    {
        match self.mib.most_ahead {
            None => false,
            Some(most) => u64::from(most) < now.saturating_sub(self.seen),
        }
    }

    /// The driver's clock was set: its moment is this one by now. The receiver's own time, by which its timers run,
    /// stays.
    pub(crate) fn move_clock(&mut self, now: u64) -> Answer
        ensures state { self.new ≡ record self.old { state = record self.old.state { seen = now } } }
        ensures answer { result ≡ silent Nothing }
    {
        self.seen = now;
        Answer::nothing()
    }

    /// The moment of the driver's clock at which the receiver's own time is this. `None` where it is after the greatest
    /// moment, or no call makes it that late at once.
    pub(crate) fn by_clock(&self, time: u64) -> Option<u64>
        ensures { (now : ℕ) → now < 2 ^ 64 → has_come result now ≡ nat_le time (own_time self.now.state now) }
    {
        if time == 0 {
            return Some(0);
        }
        let left = time.saturating_sub(self.latest);
        if LONGEST_INTERVAL < left {
            return None;
        }
        let over = self.latest.saturating_sub(time);
        self.seen.saturating_sub(over).checked_add(left)
    }

    /// The session with this index.
    pub(crate) fn session(&self, index: usize) -> &Session
        requires { index < length self.now.state.sessions }
        ensures { slice_get self.now.state.sessions index ≡ Some result.now }
    {
        &self.sessions.as_slice()[index]
    }

    /// The index of a transaction's session, if it has one. Cost: a pass over the sessions.
    pub(crate) fn find(&self, id: TransactionId) -> Option<usize>
        ensures some { IfSome result (IsSessionAt self.now.state id) }
        ensures named { IfSome result (λ index. AtIndex self.now.state.sessions index (λ s. session_id s ≡ id)) }
        ensures none { IfNone result (session_of self.now.state id ≡ None) }
    {
        self.sessions.find(id)
    }

    /// How far the transaction of a session is.
    pub(crate) fn at(&self, session: &Session) -> JointPhase
        ensures { result ≡ at_of self.now.state.world session.now }
    {
        match session.stage {
            Stage::Held(_) => JointPhase::Held,
            Stage::Over(_) => JointPhase::Over,
            Stage::Waiting => JointPhase::Waiting,
            Stage::Known => match self.entity.core().phase(session.name()) {
                None => JointPhase::Over,
                Some(phase) => JointPhase::of_phase(phase),
            },
        }
    }

    /// Whether the list of a transaction has begun: its first item was performed, and another is still to be performed.
    pub(crate) fn is_list_begun(&self, id: TransactionId) -> bool
        ensures { result ≡ is_list_begun self.now.state id }
    {
        match self.entity.core().phase(id) {
            Some(Phase::Executing(next)) => 0 < next,
            _ => false,
        }
    }

    /// A session that begins now.
    pub(crate) fn begun(&self, alloc: Global, header: Header, stage: Stage) -> Session
        requires header { IsHeader header }
        requires sized { IsSizedStage header stage }
        ensures { result ≡ begun_session self.now.state header stage }
    {
        Session {
            header,
            stage,
            timer: Timer::start(self.latest),
            alive_at: self.latest,
            cause: None,
            is_abandoned: false,
            has_changed: false,
            finished: Vec::new(alloc),
        }
    }

    /// The word for a PDU of a transaction that has no session.
    pub(crate) fn absent(&self, id: TransactionId) -> Word
        ensures { result ≡ word_without_session self.now.state id }
    {
        if self.closed.remembers(id) {
            Word::Idle
        } else {
            Word::Unknown
        }
    }

    /// The word for a PDU that would begin a transaction for which there is no room. `None` where there is room.
    pub(crate) fn no_room(&self, id: TransactionId) -> Option<Word>
        ensures some { IfSome result (λ word. word ≡ no_room_word self.now.state) }
        ensures lacks { IfSome result (λ word. lacks_room self.now.state id ≡ true) }
        ensures none { IfNone result (lacks_room self.now.state id ≡ false) }
        ensures few { IfNone result (length self.now.state.sessions < 64) }
        ensures place { IfNone result (has_room_for self.now.state.closed id.source ≡ true) }
    {
        if self.sessions.is_full() {
            return Some(Word::TableFull);
        }
        if self.closed.has_room_for(id.source) {
            return None;
        }
        Some(Word::SourcesFull)
    }

    /// A session of a new name begins, and its source has a place from now on.
    pub(crate) fn begin(&mut self, session: Session)
        requires few { length self.old.state.sessions < 64 }
        requires new { session_of self.old.state (session_id session) ≡ None }
        requires place { has_room_for self.old.state.closed session.header.source ≡ true }
        ensures { self.new ≡ record self.old {
          state = record self.old.state {
            sessions = self.old.state.sessions ++ session ∷ [];
            closed = with_source self.old.state.closed session.header.source;
          };
        } }
    {
        self.closed.add_source(session.header.source);
        self.sessions.add(session);
    }

    /// The transaction of the session with this index is closed, and its name remembered.
    pub(crate) fn close(&mut self, index: usize, has_changed: bool)
        requires here { index < length self.old.state.sessions }
        requires place { AtIndex self.old.state.sessions index (λ s. has_source self.old.state.closed s.header.source
            ≡ true) }
        ensures { AtIndex self.old.state.sessions index (λ s. self.new
            ≡ machine_closed self.old (record s { has_changed = has_changed })) }
    {
        let session = self.session(index);
        let id = session.name();
        let most = most_closed(&session.header);
        self.sessions.look_first(index);
        self.sessions.close(id);
        self.closed.add(id, most, has_changed);
    }

    /// The gaps of a transaction that waits for what is missing; `None` in every other phase.
    pub(crate) fn awaited(&self, session: &Session) -> Option<Gaps>
        ensures { option_map (λ gaps. gaps.items) result ≡ awaited_of self.now.state.world session.now }
    {
        match self.at(session) {
            JointPhase::Awaiting(_) => self.entity.core().gaps(session.name()),
            _ => None,
        }
    }

    /// Whether an event that was handed to the core is news to the session of its transaction. After the EOF PDU it is
    /// only where something that was missing has come.
    fn is_news(&self, session: &Session, before: Option<Gaps>) -> bool
        ensures { (U : World) → option_map (λ gaps. gaps.items) before ≡ awaited_of U session.now → result
            ≡ is_news U self.now.state.world session.now }
    {
        let Some(before) = before else {
            return true;
        };
        match self.awaited(session) {
            Some(after) => before.as_slice() != after.as_slice(),
            None => true,
        }
    }

    /// An event of a session's transaction was handed to the core: where it is news, the session's timer begins anew.
    pub(crate) fn hear(&mut self, index: usize, before: Option<Gaps>)
        requires { index < length self.old.state.sessions }
        ensures { (U : World) (session : SessionFields) → slice_get self.old.state.sessions index ≡ Some session
            → option_map (λ gaps. gaps.items) before ≡ awaited_of U session → self.new
            ≡ machine_heard U self.old session }
    {
        self.sound();
        if self.is_news(self.session(index), before) {
            let timer = Timer::start(self.latest);
            self.sessions.set_timer(index, timer);
        }
    }

    /// The progress of a transaction: 0 where the core does not know it.
    pub(crate) fn progress(&self, id: TransactionId) -> u64
        ensures value { result ≡ progress_at (entry_of self.now.state.world id) }
        ensures sized { IsTaking (entry_of self.now.state.world id) → (large : Bool) → result < 256 ^ fss large }
    {
        self.sound();
        self.entity.core().progress(id).unwrap_or(0)
    }

    /// A NAK sequence for a session.
    pub(crate) fn sequence(
        &self,
        session: &Session,
        low: u64,
        high: u64,
        requests: Gaps,
    ) -> NakSequence
        requires low { low < 256 ^ fss session.now.header.large }
        requires high { high < 256 ^ fss session.now.header.large }
        requires sized { All (IsSizedRange session.now.header.large) requests.items }
        ensures { result ≡ sequence self.now.state.mib session.now.header low high requests.items }
    {
        NakSequence {
            header: crate::answer::turned(&session.header),
            low,
            high,
            most: self.mib.most_requests(),
            requests,
        }
    }

    /// What is missing of a transaction from an offset on.
    pub(crate) fn missing_from(&self, id: TransactionId, low: u64) -> Option<Gaps>
        ensures { option_map (λ gaps. gaps.items) result ≡ option_map (gaps_after low)
            (entry_of self.now.state.world id) }
    {
        let gaps = self.entity.core().gaps(id)?;
        let mut missing = ArrayVec::new();
        for gap in gaps.as_slice() {
            if low <= gap.0 {
                missing.push(*gap);
            }
        }
        Some(missing)
    }

    /// The NAK sequence for the Metadata PDU and the whole file, which did not come.
    fn asks_for_all(&self, session: &Session, size: u64) -> NakSequence
        requires { size < 256 ^ fss session.now.header.large }
        ensures { result ≡ sequence self.now.state.mib session.now.header 0 size (all_of size) }
    {
        let mut requests = ArrayVec::new();
        requests.push((0, 0));
        if size != 0 {
            requests.push((0, size));
        }
        self.sequence(session, 0, size, requests)
    }

    /// The NAK sequence for all that is missing of a transaction that the core knows.
    fn asks_for_gaps(&self, session: &Session) -> Option<NakSequence>
        ensures { all_naks result ≡ asks_entry self.now.state.mib session.now.header 0
            (entry_of self.now.state.world (session_id session.now)) }
    {
        self.sound();
        let id = session.name();
        let requests = self.missing_from(id, 0)?;
        let high = self.entity.core().reach(id)?;
        Some(self.sequence(session, 0, high, requests))
    }

    /// The NAK sequence for a session: for the Metadata PDU and the whole file where these did not come, and else for
    /// all that is missing.
    pub(crate) fn asks(&self, session: &Session) -> Option<NakSequence>
        ensures { all_naks result ≡ asks self.now.state.mib self.now.state.world session.now }
    {
        match session.stage {
            Stage::Held(eof) => Some(self.asks_for_all(session, eof.size)),
            Stage::Known => self.asks_for_gaps(session),
            Stage::Over(_) | Stage::Waiting => None,
        }
    }

    /// The NAK sequence for a session whose transaction is in acknowledged mode and waits for what is missing.
    pub(crate) fn asks_where_awaiting(&self, session: &Session) -> Option<NakSequence>
        ensures { all_naks result ≡ asks_where_awaiting self.now.state.mib self.now.state.world session.now }
    {
        match self.at(session) {
            JointPhase::Awaiting(_) if session.header.acknowledged => self.asks(session),
            _ => None,
        }
    }

    /// Whether lost segments are asked for when a gap begins.
    pub(crate) fn is_immediate(&self) -> bool
        ensures { result ≡ is_immediate self.now.state.mib.nak_mode }
    {
        self.mib.nak_mode == NakMode::Immediate
    }

    /// What holds at all times: the world is sound, its filestore has 65,536 blocks at most, and no two sessions have
    /// one name. Does nothing.
    pub(crate) fn sound(&self)
        ensures sound { Sound self.now.state.world }
        ensures few { self.now.state.world.config.blocks ≤ 65536 }
        ensures distinct { AreDistinct self.now.state.sessions }
    {
        self.entity.sound();
        self.entity.core().config().blocks();
        self.sessions.distinct();
    }

    /// Whether a PDU goes toward the receiver of the file, and to this entity.
    pub(crate) fn is_ours(&self, header: &Header) -> bool
        ensures { result ≡ is_ours self.now.state header.now }
    {
        !header.toward_sender && header.destination == self.entity.core().config().entity()
    }
}
