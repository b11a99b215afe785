//! Items that are performed, outcomes that are taken, and the user's own requests.

ghost use Rattle.std.specs.Prelude.{◌≡◌, ◌<◌, ◌≤◌, true, length, slice_get, vec_len, Some, None, IfOk, IfSome, IfNone, IsOk, OnErr};
ghost use Rattle.cfdp_sessions.specs.Closed.{has_source};
ghost use Rattle.cfdp_sessions.specs.declared.session.Stage.TheVariants.{Known as KnownStage, Over as OverStage};
ghost use Rattle.cfdp_transactions.specs.declared.outcome.Outcome.{Outcome as OutcomeOf};
ghost use Rattle.cfdp_transactions.specs.Writable.{IsWritable, finished_octets, longest_finished};
ghost use Rattle.cfdp_receiver.specs.State.{CancelAsked, Finish, ForgetAsked, Work};
ghost use Rattle.cfdp_receiver.specs.Due.{first_over};
ghost use Rattle.cfdp_receiver.specs.Laws.{AreKnown};
ghost use Rattle.cfdp_receiver.specs.StateMachine.{finished_for};
ghost use Rattle.cfdp_receiver.specs.code.StateMachine.{AtIndex, Concludes, IsSessionAt, Turns, at_moment, HavePlaces};
ghost use Rattle.cfdp_sessions.specs.Sessions.{session_id};
ghost use Rattle.cfdp_receiver.specs.Turning.{conclusion_of, stage_outcome, has_changed as has_changed_of, is_any_tried};

use crate::answer::{Answer, turned};
use crate::last_finished::LastFinished;
use crate::state_machine::StateMachine;
use crate::{Conclusion, Indication, JointPhase, Word};
use cfdp_pdus::Finished;
use cfdp_pdus::condition::CANCEL_REQUEST_RECEIVED;
use cfdp_pdus::file_status::{RETAINED, UNREPORTED};
use cfdp_retransmission::Timer;
use cfdp_sessions::{Ending, Session, Stage};
use cfdp_status::{Status, TransactionId};
use cfdp_tlv::FilestoreResponse;
use cfdp_transactions::{Outcome, Reply};
use std::alloc::{AllocError, Global};

/// The outcome of a transaction that is not in the core: nothing was kept of it.
fn outcome_of_ending(alloc: Global, session: &Session, ending: Ending) -> Outcome
    requires { session.now.stage ≡ OverStage ending }
    ensures outcome { result ≡ stage_outcome session.now (OverStage ending) }
    ensures writable { IsWritable result }
{
    Outcome {
        header: turned(&session.header),
        finished: Finished {
            condition: ending.condition,
            incomplete: true,
            file_status: UNREPORTED,
            responses: Vec::new(alloc),
            fault: Some(ending.at_fault),
        },
        send: ending.is_sent,
    }
}

/// How a transaction ended.
fn conclusion_of(outcome: &Outcome) -> Conclusion
    ensures { result ≡ conclusion_of outcome.now }
{
    Conclusion {
        condition: outcome.finished.condition,
        incomplete: outcome.finished.incomplete,
        file_status: outcome.finished.file_status,
    }
}

/// Whether the first of some filestore requests was tried. They are tried in order: where it was not, none was.
fn is_any_tried(responses: &[FilestoreResponse]) -> bool
    ensures { result ≡ is_any_tried responses.now }
{
    match responses.first() {
        Some(response) => !matches!(response.status(), Status::NotPerformed(_)),
        None => false,
    }
}

/// Whether the file of a transaction was installed, or a request of it was tried.
fn did_change(outcome: &Outcome) -> bool
    ensures { result ≡ has_changed_of outcome.now.finished }
{
    outcome.finished.file_status == RETAINED || is_any_tried(&outcome.finished.responses)
}

impl StateMachine {
    /// The next item of the first transaction that has one is performed (CCSDS 727.0-B-5, the procedures at the
    /// receiving entity).
    pub(crate) fn work(&mut self) -> Answer
        ensures { Turns self.old self.new result (Work self.old.state.now) }
    {
        let Some(id) = self.entity.core().next_runnable() else {
            return Answer::nothing();
        };
        let reply = self.entity.step(id);
        Answer::replied(id, reply)
    }

    /// The index of the first session that is over.
    pub(crate) fn first_over(&self) -> Option<usize>
        ensures some { IfSome result (λ index. first_over self.now.state.world self.now.state.sessions
            ≡ slice_get self.now.state.sessions index) }
        ensures here { IfSome result (λ index. index < length self.now.state.sessions) }
        ensures none { IfNone result (first_over self.now.state.world self.now.state.sessions ≡ None) }
    {
        for index in 0..self.sessions.len() {
            if self.at(self.session(index)) == JointPhase::Over {
                return Some(index);
            }
        }
        None
    }

    /// The outcome of the first transaction that is over is taken.
    pub(crate) fn finish(&mut self, alloc: Global, now: u64) -> Result<Answer, AllocError>
        requires known { AreKnown self.old.state }
        requires places { HavePlaces self.old.state }
        ensures ok { IfOk result (λ answer. Turns (at_moment now self.old) self.new answer (Finish now)) }
        ensures lean { first_over self.old.state.world self.old.state.sessions ≡ None → IsOk result }
        ensures unchanged { OnErr result (self.new ≡ self.old) }
    {
        self.sessions.distinct();
        let Some(index) = self.first_over() else {
            self.later(now);
            return Ok(Answer::nothing());
        };
        let session = self.session(index);
        match session.stage {
            Stage::Known => self.finish_known(alloc, now, index),
            Stage::Over(ending) => {
                let outcome = outcome_of_ending(alloc, session, ending);
                let octets = outcome.octets(alloc)?;
                let conclusion = conclusion_of(&outcome);
                let has_changed = did_change(&outcome);
                self.later(now);
                Ok(self.conclude(index, outcome.send, has_changed, conclusion, octets))
            }
            Stage::Held(_) | Stage::Waiting => unreachable!(),
        }
    }

    /// The outcome of a transaction that the core knows is taken. Where this entity cancelled it, its own condition
    /// code goes out.
    fn finish_known(&mut self, alloc: Global, now: u64, index: usize) -> Result<Answer, AllocError>
        requires here { index < length self.old.state.sessions }
        requires over { first_over self.old.state.world self.old.state.sessions
            ≡ slice_get self.old.state.sessions index }
        requires stage { AtIndex self.old.state.sessions index (λ s. s.stage ≡ KnownStage) }
        requires known { AreKnown self.old.state }
        requires places { HavePlaces self.old.state }
        ensures ok { IfOk result (λ answer. Turns (at_moment now self.old) self.new answer (Finish now)) }
        ensures unchanged { OnErr result (self.new ≡ self.old) }
    {
        self.sessions.distinct();
        let session = self.session(index);
        let id = session.name();
        let Some(mut outcome) = self.entity.outcome(id)? else {
            unreachable!()
        };
        let condition = outcome.finished.condition;
        outcome.finished.condition = session.cause.unwrap_or(condition);
        let octets = outcome.octets(alloc)?;
        let conclusion = conclusion_of(&outcome);
        let has_changed = did_change(&outcome);
        let is_sent = outcome.send;
        outcome.finished.condition = condition;
        if let Reply::Memory = self.entity.hand_out(id, outcome) {
            return Err(AllocError);
        }
        self.later(now);
        Ok(self.conclude(index, is_sent, has_changed, conclusion, octets))
    }

    /// The outcome of a session's transaction is there: it is indicated and sent, and the session waits or is closed.
    fn conclude(
        &mut self,
        index: usize,
        is_sent: bool,
        has_changed: bool,
        conclusion: Conclusion,
        octets: Vec<u8>,
    ) -> Answer
        requires here { index < length self.old.state.sessions }
        requires place { AtIndex self.old.state.sessions index (λ s. has_source self.old.state.closed s.header.source
            ≡ true) }
        requires short { vec_len octets ≤ longest_finished }
        ensures { (outcome : OutcomeOf) → is_sent ≡ outcome.send → has_changed ≡ has_changed_of outcome.finished
            → conclusion ≡ conclusion_of outcome → octets.items
            ≡ finished_octets outcome
            → AtIndex self.old.state.sessions index (λ s. Concludes self.old self.new result s outcome) }
    {
        self.sessions.distinct();
        let session = self.session(index);
        let id = session.name();
        let indicated = Some(Indication::TransactionFinished(id, conclusion));
        if session.is_abandoned {
            self.close(index, has_changed);
            return Answer::said(id, Word::Closed);
        }
        if !is_sent {
            self.close(index, has_changed);
            return Answer::said(id, Word::Closed).with_indication(indicated);
        }
        if session.header.acknowledged {
            let timer = Timer::start(self.latest);
            self.sessions.wait(index, octets, has_changed, timer);
            return Answer::said(id, Word::Finished)
                .with_finished(id)
                .with_indication(indicated);
        }
        self.close(index, has_changed);
        self.last_finished = LastFinished::of(octets);
        Answer::said(id, Word::Closed)
            .with_finished(id)
            .with_indication(indicated)
    }

    /// The Finished PDU of a transaction that waits for its acknowledgement, or that was closed last when its outcome
    /// was taken.
    pub(crate) fn finished_octets(&self, id: TransactionId) -> &[u8]
        ensures octets { result.now ≡ finished_for self.now id }
        ensures short { length result.now ≤ longest_finished }
    {
        match self.sessions.find(id) {
            Some(index) => &self.session(index).finished,
            None => self.last_finished.octets(),
        }
    }

    /// The user cancels a transaction (condition code 15). A list that has begun goes on to its end, and a session that
    /// waits for its acknowledgement is closed.
    pub(crate) fn cancel(&mut self, id: TransactionId) -> Answer
        requires { HavePlaces self.old.state }
        ensures { Turns self.old self.new result (CancelAsked self.old.state.now id) }
    {
        let Some(index) = self.find(id) else {
            return Answer::said(id, Word::Unknown);
        };
        let session = self.session(index);
        match session.stage {
            Stage::Known => self.cancel_known(index, id),
            Stage::Held(_) => {
                self.ends_here(index, CANCEL_REQUEST_RECEIVED);
                Answer::said(id, Word::Cancelled)
            }
            Stage::Waiting => {
                let has_changed = session.has_changed;
                self.close(index, has_changed);
                Answer::said(id, Word::Closed)
            }
            Stage::Over(_) => Answer::said(id, Word::Idle),
        }
    }

    /// The user cancels a transaction that the core knows: in the middle of its list nothing is done.
    fn cancel_known(&mut self, index: usize, id: TransactionId) -> Answer
        requires here { IsSessionAt self.old.state id index }
        requires named { AtIndex self.old.state.sessions index (λ s. session_id s ≡ id) }
        requires known { AtIndex self.old.state.sessions index (λ s. s.stage ≡ KnownStage) }
        ensures { Turns self.old self.new result (CancelAsked self.old.state.now id) }
    {
        if self.is_list_begun(id) {
            return Answer::said(id, Word::ListBegun);
        }
        let reply = self.entity.cancel(id);
        Answer::replied(id, reply)
    }

    /// The names of all closed transactions are forgotten.
    pub(crate) fn forget(&mut self) -> Answer
        ensures { Turns self.old self.new result ForgetAsked }
    {
        self.closed.forget(self.sessions.as_slice());
        Answer::nothing()
    }
}
