//! Timers that are due.

ghost use Rattle.std.specs.Prelude.{◌≡◌, ◌<◌, ◌^◌, ◌||◌, ◌∷◌, [], true, false, ℕ, length, Some};
ghost use Rattle.std.specs.Option.{option_map};
ghost use Rattle.cfdp_sessions.specs.Sessions.{session_id, replaced};
ghost use Rattle.cfdp_transactions.specs.declared.event.Event.TheVariants.{Cancel as CancelCame};
ghost use Rattle.cfdp_transactions.specs.Next.{run};
ghost use Rattle.cfdp_receiver.specs.declared.mib.Handler.TheVariants.{Ignore, Cancel, Abandon};
ghost use Rattle.cfdp_receiver.specs.State.{At_awaiting, Expire, at_of};
ghost use Rattle.cfdp_receiver.specs.Due.{Alive_due, Stage_due, expiry_by, expiry_of, fault_at, first_due, handler_at, is_alive_due, terms_at};
ghost use Rattle.cfdp_receiver.specs.Handing.{due_events, where_known};
ghost use Rattle.cfdp_receiver.specs.StateMachine.{has_come, is_any_due};
ghost use Rattle.cfdp_receiver.specs.code.StateMachine.{AtIndex, HavePlaces, Turns, in_world, is_expired, is_within, timer_in};
ghost use Rattle.cfdp_receiver.specs.Turning.{over_here};

use crate::answer::{Answer, turned};
use crate::state_machine::StateMachine;
use crate::{Handler, Indication, JointPhase, Word};
use cfdp_pdus::condition::{
    CHECK_LIMIT_REACHED, INACTIVITY_DETECTED, NAK_LIMIT_REACHED, POSITIVE_ACK_LIMIT_REACHED,
};
use cfdp_retransmission::{Expiry, Timer};
use cfdp_sessions::{Ending, Session, Stage};

/// The first timer that is due, with the index of its session.
#[derive(Clone, Copy, Debug, PartialEq, Eq)]
pub(crate) enum DueTimer {
    /// No timer is due.
    Nothing,
    /// That of a session's stage, below its limit.
    Stage(usize),
    /// That of a session's stage, at its limit.
    Limit(usize),
    /// A Keep Alive PDU is due.
    KeepAlive(usize),
}

impl StateMachine {
    /// Whether the timer of a session's stage has expired.
    pub(crate) fn expiry(&self, session: &Session) -> Expiry
        ensures { result ≡ expiry_of self.now.state session.now }
    {
        let timer = session.timer;
        match self.at(session) {
            JointPhase::Held => self.nak_expiry(timer),
            JointPhase::Receiving => {
                timer.expiry(u64::from(self.mib.inactivity.interval), 1, self.latest)
            }
            JointPhase::Awaiting(_) if session.header.acknowledged => self.nak_expiry(timer),
            JointPhase::Awaiting(made) => self.check_expiry(timer, made),
            JointPhase::Executing | JointPhase::Over => Expiry::NotDue,
            JointPhase::Waiting => timer.expiry(
                u64::from(self.mib.ack.interval),
                u64::from(self.mib.ack.limit),
                self.latest,
            ),
        }
    }

    /// Of a timer after which what is missing is asked for again.
    fn nak_expiry(&self, timer: Timer) -> Expiry
        ensures { result ≡ expiry_by self.now.state.now timer
            (Some (self.now.state.mib.nak.interval, self.now.state.mib.nak.limit)) }
    {
        timer.expiry(
            u64::from(self.mib.nak.interval),
            u64::from(self.mib.nak.limit),
            self.latest,
        )
    }

    /// Of a check timer. The core counts the checks that were made.
    fn check_expiry(&self, timer: Timer, made: u32) -> Expiry
        ensures { result ≡ expiry_by self.now.state.now timer
            (terms_at self.now.state.mib self.now.state.world.config.checks false timer (At_awaiting made)) }
    {
        if !timer.is_due(u64::from(self.mib.check.interval), self.latest) {
            Expiry::NotDue
        } else if u64::from(self.entity.core().config().checks()) <= u64::from(made) + 1 {
            Expiry::Limit
        } else {
            Expiry::Again
        }
    }

    /// Whether a Keep Alive PDU is due.
    pub(crate) fn is_alive_due(&self, session: &Session) -> bool
        ensures { result ≡ is_alive_due self.now.state session.now }
    {
        let Some(interval) = self.mib.keep_alive else {
            return false;
        };
        session.header.acknowledged
            && self.at(session) == JointPhase::Receiving
            && match self.latest.checked_sub(session.alive_at) {
                Some(elapsed) => elapsed >= u64::from(interval),
                None => false,
            }
    }

    /// How long the timer of a session's stage runs, if it has one.
    fn interval(&self, session: &Session) -> Option<u32>
        ensures { result ≡ option_map (λ terms. terms.0) (terms_at self.now.state.mib self.now.state.world.config.checks
            session.now.header.acknowledged session.now.timer (at_of self.now.state.world session.now)) }
    {
        match self.at(session) {
            JointPhase::Held => Some(self.mib.nak.interval),
            JointPhase::Receiving => Some(self.mib.inactivity.interval),
            JointPhase::Awaiting(_) if session.header.acknowledged => Some(self.mib.nak.interval),
            JointPhase::Awaiting(_) => Some(self.mib.check.interval),
            JointPhase::Executing | JointPhase::Over => None,
            JointPhase::Waiting => Some(self.mib.ack.interval),
        }
    }

    /// The moment at which the timer of a session's stage is due: `None` where it has none, or where that is after the
    /// greatest moment.
    pub(crate) fn stage_deadline(&self, session: &Session) -> Option<u64>
        ensures { (now : ℕ) → now < 2 ^ 64 → has_come result now
            ≡ is_expired (expiry_of (record self.now.state { now = now }) session.now) }
    {
        let interval = self.interval(session)?;
        session.timer.since.checked_add(u64::from(interval))
    }

    /// The moment at which a Keep Alive PDU is due.
    pub(crate) fn alive_deadline(&self, session: &Session) -> Option<u64>
        ensures { (now : ℕ) → now < 2 ^ 64 → has_come result now
            ≡ is_alive_due (record self.now.state { now = now }) session.now }
    {
        let interval = self.mib.keep_alive?;
        if !session.header.acknowledged || self.at(session) != JointPhase::Receiving {
            return None;
        }
        session.alive_at.checked_add(u64::from(interval))
    }

    /// The first session with a timer that is due, and which. That of its stage comes before Keep Alive. Cost: a pass
    /// over the sessions.
    pub(crate) fn first_due(&self) -> DueTimer
        ensures due { timer_in self.now.state.sessions result ≡ first_due self.now.state self.now.state.sessions }
        ensures here { is_within self.now.state.sessions result }
    {
        for index in 0..self.sessions.len() {
            let session = self.session(index);
            match self.expiry(session) {
                Expiry::Again => return DueTimer::Stage(index),
                Expiry::Limit => return DueTimer::Limit(index),
                Expiry::NotDue => {
                    if self.is_alive_due(session) {
                        return DueTimer::KeepAlive(index);
                    }
                }
            }
        }
        DueTimer::Nothing
    }

    /// The earlier of two moments, where there are any.
    fn earlier(one: Option<u64>, other: Option<u64>) -> Option<u64>
        ensures { (now : ℕ) → has_come result now ≡ (has_come one now || has_come other now) }
    {
        match (one, other) {
            (Some(one), Some(other)) => Some(one.min(other)),
            (None, other) => other,
            (one, None) => one,
        }
    }

    /// The moment from which on a timer is due.
    pub(crate) fn deadline(&self) -> Option<u64>
        ensures { (now : ℕ) → now < 2 ^ 64 → has_come result now
            ≡ is_any_due (first_due (record self.now.state { now = now }) self.now.state.sessions) }
    {
        let mut earliest = None;
        for session in self.sessions.as_slice() {
            let moment = StateMachine::earlier(
                self.stage_deadline(session),
                self.alive_deadline(session),
            );
            earliest = StateMachine::earlier(earliest, moment);
        }
        earliest
    }

    /// The first timer that is due is served.
    pub(crate) fn expire(&mut self) -> Answer
        requires { HavePlaces self.old.state }
        ensures { Turns self.old self.new result (Expire self.old.state.now) }
    {
        match self.first_due() {
            DueTimer::Nothing => Answer::nothing(),
            DueTimer::KeepAlive(index) => self.keeps_alive(index),
            DueTimer::Stage(index) => self.expires(index),
            DueTimer::Limit(index) => self.gives_up(index),
        }
    }

    /// A Keep Alive PDU (CCSDS 727.0-B-5 §5.2.8) is sent.
    fn keeps_alive(&mut self, index: usize) -> Answer
        requires here { index < length self.old.state.sessions }
        requires due { AtIndex self.old.state.sessions index (λ s. first_due self.old.state self.old.state.sessions
            ≡ Alive_due s) }
        ensures { Turns self.old self.new result (Expire self.old.state.now) }
    {
        let session = self.session(index);
        let id = session.name();
        let header = turned(&session.header);
        let progress = self.progress(id);
        let now = self.latest;
        self.sessions.set_alive_at(index, now);
        Answer::said(id, Word::KeptAlive).with_keep_alive(header, progress)
    }

    /// A timer expired below its limit: Finished is sent again, or what is missing asked for, or the core looks whether
    /// the file is whole.
    fn expires(&mut self, index: usize) -> Answer
        requires here { index < length self.old.state.sessions }
        requires due { AtIndex self.old.state.sessions index (λ s. first_due self.old.state self.old.state.sessions
            ≡ Stage_due s false) }
        ensures { Turns self.old self.new result (Expire self.old.state.now) }
    {
        let session = self.session(index);
        let id = session.name();
        let at = self.at(session);
        let acknowledged = session.header.acknowledged;
        let timer = session.timer.again(self.latest);
        self.hand_check(index);
        self.sessions.set_timer(index, timer);
        let answer = Answer::said(id, Word::Expired);
        if at == JointPhase::Waiting {
            answer.with_finished(id)
        } else if acknowledged {
            answer.with_naks(self.asks(self.session(index)))
        } else {
            answer
        }
    }

    /// In unacknowledged mode the core looks whether the file is whole.
    fn hand_check(&mut self, index: usize)
        requires { index < length self.old.state.sessions }
        ensures { AtIndex self.old.state.sessions index (λ s. self.new
            ≡ in_world (run self.old.state.world (due_events self.old.state (Stage_due s false))) self.old) }
    {
        let session = self.session(index);
        if let (JointPhase::Awaiting(_), false) = (self.at(session), session.header.acknowledged) {
            let id = session.name();
            self.entity.check(id);
        }
    }

    /// What is done at the limit of a timer (CCSDS 727.0-B-5, the fault handling procedures), and the condition code.
    fn fault(&self, acknowledged: bool, at: JointPhase) -> (u8, Handler)
        ensures condition { result.0 ≡ fault_at acknowledged at }
        ensures small { result.0 < 16 }
        ensures handler { result.1 ≡ handler_at self.now.state.mib acknowledged at }
    {
        match at {
            JointPhase::Receiving => (INACTIVITY_DETECTED, self.mib.inactivity.at_limit),
            JointPhase::Waiting => (POSITIVE_ACK_LIMIT_REACHED, self.mib.ack.at_limit),
            JointPhase::Awaiting(_) if !acknowledged => (
                CHECK_LIMIT_REACHED,
                self.mib.check.at_limit,
            ),
            _ => (NAK_LIMIT_REACHED, self.mib.nak.at_limit),
        }
    }

    /// A timer reached its limit.
    fn gives_up(&mut self, index: usize) -> Answer
        requires places { HavePlaces self.old.state }
        requires here { index < length self.old.state.sessions }
        requires due { AtIndex self.old.state.sessions index (λ s. first_due self.old.state self.old.state.sessions
            ≡ Stage_due s true) }
        ensures { Turns self.old self.new result (Expire self.old.state.now) }
    {
        let session = self.session(index);
        let at = self.at(session);
        let (condition, handler) = self.fault(session.header.acknowledged, at);
        match handler {
            Handler::Ignore => self.ignores(index, condition),
            Handler::Cancel => self.cancels(index, at, condition),
            Handler::Abandon => self.abandons(index, at, condition),
        }
    }

    /// A fault is ignored: the user is notified, and the timer begins anew.
    fn ignores(&mut self, index: usize, condition: u8) -> Answer
        requires here { index < length self.old.state.sessions }
        requires due { AtIndex self.old.state.sessions index (λ s. first_due self.old.state self.old.state.sessions
            ≡ Stage_due s true) }
        requires condition { AtIndex self.old.state.sessions index (λ s. condition
            ≡ fault_at s.header.acknowledged (at_of self.old.state.world s)) }
        requires handler { AtIndex self.old.state.sessions index
            (λ s. handler_at self.old.state.mib s.header.acknowledged (at_of self.old.state.world s) ≡ Ignore) }
        ensures { Turns self.old self.new result (Expire self.old.state.now) }
    {
        let id = self.session(index).name();
        let timer = Timer::start(self.latest);
        self.sessions.set_timer(index, timer);
        Answer::said(id, Word::Ignored).with_indication(Some(Indication::Fault(id, condition)))
    }

    /// A fault cancels the transaction. One whose Finished PDU is not acknowledged is closed.
    fn cancels(&mut self, index: usize, at: JointPhase, condition: u8) -> Answer
        requires places { HavePlaces self.old.state }
        requires here { index < length self.old.state.sessions }
        requires due { AtIndex self.old.state.sessions index (λ s. first_due self.old.state self.old.state.sessions
            ≡ Stage_due s true) }
        requires at { AtIndex self.old.state.sessions index (λ s. at ≡ at_of self.old.state.world s) }
        requires condition { AtIndex self.old.state.sessions index (λ s. condition
            ≡ fault_at s.header.acknowledged at) }
        requires handler { AtIndex self.old.state.sessions index
            (λ s. handler_at self.old.state.mib s.header.acknowledged at ≡ Cancel) }
        ensures { Turns self.old self.new result (Expire self.old.state.now) }
    {
        let session = self.session(index);
        let id = session.name();
        match at {
            JointPhase::Waiting => {
                let has_changed = session.has_changed;
                self.close(index, has_changed);
                return Answer::said(id, Word::Faulted).with_indication(Some(Indication::Fault(
                    id, condition,
                )));
            }
            JointPhase::Held => self.ends_here(index, condition),
            JointPhase::Awaiting(_) if !session.header.acknowledged => {
                self.entity.check(id);
                self.sessions.set_cause(index, condition);
            }
            _ => {
                self.hand_cancel(index);
                self.sessions.set_cause(index, condition);
            }
        }
        Answer::said(id, Word::Faulted)
    }

    /// A fault abandons the transaction: nothing more is sent.
    fn abandons(&mut self, index: usize, at: JointPhase, condition: u8) -> Answer
        requires places { HavePlaces self.old.state }
        requires here { index < length self.old.state.sessions }
        requires due { AtIndex self.old.state.sessions index (λ s. first_due self.old.state self.old.state.sessions
            ≡ Stage_due s true) }
        requires at { AtIndex self.old.state.sessions index (λ s. at ≡ at_of self.old.state.world s) }
        requires condition { AtIndex self.old.state.sessions index (λ s. condition
            ≡ fault_at s.header.acknowledged at) }
        requires handler { AtIndex self.old.state.sessions index
            (λ s. handler_at self.old.state.mib s.header.acknowledged at ≡ Abandon) }
        ensures { Turns self.old self.new result (Expire self.old.state.now) }
    {
        let session = self.session(index);
        let id = session.name();
        match at {
            JointPhase::Waiting | JointPhase::Held => {
                let has_changed = session.has_changed;
                self.close(index, has_changed);
            }
            _ => {
                self.hand_cancel(index);
                self.sessions.abandon(index);
            }
        }
        Answer::said(id, Word::Faulted).with_indication(Some(Indication::Abandoned(id, condition)))
    }

    /// The core cancels a transaction that it knows.
    fn hand_cancel(&mut self, index: usize)
        requires { index < length self.old.state.sessions }
        ensures { AtIndex self.old.state.sessions index (λ s. self.new
            ≡ in_world (run self.old.state.world (where_known s.stage (CancelCame (session_id s) ∷ []))) self.old) }
    {
        let session = self.session(index);
        if session.stage == Stage::Known {
            let id = session.name();
            self.entity.cancel(id);
        }
    }

    /// A transaction that is not in the core ends, and this entity is at fault.
    pub(crate) fn ends_here(&mut self, index: usize, condition: u8)
        requires here { index < length self.old.state.sessions }
        requires condition { condition < 16 }
        ensures { AtIndex self.old.state.sessions index (λ s. self.new
            ≡ record self.old {
              state = record self.old.state
                  { sessions = replaced self.old.state.sessions (over_here self.old.state s condition) };
            }) }
    {
        let ending = Ending {
            condition,
            is_sent: true,
            at_fault: self.session(index).header.destination,
        };
        self.sessions.end(index, ending);
    }
}
