//! The sessions of all transactions.

ghost use Rattle.std.specs.Prelude.{◌≡◌, ◌<◌, ◌≤◌, ◌++◌, ◌∷◌, [], length, nat_le, slice_get, vec_len};
ghost use Rattle.std.specs.Prelude.{IfSome, IfOk, IfNone, Some, None, true};
ghost use Rattle.cfdp_sessions.specs.Sessions.{AreDistinct, IsEnding, SessionFields, found, session_id};
ghost use Rattle.cfdp_sessions.specs.Sessions.{replaced, without_session};
ghost use Rattle.cfdp_sessions.specs.code.Sessions.{session_index};
ghost use Rattle.cfdp_sessions.specs.declared.session.Stage.TheVariants.{Over, Waiting};
ghost use Rattle.cfdp_transactions.specs.Writable.{longest_finished};

use crate::{Ending, Session, Stage};
use cfdp_retransmission::Timer;
use cfdp_status::TransactionId;
use std::alloc::{AllocError, Global};
use std::marker::Model;

/// How many sessions there are at most.
pub const MOST_SESSIONS: usize = 64;

/// At most 64 sessions, no two of one name, in the order in which they began. Contracts see the list of them. Only
/// [`Sessions::new`] takes memory; the octets of a Finished PDU are taken by whoever makes it.
#[derive(Drop)]
pub struct Sessions {
    list: Vec<Session>,
    /// The index that is looked at first when a session is looked up.
    recent: usize,
}

impl Model for Sessions {
    ghost use Rattle.std.specs.Prelude.{List, ◌≤◌, length, vec_len};
    ghost use Rattle.std.specs.Vec.{vec_capacity};
    ghost use Rattle.cfdp_sessions.specs.Sessions.{AreDistinct, SessionFields};

    ghost Value = { List SessionFields };

    ghost view = { λ s. s.list.items };

    ghost invariant = { λ s. (vec_len s.list ≤ 64) × (64 ≤ vec_capacity s.list) × AreDistinct s.list.items };
}

impl Sessions {
    /// No session, and the memory of 64, which is all that this table ever takes.
    ///
    /// # Errors
    ///
    /// [`AllocError`] when out of memory.
    pub fn new(alloc: Global) -> Result<Sessions, AllocError>
        ensures { IfOk result (λ sessions. sessions ≡ []) }
    {
        Ok(Sessions {
            list: Vec::with_capacity(alloc, MOST_SESSIONS)?,
            recent: 0,
        })
    }

    /// How many sessions there are. In constant time.
    pub fn len(&self) -> usize
        ensures { result ≡ length self.now }
    {
        self.list.len()
    }

    /// Whether there are 64. In constant time.
    pub fn is_full(&self) -> bool
        ensures { result ≡ nat_le 64 (length self.now) }
    {
        MOST_SESSIONS <= self.list.len()
    }

    /// All sessions, in the order in which they began.
    pub fn as_slice(&self) -> &[Session]
        ensures { result.now ≡ self.now }
    {
        &self.list
    }

    /// Whether the session with this index is there, and is that of this transaction.
    fn is_at(&self, index: usize, id: TransactionId) -> bool
        ensures { result ≡ true → session_index self.now id ≡ index }
    {
        index < self.list.len() && self.list[index].has_name(id)
    }

    /// The index of a transaction's session: the number of sessions where it has none.
    fn index_of(&self, id: TransactionId) -> usize
        ensures { result ≡ session_index self.now id }
    {
        if self.is_at(self.recent, id) {
            return self.recent;
        }
        let mut index = 0usize;
        for session in &self.list {
            if session.has_name(id) {
                return index;
            }
            index += 1;
        }
        index
    }

    /// A transaction's session, if it has one. Takes no memory. Cost: at most a pass over the sessions, constant after
    /// [`Sessions::look_first`] or [`Sessions::set_timer`] of it.
    pub fn get(&self, id: TransactionId) -> Option<&Session>
        ensures some { IfSome result (λ session. found self.now id ≡ Some session.now) }
        ensures none { IfNone result (found self.now id ≡ None) }
    {
        let index = self.index_of(id);
        if index < self.list.len() {
            Some(&self.list[index])
        } else {
            None
        }
    }

    /// The index of a transaction's session, if it has one. Takes no memory. Cost: as [`Sessions::get`].
    pub fn find(&self, id: TransactionId) -> Option<usize>
        ensures some { IfSome result (λ index. found self.now id ≡ slice_get self.now index) }
        ensures here { IfSome result (λ index. index < length self.now) }
        ensures none { IfNone result (found self.now id ≡ None) }
    {
        let index = self.index_of(id);
        if index < self.list.len() {
            Some(index)
        } else {
            None
        }
    }

    /// The session with this index, if there is one, is looked at first from now on: then to find it by its name takes
    /// constant time. No answer changes. In constant time.
    pub fn look_first(&mut self, index: usize)
        ensures { self.new ≡ self.old }
    {
        self.recent = index;
    }

    /// No two sessions have one name. Does nothing.
    pub fn distinct(&self)
        ensures { AreDistinct self.now }
    {
        // Read for the contract alone: it brings what is always true of the sessions.
        let _list = &self.list;
    }

    /// Gives the session with this index another timer; it is looked at first from now on. Takes no memory. In constant
    /// time.
    pub fn set_timer(&mut self, index: usize, timer: Timer)
        requires here { index < length self.old }
        requires counted { timer.count ≤ timer.since }
        ensures { (session : SessionFields) → slice_get self.old index ≡ Some session
            → self.new ≡ replaced self.old (record session { timer = timer }) }
    {
        self.recent = index;
        let session = &mut self.list[index];
        session.timer = timer;
    }

    /// Notes when the last Keep Alive PDU of the session with this index was sent. Takes no memory. In constant time.
    pub fn set_alive_at(&mut self, index: usize, moment: u64)
        requires here { index < length self.old }
        ensures { (session : SessionFields) → slice_get self.old index ≡ Some session
            → self.new ≡ replaced self.old (record session { alive_at = moment }) }
    {
        let session = &mut self.list[index];
        session.alive_at = moment;
    }

    /// The transaction of the session with this index is over, and is not in the core's table. Takes no memory. In
    /// constant time.
    pub fn end(&mut self, index: usize, ending: Ending)
        requires here { index < length self.old }
        requires sized { (session : SessionFields) → slice_get self.old index ≡ Some session
            → IsEnding session.header ending }
        ensures { (session : SessionFields) → slice_get self.old index ≡ Some session
            → self.new ≡ replaced self.old (record session { stage = Over ending }) }
    {
        let session = &mut self.list[index];
        session.stage = Stage::Over(ending);
    }

    /// Notes the condition code, 0 to 15, for which this entity cancelled the transaction of the session with this
    /// index. Takes no memory. In constant time.
    pub fn set_cause(&mut self, index: usize, condition: u8)
        requires here { index < length self.old }
        requires condition { condition < 16 }
        ensures { (session : SessionFields) → slice_get self.old index ≡ Some session
            → self.new ≡ replaced self.old (record session { cause = Some condition }) }
    {
        let session = &mut self.list[index];
        session.cause = Some(condition);
    }

    /// Notes that the transaction of the session with this index is abandoned. Takes no memory. In constant time.
    pub fn abandon(&mut self, index: usize)
        requires here { index < length self.old }
        ensures { (session : SessionFields) → slice_get self.old index ≡ Some session
            → self.new ≡ replaced self.old (record session { is_abandoned = true }) }
    {
        let session = &mut self.list[index];
        session.is_abandoned = true;
    }

    /// The session with this index waits from now on for the acknowledgement of its Finished PDU, whose octets are
    /// given. `has_changed` says whether its file was installed or a request was performed. Takes no memory. In
    /// constant time.
    pub fn wait(&mut self, index: usize, finished: Vec<u8>, has_changed: bool, timer: Timer)
        requires here { index < length self.old }
        requires short { vec_len finished ≤ longest_finished }
        requires counted { timer.count ≤ timer.since }
        ensures { (session : SessionFields) → slice_get self.old index ≡ Some session
            → self.new ≡ replaced self.old (record session {
              stage = Waiting;
              has_changed = has_changed;
              finished = finished.items;
              timer = timer;
            }) }
    {
        let session = &mut self.list[index];
        session.stage = Stage::Waiting;
        session.has_changed = has_changed;
        session.finished = finished;
        session.timer = timer;
    }

    /// Adds a session of a new name after the others, where there are fewer than 64. Takes no memory. In constant time.
    pub fn add(&mut self, session: Session)
        requires room { length self.old < 64 }
        requires new { found self.old (session_id session) ≡ None }
        ensures { self.new ≡ self.old ++ session ∷ [] }
    {
        self.list.push_reserved(session);
    }

    /// Replaces the session of the same transaction, if there is one. Takes no memory. Cost: as [`Sessions::get`].
    pub fn put(&mut self, session: Session)
        ensures { self.new ≡ replaced self.old session }
    {
        let index = self.index_of(session.name());
        if index < self.list.len() {
            self.list[index] = session;
        }
    }

    /// Removes a transaction's session, if it has one, and keeps the order of the others. Takes no memory. Cost: as
    /// [`Sessions::get`], and a move of the sessions after it.
    pub fn close(&mut self, id: TransactionId)
        ensures { self.new ≡ without_session self.old id }
    {
        let index = self.index_of(id);
        if index < self.list.len() {
            self.list.remove(index);
        }
    }
}
