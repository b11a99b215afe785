//! The names of the transactions that were closed last.

ghost use Rattle.std.specs.Prelude.{◌≡◌, ◌≤◌, [], false, true, IfOk};
ghost use Rattle.cfdp_sessions.specs.Closed.{forgotten, has_room_for, has_source, has_session_of, most_closed, remembers};
ghost use Rattle.cfdp_sessions.specs.Closed.{with_name, with_source};
ghost use Rattle.cfdp_sessions.specs.code.Closed.{source_index};

use crate::Session;
use crate::source_names::SourceNames;
use cfdp_pdus::Header;
use cfdp_status::TransactionId;
use std::alloc::{AllocError, Global};
use std::marker::Model;

/// How many names of one source are remembered at most.
pub const MOST_CLOSED: usize = 256;

/// How many are of a source whose sequence numbers have one octet: half of all its numbers.
pub const MOST_CLOSED_OF_ONE_OCTET: usize = 128;

/// How many sources have a place at most.
pub const MOST_SOURCES: usize = 16;

/// How many names of a source are remembered, by the header of a PDU of it.
pub fn most_closed(header: &Header) -> usize
    ensures value { result ≡ most_closed header.now }
    ensures some { 1 ≤ result }
    ensures few { result ≤ 256 }
{
    if header.number_len == 1 {
        MOST_CLOSED_OF_ONE_OCTET
    } else {
        MOST_CLOSED
    }
}

/// Whether a session is of this source.
fn has_session_of(sessions: &[Session], source: u64) -> bool
    ensures { result ≡ has_session_of sessions.now source }
{
    sessions
        .iter()
        .any(|session| session.header.source == source)
}

/// The names of the transactions that were closed last, of each of 16 sources at most; and whether a name was ever
/// dropped from them. Only [`ClosedTransactions::new`] takes memory.
#[derive(Drop)]
pub struct ClosedTransactions {
    /// The numbers of each source that has a place, in the order in which the sources got theirs.
    sources: Vec<SourceNames>,
    /// The places that are free.
    free: Vec<SourceNames>,
    forgot: bool,
}

impl Model for ClosedTransactions {
    ghost use Rattle.std.specs.Prelude.{◌≡◌, ◌≤◌, ◌+◌, vec_len};
    ghost use Rattle.std.specs.Vec.{vec_capacity};
    ghost use Rattle.cfdp_sessions.specs.Closed.{ClosedFields};

    ghost Value = { ClosedFields };

    ghost view = { λ c. record { sources = c.sources.items; forgot = c.forgot } };

    ghost invariant = { λ c. (vec_len c.sources + vec_len c.free ≡ 16) × (16 ≤ vec_capacity c.sources)
        × (16 ≤ vec_capacity c.free) };
}

impl ClosedTransactions {
    /// No name, and the memory of 16 sources, which is all that it ever takes: 65,536 octets for the numbers.
    ///
    /// # Errors
    ///
    /// [`AllocError`] when out of memory.
    pub fn new(alloc: Global) -> Result<ClosedTransactions, AllocError>
        ensures sources { IfOk result (λ closed. closed.sources ≡ []) }
        ensures forgot { IfOk result (λ closed. closed.forgot ≡ false) }
    {
        let sources = Vec::with_capacity(alloc, MOST_SOURCES)?;
        let mut free = Vec::with_capacity(alloc, MOST_SOURCES)?;
        for _ in 0..MOST_SOURCES {
            free.push_reserved(SourceNames::new(alloc)?);
        }
        Ok(ClosedTransactions {
            sources,
            free,
            forgot: false,
        })
    }

    /// The index of a source's place: the number of those that are taken where it has none.
    fn index_of(&self, source: u64) -> usize
        ensures { result ≡ source_index self.now.sources source }
    {
        let mut index = 0usize;
        for names in &self.sources {
            if names.source == source {
                return index;
            }
            index += 1;
        }
        index
    }

    /// Whether a transaction is one of those closed last. Cost: a pass over the sources, and one over the names of its
    /// own.
    pub fn remembers(&self, id: TransactionId) -> bool
        ensures { result ≡ remembers self.now id }
    {
        let index = self.index_of(id.source);
        index < self.sources.len() && self.sources[index].has(id.number)
    }

    /// Whether a name was ever dropped: then a transaction that is not remembered may have been here.
    pub fn has_forgotten(&self) -> bool
        ensures { result ≡ self.now.forgot }
    {
        self.forgot
    }

    /// Whether a source has a place. Cost: a pass over the sources.
    pub fn has_source(&self, source: u64) -> bool
        ensures { result ≡ has_source self.now source }
    {
        self.index_of(source) < self.sources.len()
    }

    /// Whether a source has a place, or a place is free. Cost: a pass over the sources.
    pub fn has_room_for(&self, source: u64) -> bool
        ensures { result ≡ has_room_for self.now source }
    {
        self.has_source(source) || self.sources.len() < MOST_SOURCES
    }

    /// A source has a place from now on. Takes no memory. Cost: a pass over the sources.
    pub fn add_source(&mut self, source: u64)
        requires { has_room_for self.old source ≡ true }
        ensures { self.new ≡ with_source self.old source }
    {
        if self.has_source(source) {
            return;
        }
        let Some(mut names) = self.free.pop() else {
            unreachable!()
        };
        names.begin(source);
        self.sources.push_reserved(names);
    }

    /// Remembers a transaction that is closed, of a source that has a place. At most `most` names of the source are
    /// kept: the oldest ones are dropped that are too many, and first those of transactions that changed nothing. No
    /// name of another source is dropped. Takes no memory. Cost: a pass over the sources.
    pub fn add(&mut self, id: TransactionId, most: usize, has_changed: bool)
        requires here { has_source self.old id.source ≡ true }
        requires some { 1 ≤ most }
        requires few { most ≤ 256 }
        ensures { self.new ≡ with_name self.old most has_changed id }
    {
        let index = self.index_of(id.source);
        let names = &mut self.sources[index];
        self.forgot = self.forgot || most <= names.len();
        names.add(most, has_changed, id.number);
    }

    /// Drops all names. The sources of these sessions keep their places, and all other places are free. Takes no
    /// memory. Cost: for each source a pass over the sessions.
    pub fn forget(&mut self, sessions: &[Session])
        ensures { self.new ≡ forgotten self.old sessions.now }
    {
        let mut index = self.sources.len();
        while 0 < index {
            index -= 1;
            let source = self.sources[index].source;
            if has_session_of(sessions, source) {
                self.sources[index].begin(source);
            } else {
                let names = self.sources.remove(index);
                self.free.push_reserved(names);
            }
        }
        self.forgot = true;
    }
}
