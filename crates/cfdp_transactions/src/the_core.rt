//! The core of a receiving entity.

ghost use Rattle.std.specs.Prelude.{◌≡◌, ◌≢◌, ◌<◌, ◌≤◌, ◌∷◌, [], None, Some, length, IfOk, IfErr, IfSome, IsOk, IsNone, IsTrue, IsFalse, OnErr, OnOk, map, slice_get};
ghost use Rattle.cfdp_actions.specs.Filestore.{Directory, File};
ghost use Rattle.cfdp_actions.specs.Store.{empty_store};
ghost use Rattle.cfdp_transactions.specs.Beginning.{IsGoodStart, IsNotPut, Memory as NoMemory, put_fault, start_with, with_node};
ghost use Rattle.cfdp_transactions.specs.Sound.{Sound};
ghost use Rattle.cfdp_transactions.specs.World.{leases_of, next_outcome, next_runnable, spare_blocks, start};
ghost use Rattle.cfdp_transactions.specs.Events.{Cancel, Check, DataCame, EofCame, MetadataCame, Step, Take};
ghost use Rattle.cfdp_pdus.specs.BufferParts.{filled};
ghost use Rattle.cfdp_transactions.specs.FinishedInBuffer.{sent, taken_by};
ghost use Rattle.cfdp_transactions.specs.Next.{next};
ghost use Rattle.cfdp_transactions.specs.Writable.{IsWritable};
ghost use Rattle.cfdp_transactions.specs.Needs.{Follows, may_lack_memory};
ghost use Rattle.cfdp_transactions.specs.code.Adding.{IsRuled};
ghost use Rattle.cfdp_transactions.specs.Books.{IsAnswered};
ghost use Rattle.cfdp_transactions.specs.Entry.{gaps, name_of, progress, reach};
ghost use Rattle.std.specs.Option.{option_copied, option_map};
ghost use Rattle.cfdp_transactions.specs.CoreFields.{AsksForNone, may_begin, outcome_in, read_of};

use crate::admission::Ruling;
use crate::books::Books;
use crate::copying::copy_metadata;
use crate::event::transaction_of;
use crate::ranges::{MOST_GAPS, Range};
use crate::table::{MOST_TRANSACTIONS, Table};
use crate::{
    Config, Event, NotPut, Outcome, Phase, Reply, ShortBuffer, TakenFinished, admission, delivery,
    file_data, laws, phase_changes, putting, step, taken_outcome,
};
use arrayvec::ArrayVec;
use cfdp_actions::Filestore;
use cfdp_leases::Leases;
use cfdp_paths::{Memory, Path};
use cfdp_pdus::{Eof, Header, Metadata, Piece};
use cfdp_quota::Quota;
use cfdp_status::TransactionId;
use cfdp_verifier::{MOST_REQUESTS, Refusal};
use std::alloc::Global;
use std::marker::Model;

/// The core of a receiving entity (CCSDS 727.0-B-5, copy file procedures): its store, and at most 64 transactions in
/// order of admission.
///
/// Contracts see it as its `world` and whether its store takes no memory. The world is sound at all times: what live
/// transactions lease does not conflict, their reserves are free, and what is left of each succeeds within its grant.
#[derive(Drop)]
pub struct Core<S: Filestore> {
    alloc: Global,
    store: S,
    books: Books,
}

impl<S: Filestore> Model for Core<S> {
    ghost use Rattle.cfdp_transactions.specs.CoreFields as words;
    ghost use Rattle.cfdp_transactions.specs.code.CoreFields as words_in_code;
    ghost use Rattle.std.specs.Coded.{codes};

    ghost Value = { words.CoreFields };

    ghost coded = { Prim.hlevel (codes, words_in_code.nodes_code) };

    ghost view = { λ c. words_in_code.core_of (S.state c.store) c.books };

    ghost invariant = { λ c. words_in_code.IsWholeCore (S.state c.store) c.books };
}

impl<S: Filestore> Core<S> {
    /// A receiving entity that has just begun, over an empty store of the configuration's capacity.
    ///
    /// # Errors
    ///
    /// Out of memory: both are dropped. Cost: the room of 64 transactions.
    pub fn new(alloc: Global, config: Config, store: S) -> Result<Core<S>, Memory>
        requires { S.state store ≡ empty_store config.blocks (S.state store).takes_no_memory }
        ensures world { IfOk result (λ core. core.world ≡ start config) }
        ensures store { IfOk result (λ core. core.takes_no_memory ≡ (S.state store).takes_no_memory) }
    {
        laws::beginning::empty_is_good();
        Core::over(alloc, config, store)
    }

    /// A receiving entity that has just begun, over a store of the configuration's capacity that may have directories
    /// and files already: each parent is a directory, each path has 1 to 8 names, and nothing is staged.
    ///
    /// # Errors
    ///
    /// Out of memory: both are dropped. Cost: the room of 64 transactions.
    pub fn over(alloc: Global, config: Config, store: S) -> Result<Core<S>, Memory>
        requires good { IsGoodStart config (S.state store).filestore }
        requires capacity { (S.state store).capacity ≡ config.blocks }
        ensures world { IfOk result (λ core. core.world ≡ start_with config (S.state store).filestore) }
        ensures store { IfOk result (λ core. core.takes_no_memory ≡ (S.state store).takes_no_memory) }
    {
        laws::beginning::good_start_is_sound();
        let quota = Quota::with_free(config.blocks(), store.free());
        let books = Books {
            config,
            table: Table::new(alloc)?,
            leases: Leases::with_capacity(alloc, MOST_TRANSACTIONS)?,
            quota,
        };
        Ok(Core {
            alloc,
            store,
            books,
        })
    }

    /// Puts an empty directory at a path of the filestore, while no transaction is known: before launch, or after a
    /// restart. It is out of memory only over a store that takes some. Cost: a look-up of the path and of its parent.
    ///
    /// # Errors
    ///
    /// The first reason for which nothing is put, in the order of [`NotPut`]: all is as before.
    pub fn put_directory(&mut self, path: &Path) -> Result<(), NotPut>
        ensures ok { OnOk result (put_fault self.old.world path.now Directory ≡ None) }
        ensures put { OnOk result (self.new.world ≡ with_node self.old.world path.now Directory) }
        ensures err { IfErr result (IsNotPut self.old.world path.now Directory) }
        ensures unchanged { OnErr result (self.new.world ≡ self.old.world) }
        ensures thrifty { IsTrue self.old.takes_no_memory → IfErr result (λ why. why ≢ NoMemory) }
        ensures steady { self.new.takes_no_memory ≡ self.old.takes_no_memory }
    {
        laws::beginning::put_is_sound();
        putting::put_directory(&mut self.store, &mut self.books, path)
    }

    /// Puts a file with these octets at a path of the filestore, as [`put_directory`](Core::put_directory) puts a
    /// directory. Cost: the look-ups, and two passes over its blocks: zeros are written, and then the octets.
    ///
    /// # Errors
    ///
    /// The first reason for which nothing is put, in the order of [`NotPut`]: all is as before.
    pub fn put_file(&mut self, path: &Path, octets: &[u8]) -> Result<(), NotPut>
        ensures ok { OnOk result (put_fault self.old.world path.now (File octets.now) ≡ None) }
        ensures put { OnOk result (self.new.world ≡ with_node self.old.world path.now (File octets.now)) }
        ensures err { IfErr result (IsNotPut self.old.world path.now (File octets.now)) }
        ensures unchanged { OnErr result (self.new.world ≡ self.old.world) }
        ensures thrifty { IsTrue self.old.takes_no_memory → IfErr result (λ why. why ≢ NoMemory) }
        ensures steady { self.new.takes_no_memory ≡ self.old.takes_no_memory }
    {
        laws::beginning::put_is_sound();
        putting::put_file(&mut self.store, &mut self.books, path, octets)
    }

    /// What is true at all times: the world is sound. Does nothing.
    pub fn sound(&self)
        ensures { Sound self.now.world }
    {
        // Read for the contract alone: it brings what is always true of the core.
        let _books = &self.books;
    }

    /// The first transaction, in order of admission, whose items are being performed. Goes through the table.
    pub fn next_runnable(&self) -> Option<TransactionId>
        ensures { result ≡ next_runnable self.now.world.table }
    {
        self.books.table.next_runnable()
    }

    /// How far a transaction is. Like each of these readers it takes no memory and costs a look-up; it is `None` where
    /// the transaction is not known.
    pub fn phase(&self, id: TransactionId) -> Option<Phase>
        ensures { result ≡ read_of (λ e. e.phase) self.now.world id }
    {
        let Some(entry) = self.books.table.get(id) else {
            return None;
        };
        Some(entry.phase())
    }

    /// The blocks and the steps that were granted to a transaction: 0 where it was not admitted.
    pub fn grant(&self, id: TransactionId) -> Option<(u32, u32)>
        ensures { result ≡ read_of (λ e. (e.blocks_granted, e.steps_granted)) self.now.world id }
    {
        let Some(entry) = self.books.table.get(id) else {
            return None;
        };
        Some(entry.grant())
    }

    /// The blocks that a transaction took less those that it gave back, since its admission.
    pub fn blocks_spent(&self, id: TransactionId) -> Option<i64>
        ensures { result ≡ read_of (λ e. e.blocks_spent) self.now.world id }
    {
        let Some(entry) = self.books.table.get(id) else {
            return None;
        };
        Some(entry.blocks_spent())
    }

    /// The steps that a transaction spent.
    pub fn steps_spent(&self, id: TransactionId) -> Option<u32>
        ensures { result ≡ read_of (λ e. e.steps_spent) self.now.world id }
    {
        let Some(entry) = self.books.table.get(id) else {
            return None;
        };
        Some(entry.steps_spent())
    }

    /// What is missing of a transaction's file, as starts and ends in order: between the octets that came, and once its
    /// EOF PDU came up to the size that it gave (lost segment procedures). There are none where no file data is taken.
    /// Cost: a look-up, and a pass over the pieces that came, at most 32.
    pub fn gaps(&self, id: TransactionId) -> Option<ArrayVec<Range, MOST_GAPS>>
        ensures { option_map (λ gaps. gaps.items) result ≡ read_of gaps self.now.world id }
    {
        let Some(entry) = self.books.table.get(id) else {
            return None;
        };
        Some(entry.gaps())
    }

    /// The end of the last octet of a transaction's file that is kept, as an offset: 0 where none is kept.
    pub fn progress(&self, id: TransactionId) -> Option<u64>
        ensures { result ≡ read_of progress self.now.world id }
    {
        let Some(entry) = self.books.table.get(id) else {
            return None;
        };
        Some(entry.progress())
    }

    /// The offset up to which [`gaps`](Core::gaps) says what is missing: the end of the last octet kept, and once the
    /// EOF PDU came the size that it gave. 0 where no file data is taken.
    pub fn reach(&self, id: TransactionId) -> Option<u64>
        ensures { result ≡ read_of reach self.now.world id }
    {
        let Some(entry) = self.books.table.get(id) else {
            return None;
        };
        Some(entry.reach())
    }

    /// A transaction's Metadata (CCSDS 727.0-B-5 §5.2.5) as it came: the names, the size, whether closure was
    /// requested, the checksum type and the requests. It is lent.
    pub fn metadata(&self, id: TransactionId) -> Option<&Metadata>
        ensures { option_copied result ≡ read_of (λ e. e.metadata) self.now.world id }
    {
        let Some(entry) = self.books.table.get(id) else {
            return None;
        };
        Some(entry.metadata())
    }

    /// The transaction with this number in order of admission, counted from 0: `None` where there are not that many.
    /// Those that are refused, done or ended count too, until their outcome is taken. Takes no memory. Cost: constant.
    pub fn transaction_at(&self, index: usize) -> Option<TransactionId>
        ensures { result ≡ slice_get (map name_of self.now.world.table) index }
    {
        self.books.table.name_at(index)
    }

    /// The first transaction, in order of admission, whose outcome can be taken: it is refused, done or ended. Goes
    /// through the table. Takes no memory.
    pub fn next_outcome(&self) -> Option<TransactionId>
        ensures { result ≡ next_outcome self.now.world.table }
    {
        self.books.table.next_outcome()
    }

    /// The outcome of a transaction that is over, as it will be handed out when it is taken: `None` where the
    /// transaction is live or not known.
    ///
    /// # Errors
    ///
    /// Out of memory, where there is an outcome. Cost: a copy of its requests' names.
    pub fn outcome(&self, id: TransactionId) -> Result<Option<Outcome>, Memory>
        ensures outcome { IfOk result (λ outcome. outcome ≡ outcome_in self.now.world id) }
        ensures lean { IsNone (outcome_in self.now.world id) → IsOk result }
    {
        let Some(entry) = self.books.table.get(id) else {
            return Ok(None);
        };
        if entry.phase().is_live() {
            return Ok(None);
        }
        Ok(Some(taken_outcome::make_outcome(self.alloc, entry)?))
    }

    /// The free blocks that nobody was granted. Costs nothing.
    pub fn spare(&self) -> u32
        ensures { result ≡ spare_blocks self.now.world }
    {
        self.books.quota.spare()
    }

    /// The store. It has as many blocks as the configuration says, and takes no memory exactly where the core's store
    /// takes none. Costs nothing.
    pub fn store(&self) -> &S
        ensures filestore { (S.state result.now).filestore ≡ self.now.world.filestore }
        ensures capacity { (S.state result.now).capacity ≡ self.now.world.config.blocks }
        ensures thrift { (S.state result.now).takes_no_memory ≡ self.now.takes_no_memory }
    {
        &self.store
    }

    /// What the live transactions lease, in order of admission. Costs nothing.
    pub fn leases(&self) -> &Leases
        ensures { result.now ≡ leases_of self.now.world.table }
    {
        &self.books.leases
    }

    /// The configuration. Costs nothing.
    pub fn config(&self) -> &Config
        ensures { result.now ≡ self.now.world.config }
    {
        &self.books.config
    }

    /// Takes an event (CCSDS 727.0-B-5, the procedures at the receiving entity): the reply, and the world after it, are
    /// those of the table of events.
    ///
    /// Out of memory, the reply is [`Reply::Memory`] and the world is as before: the event can be handed in again. Over
    /// a store that takes no memory only Metadata and Take get that reply. Over any store these never get it:
    ///
    /// - an EOF PDU, a request to cancel, and a check;
    /// - Take of a transaction that is live or not known;
    /// - a Metadata PDU that is for another entity, that came before, or that has more than 64 requests;
    /// - a Metadata PDU that comes while the table is full.
    ///
    /// Journal-full is no reply of the core.
    ///
    /// Cost: that of what the event brings. Metadata costs what [`verify`](cfdp_verifier::verify) does and one copy of
    /// it. File data costs its octets and the pieces that they touch, and what the store takes to reach its offset.
    /// Where no octet is missing any more, the EOF PDU or the file data that came last asks the store for the checksum
    /// of what is staged: constant time in a store that keeps it, else one pass. A step costs the change that its
    /// request makes, and asks the store nothing before it. The outcome costs two allocations, and a move of each
    /// request. All else costs a look-up.
    pub fn apply(&mut self, event: &Event) -> Reply
        ensures follows { Follows self.old.world event.now result self.new.world }
        ensures answered { IsFalse (may_lack_memory self.old.takes_no_memory event.now) → IsAnswered result }
        ensures lean { AsksForNone self.old.world event.now → IsAnswered result }
        ensures steady { self.new.takes_no_memory ≡ self.old.takes_no_memory }
    {
        match event {
            Event::Metadata(header, metadata) => match self.judge(header, metadata) {
                Ok(ruling) => match copy_metadata(self.alloc, metadata) {
                    Ok(copy) => self.record(header, copy, ruling),
                    Err(_) => Reply::Memory,
                },
                Err(reply) => reply,
            },
            Event::Data(header, data) => self.file_data(header, &data.piece()),
            Event::Eof(header, eof) => self.eof(header, *eof),
            Event::Step(id) => self.step(*id),
            Event::Cancel(id) => self.cancel(*id),
            Event::Check(id) => self.check(*id),
            Event::Take(id) => self.take_moved(*id),
        }
    }

    /// Like [`apply`](Core::apply), but takes the event by value: its Metadata is moved, not copied. Out of memory the
    /// event is dropped. Cost: as `apply`, less the copy of the Metadata. A vector of the event
    /// that has spare capacity keeps it while the transaction is in the table. The vectors of
    /// [`read_event`](crate::read_event) have none.
    pub fn apply_owned(&mut self, event: Event) -> Reply
        ensures follows { Follows self.old.world event result self.new.world }
        ensures answered { IsFalse (may_lack_memory self.old.takes_no_memory event) → IsAnswered result }
        ensures lean { AsksForNone self.old.world event → IsAnswered result }
        ensures steady { self.new.takes_no_memory ≡ self.old.takes_no_memory }
    {
        match event {
            Event::Metadata(header, metadata) => match self.judge(&header, &metadata) {
                Ok(ruling) => self.record(&header, metadata, ruling),
                Err(reply) => reply,
            },
            other => self.apply(&other),
        }
    }

    /// Like [`apply`](Core::apply), but returns the reply twice: once for the journal, once for the caller. An
    /// outcome's second handle is made before anything changes. Cost: that of `apply`.
    pub fn apply_both(&mut self, event: &Event) -> (Reply, Reply)
        ensures follows { Follows self.old.world event.now result.0 self.new.world }
        ensures same { result.1 ≡ result.0 }
        ensures answered { IsFalse (may_lack_memory self.old.takes_no_memory event.now) → IsAnswered result.0 }
        ensures lean { AsksForNone self.old.world event.now → IsAnswered result.0 }
        ensures steady { self.new.takes_no_memory ≡ self.old.takes_no_memory }
    {
        if let Event::Take(id) = event {
            return self.take(*id);
        }
        laws::only_take_hands_out();
        let reply = self.apply(event);
        let again = reply.share().unwrap();
        (reply, again)
    }

    /// The outcome of a transaction is handed out, with which it is forgotten, as [`apply`](Core::apply) does with
    /// Take. The outcome was made before, by [`outcome`](Core::outcome): no name of a request is copied once more.
    ///
    /// Out of memory the reply is [`Reply::Memory`], the world is as before, and the outcome is dropped. Cost: a
    /// look-up, one allocation, the drop of what the table has of the transaction, and a move of the entries after it.
    pub fn hand_out(&mut self, id: TransactionId, outcome: Outcome) -> Reply
        requires made { outcome_in self.old.world id ≡ Some outcome }
        ensures follows { Follows self.old.world (Take id) result self.new.world }
        ensures steady { self.new.takes_no_memory ≡ self.old.takes_no_memory }
    {
        laws::follows_is_sound();
        let Some(index) = self.books.table.find(id) else {
            return Reply::Unknown;
        };
        taken_outcome::hand_out(self.alloc, &self.store, &mut self.books, index, outcome)
    }

    /// The outcome of a transaction is taken, with which it is forgotten, as [`apply`](Core::apply) does with Take, by
    /// a caller that wants its Finished PDU (CCSDS 727.0-B-5 §5.2.3) alone. The PDU is written to the front of `out`,
    /// of which the rest is as before; nothing is written where it is not to be sent. `None` where the transaction is
    /// live or not known, which changes nothing. Takes no memory.
    ///
    /// # Errors
    ///
    /// Exactly where the Finished PDU does not fit in `out`, with its length: the core and `out` are as before.
    ///
    /// Cost: a look-up, a pass over the requests, the octets that it writes, the drop of what the table has of the
    /// transaction, and a move of the entries after it.
    pub fn take_finished(
        &mut self,
        id: TransactionId,
        out: &mut [u8],
    ) -> Result<Option<TakenFinished>, ShortBuffer>
        requires writable { IfSome (outcome_in self.old.world id) IsWritable }
        ensures returned { IfOk result (λ returned. returned ≡ taken_by (next self.old.world (Take id)).1) }
        ensures world { OnOk result (self.new.world ≡ (next self.old.world (Take id)).0) }
        ensures written { OnOk result (out.new ≡ filled (sent (next self.old.world (Take id)).1) out.old) }
        ensures fits { OnOk result (length (sent (next self.old.world (Take id)).1) ≤ length out.old) }
        ensures needed { IfErr result (λ short. short.needed ≡ length (sent (next self.old.world (Take id)).1)) }
        ensures less { IfErr result (λ short. length out.old < short.needed) }
        ensures unchanged { OnErr result (self.new.world ≡ self.old.world) }
        ensures unwritten { OnErr result (out.new ≡ out.old) }
        ensures steady { self.new.takes_no_memory ≡ self.old.takes_no_memory }
    {
        laws::next_is_sound();
        let Some(index) = self.books.table.find(id) else {
            return Ok(None);
        };
        taken_outcome::take_finished(self.alloc, &self.store, &mut self.books, index, out)
    }

    /// The ruling on a Metadata PDU that came (CCSDS 727.0-B-5 §5.2.5), which is lent.
    ///
    /// # Errors
    ///
    /// The reply, which changes nothing. It is for another entity, its transaction is already there, the table is full,
    /// or it has too many requests: that takes no memory and costs a look-up. Or it may begin a transaction, and there
    /// is no memory to judge it.
    fn judge(&self, header: &Header, metadata: &Metadata) -> Result<Ruling, Reply>
        ensures begins { IfOk result (λ ruling. IsTrue (may_begin self.now.world header.now metadata.now)) }
        ensures ruled { IfOk result (IsRuled self.now.world metadata.now) }
        ensures follows { IfErr result (λ reply. Follows self.now.world
            (MetadataCame header.now metadata.now) reply self.now.world) }
        ensures lean { IsFalse (may_begin self.now.world header.now metadata.now) → IfErr result IsAnswered }
    {
        if header.destination != self.books.config.entity() {
            return Err(Reply::NotForUs);
        }
        if self.books.table.find(transaction_of(header)).is_some() {
            return Err(Reply::Duplicate);
        }
        if self.books.table.len() >= MOST_TRANSACTIONS {
            return Err(Reply::TableFull);
        }
        if metadata.requests.len() > MOST_REQUESTS {
            return Err(Reply::Refused(Refusal::TooManyRequests));
        }
        match admission::judge(self.alloc, &self.store, &self.books, metadata) {
            Ok(ruling) => Ok(ruling),
            Err(_) => Err(Reply::Memory),
        }
    }

    /// Records Metadata as its ruling says: its transaction is in the table from now on. Out of memory the world is as
    /// before, and the Metadata is dropped.
    fn record(&mut self, header: &Header, metadata: Metadata, ruling: Ruling) -> Reply
        requires begins { IsTrue (may_begin self.old.world header.now metadata) }
        requires ruled { IsRuled self.old.world metadata ruling }
        ensures follows { Follows self.old.world (MetadataCame header.now metadata) result self.new.world }
        ensures steady { self.new.takes_no_memory ≡ self.old.takes_no_memory }
    {
        laws::follows_is_sound();
        admission::record(
            self.alloc,
            &self.store,
            &mut self.books,
            header,
            metadata,
            ruling,
        )
    }

    /// A File Data PDU came (CCSDS 727.0-B-5 §5.3, copy file procedures at the receiving entity). Does what
    /// [`apply`](Core::apply) does with its event, without a copy of its octets. Over a store that takes no memory the
    /// reply is never [`Reply::Memory`]. Cost: as for [`apply`](Core::apply).
    pub fn file_data(&mut self, header: &Header, piece: &Piece<'_>) -> Reply
        ensures follows { Follows self.old.world (DataCame header.now piece.now) result self.new.world }
        ensures answered { IsTrue self.old.takes_no_memory → IsAnswered result }
        ensures steady { self.new.takes_no_memory ≡ self.old.takes_no_memory }
    {
        laws::lower_laws();
        laws::follows_is_sound();
        if header.destination != self.books.config.entity() {
            return Reply::NotForUs;
        }
        let Some(index) = self.books.table.find(transaction_of(header)) else {
            return Reply::Unknown;
        };
        file_data::receive(&mut self.store, &mut self.books, index, piece)
    }

    /// An EOF PDU came (§5.2.2, copy file procedures).
    fn eof(&mut self, header: &Header, eof: Eof) -> Reply
        ensures follows { Follows self.old.world (EofCame header.now eof) result self.new.world }
        ensures answered { IsAnswered result }
        ensures steady { self.new.takes_no_memory ≡ self.old.takes_no_memory }
    {
        laws::follows_is_sound();
        if header.destination != self.books.config.entity() {
            return Reply::NotForUs;
        }
        let Some(index) = self.books.table.find(transaction_of(header)) else {
            return Reply::Unknown;
        };
        delivery::eof(&mut self.store, &mut self.books, index, eof)
    }

    /// The outcome of a transaction is asked for, with which it is forgotten: the reply, twice.
    fn take(&mut self, id: TransactionId) -> (Reply, Reply)
        ensures follows { Follows self.old.world (Take id) result.0 self.new.world }
        ensures lean { IsNone (outcome_in self.old.world id) → IsAnswered result.0 }
        ensures same { result.1 ≡ result.0 }
        ensures steady { self.new.takes_no_memory ≡ self.old.takes_no_memory }
    {
        laws::follows_is_sound();
        let Some(index) = self.books.table.find(id) else {
            return (Reply::Unknown, Reply::Unknown);
        };
        taken_outcome::take(self.alloc, &self.store, &mut self.books, index)
    }

    /// Like `take`, but returns the reply once: no name is copied.
    fn take_moved(&mut self, id: TransactionId) -> Reply
        ensures follows { Follows self.old.world (Take id) result self.new.world }
        ensures lean { IsNone (outcome_in self.old.world id) → IsAnswered result }
        ensures steady { self.new.takes_no_memory ≡ self.old.takes_no_memory }
    {
        laws::follows_is_sound();
        let Some(index) = self.books.table.find(id) else {
            return Reply::Unknown;
        };
        taken_outcome::take_moved(self.alloc, &self.store, &mut self.books, index)
    }

    /// A request to cancel a transaction (CCSDS 727.0-B-5, cancel procedures).
    fn cancel(&mut self, id: TransactionId) -> Reply
        ensures follows { Follows self.old.world (Cancel id) result self.new.world }
        ensures answered { IsAnswered result }
        ensures steady { self.new.takes_no_memory ≡ self.old.takes_no_memory }
    {
        laws::follows_is_sound();
        let Some(index) = self.books.table.find(id) else {
            return Reply::Unknown;
        };
        phase_changes::cancel(&mut self.store, &mut self.books, index)
    }

    /// A check timer of a transaction expired (timer procedures).
    fn check(&mut self, id: TransactionId) -> Reply
        ensures follows { Follows self.old.world (Check id) result self.new.world }
        ensures answered { IsAnswered result }
        ensures steady { self.new.takes_no_memory ≡ self.old.takes_no_memory }
    {
        laws::follows_is_sound();
        let Some(index) = self.books.table.find(id) else {
            return Reply::Unknown;
        };
        phase_changes::check(&mut self.store, &mut self.books, index)
    }

    /// The next item of a transaction is performed (filestore procedures).
    fn step(&mut self, id: TransactionId) -> Reply
        ensures follows { Follows self.old.world (Step id) result self.new.world }
        ensures answered { IsTrue self.old.takes_no_memory → IsAnswered result }
        ensures steady { self.new.takes_no_memory ≡ self.old.takes_no_memory }
    {
        laws::lower_laws();
        laws::follows_is_sound();
        let Some(index) = self.books.table.find(id) else {
            return Reply::Unknown;
        };
        step::step(&mut self.store, &mut self.books, index)
    }
}
