//! The receiving entity.
ghost use Rattle.std.specs.Prelude.{◌≡◌, ◌<◌, ◌≤◌, ◌++◌, ℕ, List, [], drop, length, true, IsFalse, IsNone, IsOk, IfOk, IfErr, IfSome, OnErr, OnOk, Ok, Err, Some, None};
ghost use Rattle.cfdp_actions.specs.Filestore.{Directory, File, node_at};
ghost use Rattle.cfdp_pdus.specs.First.{pdu_at};
ghost use Rattle.cfdp_pdus.specs.Sound.{IsNoFileData};
ghost use Rattle.cfdp_pdus.specs.Canonical.{IsHeader};
ghost use Rattle.cfdp_pdus.specs.BufferParts.{filled};
ghost use Rattle.cfdp_transactions.specs.Entry.{gaps};
ghost use Rattle.cfdp_transactions.specs.CoreFields.{AsksForNone, outcome_in, read_of};
ghost use Rattle.cfdp_transactions.specs.Events.{about};
ghost use Rattle.cfdp_transactions.specs.declared.event.Event.{Event as EventOf};
ghost use Rattle.cfdp_transactions.specs.declared.event.Event.TheVariants.{Data as DataCame, Eof as EofCame, Cancel as CancelCame, Check as CheckCame, Step as StepCame, Take as TakeCame};
ghost use Rattle.cfdp_transactions.specs.Beginning.{put_fault, with_node};
ghost use Rattle.cfdp_transactions.specs.Fitting.{OnlyWritable, only_writable_prop};
ghost use Rattle.cfdp_transactions.specs.FinishedInBuffer.{taken_by};
ghost use Rattle.cfdp_transactions.specs.Next.{next};
ghost use Rattle.cfdp_transactions.specs.World.{start};
ghost use Rattle.cfdp_transactions.specs.Needs.{Follows, may_lack_memory};
ghost use Rattle.cfdp_transactions.specs.Sound.{Sound};
ghost use Rattle.cfdp_transactions.specs.Writable.{FitsReply, IsReadable, IsWritable, longest_finished};
ghost use Rattle.cfdp_transactions.specs.Books.{IsAnswered};
ghost use Rattle.cfdp_entity.specs.Hearing.{IsUnheard, heard_event};
ghost use Rattle.cfdp_entity.specs.Sending.{IsUntaken, sent};
ghost use Rattle.cfdp_entity.specs.declared.fault.NotTaken.TheVariants.{Memory as NoMemory, TooShort};

use crate::{NotHeard, NotTaken};
use cfdp_paths::{Memory, Path};
use cfdp_pdus::{Eof, Header, PduFault, Piece, read_piece};
use cfdp_status::TransactionId;
use cfdp_transactions::{
    Config, Core, Event, NotPut, Outcome, Reply, ShortBuffer, TakenFinished, laws, read_event,
    transaction_of,
};
use cfdp_tree::TreeStore;
use std::alloc::Global;
use std::marker::Model;

/// A receiving entity (CCSDS 727.0-B-5, copy file procedures) over a filestore inside an arena.
///
/// Contracts see its world. All its events come from PDUs that were read, so each of its outcomes fits a Finished PDU.
///
/// The longest calls that are known on a full filestore of 65,536 blocks, in millions of instructions at most.
/// `docs/C.md`, 'The longest calls', has each case, its count and its time.
///
/// - [`receive`](Entity::receive) of a Metadata PDU: 44 (64 renames of and in two directories that hold the same 124
///   chains of directories)
/// - the same: 11 (64 renames of long paths, beside 63 such lists; a sender chose names of one hash)
/// - the same: 4 (a rename of a directory that has 30,000 others, with 63 files beside them)
/// - the drop of an entity: 30 (64 lists of 64 renames of long paths are live)
/// - [`step`](Entity::step): 11 (an append of 3.9 MB)
/// - [`put_file`](Entity::put_file): 9 (7.8 MB)
/// - `receive` and [`file_data`](Entity::file_data): 4 (the end of a file of 7.8 MB of which nothing came)
/// - a read of 7.8 MB: 3
/// - [`cancel`](Entity::cancel), and each other call by which such a list ends: 2 (64 renames of long paths)
/// - [`new`](Entity::new): 2
/// - [`take`](Entity::take) and [`outcome`](Entity::outcome): 0.3 (an outcome of 64 renames of long paths)
/// - `receive` of any other PDU: 1 (a Finished PDU with 13,106 responses)
/// - any other call: less than 0.1
#[derive(Drop)]
pub struct Entity {
    core: Core<TreeStore>,
    ghost writable: { OnlyWritable core.world } by { only_writable_prop core.world },
    ghost thrifty: { core.takes_no_memory ≡ true },
}

impl Model for Entity {
    ghost use Rattle.cfdp_transactions.specs.World.{World};
    ghost use Rattle.cfdp_transactions.specs.code.CoreFields.{nodes_code};
    ghost use Rattle.std.specs.Coded.{codes};

    ghost Value = { World };

    ghost coded = { Prim.hlevel (codes, nodes_code) };

    ghost view = { λ e. e.core.world };
}

impl Entity {
    /// An entity that has just begun, over an empty filestore. Directories and files can be put there before the first
    /// PDU, by [`put_directory`](Entity::put_directory) and [`put_file`](Entity::put_file).
    ///
    /// # Errors
    ///
    /// [`Memory`] when out of memory. Cost: for each block of the filestore 128 octets, 8 for its index, 6 for the ways
    /// back from block to block and 10 for the entries of directories in order, and the room of 64 transactions.
    pub fn new(alloc: Global, config: Config) -> Result<Entity, Memory>
        ensures { IfOk result (λ entity. entity ≡ start config) }
    {
        laws::outcomes_fit();
        let store = TreeStore::new(alloc, config.blocks())?;
        let core = Core::new(alloc, config, store)?;
        Ok(Entity { core })
    }

    /// Puts an empty directory at a path of the filestore, while no transaction is known: before launch, or after a
    /// restart. Takes no memory. Cost: a look-up of the path and of its parent.
    ///
    /// # Errors
    ///
    /// The first reason for which nothing is put, in the order of [`NotPut`], and never [`NotPut::Memory`]. The entity
    /// is as before.
    pub fn put_directory(&mut self, path: &Path) -> Result<(), NotPut>
        ensures ok { OnOk result (put_fault self.old path.now Directory ≡ None) }
        ensures put { OnOk result (self.new ≡ with_node self.old path.now Directory) }
        ensures err { IfErr result (λ why. put_fault self.old path.now Directory ≡ Some why) }
        ensures unchanged { OnErr result (self.new ≡ self.old) }
    {
        laws::beginning::outcomes_fit_from();
        self.core.put_directory(path)
    }

    /// Puts a file with these octets at a path of the filestore, as [`put_directory`](Entity::put_directory) puts a
    /// directory. Takes no memory: the octets are copied into the filestore. Cost: the look-ups, and two passes over
    /// the octets.
    ///
    /// # Errors
    ///
    /// The first reason for which nothing is put, in the order of [`NotPut`], and never [`NotPut::Memory`]. The entity
    /// is as before.
    pub fn put_file(&mut self, path: &Path, octets: &[u8]) -> Result<(), NotPut>
        ensures ok { OnOk result (put_fault self.old path.now (File octets.now) ≡ None) }
        ensures put { OnOk result (self.new ≡ with_node self.old path.now (File octets.now)) }
        ensures err { IfErr result (λ why. put_fault self.old path.now (File octets.now) ≡ Some why) }
        ensures unchanged { OnErr result (self.new ≡ self.old) }
    {
        laws::beginning::outcomes_fit_from();
        self.core.put_file(path, octets)
    }

    /// The core, for what it says of transactions, and for its filestore. Costs nothing.
    pub fn core(&self) -> &Core<TreeStore>
        ensures { result.now.world ≡ self.now }
    {
        &self.core
    }

    /// What is true at all times: the world is sound. Does nothing.
    pub fn sound(&self)
        ensures { Sound self.now }
    {
        self.core.sound();
    }

    /// Takes an event, which is lent (CCSDS 727.0-B-5, the procedures at the receiving entity): the reply, and the
    /// world after it, are those of the table of events. The event has to be one that reading a PDU can give, so that
    /// each outcome fits a Finished PDU:
    ///
    /// - The lengths in the PDU's header are 1 to 8 octets, and the header's numbers fit them.
    /// - The condition code of an EOF PDU is at most 15.
    /// - The value of a request has at most 254 octets.
    ///
    /// Out of memory the reply is [`Reply::Memory`] and the entity is as before: the event can be handed in again. Only
    /// a Metadata PDU and a request for an outcome get that reply. These Metadata PDUs never get it: one for another
    /// entity, one that came before, one with more than 64 requests, and one that comes while the table is full.
    ///
    /// Cost: a Metadata PDU is judged, and copied once. File data costs its octets and the pieces that they touch. A
    /// step costs what its request says, and an outcome two allocations and a move of each request. All else costs a
    /// look-up.
    pub fn apply(&mut self, event: &Event) -> Reply
        requires { IsReadable event.now }
        ensures follows { Follows self.old event.now result self.new }
        ensures fits { FitsReply result }
        ensures answered { IsFalse (may_lack_memory true event.now) → IsAnswered result }
        ensures lean { AsksForNone self.old event.now → IsAnswered result }
    {
        self.core.apply(event)
    }

    /// Like [`apply`](Entity::apply), but takes the event by value: its Metadata is moved into the table, not copied.
    /// Out of memory the event is dropped. Cost: as `apply`, less the copy of the Metadata.
    pub fn apply_owned(&mut self, event: Event) -> Reply
        requires { IsReadable event }
        ensures follows { Follows self.old event result self.new }
        ensures answered { IsFalse (may_lack_memory true event) → IsAnswered result }
        ensures lean { AsksForNone self.old event → IsAnswered result }
    {
        self.core.apply_owned(event)
    }

    /// Takes an event that never asks for memory.
    fn tell(&mut self, event: &Event) -> Reply
        requires readable { IsReadable event.now }
        requires lean { IsFalse (may_lack_memory true event.now) }
        ensures { next self.old event.now ≡ (self.new, result) }
    {
        self.apply(event)
    }

    /// The next item of a transaction is performed (CCSDS 727.0-B-5, filestore procedures): the file is installed, or a
    /// request is performed. Takes no memory. Cost: what the request says.
    pub fn step(&mut self, id: TransactionId) -> Reply
        ensures { next self.old (StepCame id) ≡ (self.new, result) }
    {
        self.tell(&Event::Step(id))
    }

    /// A transaction is cancelled (cancel procedures). Takes no memory. Cost: two searches among the leased paths for
    /// each path of its list, and for each directory above one of them; its blocks go back at once.
    pub fn cancel(&mut self, id: TransactionId) -> Reply
        ensures { next self.old (CancelCame id) ≡ (self.new, result) }
    {
        self.tell(&Event::Cancel(id))
    }

    /// A transaction's check timer expired (timer procedures). Takes no memory. Cost: a look-up; at the check limit
    /// that of a cancel.
    pub fn check(&mut self, id: TransactionId) -> Reply
        ensures { next self.old (CheckCame id) ≡ (self.new, result) }
    {
        self.tell(&Event::Check(id))
    }

    /// A File Data PDU came (§5.3), whose octets are lent: they are copied once, into the filestore. The header's
    /// lengths are 1 to 8 octets, and its numbers fit them. Takes no memory. Cost: the octets and the pieces that they
    /// touch. Where they are the last that were missing, the checksum of the file is known without another pass.
    pub fn file_data(&mut self, header: &Header, piece: &Piece<'_>) -> Reply
        requires { IsHeader header.now }
        ensures { next self.old (DataCame header.now piece.now) ≡ (self.new, result) }
    {
        self.core.file_data(header, piece)
    }

    /// An EOF PDU came (§5.2.2, copy file procedures). The header's lengths are 1 to 8 octets, and its numbers fit
    /// them; the condition code is at most 15. Takes no memory. Cost: a look-up.
    pub fn eof(&mut self, header: &Header, eof: Eof) -> Reply
        requires { IsReadable (EofCame header.now eof) }
        ensures { next self.old (EofCame header.now eof) ≡ (self.new, result) }
    {
        self.tell(&Event::Eof(*header, eof))
    }

    /// Takes a PDU that is no File Data PDU.
    fn hear(&mut self, alloc: Global, octets: &[u8]) -> Result<(TransactionId, Reply), NotHeard>
        requires { IsNoFileData (pdu_at octets.now) }
        ensures ok { IfOk result (λ returned. (event : EventOf) × (heard_event octets.now ≡ Ok event) ×
            (returned.0 ≡ about event)
            × (next self.old event ≡ (self.new, returned.1))) }
        ensures err { IfErr result (IsUnheard octets.now) }
        ensures unchanged { OnErr result (self.new ≡ self.old) }
    {
        let event = match read_event(alloc, octets) {
            Ok(Some(event)) => event,
            Ok(None) => return Err(NotHeard::NotOurs),
            Err(fault) => return Err(NotHeard::Fault(fault)),
        };
        let id = event.transaction();
        match self.apply_owned(event) {
            Reply::Memory => Err(NotHeard::Fault(PduFault::Memory)),
            reply => Ok((id, reply)),
        }
    }

    /// Takes the octets of a PDU: whose transaction it is about, and the reply.
    ///
    /// # Errors
    ///
    /// Why the octets bring no event; or [`PduFault::Memory`] when out of memory, for a Metadata PDU alone. The entity
    /// is as before.
    ///
    /// Cost: a pass over the octets, and that of the event. The octets of a File Data PDU are copied once, into the
    /// filestore.
    pub fn receive(
        &mut self,
        alloc: Global,
        octets: &[u8],
    ) -> Result<(TransactionId, Reply), NotHeard>
        ensures ok { IfOk result (λ returned. (event : EventOf) × (heard_event octets.now ≡ Ok event) ×
            (returned.0 ≡ about event)
            × (next self.old event ≡ (self.new, returned.1))) }
        ensures err { IfErr result (IsUnheard octets.now) }
        ensures unchanged { OnErr result (self.new ≡ self.old) }
    {
        let Some((header, piece)) = read_piece(octets) else {
            return self.hear(alloc, octets);
        };
        if header.toward_sender {
            return Err(NotHeard::NotOurs);
        }
        Ok((transaction_of(&header), self.file_data(&header, &piece)))
    }

    /// The outcome of a transaction that is over, as it will be handed out: `None` where the transaction is live or not
    /// known. It fits a Finished PDU, so [`Outcome::octets`] has no length to refuse.
    ///
    /// # Errors
    ///
    /// [`Memory`] when out of memory, where there is an outcome. Cost: a copy of its requests' names.
    pub fn outcome(&self, id: TransactionId) -> Result<Option<Outcome>, Memory>
        ensures outcome { IfOk result (λ outcome. outcome ≡ outcome_in self.now id) }
        ensures writable { IfOk result (λ outcome. IfSome outcome IsWritable) }
        ensures lean { IsNone (outcome_in self.now id) → IsOk result }
    {
        self.core.outcome(id)
    }

    /// The outcome of a transaction is handed out, with which it is forgotten (copy file procedures). The outcome was
    /// made before, by [`outcome`](Entity::outcome): no name of a request is copied once more.
    ///
    /// Out of memory the reply is [`Reply::Memory`], the entity is as before, and the outcome is dropped. Cost: a
    /// look-up, one allocation, the drop of what the table has of the transaction, and a move of the entries after it.
    pub fn hand_out(&mut self, id: TransactionId, outcome: Outcome) -> Reply
        requires made { outcome_in self.old id ≡ Some outcome }
        ensures follows { Follows self.old (TakeCame id) result self.new }
    {
        self.core.hand_out(id, outcome)
    }

    /// The outcome of a transaction is taken, with which it is forgotten (CCSDS 727.0-B-5, copy file procedures): the
    /// reply, and how many octets at the beginning of `out` are the Finished PDU, none where it is not to be sent or
    /// there is no outcome. The octets after them are as before. They are at most 16,488.
    ///
    /// # Errors
    ///
    /// [`NotTaken::TooShort`] where the Finished PDU does not fit in `out`, with its length, and [`NotTaken::Memory`]
    /// when out of memory. Neither comes where the transaction is live or not known. The entity and `out` are as
    /// before.
    ///
    /// Cost: one copy of the requests' names into an outcome, and two of its octets.
    pub fn take(
        &mut self,
        alloc: Global,
        id: TransactionId,
        out: &mut [u8],
    ) -> Result<(Reply, usize), NotTaken>
        ensures ok { IfOk result (λ taken. next self.old (TakeCame id) ≡ (self.new, taken.0)) }
        ensures len { IfOk result (λ taken. taken.1 ≡ length (sent taken.0)) }
        ensures most { length (sent (next self.old (TakeCame id)).1) ≤ longest_finished }
        ensures written { IfOk result (λ taken. out.new ≡ sent taken.0 ++ drop (length (sent taken.0)) out.old) }
        ensures short { IfErr result (IsUntaken self.old id out.old) }
        ensures lean { IsNone (outcome_in self.old id) → IsOk result }
        ensures unchanged { OnErr result (self.new ≡ self.old) }
        ensures unwritten { OnErr result (out.new ≡ out.old) }
    {
        let Some(outcome) = self.core.outcome(id)? else {
            return Ok((self.apply(&Event::Take(id)), 0));
        };
        let octets = outcome.octets(alloc)?;
        if out.len() < octets.len() {
            return Err(NotTaken::TooShort(octets.len()));
        }
        match self.hand_out(id, outcome) {
            Reply::Memory => Err(NotTaken::Memory),
            reply => {
                out[..octets.len()].copy_from_slice(&octets);
                Ok((reply, octets.len()))
            }
        }
    }

    /// The outcome of a transaction is taken, with which it is forgotten (CCSDS 727.0-B-5, copy file procedures), by a
    /// caller that wants its Finished PDU (§5.2.3) and its condition code alone: no outcome is made. The PDU is written
    /// to the front of `out`, of which the rest is as before; nothing is written where it is not to be sent. `None`
    /// where the transaction is live or not known, which changes nothing. Takes no memory.
    ///
    /// # Errors
    ///
    /// [`ShortBuffer`] exactly where the Finished PDU does not fit in `out`, with its length, at most 16,488 octets.
    /// The entity and `out` are as before.
    ///
    /// Cost: a look-up, a pass over the requests, the octets that it writes, the drop of what the table has of the
    /// transaction, and a move of the entries after it.
    pub fn take_finished(
        &mut self,
        id: TransactionId,
        out: &mut [u8],
    ) -> Result<Option<TakenFinished>, ShortBuffer>
        ensures returned { IfOk result (λ returned. returned ≡ taken_by (next self.old (TakeCame id)).1) }
        ensures world { OnOk result (self.new ≡ (next self.old (TakeCame id)).0) }
        ensures none { IfOk result (λ returned. IsNone returned → IsNone (outcome_in self.old id)) }
        ensures kept { IfOk result (λ returned. IsNone returned → self.new ≡ self.old) }
        ensures most { length (sent (next self.old (TakeCame id)).1) ≤ longest_finished }
        ensures written { OnOk result (out.new ≡ filled (sent (next self.old (TakeCame id)).1) out.old) }
        ensures fits { OnOk result (length (sent (next self.old (TakeCame id)).1) ≤ length out.old) }
        ensures needed { IfErr result (λ short. short.needed ≡ length (sent (next self.old (TakeCame id)).1)) }
        ensures less { IfErr result (λ short. length out.old < short.needed) }
        ensures unchanged { OnErr result (self.new ≡ self.old) }
        ensures unwritten { OnErr result (out.new ≡ out.old) }
    {
        self.core.take_finished(id, out)
    }
}
