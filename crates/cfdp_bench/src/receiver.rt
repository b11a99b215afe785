//! The receiving entity and a sender, octets in memory.
use crate::digest::Digest;
use crate::fault::WorkloadFault;
use crate::pdus::{List, Sender};
use crate::pool::{Pool, PoolPiece};
use cfdp_actions::Protected;
use cfdp_entity::Entity;
use cfdp_paths::{Names, Path};
use cfdp_status::TransactionId;
use cfdp_transactions::{Config, Reply};
use std::alloc::Global;

/// How many octets the longest Finished PDU has.
const LONGEST_FINISHED: usize = 16_488;

/// How many octets the longest path has: eight names of 96, with separators between them, and one octet more.
const LONGEST_PATH: usize = 776;

/// How many items a transaction has at most: its file and 64 requests.
const MOST_ITEMS: u32 = 65;

/// The receiving entity, and the digest of all that it replied.
#[derive(Drop)]
pub struct MeasuredEntity {
    alloc: Global,
    entity: Entity,
    pdu: Vec<u8>,
    finished: Vec<u8>,
    pub digest: Digest,
}

impl MeasuredEntity {
    /// An entity over an empty filestore of this many blocks.
    pub fn new(alloc: Global, blocks: u32) -> Result<MeasuredEntity, WorkloadFault> {
        let config = Config::new(2, blocks, 7_864_320, 4, 1_000, Protected::new())?;
        let mut finished = Vec::new(alloc);
        finished.resize(LONGEST_FINISHED, 0)?;
        Ok(MeasuredEntity {
            alloc,
            entity: Entity::new(alloc, config)?,
            pdu: Vec::new(alloc),
            finished,
            digest: Digest::new(),
        })
    }

    /// The PDU that was written comes. Returns the reply.
    fn hear(&mut self) -> Result<Reply, WorkloadFault> {
        match self.entity.receive(self.alloc, &self.pdu) {
            Ok((id, reply)) => {
                self.digest.add(id.source);
                self.digest.add(id.number);
                self.digest.add_reply(&reply);
                Ok(reply)
            }
            Err(fault) => Err(WorkloadFault::from(fault)),
        }
    }

    /// The Metadata PDU comes. Returns the reply.
    pub fn begin(
        &mut self,
        sender: Sender,
        size: u32,
        destination: &[u8],
        list: &List,
    ) -> Result<Reply, WorkloadFault> {
        sender.metadata(&mut self.pdu, size, destination, list)?;
        self.hear()
    }

    /// The Metadata PDU of a transaction that is made to be admitted comes.
    ///
    /// # Errors
    ///
    /// [`WorkloadFault::Verdict`] if it is not admitted.
    pub fn admit(
        &mut self,
        sender: Sender,
        size: u32,
        destination: &[u8],
        list: &List,
    ) -> Result<(), WorkloadFault> {
        match self.begin(sender, size, destination, list)? {
            Reply::Admitted(..) => Ok(()),
            _ => Err(WorkloadFault::Verdict),
        }
    }

    /// File data comes.
    pub fn data(
        &mut self,
        sender: Sender,
        pool: &Pool,
        piece: PoolPiece,
    ) -> Result<(), WorkloadFault> {
        sender.data_head(&mut self.pdu, piece.offset, piece.len)?;
        self.pdu.extend_from_slice(pool.octets(piece))?;
        self.hear()?;
        Ok(())
    }

    /// The EOF PDU comes.
    pub fn end(&mut self, sender: Sender, checksum: u32, size: u32) -> Result<(), WorkloadFault> {
        sender.eof(&mut self.pdu, checksum, size)?;
        self.hear()?;
        Ok(())
    }

    /// All items of all transactions are performed, as far as they can be.
    pub fn run(&mut self) {
        for _ in 0..64 * MOST_ITEMS {
            let Some(id) = self.entity.core().next_runnable() else {
                break;
            };
            let reply = self.entity.step(id);
            self.digest.add_reply(&reply);
        }
    }

    /// The transaction is cancelled.
    pub fn cancel(&mut self, id: TransactionId) {
        let reply = self.entity.cancel(id);
        self.digest.add_reply(&reply);
    }

    /// The outcome is taken.
    pub fn take(&mut self, id: TransactionId) -> Result<(), WorkloadFault> {
        match self.entity.take(self.alloc, id, &mut self.finished) {
            Ok((reply, count)) => {
                self.digest.add_reply(&reply);
                self.digest
                    .add_octets(self.finished.get(..count).unwrap_or(&[]));
                Ok(())
            }
            Err(fault) => Err(WorkloadFault::from(fault)),
        }
    }

    /// All that is in the filestore is listed, one entry at a time.
    pub fn list_all(&mut self) -> Result<(), WorkloadFault> {
        let mut text = [0_u8; LONGEST_PATH];
        let store = self.entity.core().store();
        let mut next = store.next_entry(Names::none(), &mut text);
        for _ in 0..65_536 {
            let Some(entry) = next else {
                break;
            };
            let octets = text.get(entry.start..).unwrap_or(&[]);
            self.digest.add_octets(octets);
            self.digest.add(entry.size);
            self.digest.add(u64::from(entry.checksum));
            let after = Path::parse(self.alloc, octets)?;
            next = store.next_entry(after.names(), &mut text);
        }
        Ok(())
    }

    /// A file is looked up, and its octets are read in pieces of 1,000.
    ///
    /// # Errors
    ///
    /// [`WorkloadFault::Missing`] if there is no such file.
    pub fn read_back(&mut self, name: &[u8]) -> Result<(), WorkloadFault> {
        let mut piece = [0_u8; 1_000];
        let path = Path::parse(self.alloc, name)?;
        let store = self.entity.core().store();
        let Some(found) = store.find(path.names()) else {
            return Err(WorkloadFault::Missing);
        };
        self.digest.add(found.size);
        self.digest.add(u64::from(found.checksum));
        let mut at = 0_u64;
        for _ in 0..7_865 {
            let Some(count) = store.read_at(path.names(), at, &mut piece) else {
                return Err(WorkloadFault::Missing);
            };
            if count == 0 {
                break;
            }
            self.digest.add_some(piece.get(..count).unwrap_or(&[]));
            at = at.saturating_add(count as u64);
        }
        Ok(())
    }

    /// A whole transaction: a list without a file.
    pub fn list(&mut self, sender: Sender, list: &List) -> Result<(), WorkloadFault> {
        self.admit(sender, 0, b"", list)?;
        self.end(sender, 0, 0)?;
        self.run();
        self.take(sender.id())
    }

    /// A whole transaction: a file, whose pieces come in order, and a list.
    pub fn deliver(
        &mut self,
        sender: Sender,
        pool: &Pool,
        pieces: &[PoolPiece],
        destination: &[u8],
        list: &List,
    ) -> Result<(), WorkloadFault> {
        let size = size_of(pieces);
        self.admit(sender, size, destination, list)?;
        for piece in pieces {
            self.data(sender, pool, *piece)?;
        }
        self.end(sender, pool.checksum(pieces), size)?;
        self.run();
        self.take(sender.id())
    }
}

/// The size of the file of these pieces.
pub fn size_of(pieces: &[PoolPiece]) -> u32 {
    let mut size = 0_u32;
    for piece in pieces {
        size = size.max(piece.offset.saturating_add(piece.len));
    }
    size
}
