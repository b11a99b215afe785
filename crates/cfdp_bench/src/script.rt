//! Scripts of `replay` and `links`, a line for each PDU and local event.
use crate::fault::WorkloadFault;
use crate::names::{push_decimal, spell};
use crate::pdus::{List, Sender};
use crate::pool::{Pool, PoolPiece, push_hex};
use crate::receiver::size_of;
use std::alloc::Global;

/// The first line of a script: a filestore of 65,536 blocks.
pub const CONFIG: &[u8] = b"config 2 65536 7864320 4 1000000\n";

/// A script that is being written.
#[derive(Drop)]
pub struct ScriptText {
    pub text: Vec<u8>,
    pdu: Vec<u8>,
}

impl ScriptText {
    pub fn new(alloc: Global) -> ScriptText {
        ScriptText {
            text: Vec::new(alloc),
            pdu: Vec::new(alloc),
        }
    }

    /// Begins anew.
    pub fn clear(&mut self) {
        self.text.clear();
    }

    /// Appends a line as it is.
    pub fn line(&mut self, line: &[u8]) -> Result<(), WorkloadFault> {
        self.text.extend_from_slice(line)?;
        Ok(())
    }

    /// Appends the line of the PDU that was written, up to the end of the line.
    fn push_pdu(&mut self) -> Result<(), WorkloadFault> {
        self.text.extend_from_slice(b"pdu ")?;
        push_hex(&mut self.text, &self.pdu)
    }

    fn end_line(&mut self) -> Result<(), WorkloadFault> {
        Ok(self.text.push(b'\n')?)
    }

    /// Appends a Metadata PDU.
    pub fn metadata(
        &mut self,
        sender: Sender,
        size: u32,
        destination: &[u8],
        list: &List,
    ) -> Result<(), WorkloadFault> {
        sender.metadata(&mut self.pdu, size, destination, list)?;
        self.push_pdu()?;
        self.end_line()
    }

    /// Appends a File Data PDU.
    pub fn data(
        &mut self,
        sender: Sender,
        pool: &Pool,
        piece: PoolPiece,
    ) -> Result<(), WorkloadFault> {
        sender.data_head(&mut self.pdu, piece.offset, piece.len)?;
        self.push_pdu()?;
        self.text.extend_from_slice(pool.hex(piece))?;
        self.end_line()
    }

    /// Appends an EOF PDU.
    pub fn eof(&mut self, sender: Sender, checksum: u32, size: u32) -> Result<(), WorkloadFault> {
        sender.eof(&mut self.pdu, checksum, size)?;
        self.push_pdu()?;
        self.end_line()
    }

    /// Appends a PDU of which the last octets are missing.
    pub fn cut(&mut self, sender: Sender, list: &List, octets: usize) -> Result<(), WorkloadFault> {
        sender.metadata(&mut self.pdu, 0, b"", list)?;
        let len = self.pdu.len().saturating_sub(octets);
        self.pdu.truncate(len);
        self.push_pdu()?;
        self.end_line()
    }

    /// Appends a local event of the transaction: `step`, `check`, `cancel` or `take`.
    pub fn local(&mut self, word: &[u8], sender: Sender) -> Result<(), WorkloadFault> {
        self.text.extend_from_slice(word)?;
        spell(&mut self.text, b" ", u32::from(sender.source), 1)?;
        self.text.push(b' ')?;
        push_decimal(&mut self.text, sender.number, 1)?;
        self.end_line()
    }

    /// Appends the end of a transaction: EOF, all items, and its outcome.
    pub fn finish(
        &mut self,
        sender: Sender,
        checksum: u32,
        size: u32,
    ) -> Result<(), WorkloadFault> {
        self.eof(sender, checksum, size)?;
        self.line(b"run\n")?;
        self.local(b"take", sender)
    }

    /// Appends the end of a transaction that shares its entity: EOF, this many items of its own, and its outcome.
    pub fn finish_by_steps(
        &mut self,
        sender: Sender,
        checksum: u32,
        size: u32,
        items: u32,
    ) -> Result<(), WorkloadFault> {
        self.eof(sender, checksum, size)?;
        for _ in 0..items {
            self.local(b"step", sender)?;
        }
        self.local(b"take", sender)
    }

    /// Appends a transaction without a file.
    pub fn list(&mut self, sender: Sender, list: &List) -> Result<(), WorkloadFault> {
        self.metadata(sender, 0, b"", list)?;
        self.finish(sender, 0, 0)
    }

    /// Appends a transaction whose file's pieces come in order.
    pub fn deliver(
        &mut self,
        sender: Sender,
        pool: &Pool,
        pieces: &[PoolPiece],
        destination: &[u8],
        list: &List,
    ) -> Result<(), WorkloadFault> {
        self.metadata(sender, size_of(pieces), destination, list)?;
        for piece in pieces {
            self.data(sender, pool, *piece)?;
        }
        self.finish(sender, pool.checksum(pieces), size_of(pieces))
    }
}
