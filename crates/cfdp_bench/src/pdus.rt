//! The PDUs of a sender, octet by octet (CCSDS 727.0-B-5 §5): entity IDs have two octets, transaction sequence numbers
//! four.
use crate::fault::WorkloadFault;
use cfdp_status::{Action, TransactionId};
use std::alloc::Global;

/// This entity.
pub const ENTITY: u16 = 2;

/// A list of filestore requests as the TLVs of a Metadata PDU.
#[derive(Drop)]
pub struct List {
    pub octets: Vec<u8>,
    pub count: u32,
}

impl List {
    pub fn new(alloc: Global) -> List {
        List {
            octets: Vec::new(alloc),
            count: 0,
        }
    }

    /// Takes all requests away.
    pub fn clear(&mut self) {
        self.octets.clear();
        self.count = 0;
    }

    /// Adds a request on one name.
    pub fn one(&mut self, action: Action, name: &[u8]) -> Result<(), WorkloadFault> {
        self.begin(action, name.len().saturating_add(2))?;
        push_lv(&mut self.octets, name)
    }

    /// Adds a request on two names.
    pub fn two(
        &mut self,
        action: Action,
        first: &[u8],
        second: &[u8],
    ) -> Result<(), WorkloadFault> {
        self.begin(
            action,
            first.len().saturating_add(second.len()).saturating_add(3),
        )?;
        push_lv(&mut self.octets, first)?;
        push_lv(&mut self.octets, second)
    }

    fn begin(&mut self, action: Action, len: usize) -> Result<(), WorkloadFault> {
        self.count = self.count.saturating_add(1);
        self.octets
            .extend_from_slice(&[0, (len % 256) as u8, action.code() << 4])?;
        Ok(())
    }
}

/// Appends a length of one octet, and the octets.
fn push_lv(out: &mut Vec<u8>, octets: &[u8]) -> Result<(), WorkloadFault> {
    out.push((octets.len() % 256) as u8)?;
    out.extend_from_slice(octets)?;
    Ok(())
}

/// The first octet of a file directive, and that of file data: version 1, toward the receiver, unacknowledged.
const DIRECTIVE: u8 = 0x24;

const FILE_DATA: u8 = 0x34;

/// A transaction of a sender, and where its PDUs go.
#[derive(Clone, Copy, Drop)]
pub struct Sender {
    pub source: u16,
    pub number: u32,
    pub destination: u16,
}

impl Sender {
    /// A transaction with this entity.
    pub fn new(source: u16, number: u32) -> Sender {
        Sender {
            source,
            number,
            destination: ENTITY,
        }
    }

    /// The name of the transaction.
    pub fn id(&self) -> TransactionId {
        TransactionId {
            source: u64::from(self.source),
            number: u64::from(self.number),
        }
    }

    fn header(&self, out: &mut Vec<u8>, first: u8, len: usize) -> Result<(), WorkloadFault> {
        out.clear();
        out.push(first)?;
        out.extend_from_slice(&((len % 65_536) as u16).to_be_bytes())?;
        out.push(0x13)?;
        out.extend_from_slice(&self.source.to_be_bytes())?;
        out.extend_from_slice(&self.number.to_be_bytes())?;
        out.extend_from_slice(&self.destination.to_be_bytes())?;
        Ok(())
    }

    /// The Metadata PDU of a file for this destination, none where that is empty, and of a list of requests.
    pub fn metadata(
        &self,
        out: &mut Vec<u8>,
        size: u32,
        destination: &[u8],
        list: &List,
    ) -> Result<(), WorkloadFault> {
        let source_name: &[u8] = if destination.is_empty() {
            b""
        } else {
            b"source"
        };
        let len = list
            .octets
            .len()
            .saturating_add(destination.len())
            .saturating_add(source_name.len())
            .saturating_add(8);
        self.header(out, DIRECTIVE, len)?;
        out.extend_from_slice(&[7, 0x40])?;
        out.extend_from_slice(&size.to_be_bytes())?;
        push_lv(out, source_name)?;
        push_lv(out, destination)?;
        out.extend_from_slice(&list.octets)?;
        Ok(())
    }

    /// A File Data PDU up to its data.
    pub fn data_head(&self, out: &mut Vec<u8>, offset: u32, len: u32) -> Result<(), WorkloadFault> {
        self.header(out, FILE_DATA, (len as usize).saturating_add(4))?;
        out.extend_from_slice(&offset.to_be_bytes())?;
        Ok(())
    }

    /// The EOF PDU without an error.
    pub fn eof(&self, out: &mut Vec<u8>, checksum: u32, size: u32) -> Result<(), WorkloadFault> {
        self.header(out, DIRECTIVE, 10)?;
        out.extend_from_slice(&[4, 0])?;
        out.extend_from_slice(&checksum.to_be_bytes())?;
        out.extend_from_slice(&size.to_be_bytes())?;
        Ok(())
    }
}
