//! A run: transactions begin, and File Data PDUs come.

use crate::fault::CostFault;
use crate::hearing::{Heard, Hears};
use crate::pdus::{DATA_PIECE, data_pdu, header, metadata_pdu, set_number, set_offset};
use std::alloc::Global;
use std::fmt;

/// Whose File Data PDUs come.
#[derive(Clone, Copy, PartialEq, Eq)]
pub enum Whose {
    /// They belong to the transaction that began last.
    Last,
    /// They belong to all transactions in turn.
    Each,
    /// They belong to a transaction that did not begin.
    Stranger,
}

/// What is handed in.
#[derive(Clone, Copy)]
pub struct Workload {
    /// How many transactions begin.
    pub sessions: u32,
    /// How many File Data PDUs come.
    pub count: u32,
    /// Whose they are.
    pub whose: Whose,
    /// The deadline is asked for after each of them.
    pub asks_deadline: bool,
}

/// What became of the File Data PDUs.
#[derive(Clone, Copy)]
pub struct CallTally {
    /// How many were handed in.
    count: u32,
    /// Of how many the octets were stored.
    pub stored: u32,
    /// What became of the last one.
    last: Heard,
    /// The last deadline that was asked for.
    deadline: Option<u64>,
}

impl fmt::Display for CallTally {
    fn fmt<W: fmt::Write>(&self, f: &mut fmt::Formatter<W>) -> fmt::Result {
        write!(
            f,
            "{} File Data PDUs of {DATA_PIECE} octets, {} stored, the last one: ",
            self.count, self.stored
        )?;
        match self.last {
            Heard::Stored(id) => write!(f, "Stored, of transaction {}", id.number),
            Heard::Notified(id, offset, len) => write!(
                f,
                "File-Segment-Recv, transaction {}, {len} octets at offset {offset}",
                id.number
            ),
            Heard::Otherwise => f.write_str("not stored"),
        }?;
        match self.deadline {
            Some(moment) => write!(f, ", deadline {moment}"),
            None => Ok(()),
        }
    }
}

impl Workload {
    /// The transaction of the PDU with this index.
    fn transaction(&self, index: u32) -> u32 {
        match self.whose {
            Whose::Last => self.sessions,
            Whose::Each => (index % self.sessions.max(1)).saturating_add(1),
            Whose::Stranger => self.sessions.saturating_add(1),
        }
    }

    /// How many PDUs of its transaction come before the one with this index.
    fn before(&self, index: u32) -> u32 {
        match self.whose {
            Whose::Last | Whose::Stranger => index,
            Whose::Each => index / self.sessions.max(1),
        }
    }

    /// How many octets the file of a transaction has: all that are to come, and at least a few.
    fn size(&self, number: u32) -> u32 {
        let pieces = match self.whose {
            Whose::Each => self.before(self.count).saturating_add(1),
            Whose::Last | Whose::Stranger if number == self.sessions => self.count,
            Whose::Last | Whose::Stranger => 1,
        };
        pieces.saturating_mul(DATA_PIECE)
    }
}

/// Begins all transactions.
fn begin<H: Hears>(alloc: Global, hearer: &mut H, workload: Workload) -> Result<(), CostFault> {
    for number in 1..=workload.sessions {
        let mut octets = metadata_pdu(alloc, &header(number), workload.size(number))?;
        if !hearer.begin(alloc, &mut octets) {
            return Err(CostFault::NotAdmitted);
        }
    }
    Ok(())
}

/// Hands in all File Data PDUs, from one buffer.
pub fn count<H: Hears>(
    alloc: Global,
    hearer: &mut H,
    workload: Workload,
) -> Result<CallTally, CostFault> {
    begin(alloc, hearer, workload)?;
    let mut octets = data_pdu(alloc, &header(1))?;
    let mut stored = 0_u32;
    let mut last = Heard::Otherwise;
    let mut deadline = None;
    for index in 0..workload.count {
        set_number(&mut octets, workload.transaction(index));
        set_offset(
            &mut octets,
            workload.before(index).saturating_mul(DATA_PIECE),
        );
        last = hearer.data(alloc, &mut octets);
        if !matches!(last, Heard::Otherwise) {
            stored = stored.saturating_add(1);
        }
        if workload.asks_deadline {
            deadline = hearer.deadline();
        }
    }
    Ok(CallTally {
        count: workload.count,
        stored,
        last,
        deadline,
    })
}
