//! What PDUs are handed to.

use crate::fault::CostFault;
use crate::pdus::{metadata_pdu, unacknowledged};
use cfdp_actions::Protected;
use cfdp_entity::Entity;
use cfdp_receiver::{
    Became, Handler, Indication, Mib, NakMode, NotMade, Receiver, Retries, Watch, Word,
};
use cfdp_status::TransactionId;
use cfdp_transactions::{Config, Reply, transaction_of};
use std::alloc::Global;

/// What became of a File Data PDU.
#[derive(Clone, Copy)]
pub enum Heard {
    /// The entity stored its octets.
    Stored(TransactionId),
    /// The receiver stored its octets, and notifies its user of them: at which offset, and how many.
    Notified(TransactionId, u64, u64),
    /// They were not stored.
    Otherwise,
}

/// What PDUs are handed to.
pub trait Hears {
    /// A Metadata PDU comes: whether its transaction is admitted.
    fn begin(&mut self, alloc: Global, octets: &mut [u8]) -> bool;

    /// A File Data PDU comes.
    fn data(&mut self, alloc: Global, octets: &mut [u8]) -> Heard;

    /// The deadline: an entity has none.
    fn deadline(&self) -> Option<u64>;
}

impl Hears for Entity {
    fn begin(&mut self, alloc: Global, octets: &mut [u8]) -> bool {
        matches!(self.receive(alloc, octets), Ok((_, Reply::Admitted(..))))
    }

    fn data(&mut self, alloc: Global, octets: &mut [u8]) -> Heard {
        match self.receive(alloc, octets) {
            Ok((id, Reply::Stored)) => Heard::Stored(id),
            _ => Heard::Otherwise,
        }
    }

    fn deadline(&self) -> Option<u64> {
        None
    }
}

impl Hears for Receiver {
    fn begin(&mut self, alloc: Global, octets: &mut [u8]) -> bool {
        match self.receive(alloc, 0, octets) {
            Ok(answer) => matches!(answer.became(), Became::Replied(_, Reply::Admitted(..))),
            Err(_) => false,
        }
    }

    fn data(&mut self, alloc: Global, octets: &mut [u8]) -> Heard {
        let Ok(answer) = self.receive(alloc, 0, octets) else {
            return Heard::Otherwise;
        };
        match (answer.became(), answer.indication()) {
            (
                Became::Replied(_, Reply::Stored),
                Some(Indication::FileSegmentRecv(id, offset, len)),
            ) => Heard::Notified(id, offset, len),
            _ => Heard::Otherwise,
        }
    }

    fn deadline(&self) -> Option<u64> {
        Receiver::deadline(self)
    }
}

/// 256 transactions begin, are cancelled and closed, so that their names are remembered.
pub fn close_names(alloc: Global, receiver: &mut Receiver) -> Result<(), CostFault> {
    for number in 1_000..1_256 {
        let header = unacknowledged(number);
        let mut octets = metadata_pdu(alloc, &header, 100)?;
        if !receiver.begin(alloc, &mut octets) {
            return Err(CostFault::NotAdmitted);
        }
        let _ = receiver.cancel(0, transaction_of(&header));
        match receiver.finish(alloc, 0)?.became() {
            Became::Said(_, Word::Closed) => (),
            _ => return Err(CostFault::NotClosed),
        }
    }
    Ok(())
}

/// An entity with an empty filestore of 65,536 blocks.
pub fn entity(alloc: Global) -> Result<Entity, CostFault> {
    match Config::new(2, 65_536, 7_864_320, 4, 16, Protected::new()) {
        Ok(config) => Ok(Entity::new(alloc, config)?),
        Err(_) => Err(CostFault::NotMade),
    }
}

/// A receiver over this entity.
pub fn receiver(alloc: Global, entity: Entity, nak_mode: NakMode) -> Result<Receiver, CostFault> {
    let retries = Retries {
        interval: 10,
        limit: 5,
        at_limit: Handler::Cancel,
    };
    let watch = Watch {
        interval: 100,
        at_limit: Handler::Cancel,
    };
    let mib = Mib {
        ack: retries,
        nak: retries,
        check: watch,
        inactivity: watch,
        keep_alive: Some(50),
        nak_mode,
        has_crc: false,
        longest_nak: 480,
        most_ahead: None,
    };
    match Receiver::new(alloc, mib, entity) {
        Ok(receiver) => Ok(receiver),
        Err(unmade) if unmade.why == NotMade::Memory => Err(CostFault::Memory),
        Err(_) => Err(CostFault::NotMade),
    }
}
