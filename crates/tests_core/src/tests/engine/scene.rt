//! A journaled core, and what it is handed.

use super::super::entity::{event_in, id};
use cfdp_engine::Message;
use cfdp_paths::Memory;
use cfdp_transactions::Event;
use crossbeam_channel::{Receiver, bounded};
use std::alloc::{AllocError, Global};
use std::sync::{Arc, Wait};

/// What is handed in: a PDU of a transaction of entity 1, or something of the entity's own.
#[derive(Clone, Copy)]
pub enum Given {
    /// The Metadata PDU of 1/5: no file, and one request, to create `a`.
    Create,
    /// The Metadata PDU of a transaction with neither a file nor a request, closure requested.
    Bare(u8),
    /// The EOF PDU of a transaction without a file.
    End(u8),
    /// The first three octets of a PDU.
    Cut,
    /// An ACK PDU, which no receiving entity takes.
    Ack,
    /// Steps, until there is nothing to step.
    Run,
    Take(u8),
}

/// The octets of a PDU.
fn octets(alloc: Global, given: Given) -> Result<Vec<u8>, Memory> {
    match given {
        Given::Create => Vec::from_slice(
            alloc,
            b"\x24\x00\x0d\x00\x01\x05\x02\x07\x40\0\0\0\0\0\0\0\x03\0\x01a",
        ),
        Given::Bare(number) => Vec::from_slice(
            alloc,
            &[0x24, 0, 8, 0, 1, number, 2, 7, 0x40, 0, 0, 0, 0, 0, 0],
        ),
        Given::End(number) => Vec::from_slice(
            alloc,
            &[0x24, 0, 10, 0, 1, number, 2, 4, 0, 0, 0, 0, 0, 0, 0, 0, 0],
        ),
        Given::Cut => Vec::from_slice(alloc, b"\x24\x00\x0d"),
        Given::Ack => Vec::from_slice(alloc, b"\x24\x00\x03\x00\x01\x05\x02\x06\x50\x00"),
        Given::Run | Given::Take(_) => Ok(Vec::new(alloc)),
    }
}

/// What is handed in as an event, to be shared.
pub fn event(alloc: Global, given: Given) -> Result<Arc<Event, Global>, Memory> {
    let event = match given {
        Given::Take(number) => Event::Take(id(number)),
        _ => event_in(alloc, &octets(alloc, given)?)?,
    };
    Ok(Arc::new(alloc, event)?)
}

/// What is handed in as a message to a worker: PDUs by their octets.
fn message(alloc: Global, given: Given) -> Result<Message, Memory> {
    match given {
        Given::Run => Ok(Message::Run),
        Given::Take(_) => Ok(Message::Event(event(alloc, given)?)),
        _ => Ok(Message::Pdu(octets(alloc, given)?)),
    }
}

/// A closed inbox of at most 80 messages.
pub fn inbox<R: Wait>(
    rt: &R,
    alloc: Global,
    given: &[Given],
) -> Result<Receiver<Message, Global>, Memory> {
    let Ok((to, inbox)) = bounded(alloc, 80) else {
        return Err(AllocError);
    };
    for given in given {
        if to.send(rt, message(alloc, *given)?).is_err() {
            return Err(AllocError);
        }
    }
    Ok(inbox)
}
