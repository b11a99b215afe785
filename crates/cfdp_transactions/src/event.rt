//! What happens to the receiving entity.

ghost use Rattle.std.specs.Prelude.{◌≡◌, codes, Some, None, IfOk, IfSome, OnErr, Err};
ghost use Rattle.cfdp_tlv.specs.Reading.{Gives};
ghost use Rattle.cfdp_pdus.specs.First.{pdu_at};
ghost use Rattle.cfdp_pdus.specs.Receiving.{IsCopied};
ghost use Rattle.cfdp_pdus.specs.declared.fault.PduFault.TheVariants.{Memory};
ghost use Rattle.cfdp_transactions.specs.Entry.{id_of};
ghost use Rattle.cfdp_transactions.specs.Events.{about, event_at, event_of};
ghost use Rattle.cfdp_transactions.specs.Writable.{IsReadable};

use cfdp_pdus::{Eof, FileData, Header, Metadata, Pdu, PduFault, read_for_receiver};
use cfdp_status::TransactionId;
use std::alloc::Global;
use std::error::Error;
use std::fmt;

/// What happens to the receiving entity: a PDU that came, or something of its own.
#[derive(Debug, Drop)]
pub enum Event {
    /// A Metadata PDU (CCSDS 727.0-B-5 §5.2.5), which begins a transaction.
    Metadata(Header, Metadata),
    /// A File Data PDU (§5.3).
    Data(Header, FileData),
    /// An EOF PDU (§5.2.2).
    Eof(Header, Eof),
    /// The next item of the transaction is to be performed (filestore procedures).
    Step(TransactionId),
    /// The transaction is to be cancelled (cancel procedures).
    Cancel(TransactionId),
    /// The transaction's check timer expired (timer procedures).
    Check(TransactionId),
    /// The transaction's outcome is to be handed out.
    Take(TransactionId),
}

/// The transaction that a PDU belongs to: its source entity ID and transaction sequence number (CCSDS 727.0-B-5 §5.1).
pub fn transaction_of(header: &Header) -> TransactionId
    ensures { result ≡ id_of header.now }
{
    TransactionId {
        source: header.source,
        number: header.number,
    }
}

impl Event {
    /// The transaction that the event is about.
    pub fn transaction(&self) -> TransactionId
        ensures { result ≡ about self.now }
    {
        match self {
            Event::Metadata(header, _) | Event::Data(header, _) | Event::Eof(header, _) => {
                transaction_of(header)
            }
            Event::Step(id) | Event::Cancel(id) | Event::Check(id) | Event::Take(id) => *id,
        }
    }
}

/// A PDU that is no event of the receiving entity: it goes toward the sender, or is neither a Metadata nor a File Data
/// nor an EOF PDU.
#[derive(Clone, Copy, Debug, PartialEq, Eq)]
pub struct NotOurs;

impl fmt::Display for NotOurs {
    ghost output = { λ _. Some (codes "the PDU is not for the receiving entity") };

    fn fmt<W: fmt::Write>(&self, f: &mut fmt::Formatter<W>) -> fmt::Result {
        f.write_str("the PDU is not for the receiving entity")
    }
}

impl Error for NotOurs {}

/// The event that a PDU is. Takes no memory.
///
/// # Errors
///
/// [`NotOurs`] exactly for a Finished PDU, for one that is handed over unread, and for one whose direction is toward
/// the sender.
pub fn event_of(pdu: Pdu) -> Result<Event, NotOurs>
    ensures ok { IfOk result (λ event. event_of pdu ≡ Some event) }
    ensures err { OnErr result (event_of pdu ≡ None) }
{
    let (header, event) = match pdu {
        Pdu::Metadata(header, metadata) => (header, Event::Metadata(header, metadata)),
        Pdu::FileData(header, piece) => (header, Event::Data(header, piece)),
        Pdu::Eof(header, eof) => (header, Event::Eof(header, eof)),
        Pdu::Finished(..) | Pdu::NotOurs(..) => return Err(NotOurs),
    };
    if header.toward_sender {
        Err(NotOurs)
    } else {
        Ok(event)
    }
}

/// The event of the PDU that the octets spell; `None` exactly where [`event_of`] makes none of it.
///
/// # Errors
///
/// The first fault, where they spell no PDU; out of memory, of a Metadata PDU or a File Data PDU alone.
///
/// Cost: that of [`read_for_receiver`].
pub fn read_event(alloc: Global, octets: &[u8]) -> Result<Option<Event>, PduFault>
    ensures exact { Gives Memory (λ event. event) result (event_at octets.now) }
    ensures memory { result ≡ Err Memory → IsCopied (pdu_at octets.now) }
    ensures readable { IfOk result (λ event. IfSome event IsReadable) }
{
    let Some(pdu) = read_for_receiver(alloc, octets)? else {
        return Ok(None);
    };
    Ok(event_of(pdu).ok())
}
