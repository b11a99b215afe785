//! What a worker is sent.

use cfdp_transactions::Event;
use std::alloc::Global;
use std::sync::Arc;

/// What a worker is sent.
#[derive(Drop)]
pub enum Message {
    /// The octets of a PDU (CCSDS 727.0-B-5 §5), which it reads.
    Pdu(Vec<u8>),
    /// An event, which it hands in.
    Event(Arc<Event, Global>),
    /// It steps what can be stepped, until there is nothing, at most 4,224 times.
    Run,
}
