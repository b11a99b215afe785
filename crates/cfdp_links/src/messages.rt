//! Messages to workers, copied and compared.
ghost use Rattle.std.specs.Prelude.{◌≡◌, ◌↔◌, map, IfOk, IsTrue};
ghost use Rattle.cfdp_links.specs.Links.{Came, Happened, said_of};

use cfdp_engine::Message;
use cfdp_transactions::Event;
use std::alloc::{AllocError, Global};
use std::sync::Arc;

/// One more message that says the same.
pub(crate) fn copy_of(alloc: Global, message: &Message) -> Result<Message, AllocError>
    ensures { IfOk result (λ copy. said_of copy ≡ said_of message.now) }
{
    match message {
        Message::Pdu(octets) => Ok(Message::Pdu(Vec::from_slice(alloc, octets)?)),
        Message::Event(event) => Ok(Message::Event(Arc::try_clone(event)?)),
        Message::Run => Ok(Message::Run),
    }
}

/// Whether a message is a PDU of these octets.
fn is_pdu(message: &Message, octets: &[u8]) -> bool
    ensures { IsTrue result ↔ (said_of message.now ≡ Came octets.now) }
{
    match message {
        Message::Pdu(others) => others.as_slice() == octets,
        _ => false,
    }
}

/// Whether a message is this event.
fn is_event(message: &Message, event: &Event) -> bool
    ensures { IsTrue result ↔ (said_of message.now ≡ Happened event.now) }
{
    match message {
        Message::Event(other) => event.same(other),
        _ => false,
    }
}

/// Whether two messages say the same.
fn is_same(taken: &Message, due: &Message) -> bool
    ensures { IsTrue result ↔ (said_of taken.now ≡ said_of due.now) }
{
    match taken {
        Message::Pdu(octets) => is_pdu(due, octets),
        Message::Event(event) => is_event(due, event),
        Message::Run => matches!(due, Message::Run),
    }
}

/// Whether messages say the same, one after the other.
pub fn are_same(taken: &[Message], due: &[Message]) -> bool
    ensures { IsTrue result ↔ (map said_of taken.now ≡ map said_of due.now) }
{
    if taken.len() != due.len() {
        return false;
    }
    for (index, message) in taken.iter().enumerate() {
        if !is_same(message, &due[index]) {
            return false;
        }
    }
    true
}
