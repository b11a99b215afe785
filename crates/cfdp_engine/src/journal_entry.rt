//! Entries of the journal.

use crate::event::SharedEvent;
use cfdp_transactions::Reply;

/// An event that was taken: the number of the seat that handed it in, the event, and the reply.
#[derive(Drop)]
pub struct JournalEntry {
    /// The number of the seat, any octet.
    pub seat: u8,
    /// What was handed in.
    pub event: SharedEvent,
    /// What was replied: neither [`Reply::Memory`] nor [`Reply::JournalFull`].
    pub reply: Reply,
}
