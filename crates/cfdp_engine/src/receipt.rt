//! Receipts of what was journaled.

use crate::event::SharedEvent;
use cfdp_transactions::Reply;

/// What is reported to a seat about an event that it handed in: the index of its entry in the journal, the event, and
/// the reply.
#[derive(Drop)]
pub struct Receipt {
    /// The number of its entry in the journal, from 0.
    pub place: u32,
    /// What was handed in.
    pub event: SharedEvent,
    /// What was replied.
    pub reply: Reply,
}
