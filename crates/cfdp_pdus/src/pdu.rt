//! A PDU of any kind.

use crate::{Eof, FileData, Finished, Header, Metadata};

/// A PDU with its header.
#[derive(Debug, Drop, PartialEq, Eq)]
pub enum Pdu {
    /// A Metadata PDU.
    Metadata(Header, Metadata),
    /// A File Data PDU.
    FileData(Header, FileData),
    /// An EOF PDU.
    Eof(Header, Eof),
    /// A Finished PDU.
    Finished(Header, Finished),
    /// An ACK (6), NAK (8), Prompt (9) or Keep Alive (12) PDU, with its directive code. Its data
    /// field was not looked at.
    NotOurs(Header, u8),
}
