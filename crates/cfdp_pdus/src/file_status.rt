//! The file statuses of a Finished PDU (CCSDS 727.0-B-5 §5.2.3): what became of the file.

/// It was discarded deliberately.
pub const DISCARDED: u8 = 0;

/// It was discarded, since the filestore rejected it.
pub const REJECTED: u8 = 1;

/// It is retained in the filestore.
pub const RETAINED: u8 = 2;

/// Its status is not reported.
pub const UNREPORTED: u8 = 3;
