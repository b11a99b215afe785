//! The directive codes (CCSDS 727.0-B-5 §5.2): the first octet of a directive's data field.

/// EOF.
pub const EOF: u8 = 4;

/// Finished.
pub const FINISHED: u8 = 5;

/// ACK.
pub const ACK: u8 = 6;

/// Metadata.
pub const METADATA: u8 = 7;

/// NAK.
pub const NAK: u8 = 8;

/// Prompt.
pub const PROMPT: u8 = 9;

/// Keep Alive.
pub const KEEP_ALIVE: u8 = 12;
