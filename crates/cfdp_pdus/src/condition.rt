//! The condition codes (CCSDS 727.0-B-5 §5.2.2): why a transaction ends.

/// No error.
pub const NO_ERROR: u8 = 0;

/// The limit of positive acknowledgement is reached.
pub const POSITIVE_ACK_LIMIT_REACHED: u8 = 1;

/// The limit of Keep Alive is reached.
pub const KEEP_ALIVE_LIMIT_REACHED: u8 = 2;

/// The transmission mode is not valid.
pub const INVALID_TRANSMISSION_MODE: u8 = 3;

/// Filestore rejection.
pub const FILESTORE_REJECTION: u8 = 4;

/// File checksum failure.
pub const FILE_CHECKSUM_FAILURE: u8 = 5;

/// File size error.
pub const FILE_SIZE_ERROR: u8 = 6;

/// The limit of NAK PDUs is reached.
pub const NAK_LIMIT_REACHED: u8 = 7;

/// Inactivity is detected.
pub const INACTIVITY_DETECTED: u8 = 8;

/// The file structure is not valid.
pub const INVALID_FILE_STRUCTURE: u8 = 9;

/// The check limit is reached.
pub const CHECK_LIMIT_REACHED: u8 = 10;

/// The checksum type is not supported.
pub const UNSUPPORTED_CHECKSUM_TYPE: u8 = 11;

/// A suspend request came.
pub const SUSPEND_REQUEST_RECEIVED: u8 = 14;

/// A cancel request came.
pub const CANCEL_REQUEST_RECEIVED: u8 = 15;
