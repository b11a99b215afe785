//! The numbers of `include/cfdp.h` and `include/cfdp_receiver.h`, each once: the name is that of the header, without
//! `CFDP_`. `.ci/header` compares them.

// ---- enum cfdp_answer

pub(crate) const ANSWER_DONE: u32 = 0;

pub(crate) const ANSWER_NO_ENGINE: u32 = 1;

pub(crate) const ANSWER_HAS_ENGINE: u32 = 2;

pub(crate) const ANSWER_NO_MEMORY: u32 = 3;

pub(crate) const ANSWER_TOO_SHORT: u32 = 4;

pub(crate) const ANSWER_NOTHING: u32 = 5;

pub(crate) const ANSWER_BAD_PATH: u32 = 6;

pub(crate) const ANSWER_HAS_TRANSACTIONS: u32 = 7;

pub(crate) const ANSWER_EXISTS: u32 = 8;

pub(crate) const ANSWER_NO_PARENT: u32 = 9;

pub(crate) const ANSWER_FILESTORE_FULL: u32 = 10;

pub(crate) const ANSWER_BAD_BLOCKS: u32 = 16;

pub(crate) const ANSWER_BAD_CAP: u32 = 17;

pub(crate) const ANSWER_BAD_CHECKS: u32 = 18;

pub(crate) const ANSWER_TOO_MANY_PREFIXES: u32 = 20;

pub(crate) const ANSWER_BAD_HANDLER: u32 = 21;

pub(crate) const ANSWER_BAD_NAK_MODE: u32 = 22;

pub(crate) const ANSWER_BAD_INTERVAL: u32 = 23;

pub(crate) const ANSWER_BAD_LIMIT: u32 = 24;

pub(crate) const ANSWER_BAD_LONGEST_NAK: u32 = 25;

pub(crate) const ANSWER_NOT_OURS: u32 = 32;

pub(crate) const ANSWER_TRUNCATED: u32 = 33;

pub(crate) const ANSWER_BAD_VERSION: u32 = 34;

pub(crate) const ANSWER_CRC_NOT_SUPPORTED: u32 = 35;

pub(crate) const ANSWER_LENGTH_MISMATCH: u32 = 36;

pub(crate) const ANSWER_BAD_DIRECTIVE: u32 = 37;

pub(crate) const ANSWER_BAD_TLV: u32 = 38;

pub(crate) const ANSWER_REQUEST_TOO_LONG: u32 = 39;

pub(crate) const ANSWER_BAD_CRC: u32 = 40;

// ---- enum cfdp_reply_kind

pub(crate) const REPLY_NONE: u32 = 0;

pub(crate) const REPLY_ADMITTED: u32 = 1;

pub(crate) const REPLY_REFUSED: u32 = 2;

pub(crate) const REPLY_STORED: u32 = 3;

pub(crate) const REPLY_DROPPED: u32 = 4;

pub(crate) const REPLY_COMPLETE: u32 = 5;

pub(crate) const REPLY_WAITING: u32 = 6;

pub(crate) const REPLY_FAULTED: u32 = 7;

pub(crate) const REPLY_PERFORMED: u32 = 8;

pub(crate) const REPLY_INSTALLED: u32 = 9;

pub(crate) const REPLY_FINISHED: u32 = 10;

pub(crate) const REPLY_CANCELLED: u32 = 11;

pub(crate) const REPLY_TAKEN: u32 = 12;

pub(crate) const REPLY_DUPLICATE: u32 = 13;

pub(crate) const REPLY_UNKNOWN: u32 = 14;

pub(crate) const REPLY_IDLE: u32 = 15;

pub(crate) const REPLY_NOT_FOR_US: u32 = 16;

pub(crate) const REPLY_TABLE_FULL: u32 = 17;

// ---- enum cfdp_refusal

pub(crate) const REFUSAL_NONE: u32 = 0;

pub(crate) const REFUSAL_TOO_MANY_REQUESTS: u32 = 1;

pub(crate) const REFUSAL_BAD_DESTINATION: u32 = 2;

pub(crate) const REFUSAL_BAD_REQUEST_PATH: u32 = 3;

pub(crate) const REFUSAL_CONFLICT: u32 = 4;

pub(crate) const REFUSAL_DESTINATION_NOT_ALLOWED: u32 = 5;

pub(crate) const REFUSAL_WOULD_FAIL: u32 = 6;

pub(crate) const REFUSAL_TOO_LONG: u32 = 7;

pub(crate) const REFUSAL_NO_ROOM: u32 = 8;

// ---- enum cfdp_entry_kind

pub(crate) const ENTRY_FILE: u32 = 1;

pub(crate) const ENTRY_DIRECTORY: u32 = 2;

// ---- enum cfdp_phase_kind

pub(crate) const PHASE_RECEIVING: u32 = 1;

pub(crate) const PHASE_AWAITING: u32 = 2;

pub(crate) const PHASE_EXECUTING: u32 = 3;

pub(crate) const PHASE_REFUSED: u32 = 4;

pub(crate) const PHASE_DONE: u32 = 5;

pub(crate) const PHASE_ENDED: u32 = 6;

// ---- enum cfdp_handler

pub(crate) const HANDLER_CANCEL: u32 = 1;

pub(crate) const HANDLER_IGNORE: u32 = 2;

pub(crate) const HANDLER_ABANDON: u32 = 3;

// ---- enum cfdp_nak_mode

pub(crate) const NAK_DEFERRED: u32 = 1;

pub(crate) const NAK_IMMEDIATE: u32 = 2;

// ---- enum cfdp_became

pub(crate) const BECAME_NOTHING: u32 = 0;

pub(crate) const BECAME_NOT_OURS: u32 = 1;

pub(crate) const BECAME_REPLIED: u32 = 2;

pub(crate) const BECAME_NOT_FOR_US: u32 = 3;

pub(crate) const BECAME_TABLE_FULL: u32 = 4;

pub(crate) const BECAME_DUPLICATE: u32 = 5;

pub(crate) const BECAME_IDLE: u32 = 6;

pub(crate) const BECAME_UNKNOWN: u32 = 7;

pub(crate) const BECAME_HELD: u32 = 8;

pub(crate) const BECAME_FAULTED: u32 = 9;

pub(crate) const BECAME_ACKNOWLEDGED: u32 = 10;

pub(crate) const BECAME_ANSWERED: u32 = 11;

pub(crate) const BECAME_CANCELLED: u32 = 12;

pub(crate) const BECAME_EXPIRED: u32 = 13;

pub(crate) const BECAME_KEPT_ALIVE: u32 = 14;

pub(crate) const BECAME_IGNORED: u32 = 15;

pub(crate) const BECAME_FINISHED: u32 = 16;

pub(crate) const BECAME_CLOSED: u32 = 17;

pub(crate) const BECAME_LIST_BEGUN: u32 = 18;

pub(crate) const BECAME_SOURCES_FULL: u32 = 19;

pub(crate) const BECAME_TOO_FAR_AHEAD: u32 = 20;

// ---- enum cfdp_indication_kind

pub(crate) const INDICATION_NONE: u32 = 0;

pub(crate) const INDICATION_METADATA_RECV: u32 = 1;

pub(crate) const INDICATION_FILE_SEGMENT_RECV: u32 = 2;

pub(crate) const INDICATION_EOF_RECV: u32 = 3;

pub(crate) const INDICATION_TRANSACTION_FINISHED: u32 = 4;

pub(crate) const INDICATION_FAULT: u32 = 5;

pub(crate) const INDICATION_ABANDONED: u32 = 6;
