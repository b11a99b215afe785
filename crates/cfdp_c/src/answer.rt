//! What a call from C returns.
ghost use Rattle.std.specs.Prelude.{◌≡◌};
ghost use Rattle.cfdp_c.specs.Answers.{answer_code, config_answer, fault_answer, put_answer, unheard_answer};

use crate::numbers;
use cfdp_entity::NotHeard;
use cfdp_pdus::PduFault;
use cfdp_transactions::{ConfigFault, NotPut};

/// What a call returns. Unless its documentation says otherwise, any answer but `Done` leaves all state unchanged.
#[derive(Clone, Copy, Debug, PartialEq, Eq)]
pub(crate) enum CallAnswer {
    /// The call was done.
    Done,
    /// There is no engine, or no receiver: it was not yet made, or was freed.
    NoEngine,
    /// There is an engine, or a receiver, already.
    HasEngine,
    /// There was no memory.
    Memory,
    /// What was asked for does not fit in the buffer.
    TooShort,
    /// There is no such thing.
    Nothing,
    /// The filestore has not 16 to 65,536 blocks.
    BadBlocks,
    /// The cap is above 7,864,320 octets.
    BadCap,
    /// The check limit is not 1 to 1,000.
    BadChecks,
    /// The octets of a path spell none.
    BadPath,
    /// A transaction is known, so that nothing can be put into the filestore.
    HasTransactions,
    /// Something exists at the path.
    Exists,
    /// The path's parent does not exist, or is a file.
    NoParent,
    /// The filestore has too few free blocks.
    FilestoreFull,
    /// More than eight prefixes are to be protected.
    TooManyPrefixes,
    /// No fault handler has this number.
    BadHandler,
    /// No mode of asking for lost segments has this number.
    BadNakMode,
    /// An interval is 0.
    BadInterval,
    /// A limit is not 1 to 1,000.
    BadLimit,
    /// The longest NAK PDU has not 72 to 65,535 octets.
    BadLongestNak,
    /// The PDU is not for the receiver of a file.
    NotOurs,
    /// The octets end before the PDU does.
    Truncated,
    /// The version is not 001.
    BadVersion,
    /// The PDU says that it has a CRC.
    CrcNotSupported,
    /// Octets are after the data field, or it is shorter than its fixed part.
    LengthMismatch,
    /// No directive has this code.
    BadDirective,
    /// A TLV field is cut, or its value is not what its type asks for.
    BadTlv,
    /// A filestore request has a value of 255 octets, which no response can repeat.
    RequestTooLong,
    /// The CRC of the PDU is wrong.
    BadCrc,
}

impl CallAnswer {
    /// Its number in C.
    pub(crate) fn code(self) -> u32
        ensures { result ≡ answer_code self }
    {
        match self {
            CallAnswer::Done => numbers::ANSWER_DONE,
            CallAnswer::NoEngine => numbers::ANSWER_NO_ENGINE,
            CallAnswer::HasEngine => numbers::ANSWER_HAS_ENGINE,
            CallAnswer::Memory => numbers::ANSWER_NO_MEMORY,
            CallAnswer::TooShort => numbers::ANSWER_TOO_SHORT,
            CallAnswer::Nothing => numbers::ANSWER_NOTHING,
            CallAnswer::BadBlocks => numbers::ANSWER_BAD_BLOCKS,
            CallAnswer::BadCap => numbers::ANSWER_BAD_CAP,
            CallAnswer::BadChecks => numbers::ANSWER_BAD_CHECKS,
            CallAnswer::BadPath => numbers::ANSWER_BAD_PATH,
            CallAnswer::HasTransactions => numbers::ANSWER_HAS_TRANSACTIONS,
            CallAnswer::Exists => numbers::ANSWER_EXISTS,
            CallAnswer::NoParent => numbers::ANSWER_NO_PARENT,
            CallAnswer::FilestoreFull => numbers::ANSWER_FILESTORE_FULL,
            CallAnswer::TooManyPrefixes => numbers::ANSWER_TOO_MANY_PREFIXES,
            CallAnswer::BadHandler => numbers::ANSWER_BAD_HANDLER,
            CallAnswer::BadNakMode => numbers::ANSWER_BAD_NAK_MODE,
            CallAnswer::BadInterval => numbers::ANSWER_BAD_INTERVAL,
            CallAnswer::BadLimit => numbers::ANSWER_BAD_LIMIT,
            CallAnswer::BadLongestNak => numbers::ANSWER_BAD_LONGEST_NAK,
            CallAnswer::NotOurs => numbers::ANSWER_NOT_OURS,
            CallAnswer::Truncated => numbers::ANSWER_TRUNCATED,
            CallAnswer::BadVersion => numbers::ANSWER_BAD_VERSION,
            CallAnswer::CrcNotSupported => numbers::ANSWER_CRC_NOT_SUPPORTED,
            CallAnswer::LengthMismatch => numbers::ANSWER_LENGTH_MISMATCH,
            CallAnswer::BadDirective => numbers::ANSWER_BAD_DIRECTIVE,
            CallAnswer::BadTlv => numbers::ANSWER_BAD_TLV,
            CallAnswer::RequestTooLong => numbers::ANSWER_REQUEST_TOO_LONG,
            CallAnswer::BadCrc => numbers::ANSWER_BAD_CRC,
        }
    }

    /// What is returned for a number outside its limits. The calls from C have no journal, so its length is
    /// always within its limits.
    pub(crate) fn of_config(fault: ConfigFault) -> CallAnswer
        ensures { result ≡ config_answer fault }
    {
        match fault {
            ConfigFault::BadBlocks => CallAnswer::BadBlocks,
            ConfigFault::BadCap => CallAnswer::BadCap,
            ConfigFault::BadChecks | ConfigFault::BadJournal => CallAnswer::BadChecks,
        }
    }

    /// What is returned if nothing was put into the filestore.
    pub(crate) fn of_not_put(why: NotPut) -> CallAnswer
        ensures { result ≡ put_answer why }
    {
        match why {
            NotPut::HasTransactions => CallAnswer::HasTransactions,
            NotPut::Exists => CallAnswer::Exists,
            NotPut::NoParent => CallAnswer::NoParent,
            NotPut::NoRoom => CallAnswer::FilestoreFull,
            NotPut::Memory => CallAnswer::Memory,
        }
    }

    /// What is returned for a fault of reading.
    pub(crate) fn of_fault(fault: PduFault) -> CallAnswer
        ensures { result ≡ fault_answer fault }
    {
        match fault {
            PduFault::Truncated => CallAnswer::Truncated,
            PduFault::BadVersion => CallAnswer::BadVersion,
            PduFault::CrcNotSupported => CallAnswer::CrcNotSupported,
            PduFault::LengthMismatch => CallAnswer::LengthMismatch,
            PduFault::BadDirective => CallAnswer::BadDirective,
            PduFault::BadTlv => CallAnswer::BadTlv,
            PduFault::RequestTooLong => CallAnswer::RequestTooLong,
            PduFault::Memory => CallAnswer::Memory,
        }
    }

    /// What is returned for octets that got no reply.
    pub(crate) fn of_unheard(why: NotHeard) -> CallAnswer
        ensures { result ≡ unheard_answer why }
    {
        match why {
            NotHeard::Fault(fault) => CallAnswer::of_fault(fault),
            NotHeard::NotOurs => CallAnswer::NotOurs,
        }
    }
}
