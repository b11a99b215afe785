//! What becomes of an input, and what a receiving entity notifies its user of.

use cfdp_status::TransactionId;
use cfdp_transactions::Reply;

/// What a Metadata PDU says of its transaction (CCSDS 727.0-B-5 §5.2.5), but for its names, requests and messages.
#[derive(Clone, Copy, Debug, PartialEq, Eq)]
pub struct Described {
    /// The size of the file in octets; 0 also where it is unbounded.
    pub size: u64,
    /// Closure was requested.
    pub closure: bool,
    /// The checksum type, 0 to 15.
    pub checksum_type: u8,
}

/// How a transaction ended (CCSDS 727.0-B-5 §5.2.3).
#[derive(Clone, Copy, Debug, PartialEq, Eq)]
pub struct Conclusion {
    /// The condition code, 0 to 15.
    pub condition: u8,
    /// The delivery code: the file is incomplete.
    pub incomplete: bool,
    /// The file status: 0 discarded, 1 rejected by the filestore, 2 retained, 3 unreported.
    pub file_status: u8,
}

/// What the user of the receiving entity is notified of (CCSDS 727.0-B-5, the service's indications).
#[derive(Clone, Copy, Debug, PartialEq, Eq)]
pub enum Indication {
    /// Metadata-Recv.
    MetadataRecv(TransactionId, Described),
    /// File-Segment-Recv, with the offset and the length in octets. It may bring nothing that was missing.
    FileSegmentRecv(TransactionId, u64, u64),
    /// EOF-Recv.
    EofRecv(TransactionId),
    /// Transaction-Finished.
    TransactionFinished(TransactionId, Conclusion),
    /// Fault, with the condition code. The transaction goes on, unless it waited for the acknowledgement of its
    /// Finished PDU: then it is over.
    Fault(TransactionId, u8),
    /// Abandoned, with the condition code.
    Abandoned(TransactionId, u8),
}

/// What became of an input, in a word of the receiver's own: no reply of the core says it.
#[derive(Clone, Copy, Debug, PartialEq, Eq)]
pub enum Word {
    /// The PDU is for another entity.
    NotForUs,
    /// There are 64 sessions, and none of this name.
    TableFull,
    /// 16 sources have a place, and this one has none.
    SourcesFull,
    /// The PDU came before.
    Duplicate,
    /// There is nothing to do for it.
    Idle,
    /// The transaction is not known.
    Unknown,
    /// The EOF PDU is held until its Metadata PDU comes.
    Held,
    /// A fault ended the transaction.
    Faulted,
    /// The Finished PDU was acknowledged: the transaction is closed.
    Acknowledged,
    /// The Prompt PDU was answered.
    Answered,
    /// The transaction was cancelled.
    Cancelled,
    /// The transaction is not cancelled: items of its list were performed, so the list goes on to its end.
    ListBegun,
    /// A timer expired, below its limit.
    Expired,
    /// A Keep Alive PDU was due.
    KeptAlive,
    /// A timer expired at its limit, which is ignored.
    Ignored,
    /// The Finished PDU was sent, and waits for its acknowledgement.
    Finished,
    /// The transaction is closed.
    Closed,
}

/// What became of an input, in a word: for a log.
#[derive(Drop)]
pub enum Became {
    /// There was nothing to do: no timer is due, no item is to be performed, no outcome is there. Also of names that
    /// are forgotten, and of a clock that was set.
    Nothing,
    /// The PDU is not for the receiver of a file.
    NotOurs,
    /// The moment is further ahead of the latest one than the management information base allows: the input was not
    /// taken, and nothing changed, but that the PDUs of the answer before can't be written any more.
    TooFarAhead,
    /// A word of the receiver's own.
    Said(TransactionId, Word),
    /// The core's reply.
    Replied(TransactionId, Reply),
}
