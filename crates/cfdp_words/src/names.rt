//! What is shown by name.

ghost use Rattle.std.specs.Prelude.{◌≡◌};
ghost use Rattle.cfdp_words.specs.Names.{kind_words, name_words};

/// The kinds of PDU.
#[derive(Clone, Copy, Debug, PartialEq, Eq)]
pub(crate) enum PduKind {
    Metadata,
    FileData,
    Eof,
    Finished,
    Ack,
    Nak,
    Prompt,
    KeepAlive,
    Damaged,
}

/// The fields, by their names in CCSDS 727.0-B-5 §5.
#[derive(Clone, Copy, Debug, PartialEq, Eq)]
pub(crate) enum Name {
    Direction,
    TransmissionMode,
    CrcFlag,
    LargeFileFlag,
    LengthOfEntityIds,
    LengthOfTransactionSequenceNumber,
    SourceEntityId,
    TransactionSequenceNumber,
    DestinationEntityId,
    ClosureRequested,
    ChecksumType,
    FileSize,
    SourceFileName,
    DestinationFileName,
    FilestoreRequests,
    FilestoreRequest,
    MessagesToUser,
    MessageToUser,
    FirstFileName,
    SecondFileName,
    FilestoreResponses,
    FilestoreResponse,
    StatusCode,
    FilestoreMessage,
    Offset,
    OctetsOfFileData,
    ConditionCode,
    FileChecksum,
    DeliveryCode,
    FileStatus,
    FaultLocation,
    DirectiveCodeOfTheAcknowledgedPdu,
    TransactionStatus,
    ResponseRequired,
    StartOfScope,
    EndOfScope,
    SegmentRequests,
    SegmentRequest,
    Progress,
    Means,
    Fault,
}

impl PduKind {
    /// The kind in words. `Damaged`: the octets are no PDU.
    #[tactic(auto, unfolding(crate::specs::Names::kind_words))]
    pub(crate) fn words(self) -> &'static [u8]
        ensures { result.now ≡ kind_words self }
    {
        match self {
            PduKind::Metadata => b"Metadata",
            PduKind::FileData => b"File Data",
            PduKind::Eof => b"EOF",
            PduKind::Finished => b"Finished",
            PduKind::Ack => b"ACK",
            PduKind::Nak => b"NAK",
            PduKind::Prompt => b"Prompt",
            PduKind::KeepAlive => b"Keep Alive",
            PduKind::Damaged => b"Damaged",
        }
    }
}

impl Name {
    /// The name in words.
    #[tactic(auto, unfolding(crate::specs::Names::name_words))]
    pub(crate) fn words(self) -> &'static [u8]
        ensures { result.now ≡ name_words self }
    {
        match self {
            Name::Direction => b"Direction",
            Name::TransmissionMode => b"Transmission mode",
            Name::CrcFlag => b"CRC flag",
            Name::LargeFileFlag => b"Large file flag",
            Name::LengthOfEntityIds => b"Length of entity IDs",
            Name::LengthOfTransactionSequenceNumber => b"Length of transaction sequence number",
            Name::SourceEntityId => b"Source entity ID",
            Name::TransactionSequenceNumber => b"Transaction sequence number",
            Name::DestinationEntityId => b"Destination entity ID",
            Name::ClosureRequested => b"Closure requested",
            Name::ChecksumType => b"Checksum type",
            Name::FileSize => b"File size",
            Name::SourceFileName => b"Source file name",
            Name::DestinationFileName => b"Destination file name",
            Name::FilestoreRequests => b"Filestore requests",
            Name::FilestoreRequest => b"Filestore request",
            Name::MessagesToUser => b"Messages to user",
            Name::MessageToUser => b"Message to user",
            Name::FirstFileName => b"First file name",
            Name::SecondFileName => b"Second file name",
            Name::FilestoreResponses => b"Filestore responses",
            Name::FilestoreResponse => b"Filestore response",
            Name::StatusCode => b"Status code",
            Name::FilestoreMessage => b"Filestore message",
            Name::Offset => b"Offset",
            Name::OctetsOfFileData => b"Octets of file data",
            Name::ConditionCode => b"Condition code",
            Name::FileChecksum => b"File checksum",
            Name::DeliveryCode => b"Delivery code",
            Name::FileStatus => b"File status",
            Name::FaultLocation => b"Fault location",
            Name::DirectiveCodeOfTheAcknowledgedPdu => b"Directive code of the acknowledged PDU",
            Name::TransactionStatus => b"Transaction status",
            Name::ResponseRequired => b"Response required",
            Name::StartOfScope => b"Start of scope",
            Name::EndOfScope => b"End of scope",
            Name::SegmentRequests => b"Segment requests",
            Name::SegmentRequest => b"Segment request",
            Name::Progress => b"Progress",
            Name::Means => b"Means",
            Name::Fault => b"Fault",
        }
    }
}
