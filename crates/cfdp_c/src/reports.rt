//! What a receiver answered to its last input, as C sees it.
ghost use Rattle.std.specs.Prelude.{◌≡◌};
ghost use Rattle.cfdp_c.specs.Reads.{name_fields};
ghost use Rattle.cfdp_c.specs.Reports.{became_number, blank, indicated, reply_by, report_of, indication_fields_of, transaction_by, word_number};

use crate::fields::NameFields;
use crate::numbers;
use crate::reply::ReplyFields;
use cfdp_receiver::{Answer, Became, Indication, Word};
use cfdp_reception::Reception;
use cfdp_status::TransactionId;

/// A C `struct cfdp_indication`: what the user of the receiving entity is notified of. A number that its kind has no
/// use for is 0.
#[derive(Clone, Copy, Debug, PartialEq, Eq)]
#[repr(C)]
pub struct IndicationFields {
    /// Which indication it is; 0 where there is none.
    pub kind: u32,
    /// The condition code (CCSDS 727.0-B-5 §5.2.2).
    pub condition: u32,
    /// Of a finished transaction: 1 where the file is incomplete.
    pub incomplete: u32,
    /// Of a finished transaction: the file status (§5.2.3).
    pub file_status: u32,
    /// Of a Metadata PDU: 1 where closure is requested.
    pub closure: u32,
    /// Of a Metadata PDU: the checksum type.
    pub checksum_type: u32,
    /// The transaction.
    pub transaction: NameFields,
    /// Of a file segment: where it begins.
    pub offset: u64,
    /// Of a file segment: its octets. Of a Metadata PDU: the size of the file, and 0 where it is unbounded.
    pub length: u64,
}

/// A C `struct cfdp_report`: what became of an input.
#[derive(Clone, Copy, Debug, PartialEq, Eq)]
#[repr(C)]
pub struct ReportFields {
    /// How many PDUs are to be sent, at most 36.
    pub pdus: u32,
    /// What became of the input.
    pub became: u32,
    /// The transaction that the input was about; zeros where there is none.
    pub transaction: NameFields,
    /// The reply of the core, where there is one; else its kind is 0.
    pub reply: ReplyFields,
    /// What the user is notified of.
    pub indication: IndicationFields,
}

/// The name of a transaction as a struct.
fn name_fields(id: TransactionId) -> NameFields
    ensures { result ≡ name_fields id }
{
    NameFields {
        source: id.source,
        number: id.number,
    }
}

/// No transaction.
const NO_ONE: TransactionId = TransactionId {
    source: 0,
    number: 0,
};

/// The number of a word.
fn word_number(word: Word) -> u32
    ensures { result ≡ word_number word }
{
    match word {
        Word::NotForUs => numbers::BECAME_NOT_FOR_US,
        Word::TableFull => numbers::BECAME_TABLE_FULL,
        Word::Duplicate => numbers::BECAME_DUPLICATE,
        Word::Idle => numbers::BECAME_IDLE,
        Word::Unknown => numbers::BECAME_UNKNOWN,
        Word::Held => numbers::BECAME_HELD,
        Word::Faulted => numbers::BECAME_FAULTED,
        Word::Acknowledged => numbers::BECAME_ACKNOWLEDGED,
        Word::Answered => numbers::BECAME_ANSWERED,
        Word::Cancelled => numbers::BECAME_CANCELLED,
        Word::ListBegun => numbers::BECAME_LIST_BEGUN,
        Word::Expired => numbers::BECAME_EXPIRED,
        Word::KeptAlive => numbers::BECAME_KEPT_ALIVE,
        Word::Ignored => numbers::BECAME_IGNORED,
        Word::Finished => numbers::BECAME_FINISHED,
        Word::Closed => numbers::BECAME_CLOSED,
        Word::SourcesFull => numbers::BECAME_SOURCES_FULL,
    }
}

/// The number of what became of an input.
fn became_number(became: &Became) -> u32
    ensures { result ≡ became_number became.now }
{
    match became {
        Became::Nothing => numbers::BECAME_NOTHING,
        Became::NotOurs => numbers::BECAME_NOT_OURS,
        Became::TooFarAhead => numbers::BECAME_TOO_FAR_AHEAD,
        Became::Replied(_, _) => numbers::BECAME_REPLIED,
        Became::Said(_, word) => word_number(*word),
    }
}

/// The transaction that an input was about.
fn transaction_by(became: &Became) -> TransactionId
    ensures { result ≡ transaction_by became.now }
{
    match became {
        Became::Nothing | Became::NotOurs | Became::TooFarAhead => NO_ONE,
        Became::Said(id, _) | Became::Replied(id, _) => *id,
    }
}

/// The core's reply to an input, where there is one.
fn reply_by(became: &Became) -> ReplyFields
    ensures { result ≡ reply_by became.now }
{
    match became {
        Became::Nothing | Became::NotOurs | Became::TooFarAhead => ReplyFields::none(NO_ONE),
        Became::Said(id, _) => ReplyFields::none(*id),
        Became::Replied(id, reply) => ReplyFields::of(*id, reply),
    }
}

impl IndicationFields {
    /// An indication that brings no numbers.
    fn blank(kind: u32, id: TransactionId) -> IndicationFields
        ensures { result ≡ blank kind id }
    {
        IndicationFields {
            kind,
            condition: 0,
            incomplete: 0,
            file_status: 0,
            closure: 0,
            checksum_type: 0,
            transaction: name_fields(id),
            offset: 0,
            length: 0,
        }
    }

    /// An indication.
    fn of(indication: Indication) -> IndicationFields
        ensures { result ≡ indication_fields_of indication }
    {
        match indication {
            Indication::MetadataRecv(id, described) => IndicationFields {
                closure: u32::from(described.closure),
                checksum_type: u32::from(described.checksum_type),
                length: described.size,
                ..IndicationFields::blank(numbers::INDICATION_METADATA_RECV, id)
            },
            Indication::FileSegmentRecv(id, offset, length) => IndicationFields {
                offset,
                length,
                ..IndicationFields::blank(numbers::INDICATION_FILE_SEGMENT_RECV, id)
            },
            Indication::EofRecv(id) => IndicationFields::blank(numbers::INDICATION_EOF_RECV, id),
            Indication::TransactionFinished(id, end) => IndicationFields {
                condition: u32::from(end.condition),
                incomplete: u32::from(end.incomplete),
                file_status: u32::from(end.file_status),
                ..IndicationFields::blank(numbers::INDICATION_TRANSACTION_FINISHED, id)
            },
            Indication::Fault(id, condition) => IndicationFields {
                condition: u32::from(condition),
                ..IndicationFields::blank(numbers::INDICATION_FAULT, id)
            },
            Indication::Abandoned(id, condition) => IndicationFields {
                condition: u32::from(condition),
                ..IndicationFields::blank(numbers::INDICATION_ABANDONED, id)
            },
        }
    }

    /// The indication of an answer.
    fn of_answer(answer: &Answer) -> IndicationFields
        ensures { result ≡ indicated answer.now.indications }
    {
        match answer.indication() {
            None => IndicationFields::blank(numbers::INDICATION_NONE, NO_ONE),
            Some(indication) => IndicationFields::of(indication),
        }
    }
}

impl ReportFields {
    /// What a receiver answered to its last input.
    pub(crate) fn of(reception: &Reception) -> ReportFields
        ensures { result ≡ report_of reception.now }
    {
        let pdus = reception.pdu_count() as u32;
        match reception.answer() {
            None => ReportFields {
                pdus,
                became: numbers::BECAME_NOTHING,
                transaction: name_fields(NO_ONE),
                reply: ReplyFields::none(NO_ONE),
                indication: IndicationFields::blank(numbers::INDICATION_NONE, NO_ONE),
            },
            Some(answer) => ReportFields {
                pdus,
                became: became_number(answer.became()),
                transaction: name_fields(transaction_by(answer.became())),
                reply: reply_by(answer.became()),
                indication: IndicationFields::of_answer(answer),
            },
        }
    }
}
