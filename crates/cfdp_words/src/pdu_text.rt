//! What octets say.

ghost use Rattle.std.specs.Prelude.{◌≡◌, ◌≤◌, ◌++◌, IfOk, OnOk, length};
ghost use Rattle.cfdp_pdus.specs.First.{pdu_at};
ghost use Rattle.cfdp_pdus.specs.Messages.{messages_at};
ghost use Rattle.cfdp_pdus.specs.Texts.{pdu_fault_text};
ghost use Rattle.cfdp_directives.specs.Reading.{directive_spelled, nak_in, nak_within};
ghost use Rattle.cfdp_words.specs.Codes.{condition_words};
ghost use Rattle.cfdp_words.specs.declared.names.PduKind.TheVariants as kinds;
ghost use Rattle.cfdp_words.specs.declared.names.Name.TheVariants as names;
ghost use Rattle.cfdp_words.specs.Style.{code_field, number_field, plain_field};
ghost use Rattle.cfdp_words.specs.Shown.{ack_fields, closing_text, crc_words, damaged, data_fields, delivery_words, direction_words, directive_text, eof_fields, fault_field, finished_fields, flag_fields, header_fields, id_fields, metadata_fields, mode_words, nak_fault_words, nak_fields, nak_text, opening, other_text, pdu_text, prompt_words, read_text, pdu_shown};

use crate::Style;
use crate::codes::{
    checksum_words, condition_words, directive_words, file_status_words, transaction_words,
};
use crate::fields::{
    push_code_field, push_digits_field, push_field, push_flag_field, push_name_field,
    push_number_field,
};
use crate::lists::{push_messages, push_ranges, push_requests, push_responses};
use crate::names::{Name, PduKind};
use crate::style::push_decimal;
use cfdp_crc::{CrcFault, unseal};
use cfdp_directives::{Ack, Directive, Nak, NakFault, NakRange, Prompt, read_directive, read_nak};
use cfdp_pdus::{
    Eof, FileData, Finished, Header, Messages, Metadata, Pdu, PduFault, directive, read_messages,
    read_pdu,
};
use std::alloc::{AllocError, Global};

/// How many requests a NAK PDU has at most.
const MOST_NAK_REQUESTS: usize = 8_190;

/// How many octets came, and whether they had a CRC.
#[derive(Clone, Copy)]
struct SizeAndCrc {
    len: usize,
    has_crc: bool,
}

/// Appends the kind of a PDU, and how many octets it has.
fn push_opening(
    style: Style,
    kind: PduKind,
    len: usize,
    text: &mut Vec<u8>,
) -> Result<(), AllocError>
    ensures { OnOk result (text.new.items ≡ text.old.items ++ opening style kind len) }
{
    match style {
        Style::Text => {
            text.extend_from_slice(kind.words())?;
            text.extend_from_slice(b" PDU, ")?;
            push_decimal(len as u64, text)?;
            text.extend_from_slice(b" octets\n")
        }
        Style::Json => {
            text.extend_from_slice(b"{\"kind\":\"")?;
            text.extend_from_slice(kind.words())?;
            text.extend_from_slice(b"\",\"octets\":")?;
            push_decimal(len as u64, text)
        }
    }
}

/// Appends what comes after the last field.
fn push_closing(style: Style, text: &mut Vec<u8>) -> Result<(), AllocError>
    ensures { OnOk result (text.new.items ≡ text.old.items ++ closing_text style) }
{
    match style {
        Style::Text => Ok(()),
        Style::Json => text.extend_from_slice(b"}\n"),
    }
}

/// The direction in words.
fn direction_words(toward_sender: bool) -> &'static [u8]
    ensures { result.now ≡ direction_words toward_sender }
{
    if toward_sender {
        b"toward file sender"
    } else {
        b"toward file receiver"
    }
}

/// The transmission mode in words.
fn mode_words(acknowledged: bool) -> &'static [u8]
    ensures { result.now ≡ mode_words acknowledged }
{
    if acknowledged {
        b"acknowledged"
    } else {
        b"unacknowledged"
    }
}

/// Appends the direction, the transmission mode and the flags of a header.
#[tactic(auto, unfolding(crate::specs::Shown::flag_fields))]
fn push_flags(
    style: Style,
    has_crc: bool,
    header: &Header,
    text: &mut Vec<u8>,
) -> Result<(), AllocError>
    ensures { OnOk result (text.new.items ≡ text.old.items ++ flag_fields style has_crc header.now) }
{
    push_field(
        style,
        Name::Direction,
        direction_words(header.toward_sender),
        text,
    )?;
    push_field(
        style,
        Name::TransmissionMode,
        mode_words(header.acknowledged),
        text,
    )?;
    push_flag_field(style, Name::CrcFlag, has_crc, text)?;
    push_flag_field(style, Name::LargeFileFlag, header.large, text)
}

/// Appends the entity IDs and the transaction sequence number of a header, with their lengths in octets.
#[tactic(auto, unfolding(crate::specs::Shown::id_fields))]
fn push_ids(style: Style, header: &Header, text: &mut Vec<u8>) -> Result<(), AllocError>
    ensures { OnOk result (text.new.items ≡ text.old.items ++ id_fields style header.now) }
{
    let number_len = u64::from(header.number_len);
    push_number_field(
        style,
        Name::LengthOfEntityIds,
        u64::from(header.id_len),
        text,
    )?;
    push_number_field(
        style,
        Name::LengthOfTransactionSequenceNumber,
        number_len,
        text,
    )?;
    push_number_field(style, Name::SourceEntityId, header.source, text)?;
    push_number_field(style, Name::TransactionSequenceNumber, header.number, text)?;
    push_number_field(style, Name::DestinationEntityId, header.destination, text)
}

/// Appends the fields of a header (CCSDS 727.0-B-5 §5.1).
#[tactic(auto, unfolding(crate::specs::Shown::header_fields))]
fn push_header(
    style: Style,
    has_crc: bool,
    header: &Header,
    text: &mut Vec<u8>,
) -> Result<(), AllocError>
    ensures { OnOk result (text.new.items ≡ text.old.items ++ header_fields style has_crc header.now) }
{
    push_flags(style, has_crc, header, text)?;
    push_ids(style, header, text)
}

/// Appends the beginning of a PDU: its kind and its header.
fn push_start(
    style: Style,
    came: SizeAndCrc,
    kind: PduKind,
    header: &Header,
    text: &mut Vec<u8>,
) -> Result<(), AllocError>
    ensures { OnOk result (text.new.items ≡ text.old.items ++ opening style kind came.len
        ++ header_fields style came.has_crc header.now) }
{
    push_opening(style, kind, came.len, text)?;
    push_header(style, came.has_crc, header, text)
}

/// Appends the fields of a Metadata PDU (CCSDS 727.0-B-5 §5.2.5).
#[tactic(auto, unfolding(crate::specs::Shown::metadata_fields))]
fn push_metadata(
    style: Style,
    messages: Messages<'_>,
    metadata: &Metadata,
    text: &mut Vec<u8>,
) -> Result<(), AllocError>
    ensures { OnOk result (text.new.items ≡ text.old.items ++ metadata_fields style messages.entry metadata.now) }
{
    let checksum_type = metadata.checksum_type;
    push_flag_field(style, Name::ClosureRequested, metadata.closure, text)?;
    push_code_field(
        style,
        Name::ChecksumType,
        u64::from(checksum_type),
        checksum_words(checksum_type),
        text,
    )?;
    push_number_field(style, Name::FileSize, metadata.size, text)?;
    push_name_field(style, Name::SourceFileName, &metadata.source_name, text)?;
    push_name_field(
        style,
        Name::DestinationFileName,
        &metadata.destination_name,
        text,
    )?;
    push_requests(style, &metadata.requests, text)?;
    push_messages(style, messages, text)
}

/// Appends a condition code (CCSDS 727.0-B-5 §5.2.2).
fn push_condition(style: Style, condition: u8, text: &mut Vec<u8>) -> Result<(), AllocError>
    ensures { OnOk result (text.new.items ≡ text.old.items
        ++ code_field style names.ConditionCode condition (condition_words condition)) }
{
    push_code_field(
        style,
        Name::ConditionCode,
        u64::from(condition),
        condition_words(condition),
        text,
    )
}

/// Appends the fields of a File Data PDU (CCSDS 727.0-B-5 §5.3): of the octets of the file only how many they are.
#[tactic(auto, unfolding(crate::specs::Shown::data_fields))]
fn push_data(style: Style, file_data: &FileData, text: &mut Vec<u8>) -> Result<(), AllocError>
    ensures { OnOk result (text.new.items ≡ text.old.items ++ data_fields style file_data.now) }
{
    let len = file_data.octets.len() as u64;
    push_number_field(style, Name::Offset, file_data.offset, text)?;
    push_number_field(style, Name::OctetsOfFileData, len, text)
}

/// Appends the fields of an EOF PDU (CCSDS 727.0-B-5 §5.2.2).
#[tactic(auto, unfolding(crate::specs::Shown::eof_fields))]
fn push_eof(style: Style, eof: &Eof, text: &mut Vec<u8>) -> Result<(), AllocError>
    ensures { OnOk result (text.new.items ≡ text.old.items ++ eof_fields style eof.now) }
{
    push_condition(style, eof.condition, text)?;
    push_digits_field(style, Name::FileChecksum, &eof.checksum.to_be_bytes(), text)?;
    push_number_field(style, Name::FileSize, eof.size, text)
}

/// The delivery code in words.
fn delivery_words(incomplete: bool) -> &'static [u8]
    ensures { result.now ≡ delivery_words incomplete }
{
    if incomplete {
        b"Data incomplete"
    } else {
        b"Data complete"
    }
}

/// Appends the fault location, if there is one.
fn push_fault(style: Style, fault: Option<u64>, text: &mut Vec<u8>) -> Result<(), AllocError>
    ensures { OnOk result (text.new.items ≡ text.old.items ++ fault_field style fault) }
{
    match fault {
        Some(entity) => push_number_field(style, Name::FaultLocation, entity, text),
        None => Ok(()),
    }
}

/// Appends the fields of a Finished PDU (CCSDS 727.0-B-5 §5.2.3).
#[tactic(auto, unfolding(crate::specs::Shown::finished_fields))]
fn push_finished(style: Style, finished: &Finished, text: &mut Vec<u8>) -> Result<(), AllocError>
    ensures { OnOk result (text.new.items ≡ text.old.items ++ finished_fields style finished.now) }
{
    let file_status = finished.file_status;
    push_condition(style, finished.condition, text)?;
    push_field(
        style,
        Name::DeliveryCode,
        delivery_words(finished.incomplete),
        text,
    )?;
    push_code_field(
        style,
        Name::FileStatus,
        u64::from(file_status),
        file_status_words(file_status),
        text,
    )?;
    push_responses(style, &finished.responses, text)?;
    push_fault(style, finished.fault, text)
}

/// Appends the fields of an ACK PDU (CCSDS 727.0-B-5 §5.2.4).
#[tactic(auto, unfolding(crate::specs::Shown::ack_fields))]
fn push_ack(style: Style, ack: &Ack, text: &mut Vec<u8>) -> Result<(), AllocError>
    ensures { OnOk result (text.new.items ≡ text.old.items ++ ack_fields style ack.now) }
{
    push_code_field(
        style,
        Name::DirectiveCodeOfTheAcknowledgedPdu,
        u64::from(ack.directive),
        directive_words(ack.directive),
        text,
    )?;
    push_condition(style, ack.condition, text)?;
    push_field(
        style,
        Name::TransactionStatus,
        transaction_words(ack.status),
        text,
    )
}

/// What a Prompt PDU asks for, in words (CCSDS 727.0-B-5 §5.2.7).
fn prompt_words(prompt: Prompt) -> &'static [u8]
    ensures { result.now ≡ prompt_words prompt }
{
    match prompt {
        Prompt::Nak => b"NAK",
        Prompt::KeepAlive => b"Keep Alive",
    }
}

/// Appends the fields of a NAK PDU (CCSDS 727.0-B-5 §5.2.6).
#[tactic(auto, unfolding(crate::specs::Shown::nak_fields))]
fn push_nak(
    style: Style,
    nak: &Nak,
    requests: &[NakRange],
    text: &mut Vec<u8>,
) -> Result<(), AllocError>
    requires { nak.now.count ≤ length requests.now }
    ensures { OnOk result (text.new.items ≡ text.old.items ++ nak_fields style (nak_in requests.now nak.now)) }
{
    let (start, end) = nak.scope;
    push_number_field(style, Name::StartOfScope, start, text)?;
    push_number_field(style, Name::EndOfScope, end, text)?;
    push_ranges(style, &requests[..nak.count], text)
}

/// Appends that octets are no PDU, and why.
fn push_damaged(
    style: Style,
    len: usize,
    fault: &[u8],
    text: &mut Vec<u8>,
) -> Result<(), AllocError>
    ensures { OnOk result (text.new.items ≡ text.old.items ++ damaged style len fault.now) }
{
    push_opening(style, PduKind::Damaged, len, text)?;
    push_field(style, Name::Fault, fault, text)?;
    push_closing(style, text)
}

/// Why octets are no PDU, in words.
fn fault_words(fault: PduFault) -> &'static [u8]
    ensures { result.now ≡ pdu_fault_text fault }
{
    match fault {
        PduFault::Truncated => b"the PDU is cut",
        PduFault::BadVersion => b"the version is not 001",
        PduFault::CrcNotSupported => b"the PDU has a CRC",
        PduFault::LengthMismatch => b"the data field has another length",
        PduFault::BadDirective => b"no directive has this code",
        PduFault::BadTlv => b"a TLV field is cut or wrong",
        PduFault::RequestTooLong => b"a filestore request is too long",
        PduFault::Memory => b"out of memory",
    }
}

/// Why octets with the CRC flag are no PDU, in words.
fn crc_words(fault: CrcFault) -> &'static [u8]
    ensures { result.now ≡ crc_words fault }
{
    match fault {
        CrcFault::Truncated => b"the PDU is cut",
        CrcFault::BadVersion => b"the version is not 001",
        CrcFault::LengthMismatch => b"the data field has another length",
        CrcFault::BadCrc => b"the CRC is wrong",
    }
}

/// Why octets are no NAK PDU, in words.
fn nak_fault_words(fault: NakFault) -> &'static [u8]
    ensures { result.now ≡ nak_fault_words fault }
{
    match fault {
        NakFault::Pdu(fault) => fault_words(fault),
        NakFault::TooMany(_) => b"there are too many segment requests",
    }
}

/// Appends an ACK PDU.
fn push_ack_pdu(
    style: Style,
    came: SizeAndCrc,
    header: &Header,
    ack: &Ack,
    text: &mut Vec<u8>,
) -> Result<(), AllocError>
    ensures { OnOk result (text.new.items ≡ text.old.items
        ++ pdu_text style came.len came.has_crc kinds.Ack header.now (ack_fields style ack.now)) }
{
    push_start(style, came, PduKind::Ack, header, text)?;
    push_ack(style, ack, text)?;
    push_closing(style, text)
}

/// Appends a Prompt PDU.
fn push_prompt_pdu(
    style: Style,
    came: SizeAndCrc,
    header: &Header,
    prompt: Prompt,
    text: &mut Vec<u8>,
) -> Result<(), AllocError>
    ensures { OnOk result (text.new.items ≡ text.old.items
        ++ pdu_text style came.len came.has_crc kinds.Prompt header.now
        (plain_field style names.ResponseRequired (prompt_words prompt))) }
{
    push_start(style, came, PduKind::Prompt, header, text)?;
    push_field(style, Name::ResponseRequired, prompt_words(prompt), text)?;
    push_closing(style, text)
}

/// Appends a Keep Alive PDU.
fn push_keep_alive_pdu(
    style: Style,
    came: SizeAndCrc,
    header: &Header,
    progress: u64,
    text: &mut Vec<u8>,
) -> Result<(), AllocError>
    ensures { OnOk result (text.new.items ≡ text.old.items
        ++ pdu_text style came.len came.has_crc kinds.KeepAlive header.now
        (number_field style names.Progress progress)) }
{
    push_start(style, came, PduKind::KeepAlive, header, text)?;
    push_number_field(style, Name::Progress, progress, text)?;
    push_closing(style, text)
}

/// Appends an ACK, Prompt or Keep Alive PDU.
fn push_directive(
    style: Style,
    came: SizeAndCrc,
    octets: &[u8],
    text: &mut Vec<u8>,
) -> Result<(), AllocError>
    ensures { OnOk result (text.new.items ≡ text.old.items
        ++ directive_text style came.len came.has_crc (directive_spelled octets.now)) }
{
    match read_directive(octets) {
        Ok(Directive::Ack(header, ack)) => push_ack_pdu(style, came, &header, &ack, text),
        Ok(Directive::Prompt(header, prompt)) => {
            push_prompt_pdu(style, came, &header, prompt, text)
        }
        Ok(Directive::KeepAlive(header, keep_alive)) => {
            push_keep_alive_pdu(style, came, &header, keep_alive.progress, text)
        }
        Err(fault) => push_damaged(style, came.len, fault_words(fault), text),
    }
}

/// Appends a NAK PDU.
fn push_nak_pdu(
    style: Style,
    came: SizeAndCrc,
    nak: &Nak,
    requests: &[NakRange],
    text: &mut Vec<u8>,
) -> Result<(), AllocError>
    requires { nak.now.count ≤ length requests.now }
    ensures { OnOk result (text.new.items ≡ text.old.items
        ++ pdu_text style came.len came.has_crc kinds.Nak nak.now.header
        (nak_fields style (nak_in requests.now nak.now))) }
{
    push_start(style, came, PduKind::Nak, &nak.header, text)?;
    push_nak(style, nak, requests, text)?;
    push_closing(style, text)
}

/// Appends what is read as a NAK PDU.
fn push_read_nak(
    alloc: Global,
    style: Style,
    came: SizeAndCrc,
    octets: &[u8],
    text: &mut Vec<u8>,
) -> Result<(), AllocError>
    ensures { OnOk result (text.new.items ≡ text.old.items
        ++ nak_text style came.len came.has_crc (nak_within 8190 octets.now)) }
{
    let mut requests = vec![in alloc; (0u64, 0u64); MOST_NAK_REQUESTS]?;
    match read_nak(octets, &mut requests) {
        Ok(nak) => push_nak_pdu(style, came, &nak, &requests, text),
        Err(fault) => push_damaged(style, came.len, nak_fault_words(fault), text),
    }
}

/// Appends a PDU that goes toward the sender of a file, or asks the receiver, by its directive code.
fn push_other(
    alloc: Global,
    style: Style,
    came: SizeAndCrc,
    octets: &[u8],
    code: u8,
    text: &mut Vec<u8>,
) -> Result<(), AllocError>
    ensures { OnOk result (text.new.items ≡ text.old.items ++ other_text style came.len came.has_crc octets.now code) }
{
    if code == directive::NAK {
        push_read_nak(alloc, style, came, octets, text)
    } else {
        push_directive(style, came, octets, text)
    }
}

/// Appends a Metadata PDU.
fn push_metadata_pdu(
    style: Style,
    came: SizeAndCrc,
    header: &Header,
    messages: Messages<'_>,
    metadata: &Metadata,
    text: &mut Vec<u8>,
) -> Result<(), AllocError>
    ensures { OnOk result (text.new.items ≡ text.old.items
        ++ pdu_text style came.len came.has_crc kinds.Metadata header.now
        (metadata_fields style messages.entry metadata.now)) }
{
    push_start(style, came, PduKind::Metadata, header, text)?;
    push_metadata(style, messages, metadata, text)?;
    push_closing(style, text)
}

/// Appends a File Data PDU.
fn push_data_pdu(
    style: Style,
    came: SizeAndCrc,
    header: &Header,
    file_data: &FileData,
    text: &mut Vec<u8>,
) -> Result<(), AllocError>
    ensures { OnOk result (text.new.items ≡ text.old.items
        ++ pdu_text style came.len came.has_crc kinds.FileData header.now (data_fields style file_data.now)) }
{
    push_start(style, came, PduKind::FileData, header, text)?;
    push_data(style, file_data, text)?;
    push_closing(style, text)
}

/// Appends an EOF PDU.
fn push_eof_pdu(
    style: Style,
    came: SizeAndCrc,
    header: &Header,
    eof: &Eof,
    text: &mut Vec<u8>,
) -> Result<(), AllocError>
    ensures { OnOk result (text.new.items ≡ text.old.items
        ++ pdu_text style came.len came.has_crc kinds.Eof header.now (eof_fields style eof.now)) }
{
    push_start(style, came, PduKind::Eof, header, text)?;
    push_eof(style, eof, text)?;
    push_closing(style, text)
}

/// Appends a Finished PDU.
fn push_finished_pdu(
    style: Style,
    came: SizeAndCrc,
    header: &Header,
    finished: &Finished,
    text: &mut Vec<u8>,
) -> Result<(), AllocError>
    ensures { OnOk result (text.new.items ≡ text.old.items
        ++ pdu_text style came.len came.has_crc kinds.Finished header.now (finished_fields style finished.now)) }
{
    push_start(style, came, PduKind::Finished, header, text)?;
    push_finished(style, finished, text)?;
    push_closing(style, text)
}

/// Appends what octets without a CRC say.
fn push_plain(
    alloc: Global,
    style: Style,
    came: SizeAndCrc,
    octets: &[u8],
    text: &mut Vec<u8>,
) -> Result<(), AllocError>
    ensures { OnOk result (text.new.items ≡ text.old.items
        ++ read_text style came.len came.has_crc octets.now (pdu_at octets.now)) }
{
    match read_pdu(alloc, octets) {
        Ok(Pdu::Metadata(header, metadata)) => {
            let messages = read_messages(octets);
            push_metadata_pdu(style, came, &header, messages, &metadata, text)
        }
        Ok(Pdu::FileData(header, data)) => push_data_pdu(style, came, &header, &data, text),
        Ok(Pdu::Eof(header, eof)) => push_eof_pdu(style, came, &header, &eof, text),
        Ok(Pdu::Finished(header, finished)) => {
            push_finished_pdu(style, came, &header, &finished, text)
        }
        Ok(Pdu::NotOurs(_, code)) => push_other(alloc, style, came, octets, code, text),
        Err(PduFault::Memory) => Err(AllocError),
        Err(fault) => push_damaged(style, came.len, fault_words(fault), text),
    }
}

/// What octets say: the kind of their PDU and each of its fields by its name (CCSDS 727.0-B-5 §5); or that they are
/// damaged, and the first fault. The call may change the octets, since it takes a CRC off in place: do not use them
/// after it.
///
/// Of the octets of a file it says how many they are. The fault location of an EOF PDU is left out.
///
/// # Errors
///
/// [`AllocError`] when out of memory. Cost: a pass over the octets, and the text.
pub fn show(alloc: Global, style: Style, octets: &mut [u8]) -> Result<Vec<u8>, AllocError>
    ensures { IfOk result (λ text. text.items ≡ pdu_shown style octets.old) }
{
    let mut text = Vec::new(alloc);
    let len = octets.len();
    match unseal(octets) {
        Ok(plain) => {
            let came = SizeAndCrc {
                len,
                has_crc: plain < len,
            };
            push_plain(alloc, style, came, &octets[..plain], &mut text)?;
        }
        Err(fault) => push_damaged(style, len, crc_words(fault), &mut text)?,
    }
    Ok(text)
}
