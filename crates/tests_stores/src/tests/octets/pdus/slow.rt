//! A slow reader of PDUs, by the offsets at which the format puts things, beside the real one.

ghost use Rattle.std.specs.Prelude.{◌≡◌, ◌≤◌, is_some, IfSome};
ghost use Rattle.cfdp_status.specs.Codes.{has_second};

use cfdp_pdus::*;
use cfdp_status::{Action, Status};
use cfdp_tlv::{FilestoreRequest, FilestoreResponse};
use std::alloc::{AllocError, Global};

// The octet at an offset; 0 after the end.
fn octet(octets: &[u8], at: usize) -> u8 {
    match octets.get(at) {
        Some(octet) => *octet,
        None => 0,
    }
}

// The number in this many octets from an offset on.
fn number(octets: &[u8], at: usize, len: usize) -> u64 {
    let mut number = 0u64;
    for index in at..at.wrapping_add(len) {
        number = number
            .wrapping_mul(256)
            .wrapping_add(u64::from(octet(octets, index)));
    }
    number
}

// As many octets as the first one says, and those after them.
fn counted(octets: &[u8]) -> Option<(&[u8], &[u8])> {
    match octets {
        [len, rest @ ..] => rest.split_at_checked(usize::from(*len)),
        [] => None,
    }
}

// The second name, where the action has one, and the octets after it.
fn second_name(action: Action, octets: &[u8]) -> Option<(Option<&[u8]>, &[u8])>
    ensures { IfSome result (λ x. is_some x.0 ≡ has_second action) }
{
    if !action.has_second() {
        return Some((None, octets));
    }
    match counted(octets) {
        Some((second, rest)) => Some((Some(second), rest)),
        None => None,
    }
}

// What was made, or out of memory.
fn in_memory<T: Drop>(made: Result<T, AllocError>) -> Result<T, PduFault> {
    match made {
        Ok(made) => Ok(made),
        Err(AllocError) => Err(PduFault::Memory),
    }
}

fn request(alloc: Global, value: &[u8]) -> Result<FilestoreRequest, PduFault> {
    let [code, rest @ ..] = value else {
        return Err(PduFault::BadTlv);
    };
    let Some(action) = Action::of_code(*code / 16) else {
        return Err(PduFault::BadTlv);
    };
    let Some((first, rest)) = counted(rest) else {
        return Err(PduFault::BadTlv);
    };
    let Some((second, rest)) = second_name(action, rest) else {
        return Err(PduFault::BadTlv);
    };
    if !rest.is_empty() {
        return Err(PduFault::BadTlv);
    }
    if value.len() > 254 {
        return Err(PduFault::RequestTooLong);
    }
    in_memory(FilestoreRequest::new(alloc, action, first, second))
}

fn response(alloc: Global, value: &[u8]) -> Result<FilestoreResponse, PduFault> {
    let [octet, rest @ ..] = value else {
        return Err(PduFault::BadTlv);
    };
    let Some(status) = Status::of_octet(*octet) else {
        return Err(PduFault::BadTlv);
    };
    let Some((first, rest)) = counted(rest) else {
        return Err(PduFault::BadTlv);
    };
    let Some((second, rest)) = second_name(status.action(), rest) else {
        return Err(PduFault::BadTlv);
    };
    match counted(rest) {
        Some((message, [])) => {
            in_memory(FilestoreResponse::new(alloc, status, first, second, message))
        }
        _ => Err(PduFault::BadTlv),
    }
}

// The TLV field at the front, if it is whole: its type, its value, and the octets after it.
fn tlv(octets: &[u8]) -> Option<(u8, &[u8], &[u8])> {
    let [kind, rest @ ..] = octets else {
        return None;
    };
    let (value, rest) = counted(rest)?;
    Some((*kind, value, rest))
}

// The TLV fields: the type and the value of each that is whole, and whether one is cut after them.
#[derive(Drop)]
struct Fields<'a> {
    whole: Vec<(u8, &'a [u8])>,
    is_cut: bool,
}

fn split_fields(alloc: Global, octets: &[u8]) -> Result<Fields<'_>, AllocError> {
    let mut whole = Vec::new(alloc);
    let mut rest = octets;
    for _ in 0..octets.len() {
        let Some((kind, value, following)) = tlv(rest) else {
            break;
        };
        whole.push((kind, value))?;
        rest = following;
    }
    Ok(Fields {
        whole,
        is_cut: !rest.is_empty(),
    })
}

// An error where a TLV field is cut.
fn check_end(fields: &Fields<'_>) -> Result<(), PduFault> {
    if fields.is_cut {
        return Err(PduFault::BadTlv);
    }
    Ok(())
}

fn push<T: Drop>(items: &mut Vec<T>, item: T) -> Result<(), PduFault> {
    match items.push(item) {
        Ok(()) => Ok(()),
        Err(_) => Err(PduFault::Memory),
    }
}

// The requests among the TLV fields.
fn requests(alloc: Global, fields: &Fields<'_>) -> Result<Vec<FilestoreRequest>, PduFault> {
    let mut requests = Vec::new(alloc);
    for (kind, value) in &fields.whole {
        if *kind == 0 {
            push(&mut requests, request(alloc, value)?)?;
        }
    }
    check_end(fields)?;
    Ok(requests)
}

// The responses among the TLV fields.
fn responses(alloc: Global, fields: &Fields<'_>) -> Result<Vec<FilestoreResponse>, PduFault> {
    let mut responses = Vec::new(alloc);
    for (kind, value) in &fields.whole {
        if *kind == 1 {
            push(&mut responses, response(alloc, value)?)?;
        }
    }
    check_end(fields)?;
    Ok(responses)
}

// The number of an entity ID, which has 1 to 8 octets.
fn entity(value: &[u8]) -> Result<Option<u64>, PduFault> {
    if value.is_empty() || value.len() > 8 {
        return Err(PduFault::BadTlv);
    }
    Ok(Some(number(value, 0, value.len())))
}

// The last fault location among the TLV fields.
fn fault_location(fields: &Fields<'_>) -> Result<Option<u64>, PduFault> {
    let mut fault = None;
    for (kind, value) in &fields.whole {
        if *kind == 6 {
            fault = entity(value)?;
        }
    }
    check_end(fields)?;
    Ok(fault)
}

// How many octets a file size or an offset has.
fn size_len(large: bool) -> usize
    ensures { result ≤ 8 }
{
    if large { 8 } else { 4 }
}

// What is before the TLV fields of a Metadata PDU, and these.
#[derive(Drop)]
struct MetadataParts<'a> {
    flags: u8,
    size: u64,
    source: &'a [u8],
    destination: &'a [u8],
    fields: &'a [u8],
}

fn read_asked(field: &[u8], size_len: usize) -> Option<MetadataParts<'_>>
    requires { size_len ≤ 8 }
{
    let (source, rest) = counted(field.get(2 + size_len..)?)?;
    let (destination, fields) = counted(rest)?;
    Some(MetadataParts {
        flags: octet(field, 1),
        size: number(field, 2, size_len),
        source,
        destination,
        fields,
    })
}

// A Metadata PDU's data field.
fn metadata(alloc: Global, header: Header, field: &[u8]) -> Result<Pdu, PduFault> {
    let Some(asked) = read_asked(field, size_len(header.large)) else {
        return Err(PduFault::LengthMismatch);
    };
    let fields = split_fields(alloc, asked.fields)?;
    let metadata = Metadata {
        closure: asked.flags & 0x40 != 0,
        checksum_type: asked.flags & 0x0f,
        size: asked.size,
        source_name: Vec::from_slice(alloc, asked.source)?,
        destination_name: Vec::from_slice(alloc, asked.destination)?,
        requests: requests(alloc, &fields)?,
    };
    Ok(Pdu::Metadata(header, metadata))
}

// What is before the TLV fields of an EOF PDU, and these.
fn end(field: &[u8], size_len: usize) -> Option<(Eof, &[u8])>
    requires { size_len ≤ 8 }
{
    let fields = field.get(6 + size_len..)?;
    let eof = Eof {
        condition: octet(field, 1) / 16,
        checksum: (number(field, 2, 4) & 0xffff_ffff) as u32,
        size: number(field, 6, size_len),
    };
    Some((eof, fields))
}

// An EOF PDU's data field.
fn eof(alloc: Global, header: Header, field: &[u8]) -> Result<Pdu, PduFault> {
    let Some((eof, octets)) = end(field, size_len(header.large)) else {
        return Err(PduFault::LengthMismatch);
    };
    check_end(&split_fields(alloc, octets)?)?;
    Ok(Pdu::Eof(header, eof))
}

// A Finished PDU's data field.
fn finished(alloc: Global, header: Header, field: &[u8]) -> Result<Pdu, PduFault> {
    let [_, flags, octets @ ..] = field else {
        return Err(PduFault::LengthMismatch);
    };
    let fields = split_fields(alloc, octets)?;
    let finished = Finished {
        condition: *flags / 16,
        incomplete: *flags & 4 != 0,
        file_status: *flags & 3,
        fault: fault_location(&fields)?,
        responses: responses(alloc, &fields)?,
    };
    Ok(Pdu::Finished(header, finished))
}

// The data field of a directive.
fn directive(alloc: Global, header: Header, field: &[u8]) -> Result<Pdu, PduFault> {
    if field.is_empty() {
        return Err(PduFault::LengthMismatch);
    }
    match octet(field, 0) {
        7 => metadata(alloc, header, field),
        4 => eof(alloc, header, field),
        5 => finished(alloc, header, field),
        code @ (6 | 8 | 9 | 12) => Ok(Pdu::NotOurs(header, code)),
        _ => Err(PduFault::BadDirective),
    }
}

// Where the offset is in a File Data PDU's data field.
fn offset_at(field: &[u8], segment_metadata: bool) -> usize
    ensures { result ≤ 64 }
{
    if segment_metadata {
        usize::from(octet(field, 0) % 64) + 1
    } else {
        0
    }
}

// The offset in a File Data PDU's data field, and the octets after it.
fn piece(field: &[u8], segment_metadata: bool, size_len: usize) -> Option<(u64, &[u8])>
    requires { size_len ≤ 8 }
{
    let at = offset_at(field, segment_metadata);
    let octets = field.get(at + size_len..)?;
    Some((number(field, at, size_len), octets))
}

// A File Data PDU's data field.
fn file_data(alloc: Global, start: &HeaderParts<'_>) -> Result<Pdu, PduFault> {
    let size_len = size_len(start.header.large);
    let Some((offset, octets)) = piece(start.field, start.segment_metadata, size_len) else {
        return Err(PduFault::LengthMismatch);
    };
    let octets = Vec::from_slice(alloc, octets)?;
    Ok(Pdu::FileData(start.header, FileData { offset, octets }))
}

// The header, and what is after it.
#[derive(Drop)]
struct HeaderParts<'a> {
    header: Header,
    file_data: bool,
    segment_metadata: bool,
    len: u64,
    field: &'a [u8],
}

fn read_start(octets: &[u8]) -> Option<HeaderParts<'_>> {
    let first = octet(octets, 0);
    let lens = octet(octets, 3);
    let id_len = lens / 16 % 8 + 1;
    let number_len = lens % 8 + 1;
    let number_at = 4 + usize::from(id_len);
    let destination_at = number_at + usize::from(number_len);
    let field = octets.get(destination_at + usize::from(id_len)..)?;
    let header = Header {
        toward_sender: first & 0x08 != 0,
        acknowledged: first & 0x04 == 0,
        large: first & 0x01 != 0,
        id_len,
        number_len,
        source: number(octets, 4, usize::from(id_len)),
        number: number(octets, number_at, usize::from(number_len)),
        destination: number(octets, destination_at, usize::from(id_len)),
    };
    Some(HeaderParts {
        header,
        file_data: first & 0x10 != 0,
        segment_metadata: lens & 0x08 != 0,
        len: number(octets, 1, 2),
        field,
    })
}

// The fault of the first octet, or that there is none.
fn check_first(octets: &[u8]) -> Result<(), PduFault> {
    if octets.is_empty() {
        return Err(PduFault::Truncated);
    }
    let first = octet(octets, 0);
    if first & 0xe0 != 0x20 {
        return Err(PduFault::BadVersion);
    }
    if first & 0x02 != 0 {
        return Err(PduFault::CrcNotSupported);
    }
    Ok(())
}

/// What the octets say, read octet by octet.
pub fn read(alloc: Global, octets: &[u8]) -> Result<Pdu, PduFault> {
    check_first(octets)?;
    let Some(start) = read_start(octets) else {
        return Err(PduFault::Truncated);
    };
    let len = start.field.len() as u64;
    if len < start.len {
        return Err(PduFault::Truncated);
    }
    if len > start.len {
        return Err(PduFault::LengthMismatch);
    }
    if start.file_data {
        return file_data(alloc, &start);
    }
    directive(alloc, start.header, start.field)
}
