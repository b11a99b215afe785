//! What the data fields are made of: names, and TLV fields one after the other.

ghost use Rattle.std.specs.Prelude.{◌≡◌, IfOk, Ok};
ghost use Rattle.cfdp_tlv.specs.Reading.{Answers, Gives};
ghost use Rattle.cfdp_pdus.specs.First.{name_field_at, asked_at, answered_at, requests_of, outcome_fields, entity_at, all_whole, fields_at};
ghost use Rattle.cfdp_pdus.specs.code.Counting.{count_read, responses_in_fields, outcome_count};
ghost use Rattle.cfdp_pdus.specs.declared.fault.PduFault.TheVariants.{Memory};

use crate::PduFault;
use crate::tlv_fields::TlvFields;
use byteorder::{BigEndian, ByteOrder};
use cfdp_tlv::{
    ENTITY_ID, FILESTORE_REQUEST, FILESTORE_RESPONSE, FilestoreRequest, FilestoreResponse,
    MAX_ANSWERABLE_LEN, RequestParts, ResponseParts, read_lv, request_parts, response_parts,
};
use std::alloc::{AllocError, Global};

/// The longest entity ID, in octets.
const MAX_ID_LEN: usize = 8;

/// The LV field at the front, and what is after it.
pub fn read_name(octets: &[u8]) -> Result<(&[u8], &[u8]), PduFault>
    ensures { Answers (λ x. (x.0.now, x.1.now)) result (name_field_at octets.now) }
{
    read_lv(octets).map_err(|_| PduFault::LengthMismatch)
}

/// A filestore request that a response can answer: its value has at most 254 octets.
#[tactic(auto, unfolding(crate::specs::First::asked_at))]
fn read_request_parts(value: &[u8]) -> Result<RequestParts<'_>, PduFault>
    ensures { result ≡ asked_at value.now }
{
    let Ok(parts) = request_parts(value) else {
        return Err(PduFault::BadTlv);
    };
    if value.len() > MAX_ANSWERABLE_LEN {
        return Err(PduFault::RequestTooLong);
    }
    Ok(parts)
}

/// How many filestore requests there are among TLV fields, each of which is looked at. It takes no
/// memory.
pub fn count_requests(octets: &[u8]) -> Result<usize, PduFault>
    ensures { result ≡ count_read (requests_of (fields_at octets.now)) }
{
    let mut count = 0usize;
    for read in TlvFields::among(octets) {
        let Ok(field) = read else {
            return Err(PduFault::BadTlv);
        };
        if field.kind == FILESTORE_REQUEST {
            read_request_parts(field.value)?;
            count += 1;
        }
    }
    Ok(count)
}

/// The filestore requests, as many as were counted, among TLV fields that were found good.
fn copy_requests(
    alloc: Global,
    octets: &[u8],
    count: usize,
) -> Result<Vec<FilestoreRequest>, AllocError>
    requires { count_read (requests_of (fields_at octets.now)) ≡ Ok count }
    ensures { IfOk result (λ requests. requests_of (fields_at octets.now) ≡ Ok requests.items) }
{
    let mut requests = Vec::with_capacity(alloc, count)?;
    for read in TlvFields::among(octets) {
        let field = read.unwrap();
        if field.kind == FILESTORE_REQUEST {
            let request = read_request_parts(field.value).unwrap();
            requests.push_reserved(request.copy(alloc)?);
        }
    }
    Ok(requests)
}

/// The filestore requests among TLV fields. All fields are looked at before memory is asked for.
pub fn read_requests(alloc: Global, octets: &[u8]) -> Result<Vec<FilestoreRequest>, PduFault>
    ensures { Gives Memory (λ requests. requests.items) result (requests_of (fields_at octets.now)) }
{
    let count = count_requests(octets)?;
    Ok(copy_requests(alloc, octets, count)?)
}

/// An entity ID of 1 to 8 octets.
#[tactic(auto, unfolding(crate::specs::First::entity_at))]
fn read_entity(value: &[u8]) -> Result<u64, PduFault>
    ensures { Answers (λ entity. entity) result (entity_at value.now) }
{
    if value.is_empty() || value.len() > MAX_ID_LEN {
        return Err(PduFault::BadTlv);
    }
    Ok(BigEndian::read_uint(value, value.len()))
}

/// A filestore response.
fn read_response_parts(value: &[u8]) -> Result<ResponseParts<'_>, PduFault>
    ensures { result ≡ answered_at value.now }
{
    response_parts(value).map_err(|_| PduFault::BadTlv)
}

/// How many filestore responses there are among TLV fields, and the last entity ID. Each field is
/// looked at. It takes no memory.
pub fn count_responses(octets: &[u8]) -> Result<(usize, Option<u64>), PduFault>
    ensures { result ≡ outcome_count (fields_at octets.now) }
{
    let mut count = 0usize;
    let mut fault = None;
    for read in TlvFields::among(octets) {
        let Ok(field) = read else {
            return Err(PduFault::BadTlv);
        };
        if field.kind == FILESTORE_RESPONSE {
            read_response_parts(field.value)?;
            count += 1;
        } else if field.kind == ENTITY_ID {
            let entity = read_entity(field.value)?;
            fault = Some(entity);
        }
    }
    Ok((count, fault))
}

/// The filestore responses, as many as were counted, among TLV fields that were found good.
fn copy_responses(
    alloc: Global,
    octets: &[u8],
    count: usize,
) -> Result<Vec<FilestoreResponse>, AllocError>
    requires { count_read (responses_in_fields (fields_at octets.now)) ≡ Ok count }
    ensures { IfOk result (λ responses. responses_in_fields (fields_at octets.now) ≡ Ok responses.items) }
{
    let mut responses = Vec::with_capacity(alloc, count)?;
    for read in TlvFields::among(octets) {
        let field = read.unwrap();
        if field.kind == FILESTORE_RESPONSE {
            let response = read_response_parts(field.value).unwrap();
            responses.push_reserved(response.copy(alloc)?);
        }
    }
    Ok(responses)
}

/// The filestore responses among TLV fields, and the last entity ID, which is the fault location.
/// All fields are looked at before memory is asked for.
pub fn read_outcome(
    alloc: Global,
    octets: &[u8],
) -> Result<(Vec<FilestoreResponse>, Option<u64>), PduFault>
    ensures { Gives Memory (λ x. (x.0.items, x.1)) result (outcome_fields (fields_at octets.now)) }
{
    let (count, fault) = count_responses(octets)?;
    Ok((copy_responses(alloc, octets, count)?, fault))
}

/// That no TLV field is cut.
pub fn check_fields(octets: &[u8]) -> Result<(), PduFault>
    ensures { Answers (λ whole. whole) result (all_whole (fields_at octets.now)) }
{
    for read in TlvFields::among(octets) {
        if read.is_err() {
            return Err(PduFault::BadTlv);
        }
    }
    Ok(())
}
