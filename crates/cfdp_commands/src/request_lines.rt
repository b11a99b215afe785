//! The filestore request that a line of `plain` brings, and the line that answers it (CCSDS 727.0-B-5 §5.4).
ghost use Rattle.std.specs.Prelude.{◌≡◌, ℕ, ◌+◌, ◌≤◌, ◌++◌, length, Ok, Err, IfOk, OnOk, OnErr, Some};
ghost use Rattle.cfdp_status.specs.Codes.{action_of};
ghost use Rattle.cfdp_tlv.specs.Types.{filestore_response_type};
ghost use Rattle.cfdp_tlv.specs.Field.{tlv};
ghost use Rattle.cfdp_tlv.specs.Grammar.{names_as_lv, request_at, response_octets};
ghost use Rattle.cfdp_commands.specs.RequestLines.{answerable, request_on, response_line, response_to};
ghost use Rattle.cfdp_commands.specs.declared.dropped.DroppedLine.{DroppedLine};
ghost use Rattle.cfdp_commands.specs.declared.request_lines.NoRequest.TheVariants as no;

use crate::dropped::DroppedLine;
use cfdp_status::Status;
use cfdp_texts::encode;
use cfdp_tlv::{
    FILESTORE_REQUEST, FilestoreRequest, MAX_ANSWERABLE_LEN, TlvFault, read_tlv, request_parts,
    write_response,
};
use std::alloc::{AllocError, Global};

/// Why a line brings no request.
#[derive(Clone, Copy)]
pub(crate) enum NoRequest {
    /// It is dropped.
    Dropped(DroppedLine),
    /// Out of memory.
    Memory,
}

/// The request that a TLV's value spells, if it can be answered. A value that is dropped takes no memory.
fn read_answerable(alloc: Global, value: &[u8]) -> Result<FilestoreRequest, NoRequest>
    ensures request { IfOk result (λ request. answerable value.now (request_at value.now) ≡ Ok request) }
    ensures dropped { (dropped : DroppedLine) → result ≡ Err (no.Dropped dropped)
        → answerable value.now (request_at value.now) ≡ Err dropped }
    ensures names { IfOk result (λ request. length (names_as_lv request.first request.second) + 1 ≡ length value.now) }
    ensures short { IfOk result (λ request. length (names_as_lv request.first request.second) ≤ 253) }
{
    let parts = match request_parts(value) {
        Ok(parts) => parts,
        Err(fault) => return Err(NoRequest::Dropped(DroppedLine::of_fault(fault))),
    };
    if value.len() > MAX_ANSWERABLE_LEN {
        return Err(NoRequest::Dropped(DroppedLine::RequestTooLong));
    }
    match parts.copy(alloc) {
        Ok(request) => Ok(request),
        Err(_) => Err(NoRequest::Memory),
    }
}

/// The request that a line brings.
pub(crate) fn read_line(alloc: Global, octets: &[u8]) -> Result<FilestoreRequest, NoRequest>
    ensures request { IfOk result (λ request. request_on octets.now ≡ Ok request) }
    ensures dropped { (dropped : DroppedLine) → result ≡ Err (no.Dropped dropped) → request_on octets.now
        ≡ Err dropped }
    ensures short { IfOk result (λ request. length (names_as_lv request.first request.second) ≤ 253) }
{
    let Ok(field) = read_tlv(octets) else {
        return Err(NoRequest::Dropped(DroppedLine::Truncated));
    };
    if !field.rest.is_empty() {
        return Err(NoRequest::Dropped(DroppedLine::Trailing));
    }
    if field.kind != FILESTORE_REQUEST {
        return Err(NoRequest::Dropped(DroppedLine::NotARequest));
    }
    read_answerable(alloc, field.value)
}

/// Appends the line that answers a request: its response TLV in lower-case hexadecimal.
pub(crate) fn write_answer(
    alloc: Global,
    request: FilestoreRequest,
    status: Status,
    out: &mut Vec<u8>,
) -> Result<(), AllocError>
    requires action { action_of status ≡ request.action }
    requires short { length (names_as_lv request.first request.second) ≤ 253 }
    ensures ok { OnOk result (out.new.items ≡ out.old.items ++ response_line request status) }
    ensures kept { OnErr result (out.new.items ≡ out.old.items) }
{
    let octets = response_tlv(alloc, request, status)?;
    let before = out.len();
    encode(&octets, out)?;
    if let Err(refused) = out.push(b'\n') {
        out.truncate(before);
        return Err(refused.into());
    }
    Ok(())
}

/// The response TLV to a request.
fn response_tlv(
    alloc: Global,
    request: FilestoreRequest,
    status: Status,
) -> Result<Vec<u8>, AllocError>
    requires action { action_of status ≡ request.action }
    requires short { length (names_as_lv request.first request.second) ≤ 253 }
    ensures { IfOk result (λ octets. octets.items ≡ tlv filestore_response_type
        (response_octets (response_to request status))) }
{
    let mut octets = Vec::new(alloc);
    match write_response(&request.into_response(status), &mut octets) {
        Ok(()) => Ok(octets),
        Err(TlvFault::Memory) => Err(AllocError),
        Err(_) => unreachable!(),
    }
}
