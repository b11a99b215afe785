//! The Finished PDU of a transaction that is over (CCSDS 727.0-B-5 §5.2.3), written from what the table has of it.

ghost use Rattle.std.specs.Prelude.{◌≡◌, ◌+◌, ◌<◌, ◌≤◌, ◌^◌, true, false, length, min, IfErr, IfNone, IfOk, IfSome, OnErr, OnOk};
ghost use Rattle.std.specs.List.{flat_map, list_all};
ghost use Rattle.std.specs.Option.{ForSome};
ghost use Rattle.cfdp_tlv.specs.Field.{lv};
ghost use Rattle.cfdp_tlv.specs.Grammar.{names_as_lv};
ghost use Rattle.cfdp_pdus.specs.Canonical.{fault_location, finished_field, is_short_response, pdu_octets, response_field};
ghost use Rattle.cfdp_pdus.specs.BufferParts.{filled, with_octets_at};
ghost use Rattle.cfdp_transactions.specs.code.FinishedInBuffer.{answered_with, responses_field, unperformed_field};
ghost use Rattle.cfdp_transactions.specs.Outcome.{answered, responses_of};
ghost use Rattle.cfdp_transactions.specs.code.TakenOutcome.{statuses_of};
ghost use Rattle.cfdp_transactions.specs.Writable.{IsWritable, finished_octets};

use crate::outcome::Outcome;
use crate::taken_outcome::status_of;
use cfdp_pdus::directive::FINISHED;
use cfdp_pdus::{fault_len, header_len, put_header, put_number, put_octets};
use cfdp_status::Status;
use cfdp_tlv::{ENTITY_ID, FILESTORE_RESPONSE, FilestoreRequest};

/// How many octets a Finished PDU has at most: a header of 28, 2 before the responses, 64 responses of 257, and a fault
/// location of 10.
const LONGEST_FINISHED: usize = 16_488;

/// What is said of an outcome whose Finished PDU was written into a buffer.
#[derive(Clone, Copy, Debug, PartialEq, Eq)]
pub struct TakenFinished {
    /// The condition code of the outcome (CCSDS 727.0-B-5 §5.2.2), 0 to 15.
    pub condition: u8,
    /// How many octets the Finished PDU has, 16,488 at most: 0 where it is not to be sent.
    pub len: usize,
}

/// A buffer is too short for a Finished PDU.
#[derive(Clone, Copy, Debug, PartialEq, Eq)]
pub struct ShortBuffer {
    /// How many octets the Finished PDU has, 16,488 at most.
    pub needed: usize,
}

/// Writes an LV field (§5.1.8) at an offset. Returns the offset after it.
fn put_lv(out: &mut [u8], at: usize, value: &[u8]) -> usize
    requires short { length value.now < 256 }
    requires room { at + (length value.now + 1) ≤ length out.old }
    ensures written { out.new ≡ with_octets_at out.old at (lv value.now) }
    ensures end { result ≡ at + (length value.now + 1) }
{
    put_octets(out, at, &[value.len() as u8]);
    put_octets(out, at + 1, value);
    at + 1 + value.len()
}

/// Writes the names of a request as LV fields at an offset. Returns the offset after them.
fn put_names(out: &mut [u8], at: usize, request: &FilestoreRequest) -> usize
    requires short { length (names_as_lv request.now.first request.now.second) < 256 }
    requires room { at + length (names_as_lv request.now.first request.now.second) ≤ length out.old }
    ensures written { out.new ≡ with_octets_at out.old at (names_as_lv request.now.first request.now.second) }
    ensures end { result ≡ at + length (names_as_lv request.now.first request.now.second) }
{
    let end = put_lv(out, at, request.first());
    match request.second() {
        None => end,
        Some(second) => put_lv(out, end, second),
    }
}

/// Writes the response to a request (§5.4.2), with its names and no message, at an offset. Returns the offset after it.
fn put_response(out: &mut [u8], at: usize, request: &FilestoreRequest, status: Status) -> usize
    requires short { is_short_response (answered request.now status) ≡ true }
    requires room { at + length (response_field (answered request.now status)) ≤ length out.old }
    ensures written { out.new ≡ with_octets_at out.old at (response_field (answered request.now status)) }
    ensures end { result ≡ at + length (response_field (answered request.now status)) }
{
    let end = put_names(out, at + 3, request);
    let len = (end - at - 1) as u8;
    put_octets(out, at, &[FILESTORE_RESPONSE, len, status.octet()]);
    put_octets(out, end, &[0]);
    end + 1
}

/// Writes one response for each request, in order, at an offset: the first ones were performed. Returns the offset
/// after them.
fn put_responses(
    out: &mut [u8],
    at: usize,
    requests: &[FilestoreRequest],
    performed: usize,
) -> usize
    requires short { list_all is_short_response (responses_of requests.now (statuses_of performed requests.now))
        ≡ true }
    requires room { at + length (responses_field requests.now performed) ≤ length out.old }
    ensures written { out.new ≡ with_octets_at out.old at (responses_field requests.now performed) }
    ensures end { result ≡ at + length (responses_field requests.now performed) }
{
    let mut end = at;
    for (index, request) in requests.iter().enumerate() {
        let status = status_of(request.action(), index, performed);
        end = put_response(out, end, request, status);
    }
    end
}

/// Writes a fault location (§5.2.3), where there is one, at an offset. Returns the offset after it.
fn put_fault(out: &mut [u8], at: usize, fault: Option<u64>, id_len: u8) -> usize
    requires low { 1 ≤ id_len }
    requires high { id_len ≤ 8 }
    requires sized { ForSome fault (λ entity. entity < 256 ^ id_len) }
    requires room { at + length (fault_location id_len fault) ≤ length out.old }
    ensures written { out.new ≡ with_octets_at out.old at (fault_location id_len fault) }
    ensures end { result ≡ at + length (fault_location id_len fault) }
{
    match fault {
        None => at,
        Some(entity) => {
            let len = usize::from(id_len);
            put_octets(out, at, &[ENTITY_ID, id_len]);
            put_number(out, at + 2, entity, len);
            at + 2 + len
        }
    }
}

/// How many octets the responses to the requests have as TLV fields, or `usize::MAX` where that is too little.
fn responses_len(requests: &[FilestoreRequest]) -> usize
    ensures { result ≡ min (length (flat_map unperformed_field requests.now)) usize.MAX }
{
    let mut len = 0usize;
    for request in requests {
        len = len.saturating_add(request.value_len().saturating_add(3));
    }
    len
}

/// How many octets the data field of the Finished PDU has.
fn field_len(outcome: &Outcome, requests: &[FilestoreRequest], performed: usize) -> u16
    requires { IsWritable (answered_with requests.now performed outcome.now) }
    ensures { let o = answered_with requests.now performed outcome.now in
        result ≡ length (finished_field o.header o.finished) }
{
    let location = fault_len(outcome.finished.fault, outcome.header.id_len);
    (2 + responses_len(requests) + location) as u16
}

/// What is reported where a buffer of this many octets is too short for the Finished PDU. The octets of the PDU are
/// counted only where it may be: no Finished PDU has more than 16,488.
fn find_shortage(
    outcome: &Outcome,
    requests: &[FilestoreRequest],
    performed: usize,
    room: usize,
) -> Option<ShortBuffer>
    requires { IsWritable (answered_with requests.now performed outcome.now) }
    ensures short { let o = answered_with requests.now performed outcome.now in
        IfSome result (λ short. short.needed
        ≡ length (pdu_octets false o.header (finished_field o.header o.finished))) }
    ensures less { IfSome result (λ short. room < short.needed) }
    ensures enough { let o = answered_with requests.now performed outcome.now in
        IfNone result (length (pdu_octets false o.header (finished_field o.header o.finished)) ≤ room) }
{
    if room >= LONGEST_FINISHED {
        return None;
    }
    let field_len = field_len(outcome, requests, performed);
    let needed = header_len(&outcome.header) + usize::from(field_len);
    if room < needed {
        Some(ShortBuffer { needed })
    } else {
        None
    }
}

/// Writes the Finished PDU of an outcome, with the responses to these requests, to the front of a buffer that has room
/// for it: its data field first, and its header, which has the length of that field, last. Returns how many octets it
/// has.
fn fill_finished(
    outcome: &Outcome,
    requests: &[FilestoreRequest],
    performed: usize,
    out: &mut [u8],
) -> usize
    requires writable { IsWritable (answered_with requests.now performed outcome.now) }
    requires room { let o = answered_with requests.now performed outcome.now in
        length (pdu_octets false o.header (finished_field o.header o.finished)) ≤ length out.old }
    ensures written { let o = answered_with requests.now performed outcome.now in
        out.new ≡ filled (pdu_octets false o.header (finished_field o.header o.finished)) out.old }
    ensures len { let o = answered_with requests.now performed outcome.now in
        result ≡ length (pdu_octets false o.header (finished_field o.header o.finished)) }
{
    let header = &outcome.header;
    let finished = &outcome.finished;
    let at = header_len(header);
    let delivery = 4 * u8::from(finished.incomplete);
    let codes = 16 * finished.condition + delivery + finished.file_status;
    put_octets(out, at, &[FINISHED, codes]);
    let responses_end = put_responses(out, at + 2, requests, performed);
    let end = put_fault(out, responses_end, finished.fault, header.id_len);
    put_header(out, false, header, (end - at) as u16);
    end
}

/// Writes the Finished PDU of an outcome, with the responses to these requests, of which the first ones were performed,
/// to the front of a buffer. Returns how many octets it has: 0, and nothing is written, where it is not to be sent.
///
/// # Errors
///
/// The buffer is too short: it is as before.
///
/// Takes no memory. Cost: the octets that it writes, and a pass over the requests where the buffer has less than 16,488
/// octets.
pub(crate) fn put_finished(
    outcome: &Outcome,
    requests: &[FilestoreRequest],
    performed: usize,
    out: &mut [u8],
) -> Result<usize, ShortBuffer>
    requires { IsWritable (answered_with requests.now performed outcome.now) }
    ensures len { let o = answered_with requests.now performed outcome.now in
        IfOk result (λ len. len ≡ length (finished_octets o)) }
    ensures fits { IfOk result (λ len. len ≤ length out.old) }
    ensures written { let o = answered_with requests.now performed outcome.now in
        OnOk result (out.new ≡ filled (finished_octets o) out.old) }
    ensures short { let o = answered_with requests.now performed outcome.now in
        IfErr result (λ short. short.needed ≡ length (finished_octets o)) }
    ensures less { IfErr result (λ short. length out.old < short.needed) }
    ensures unwritten { OnErr result (out.new ≡ out.old) }
{
    if !outcome.send {
        return Ok(0);
    }
    if let Some(short) = find_shortage(outcome, requests, performed, out.len()) {
        return Err(short);
    }
    Ok(fill_finished(outcome, requests, performed, out))
}
