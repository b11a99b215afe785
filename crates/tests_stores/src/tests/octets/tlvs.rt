//! Worked fields and responses, the faults, and values at their greatest lengths. Worked requests are text, in
//! `.ci/cases/tlvs.txt`.

mod copies;
mod limits;

use super::{Row, all_hold};
use cfdp_status::{Action, Status};
use cfdp_tlv::*;
use std::alloc::{AllocError, Global};

// A response TLV, and its status, names and message.
struct ResponseRow {
    octets: &'static [u8],
    status: Status,
    first: &'static [u8],
    second: Option<&'static [u8]>,
    message: &'static [u8],
}

static RESPONSES: [(&str, ResponseRow); 14] = [
    (
        "a file was created",
        ResponseRow {
            octets: b"\x01\x04\x00\x01a\x00",
            status: Status::Successful(Action::CreateFile),
            first: b"a",
            second: None,
            message: b"",
        },
    ),
    (
        "create file was not allowed",
        ResponseRow {
            octets: b"\x01\x04\x01\x01a\x00",
            status: Status::NotAllowed(Action::CreateFile),
            first: b"a",
            second: None,
            message: b"",
        },
    ),
    (
        "create file was not performed",
        ResponseRow {
            octets: b"\x01\x04\x0f\x01a\x00",
            status: Status::NotPerformed(Action::CreateFile),
            first: b"a",
            second: None,
            message: b"",
        },
    ),
    (
        "a file was deleted",
        ResponseRow {
            octets: b"\x01\x04\x10\x01a\x00",
            status: Status::Successful(Action::DeleteFile),
            first: b"a",
            second: None,
            message: b"",
        },
    ),
    (
        "delete file was not performed",
        ResponseRow {
            octets: b"\x01\x04\x1f\x01a\x00",
            status: Status::NotPerformed(Action::DeleteFile),
            first: b"a",
            second: None,
            message: b"",
        },
    ),
    (
        "a directory was created",
        ResponseRow {
            octets: b"\x01\x04\x50\x01d\x00",
            status: Status::Successful(Action::CreateDirectory),
            first: b"d",
            second: None,
            message: b"",
        },
    ),
    (
        "a file was created in a directory",
        ResponseRow {
            octets: b"\x01\x06\x00\x03d/x\x00",
            status: Status::Successful(Action::CreateFile),
            first: b"d/x",
            second: None,
            message: b"",
        },
    ),
    (
        "remove directory was not allowed",
        ResponseRow {
            octets: b"\x01\x04\x62\x01d\x00",
            status: Status::NotAllowed(Action::RemoveDirectory),
            first: b"d",
            second: None,
            message: b"",
        },
    ),
    (
        "a file in a directory was renamed",
        ResponseRow {
            octets: b"\x01\x08\x20\x03d/x\x01b\x00",
            status: Status::Successful(Action::RenameFile),
            first: b"d/x",
            second: Some(b"b"),
            message: b"",
        },
    ),
    (
        "rename file was not performed",
        ResponseRow {
            octets: b"\x01\x06\x2f\x01a\x01b\x00",
            status: Status::NotPerformed(Action::RenameFile),
            first: b"a",
            second: Some(b"b"),
            message: b"",
        },
    ),
    (
        "the second file of a replace does not exist",
        ResponseRow {
            octets: b"\x01\x06\x42\x01b\x01c\x00",
            status: Status::ReplaceSecondAbsent,
            first: b"b",
            second: Some(b"c"),
            message: b"",
        },
    ),
    (
        "a directory was denied",
        ResponseRow {
            octets: b"\x01\x04\x80\x01d\x00",
            status: Status::Successful(Action::DenyDirectory),
            first: b"d",
            second: None,
            message: b"",
        },
    ),
    (
        "an append, with a message",
        ResponseRow {
            octets: b"\x01\x07\x30\x01b\x01b\x01m",
            status: Status::Successful(Action::AppendFile),
            first: b"b",
            second: Some(b"b"),
            message: b"m",
        },
    ),
    (
        "a / in front",
        ResponseRow {
            octets: b"\x01\x05\x00\x02/a\x00",
            status: Status::Successful(Action::CreateFile),
            first: b"/a",
            second: None,
            message: b"",
        },
    ),
];

// The value of a TLV field of this type with nothing after it; empty where it is no such field.
fn value_in(tlv: &[u8], kind: u8) -> &[u8] {
    match read_tlv(tlv) {
        Ok(field) if field.kind == kind && field.rest.is_empty() => field.value,
        _ => b"",
    }
}

// The request of a whole TLV. Only memory can be refused.
fn request_in(alloc: Global, tlv: &[u8]) -> Result<FilestoreRequest, AllocError> {
    match read_request(alloc, value_in(tlv, FILESTORE_REQUEST)) {
        Ok(request) => Ok(request),
        Err(_) => Err(AllocError),
    }
}

// The TLV of a request that is not too long, after these octets.
fn written_request(
    alloc: Global,
    before: &[u8],
    request: &FilestoreRequest,
) -> Result<Vec<u8>, AllocError> {
    let mut out = Vec::from_slice(alloc, before)?;
    match write_request(request, &mut out) {
        Ok(()) => Ok(out),
        Err(_) => Err(AllocError),
    }
}

// The response of a whole TLV. Only memory can be refused.
fn response_in(alloc: Global, tlv: &[u8]) -> Result<FilestoreResponse, AllocError> {
    match read_response(alloc, value_in(tlv, FILESTORE_RESPONSE)) {
        Ok(response) => Ok(response),
        Err(_) => Err(AllocError),
    }
}

// The TLV of a response that is not too long, after these octets.
fn written_response(
    alloc: Global,
    before: &[u8],
    response: &FilestoreResponse,
) -> Result<Vec<u8>, AllocError> {
    let mut out = Vec::from_slice(alloc, before)?;
    match write_response(response, &mut out) {
        Ok(()) => Ok(out),
        Err(_) => Err(AllocError),
    }
}

// Whether a response has the status, the names and the message of a row.
fn tells(response: &FilestoreResponse, stated: &ResponseRow) -> bool {
    response.status() == stated.status
        && response.first() == stated.first
        && response.second() == stated.second
        && response.message() == stated.message
}

impl Row for ResponseRow {
    fn holds(&self, alloc: Global) -> Result<bool, AllocError> {
        let response = response_in(alloc, self.octets)?;
        let out = written_response(alloc, b"x", &response)?;
        Ok(tells(&response, self) && out.strip_prefix(b"x") == Some(self.octets))
    }
}

#[test]
fn responses(rt: HostRuntime) {
    all_hold(&rt, rt.alloc(), &RESPONSES);
}

// Octets, and the value of the LV field at the front with what is after it, if it is whole.
type Lv = (&'static [u8], Option<(&'static [u8], &'static [u8])>);

static LVS: [(&str, Lv); 5] = [
    (
        "two octets, and one after them",
        (b"\x02ab\x00", Some((b"ab", b"\x00"))),
    ),
    ("no octets in it", (b"\x00", Some((b"", b"")))),
    ("nothing", (b"", None)),
    ("cut after its length", (b"\x01", None)),
    ("shorter than its length", (b"\xffabc", None)),
];

impl Row for Lv {
    fn holds(&self, _: Global) -> Result<bool, AllocError> {
        Ok(read_lv(self.0).ok() == self.1)
    }
}

#[test]
fn lv_fields(rt: HostRuntime) {
    all_hold(&rt, rt.alloc(), &LVS);
}

// Octets, and the type and the value of the TLV field at the front with what is after it, if it is whole.
type TlvRow = (&'static [u8], Option<(u8, &'static [u8], &'static [u8])>);

static TLVS: [(&str, TlvRow); 4] = [
    (
        "one octet, and one after it",
        (b"\x06\x01\x02\x00", Some((6, b"\x02", b"\x00"))),
    ),
    ("nothing", (b"", None)),
    ("cut after its type", (b"\x00", None)),
    ("shorter than its length", (b"\x00\x03\x00\x01", None)),
];

fn tlv_parts(octets: &[u8]) -> Option<(u8, &[u8], &[u8])> {
    let field = read_tlv(octets).ok()?;
    Some((field.kind, field.value, field.rest))
}

impl Row for TlvRow {
    fn holds(&self, _: Global) -> Result<bool, AllocError> {
        Ok(tlv_parts(self.0) == self.1)
    }
}

#[test]
fn tlv_fields(rt: HostRuntime) {
    all_hold(&rt, rt.alloc(), &TLVS);
}

// What spells no request, and its fault.
struct RefusedRequest(&'static [u8], TlvFault);

static REQUEST_FAULTS: [(&str, RefusedRequest); 8] = [
    ("nothing", RefusedRequest(b"", TlvFault::Truncated)),
    (
        "an action that does not exist",
        RefusedRequest(b"\x90\x01a", TlvFault::BadAction),
    ),
    (
        "such an action alone",
        RefusedRequest(b"\x90", TlvFault::BadAction),
    ),
    (
        "an action alone",
        RefusedRequest(b"\x00", TlvFault::Truncated),
    ),
    (
        "a name that is cut",
        RefusedRequest(b"\x00\x02a", TlvFault::Truncated),
    ),
    (
        "no second name",
        RefusedRequest(b"\x20\x01a", TlvFault::Truncated),
    ),
    (
        "an octet after the name",
        RefusedRequest(b"\x10\x01a\x00", TlvFault::Trailing),
    ),
    (
        "an octet after two names",
        RefusedRequest(b"\x20\x01a\x01b\x00", TlvFault::Trailing),
    ),
];

// What spells no response, and its fault.
struct RefusedResponse(&'static [u8], TlvFault);

static RESPONSE_FAULTS: [(&str, RefusedResponse); 7] = [
    ("nothing", RefusedResponse(b"", TlvFault::Truncated)),
    (
        "an action that does not exist",
        RefusedResponse(b"\x90\x01a\x00", TlvFault::BadAction),
    ),
    (
        "a status that does not exist",
        RefusedResponse(b"\x02\x01a\x00", TlvFault::BadStatus),
    ),
    (
        "such a status alone",
        RefusedResponse(b"\x71", TlvFault::BadStatus),
    ),
    (
        "no message",
        RefusedResponse(b"\x00\x01a", TlvFault::Truncated),
    ),
    (
        "no message after two names",
        RefusedResponse(b"\x20\x01a\x01b", TlvFault::Truncated),
    ),
    (
        "an octet after the message",
        RefusedResponse(b"\x00\x01a\x00\x00", TlvFault::Trailing),
    ),
];

impl Row for RefusedRequest {
    fn holds(&self, alloc: Global) -> Result<bool, AllocError> {
        Ok(read_request(alloc, self.0).err() == Some(self.1))
    }
}

impl Row for RefusedResponse {
    fn holds(&self, alloc: Global) -> Result<bool, AllocError> {
        Ok(read_response(alloc, self.0).err() == Some(self.1))
    }
}

// These are the answers too where each allocation is refused: a fault is found without memory.
#[test]
fn faults(rt: HostRuntime) {
    all_hold(&rt, rt.alloc(), &REQUEST_FAULTS);
    all_hold(&rt, rt.alloc(), &RESPONSE_FAULTS);
}

// A field is appended after what is there.
fn appended(alloc: Global) -> Result<Vec<u8>, AllocError> {
    let mut out = Vec::with_capacity(alloc, 4)?;
    out.push_reserved(b'x');
    push_lv(&mut out, b"ab");
    Ok(out)
}

#[test]
fn appended_field(rt: HostRuntime) {
    assert!(rt;
        appended(rt.alloc()).as_deref() == Ok(b"x\x02ab".as_slice()),
        "an LV field after an octet"
    );
}
