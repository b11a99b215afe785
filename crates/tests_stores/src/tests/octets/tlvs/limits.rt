//! Values at their greatest length, 255 octets, and one octet longer.

use super::{Row, all_hold, request_in, response_in, written_request, written_response};
use cfdp_status::{Action, Status};
use cfdp_tlv::*;
use std::alloc::{AllocError, Global};

// A request with a name of this many octets.
fn delete(alloc: Global, len: usize) -> Result<FilestoreRequest, AllocError> {
    let name = vec![in alloc; b'p'; len]?;
    FilestoreRequest::new(alloc, Action::DeleteFile, &name, None)
}

// How many octets it is written in.
fn request_len(alloc: Global, request: &FilestoreRequest) -> Result<usize, TlvFault> {
    let mut out = Vec::new(alloc);
    match write_request(request, &mut out) {
        Ok(()) => Ok(out.len()),
        Err(fault) => Err(fault),
    }
}

// A response with a name of this many octets.
fn absent(alloc: Global, len: usize) -> Result<FilestoreResponse, AllocError> {
    let name = vec![in alloc; b'p'; len]?;
    FilestoreResponse::new(alloc, Status::DeleteAbsent, &name, None, b"")
}

// How many octets it is written in.
fn response_len(alloc: Global, response: &FilestoreResponse) -> Result<usize, TlvFault> {
    let mut out = Vec::new(alloc);
    match write_response(response, &mut out) {
        Ok(()) => Ok(out.len()),
        Err(fault) => Err(fault),
    }
}

// How many octets the name has, and how many the request and the response.
type Lens = (usize, Result<usize, TlvFault>, Result<usize, TlvFault>);

static LENS: [(&str, Lens); 3] = [
    ("a name of 252 octets", (252, Ok(256), Ok(257))),
    (
        "a name of 253 octets",
        (253, Ok(257), Err(TlvFault::TooLong)),
    ),
    (
        "a name of 254 octets",
        (254, Err(TlvFault::TooLong), Err(TlvFault::TooLong)),
    ),
];

impl Row for Lens {
    fn holds(&self, alloc: Global) -> Result<bool, AllocError> {
        let request = delete(alloc, self.0)?;
        let response = absent(alloc, self.0)?;
        Ok(request_len(alloc, &request) == self.1 && response_len(alloc, &response) == self.2)
    }
}

#[test]
fn longest_values(rt: HostRuntime) {
    all_hold(&rt, rt.alloc(), &LENS);
}

// Whether a request of the greatest length, with two names, is read back.
fn request_reads_back(alloc: Global) -> Result<bool, AllocError> {
    let action = Action::AppendFile;
    let request = FilestoreRequest::new(alloc, action, &[b'p'; 152], Some(&[b'q'; 100]))?;
    let out = written_request(alloc, b"", &request)?;
    Ok(out.len() == 2 + MAX_VALUE_LEN && request_in(alloc, &out)? == request)
}

// Whether a response of the greatest length, with a message of 200 octets, is read back.
fn response_reads_back(alloc: Global) -> Result<bool, AllocError> {
    let status = Status::DeleteAbsent;
    let response = FilestoreResponse::new(alloc, status, &[b'p'; 52], None, &[b'm'; 200])?;
    let out = written_response(alloc, b"", &response)?;
    Ok(out.len() == 2 + MAX_VALUE_LEN && response_in(alloc, &out)? == response)
}

#[test]
fn longest_values_read_back(rt: HostRuntime) {
    assert!(rt; request_reads_back(rt.alloc()) == Ok(true), "a request");
    assert!(rt; response_reads_back(rt.alloc()) == Ok(true), "a response");
}
