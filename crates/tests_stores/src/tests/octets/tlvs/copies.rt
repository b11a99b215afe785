//! Values that are made, copied and answered.

use cfdp_status::{Action, Status};
use cfdp_tlv::*;
use std::alloc::{AllocError, Global};

// Whether a copy of a request says the same.
fn request_is_copied(alloc: Global) -> Result<bool, AllocError> {
    let request = FilestoreRequest::new(alloc, Action::RenameFile, b"a", Some(b"bc"))?;
    Ok(request.copy(alloc)? == request)
}

// Whether a response says the same as its copy, and not the same as one with no message.
fn response_is_copied(alloc: Global) -> Result<bool, AllocError> {
    let status = Status::RenameOldAbsent;
    let response = FilestoreResponse::new(alloc, status, b"a", Some(b"bc"), b"m")?;
    let silent = FilestoreResponse::new(alloc, status, b"a", Some(b"bc"), b"")?;
    Ok(response.copy(alloc)? == response && silent != response)
}

// Whether a request is answered with its names and no message.
fn request_is_answered(alloc: Global) -> Result<bool, AllocError> {
    let request = FilestoreRequest::new(alloc, Action::RenameFile, b"a", Some(b"bc"))?;
    let status = Status::RenameOldAbsent;
    let want = FilestoreResponse::new(alloc, status, b"a", Some(b"bc"), b"")?;
    Ok(request.into_response(status) == want)
}

// Whether all of it is so.
fn is_made(alloc: Global) -> Result<bool, AllocError> {
    Ok(request_is_copied(alloc)? && response_is_copied(alloc)? && request_is_answered(alloc)?)
}

// Where an allocation is refused, all is done once more.
#[test]
fn copies(rt: HostRuntime) -> Result<(), AllocError> {
    let is_made = match is_made(rt.alloc()) {
        Err(AllocError) => is_made(rt.alloc())?,
        answer => answer?,
    };
    assert!(rt; is_made, "a copy, or an answer");
    Ok(())
}
