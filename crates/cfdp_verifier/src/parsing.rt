//! The names of a proposal, read as paths.

ghost use Rattle.std.specs.Prelude.{◌≡◌, ◌≤◌, IfOk, is_some, length, vec_len};
ghost use Rattle.cfdp_paths.specs.Paths.{path_of};
ghost use Rattle.cfdp_verifier.specs.Verdict.{parsed, parsed_from, request_by};
ghost use Rattle.cfdp_verifier.specs.code.Answers.{HasItems, HasRequests};

use crate::proposal::Proposal;
use crate::refusal::{NotGranted, Place, Refusal};
use cfdp_actions::Request;
use cfdp_paths::{Memory, Path, PathFault};
use cfdp_tlv::FilestoreRequest;
use std::alloc::{AllocError, Global};

/// What a transaction performs: the install of its file, where it has one, and its requests.
#[derive(Debug, Drop)]
pub struct Items {
    /// Where the file is installed.
    pub destination: Option<Path>,
    /// The requests in order.
    pub requests: Vec<Request>,
}

/// The items of a proposal, or its first name that is no path.
pub fn parse_items(alloc: Global, proposal: &Proposal<'_>) -> Result<Items, NotGranted>
    requires { length proposal.now.requests ≤ 64 }
    ensures items { HasItems (parsed proposal.now) result }
    ensures destination { IfOk result (λ items. is_some items.destination ≡ is_some proposal.now.destination) }
    ensures few { IfOk result (λ items. vec_len items.requests ≡ length proposal.now.requests) }
{
    let destination = match proposal.destination {
        None => None,
        Some(octets) => {
            let Some(path) = parse_name(alloc, octets)? else {
                return Err(NotGranted::Refused(Refusal::BadPath(Place::Destination)));
            };
            Some(path)
        }
    };
    let requests = parse_requests(alloc, proposal.requests)?;
    Ok(Items {
        destination,
        requests,
    })
}

/// The requests with paths for their names, or the first one that has a name which is no path.
fn parse_requests(alloc: Global, requests: &[FilestoreRequest]) -> Result<Vec<Request>, NotGranted>
    requires { length requests.now ≤ 64 }
    ensures parsed { HasRequests (parsed_from 0 requests.now) result }
    ensures all { IfOk result (λ parsed. vec_len parsed ≡ length requests.now) }
{
    let mut parsed = Vec::new(alloc);
    for (number, request) in requests.iter().enumerate() {
        match parse_request(alloc, request)? {
            None => {
                let place = Place::Request(number as u8);
                return Err(NotGranted::Refused(Refusal::BadPath(place)));
            }
            Some(request) => parsed.push(request)?,
        }
    }
    Ok(parsed)
}

/// A request with paths for its names; `None` where one of them is no path.
///
/// # Errors
///
/// Out of memory. Cost: a pass over the names, and an allocation for each.
pub fn parse_request(alloc: Global, request: &FilestoreRequest) -> Result<Option<Request>, Memory>
    ensures { IfOk result (λ parsed. parsed ≡ request_by request.now) }
{
    let Some(first) = parse_name(alloc, request.first())? else {
        return Ok(None);
    };
    let second = match request.second() {
        None => None,
        Some(octets) => {
            let Some(second) = parse_name(alloc, octets)? else {
                return Ok(None);
            };
            Some(second)
        }
    };
    Ok(Request::new(request.action(), first, second))
}

/// The path that the octets spell, if any.
fn parse_name(alloc: Global, octets: &[u8]) -> Result<Option<Path>, Memory>
    ensures { IfOk result (λ path. path ≡ path_of octets.now) }
{
    match Path::parse(alloc, octets) {
        Ok(path) => Ok(Some(path)),
        Err(PathFault::Memory) => Err(AllocError),
        Err(_) => Ok(None),
    }
}
