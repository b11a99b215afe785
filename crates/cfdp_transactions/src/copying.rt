//! Copies of what a Metadata PDU brings.

ghost use Rattle.std.specs.Prelude.{◌≡◌, IfOk};

use cfdp_paths::Memory;
use cfdp_pdus::Metadata;
use cfdp_tlv::FilestoreRequest;
use std::alloc::Global;

/// A copy of the Metadata (CCSDS 727.0-B-5 §5.2.5).
///
/// # Errors
///
/// Out of memory. Cost: an allocation for each name and each request, and one for the list.
pub(crate) fn copy_metadata(alloc: Global, metadata: &Metadata) -> Result<Metadata, Memory>
    ensures { IfOk result (λ copy. copy ≡ metadata.now) }
{
    Ok(Metadata {
        closure: metadata.closure,
        checksum_type: metadata.checksum_type,
        size: metadata.size,
        source_name: Vec::from_slice(alloc, &metadata.source_name)?,
        destination_name: Vec::from_slice(alloc, &metadata.destination_name)?,
        requests: copy_requests(alloc, &metadata.requests)?,
    })
}

/// A copy of the requests.
fn copy_requests(
    alloc: Global,
    requests: &[FilestoreRequest],
) -> Result<Vec<FilestoreRequest>, Memory>
    ensures { IfOk result (λ copies. copies.items ≡ requests.now) }
{
    let mut copies = Vec::with_capacity(alloc, requests.len())?;
    for request in requests {
        copies.push(request.copy(alloc)?)?;
    }
    Ok(copies)
}
