//! What a picture shows of a PDU.

use crate::pdu_log::push_fields;
use cfdp_crc::unseal;
use cfdp_draw::MarkKind;
use cfdp_pdus::{Metadata, Pdu, Start, read_pdu, read_start};
use cfdp_status::TransactionId;
use cfdp_tlv::FilestoreRequest;
use std::alloc::{AllocError, Global};

/// The file that a Metadata PDU names.
#[derive(Drop)]
pub struct NamedFile {
    /// Its name at the receiving entity, or how many requests come without a file.
    pub name: Vec<u8>,
    pub size: u64,
    /// The requests that come with it.
    pub requests: Vec<FilestoreRequest>,
}

/// What a picture shows of a PDU.
#[derive(Drop)]
pub struct DrawnPdu {
    /// Its transaction. `None`: the octets are no PDU.
    pub id: Option<TransactionId>,
    pub kind: MarkKind,
    /// What it says.
    pub words: Vec<u8>,
    /// The file, of a Metadata PDU.
    pub file: Option<NamedFile>,
}

/// The kind of a PDU.
fn kind_of(start: &Start<'_>) -> MarkKind {
    if start.file_data {
        return MarkKind::FileData;
    }
    match start.field.first() {
        Some(code) => MarkKind::of_directive(*code),
        None => MarkKind::NoPdu,
    }
}

/// The name of a transaction's file, or how many requests it has without one.
fn name_of(alloc: Global, metadata: &Metadata) -> Result<Vec<u8>, AllocError> {
    if !metadata.destination_name.is_empty() {
        return Vec::from_slice(alloc, &metadata.destination_name);
    }
    match metadata.requests.len() {
        0 => Ok(Vec::new(alloc)),
        1 => Vec::from_slice(alloc, b"1 request"),
        count => Ok(format!(in alloc; "{count} requests")?.into_bytes()),
    }
}

/// The file that octets name, if they are a Metadata PDU.
fn file_of(alloc: Global, octets: &[u8]) -> Result<Option<NamedFile>, AllocError> {
    let Ok(Pdu::Metadata(_, metadata)) = read_pdu(alloc, octets) else {
        return Ok(None);
    };
    let name = name_of(alloc, &metadata)?;
    let Metadata {
        closure: _,
        checksum_type: _,
        size,
        source_name: _,
        destination_name: _,
        requests,
    } = metadata;
    Ok(Some(NamedFile {
        name,
        size,
        requests,
    }))
}

/// What a picture shows of octets without a CRC, which say these words.
fn look_at_plain(alloc: Global, octets: &[u8], words: Vec<u8>) -> Result<DrawnPdu, AllocError> {
    let Ok(start) = read_start(octets) else {
        return Ok(no_pdu(words));
    };
    let kind = kind_of(&start);
    let id = TransactionId {
        source: start.header.source,
        number: start.header.number,
    };
    let file = match kind {
        MarkKind::Metadata => file_of(alloc, octets)?,
        _ => None,
    };
    Ok(DrawnPdu {
        id: Some(id),
        kind,
        words,
        file,
    })
}

/// What a picture shows of octets that are no PDU, of which these words are said.
fn no_pdu(words: Vec<u8>) -> DrawnPdu {
    DrawnPdu {
        id: None,
        kind: MarkKind::NoPdu,
        words,
        file: None,
    }
}

/// What a picture shows of octets. The call may change them, since it takes a CRC off in place: do not use them after
/// it.
pub fn look_at(alloc: Global, octets: &mut [u8]) -> Result<DrawnPdu, AllocError> {
    let mut words = Vec::new(alloc);
    let mut scratch = Vec::from_slice(alloc, octets)?;
    push_fields(alloc, &mut scratch, &mut words)?;
    match unseal(octets) {
        Ok(len) => look_at_plain(alloc, octets.get(..len).unwrap_or(&[]), words),
        Err(_) => Ok(no_pdu(words)),
    }
}
