//! The PDUs of the sender.
ghost use Rattle.std.specs.Prelude.{◌≡◌, ◌<◌, ◌^◌, false, IfOk};
ghost use Rattle.cfdp_pdus.specs.Canonical.{IsHeader};
ghost use Rattle.cfdp_pdus.specs.Codes.{modular_checksum_type};

use crate::fault::CostFault;
use cfdp_pdus::checksum_type::MODULAR_CHECKSUM;
use cfdp_pdus::{FileData, Header, Metadata, write_file_data, write_metadata};
use std::alloc::{AllocError, Global};

/// How many octets of the file a File Data PDU brings.
pub const DATA_PIECE: u32 = 1_000;

/// Where the transaction sequence number is in a header.
const NUMBER_AT: usize = 5;

/// Where the offset is in a File Data PDU, after its header.
const OFFSET_AT: usize = 10;

/// The header of the PDUs of a transaction: entity IDs have one octet, transaction sequence numbers four.
pub fn header(number: u32) -> Header
    ensures header { IsHeader result }
    ensures large { result.large ≡ false }
{
    Header {
        toward_sender: false,
        acknowledged: true,
        large: false,
        id_len: 1,
        number_len: 4,
        source: 1,
        number: u64::from(number),
        destination: 2,
    }
}

/// Like `header`, for a transaction in unacknowledged mode.
pub fn unacknowledged(number: u32) -> Header
    ensures header { IsHeader result }
    ensures large { result.large ≡ false }
{
    Header {
        acknowledged: false,
        ..header(number)
    }
}

/// What a Metadata PDU says of a file of this size, at a path of its transaction's own.
fn metadata(alloc: Global, number: u64, size: u32) -> Result<Metadata, AllocError>
    ensures checksum_type { IfOk result (λ metadata. metadata.checksum_type ≡ modular_checksum_type) }
    ensures size { IfOk result (λ metadata. metadata.size < 2 ^ 32) }
{
    let name = format!(in alloc; "file-{number}")?;
    Ok(Metadata {
        closure: true,
        checksum_type: MODULAR_CHECKSUM,
        size: u64::from(size),
        source_name: Vec::from_slice(alloc, b"file")?,
        destination_name: name.into_bytes(),
        requests: Vec::new(alloc),
    })
}

/// A Metadata PDU.
pub fn metadata_pdu(alloc: Global, header: &Header, size: u32) -> Result<Vec<u8>, CostFault>
    requires header { IsHeader header.now }
    requires large { header.now.large ≡ false }
{
    let mut octets = Vec::new(alloc);
    let metadata = metadata(alloc, header.number, size)?;
    write_metadata(header, &metadata, &mut octets)?;
    Ok(octets)
}

/// A File Data PDU with the first octets of a file.
pub fn data_pdu(alloc: Global, header: &Header) -> Result<Vec<u8>, CostFault>
    requires header { IsHeader header.now }
    requires large { header.now.large ≡ false }
{
    let mut piece = Vec::with_capacity(alloc, DATA_PIECE as usize)?;
    for at in 0..DATA_PIECE {
        piece.push((at.wrapping_mul(37) % 251) as u8)?;
    }
    let data = FileData {
        offset: 0,
        octets: piece,
    };
    let mut octets = Vec::new(alloc);
    write_file_data(header, &data, &mut octets)?;
    Ok(octets)
}

/// Writes the number of its transaction into a PDU.
pub fn set_number(pdu: &mut [u8], number: u32) {
    if let Some(field) = pdu.get_mut(NUMBER_AT..NUMBER_AT + 4) {
        field.copy_from_slice(&number.to_be_bytes());
    }
}

/// Writes the offset of its octets into a File Data PDU.
pub fn set_offset(pdu: &mut [u8], offset: u32) {
    if let Some(field) = pdu.get_mut(OFFSET_AT..OFFSET_AT + 4) {
        field.copy_from_slice(&offset.to_be_bytes());
    }
}
