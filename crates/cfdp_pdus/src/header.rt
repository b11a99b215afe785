//! The header of every PDU.

ghost use Rattle.std.specs.Prelude.{◌≡◌};
ghost use Rattle.cfdp_pdus.specs.First.{start_at, header_at};

use crate::PduFault;
use crate::number::{bit, read_number};
use byteorder::{BigEndian, ByteOrder};
use std::marker::Model;

/// The fixed PDU header (CCSDS 727.0-B-5 §5.1), without what says where its parts lie.
#[derive(Clone, Copy, Debug, PartialEq, Eq)]
pub struct Header {
    /// The direction: toward the file sender, and not the file receiver.
    pub toward_sender: bool,
    /// The transmission mode: acknowledged, and not unacknowledged.
    pub acknowledged: bool,
    /// The large file flag: sizes and offsets have 64 bits, and not 32.
    pub large: bool,
    /// The length of an entity ID, 1 to 8 octets.
    pub id_len: u8,
    /// The length of the transaction sequence number, 1 to 8 octets.
    pub number_len: u8,
    /// The source entity ID.
    pub source: u64,
    /// The transaction sequence number.
    pub number: u64,
    /// The destination entity ID.
    pub destination: u64,
}

/// A PDU taken apart (CCSDS 727.0-B-5 §5.1): its header, what kind of PDU it is, and its data field.
#[derive(Debug, Drop)]
pub struct Start<'a> {
    /// A File Data PDU, and not a directive.
    pub file_data: bool,
    /// The segment metadata flag.
    pub segment_metadata: bool,
    /// The header.
    pub header: Header,
    /// The data field, whole.
    pub field: &'a [u8],
}

impl<'a> Model for Start<'a> {
    ghost use Rattle.cfdp_pdus.specs.First.{Start as StartFields};

    ghost Value = { StartFields };

    ghost view = { λ s. record {
      file_data = s.file_data;
      segment_metadata = s.segment_metadata;
      header = s.header;
      field = s.field.now;
    } };
}

/// Takes a PDU apart: its header (CCSDS 727.0-B-5 §5.1), and the data field that is lent. The data field is not looked
/// at. Takes no memory. Cost: constant.
///
/// # Errors
///
/// The first of: Truncated (no octet), BadVersion, CrcNotSupported, Truncated (the header is cut, or the data field is
/// shorter than the header says), LengthMismatch (it is longer).
#[tactic(auto, unfolding(crate::specs::First::start_at))]
pub fn read_start(octets: &[u8]) -> Result<Start<'_>, PduFault>
    ensures { result ≡ start_at octets.now }
{
    let [first, rest @ ..] = octets else {
        return Err(PduFault::Truncated);
    };
    if *first >> 5 != 1 {
        return Err(PduFault::BadVersion);
    }
    if bit(*first, 1) {
        return Err(PduFault::CrcNotSupported);
    }
    read_header(*first, rest)
}

/// The header after its first octet.
#[tactic(auto, unfolding(crate::specs::First::header_at))]
fn read_header(first: u8, octets: &[u8]) -> Result<Start<'_>, PduFault>
    ensures { result ≡ header_at first octets.now }
{
    let [high, low, fourth, rest @ ..] = octets else {
        return Err(PduFault::Truncated);
    };
    let len = usize::from(BigEndian::read_u16(&[*high, *low]));
    let id_len = (*fourth >> 4) % 8 + 1;
    let number_len = *fourth % 8 + 1;
    let (source, rest) = read_number(rest, usize::from(id_len), PduFault::Truncated)?;
    let (number, rest) = read_number(rest, usize::from(number_len), PduFault::Truncated)?;
    let (destination, field) = read_number(rest, usize::from(id_len), PduFault::Truncated)?;
    if field.len() < len {
        return Err(PduFault::Truncated);
    }
    if field.len() > len {
        return Err(PduFault::LengthMismatch);
    }
    Ok(Start {
        file_data: bit(first, 4),
        segment_metadata: bit(*fourth, 3),
        header: Header {
            toward_sender: bit(first, 3),
            acknowledged: !bit(first, 2),
            large: bit(first, 0),
            id_len,
            number_len,
            source,
            number,
            destination,
        },
        field,
    })
}
