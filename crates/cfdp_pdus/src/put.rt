//! Appending parts of a PDU where the room has been made, so that nothing can fail.

ghost use Rattle.std.specs.Prelude.{◌≡◌, ◌≤◌, ◌<◌, ◌+◌, ◌*◌, ◌^◌, ◌++◌, length, vec_len};
ghost use Rattle.std.specs.Vec.{vec_capacity};
ghost use Rattle.byteorder.specs.Endian.{big_bytes};
ghost use Rattle.cfdp_pdus.specs.Canonical.{IsHeader, header_octets, location, fault_location};
ghost use Rattle.std.specs.Option.{ForSome};

use crate::Header;
use crate::buffer::put_header;
use byteorder::{BigEndian, ByteOrder};
use cfdp_tlv::ENTITY_ID;

/// The longest data field, in octets: its length is two octets.
pub const MAX_FIELD_LEN: usize = 65_535;

/// The longest header, in octets.
const MAX_HEADER_LEN: usize = 28;

/// Appends a number of `len` octets, the most significant first. There is room for them, so no memory is asked for.
pub fn push_number(out: &mut Vec<u8>, number: u64, len: usize)
    requires low { 1 ≤ len }
    requires high { len ≤ 8 }
    requires fits { number < 256 ^ len }
    requires room { vec_len out.old + len ≤ vec_capacity out.old }
    ensures items { out.new.items ≡ out.old.items ++ big_bytes len number }
    ensures len { vec_len out.new ≡ vec_len out.old + len }
    ensures capacity { vec_capacity out.old ≤ vec_capacity out.new }
{
    let mut octets = [0u8; 8];
    BigEndian::write_uint(&mut octets, number, len);
    out.extend_from_slice(&octets[..len]).unwrap();
}

/// Appends an entity ID as a fault location.
fn push_location(out: &mut Vec<u8>, entity: u64, id_len: u8)
    requires low { 1 ≤ id_len }
    requires high { id_len ≤ 8 }
    requires fits { entity < 256 ^ id_len }
    requires room { vec_len out.old + (id_len + 2) ≤ vec_capacity out.old }
    ensures items { out.new.items ≡ out.old.items ++ location id_len entity }
    ensures len { vec_len out.new ≡ vec_len out.old + (id_len + 2) }
    ensures capacity { vec_capacity out.old ≤ vec_capacity out.new }
{
    out.push_reserved(ENTITY_ID);
    out.push_reserved(id_len);
    push_number(out, entity, usize::from(id_len));
}

/// How many octets a fault location takes, where there is one.
pub fn fault_len(fault: Option<u64>, id_len: u8) -> usize
    ensures value { result ≡ length (fault_location id_len fault) }
    ensures bound { result ≤ id_len + 2 }
{
    match fault {
        None => 0,
        Some(_) => usize::from(id_len) + 2,
    }
}

/// Appends a fault location, where there is one.
pub fn push_fault(out: &mut Vec<u8>, fault: Option<u64>, id_len: u8)
    requires low { 1 ≤ id_len }
    requires high { id_len ≤ 8 }
    requires sized { ForSome fault (λ entity. entity < 256 ^ id_len) }
    requires room { vec_len out.old + length (fault_location id_len fault) ≤ vec_capacity out.old }
    ensures items { out.new.items ≡ out.old.items ++ fault_location id_len fault }
    ensures capacity { vec_capacity out.old ≤ vec_capacity out.new }
{
    if let Some(entity) = fault {
        push_location(out, entity, id_len);
    }
}

/// How many octets a header has: 7 to 28.
pub fn header_len(header: &Header) -> usize
    ensures { result ≡ 4 + 2 * header.now.id_len + header.now.number_len }
{
    4 + 2 * usize::from(header.id_len) + usize::from(header.number_len)
}

/// Appends the header (CCSDS 727.0-B-5 §5.1) of a PDU whose data field has `len` octets: the version is 001, the CRC
/// flag, the segmentation control bit and the segment metadata flag are 0. There is room for it, so no memory is asked
/// for.
pub fn push_header(out: &mut Vec<u8>, file_data: bool, header: &Header, len: u16)
    requires valid { IsHeader header.now }
    requires room { vec_len out.old + (4 + 2 * header.now.id_len + header.now.number_len) ≤ vec_capacity out.old }
    ensures items { out.new.items ≡ out.old.items ++ header_octets file_data header.now len }
    ensures len { vec_len out.new ≡ vec_len out.old + (4 + 2 * header.now.id_len + header.now.number_len) }
    ensures capacity { vec_capacity out.old ≤ vec_capacity out.new }
{
    let mut octets = [0u8; MAX_HEADER_LEN];
    put_header(&mut octets, file_data, header, len);
    out.extend_from_slice(&octets[..header_len(header)])
        .unwrap();
}
