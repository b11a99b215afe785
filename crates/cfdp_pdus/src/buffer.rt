//! Writing parts of a PDU into a buffer that has room for them.

ghost use Rattle.std.specs.Prelude.{◌≡◌, ◌≤◌, ◌<◌, ◌+◌, ◌*◌, ◌^◌, length};
ghost use Rattle.byteorder.specs.Endian.{big_bytes};
ghost use Rattle.cfdp_pdus.specs.Canonical.{IsHeader, header_octets};
ghost use Rattle.cfdp_pdus.specs.BufferParts.{filled, with_octets_at};

use crate::Header;
use byteorder::{BigEndian, ByteOrder};

/// Writes octets at an offset. The rest of the buffer stays. Cost: the octets.
pub fn put_octets(out: &mut [u8], at: usize, octets: &[u8])
    requires { at + length octets.now ≤ length out.old }
    ensures { out.new ≡ with_octets_at out.old at octets.now }
{
    out[at..at + octets.len()].copy_from_slice(octets);
}

/// Writes a number of `len` octets at an offset, the most significant first. The rest of the buffer stays.
pub fn put_number(out: &mut [u8], at: usize, number: u64, len: usize)
    requires low { 1 ≤ len }
    requires high { len ≤ 8 }
    requires fits { number < 256 ^ len }
    requires room { at + len ≤ length out.old }
    ensures { out.new ≡ with_octets_at out.old at (big_bytes len number) }
{
    BigEndian::write_uint(&mut out[at..], number, len);
}

/// Writes the header (CCSDS 727.0-B-5 §5.1) of a PDU whose data field has `len` octets to the front of a buffer: the
/// version is 001, the CRC flag, the segmentation control bit and the segment metadata flag are 0. The rest of the
/// buffer stays.
pub fn put_header(out: &mut [u8], file_data: bool, header: &Header, len: u16)
    requires valid { IsHeader header.now }
    requires room { 4 + 2 * header.now.id_len + header.now.number_len ≤ length out.old }
    ensures { out.new ≡ filled (header_octets file_data header.now len) out.old }
{
    let kind = 16 * u8::from(file_data);
    let direction = 8 * u8::from(header.toward_sender);
    let mode = 4 * u8::from(!header.acknowledged);
    let id_len = usize::from(header.id_len);
    let number_len = usize::from(header.number_len);
    put_octets(
        out,
        0,
        &[32 + kind + direction + mode + u8::from(header.large)],
    );
    put_number(out, 1, u64::from(len), 2);
    put_octets(
        out,
        3,
        &[16 * (header.id_len - 1) + (header.number_len - 1)],
    );
    put_number(out, 4, header.source, id_len);
    put_number(out, 4 + id_len, header.number, number_len);
    put_number(out, 4 + id_len + number_len, header.destination, id_len);
}
