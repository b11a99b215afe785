//! Writing a directive, as its header and its data field.

ghost use Rattle.std.specs.Prelude.{◌≡◌, ◌≤◌, ◌+◌, ◌++◌, ◌↔◌, length, replicate, vec_len, false, IfErr, IfSome, IfNone, OnOk, OnErr, OnSome, IsOk, IsSome};
ghost use Rattle.std.specs.Vec.{vec_capacity};
ghost use Rattle.cfdp_pdus.specs.Canonical.{IsHeader, pdu_octets};
ghost use Rattle.cfdp_pdus.specs.declared.fault.WriteFault.TheVariants.{Memory};
ghost use Rattle.cfdp_pdus.specs.BufferParts.{filled};

use cfdp_pdus::{Header, WriteFault, header_len, put_header, put_octets};

/// Appends zeros, and asks for their room once.
pub(crate) fn add_room(out: &mut Vec<u8>, len: usize) -> Result<(), WriteFault>
    ensures ok { OnOk result (out.new.items ≡ out.old.items ++ replicate len 0) }
    ensures faults { IfErr result (λ fault. fault ≡ Memory) }
    ensures err { OnErr result (out.new.items ≡ out.old.items) }
    ensures room { vec_len out.old + len ≤ vec_capacity out.old → IsOk result }
    ensures capacity { vec_capacity out.old ≤ vec_capacity out.new }
{
    let len = out.len().checked_add(len).ok_or(WriteFault::Memory)?;
    Ok(out.resize(len, 0)?)
}

/// How many octets a PDU has.
fn pdu_len(header: &Header, field: &[u8]) -> usize
    requires header { IsHeader header.now }
    requires len { length field.now ≤ 65535 }
    ensures { result ≡ length (pdu_octets false header.now field.now) }
{
    header_len(header) + field.len()
}

/// Writes a directive's header and data field to the front of a buffer that has room for them.
fn fill_pdu(header: &Header, field: &[u8], out: &mut [u8])
    requires header { IsHeader header.now }
    requires len { length field.now ≤ 65535 }
    requires room { length (pdu_octets false header.now field.now) ≤ length out.old }
    ensures { out.new ≡ filled (pdu_octets false header.now field.now) out.old }
{
    put_header(out, false, header, field.len() as u16);
    put_octets(out, header_len(header), field);
}

/// Writes a directive's header and data field to the front of a buffer, and returns how many octets they have. Returns
/// `None`, and writes nothing, exactly where the buffer is too short.
pub(crate) fn put_pdu(header: &Header, field: &[u8], out: &mut [u8]) -> Option<usize>
    requires header { IsHeader header.now }
    requires len { length field.now ≤ 65535 }
    ensures fits { IsSome result ↔ (length (pdu_octets false header.now field.now) ≤ length out.old) }
    ensures len { IfSome result (λ len. len ≡ length (pdu_octets false header.now field.now)) }
    ensures written { OnSome result (out.new ≡ filled (pdu_octets false header.now field.now) out.old) }
    ensures unchanged { IfNone result (out.new ≡ out.old) }
{
    let len = pdu_len(header, field);
    if out.len() < len {
        return None;
    }
    fill_pdu(header, field, out);
    Some(len)
}

/// Appends a directive's header and data field.
pub(crate) fn write_pdu(header: &Header, field: &[u8], out: &mut Vec<u8>) -> Result<(), WriteFault>
    requires header { IsHeader header.now }
    requires len { length field.now ≤ 65535 }
    ensures ok { OnOk result (out.new.items ≡ out.old.items ++ pdu_octets false header.now field.now) }
    ensures faults { IfErr result (λ fault. fault ≡ Memory) }
    ensures err { OnErr result (out.new.items ≡ out.old.items) }
    ensures room { vec_len out.old + length (pdu_octets false header.now field.now) ≤ vec_capacity out.old
        → IsOk result }
    ensures capacity { vec_capacity out.old ≤ vec_capacity out.new }
{
    let start = out.len();
    add_room(out, pdu_len(header, field))?;
    fill_pdu(header, field, &mut out.as_mut_slice()[start..]);
    Ok(())
}
