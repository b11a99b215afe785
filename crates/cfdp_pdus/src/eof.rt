//! The EOF PDU, which says what the whole file is.

ghost use Rattle.std.specs.Prelude.{◌≡◌, ◌≤◌, ◌<◌, ◌+◌, ◌^◌, ◌++◌, length, vec_len, false, IfErr, OnOk, OnErr, IsOk};
ghost use Rattle.std.specs.Vec.{vec_capacity};
ghost use Rattle.cfdp_tlv.specs.Reading.{Answers};
ghost use Rattle.cfdp_pdus.specs.First.{eof_at};
ghost use Rattle.cfdp_pdus.specs.Canonical.{IsHeader, IsSizedEof, pdu_octets, eof_field, eof_location, fault_location};
ghost use Rattle.std.specs.Option.{ForSome};
ghost use Rattle.cfdp_pdus.specs.declared.fault.WriteFault.TheVariants.{Memory};

use crate::condition::NO_ERROR;
use crate::directive::EOF;
use crate::field::check_fields;
use crate::number::{read_number, size_len};
use crate::put::{fault_len, header_len, push_fault, push_header, push_number};
use crate::{Header, PduFault, WriteFault};

/// An EOF PDU's data field (CCSDS 727.0-B-5 §5.2.2), its fault location apart.
#[derive(Clone, Copy, Debug, PartialEq, Eq)]
pub struct Eof {
    /// The condition code, 0 to 15.
    pub condition: u8,
    /// The file's checksum.
    pub checksum: u32,
    /// The file's size in octets.
    pub size: u64,
}

/// An EOF PDU's data field after its directive code.
#[tactic(auto, unfolding(crate::specs::First::eof_at))]
pub fn read_eof(large: bool, octets: &[u8]) -> Result<Eof, PduFault>
    ensures { Answers (λ eof. eof) result (eof_at large octets.now) }
{
    let [condition, rest @ ..] = octets else {
        return Err(PduFault::LengthMismatch);
    };
    let (checksum, rest) = read_number(rest, 4, PduFault::LengthMismatch)?;
    let (size, rest) = read_number(rest, size_len(large), PduFault::LengthMismatch)?;
    check_fields(rest)?;
    Ok(Eof {
        condition: *condition >> 4,
        checksum: checksum as u32,
        size,
    })
}

/// The fault location: the source entity, where the condition is not 0.
fn fault_in(header: &Header, eof: &Eof) -> Option<u64>
    requires { IsHeader header.now }
    ensures location { fault_location header.now.id_len result ≡ eof_location header.now eof.now }
    ensures sized { ForSome result (λ entity. entity < 256 ^ header.now.id_len) }
{
    if eof.condition == NO_ERROR {
        return None;
    }
    Some(header.source)
}

/// Appends an EOF PDU, with the source entity as fault location where the condition is not 0
/// (CCSDS 727.0-B-5 §5.2.2).
///
/// The only fault is `Memory`, since an EOF PDU always fits its length field.
/// Cost: the octets that it appends, and one growth of the vector at most.
#[tactic(auto, unfolding(crate::specs::Canonical::eof_field))]
pub fn write_eof(header: &Header, eof: &Eof, out: &mut Vec<u8>) -> Result<(), WriteFault>
    requires header { IsHeader header.now }
    requires sized { IsSizedEof header.now.large eof.now }
    ensures ok { OnOk result (out.new.items ≡ out.old.items
        ++ pdu_octets false header.now (eof_field header.now eof.now)) }
    ensures faults { IfErr result (λ fault. fault ≡ Memory) }
    ensures err { OnErr result (out.new.items ≡ out.old.items) }
    // Where there is room for it, memory isn't asked for.
    ensures room { vec_len out.old + length (pdu_octets false header.now (eof_field header.now eof.now)) ≤ vec_capacity
        out.old → IsOk result }
    ensures capacity { vec_capacity out.old ≤ vec_capacity out.new }
{
    let size_len = size_len(header.large);
    let fault = fault_in(header, eof);
    let len = 6 + size_len + fault_len(fault, header.id_len);
    out.reserve(header_len(header) + len)?;
    push_header(out, false, header, len as u16);
    out.push_reserved(EOF);
    out.push_reserved(16 * eof.condition);
    push_number(out, u64::from(eof.checksum), 4);
    push_number(out, eof.size, size_len);
    push_fault(out, fault, header.id_len);
    Ok(())
}
