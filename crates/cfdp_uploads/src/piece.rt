//! A File Data PDU whose octets lie in the file.

ghost use Rattle.std.specs.Prelude.{◌≡◌, ◌≤◌, ◌+◌, ◌++◌, length, vec_len, true, IfErr, OnOk, OnErr};
ghost use Rattle.std.specs.Vec.{vec_capacity};
ghost use Rattle.cfdp_pdus.specs.Bits.{fss};
ghost use Rattle.cfdp_pdus.specs.Canonical.{IsHeader, IsSizedFileData, pdu_octets, file_data_field};
ghost use Rattle.cfdp_pdus.specs.declared.fault.WriteFault.TheVariants.{Memory};

use cfdp_pdus::{Header, Piece, WriteFault, header_len, push_header, push_number, size_len};

/// Appends a File Data PDU with no segment metadata (CCSDS 727.0-B-5 §5.3). The only fault is `Memory`.
/// Cost: the octets that it appends, and one growth of the vector at most.
#[tactic(auto, unfolding(cfdp_pdus::specs::Canonical::file_data_field))]
pub(crate) fn write_piece(
    header: &Header,
    piece: &Piece<'_>,
    out: &mut Vec<u8>,
) -> Result<(), WriteFault>
    requires header { IsHeader header.now }
    requires sized { IsSizedFileData header.now.large piece.now }
    requires short { length piece.now.octets + fss header.now.large ≤ 65535 }
    ensures ok { OnOk result (out.new.items
        ≡ out.old.items ++ pdu_octets true header.now (file_data_field header.now.large piece.now)) }
    ensures faults { IfErr result (λ fault. fault ≡ Memory) }
    ensures err { OnErr result (out.new.items ≡ out.old.items) }
    ensures capacity { vec_capacity out.old ≤ vec_capacity out.new }
{
    let size_len = size_len(header.large);
    let len = size_len + piece.octets.len();
    out.reserve(header_len(header) + len)?;
    push_header(out, true, header, len as u16);
    push_number(out, piece.offset, size_len);
    out.extend_from_slice(piece.octets).unwrap();
    Ok(())
}
