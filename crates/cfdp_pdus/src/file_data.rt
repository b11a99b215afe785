//! The File Data PDU, which brings a piece of the file.

ghost use Rattle.std.specs.Prelude.{◌≡◌, ◌≤◌, ◌<◌, ◌+◌, ◌⊎◌, ◌↔◌, ◌++◌, length, vec_len, true, false, IfErr, OnOk, OnErr, IsErrOf, IsOk};
ghost use Rattle.std.specs.Vec.{vec_capacity};
ghost use Rattle.cfdp_tlv.specs.Reading.{Answers, Gives};
ghost use Rattle.cfdp_pdus.specs.First.{after_segment, file_data_at};
ghost use Rattle.cfdp_pdus.specs.Canonical.{IsHeader, IsSizedFileData, pdu_octets, file_data_field, file_data_fits};
ghost use Rattle.cfdp_pdus.specs.declared.fault.PduFault.TheVariants.{Memory as OutOfMemory};
ghost use Rattle.cfdp_pdus.specs.declared.fault.WriteFault.TheVariants.{TooLong, Memory};

use crate::header::Start;
use crate::number::{read_number, size_len};
use crate::put::{MAX_FIELD_LEN, header_len, push_header, push_number};
use crate::{Header, PduFault, WriteFault};
use std::alloc::Global;
use std::marker::Model;

/// A File Data PDU's data field (CCSDS 727.0-B-5 §5.3). A contract sees its octets as a list.
#[derive(Debug, Drop)]
pub struct FileData {
    /// Where the octets are in the file, from 0.
    pub offset: u64,
    /// The octets, which may be none.
    pub octets: Vec<u8>,
}

impl Model for FileData {
    ghost use Rattle.cfdp_pdus.specs.Values.{FileDataFields};

    ghost Value = { FileDataFields };

    ghost view = { λ d. record { offset = d.offset; octets = d.octets.items } };
}

impl PartialEq for FileData {
    ghost use Rattle.cfdp_pdus.specs.Equality.{same_file_data};
    ghost use Rattle.cfdp_pdus.specs.code.Equality.{file_data_per};

    ghost eq = { same_file_data };

    ghost laws = { file_data_per };

    fn eq(&self, other: &FileData) -> bool {
        self.offset == other.offset && self.octets == other.octets
    }
}

impl Eq for FileData {
    ghost use Rattle.cfdp_pdus.specs.code.Equality.{file_data_equiv};

    ghost laws = { file_data_equiv };
}

/// A File Data PDU's data field (CCSDS 727.0-B-5 §5.3). Its octets are borrowed from the PDU. Contracts see the same
/// value as for [`FileData`].
#[derive(Debug, Drop)]
pub struct Piece<'a> {
    /// Where the octets are in the file, from 0.
    pub offset: u64,
    /// The octets, which may be none.
    pub octets: &'a [u8],
}

impl<'a> Model for Piece<'a> {
    ghost use Rattle.cfdp_pdus.specs.Values.{FileDataFields};

    ghost Value = { FileDataFields };

    ghost view = { λ p. record { offset = p.offset; octets = p.octets.now } };
}

impl FileData {
    /// This data field, with its octets lent. Costs nothing.
    pub fn piece(&self) -> Piece<'_>
        ensures { result ≡ self.now }
    {
        Piece {
            offset: self.offset,
            octets: &self.octets,
        }
    }
}

/// What is after the continuation state and the segment metadata, where there are any.
#[tactic(auto, unfolding(crate::specs::First::after_segment))]
fn skip_segment(segment_metadata: bool, octets: &[u8]) -> Result<&[u8], PduFault>
    ensures { Answers (λ rest. rest.now) result (after_segment segment_metadata octets.now) }
{
    if !segment_metadata {
        return Ok(octets);
    }
    let [state, rest @ ..] = octets else {
        return Err(PduFault::LengthMismatch);
    };
    let len = usize::from(*state % 64);
    if rest.len() < len {
        return Err(PduFault::LengthMismatch);
    }
    Ok(&rest[len..])
}

/// A File Data PDU's data field, whose octets stay where they are.
#[tactic(auto, unfolding(crate::specs::First::file_data_at))]
pub fn find_piece<'a>(start: &Start<'a>) -> Result<Piece<'a>, PduFault>
    ensures { Answers (λ piece. piece) result
        (file_data_at start.now.header.large start.now.segment_metadata start.now.field) }
{
    let rest = skip_segment(start.segment_metadata, start.field)?;
    let number_len = size_len(start.header.large);
    let (offset, octets) = read_number(rest, number_len, PduFault::LengthMismatch)?;
    Ok(Piece { offset, octets })
}

/// A File Data PDU's data field.
pub fn read_file_data(alloc: Global, start: &Start<'_>) -> Result<FileData, PduFault>
    ensures { Gives OutOfMemory (λ file_data. file_data) result
        (file_data_at start.now.header.large start.now.segment_metadata start.now.field) }
{
    let piece = find_piece(start)?;
    Ok(FileData {
        offset: piece.offset,
        octets: Vec::from_slice(alloc, piece.octets)?,
    })
}

/// Appends a File Data PDU, with no segment metadata (CCSDS 727.0-B-5 §5.3).
///
/// The faults are `TooLong`, where the data field has more than 65,535 octets, and `Memory`.
/// Cost: the octets that it appends, and one growth of the vector at most.
#[tactic(auto, unfolding(crate::specs::Canonical::file_data_field, crate::specs::Canonical::file_data_fits))]
pub fn write_file_data(
    header: &Header,
    file_data: &FileData,
    out: &mut Vec<u8>,
) -> Result<(), WriteFault>
    requires header { IsHeader header.now }
    requires sized { IsSizedFileData header.now.large file_data.now }
    ensures ok { OnOk result (out.new.items ≡ out.old.items
        ++ pdu_octets true header.now (file_data_field header.now.large file_data.now)) }
    ensures too_long { IsErrOf result TooLong ↔ (file_data_fits header.now.large file_data.now ≡ false) }
    ensures faults { IfErr result (λ fault. (fault ≡ TooLong) ⊎ (fault ≡ Memory)) }
    ensures err { OnErr result (out.new.items ≡ out.old.items) }
    // Where there is room for it, memory isn't asked for.
    ensures room { file_data_fits header.now.large file_data.now ≡ true → vec_len out.old
        + length (pdu_octets true header.now (file_data_field header.now.large file_data.now)) ≤ vec_capacity out.old →
        IsOk result }
    ensures capacity { vec_capacity out.old ≤ vec_capacity out.new }
{
    let size_len = size_len(header.large);
    let len = file_data.octets.len().saturating_add(size_len);
    if len > MAX_FIELD_LEN {
        return Err(WriteFault::TooLong);
    }
    out.reserve(header_len(header) + len)?;
    push_header(out, true, header, len as u16);
    push_number(out, file_data.offset, size_len);
    out.extend_from_slice(&file_data.octets).unwrap();
    Ok(())
}
