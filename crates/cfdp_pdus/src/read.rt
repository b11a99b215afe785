//! Reading a whole PDU.

ghost use Rattle.std.specs.Prelude.{◌≡◌, ◌⊎◌, IfOk, IfNone, IfSome, Ok, Err};
ghost use Rattle.cfdp_tlv.specs.Reading.{Gives};
ghost use Rattle.cfdp_pdus.specs.First.{directive_at, field_at, pdu_at};
ghost use Rattle.cfdp_pdus.specs.Grammar.{SpellsPdu};
ghost use Rattle.cfdp_pdus.specs.Receiving.{received, received_of, IsCopied, IsLeanToReceive};
ghost use Rattle.cfdp_pdus.specs.code.Receiving.{ReceivesLean};
ghost use Rattle.cfdp_pdus.specs.Sound.{IsSound, IsLean, IsNoFileData};
ghost use Rattle.cfdp_pdus.specs.code.Sound.{GivesLean};
ghost use Rattle.cfdp_pdus.specs.declared.pdu.Pdu.{Pdu as PduValue};
ghost use Rattle.cfdp_pdus.specs.declared.pdu.Pdu.TheVariants.{FileData as FileDataCame};
ghost use Rattle.cfdp_pdus.specs.declared.fault.PduFault.TheVariants.{Memory};

use crate::directive::{ACK, EOF, FINISHED, KEEP_ALIVE, METADATA, NAK, PROMPT};
use crate::eof::read_eof;
use crate::file_data::{find_piece, read_file_data};
use crate::finished::{check_finished, read_finished};
use crate::header::{Start, read_start};
use crate::metadata::read_metadata;
use crate::{Header, Pdu, PduFault, Piece};
use std::alloc::Global;

/// A directive's data field.
#[tactic(auto, unfolding(crate::specs::First::directive_at))]
fn read_directive(alloc: Global, header: Header, field: &[u8]) -> Result<Pdu, PduFault>
    ensures exact { Gives Memory (λ pdu. pdu) result (directive_at header field.now) }
    ensures lean { GivesLean (directive_at header field.now) → result ≡ directive_at header field.now }
{
    let [code, rest @ ..] = field else {
        return Err(PduFault::LengthMismatch);
    };
    match *code {
        METADATA => Ok(Pdu::Metadata(header, read_metadata(alloc, header.large, rest)?)),
        EOF => Ok(Pdu::Eof(header, read_eof(header.large, rest)?)),
        FINISHED => Ok(Pdu::Finished(header, read_finished(alloc, rest)?)),
        ACK | NAK | PROMPT | KEEP_ALIVE => Ok(Pdu::NotOurs(header, *code)),
        _ => Err(PduFault::BadDirective),
    }
}

/// The data field of a PDU.
#[tactic(auto, unfolding(crate::specs::First::field_at))]
fn read_field(alloc: Global, start: &Start<'_>) -> Result<Pdu, PduFault>
    ensures exact { Gives Memory (λ pdu. pdu) result (field_at start.now) }
    ensures lean { GivesLean (field_at start.now) → result ≡ field_at start.now }
{
    let header = start.header;
    if start.file_data {
        return Ok(Pdu::FileData(header, read_file_data(alloc, start)?));
    }
    read_directive(alloc, header, start.field)
}

/// The header and the data field of a File Data PDU, where its octets lie; `None` exactly where the octets spell
/// another PDU, or none (CCSDS 727.0-B-5 §5.3). Takes no memory, and looks at no octet of the file.
#[tactic(auto, unfolding(crate::specs::First::field_at))]
pub fn read_piece(octets: &[u8]) -> Option<(Header, Piece<'_>)>
    ensures found { IfSome result (λ found. pdu_at octets.now ≡ Ok (FileDataCame found.0 found.1)) }
    ensures none { IfNone result (IsNoFileData (pdu_at octets.now)) }
{
    let Ok(start) = read_start(octets) else {
        return None;
    };
    if !start.file_data {
        return None;
    }
    match find_piece(&start) {
        Ok(piece) => Some((start.header, piece)),
        Err(_) => None,
    }
}

/// What [`read_pdu`] returns.
fn read_whole(alloc: Global, octets: &[u8]) -> Result<Pdu, PduFault>
    ensures exact { Gives Memory (λ pdu. pdu) result (pdu_at octets.now) }
    ensures lean { GivesLean (pdu_at octets.now) → result ≡ pdu_at octets.now }
{
    let start = read_start(octets)?;
    read_field(alloc, &start)
}

/// The PDU that the octets spell (CCSDS 727.0-B-5 §5.1 to §5.3).
///
/// The faults come in this order: no octet (`Truncated`), another version than 001 (`BadVersion`), a CRC
/// (`CrcNotSupported`), a header that is cut (`Truncated`), fewer octets after the header than its data field length
/// (`Truncated`), more (`LengthMismatch`). Then, inside the data field: no directive code (`LengthMismatch`), a code
/// that is not listed (`BadDirective`), fixed fields, segment metadata or names past its end (`LengthMismatch`). Then
/// the TLV fields from the left: one that is cut, a filestore request or response that is none, an entity ID of another
/// length than 1 to 8 (`BadTlv`), a request value of 255 octets (`RequestTooLong`). All of this is found before memory
/// is asked for. So `Memory` is returned only for octets that spell a PDU, and never for an EOF PDU or for one that is
/// not ours.
///
/// It goes over the octets twice at most: once without memory, and, where they spell a PDU, once to
/// copy what is handed out.
pub fn read_pdu(alloc: Global, octets: &[u8]) -> Result<Pdu, PduFault>
    // What is read is spelled so.
    ensures found { IfOk result (SpellsPdu octets.now) }
    // What is spelled so is read, unless memory runs out.
    ensures only { (pdu : PduValue) → SpellsPdu octets.now pdu → (result ≡ Ok pdu) ⊎ (result ≡ Err Memory) }
    // Which fault it is: `Memory` is only returned instead of a PDU.
    ensures exact { Gives Memory (λ pdu. pdu) result (pdu_at octets.now) }
    // An EOF PDU, and one that is not ours, are read without memory.
    ensures lean { (pdu : PduValue) → SpellsPdu octets.now pdu → IsLean pdu → result ≡ Ok pdu }
    // What is read can be written, and answered.
    ensures sound { IfOk result IsSound }
{
    read_whole(alloc, octets)
}

/// A directive as a file's receiver reads it: none for a Finished PDU, which is only checked.
#[tactic(auto, unfolding(crate::specs::First::directive_at))]
fn receive_directive(alloc: Global, header: Header, field: &[u8]) -> Result<Option<Pdu>, PduFault>
    ensures exact { Gives Memory (λ returned. returned) result (received_of (directive_at header field.now)) }
    ensures lean { ReceivesLean (directive_at header field.now) → result ≡ received_of (directive_at header field.now) }
{
    if let [FINISHED, rest @ ..] = field {
        return check_finished(rest).map(|()| None);
    }
    read_directive(alloc, header, field).map(Some)
}

/// What [`read_for_receiver`] returns.
#[tactic(auto, unfolding(crate::specs::First::field_at))]
fn receive_whole(alloc: Global, octets: &[u8]) -> Result<Option<Pdu>, PduFault>
    ensures exact { Gives Memory (λ returned. returned) result (received_of (pdu_at octets.now)) }
    ensures lean { ReceivesLean (pdu_at octets.now) → result ≡ received_of (pdu_at octets.now) }
{
    let start = read_start(octets)?;
    if start.file_data {
        return read_field(alloc, &start).map(Some);
    }
    receive_directive(alloc, start.header, start.field)
}

/// The PDU that the octets spell, as the receiver of a file takes it: `None` exactly where they spell a Finished PDU,
/// which only the file's sender takes (CCSDS 727.0-B-5 §5.2.3). Its fields are judged as those of each other PDU.
///
/// The faults are those of [`read_pdu`], in the same cases, but `Memory` is only returned instead of a Metadata PDU or
/// of a File Data PDU: the others are read without memory.
///
/// Cost: that of [`read_pdu`], and of a Finished PDU one pass over its octets.
pub fn read_for_receiver(alloc: Global, octets: &[u8]) -> Result<Option<Pdu>, PduFault>
    // What is read is spelled so.
    ensures found { IfOk result (λ returned. IfSome returned (SpellsPdu octets.now)) }
    // What is spelled so is reported, unless memory runs out.
    ensures only { (pdu : PduValue) → SpellsPdu octets.now pdu → (result ≡ Ok (received pdu)) ⊎ (result ≡ Err Memory) }
    // Which fault it is: `Memory` is only returned instead of a PDU.
    ensures exact { Gives Memory (λ returned. returned) result (received_of (pdu_at octets.now)) }
    // An EOF PDU, a Finished PDU, and one that is not ours, are read without memory.
    ensures lean { (pdu : PduValue) → SpellsPdu octets.now pdu → IsLeanToReceive pdu → result ≡ Ok (received pdu) }
    // Memory runs out only where a Metadata PDU or a File Data PDU is spelled.
    ensures memory { result ≡ Err Memory → IsCopied (pdu_at octets.now) }
    // What is read can be written, and answered.
    ensures sound { IfOk result (λ returned. IfSome returned IsSound) }
{
    receive_whole(alloc, octets)
}
