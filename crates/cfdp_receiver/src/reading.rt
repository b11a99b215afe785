//! What octets that came bring.

ghost use Rattle.std.specs.Prelude.{◌≡◌, ◌⊎◌, ℕ, IfErr, IfNone, IfOk, IfSome, Ok, Err};
ghost use Rattle.cfdp_pdus.specs.Canonical.{IsHeader};
ghost use Rattle.cfdp_pdus.specs.First.{pdu_at};
ghost use Rattle.cfdp_pdus.specs.Sound.{IsNoFileData};
ghost use Rattle.cfdp_pdus.specs.declared.fault.PduFault.TheVariants.{Memory};
ghost use Rattle.cfdp_entity.specs.Hearing.{MayLackMemory};
ghost use Rattle.cfdp_receiver.specs.Heard.{input_at, other_input};
ghost use Rattle.cfdp_receiver.specs.code.Heard.{IsHearable, input_of};
ghost use Rattle.cfdp_receiver.specs.State.{DataPdu};
ghost use Rattle.cfdp_receiver.specs.declared.reading.Dropped.TheVariants.{Crc as CrcDropped, Pdu as PduDropped};

use cfdp_crc::CrcFault;
use cfdp_directives::{Ack, Directive, NakFault, Prompt, read_directive, read_nak};
use cfdp_pdus::{
    Eof, Header, Metadata, Pdu, PduFault, Piece, directive, read_for_receiver, read_piece,
    read_start,
};
use std::alloc::Global;

/// Why octets that came were dropped. The receiver is as before.
#[derive(Clone, Copy, Debug, PartialEq, Eq)]
pub enum Dropped {
    /// The CRC of the PDU is wrong, or it is not whole.
    Crc(CrcFault),
    /// The octets are no PDU; or out of memory, of a Metadata PDU alone.
    Pdu(PduFault),
}

impl From<CrcFault> for Dropped {
    ghost from_gives = { λ fault why. why ≡ CrcDropped fault };

    fn from(fault: CrcFault) -> Dropped {
        Dropped::Crc(fault)
    }
}

impl From<PduFault> for Dropped {
    ghost from_gives = { λ fault why. why ≡ PduDropped fault };

    fn from(fault: PduFault) -> Dropped {
        Dropped::Pdu(fault)
    }
}

/// A PDU that is no File Data PDU, as a receiving entity takes it.
#[derive(Drop)]
pub(crate) enum Directed {
    /// A Metadata PDU.
    Metadata(Header, Metadata),
    /// An EOF PDU.
    Eof(Header, Eof),
    /// An ACK PDU.
    Ack(Header, Ack),
    /// A Prompt PDU.
    Prompt(Header, Prompt),
    /// A NAK, Keep Alive or Finished PDU, which goes toward a sender.
    Other(Header),
}

/// An ACK, NAK, Prompt or Keep Alive PDU, by its directive code.
fn read_other(header: Header, code: u8, octets: &[u8]) -> Result<Directed, PduFault>
    ensures ok { IfOk result (λ directed. (now : ℕ) → other_input now header code octets.now
        ≡ Ok (input_of now directed)) }
    ensures sound { IfOk result IsHearable }
    ensures err { IfErr result (λ fault. (now : ℕ) → other_input now header code octets.now ≡ Err (PduDropped fault)) }
{
    if code == directive::NAK {
        return match read_nak(octets, &mut []) {
            Ok(_) | Err(NakFault::TooMany(_)) => Ok(Directed::Other(header)),
            Err(NakFault::Pdu(fault)) => Err(fault),
        };
    }
    match read_directive(octets)? {
        Directive::Ack(header, ack) => Ok(Directed::Ack(header, ack)),
        Directive::Prompt(header, prompt) => Ok(Directed::Prompt(header, prompt)),
        Directive::KeepAlive(header, _) => Ok(Directed::Other(header)),
    }
}

/// The File Data PDU that the octets spell, if they spell one.
pub(crate) fn read_data(octets: &[u8]) -> Option<(Header, Piece<'_>)>
    ensures some { IfSome result (λ came. (now : ℕ) → input_at now octets.now ≡ Ok (DataPdu now came.0 came.1)) }
    ensures header { IfSome result (λ came. IsHeader came.0) }
    ensures none { IfNone result (IsNoFileData (pdu_at octets.now)) }
{
    read_piece(octets)
}

/// The PDU that the octets spell, but for a File Data PDU.
pub(crate) fn read_directed(alloc: Global, octets: &[u8]) -> Result<Directed, PduFault>
    requires { IsNoFileData (pdu_at octets.now) }
    ensures ok { IfOk result (λ directed. (now : ℕ) → input_at now octets.now ≡ Ok (input_of now directed)) }
    ensures sound { IfOk result IsHearable }
    ensures err { IfErr result (λ fault. ((now : ℕ) → input_at now octets.now ≡ Err (PduDropped fault))
        ⊎ ((fault ≡ Memory) × MayLackMemory octets.now)) }
{
    match read_for_receiver(alloc, octets)? {
        None => Ok(Directed::Other(read_start(octets)?.header)),
        Some(Pdu::Metadata(header, metadata)) => Ok(Directed::Metadata(header, metadata)),
        Some(Pdu::Eof(header, eof)) => Ok(Directed::Eof(header, eof)),
        Some(Pdu::NotOurs(header, code)) => read_other(header, code, octets),
        Some(Pdu::FileData(header, _)) | Some(Pdu::Finished(header, _)) => {
            Ok(Directed::Other(header))
        }
    }
}
