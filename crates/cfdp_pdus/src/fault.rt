//! Why a PDU was not read or written.

ghost use Rattle.std.specs.Prelude.{◌≡◌};

use std::alloc::AllocError;
use std::error::Error;
use std::fmt;

/// Why a PDU was not read.
#[derive(Clone, Copy, Debug, PartialEq, Eq)]
pub enum PduFault {
    /// The octets end before the PDU does.
    Truncated,
    /// The version is not 001.
    BadVersion,
    /// The PDU says that it has a CRC.
    CrcNotSupported,
    /// Octets are after the data field, or the data field is shorter than its fixed part.
    LengthMismatch,
    /// No directive has this code.
    BadDirective,
    /// A TLV field is cut, or its value is not what its type asks for.
    BadTlv,
    /// A filestore request has a value of 255 octets, which no response can repeat.
    RequestTooLong,
    /// Memory ran out.
    Memory,
}

impl fmt::Display for PduFault {
    ghost use Rattle.std.specs.Prelude.{Some};
    ghost use Rattle.cfdp_pdus.specs.Texts.{pdu_fault_text};

    ghost output = { λ fault. Some (pdu_fault_text fault) };

    fn fmt<W: fmt::Write>(&self, f: &mut fmt::Formatter<W>) -> fmt::Result {
        f.write_str(match self {
            PduFault::Truncated => "the PDU is cut",
            PduFault::BadVersion => "the version is not 001",
            PduFault::CrcNotSupported => "the PDU has a CRC",
            PduFault::LengthMismatch => "the data field has another length",
            PduFault::BadDirective => "no directive has this code",
            PduFault::BadTlv => "a TLV field is cut or wrong",
            PduFault::RequestTooLong => "a filestore request is too long",
            PduFault::Memory => "out of memory",
        })
    }
}

impl Error for PduFault {}

impl From<AllocError> for PduFault {
    ghost use Rattle.cfdp_pdus.specs.declared.fault.PduFault.TheVariants.{Memory};

    ghost from_gives = { λ _ e. e ≡ Memory };

    fn from(_e: AllocError) -> PduFault {
        PduFault::Memory
    }
}

/// Why a PDU was not written.
#[derive(Clone, Copy, Debug, PartialEq, Eq)]
pub enum WriteFault {
    /// A name or a value has more than 255 octets, or the data field more than 65,535.
    TooLong,
    /// Memory ran out.
    Memory,
}

impl fmt::Display for WriteFault {
    ghost use Rattle.std.specs.Prelude.{Some};
    ghost use Rattle.cfdp_pdus.specs.Texts.{write_text_of};

    ghost output = { λ fault. Some (write_text_of fault) };

    fn fmt<W: fmt::Write>(&self, f: &mut fmt::Formatter<W>) -> fmt::Result {
        f.write_str(match self {
            WriteFault::TooLong => "a length does not fit its field",
            WriteFault::Memory => "out of memory",
        })
    }
}

impl Error for WriteFault {}

impl From<AllocError> for WriteFault {
    ghost use Rattle.cfdp_pdus.specs.declared.fault.WriteFault.TheVariants.{Memory};

    ghost from_gives = { λ _ e. e ≡ Memory };

    fn from(_e: AllocError) -> WriteFault {
        WriteFault::Memory
    }
}
