//! Why a field was not read or written.

ghost use Rattle.std.specs.Prelude.{◌≡◌};
ghost use Rattle.cfdp_tlv.specs.declared.fault.TlvFault.TheVariants.{Memory};

use std::alloc::AllocError;
use std::error::Error;
use std::fmt;

/// Why a field was not read or written.
#[derive(Clone, Copy, Debug, PartialEq, Eq)]
pub enum TlvFault {
    /// The octets end before the field does.
    Truncated,
    /// The action code is above 8.
    BadAction,
    /// Octets are after the last part of the value.
    Trailing,
    /// The value to be written has more than 255 octets.
    TooLong,
    /// The status octet is in no row of the table.
    BadStatus,
    /// Memory ran out.
    Memory,
}

impl fmt::Display for TlvFault {
    ghost use Rattle.std.specs.Prelude.{Some};
    ghost use Rattle.cfdp_tlv.specs.Texts.{tlv_fault_text};

    ghost output = { λ fault. Some (tlv_fault_text fault) };

    fn fmt<W: fmt::Write>(&self, f: &mut fmt::Formatter<W>) -> fmt::Result {
        f.write_str(match self {
            TlvFault::Truncated => "the field is cut",
            TlvFault::BadAction => "no action has this code",
            TlvFault::Trailing => "octets come after the value",
            TlvFault::TooLong => "the value is longer than 255 octets",
            TlvFault::BadStatus => "no status has this octet",
            TlvFault::Memory => "out of memory",
        })
    }
}

impl Error for TlvFault {}

impl From<AllocError> for TlvFault {
    ghost from_gives = { λ _ e. e ≡ Memory };

    fn from(_e: AllocError) -> TlvFault {
        Self::Memory
    }
}
