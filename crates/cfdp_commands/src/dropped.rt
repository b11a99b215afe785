//! Lines that bring no filestore request.
ghost use Rattle.std.specs.Prelude.{◌≡◌};
ghost use Rattle.cfdp_commands.specs.RequestLines.{dropped_for, dropped_text};

use cfdp_tlv::TlvFault;

/// Why a line is dropped. A dropped line is no part of its list.
#[derive(Clone, Copy)]
pub(crate) enum DroppedLine {
    /// A field is cut.
    Truncated,
    /// Octets are after the last field.
    Trailing,
    /// It is a TLV of another type.
    NotARequest,
    /// There is no such action.
    BadAction,
    /// The value has 255 octets, so that its response would be longer than a TLV can be.
    RequestTooLong,
}

impl DroppedLine {
    /// Why a line is dropped whose value is no request. Such a value has been cut, or has an unknown action or octets
    /// after its last name; the faults of responses, of writers and of memory have an answer only so that each
    /// fault has one, as in the definition.
    pub(crate) fn of_fault(fault: TlvFault) -> Self
        ensures { result ≡ dropped_for fault }
    {
        match fault {
            TlvFault::Truncated | TlvFault::Memory => DroppedLine::Truncated,
            TlvFault::BadAction | TlvFault::BadStatus => DroppedLine::BadAction,
            TlvFault::Trailing => DroppedLine::Trailing,
            TlvFault::TooLong => DroppedLine::RequestTooLong,
        }
    }

    /// The line that is written for it.
    pub(crate) fn text(self) -> &'static [u8]
        ensures { result.now ≡ dropped_text self }
    {
        match self {
            DroppedLine::Truncated => b"dropped truncated\n",
            DroppedLine::Trailing => b"dropped trailing\n",
            DroppedLine::NotARequest => b"dropped not-a-request\n",
            DroppedLine::BadAction => b"dropped bad-action\n",
            DroppedLine::RequestTooLong => b"dropped request-too-long\n",
        }
    }
}
