//! Why an upload is refused.

use std::alloc::{AllocError, AllocFailed};
use std::error::Error;
use std::fmt;

/// Why an upload is refused.
#[derive(Clone, Copy, Debug, PartialEq, Eq)]
pub enum UploadFault {
    /// An entity ID or the sequence number does not fit its length, or that is not 1 to 8 octets.
    Header,
    /// The source file name has more than 255 octets.
    SourceName,
    /// The destination file name has more than 255 octets.
    DestinationName,
    /// The value of this request, counted from 0, has more than 254 octets: no response can repeat its names.
    Request(usize),
    /// The file has 2^32 octets or more, and the large file flag is 0.
    FileSize,
    /// The data field of the Metadata PDU has more than 65,535 octets.
    Metadata,
    /// A piece has no octet, or too many for the data field of a File Data PDU.
    Segment,
    /// The order names a piece with this index, and the file has no such piece.
    NoPiece(usize),
    /// The order does not name the piece with this index.
    NotSent(usize),
    /// Out of memory.
    Memory,
}

impl fmt::Display for UploadFault {
    ghost use Rattle.std.specs.Prelude.{Some};
    ghost use Rattle.cfdp_uploads.specs.Texts.{upload_fault_text};

    ghost output = { λ fault. Some (upload_fault_text fault) };

    fn fmt<W: fmt::Write>(&self, f: &mut fmt::Formatter<W>) -> fmt::Result {
        match self {
            UploadFault::Header => f.write_str(
                "an entity ID or the sequence number does not fit its length of 1 to 8 octets",
            ),
            UploadFault::SourceName => f.write_str("the source file name has more than 255 octets"),
            UploadFault::DestinationName => {
                f.write_str("the destination file name has more than 255 octets")
            }
            UploadFault::Request(number) => {
                write!(
                    f,
                    "request {number} is too long: no response can repeat its names"
                )
            }
            UploadFault::FileSize => f.write_str(
                "the file has 2^32 octets or more, and the large file flag is not set",
            ),
            UploadFault::Metadata => f.write_str("the Metadata has more than 65535 octets"),
            UploadFault::Segment => {
                f.write_str("a piece has no octet, or too many for a File Data PDU")
            }
            UploadFault::NoPiece(index) => {
                write!(f, "the order names piece {index}, and there are fewer")
            }
            UploadFault::NotSent(index) => write!(f, "the order does not name piece {index}"),
            UploadFault::Memory => f.write_str("out of memory"),
        }
    }
}

impl Error for UploadFault {}

impl From<AllocError> for UploadFault {
    ghost use Rattle.std.specs.Prelude.{◌≡◌};
    ghost use Rattle.cfdp_uploads.specs.declared.fault.UploadFault.TheVariants.{Memory};

    ghost from_gives = { λ _ e. e ≡ Memory };

    fn from(_refused: AllocError) -> UploadFault {
        UploadFault::Memory
    }
}

impl<T: Drop> From<AllocFailed<T>> for UploadFault {
    ghost use Rattle.std.specs.Prelude.{◌≡◌};
    ghost use Rattle.cfdp_uploads.specs.declared.fault.UploadFault.TheVariants.{Memory};

    ghost from_gives = { λ _ e. e ≡ Memory };

    fn from(_refused: AllocFailed<T>) -> UploadFault {
        UploadFault::Memory
    }
}
