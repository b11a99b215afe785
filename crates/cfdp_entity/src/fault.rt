//! Why an entity did not reply.

ghost use Rattle.std.specs.Prelude.{◌≡◌};
ghost use Rattle.cfdp_entity.specs.declared.fault.NotTaken.TheVariants.{Memory};

use cfdp_pdus::PduFault;
use std::alloc::AllocError;

/// Why octets that came got no reply. The entity is as before.
#[derive(Clone, Copy, Debug, PartialEq, Eq)]
pub enum NotHeard {
    /// The octets are no PDU; or there was no memory for one.
    Fault(PduFault),
    /// The PDU is not for the receiver of a file.
    NotOurs,
}

/// Why an outcome was not handed out. The entity is as before.
#[derive(Clone, Copy, Debug, PartialEq, Eq)]
pub enum NotTaken {
    /// The Finished PDU has this many octets, which is more than there was room for.
    TooShort(usize),
    /// There was no memory.
    Memory,
}

impl From<AllocError> for NotTaken {
    ghost from_gives = { λ _ why. why ≡ Memory };

    fn from(_refusal: AllocError) -> NotTaken {
        NotTaken::Memory
    }
}
