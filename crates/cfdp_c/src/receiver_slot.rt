//! Room for one receiver, in C's memory. It is `slot` for another type, and has the same proofs.
ghost use Rattle.std.specs.Prelude.{◌≡◌, Option, Some, None, IsSome, IsNone};
ghost use Rattle.std.specs.Coded.{coded_option};
ghost use Rattle.cfdp_reception.specs.Reception.{ReceptionFields};
ghost use Rattle.cfdp_reception.specs.contracts.reception.Reception as reception;
ghost use Rattle.cfdp_c.specs.code.ReceiverOwnership.{receiver_owns};

use crate::raw_box::RawBox;
use cfdp_reception::Reception;
use std::alloc::Global;
use std::marker::{Model, Send};

/// A pointer to a receiver on the heap, or to nothing. C keeps it, and never reads what it points to. It has no `Drop`,
/// so that a slot whose receiver is forgotten is refused.
#[repr(C)]
pub struct ReceiverSlot {
    at: *mut u8,
    ghost receiver: { Option ReceptionFields } by { coded_option reception.the_row.coded },
}

impl Model for ReceiverSlot {
    ghost also_owns = { λ s. receiver_owns s.at s.receiver };
}

unsafe impl Send for ReceiverSlot {}

impl ReceiverSlot {
    /// A slot with no receiver.
    pub(crate) fn empty() -> ReceiverSlot
        ensures { result.receiver ≡ None }
    {
        ReceiverSlot {
            at: std::ptr::null_mut(),
        }
    }

    /// Lets a slot with no receiver go.
    pub(crate) fn discard(self)
        requires { IsNone self.receiver }
    {
        let ReceiverSlot { at: _ } = self;
    }

    /// A slot with this receiver.
    fn of_raw_box(receiver: RawBox<Reception, Global>) -> ReceiverSlot
        ensures { result.receiver ≡ Some receiver.value }
    {
        let RawBox { at, alloc: _ } = receiver;
        ReceiverSlot { at: at as *mut u8 }
    }

    /// The receiver of the slot.
    fn into_raw_box(self, alloc: Global) -> RawBox<Reception, Global>
        requires { IsSome self.receiver }
        ensures { self.receiver ≡ Some result.value }
    {
        let ReceiverSlot { at } = self;
        RawBox {
            at: at as *mut Reception,
            alloc,
        }
    }

    /// A slot with this receiver.
    pub(crate) fn holding(receiver: Box<Reception>) -> ReceiverSlot
        ensures { result.receiver ≡ Some receiver.value }
    {
        ReceiverSlot::of_raw_box(RawBox::of(receiver))
    }

    /// The receiver of the slot.
    pub(crate) fn into_box(self, alloc: Global) -> Box<Reception>
        requires { IsSome self.receiver }
        ensures { self.receiver ≡ Some result.value }
    {
        self.into_raw_box(alloc).into_box()
    }
}
