//! What C passes for a receiver: a slot, and a mark that says whether one is in it.
ghost use Rattle.std.specs.Prelude.{◌≡◌, ◌==◌, Some, None, IsNone, MatchOption, is_some};
ghost use Rattle.cfdp_c.specs.declared.receiver_handle.TheConstants.{MARK};

use crate::receiver_slot::ReceiverSlot;
use cfdp_reception::Reception;
use std::alloc::Global;

/// The mark of a handle that has a receiver: the letters `CFDR`. Zeros, and most other bits, are not this.
const MARK: u32 = 0x4346_4452;

/// A C `struct cfdp_receiver`.
#[repr(C)]
pub struct ReceiverHandle {
    mark: u32,
    pub(crate) slot: ReceiverSlot,
    ghost ok: { (mark == MARK) ≡ is_some slot.receiver },
}

impl ReceiverHandle {
    /// A handle with no receiver.
    pub(crate) fn closed() -> ReceiverHandle
        ensures { result.slot.receiver ≡ None }
    {
        ReceiverHandle {
            mark: 0,
            slot: ReceiverSlot::empty(),
        }
    }

    /// Whether there is a receiver.
    pub(crate) fn has_receiver(&self) -> bool
        ensures { result ≡ is_some self.now.slot.receiver }
    {
        self.mark == MARK
    }

    /// Lets a handle with no receiver go.
    pub(crate) fn discard(self)
        requires { IsNone self.slot.receiver }
    {
        let ReceiverHandle { mark: _, slot } = self;
        slot.discard();
    }

    /// Puts a receiver in.
    pub(crate) fn put(&mut self, receiver: Box<Reception>)
        requires { IsNone self.old.slot.receiver }
        ensures { self.new.slot.receiver ≡ Some receiver.value }
    {
        let full = ReceiverHandle {
            mark: MARK,
            slot: ReceiverSlot::holding(receiver),
        };
        std::mem::replace(self, full).discard();
    }

    /// Takes the receiver out, if there is one.
    pub(crate) fn take(&mut self, alloc: Global) -> Option<Box<Reception>>
        ensures taken { MatchOption result (self.old.slot.receiver ≡ None) (λ b. self.old.slot.receiver
            ≡ Some b.value) }
        ensures left { self.new.slot.receiver ≡ None }
    {
        if self.mark != MARK {
            return None;
        }
        let ReceiverHandle { mark: _, slot } = std::mem::replace(self, ReceiverHandle::closed());
        Some(slot.into_box(alloc))
    }
}
