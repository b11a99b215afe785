//! What C passes: a slot, and a mark that says whether an engine is in it.
ghost use Rattle.std.specs.Prelude.{◌≡◌, ◌==◌, Some, None, IsTrue, IsNone, MatchOption, is_some};
ghost use Rattle.cfdp_c.specs.declared.handle.TheConstants.{MARK};

use crate::slot::EngineSlot;
use cfdp_entity::Entity;
use std::alloc::Global;

/// The mark of a handle that has an engine: the letters `CFDP`. Zeros, and most other bits, are not this.
const MARK: u32 = 0x4346_4450;

/// A C `struct cfdp_engine`.
#[repr(C)]
pub struct Handle {
    mark: u32,
    pub(crate) slot: EngineSlot,
    ghost ok: { (mark == MARK) ≡ is_some slot.engine },
}

impl Handle {
    /// A handle with no engine.
    pub(crate) fn closed() -> Handle
        ensures { result.slot.engine ≡ None }
    {
        Handle {
            mark: 0,
            slot: EngineSlot::empty(),
        }
    }

    /// Whether there is an engine.
    pub(crate) fn has_engine(&self) -> bool
        ensures { result ≡ is_some self.now.slot.engine }
    {
        self.mark == MARK
    }

    /// Lets a handle with no engine go.
    pub(crate) fn discard(self)
        requires { IsNone self.slot.engine }
    {
        let Handle { mark: _, slot } = self;
        slot.discard();
    }

    /// Puts an engine in.
    pub(crate) fn put(&mut self, engine: Box<Entity>)
        requires { IsNone self.old.slot.engine }
        ensures { self.new.slot.engine ≡ Some engine.value }
    {
        let full = Handle {
            mark: MARK,
            slot: EngineSlot::holding(engine),
        };
        std::mem::replace(self, full).discard();
    }

    /// Takes the engine out, if there is one.
    pub(crate) fn take(&mut self, alloc: Global) -> Option<Box<Entity>>
        ensures taken { MatchOption result (self.old.slot.engine ≡ None) (λ b. self.old.slot.engine ≡ Some b.value) }
        ensures left { self.new.slot.engine ≡ None }
    {
        if self.mark != MARK {
            return None;
        }
        let Handle { mark: _, slot } = std::mem::replace(self, Handle::closed());
        Some(slot.into_box(alloc))
    }
}
