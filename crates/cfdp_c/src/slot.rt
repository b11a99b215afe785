//! Room for one engine, in C's memory.
ghost use Rattle.std.specs.Prelude.{◌≡◌, Option, Some, None, IsSome, IsNone};
ghost use Rattle.std.specs.Coded.{coded_option};
ghost use Rattle.cfdp_transactions.specs.World.{World};
ghost use Rattle.cfdp_entity.specs.contracts.entity.Entity as entity;
ghost use Rattle.cfdp_c.specs.code.Ownership.{slot_owns};

use crate::raw_box::RawBox;
use cfdp_entity::Entity;
use std::alloc::Global;
use std::marker::{Model, Send};

/// A pointer to an engine on the heap, or to nothing. C keeps it, and never reads what it points to. It has no `Drop`,
/// so that a slot whose engine is forgotten is refused.
#[repr(C)]
pub struct EngineSlot {
    at: *mut u8,
    ghost engine: { Option World } by { coded_option entity.the_row.coded },
}

impl Model for EngineSlot {
    ghost also_owns = { λ s. slot_owns s.at s.engine };
}

unsafe impl Send for EngineSlot {}

impl EngineSlot {
    /// A slot with no engine.
    pub(crate) fn empty() -> EngineSlot
        ensures { result.engine ≡ None }
    {
        EngineSlot {
            at: std::ptr::null_mut(),
        }
    }

    /// Lets a slot with no engine go.
    pub(crate) fn discard(self)
        requires { IsNone self.engine }
    {
        let EngineSlot { at: _ } = self;
    }

    /// A slot with this engine.
    fn of_raw_box(engine: RawBox<Entity, Global>) -> EngineSlot
        ensures { result.engine ≡ Some engine.value }
    {
        let RawBox { at, alloc: _ } = engine;
        EngineSlot { at: at as *mut u8 }
    }

    /// The engine of the slot.
    fn into_raw_box(self, alloc: Global) -> RawBox<Entity, Global>
        requires { IsSome self.engine }
        ensures { self.engine ≡ Some result.value }
    {
        let EngineSlot { at } = self;
        RawBox {
            at: at as *mut Entity,
            alloc,
        }
    }

    /// A slot with this engine.
    pub(crate) fn holding(engine: Box<Entity>) -> EngineSlot
        ensures { result.engine ≡ Some engine.value }
    {
        EngineSlot::of_raw_box(RawBox::of(engine))
    }

    /// The engine of the slot.
    pub(crate) fn into_box(self, alloc: Global) -> Box<Entity>
        requires { IsSome self.engine }
        ensures { self.engine ≡ Some result.value }
    {
        self.into_raw_box(alloc).into_box()
    }
}
