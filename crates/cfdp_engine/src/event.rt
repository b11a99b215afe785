//! Events that several holders share.

ghost use Rattle.std.specs.Prelude.{◌≡◌, IfOk};
ghost use Rattle.std.specs.Arc.{arc_value};

use cfdp_paths::Memory;
use cfdp_transactions::Event;
use std::alloc::Global;
use std::marker::Model;
use std::sync::Arc;

/// An event that several holders share: who hands it in, the journal, and a receipt. Contracts see it as the event.
#[derive(Drop)]
pub struct SharedEvent {
    shared: Arc<Event, Global>,
}

impl Model for SharedEvent {
    ghost use Rattle.std.specs.Arc.{arc_value};
    ghost use Rattle.cfdp_transactions.specs.declared.event.Event.{Event};

    ghost Value = { Event };

    ghost view = { λ e. arc_value e.shared };
}

impl SharedEvent {
    /// The event that a handle holds. Costs nothing.
    pub fn new(event: Arc<Event, Global>) -> SharedEvent
        ensures { result ≡ arc_value event }
    {
        SharedEvent { shared: event }
    }

    /// One more handle of an event. It copies nothing and allocates nothing.
    ///
    /// # Errors
    ///
    /// Out of memory: there are as many handles as can be counted.
    pub fn share(event: &Arc<Event, Global>) -> Result<SharedEvent, Memory>
        ensures { IfOk result (λ other. other ≡ arc_value event.now) }
    {
        Ok(SharedEvent {
            shared: Arc::try_clone(event)?,
        })
    }

    /// The event. Costs nothing.
    pub fn event(&self) -> &Event
        ensures { result.now ≡ self.now }
    {
        &self.shared
    }
}
