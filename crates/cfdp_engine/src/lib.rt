//! What surrounds the core of a CFDP receiving entity (CCSDS 727.0-B-5): a journal of all that the core did, seats
//! with the receipts of what they handed in, one lock, and workers.
//!
//! The definitions are in `specs/`: `Journal.antt` says what a journal is, `Seats.antt` when receipts are the
//! journal, `Sharing.antt` what a seat learns of an event that it handed in, and `Working.antt` which events a worker's
//! messages bring.
#![tactic(auto)]

mod event;
mod fault;
mod gate;
mod journal_entry;
mod journaled;
mod message;
mod receipt;
mod reconciling;
mod seat;
mod shared;
mod stop;
mod working;

pub use event::SharedEvent;
pub use fault::Fault;
pub use gate::Gate;
pub use journal_entry::JournalEntry;
pub use journaled::Journaled;
pub use message::Message;
pub use receipt::Receipt;
pub use reconciling::{Closed, NotClosed, close};
pub use seat::Seat;
pub use shared::Shared;
pub use stop::Stop;
pub use working::{Worked, work};
