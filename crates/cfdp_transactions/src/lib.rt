//! The core of a CFDP receiving entity (CCSDS 727.0-B-5): what each event does to the transactions
//! and the filestore, and what holds over every list of events.
//!
//! The definitions are in `specs/`: `Next.antt` has the table of events, `Sound.antt` what is true
//! at all times, `Headline.antt` what is promised. The module [`laws`] proves it of the definitions:
//! its functions do nothing, and their contracts are the laws.
#![tactic(auto)]

mod admission;
mod books;
mod config;
mod copying;
mod declared_file;
mod delivery;
mod equality;
mod event;
mod file_data;
mod finished_in_buffer;
mod item;
pub mod laws;
mod outcome;
mod phase;
mod phase_changes;
mod putting;
mod ranges;
mod reply;
mod step;
mod table;
mod table_entry;
mod taken_outcome;
mod the_core;

pub use config::{Config, ConfigFault};
pub use event::{Event, NotOurs, event_of, read_event, transaction_of};
pub use finished_in_buffer::{ShortBuffer, TakenFinished};
pub use outcome::{Outcome, SharedOutcome};
pub use phase::Phase;
pub use putting::NotPut;
pub use ranges::{MOST_GAPS, Range};
pub use reply::Reply;
pub use table::MOST_SETTLED;
pub use the_core::Core;
