//! A CFDP receiving entity as its user sees it: octets of PDUs go in, replies and the octets of Finished PDUs come out.
//!
//! [`Entity`] is the core over a filestore inside an arena. It takes memory when it is made, for a Metadata PDU, and
//! where an outcome is made or handed out (`outcome`, `take`, `hand_out`, and `Event::Take` by `apply`); for nothing
//! else. `take_finished` makes no outcome and takes none. `specs/Hearing.antt` says what octets bring,
//! `specs/Sending.antt` what is sent.
#![tactic(auto)]

mod entity;
mod fault;

pub use entity::Entity;
pub use fault::{NotHeard, NotTaken};
