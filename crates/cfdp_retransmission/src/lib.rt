//! The procedures of the acknowledged mode, over plain values (CCSDS 727.0-B-5, the lost segment procedures, the
//! positive acknowledgement procedures and the timer procedures). It has timers that count their expiries, a Finished
//! PDU that waits for its acknowledgement, sequences of NAK PDUs, and what the sender's answers bring.
//!
//! `specs/` has the definitions, and [`laws`] says what is true of them.
#![tactic(auto)]

pub mod laws;
mod naks;
mod timer;

pub use naks::{NakPart, next_nak};
pub use timer::{Expiry, Timer};
