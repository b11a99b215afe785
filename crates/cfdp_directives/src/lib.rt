//! The PDUs of CFDP that acknowledge, ask for retransmission, and ask for or report progress: ACK, NAK, Prompt and Keep
//! Alive (CCSDS 727.0-B-5 §5.2.4, §5.2.6 to §5.2.8).
//!
//! `cfdp_pdus` distinguishes these PDUs: it reads each as `Pdu::NotOurs`, with its directive code. [`read_directive`]
//! reads an ACK, Prompt or Keep Alive PDU, and [`read_nak`] a NAK PDU. Each returns the PDU exactly where the octets
//! spell it, and otherwise the first fault; `specs/Reading.antt` says what spells what. Reading takes no memory.
//!
//! Each PDU is written in the one spelling of `specs/Spelling.antt`. The functions named `put_..` write into a buffer
//! and take no memory. Those named `write_..` append to a vector, and ask for room once.
#![tactic(auto)]

mod ack;
mod keep_alive;
pub mod laws;
mod nak;
mod prompt;
mod put;
mod read;

pub use ack::{Ack, TransactionStatus, put_ack, write_ack};
pub use keep_alive::{KeepAlive, put_keep_alive, write_keep_alive};
pub use nak::{Nak, NakFault, NakRange, most_requests, put_nak, read_nak, write_nak};
pub use prompt::{Prompt, put_prompt, write_prompt};
pub use read::{Directive, read_directive};
