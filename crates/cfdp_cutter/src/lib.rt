//! A stream of octets, cut into PDUs.
//!
//! [`Cutter`] cuts the stream: `specs/Cutting.antt` defines how, and [`laws`] says that it does not matter in which
//! pieces the stream comes. Where the octets come from is left to the program.
#![tactic(auto)]

mod cutter;
pub mod laws;

pub use cutter::{CutFault, Cutter, pdu_len};
