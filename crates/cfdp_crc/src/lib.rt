//! The CRC of a PDU (CCSDS 727.0-B-5 §5.1): sixteen bits of the polynomial x^16 + x^12 + x^5 + 1, begun with ones, the
//! highest bit first, nothing inverted. [`crc16`] computes it, [`unseal`] checks it and takes it off a PDU, [`seal`]
//! adds it to one.
//!
//! Contracts see it as the division bit by bit of `specs/Crc.antt`. [`laws`] says what it finds: octets with their CRC
//! after them have CRC 0, damage within two neighbouring octets is always noticed, and what was sealed unseals to
//! itself.
#![tactic(auto)]

mod crc;
pub mod laws;
mod remainders;
mod sealing;

pub use crc::crc16;
pub use sealing::{CrcFault, SealFault, seal, unseal};
