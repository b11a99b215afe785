//! Reserves of blocks and meters of steps.
//!
//! A [`Quota`] keeps, for each of 64 slots, how many free blocks of the filestore are set aside for the transaction
//! that has the slot: its reserve. What the transaction takes comes out of its reserve, and what it gives back goes
//! into it. What nobody has reserved is spare. A [`Meter`] counts the steps that one transaction may take. Both are
//! plain numbers: no call takes memory, none can fail, and each takes constant time.
#![tactic(auto)]

mod meter;
mod quota;

pub use meter::Meter;
pub use quota::{Quota, SLOTS};
