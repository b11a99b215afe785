//! The modular checksum of CFDP (CCSDS 727.0-B-5, checksum procedures), which EOF PDUs carry and by which a listing
//! distinguishes files. Contracts see it as the sum of all octets, each times the weight of its position in a word of
//! four (`specs/Checksum.antt`). [`laws`] says how the sums of pieces add up, so that a sum can be kept while a file
//! changes.
#![tactic(auto)]

mod checksum;
pub mod laws;

pub use checksum::{modular_checksum, modular_checksum_at};
