//! What a file's sender sends in one transaction of CFDP (CCSDS 727.0-B-5, copy file procedures): the Metadata PDU, the
//! File Data PDUs and the EOF PDU of a file and a list of filestore requests.
//!
//! An [`Upload`] is made from its parts, or refused by the first [`UploadFault`]. [`Upload::write`] writes its PDUs,
//! one by one. `specs/Uploads.antt` says which PDUs these are, and [`laws`] that a reader of PDUs gives exactly those
//! back, and that their pieces are the whole file.
#![tactic(auto)]

mod fault;
mod judging;
pub mod laws;
mod order;
mod piece;
mod upload;

pub use fault::UploadFault;
pub use judging::shortest_len;
pub use order::{in_order, reversed, swapped};
pub use upload::{Upload, piece_count};
