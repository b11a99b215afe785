//! The PDUs of CFDP that a file's receiver reads and writes (CCSDS 727.0-B-5 §5.1 to §5.3), and the
//! modular checksum.
//!
//! [`read_pdu`] returns the PDU exactly where the octets spell one, and otherwise the first fault; `specs/Grammar.antt`
//! says what spells what. It judges the whole PDU before it asks for memory; [`read_for_receiver`] copies nothing of a
//! Finished PDU, and [`read_piece`] reads a File Data PDU where it lies. A writer appends the one canonical spelling of
//! `specs/Canonical.antt`, or returns [`WriteFault::TooLong`] exactly where a length does not fit. It asks for room
//! once, for the whole PDU, before it writes.
//!
//! What every PDU has in common is public too, for crates that read and write further PDUs: [`read_start`] reads a
//! header, [`push_header`] appends one and [`put_header`] writes one into a buffer, [`read_number`], [`push_number`]
//! and [`put_number`] do so with numbers. [`checksum_type`], [`condition`], [`directive`] and [`file_status`] name the
//! codes.
#![tactic(auto)]

mod buffer;
pub mod checksum_type;
pub mod condition;
pub mod directive;
mod eof;
mod fault;
mod field;
mod file_data;
pub mod file_status;
mod finished;
mod header;
pub mod laws;
mod message;
mod metadata;
mod number;
mod pdu;
mod put;
mod read;
mod tlv_fields;
mod tlv_values;

pub use buffer::{put_header, put_number, put_octets};
pub use cfdp_checksum::modular_checksum;
pub use eof::{Eof, write_eof};
pub use fault::{PduFault, WriteFault};
pub use file_data::{FileData, Piece, write_file_data};
pub use finished::{Finished, write_finished};
pub use header::{Header, Start, read_start};
pub use message::{Messages, read_messages};
pub use metadata::{Metadata, write_metadata};
pub use number::{bit, read_number, size_len};
pub use pdu::Pdu;
pub use put::{MAX_FIELD_LEN, fault_len, header_len, push_header, push_number};
pub use read::{read_for_receiver, read_pdu, read_piece};
