//! LV and TLV fields, filestore requests and filestore responses (CCSDS 727.0-B-5 §5.1.8, §5.1.9,
//! §5.4.1 and §5.4.2).
//!
//! A reader returns the value exactly where the octets spell one, and otherwise the first fault;
//! `specs/Grammar.antt` says what spells what. A writer appends the one canonical spelling, or
//! returns [`TlvFault::TooLong`] exactly where a value is longer than a length octet can say.
//! Reading refuses before it allocates: one pass looks for a fault, and then the names and the message
//! are copied into one allocation, out of which they are lent.
#![tactic(auto)]

mod fault;
mod field;
pub mod laws;
mod names;
mod request;
mod response;
mod room;

pub use fault::TlvFault;
pub use field::{
    ENTITY_ID, FILESTORE_REQUEST, FILESTORE_RESPONSE, MAX_VALUE_LEN, MESSAGE_TO_USER, Tlv, read_lv,
    read_tlv,
};
pub use request::{
    FilestoreRequest, MAX_ANSWERABLE_LEN, RequestParts, read_request, request_parts, write_request,
};
pub use response::{
    FilestoreResponse, ResponseParts, read_response, response_parts, write_response,
};
pub use room::push_lv;
