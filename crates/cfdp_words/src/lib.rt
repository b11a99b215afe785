//! PDUs in words: the kind of a PDU, and each of its fields by its name in CCSDS 727.0-B-5 §5, as lines for people or
//! as a JSON object.
//!
//! [`show`] writes what octets say. Its text is a function of the octets, which `specs/Shown.antt` defines. Octets that
//! are no PDU are shown as damaged, with the first fault.
#![tactic(auto)]

mod codes;
mod fields;
mod lists;
mod names;
mod pdu_text;
mod style;

pub use codes::condition_words;
pub use pdu_text::show;
pub use style::Style;
