//! The texts of a receiving entity: the line of a reply to a PDU or a local event (CCSDS 727.0-B-5, copy file
//! procedures), that of octets that bring no event, and those of what is in the filestore. `docs/FORMATS.md` lists
//! them, and `specs/Replies.antt` defines them.
#![tactic(auto)]

mod encoding;
mod listing;
mod replies;
mod shown;

pub use encoding::encode;
pub use listing::write_listing;
pub use replies::{
    fault_line, not_ours_line, push_labelled, push_number, write_reply, write_taken,
};
pub use shown::{is_plain, push_path, push_shown};
