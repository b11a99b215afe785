//! What the lines of a script say, and what is done of each: the text that a line is answered with.
//!
//! There are two kinds of script: [`Requests`], filestore requests as hexadecimal TLVs (CCSDS 727.0-B-5 §5.4),
//! performed on one filestore (filestore procedures); and [`Transfers`], PDUs (§5.1 to §5.3) and local events of one
//! receiving entity (copy file procedures). [`read_command`] reads a line of the second kind to a [`Command`], and
//! [`Setup`] is what such lines set up before the first event. The files of `links` (`cfdp_links`) have the same
//! lines.
#![tactic(auto)]

mod commands;
mod dropped;
mod reply_lines;
mod request_lines;
mod requests;
mod setup;
mod stage;
mod transfers;

pub use commands::{Command, CommandRoom, Local, read_command};
pub use requests::Requests;
pub use setup::{Setup, copy_config};
pub use transfers::Transfers;
