//! Plans of uploads, as text: names and filestore requests in words are read, and the script that `cfdpsim replay` runs
//! is written.
//!
//! [`read_request`] reads a request in words, and [`read_path`] a path as listings print it. [`write_upload`] writes
//! the lines of an upload of `cfdp_uploads`; `specs/Lines.antt` says which lines these are.
#![tactic(auto)]

mod fault;
pub mod laws;
mod lines;
mod names;
mod requests;

pub use fault::{RequestFault, ScriptFault};
pub use lines::{push_config, push_list, push_protect, write_upload};
pub use names::{parse_path, read_name, read_path};
pub use requests::read_request;
