//! The filestore, and the filestore requests of CFDP performed on it (CCSDS 727.0-B-5, filestore procedures).
//!
//! A store is anything that meets the trait [`Filestore`]: contracts see it as a finite map from paths to files and
//! directories, 64 staged lists and a capacity in blocks. [`ListStore`] keeps it in one list in path order. [`perform`]
//! does what the action table of `specs/Actions.antt` says, over any store, except at the prefixes that are
//! [`Protected`].
#![tactic(auto)]

mod blocks;
mod checksums;
mod content;
mod entries;
mod filestore;
mod kind;
mod list_store;
mod performed;
mod protected;
mod refusals;
mod request;
mod rows;
mod staging;

pub use blocks::PAYLOAD_OCTETS;
pub use checksums::entry_checksum;
pub use filestore::Filestore;
pub use kind::{Entry, ExistingNode, Kind};
pub use list_store::ListStore;
pub use performed::{Performed, perform, perform_allowed};
pub use protected::{MOST_PREFIXES, Protected};
pub use refusals::{Kinds, refusal};
pub use request::Request;
