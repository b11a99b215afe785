//! The verdict on a list of filestore requests, before its transaction begins (the filestore procedures of CCSDS
//! 727.0-B-5 perform the requests once the file is there; that they are judged before is this project's own).
//! [`verify`] makes seven tests in order. It grants a list exactly if all pass, and else refuses it by the first that
//! fails. It tests how long the list is, whether its names are paths, and whether a live transaction is in the way.
//! Then it runs the list alone on the filestore as it is. It tests whether its file may be installed, whether each
//! request is successful, how many steps it takes, and whether enough blocks are spare. No list is run on a store: it
//! is run on a view of kinds and sizes. The definitions are in `specs/Verdict.antt`.
#![tactic(auto)]

mod judging;
mod parsing;
mod proposal;
mod refusal;
mod verdict;
mod verifying;

pub use parsing::parse_request;
pub use proposal::Proposal;
pub use refusal::{Place, Refusal};
pub use verdict::{Grant, Verdict};
pub use verifying::verify;

/// The most filestore requests that a list may have.
pub const MOST_REQUESTS: usize = 64;

/// The most steps that are granted to one transaction.
pub const MOST_STEPS: u32 = 65_536;
