//! The codes of CFDP's filestore requests, and the names of transactions.
//!
//! An [`Action`] is what a filestore request asks for, a [`Status`] is how it went, and a
//! [`TransactionId`] names the transaction that carried it. The octets are those of
//! CCSDS 727.0-B-5 §5.4.1 and §5.4.2; one table in `specs/Codes.antt` has them all, and the
//! functions here are that table, both ways. Nothing here takes memory or is refused, and each call takes constant
//! time; only the text of a [`TransactionId`] grows with its digits.
#![tactic(auto)]

mod action;
mod status;
mod transaction;

pub use action::Action;
pub use status::Status;
pub use transaction::TransactionId;
