//! A list of filestore requests as it was sent.

use cfdp_tlv::FilestoreRequest;
use std::marker::Model;

/// A list of filestore requests as a Metadata PDU brings it (CCSDS 727.0-B-5 §5.2.5), with the name of the file that is
/// installed before they are performed, where there is one.
#[derive(Debug, Drop)]
pub struct Proposal<'a> {
    /// The octets of the destination file name, where there is a file.
    pub destination: Option<&'a [u8]>,
    /// How many octets the file may have at most; 0 where there is no file.
    pub bound: u64,
    /// The requests in order.
    pub requests: &'a [FilestoreRequest],
}

impl<'a> Model for Proposal<'a> {
    ghost use Rattle.std.specs.Prelude.{option_map};
    ghost use Rattle.cfdp_verifier.specs.Verdict as words;

    ghost Value = { words.Proposal };

    ghost view = { λ p. record {
      destination = option_map (λ name. name.now) p.destination;
      bound = p.bound;
      requests = p.requests.now;
    } };
}
