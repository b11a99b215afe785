//! What is answered to a list of filestore requests.

use crate::refusal::Refusal;
use cfdp_actions::Request;
use cfdp_leases::Footprint;
use cfdp_paths::Path;

/// What a transaction may do once it is admitted.
#[derive(Debug, Drop)]
pub struct Grant {
    /// The paths that it leases.
    pub footprint: Footprint,
    /// Its requests, in order.
    pub requests: Vec<Request>,
    /// Where its file is installed before the requests, where it has one.
    pub destination: Option<Path>,
    /// How many more blocks than now it may use.
    pub blocks: u32,
    /// How many steps it may take.
    pub steps: u32,
}

/// The verdict on a list of filestore requests.
#[derive(Debug, Drop)]
pub enum Verdict {
    /// It is refused, for the first reason that there is.
    Refuse(Refusal),
    /// It is granted.
    Grant(Grant),
}
