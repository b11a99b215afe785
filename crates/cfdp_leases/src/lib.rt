//! Footprints and leases: which paths of the filestore a list of filestore requests may change, and which it relies on,
//! so that two lists that could disturb one another are never let in together. A [`Footprint`] is what one list needs;
//! [`Leases`] are the footprints of all live transactions. CCSDS 727.0-B-5 leaves it open how filestore requests of
//! several transactions meet (filestore procedures): leasing their paths beforehand is this project's own. The
//! definitions are in `specs/Footprint.antt` and `specs/Leases.antt`, and what is true of them in [`laws`].
#![tactic(auto)]

mod footprints;
mod gathering;
pub mod laws;
mod lease;
mod leased_paths;
mod leases;

pub use footprints::{Footprint, covers};
pub use gathering::footprint;
pub use lease::Lease;
pub use leases::Leases;
