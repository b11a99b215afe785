//! Lists of filestore requests run alone: what each request of a list answers, how many blocks the list needs, and how
//! many steps it takes, when nothing else happens in between and there is room without limit (CCSDS 727.0-B-5,
//! filestore procedures). The definitions are in `specs/Alone.antt`, and what is true of them in [`laws`]: with a
//! longer file, after another transaction's change, from one request to the next, in any slot. A [`View`] runs such a
//! list on kinds and sizes alone, without octets: what it says is stated in `specs/Views.antt`.
#![tactic(auto)]

mod branched_extents;
mod changes;
mod extent;
mod extent_kinds;
mod extents;
pub mod laws;
mod origins;
mod performing;
mod sorted_extents;
mod sparse;
mod sparse_survey;
mod survey;
mod view;

pub use sparse::SparseView;
pub use view::View;
