//! A live receiving entity: of each PDU and each turn of the clock it is known which PDUs are to be sent, and what the
//! user is notified of.
//!
//! [`Live`] is the receiving entity, and [`Output`] what it makes: `specs/Living.antt` defines both. Streams, clock,
//! threads and files are left to the program; `cfdp_cutter` cuts a stream into PDUs.
#![tactic(auto)]

mod live;
mod output;

pub use live::Live;
pub use output::Output;
