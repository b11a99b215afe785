//! A CFDP receiving entity in acknowledged and unacknowledged mode (CCSDS 727.0-B-5, the procedures at the receiving
//! entity).
//!
//! [`Receiver`] takes octets and the present time, and gives PDUs to send, indications and the next deadline. Each of
//! its calls makes one turn of the definitions: `specs/State.antt` has the state and the inputs, `specs/Heard.antt`
//! which input octets are, `specs/Due.antt` the timers, `specs/Handing.antt` what is handed to the core,
//! `specs/Turning.antt` what becomes of the sessions and what is answered, and `specs/Sent.antt` the octets that are
//! sent. [`laws`] says what is true of every list of inputs.
#![tactic(auto)]

mod answer;
mod incoming_pdus;
mod indication;
mod joint_phase;
mod last_finished;
pub mod laws;
mod mib;
mod outcomes;
mod reading;
mod receiver;
mod state_machine;
mod timing;
mod writing;

pub use answer::{Answer, NakSequence};
pub use indication::{Became, Conclusion, Described, Indication, Word};
pub use joint_phase::JointPhase;
pub use mib::{Handler, Mib, MibFault, NakMode, Retries, Watch};
pub use reading::Dropped;
pub use receiver::{NotMade, NotWritten, Receiver, Unmade};
