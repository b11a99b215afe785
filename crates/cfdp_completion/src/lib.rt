//! What the core of a receiving entity makes of the PDUs of an upload (CCSDS 727.0-B-5, copy file procedures): laws,
//! and no code.
#![tactic(auto)]

pub mod laws;
