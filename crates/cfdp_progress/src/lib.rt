//! Progress of a receiving entity in acknowledged mode (CCSDS 727.0-B-5, the lost segment and positive acknowledgement
//! procedures): a file that waits for octets is delivered, and its session is closed, after enough rounds in which PDUs
//! are sent and answered. The laws are over the turns of `cfdp_receiver`, and the crate has no code.
//!
//! `specs/Awaiting.antt` says what a transaction that waits for octets is, and what may come. `specs/NakRounds.antt`
//! has rounds of NAK PDUs and answers, `specs/Closing.antt` rounds of Finished PDUs and acknowledgements,
//! `specs/Concluding.antt` what comes between them, and `specs/InAll.antt` all of this. `specs/HeldRounds.antt` has the
//! rounds before these where the EOF PDU comes before its Metadata PDU. [`laws`] says what is true of them.
#![tactic(auto)]

pub mod laws;
