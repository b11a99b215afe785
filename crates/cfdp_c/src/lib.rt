//! The receiving entity as a C library: the functions that `include/cfdp.h` and `include/cfdp_receiver.h` declare, and
//! say the meaning of.
//!
//! C keeps a `struct cfdp_engine`, all zeros at first, and passes its address to each call. `cfdp_new` puts an engine
//! there and `cfdp_free` takes it away. A call takes the engine out of the handle, does what the call of `cfdp_entity`
//! does, and puts it back (`handle`); a handle with no engine gets an answer that says so. What is asked and reported
//! are numbers, and structs of numbers (`fields`, `reply`, `answer`). A `struct cfdp_receiver` is likewise room for a
//! receiver with timers (`receiver_handle`, `receiving`, `reports`, `mib`).
#![tactic(auto)]

mod answer;
mod creation;
mod events;
mod fields;
mod handle;
mod metadata;
mod mib;
mod next;
mod numbers;
mod paths;
mod puts;
mod raw_box;
mod reads;
mod receiver_handle;
mod receiver_reads;
mod receiver_slot;
mod receiving;
mod reply;
mod reports;
mod slot;
mod store;
mod texts;

pub use creation::{cfdp_engine_octets, cfdp_free, cfdp_new};
pub use events::{cfdp_cancel, cfdp_check, cfdp_receive, cfdp_step, cfdp_take};
pub use metadata::{cfdp_destination_name, cfdp_metadata, cfdp_source_name};
pub use next::cfdp_next;
pub use puts::cfdp_put;
pub use reads::{
    cfdp_blocks, cfdp_blocks_spent, cfdp_gap, cfdp_grant, cfdp_next_outcome, cfdp_next_runnable,
    cfdp_phase, cfdp_progress, cfdp_reach, cfdp_steps_spent, cfdp_transaction_at,
};
pub use receiver_reads::{
    cfdp_receiver_destination_name, cfdp_receiver_look_up, cfdp_receiver_next, cfdp_receiver_read,
};
pub use receiving::{
    cfdp_receiver_cancel, cfdp_receiver_deadline, cfdp_receiver_expire, cfdp_receiver_finish,
    cfdp_receiver_forget_closed, cfdp_receiver_free, cfdp_receiver_move_clock, cfdp_receiver_new,
    cfdp_receiver_octets, cfdp_receiver_receive, cfdp_receiver_work, cfdp_receiver_write,
};
pub use store::{cfdp_look_up, cfdp_read};
pub use texts::{cfdp_answer_text, cfdp_reply_text};
