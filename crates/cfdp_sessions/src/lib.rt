//! What a receiving entity keeps of each transaction beside its core, which knows nothing of PDUs that are sent and of
//! time: the header that its PDUs repeat, how far the transaction is, its timer, and its Finished PDU until that is
//! acknowledged; and the names of those closed last.
#![tactic(auto)]

mod closed;
mod session;
mod sessions;
mod source_names;

pub use closed::{
    ClosedTransactions, MOST_CLOSED, MOST_CLOSED_OF_ONE_OCTET, MOST_SOURCES, most_closed,
};
pub use session::{Ending, Session, Stage};
pub use sessions::{MOST_SESSIONS, Sessions};
