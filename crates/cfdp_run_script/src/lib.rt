//! Whole scripts of `cfdp run`: each line is carried out, one after the other, with the files that lines `put` name.
//!
//! [`RunScript`] is a script between two lines, and [`ScriptSession`] one of which octets come in pieces. The
//! definitions of `cfdp_run` say what each line does and writes (`line_step`), and why a script stops (`why_from`).
#![tactic(auto)]

mod files;
mod script;
mod session;

pub use files::{Files, Unread};
pub use script::RunScript;
pub use session::ScriptSession;
