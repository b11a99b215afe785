//! Scripts of `cfdp run`: what a line says is read, what a script hands to a receiving entity of both modes is played,
//! and the text of what it answers is written.
//!
//! [`read_run_command`] reads a line: `specs/Commands.antt` defines what it says, and `specs/Wrongs.antt` what
//! [`push_wrong`] writes of a bad one. [`Player`] plays what is handed to the entity: `specs/Playing.antt` defines how,
//! and `specs/Questions.antt` what is written of what a script asks. [`Head`] is what the head of a script says so far,
//! and [`Play`] the entity after it: `specs/Scripts.antt` defines what each line does to them. `cfdp_run_script`
//! carries out whole lines.
#![tactic(auto)]

mod contents;
mod head;
pub mod laws;
mod play;
mod player;
mod putting;
mod questions;
mod reading;
mod reconfigured;
mod run_commands;
mod settings;
mod stop;
mod words;
mod wrong;

pub use head::Head;
pub use play::Play;
pub use player::{MOST_TIMERS, Player};
pub use questions::{push_gaps_line, push_phase_line};
pub use reading::read_run_command;
pub use run_commands::{CommandFault, FileContent, HeadProgress, RunCommand};
pub use settings::{Key, default_mib, key_of};
pub use stop::ScriptStop;
pub use words::FirstWord;
pub use wrong::{Wrong, push_wrong};
