//! The simulator's scripts: what `cfdpsim` reads, does and writes, without its command line.
//!
//! A script is a stream of octets in lines, and each line is answered by itself, in order. There are two kinds of
//! script: of [`plain`], filestore requests as hexadecimal TLVs (CCSDS 727.0-B-5 §5.4), performed on one filestore
//! (filestore procedures); and of [`replay`], PDUs (§5.1 to §5.3) and local events of one receiving entity (copy file
//! procedures). [`links`] runs several of the second kind at once. What they use: streams of octets
//! (`cfdp_streams`), lines (`cfdp_lines`), what each line says and does (`cfdp_commands`), and the files and workers of
//! `links` (`cfdp_links`).
#![tactic(auto)]

mod link_scripts;
mod plain_scripts;
mod replay_scripts;

pub use cfdp_ends::ProgramEnd;
pub use cfdp_lines::{INPUT_LIMIT, LinkFault, RunFault};
pub use cfdp_streams::{Failed, FromRead, ScriptIn, ScriptOut, ToWrite};
pub use link_scripts::{Open, links};
pub use plain_scripts::{plain, plain_text};
pub use replay_scripts::{replay, replay_text};
