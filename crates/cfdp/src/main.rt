//! `cfdp`: tools for people who plan, run and look at file transfers by CFDP (CCSDS 727.0-B-5).
//!
//! `cfdp show [--json] [FILE]` prints what PDUs say, a block of lines or a JSON value for each. It reads a file, or
//! standard input without one: PDUs in hexadecimal, one a line; PDUs one after the other, as octets; or a capture in
//! the pcap format, with PDUs in UDP datagrams or of their own link type.
//!
//! `cfdp compose [--timed] PLAN` writes the script of a plan of uploads, which `cfdpsim replay` runs, or with `--timed`
//! `cfdp run`: the PDUs of each transaction, from the files that the plan names and its requests in words.
//!
//! `cfdp judge PLAN [--on DIR]` prints the verdict on each transaction of a plan, on a filestore that has what a folder
//! has: what it is granted, or why it is refused, and what each of its requests takes.
//!
//! `cfdp run [FILE]` plays a script against a receiving entity of both modes, with a filestore and a clock that the
//! script moves, and prints what the entity answers to each line.
//!
//! `cfdp draw [FILE]` plays a script as `cfdp run` does, and writes a picture of the run in SVG.
//!
//! `cfdp disturb [--loss P] [--twice P] [--swap P] [--seed N] [FILE]` writes a script as if its PDUs came over a bad
//! link: each is lost, written twice or swapped with the probability, in percent, that its option gives.
//!
//! `cfdp receive --into DIR [--mib FILE]` is a live receiving entity of both modes, by the clock of the system: PDUs
//! come on standard input and go to standard output, and a folder holds what its filestore holds.
//!
//! A line on standard error says what goes wrong, and the exit status says of what kind it is:
//!
//! - 1: a fault of reading, writing or memory, or a transaction that was granted and not completed.
//! - 2: unknown words.
//! - 3: a fault of the input. It is a line that is not hexadecimal, a capture that is cut, something wrong in a plan or
//!   in a setup, a bad line of a script or one that a picture has no room for, or a stream that is no PDUs.
//! - 4: a plan of which a transaction is refused, or a line that a script expects and that does not come.
#![tactic(auto)]

mod answers;
mod capture;
mod clock;
mod compose;
mod disturb;
mod draw;
mod drawing;
mod drawn_pdu;
mod drawn_state;
mod elapsed;
mod end;
mod fitting;
mod folder;
mod found;
mod hexadecimal;
mod input;
mod input_thread;
mod into;
mod judge;
mod mirror;
mod notes;
mod octets;
mod path_text;
mod pcap;
mod pdu_log;
mod plan;
mod playing;
mod put_files;
mod receive;
mod run;
mod section;
mod setting_lines;
mod setup;
mod show;
mod uploads;
mod usage;
mod words;

use end::End;
use std::process::ExitCode;
use std::rt::Runtime;
use std::sync::Wait;
use std::thread::Threads;
use words::{AskedCommand, parse};

fn main(rt: HostRuntime) -> ExitCode {
    match obey(&rt) {
        Ok(()) => ExitCode::SUCCESS,
        Err(end) => {
            // Where standard error cannot be written either, the status has to do.
            let _ = end.write(&mut rt.stderr());
            ExitCode::from(end.status())
        }
    }
}

/// Does what the words of the command line ask for.
fn obey<R: AllocGlobal + Runtime + Send + Threads + Wait + 'static>(rt: &R) -> Result<(), End>
where
    R::Reader: Send + 'static,
{
    let words = words::read(rt)?;
    match parse(rt.alloc(), &words)? {
        AskedCommand::Help(text) => show::print(rt, text.as_bytes()),
        AskedCommand::Show(style, path) => show::run(rt, style, path),
        AskedCommand::Compose(player, path) => compose::run(rt, player, path),
        AskedCommand::Judge(path, on) => judge::run(rt, path, on),
        AskedCommand::Run(path, options) => run::run(rt, path, options),
        AskedCommand::Draw(path) => draw::run(rt, path),
        AskedCommand::Disturb(odds, seed, path) => disturb::run(rt, odds, seed, path),
        AskedCommand::Receive(options) => receive::run(rt, options),
    }
}
