//! `cfdpsim`: runs scripts over the receiving side of CFDP (CCSDS 727.0-B-5).
//!
//! `cfdpsim plain` reads a script of filestore requests from standard input, and `cfdpsim replay [FILE]` one of PDUs
//! and local events from a file, or from standard input without one. `cfdpsim links FILE..` reads one to four such
//! files and runs them all at once, a worker each, on one entity. Each writes its report to standard output. What goes
//! wrong is reported in one line on standard error and by the exit status: 1 for a read, a write or memory that failed,
//! a full journal, or receipts that differ from it, 2 for unknown words, 3 for a bad line.
#![tactic(auto)]

use cfdp_command_line::{Asked, Opens, parse, read_all, read_words};
use cfdp_sim::{FromRead, Open, ProgramEnd, RunFault, ToWrite, links, plain, replay};
use std::io;
use std::io::Read;
use std::process::ExitCode;
use std::rt::{Env, Files};
use std::sync::Wait;
use std::thread::Threads;

/// Whether the program is built without a proof: then it says so where words are unknown, as `--help` and `--version`
/// are. `./build` sets this in a copy of the crate.
const UNPROVED: bool = false;

/// How many files `links` takes at most.
const MOST_FILES: usize = 4;

fn main(rt: HostRuntime) -> ExitCode {
    let end = run(&rt);
    if end != ProgramEnd::Fine {
        // Where standard error cannot be written either, the status has to do.
        let _ = eprintln!(rt; "{end}");
    }
    if UNPROVED && end == ProgramEnd::Usage {
        let _ = eprintln!(rt; "this program is not proved");
    }
    ExitCode::from(end.status())
}

/// Does what the words of the command line ask for.
fn run<R: AllocGlobal + Env + Files + Input + Print + Threads + Wait + Sync>(rt: &R) -> ProgramEnd {
    let words = match read_words(rt) {
        Ok(words) => words,
        Err(end) => return end,
    };
    match parse(rt.alloc(), &words) {
        Ok(Asked::Plain) => run_plain(rt),
        Ok(Asked::Replay(None)) => run_replay(rt, rt.reader()),
        Ok(Asked::Replay(Some(path))) => match rt.open(path) {
            Ok(file) => run_replay(rt, file),
            Err(fault) => ProgramEnd::Run(fault),
        },
        Ok(Asked::Links(paths)) => run_links(rt, &paths),
        Err(end) => end,
    }
}

/// The end of the program by that of a run.
fn end_of(ran: Result<(), RunFault>) -> ProgramEnd {
    match ran {
        Ok(()) => ProgramEnd::Fine,
        Err(fault) => ProgramEnd::Run(fault),
    }
}

/// `cfdpsim plain`: from standard input to standard output, unbuffered, so that each refused write is seen.
fn run_plain<R: AllocGlobal + Input + Print>(rt: &R) -> ProgramEnd {
    let mut reader = FromRead::new(rt.reader());
    let mut writer = ToWrite::new(io::writer(rt));
    end_of(plain(rt.alloc(), &mut reader, &mut writer))
}

/// `cfdpsim replay`: from this input to standard output, unbuffered too.
fn run_replay<R: AllocGlobal + Print, I: Read + Drop>(rt: &R, input: I) -> ProgramEnd {
    let mut reader = FromRead::new(input);
    let mut writer = ToWrite::new(io::writer(rt));
    end_of(replay(rt.alloc(), &mut reader, &mut writer))
}

/// `cfdpsim links`: from these files, which are read before a line of them is judged, to standard output, unbuffered
/// too. More files than `links` takes are unknown words.
fn run_links<R: AllocGlobal + Files + Print + Threads + Wait + Sync>(
    rt: &R,
    paths: &[&str],
) -> ProgramEnd {
    if paths.len() > MOST_FILES {
        return ProgramEnd::Usage;
    }
    let scripts = match read_all(rt, rt.alloc(), paths) {
        Ok(scripts) => scripts,
        Err(fault) => return ProgramEnd::Run(fault),
    };
    let mut writer = ToWrite::new(io::writer(rt));
    match links(rt, rt.alloc(), &scripts, &Open, &mut writer) {
        Ok(()) => ProgramEnd::Fine,
        Err(fault) => ProgramEnd::Link(fault),
    }
}
