//! `cfdp_bench WORKLOAD ROUNDS SEED`: a job of a user of this software, and a digest of all its results.
//!
//! The workloads are `bulk`, `lists`, `interleaved`, `awkward`, `links`, `longest` and `everyday`; `small` is a short
//! run of each. Each makes its own input: another seed gives another input of the same kind and size.
//! `bench/workloads.txt` lists the runs that are measured, and `bench/run` measures two checkouts by turns.
#![tactic(auto)]

mod awkward;
mod bulk;
mod deep;
mod digest;
mod everyday;
mod fault;
mod interleaved;
mod links;
mod lists;
mod longest;
mod names;
mod pdus;
mod pool;
mod random;
mod receiver;
mod script;
mod sessions;
mod tree;

use fault::WorkloadFault;
use std::env;
use std::process::ExitCode;
use std::rt::Env;
use std::sync::Wait;
use std::thread::Threads;

/// What the sizes are divided by in a short run.
const SMALL: u32 = 40;

fn main(rt: HostRuntime) -> ExitCode {
    match run(&rt) {
        Ok(true) => ExitCode::SUCCESS,
        Ok(false) => {
            let _ = eprintln!(rt; "cfdp_bench WORKLOAD ROUNDS SEED: a word and two numbers");
            ExitCode::from(2)
        }
        Err(fault) => {
            let _ = eprintln!(rt; "cfdp_bench: {fault}");
            ExitCode::from(1)
        }
    }
}

/// Does what the words of the command line ask for. Whether they are right.
fn run<R: AllocGlobal + Env + Print + Threads + Wait + Sync>(
    rt: &R,
) -> Result<bool, WorkloadFault> {
    let Some(words) = read_words(rt) else {
        return Ok(false);
    };
    let [_, workload, rounds, seed] = words.as_slice() else {
        return Ok(false);
    };
    let (Some(rounds), Some(seed)) = (number_of(rounds.as_str()), number_of(seed.as_str())) else {
        return Ok(false);
    };
    if workload.as_str() != "small" {
        return run_one(rt, workload.as_str(), rounds, 1, seed);
    }
    for workload in [
        "bulk",
        "lists",
        "interleaved",
        "awkward",
        "links",
        "longest",
        "everyday",
    ] {
        if !run_one(rt, workload, rounds, SMALL, seed)? {
            return Ok(false);
        }
    }
    Ok(true)
}

/// Runs a workload, and prints its digest. Returns false if no workload has this name.
fn run_one<R: AllocGlobal + Print + Threads + Wait + Sync>(
    rt: &R,
    workload: &str,
    rounds: u32,
    scale: u32,
    seed: u32,
) -> Result<bool, WorkloadFault> {
    let alloc = rt.alloc();
    let digest = match workload {
        "bulk" => bulk::run(alloc, rounds, scale, seed)?,
        "lists" => lists::run(alloc, rounds, scale, seed)?,
        "interleaved" => interleaved::run(alloc, rounds, scale, seed)?,
        "awkward" => awkward::run(alloc, rounds, scale, seed)?,
        "links" => links::run(rt, alloc, rounds, scale, seed)?,
        "longest" => longest::run(alloc, rounds, scale, seed)?,
        "everyday" => everyday::run(alloc, rounds, scale, seed)?,
        _ => return Ok(false),
    };
    match println!(rt; "{workload} {digest}") {
        Ok(()) => Ok(true),
        Err(_) => Err(WorkloadFault::Memory),
    }
}

/// The words of the command line.
fn read_words<R: AllocGlobal + Env>(rt: &R) -> Option<Vec<String>> {
    env::args(rt).ok()?.collect(rt.alloc()).ok()
}

fn number_of(word: &str) -> Option<u32> {
    match word.parse::<u32>() {
        Ok(number) => Some(number),
        Err(_) => None,
    }
}
