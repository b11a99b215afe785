//! A transfer through `Entity`: PDUs in hexadecimal come in on standard input, a line each. The reply to each, each
//! item that is performed and each Finished PDU go out on standard output.
//!
//! The entity has number 2 and a filestore of 64 blocks, in which there is a directory `app` with a file `app/prog`
//! before the first PDU. `docs/GUIDE.md`, 'The core', explains the calls. Between two PDUs all items that can be
//! performed are performed, and each outcome is taken.
#![tactic(auto)]

use cfdp_actions::Protected;
use cfdp_entity::{Entity, NotHeard};
use cfdp_paths::Path;
use cfdp_status::TransactionId;
use cfdp_transactions::{Config, Reply};
use std::alloc::{AllocError, AllocFailed};
use std::fmt;
use std::io::Read;
use std::process::ExitCode;

/// The longest Finished PDU, in octets.
const LONGEST_FINISHED: usize = 16_488;

/// The most items of a transaction: the install, and 64 requests.
const MOST_ITEMS: usize = 65;

/// The most transactions that an entity knows.
const MOST_TRANSACTIONS: usize = 64;

/// Why the example ends before the end of its input.
#[derive(Debug, Drop)]
enum ExampleFault {
    /// The input cannot be read.
    Read,
    /// The output cannot be written.
    Write,
    /// A line is not hexadecimal.
    Line,
    /// Out of memory.
    Memory,
    /// The configuration, a path or a file was refused.
    Refused,
}

impl fmt::Display for ExampleFault {
    fn fmt<W: fmt::Write>(&self, f: &mut fmt::Formatter<W>) -> fmt::Result {
        f.write_str(match self {
            ExampleFault::Read => "the input cannot be read",
            ExampleFault::Write => "the output cannot be written",
            ExampleFault::Line => "a line is not hexadecimal",
            ExampleFault::Memory => "out of memory",
            ExampleFault::Refused => "the filestore cannot be made",
        })
    }
}

impl From<std::io::Error> for ExampleFault {
    fn from(_failed: std::io::Error) -> ExampleFault {
        ExampleFault::Write
    }
}

impl From<AllocError> for ExampleFault {
    fn from(_refused: AllocError) -> ExampleFault {
        ExampleFault::Memory
    }
}

impl<T: Drop> From<AllocFailed<T>> for ExampleFault {
    fn from(_refused: AllocFailed<T>) -> ExampleFault {
        ExampleFault::Memory
    }
}

fn main(rt: HostRuntime) -> ExitCode {
    match run(&rt) {
        Ok(()) => ExitCode::SUCCESS,
        Err(fault) => {
            let _ = eprintln!(rt; "example_entity: {fault}");
            ExitCode::from(1)
        }
    }
}

/// Hands in each line of standard input.
fn run<R: AllocGlobal + Input + Print>(rt: &R) -> Result<(), ExampleFault> {
    let alloc = rt.alloc();
    let mut text = Vec::new(alloc);
    if rt.reader().read_to_end(&mut text).is_err() {
        return Err(ExampleFault::Read);
    }
    let mut entity = begin(rt)?;
    for line in text.split(|octet| *octet == b'\n') {
        if line.is_empty() {
            continue;
        }
        let Ok(octets) = hex::decode(alloc, line) else {
            return Err(ExampleFault::Line);
        };
        receive(rt, &mut entity, &octets)?;
        perform(rt, &mut entity)?;
        finish(rt, &mut entity)?;
    }
    Ok(())
}

/// The entity, with what its filestore has before the first PDU: directories first, in path order.
fn begin<R: AllocGlobal>(rt: &R) -> Result<Entity, ExampleFault> {
    let alloc = rt.alloc();
    let Ok(config) = Config::new(2, 64, 2_400, 2, 1_000, Protected::new()) else {
        return Err(ExampleFault::Refused);
    };
    let mut entity = Entity::new(alloc, config)?;
    let (Ok(app), Ok(prog)) = (Path::parse(alloc, b"app"), Path::parse(alloc, b"app/prog")) else {
        return Err(ExampleFault::Refused);
    };
    if entity.put_directory(&app).is_err() || entity.put_file(&prog, b"the old image").is_err() {
        return Err(ExampleFault::Refused);
    }
    Ok(entity)
}

/// Hands in a PDU.
fn receive<R: AllocGlobal + Print>(
    rt: &R,
    entity: &mut Entity,
    octets: &[u8],
) -> Result<(), ExampleFault> {
    match entity.receive(rt.alloc(), octets) {
        Ok((id, reply)) => say(rt, id, &reply),
        Err(NotHeard::NotOurs) => Ok(println!(rt; "a PDU that is not for a receiver")?),
        Err(NotHeard::Fault(fault)) => Ok(println!(rt; "no PDU: {fault}")?),
    }
}

/// Performs all items that can be performed now.
fn perform<R: Print>(rt: &R, entity: &mut Entity) -> Result<(), ExampleFault> {
    for _ in 0..MOST_ITEMS {
        let Some(id) = entity.core().next_runnable() else {
            break;
        };
        let reply = entity.step(id);
        say(rt, id, &reply)?;
    }
    Ok(())
}

/// Takes the outcome of each transaction that is over, and prints its Finished PDU.
fn finish<R: AllocGlobal + Print>(rt: &R, entity: &mut Entity) -> Result<(), ExampleFault> {
    let mut buffer = vec![in rt.alloc(); 0_u8; LONGEST_FINISHED]?;
    for _ in 0..MOST_TRANSACTIONS {
        let Some(id) = entity.core().next_outcome() else {
            break;
        };
        let Ok((_, count)) = entity.take(rt.alloc(), id, &mut buffer) else {
            return Err(ExampleFault::Memory);
        };
        let pdu = hex::encode(rt.alloc(), buffer.get(..count).unwrap_or(&[]))?;
        println!(rt; "{id}: over, Finished PDU {pdu}")?;
    }
    Ok(())
}

/// Prints a reply about a transaction.
fn say<R: Print>(rt: &R, id: TransactionId, reply: &Reply) -> Result<(), ExampleFault> {
    Ok(match reply {
        Reply::Admitted(blocks, steps) => {
            println!(rt; "{id}: admitted, with {blocks} blocks and {steps} steps")
        }
        Reply::Refused(refusal) => println!(rt; "{id}: refused, {refusal:?}"),
        Reply::Performed(status) => println!(rt; "{id}: a request was performed, {status:?}"),
        Reply::Faulted(condition) => println!(rt; "{id}: ended, condition code {condition}"),
        other => println!(rt; "{id}: {}", name_of(other)),
    }?)
}

/// What a reply without numbers says.
fn name_of(reply: &Reply) -> &'static str {
    match reply {
        Reply::Stored => "file data was stored",
        Reply::Dropped => "file data was dropped, since it would be in more than 32 pieces",
        Reply::Waiting => "the EOF came, and octets are missing",
        Reply::Complete => "the file is complete",
        Reply::Installed => "the file was installed",
        Reply::Done => "done without a file or a request",
        Reply::Duplicate => "came before",
        Reply::TableFull => "64 transactions are known",
        _ => "nothing to do",
    }
}
