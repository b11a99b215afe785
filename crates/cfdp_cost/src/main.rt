//! `cfdp_cost entity|receiver SESSIONS COUNT [each|immediate|deadline|stranger]`: File Data PDUs, so that their cost
//! can be counted.
//!
//! An entity begins SESSIONS transactions, 1 to 64, in acknowledged mode. Then COUNT File Data PDUs of 1,000 octets of
//! the last transaction, 1 to 7,800, are handed in, in order, by `Entity::receive` or by `Receiver::receive`. They come
//! from one buffer whose number and offset alone change, nothing else is done between them, and no memory is asked for.
//! With `each` they are PDUs of all transactions in turn. With `immediate` the receiver asks for a gap when it begins.
//! With `deadline` the receiver is asked for its deadline after each PDU. With `stranger` 256 transactions are closed
//! before, and the PDUs are of a transaction that never began.
//!
//! At the end a line says how many were stored and what became of the last one; the exit status is 1 unless all were
//! stored, and of `stranger` none.
//!
//! The instructions of a run with twice the COUNT, less those of a run with COUNT, are those of COUNT PDUs.
#![tactic(auto)]

mod counting;
mod fault;
mod hearing;
mod pdus;

use cfdp_entity::Entity;
use cfdp_receiver::{NakMode, Receiver};
use counting::{CallTally, Whose, Workload, count};
use fault::CostFault;
use std::alloc::Global;
use std::env;
use std::process::ExitCode;
use std::rt::Env;

/// What PDUs are handed to, and what else is asked for.
#[derive(Clone, Copy, PartialEq, Eq)]
enum Route {
    Entity(Whose),
    Receiver(NakMode, Whose),
    /// The deadline of a receiver is asked for, too.
    Deadline,
    /// The PDUs are of a transaction that the receiver does not know.
    Stranger,
}

fn main(rt: HostRuntime) -> ExitCode {
    let Some((route, workload)) = read_words(&rt) else {
        let _ = eprintln!(rt;
            "cfdp_cost entity|receiver SESSIONS COUNT [each|immediate|deadline|stranger]: 1 to 64, 1 to 7800"
        );
        return ExitCode::from(2);
    };
    let wanted = if route == Route::Stranger {
        0
    } else {
        workload.count
    };
    match run(rt.alloc(), route, workload) {
        Ok(tally) => {
            let _ = println!(rt; "{} transactions: {tally}", workload.sessions);
            if tally.stored == wanted {
                ExitCode::SUCCESS
            } else {
                ExitCode::from(1)
            }
        }
        Err(fault) => {
            let _ = eprintln!(rt; "cfdp_cost: {fault}");
            ExitCode::from(1)
        }
    }
}

/// Hands all PDUs in, this way.
fn run(alloc: Global, route: Route, workload: Workload) -> Result<CallTally, CostFault> {
    let mut entity = hearing::entity(alloc)?;
    let nak_mode = match route {
        Route::Entity(_) => return count::<Entity>(alloc, &mut entity, workload),
        Route::Receiver(nak_mode, _) => nak_mode,
        Route::Deadline | Route::Stranger => NakMode::Deferred,
    };
    let mut receiver = hearing::receiver(alloc, entity, nak_mode)?;
    if route == Route::Stranger {
        hearing::close_names(alloc, &mut receiver)?;
    }
    count::<Receiver>(alloc, &mut receiver, workload)
}

/// What the command line asks for.
fn read_words<R: AllocGlobal + Env>(rt: &R) -> Option<(Route, Workload)> {
    let words: Vec<String> = env::args(rt).ok()?.collect(rt.alloc()).ok()?;
    let (route, sessions, count) = match words.as_slice() {
        [_, route, sessions, count] => (route_of(route.as_str(), "")?, sessions, count),
        [_, route, sessions, count, mode] => (
            route_of(route.as_str(), mode.as_str())?,
            sessions,
            count,
        ),
        _ => return None,
    };
    let workload = Workload {
        sessions: number_of(sessions.as_str(), 64)?,
        count: number_of(count.as_str(), 7_800)?,
        whose: match route {
            Route::Entity(whose) | Route::Receiver(_, whose) => whose,
            Route::Deadline => Whose::Last,
            Route::Stranger => Whose::Stranger,
        },
        asks_deadline: route == Route::Deadline,
    };
    Some((route, workload))
}

fn route_of(word: &str, mode: &str) -> Option<Route> {
    match (word, mode) {
        ("entity", "") => Some(Route::Entity(Whose::Last)),
        ("entity", "each") => Some(Route::Entity(Whose::Each)),
        ("receiver", "") => Some(Route::Receiver(NakMode::Deferred, Whose::Last)),
        ("receiver", "each") => Some(Route::Receiver(NakMode::Deferred, Whose::Each)),
        ("receiver", "immediate") => Some(Route::Receiver(NakMode::Immediate, Whose::Last)),
        ("receiver", "deadline") => Some(Route::Deadline),
        ("receiver", "stranger") => Some(Route::Stranger),
        _ => None,
    }
}

/// A number from 1 to `most`.
fn number_of(word: &str, most: u32) -> Option<u32> {
    let number = word.parse::<u32>().ok()?;
    if number == 0 || most < number {
        None
    } else {
        Some(number)
    }
}
