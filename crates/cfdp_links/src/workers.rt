//! The workers of `links`: one for each file, and what they are sent.
ghost use Rattle.std.specs.Prelude.{◌≡◌, ◌≤◌, length, IfOk};
ghost use Rattle.cfdp_links.specs.Linked.{AllNumbered, IsWork};

use crate::messages::copy_of;
use cfdp_engine::{Gate, Message, Seat, Shared, Worked, work};
use cfdp_tree::TreeStore;
use crossbeam_channel::{Receiver, Sender, bounded};
use std::alloc::{AllocError, Global};
use std::sync::Wait;
use std::thread;
use std::thread::{Promise, PromisedHandle, Threads};

/// How many messages an inbox has room for.
const INBOX: usize = 16;

/// A worker with this number leaves its work.
#[derive(Clone, Copy, Drop)]
struct Numbered(u8);

impl Promise<Worked> for Numbered {
    ghost use Rattle.cfdp_links.specs.Linked.{IsWork};

    ghost kept_by = { λ promise worked. IsWork promise.0 worked };
}

/// Works as the worker with this number, until its inbox is closed.
fn work_as<R: Wait, G: Gate>(
    rt: &R,
    alloc: Global,
    shared: &Shared<TreeStore>,
    number: u8,
    inbox: Receiver<Message, Global>,
    gate: &G,
) -> Worked
    ensures { IsWork number result }
{
    work(rt, alloc, shared, Seat::new(alloc, number), inbox, gate)
}

/// How many messages the longest file has.
fn longest(files: &[Vec<Message>]) -> usize {
    let mut most = 0;
    for file in files {
        most = most.max(file.len());
    }
    most
}

/// Sends the workers what their files say, a message to each in turn, and closes their inboxes. A message for a worker
/// that has stopped is given up.
fn feed<R: Wait>(
    rt: &R,
    alloc: Global,
    files: &[Vec<Message>],
    inboxes: Vec<Sender<Message, Global>>,
) -> Result<(), AllocError> {
    for turn in 0..longest(files) {
        for (index, file) in files.iter().enumerate() {
            if let (Some(message), Some(inbox)) = (file.get(turn), inboxes.get(index)) {
                let _ = inbox.send(rt, copy_of(alloc, message)?);
            }
        }
    }
    Ok(())
}

/// What the workers leave, in their order.
fn join_all<R: Threads>(
    rt: &R,
    alloc: Global,
    workers: Vec<PromisedHandle<Worked, Numbered>>,
) -> Result<Vec<Worked>, AllocError>
    requires { AllNumbered (λ number worker. worker.promise.0 ≡ number) 0 workers.items }
    ensures works { IfOk result (λ all. AllNumbered IsWork 0 all.items) }
    ensures each { IfOk result (λ all. length all.items ≡ length workers.items) }
{
    let mut all = Vec::with_capacity(alloc, workers.len())?;
    for worker in workers {
        all.push(worker.join(rt))?;
    }
    Ok(all)
}

/// Runs a worker for each file, with seats numbered from 0 in their order, all at once, and leaves none.
///
/// # Errors
///
/// Out of memory, or a thread could not be started.
pub fn run_all<R: Threads + Wait + Sync, G: Gate + Sync>(
    rt: &R,
    alloc: Global,
    shared: &Shared<TreeStore>,
    files: &[Vec<Message>],
    gate: &G,
) -> Result<Vec<Worked>, AllocError>
    requires { length files.now ≤ 4 }
    ensures works { IfOk result (λ all. AllNumbered IsWork 0 all.items) }
    ensures each { IfOk result (λ all. length all.items ≡ length files.now) }
{
    thread::scope(
        thread::scope_env(),
        rt,
        |scope| -> Result<Vec<Worked>, AllocError>
            requires { length files.now ≤ 4 }
            ensures works { IfOk result (λ all. AllNumbered IsWork 0 all.items) }
            ensures each { IfOk result (λ all. length all.items ≡ length files.entry.now) }
        {
            let mut inboxes = Vec::with_capacity(alloc, files.len())?;
            let mut workers = Vec::with_capacity(alloc, files.len())?;
            for index in 0..files.len() {
                let number = index as u8;
                let (to, inbox) = bounded(alloc, INBOX)?;
                inboxes.push(to)?;
                let started = scope.spawn_with(Numbered(number), move || {
                    work_as(rt, alloc, shared, number, inbox, gate)
                });
                let Ok(worker) = started else {
                    return Err(AllocError);
                };
                workers.push(worker)?;
            }
            let fed = feed(rt, alloc, files, inboxes);
            let all = join_all(rt, alloc, workers)?;
            fed?;
            Ok(all)
        },
    )
}
