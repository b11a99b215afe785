//! The scripts of `links`: several files at once, a worker each, on one entity.
ghost use Rattle.std.specs.Prelude.{◌≡◌, ◌≢◌, ◌↔◌, ℕ, ◌≤◌, true, length, map, None, Err, IfNone, IfOk, IfErr, IsOk, OnErr, OnOk};
ghost use Rattle.std.specs.List.{AllByRecursion};
ghost use Rattle.cfdp_transactions.specs.World.{start};
ghost use Rattle.cfdp_engine.specs.Sharing.{receipt_events};
ghost use Rattle.cfdp_engine.specs.Working.{BringAll, passed_over};
ghost use Rattle.cfdp_lines.specs.Lines.{input_limit};
ghost use Rattle.cfdp_links.specs.Linked.{AllNumbered, AreHanded, Handed, HasReadable, IsHeard, IsLinkLost, IsLinkRun, IsLinked, IsLinkedBy, IsWork, Stops};
ghost use Rattle.cfdp_links.specs.code.Linked.{Agree, link_fault_of, first_stop, IsRunFault, IsWorkFault, took_of};
ghost use Rattle.cfdp_links.specs.Links.{link_files, said_of};
ghost use Rattle.cfdp_lines.specs.declared.faults.LinkFault.TheVariants.{BadLine, ReceiptsDiffer, Write};

use cfdp_commands::copy_config;
use cfdp_engine::{Gate, Journaled, Message, Seat, Shared, Stop, Worked};
use cfdp_lines::LinkFault;
use cfdp_links::{
    Prepared, are_same, messages_are_readable, read_files, reconcile, run_all, text_of_closed,
};
use cfdp_streams::{ScriptOut, write_all};
use cfdp_transactions::Config;
use cfdp_tree::TreeStore;
use std::alloc::Global;
use std::sync::Wait;
use std::thread::Threads;

/// A gate that lets everybody pass.
pub struct Open;

impl Gate for Open {
    fn pass<R: Wait>(&self, _rt: &R, _seat: u8, _turn: u64) {}
}

/// What a stop of a worker is to the whole run.
fn fault_of(stop: Stop) -> LinkFault
    ensures { result ≡ link_fault_of stop }
{
    match stop {
        Stop::Memory => LinkFault::Memory,
        Stop::JournalFull => LinkFault::JournalFull,
    }
}

/// Why the first worker stopped that did.
fn first_stop(workers: &[Worked]) -> Option<Stop>
    ensures first { result ≡ first_stop workers.now }
    ensures none { IfNone result (AllByRecursion (λ worked. worked.stopped ≡ None) workers.now) }
{
    for worked in workers {
        if let Some(stop) = worked.stopped {
            return Some(stop);
        }
    }
    None
}

/// The seat of a worker that took just what its file says, and how many PDUs without an event it took.
///
/// # Errors
///
/// [`LinkFault::ReceiptsDiffer`] exactly where it took something else.
fn check_worker(worked: Worked, messages: &[Message]) -> Result<(Seat, u64), LinkFault>
    requires brought { BringAll worked.taken.items (receipt_events worked.seat.receipts) }
    requires dropped { worked.dropped ≡ passed_over worked.taken.items }
    requires heard { AllByRecursion IsHeard (map said_of messages.now) }
    ensures seat { IfOk result (λ checked. checked.0 ≡ worked.seat) }
    ensures handed { IfOk result (λ checked. Handed (map said_of messages.now)
        (receipt_events checked.0.receipts) checked.1) }
    ensures readable { IfOk result (λ checked. HasReadable checked.0) }
    ensures exactly { IsOk result ↔ (map said_of worked.taken.items ≡ map said_of messages.now) }
    ensures differs { OnErr result (result ≡ Err ReceiptsDiffer) }
{
    let Worked {
        seat,
        taken,
        dropped,
        stopped: _,
    } = worked;
    if !are_same(&taken, messages) {
        return Err(LinkFault::ReceiptsDiffer);
    }
    messages_are_readable(&taken);
    Ok((seat, dropped))
}

/// The seats of all workers, and how many PDUs without an event each took.
///
/// # Errors
///
/// [`LinkFault::ReceiptsDiffer`] only where one took something else than its file says; out of memory.
fn check_workers(
    alloc: Global,
    workers: Vec<Worked>,
    files: &[Vec<Message>],
) -> Result<(Vec<Seat>, Vec<u64>), LinkFault>
    requires each { length workers.items ≡ length files.now }
    requires works { AllNumbered IsWork 0 workers.items }
    requires finished { AllByRecursion (λ worked. worked.stopped ≡ None) workers.items }
    requires heard { AllByRecursion (λ file. AllByRecursion IsHeard (map said_of file.items)) files.now }
    ensures handed { IfOk result (λ checked. AreHanded (λ seat. receipt_events seat.receipts) 0
        (map (λ file. map said_of file.items) files.now) checked.0.items checked.1.items) }
    ensures readable { IfOk result (λ checked. AllByRecursion HasReadable checked.0.items) }
    ensures seats { IfOk result (λ checked. checked.0.items ≡ map (λ worked. worked.seat) workers.items) }
    ensures took { OnOk result (took_of workers.items ≡ map (λ file. map said_of file.items) files.now) }
    ensures fault { IfErr result (IsWorkFault None (took_of workers.items
        ≡ map (λ file. map said_of file.items) files.now)) }
{
    let mut seats = Vec::with_capacity(alloc, files.len())?;
    let mut dropped = Vec::with_capacity(alloc, files.len())?;
    for worked in workers {
        let Some(file) = files.get(seats.len()) else {
            return Err(LinkFault::ReceiptsDiffer);
        };
        let (seat, passed_over) = match check_worker(worked, file) {
            Ok(checked) => checked,
            Err(fault) => return Err(fault),
        };
        let (Ok(()), Ok(())) = (seats.push(seat), dropped.push(passed_over)) else {
            return Err(LinkFault::Memory);
        };
    }
    Ok((seats, dropped))
}

/// The text of the workers' journal, once none is at work.
///
/// # Errors
///
/// Why the first worker stopped that did; without a stop, [`LinkFault::ReceiptsDiffer`] only where one took something
/// else than its file says, the receipts are not the journal, or the entity has not this configuration; out of memory.
fn text_of_work(
    alloc: Global,
    config: &Config,
    journaled: Journaled<TreeStore>,
    workers: Vec<Worked>,
    files: &[Vec<Message>],
) -> Result<Vec<u8>, LinkFault>
    requires each { length workers.items ≡ length files.now }
    requires works { AllNumbered IsWork 0 workers.items }
    requires heard { AllByRecursion (λ file. AllByRecursion IsHeard (map said_of file.items)) files.now }
    ensures ok { IfOk result (λ text. IsLinked (record {
      config = config.now;
      said = map (λ file. map said_of file.items) files.now;
    }) text.items) }
    ensures finished { OnOk result (first_stop workers.items ≡ None) }
    ensures why { IfErr result (IsWorkFault (first_stop workers.items)
        (Agree config.now journaled (map (λ file. map said_of file.items) files.now) workers.items)) }
    ensures fault { IfErr result IsRunFault }
{
    if let Some(stop) = first_stop(&workers) {
        return Err(fault_of(stop));
    }
    let (seats, dropped) = match check_workers(alloc, workers, files) {
        Ok(checked) => checked,
        Err(fault) => return Err(fault),
    };
    match reconcile(config, journaled, seats) {
        Ok(closed) => text_of_closed(alloc, &closed, &dropped),
        Err(fault) => Err(fault),
    }
}

/// Runs a worker for each file, and says what they did.
///
/// # Errors
///
/// It returns the faults of [`text_of_work`], and [`LinkFault::Memory`] out of memory or where a thread could not be
/// started.
fn run_files<R: Threads + Wait + Sync, G: Gate + Sync>(
    rt: &R,
    alloc: Global,
    prepared: Prepared,
    gate: &G,
) -> Result<Vec<u8>, LinkFault>
    requires few { length prepared.files.items ≤ 4 }
    requires fresh { prepared.core.world ≡ start prepared.core.world.config }
    requires heard { AllByRecursion (λ file. AllByRecursion IsHeard (map said_of file.items)) prepared.files.items }
    ensures ok { IfOk result (λ text. IsLinked (record {
      config = prepared.core.world.config;
      said = map (λ file. map said_of file.items) prepared.files.items;
    }) text.items) }
    ensures fault { IfErr result IsRunFault }
{
    let Prepared { core, files } = prepared;
    let config = copy_config(alloc, core.config())?;
    let shared = Shared::new(Journaled::new(alloc, core)?);
    let workers = run_all(rt, alloc, &shared, &files, gate)?;
    text_of_work(alloc, &config, shared.into_journaled(), workers, &files)
}

/// Reads all files, and then runs a worker for each.
fn text_of_scripts<R: Threads + Wait + Sync, G: Gate + Sync>(
    rt: &R,
    alloc: Global,
    scripts: &[Vec<u8>],
    gate: &G,
) -> Result<Vec<u8>, LinkFault>
    requires few { length scripts.now ≤ 4 }
    requires short { AllByRecursion (λ script. length script.items ≤ input_limit) scripts.now }
    ensures ok { IfOk result (λ text. IsLinkedBy (map (λ script. script.items) scripts.now) text.items) }
    ensures stops { IfErr result (λ fault. Stops (link_files (map (λ script. script.items) scripts.now)) fault) }
    ensures no_write { result ≢ Err Write }
{
    match read_files(alloc, scripts) {
        Ok(prepared) => run_files(rt, alloc, prepared, gate),
        Err(fault) => Err(fault),
    }
}

/// Runs the scripts of several files on one receiving entity, a worker each, all at once.
///
/// The lines of all files are read before a worker starts; they are those of `replay`, without `list`. Only the first
/// file may begin with `config` and `protect`. The seats are numbered from 0 in the order of the files. Each worker has
/// an inbox of 16 messages, and passes the gate with each message. All are fed line by line in turn. A message for a
/// worker that has stopped is given up. Who comes first among the workers is free, and so is the order of the entries
/// of different seats. There are at most four files, each of at most 268,435,456 octets.
///
/// The text has:
///
/// - each entry of the journal with the number of its seat;
/// - each seat with the number of its receipts, and of the PDUs without an event;
/// - the length of the journal;
/// - all that is in the filestore.
///
/// # Errors
///
/// - [`LinkFault::BadLine`] for the first bad line of the first file that has one.
/// - [`LinkFault::Memory`] when out of memory, or where a thread could not be started.
/// - [`LinkFault::JournalFull`] where the journal was full. Of several workers that stopped, the one with the lowest
///   seat decides.
/// - [`LinkFault::ReceiptsDiffer`] where a worker did not take what its file says, where the receipts are not the
///   journal, or where the entity does not have the configuration of the files.
/// - [`LinkFault::Write`] where the writer failed: then a beginning of the text was written, as far as the writer
///   shows.
///
/// After each fault but the last, nothing was written.
///
/// Memory: the messages of all files twice, the journal, the filestore and the text. Cost: one pass over the octets,
/// and that of the events.
pub fn links<R: Threads + Wait + Sync, G: Gate + Sync, W: ScriptOut>(
    rt: &R,
    alloc: Global,
    scripts: &[Vec<u8>],
    gate: &G,
    writer: &mut W,
) -> Result<(), LinkFault>
    requires few { length scripts.now ≤ 4 }
    requires short { AllByRecursion (λ script. length script.items ≤ input_limit) scripts.now }
    // No script has a bad line. The text that was written is that of a journal of the entity with their configuration.
    // Its entries are the receipts of the seats, and each seat's events are those of its file's lines.
    ensures ok { OnOk result (IsLinkRun (map (λ script. script.items) scripts.now) (W.contents writer.old)
        (W.contents writer.new)) }
    // The first bad line of the first file that has one.
    ensures bad_line { (file line : ℕ) → result ≡ Err (BadLine file line) →
        link_files (map (λ script. script.items) scripts.now) ≡ Err (file, line) }
    // Only out of memory hides it.
    ensures no_other { IfErr result (λ fault. Stops (link_files (map (λ script. script.items) scripts.now)) fault) }
    // Nothing was written; or the writer is to blame. Otherwise it has not failed.
    ensures unwritten { OnErr result (result ≢ Err Write → W.contents writer.new ≡ W.contents writer.old) }
    // A beginning of such a text was written, as far as the writer shows.
    ensures begun { result ≡ Err Write → IsLinkLost (map (λ script. script.items) scripts.now) (W.contents writer.old)
        (W.contents writer.new) }
    ensures write { result ≡ Err Write → W.failed writer.new ≡ true }
    ensures well_written { result ≢ Err Write → W.failed writer.new ≡ W.failed writer.old }
{
    let text = match text_of_scripts(rt, alloc, scripts, gate) {
        Ok(text) => text,
        Err(fault) => return Err(fault),
    };
    match write_all(writer, &text) {
        Ok(()) => Ok(()),
        Err(_) => Err(LinkFault::Write),
    }
}
