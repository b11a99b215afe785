//! `cfdp judge`: whether the uploads of a plan are admitted.

use crate::end::End;
use crate::folder::FolderNames;
use crate::plan::Plan;
use crate::show::print;
use crate::uploads::{plan_in, read_files, uploads_of};
use crate::{folder, plan};
use cfdp_actions::{Protected, Request};
use cfdp_entity::Entity;
use cfdp_paths::{Path, PathFault};
use cfdp_pdus::Metadata;
use cfdp_status::TransactionId;
use cfdp_transactions::{Config, Reply};
use cfdp_uploads::{Upload, in_order, piece_count};
use cfdp_verdicts::{costs, push_admitted, push_refused, push_table};
use cfdp_verifier::{MOST_REQUESTS, Proposal, parse_request};
use std::alloc::Global;
use std::rt::Files;

/// How many octets of a file are in each File Data PDU.
const SEGMENT: usize = 65_000;

/// The most octets that a Finished PDU has.
const LONGEST_FINISHED: usize = 16_488;

/// The most items that a transaction has: its file, and 64 requests.
const MOST_ITEMS: usize = 65;

/// The path that octets spell, if any.
fn path_of(alloc: Global, octets: &[u8]) -> Result<Option<Path>, End> {
    match Path::parse(alloc, octets) {
        Ok(path) => Ok(Some(path)),
        Err(PathFault::Memory) => Err(End::Memory),
        Err(_) => Ok(None),
    }
}

/// A number of a plan that is within its range.
fn narrow(number: u64) -> u32 {
    u32::try_from(number).unwrap_or(u32::MAX)
}

/// The receiving entity of a plan or of a setup, with an empty filestore.
pub fn entity_of(alloc: Global, entity: &plan::EntitySection) -> Result<Entity, End> {
    let mut protected = Protected::new();
    for octets in &entity.protected {
        if let Some(path) = path_of(alloc, octets)? {
            // A plan has eight at most.
            let _ = protected.add(path);
        }
    }
    let config = Config::new(
        entity.id,
        narrow(entity.blocks),
        entity.cap,
        narrow(entity.checks),
        narrow(entity.journal),
        protected,
    );
    match config {
        Ok(config) => Ok(Entity::new(alloc, config)?),
        Err(fault) => Err(End::Plan(format!(in alloc; "{fault}")?)),
    }
}

/// What the upload proposes to an entity whose cap for files of unbounded size is this one.
fn proposal_of<'a>(metadata: &'a Metadata, cap: u64) -> Proposal<'a> {
    let has_file = !metadata.destination_name.is_empty();
    let bound = if metadata.size == 0 {
        cap
    } else {
        metadata.size
    };
    Proposal {
        destination: if has_file {
            Some(metadata.destination_name.as_slice())
        } else {
            None
        },
        bound: if has_file { bound } else { 0 },
        requests: &metadata.requests,
    }
}

/// The requests with paths for their names, if each name is one.
fn requests_of(alloc: Global, proposal: &Proposal<'_>) -> Result<Option<Vec<Request>>, End> {
    let mut requests = Vec::new(alloc);
    for request in proposal.requests {
        match parse_request(alloc, request)? {
            Some(request) => requests.push(request)?,
            None => return Ok(None),
        }
    }
    Ok(Some(requests))
}

/// Appends the table of what a list of items takes on the filestore of an entity.
fn push_items(
    alloc: Global,
    entity: &Entity,
    proposal: &Proposal<'_>,
    text: &mut Vec<u8>,
) -> Result<(), End> {
    let destination = match proposal.destination {
        None => None,
        Some(octets) => match path_of(alloc, octets)? {
            Some(path) => Some(path),
            None => return Ok(()),
        },
    };
    let Some(requests) = requests_of(alloc, proposal)? else {
        return Ok(());
    };
    let core = entity.core();
    let bound = match destination {
        None => 0,
        Some(_) => proposal.bound,
    };
    let costs = costs(
        alloc,
        core.store(),
        core.config().protected(),
        destination.as_ref(),
        bound,
        &requests,
    )?;
    push_table(alloc, destination.as_ref(), &requests, &costs, text)?;
    Ok(())
}

/// Takes the PDU of an upload with a number.
fn receive(
    alloc: Global,
    entity: &mut Entity,
    upload: &Upload<'_>,
    number: usize,
) -> Result<(TransactionId, Reply), End> {
    let mut octets = Vec::new(alloc);
    if number >= upload.pdu_count() || upload.write(number, &mut octets).is_err() {
        return Err(End::Memory);
    }
    match entity.receive(alloc, &octets) {
        Ok(heard) => Ok(heard),
        Err(_) => Err(End::Memory),
    }
}

/// Takes all PDUs of an upload but the first, performs what it asks for, and takes its outcome.
fn complete(
    alloc: Global,
    entity: &mut Entity,
    upload: &Upload<'_>,
    id: TransactionId,
) -> Result<(), End> {
    for number in 1..upload.pdu_count() {
        receive(alloc, entity, upload, number)?;
    }
    for _ in 0..MOST_ITEMS {
        match entity.core().next_runnable() {
            None => break,
            Some(id) => entity.step(id),
        };
    }
    take(alloc, entity, id)
}

/// Takes the outcome of a transaction that is over.
fn take(alloc: Global, entity: &mut Entity, id: TransactionId) -> Result<(), End> {
    let mut room = vec![in alloc; 0_u8; LONGEST_FINISHED]?;
    match entity.take(alloc, id, &mut room) {
        Ok((Reply::Taken(_), _)) => Ok(()),
        Ok(_) => Err(End::Incomplete(id)),
        Err(_) => Err(End::Memory),
    }
}

/// A copy of the Metadata of an upload.
fn copy_of(alloc: Global, metadata: &Metadata) -> Result<Metadata, End> {
    let mut requests = Vec::new(alloc);
    for request in &metadata.requests {
        requests.push(request.copy(alloc)?)?;
    }
    Ok(Metadata {
        closure: metadata.closure,
        checksum_type: metadata.checksum_type,
        size: metadata.size,
        source_name: Vec::from_slice(alloc, &metadata.source_name)?,
        destination_name: Vec::from_slice(alloc, &metadata.destination_name)?,
        requests,
    })
}

/// The upload with its pieces in order, so that it is complete if it is admitted: no more than one piece is kept at any
/// time.
fn in_turn<'a>(alloc: Global, upload: &Upload<'_>, file: &'a [u8]) -> Result<Upload<'a>, End> {
    let order = in_order(alloc, piece_count(file.len(), SEGMENT))?;
    let metadata = copy_of(alloc, upload.metadata())?;
    match Upload::new(alloc, *upload.header(), metadata, file, SEGMENT, order) {
        Ok(upload) => Ok(upload),
        Err(_) => Err(End::Memory),
    }
}

/// Judges an upload on the filestore of an entity, prints the verdict, and completes the upload if it is admitted:
/// whether it is.
fn judge<R: AllocGlobal + Print>(
    rt: &R,
    entity: &mut Entity,
    upload: &Upload<'_>,
) -> Result<bool, End> {
    let alloc = rt.alloc();
    let mut text = Vec::new(alloc);
    let proposal = proposal_of(upload.metadata(), entity.core().config().cap());
    let (id, reply) = receive(alloc, entity, upload, 0)?;
    let admitted = match reply {
        Reply::Admitted(blocks, steps) => {
            push_admitted(id, blocks, steps, &mut text)?;
            true
        }
        Reply::Refused(refusal) => {
            push_refused(id, refusal, &proposal, &mut text)?;
            false
        }
        _ => return Err(End::Incomplete(id)),
    };
    // A longer list is refused before it is run, and the transaction is not known then.
    let is_kept = proposal.requests.len() <= MOST_REQUESTS;
    if is_kept {
        push_items(alloc, entity, &proposal, &mut text)?;
    }
    print(rt, &text)?;
    if admitted {
        complete(alloc, entity, upload, id)?;
    } else if is_kept {
        take(alloc, entity, id)?;
    }
    Ok(admitted)
}

/// The entity of a plan, whose filestore has what a folder has, or nothing without one.
fn begin<R: AllocGlobal + Clone + Drop + Files + Input>(
    rt: &R,
    asked: &plan::EntitySection,
    on: Option<&str>,
) -> Result<Entity, End> {
    let mut receiver = entity_of(rt.alloc(), asked)?;
    if let Some(folder) = on {
        folder::put(rt, folder, FolderNames::Any, &mut receiver)?;
    }
    Ok(receiver)
}

/// Judges uploads with their files, each on the filestore after those before it. Returns how many are refused.
fn judge_all<R: AllocGlobal + Print>(
    rt: &R,
    receiver: &mut Entity,
    uploads: &[Upload<'_>],
    files: &[Vec<u8>],
) -> Result<usize, End> {
    let mut refused = 0_usize;
    for (upload, file) in uploads.iter().zip(files) {
        if !judge(rt, receiver, &in_turn(rt.alloc(), upload, file)?)? {
            refused = refused.saturating_add(1);
        }
    }
    Ok(refused)
}

/// Judges the uploads of a plan with its entity, which begins over a folder, or over nothing without one.
fn judge_on<R: AllocGlobal + Clone + Drop + Files + Input + Print>(
    rt: &R,
    asked: &plan::EntitySection,
    on: Option<&str>,
    uploads: &[Upload<'_>],
    files: &[Vec<u8>],
) -> Result<(), End> {
    let mut receiver = begin(rt, asked, on)?;
    match judge_all(rt, &mut receiver, uploads, files)? {
        0 => Ok(()),
        refused => Err(End::Refused(refused, uploads.len())),
    }
}

/// Judges the uploads of the plan in a file, each on the filestore after those before it, which has what a folder has
/// at first, or nothing without one.
pub fn run<R: AllocGlobal + Clone + Drop + Files + Input + Print>(
    rt: &R,
    path: &str,
    on: Option<&str>,
) -> Result<(), End> {
    let (text, plan) = plan_in(rt, path)?;
    let Plan {
        entity,
        transactions,
    } = plan;
    let files = read_files(rt, path, &text, &transactions)?;
    let uploads = uploads_of(rt.alloc(), path, &text, entity.id, transactions, &files)?;
    judge_on(rt, &entity, on, &uploads, &files)
}
