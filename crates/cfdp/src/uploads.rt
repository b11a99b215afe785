//! The uploads of a plan.

use crate::end::End;
use crate::input;
use crate::plan::{Heading, PieceOrder, Plan, Source, Transaction, read_plan};
use crate::section::PlanFault;
use crate::setting_lines::{Owner, Part, line_of};
use cfdp_pdus::checksum_type::MODULAR_CHECKSUM;
use cfdp_pdus::{Header, Metadata};
use cfdp_uploads::{Upload, UploadFault, in_order, piece_count, reversed, shortest_len, swapped};
use std::alloc::{AllocError, Global};
use std::rt::Files;

/// How the program ends for something wrong in a plan or in a setup.
pub fn end_of(alloc: Global, path: &str, text: &[u8], fault: PlanFault) -> End {
    match fault {
        PlanFault::Memory => End::Memory,
        PlanFault::Wrong(part, what) => wrong_at(alloc, path, text, &part, what.as_str()),
    }
}

/// How the program ends for something wrong with a part of a plan.
fn wrong_at(alloc: Global, path: &str, text: &[u8], part: &Part, what: &str) -> End {
    match line_of(alloc, text, part) {
        Ok(line) => format!(in alloc; "{path}:{line}: {what}").map_or(End::Memory, End::Plan),
        Err(end) => end,
    }
}

/// The indices of the pieces of a file of a size, in the order in which they are sent.
fn indices(
    alloc: Global,
    order: PieceOrder,
    size: usize,
    segment: usize,
) -> Result<Vec<usize>, AllocError> {
    let count = if segment == 0 {
        0
    } else {
        piece_count(size, segment)
    };
    match order {
        PieceOrder::InOrder => in_order(alloc, count),
        PieceOrder::Reversed => reversed(alloc, count),
        PieceOrder::Swapped => swapped(alloc, count),
        PieceOrder::Listed(indices) => Ok(indices),
    }
}

/// The header of a transaction's PDUs, for a file of a size.
fn header_of(entity: u64, heading: Heading, size: usize) -> Header {
    let ids = shortest_len(heading.source).max(shortest_len(entity));
    Header {
        toward_sender: false,
        acknowledged: heading.acknowledged,
        large: heading.large || size >> 32 != 0,
        id_len: ids.max(heading.id_len),
        number_len: shortest_len(heading.number).max(heading.number_len),
        source: heading.source,
        number: heading.number,
        destination: entity,
    }
}

/// The source and the destination file name; empty without a file.
fn names_of(alloc: Global, file: Option<Source>) -> (Vec<u8>, Vec<u8>) {
    match file {
        Some(
            Source {
                path: _,
                source_name,
                destination_name,
            },
        ) => (source_name, destination_name),
        None => (Vec::new(alloc), Vec::new(alloc)),
    }
}

/// The upload of a transaction, with the octets of its file.
fn upload_of<'a>(
    alloc: Global,
    entity: u64,
    transaction: Transaction,
    octets: &'a [u8],
) -> Result<Upload<'a>, UploadFault> {
    let Transaction {
        heading,
        closure,
        file,
        segment,
        order,
        requests,
    } = transaction;
    let header = header_of(entity, heading, octets.len());
    let order = indices(alloc, order, octets.len(), segment)?;
    let (source_name, destination_name) = names_of(alloc, file);
    let metadata = Metadata {
        closure,
        checksum_type: MODULAR_CHECKSUM,
        size: 0,
        source_name,
        destination_name,
        requests,
    };
    Upload::new(alloc, header, metadata, octets, segment, order)
}

/// The key of a transaction at which an upload has a fault.
fn key_of(fault: UploadFault) -> &'static str {
    match fault {
        UploadFault::SourceName => "name",
        UploadFault::DestinationName => "as",
        UploadFault::Request(_) | UploadFault::Metadata => "requests",
        UploadFault::Segment => "segment",
        UploadFault::NoPiece(_) | UploadFault::NotSent(_) => "order",
        UploadFault::Header | UploadFault::FileSize | UploadFault::Memory => "file",
    }
}

/// The part of a plan with which the upload of a transaction with a number has a fault, and what it is.
fn refusal(alloc: Global, number: usize, fault: UploadFault) -> Result<(Part, String), AllocError> {
    let key = String::from_str(alloc, key_of(fault))?;
    let UploadFault::Request(request) = fault else {
        return Ok((
            Part::Key(Owner::Transaction(number), key),
            format!(in alloc; "{fault}")?,
        ));
    };
    let value = request.saturating_add(1);
    let what = format!(in alloc;
        "{key}, value {value}: too long: no response can repeat its names"
    )?;
    Ok((Part::Item(Owner::Transaction(number), key, request), what))
}

/// How the program ends for a fault of the upload of a transaction with a number.
fn refused(alloc: Global, path: &str, text: &[u8], number: usize, fault: UploadFault) -> End {
    if fault == UploadFault::Memory {
        return End::Memory;
    }
    match refusal(alloc, number, fault) {
        Ok((part, what)) => wrong_at(alloc, path, text, &part, what.as_str()),
        Err(_) => End::Memory,
    }
}

/// The octets of the file of a transaction with a number: none without a file.
fn read_file<R: AllocGlobal + Files + Input>(
    rt: &R,
    path: &str,
    text: &[u8],
    number: usize,
    transaction: &Transaction,
) -> Result<Vec<u8>, End> {
    let alloc = rt.alloc();
    let Some(file) = &transaction.file else {
        return Ok(Vec::new(alloc));
    };
    let name = file.path.as_str();
    match input::read(rt, Some(name)) {
        Err(End::Read) => {
            let part = Part::Key(Owner::Transaction(number), String::from_str(alloc, "file")?);
            let what = format!(in alloc; "file: '{name}' cannot be read")?;
            Err(match wrong_at(alloc, path, text, &part, what.as_str()) {
                End::Plan(said) => End::File(said),
                end => end,
            })
        }
        read => read,
    }
}

/// The plan in a file, and its text.
pub fn plan_in<R: AllocGlobal + Files + Input>(rt: &R, path: &str) -> Result<(Vec<u8>, Plan), End> {
    let alloc = rt.alloc();
    let text = match input::read(rt, Some(path)) {
        Err(End::Read) => {
            return Err(End::File(format!(in alloc; "{path}: the plan cannot be read")?));
        }
        read => read?,
    };
    match read_plan(alloc, &text) {
        Ok(plan) => Ok((text, plan)),
        Err(fault) => Err(end_of(alloc, path, &text, fault)),
    }
}

/// The octets of the file of each transaction.
pub fn read_files<R: AllocGlobal + Files + Input>(
    rt: &R,
    path: &str,
    text: &[u8],
    transactions: &[Transaction],
) -> Result<Vec<Vec<u8>>, End> {
    let mut files = Vec::new(rt.alloc());
    for (number, transaction) in transactions.iter().enumerate() {
        files.push(read_file(rt, path, text, number, transaction)?)?;
    }
    Ok(files)
}

/// The upload of each transaction to an entity, with the octets of its file.
pub fn uploads_of<'a>(
    alloc: Global,
    path: &str,
    text: &[u8],
    entity: u64,
    transactions: Vec<Transaction>,
    files: &'a [Vec<u8>],
) -> Result<Vec<Upload<'a>>, End> {
    let mut uploads = Vec::new(alloc);
    for (number, (transaction, file)) in transactions.into_iter().zip(files).enumerate() {
        match upload_of(alloc, entity, transaction, file) {
            Ok(upload) => uploads.push(upload)?,
            Err(fault) => return Err(refused(alloc, path, text, number, fault)),
        }
    }
    Ok(uploads)
}
