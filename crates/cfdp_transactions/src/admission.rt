//! The admission of a transaction by its Metadata PDU (CCSDS 727.0-B-5 §5.2.5, copy file procedures).

ghost use Rattle.std.specs.Prelude.{◌≡◌, ◌<◌, ◌≤◌, ℕ, None, IsFalse, IfOk, OnOk, OnErr, length};
ghost use Rattle.cfdp_leases.specs.Footprint.{footprint_of};
ghost use Rattle.cfdp_leases.specs.Leases.{first_conflict};
ghost use Rattle.cfdp_quota.specs.Budget.{IsOpen, spare};
ghost use Rattle.cfdp_transactions.specs.Entry.{Receiving, id_of, is_live};
ghost use Rattle.cfdp_transactions.specs.World.{free_slot};
ghost use Rattle.cfdp_transactions.specs.Sound.{Sound};
ghost use Rattle.cfdp_transactions.specs.code.Adding.{AddsEntry, IsRuled};
ghost use Rattle.cfdp_transactions.specs.Admission.{is_known_checksum, metadata_came, new_entry, proposal_of, refused_entry};
ghost use Rattle.cfdp_verifier.specs.Answers.{verdict_said, granted_items, HasFootprint};
ghost use Rattle.cfdp_verifier.specs.Verdict.{verdict};
ghost use Rattle.cfdp_transactions.specs.code.Books.{Carries, IsBooked, world_of};
ghost use Rattle.cfdp_transactions.specs.code.TableEntries.{kept_index};

use crate::books::Books;
use crate::declared_file::{bound_of, names_file};
use crate::table_entry::TableEntry;
use crate::{Config, Phase, Reply};
use cfdp_actions::Filestore;
use cfdp_paths::Memory;
use cfdp_pdus::checksum_type::{MODULAR_CHECKSUM, NULL_CHECKSUM};
use cfdp_pdus::condition::UNSUPPORTED_CHECKSUM_TYPE;
use cfdp_pdus::{Header, Metadata};
use cfdp_quota::{Quota, SLOTS};
use cfdp_verifier::{Grant, Proposal, Verdict, verify};
use std::alloc::Global;

/// What becomes of Metadata whose transaction may begin.
#[derive(Drop)]
pub(crate) enum Ruling {
    /// It ends at once: it has a file, and a checksum type that this entity does not compute.
    Unsupported,
    /// The verdict on its list of requests and its file.
    Judged(Verdict),
}

/// The ruling on Metadata, which is lent. The memory that the verdict needed is given back, but for what is granted.
///
/// # Errors
///
/// Out of memory. Cost: that of `verify`.
pub(crate) fn judge<S: Filestore>(
    alloc: Global,
    store: &S,
    books: &Books,
    metadata: &Metadata,
) -> Result<Ruling, Memory>
    requires booked { IsBooked (S.state store.now) books.now }
    ensures ruled { IfOk result (IsRuled (world_of (S.state store.now) books.now) metadata.now) }
{
    if names_file(metadata) && !is_known_checksum(metadata.checksum_type) {
        return Ok(Ruling::Unsupported);
    }
    let verdict = judge_list(alloc, store, books, metadata)?;
    Ok(Ruling::Judged(verdict))
}

/// Records the Metadata of a transaction that is not in the table, while there is room for it and its list, as its
/// ruling says. It is moved into the table. Out of memory nothing has changed, and the Metadata is dropped. Cost: a
/// pass over the slots.
pub(crate) fn record<S: Filestore>(
    alloc: Global,
    store: &S,
    books: &mut Books,
    header: &Header,
    metadata: Metadata,
    ruling: Ruling,
) -> Reply
    requires sound { Sound (world_of (S.state store.now) books.old) }
    requires booked { IsBooked (S.state store.now) books.old }
    requires absent { kept_index (id_of header.now) books.old.table ≡ length books.old.table }
    requires few { length books.old.table < 64 }
    requires short { length metadata.requests ≤ 64 }
    requires ruled { IsRuled (world_of (S.state store.now) books.old) metadata ruling }
    ensures answer { let W = world_of (S.state store.now) books.old in
        Carries W (world_of (S.state store.now) books.new) (metadata_came W header.now metadata None) result }
    ensures booked { IsBooked (S.state store.now) books.new }
{
    match ruling {
        Ruling::Unsupported => {
            let phase = Phase::Ended(UNSUPPORTED_CHECKSUM_TYPE);
            match add_final(alloc, store, books, header, metadata, phase) {
                Ok(()) => Reply::Faulted(UNSUPPORTED_CHECKSUM_TYPE),
                Err(_) => Reply::Memory,
            }
        }
        Ruling::Judged(Verdict::Refuse(refusal)) => {
            match add_final(alloc, store, books, header, metadata, Phase::Refused) {
                Ok(()) => Reply::Refused(refusal),
                Err(_) => Reply::Memory,
            }
        }
        Ruling::Judged(Verdict::Grant(grant)) => {
            let (blocks, steps) = (grant.blocks, grant.steps);
            match add_granted(alloc, store, books, header, metadata, grant) {
                Ok(()) => Reply::Admitted(blocks, steps),
                Err(_) => Reply::Memory,
            }
        }
    }
}

/// Whether this entity computes the checksum, or need not.
fn is_known_checksum(checksum_type: u8) -> bool
    ensures { result ≡ is_known_checksum checksum_type }
{
    checksum_type == MODULAR_CHECKSUM || checksum_type == NULL_CHECKSUM
}

/// The verdict on the list of requests and its file.
fn judge_list<S: Filestore>(
    alloc: Global,
    store: &S,
    books: &Books,
    metadata: &Metadata,
) -> Result<Verdict, Memory>
    ensures verdict { IfOk result (λ answer. verdict_said answer
        ≡ verdict books.now.config.prefixes (S.state store.now).filestore
        books.now.leases (spare books.now.quota) (proposal_of books.now.config metadata.now)) }
    ensures footprint { IfOk result HasFootprint }
{
    let destination = if names_file(metadata) {
        Some(metadata.destination_name.as_slice())
    } else {
        None
    };
    let proposal = Proposal {
        destination,
        bound: bound_of(&books.config, metadata),
        requests: &metadata.requests,
    };
    verify(
        alloc,
        store,
        &books.leases,
        &books.quota,
        books.config.protected(),
        &proposal,
    )
}

/// Adds a transaction that never was live.
fn add_final<S: Filestore>(
    alloc: Global,
    store: &S,
    books: &mut Books,
    header: &Header,
    metadata: Metadata,
    phase: Phase,
) -> Result<(), Memory>
    requires booked { IsBooked (S.state store.now) books.old }
    requires absent { kept_index (id_of header.now) books.old.table ≡ length books.old.table }
    requires over { IsFalse (is_live phase) }
    ensures adds { OnOk result (AddsEntry (world_of (S.state store.now) books.old)
        (world_of (S.state store.now) books.new)
        (refused_entry header.now metadata phase)) }
    ensures err { OnErr result (world_of (S.state store.now) books.new ≡ world_of (S.state store.now) books.old) }
    ensures booked { IsBooked (S.state store.now) books.new }
{
    let entry = TableEntry::new(*header, metadata, phase, 0, None, Vec::new(alloc), 0, 0);
    books.table.push(entry)?;
    Ok(())
}

/// Adds a transaction that is granted its list.
fn add_granted<S: Filestore>(
    alloc: Global,
    store: &S,
    books: &mut Books,
    header: &Header,
    metadata: Metadata,
    grant: Grant,
) -> Result<(), Memory>
    requires sound { Sound (world_of (S.state store.now) books.old) }
    requires booked { IsBooked (S.state store.now) books.old }
    requires absent { kept_index (id_of header.now) books.old.table ≡ length books.old.table }
    requires few { length books.old.table < 64 }
    requires footprint { grant.footprint ≡ footprint_of (granted_items grant) }
    requires apart { first_conflict books.old.leases grant.footprint ≡ None }
    requires room { grant.blocks ≤ spare books.old.quota }
    ensures adds { let W = world_of (S.state store.now) books.old in
        OnOk result (AddsEntry W (world_of (S.state store.now) books.new)
        (new_entry header.now metadata Receiving (free_slot W.table) (granted_items grant) grant.blocks grant.steps)) }
    ensures err { OnErr result (world_of (S.state store.now) books.new ≡ world_of (S.state store.now) books.old) }
    ensures booked { IsBooked (S.state store.now) books.new }
{
    let Grant {
        footprint,
        requests,
        destination,
        blocks,
        steps,
    } = grant;
    let slot = first_closed(&books.quota);
    let entry = TableEntry::new(
        *header,
        metadata,
        Phase::Receiving,
        slot,
        destination,
        requests,
        blocks,
        steps,
    );
    let transaction = entry.name();
    let index = books.table.len();
    books.table.push(entry)?;
    if let Err(refusal) = books.leases.grant(transaction, footprint) {
        books.table.forget(index);
        return Err(refusal);
    }
    books.quota.reserve(slot, blocks);
    Ok(())
}

/// The first slot that is closed: how many there are where none is.
fn first_closed(quota: &Quota) -> u8
    ensures closed { result < 64 → ¬ IsOpen quota.now result }
    ensures before { (slot : ℕ) → slot < result → IsOpen quota.now slot }
    ensures within { result ≤ 64 }
{
    for slot in 0..SLOTS as u8 {
        if !quota.is_open(slot) {
            return slot;
        }
    }
    SLOTS as u8
}
