//! File data that comes for a transaction (CCSDS 727.0-B-5 §5.3, copy file procedures).

ghost use Rattle.std.specs.Prelude.{◌≡◌, ◌+◌, ◌<◌, ◌^◌, IsTrue, IsOk, OnOk, OnErr, nat_lt, length, slice_get, Some, ◌-◌, ◌≤◌, max, IfOk, [], ◌∷◌};
ghost use Rattle.cfdp_actions.specs.Filestore.{Filestore as Files, staged_in, blocks_of, Stages};
ghost use Rattle.cfdp_transactions.specs.Entry.{Entry as Transaction};
ghost use Rattle.cfdp_transactions.specs.Sound.{Sound};
ghost use Rattle.cfdp_transactions.specs.code.LowerLaws.{LowerLaws};
ghost use Rattle.cfdp_transactions.specs.Delivery.{data_came, limit, stored};
ghost use Rattle.cfdp_transactions.specs.code.TableEntries.{entry_in};
ghost use Rattle.cfdp_transactions.specs.Books.{IsAnswered};
ghost use Rattle.cfdp_transactions.specs.code.Books.{AnswersAt, IsBooked, IsSteady, IsTakenAt, StoresAt, world_of};
ghost use Rattle.cfdp_actions.specs.Store.{free_blocks, with_changes};
ghost use Rattle.cfdp_transactions.specs.code.FileData.{PutsOctets, kept};
ghost use Rattle.cfdp_transactions.specs.PieceLaws.{ArePieces};
ghost use Rattle.cfdp_transactions.specs.Pieces.{received_in, with_range};
ghost use Rattle.cfdp_transactions.specs.Received.{staged_of};

use crate::books::Books;
use crate::declared_file::bound_of;
use crate::delivery::judge;
use crate::phase_changes::end;
use crate::ranges::Ranges;
use crate::table_entry::TableEntry;
use crate::{Config, Phase, Reply};
use cfdp_actions::Filestore;
use cfdp_paths::Memory;
use cfdp_pdus::Piece;
use cfdp_pdus::condition::FILE_SIZE_ERROR;

/// File data of the transaction at an index. Out of memory, nothing has changed. Costs by its octets and the pieces
/// that they touch. If no octet is missing any more after an EOF PDU, the store is asked for the checksum, once.
pub(crate) fn receive<S: Filestore>(
    store: &mut S,
    books: &mut Books,
    index: usize,
    piece: &Piece<'_>,
) -> Reply
    requires laws { LowerLaws }
    requires sound { Sound (world_of (S.state store.old) books.old) }
    requires booked { IsBooked (S.state store.old) books.old }
    requires within { index < length books.old.table }
    ensures answer { let W = world_of (S.state store.old) books.old in
        AnswersAt W (world_of (S.state store.new) books.new) index (data_came W index piece.now) result }
    ensures answered { IsTrue (S.state store.old).takes_no_memory → IsAnswered result }
    ensures booked { IsBooked (S.state store.new) books.new }
    ensures steady { IsSteady (S.state store.old) (S.state store.new) }
{
    let entry = books.table.at(index);
    if !entry.phase().takes_data() {
        return Reply::Idle;
    }
    if piece.octets.is_empty() {
        return Reply::Stored;
    }
    let count = piece.octets.len() as u64;
    if ends_past(limit_of(&books.config, entry), piece.offset, count) {
        end(store, books, index, false, FILE_SIZE_ERROR);
        return Reply::Faulted(FILE_SIZE_ERROR);
    }
    if !entry
        .ranges()
        .has_room_for(piece.offset, piece.offset + count)
    {
        return Reply::Dropped;
    }
    let Ok(()) = stage(store, books, index, piece) else {
        return Reply::Memory;
    };
    judge_last(store, books, index)
}

/// Where octets of a transaction's file may end: at its bound; once its EOF PDU came, at that one's size too.
fn limit_of(config: &Config, entry: &TableEntry) -> u64
    ensures { (F : Files) → result ≡ limit entry.now.phase config.now (entry_in F entry.now) }
{
    let bound = bound_of(config, entry.metadata());
    match entry.phase() {
        Phase::Awaiting(_) => bound.min(entry.awaited_size()),
        _ => bound,
    }
}

/// Whether this many octets at an offset end past the limit.
fn ends_past(limit: u64, offset: u64, count: u64) -> bool
    ensures { result ≡ nat_lt limit (offset + count) }
{
    count > limit || offset > limit - count
}

/// Stages file data of the transaction at an index, and takes its blocks out of the transaction's reserve.
///
/// # Errors
///
/// Out of memory, where the store takes any: nothing has changed then.
fn stage<S: Filestore>(
    store: &mut S,
    books: &mut Books,
    index: usize,
    piece: &Piece<'_>,
) -> Result<(), Memory>
    requires laws { LowerLaws }
    requires sound { Sound (world_of (S.state store.old) books.old) }
    requires booked { IsBooked (S.state store.old) books.old }
    requires taken { IsTakenAt (world_of (S.state store.old) books.old) index piece.now }
    requires fits { piece.now.offset + length piece.now.octets < 2 ^ 64 }
    ensures stored { OnOk result (StoresAt (world_of (S.state store.old) books.old)
        (world_of (S.state store.new) books.new) index piece.now) }
    ensures sound { OnOk result (Sound (world_of (S.state store.new) books.new)) }
    ensures booked { IsBooked (S.state store.new) books.new }
    ensures err { OnErr result (world_of (S.state store.new) books.new ≡ world_of (S.state store.old) books.old) }
    ensures steady { IsSteady (S.state store.old) (S.state store.new) }
    ensures thrifty { IsTrue (S.state store.old).takes_no_memory → IsOk result }
{
    let entry = books.table.at(index);
    let slot = entry.slot();
    let taken = keep(store, slot, entry.ranges(), piece.offset, piece.octets)?;
    books.quota.took(slot, taken);
    let end = piece.offset + piece.octets.len() as u64;
    books.table.store(index, piece.offset, end, taken);
    Ok(())
}

/// What follows once file data of the transaction at an index is staged: where its EOF PDU came, it may have been the
/// last that was missing.
fn judge_last<S: Filestore>(store: &mut S, books: &mut Books, index: usize) -> Reply
    requires sound { Sound (world_of (S.state store.old) books.old) }
    requires booked { IsBooked (S.state store.old) books.old }
    requires within { index < length books.old.table }
    ensures answer { let W = world_of (S.state store.old) books.old in
        (e : Transaction) → slice_get W.table index ≡ Some e → stored e.phase W index e
        ≡ (world_of (S.state store.new) books.new, result) }
    ensures answered { IsAnswered result }
    ensures booked { IsBooked (S.state store.new) books.new }
    ensures steady { IsSteady (S.state store.old) (S.state store.new) }
{
    let entry = books.table.at(index);
    let Phase::Awaiting(_) = entry.phase() else {
        return Reply::Stored;
    };
    let Some(eof) = entry.eof() else {
        return Reply::Stored;
    };
    if !entry.is_whole(eof.size) {
        return Reply::Stored;
    }
    judge(store, books, index, eof.checksum)
}

/// Keeps octets that came at an offset: those that were received before stay, and the staged list reaches to the
/// greatest end, with zeros where nothing was received. Returns the blocks that were taken. The ranges are those
/// before: the caller adds the new one.
///
/// # Errors
///
/// Out of memory, where the store takes any: nothing has changed then. Cost: by the octets and the gaps that they
/// fill.
fn keep<S: Filestore>(
    store: &mut S,
    slot: u8,
    ranges: &Ranges,
    at: u64,
    octets: &[u8],
) -> Result<u32, Memory>
    requires slot { slot < 64 }
    requires some { 0 < length octets.now }
    requires within { at + length octets.now < 2 ^ 64 }
    requires pieces { ArePieces ranges.now (staged_in (S.state store.old).filestore slot) }
    requires zeros { staged_of (received_in ranges.now (staged_in (S.state store.old).filestore slot))
        ≡ staged_in (S.state store.old).filestore slot }
    requires room { let size = length (staged_in (S.state store.old).filestore slot) in
        blocks_of (max size (at + length octets.now)) - blocks_of size ≤ free_blocks (S.state store.old) }
    ensures kept { OnOk result (S.state store.new ≡ with_changes (S.state store.old)
        (Stages slot (staged_of (kept (S.state store.old).filestore slot ranges.now at octets.now)) ∷ [])) }
    ensures ranges { OnOk result (received_in (with_range at (at + length octets.now) ranges.now)
        (staged_in (S.state store.new).filestore slot)
        ≡ kept (S.state store.old).filestore slot ranges.now at octets.now) }
    ensures taken { IfOk result (λ taken. taken
        ≡ blocks_of (length (kept (S.state store.old).filestore slot ranges.now at octets.now))
        - blocks_of (length (staged_in (S.state store.old).filestore slot))) }
    ensures err { OnErr result (S.state store.new ≡ S.state store.old) }
    ensures thrifty { IsTrue (S.state store.old).takes_no_memory → IsOk result }
{
    let end = at + octets.len() as u64;
    let size = store.staged_size(slot).max(end);
    let taken = store.stage_extend(slot, size)?;
    put_missing(store, slot, ranges, at, octets);
    Ok(taken)
}

/// Puts the octets whose offsets are in none of the ranges into the file.
fn put_missing<S: Filestore>(store: &mut S, slot: u8, ranges: &Ranges, at: u64, octets: &[u8])
    requires slot { slot < 64 }
    requires within { at + length octets.now < 2 ^ 64 }
    requires there { at + length octets.now ≤ length (staged_in (S.state store.old).filestore slot) }
    ensures { PutsOctets ranges.now at octets.now slot (S.state store.old) (S.state store.new)
        (at + length octets.now) }
{
    // Read for its contract: a store has 64 slots, and at most 7,864,320 octets are staged in one.
    let _ = store.staged_size(slot);
    let end = at + octets.len() as u64;
    let mut from = at;
    'gaps: while let Some((start, stop)) = ranges.next_gap(from, end) {
        let piece = &octets[(start - at) as usize..(stop - at) as usize];
        store.stage_put(slot, start, piece);
        from = stop;
    }
}
