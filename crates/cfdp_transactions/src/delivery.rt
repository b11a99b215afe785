//! The delivery of a transaction's file: its EOF, and what follows once all its octets are there.

ghost use Rattle.std.specs.Prelude.{◌≡◌, ◌<◌, ◌==◌, ◌||◌, nat_lt, Some, length, slice_get};
ghost use Rattle.cfdp_actions.specs.Filestore.{staged_in};
ghost use Rattle.cfdp_checksum.specs.Checksum.{checksum};
ghost use Rattle.cfdp_pdus.specs.Codes.{null_checksum_type};
ghost use Rattle.cfdp_transactions.specs.Entry.{Entry as Transaction};
ghost use Rattle.cfdp_transactions.specs.World.{bound};
ghost use Rattle.cfdp_transactions.specs.Sound.{Sound};
ghost use Rattle.cfdp_transactions.specs.Delivery.{eof_came, whole};
ghost use Rattle.cfdp_transactions.specs.Books.{IsAnswered};
ghost use Rattle.cfdp_transactions.specs.code.Books.{AnswersAt, IsBooked, IsLiveAt, IsSteady, world_of};

use crate::books::Books;
use crate::declared_file::{bound_of, names_file};
use crate::phase_changes::{end, finish, turn};
use crate::table_entry::TableEntry;
use crate::{Config, Phase, Reply};
use cfdp_actions::Filestore;
use cfdp_pdus::Eof;
use cfdp_pdus::checksum_type::NULL_CHECKSUM;
use cfdp_pdus::condition::{FILE_CHECKSUM_FAILURE, FILE_SIZE_ERROR, NO_ERROR};

/// The EOF of the transaction at an index (copy file procedures). If all octets are there, the store is asked for their
/// checksum, once.
pub(crate) fn eof<S: Filestore>(store: &mut S, books: &mut Books, index: usize, eof: Eof) -> Reply
    requires sound { Sound (world_of (S.state store.old) books.old) }
    requires booked { IsBooked (S.state store.old) books.old }
    requires within { index < length books.old.table }
    ensures answer { let W = world_of (S.state store.old) books.old in
        AnswersAt W (world_of (S.state store.new) books.new) index (eof_came W index eof) result }
    ensures answered { IsAnswered result }
    ensures booked { IsBooked (S.state store.new) books.new }
    ensures steady { IsSteady (S.state store.old) (S.state store.new) }
{
    let entry = books.table.at(index);
    let (phase, kept, complete) = (entry.phase(), entry.eof(), entry.is_complete());
    if !phase.is_live() {
        return Reply::Idle;
    }
    if eof.condition != NO_ERROR {
        end(store, books, index, true, eof.condition);
        return Reply::Faulted(eof.condition);
    }
    if !phase.is_receiving() {
        return Reply::Duplicate;
    }
    if entry.is_bare() {
        finish(store, books, index);
        return Reply::Done;
    }
    if !names_file(entry.metadata()) {
        turn(store, books, index, Phase::Executing(0), kept, true);
        return Reply::Complete;
    }
    if has_wrong_size(store, &books.config, entry, eof.size) {
        end(store, books, index, false, FILE_SIZE_ERROR);
        return Reply::Faulted(FILE_SIZE_ERROR);
    }
    if !entry.is_whole(eof.size) {
        turn(store, books, index, Phase::Awaiting(0), Some(eof), complete);
        return Reply::Waiting;
    }
    judge(store, books, index, eof.checksum)
}

/// Whether a transaction's file cannot have this size: it is above the bound, or octets came past it.
fn has_wrong_size<S: Filestore>(store: &S, config: &Config, entry: &TableEntry, size: u64) -> bool
    requires { entry.now.slot < 64 }
    ensures { result ≡ (nat_lt (bound config.now entry.now.metadata) size
        || nat_lt size (length (staged_in (S.state store.now).filestore entry.now.slot))) }
{
    size > bound_of(config, entry.metadata()) || size < store.staged_size(entry.slot())
}

/// Whether what is staged for a transaction has the checksum, or it is not looked at.
fn is_right<S: Filestore>(store: &S, entry: &TableEntry, sum: u32) -> bool
    requires { entry.now.slot < 64 }
    ensures { result ≡ ((entry.now.metadata.checksum_type == null_checksum_type)
        || (checksum (staged_in (S.state store.now).filestore entry.now.slot) == sum)) }
{
    entry.metadata().checksum_type == NULL_CHECKSUM || store.staged_checksum(entry.slot()) == sum
}

/// All octets of the file of the transaction at an index are there (copy file procedures): its items are performed from
/// now on where they have the checksum, and else it ends. The store is asked for the checksum of what is staged, once.
pub(crate) fn judge<S: Filestore>(store: &mut S, books: &mut Books, index: usize, sum: u32) -> Reply
    requires sound { Sound (world_of (S.state store.old) books.old) }
    requires booked { IsBooked (S.state store.old) books.old }
    requires live { IsLiveAt (world_of (S.state store.old) books.old) index }
    ensures answer { let W = world_of (S.state store.old) books.old in
        (e : Transaction) → slice_get W.table index ≡ Some e → whole W index e sum
        ≡ (world_of (S.state store.new) books.new, result) }
    ensures answered { IsAnswered result }
    ensures booked { IsBooked (S.state store.new) books.new }
    ensures steady { IsSteady (S.state store.old) (S.state store.new) }
{
    let entry = books.table.at(index);
    let eof = entry.eof();
    if !is_right(store, entry, sum) {
        end(store, books, index, false, FILE_CHECKSUM_FAILURE);
        return Reply::Faulted(FILE_CHECKSUM_FAILURE);
    }
    turn(store, books, index, Phase::Executing(0), eof, true);
    Reply::Complete
}
