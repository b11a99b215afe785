//! How a live transaction changes its phase: it ends before it is done, it is done with nothing to perform, or it goes
//! on. Two events do no more than that: a request to cancel it (CCSDS 727.0-B-5, cancel procedures), and the expiry of
//! its check timer (timer procedures). Its items are performed in `step`, and its outcome is handed out in
//! `taken_outcome`.

ghost use Rattle.std.specs.Prelude.{◌≡◌, ◌<◌, IsTrue, length};
ghost use Rattle.cfdp_transactions.specs.Entry.{is_live};
ghost use Rattle.cfdp_transactions.specs.Sound.{Sound};
ghost use Rattle.cfdp_transactions.specs.Ending.{cancelled};
ghost use Rattle.cfdp_transactions.specs.Delivery.{checked};
ghost use Rattle.cfdp_transactions.specs.Books.{IsAnswered};
ghost use Rattle.cfdp_transactions.specs.code.Books.{AnswersAt, EndsAt, IsBareAt, IsBooked, IsDoneAt, IsLiveAt, IsSteady, TurnsAt, world_of};

use crate::books::Books;
use crate::{Phase, Reply};
use cfdp_actions::Filestore;
use cfdp_pdus::Eof;
use cfdp_pdus::condition::{CANCEL_REQUEST_RECEIVED, CHECK_LIMIT_REACHED};

/// The transaction at an index ends (CCSDS 727.0-B-5, cancel procedures): what is staged for it is given back, and its
/// reserve and its leases go.
pub(crate) fn end<S: Filestore>(
    store: &mut S,
    books: &mut Books,
    index: usize,
    by_eof: bool,
    condition: u8,
)
    requires sound { Sound (world_of (S.state store.old) books.old) }
    requires booked { IsBooked (S.state store.old) books.old }
    requires live { IsLiveAt (world_of (S.state store.old) books.old) index }
    ensures ends { EndsAt (world_of (S.state store.old) books.old)
        (world_of (S.state store.new) books.new) index by_eof condition }
    ensures booked { IsBooked (S.state store.new) books.new }
    ensures steady { IsSteady (S.state store.old) (S.state store.new) }
{
    let entry = books.table.at(index);
    let slot = entry.slot();
    let transaction = entry.name();
    let given = store.unstage(slot);
    books.quota.gave(slot, given);
    books.quota.close(slot);
    books.leases.release(transaction);
    books.table.end(index, condition, by_eof, given);
}

/// The transaction at an index moves to another phase.
pub(crate) fn turn<S: Filestore>(
    store: &S,
    books: &mut Books,
    index: usize,
    phase: Phase,
    eof: Option<Eof>,
    complete: bool,
)
    requires sound { Sound (world_of (S.state store.now) books.old) }
    requires booked { IsBooked (S.state store.now) books.old }
    requires live { IsLiveAt (world_of (S.state store.now) books.old) index }
    requires still { IsTrue (is_live phase) }
    ensures turns { TurnsAt (world_of (S.state store.now) books.old)
        (world_of (S.state store.now) books.new) index phase eof complete }
    ensures booked { IsBooked (S.state store.now) books.new }
{
    // Read for its contract alone: the transaction is in the table.
    let _entry = books.table.at(index);
    books.table.turn(index, phase, eof, complete);
}

/// A request to cancel the transaction at an index (CCSDS 727.0-B-5, cancel procedures).
pub(crate) fn cancel<S: Filestore>(store: &mut S, books: &mut Books, index: usize) -> Reply
    requires sound { Sound (world_of (S.state store.old) books.old) }
    requires booked { IsBooked (S.state store.old) books.old }
    requires within { index < length books.old.table }
    ensures answer { let W = world_of (S.state store.old) books.old in
        AnswersAt W (world_of (S.state store.new) books.new) index (cancelled W index) result }
    ensures answered { IsAnswered result }
    ensures booked { IsBooked (S.state store.new) books.new }
    ensures steady { IsSteady (S.state store.old) (S.state store.new) }
{
    if !books.table.at(index).phase().is_live() {
        return Reply::Idle;
    }
    end(store, books, index, false, CANCEL_REQUEST_RECEIVED);
    Reply::Cancelled
}

/// A check timer of the transaction at an index expired (timer procedures).
pub(crate) fn check<S: Filestore>(store: &mut S, books: &mut Books, index: usize) -> Reply
    requires sound { Sound (world_of (S.state store.old) books.old) }
    requires booked { IsBooked (S.state store.old) books.old }
    requires within { index < length books.old.table }
    ensures answer { let W = world_of (S.state store.old) books.old in
        AnswersAt W (world_of (S.state store.new) books.new) index (checked W index) result }
    ensures answered { IsAnswered result }
    ensures booked { IsBooked (S.state store.new) books.new }
    ensures steady { IsSteady (S.state store.old) (S.state store.new) }
{
    let entry = books.table.at(index);
    let Phase::Awaiting(checks) = entry.phase() else {
        return Reply::Idle;
    };
    if checks >= books.config.checks().saturating_sub(1) {
        end(store, books, index, false, CHECK_LIMIT_REACHED);
        return Reply::Faulted(CHECK_LIMIT_REACHED);
    }
    let (eof, complete) = (entry.eof(), entry.is_complete());
    turn(
        store,
        books,
        index,
        Phase::Awaiting(checks + 1),
        eof,
        complete,
    );
    Reply::Waiting
}

/// The transaction at an index, which has no items, is done: its reserve and its leases go.
pub(crate) fn finish<S: Filestore>(store: &S, books: &mut Books, index: usize)
    requires sound { Sound (world_of (S.state store.now) books.old) }
    requires booked { IsBooked (S.state store.now) books.old }
    requires live { IsLiveAt (world_of (S.state store.now) books.old) index }
    requires bare { IsBareAt (world_of (S.state store.now) books.old) index }
    ensures done { IsDoneAt (world_of (S.state store.now) books.old) (world_of (S.state store.now) books.new) index }
    ensures booked { IsBooked (S.state store.now) books.new }
{
    let entry = books.table.at(index);
    let (transaction, slot, eof) = (entry.name(), entry.slot(), entry.eof());
    books.table.turn(index, Phase::Done, eof, true);
    books.quota.close(slot);
    books.leases.release(transaction);
}
