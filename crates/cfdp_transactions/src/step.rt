//! Steps: the items of a transaction are performed one at a time.

ghost use Rattle.std.specs.Prelude.{◌≡◌, ◌+◌, ◌≤◌, ◌<◌, Some, IsTrue, length};
ghost use Rattle.cfdp_quota.specs.Budget.{entry_at, reserve_at, used};
ghost use Rattle.cfdp_transactions.specs.Sound.{Sound};
ghost use Rattle.cfdp_transactions.specs.code.LowerLaws.{LowerLaws};
ghost use Rattle.cfdp_transactions.specs.Execution.{stepped};
ghost use Rattle.cfdp_transactions.specs.Books.{IsAnswered};
ghost use Rattle.cfdp_transactions.specs.code.Books.{AnswersAt, IsBooked, IsSteady, BooksSlot, world_of};

use crate::books::Books;
use crate::item::{ItemDone, act};
use crate::{Phase, Reply};
use cfdp_actions::Filestore;
use cfdp_quota::Quota;

/// The transaction in the slot took or gave back blocks: this many were free before, and this many are free now.
pub(crate) fn book_quota(quota: &mut Quota, slot: u8, before: u32, after: u32)
    requires slot { slot < 64 }
    requires opened { entry_at quota.old slot ≡ Some (reserve_at quota.old slot) }
    requires unused { before ≡ quota.old.free }
    requires taken { before ≤ after + reserve_at quota.old slot }
    requires given { after ≤ before + used quota.old }
    ensures { BooksSlot quota.old quota.new slot before after }
{
    if after >= before {
        quota.gave(slot, after - before);
    } else {
        quota.took(slot, before - after);
    }
}

/// The next item of the transaction at an index is performed (CCSDS 727.0-B-5, filestore procedures). Out of memory,
/// nothing has changed.
pub(crate) fn step<S: Filestore>(store: &mut S, books: &mut Books, index: usize) -> Reply
    requires laws { LowerLaws }
    requires sound { Sound (world_of (S.state store.old) books.old) }
    requires booked { IsBooked (S.state store.old) books.old }
    requires within { index < length books.old.table }
    ensures answer { let W = world_of (S.state store.old) books.old in
        AnswersAt W (world_of (S.state store.new) books.new) index (stepped W index) result }
    ensures answered { IsTrue (S.state store.old).takes_no_memory → IsAnswered result }
    ensures booked { IsBooked (S.state store.new) books.new }
    ensures steady { IsSteady (S.state store.old) (S.state store.new) }
{
    let entry = books.table.at(index);
    let Phase::Executing(next) = entry.phase() else {
        return Reply::Idle;
    };
    let Some(item) = entry.item(next) else {
        return Reply::Idle;
    };
    let (transaction, slot) = (entry.name(), entry.slot());
    let install = item.is_install();
    let last = usize::from(next) + 1 == entry.item_count();
    let before = store.free();
    let Ok((reply, ticks)) = act(store, books.config.protected(), slot, item) else {
        return Reply::Memory;
    };
    let after = store.free();
    book_quota(&mut books.quota, slot, before, after);
    let done = ItemDone {
        next,
        last,
        install,
        before,
        after,
        ticks,
    };
    books.table.advance(index, done);
    if last {
        books.quota.close(slot);
        books.leases.release(transaction);
    }
    reply
}
