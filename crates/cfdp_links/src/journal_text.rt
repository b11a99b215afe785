//! The text that `links` writes of a journal.
ghost use Rattle.std.specs.Prelude.{◌≡◌, ◌++◌, codes, IfOk, OnOk};
ghost use Rattle.std.specs.List.{AllByRecursion};
ghost use Rattle.cfdp_transactions.specs.Writable.{FitsReply};
ghost use Rattle.cfdp_engine.specs.Journal.{replies_of};
ghost use Rattle.cfdp_links.specs.JournalTexts.{entry_text, entry_texts, journal_text, seat_text, seat_texts};
ghost use Rattle.cfdp_texts.specs.Replies.{labelled, line};

use cfdp_actions::Filestore;
use cfdp_engine::{JournalEntry, Seat};
use cfdp_texts::{push_labelled, push_number, write_listing, write_reply};
use cfdp_transactions::Core;
use std::alloc::{AllocError, Global};

/// Appends the line of the entry with this number.
fn push_entry(
    alloc: Global,
    index: u64,
    entry: &JournalEntry,
    text: &mut Vec<u8>,
) -> Result<(), AllocError>
    requires { FitsReply entry.now.reply }
    ensures { OnOk result (text.new.items ≡ text.old.items ++ entry_text index entry.now) }
{
    push_number(index, text)?;
    push_labelled(b" ", u64::from(entry.seat), text)?;
    text.push(b' ')?;
    let event = entry.event.event();
    write_reply(alloc, event.transaction(), &entry.reply, text)
}

/// Appends the lines of the entries, in order.
fn push_entries(
    alloc: Global,
    entries: &[JournalEntry],
    text: &mut Vec<u8>,
) -> Result<(), AllocError>
    requires { AllByRecursion FitsReply (replies_of entries.now) }
    ensures { OnOk result (text.new.items ≡ text.old.items ++ entry_texts 0 entries.now) }
{
    for (index, entry) in entries.iter().enumerate() {
        push_entry(alloc, index as u64, entry, text)?;
    }
    Ok(())
}

/// Appends the line of a seat, with how many PDUs it had that are no events.
fn push_seat(seat: &Seat, dropped: u64, text: &mut Vec<u8>) -> Result<(), AllocError>
    ensures { OnOk result (text.new.items ≡ text.old.items ++ seat_text seat.now dropped) }
{
    push_labelled(b"seat ", u64::from(seat.number()), text)?;
    push_labelled(b" ", seat.receipts().len() as u64, text)?;
    push_labelled(b" dropped ", dropped, text)?;
    Ok(text.push(b'\n')?)
}

/// Appends the lines of the seats, in order.
fn push_seats(seats: &[Seat], dropped: &[u64], text: &mut Vec<u8>) -> Result<(), AllocError>
    ensures { OnOk result (text.new.items ≡ text.old.items ++ seat_texts seats.now dropped.now) }
{
    for (index, seat) in seats.iter().enumerate() {
        let Some(dropped) = dropped.get(index) else {
            break;
        };
        push_seat(seat, *dropped, text)?;
    }
    Ok(())
}

/// Appends the line that says how many entries the journal has.
fn push_count(count: usize, text: &mut Vec<u8>) -> Result<(), AllocError>
    ensures { OnOk result (text.new.items ≡ text.old.items ++ line (labelled (codes "journal ") count)) }
{
    push_labelled(b"journal ", count as u64, text)?;
    Ok(text.push(b'\n')?)
}

/// The whole text: the entries, the seats, the journal's length, and what is in the filestore.
pub(crate) fn text_of<S: Filestore>(
    alloc: Global,
    core: &Core<S>,
    journal: &[JournalEntry],
    seats: &[Seat],
    dropped: &[u64],
) -> Result<Vec<u8>, AllocError>
    requires { AllByRecursion FitsReply (replies_of journal.now) }
    ensures { IfOk result (λ text. text.items ≡ journal_text journal.now seats.now dropped.now core.now.world) }
{
    let mut text = Vec::new(alloc);
    push_entries(alloc, journal, &mut text)?;
    push_seats(seats, dropped, &mut text)?;
    push_count(journal.len(), &mut text)?;
    write_listing(alloc, core, &mut text)?;
    Ok(text)
}
