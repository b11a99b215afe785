//! What became of an input.

ghost use Rattle.std.specs.Prelude.{◌≡◌, ◌++◌, ◌∷◌, [], OnOk};
ghost use Rattle.cfdp_status.specs.Transaction.{transaction_name};
ghost use Rattle.cfdp_reports.specs.Reports.{became_text, dropped_line, is_taken, replied_line, word_text};

use cfdp_crc::CrcFault;
use cfdp_pdus::PduFault;
use cfdp_receiver::{Became, Dropped, Word};
use cfdp_status::TransactionId;
use cfdp_texts::{fault_line, not_ours_line, push_number, write_reply};
use cfdp_transactions::Reply;
use std::alloc::{AllocError, Global};

/// Appends a transaction's name: its source entity ID, a slash, and its transaction sequence number, in decimal.
///
/// # Errors
///
/// [`AllocError`] when out of memory.
#[tactic(auto, unfolding(cfdp_texts::specs::Replies::number_text))]
pub fn push_name(id: TransactionId, text: &mut Vec<u8>) -> Result<(), AllocError>
    ensures { OnOk result (text.new.items ≡ text.old.items ++ transaction_name id) }
{
    push_number(id.source, text)?;
    text.push(b'/')?;
    push_number(id.number, text)
}

/// The text of a word.
fn text_of(word: Word) -> &'static [u8]
    ensures { result.now ≡ word_text word }
{
    match word {
        Word::NotForUs => b"not-for-us",
        Word::TableFull => b"table-full",
        Word::SourcesFull => b"sources-full",
        Word::Duplicate => b"duplicate",
        Word::Idle => b"idle",
        Word::Unknown => b"unknown",
        Word::Held => b"held",
        Word::Faulted => b"faulted",
        Word::Acknowledged => b"acknowledged",
        Word::Answered => b"answered",
        Word::Cancelled => b"cancelled",
        Word::ListBegun => b"list-begun",
        Word::Expired => b"expired",
        Word::KeptAlive => b"kept-alive",
        Word::Ignored => b"ignored",
        Word::Finished => b"finished",
        Word::Closed => b"closed",
    }
}

/// Appends the line of a word.
fn push_word(id: TransactionId, word: &[u8], text: &mut Vec<u8>) -> Result<(), AllocError>
    ensures { OnOk result (text.new.items ≡ text.old.items ++ transaction_name id ++ 32 ∷ word.now ++ 10 ∷ []) }
{
    push_name(id, text)?;
    text.push(b' ')?;
    text.extend_from_slice(word)?;
    Ok(text.push(b'\n')?)
}

/// Whether a reply hands out an outcome.
fn is_taken(reply: &Reply) -> bool
    ensures { result ≡ is_taken reply.now }
{
    matches!(reply, Reply::Taken(_))
}

/// Appends the line of a reply.
fn push_replied(
    alloc: Global,
    id: TransactionId,
    reply: &Reply,
    text: &mut Vec<u8>,
) -> Result<(), AllocError>
    ensures { OnOk result (text.new.items ≡ text.old.items ++ replied_line id reply.now) }
{
    if is_taken(reply) {
        push_word(id, b"taken", text)
    } else {
        write_reply(alloc, id, reply, text)
    }
}

/// Appends what became of an input.
pub(crate) fn push_became(
    alloc: Global,
    became: &Became,
    text: &mut Vec<u8>,
) -> Result<(), AllocError>
    ensures { OnOk result (text.new.items ≡ text.old.items ++ became_text became.now) }
{
    match became {
        Became::Nothing => Ok(()),
        Became::NotOurs => text.extend_from_slice(not_ours_line()),
        Became::TooFarAhead => text.extend_from_slice(b"time too-far-ahead\n"),
        Became::Said(id, word) => push_word(*id, text_of(*word), text),
        Became::Replied(id, reply) => push_replied(alloc, *id, reply, text),
    }
}

/// The line of octets that are no PDU. Takes no memory.
pub fn dropped_line(dropped: Dropped) -> &'static [u8]
    ensures { result.now ≡ dropped_line dropped }
{
    match dropped {
        Dropped::Crc(CrcFault::Truncated) => fault_line(PduFault::Truncated),
        Dropped::Crc(CrcFault::BadVersion) => fault_line(PduFault::BadVersion),
        Dropped::Crc(CrcFault::LengthMismatch) => fault_line(PduFault::LengthMismatch),
        Dropped::Crc(CrcFault::BadCrc) => b"pdu dropped bad-crc\n",
        Dropped::Pdu(fault) => fault_line(fault),
    }
}
