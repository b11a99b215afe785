//! The lines that `replay` writes of replies, and of PDUs that are no events.
ghost use Rattle.std.specs.Prelude.{◌≡◌, ◌++◌, OnOk};
ghost use Rattle.cfdp_status.specs.Codes.{octet_of};
ghost use Rattle.cfdp_status.specs.Transaction.{transaction_name};
ghost use Rattle.cfdp_transactions.specs.Writable.{FitsReply, IsWritable};
ghost use Rattle.cfdp_texts.specs.Replies.{failure_text, fault_line, finished_text, grant_text, labelled, line, not_ours, number_text, place_text, refusal_text, reply_line, reply_text, StartsAs, taken_text, two_digits, word};

use crate::encoding::encode;
use cfdp_pdus::PduFault;
use cfdp_status::{Status, TransactionId};
use cfdp_transactions::{Outcome, Reply};
use cfdp_verifier::{Place, Refusal};
use itoa::Buffer;
use std::alloc::{AllocError, Global};

/// Appends a number in decimal.
///
/// # Errors
///
/// Out of memory: the text begins with what it was. Cost: the octets that it appends.
#[tactic(auto, unfolding(crate::specs::Replies::number_text))]
pub fn push_number(number: u64, text: &mut Vec<u8>) -> Result<(), AllocError>
    ensures ok { OnOk result (text.new.items ≡ text.old.items ++ number_text number) }
    ensures begins { StartsAs text.old.items text.new.items }
{
    let mut buffer = Buffer::new();
    text.extend_from_slice(buffer.format(number).as_bytes())
}

/// Appends a label, and a number in decimal.
///
/// # Errors
///
/// Out of memory: the text begins with what it was. Cost: the octets that it appends.
#[tactic(auto, unfolding(crate::specs::Replies::labelled))]
pub fn push_labelled(label: &[u8], number: u64, text: &mut Vec<u8>) -> Result<(), AllocError>
    ensures ok { OnOk result (text.new.items ≡ text.old.items ++ labelled label.now number) }
    ensures begins { StartsAs text.old.items text.new.items }
{
    text.extend_from_slice(label)?;
    push_number(number, text)
}

/// Appends a transaction's name.
#[tactic(auto, unfolding(crate::specs::Replies::number_text))]
fn push_name(id: TransactionId, text: &mut Vec<u8>) -> Result<(), AllocError>
    ensures ok { OnOk result (text.new.items ≡ text.old.items ++ transaction_name id) }
    ensures begins { StartsAs text.old.items text.new.items }
{
    push_number(id.source, text)?;
    text.push(b'/')?;
    push_number(id.number, text)
}

/// Appends a status in two hexadecimal digits.
#[tactic(auto, unfolding(crate::specs::Replies::two_digits))]
fn push_status(status: Status, text: &mut Vec<u8>) -> Result<(), AllocError>
    ensures ok { OnOk result (text.new.items ≡ text.old.items ++ two_digits (octet_of status)) }
    ensures begins { StartsAs text.old.items text.new.items }
{
    encode(&[status.octet()], text)
}

/// Appends which name is no path.
fn push_place(place: Place, text: &mut Vec<u8>) -> Result<(), AllocError>
    ensures ok { OnOk result (text.new.items ≡ text.old.items ++ place_text place) }
    ensures begins { StartsAs text.old.items text.new.items }
{
    match place {
        Place::Destination => text.extend_from_slice(b"bad-path destination"),
        Place::Request(number) => push_labelled(b"bad-path ", u64::from(number), text),
    }
}

/// Appends which request would fail, and with which status.
fn push_failure(number: u8, status: Status, text: &mut Vec<u8>) -> Result<(), AllocError>
    ensures ok { OnOk result (text.new.items ≡ text.old.items ++ failure_text number status) }
    ensures begins { StartsAs text.old.items text.new.items }
{
    push_labelled(b"would-fail ", u64::from(number), text)?;
    text.push(b' ')?;
    push_status(status, text)
}

/// Appends what was granted.
fn push_grant(blocks: u64, steps: u64, text: &mut Vec<u8>) -> Result<(), AllocError>
    ensures ok { OnOk result (text.new.items ≡ text.old.items ++ grant_text blocks steps) }
    ensures begins { StartsAs text.old.items text.new.items }
{
    text.extend_from_slice(b"admitted ")?;
    push_labelled(b"blocks ", blocks, text)?;
    push_labelled(b" steps ", steps, text)
}

/// Appends why a list of requests was refused.
fn push_refusal(refusal: Refusal, text: &mut Vec<u8>) -> Result<(), AllocError>
    ensures ok { OnOk result (text.new.items ≡ text.old.items ++ refusal_text refusal) }
    ensures begins { StartsAs text.old.items text.new.items }
{
    match refusal {
        Refusal::TooManyRequests => text.extend_from_slice(b"too-many-requests"),
        Refusal::BadPath(place) => push_place(place, text),
        Refusal::Conflict(id) => {
            text.extend_from_slice(b"conflict ")?;
            push_name(id, text)
        }
        Refusal::DestinationNotAllowed => text.extend_from_slice(b"destination"),
        Refusal::WouldFail(number, status) => push_failure(number, status, text),
        Refusal::TooLong(steps) => push_labelled(b"too-long ", u64::from(steps), text),
        Refusal::NoRoom(wanted, spare) => {
            push_labelled(b"no-room ", u64::from(wanted), text)?;
            push_labelled(b" ", u64::from(spare), text)
        }
    }
}

/// Appends the octets of a Finished PDU in hexadecimal, or, where there are none, the condition code.
fn push_taken(octets: &[u8], condition: u64, text: &mut Vec<u8>) -> Result<(), AllocError>
    ensures ok { OnOk result (text.new.items ≡ text.old.items ++ taken_text octets.now condition) }
    ensures begins { StartsAs text.old.items text.new.items }
{
    if octets.is_empty() {
        return push_labelled(b"ended ", condition, text);
    }
    text.extend_from_slice(b"finished ")?;
    encode(octets, text)
}

/// Appends what is written of an outcome, which can be written.
fn push_outcome(alloc: Global, outcome: &Outcome, text: &mut Vec<u8>) -> Result<(), AllocError>
    requires { IsWritable outcome.now }
    ensures ok { OnOk result (text.new.items ≡ text.old.items ++ finished_text outcome.now) }
    ensures begins { StartsAs text.old.items text.new.items }
{
    push_taken(
        &outcome.octets(alloc)?,
        u64::from(outcome.finished.condition),
        text,
    )
}

/// Appends what is written of a reply.
fn push_reply(alloc: Global, reply: &Reply, text: &mut Vec<u8>) -> Result<(), AllocError>
    requires { FitsReply reply.now }
    ensures ok { OnOk result (text.new.items ≡ text.old.items ++ reply_text reply.now) }
    ensures begins { StartsAs text.old.items text.new.items }
{
    match reply {
        Reply::Admitted(blocks, steps) => {
            push_grant(u64::from(*blocks), u64::from(*steps), text)
        }
        Reply::Refused(refusal) => {
            text.extend_from_slice(b"refused ")?;
            push_refusal(*refusal, text)
        }
        Reply::Faulted(condition) => push_labelled(b"faulted ", u64::from(*condition), text),
        Reply::Performed(status) => {
            text.extend_from_slice(b"performed ")?;
            push_status(*status, text)
        }
        Reply::Taken(outcome) => push_outcome(alloc, outcome.outcome(), text),
        Reply::Stored => text.extend_from_slice(b"stored"),
        Reply::Dropped => text.extend_from_slice(b"dropped"),
        Reply::Complete => text.extend_from_slice(b"complete"),
        Reply::Waiting => text.extend_from_slice(b"waiting"),
        Reply::Installed => text.extend_from_slice(b"installed"),
        Reply::Done => text.extend_from_slice(b"done"),
        Reply::Cancelled => text.extend_from_slice(b"cancelled"),
        Reply::Duplicate => text.extend_from_slice(b"duplicate"),
        Reply::Unknown => text.extend_from_slice(b"unknown"),
        Reply::Idle => text.extend_from_slice(b"idle"),
        Reply::NotForUs => text.extend_from_slice(b"not-for-us"),
        Reply::TableFull => text.extend_from_slice(b"table-full"),
        Reply::Memory => text.extend_from_slice(b"out-of-memory"),
        Reply::JournalFull => text.extend_from_slice(b"journal-full"),
    }
}

/// Appends the line of a reply about a transaction, whose outcome, if it brings one, can be written.
///
/// # Errors
///
/// Out of memory: the text begins with what it was, and a part of the line may follow.
pub fn write_reply(
    alloc: Global,
    id: TransactionId,
    reply: &Reply,
    text: &mut Vec<u8>,
) -> Result<(), AllocError>
    requires { FitsReply reply.now }
    ensures ok { OnOk result (text.new.items ≡ text.old.items ++ reply_line id reply.now) }
    ensures begins { StartsAs text.old.items text.new.items }
{
    push_name(id, text)?;
    text.push(b' ')?;
    push_reply(alloc, reply, text)?;
    Ok(text.push(b'\n')?)
}

/// Appends the line of an outcome that was handed out, from the octets of its Finished PDU, none where it is not sent,
/// and its condition code.
///
/// # Errors
///
/// Out of memory: the text begins with what it was, and a part of the line may follow. Cost: the octets that it
/// appends.
pub fn write_taken(
    id: TransactionId,
    octets: &[u8],
    condition: u64,
    text: &mut Vec<u8>,
) -> Result<(), AllocError>
    ensures ok { OnOk result (text.new.items ≡ text.old.items
        ++ line (transaction_name id ++ word (taken_text octets.now condition))) }
    ensures begins { StartsAs text.old.items text.new.items }
{
    push_name(id, text)?;
    text.push(b' ')?;
    push_taken(octets, condition, text)?;
    Ok(text.push(b'\n')?)
}

/// The line of octets that are no PDU.
pub fn fault_line(fault: PduFault) -> &'static [u8]
    ensures { result.now ≡ fault_line fault }
{
    match fault {
        PduFault::Truncated => b"pdu dropped truncated\n",
        PduFault::BadVersion => b"pdu dropped bad-version\n",
        PduFault::CrcNotSupported => b"pdu dropped crc\n",
        PduFault::LengthMismatch => b"pdu dropped length-mismatch\n",
        PduFault::BadDirective => b"pdu dropped bad-directive\n",
        PduFault::BadTlv => b"pdu dropped bad-tlv\n",
        PduFault::RequestTooLong => b"pdu dropped request-too-long\n",
        PduFault::Memory => b"pdu dropped out-of-memory\n",
    }
}

/// The line of a PDU that is not for the receiver of a file.
pub fn not_ours_line() -> &'static [u8]
    ensures { result.now ≡ not_ours }
{
    b"pdu not-ours\n"
}
