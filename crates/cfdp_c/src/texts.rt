//! The lines that `replay` writes, of replies and of octets that brought none.
ghost use Rattle.std.specs.Prelude.{◌≡◌, ◌≤◌, Some, IfOk, IfSome, IsErr, IsSome, length};
ghost use Rattle.std.specs.Option.{option_copied, option_map};
ghost use Rattle.cfdp_status.specs.Codes.{beside, status_octets};
ghost use Rattle.cfdp_c.specs.Answers.{answer_code};
ghost use Rattle.cfdp_c.specs.Shown.{HasWidths, PutsText, PutsAny, ShownAsReplayed, Writes, answer_line, failure_in, longest_line, refusal_in, reply_in, reply_shown, small, status_numbered, with_end};

use crate::answer::CallAnswer;
use crate::numbers;
use crate::reply::ReplyFields;
use cfdp_pdus::PduFault;
use cfdp_status::{Status, TransactionId};
use cfdp_texts::{fault_line, not_ours_line, write_reply, write_taken};
use cfdp_transactions::Reply;
use cfdp_verifier::{Place, Refusal};
use std::alloc::{AllocError, Global};

/// A number that is an octet.
fn small(number: u32) -> Option<u8>
    ensures { result ≡ small number }
{
    u8::try_from(number).ok()
}

/// The status of a number.
fn status_of(number: u32) -> Option<Status>
    ensures { result ≡ status_numbered number }
{
    Status::of_octet(small(number)?)
}

/// The refusal of a request that would fail.
fn failure_of(fields: &ReplyFields) -> Option<Refusal>
    ensures { result ≡ failure_in fields.now }
{
    let request = small(fields.request)?;
    let status = status_of(fields.status)?;
    Some(Refusal::WouldFail(request, status))
}

/// The refusal of a struct's numbers.
fn refusal_of(fields: &ReplyFields) -> Option<Refusal>
    ensures { result ≡ refusal_in fields.now }
{
    match fields.refusal {
        numbers::REFUSAL_TOO_MANY_REQUESTS => Some(Refusal::TooManyRequests),
        numbers::REFUSAL_BAD_DESTINATION => Some(Refusal::BadPath(Place::Destination)),
        numbers::REFUSAL_BAD_REQUEST_PATH => Some(Refusal::BadPath(Place::Request(small(
            fields.request,
        )?))),
        numbers::REFUSAL_CONFLICT => Some(Refusal::Conflict(TransactionId {
            source: fields.other_source,
            number: fields.other_number,
        })),
        numbers::REFUSAL_DESTINATION_NOT_ALLOWED => Some(Refusal::DestinationNotAllowed),
        numbers::REFUSAL_WOULD_FAIL => failure_of(fields),
        numbers::REFUSAL_TOO_LONG => Some(Refusal::TooLong(fields.steps)),
        numbers::REFUSAL_NO_ROOM => Some(Refusal::NoRoom(fields.blocks, fields.spare)),
        _ => None,
    }
}

/// The reply of a struct's numbers, but for one that hands out an outcome.
fn reply_of(fields: &ReplyFields) -> Option<Reply>
    ensures { result ≡ reply_in fields.now }
{
    match fields.kind {
        numbers::REPLY_ADMITTED => Some(Reply::Admitted(fields.blocks, fields.steps)),
        numbers::REPLY_REFUSED => Some(Reply::Refused(refusal_of(fields)?)),
        numbers::REPLY_STORED => Some(Reply::Stored),
        numbers::REPLY_DROPPED => Some(Reply::Dropped),
        numbers::REPLY_COMPLETE => Some(Reply::Complete),
        numbers::REPLY_WAITING => Some(Reply::Waiting),
        numbers::REPLY_FAULTED => Some(Reply::Faulted(small(fields.condition)?)),
        numbers::REPLY_PERFORMED => Some(Reply::Performed(status_of(fields.status)?)),
        numbers::REPLY_INSTALLED => Some(Reply::Installed),
        numbers::REPLY_FINISHED => Some(Reply::Done),
        numbers::REPLY_CANCELLED => Some(Reply::Cancelled),
        numbers::REPLY_DUPLICATE => Some(Reply::Duplicate),
        numbers::REPLY_UNKNOWN => Some(Reply::Unknown),
        numbers::REPLY_IDLE => Some(Reply::Idle),
        numbers::REPLY_NOT_FOR_US => Some(Reply::NotForUs),
        numbers::REPLY_TABLE_FULL => Some(Reply::TableFull),
        _ => None,
    }
}

/// The line of a reply, if there is such a reply.
fn line_of(
    alloc: Global,
    fields: &ReplyFields,
    octets: &[u8],
) -> Result<Option<Vec<u8>>, AllocError>
    ensures line { IfOk result (λ line. option_map (λ line. line.items) line ≡ reply_shown fields.now octets.now) }
    ensures lean { IsErr result → IsSome (reply_shown fields.now octets.now) }
{
    let id = TransactionId {
        source: fields.source,
        number: fields.number,
    };
    let mut line = Vec::new(alloc);
    if fields.kind == numbers::REPLY_TAKEN {
        write_taken(id, octets, u64::from(fields.condition), &mut line)?;
        return Ok(Some(line));
    }
    let Some(reply) = reply_of(fields) else {
        return Ok(None);
    };
    write_reply(alloc, id, &reply, &mut line)?;
    Ok(Some(line))
}

/// Writes a 0 over the first octet, if there is one.
fn end(out: &mut [u8])
    ensures { out.new ≡ with_end out.old }
{
    if let [first, ..] = out {
        *first = 0;
    }
}

/// Writes a text to the beginning of a buffer, and a 0 after it where there is room, and returns its length; or returns
/// only that, where it does not fit.
pub(crate) fn put(text: &[u8], out: &mut [u8], count: &mut usize) -> CallAnswer
    ensures { PutsText text.now out.old out.new count.new (answer_code result) }
{
    *count = text.len();
    if out.len() < text.len() {
        return CallAnswer::TooShort;
    }
    out[..text.len()].copy_from_slice(text);
    end(&mut out[text.len()..]);
    CallAnswer::Done
}

/// The line that `replay` writes of a reply.
#[tactic(auto, using(crate::proofs::Shown::shown_as_replayed))]
#[unsafe(no_mangle)]
pub extern "C" fn cfdp_reply_text(
    alloc: Global,
    reply: &ReplyFields,
    octets: &[u8],
    out: &mut [u8],
    count: &mut usize,
) -> u32
    ensures text { Writes (reply_shown reply.now octets.now) out.old out.new count.old count.new result }
    ensures most { HasWidths reply.now → IfSome (reply_shown reply.now octets.now)
        (λ line. length line ≤ longest_line (length octets.now)) }
    ensures as_replay { ShownAsReplayed }
{
    match line_of(alloc, reply, octets) {
        Err(_) => CallAnswer::Memory.code(),
        Ok(None) => CallAnswer::Nothing.code(),
        Ok(Some(line)) => put(&line, out, count).code(),
    }
}

/// The line of octets that bring no event, by the answer to them.
fn answer_line(answer: u32) -> Option<&'static [u8]>
    ensures { option_copied result ≡ answer_line answer }
{
    match answer {
        numbers::ANSWER_NOT_OURS => Some(not_ours_line()),
        numbers::ANSWER_TRUNCATED => Some(fault_line(PduFault::Truncated)),
        numbers::ANSWER_BAD_VERSION => Some(fault_line(PduFault::BadVersion)),
        numbers::ANSWER_CRC_NOT_SUPPORTED => Some(fault_line(PduFault::CrcNotSupported)),
        numbers::ANSWER_LENGTH_MISMATCH => Some(fault_line(PduFault::LengthMismatch)),
        numbers::ANSWER_BAD_DIRECTIVE => Some(fault_line(PduFault::BadDirective)),
        numbers::ANSWER_BAD_TLV => Some(fault_line(PduFault::BadTlv)),
        numbers::ANSWER_REQUEST_TOO_LONG => Some(fault_line(PduFault::RequestTooLong)),
        _ => None,
    }
}

/// The line that `replay` writes of octets that bring no event.
#[tactic(auto, using(crate::proofs::LineLengths::answer_len))]
#[unsafe(no_mangle)]
pub extern "C" fn cfdp_answer_text(answer: u32, out: &mut [u8], count: &mut usize) -> u32
    ensures text { PutsAny (answer_line answer) out.old out.new count.old count.new result }
    ensures most { IfSome (answer_line answer) (λ line. length line ≤ 29) }
{
    let answer = match answer_line(answer) {
        None => CallAnswer::Nothing,
        Some(line) => put(line, out, count),
    };
    answer.code()
}
