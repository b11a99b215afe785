//! Verdicts in words.

ghost use Rattle.std.specs.Prelude.{◌≡◌, ◌++◌, [], List, OnOk, unwrap_or};
ghost use Rattle.std.specs.Option.{option_map};
ghost use Rattle.cfdp_actions.specs.Actions.{Item};
ghost use Rattle.cfdp_status.specs.Transaction.{transaction_name};
ghost use Rattle.cfdp_verifier.specs.Verdict.{Grant, Proposal as ProposalOf, Refuse};
ghost use Rattle.cfdp_verdicts.specs.Words.{bad_path_words, destination_words, failure_words, first_of, grant_words, long_words, many_words, refusal_words, room_words, second_name_of, status_in_brackets, verdict_line};

use crate::causes::push_cause;
use crate::numbers::{push_counted, push_grouped, push_text};
use crate::requests::push_numbered;
use cfdp_status::{Status, TransactionId};
use cfdp_texts::{encode, push_number, push_shown};
use cfdp_tlv::FilestoreRequest;
use cfdp_verifier::{Place, Proposal, Refusal};
use std::alloc::AllocError;

/// Appends the name of a transaction.
#[tactic(auto, unfolding(cfdp_texts::specs::Replies::number_text))]
fn push_name(id: TransactionId, text: &mut Vec<u8>) -> Result<(), AllocError>
    ensures { OnOk result (text.new.items ≡ text.old.items ++ transaction_name id) }
{
    push_number(id.source, text)?;
    text.push(b'/')?;
    push_number(id.number, text)
}

/// The destination; empty without one.
fn destination_of<'a>(proposal: &Proposal<'a>) -> &'a [u8]
    ensures { result.now ≡ unwrap_or proposal.now.destination [] }
{
    match proposal.destination {
        None => &[],
        Some(destination) => destination,
    }
}

/// Appends the destination.
#[tactic(auto, unfolding(crate::specs::Words::destination_words))]
fn push_destination(proposal: &Proposal<'_>, text: &mut Vec<u8>) -> Result<(), AllocError>
    ensures { OnOk result (text.new.items ≡ text.old.items ++ destination_words proposal.now) }
{
    text.extend_from_slice(b"the destination ")?;
    push_shown(destination_of(proposal), text)
}

/// Appends which name is no path.
#[tactic(auto, unfolding(crate::specs::Words::bad_path_words))]
fn push_bad_path(
    place: Place,
    proposal: &Proposal<'_>,
    text: &mut Vec<u8>,
) -> Result<(), AllocError>
    ensures { OnOk result (text.new.items ≡ text.old.items ++ bad_path_words place proposal.now) }
{
    match place {
        Place::Destination => {
            push_destination(proposal, text)?;
            text.extend_from_slice(b": it is no path of the filestore")
        }
        Place::Request(index) => {
            push_numbered(index, proposal.requests.get(usize::from(index)), text)?;
            text.extend_from_slice(b": a name of it is no path of the filestore")
        }
    }
}

/// The first name of a request; empty without one.
fn first_of(request: Option<&FilestoreRequest>) -> &[u8]
    ensures { result.now ≡ first_of (option_map (λ request. request.now) request.entry) }
{
    match request {
        None => &[],
        Some(request) => request.first(),
    }
}

/// The second name of a request; empty without one.
fn second_of(request: Option<&FilestoreRequest>) -> &[u8]
    ensures { result.now ≡ second_name_of (option_map (λ request. request.now) request.entry) }
{
    match request {
        None => &[],
        Some(request) => request.second().unwrap_or(&[]),
    }
}

/// Appends a status in two hexadecimal digits, in brackets.
#[tactic(auto, unfolding(crate::specs::Words::status_in_brackets, cfdp_texts::specs::Replies::two_digits))]
fn push_status(status: Status, text: &mut Vec<u8>) -> Result<(), AllocError>
    ensures { OnOk result (text.new.items ≡ text.old.items ++ status_in_brackets status) }
{
    text.extend_from_slice(b" (status ")?;
    encode(&[status.octet()], text)?;
    text.extend_from_slice(b")")
}

/// Appends which request would fail, and why.
#[tactic(auto, unfolding(crate::specs::Words::failure_words))]
fn push_failure(
    index: u8,
    status: Status,
    request: Option<&FilestoreRequest>,
    text: &mut Vec<u8>,
) -> Result<(), AllocError>
    ensures { OnOk result (text.new.items ≡ text.old.items
        ++ failure_words index status (option_map (λ request. request.now) request.entry)) }
{
    push_numbered(index, request, text)?;
    text.extend_from_slice(b": ")?;
    push_cause(status, first_of(request), second_of(request), text)?;
    push_status(status, text)
}

/// Appends that there are too many requests.
#[tactic(auto, unfolding(crate::specs::Words::many_words))]
fn push_many(requests: usize, text: &mut Vec<u8>) -> Result<(), AllocError>
    ensures { OnOk result (text.new.items ≡ text.old.items ++ many_words requests) }
{
    push_grouped(requests as u64, text)?;
    text.extend_from_slice(b" requests, and a list may have at most 64")
}

/// Appends that a list takes too many steps.
#[tactic(auto, unfolding(crate::specs::Words::long_words))]
fn push_long(steps: u32, text: &mut Vec<u8>) -> Result<(), AllocError>
    ensures { OnOk result (text.new.items ≡ text.old.items ++ long_words steps) }
{
    text.extend_from_slice(b"it may take ")?;
    push_grouped(u64::from(steps), text)?;
    push_text(b" steps, and 65,536 are granted at most", text)
}

/// Appends how many blocks are needed, and how many are to spare.
#[tactic(auto, unfolding(crate::specs::Words::room_words))]
fn push_room(wanted: u32, spare: u32, text: &mut Vec<u8>) -> Result<(), AllocError>
    ensures { OnOk result (text.new.items ≡ text.old.items ++ room_words wanted spare) }
{
    text.extend_from_slice(b"it needs ")?;
    push_counted(u64::from(wanted), b" block", b" blocks", text)?;
    text.extend_from_slice(b", and ")?;
    push_counted(u64::from(spare), b" is", b" are", text)?;
    text.extend_from_slice(b" to spare")
}

/// Appends why a list is refused.
#[tactic(auto, unfolding(crate::specs::Words::refusal_words))]
fn push_refusal(
    refusal: Refusal,
    proposal: &Proposal<'_>,
    text: &mut Vec<u8>,
) -> Result<(), AllocError>
    ensures { OnOk result (text.new.items ≡ text.old.items ++ refusal_words refusal proposal.now) }
{
    match refusal {
        Refusal::TooManyRequests => push_many(proposal.requests.len(), text),
        Refusal::BadPath(place) => push_bad_path(place, proposal, text),
        Refusal::Conflict(id) => {
            text.extend_from_slice(b"transaction ")?;
            push_name(id, text)?;
            text.extend_from_slice(b" uses a path of it")
        }
        Refusal::DestinationNotAllowed => {
            push_destination(proposal, text)?;
            text.extend_from_slice(
                b": it has no directory above it, is a directory, or is protected",
            )
        }
        Refusal::WouldFail(index, status) => {
            push_failure(
                index,
                status,
                proposal.requests.get(usize::from(index)),
                text,
            )
        }
        Refusal::TooLong(steps) => push_long(steps, text),
        Refusal::NoRoom(wanted, spare) => push_room(wanted, spare, text),
    }
}

/// Appends what is granted.
#[tactic(auto, unfolding(crate::specs::Words::grant_words))]
fn push_grant(blocks: u32, steps: u32, text: &mut Vec<u8>) -> Result<(), AllocError>
    ensures { OnOk result (text.new.items ≡ text.old.items ++ grant_words blocks steps) }
{
    push_counted(u64::from(blocks), b" block", b" blocks", text)?;
    text.extend_from_slice(b", ")?;
    push_counted(u64::from(steps), b" step", b" steps", text)
}

/// Appends the line of a transaction whose list of requests is refused, as `1/2 refused: request 2, rename a to b: b
/// exists (status 22)`. The proposal is the one that was judged. It names the request and its paths, and the cause;
/// where the status has several causes, all of them.
///
/// # Errors
///
/// Out of memory: a part of the line may have been appended. Cost: the octets of the line.
#[tactic(auto, unfolding(crate::specs::Words::verdict_words))]
pub fn push_refused(
    id: TransactionId,
    refusal: Refusal,
    proposal: &Proposal<'_>,
    text: &mut Vec<u8>,
) -> Result<(), AllocError>
    ensures { OnOk result (text.new.items ≡ text.old.items ++ verdict_line id (Refuse refusal) proposal.now) }
{
    push_name(id, text)?;
    text.extend_from_slice(b" refused: ")?;
    push_refusal(refusal, proposal, text)?;
    text.extend_from_slice(b"\n")
}

/// Appends the line of a transaction whose list of requests is admitted, as `1/2 admitted: 1,265 blocks, 12 steps`: how
/// many blocks and steps are granted to it.
///
/// # Errors
///
/// Out of memory: a part of the line may have been appended.
#[tactic(auto, unfolding(crate::specs::Words::verdict_words))]
pub fn push_admitted(
    id: TransactionId,
    blocks: u32,
    steps: u32,
    text: &mut Vec<u8>,
) -> Result<(), AllocError>
    ensures { OnOk result ((items : List Item) (P : ProposalOf) → text.new.items ≡ text.old.items
        ++ verdict_line id (Grant items blocks steps) P) }
{
    push_name(id, text)?;
    text.extend_from_slice(b" admitted: ")?;
    push_grant(blocks, steps, text)?;
    text.extend_from_slice(b"\n")
}
