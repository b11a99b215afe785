//! The outcome of a transaction, which is taken once it is over (CCSDS 727.0-B-5 §5.2.3, copy file procedures).

ghost use Rattle.std.specs.Prelude.{◌≡◌, ℕ, ◌<◌, ◌≤◌, [], IfErr, IfOk, IsFalse, length, slice_get, vec_capacity, vec_len, Some, None};
ghost use Rattle.cfdp_status.specs.declared.status.Status.TheVariants.{Successful, NotPerformed};
ghost use Rattle.cfdp_actions.specs.Filestore.{Filestore as Files};
ghost use Rattle.cfdp_status.specs.Codes.{action_of};
ghost use Rattle.cfdp_transactions.specs.Books.{IsAnswered};
ghost use Rattle.cfdp_transactions.specs.code.Books.{AnswersAt, IsBooked, IsLiveAt, world_of};
ghost use Rattle.cfdp_transactions.specs.Ending.{taken_out};
ghost use Rattle.cfdp_transactions.specs.Entry.{Entry as Transaction, has_file, is_live};
ghost use Rattle.cfdp_transactions.specs.code.FinishedInBuffer.{FallsShort, Issues};
ghost use Rattle.cfdp_transactions.specs.Outcome.{condition_of, fault_location_of, file_status_of, outcome_of, responses_of};
ghost use Rattle.cfdp_transactions.specs.code.TableEntries.{entry_in};
ghost use Rattle.cfdp_transactions.specs.Sound.{Sound};
ghost use Rattle.cfdp_transactions.specs.code.TakenOutcome.{answered_by, statuses_of};
ghost use Rattle.cfdp_transactions.specs.Writable.{IsWritable};

use crate::books::Books;
use crate::declared_file::names_file;
use crate::finished_in_buffer::{ShortBuffer, TakenFinished, put_finished};
use crate::outcome::{Outcome, SharedOutcome};
use crate::table_entry::TableEntry;
use crate::{Phase, Reply};
use cfdp_actions::Filestore;
use cfdp_paths::Memory;
use cfdp_pdus::condition::{FILESTORE_REJECTION, NO_ERROR, UNSUPPORTED_CHECKSUM_TYPE};
use cfdp_pdus::file_status::{DISCARDED, REJECTED, RETAINED, UNREPORTED};
use cfdp_pdus::{Finished, Header};
use cfdp_status::{Action, Status};
use cfdp_tlv::{FilestoreRequest, FilestoreResponse};
use std::alloc::Global;
use std::sync::Arc;

/// The transaction at an index is forgotten, and its outcome handed out: the reply, twice. Out of memory, nothing has
/// changed. Cost: a copy of its requests' names.
pub(crate) fn take<S: Filestore>(
    alloc: Global,
    store: &S,
    books: &mut Books,
    index: usize,
) -> (Reply, Reply)
    requires booked { IsBooked (S.state store.now) books.old }
    requires within { index < length books.old.table }
    ensures answer { let W = world_of (S.state store.now) books.old in
        AnswersAt W (world_of (S.state store.now) books.new) index (taken_out W index) result.0 }
    ensures lean { IsLiveAt (world_of (S.state store.now) books.old) index → IsAnswered result.0 }
    ensures same { result.1 ≡ result.0 }
    ensures booked { IsBooked (S.state store.now) books.new }
{
    let entry = books.table.at(index);
    if entry.phase().is_live() {
        return (Reply::Idle, Reply::Idle);
    }
    let Ok((outcome, again)) = make_handles(alloc, entry) else {
        return (Reply::Memory, Reply::Memory);
    };
    books.table.forget(index);
    (Reply::Taken(outcome), Reply::Taken(again))
}

/// Like `take`, but returns the reply once: the names of the requests are moved into the outcome. Out of memory,
/// nothing has changed. Cost: two allocations, a move of each request, and the drop of the rest of what the table has.
pub(crate) fn take_moved<S: Filestore>(
    alloc: Global,
    store: &S,
    books: &mut Books,
    index: usize,
) -> Reply
    requires booked { IsBooked (S.state store.now) books.old }
    requires within { index < length books.old.table }
    ensures answer { let W = world_of (S.state store.now) books.old in
        AnswersAt W (world_of (S.state store.now) books.new) index (taken_out W index) result }
    ensures lean { IsLiveAt (world_of (S.state store.now) books.old) index → IsAnswered result }
    ensures booked { IsBooked (S.state store.now) books.new }
{
    let entry = books.table.at(index);
    if entry.phase().is_live() {
        return Reply::Idle;
    }
    let outcome = bare_outcome(alloc, entry);
    let performed = usize::from(entry.performed());
    let Ok(room) = Vec::with_capacity(alloc, entry.metadata().requests.len()) else {
        return Reply::Memory;
    };
    let Ok(mut handle) = SharedOutcome::new(alloc, bare_outcome(alloc, entry)) else {
        return Reply::Memory;
    };
    let Some(shared) = Arc::get_mut(&mut handle.shared) else {
        return Reply::Memory;
    };
    let requests = books.table.take_out(index).into_requests();
    *shared = with_responses(outcome, responses_to(requests, performed, room));
    Reply::Taken(handle)
}

/// Like `take`, for an outcome that the caller made before: the transaction at an index is forgotten, and the outcome
/// handed out. Out of memory, nothing has changed. Cost: one allocation.
pub(crate) fn hand_out<S: Filestore>(
    alloc: Global,
    store: &S,
    books: &mut Books,
    index: usize,
    outcome: Outcome,
) -> Reply
    requires booked { IsBooked (S.state store.now) books.old }
    requires within { index < length books.old.table }
    requires made { (e : Transaction) → slice_get (world_of (S.state store.now) books.old).table index ≡ Some e →
        IsFalse (is_live e.phase) → outcome ≡ outcome_of e }
    ensures answer { let W = world_of (S.state store.now) books.old in
        AnswersAt W (world_of (S.state store.now) books.new) index (taken_out W index) result }
    ensures booked { IsBooked (S.state store.now) books.new }
{
    if books.table.at(index).phase().is_live() {
        return Reply::Idle;
    }
    let Ok(shared) = SharedOutcome::new(alloc, outcome) else {
        return Reply::Memory;
    };
    books.table.forget(index);
    Reply::Taken(shared)
}

/// The transaction at an index is forgotten, and its Finished PDU written to the front of a buffer: what is said of it.
/// `None` where it is live, which changes nothing.
///
/// # Errors
///
/// The buffer is too short: nothing has changed. Takes no memory. Cost: the octets that it writes, and the drop of what
/// the table has.
pub(crate) fn take_finished<S: Filestore>(
    alloc: Global,
    store: &S,
    books: &mut Books,
    index: usize,
    out: &mut [u8],
) -> Result<Option<TakenFinished>, ShortBuffer>
    requires booked { IsBooked (S.state store.now) books.old }
    requires within { index < length books.old.table }
    requires writable { let W = world_of (S.state store.now) books.old in
        (e : Transaction) → slice_get W.table index ≡ Some e → IsFalse (is_live e.phase) → IsWritable (outcome_of e) }
    ensures ok { let W = world_of (S.state store.now) books.old in
        IfOk result (λ returned. (e : Transaction) → slice_get W.table index ≡ Some e →
        Issues (taken_out W index (Some e)) (world_of (S.state store.now) books.new) out.old out.new returned) }
    ensures err { let W = world_of (S.state store.now) books.old in
        IfErr result (λ short. (e : Transaction) → slice_get W.table index ≡ Some e →
        FallsShort (taken_out W index (Some e)) W (world_of (S.state store.now) books.new) out.old out.new short) }
    ensures booked { IsBooked (S.state store.now) books.new }
{
    let entry = books.table.at(index);
    if entry.phase().is_live() {
        return Ok(None);
    }
    let outcome = bare_outcome(alloc, entry);
    let condition = outcome.finished.condition;
    let performed = usize::from(entry.performed());
    match put_finished(&outcome, &entry.metadata().requests, performed, out) {
        Err(short) => Err(short),
        Ok(len) => {
            books.table.forget(index);
            Ok(Some(TakenFinished { condition, len }))
        }
    }
}

/// Two handles of the outcome of a transaction that is over.
fn make_handles(alloc: Global, entry: &TableEntry) -> Result<(SharedOutcome, SharedOutcome), Memory>
    ensures outcome { IfOk result (λ both. (F : Files) → both.0 ≡ outcome_of (entry_in F entry.now)) }
    ensures same { IfOk result (λ both. both.1 ≡ both.0) }
{
    let outcome = SharedOutcome::new(alloc, make_outcome(alloc, entry)?)?;
    let again = outcome.share()?;
    Ok((outcome, again))
}

/// The outcome of a transaction that is over.
pub(crate) fn make_outcome(alloc: Global, entry: &TableEntry) -> Result<Outcome, Memory>
    ensures { IfOk result (λ outcome. (F : Files) → outcome ≡ outcome_of (entry_in F entry.now)) }
{
    let requests = &entry.metadata().requests;
    let responses = make_responses(alloc, requests, usize::from(entry.performed()))?;
    Ok(with_responses(bare_outcome(alloc, entry), responses))
}

/// The outcome of a transaction that is over, without the responses to its requests. Takes no memory.
fn bare_outcome(alloc: Global, entry: &TableEntry) -> Outcome
    ensures { (F : Files) → result ≡ answered_by [] (outcome_of (entry_in F entry.now)) }
{
    let header = entry.header();
    let finished = Finished {
        condition: condition_of(entry.phase()),
        incomplete: !entry.is_complete(),
        file_status: file_status(entry),
        responses: Vec::new(alloc),
        fault: find_fault(entry),
    };
    Outcome {
        header: Header {
            toward_sender: true,
            ..*header
        },
        finished,
        send: header.acknowledged || entry.metadata().closure,
    }
}

/// The outcome with these responses instead of its own.
fn with_responses(outcome: Outcome, responses: Vec<FilestoreResponse>) -> Outcome
    ensures { result ≡ answered_by responses.items outcome }
{
    let Outcome {
        header,
        finished,
        send,
    } = outcome;
    let finished = Finished {
        responses,
        ..finished
    };
    Outcome {
        header,
        finished,
        send,
    }
}

/// The condition code of the outcome.
fn condition_of(phase: Phase) -> u8
    ensures { result ≡ condition_of phase }
{
    match phase {
        Phase::Refused => FILESTORE_REJECTION,
        Phase::Ended(condition) => condition,
        Phase::Receiving | Phase::Awaiting(_) | Phase::Executing(_) | Phase::Done => NO_ERROR,
    }
}

/// What became of the file.
fn file_status(entry: &TableEntry) -> u8
    ensures { (F : Files) → result ≡ file_status_of (entry_in F entry.now) }
{
    if !names_file(entry.metadata()) {
        UNREPORTED
    } else if entry.is_installed() {
        RETAINED
    } else if entry.phase() == Phase::Refused {
        REJECTED
    } else {
        DISCARDED
    }
}

/// Who is at fault: nobody where there is no error or the checksum type is not supported, the sender where its EOF said
/// so, and else this entity.
fn find_fault(entry: &TableEntry) -> Option<u64>
    ensures { (F : Files) → result ≡ fault_location_of (entry_in F entry.now) }
{
    let condition = condition_of(entry.phase());
    if condition == NO_ERROR || condition == UNSUPPORTED_CHECKSUM_TYPE {
        None
    } else if entry.is_ended_by_eof() {
        Some(entry.header().source)
    } else {
        Some(entry.header().destination)
    }
}

/// The status of the request of this number: the first ones were performed, and each of them was successful.
pub(crate) fn status_of(action: Action, number: usize, performed: usize) -> Status
    ensures performed { number < performed → result ≡ Successful action }
    ensures left { performed ≤ number → result ≡ NotPerformed action }
    ensures action { action_of result ≡ action }
{
    if number < performed {
        Status::successful(action)
    } else {
        Status::not_performed(action)
    }
}

/// One response for each request, in order, with a copy of its names.
fn make_responses(
    alloc: Global,
    requests: &[FilestoreRequest],
    performed: usize,
) -> Result<Vec<FilestoreResponse>, Memory>
    ensures { IfOk result (λ responses. responses.items ≡ responses_of requests.now
        (statuses_of performed requests.now)) }
{
    let mut responses = Vec::with_capacity(alloc, requests.len())?;
    for (index, request) in requests.iter().enumerate() {
        let status = status_of(request.action(), index, performed);
        responses.push(request.copy(alloc)?.into_response(status))?;
    }
    Ok(responses)
}

/// One response for each request, in order, with its names. Takes no memory.
fn responses_to(
    requests: Vec<FilestoreRequest>,
    performed: usize,
    room: Vec<FilestoreResponse>,
) -> Vec<FilestoreResponse>
    requires empty { room.items ≡ [] }
    requires room { vec_len requests ≤ vec_capacity room }
    ensures { result.items ≡ responses_of requests.items (statuses_of performed requests.items) }
{
    let mut responses = room;
    for request in requests {
        let status = status_of(request.action(), responses.len(), performed);
        responses.push_reserved(request.into_response(status));
    }
    responses
}
