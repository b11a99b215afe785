//! What a script asks of a receiving entity.

ghost use Rattle.std.specs.Prelude.{◌≡◌, ◌++◌, flat_map, OnOk};
ghost use Rattle.cfdp_transactions.specs.World.{entry_of};
ghost use Rattle.cfdp_receiver.specs.State.{session_of};
ghost use Rattle.cfdp_receiver.specs.Turning.{gaps_at};
ghost use Rattle.cfdp_run.specs.Questions.{core_word, gaps_line, gaps_text, phase_line, phase_text, phase_word, range_text, ranges_text, stage_word, name_word, whole_of};

use cfdp_directives::{NakRange, TransactionStatus};
use cfdp_receiver::Receiver;
use cfdp_reports::push_name;
use cfdp_sessions::Stage;
use cfdp_status::TransactionId;
use cfdp_texts::push_labelled;
use cfdp_transactions::Phase;
use std::alloc::AllocError;

/// Appends a range of octets.
fn push_range(range: NakRange, text: &mut Vec<u8>) -> Result<(), AllocError>
    ensures { OnOk result (text.new.items ≡ text.old.items ++ range_text range) }
{
    push_labelled(b" ", range.0, text)?;
    push_labelled(b"-", range.1, text)
}

/// Appends ranges of octets.
fn push_each(ranges: &[NakRange], text: &mut Vec<u8>) -> Result<(), AllocError>
    ensures { OnOk result (text.new.items ≡ text.old.items ++ flat_map range_text ranges.now) }
{
    for range in ranges {
        push_range(*range, text)?;
    }
    Ok(())
}

/// Appends ranges of octets, or that there is none.
fn push_ranges(ranges: &[NakRange], text: &mut Vec<u8>) -> Result<(), AllocError>
    ensures { OnOk result (text.new.items ≡ text.old.items ++ ranges_text ranges.now) }
{
    if ranges.is_empty() {
        text.extend_from_slice(b" none")
    } else {
        push_each(ranges, text)
    }
}

/// Appends what is missing of a file whose EOF PDU is held: all of it.
fn push_whole(size: u64, text: &mut Vec<u8>) -> Result<(), AllocError>
    ensures { OnOk result (text.new.items ≡ text.old.items ++ ranges_text (whole_of size)) }
{
    if size == 0 {
        text.extend_from_slice(b" none")
    } else {
        push_range((0, size), text)
    }
}

/// Appends what is missing of a transaction that the core knows.
fn push_gaps(receiver: &Receiver, id: TransactionId, text: &mut Vec<u8>) -> Result<(), AllocError>
    ensures { OnOk result (text.new.items ≡ text.old.items
        ++ ranges_text (gaps_at (entry_of receiver.now.state.world id))) }
{
    match receiver.entity().core().gaps(id) {
        None => text.extend_from_slice(b" none"),
        Some(gaps) => push_ranges(gaps.as_slice(), text),
    }
}

/// Appends what is missing of a transaction.
fn push_missing(
    receiver: &Receiver,
    id: TransactionId,
    text: &mut Vec<u8>,
) -> Result<(), AllocError>
    ensures { OnOk result (text.new.items ≡ text.old.items
        ++ gaps_text receiver.now.state.world id (session_of receiver.now.state id)) }
{
    let Some(session) = receiver.session(id) else {
        return text.extend_from_slice(b" unknown");
    };
    match session.stage {
        Stage::Held(eof) => push_whole(eof.size, text),
        Stage::Known => push_gaps(receiver, id, text),
        Stage::Over(_) => text.extend_from_slice(b" none"),
        Stage::Waiting => text.extend_from_slice(b" none"),
    }
}

/// Appends the line of a question for what is missing of a transaction: the ranges that a NAK PDU would ask for now.
///
/// # Errors
///
/// [`AllocError`] when out of memory.
pub fn push_gaps_line(
    receiver: &Receiver,
    id: TransactionId,
    text: &mut Vec<u8>,
) -> Result<(), AllocError>
    ensures { OnOk result (text.new.items ≡ text.old.items ++ gaps_line receiver.now.state id) }
{
    push_name(id, text)?;
    text.extend_from_slice(b" gaps")?;
    push_missing(receiver, id, text)?;
    Ok(text.push(b'\n')?)
}

/// How far a transaction of the core is.
fn phase_text(phase: Phase) -> &'static [u8]
    ensures { result.now ≡ phase_text phase }
{
    match phase {
        Phase::Receiving => b"receiving",
        Phase::Awaiting(_) => b"awaiting",
        Phase::Executing(_) => b"other",
        Phase::Refused => b"other",
        Phase::Done => b"other",
        Phase::Ended(_) => b"other",
    }
}

/// How far a transaction is that the core may know.
fn core_word(receiver: &Receiver, id: TransactionId) -> &'static [u8]
    ensures { result.now ≡ core_word (entry_of receiver.now.state.world id) }
{
    match receiver.entity().core().phase(id) {
        None => b"other",
        Some(phase) => phase_text(phase),
    }
}

/// How far a transaction without a session is.
fn name_word(status: TransactionStatus) -> &'static [u8]
    ensures { result.now ≡ name_word status }
{
    match status {
        TransactionStatus::Terminated => b"closed",
        TransactionStatus::Undefined => b"unknown",
        TransactionStatus::Active => b"unknown",
        TransactionStatus::Unrecognized => b"unknown",
    }
}

/// How far a transaction is, in a word.
fn phase_word(receiver: &Receiver, id: TransactionId) -> &'static [u8]
    ensures { result.now ≡ phase_word receiver.now.state id (session_of receiver.now.state id) }
{
    let Some(session) = receiver.session(id) else {
        return name_word(receiver.status(id));
    };
    match session.stage {
        Stage::Held(_) => b"held",
        Stage::Known => core_word(receiver, id),
        Stage::Over(_) => b"over",
        Stage::Waiting => b"waiting",
    }
}

/// Appends the line of a question for how far a transaction is.
///
/// # Errors
///
/// [`AllocError`] when out of memory.
pub fn push_phase_line(
    receiver: &Receiver,
    id: TransactionId,
    text: &mut Vec<u8>,
) -> Result<(), AllocError>
    ensures { OnOk result (text.new.items ≡ text.old.items ++ phase_line receiver.now.state id) }
{
    push_name(id, text)?;
    text.extend_from_slice(b" phase ")?;
    text.extend_from_slice(phase_word(receiver, id))?;
    Ok(text.push(b'\n')?)
}
