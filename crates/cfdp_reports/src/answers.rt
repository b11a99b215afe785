//! All lines of an answer.

ghost use Rattle.std.specs.Prelude.{◌≡◌, ◌≤◌, ◌++◌, [], false, length, max, true, IfErr, OnOk};
ghost use Rattle.cfdp_receiver.specs.StateMachine.{answer_in, is_last};
ghost use Rattle.cfdp_receiver.specs.Sent.{longest_sealed, pdus_of};
ghost use Rattle.cfdp_reports.specs.Reports.{answer_text, send_line, send_lines, indication_lines};
ghost use Rattle.cfdp_reports.specs.declared.answers.NotReported.TheVariants.{Memory, NotLast, TooShort};

use crate::indications::push_indication;
use crate::outcomes::push_became;
use cfdp_receiver::{Answer, NotWritten, Receiver};
use cfdp_texts::encode;
use std::alloc::{AllocError, Global};

/// Why an answer was not reported. A part of its lines may have been appended.
#[derive(Clone, Copy, Debug, PartialEq, Eq)]
pub enum NotReported {
    /// The answer is not that of the last input. Its Finished PDU may have been replaced.
    NotLast,
    /// The buffer is too short for a PDU. [`Receiver::longest`] octets are always enough.
    TooShort,
    /// Out of memory.
    Memory,
}

impl From<AllocError> for NotReported {
    ghost use Rattle.std.specs.Prelude.{◌≡◌};
    ghost use Rattle.cfdp_reports.specs.declared.answers.NotReported.TheVariants.{Memory};

    ghost from_gives = { λ _ why. why ≡ Memory };

    fn from(_refused: AllocError) -> NotReported {
        NotReported::Memory
    }
}

/// Appends the line of a PDU that is sent.
fn push_sent(octets: &[u8], text: &mut Vec<u8>) -> Result<(), AllocError>
    ensures { OnOk result (text.new.items ≡ text.old.items ++ send_line octets.now) }
{
    text.extend_from_slice(b"send ")?;
    encode(octets, text)?;
    Ok(text.push(b'\n')?)
}

/// Appends the lines of all PDUs of an answer.
fn push_pdus(
    receiver: &Receiver,
    answer: &Answer,
    room: &mut [u8],
    text: &mut Vec<u8>,
) -> Result<(), NotReported>
    ensures sent { OnOk result (text.new.items ≡ text.old.items
        ++ send_lines receiver.now.state.mib (pdus_of receiver.now answer.now)) }
    ensures enough { is_last receiver.now answer.now ≡ true → max longest_sealed receiver.now.state.mib.longest_nak
        ≤ length room.old → IfErr result (λ why. why ≡ Memory) }
    ensures refused { OnOk result (is_last receiver.now answer.now ≡ false → pdus_of receiver.now answer.now ≡ []) }
    ensures not_last { IfErr result (λ why. why ≡ NotLast → is_last receiver.now answer.now ≡ false) }
    ensures too_short { IfErr result (λ why. why ≡ TooShort → is_last receiver.now answer.now ≡ true) }
{
    for number in 0..answer.pdu_count() {
        match receiver.write(answer, number, room) {
            Ok(len) => push_sent(&room[..len], text)?,
            Err(NotWritten::NotLast) => return Err(NotReported::NotLast),
            Err(_) => return Err(NotReported::TooShort),
        }
    }
    Ok(())
}

/// Appends the line of the indication of an answer, if there is one.
///
/// # Errors
///
/// [`AllocError`] when out of memory. A part of the line may have been appended.
pub fn push_indications(answer: &Answer, text: &mut Vec<u8>) -> Result<(), AllocError>
    ensures { OnOk result (text.new.items ≡ text.old.items ++ indication_lines answer.now.indications) }
{
    match answer.indication() {
        None => Ok(()),
        Some(indication) => push_indication(indication, text),
    }
}

/// Appends what a receiver answered to its last input: a line for each PDU that is sent, one for an indication, and one
/// for what became of the input. `room` is where each PDU is made: the call writes over what is in it.
///
/// # Errors
///
/// [`NotReported::Memory`] when out of memory, [`NotReported::NotLast`] where the answer has a PDU and is not that of
/// the last input, and [`NotReported::TooShort`] where `room` has no room for a PDU, which it has if it has
/// [`Receiver::longest`] octets. Cost: the octets that are written.
pub fn push_answer(
    alloc: Global,
    receiver: &Receiver,
    answer: &Answer,
    room: &mut [u8],
    text: &mut Vec<u8>,
) -> Result<(), NotReported>
    ensures ok { OnOk result (text.new.items ≡ text.old.items
        ++ answer_text receiver.now.state.mib (answer_in receiver.now answer.now)) }
    ensures enough { is_last receiver.now answer.now ≡ true → max longest_sealed receiver.now.state.mib.longest_nak
        ≤ length room.old → IfErr result (λ why. why ≡ Memory) }
    ensures refused { OnOk result (is_last receiver.now answer.now ≡ false → pdus_of receiver.now answer.now ≡ []) }
    ensures not_last { IfErr result (λ why. why ≡ NotLast → is_last receiver.now answer.now ≡ false) }
    ensures too_short { IfErr result (λ why. why ≡ TooShort → is_last receiver.now answer.now ≡ true) }
{
    push_pdus(receiver, answer, room, text)?;
    push_indications(answer, text)?;
    Ok(push_became(alloc, answer.became(), text)?)
}
