//! A receiver in acknowledged and unacknowledged mode: `include/cfdp_receiver.h` declares these functions, and says the
//! meaning of each.
ghost use Rattle.std.specs.Prelude.{◌≡◌, None, Some, IfOk, slice_get};
ghost use Rattle.cfdp_receiver.specs.State.{CancelAsked, ClockMoved, Expire, ForgetAsked, Work, begin};
ghost use Rattle.cfdp_reception.specs.Reception.{pdus_in};
ghost use Rattle.cfdp_c.specs.Answers.{answer_code};
ghost use Rattle.cfdp_c.specs.Calls.{Frees, transaction_named};
ghost use Rattle.cfdp_c.specs.Mibs.{opened};
ghost use Rattle.cfdp_c.specs.Receiving.{ReceiverDoes, TakesFinished, ReceiverOpens, ReceiverReceives, TellsDeadline, WritesSent, WritesPdu, dropped_answer};

use crate::answer::CallAnswer;
use crate::handle::Handle;
use crate::mib::{MibFields, mib_of};
use crate::receiver_handle::ReceiverHandle;
use crate::reports::ReportFields;
use cfdp_crc::CrcFault;
use cfdp_entity::Entity;
use cfdp_receiver::{Dropped, Mib, NotWritten, Receiver};
use cfdp_reception::Reception;
use cfdp_status::TransactionId;
use std::alloc::{AllocError, Global};

/// The management information base for a receiver over an entity, or why there is none.
fn opened(fields: &MibFields, entity: &Entity) -> Result<Mib, CallAnswer>
    ensures { result ≡ opened fields.now entity.now }
{
    let mib = mib_of(fields)?;
    if let Some(fault) = mib.fault() {
        return Err(CallAnswer::of_mib(fault));
    }
    if entity.core().transaction_at(0).is_some() {
        return Err(CallAnswer::HasTransactions);
    }
    Ok(mib)
}

/// A receiver over an entity.
fn make(alloc: Global, mib: Mib, entity: Entity) -> Result<Box<Reception>, AllocError>
    ensures state { IfOk result (λ reception. reception.value.machine.state ≡ begin mib entity) }
    ensures answer { IfOk result (λ reception. reception.value.answer ≡ None) }
{
    match Receiver::new(alloc, mib, entity) {
        Ok(receiver) => Ok(Box::new(alloc, Reception::new(receiver))?),
        Err(_) => Err(AllocError),
    }
}

/// Makes a receiver over the engine of another handle, which then has none.
#[unsafe(no_mangle)]
pub extern "C" fn cfdp_receiver_new(
    alloc: Global,
    receiver: &mut ReceiverHandle,
    engine: &mut Handle,
    mib: &MibFields,
) -> u32
    ensures { ReceiverOpens mib.now engine.old.slot.engine engine.new.slot.engine receiver.old.slot.receiver
        receiver.new.slot.receiver result }
{
    if receiver.has_receiver() {
        return CallAnswer::HasEngine.code();
    }
    let Some(entity) = engine.take(alloc) else {
        return CallAnswer::NoEngine.code();
    };
    let mib = match opened(mib, &entity) {
        Ok(mib) => mib,
        Err(answer) => {
            engine.put(entity);
            return answer.code();
        }
    };
    match make(alloc, mib, Box::into_inner(entity)) {
        Ok(made) => {
            receiver.put(made);
            CallAnswer::Done.code()
        }
        Err(_) => CallAnswer::Memory.code(),
    }
}

/// Frees the receiver, with its engine and all its memory.
#[unsafe(no_mangle)]
pub extern "C" fn cfdp_receiver_free(alloc: Global, receiver: &mut ReceiverHandle) -> u32
    ensures answer { Frees receiver.old.slot.receiver result }
    ensures freed { receiver.new.slot.receiver ≡ None }
{
    match receiver.take(alloc) {
        None => CallAnswer::NoEngine.code(),
        Some(reception) => {
            drop(reception);
            CallAnswer::Done.code()
        }
    }
}

/// What is returned for octets that were dropped.
fn answer_of(why: Dropped) -> CallAnswer
    ensures { result ≡ dropped_answer why }
{
    match why {
        Dropped::Crc(CrcFault::Truncated) => CallAnswer::Truncated,
        Dropped::Crc(CrcFault::BadVersion) => CallAnswer::BadVersion,
        Dropped::Crc(CrcFault::LengthMismatch) => CallAnswer::LengthMismatch,
        Dropped::Crc(CrcFault::BadCrc) => CallAnswer::BadCrc,
        Dropped::Pdu(fault) => CallAnswer::of_fault(fault),
    }
}

/// Takes the octets of one PDU that came. The call may change them, since it takes a CRC off in place: do not use them
/// after it.
#[unsafe(no_mangle)]
pub extern "C" fn cfdp_receiver_receive(
    alloc: Global,
    receiver: &mut ReceiverHandle,
    now: u64,
    octets: &mut [u8],
    report: &mut ReportFields,
) -> u32
    ensures { ReceiverReceives now octets.old receiver.old.slot.receiver receiver.new.slot.receiver report.old
        report.new result }
{
    let Some(mut reception) = receiver.take(alloc) else {
        return CallAnswer::NoEngine.code();
    };
    let answer = match reception.receive(alloc, now, octets) {
        Ok(()) => {
            *report = ReportFields::of(&reception);
            CallAnswer::Done
        }
        Err(why) => answer_of(why),
    };
    receiver.put(reception);
    answer.code()
}

/// Time has passed: the first timer that is due is served.
#[unsafe(no_mangle)]
pub extern "C" fn cfdp_receiver_expire(
    alloc: Global,
    receiver: &mut ReceiverHandle,
    now: u64,
    report: &mut ReportFields,
) -> u32
    ensures { ReceiverDoes (Expire now) receiver.old.slot.receiver receiver.new.slot.receiver report.old report.new
        result }
{
    let Some(mut reception) = receiver.take(alloc) else {
        return CallAnswer::NoEngine.code();
    };
    reception.expire(now);
    *report = ReportFields::of(&reception);
    receiver.put(reception);
    CallAnswer::Done.code()
}

/// The next item of the first transaction that has one is performed.
#[unsafe(no_mangle)]
pub extern "C" fn cfdp_receiver_work(
    alloc: Global,
    receiver: &mut ReceiverHandle,
    now: u64,
    report: &mut ReportFields,
) -> u32
    ensures { ReceiverDoes (Work now) receiver.old.slot.receiver receiver.new.slot.receiver report.old report.new
        result }
{
    let Some(mut reception) = receiver.take(alloc) else {
        return CallAnswer::NoEngine.code();
    };
    reception.work(now);
    *report = ReportFields::of(&reception);
    receiver.put(reception);
    CallAnswer::Done.code()
}

/// The outcome of the first transaction that is over is taken.
#[unsafe(no_mangle)]
pub extern "C" fn cfdp_receiver_finish(
    alloc: Global,
    receiver: &mut ReceiverHandle,
    now: u64,
    report: &mut ReportFields,
) -> u32
    ensures { TakesFinished now receiver.old.slot.receiver receiver.new.slot.receiver report.old report.new result }
{
    let Some(mut reception) = receiver.take(alloc) else {
        return CallAnswer::NoEngine.code();
    };
    let answer = match reception.finish(alloc, now) {
        Ok(()) => {
            *report = ReportFields::of(&reception);
            CallAnswer::Done
        }
        Err(_) => CallAnswer::Memory,
    };
    receiver.put(reception);
    answer.code()
}

/// The user cancels a transaction.
#[unsafe(no_mangle)]
pub extern "C" fn cfdp_receiver_cancel(
    alloc: Global,
    receiver: &mut ReceiverHandle,
    now: u64,
    source: u64,
    number: u64,
    report: &mut ReportFields,
) -> u32
    ensures { ReceiverDoes (CancelAsked now (transaction_named source number)) receiver.old.slot.receiver
        receiver.new.slot.receiver
        report.old report.new result }
{
    let Some(mut reception) = receiver.take(alloc) else {
        return CallAnswer::NoEngine.code();
    };
    reception.cancel(now, TransactionId { source, number });
    *report = ReportFields::of(&reception);
    receiver.put(reception);
    CallAnswer::Done.code()
}

/// The names of the transactions that were closed last are forgotten.
#[unsafe(no_mangle)]
pub extern "C" fn cfdp_receiver_forget_closed(
    alloc: Global,
    receiver: &mut ReceiverHandle,
    report: &mut ReportFields,
) -> u32
    ensures { ReceiverDoes ForgetAsked receiver.old.slot.receiver receiver.new.slot.receiver report.old report.new
        result }
{
    let Some(mut reception) = receiver.take(alloc) else {
        return CallAnswer::NoEngine.code();
    };
    reception.forget_closed();
    *report = ReportFields::of(&reception);
    receiver.put(reception);
    CallAnswer::Done.code()
}

/// The driver's clock was set, back or ahead: its moment is this one by now.
#[unsafe(no_mangle)]
pub extern "C" fn cfdp_receiver_move_clock(
    alloc: Global,
    receiver: &mut ReceiverHandle,
    now: u64,
    report: &mut ReportFields,
) -> u32
    ensures { ReceiverDoes (ClockMoved now) receiver.old.slot.receiver receiver.new.slot.receiver report.old report.new
        result }
{
    let Some(mut reception) = receiver.take(alloc) else {
        return CallAnswer::NoEngine.code();
    };
    reception.move_clock(now);
    *report = ReportFields::of(&reception);
    receiver.put(reception);
    CallAnswer::Done.code()
}

/// The moment from which on a timer is due.
#[unsafe(no_mangle)]
pub extern "C" fn cfdp_receiver_deadline(
    alloc: Global,
    receiver: &mut ReceiverHandle,
    moment: &mut u64,
) -> u32
    ensures deadline { TellsDeadline receiver.old.slot.receiver moment.old moment.new result }
    ensures kept { receiver.new.slot.receiver ≡ receiver.old.slot.receiver }
{
    let Some(reception) = receiver.take(alloc) else {
        return CallAnswer::NoEngine.code();
    };
    let answer = match reception.deadline() {
        None => CallAnswer::Nothing,
        Some(due) => {
            *moment = due;
            CallAnswer::Done
        }
    };
    receiver.put(reception);
    answer.code()
}

/// Writes the PDU with this number of the last answer.
fn write_pdu(reception: &Reception, number: usize, out: &mut [u8], count: &mut usize) -> CallAnswer
    ensures { WritesSent reception.now.machine.state.mib
        (slice_get (pdus_in reception.now) number) out.old out.new count.old count.new (answer_code result) }
{
    match reception.write(number, out) {
        Ok(len) => {
            *count = len;
            CallAnswer::Done
        }
        Err(NotWritten::NoMore) => CallAnswer::Nothing,
        Err(NotWritten::TooShort) => CallAnswer::TooShort,
        // It keeps no other answer.
        Err(NotWritten::NotLast) => unreachable!(),
    }
}

/// Writes the PDU with this number of the answer to the last input.
#[unsafe(no_mangle)]
pub extern "C" fn cfdp_receiver_write(
    alloc: Global,
    receiver: &mut ReceiverHandle,
    number: usize,
    out: &mut [u8],
    count: &mut usize,
) -> u32
    ensures writes { WritesPdu number receiver.old.slot.receiver out.old out.new count.old count.new result }
    ensures kept { receiver.new.slot.receiver ≡ receiver.old.slot.receiver }
{
    let Some(reception) = receiver.take(alloc) else {
        return CallAnswer::NoEngine.code();
    };
    let answer = write_pdu(&reception, number, out, count);
    receiver.put(reception);
    answer.code()
}

/// The octets of a `struct cfdp_receiver`, for C to compare with what its header says.
#[unsafe(no_mangle)]
pub extern "C" fn cfdp_receiver_octets() -> usize
    ensures { result ≡ 16 }
{
    std::mem::size_of::<ReceiverHandle>()
}
