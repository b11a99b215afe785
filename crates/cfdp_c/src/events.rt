//! The events of an engine: PDUs that came, and events of its own.
ghost use Rattle.std.specs.Prelude.{◌≢◌, ◌≤◌, IfSome, length};
ghost use Rattle.cfdp_transactions.specs.declared.event.Event.TheVariants.{Cancel, Check, Step, Take};
ghost use Rattle.cfdp_transactions.specs.Next.{next};
ghost use Rattle.cfdp_transactions.specs.Writable.{longest_finished};
ghost use Rattle.cfdp_entity.specs.Sending.{sent};
ghost use Rattle.cfdp_c.specs.Answers.{answer_code};
ghost use Rattle.cfdp_c.specs.declared.answer.CallAnswer.TheVariants.{Memory as OutOfMemory};
ghost use Rattle.cfdp_c.specs.Calls.{DoesEvent, Receives, Takes, transaction_named};

use crate::answer::CallAnswer;
use crate::handle::Handle;
use crate::reply::ReplyFields;
use cfdp_status::TransactionId;
use cfdp_transactions::Event;
use std::alloc::Global;

/// Takes the octets of a PDU.
#[unsafe(no_mangle)]
pub extern "C" fn cfdp_receive(
    alloc: Global,
    engine: &mut Handle,
    octets: &[u8],
    reply: &mut ReplyFields,
) -> u32
    ensures { Receives octets.now engine.old.slot.engine engine.new.slot.engine reply.old reply.new result }
{
    let Some(mut entity) = engine.take(alloc) else {
        return CallAnswer::NoEngine.code();
    };
    let answer = match entity.receive(alloc, octets) {
        Ok((id, reported)) => {
            *reply = ReplyFields::of(id, &reported);
            CallAnswer::Done
        }
        Err(why) => CallAnswer::of_unheard(why),
    };
    engine.put(entity);
    answer.code()
}

/// The next item of a transaction is performed.
#[unsafe(no_mangle)]
pub extern "C" fn cfdp_step(
    alloc: Global,
    engine: &mut Handle,
    source: u64,
    number: u64,
    reply: &mut ReplyFields,
) -> u32
    ensures { DoesEvent (Step (transaction_named source number)) engine.old.slot.engine engine.new.slot.engine reply.old
        reply.new
        result }
{
    let Some(mut entity) = engine.take(alloc) else {
        return CallAnswer::NoEngine.code();
    };
    let id = TransactionId { source, number };
    *reply = ReplyFields::of(id, &entity.step(id));
    engine.put(entity);
    CallAnswer::Done.code()
}

/// A transaction is cancelled.
#[unsafe(no_mangle)]
pub extern "C" fn cfdp_cancel(
    alloc: Global,
    engine: &mut Handle,
    source: u64,
    number: u64,
    reply: &mut ReplyFields,
) -> u32
    ensures { DoesEvent (Cancel (transaction_named source number)) engine.old.slot.engine engine.new.slot.engine
        reply.old reply.new
        result }
{
    let Some(mut entity) = engine.take(alloc) else {
        return CallAnswer::NoEngine.code();
    };
    let id = TransactionId { source, number };
    *reply = ReplyFields::of(id, &entity.cancel(id));
    engine.put(entity);
    CallAnswer::Done.code()
}

/// A transaction's check timer expired.
#[unsafe(no_mangle)]
pub extern "C" fn cfdp_check(
    alloc: Global,
    engine: &mut Handle,
    source: u64,
    number: u64,
    reply: &mut ReplyFields,
) -> u32
    ensures { DoesEvent (Check (transaction_named source number)) engine.old.slot.engine engine.new.slot.engine
        reply.old reply.new
        result }
{
    let Some(mut entity) = engine.take(alloc) else {
        return CallAnswer::NoEngine.code();
    };
    let id = TransactionId { source, number };
    *reply = ReplyFields::of(id, &entity.check(id));
    engine.put(entity);
    CallAnswer::Done.code()
}

/// The outcome of a transaction is taken, and its Finished PDU written into `out`, where it is to be sent. Takes no
/// memory.
#[unsafe(no_mangle)]
pub extern "C" fn cfdp_take(
    alloc: Global,
    engine: &mut Handle,
    source: u64,
    number: u64,
    out: &mut [u8],
    count: &mut usize,
    reply: &mut ReplyFields,
) -> u32
    ensures takes { Takes (transaction_named source number) engine.old.slot.engine engine.new.slot.engine out.old
        out.new count.old
        count.new reply.old reply.new result }
    ensures lean { result ≢ answer_code OutOfMemory }
    ensures most { IfSome engine.old.slot.engine (λ W. length
        (sent (next W (Take (transaction_named source number))).1) ≤ longest_finished) }
{
    let Some(mut entity) = engine.take(alloc) else {
        return CallAnswer::NoEngine.code();
    };
    let id = TransactionId { source, number };
    let answer = match entity.take_finished(id, out) {
        Ok(Some(taken)) => {
            *reply = ReplyFields::taken(id, taken.condition);
            *count = taken.len;
            CallAnswer::Done
        }
        Ok(None) => {
            *reply = ReplyFields::of(id, &entity.apply(&Event::Take(id)));
            *count = 0;
            CallAnswer::Done
        }
        Err(short) => {
            *count = short.needed;
            CallAnswer::TooShort
        }
    };
    engine.put(entity);
    answer.code()
}
