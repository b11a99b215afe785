//! What an engine says of its transactions and its blocks. Nothing here takes memory or changes anything.
ghost use Rattle.std.specs.Prelude.{◌≡◌, ◌≤◌, IfSome, length, map, slice_get};
ghost use Rattle.std.specs.Option.{option_map};
ghost use Rattle.cfdp_transactions.specs.CoreFields.{read_of};
ghost use Rattle.cfdp_transactions.specs.Entry.{gaps, name_of, progress, reach};
ghost use Rattle.cfdp_transactions.specs.World.{next_outcome, next_runnable};
ghost use Rattle.cfdp_c.specs.Calls.{transaction_named};
ghost use Rattle.cfdp_c.specs.Reads.{Reads, blocks_fields, gap_fields, gap_of, grant_fields, name_fields, phase_fields};

use crate::answer::CallAnswer;
use crate::fields::{BlocksFields, GapFields, GrantFields, NameFields, PhaseFields};
use crate::handle::Handle;
use crate::numbers;
use cfdp_actions::Filestore;
use cfdp_status::TransactionId;
use cfdp_transactions::{Core, Phase};
use cfdp_tree::TreeStore;
use std::alloc::Global;

/// A phase as a struct.
fn phase_fields(phase: Phase) -> PhaseFields
    ensures { result ≡ phase_fields phase }
{
    let (phase, detail) = match phase {
        Phase::Receiving => (numbers::PHASE_RECEIVING, 0),
        Phase::Awaiting(checks) => (numbers::PHASE_AWAITING, checks),
        Phase::Executing(item) => (numbers::PHASE_EXECUTING, u32::from(item)),
        Phase::Refused => (numbers::PHASE_REFUSED, 0),
        Phase::Done => (numbers::PHASE_DONE, 0),
        Phase::Ended(condition) => (numbers::PHASE_ENDED, u32::from(condition)),
    };
    PhaseFields { phase, detail }
}

/// The gap with this index in a transaction's file.
fn gap_at(core: &Core<TreeStore>, id: TransactionId, index: usize) -> Option<GapFields>
    ensures gap { result ≡ option_map gap_fields (gap_of (read_of gaps core.now.world id) index) }
    ensures few { IfSome (read_of gaps core.now.world id) (λ all. length all ≤ 33) }
{
    let gaps = core.gaps(id)?;
    let (start, end) = *gaps.as_slice().get(index)?;
    Some(GapFields { start, end })
}

/// The first transaction, in order of admission, whose items are being performed.
#[unsafe(no_mangle)]
pub extern "C" fn cfdp_next_runnable(
    alloc: Global,
    engine: &mut Handle,
    transaction: &mut NameFields,
) -> u32
    ensures read { Reads (λ W. option_map name_fields (next_runnable W.table)) engine.old.slot.engine transaction.old
        transaction.new result }
    ensures kept { engine.new.slot.engine ≡ engine.old.slot.engine }
{
    let Some(entity) = engine.take(alloc) else {
        return CallAnswer::NoEngine.code();
    };
    let answer = match entity.core().next_runnable() {
        None => CallAnswer::Nothing,
        Some(id) => {
            *transaction = NameFields {
                source: id.source,
                number: id.number,
            };
            CallAnswer::Done
        }
    };
    engine.put(entity);
    answer.code()
}

/// The first transaction, in order of admission, whose outcome can be taken.
#[unsafe(no_mangle)]
pub extern "C" fn cfdp_next_outcome(
    alloc: Global,
    engine: &mut Handle,
    transaction: &mut NameFields,
) -> u32
    ensures read { Reads (λ W. option_map name_fields (next_outcome W.table)) engine.old.slot.engine transaction.old
        transaction.new result }
    ensures kept { engine.new.slot.engine ≡ engine.old.slot.engine }
{
    let Some(entity) = engine.take(alloc) else {
        return CallAnswer::NoEngine.code();
    };
    let answer = match entity.core().next_outcome() {
        None => CallAnswer::Nothing,
        Some(id) => {
            *transaction = NameFields {
                source: id.source,
                number: id.number,
            };
            CallAnswer::Done
        }
    };
    engine.put(entity);
    answer.code()
}

/// The transaction with this index in order of admission, from 0.
#[unsafe(no_mangle)]
pub extern "C" fn cfdp_transaction_at(
    alloc: Global,
    engine: &mut Handle,
    index: usize,
    transaction: &mut NameFields,
) -> u32
    ensures read { Reads (λ W. option_map name_fields (slice_get (map name_of W.table) index)) engine.old.slot.engine
        transaction.old transaction.new result }
    ensures kept { engine.new.slot.engine ≡ engine.old.slot.engine }
{
    let Some(entity) = engine.take(alloc) else {
        return CallAnswer::NoEngine.code();
    };
    let answer = match entity.core().transaction_at(index) {
        None => CallAnswer::Nothing,
        Some(id) => {
            *transaction = NameFields {
                source: id.source,
                number: id.number,
            };
            CallAnswer::Done
        }
    };
    engine.put(entity);
    answer.code()
}

/// How far a transaction is.
#[unsafe(no_mangle)]
pub extern "C" fn cfdp_phase(
    alloc: Global,
    engine: &mut Handle,
    source: u64,
    number: u64,
    phase: &mut PhaseFields,
) -> u32
    ensures read { Reads (λ W. option_map phase_fields (read_of (λ e. e.phase) W (transaction_named source number)))
        engine.old.slot.engine phase.old phase.new result }
    ensures kept { engine.new.slot.engine ≡ engine.old.slot.engine }
{
    let Some(entity) = engine.take(alloc) else {
        return CallAnswer::NoEngine.code();
    };
    let answer = match entity.core().phase(TransactionId { source, number }) {
        None => CallAnswer::Nothing,
        Some(reported) => {
            *phase = phase_fields(reported);
            CallAnswer::Done
        }
    };
    engine.put(entity);
    answer.code()
}

/// What was granted to a transaction.
#[unsafe(no_mangle)]
pub extern "C" fn cfdp_grant(
    alloc: Global,
    engine: &mut Handle,
    source: u64,
    number: u64,
    grant: &mut GrantFields,
) -> u32
    ensures read { Reads (λ W. option_map grant_fields (read_of (λ e. (e.blocks_granted, e.steps_granted)) W
        (transaction_named source number))) engine.old.slot.engine grant.old grant.new result }
    ensures kept { engine.new.slot.engine ≡ engine.old.slot.engine }
{
    let Some(entity) = engine.take(alloc) else {
        return CallAnswer::NoEngine.code();
    };
    let answer = match entity.core().grant(TransactionId { source, number }) {
        None => CallAnswer::Nothing,
        Some((blocks, steps)) => {
            *grant = GrantFields { blocks, steps };
            CallAnswer::Done
        }
    };
    engine.put(entity);
    answer.code()
}

/// The blocks that a transaction took less those that it gave back.
#[unsafe(no_mangle)]
pub extern "C" fn cfdp_blocks_spent(
    alloc: Global,
    engine: &mut Handle,
    source: u64,
    number: u64,
    blocks: &mut i64,
) -> u32
    ensures read { Reads (λ W. read_of (λ e. e.blocks_spent) W
        (transaction_named source number)) engine.old.slot.engine blocks.old
        blocks.new result }
    ensures kept { engine.new.slot.engine ≡ engine.old.slot.engine }
{
    let Some(entity) = engine.take(alloc) else {
        return CallAnswer::NoEngine.code();
    };
    let answer = match entity.core().blocks_spent(TransactionId { source, number }) {
        None => CallAnswer::Nothing,
        Some(spent) => {
            *blocks = spent;
            CallAnswer::Done
        }
    };
    engine.put(entity);
    answer.code()
}

/// The steps that a transaction spent.
#[unsafe(no_mangle)]
pub extern "C" fn cfdp_steps_spent(
    alloc: Global,
    engine: &mut Handle,
    source: u64,
    number: u64,
    steps: &mut u32,
) -> u32
    ensures read { Reads (λ W. read_of (λ e. e.steps_spent) W
        (transaction_named source number)) engine.old.slot.engine steps.old
        steps.new result }
    ensures kept { engine.new.slot.engine ≡ engine.old.slot.engine }
{
    let Some(entity) = engine.take(alloc) else {
        return CallAnswer::NoEngine.code();
    };
    let answer = match entity.core().steps_spent(TransactionId { source, number }) {
        None => CallAnswer::Nothing,
        Some(spent) => {
            *steps = spent;
            CallAnswer::Done
        }
    };
    engine.put(entity);
    answer.code()
}

/// The free blocks, and the spare ones.
#[unsafe(no_mangle)]
pub extern "C" fn cfdp_blocks(alloc: Global, engine: &mut Handle, blocks: &mut BlocksFields) -> u32
    ensures read { Reads blocks_fields engine.old.slot.engine blocks.old blocks.new result }
    ensures kept { engine.new.slot.engine ≡ engine.old.slot.engine }
{
    let Some(entity) = engine.take(alloc) else {
        return CallAnswer::NoEngine.code();
    };
    let core = entity.core();
    *blocks = BlocksFields {
        free: core.store().free(),
        spare: core.spare(),
    };
    engine.put(entity);
    CallAnswer::Done.code()
}

/// What is missing of a transaction's file: the gap with this index, from 0.
#[unsafe(no_mangle)]
pub extern "C" fn cfdp_gap(
    alloc: Global,
    engine: &mut Handle,
    source: u64,
    number: u64,
    index: usize,
    gap: &mut GapFields,
) -> u32
    ensures read { Reads (λ W. option_map gap_fields (gap_of (read_of gaps W (transaction_named source number)) index))
        engine.old.slot.engine gap.old gap.new result }
    ensures few { IfSome engine.old.slot.engine (λ W. IfSome (read_of gaps W (transaction_named source number))
        (λ all. length all ≤ 33)) }
    ensures kept { engine.new.slot.engine ≡ engine.old.slot.engine }
{
    let Some(entity) = engine.take(alloc) else {
        return CallAnswer::NoEngine.code();
    };
    let answer = match gap_at(entity.core(), TransactionId { source, number }, index) {
        None => CallAnswer::Nothing,
        Some(found) => {
            *gap = found;
            CallAnswer::Done
        }
    };
    engine.put(entity);
    answer.code()
}

/// The end of the last octet of a transaction's file that is kept, as an offset.
#[unsafe(no_mangle)]
pub extern "C" fn cfdp_progress(
    alloc: Global,
    engine: &mut Handle,
    source: u64,
    number: u64,
    offset: &mut u64,
) -> u32
    ensures read { Reads (λ W. read_of progress W (transaction_named source number)) engine.old.slot.engine offset.old
        offset.new
        result }
    ensures kept { engine.new.slot.engine ≡ engine.old.slot.engine }
{
    let Some(entity) = engine.take(alloc) else {
        return CallAnswer::NoEngine.code();
    };
    let answer = match entity.core().progress(TransactionId { source, number }) {
        None => CallAnswer::Nothing,
        Some(found) => {
            *offset = found;
            CallAnswer::Done
        }
    };
    engine.put(entity);
    answer.code()
}

/// The offset up to which the gaps say what is missing of a transaction's file.
#[unsafe(no_mangle)]
pub extern "C" fn cfdp_reach(
    alloc: Global,
    engine: &mut Handle,
    source: u64,
    number: u64,
    offset: &mut u64,
) -> u32
    ensures read { Reads (λ W. read_of reach W (transaction_named source number)) engine.old.slot.engine offset.old
        offset.new
        result }
    ensures kept { engine.new.slot.engine ≡ engine.old.slot.engine }
{
    let Some(entity) = engine.take(alloc) else {
        return CallAnswer::NoEngine.code();
    };
    let answer = match entity.core().reach(TransactionId { source, number }) {
        None => CallAnswer::Nothing,
        Some(found) => {
            *offset = found;
            CallAnswer::Done
        }
    };
    engine.put(entity);
    answer.code()
}
