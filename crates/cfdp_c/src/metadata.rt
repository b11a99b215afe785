//! What the Metadata PDU of a transaction announced. Nothing here takes memory or changes anything.
ghost use Rattle.std.specs.Prelude.{◌≡◌};
ghost use Rattle.std.specs.Option.{option_map};
ghost use Rattle.cfdp_c.specs.Metadata.{WritesName, metadata_numbers, metadata_of};
ghost use Rattle.cfdp_c.specs.Calls.{transaction_named};
ghost use Rattle.cfdp_c.specs.Reads.{Reads};

use crate::answer::CallAnswer;
use crate::fields::MetadataNumbers;
use crate::handle::Handle;
use crate::texts::put;
use cfdp_pdus::Metadata;
use cfdp_status::TransactionId;
use std::alloc::Global;

/// The numbers of a Metadata PDU as a struct.
fn metadata_numbers(metadata: &Metadata) -> MetadataNumbers
    ensures { result ≡ metadata_numbers metadata.now }
{
    MetadataNumbers {
        size: metadata.size,
        closure: if metadata.closure { 1 } else { 0 },
        checksum_type: u32::from(metadata.checksum_type),
    }
}

/// The size, closure flag and checksum type of a transaction's Metadata PDU.
#[unsafe(no_mangle)]
pub extern "C" fn cfdp_metadata(
    alloc: Global,
    engine: &mut Handle,
    source: u64,
    number: u64,
    metadata: &mut MetadataNumbers,
) -> u32
    ensures read { Reads (λ W. option_map metadata_numbers (metadata_of W (transaction_named source number)))
        engine.old.slot.engine
        metadata.old metadata.new result }
    ensures kept { engine.new.slot.engine ≡ engine.old.slot.engine }
{
    let Some(entity) = engine.take(alloc) else {
        return CallAnswer::NoEngine.code();
    };
    let answer = match entity.core().metadata(TransactionId { source, number }) {
        None => CallAnswer::Nothing,
        Some(announced) => {
            *metadata = metadata_numbers(announced);
            CallAnswer::Done
        }
    };
    engine.put(entity);
    answer.code()
}

/// The source file name of a transaction's Metadata PDU.
#[unsafe(no_mangle)]
pub extern "C" fn cfdp_source_name(
    alloc: Global,
    engine: &mut Handle,
    source: u64,
    number: u64,
    out: &mut [u8],
    count: &mut usize,
) -> u32
    ensures name { WritesName (λ W. option_map (λ m. m.source_name) (metadata_of W (transaction_named source number)))
        engine.old.slot.engine out.old out.new count.old count.new result }
    ensures kept { engine.new.slot.engine ≡ engine.old.slot.engine }
{
    let Some(entity) = engine.take(alloc) else {
        return CallAnswer::NoEngine.code();
    };
    let answer = match entity.core().metadata(TransactionId { source, number }) {
        None => CallAnswer::Nothing,
        Some(announced) => put(&announced.source_name, out, count),
    };
    engine.put(entity);
    answer.code()
}

/// The destination file name of a transaction's Metadata PDU.
#[unsafe(no_mangle)]
pub extern "C" fn cfdp_destination_name(
    alloc: Global,
    engine: &mut Handle,
    source: u64,
    number: u64,
    out: &mut [u8],
    count: &mut usize,
) -> u32
    ensures name { WritesName (λ W. option_map (λ m. m.destination_name)
        (metadata_of W (transaction_named source number)))
        engine.old.slot.engine out.old out.new count.old count.new result }
    ensures kept { engine.new.slot.engine ≡ engine.old.slot.engine }
{
    let Some(entity) = engine.take(alloc) else {
        return CallAnswer::NoEngine.code();
    };
    let answer = match entity.core().metadata(TransactionId { source, number }) {
        None => CallAnswer::Nothing,
        Some(announced) => put(&announced.destination_name, out, count),
    };
    engine.put(entity);
    answer.code()
}
