//! What a receiver says of its filestore and of its transactions. Nothing here takes memory or changes anything.
ghost use Rattle.std.specs.Prelude.{◌≡◌};
ghost use Rattle.std.specs.Option.{option_map};
ghost use Rattle.cfdp_c.specs.Metadata.{WritesName, metadata_of};
ghost use Rattle.cfdp_c.specs.Calls.{transaction_named};
ghost use Rattle.cfdp_c.specs.Next.{TellsNext};
ghost use Rattle.cfdp_c.specs.Receiving.{world_in};
ghost use Rattle.cfdp_c.specs.Stored.{LooksUp, ReadsFile};

use crate::answer::CallAnswer;
use crate::fields::{EntryFields, PathFields};
use crate::next::go_on_from;
use crate::receiver_handle::ReceiverHandle;
use crate::store::{copy_path, tell_entry};
use crate::texts::put;
use cfdp_status::TransactionId;
use std::alloc::Global;

/// What exists at a path of the filestore.
#[unsafe(no_mangle)]
pub extern "C" fn cfdp_receiver_look_up(
    alloc: Global,
    receiver: &mut ReceiverHandle,
    path: &PathFields,
    entry: &mut EntryFields,
) -> u32
    ensures read { LooksUp path.now (world_in receiver.old.slot.receiver) entry.old entry.new result }
    ensures kept { receiver.new.slot.receiver ≡ receiver.old.slot.receiver }
{
    let Some(reception) = receiver.take(alloc) else {
        return CallAnswer::NoEngine.code();
    };
    let answer = tell_entry(reception.entity().core(), path, entry);
    receiver.put(reception);
    answer.code()
}

/// A file's octets from an offset on.
#[unsafe(no_mangle)]
pub extern "C" fn cfdp_receiver_read(
    alloc: Global,
    receiver: &mut ReceiverHandle,
    path: &PathFields,
    at: u64,
    out: &mut [u8],
    count: &mut usize,
) -> u32
    ensures read { ReadsFile path.now (world_in receiver.old.slot.receiver) at out.old out.new count.old count.new
        result }
    ensures kept { receiver.new.slot.receiver ≡ receiver.old.slot.receiver }
{
    let Some(reception) = receiver.take(alloc) else {
        return CallAnswer::NoEngine.code();
    };
    let answer = copy_path(reception.entity().core(), path, at, out, count);
    receiver.put(reception);
    answer.code()
}

/// The entry of the filestore that comes next after a path, in path order.
#[unsafe(no_mangle)]
pub extern "C" fn cfdp_receiver_next(
    alloc: Global,
    receiver: &mut ReceiverHandle,
    path: &mut PathFields,
    entry: &mut EntryFields,
) -> u32
    ensures read { TellsNext path.old (world_in receiver.old.slot.receiver) path.new entry.old entry.new result }
    ensures kept { receiver.new.slot.receiver ≡ receiver.old.slot.receiver }
{
    let Some(reception) = receiver.take(alloc) else {
        return CallAnswer::NoEngine.code();
    };
    let answer = go_on_from(reception.entity().core(), path, entry);
    receiver.put(reception);
    answer.code()
}

/// The destination file name of a transaction's Metadata PDU.
#[unsafe(no_mangle)]
pub extern "C" fn cfdp_receiver_destination_name(
    alloc: Global,
    receiver: &mut ReceiverHandle,
    source: u64,
    number: u64,
    out: &mut [u8],
    count: &mut usize,
) -> u32
    ensures name { WritesName (λ W. option_map (λ m. m.destination_name)
        (metadata_of W (transaction_named source number)))
        (world_in receiver.old.slot.receiver) out.old out.new count.old count.new result }
    ensures kept { receiver.new.slot.receiver ≡ receiver.old.slot.receiver }
{
    let Some(reception) = receiver.take(alloc) else {
        return CallAnswer::NoEngine.code();
    };
    let answer = match reception
        .entity()
        .core()
        .metadata(TransactionId { source, number })
    {
        None => CallAnswer::Nothing,
        Some(announced) => put(&announced.destination_name, out, count),
    };
    receiver.put(reception);
    answer.code()
}
