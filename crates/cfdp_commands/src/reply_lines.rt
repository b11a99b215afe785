//! What happens to a receiving entity, and the lines that say so.
ghost use Rattle.std.specs.Prelude.{◌≡◌, ◌++◌, ℕ, List, OnOk};
ghost use Rattle.cfdp_transactions.specs.Events.{about, event_at};
ghost use Rattle.cfdp_transactions.specs.Next.{next, replies, run};
ghost use Rattle.cfdp_transactions.specs.MostSettled.{most_settled};
ghost use Rattle.cfdp_transactions.specs.Writable.{FitsReply, IsReadable};
ghost use Rattle.cfdp_entity.specs.Hearing.{heard_event};
ghost use Rattle.cfdp_commands.specs.Replay.{Running, read_and_run, steps_from};
ghost use Rattle.cfdp_texts.specs.Replies.{listing_text, reply_line, reply_lines};

use cfdp_entity::{Entity, NotHeard};
use cfdp_pdus::PduFault;
use cfdp_texts::{fault_line, not_ours_line, write_listing, write_reply};
use cfdp_transactions::{Event, MOST_SETTLED, Reply};
use std::alloc::{AllocError, Global};

/// An event happens, and the line of its reply is appended.
pub(crate) fn tell(
    alloc: Global,
    entity: &mut Entity,
    event: &Event,
    text: &mut Vec<u8>,
) -> Result<(), AllocError>
    requires { IsReadable event.now }
    ensures world { OnOk result (entity.new ≡ (next entity.old event.now).0) }
    ensures text { OnOk result (text.new.items
        ≡ text.old.items ++ reply_line (about event.now) (next entity.old event.now).1) }
{
    match entity.apply(event) {
        Reply::Memory => Err(AllocError),
        reply => write_reply(alloc, event.transaction(), &reply, text),
    }
}

/// The octets of a PDU come, and the line of what became of them is appended.
pub(crate) fn receive(
    alloc: Global,
    entity: &mut Entity,
    octets: &[u8],
    text: &mut Vec<u8>,
) -> Result<(), AllocError>
    ensures { OnOk result ((lines : List ℕ) × (read_and_run entity.old (event_at octets.now)
        ≡ (Running entity.new, lines))
        × (text.new.items ≡ text.old.items ++ lines)) }
{
    match entity.receive(alloc, octets) {
        Ok((id, reply)) => write_reply(alloc, id, &reply, text),
        Err(NotHeard::NotOurs) => text.extend_from_slice(not_ours_line()),
        Err(NotHeard::Fault(PduFault::Memory)) => Err(AllocError),
        Err(NotHeard::Fault(fault)) => text.extend_from_slice(fault_line(fault)),
    }
}

/// The next items are performed, of one transaction after the other, until none has any: at most 4,224. The lines of
/// the replies are appended.
pub(crate) fn run(alloc: Global, entity: &mut Entity, text: &mut Vec<u8>) -> Result<(), AllocError>
    ensures world { OnOk result (entity.new ≡ run entity.old (steps_from most_settled entity.old)) }
    ensures text { OnOk result (text.new.items ≡ text.old.items
        ++ reply_lines (steps_from most_settled entity.old) (replies entity.old (steps_from most_settled entity.old))) }
{
    'steps: for _ in 0..MOST_SETTLED {
        let Some(id) = entity.core().next_runnable() else {
            return Ok(());
        };
        tell(alloc, entity, &Event::Step(id), text)?;
    }
    Ok(())
}

/// The lines of what is in the filestore are appended.
pub(crate) fn list(alloc: Global, entity: &Entity, text: &mut Vec<u8>) -> Result<(), AllocError>
    ensures { OnOk result (text.new.items ≡ text.old.items ++ listing_text entity.now) }
{
    write_listing(alloc, entity.core(), text)
}
