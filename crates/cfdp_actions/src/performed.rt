//! Filestore requests, performed on any store, and what they come to.

ghost use Rattle.std.specs.Prelude.{◌≡◌, ◌+◌, ◌≤◌, IsTrue, IsOk, IfOk, OnOk, OnErr};
ghost use Rattle.cfdp_actions.specs.Actions.{Performed as Status_of, succeeded, table, ticks};
ghost use Rattle.cfdp_actions.specs.Store.{free_blocks, with_changes};
ghost use Rattle.cfdp_actions.specs.Performing.{performed_outcome};

use crate::{Filestore, Protected, Request, refusal, rows};
use cfdp_paths::Memory;
use cfdp_status::Status;

/// How a request went, and the ticks that it took: blocks taken, blocks given back, and blocks whose octets were moved.
#[derive(Clone, Copy, Debug, PartialEq, Eq)]
pub struct Performed {
    /// How it went.
    pub status: Status,
    /// The ticks; 0 where it was not successful.
    pub ticks: u32,
}

/// Performs a filestore request on a store (CCSDS 727.0-B-5, filestore procedures), except where the prefixes bar it.
///
/// Status, state after and ticks are those of the action table. It may ask for memory only where the table's answer
/// is successful; when out of memory the store is as before.
///
/// Cost: at most two comparisons with each prefix, the reads of [`refusal`], a `free` where blocks are taken, the
/// `size` of each file that is joined, one `kind` more of a path that is denied, and the change.
pub fn perform<S: Filestore>(
    store: &mut S,
    protected: &Protected,
    request: &Request,
) -> Result<Performed, Memory>
    ensures status { IfOk result (λ done. Status_of done.status
        ≡ (performed_outcome protected.now (S.state store.old) request.now).answer) }
    ensures ticks { IfOk result (λ done. done.ticks
        ≡ ticks (performed_outcome protected.now (S.state store.old) request.now)) }
    ensures state { OnOk result (S.state store.new
        ≡ with_changes (S.state store.old) (performed_outcome protected.now (S.state store.old) request.now).changes) }
    ensures err { OnErr result (S.state store.new ≡ S.state store.old) }
    ensures thrifty { IsTrue (S.state store.old).takes_no_memory → IsOk result }
    ensures lean { OnErr result
        (IsTrue (succeeded (performed_outcome protected.now (S.state store.old) request.now).answer)) }
{
    let action = request.action();
    if protected.bars(request) {
        return Ok(refused(Status::NotAllowed(action)));
    }
    if let Some(status) = refusal(&*store, request) {
        return Ok(refused(status));
    }
    if !rows::has_room(store, request) {
        return Ok(refused(Status::NotAllowed(action)));
    }
    let ticks = rows::change(store, request)?;
    Ok(Performed {
        status: Status::Successful(action),
        ticks,
    })
}

/// Performs a filestore request that the action table allows (CCSDS 727.0-B-5, filestore procedures): that was found
/// out before, so the store is not asked again what exists at its paths. The state after and the ticks are those of the
/// action table.
///
/// # Errors
///
/// Out of memory, where the store takes any: it is as before.
///
/// Cost: that of the change, and one `kind` of a path that is denied.
pub fn perform_allowed<S: Filestore>(store: &mut S, request: &Request) -> Result<Performed, Memory>
    requires allowed { IsTrue (succeeded (table (S.state store.old).filestore request.now).answer) }
    requires room { let o = table (S.state store.old).filestore request.now in
        o.taken ≤ free_blocks (S.state store.old) + o.given }
    ensures status { IfOk result (λ done. Status_of done.status
        ≡ (table (S.state store.old).filestore request.now).answer) }
    ensures ticks { IfOk result (λ done. done.ticks ≡ ticks (table (S.state store.old).filestore request.now)) }
    ensures state { OnOk result (S.state store.new
        ≡ with_changes (S.state store.old) (table (S.state store.old).filestore request.now).changes) }
    ensures err { OnErr result (S.state store.new ≡ S.state store.old) }
    ensures thrifty { IsTrue (S.state store.old).takes_no_memory → IsOk result }
{
    let ticks = rows::change(store, request)?;
    Ok(Performed {
        status: Status::Successful(request.action()),
        ticks,
    })
}

/// A status that is not successful: no change, no tick.
fn refused(status: Status) -> Performed
    ensures { result ≡ record { status = status; ticks = 0 } }
{
    Performed { status, ticks: 0 }
}
