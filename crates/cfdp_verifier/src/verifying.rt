//! The verdict, from its first test to its last.

ghost use Rattle.std.specs.Prelude.{◌≡◌, ◌<◌, ◌≤◌, IfNone, IfOk, IsOk, length};
ghost use Rattle.cfdp_quota.specs.Budget.{spare};
ghost use Rattle.cfdp_verifier.specs.Answers.{HasFootprint, verdict_said};
ghost use Rattle.cfdp_verifier.specs.code.Answers.{GivesVerdict};
ghost use Rattle.cfdp_verifier.specs.Verdict.{verdict};

use crate::MOST_REQUESTS;
use crate::judging::judge;
use crate::parsing::parse_items;
use crate::proposal::Proposal;
use crate::refusal::{NotGranted, Refusal};
use crate::verdict::{Grant, Verdict};
use cfdp_actions::{Filestore, Protected};
use cfdp_leases::{Leases, footprint};
use cfdp_paths::Memory;
use cfdp_quota::Quota;
use std::alloc::{AllocError, Global};

/// The verdict on a list of filestore requests (CCSDS 727.0-B-5, filestore procedures), before its transaction begins:
/// it is granted exactly if it passes each test, and otherwise refused by the first that it fails. The tests, in order:
///
/// 1. It has at most 64 requests.
/// 2. Its names are paths.
/// 3. Its footprint conflicts with no lease.
/// 4. Run alone on the store as it is, with unlimited room and a file of as many octets as the bound, its file may be
///    installed.
/// 5. In that run each request is successful.
/// 6. It takes at most 65,536 steps.
/// 7. It needs no more blocks than are to spare.
///
/// The list is run on a view of kinds and sizes, never on the store. Without a destination the bound has to be 0.
///
/// # Errors
///
/// Out of memory, which a list of more than 64 requests does not take. Cost: that of reading the names, of `footprint`,
/// `Leases::conflict` and `View::of` on what they name, and of one `View::install` and a `View::apply` for each
/// request. A list with an exclusive path that is a directory with entries takes a `SparseView` instead, so that what
/// it costs does not grow with the entries of a directory that the list does not move. It takes the `View` only if the
/// `SparseView` can't say. Each list takes one `has_entries` for each exclusive path.
pub fn verify<S: Filestore>(
    alloc: Global,
    store: &S,
    leases: &Leases,
    quota: &Quota,
    protected: &Protected,
    proposal: &Proposal<'_>,
) -> Result<Verdict, Memory>
    requires bound { IfNone proposal.now.destination (proposal.now.bound ≡ 0) }
    ensures verdict { IfOk result (λ answer. verdict_said answer
        ≡ verdict protected.now (S.state store.now).filestore leases.now (spare quota.now) proposal.now) }
    ensures footprint { IfOk result HasFootprint }
    ensures lean { 64 < length proposal.now.requests → IsOk result }
{
    if proposal.requests.len() > MOST_REQUESTS {
        return Ok(Verdict::Refuse(Refusal::TooManyRequests));
    }
    match find_grant(alloc, store, leases, quota, protected, proposal) {
        Ok(grant) => Ok(Verdict::Grant(grant)),
        Err(NotGranted::Refused(refusal)) => Ok(Verdict::Refuse(refusal)),
        Err(NotGranted::Memory) => Err(AllocError),
    }
}

/// What a list of at most 64 requests is granted, or why it isn't.
fn find_grant<S: Filestore>(
    alloc: Global,
    store: &S,
    leases: &Leases,
    quota: &Quota,
    protected: &Protected,
    proposal: &Proposal<'_>,
) -> Result<Grant, NotGranted>
    requires few { length proposal.now.requests ≤ 64 }
    requires bound { IfNone proposal.now.destination (proposal.now.bound ≡ 0) }
    ensures { GivesVerdict (verdict protected.now (S.state store.now).filestore leases.now
        (spare quota.now) proposal.now)
        result }
{
    let items = parse_items(alloc, proposal)?;
    let footprint = footprint(alloc, &items.requests, items.destination.as_ref())?;
    if let Some(transaction) = leases.conflict(&footprint) {
        return Err(NotGranted::Refused(Refusal::Conflict(transaction)));
    }
    let spare = quota.spare();
    let costs = judge(
        alloc,
        store,
        protected,
        &footprint,
        &items,
        proposal.bound,
        spare,
    )?;
    Ok(Grant {
        footprint,
        requests: items.requests,
        destination: items.destination,
        blocks: costs.blocks,
        steps: costs.steps,
    })
}
