//! A list that is run alone on a view, what it costs, and whether that can be had.

ghost use Rattle.std.specs.Prelude.{◌≡◌, ◌≤◌, IfNone, map, replicate, length, vec_len, None};
ghost use Rattle.cfdp_actions.specs.Actions.{Perform};
ghost use Rattle.cfdp_leases.specs.Footprint.{footprint_of};
ghost use Rattle.cfdp_leases.specs.Items.{items_of};
ghost use Rattle.cfdp_verifier.specs.code.Judging.{Affords, Judges, JudgesAlone, TellsRun};
ghost use Rattle.cfdp_verifier.specs.code.SparseJudging.{JudgesSparse, TellsSparseRun};
ghost use Rattle.cfdp_verifier.specs.Verdict.{judged_apart};

use crate::MOST_STEPS;
use crate::parsing::Items;
use crate::refusal::{NotGranted, Refusal};
use cfdp_actions::{Filestore, Protected, Request};
use cfdp_leases::Footprint;
use cfdp_states::{SparseView, View};
use std::alloc::Global;

/// What a list takes at most when it runs alone; what is said of each stops at the greatest u32.
#[derive(Clone, Copy, Debug)]
pub struct Costs {
    /// How many blocks more than now are in use at most.
    pub blocks: u32,
    /// How many steps are taken at most.
    pub steps: u32,
}

/// Runs the items alone. Returns their cost if it is at most 65,536 steps and `spare` blocks, else the refusal.
pub fn judge<S: Filestore>(
    alloc: Global,
    store: &S,
    protected: &Protected,
    footprint: &Footprint,
    items: &Items,
    bound: u64,
    spare: u32,
) -> Result<Costs, NotGranted>
    requires footprint { footprint.now ≡ footprint_of (items_of items.now.destination items.now.requests.items) }
    requires few { vec_len items.now.requests ≤ 64 }
    requires bound { IfNone items.now.destination (bound ≡ 0) }
    ensures { let list = items_of items.now.destination items.now.requests.items in
        Judges list (judged_apart protected.now (S.state store.now).filestore spare (replicate bound 0) list None)
        result }
{
    let view = run_alone(alloc, store, protected, footprint, items, bound)?;
    match afford(&view, spare) {
        Ok(taken) => Ok(taken),
        Err(refusal) => Err(NotGranted::Refused(refusal)),
    }
}

/// What the list cost that ran on the view, where it may have that. Takes no memory.
fn afford(view: &View<'_>, spare: u32) -> Result<Costs, Refusal>
    ensures { Affords view.now spare result }
{
    let costs = Costs {
        blocks: view.need(),
        steps: view.steps(),
    };
    if costs.steps > MOST_STEPS {
        Err(Refusal::TooLong(costs.steps))
    } else if !view.needs_at_most(spare) {
        Err(Refusal::NoRoom(costs.blocks, spare))
    } else {
        Ok(costs)
    }
}

/// Runs the items alone, with a file of as many octets as the bound: the view after them, which says what they cost,
/// or the install or the first request that does not succeed. What is below a directory is looked at only where an item
/// names it.
fn run_alone<'a, S: Filestore>(
    alloc: Global,
    store: &S,
    protected: &'a Protected,
    footprint: &Footprint,
    items: &Items,
    bound: u64,
) -> Result<View<'a>, NotGranted>
    requires footprint { footprint.now ≡ footprint_of (items_of items.now.destination items.now.requests.items) }
    requires few { vec_len items.now.requests ≤ 64 }
    requires bound { IfNone items.now.destination (bound ≡ 0) }
    ensures { JudgesAlone protected.now (S.state store.now).filestore (replicate bound 0)
        (items_of items.now.destination items.now.requests.items) result }
{
    if names_full_directory(store, footprint) {
        if let Some(view) = run_sparse(alloc, store, protected, footprint, items, bound)? {
            return Ok(view);
        }
    }
    run_open(alloc, store, protected, footprint, items, bound)
}

/// Whether one of the exclusive paths is a directory that has entries, as things are: what is below it is not looked at
/// then.
fn names_full_directory<S: Filestore>(store: &S, footprint: &Footprint) -> bool {
    let exclusive = footprint.exclusive();
    exclusive.iter().any(|path| store.has_entries(path))
}

/// Runs the items on a view of what they see; `None` where that can't say.
fn run_sparse<'a, S: Filestore>(
    alloc: Global,
    store: &S,
    protected: &'a Protected,
    footprint: &Footprint,
    items: &Items,
    bound: u64,
) -> Result<Option<View<'a>>, NotGranted>
    requires footprint { footprint.now ≡ footprint_of (items_of items.now.destination items.now.requests.items) }
    requires few { vec_len items.now.requests ≤ 64 }
    requires bound { IfNone items.now.destination (bound ≡ 0) }
    ensures { JudgesSparse protected.now (S.state store.now).filestore (replicate bound 0)
        (items_of items.now.destination items.now.requests.items) result }
{
    let destination = items.destination.as_ref();
    let made = SparseView::of(
        alloc,
        store,
        protected,
        footprint,
        destination,
        &items.requests,
    )?;
    let Some(mut view) = made else {
        return Ok(None);
    };
    if let Some(path) = &items.destination {
        if !view.install(path, bound)? {
            return Err(NotGranted::Refused(Refusal::DestinationNotAllowed));
        }
    }
    if !run_requests_sparse(&mut view, &items.requests)? {
        return Ok(None);
    }
    Ok(Some(view.into_view()))
}

/// Runs the requests one after another on a view of what they see, up to the first that is not successful; `false`
/// where the view can't describe one.
fn run_requests_sparse(view: &mut SparseView<'_>, requests: &[Request]) -> Result<bool, NotGranted>
    requires { length requests.now ≤ 64 }
    ensures { TellsSparseRun view.old.view view.new.view (map Perform requests.now) result }
{
    for (number, request) in requests.iter().enumerate() {
        let Some(status) = view.apply(request)? else {
            return Ok(false);
        };
        if !status.is_successful() {
            return Err(NotGranted::Refused(Refusal::WouldFail(number as u8, status)));
        }
    }
    Ok(true)
}

/// Runs the items on a view of all that the footprint covers.
fn run_open<'a, S: Filestore>(
    alloc: Global,
    store: &S,
    protected: &'a Protected,
    footprint: &Footprint,
    items: &Items,
    bound: u64,
) -> Result<View<'a>, NotGranted>
    requires footprint { footprint.now ≡ footprint_of (items_of items.now.destination items.now.requests.items) }
    requires few { vec_len items.now.requests ≤ 64 }
    requires bound { IfNone items.now.destination (bound ≡ 0) }
    ensures { JudgesAlone protected.now (S.state store.now).filestore (replicate bound 0)
        (items_of items.now.destination items.now.requests.items) result }
{
    let mut view = View::of(alloc, store, protected, footprint)?;
    if let Some(path) = &items.destination {
        if !view.install(path, bound)? {
            return Err(NotGranted::Refused(Refusal::DestinationNotAllowed));
        }
    }
    run_requests(&mut view, &items.requests)?;
    Ok(view)
}

/// Runs the requests one after another on the view, up to the first that is not successful.
fn run_requests(view: &mut View<'_>, requests: &[Request]) -> Result<(), NotGranted>
    requires { length requests.now ≤ 64 }
    ensures { TellsRun view.old view.new (map Perform requests.now) result }
{
    for (number, request) in requests.iter().enumerate() {
        let status = view.apply(request)?;
        if !status.is_successful() {
            return Err(NotGranted::Refused(Refusal::WouldFail(number as u8, status)));
        }
    }
    Ok(())
}
