//! What a list of items takes, item by item.

ghost use Rattle.std.specs.Prelude.{◌≡◌, ◌++◌, ◌∷◌, [], ℕ, List, length, IfNone, IfOk, OnOk, map, min, replicate};
ghost use Rattle.std.specs.List.{AllByRecursion};
ghost use Rattle.std.specs.Option.{option_copied};
ghost use Rattle.cfdp_actions.specs.Actions.{Answer, Install, Item, Perform};
ghost use Rattle.cfdp_actions.specs.Filestore.{Filestore as FilestoreOf, blocks};
ghost use Rattle.cfdp_leases.specs.Footprint.{Footprint as FootprintOf, IsWithin};
ghost use Rattle.cfdp_leases.specs.Items.{items_of};
ghost use Rattle.cfdp_states.specs.Alone.{alone};
ghost use Rattle.cfdp_states.specs.Views.{HasRun, IsViewOf, most_count, only};
ghost use Rattle.cfdp_verdicts.specs.Costs.{costs_from, costs_of};

use cfdp_actions::{Filestore, Protected, Request};
use cfdp_leases::{footprint, laws as leases_laws};
use cfdp_paths::{Memory, Path};
use cfdp_states::{View, laws};
use std::alloc::{AllocError, Global};

/// What a list takes up to and with one of its items, when it runs alone. A number stops at the greatest u32.
#[derive(Clone, Copy, Debug, PartialEq, Eq)]
pub struct Cost {
    /// How many steps it may take.
    pub steps: u32,
    /// How many blocks more than at first are in use at most.
    pub blocks: u32,
}

/// What the items took that ran on a view.
fn cost_in(view: &View<'_>) -> Cost
    ensures { result ≡ record { steps = view.now.steps; blocks = min view.now.need most_count } }
{
    Cost {
        steps: view.steps(),
        blocks: view.need(),
    }
}

/// Runs the requests one after another on a view, up to the first that is not successful, and appends what the items so
/// far take after each.
fn add_requests(
    view: &mut View<'_>,
    requests: &[Request],
    costs: &mut Vec<Cost>,
) -> Result<(), Memory>
    ensures { OnOk result ((fp : FootprintOf) (F : FilestoreOf) (x : List ℕ) (done : List Item)
        (answers : List Answer) →
        HasRun view.old fp F x done answers → AllByRecursion (IsWithin fp) (map Perform requests.now) →
        costs.new.items ≡ costs.old.items ++ costs_from view.old.prefixes F x done (map Perform requests.now)) }
{
    laws::view_goes_on();
    laws::appended();
    let mut rest = requests;
    'requests: while let [request, others @ ..] = rest {
        let status = view.apply(request)?;
        if !status.is_successful() {
            return Ok(());
        }
        costs.push(cost_in(view))?;
        rest = others;
    }
    Ok(())
}

/// Installs a file of at most `bound` octets on a view, runs the requests after it, up to the first that is not
/// successful, and appends what the items so far take after each. Where the file may not be installed nothing is
/// appended.
fn add_all(
    view: &mut View<'_>,
    path: &Path,
    bound: u64,
    requests: &[Request],
    costs: &mut Vec<Cost>,
) -> Result<(), Memory>
    ensures { OnOk result ((fp : FootprintOf) (F : FilestoreOf) (x : List ℕ) →
        IsViewOf view.old (alone (only fp F) []) (blocks (alone (only fp F) [])) (blocks (alone (only fp F) [])) 0 →
        length x ≡ bound →
        AllByRecursion (IsWithin fp) (Install path.now ∷ map Perform requests.now) →
        costs.new.items ≡ costs.old.items ++ costs_from view.old.prefixes F x []
        (Install path.now ∷ map Perform requests.now)) }
{
    laws::view_installs();
    laws::view_refuses();
    if !view.install(path, bound)? {
        return Ok(());
    }
    costs.push(cost_in(view))?;
    add_requests(view, requests, costs)
}

/// Runs the items on a view, and appends what the items so far take after each.
fn add_items(
    view: &mut View<'_>,
    destination: Option<&Path>,
    bound: u64,
    requests: &[Request],
    costs: &mut Vec<Cost>,
) -> Result<(), Memory>
    requires { IfNone destination (bound ≡ 0) }
    ensures { OnOk result ((fp : FootprintOf) (F : FilestoreOf) →
        IsViewOf view.old (alone (only fp F) []) (blocks (alone (only fp F) [])) (blocks (alone (only fp F) [])) 0 →
        AllByRecursion (IsWithin fp) (items_of (option_copied destination.entry) requests.now) →
        costs.new.items ≡ costs.old.items
        ++ costs_of view.old.prefixes F (replicate bound 0) (items_of (option_copied destination.entry) requests.now)) }
{
    laws::view_begins();
    match destination {
        None => add_requests(view, requests, costs),
        Some(path) => add_all(view, path, bound, requests, costs),
    }
}

/// What a list of items takes up to and with each of them, as far as they succeed: the install of a file of at most
/// `bound` octets, where there is a destination, and then the requests. Steps and blocks are counted as in a verdict,
/// so a list that is granted is granted what the last of them says. Without a destination the bound has to be 0.
///
/// # Errors
///
/// Out of memory. Cost: that of the verdict.
pub fn costs<S: Filestore>(
    alloc: Global,
    store: &S,
    protected: &Protected,
    destination: Option<&Path>,
    bound: u64,
    requests: &[Request],
) -> Result<Vec<Cost>, Memory>
    requires { IfNone destination (bound ≡ 0) }
    ensures { IfOk result (λ costs. costs.items ≡ costs_of protected.now (S.state store.now).filestore
        (replicate bound 0)
        (items_of (option_copied destination.entry) requests.now)) }
{
    leases_laws::own_footprint();
    let footprint = footprint(alloc, requests, destination)?;
    let mut view = View::of(alloc, store, protected, &footprint)?;
    let mut costs = Vec::new(alloc);
    add_items(&mut view, destination, bound, requests, &mut costs)?;
    Ok(costs)
}
